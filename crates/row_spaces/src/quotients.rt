//! Quotients by spaces of rows.
ghost use Rattle.std.specs.Prelude.{◌≡◌, ◌≢◌, ◌*◌, ◌<◌, ◌≤◌, ℕ, IfOk, length, slice_index};
ghost use Rattle.linear_algebra.specs.RowForm.{IsCoReduced};
ghost use Rattle.linear_algebra.specs.Rows.{entry};
ghost use Rattle.linear_algebra.specs.Typed.{as_mat};
ghost use Rattle.fp_linear.specs.Matrix.{PlainMatrix, plain, IsMatrix, most_entries};
ghost use Rattle.row_spaces.specs.RowSpaces.{typed, IsQuotientBy};

use crate::orthogonal::orthogonal_rows;
use fp_linear::Matrix;
use std::alloc::{AllocError, Global};

/// The co-reduced projection onto the quotient of all rows by the span of the rows of the matrix.
pub fn quotient_projection(alloc: Global, matrix: Matrix) -> Result<Matrix, AllocError>
    requires { matrix.col_count * matrix.col_count ≤ most_entries }
    ensures shape { IfOk result (λ m. m ≡ plain matrix.field matrix.col_count m.col_count m.rows) }
    ensures matrix { IfOk result IsMatrix }
    ensures quotient { IfOk result (λ m. IsQuotientBy (typed matrix) (as_mat matrix.field matrix.col_count m.col_count m.rows)) }
{
    let columns = orthogonal_rows(alloc, matrix)?;
    let onto = columns.transpose(alloc)?;
    Ok(onto)
}

/// The rows of a co-reduced matrix that are the unit rows, in the order of the columns: for each column the last row that is not zero there.
pub fn places(alloc: Global, projection: &Matrix) -> Result<Vec<u32>, AllocError>
    requires { (place : ℕ → ℕ) × IsCoReduced (typed projection.now) place }
    ensures count { IfOk result (λ v. length v.items ≡ projection.now.col_count) }
    ensures places { IfOk result (λ v. IsCoReduced (typed projection.now) (slice_index v.items)) }
{
    let mut places = Vec::with_capacity(alloc, projection.cols() as usize)?;
    for column in 0..projection.cols() {
        places.push(last_nonzero(projection, column))?;
    }
    Ok(places)
}

// The last row that is not zero in this column; 0 where there is none.
fn last_nonzero(matrix: &Matrix, column: u32) -> u32
    requires { column < matrix.now.col_count }
    ensures { (p : ℕ) → p < matrix.now.row_count → entry matrix.now.rows p column ≢ 0
        → ((i : ℕ) → p < i → i < matrix.now.row_count → entry matrix.now.rows i column ≡ 0) → result ≡ p }
{
    for i in (0..matrix.rows()).rev() {
        if matrix.row(i)[column as usize] != 0 {
            return i;
        }
    }
    0
}
