//! Coordinates of rows in a basis in reduced row form: the entries at its pivots.
ghost use Rattle.std.specs.Prelude.{◌≡◌, ◌<◌, ◌++◌, ℕ, IfOk, OnOk, length, map, slice_index};
ghost use Rattle.linear_algebra.specs.Rank.{IsInSpan};
ghost use Rattle.linear_algebra.specs.Rows.{IsRow};
ghost use Rattle.linear_algebra.specs.Reduced.{pivot, pivots_of};
ghost use Rattle.linear_algebra.specs.Typed.{as_mat, as_row};
ghost use Rattle.fp_linear.specs.Matrix.{PlainMatrix, plain, IsMatrix};
ghost use Rattle.row_spaces.specs.RowSpaces.{typed, IsReducedMatrix, AreCoordinates};

use fp_linear::Matrix;
use std::alloc::{AllocError, Global};

/// For each row the place of its first entry that is not zero, or the number of columns; for a matrix in reduced row form its pivots.
pub fn pivots(alloc: Global, matrix: &Matrix) -> Result<Vec<u32>, AllocError>
    ensures { IfOk result (λ v. v.items ≡ pivots_of matrix.now.rows) }
{
    let mut pivots = Vec::with_capacity(alloc, matrix.rows() as usize)?;
    for i in 0..matrix.rows() {
        pivots.push(first_nonzero(matrix, i))?;
    }
    Ok(pivots)
}

// The place of the first entry of row `i` that is not zero; the number of columns where there is none.
fn first_nonzero(matrix: &Matrix, i: u32) -> u32
    requires { i < matrix.now.row_count }
    ensures { result ≡ pivot matrix.now.rows i }
{
    let row = matrix.row(i);
    for j in 0..matrix.cols() {
        if row[j as usize] != 0 {
            return j;
        }
    }
    matrix.cols()
}

/// The one list of coefficients by which the row `x` is a combination of the rows of a basis in reduced row form.
pub fn coordinates(alloc: Global, basis: &Matrix, x: &[u8]) -> Result<Vec<u8>, AllocError>
    requires row { IsRow basis.now.field basis.now.col_count x.now }
    requires reduced { IsReducedMatrix (typed basis.now) }
    requires inside { IsInSpan (typed basis.now) (as_row basis.now.field basis.now.col_count x.now) }
    ensures row { IfOk result (λ c. IsRow basis.now.field basis.now.row_count c.items) }
    ensures coordinates { IfOk result (λ c. AreCoordinates (typed basis.now) (as_row basis.now.field basis.now.col_count x.now) (as_row basis.now.field basis.now.row_count c.items)) }
{
    let pivots = pivots(alloc, basis)?;
    let mut coefficients = Vec::with_capacity(alloc, basis.rows() as usize)?;
    push_at(x, &pivots, &mut coefficients)?;
    Ok(coefficients)
}

/// The coefficients by which each row of a matrix is a combination of the rows of a basis in reduced row form.
pub fn coordinates_of_rows(
    alloc: Global,
    basis: &Matrix,
    matrix: &Matrix,
) -> Result<Matrix, AllocError>
    requires field { matrix.now.field ≡ basis.now.field }
    requires width { matrix.now.col_count ≡ basis.now.col_count }
    requires reduced { IsReducedMatrix (typed basis.now) }
    requires inside { IsInSpan (typed basis.now) (as_mat basis.now.field matrix.now.row_count basis.now.col_count matrix.now.rows) }
    ensures shape { IfOk result (λ m. m ≡ plain basis.now.field matrix.now.row_count basis.now.row_count m.rows) }
    ensures matrix { IfOk result IsMatrix }
    ensures coordinates { IfOk result (λ m. AreCoordinates (typed basis.now) (as_mat basis.now.field matrix.now.row_count basis.now.col_count matrix.now.rows)
        (as_mat basis.now.field matrix.now.row_count basis.now.row_count m.rows)) }
{
    let pivots = pivots(alloc, basis)?;
    let field = basis.field();
    let rows = matrix.rows();
    let count = basis.rows();
    let mut entries = Vec::with_capacity(alloc, rows as usize * count as usize)?;
    for i in 0..rows {
        push_at(matrix.row(i), &pivots, &mut entries)?;
    }
    let coefficients = Matrix::from_entries(alloc, field, rows, count, &entries)?;
    Ok(coefficients)
}

// Adds the entries of a row at these places.
fn push_at(row: &[u8], places: &[u32], entries: &mut Vec<u8>) -> Result<(), AllocError>
    requires { (k : ℕ) → k < length places.now → slice_index places.now k < length row.now }
    ensures { OnOk result (entries.new.items ≡ entries.old.items ++ map (slice_index row.now) places.now) }
{
    for place in places {
        entries.push(row[*place as usize])?;
    }
    Ok(())
}
