//! The rows to which the rows of a matrix are orthogonal, by one for each column without a pivot.
ghost use Rattle.std.specs.Prelude.{◌≡◌, ◌≢◌, ◌*◌, ◌<◌, ◌≤◌, ℕ, IfOk, length, slice_index, take};
ghost use Rattle.linear_algebra.specs.Reduced.{IsReduced, pivots_of};
ghost use Rattle.linear_algebra.specs.Separators.{IsFunctionalAt};
ghost use Rattle.linear_algebra.specs.Typed.{as_mat};
ghost use Rattle.fp_linear.specs.Matrix.{PlainMatrix, plain, IsMatrix, most_entries};
ghost use Rattle.fp_linear.specs.Slices.{AreElements};
ghost use Rattle.row_spaces.specs.RowSpaces.{typed};
ghost use Rattle.row_spaces.specs.FreeColumns.{AreFree, AreFunctionals, IsOrthogonalBasis};

use crate::columns::free_columns;
use fp_linear::{Matrix, echelon_in_place};
use std::alloc::{AllocError, Global};

/// For each column without a pivot, in their order, the row with 1 there, zeros at the other such columns, and at the pivots what makes the rows of the
/// matrix orthogonal to it.
pub(crate) fn orthogonal_rows(alloc: Global, mut matrix: Matrix) -> Result<Matrix, AllocError>
    requires { matrix.col_count * matrix.col_count ≤ most_entries }
    ensures shape { IfOk result (λ m. m ≡ plain matrix.field m.row_count matrix.col_count m.rows) }
    ensures matrix { IfOk result IsMatrix }
    ensures basis { IfOk result (λ m. IsOrthogonalBasis (typed matrix) (as_mat matrix.field m.row_count matrix.col_count m.rows)) }
{
    let field = matrix.field();
    let cols = matrix.cols();
    let mut pivots = vec![in alloc; 0u32; matrix.rows() as usize]?;
    let rank = echelon_in_place(&mut matrix, &mut pivots) as usize;
    let free = free_columns(alloc, cols, &pivots[..rank])?;
    let count = free.len();
    let mut entries = vec![in alloc; 0u8; count * cols as usize]?;
    write_functionals(&matrix, &pivots[..rank], &free, &mut entries);
    let rows = Matrix::from_entries(alloc, field, count as u32, cols, &entries)?;
    Ok(rows)
}

// Writes the rows of the free columns over zeros.
fn write_functionals(matrix: &Matrix, pivots: &[u32], free: &[u32], entries: &mut [u8])
    requires count { length pivots.now ≤ matrix.now.row_count }
    requires shape { length entries.old ≡ length free.now * matrix.now.col_count }
    requires reduced { IsReduced matrix.now.col_count (take (length pivots.now) matrix.now.rows) }
    requires pivots { pivots.now ≡ pivots_of (take (length pivots.now) matrix.now.rows) }
    requires free { AreFree matrix.now.col_count pivots.now free.now }
    requires zero { (k : ℕ) → slice_index entries.old k ≡ 0 }
    ensures functionals { AreFunctionals matrix.now.field matrix.now.col_count (take (length pivots.now) matrix.now.rows) free.now entries.new }
    ensures elements { AreElements matrix.now.field entries.new }
{
    let cols = matrix.cols() as usize;
    for j in 0..free.len() {
        let start = j * cols;
        let end = start + cols;
        write_functional(matrix, pivots, free[j], &mut entries[start..end]);
    }
}

// Writes the row of a column, which is no pivot, over zeros.
fn write_functional(matrix: &Matrix, pivots: &[u32], column: u32, functional: &mut [u8])
    requires count { length pivots.now ≤ matrix.now.row_count }
    requires width { length functional.old ≡ matrix.now.col_count }
    requires column_inside { column < matrix.now.col_count }
    requires reduced { IsReduced matrix.now.col_count (take (length pivots.now) matrix.now.rows) }
    requires pivots { pivots.now ≡ pivots_of (take (length pivots.now) matrix.now.rows) }
    requires apart { (i : ℕ) → i < length pivots.now → slice_index pivots.now i ≢ column }
    requires zero { (k : ℕ) → slice_index functional.old k ≡ 0 }
    ensures functional { IsFunctionalAt matrix.now.field matrix.now.col_count (take (length pivots.now) matrix.now.rows) column functional.new }
    ensures elements { AreElements matrix.now.field functional.new }
{
    let field = matrix.field();
    functional[column as usize] = 1;
    for i in 0..pivots.len() {
        let entry = matrix.row(i as u32)[column as usize];
        functional[pivots[i] as usize] = field.neg(entry);
    }
}
