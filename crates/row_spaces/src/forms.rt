//! Reduced row form as a matrix of its own.
ghost use Rattle.std.specs.Prelude.{◌≡◌, ◌≤◌, IfOk, take};
ghost use Rattle.linear_algebra.specs.Typed.{as_mat};
ghost use Rattle.fp_linear.specs.Matrix.{PlainMatrix, plain, IsMatrix};
ghost use Rattle.row_spaces.specs.RowSpaces.{typed, IsRowFormOf};

use fp_linear::{Matrix, echelon_in_place};
use std::alloc::{AllocError, Global};

/// The basis in reduced row form of the span of the rows. It has as many rows as the rank says.
pub fn reduced_rows(alloc: Global, mut matrix: Matrix) -> Result<Matrix, AllocError>
    ensures shape { IfOk result (λ m. m ≡ plain matrix.field m.row_count matrix.col_count m.rows) }
    ensures matrix { IfOk result IsMatrix }
    ensures form { IfOk result (λ m. IsRowFormOf (typed matrix) (as_mat matrix.field m.row_count matrix.col_count m.rows)) }
{
    let mut pivots = vec![in alloc; 0u32; matrix.rows() as usize]?;
    let rank = echelon_in_place(&mut matrix, &mut pivots);
    let basis = first_rows(alloc, &matrix, rank)?;
    Ok(basis)
}

/// The first rows of a matrix, as many as `count` says.
pub(crate) fn first_rows(alloc: Global, matrix: &Matrix, count: u32) -> Result<Matrix, AllocError>
    requires { count ≤ matrix.now.row_count }
    ensures { IfOk result (λ m. m ≡ plain matrix.now.field count matrix.now.col_count (take count matrix.now.rows)) }
{
    let cols = matrix.cols();
    let mut entries = Vec::with_capacity(alloc, count as usize * cols as usize)?;
    for i in 0..count {
        entries.extend_from_slice(matrix.row(i))?;
    }
    let rows = Matrix::from_entries(alloc, matrix.field(), count, cols, &entries)?;
    Ok(rows)
}
