//! Matrices on a quotient.
ghost use Rattle.std.specs.Prelude.{◌≡◌, ◌*◌, ℕ, IfOk};
ghost use Rattle.linear_algebra.specs.Matrix.{Row, zeros, ◌·◌};
ghost use Rattle.linear_algebra.specs.RowForm.{IsCoReduced};
ghost use Rattle.linear_algebra.specs.Typed.{as_mat};
ghost use Rattle.fp_linear.specs.Matrix.{PlainMatrix, plain, IsMatrix};
ghost use Rattle.row_spaces.specs.RowSpaces.{typed, IsFactor};

use crate::quotients::places;
use fp_linear::Matrix;
use std::alloc::{AllocError, Global};

/// The one matrix that the co-reduced projection has to be followed by to give a matrix that is zero where the projection is: its rows at the places.
pub fn factor_through(
    alloc: Global,
    projection: &Matrix,
    matrix: &Matrix,
) -> Result<Matrix, AllocError>
    requires field { matrix.now.field ≡ projection.now.field }
    requires shape { matrix.now.row_count ≡ projection.now.row_count }
    requires coreduced { (place : ℕ → ℕ) × IsCoReduced (typed projection.now) place }
    requires vanishes { (x : Row projection.now.field projection.now.row_count) → x · typed projection.now ≡ zeros projection.now.field 1 projection.now.col_count
        → x · as_mat projection.now.field projection.now.row_count matrix.now.col_count matrix.now.rows ≡ zeros projection.now.field 1 matrix.now.col_count }
    ensures shape { IfOk result (λ m. m ≡ plain projection.now.field projection.now.col_count matrix.now.col_count m.rows) }
    ensures matrix { IfOk result IsMatrix }
    ensures factor { IfOk result (λ m. IsFactor (typed projection.now) (as_mat projection.now.field projection.now.row_count matrix.now.col_count matrix.now.rows)
        (as_mat projection.now.field projection.now.col_count matrix.now.col_count m.rows)) }
{
    let field = projection.field();
    let rows = projection.cols();
    let cols = matrix.cols();
    let places = places(alloc, projection)?;
    let mut entries = Vec::with_capacity(alloc, rows as usize * cols as usize)?;
    for i in 0..places.len() {
        entries.extend_from_slice(matrix.row(places[i]))?;
    }
    let factor = Matrix::from_entries(alloc, field, rows, cols, &entries)?;
    Ok(factor)
}
