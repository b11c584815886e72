//! Sums of modules.
ghost use Rattle.std.specs.Prelude.{◌≡◌, ◌+◌, ◌*◌, ◌≤◌, IfOk};
ghost use Rattle.linear_algebra.specs.Field.{Gf};
ghost use Rattle.linear_algebra.specs.DirectSum.{diagonal};
ghost use Rattle.linear_algebra.specs.Matrix.{beside};
ghost use Rattle.linear_algebra.specs.Typed.{as_mat, grid_of};
ghost use Rattle.fp_linear.specs.Matrix.{PlainMatrix, plain, IsMatrix, most_entries};
ghost use Rattle.representations.specs.Quiver.{Quiver};
ghost use Rattle.module_types.specs.Written.{block_sum};
ghost use Rattle.row_spaces.specs.RowSpaces.{typed};
ghost use Rattle.module_operations.specs.Summands.{AreSummands, AreSmallBlocks};

use fp_linear::Matrix;
use module_types::Module;
use seq::Seq;
use std::alloc::{AllocError, Global};

/// The direct sum of two modules of one side: at each vertex the coordinates of `a` before those of `b`, at each arrow the two matrices as blocks on the
/// diagonal.
pub fn sum(alloc: Global, a: &Module, b: &Module) -> Result<Module, AllocError>
    requires { (q : Gf) × (Q : Quiver) × AreSummands q Q a.now b.now }
    ensures { (q : Gf) (Q : Quiver) → AreSummands q Q a.now b.now → IfOk result (λ m. m ≡ block_sum q Q a.now b.now) }
{
    let mut dims = Vec::new(alloc);
    for v in 0..a.dims.len() {
        dims.push(a.dims[v] + b.dims[v])?;
    }
    let mut matrices = Vec::new(alloc);
    for arrow in 0..a.matrices.len() {
        let matrix = diagonal_blocks(alloc, &a.matrices[arrow], &b.matrices[arrow])?;
        matrices.push(matrix)?;
    }
    Ok(Module {
        side: a.side,
        dims: Seq::from_vec(dims),
        matrices: Seq::from_vec(matrices),
    })
}

/// The matrix with these two as blocks on the diagonal, and zeros elsewhere.
fn diagonal_blocks(alloc: Global, a: &Matrix, b: &Matrix) -> Result<Matrix, AllocError>
    requires field { b.now.field ≡ a.now.field }
    requires small { AreSmallBlocks a.now b.now }
    ensures { IfOk result (λ m. m ≡ plain a.now.field (a.now.row_count + b.now.row_count) (a.now.col_count + b.now.col_count)
        (grid_of (diagonal (typed a.now) (as_mat a.now.field b.now.row_count b.now.col_count b.now.rows)))) }
{
    let right = Matrix::zero(alloc, a.field(), a.rows(), b.cols())?;
    let above = beside(alloc, a, &right)?;
    let left = Matrix::zero(alloc, a.field(), b.rows(), a.cols())?;
    let below = beside(alloc, &left, b)?;
    let blocks = above.stack(alloc, &below)?;
    Ok(blocks)
}

/// The columns of a matrix followed by those of another.
fn beside(alloc: Global, left: &Matrix, right: &Matrix) -> Result<Matrix, AllocError>
    requires left { IsMatrix left.now }
    requires right { IsMatrix right.now }
    requires field { right.now.field ≡ left.now.field }
    requires rows { right.now.row_count ≡ left.now.row_count }
    requires cols { left.now.col_count + right.now.col_count ≤ 4294967295 }
    requires size { (left.now.col_count + right.now.col_count) * left.now.row_count ≤ most_entries }
    ensures { IfOk result (λ m. m ≡ plain left.now.field left.now.row_count (left.now.col_count + right.now.col_count)
        (grid_of (beside (typed left.now) (as_mat left.now.field left.now.row_count right.now.col_count right.now.rows)))) }
{
    let left = left.transpose(alloc)?;
    let right = right.transpose(alloc)?;
    let columns = left.stack(alloc, &right)?;
    let matrix = columns.transpose(alloc)?;
    Ok(matrix)
}
