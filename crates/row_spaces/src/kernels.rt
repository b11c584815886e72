//! Kernels, and what is orthogonal to rows.
ghost use Rattle.std.specs.Prelude.{◌≡◌, ◌*◌, ◌≤◌, IfOk};
ghost use Rattle.linear_algebra.specs.Matrix.{transpose};
ghost use Rattle.linear_algebra.specs.Typed.{as_mat};
ghost use Rattle.fp_linear.specs.Matrix.{PlainMatrix, plain, IsMatrix, most_entries};
ghost use Rattle.row_spaces.specs.RowSpaces.{typed, IsKernelBasis};

use crate::orthogonal::orthogonal_rows;
use fp_linear::{Matrix, echelon_in_place};
use std::alloc::{AllocError, Global};

/// The basis in reduced row form of all rows x with x · matrix = 0.
pub fn left_kernel(alloc: Global, matrix: &Matrix) -> Result<Matrix, AllocError>
    requires { matrix.now.row_count * matrix.now.row_count ≤ most_entries }
    ensures shape { IfOk result (λ m. m ≡ plain matrix.now.field m.row_count matrix.now.row_count m.rows) }
    ensures matrix { IfOk result IsMatrix }
    ensures basis { IfOk result (λ m. IsKernelBasis (typed matrix.now) (as_mat matrix.now.field m.row_count matrix.now.row_count m.rows)) }
{
    let equations = matrix.transpose(alloc)?;
    let basis = annihilator(alloc, equations)?;
    Ok(basis)
}

/// The basis in reduced row form of all rows x that solve the equations: equations · xᵀ = 0.
pub fn annihilator(alloc: Global, equations: Matrix) -> Result<Matrix, AllocError>
    requires { equations.col_count * equations.col_count ≤ most_entries }
    ensures shape { IfOk result (λ m. m ≡ plain equations.field m.row_count equations.col_count m.rows) }
    ensures matrix { IfOk result IsMatrix }
    ensures basis { IfOk result (λ m. IsKernelBasis (transpose (typed equations)) (as_mat equations.field m.row_count equations.col_count m.rows)) }
{
    let mut basis = orthogonal_rows(alloc, equations)?;
    let mut pivots = vec![in alloc; 0u32; basis.rows() as usize]?;
    echelon_in_place(&mut basis, &mut pivots);
    Ok(basis)
}
