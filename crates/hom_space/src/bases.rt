//! The basis of the homomorphisms, from rows that ask for all equations.
ghost use Rattle.std.specs.Prelude.{◌≡◌, ◌≤◌, IfOk};
ghost use Rattle.path_algebra.specs.Allowed.{IsAllowed};
ghost use Rattle.module_types.specs.Algebras.{algebra_at};
ghost use Rattle.module_types.specs.Shapes.{IsModule};
ghost use Rattle.report_types.specs.Limits.{unknown_limit};
ghost use Rattle.hom_space.specs.HomForms.{unknown_number, IsReducedHomBasis};

use fp_linear::Matrix;
use module_checks::equations_rank;
use module_types::Module;
use path_algebra::Header;
use row_spaces::annihilator;
use std::alloc::{AllocError, Global};

/// The basis in reduced row form of the homomorphisms from `a` to `b`, which have `unknowns` entries. The equations are folded into somewhat more than
/// twice as many rows, one after another.
pub(crate) fn reduced_basis(
    alloc: Global,
    header: &Header,
    a: &Module,
    b: &Module,
    unknowns: u32,
) -> Result<Matrix, AllocError>
    requires allowed { IsAllowed header.now }
    requires a { IsModule header.now.field (algebra_at a.now.side header.now).quiver a.now }
    requires b { IsModule header.now.field (algebra_at b.now.side header.now).quiver b.now }
    requires side { a.now.side ≡ b.now.side }
    requires unknowns { unknowns ≡ unknown_number header.now a.now b.now }
    requires small { unknowns ≤ unknown_limit }
    ensures { IfOk result (IsReducedHomBasis header.now a.now b.now) }
{
    let rows = 2 * unknowns + 1;
    let mut entries = vec![in alloc; 0u8; rows as usize * unknowns as usize]?;
    let mut pivots = vec![in alloc; 0u32; rows as usize]?;
    equations_rank(
        header,
        a.side,
        a,
        b,
        unknowns,
        rows,
        &mut entries,
        &mut pivots,
    );
    let equations = Matrix::from_entries(alloc, header.field, rows, unknowns, &entries)?;
    let basis = annihilator(alloc, equations)?;
    Ok(basis)
}
