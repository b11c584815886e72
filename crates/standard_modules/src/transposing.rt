//! Duals of modules.
ghost use Rattle.std.specs.Prelude.{◌≡◌, IfOk};
ghost use Rattle.linear_algebra.specs.Field.{Gf};
ghost use Rattle.representations.specs.Quiver.{Quiver};
ghost use Rattle.representations.specs.Rep.{Rep};
ghost use Rattle.representations.specs.Dual.{dual};
ghost use Rattle.module_types.specs.declared.Side.{Side};
ghost use Rattle.module_types.specs.Algebras.{other_side};
ghost use Rattle.module_types.specs.Written.{written};

use module_types::Module;
use seq::Seq;
use std::alloc::{AllocError, Global};

/// The dual of what is written as a module: the transposed matrices, on the other side.
pub(crate) fn transposed(alloc: Global, m: &Module) -> Result<Module, AllocError>
    ensures { (q : Gf) (Q : Quiver) (X : Rep q Q) (side : Side) → m.now ≡ written side X → IfOk result (λ d. d ≡ written (other_side side) (dual X)) }
{
    let dims = m.dims.clone()?;
    let mut matrices = Vec::new(alloc);
    for arrow in 0..m.matrices.len() {
        let matrix = m.matrices[arrow].transpose(alloc)?;
        matrices.push(matrix)?;
    }
    Ok(Module {
        side: m.side.other(),
        dims,
        matrices: Seq::from_vec(matrices),
    })
}
