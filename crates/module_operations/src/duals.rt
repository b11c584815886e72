//! Duals of modules.
ghost use Rattle.std.specs.Prelude.{◌≡◌, IfOk};
ghost use Rattle.linear_algebra.specs.Field.{Gf};
ghost use Rattle.representations.specs.Quiver.{Quiver};
ghost use Rattle.module_types.specs.Shapes.{IsModule};
ghost use Rattle.module_types.specs.Written.{dual_of};

use module_types::Module;
use seq::Seq;
use std::alloc::{AllocError, Global};

/// The dual of a module: a module of the other side, with the same dimensions and the transposed matrices.
pub fn dual(alloc: Global, m: &Module) -> Result<Module, AllocError>
    ensures { (q : Gf) (Q : Quiver) → IsModule q Q m.now → IfOk result (λ d. d ≡ dual_of q Q m.now) }
{
    let dims = m.dims.clone()?;
    let mut matrices = Vec::new(alloc);
    for arrow in 0..m.matrices.len() {
        let matrix = m.matrices[arrow].transpose(alloc)?;
        matrices.push(matrix)?;
    }
    Ok(Module {
        side: m.side.other(),
        dims,
        matrices: Seq::from_vec(matrices),
    })
}
