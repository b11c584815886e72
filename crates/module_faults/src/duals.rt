//! The dual of a module.
ghost use Rattle.std.specs.Prelude.{◌≡◌, IfOk};
ghost use Rattle.module_types.specs.Algebras.{algebra_at};
ghost use Rattle.module_types.specs.Shapes.{IsModule};
ghost use Rattle.module_types.specs.Written.{dual_of};

use module_types::Module;
use path_algebra::Header;
use seq::Seq;
use std::alloc::{AllocError, Global};

/// The dual of a module over the header: it has the transposed matrices, and the other side.
pub fn dual_module(alloc: Global, header: &Header, m: &Module) -> Result<Module, AllocError>
    requires { IsModule header.now.field (algebra_at m.now.side header.now).quiver m.now }
    ensures { IfOk result (λ dual. dual ≡ dual_of header.now.field (algebra_at m.now.side header.now).quiver m.now) }
{
    let dims = m.dims.clone()?;
    let mut matrices = Vec::with_capacity(alloc, header.quiver.arrows.len())?;
    for k in 0..header.quiver.arrows.len() {
        let matrix = m.matrices[k].transpose(alloc)?;
        matrices.push(matrix)?;
    }
    Ok(Module {
        side: m.side.other(),
        dims,
        matrices: Seq::from_vec(matrices),
    })
}
