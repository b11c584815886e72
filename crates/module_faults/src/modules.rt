//! The first cause for which a module is refused.
ghost use Rattle.std.specs.Prelude.{MatchResult};
ghost use Rattle.path_algebra.specs.Allowed.{IsAllowed};
ghost use Rattle.module_faults.specs.ModuleFaults.{IsSmallModule, IsModuleFault};

use crate::ModuleFault;
use crate::long_paths::first_long_path;
use crate::relations::first_failing_relation;
use crate::shapes::has_module_shape;
use module_types::Module;
use path_algebra::Header;
use std::alloc::Global;

const MOST_DIMENSION: u64 = 256;

/// Whether it is a module over the header, of at most the largest dimension; the first cause against that.
pub fn check_module(alloc: Global, header: &Header, m: &Module) -> Result<(), ModuleFault>
    requires { IsAllowed header.now }
    ensures { MatchResult result (λ _. IsSmallModule header.now m.now) (IsModuleFault header.now m.now) }
{
    if !has_module_shape(header, m) {
        return Err(ModuleFault::Shape);
    }
    let dim = m.dimension();
    if dim > MOST_DIMENSION {
        return Err(ModuleFault::DimLimit { dim });
    }
    if let Some(relation) = first_failing_relation(alloc, header, m)? {
        return Err(ModuleFault::RelationFails { relation });
    }
    if let Some(path) = first_long_path(alloc, header, m)? {
        return Err(ModuleFault::BoundFails { path });
    }
    Ok(())
}
