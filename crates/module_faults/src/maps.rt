//! The first cause for which a map is refused.
ghost use Rattle.std.specs.Prelude.{ℕ, ◌≡◌, ◌<◌, MatchResult, MatchOption, IfErr};
ghost use Rattle.path_algebra.specs.Allowed.{IsAllowed};
ghost use Rattle.claim_conditions.specs.Modules.{MapHolds};
ghost use Rattle.module_faults.specs.ModuleFaults.{IsSmallModule};
ghost use Rattle.module_faults.specs.MapFaults.{HasMapShape, IsSmallMap, IsMapFault, FailsAtArrow};
ghost use Rattle.module_faults.specs.declared.MapFault.TheVariants.{NoMemory};

use crate::MapFault;
use crate::shapes::has_map_shape;
use fp_linear::Matrix;
use module_checks::{products_agree, same_side};
use module_types::{Module, source_at, target_at};
use path_algebra::Header;
use seq::Seq;

/// The first arrow with whose matrices those of a map do not commute; none where the map is a homomorphism.
pub fn first_failing_arrow(
    header: &Header,
    a: &Module,
    b: &Module,
    matrices: &Seq<Matrix>,
) -> Option<u8>
    requires allowed { IsAllowed header.now }
    requires a { IsSmallModule header.now a.now }
    requires b { IsSmallModule header.now b.now }
    requires side { a.now.side ≡ b.now.side }
    requires matrices { HasMapShape header.now a.now b.now matrices.now }
    ensures { MatchOption result (MapHolds header.now a.now b.now matrices.now) (FailsAtArrow header.now a.now b.now matrices.now) }
{
    for k in 0..header.quiver.arrows.len() {
        let target = &matrices[target_at(header, a.side, k as u8) as usize];
        let source = &matrices[source_at(header, a.side, k as u8) as usize];
        if !products_agree(header.field, &a.matrices[k], target, source, &b.matrices[k]) {
            return Some(k as u8);
        }
    }
    None
}

/// Whether the matrices, one at each vertex, are a homomorphism from `a` to `b`; the first cause against that. It takes no memory.
pub fn check_map(
    header: &Header,
    a: &Module,
    b: &Module,
    matrices: &Seq<Matrix>,
) -> Result<(), MapFault>
    requires allowed { IsAllowed header.now }
    requires a { IsSmallModule header.now a.now }
    requires b { IsSmallModule header.now b.now }
    ensures answer { MatchResult result (λ _. IsSmallMap header.now a.now b.now matrices.now) (IsMapFault header.now a.now b.now matrices.now) }
    ensures no_memory { IfErr result (λ fault. ¬ (fault ≡ NoMemory)) }
{
    if !same_side(a.side, b.side) {
        return Err(MapFault::Side);
    }
    if !has_map_shape(header, a, b, matrices) {
        return Err(MapFault::Shape);
    }
    if let Some(arrow) = first_failing_arrow(header, a, b, matrices) {
        return Err(MapFault::NotHom { arrow });
    }
    Ok(())
}
