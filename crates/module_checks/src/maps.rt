//! Whether matrices at the vertices are a homomorphism.
ghost use Rattle.std.specs.Prelude.{ℕ, ◌≡◌, ◌<◌, MatchBool};
ghost use Rattle.path_algebra.specs.Allowed.{IsAllowed};
ghost use Rattle.module_types.specs.Algebras.{algebra_at};
ghost use Rattle.module_types.specs.Shapes.{IsModule, IsMap};
ghost use Rattle.claim_conditions.specs.Modules.{MapHolds};

use crate::products::products_agree;
use fp_linear::Matrix;
use module_types::{Module, Side, source_at, target_at};
use path_algebra::Header;
use seq::Seq;

/// Whether the sides are one.
pub fn same_side(a: Side, b: Side) -> bool
    ensures { MatchBool result (a ≡ b) (¬ (a ≡ b)) }
{
    a == b
}

/// Whether the modules have one side and the matrices, one at each vertex, are a homomorphism from `a` to `b`: at each arrow both ways round the square
/// are one product.
pub fn is_homomorphism(header: &Header, a: &Module, b: &Module, matrices: &Seq<Matrix>) -> bool
    requires allowed { IsAllowed header.now }
    requires a { IsModule header.now.field (algebra_at a.now.side header.now).quiver a.now }
    requires b { IsModule header.now.field (algebra_at b.now.side header.now).quiver b.now }
    requires matrices { IsMap header.now.field (algebra_at a.now.side header.now).quiver a.now b.now matrices.now }
    ensures { MatchBool result (MapHolds header.now a.now b.now matrices.now) (¬ MapHolds header.now a.now b.now matrices.now) }
{
    if !same_side(a.side, b.side) {
        return false;
    }
    for k in 0..header.quiver.arrows.len() {
        let target = &matrices[target_at(header, a.side, k as u8) as usize];
        let source = &matrices[source_at(header, a.side, k as u8) as usize];
        if !products_agree(header.field, &a.matrices[k], target, source, &b.matrices[k]) {
            return false;
        }
    }
    true
}
