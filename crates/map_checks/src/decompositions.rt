//! The first condition on a decomposition that fails.
ghost use Rattle.std.specs.Prelude.{ℕ, ⊤, ◌≡◌, ◌<◌, ◌≤◌, All, length, slice_index, slice_index_or, MatchBool};
ghost use Rattle.fp_linear.specs.Matrix.{PlainMatrix};
ghost use Rattle.path_algebra.specs.Allowed.{IsAllowed};
ghost use Rattle.bound_algebra.specs.TypedPaths.{quiver_of};
ghost use Rattle.module_types.specs.declared.Module.{Module};
ghost use Rattle.module_types.specs.Algebras.{algebra_at};
ghost use Rattle.module_types.specs.Readings.{rep_of};
ghost use Rattle.module_types.specs.Shapes.{IsModule, IsMap};
ghost use Rattle.claim_conditions.specs.Conditions.{IsAnswer};
ghost use Rattle.claim_conditions.specs.DecompositionConditions.{AreInOrder, decomposition_conditions};
ghost use Rattle.map_checks.specs.PartLists.{HaveSide, AreModules, IsWholeSum};

use crate::orders::comes_before;
use crate::parts::Parts;
use crate::sums::{are_ends, clear_starts, has_part, pass_part};
use claim_conditions::Clause;
use fp_linear::Matrix;
use module_checks::{are_unit_products, same_side};
use module_types::{Module, Side};
use path_algebra::Header;
use seq::Seq;

/// Whether all parts have the side.
fn have_side<P: Parts>(side: Side, parts: &P) -> bool
    ensures { MatchBool result (HaveSide side (P.modules parts.now) (length (P.modules parts.now))) (¬ HaveSide side (P.modules parts.now) (length (P.modules parts.now))) }
{
    for i in 0..parts.count() {
        if parts.part(i).side != side {
            return false;
        }
    }
    true
}

/// Whether the parts ascend.
fn are_in_order<P: Parts>(header: &Header, parts: &P) -> bool
    requires allowed { IsAllowed header.now }
    requires parts { AreModules header.now (P.modules parts.now) }
    ensures { MatchBool result (AreInOrder (P.modules parts.now)) (¬ AreInOrder (P.modules parts.now)) }
{
    for i in 1..parts.count() {
        if !comes_before(parts.part(i - 1), parts.part(i)) {
            return false;
        }
    }
    true
}

/// Whether the module is the sum of the parts, with their matrices as blocks in their order.
fn is_sum<P: Parts>(header: &Header, side: Side, s: &Module, parts: &P, starts: &mut [u32]) -> bool
    requires allowed { IsAllowed header.now }
    requires s { IsModule header.now.field (algebra_at side header.now).quiver s.now }
    requires parts { AreModules header.now (P.modules parts.now) }
    requires sides { HaveSide side (P.modules parts.now) (length (P.modules parts.now)) }
    requires starts { 32 ≤ length starts.old }
    ensures { MatchBool result (IsWholeSum header.now side s.now (P.modules parts.now)) (¬ IsWholeSum header.now side s.now (P.modules parts.now)) }
{
    clear_starts(starts);
    for i in 0..parts.count() {
        let part = parts.part(i);
        if !has_part(header, side, s, part, starts) {
            return false;
        }
        pass_part(&part.dims, starts);
    }
    are_ends(&s.dims, starts)
}

/// The first condition on a decomposition that fails, where the numbers say that `to` goes from `s` to `a` and `back` from `a` to `s`, and that a claim
/// shows each part to be local. The slice of 32 numbers is worked in.
pub fn first_failing_decomposition<P: Parts>(
    header: &Header,
    a: &Module,
    s: &Module,
    parts: &P,
    to: &Seq<Matrix>,
    back: &Seq<Matrix>,
    starts: &mut [u32],
) -> Option<Clause>
    requires allowed { IsAllowed header.now }
    requires a { IsModule header.now.field (algebra_at a.now.side header.now).quiver a.now }
    requires s { IsModule header.now.field (algebra_at s.now.side header.now).quiver s.now }
    requires parts { AreModules header.now (P.modules parts.now) }
    requires to { IsMap header.now.field (quiver_of header.now.quiver) s.now a.now to.now }
    requires back { IsMap header.now.field (quiver_of header.now.quiver) a.now s.now back.now }
    requires starts { 32 ≤ length starts.old }
    ensures { IsAnswer (decomposition_conditions ⊤ header.now a.now s.now (P.modules parts.now) to.now back.now) result }
{
    if !same_side(s.side, a.side) {
        return Some(Clause::Objects);
    }
    if !have_side(a.side, parts) {
        return Some(Clause::Objects);
    }
    if !are_in_order(header, parts) {
        return Some(Clause::Order);
    }
    if !is_sum(header, a.side, s, parts, starts) {
        return Some(Clause::Sum);
    }
    if !are_unit_products(header.field, to, back) {
        return Some(Clause::Inverse);
    }
    if !are_unit_products(header.field, back, to) {
        return Some(Clause::Inverse);
    }
    None
}
