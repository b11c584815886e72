//! Whether a space of families is closed under products with others.
ghost use Rattle.std.specs.Prelude.{ℕ, ◌≡◌, ◌<◌, ◌≤◌, ◌*◌, length, MatchBool};
ghost use Rattle.linear_algebra.specs.Rank.{IsInSpan};
ghost use Rattle.fp_linear.specs.Slices.{AreElements};
ghost use Rattle.module_types.specs.Algebras.{algebra_at};
ghost use Rattle.module_types.specs.Shapes.{IsModule};
ghost use Rattle.local_modules.specs.Subalgebra.{IsIdealOf};
ghost use Rattle.claim_conditions.specs.LocalConditions.{families_of};
ghost use Rattle.local_checks.specs.Families.{IsFamily, IsFamilySpace, family, family_space, family_rows};
ghost use Rattle.local_checks.specs.Closures.{IsClosedAt, IsClosedUnder};

use crate::composing::compose;
use crate::members::is_member;
use module_types::Module;
use path_algebra::Header;

/// Whether the product of two families is a member of the space. `work` is written over.
pub fn has_product(
    header: &Header,
    m: &Module,
    left: &[u8],
    right: &[u8],
    rows: &[u8],
    pivots: &[u32],
    work: &mut [u8],
) -> bool
    requires m { IsModule header.now.field (algebra_at m.now.side header.now).quiver m.now }
    requires left { IsFamily header.now m.now left.now }
    requires right { IsFamily header.now m.now right.now }
    requires work { IsFamily header.now m.now work.old }
    requires space { IsFamilySpace header.now m.now rows.now pivots.now }
    ensures work { IsFamily header.now m.now work.new }
    ensures member { MatchBool result
        (IsInSpan (family_space header.now m.now rows.now pivots.now) ((families_of header.now m.now).product (family header.now m.now left.now) (family header.now m.now right.now)))
        (¬ IsInSpan (family_space header.now m.now rows.now pivots.now) ((families_of header.now m.now).product (family header.now m.now left.now) (family header.now m.now right.now))) }
{
    compose(header, m, left, right, work);
    is_member(header.field, rows, pivots, work)
}

/// Whether the products of two families, on both sides, are members of the space.
fn is_closed_at(
    header: &Header,
    m: &Module,
    left: &[u8],
    right: &[u8],
    rows: &[u8],
    pivots: &[u32],
    work: &mut [u8],
) -> bool
    requires m { IsModule header.now.field (algebra_at m.now.side header.now).quiver m.now }
    requires left { IsFamily header.now m.now left.now }
    requires right { IsFamily header.now m.now right.now }
    requires work { IsFamily header.now m.now work.old }
    requires space { IsFamilySpace header.now m.now rows.now pivots.now }
    ensures work { IsFamily header.now m.now work.new }
    ensures closed { MatchBool result
        (IsClosedAt (families_of header.now m.now) (family_space header.now m.now rows.now pivots.now) (family header.now m.now left.now) (family header.now m.now right.now))
        (¬ IsClosedAt (families_of header.now m.now) (family_space header.now m.now rows.now pivots.now) (family header.now m.now left.now) (family header.now m.now right.now)) }
{
    if !has_product(header, m, left, right, rows, pivots, work) {
        return false;
    }
    has_product(header, m, right, left, rows, pivots, work)
}

/// Whether the products of a family and each row of the space, on both sides, are members of it.
fn is_closed_under(
    header: &Header,
    m: &Module,
    left: &[u8],
    rows: &[u8],
    pivots: &[u32],
    work: &mut [u8],
) -> bool
    requires m { IsModule header.now.field (algebra_at m.now.side header.now).quiver m.now }
    requires left { IsFamily header.now m.now left.now }
    requires work { IsFamily header.now m.now work.old }
    requires space { IsFamilySpace header.now m.now rows.now pivots.now }
    ensures work { IsFamily header.now m.now work.new }
    ensures closed { MatchBool result
        (IsClosedUnder (families_of header.now m.now) (family_space header.now m.now rows.now pivots.now) (family header.now m.now left.now) (length pivots.now))
        (¬ IsClosedUnder (families_of header.now m.now) (family_space header.now m.now rows.now pivots.now) (family header.now m.now left.now) (length pivots.now)) }
{
    let count = left.len();
    for j in 0..pivots.len() {
        let start = j * count;
        let end = start + count;
        if !is_closed_at(header, m, left, &rows[start..end], rows, pivots, work) {
            return false;
        }
    }
    true
}

/// Whether the space of families is an ideal of `ring`, of `ring_count` families that stand one after another: closed under products with them on both
/// sides. `work` has room for a family and is written over.
pub fn is_ideal(
    header: &Header,
    m: &Module,
    ring: &[u8],
    ring_count: usize,
    rows: &[u8],
    pivots: &[u32],
    work: &mut [u8],
) -> bool
    requires m { IsModule header.now.field (algebra_at m.now.side header.now).quiver m.now }
    requires ring_elements { AreElements header.now.field ring.now }
    requires ring_count { length ring.now ≡ ring_count * (families_of header.now m.now).size }
    requires work { IsFamily header.now m.now work.old }
    requires space { IsFamilySpace header.now m.now rows.now pivots.now }
    ensures work { IsFamily header.now m.now work.new }
    ensures ideal { MatchBool result
        (IsIdealOf (families_of header.now m.now) (family_rows header.now m.now ring_count ring.now) (family_space header.now m.now rows.now pivots.now))
        (¬ IsIdealOf (families_of header.now m.now) (family_rows header.now m.now ring_count ring.now) (family_space header.now m.now rows.now pivots.now)) }
{
    let count = work.len();
    for i in 0..ring_count {
        let start = i * count;
        let end = start + count;
        if !is_closed_under(header, m, &ring[start..end], rows, pivots, work) {
            return false;
        }
    }
    true
}
