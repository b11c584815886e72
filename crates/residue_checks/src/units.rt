//! Whether an element of a ring is zero or has an inverse modulo an ideal.
ghost use Rattle.std.specs.Prelude.{ℕ, ◌≡◌, ◌<◌, ◌≤◌, ◌+◌, ◌*◌, ◌^◌, length, MatchBool};
ghost use Rattle.linear_algebra.specs.Rank.{IsInSpan};
ghost use Rattle.fp_linear.specs.Slices.{AreElements};
ghost use Rattle.local_modules.specs.Subalgebra.{IsSubalgebra};
ghost use Rattle.module_types.specs.Algebras.{algebra_at};
ghost use Rattle.module_types.specs.Shapes.{IsModule};
ghost use Rattle.claim_conditions.specs.LocalConditions.{families_of};
ghost use Rattle.local_checks.specs.Families.{IsFamily, IsFamilySpace, family, family_space, family_rows};
ghost use Rattle.local_checks.specs.Remainders.{IsRemainderOf, HaveRemaindersOfRank};
ghost use Rattle.residue_checks.specs.RingsModulo.{AreRingAndIdeal, IsRoomFor, products_with};
ghost use Rattle.residue_checks.specs.ZeroOrUnits.{IsZeroOrUnitOf};

use fp_linear::clear_row;
use local_checks::{compose, is_member, reduce_rows};
use module_types::Module;
use path_algebra::Header;

/// Writes what is left modulo the space of the product of two families.
fn write_product_rest(
    header: &Header,
    m: &Module,
    left: &[u8],
    right: &[u8],
    rows: &[u8],
    pivots: &[u32],
    out: &mut [u8],
)
    requires m { IsModule header.now.field (algebra_at m.now.side header.now).quiver m.now }
    requires left { IsFamily header.now m.now left.now }
    requires right { IsFamily header.now m.now right.now }
    requires space { IsFamilySpace header.now m.now rows.now pivots.now }
    requires out { IsFamily header.now m.now out.old }
    ensures out { IsFamily header.now m.now out.new }
    ensures remainder { IsRemainderOf header.now m.now rows.now pivots.now
        ((families_of header.now m.now).product (family header.now m.now left.now) (family header.now m.now right.now)) (family header.now m.now out.new) }
{
    compose(header, m, left, right, out);
    clear_row(header.field, rows, pivots, out);
}

/// Writes what is left modulo the space of the product of each of `count` families with `y`, and answers the rank of these rows.
fn products_rank(
    header: &Header,
    m: &Module,
    count: u32,
    ring: &[u8],
    y: &[u8],
    rows: &[u8],
    pivots: &[u32],
    rest: &mut [u8],
    rest_pivots: &mut [u32],
) -> u32
    requires m { IsModule header.now.field (algebra_at m.now.side header.now).quiver m.now }
    requires ring_elements { AreElements header.now.field ring.now }
    requires ring_count { length ring.now ≡ count * (families_of header.now m.now).size }
    requires small { (families_of header.now m.now).size < 2 ^ 32 }
    requires y { IsFamily header.now m.now y.now }
    requires space { IsFamilySpace header.now m.now rows.now pivots.now }
    requires room { IsRoomFor header.now m.now count rest.old rest_pivots.old }
    ensures room { IsRoomFor header.now m.now count rest.new rest_pivots.new }
    ensures rank { HaveRemaindersOfRank header.now m.now rows.now pivots.now count
        (products_with (families_of header.now m.now) (family_rows header.now m.now count ring.now) (family header.now m.now y.now)) result }
{
    let cols = y.len();
    for i in 0..count {
        let start = i as usize * cols;
        let end = start + cols;
        write_product_rest(
            header,
            m,
            &ring[start..end],
            y,
            rows,
            pivots,
            &mut rest[start..end],
        );
    }
    reduce_rows(header.field, count, cols as u32, rest, rest_pivots)
}

/// Whether a member of the ring is zero or has an inverse modulo the ideal, by the rank of its products with the ring. `rest` has room for as many families
/// as `ring` has, `work` for one; both are written over.
pub fn is_zero_or_unit(
    header: &Header,
    m: &Module,
    ring: &[u8],
    ring_pivots: &[u32],
    rows: &[u8],
    pivots: &[u32],
    y: &[u8],
    rest: &mut [u8],
    rest_pivots: &mut [u32],
    work: &mut [u8],
) -> bool
    requires m { IsModule header.now.field (algebra_at m.now.side header.now).quiver m.now }
    requires ring { AreRingAndIdeal header.now m.now ring.now ring_pivots.now rows.now pivots.now }
    requires subalgebra { IsSubalgebra (families_of header.now m.now) (family_space header.now m.now ring.now ring_pivots.now) }
    requires y { IsFamily header.now m.now y.now }
    requires member { IsInSpan (family_space header.now m.now ring.now ring_pivots.now) (family header.now m.now y.now) }
    requires room { IsRoomFor header.now m.now (length ring_pivots.now) rest.old rest_pivots.old }
    requires work { IsFamily header.now m.now work.old }
    ensures room { IsRoomFor header.now m.now (length ring_pivots.now) rest.new rest_pivots.new }
    ensures work { IsFamily header.now m.now work.new }
    ensures decided { MatchBool result
        (IsZeroOrUnitOf (families_of header.now m.now) (family_space header.now m.now ring.now ring_pivots.now) (family_space header.now m.now rows.now pivots.now) (family header.now m.now y.now))
        (¬ IsZeroOrUnitOf (families_of header.now m.now) (family_space header.now m.now ring.now ring_pivots.now) (family_space header.now m.now rows.now pivots.now) (family header.now m.now y.now)) }
{
    work.copy_from_slice(y);
    if is_member(header.field, rows, pivots, work) {
        return true;
    }
    let count = ring_pivots.len() as u32;
    let rank = products_rank(header, m, count, ring, y, rows, pivots, rest, rest_pivots);
    pivots.len() + rank as usize == ring_pivots.len()
}
