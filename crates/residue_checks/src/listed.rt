//! Whether the residue ring of a space of families modulo an ideal is a division ring that is not commutative.
ghost use Rattle.std.specs.Prelude.{ℕ, ◌≡◌, ◌<◌, ◌≤◌, ◌*◌, length, MatchBool};
ghost use Rattle.fp_linear.specs.Slices.{AreElements};
ghost use Rattle.module_types.specs.Algebras.{algebra_at};
ghost use Rattle.module_types.specs.Shapes.{IsModule};
ghost use Rattle.claim_conditions.specs.LocalConditions.{families_of};
ghost use Rattle.local_checks.specs.Families.{IsFamily, family_space};
ghost use Rattle.residue_checks.specs.RingsModulo.{AreRingAndIdeal, IsRoomFor, IsListedSpace};

use crate::representatives::write_representatives;
use crate::walks::are_zero_or_units;
use local_checks::{commutes_modulo, is_subalgebra};
use module_types::Module;
use path_algebra::Header;

/// Whether the space `ring` is an algebra with the identity whose residue ring modulo its ideal, the space `rows`, is not commutative, and each element of
/// which but zero has an inverse. The elements are tried one after another, so this takes as long as there are elements before one that has none. `some`
/// and `rest` have room for as many families as `ring` has, `digits` for as many numbers, `y` and `work` for a family each; all are written over.
pub fn has_listed_residue(
    header: &Header,
    m: &Module,
    ring: &[u8],
    ring_pivots: &[u32],
    rows: &[u8],
    pivots: &[u32],
    some: &mut [u8],
    some_pivots: &mut [u32],
    rest: &mut [u8],
    rest_pivots: &mut [u32],
    digits: &mut [u8],
    y: &mut [u8],
    work: &mut [u8],
) -> bool
    requires m { IsModule header.now.field (algebra_at m.now.side header.now).quiver m.now }
    requires ring { AreRingAndIdeal header.now m.now ring.now ring_pivots.now rows.now pivots.now }
    requires some { IsRoomFor header.now m.now (length ring_pivots.now) some.old some_pivots.old }
    requires rest { IsRoomFor header.now m.now (length ring_pivots.now) rest.old rest_pivots.old }
    requires digits { AreElements header.now.field digits.old }
    requires digit_count { length ring_pivots.now ≤ length digits.old }
    requires y { IsFamily header.now m.now y.old }
    requires work { IsFamily header.now m.now work.old }
    ensures listed { MatchBool result
        (IsListedSpace (families_of header.now m.now) (family_space header.now m.now ring.now ring_pivots.now) (family_space header.now m.now rows.now pivots.now))
        (¬ IsListedSpace (families_of header.now m.now) (family_space header.now m.now ring.now ring_pivots.now) (family_space header.now m.now rows.now pivots.now)) }
{
    if !is_subalgebra(header, m, ring, ring_pivots, work) {
        return false;
    }
    if commutes_modulo(header, m, ring, ring_pivots, rows, pivots, work, y) {
        return false;
    }
    let cols = work.len();
    let count = write_representatives(
        header,
        m,
        cols as u32,
        ring,
        ring_pivots,
        rows,
        pivots,
        some,
        some_pivots,
    ) as usize;
    are_zero_or_units(
        header,
        m,
        ring,
        ring_pivots,
        rows,
        pivots,
        &some[..count * cols],
        0,
        &mut digits[..count],
        y,
        rest,
        rest_pivots,
        work,
    )
}
