//! Whether all combinations of rows are zero or have an inverse modulo an ideal, place by place.
ghost use Rattle.std.specs.Prelude.{ℕ, ◌≡◌, ◌<◌, ◌≤◌, ◌*◌, length, slice_index, MatchBool};
ghost use Rattle.linear_algebra.specs.Matrix.{◌·◌};
ghost use Rattle.linear_algebra.specs.Rank.{IsInSpan};
ghost use Rattle.linear_algebra.specs.Typed.{as_row};
ghost use Rattle.fp_linear.specs.Slices.{AreElements};
ghost use Rattle.local_modules.specs.Subalgebra.{IsSubalgebra};
ghost use Rattle.module_types.specs.Algebras.{algebra_at};
ghost use Rattle.module_types.specs.Shapes.{IsModule};
ghost use Rattle.claim_conditions.specs.LocalConditions.{families_of};
ghost use Rattle.local_checks.specs.Families.{IsFamily, family_space, family_rows};
ghost use Rattle.residue_checks.specs.RingsModulo.{AreRingAndIdeal, IsRoomFor};
ghost use Rattle.residue_checks.specs.ZeroOrUnits.{IsZeroOrUnitOf, AreZeroOrUnits};

use crate::units::is_zero_or_unit;
use fp_linear::multiply_row;
use module_types::Module;
use path_algebra::Header;

/// Whether the combination of the rows in `some` with these coordinates is zero or has an inverse modulo the ideal. `y` and `work` have room for a family,
/// `rest` for as many as `ring` has; they are written over.
fn is_zero_or_unit_at(
    header: &Header,
    m: &Module,
    ring: &[u8],
    ring_pivots: &[u32],
    rows: &[u8],
    pivots: &[u32],
    some: &[u8],
    digits: &[u8],
    y: &mut [u8],
    rest: &mut [u8],
    rest_pivots: &mut [u32],
    work: &mut [u8],
) -> bool
    requires m { IsModule header.now.field (algebra_at m.now.side header.now).quiver m.now }
    requires ring { AreRingAndIdeal header.now m.now ring.now ring_pivots.now rows.now pivots.now }
    requires subalgebra { IsSubalgebra (families_of header.now m.now) (family_space header.now m.now ring.now ring_pivots.now) }
    requires some_elements { AreElements header.now.field some.now }
    requires some_count { length some.now ≡ length digits.now * (families_of header.now m.now).size }
    requires inside { IsInSpan (family_space header.now m.now ring.now ring_pivots.now) (family_rows header.now m.now (length digits.now) some.now) }
    requires digits { AreElements header.now.field digits.now }
    requires y { IsFamily header.now m.now y.old }
    requires room { IsRoomFor header.now m.now (length ring_pivots.now) rest.old rest_pivots.old }
    requires work { IsFamily header.now m.now work.old }
    ensures y { IsFamily header.now m.now y.new }
    ensures room { IsRoomFor header.now m.now (length ring_pivots.now) rest.new rest_pivots.new }
    ensures work { IsFamily header.now m.now work.new }
    ensures decided { MatchBool result
        (IsZeroOrUnitOf (families_of header.now m.now) (family_space header.now m.now ring.now ring_pivots.now) (family_space header.now m.now rows.now pivots.now)
        (as_row header.now.field (length digits.now) digits.now · family_rows header.now m.now (length digits.now) some.now))
        (¬ IsZeroOrUnitOf (families_of header.now m.now) (family_space header.now m.now ring.now ring_pivots.now) (family_space header.now m.now rows.now pivots.now)
        (as_row header.now.field (length digits.now) digits.now · family_rows header.now m.now (length digits.now) some.now)) }
{
    multiply_row(header.field, digits, some, y);
    is_zero_or_unit(
        header,
        m,
        ring,
        ring_pivots,
        rows,
        pivots,
        y,
        rest,
        rest_pivots,
        work,
    )
}

/// Whether all combinations of the rows in `some`, as many as there are `digits`, whose coordinates begin with the first `place` digits are zero or have an
/// inverse modulo the ideal. The digits from `place` on and the other slices are written over, as for one combination.
pub fn are_zero_or_units(
    header: &Header,
    m: &Module,
    ring: &[u8],
    ring_pivots: &[u32],
    rows: &[u8],
    pivots: &[u32],
    some: &[u8],
    place: usize,
    digits: &mut [u8],
    y: &mut [u8],
    rest: &mut [u8],
    rest_pivots: &mut [u32],
    work: &mut [u8],
) -> bool
    requires m { IsModule header.now.field (algebra_at m.now.side header.now).quiver m.now }
    requires ring { AreRingAndIdeal header.now m.now ring.now ring_pivots.now rows.now pivots.now }
    requires subalgebra { IsSubalgebra (families_of header.now m.now) (family_space header.now m.now ring.now ring_pivots.now) }
    requires some_elements { AreElements header.now.field some.now }
    requires some_count { length some.now ≡ length digits.old * (families_of header.now m.now).size }
    requires inside { IsInSpan (family_space header.now m.now ring.now ring_pivots.now) (family_rows header.now m.now (length digits.old) some.now) }
    requires digits { AreElements header.now.field digits.old }
    requires place { place ≤ length digits.old }
    requires y { IsFamily header.now m.now y.old }
    requires room { IsRoomFor header.now m.now (length ring_pivots.now) rest.old rest_pivots.old }
    requires work { IsFamily header.now m.now work.old }
    ensures digits { AreElements header.now.field digits.new }
    ensures before { (j : ℕ) → j < place → slice_index digits.new j ≡ slice_index digits.old j }
    ensures y { IsFamily header.now m.now y.new }
    ensures room { IsRoomFor header.now m.now (length ring_pivots.now) rest.new rest_pivots.new }
    ensures work { IsFamily header.now m.now work.new }
    ensures decided { MatchBool result
        (AreZeroOrUnits (families_of header.now m.now) (family_space header.now m.now ring.now ring_pivots.now) (family_space header.now m.now rows.now pivots.now)
        (family_rows header.now m.now (length digits.old) some.now) digits.old place)
        (¬ AreZeroOrUnits (families_of header.now m.now) (family_space header.now m.now ring.now ring_pivots.now) (family_space header.now m.now rows.now pivots.now)
        (family_rows header.now m.now (length digits.old) some.now) digits.old place) }
{
    if place == digits.len() {
        return is_zero_or_unit_at(
            header,
            m,
            ring,
            ring_pivots,
            rows,
            pivots,
            some,
            digits,
            y,
            rest,
            rest_pivots,
            work,
        );
    }
    for c in 0..header.field.size() {
        digits[place] = c as u8;
        if !are_zero_or_units(
            header,
            m,
            ring,
            ring_pivots,
            rows,
            pivots,
            some,
            place + 1,
            digits,
            y,
            rest,
            rest_pivots,
            work,
        ) {
            return false;
        }
    }
    true
}
