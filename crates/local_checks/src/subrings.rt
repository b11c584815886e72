//! Whether a space of families is an algebra with the identity, and whether it commutes modulo an ideal.
ghost use Rattle.std.specs.Prelude.{ℕ, ◌≡◌, ◌<◌, ◌≤◌, ◌+◌, ◌*◌, length, MatchBool};
ghost use Rattle.fp_linear.specs.Slices.{AreElements, IsWritten};
ghost use Rattle.local_modules.specs.Ideal.{IsCongruent};
ghost use Rattle.local_modules.specs.Subalgebra.{IsSubalgebra, CommutesModulo};
ghost use Rattle.module_types.specs.Algebras.{algebra_at};
ghost use Rattle.module_types.specs.Shapes.{IsModule};
ghost use Rattle.claim_conditions.specs.LocalConditions.{families_of};
ghost use Rattle.local_checks.specs.Families.{IsFamily, IsFamilySpace, family, family_space};
ghost use Rattle.local_checks.specs.Units.{unit_entry};
ghost use Rattle.local_checks.specs.Closures.{IsMultipliedBy, CommutesWith, HasProducts};

use crate::composing::compose;
use crate::ideals::has_product;
use crate::members::is_member;
use crate::powers::write_identity;
use fp_linear::{Field, add_multiple};
use module_types::Module;
use path_algebra::Header;

/// Writes the identity matrix with `size` rows from `from` on.
fn write_identity_at(field: Field, size: usize, from: usize, out: &mut [u8])
    requires elements { AreElements field out.old }
    requires inside { from + size * size ≤ length out.old }
    ensures elements { AreElements field out.new }
    ensures written { IsWritten out.old out.new from (size * size) (unit_entry size) }
{
    let end = from + size * size;
    write_identity(field, size, &mut out[from..end]);
}

/// Writes the family of identity matrices.
pub fn write_unit(header: &Header, m: &Module, out: &mut [u8])
    requires m { IsModule header.now.field (algebra_at m.now.side header.now).quiver m.now }
    requires out { IsFamily header.now m.now out.old }
    ensures out { IsFamily header.now m.now out.new }
    ensures unit { family header.now m.now out.new ≡ (families_of header.now m.now).unit }
{
    let mut from: usize = 0;
    for v in 0..m.dims.len() {
        let size = m.dims[v] as usize;
        write_identity_at(header.field, size, from, out);
        from += size * size;
    }
}

/// Whether the product of a family and each row of the space is a member of it.
fn has_products_with(
    header: &Header,
    m: &Module,
    left: &[u8],
    rows: &[u8],
    pivots: &[u32],
    work: &mut [u8],
) -> bool
    requires m { IsModule header.now.field (algebra_at m.now.side header.now).quiver m.now }
    requires left { IsFamily header.now m.now left.now }
    requires work { IsFamily header.now m.now work.old }
    requires space { IsFamilySpace header.now m.now rows.now pivots.now }
    ensures work { IsFamily header.now m.now work.new }
    ensures products { MatchBool result
        (IsMultipliedBy (families_of header.now m.now) (family_space header.now m.now rows.now pivots.now) (family header.now m.now left.now) (length pivots.now))
        (¬ IsMultipliedBy (families_of header.now m.now) (family_space header.now m.now rows.now pivots.now) (family header.now m.now left.now) (length pivots.now)) }
{
    let count = left.len();
    for j in 0..pivots.len() {
        let start = j * count;
        let end = start + count;
        if !has_product(header, m, left, &rows[start..end], rows, pivots, work) {
            return false;
        }
    }
    true
}

/// Whether the space has the products of its members.
fn has_products(header: &Header, m: &Module, rows: &[u8], pivots: &[u32], work: &mut [u8]) -> bool
    requires m { IsModule header.now.field (algebra_at m.now.side header.now).quiver m.now }
    requires work { IsFamily header.now m.now work.old }
    requires space { IsFamilySpace header.now m.now rows.now pivots.now }
    ensures work { IsFamily header.now m.now work.new }
    ensures products { MatchBool result (HasProducts (families_of header.now m.now) (family_space header.now m.now rows.now pivots.now))
        (¬ HasProducts (families_of header.now m.now) (family_space header.now m.now rows.now pivots.now)) }
{
    let count = work.len();
    for i in 0..pivots.len() {
        let start = i * count;
        let end = start + count;
        if !has_products_with(header, m, &rows[start..end], rows, pivots, work) {
            return false;
        }
    }
    true
}

/// Whether the space has the identity and the products of its members. `work` has room for a family and is written over.
pub fn is_subalgebra(
    header: &Header,
    m: &Module,
    rows: &[u8],
    pivots: &[u32],
    work: &mut [u8],
) -> bool
    requires m { IsModule header.now.field (algebra_at m.now.side header.now).quiver m.now }
    requires work { IsFamily header.now m.now work.old }
    requires space { IsFamilySpace header.now m.now rows.now pivots.now }
    ensures work { IsFamily header.now m.now work.new }
    ensures subalgebra { MatchBool result (IsSubalgebra (families_of header.now m.now) (family_space header.now m.now rows.now pivots.now))
        (¬ IsSubalgebra (families_of header.now m.now) (family_space header.now m.now rows.now pivots.now)) }
{
    write_unit(header, m, work);
    if !is_member(header.field, rows, pivots, work) {
        return false;
    }
    has_products(header, m, rows, pivots, work)
}

/// Whether two families commute modulo the space. `work` and `other` are written over.
fn commute(
    header: &Header,
    m: &Module,
    left: &[u8],
    right: &[u8],
    rows: &[u8],
    pivots: &[u32],
    work: &mut [u8],
    other: &mut [u8],
) -> bool
    requires m { IsModule header.now.field (algebra_at m.now.side header.now).quiver m.now }
    requires left { IsFamily header.now m.now left.now }
    requires right { IsFamily header.now m.now right.now }
    requires work { IsFamily header.now m.now work.old }
    requires other { IsFamily header.now m.now other.old }
    requires space { IsFamilySpace header.now m.now rows.now pivots.now }
    ensures work { IsFamily header.now m.now work.new }
    ensures other { IsFamily header.now m.now other.new }
    ensures commute { MatchBool result
        (IsCongruent (family_space header.now m.now rows.now pivots.now) ((families_of header.now m.now).product (family header.now m.now left.now) (family header.now m.now right.now))
        ((families_of header.now m.now).product (family header.now m.now right.now) (family header.now m.now left.now)))
        (¬ IsCongruent (family_space header.now m.now rows.now pivots.now) ((families_of header.now m.now).product (family header.now m.now left.now) (family header.now m.now right.now))
        ((families_of header.now m.now).product (family header.now m.now right.now) (family header.now m.now left.now))) }
{
    compose(header, m, left, right, work);
    compose(header, m, right, left, other);
    add_multiple(header.field, header.field.neg(1), other, work);
    is_member(header.field, rows, pivots, work)
}

/// Whether a family commutes with each row of `ring` modulo the space.
fn commutes_with(
    header: &Header,
    m: &Module,
    left: &[u8],
    ring: &[u8],
    ring_pivots: &[u32],
    rows: &[u8],
    pivots: &[u32],
    work: &mut [u8],
    other: &mut [u8],
) -> bool
    requires m { IsModule header.now.field (algebra_at m.now.side header.now).quiver m.now }
    requires left { IsFamily header.now m.now left.now }
    requires ring { IsFamilySpace header.now m.now ring.now ring_pivots.now }
    requires work { IsFamily header.now m.now work.old }
    requires other { IsFamily header.now m.now other.old }
    requires space { IsFamilySpace header.now m.now rows.now pivots.now }
    ensures work { IsFamily header.now m.now work.new }
    ensures other { IsFamily header.now m.now other.new }
    ensures commutes { MatchBool result
        (CommutesWith (families_of header.now m.now) (family_space header.now m.now ring.now ring_pivots.now) (family_space header.now m.now rows.now pivots.now) (family header.now m.now left.now) (length ring_pivots.now))
        (¬ CommutesWith (families_of header.now m.now) (family_space header.now m.now ring.now ring_pivots.now) (family_space header.now m.now rows.now pivots.now) (family header.now m.now left.now) (length ring_pivots.now)) }
{
    let count = left.len();
    for j in 0..ring_pivots.len() {
        let start = j * count;
        let end = start + count;
        if !commute(
            header,
            m,
            left,
            &ring[start..end],
            rows,
            pivots,
            work,
            other,
        ) {
            return false;
        }
    }
    true
}

/// Whether the space `ring` commutes modulo the space `rows`. `work` and `other` have room for a family each and are written over.
pub fn commutes_modulo(
    header: &Header,
    m: &Module,
    ring: &[u8],
    ring_pivots: &[u32],
    rows: &[u8],
    pivots: &[u32],
    work: &mut [u8],
    other: &mut [u8],
) -> bool
    requires m { IsModule header.now.field (algebra_at m.now.side header.now).quiver m.now }
    requires ring { IsFamilySpace header.now m.now ring.now ring_pivots.now }
    requires work { IsFamily header.now m.now work.old }
    requires other { IsFamily header.now m.now other.old }
    requires space { IsFamilySpace header.now m.now rows.now pivots.now }
    ensures work { IsFamily header.now m.now work.new }
    ensures other { IsFamily header.now m.now other.new }
    ensures commutes { MatchBool result
        (CommutesModulo (families_of header.now m.now) (family_space header.now m.now ring.now ring_pivots.now) (family_space header.now m.now rows.now pivots.now))
        (¬ CommutesModulo (families_of header.now m.now) (family_space header.now m.now ring.now ring_pivots.now) (family_space header.now m.now rows.now pivots.now)) }
{
    let count = work.len();
    for i in 0..ring_pivots.len() {
        let start = i * count;
        let end = start + count;
        if !commutes_with(
            header,
            m,
            &ring[start..end],
            ring,
            ring_pivots,
            rows,
            pivots,
            work,
            other,
        ) {
            return false;
        }
    }
    true
}
