//! Whether the residue ring of a space of families modulo an ideal is a field that q-th powers recognise.
ghost use Rattle.std.specs.Prelude.{ℕ, ◌≡◌, ◌<◌, ◌≤◌, ◌+◌, ◌*◌, ◌^◌, length, MatchBool};
ghost use Rattle.linear_algebra.specs.Field.{order, neg};
ghost use Rattle.linear_algebra.specs.Matrix.{◌⊞◌, ◌⊙◌};
ghost use Rattle.fp_linear.specs.Slices.{AreElements};
ghost use Rattle.local_modules.specs.Algebra.{power_in};
ghost use Rattle.local_modules.specs.Subalgebra.{IsIdealOf};
ghost use Rattle.linear_algebra.specs.Rank.{IsInSpan};
ghost use Rattle.module_types.specs.Algebras.{algebra_at};
ghost use Rattle.module_types.specs.Shapes.{IsModule};
ghost use Rattle.claim_conditions.specs.LocalConditions.{families_of};
ghost use Rattle.local_checks.specs.Families.{IsFamily, IsFamilySpace, family, family_space, family_rows};
ghost use Rattle.local_checks.specs.Remainders.{IsRemainderOf, HasRemaindersOfRank, IsFrobeniusSpace};

use crate::composing::compose;
use crate::rows::reduce_rows;
use crate::subrings::{commutes_modulo, is_subalgebra};
use fp_linear::{add_multiple, clear_row};
use module_types::Module;
use path_algebra::Header;

/// Writes the family multiplied q times by itself, for a field of q elements; `work` is written over.
pub fn write_power(header: &Header, m: &Module, x: &[u8], out: &mut [u8], work: &mut [u8])
    requires m { IsModule header.now.field (algebra_at m.now.side header.now).quiver m.now }
    requires x { IsFamily header.now m.now x.now }
    requires out { IsFamily header.now m.now out.old }
    requires work { IsFamily header.now m.now work.old }
    ensures out { IsFamily header.now m.now out.new }
    ensures work { IsFamily header.now m.now work.new }
    ensures power { family header.now m.now out.new ≡ power_in (families_of header.now m.now) (family header.now m.now x.now) (order header.now.field) }
{
    out.copy_from_slice(x);
    for k in 1..header.field.size() {
        compose(header, m, x, out, work);
        out.copy_from_slice(work);
    }
}

/// Writes what is left modulo the space of the q-th power of a family and `factor` times the family; `work` is written over.
fn write_remainder(
    header: &Header,
    m: &Module,
    factor: u8,
    x: &[u8],
    rows: &[u8],
    pivots: &[u32],
    out: &mut [u8],
    work: &mut [u8],
)
    requires m { IsModule header.now.field (algebra_at m.now.side header.now).quiver m.now }
    requires factor { factor < order header.now.field }
    requires x { IsFamily header.now m.now x.now }
    requires space { IsFamilySpace header.now m.now rows.now pivots.now }
    requires out { IsFamily header.now m.now out.old }
    requires work { IsFamily header.now m.now work.old }
    ensures out { IsFamily header.now m.now out.new }
    ensures work { IsFamily header.now m.now work.new }
    ensures remainder { IsRemainderOf header.now m.now rows.now pivots.now
        (power_in (families_of header.now m.now) (family header.now m.now x.now) (order header.now.field) ⊞ factor ⊙ family header.now m.now x.now) (family header.now m.now out.new) }
{
    write_power(header, m, x, out, work);
    add_multiple(header.field, factor, x, out);
    clear_row(header.field, rows, pivots, out);
}

/// Writes what is left modulo the space of the q-th power of each of `count` families and `factor` times it, and answers the rank of these rows.
fn remainders_rank(
    header: &Header,
    m: &Module,
    factor: u8,
    count: u32,
    ring: &[u8],
    rows: &[u8],
    pivots: &[u32],
    rest: &mut [u8],
    rest_pivots: &mut [u32],
    work: &mut [u8],
) -> u32
    requires m { IsModule header.now.field (algebra_at m.now.side header.now).quiver m.now }
    requires factor { factor < order header.now.field }
    requires ring_elements { AreElements header.now.field ring.now }
    requires ring_count { length ring.now ≡ count * (families_of header.now m.now).size }
    requires small { (families_of header.now m.now).size < 2 ^ 32 }
    requires space { IsFamilySpace header.now m.now rows.now pivots.now }
    requires rest_elements { AreElements header.now.field rest.old }
    requires rest_count { length rest.old ≡ count * (families_of header.now m.now).size }
    requires room { count ≤ length rest_pivots.old }
    requires work { IsFamily header.now m.now work.old }
    ensures rest_elements { AreElements header.now.field rest.new }
    ensures work { IsFamily header.now m.now work.new }
    ensures rank { HasRemaindersOfRank header.now m.now rows.now pivots.now (family_rows header.now m.now count ring.now) factor result }
{
    let cols = work.len();
    for i in 0..count {
        let start = i as usize * cols;
        let end = start + cols;
        write_remainder(
            header,
            m,
            factor,
            &ring[start..end],
            rows,
            pivots,
            &mut rest[start..end],
            work,
        );
    }
    reduce_rows(header.field, count, cols as u32, rest, rest_pivots)
}

/// Whether the space `ring` is an algebra with the identity whose residue ring modulo its ideal, the space `rows`, is a field that q-th powers recognise:
/// it is commutative, taking q-th powers is injective on it, and the elements that this fixes have dimension 1. `rest` has room for as many families as
/// `ring` has, `work` and `other` for one each; all are written over.
pub fn has_frobenius_residue(
    header: &Header,
    m: &Module,
    ring: &[u8],
    ring_pivots: &[u32],
    rows: &[u8],
    pivots: &[u32],
    rest: &mut [u8],
    rest_pivots: &mut [u32],
    work: &mut [u8],
    other: &mut [u8],
) -> bool
    requires m { IsModule header.now.field (algebra_at m.now.side header.now).quiver m.now }
    requires ring { IsFamilySpace header.now m.now ring.now ring_pivots.now }
    requires space { IsFamilySpace header.now m.now rows.now pivots.now }
    requires inside { IsInSpan (family_space header.now m.now ring.now ring_pivots.now) (family_space header.now m.now rows.now pivots.now) }
    requires ideal { IsIdealOf (families_of header.now m.now) (family_space header.now m.now ring.now ring_pivots.now) (family_space header.now m.now rows.now pivots.now) }
    requires small { (families_of header.now m.now).size < 2 ^ 32 }
    requires few_in_ring { length ring_pivots.now < 2 ^ 32 }
    requires few { length pivots.now < 2 ^ 32 }
    requires rest_elements { AreElements header.now.field rest.old }
    requires rest_count { length rest.old ≡ length ring_pivots.now * (families_of header.now m.now).size }
    requires room { length ring_pivots.now ≤ length rest_pivots.old }
    requires work { IsFamily header.now m.now work.old }
    requires other { IsFamily header.now m.now other.old }
    ensures rest_elements { AreElements header.now.field rest.new }
    ensures work { IsFamily header.now m.now work.new }
    ensures other { IsFamily header.now m.now other.new }
    ensures frobenius { MatchBool result
        (IsFrobeniusSpace (families_of header.now m.now) (family_space header.now m.now ring.now ring_pivots.now) (family_space header.now m.now rows.now pivots.now))
        (¬ IsFrobeniusSpace (families_of header.now m.now) (family_space header.now m.now ring.now ring_pivots.now) (family_space header.now m.now rows.now pivots.now)) }
{
    if !is_subalgebra(header, m, ring, ring_pivots, work) {
        return false;
    }
    if !commutes_modulo(header, m, ring, ring_pivots, rows, pivots, work, other) {
        return false;
    }
    let count = ring_pivots.len() as u32;
    let minus = header.field.neg(1);
    let first = remainders_rank(
        header,
        m,
        0,
        count,
        ring,
        rows,
        pivots,
        rest,
        rest_pivots,
        work,
    );
    let second = remainders_rank(
        header,
        m,
        minus,
        count,
        ring,
        rows,
        pivots,
        rest,
        rest_pivots,
        work,
    );
    if pivots.len() + first as usize != ring_pivots.len() {
        return false;
    }
    pivots.len() + (1 + second as usize) == ring_pivots.len()
}
