//! Rows that stand for the classes of a ring modulo an ideal.
ghost use Rattle.std.specs.Prelude.{ℕ, ◌≡◌, ◌<◌, ◌≤◌, ◌*◌, take, length};
ghost use Rattle.linear_algebra.specs.Parts.{row};
ghost use Rattle.fp_linear.specs.Slices.{AreElements};
ghost use Rattle.local_checks.specs.Families.{IsFamily, IsFamilySpace, family, family_space, family_rows};
ghost use Rattle.local_checks.specs.Remainders.{IsRemainderOf, AreRemaindersUpTo};
ghost use Rattle.claim_conditions.specs.LocalConditions.{families_of};
ghost use Rattle.residue_checks.specs.RingsModulo.{AreRingAndIdeal, IsRoomFor, members};
ghost use Rattle.residue_checks.specs.Representatives.{AreRepresentatives};

use fp_linear::clear_row;
use local_checks::reduce_rows;
use module_types::Module;
use path_algebra::Header;

/// Writes what is left of a family modulo the space.
fn write_rest(header: &Header, m: &Module, x: &[u8], rows: &[u8], pivots: &[u32], out: &mut [u8])
    requires x { IsFamily header.now m.now x.now }
    requires space { IsFamilySpace header.now m.now rows.now pivots.now }
    requires out { IsFamily header.now m.now out.old }
    ensures out { IsFamily header.now m.now out.new }
    ensures remainder { IsRemainderOf header.now m.now rows.now pivots.now (family header.now m.now x.now) (family header.now m.now out.new) }
{
    let _module = m;
    out.copy_from_slice(x);
    clear_row(header.field, rows, pivots, out);
}

/// Writes rows in reduced row form, of `cols` numbers each, whose combinations have all classes of the ring modulo the ideal, and answers how many they are.
pub fn write_representatives(
    header: &Header,
    m: &Module,
    cols: u32,
    ring: &[u8],
    ring_pivots: &[u32],
    rows: &[u8],
    pivots: &[u32],
    some: &mut [u8],
    some_pivots: &mut [u32],
) -> u32
    requires ring { AreRingAndIdeal header.now m.now ring.now ring_pivots.now rows.now pivots.now }
    requires cols { cols ≡ (families_of header.now m.now).size }
    requires room { IsRoomFor header.now m.now (length ring_pivots.now) some.old some_pivots.old }
    ensures room { IsRoomFor header.now m.now (length ring_pivots.now) some.new some_pivots.new }
    ensures few { result ≤ length ring_pivots.now }
    ensures represent { AreRepresentatives (family_space header.now m.now ring.now ring_pivots.now) (family_space header.now m.now rows.now pivots.now)
        (family_rows header.now m.now result (take (result * (families_of header.now m.now).size) some.new)) }
{
    let count = ring_pivots.len() as u32;
    for i in 0..count {
        let start = i as usize * cols as usize;
        let end = start + cols as usize;
        write_rest(
            header,
            m,
            &ring[start..end],
            rows,
            pivots,
            &mut some[start..end],
        );
    }
    reduce_rows(header.field, count, cols, some, some_pivots)
}
