//! The conditions on a local module that speak of its ideal.
ghost use Rattle.std.specs.Prelude.{ℕ, ◌≡◌, ◌<◌, ◌≤◌, ◌+◌, ◌*◌, length, slice_index, MatchBool};
ghost use Rattle.fp_linear.specs.Slices.{AreElements};
ghost use Rattle.module_types.specs.Algebras.{algebra_at};
ghost use Rattle.module_types.specs.Shapes.{IsModule};
ghost use Rattle.claim_conditions.specs.LocalConditions.{families_of, ring_rows, ideal_members, IsNotZero, IsPrintedIdeal, IsPrintedPower, IsPrintedResidue};
ghost use Rattle.claim_conditions.specs.declared.Residue.TheVariants.{Frobenius};
ghost use Rattle.local_checks.specs.Families.{IsFamily, family_rows};
ghost use Rattle.local_checks.specs.Rows.{IsSpaceOf};

use crate::ideals::is_ideal;
use crate::least_powers::is_least_power;
use crate::residues::has_frobenius_residue;
use crate::rows::{reduce_rows, write_combinations, write_rows};
use fp_linear::Matrix;
use module_checks::is_reduced;
use module_types::Module;
use path_algebra::Header;

/// Whether the module is not zero: whether it has rows at some vertex.
pub fn is_not_zero(header: &Header, m: &Module) -> bool
    requires m { IsModule header.now.field (algebra_at m.now.side header.now).quiver m.now }
    ensures { MatchBool result (IsNotZero header.now m.now) (¬ IsNotZero header.now m.now) }
{
    let _field = header.field;
    for v in 0..m.dims.len() {
        if m.dims[v] != 0 {
            return true;
        }
    }
    false
}

/// Writes the rows of the basis to `ring`, and a basis of the span of the members of the ideal to `rows` and `pivots`; answers how many these are.
pub fn write_ideal(
    header: &Header,
    m: &Module,
    basis: &Matrix,
    ideal: &Matrix,
    ring: &mut [u8],
    rows: &mut [u8],
    pivots: &mut [u32],
) -> u32
    requires field { basis.now.field ≡ header.now.field }
    requires ideal_field { ideal.now.field ≡ header.now.field }
    requires unknowns { basis.now.col_count ≡ (families_of header.now m.now).size }
    requires coordinates { ideal.now.col_count ≡ basis.now.row_count }
    requires ring_elements { AreElements header.now.field ring.old }
    requires ring_count { length ring.old ≡ basis.now.row_count * (families_of header.now m.now).size }
    requires elements { AreElements header.now.field rows.old }
    requires count { length rows.old ≡ ideal.now.row_count * (families_of header.now m.now).size }
    requires room { ideal.now.row_count ≤ length pivots.old }
    ensures ring_elements { AreElements header.now.field ring.new }
    ensures ring { family_rows header.now m.now basis.now.row_count ring.new ≡ ring_rows header.now m.now basis.now }
    ensures elements { AreElements header.now.field rows.new }
    ensures space { IsSpaceOf (ideal_members header.now m.now basis.now ideal.now) rows.new pivots.new result }
{
    let cols = basis.cols();
    write_rows(basis, ring);
    write_combinations(ideal, cols as usize, ring, rows);
    reduce_rows(header.field, ideal.rows(), cols, rows, pivots)
}

/// Whether the rows of the ideal are in reduced row form and the span of its members is closed under products with the rows of the basis. The slices are
/// worked in: `ring` has as many rows as the basis and `rows` as the ideal, `work` is one row, all of as many numbers as a family has.
pub fn is_printed_ideal(
    header: &Header,
    m: &Module,
    basis: &Matrix,
    ideal: &Matrix,
    ring: &mut [u8],
    rows: &mut [u8],
    pivots: &mut [u32],
    work: &mut [u8],
) -> bool
    requires m { IsModule header.now.field (algebra_at m.now.side header.now).quiver m.now }
    requires field { basis.now.field ≡ header.now.field }
    requires ideal_field { ideal.now.field ≡ header.now.field }
    requires unknowns { basis.now.col_count ≡ (families_of header.now m.now).size }
    requires coordinates { ideal.now.col_count ≡ basis.now.row_count }
    requires ring_elements { AreElements header.now.field ring.old }
    requires ring_count { length ring.old ≡ basis.now.row_count * (families_of header.now m.now).size }
    requires elements { AreElements header.now.field rows.old }
    requires count { length rows.old ≡ ideal.now.row_count * (families_of header.now m.now).size }
    requires room { ideal.now.row_count ≤ length pivots.old }
    requires work { IsFamily header.now m.now work.old }
    ensures ring_elements { AreElements header.now.field ring.new }
    ensures elements { AreElements header.now.field rows.new }
    ensures work { IsFamily header.now m.now work.new }
    ensures ideal { MatchBool result (IsPrintedIdeal header.now m.now basis.now ideal.now) (¬ IsPrintedIdeal header.now m.now basis.now ideal.now) }
{
    let _rows = ideal.rows();
    if !is_reduced(ideal) {
        return false;
    }
    let rank = write_ideal(header, m, basis, ideal, ring, rows, pivots) as usize;
    let count = rank * work.len();
    let ring_count = basis.rows() as usize;
    is_ideal(
        header,
        m,
        ring,
        ring_count,
        &rows[..count],
        &pivots[..rank],
        work,
    )
}

/// Whether each product of `power` members of the ideal is zero, and no smaller number from 1 on has this property. The slices are worked in: `ring`, `rows`
/// and `work` as for `is_printed_ideal`, and `next` has room for two families.
pub fn is_printed_power(
    header: &Header,
    m: &Module,
    basis: &Matrix,
    ideal: &Matrix,
    power: u32,
    ring: &mut [u8],
    rows: &mut [u8],
    pivots: &mut [u32],
    work: &mut [u8],
    next: &mut [u8],
) -> bool
    requires m { IsModule header.now.field (algebra_at m.now.side header.now).quiver m.now }
    requires field { basis.now.field ≡ header.now.field }
    requires ideal_field { ideal.now.field ≡ header.now.field }
    requires unknowns { basis.now.col_count ≡ (families_of header.now m.now).size }
    requires coordinates { ideal.now.col_count ≡ basis.now.row_count }
    requires ring_elements { AreElements header.now.field ring.old }
    requires ring_count { length ring.old ≡ basis.now.row_count * (families_of header.now m.now).size }
    requires elements { AreElements header.now.field rows.old }
    requires count { length rows.old ≡ ideal.now.row_count * (families_of header.now m.now).size }
    requires room { ideal.now.row_count ≤ length pivots.old }
    requires pivots { 512 ≤ length pivots.old }
    requires work { IsFamily header.now m.now work.old }
    requires next { AreElements header.now.field next.old }
    requires next_room { (families_of header.now m.now).size + (families_of header.now m.now).size ≤ length next.old }
    ensures ring_elements { AreElements header.now.field ring.new }
    ensures elements { AreElements header.now.field rows.new }
    ensures work { IsFamily header.now m.now work.new }
    ensures next { AreElements header.now.field next.new }
    ensures power { MatchBool result (IsPrintedPower header.now m.now basis.now ideal.now power) (¬ IsPrintedPower header.now m.now basis.now ideal.now power) }
{
    let _rows = ideal.rows();
    let rank = write_ideal(header, m, basis, ideal, ring, rows, pivots) as usize;
    let count = rank * work.len();
    is_least_power(header, m, rank, &rows[..count], power, work, next, pivots)
}

/// Whether the span of the basis is an algebra with the identity whose residue ring modulo the ideal, which is known to be one, is a field that q-th powers
/// recognise. The slices are worked in: `ring` and `rest` have as many rows as the basis and `rows` as the ideal, `work` and `other` are one row each, all
/// of as many numbers as a family has.
pub fn is_printed_frobenius(
    header: &Header,
    m: &Module,
    basis: &Matrix,
    ideal: &Matrix,
    ring: &mut [u8],
    ring_pivots: &mut [u32],
    rows: &mut [u8],
    pivots: &mut [u32],
    rest: &mut [u8],
    rest_pivots: &mut [u32],
    work: &mut [u8],
    other: &mut [u8],
) -> bool
    requires m { IsModule header.now.field (algebra_at m.now.side header.now).quiver m.now }
    requires field { basis.now.field ≡ header.now.field }
    requires ideal_field { ideal.now.field ≡ header.now.field }
    requires unknowns { basis.now.col_count ≡ (families_of header.now m.now).size }
    requires coordinates { ideal.now.col_count ≡ basis.now.row_count }
    requires closed { IsPrintedIdeal header.now m.now basis.now ideal.now }
    requires ring_elements { AreElements header.now.field ring.old }
    requires ring_count { length ring.old ≡ basis.now.row_count * (families_of header.now m.now).size }
    requires ring_room { basis.now.row_count ≤ length ring_pivots.old }
    requires elements { AreElements header.now.field rows.old }
    requires count { length rows.old ≡ ideal.now.row_count * (families_of header.now m.now).size }
    requires room { ideal.now.row_count ≤ length pivots.old }
    requires rest_elements { AreElements header.now.field rest.old }
    requires rest_count { length rest.old ≡ basis.now.row_count * (families_of header.now m.now).size }
    requires rest_room { basis.now.row_count ≤ length rest_pivots.old }
    requires work { IsFamily header.now m.now work.old }
    requires other { IsFamily header.now m.now other.old }
    ensures residue { MatchBool result (IsPrintedResidue header.now m.now basis.now ideal.now Frobenius) (¬ IsPrintedResidue header.now m.now basis.now ideal.now Frobenius) }
{
    let cols = basis.cols();
    let rank = write_ideal(header, m, basis, ideal, ring, rows, pivots) as usize;
    let ring_rank = reduce_rows(header.field, basis.rows(), cols, ring, ring_pivots) as usize;
    let ring_count = ring_rank * work.len();
    let count = rank * work.len();
    has_frobenius_residue(
        header,
        m,
        &ring[..ring_count],
        &ring_pivots[..ring_rank],
        &rows[..count],
        &pivots[..rank],
        &mut rest[..ring_count],
        rest_pivots,
        work,
        other,
    )
}
