//! The first condition on a local module that fails.
ghost use Rattle.std.specs.Prelude.{ℕ, ⊤, ◌≡◌, ◌<◌, ◌≤◌, ◌+◌, ◌*◌, length, MatchBool};
ghost use Rattle.fp_linear.specs.Slices.{AreElements};
ghost use Rattle.linear_algebra.specs.Field.{Gf};
ghost use Rattle.module_types.specs.Algebras.{algebra_at};
ghost use Rattle.module_types.specs.Shapes.{IsModule};
ghost use Rattle.claim_conditions.specs.Conditions.{IsAnswer};
ghost use Rattle.claim_conditions.specs.LocalConditions.{families_of, IsNotZero, IsPrintedIdeal, IsPrintedResidue, local_conditions};
ghost use Rattle.local_checks.specs.Families.{IsFamily};
ghost use Rattle.residue_checks.specs.RingsModulo.{IsRoomFor};
ghost use Rattle.residue_checks.specs.LocalRoom.{HasLocalRoom};

use crate::clauses::is_printed_listed;
use claim_conditions::{Clause, Residue};
use fp_linear::Matrix;
use local_checks::{is_not_zero, is_printed_frobenius, is_printed_ideal, is_printed_power};
use module_checks::clear;
use module_types::Module;
use path_algebra::Header;

/// Whether the span of the basis is an algebra with the identity whose residue ring modulo the ideal, which is known to be one, has the form that is named.
fn is_printed_residue(
    header: &Header,
    m: &Module,
    basis: &Matrix,
    ideal: &Matrix,
    residue: Residue,
    ring: &mut [u8],
    ring_pivots: &mut [u32],
    rows: &mut [u8],
    pivots: &mut [u32],
    some: &mut [u8],
    some_pivots: &mut [u32],
    rest: &mut [u8],
    rest_pivots: &mut [u32],
    digits: &mut [u8],
    y: &mut [u8],
    work: &mut [u8],
) -> bool
    requires m { IsModule header.now.field (algebra_at m.now.side header.now).quiver m.now }
    requires field { basis.now.field ≡ header.now.field }
    requires ideal_field { ideal.now.field ≡ header.now.field }
    requires unknowns { basis.now.col_count ≡ (families_of header.now m.now).size }
    requires coordinates { ideal.now.col_count ≡ basis.now.row_count }
    requires closed { IsPrintedIdeal header.now m.now basis.now ideal.now }
    requires ring { IsRoomFor header.now m.now basis.now.row_count ring.old ring_pivots.old }
    requires rows { IsRoomFor header.now m.now ideal.now.row_count rows.old pivots.old }
    requires some { IsRoomFor header.now m.now basis.now.row_count some.old some_pivots.old }
    requires rest { IsRoomFor header.now m.now basis.now.row_count rest.old rest_pivots.old }
    requires digits { AreElements header.now.field digits.old }
    requires digit_count { basis.now.row_count ≤ length digits.old }
    requires y { IsFamily header.now m.now y.old }
    requires work { IsFamily header.now m.now work.old }
    ensures residue { MatchBool result (IsPrintedResidue header.now m.now basis.now ideal.now residue) (¬ IsPrintedResidue header.now m.now basis.now ideal.now residue) }
{
    match residue {
        Residue::Frobenius => is_printed_frobenius(
            header,
            m,
            basis,
            ideal,
            ring,
            ring_pivots,
            rows,
            pivots,
            rest,
            rest_pivots,
            work,
            y,
        ),
        Residue::Listed => is_printed_listed(
            header,
            m,
            basis,
            ideal,
            ring,
            ring_pivots,
            rows,
            pivots,
            some,
            some_pivots,
            rest,
            rest_pivots,
            digits,
            y,
            work,
        ),
    }
}

/// The first condition on a local module that fails, over slices of their own, where the module is not zero.
fn first_failing_behind(
    header: &Header,
    m: &Module,
    basis: &Matrix,
    ideal: &Matrix,
    power: u32,
    residue: Residue,
    ring: &mut [u8],
    ring_pivots: &mut [u32],
    rows: &mut [u8],
    pivots: &mut [u32],
    some: &mut [u8],
    some_pivots: &mut [u32],
    rest: &mut [u8],
    rest_pivots: &mut [u32],
    digits: &mut [u8],
    y: &mut [u8],
    work: &mut [u8],
    next: &mut [u8],
) -> Option<Clause>
    requires m { IsModule header.now.field (algebra_at m.now.side header.now).quiver m.now }
    requires field { basis.now.field ≡ header.now.field }
    requires ideal_field { ideal.now.field ≡ header.now.field }
    requires unknowns { basis.now.col_count ≡ (families_of header.now m.now).size }
    requires coordinates { ideal.now.col_count ≡ basis.now.row_count }
    requires ring { IsRoomFor header.now m.now basis.now.row_count ring.old ring_pivots.old }
    requires rows { IsRoomFor header.now m.now ideal.now.row_count rows.old pivots.old }
    requires pivots { 512 ≤ length pivots.old }
    requires some { IsRoomFor header.now m.now basis.now.row_count some.old some_pivots.old }
    requires rest { IsRoomFor header.now m.now basis.now.row_count rest.old rest_pivots.old }
    requires digits { AreElements header.now.field digits.old }
    requires digit_count { basis.now.row_count ≤ length digits.old }
    requires y { IsFamily header.now m.now y.old }
    requires work { IsFamily header.now m.now work.old }
    requires next { AreElements header.now.field next.old }
    requires next_room { (families_of header.now m.now).size + (families_of header.now m.now).size ≤ length next.old }
    requires nonzero { IsNotZero header.now m.now }
    ensures { IsAnswer (local_conditions ⊤ header.now m.now basis.now ideal.now power residue) result }
{
    if !is_printed_ideal(header, m, basis, ideal, ring, rows, pivots, work) {
        return Some(Clause::Ideal);
    }
    if !is_printed_power(
        header, m, basis, ideal, power, ring, rows, pivots, work, next,
    ) {
        return Some(Clause::Power);
    }
    if !is_printed_residue(
        header,
        m,
        basis,
        ideal,
        residue,
        ring,
        ring_pivots,
        rows,
        pivots,
        some,
        some_pivots,
        rest,
        rest_pivots,
        digits,
        y,
        work,
    ) {
        return Some(Clause::Residue);
    }
    None
}

/// The first condition on a local module that fails, over parts of two slices, where the module is not zero.
fn first_failing_within(
    header: &Header,
    m: &Module,
    basis: &Matrix,
    ideal: &Matrix,
    power: u32,
    residue: Residue,
    bytes: &mut [u8],
    numbers: &mut [u32],
) -> Option<Clause>
    requires m { IsModule header.now.field (algebra_at m.now.side header.now).quiver m.now }
    requires field { basis.now.field ≡ header.now.field }
    requires ideal_field { ideal.now.field ≡ header.now.field }
    requires unknowns { basis.now.col_count ≡ (families_of header.now m.now).size }
    requires coordinates { ideal.now.col_count ≡ basis.now.row_count }
    requires nonzero { IsNotZero header.now m.now }
    requires bytes { 3 * (basis.now.row_count * basis.now.col_count) + ideal.now.row_count * basis.now.col_count + 4 * basis.now.col_count + basis.now.row_count ≤ length bytes.old }
    requires numbers { 3 * basis.now.row_count + ideal.now.row_count + 512 ≤ length numbers.old }
    ensures { IsAnswer (local_conditions ⊤ header.now m.now basis.now ideal.now power residue) result }
{
    clear(bytes);
    let size = basis.cols() as usize;
    let count = basis.rows() as usize;
    let part = count * size;
    let members = ideal.rows() as usize * size;
    let (ring, bytes) = bytes.split_at_mut(part);
    let (rows, bytes) = bytes.split_at_mut(members);
    let (some, bytes) = bytes.split_at_mut(part);
    let (rest, bytes) = bytes.split_at_mut(part);
    let (next, bytes) = bytes.split_at_mut(2 * size);
    let (work, bytes) = bytes.split_at_mut(size);
    let (y, digits) = bytes.split_at_mut(size);
    let (ring_pivots, numbers) = numbers.split_at_mut(count);
    let (some_pivots, numbers) = numbers.split_at_mut(count);
    let (rest_pivots, pivots) = numbers.split_at_mut(count);
    first_failing_behind(
        header,
        m,
        basis,
        ideal,
        power,
        residue,
        ring,
        ring_pivots,
        rows,
        pivots,
        some,
        some_pivots,
        rest,
        rest_pivots,
        digits,
        y,
        work,
        next,
    )
}

/// The first condition on a local module that fails, where the numbers say that the Hom claim is one of `m` with `m`: `basis` has the rows of that claim, no
/// more than they have numbers, and `ideal` those of the ideal in coordinates over them. The slices are worked in.
pub fn first_failing_local(
    header: &Header,
    m: &Module,
    basis: &Matrix,
    ideal: &Matrix,
    power: u32,
    residue: Residue,
    bytes: &mut [u8],
    numbers: &mut [u32],
) -> Option<Clause>
    requires m { IsModule header.now.field (algebra_at m.now.side header.now).quiver m.now }
    requires field { basis.now.field ≡ header.now.field }
    requires ideal_field { ideal.now.field ≡ header.now.field }
    requires unknowns { basis.now.col_count ≡ (families_of header.now m.now).size }
    requires few { basis.now.row_count ≤ basis.now.col_count }
    requires coordinates { ideal.now.col_count ≡ basis.now.row_count }
    requires few_in_ideal { ideal.now.row_count ≤ basis.now.row_count }
    requires room { HasLocalRoom basis.now.col_count bytes.old numbers.old }
    ensures { IsAnswer (local_conditions ⊤ header.now m.now basis.now ideal.now power residue) result }
{
    if !is_not_zero(header, m) {
        return Some(Clause::Nonzero);
    }
    first_failing_within(header, m, basis, ideal, power, residue, bytes, numbers)
}
