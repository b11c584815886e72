//! The condition on a residue ring in the form of its list of elements.
ghost use Rattle.std.specs.Prelude.{ℕ, ◌≡◌, ◌<◌, ◌≤◌, ◌+◌, ◌*◌, length, MatchBool};
ghost use Rattle.fp_linear.specs.Slices.{AreElements};
ghost use Rattle.module_types.specs.Algebras.{algebra_at};
ghost use Rattle.module_types.specs.Shapes.{IsModule};
ghost use Rattle.claim_conditions.specs.LocalConditions.{families_of, IsPrintedIdeal, IsPrintedResidue};
ghost use Rattle.claim_conditions.specs.declared.Residue.TheVariants.{Listed};
ghost use Rattle.local_checks.specs.Families.{IsFamily};
ghost use Rattle.residue_checks.specs.RingsModulo.{IsRoomFor};

use crate::listed::has_listed_residue;
use fp_linear::Matrix;
use local_checks::{reduce_rows, write_ideal};
use module_types::Module;
use path_algebra::Header;

/// Whether the span of the basis is an algebra with the identity whose residue ring modulo the ideal, which is known to be one, is not commutative, and each
/// element of which but zero has an inverse. The slices are worked in: `ring`, `some` and `rest` have as many rows as the basis and `rows` as the ideal, `y`
/// and `work` are one row each, all of as many numbers as a family has; `digits` has as many numbers as the basis has rows.
pub fn is_printed_listed(
    header: &Header,
    m: &Module,
    basis: &Matrix,
    ideal: &Matrix,
    ring: &mut [u8],
    ring_pivots: &mut [u32],
    rows: &mut [u8],
    pivots: &mut [u32],
    some: &mut [u8],
    some_pivots: &mut [u32],
    rest: &mut [u8],
    rest_pivots: &mut [u32],
    digits: &mut [u8],
    y: &mut [u8],
    work: &mut [u8],
) -> bool
    requires m { IsModule header.now.field (algebra_at m.now.side header.now).quiver m.now }
    requires field { basis.now.field ≡ header.now.field }
    requires ideal_field { ideal.now.field ≡ header.now.field }
    requires unknowns { basis.now.col_count ≡ (families_of header.now m.now).size }
    requires coordinates { ideal.now.col_count ≡ basis.now.row_count }
    requires closed { IsPrintedIdeal header.now m.now basis.now ideal.now }
    requires ring { IsRoomFor header.now m.now basis.now.row_count ring.old ring_pivots.old }
    requires rows { IsRoomFor header.now m.now ideal.now.row_count rows.old pivots.old }
    requires some { IsRoomFor header.now m.now basis.now.row_count some.old some_pivots.old }
    requires rest { IsRoomFor header.now m.now basis.now.row_count rest.old rest_pivots.old }
    requires digits { AreElements header.now.field digits.old }
    requires digit_count { basis.now.row_count ≤ length digits.old }
    requires y { IsFamily header.now m.now y.old }
    requires work { IsFamily header.now m.now work.old }
    ensures residue { MatchBool result (IsPrintedResidue header.now m.now basis.now ideal.now Listed) (¬ IsPrintedResidue header.now m.now basis.now ideal.now Listed) }
{
    let cols = basis.cols();
    let rank = write_ideal(header, m, basis, ideal, ring, rows, pivots) as usize;
    let ring_rank = reduce_rows(header.field, basis.rows(), cols, ring, ring_pivots) as usize;
    let ring_count = ring_rank * work.len();
    let count = rank * work.len();
    has_listed_residue(
        header,
        m,
        &ring[..ring_count],
        &ring_pivots[..ring_rank],
        &rows[..count],
        &pivots[..rank],
        &mut some[..ring_count],
        some_pivots,
        &mut rest[..ring_count],
        rest_pivots,
        digits,
        y,
        work,
    )
}
