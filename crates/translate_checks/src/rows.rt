//! Rows of sums of projective modules in lent memory: along the arrows of a word, and those of the matrix of an arrow.
ghost use Rattle.std.specs.Prelude.{ℕ, ◌≡◌, ◌<◌, length, slice_index};
ghost use Rattle.fp_linear.specs.Slices.{AreElements};
ghost use Rattle.quiver_paths.specs.Quiver.{arrow_count};
ghost use Rattle.alg_table.specs.TableView.{IsTable};
ghost use Rattle.module_types.specs.Algebras.{algebra_at};
ghost use Rattle.module_checks.specs.RowWalks.{arrow_in_turn, IsArrowsMoved};
ghost use Rattle.term_rows.specs.SumDims.{side_in_table, AreVertices, IsRoomFor, sum_dim};
ghost use Rattle.translate_checks.specs.Across.{sum_in};
ghost use Rattle.translate_checks.specs.Dots.{HoldsRow};

use alg_table::{Side as TableSide, Table};
use module_checks::clear;
use module_types::Side;
use seq::Seq;
use term_rows::step_in_sum;

/// The side as a table has it.
pub fn side_in_table(side: Side) -> TableSide
    ensures { result ≡ side_in_table side }
{
    match side {
        Side::Right => TableSide::Right,
        Side::Left => TableSide::Left,
    }
}

/// Arrow `n` of a path, in the order in which the side takes them.
pub fn arrow_at(side: Side, arrows: &Seq<u8>, n: usize) -> u8
    requires { n < length arrows.now }
    ensures { result ≡ arrow_in_turn side arrows.now n }
{
    match side {
        Side::Right => arrows[n],
        Side::Left => arrows[arrows.len() - (n + 1)],
    }
}

/// A row of the sum of the projective modules of a side at these vertices goes along the arrows of a path, as the side takes them. `next` is as long,
/// and is written over, as is `spare`, which has a place for each word.
pub fn walk_in_sum(
    table: &Table,
    side: Side,
    vertices: &Seq<u8>,
    arrows: &Seq<u8>,
    row: &mut [u8],
    next: &mut [u8],
    spare: &mut [u8],
)
    requires vertices { AreVertices table.now.header vertices.now }
    requires arrows { (n : ℕ) → n < length arrows.now → slice_index arrows.now n < arrow_count table.now.header.quiver }
    requires room { IsRoomFor table.now.header (sum_dim table.now.words side vertices.now) (length row.old) }
    requires lengths { length next.old ≡ length row.old }
    requires elements { AreElements table.now.header.field row.old }
    requires spare { length spare.old ≡ length table.now.words }
    ensures walked { (t : IsTable table.now.header table.now.words) → IsArrowsMoved (sum_in table.now.header table.now.words t side vertices.now) side arrows.now row.old row.new }
    ensures elements { AreElements table.now.header.field row.new }
{
    for n in 0..arrows.len() {
        let arrow = arrow_at(side, arrows, n);
        step_in_sum(table, side, vertices, arrow, row, next, spare);
        row.copy_from_slice(next);
    }
}

/// Writes row `j` of the matrix of an arrow on the sum of the projective modules of a side at these vertices to `next`, and zeros behind it. `row`, which
/// is as long, and `spare`, which has a place for each word, are written over.
pub fn write_arrow_row(
    table: &Table,
    side: Side,
    vertices: &Seq<u8>,
    arrow: u8,
    j: usize,
    row: &mut [u8],
    next: &mut [u8],
    spare: &mut [u8],
)
    requires vertices { AreVertices table.now.header vertices.now }
    requires arrow { arrow < arrow_count table.now.header.quiver }
    requires inside { j < length row.old }
    requires place { j < sum_dim table.now.words side vertices.now ((algebra_at side table.now.header).quiver.source arrow) }
    requires room { IsRoomFor table.now.header (sum_dim table.now.words side vertices.now) (length row.old) }
    requires lengths { length next.old ≡ length row.old }
    requires spare { length spare.old ≡ length table.now.words }
    ensures row { (t : IsTable table.now.header table.now.words) → HoldsRow ((sum_in table.now.header table.now.words t side vertices.now).mat arrow) j next.new }
    ensures elements { AreElements table.now.header.field next.new }
{
    clear(row);
    row[j] = 1;
    step_in_sum(table, side, vertices, arrow, row, next, spare);
}
