//! Rows of sums of projective modules in lent memory: they go along an arrow by the products of a table.
ghost use Rattle.std.specs.Prelude.{ℕ, ◌≡◌, ◌<◌, ◌≤◌, ◌+◌, length, slice_index};
ghost use Rattle.linear_algebra.specs.Field.{order, mul};
ghost use Rattle.fp_linear.specs.Slices.{AreElements};
ghost use Rattle.quiver_paths.specs.Quiver.{arrow_count};
ghost use Rattle.alg_table.specs.TableView.{IsTable};
ghost use Rattle.projectives.specs.CanonicalCover.{projectives_at};
ghost use Rattle.bound_tables.specs.TableSides.{table_sides};
ghost use Rattle.module_types.specs.Algebras.{sided_words};
ghost use Rattle.term_rows.specs.SumDims.{side_in_table, sum_dim, AreVertices, IsRoomFor};
ghost use Rattle.term_rows.specs.RowSteps.{IsStep, IsAddedFrom, HasProducts, combined};

use crate::clearing::clear;
use alg_table::{Side as TableSide, Table};
use module_types::{Side, source_at, target_at};
use seq::Seq;

/// The side as a table has it.
pub fn side_in_table(side: Side) -> TableSide
    ensures { result ≡ side_in_table side }
{
    match side {
        Side::Right => TableSide::Right,
        Side::Left => TableSide::Left,
    }
}

/// Adds `factor` times the product of a word and the arrow to the numbers from place `to` on: its coefficients at the places `targets`. `spare`,
/// which has a place for each word, is written over.
fn add_word(
    table: &Table,
    side: TableSide,
    word: u32,
    arrow: u8,
    targets: &[u32],
    factor: u8,
    to: usize,
    next: &mut [u8],
    spare: &mut [u8],
)
    requires word { word < length table.now.words }
    requires arrow { arrow < arrow_count table.now.header.quiver }
    requires targets { (t : ℕ) → t < length targets.now → slice_index targets.now t < length table.now.words }
    requires small { factor < order table.now.header.field }
    requires inside { to + length targets.now ≤ length next.old }
    requires elements { AreElements table.now.header.field next.old }
    requires spare { length spare.old ≡ length table.now.words }
    ensures added { (entries : ℕ → ℕ) → HasProducts table.now.header table.now.words side word arrow targets.now entries
        → IsAddedFrom table.now.header.field to (length targets.now) (λ t. mul table.now.header.field factor (entries t)) next.old next.new }
    ensures elements { AreElements table.now.header.field next.new }
{
    if factor == 0 {
        return;
    }
    table.act(side, word, arrow, spare);
    let field = table.header().field;
    for t in 0..targets.len() {
        let value = field.mul(factor, spare[targets[t] as usize]);
        next[to + t] = field.add(next[to + t], value);
    }
}

/// Adds the numbers from place `from` on, as coefficients of the words at the places `sources`, times the arrow, to the numbers from place `to` on.
fn add_words(
    table: &Table,
    side: TableSide,
    arrow: u8,
    sources: &[u32],
    targets: &[u32],
    from: usize,
    to: usize,
    row: &[u8],
    next: &mut [u8],
    spare: &mut [u8],
)
    requires arrow { arrow < arrow_count table.now.header.quiver }
    requires sources { (t : ℕ) → t < length sources.now → slice_index sources.now t < length table.now.words }
    requires targets { (t : ℕ) → t < length targets.now → slice_index targets.now t < length table.now.words }
    requires row_inside { from + length sources.now ≤ length row.now }
    requires inside { to + length targets.now ≤ length next.old }
    requires row_elements { AreElements table.now.header.field row.now }
    requires elements { AreElements table.now.header.field next.old }
    requires spare { length spare.old ≡ length table.now.words }
    ensures added { (entries : ℕ → ℕ → ℕ) → ((i : ℕ) → i < length sources.now → HasProducts table.now.header table.now.words side (slice_index sources.now i) arrow targets.now (entries i))
        → IsAddedFrom table.now.header.field to (length targets.now) (combined table.now.header.field row.now from entries (length sources.now)) next.old next.new }
    ensures elements { AreElements table.now.header.field next.new }
{
    for i in 0..sources.len() {
        add_word(
            table,
            side,
            sources[i],
            arrow,
            targets,
            row[from + i],
            to,
            next,
            spare,
        );
    }
}

/// Writes what the arrow makes of a row of the sum of the projective modules of a side at these vertices, and zeros behind it. `spare`, which has a
/// place for each word, is written over.
pub fn step_in_sum(
    table: &Table,
    side: Side,
    vertices: &Seq<u8>,
    arrow: u8,
    row: &[u8],
    next: &mut [u8],
    spare: &mut [u8],
)
    requires vertices { AreVertices table.now.header vertices.now }
    requires arrow { arrow < arrow_count table.now.header.quiver }
    requires row_room { IsRoomFor table.now.header (sum_dim table.now.words side vertices.now) (length row.now) }
    requires room { IsRoomFor table.now.header (sum_dim table.now.words side vertices.now) (length next.old) }
    requires row_elements { AreElements table.now.header.field row.now }
    requires spare { length spare.old ≡ length table.now.words }
    ensures step { (t : IsTable table.now.header table.now.words)
        → IsStep (projectives_at (sided_words side (table_sides table.now.header table.now.words t)).words vertices.now) arrow row.now next.new }
    ensures elements { AreElements table.now.header.field next.new }
{
    clear(next);
    let hand = side_in_table(side);
    let source = source_at(table.header(), side, arrow);
    let target = target_at(table.header(), side, arrow);
    let mut from = 0;
    let mut to = 0;
    for j in 0..vertices.len() {
        let sources = table.words_at(hand, vertices[j], source);
        let targets = table.words_at(hand, vertices[j], target);
        add_words(
            table, hand, arrow, sources, targets, from, to, row, next, spare,
        );
        from += sources.len();
        to += targets.len();
    }
}
