//! Rows, in lent memory, of what a term of a resolution goes to: a module, or the term before. They go along arrows.
ghost use Rattle.std.specs.Prelude.{ℕ, ◌≡◌, ◌<◌, ◌≤◌, length, slice_index};
ghost use Rattle.linear_algebra.specs.Field.{order};
ghost use Rattle.fp_linear.specs.Slices.{AreElements};
ghost use Rattle.quiver_paths.specs.Quiver.{arrow_count};
ghost use Rattle.alg_table.specs.TableView.{IsTable};
ghost use Rattle.bound_tables.specs.TableSides.{table_sides};
ghost use Rattle.module_types.specs.Algebras.{algebra_at, sided_words};
ghost use Rattle.module_types.specs.Readings.{read};
ghost use Rattle.module_types.specs.Shapes.{IsModule};
ghost use Rattle.claim_conditions.specs.Terms.{goes_to};
ghost use Rattle.module_checks.specs.RowWalks.{arrow_in_turn, IsArrowsMoved};
ghost use Rattle.term_rows.specs.SumDims.{AreTerms, IsRoomFor, covered_dim};
ghost use Rattle.term_rows.specs.RowSteps.{IsStep};

use crate::modules::step_in_module;
use crate::sums::step_in_sum;
use alg_table::Table;
use module_types::{Module, Side, TermRows};
use seq::Seq;

/// Writes what the arrow makes of a row of what term `k` goes to, and zeros behind it. `spare`, which has a place for each word, is written over.
pub fn step_in_target(
    table: &Table,
    a: &Module,
    terms: &Seq<TermRows>,
    k: usize,
    arrow: u8,
    row: &[u8],
    next: &mut [u8],
    spare: &mut [u8],
)
    requires a { IsModule table.now.header.field (algebra_at a.now.side table.now.header).quiver a.now }
    requires terms { AreTerms table.now.words table.now.header a.now terms.now k }
    requires arrow { arrow < arrow_count table.now.header.quiver }
    requires row_room { IsRoomFor table.now.header (covered_dim table.now.words table.now.header a.now terms.now k) (length row.now) }
    requires room { IsRoomFor table.now.header (covered_dim table.now.words table.now.header a.now terms.now k) (length next.old) }
    requires row_elements { AreElements table.now.header.field row.now }
    requires spare { length spare.old ≡ length table.now.words }
    ensures step { (t : IsTable table.now.header table.now.words)
        → IsStep (goes_to (sided_words a.now.side (table_sides table.now.header table.now.words t)).words (read table.now.header a.now) terms.now k) arrow row.now next.new }
    ensures elements { AreElements table.now.header.field next.new }
{
    if k == 0 {
        step_in_module(table.header(), a, arrow, row, next);
        return;
    }
    let vertices = &terms[k - 1].vertices;
    step_in_sum(table, a.side, vertices, arrow, row, next, spare);
}

/// Arrow `n` of a path, in the order in which the side takes them.
fn arrow_at(side: Side, arrows: &Seq<u8>, n: usize) -> u8
    requires { n < length arrows.now }
    ensures { result ≡ arrow_in_turn side arrows.now n }
{
    match side {
        Side::Right => arrows[n],
        Side::Left => arrows[arrows.len() - (n + 1)],
    }
}

/// A row of what term `k` goes to goes along the arrows of a path, as the side takes them. `next` is as long, and is written over, as is `spare`,
/// which has a place for each word.
pub fn walk_in_target(
    table: &Table,
    a: &Module,
    terms: &Seq<TermRows>,
    k: usize,
    arrows: &Seq<u8>,
    row: &mut [u8],
    next: &mut [u8],
    spare: &mut [u8],
)
    requires a { IsModule table.now.header.field (algebra_at a.now.side table.now.header).quiver a.now }
    requires terms { AreTerms table.now.words table.now.header a.now terms.now k }
    requires arrows { (n : ℕ) → n < length arrows.now → slice_index arrows.now n < arrow_count table.now.header.quiver }
    requires room { IsRoomFor table.now.header (covered_dim table.now.words table.now.header a.now terms.now k) (length row.old) }
    requires lengths { length next.old ≡ length row.old }
    requires elements { AreElements table.now.header.field row.old }
    requires spare { length spare.old ≡ length table.now.words }
    ensures walked { (t : IsTable table.now.header table.now.words)
        → IsArrowsMoved (goes_to (sided_words a.now.side (table_sides table.now.header table.now.words t)).words (read table.now.header a.now) terms.now k) a.now.side arrows.now row.old row.new }
    ensures elements { AreElements table.now.header.field row.new }
{
    for n in 0..arrows.len() {
        let arrow = arrow_at(a.side, arrows, n);
        step_in_target(table, a, terms, k, arrow, row, next, spare);
        row.copy_from_slice(next);
    }
}
