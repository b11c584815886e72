//! The first condition on a basis of extensions that fails.
ghost use Rattle.std.specs.Prelude.{ℕ, ◌≡◌, ◌<◌, ◌≤◌, ◌+◌, ◌*◌, suc, length, MatchBool, ⊤};
ghost use Rattle.fp_linear.specs.Slices.{AreElements};
ghost use Rattle.alg_table.specs.TableView.{IsTable};
ghost use Rattle.bound_tables.specs.TableSides.{table_sides};
ghost use Rattle.module_types.specs.Algebras.{algebra_at, sided_words};
ghost use Rattle.module_types.specs.Readings.{read, read_beside};
ghost use Rattle.module_types.specs.Shapes.{IsModule};
ghost use Rattle.module_types.specs.TermCoordinates.{coordinates};
ghost use Rattle.claim_conditions.specs.Conditions.{IsAnswer};
ghost use Rattle.claim_conditions.specs.ExtensionConditions.{extension_conditions, coboundaries};
ghost use Rattle.claim_conditions.specs.Terms.{term_at};
ghost use Rattle.module_checks.specs.Room.{IsRoom};
ghost use Rattle.term_rows.specs.SumDims.{AreTerms};
ghost use Rattle.resolution_checks.specs.Room.{AreSmall};
ghost use Rattle.extension_checks.specs.Room.{most_coordinates, IsExtensionRoom};
ghost use Rattle.extension_checks.specs.Cleared.{HasPivots};
ghost use Rattle.extension_checks.specs.Following.{AreTermsOver};
ghost use Rattle.extension_checks.specs.RowConditions.{row_conditions};

use crate::cleared::are_cleared;
use crate::coboundaries::coboundary_rank;
use crate::cocycles::cocycle_rank;
use alg_table::Table;
use claim_conditions::Clause;
use fp_linear::Matrix;
use module_checks::{all_meet, clear, is_reduced, same_side};
use module_types::{Module, TermRows};
use seq::Seq;

/// The rank of the coboundaries of degree `n`, 0 in degree 0; the first places of `pivots` are then the pivots of their reduced row form.
fn boundary_rank(
    table: &Table,
    b: &Module,
    terms: &Seq<TermRows>,
    n: usize,
    unknowns: u32,
    line: &mut [u8],
    sum: &mut [u8],
    row: &mut [u8],
    step: &mut [u8],
    entries: &mut [u8],
    pivots: &mut [u32],
) -> u32
    requires table { IsTable table.now.header table.now.words }
    requires b { IsModule table.now.header.field (algebra_at b.now.side table.now.header).quiver b.now }
    requires terms { AreTermsOver table.now.header table.now.words b.now.side terms.now n }
    requires unknowns { unknowns ≡ coordinates (read table.now.header b.now) (term_at terms.now n) }
    requires line { unknowns ≤ length line.old }
    requires elements { AreElements table.now.header.field line.old }
    requires sum { length sum.old ≡ 256 }
    requires row { length row.old ≡ 256 }
    requires step { length step.old ≡ 256 }
    requires room { IsRoom unknowns 1025 entries.old pivots.old }
    ensures pivots { (t : IsTable table.now.header table.now.words)
        → HasPivots (coboundaries (sided_words b.now.side (table_sides table.now.header table.now.words t)).words (read table.now.header b.now) terms.now n) result pivots.new }
    ensures few { result ≤ 1025 }
{
    if n == 0 {
        return 0;
    }
    let before = &terms[n - 1];
    let term = &terms[n];
    coboundary_rank(
        table, b, before, term, unknowns, line, sum, row, step, entries, pivots,
    )
}

/// Whether three numbers add to a fourth.
fn adds_up(count: u32, inner: u32, outer: u32, whole: u32) -> bool
    ensures { MatchBool result (count + inner + outer ≡ whole) (¬ (count + inner + outer ≡ whole)) }
{
    count as u64 + inner as u64 + outer as u64 == whole as u64
}

/// The first of the conditions on the rows that fails, for a module on the side of the terms. `folded` and `pivots` are room for equations.
fn first_failing_rows(
    table: &Table,
    b: &Module,
    terms: &Seq<TermRows>,
    n: u32,
    rows: &Matrix,
    block: &mut [u8],
    sum: &mut [u8],
    row: &mut [u8],
    step: &mut [u8],
    folded: &mut [u8],
    pivots: &mut [u32],
) -> Option<Clause>
    requires table { IsTable table.now.header table.now.words }
    requires b { IsModule table.now.header.field (algebra_at b.now.side table.now.header).quiver b.now }
    requires terms { AreTermsOver table.now.header table.now.words b.now.side terms.now n }
    requires field { rows.now.field ≡ table.now.header.field }
    requires coordinates { rows.now.col_count ≡ coordinates (read table.now.header b.now) (term_at terms.now n) }
    requires block { 256 * rows.now.col_count ≤ length block.old }
    requires sum { length sum.old ≡ 256 }
    requires row { length row.old ≡ 256 }
    requires step { length step.old ≡ 256 }
    requires room { IsRoom rows.now.col_count 1025 folded.old pivots.old }
    ensures { (t : IsTable table.now.header table.now.words)
        → IsAnswer (row_conditions (sided_words b.now.side (table_sides table.now.header table.now.words t)).words (read table.now.header b.now) terms.now n rows.now) result }
{
    let unknowns = rows.cols();
    let first = &terms[n as usize];
    let next = &terms[n as usize + 1];
    clear(block);
    let outer = cocycle_rank(
        table, b, first, next, unknowns, block, sum, row, step, folded, pivots,
    );
    let field = table.header().field;
    if !all_meet(field, rows, 1025, folded) {
        return Some(Clause::Cocycles);
    }
    let inner = boundary_rank(
        table, b, terms, n as usize, unknowns, block, sum, row, step, folded, pivots,
    );
    if !is_reduced(rows) {
        return Some(Clause::Reduced);
    }
    if !are_cleared(rows, pivots, inner as usize) {
        return Some(Clause::Reduced);
    }
    if !adds_up(rows.rows(), inner, outer, unknowns) {
        return Some(Clause::All);
    }
    None
}

/// The first condition on a claim on extensions of degree `n` of `a` by `b` that fails, where its numbers name what they should, in lent memory. `terms` are
/// those of a resolution of `a`, `rows` are in the coordinates of the homomorphisms from term `n` to `b`, of which there are at most 1,024.
pub fn first_failing_extension(
    table: &Table,
    a: &Module,
    b: &Module,
    terms: &Seq<TermRows>,
    n: u32,
    rows: &Matrix,
    entries: &mut [u8],
    pivots: &mut [u32],
) -> Option<Clause>
    requires table { IsTable table.now.header table.now.words }
    requires b { IsModule table.now.header.field (algebra_at b.now.side table.now.header).quiver b.now }
    requires terms { AreTerms table.now.words table.now.header a.now terms.now (suc (suc n)) }
    requires small { AreSmall table.now.words table.now.header a.now terms.now (suc n) }
    requires field { rows.now.field ≡ table.now.header.field }
    requires coordinates { rows.now.col_count ≡ coordinates (read_beside table.now.header a.now b.now) (term_at terms.now n) }
    requires few { rows.now.col_count ≤ most_coordinates }
    requires room { IsExtensionRoom entries.old pivots.old }
    ensures { (t : IsTable table.now.header table.now.words)
        → IsAnswer (extension_conditions ⊤ table.now.header (table_sides table.now.header table.now.words t) a.now b.now terms.now n rows.now) result }
{
    if !same_side(a.side, b.side) {
        return Some(Clause::Objects);
    }
    let (sum, rest) = entries.split_at_mut(256);
    let (row, rest) = rest.split_at_mut(256);
    let (step, rest) = rest.split_at_mut(256);
    let (block, rest) = rest.split_at_mut(262144);
    let (folded, _) = rest.split_at_mut(1025 * rows.cols() as usize);
    let answer = first_failing_rows(
        table, b, terms, n, rows, block, sum, row, step, folded, pivots,
    );
    answer
}
