//! Ranks of the matrices of terms, and whether terms are exact by ranks.
ghost use Rattle.std.specs.Prelude.{ℕ, ◌≡◌, ◌<◌, ◌≤◌, ◌+◌, suc, length, MatchBool};
ghost use Rattle.linear_algebra.specs.Ranks.{rank};
ghost use Rattle.quiver_paths.specs.Quiver.{vertex_count};
ghost use Rattle.alg_table.specs.TableView.{IsTable};
ghost use Rattle.module_types.specs.Algebras.{algebra_at};
ghost use Rattle.module_types.specs.Readings.{read};
ghost use Rattle.module_types.specs.Shapes.{IsModule};
ghost use Rattle.claim_conditions.specs.ResolutionConditions.{IsOntoByRanks, IsExactByRanks};
ghost use Rattle.term_rows.specs.SumDims.{AreTerms};
ghost use Rattle.term_rows.specs.TermCells.{matrix_in};
ghost use Rattle.resolution_checks.specs.Room.{AreSmall};
ghost use Rattle.resolution_checks.specs.Steps.{words_of_side, ExactAt, ExactBelow};

use alg_table::Table;
use fp_linear::echelon_rows;
use module_types::{Module, TermRows};
use seq::Seq;
use term_rows::{sum_dimension, target_dimension, write_term_matrix};

/// The rank of the matrix of term `k` at the vertex `w`.
pub fn term_rank(
    table: &Table,
    a: &Module,
    terms: &Seq<TermRows>,
    k: u32,
    w: u8,
    into: &mut [u8],
    pivots: &mut [u32],
    row: &mut [u8],
    next: &mut [u8],
    spare: &mut [u8],
) -> u32
    requires table { IsTable table.now.header table.now.words }
    requires a { IsModule table.now.header.field (algebra_at a.now.side table.now.header).quiver a.now }
    requires terms { AreTerms table.now.words table.now.header a.now terms.now (suc k) }
    requires small { AreSmall table.now.words table.now.header a.now terms.now (suc k) }
    requires vertex { w < vertex_count table.now.header.quiver }
    requires into { length into.old ≡ 262144 }
    requires pivots { 512 ≤ length pivots.old }
    requires row { length row.old ≡ 512 }
    requires next { length next.old ≡ 512 }
    requires spare { length spare.old ≡ length table.now.words }
    ensures { (t : IsTable table.now.header table.now.words) → result ≡ rank (matrix_in table.now.header table.now.words t a.now terms.now k w) }
{
    let field = table.header().field;
    let rows = sum_dimension(table, a.side, &terms[k as usize].vertices, w);
    let columns = target_dimension(table, a, terms, k as usize, w);
    let f = &mut into[..rows * columns];
    write_term_matrix(table, a, terms, k as usize, w, f, row, next, spare);
    echelon_rows(field, rows as u32, columns as u32, f, pivots)
}

/// Whether the ranks of the maps into and out of term `k` add to its dimension at the vertex `w`.
fn is_exact_at(
    table: &Table,
    a: &Module,
    terms: &Seq<TermRows>,
    k: u32,
    w: u8,
    into: &mut [u8],
    pivots: &mut [u32],
    row: &mut [u8],
    next: &mut [u8],
    spare: &mut [u8],
) -> bool
    requires table { IsTable table.now.header table.now.words }
    requires a { IsModule table.now.header.field (algebra_at a.now.side table.now.header).quiver a.now }
    requires terms { AreTerms table.now.words table.now.header a.now terms.now (suc (k + 1)) }
    requires small { AreSmall table.now.words table.now.header a.now terms.now (suc (k + 1)) }
    requires short { k < 65536 }
    requires vertex { w < vertex_count table.now.header.quiver }
    requires into { length into.old ≡ 262144 }
    requires pivots { 512 ≤ length pivots.old }
    requires row { length row.old ≡ 512 }
    requires next { length next.old ≡ 512 }
    requires spare { length spare.old ≡ length table.now.words }
    ensures { (t : IsTable table.now.header table.now.words) → MatchBool result (ExactAt table.now.header table.now.words t a.now terms.now k w) (¬ ExactAt table.now.header table.now.words t a.now terms.now k w) }
{
    let inner = term_rank(table, a, terms, k + 1, w, into, pivots, row, next, spare);
    let outer = term_rank(table, a, terms, k, w, into, pivots, row, next, spare);
    let dimension = sum_dimension(table, a.side, &terms[k as usize].vertices, w);
    if inner as u64 + outer as u64 != dimension as u64 {
        return false;
    }
    true
}

/// Whether they do so at all vertices.
fn is_exact_everywhere(
    table: &Table,
    a: &Module,
    terms: &Seq<TermRows>,
    k: u32,
    into: &mut [u8],
    pivots: &mut [u32],
    row: &mut [u8],
    next: &mut [u8],
    spare: &mut [u8],
) -> bool
    requires table { IsTable table.now.header table.now.words }
    requires a { IsModule table.now.header.field (algebra_at a.now.side table.now.header).quiver a.now }
    requires terms { AreTerms table.now.words table.now.header a.now terms.now (suc (k + 1)) }
    requires small { AreSmall table.now.words table.now.header a.now terms.now (suc (k + 1)) }
    requires short { k < 65536 }
    requires into { length into.old ≡ 262144 }
    requires pivots { 512 ≤ length pivots.old }
    requires row { length row.old ≡ 512 }
    requires next { length next.old ≡ 512 }
    requires spare { length spare.old ≡ length table.now.words }
    ensures { (t : IsTable table.now.header table.now.words) → MatchBool result (ExactBelow table.now.header table.now.words t a.now terms.now k (vertex_count table.now.header.quiver)) (¬ ExactBelow table.now.header table.now.words t a.now terms.now k (vertex_count table.now.header.quiver)) }
{
    for w in 0..table.header().quiver.vertices.len() {
        if !is_exact_at(table, a, terms, k, w as u8, into, pivots, row, next, spare) {
            return false;
        }
    }
    true
}

/// Whether the terms are exact by ranks at the first `n` places.
pub fn is_exact(
    table: &Table,
    a: &Module,
    terms: &Seq<TermRows>,
    n: u32,
    into: &mut [u8],
    pivots: &mut [u32],
    row: &mut [u8],
    next: &mut [u8],
    spare: &mut [u8],
) -> bool
    requires table { IsTable table.now.header table.now.words }
    requires a { IsModule table.now.header.field (algebra_at a.now.side table.now.header).quiver a.now }
    requires terms { AreTerms table.now.words table.now.header a.now terms.now (suc n) }
    requires small { AreSmall table.now.words table.now.header a.now terms.now (suc n) }
    requires short { n < 65536 }
    requires into { length into.old ≡ 262144 }
    requires pivots { 512 ≤ length pivots.old }
    requires row { length row.old ≡ 512 }
    requires next { length next.old ≡ 512 }
    requires spare { length spare.old ≡ length table.now.words }
    ensures { (t : IsTable table.now.header table.now.words) → MatchBool result (IsExactByRanks (words_of_side table.now.header table.now.words t a.now terms.now) (read table.now.header a.now) terms.now n) (¬ IsExactByRanks (words_of_side table.now.header table.now.words t a.now terms.now) (read table.now.header a.now) terms.now n) }
{
    for k in 0..n {
        if !is_exact_everywhere(table, a, terms, k, into, pivots, row, next, spare) {
            return false;
        }
    }
    true
}

/// Whether term 0 is onto the module by ranks.
pub fn is_onto(
    table: &Table,
    a: &Module,
    terms: &Seq<TermRows>,
    into: &mut [u8],
    pivots: &mut [u32],
    row: &mut [u8],
    next: &mut [u8],
    spare: &mut [u8],
) -> bool
    requires table { IsTable table.now.header table.now.words }
    requires a { IsModule table.now.header.field (algebra_at a.now.side table.now.header).quiver a.now }
    requires terms { AreTerms table.now.words table.now.header a.now terms.now (1) }
    requires small { AreSmall table.now.words table.now.header a.now terms.now (1) }
    requires into { length into.old ≡ 262144 }
    requires pivots { 512 ≤ length pivots.old }
    requires row { length row.old ≡ 512 }
    requires next { length next.old ≡ 512 }
    requires spare { length spare.old ≡ length table.now.words }
    ensures { (t : IsTable table.now.header table.now.words) → MatchBool result (IsOntoByRanks (words_of_side table.now.header table.now.words t a.now terms.now) (read table.now.header a.now) terms.now) (¬ IsOntoByRanks (words_of_side table.now.header table.now.words t a.now terms.now) (read table.now.header a.now) terms.now) }
{
    for w in 0..table.header().quiver.vertices.len() {
        let rank = term_rank(table, a, terms, 0, w as u8, into, pivots, row, next, spare);
        if rank as usize != target_dimension(table, a, terms, 0, w as u8) {
            return false;
        }
    }
    true
}
