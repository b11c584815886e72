//! Whether the matrices of terms compose to zero.
ghost use Rattle.std.specs.Prelude.{ℕ, ◌≡◌, ◌<◌, ◌≤◌, ◌+◌, suc, length, MatchBool};
ghost use Rattle.quiver_paths.specs.Quiver.{vertex_count};
ghost use Rattle.alg_table.specs.TableView.{IsTable};
ghost use Rattle.module_types.specs.Algebras.{algebra_at};
ghost use Rattle.module_types.specs.Readings.{read};
ghost use Rattle.module_types.specs.Shapes.{IsModule};
ghost use Rattle.claim_conditions.specs.ResolutionConditions.{IsComplex};
ghost use Rattle.term_rows.specs.SumDims.{AreTerms};
ghost use Rattle.resolution_checks.specs.Room.{AreSmall};
ghost use Rattle.resolution_checks.specs.Steps.{words_of_side, ComposesAt, ComposeBelow};

use crate::products::product_is_zero;
use alg_table::Table;
use module_types::{Module, TermRows};
use seq::Seq;
use term_rows::{sum_dimension, target_dimension, write_term_matrix};

/// Whether the matrices of term `k` + 1 and term `k` compose to zero at the vertex `w`.
fn composes_at(
    table: &Table,
    a: &Module,
    terms: &Seq<TermRows>,
    k: u32,
    w: u8,
    first: &mut [u8],
    second: &mut [u8],
    row: &mut [u8],
    next: &mut [u8],
    spare: &mut [u8],
) -> bool
    requires table { IsTable table.now.header table.now.words }
    requires a { IsModule table.now.header.field (algebra_at a.now.side table.now.header).quiver a.now }
    requires terms { AreTerms table.now.words table.now.header a.now terms.now (suc (k + 1)) }
    requires small { AreSmall table.now.words table.now.header a.now terms.now (suc (k + 1)) }
    requires vertex { w < vertex_count table.now.header.quiver }
    requires first { length first.old ≡ 262144 }
    requires second { length second.old ≡ 262144 }
    requires row { length row.old ≡ 512 }
    requires next { length next.old ≡ 512 }
    requires spare { length spare.old ≡ length table.now.words }
    ensures { (t : IsTable table.now.header table.now.words) → MatchBool result (ComposesAt table.now.header table.now.words t a.now terms.now k w) (¬ ComposesAt table.now.header table.now.words t a.now terms.now k w) }
{
    let field = table.header().field;
    let rows = sum_dimension(table, a.side, &terms[k as usize + 1].vertices, w);
    let width = target_dimension(table, a, terms, k as usize + 1, w);
    let columns = target_dimension(table, a, terms, k as usize, w);
    let f = &mut first[..rows * width];
    let g = &mut second[..width * columns];
    write_term_matrix(table, a, terms, k as usize + 1, w, f, row, next, spare);
    write_term_matrix(table, a, terms, k as usize, w, g, row, next, spare);
    product_is_zero(field, rows, width, columns, f, g)
}

/// Whether they do so at all vertices.
fn composes_everywhere(
    table: &Table,
    a: &Module,
    terms: &Seq<TermRows>,
    k: u32,
    first: &mut [u8],
    second: &mut [u8],
    row: &mut [u8],
    next: &mut [u8],
    spare: &mut [u8],
) -> bool
    requires table { IsTable table.now.header table.now.words }
    requires a { IsModule table.now.header.field (algebra_at a.now.side table.now.header).quiver a.now }
    requires terms { AreTerms table.now.words table.now.header a.now terms.now (suc (k + 1)) }
    requires small { AreSmall table.now.words table.now.header a.now terms.now (suc (k + 1)) }
    requires first { length first.old ≡ 262144 }
    requires second { length second.old ≡ 262144 }
    requires row { length row.old ≡ 512 }
    requires next { length next.old ≡ 512 }
    requires spare { length spare.old ≡ length table.now.words }
    ensures { (t : IsTable table.now.header table.now.words) → MatchBool result (ComposeBelow table.now.header table.now.words t a.now terms.now k (vertex_count table.now.header.quiver)) (¬ ComposeBelow table.now.header table.now.words t a.now terms.now k (vertex_count table.now.header.quiver)) }
{
    for w in 0..table.header().quiver.vertices.len() {
        if !composes_at(table, a, terms, k, w as u8, first, second, row, next, spare) {
            return false;
        }
    }
    true
}

/// Whether each of the first `n` composites of the terms is zero: that of term `k` + 1 and term `k`, for each `k` below `n`.
pub fn is_complex(
    table: &Table,
    a: &Module,
    terms: &Seq<TermRows>,
    n: u32,
    first: &mut [u8],
    second: &mut [u8],
    row: &mut [u8],
    next: &mut [u8],
    spare: &mut [u8],
) -> bool
    requires table { IsTable table.now.header table.now.words }
    requires a { IsModule table.now.header.field (algebra_at a.now.side table.now.header).quiver a.now }
    requires terms { AreTerms table.now.words table.now.header a.now terms.now (suc n) }
    requires small { AreSmall table.now.words table.now.header a.now terms.now (suc n) }
    requires first { length first.old ≡ 262144 }
    requires second { length second.old ≡ 262144 }
    requires row { length row.old ≡ 512 }
    requires next { length next.old ≡ 512 }
    requires spare { length spare.old ≡ length table.now.words }
    ensures { (t : IsTable table.now.header table.now.words) → MatchBool result
        (IsComplex (words_of_side table.now.header table.now.words t a.now terms.now) (read table.now.header a.now) terms.now n)
        (¬ IsComplex (words_of_side table.now.header table.now.words t a.now terms.now) (read table.now.header a.now) terms.now n) }
{
    for k in 0..n {
        if !composes_everywhere(table, a, terms, k, first, second, row, next, spare) {
            return false;
        }
    }
    true
}
