//! The first of the conditions on a resolution that fails.
ghost use Rattle.std.specs.Prelude.{ℕ, ◌≡◌, ◌<◌, ◌≤◌, suc, length};
ghost use Rattle.alg_table.specs.TableView.{IsTable};
ghost use Rattle.module_types.specs.Algebras.{algebra_at};
ghost use Rattle.module_types.specs.Readings.{read};
ghost use Rattle.module_types.specs.Shapes.{IsModule};
ghost use Rattle.claim_conditions.specs.Conditions.{IsAnswer};
ghost use Rattle.claim_conditions.specs.ResolutionConditions.{term_conditions};
ghost use Rattle.term_rows.specs.SumDims.{AreTerms};
ghost use Rattle.resolution_checks.specs.Room.{AreSmall};
ghost use Rattle.resolution_checks.specs.Steps.{words_of_side};
ghost use Rattle.cover_checks.specs.Room.{IsResolutionRoom};

use crate::choosing::is_chosen;
use crate::minimal::is_minimal;
use alg_table::Table;
use claim_conditions::Clause;
use module_types::{Module, TermRows};
use resolution_checks::first_failing_matrices;
use seq::Seq;

/// The first of the conditions on a resolution of length `n` that fails, in lent memory.
pub fn first_failing_resolution(
    table: &Table,
    a: &Module,
    terms: &Seq<TermRows>,
    n: u32,
    bytes: &mut [u8],
    numbers: &mut [u32],
) -> Option<Clause>
    requires table { IsTable table.now.header table.now.words }
    requires a { IsModule table.now.header.field (algebra_at a.now.side table.now.header).quiver a.now }
    requires terms { AreTerms table.now.words table.now.header a.now terms.now (suc n) }
    requires small { AreSmall table.now.words table.now.header a.now terms.now (suc n) }
    requires short { n < 65536 }
    requires room { IsResolutionRoom (length table.now.words) bytes.old numbers.old }
    ensures { (t : IsTable table.now.header table.now.words)
        → IsAnswer (term_conditions (words_of_side table.now.header table.now.words t a.now terms.now) (read table.now.header a.now) terms.now n) result }
{
    if let Some(which) = first_failing_matrices(table, a, terms, n, bytes, numbers) {
        return Some(which);
    }
    let (matrix, rest) = bytes.split_at_mut(262144);
    let (wide, rest) = rest.split_at_mut(524288);
    let (other, rest) = rest.split_at_mut(262144);
    let (basis, rest) = rest.split_at_mut(262144);
    let (entries, rest) = rest.split_at_mut(262656);
    let (row, rest) = rest.split_at_mut(512);
    let (next, rest) = rest.split_at_mut(512);
    let (coordinates, rest) = rest.split_at_mut(512);
    let (spare, _) = rest.split_at_mut(table.word_count() as usize);
    let (marks, rest) = numbers.split_at_mut(512);
    let (places, pivots) = rest.split_at_mut(512);
    if !is_minimal(
        table,
        a,
        terms,
        n,
        matrix,
        wide,
        other,
        marks,
        basis,
        places,
        entries,
        pivots,
        row,
        next,
        coordinates,
        spare,
    ) {
        return Some(Clause::Minimal);
    }
    if !is_chosen(
        table,
        a,
        terms,
        n,
        matrix,
        wide,
        basis,
        places,
        other,
        marks,
        entries,
        pivots,
        row,
        next,
        coordinates,
        spare,
    ) {
        return Some(Clause::Choice);
    }
    None
}
