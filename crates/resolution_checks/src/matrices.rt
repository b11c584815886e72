//! The first of the conditions on the matrices of a resolution that fails.
ghost use Rattle.std.specs.Prelude.{ℕ, ◌≡◌, ◌<◌, ◌≤◌, suc, length};
ghost use Rattle.alg_table.specs.TableView.{IsTable};
ghost use Rattle.module_types.specs.Algebras.{algebra_at};
ghost use Rattle.module_types.specs.Readings.{read};
ghost use Rattle.module_types.specs.Shapes.{IsModule};
ghost use Rattle.claim_conditions.specs.Conditions.{IsAnswer};
ghost use Rattle.term_rows.specs.SumDims.{AreTerms};
ghost use Rattle.resolution_checks.specs.Room.{AreSmall, matrix_conditions_room};
ghost use Rattle.resolution_checks.specs.MatrixConditions.{matrix_conditions};
ghost use Rattle.resolution_checks.specs.Steps.{words_of_side};

use crate::composing::is_complex;
use crate::exactness::{is_exact, is_onto};
use alg_table::Table;
use claim_conditions::Clause;
use module_types::{Module, TermRows};
use seq::Seq;

/// The first of the conditions `complex` and `exact` on a resolution of length `n` that fails, in lent memory.
pub fn first_failing_matrices(
    table: &Table,
    a: &Module,
    terms: &Seq<TermRows>,
    n: u32,
    entries: &mut [u8],
    pivots: &mut [u32],
) -> Option<Clause>
    requires table { IsTable table.now.header table.now.words }
    requires a { IsModule table.now.header.field (algebra_at a.now.side table.now.header).quiver a.now }
    requires terms { AreTerms table.now.words table.now.header a.now terms.now (suc n) }
    requires small { AreSmall table.now.words table.now.header a.now terms.now (suc n) }
    requires short { n < 65536 }
    requires room { matrix_conditions_room (length table.now.words) ≤ length entries.old }
    requires pivots { 512 ≤ length pivots.old }
    ensures { (t : IsTable table.now.header table.now.words)
        → IsAnswer (matrix_conditions (words_of_side table.now.header table.now.words t a.now terms.now) (read table.now.header a.now) terms.now n) result }
{
    let (row, rest) = entries.split_at_mut(512);
    let (next, rest) = rest.split_at_mut(512);
    let (spare, rest) = rest.split_at_mut(table.word_count() as usize);
    let (first, rest) = rest.split_at_mut(262144);
    let (second, _) = rest.split_at_mut(262144);
    if !is_complex(table, a, terms, n, first, second, row, next, spare) {
        return Some(Clause::Complex);
    }
    if !is_onto(table, a, terms, first, pivots, row, next, spare) {
        return Some(Clause::Exact);
    }
    if !is_exact(table, a, terms, n, first, pivots, row, next, spare) {
        return Some(Clause::Exact);
    }
    None
}
