//! The first condition on an embedding into injective modules, and on a projection from transposed projective modules, that fails.
ghost use Rattle.std.specs.Prelude.{ℕ, ◌≡◌, ◌<◌, ◌≤◌, length};
ghost use Rattle.alg_table.specs.TableView.{IsTable};
ghost use Rattle.representations.specs.Quiver.{opposite};
ghost use Rattle.module_types.specs.Algebras.{algebra_at, other_side};
ghost use Rattle.module_types.specs.Readings.{dim_at};
ghost use Rattle.module_types.specs.Shapes.{IsModule, AreMatrices};
ghost use Rattle.claim_conditions.specs.Conditions.{IsAnswer};
ghost use Rattle.claim_conditions.specs.TranslateConditions.{embedding_conditions, projection_conditions};
ghost use Rattle.term_rows.specs.SumDims.{sum_dim};
ghost use Rattle.translate_checks.specs.Across.{IsPresentation, sides_of, of_terms};
ghost use Rattle.translate_checks.specs.Room.{translate_room};
ghost use Rattle.translate_checks.specs.Steps.{module_in, module_across};

use crate::homs::{is_hom_from, is_hom_into};
use crate::sizes::{are_killed, have_sizes, kill};
use alg_table::Table;
use claim_conditions::Clause;
use fp_linear::Matrix;
use module_checks::{are_column_reduced, are_reduced};
use module_types::{Module, Side, TermRows};
use seq::Seq;

/// The first of the conditions `reduced`, `inside` and `all` on an embedding of a module of the side into the injective modules of term 1 that fails.
pub fn first_failing_embedding(
    table: &Table,
    side: Side,
    cover: &TermRows,
    syzygy: &TermRows,
    n: &Module,
    rows: &Seq<Matrix>,
    entries: &mut [u8],
    pivots: &mut [u32],
) -> Option<Clause>
    requires table { IsTable table.now.header table.now.words }
    requires presentation { IsPresentation table.now.words table.now.header side cover.now.vertices syzygy.now }
    requires n { IsModule table.now.header.field (algebra_at side table.now.header).quiver n.now }
    requires rows { AreMatrices table.now.header.field (algebra_at side table.now.header).quiver.vertices
        (dim_at (algebra_at side table.now.header).quiver n.now.dims) (sum_dim table.now.words (other_side side) syzygy.now.vertices) rows.now }
    requires entries { translate_room (length table.now.words) ≤ length entries.old }
    requires pivots { 512 ≤ length pivots.old }
    ensures { (t : IsTable table.now.header table.now.words) → IsAnswer (embedding_conditions (sides_of table.now.header table.now.words t side) (of_terms cover.now syzygy.now)
        (module_in table.now.header table.now.words t side n.now) rows.now) result }
{
    if !are_reduced(rows) {
        return Some(Clause::Reduced);
    }
    let (row, rest) = entries.split_at_mut(512);
    let (next, rest) = rest.split_at_mut(512);
    let (spare, rest) = rest.split_at_mut(table.word_count() as usize);
    let (into, _) = rest.split_at_mut(262144);
    if !is_hom_into(table, side, n, &syzygy.vertices, rows, row, next, spare) {
        return Some(Clause::Inside);
    }
    if !are_killed(
        table,
        side,
        &cover.vertices,
        syzygy,
        n,
        rows,
        into,
        row,
        next,
        spare,
    ) {
        return Some(Clause::Inside);
    }
    if !have_sizes(
        table,
        side,
        &cover.vertices,
        syzygy,
        &n.dims,
        into,
        pivots,
        row,
        next,
        spare,
    ) {
        return Some(Clause::All);
    }
    None
}

/// The first of the conditions `reduced`, `inside` and `all` on a projection from the transposed term 1 to a module of the other side that fails.
pub fn first_failing_projection(
    table: &Table,
    side: Side,
    cover: &TermRows,
    syzygy: &TermRows,
    n: &Module,
    rows: &Seq<Matrix>,
    entries: &mut [u8],
    pivots: &mut [u32],
) -> Option<Clause>
    requires table { IsTable table.now.header table.now.words }
    requires presentation { IsPresentation table.now.words table.now.header side cover.now.vertices syzygy.now }
    requires n { IsModule table.now.header.field (opposite (algebra_at side table.now.header).quiver) n.now }
    requires rows { AreMatrices table.now.header.field (algebra_at side table.now.header).quiver.vertices
        (sum_dim table.now.words (other_side side) syzygy.now.vertices) (dim_at (opposite (algebra_at side table.now.header).quiver) n.now.dims) rows.now }
    requires entries { translate_room (length table.now.words) ≤ length entries.old }
    requires pivots { 512 ≤ length pivots.old }
    ensures { (t : IsTable table.now.header table.now.words) → IsAnswer (projection_conditions (sides_of table.now.header table.now.words t side) (of_terms cover.now syzygy.now)
        (module_across table.now.header table.now.words t side n.now) rows.now) result }
{
    if !are_column_reduced(rows) {
        return Some(Clause::Reduced);
    }
    let (row, rest) = entries.split_at_mut(512);
    let (next, rest) = rest.split_at_mut(512);
    let (spare, rest) = rest.split_at_mut(table.word_count() as usize);
    let (into, _) = rest.split_at_mut(262144);
    if !is_hom_from(table, side, n, &syzygy.vertices, rows, row, next, spare) {
        return Some(Clause::Inside);
    }
    if !kill(
        table,
        side,
        &cover.vertices,
        syzygy,
        n,
        rows,
        into,
        row,
        next,
        spare,
    ) {
        return Some(Clause::Inside);
    }
    if !have_sizes(
        table,
        side,
        &cover.vertices,
        syzygy,
        &n.dims,
        into,
        pivots,
        row,
        next,
        spare,
    ) {
        return Some(Clause::All);
    }
    None
}
