//! What is asked of the left end and of the middle of a sequence.
ghost use Rattle.std.specs.Prelude.{ℕ, ◌≡◌, ◌<◌, ◌≤◌, ◌+◌, length, MatchBool};
ghost use Rattle.linear_algebra.specs.BlockFamilies.{total};
ghost use Rattle.linear_algebra.specs.Rows.{IsRow};
ghost use Rattle.alg_table.specs.TableView.{IsTable};
ghost use Rattle.projectives.specs.CanonicalCover.{vertex_in};
ghost use Rattle.module_types.specs.Algebras.{algebra_at, other_side};
ghost use Rattle.module_types.specs.Readings.{dim_at};
ghost use Rattle.module_types.specs.Shapes.{IsModule, AreMatrices};
ghost use Rattle.claim_conditions.specs.SequenceConditions.{IsLeft, IsMiddle};
ghost use Rattle.term_rows.specs.SumDims.{sum_dim};
ghost use Rattle.translate_checks.specs.Across.{IsPresentation, sides_of, of_terms};
ghost use Rattle.translate_checks.specs.Room.{translate_room};
ghost use Rattle.translate_checks.specs.Steps.{module_in};
ghost use Rattle.sequence_checks.specs.Room.{sequence_room};

use crate::homs::is_hom_around;
use crate::middles::are_pulled_back;
use crate::sizes::have_pulled_sizes;
use alg_table::Table;
use fp_linear::Matrix;
use module_checks::are_reduced;
use module_types::{Module, Side, TermRows};
use seq::Seq;
use translate_checks::first_failing_embedding;

/// Whether the matrices embed a module of the side into the injective modules of term 1 as the kernel of the map under the Nakayama functor, in reduced
/// row form. The slices are worked in.
pub fn is_left(
    table: &Table,
    side: Side,
    cover: &TermRows,
    syzygy: &TermRows,
    n: &Module,
    rows: &Seq<Matrix>,
    entries: &mut [u8],
    pivots: &mut [u32],
) -> bool
    requires table { IsTable table.now.header table.now.words }
    requires presentation { IsPresentation table.now.words table.now.header side cover.now.vertices syzygy.now }
    requires n { IsModule table.now.header.field (algebra_at side table.now.header).quiver n.now }
    requires rows { AreMatrices table.now.header.field (algebra_at side table.now.header).quiver.vertices
        (dim_at (algebra_at side table.now.header).quiver n.now.dims) (sum_dim table.now.words (other_side side) syzygy.now.vertices) rows.now }
    requires entries { translate_room (length table.now.words) ≤ length entries.old }
    requires pivots { 512 ≤ length pivots.old }
    ensures { (t : IsTable table.now.header table.now.words) → MatchBool result
        (IsLeft (sides_of table.now.header table.now.words t side) (of_terms cover.now syzygy.now) (module_in table.now.header table.now.words t side n.now) rows.now)
        (¬ IsLeft (sides_of table.now.header table.now.words t side) (of_terms cover.now syzygy.now) (module_in table.now.header table.now.words t side n.now) rows.now) }
{
    let answer = first_failing_embedding(table, side, cover, syzygy, n, rows, entries, pivots);
    match answer {
        Some(_) => false,
        None => true,
    }
}

/// Whether the matrices embed the module `e` into the injective modules of term 1 and the module `m` as the pullback, in reduced row form. The slices are
/// worked in.
pub fn is_middle(
    table: &Table,
    side: Side,
    e: &Module,
    m: &Module,
    cover: &TermRows,
    syzygy: &TermRows,
    functional: &Seq<u8>,
    matrices: &Seq<Matrix>,
    entries: &mut [u8],
    pivots: &mut [u32],
) -> bool
    requires table { IsTable table.now.header table.now.words }
    requires presentation { IsPresentation table.now.words table.now.header side cover.now.vertices syzygy.now }
    requires e { IsModule table.now.header.field (algebra_at side table.now.header).quiver e.now }
    requires m { IsModule table.now.header.field (algebra_at side table.now.header).quiver m.now }
    requires few { length cover.now.vertices < 4294967296 }
    requires functional { IsRow table.now.header.field (total (length cover.now.vertices) (λ c. dim_at (algebra_at side table.now.header).quiver m.now.dims (vertex_in cover.now.vertices c))) functional.now }
    requires matrices { AreMatrices table.now.header.field (algebra_at side table.now.header).quiver.vertices (dim_at (algebra_at side table.now.header).quiver e.now.dims)
        (λ w. sum_dim table.now.words (other_side side) syzygy.now.vertices w + dim_at (algebra_at side table.now.header).quiver m.now.dims w) matrices.now }
    requires entries { sequence_room (length table.now.words) 0 ≤ length entries.old }
    requires pivots { 512 ≤ length pivots.old }
    ensures { (t : IsTable table.now.header table.now.words) → MatchBool result
        (IsMiddle (sides_of table.now.header table.now.words t side) (of_terms cover.now syzygy.now) (module_in table.now.header table.now.words t side e.now)
        (module_in table.now.header table.now.words t side m.now) functional.now matrices.now)
        (¬ IsMiddle (sides_of table.now.header table.now.words t side) (of_terms cover.now syzygy.now) (module_in table.now.header table.now.words t side e.now)
        (module_in table.now.header table.now.words t side m.now) functional.now matrices.now) }
{
    if !are_reduced(matrices) {
        return false;
    }
    let (line, rest) = entries.split_at_mut(768);
    let (wide, rest) = rest.split_at_mut(768);
    let (row, rest) = rest.split_at_mut(512);
    let (next, rest) = rest.split_at_mut(512);
    let (spare, rest) = rest.split_at_mut(table.word_count() as usize);
    let (into, _) = rest.split_at_mut(393216);
    if !is_hom_around(
        table,
        side,
        e,
        m,
        &syzygy.vertices,
        matrices,
        wide,
        line,
        spare,
    ) {
        return false;
    }
    if !are_pulled_back(
        table,
        side,
        e,
        m,
        &cover.vertices,
        syzygy,
        functional,
        matrices,
        into,
        line,
        row,
        next,
        spare,
    ) {
        return false;
    }
    if !have_pulled_sizes(
        table,
        side,
        &e.dims,
        m,
        &cover.vertices,
        syzygy,
        functional,
        into,
        pivots,
        line,
        row,
        next,
        spare,
    ) {
        return false;
    }
    true
}
