//! The first condition on a translate, a transpose or an inverse translate that fails.
ghost use Rattle.std.specs.Prelude.{ℕ, ⊤, ◌≡◌, ◌<◌, ◌≤◌, length};
ghost use Rattle.quiver_paths.specs.Quiver.{vertex_count};
ghost use Rattle.alg_table.specs.TableView.{IsTable};
ghost use Rattle.bound_algebra.specs.TypedPaths.{quiver_of};
ghost use Rattle.bound_tables.specs.TableSides.{table_sides};
ghost use Rattle.module_types.specs.Algebras.{algebra_at, other_side};
ghost use Rattle.module_types.specs.Readings.{dim_at};
ghost use Rattle.module_types.specs.Shapes.{IsModule, AreMatrices};
ghost use Rattle.claim_conditions.specs.Conditions.{IsAnswer};
ghost use Rattle.claim_conditions.specs.Terms.{vertices_at};
ghost use Rattle.claim_conditions.specs.TranslateConditions.{tau_conditions, transpose_conditions, taui_conditions};
ghost use Rattle.term_rows.specs.SumDims.{AreTerms, sum_dim};
ghost use Rattle.translate_checks.specs.Room.{translate_room, AreSmallAcross};

use crate::duals::is_dual;
use crate::embeddings::{first_failing_embedding, first_failing_projection};
use alg_table::Table;
use claim_conditions::Clause;
use fp_linear::Matrix;
use module_checks::same_side;
use module_types::{Module, TermRows};
use seq::Seq;

/// The first condition on a translate that fails, where the numbers say that the terms are those of a resolution of `a` of length 1. The slices are worked
/// in.
pub fn first_failing_tau(
    table: &Table,
    n: &Module,
    a: &Module,
    terms: &Seq<TermRows>,
    rows: &Seq<Matrix>,
    entries: &mut [u8],
    pivots: &mut [u32],
) -> Option<Clause>
    requires table { IsTable table.now.header table.now.words }
    requires n { IsModule table.now.header.field (algebra_at n.now.side table.now.header).quiver n.now }
    requires terms { AreTerms table.now.words table.now.header a.now terms.now 2 }
    requires small { AreSmallAcross table.now.words table.now.header a.now.side terms.now }
    requires rows { AreMatrices table.now.header.field (vertex_count table.now.header.quiver) (dim_at (quiver_of table.now.header.quiver) n.now.dims)
        (sum_dim table.now.words (other_side a.now.side) (vertices_at terms.now 1)) rows.now }
    requires entries { translate_room (length table.now.words) ≤ length entries.old }
    requires pivots { 512 ≤ length pivots.old }
    ensures { (t : IsTable table.now.header table.now.words)
        → IsAnswer (tau_conditions ⊤ table.now.header (table_sides table.now.header table.now.words t) n.now a.now terms.now rows.now) result }
{
    if !same_side(n.side, a.side) {
        return Some(Clause::Objects);
    }
    let cover = &terms[0];
    let syzygy = &terms[1];
    let answer = first_failing_embedding(table, a.side, cover, syzygy, n, rows, entries, pivots);
    answer
}

/// The first condition on a transpose that fails, where the numbers say that the terms are those of a resolution of `a` of length 1. The slices are worked
/// in.
pub fn first_failing_transpose(
    table: &Table,
    n: &Module,
    a: &Module,
    terms: &Seq<TermRows>,
    rows: &Seq<Matrix>,
    entries: &mut [u8],
    pivots: &mut [u32],
) -> Option<Clause>
    requires table { IsTable table.now.header table.now.words }
    requires n { IsModule table.now.header.field (algebra_at n.now.side table.now.header).quiver n.now }
    requires terms { AreTerms table.now.words table.now.header a.now terms.now 2 }
    requires small { AreSmallAcross table.now.words table.now.header a.now.side terms.now }
    requires rows { AreMatrices table.now.header.field (vertex_count table.now.header.quiver) (sum_dim table.now.words (other_side a.now.side) (vertices_at terms.now 1))
        (dim_at (quiver_of table.now.header.quiver) n.now.dims) rows.now }
    requires entries { translate_room (length table.now.words) ≤ length entries.old }
    requires pivots { 512 ≤ length pivots.old }
    ensures { (t : IsTable table.now.header table.now.words)
        → IsAnswer (transpose_conditions ⊤ table.now.header (table_sides table.now.header table.now.words t) n.now a.now terms.now rows.now) result }
{
    if !same_side(n.side, a.side.other()) {
        return Some(Clause::Objects);
    }
    let cover = &terms[0];
    let syzygy = &terms[1];
    let answer = first_failing_projection(table, a.side, cover, syzygy, n, rows, entries, pivots);
    answer
}

/// The first condition on an inverse translate that fails, where the numbers say that the terms are those of a resolution of `b` of length 1. The slices
/// are worked in.
pub fn first_failing_taui(
    table: &Table,
    n: &Module,
    a: &Module,
    b: &Module,
    terms: &Seq<TermRows>,
    rows: &Seq<Matrix>,
    entries: &mut [u8],
    pivots: &mut [u32],
) -> Option<Clause>
    requires table { IsTable table.now.header table.now.words }
    requires n { IsModule table.now.header.field (algebra_at n.now.side table.now.header).quiver n.now }
    requires a { IsModule table.now.header.field (algebra_at a.now.side table.now.header).quiver a.now }
    requires b { IsModule table.now.header.field (algebra_at b.now.side table.now.header).quiver b.now }
    requires terms { AreTerms table.now.words table.now.header b.now terms.now 2 }
    requires small { AreSmallAcross table.now.words table.now.header b.now.side terms.now }
    requires rows { AreMatrices table.now.header.field (vertex_count table.now.header.quiver) (sum_dim table.now.words (other_side b.now.side) (vertices_at terms.now 1))
        (dim_at (quiver_of table.now.header.quiver) n.now.dims) rows.now }
    requires entries { translate_room (length table.now.words) ≤ length entries.old }
    requires pivots { 512 ≤ length pivots.old }
    ensures { (t : IsTable table.now.header table.now.words)
        → IsAnswer (taui_conditions ⊤ table.now.header (table_sides table.now.header table.now.words t) n.now a.now b.now terms.now rows.now) result }
{
    if !is_dual(table.header(), a, b) {
        return Some(Clause::Objects);
    }
    if !same_side(n.side, a.side) {
        return Some(Clause::Objects);
    }
    let cover = &terms[0];
    let syzygy = &terms[1];
    let answer = first_failing_projection(table, b.side, cover, syzygy, n, rows, entries, pivots);
    answer
}
