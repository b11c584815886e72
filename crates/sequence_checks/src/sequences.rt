//! The first condition on an almost split sequence that fails.
ghost use Rattle.std.specs.Prelude.{ℕ, ⊤, ◌≡◌, ◌<◌, ◌≤◌, ◌+◌, length, MatchBool};
ghost use Rattle.linear_algebra.specs.BlockFamilies.{total};
ghost use Rattle.linear_algebra.specs.Rows.{IsRow};
ghost use Rattle.quiver_paths.specs.Quiver.{vertex_count};
ghost use Rattle.alg_table.specs.TableView.{IsTable};
ghost use Rattle.bound_algebra.specs.TypedPaths.{quiver_of};
ghost use Rattle.bound_tables.specs.TableSides.{table_sides};
ghost use Rattle.projectives.specs.CanonicalCover.{vertex_in};
ghost use Rattle.module_types.specs.declared.TermRows.{TermRows};
ghost use Rattle.module_types.specs.Algebras.{algebra_at, other_side};
ghost use Rattle.module_types.specs.Readings.{dim_at, read, read_beside};
ghost use Rattle.module_types.specs.Shapes.{IsModule, IsTerm, AreMatrices, IsMap};
ghost use Rattle.claim_conditions.specs.Conditions.{IsAnswer};
ghost use Rattle.claim_conditions.specs.LocalConditions.{families_of, ring_rows, ideal_rows};
ghost use Rattle.claim_conditions.specs.SequenceConditions.{sequence_conditions, conditions_behind_objects, IsEndFunctional};
ghost use Rattle.claim_conditions.specs.Terms.{vertices_at};
ghost use Rattle.term_rows.specs.SumDims.{AreTerms, sum_dim};
ghost use Rattle.translate_checks.specs.Across.{IsPresentation, sides_of, of_terms};
ghost use Rattle.translate_checks.specs.Room.{AreSmallAcross};
ghost use Rattle.sequence_checks.specs.Room.{sequence_room};

use crate::ends::{is_left, is_middle};
use crate::maps::are_maps;
use alg_table::Table;
use claim_conditions::Clause;
use fp_linear::Matrix;
use functional_checks::has_end_functional;
use module_checks::same_side;
use module_types::{Module, TermRows};
use seq::Seq;

/// Whether the functional is one on the endomorphisms of `a` that the ideal says. The slice is worked in.
fn is_functional(
    table: &Table,
    a: &Module,
    cover: &TermRows,
    basis: &Matrix,
    ideal: &Matrix,
    functional: &Seq<u8>,
    entries: &mut [u8],
) -> bool
    requires a { IsModule table.now.header.field (algebra_at a.now.side table.now.header).quiver a.now }
    requires cover { IsTerm table.now.header.field (algebra_at a.now.side table.now.header).quiver (read table.now.header a.now).dim cover.now }
    requires functional { IsRow table.now.header.field (total (length cover.now.vertices) (λ c. dim_at (algebra_at a.now.side table.now.header).quiver a.now.dims (vertex_in cover.now.vertices c))) functional.now }
    requires basis_field { basis.now.field ≡ table.now.header.field }
    requires ideal_field { ideal.now.field ≡ table.now.header.field }
    requires unknowns { basis.now.col_count ≡ (families_of table.now.header a.now).size }
    requires coordinates { ideal.now.col_count ≡ basis.now.row_count }
    requires entries { sequence_room (length table.now.words) basis.now.row_count ≤ length entries.old }
    ensures { (t : IsTable table.now.header table.now.words) (syzygy : TermRows) → MatchBool result
        (IsEndFunctional (sides_of table.now.header table.now.words t a.now.side) (of_terms cover.now syzygy) (read table.now.header a.now) functional.now
        (ring_rows table.now.header a.now basis.now) (ideal_rows table.now.header basis.now ideal.now))
        (¬ IsEndFunctional (sides_of table.now.header table.now.words t a.now.side) (of_terms cover.now syzygy) (read table.now.header a.now) functional.now
        (ring_rows table.now.header a.now basis.now) (ideal_rows table.now.header basis.now ideal.now)) }
{
    let (image, rest) = entries.split_at_mut(256);
    let (product, rest) = rest.split_at_mut(1);
    let (values, _) = rest.split_at_mut(basis.rows() as usize);
    has_end_functional(
        table.header(),
        a,
        cover,
        functional,
        basis,
        ideal,
        values,
        image,
        product,
    )
}

/// The first condition behind `objects` that fails.
fn first_failing_behind(
    table: &Table,
    n: &Module,
    e: &Module,
    a: &Module,
    f: &Seq<Matrix>,
    g: &Seq<Matrix>,
    cover: &TermRows,
    syzygy: &TermRows,
    basis: &Matrix,
    ideal: &Matrix,
    functional: &Seq<u8>,
    left: &Seq<Matrix>,
    middle: &Seq<Matrix>,
    entries: &mut [u8],
    pivots: &mut [u32],
) -> Option<Clause>
    requires table { IsTable table.now.header table.now.words }
    requires presentation { IsPresentation table.now.words table.now.header a.now.side cover.now.vertices syzygy.now }
    requires cover { IsTerm table.now.header.field (algebra_at a.now.side table.now.header).quiver (read table.now.header a.now).dim cover.now }
    requires few { length cover.now.vertices < 4294967296 }
    requires n { IsModule table.now.header.field (algebra_at a.now.side table.now.header).quiver n.now }
    requires e { IsModule table.now.header.field (algebra_at a.now.side table.now.header).quiver e.now }
    requires a { IsModule table.now.header.field (algebra_at a.now.side table.now.header).quiver a.now }
    requires f { IsMap table.now.header.field (algebra_at a.now.side table.now.header).quiver n.now e.now f.now }
    requires g { IsMap table.now.header.field (algebra_at a.now.side table.now.header).quiver e.now a.now g.now }
    requires basis_field { basis.now.field ≡ table.now.header.field }
    requires ideal_field { ideal.now.field ≡ table.now.header.field }
    requires unknowns { basis.now.col_count ≡ (families_of table.now.header a.now).size }
    requires coordinates { ideal.now.col_count ≡ basis.now.row_count }
    requires functional { IsRow table.now.header.field (total (length cover.now.vertices) (λ c. dim_at (algebra_at a.now.side table.now.header).quiver a.now.dims (vertex_in cover.now.vertices c))) functional.now }
    requires left { AreMatrices table.now.header.field (algebra_at a.now.side table.now.header).quiver.vertices
        (dim_at (algebra_at a.now.side table.now.header).quiver n.now.dims) (sum_dim table.now.words (other_side a.now.side) syzygy.now.vertices) left.now }
    requires middle { AreMatrices table.now.header.field (algebra_at a.now.side table.now.header).quiver.vertices (dim_at (algebra_at a.now.side table.now.header).quiver e.now.dims)
        (λ w. sum_dim table.now.words (other_side a.now.side) syzygy.now.vertices w + dim_at (algebra_at a.now.side table.now.header).quiver a.now.dims w) middle.now }
    requires entries { sequence_room (length table.now.words) basis.now.row_count ≤ length entries.old }
    requires pivots { 512 ≤ length pivots.old }
    ensures { (t : IsTable table.now.header table.now.words)
        → IsAnswer (conditions_behind_objects (sides_of table.now.header table.now.words t a.now.side) (of_terms cover.now syzygy.now) (read_beside table.now.header a.now n.now)
        (read_beside table.now.header a.now e.now) (read table.now.header a.now) f.now g.now (ring_rows table.now.header a.now basis.now) (ideal_rows table.now.header basis.now ideal.now)
        (record { functional = functional.now; left = left.now; middle = middle.now })) result }
{
    let generators = syzygy.vertices.len();
    if generators == 0 {
        return Some(Clause::Nonprojective);
    }
    if !is_functional(table, a, cover, basis, ideal, functional, entries) {
        return Some(Clause::Functional);
    }
    if !is_left(table, a.side, cover, syzygy, n, left, entries, pivots) {
        return Some(Clause::Left);
    }
    if !is_middle(
        table, a.side, e, a, cover, syzygy, functional, middle, entries, pivots,
    ) {
        return Some(Clause::Middle);
    }
    if !are_maps(table, a.side, n, e, a, &syzygy.vertices, f, g, left, middle) {
        return Some(Clause::Maps);
    }
    None
}

/// The first condition on an almost split sequence that fails, where the numbers say that the terms are those of a resolution of `a` of length 1, that the
/// basis and the ideal are those of a certificate that `a` is local, and that the maps go from `n` to `e` and from `e` to `a`. The slices are worked in.
pub fn first_failing_sequence(
    table: &Table,
    n: &Module,
    e: &Module,
    a: &Module,
    f: &Seq<Matrix>,
    g: &Seq<Matrix>,
    terms: &Seq<TermRows>,
    basis: &Matrix,
    ideal: &Matrix,
    functional: &Seq<u8>,
    left: &Seq<Matrix>,
    middle: &Seq<Matrix>,
    entries: &mut [u8],
    pivots: &mut [u32],
) -> Option<Clause>
    requires table { IsTable table.now.header table.now.words }
    requires n { IsModule table.now.header.field (algebra_at n.now.side table.now.header).quiver n.now }
    requires e { IsModule table.now.header.field (algebra_at e.now.side table.now.header).quiver e.now }
    requires a { IsModule table.now.header.field (algebra_at a.now.side table.now.header).quiver a.now }
    requires f { IsMap table.now.header.field (quiver_of table.now.header.quiver) n.now e.now f.now }
    requires g { IsMap table.now.header.field (quiver_of table.now.header.quiver) e.now a.now g.now }
    requires terms { AreTerms table.now.words table.now.header a.now terms.now 2 }
    requires small { AreSmallAcross table.now.words table.now.header a.now.side terms.now }
    requires few { length (vertices_at terms.now 0) < 4294967296 }
    requires basis_field { basis.now.field ≡ table.now.header.field }
    requires ideal_field { ideal.now.field ≡ table.now.header.field }
    requires unknowns { basis.now.col_count ≡ (families_of table.now.header a.now).size }
    requires coordinates { ideal.now.col_count ≡ basis.now.row_count }
    requires functional { IsRow table.now.header.field (total (length (vertices_at terms.now 0)) (λ c. dim_at (quiver_of table.now.header.quiver) a.now.dims (vertex_in (vertices_at terms.now 0) c))) functional.now }
    requires left { AreMatrices table.now.header.field (vertex_count table.now.header.quiver) (dim_at (quiver_of table.now.header.quiver) n.now.dims)
        (sum_dim table.now.words (other_side a.now.side) (vertices_at terms.now 1)) left.now }
    requires middle { AreMatrices table.now.header.field (vertex_count table.now.header.quiver) (dim_at (quiver_of table.now.header.quiver) e.now.dims)
        (λ w. sum_dim table.now.words (other_side a.now.side) (vertices_at terms.now 1) w + dim_at (quiver_of table.now.header.quiver) a.now.dims w) middle.now }
    requires entries { sequence_room (length table.now.words) basis.now.row_count ≤ length entries.old }
    requires pivots { 512 ≤ length pivots.old }
    ensures { (t : IsTable table.now.header table.now.words)
        → IsAnswer (sequence_conditions ⊤ table.now.header (table_sides table.now.header table.now.words t) n.now e.now a.now f.now g.now terms.now basis.now ideal.now
        (record { functional = functional.now; left = left.now; middle = middle.now })) result }
{
    if !same_side(n.side, a.side) {
        return Some(Clause::Objects);
    }
    if !same_side(e.side, a.side) {
        return Some(Clause::Objects);
    }
    let cover = &terms[0];
    let syzygy = &terms[1];
    let answer = first_failing_behind(
        table, n, e, a, f, g, cover, syzygy, basis, ideal, functional, left, middle, entries,
        pivots,
    );
    answer
}
