//! Products with transposed maps that are zero, and their ranks.
ghost use Rattle.std.specs.Prelude.{ℕ, ◌≡◌, ◌<◌, ◌≤◌, length, MatchBool};
ghost use Rattle.linear_algebra.specs.Ranks.{rank};
ghost use Rattle.quiver_paths.specs.Quiver.{vertex_count};
ghost use Rattle.alg_table.specs.TableView.{IsTable};
ghost use Rattle.representations.specs.Quiver.{opposite};
ghost use Rattle.module_types.specs.Algebras.{algebra_at, other_side};
ghost use Rattle.module_types.specs.Readings.{dim_at};
ghost use Rattle.module_types.specs.Shapes.{IsModule, AreMatrices};
ghost use Rattle.term_rows.specs.SumDims.{sum_dim};
ghost use Rattle.translate_checks.specs.Across.{IsPresentation, transposed_in};
ghost use Rattle.translate_checks.specs.Steps.{AreKilled, Kill, HaveSizes};

use crate::dots::{rows_vanish_on, vanish_on_rows};
use crate::transposed::write_transposed;
use alg_table::Table;
use fp_linear::{Matrix, echelon_rows};
use module_types::{Module, Side, TermRows};
use seq::Seq;
use term_rows::sum_dimension;

/// Whether at each vertex the matrices of a module of the side into the injective modules of term 1, and then the image of the differential under the
/// Nakayama functor, are zero. `into` has 262,144 places, `row` and `next` 512, `spare` one for each word; they are written over.
pub fn are_killed(
    table: &Table,
    side: Side,
    cover: &Seq<u8>,
    syzygy: &TermRows,
    m: &Module,
    matrices: &Seq<Matrix>,
    into: &mut [u8],
    row: &mut [u8],
    next: &mut [u8],
    spare: &mut [u8],
) -> bool
    requires table { IsTable table.now.header table.now.words }
    requires presentation { IsPresentation table.now.words table.now.header side cover.now syzygy.now }
    requires m { IsModule table.now.header.field (algebra_at side table.now.header).quiver m.now }
    requires matrices { AreMatrices table.now.header.field (algebra_at side table.now.header).quiver.vertices
        (dim_at (algebra_at side table.now.header).quiver m.now.dims) (sum_dim table.now.words (other_side side) syzygy.now.vertices) matrices.now }
    requires into { length into.old ≡ 262144 }
    requires row { length row.old ≡ 512 }
    requires next { length next.old ≡ 512 }
    requires spare { length spare.old ≡ length table.now.words }
    ensures { (t : IsTable table.now.header table.now.words) → MatchBool result
        (AreKilled table.now.header table.now.words t side cover.now syzygy.now m.now matrices.now (length m.now.dims))
        (¬ AreKilled table.now.header table.now.words t side cover.now syzygy.now m.now matrices.now (length m.now.dims)) }
{
    let field = table.header().field;
    for w in 0..m.dims.len() {
        write_transposed(table, side, cover, syzygy, w as u8, into, row, next, spare);
        let count = sum_dimension(table, side.other(), cover, w as u8);
        if !vanish_on_rows(field, &matrices[w], into, count) {
            return false;
        }
    }
    true
}

/// Whether at each vertex the transposed differential, and then the matrices from the transposed term 1 to a module of the other side, are zero. `into` has
/// 262,144 places, `row` and `next` 512, `spare` one for each word; they are written over.
pub fn kill(
    table: &Table,
    side: Side,
    cover: &Seq<u8>,
    syzygy: &TermRows,
    m: &Module,
    matrices: &Seq<Matrix>,
    into: &mut [u8],
    row: &mut [u8],
    next: &mut [u8],
    spare: &mut [u8],
) -> bool
    requires table { IsTable table.now.header table.now.words }
    requires presentation { IsPresentation table.now.words table.now.header side cover.now syzygy.now }
    requires m { IsModule table.now.header.field (opposite (algebra_at side table.now.header).quiver) m.now }
    requires matrices { AreMatrices table.now.header.field (algebra_at side table.now.header).quiver.vertices
        (sum_dim table.now.words (other_side side) syzygy.now.vertices) (dim_at (opposite (algebra_at side table.now.header).quiver) m.now.dims) matrices.now }
    requires into { length into.old ≡ 262144 }
    requires row { length row.old ≡ 512 }
    requires next { length next.old ≡ 512 }
    requires spare { length spare.old ≡ length table.now.words }
    ensures { (t : IsTable table.now.header table.now.words) → MatchBool result
        (Kill table.now.header table.now.words t side cover.now syzygy.now m.now matrices.now (length m.now.dims))
        (¬ Kill table.now.header table.now.words t side cover.now syzygy.now m.now matrices.now (length m.now.dims)) }
{
    let field = table.header().field;
    for w in 0..m.dims.len() {
        write_transposed(table, side, cover, syzygy, w as u8, into, row, next, spare);
        let count = sum_dimension(table, side.other(), cover, w as u8);
        if !rows_vanish_on(field, into, count, &matrices[w]) {
            return false;
        }
    }
    true
}

/// The rank of the matrix at the vertex `w` of the transposed map, which is that of the image of the map under the Nakayama functor. `into` has 262,144
/// places, `pivots`, `row` and `next` 512, `spare` one for each word; they are written over.
pub fn transposed_rank(
    table: &Table,
    side: Side,
    cover: &Seq<u8>,
    syzygy: &TermRows,
    w: u8,
    into: &mut [u8],
    pivots: &mut [u32],
    row: &mut [u8],
    next: &mut [u8],
    spare: &mut [u8],
) -> u32
    requires table { IsTable table.now.header table.now.words }
    requires presentation { IsPresentation table.now.words table.now.header side cover.now syzygy.now }
    requires vertex { w < vertex_count table.now.header.quiver }
    requires into { length into.old ≡ 262144 }
    requires pivots { 512 ≤ length pivots.old }
    requires row { length row.old ≡ 512 }
    requires next { length next.old ≡ 512 }
    requires spare { length spare.old ≡ length table.now.words }
    ensures { (t : IsTable table.now.header table.now.words) → result ≡ rank (transposed_in table.now.header table.now.words t side cover.now syzygy.now w) }
{
    let field = table.header().field;
    write_transposed(table, side, cover, syzygy, w, into, row, next, spare);
    let rows = sum_dimension(table, side.other(), cover, w);
    let columns = sum_dimension(table, side.other(), &syzygy.vertices, w);
    let entries = &mut into[..rows * columns];
    echelon_rows(field, rows as u32, columns as u32, entries, pivots)
}

/// Whether at each vertex the dimension is that of the transposed term 1 less the rank of the transposed map.
pub fn have_sizes(
    table: &Table,
    side: Side,
    cover: &Seq<u8>,
    syzygy: &TermRows,
    dims: &Seq<u32>,
    into: &mut [u8],
    pivots: &mut [u32],
    row: &mut [u8],
    next: &mut [u8],
    spare: &mut [u8],
) -> bool
    requires table { IsTable table.now.header table.now.words }
    requires presentation { IsPresentation table.now.words table.now.header side cover.now syzygy.now }
    requires dims { length dims.now ≡ vertex_count table.now.header.quiver }
    requires into { length into.old ≡ 262144 }
    requires pivots { 512 ≤ length pivots.old }
    requires row { length row.old ≡ 512 }
    requires next { length next.old ≡ 512 }
    requires spare { length spare.old ≡ length table.now.words }
    ensures { (t : IsTable table.now.header table.now.words) → MatchBool result
        (HaveSizes table.now.header table.now.words t side cover.now syzygy.now dims.now (length dims.now))
        (¬ HaveSizes table.now.header table.now.words t side cover.now syzygy.now dims.now (length dims.now)) }
{
    for w in 0..dims.len() {
        let rank = transposed_rank(
            table, side, cover, syzygy, w as u8, into, pivots, row, next, spare,
        );
        let whole = sum_dimension(table, side.other(), &syzygy.vertices, w as u8);
        if dims[w] as u64 + rank as u64 != whole as u64 {
            return false;
        }
    }
    true
}
