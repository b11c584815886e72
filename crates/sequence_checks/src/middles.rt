//! Products with the pullback that are zero, and its ranks.
ghost use Rattle.std.specs.Prelude.{ℕ, ◌≡◌, ◌<◌, ◌≤◌, ◌+◌, length, MatchBool};
ghost use Rattle.linear_algebra.specs.BlockFamilies.{total};
ghost use Rattle.linear_algebra.specs.Ranks.{rank};
ghost use Rattle.linear_algebra.specs.Rows.{IsRow};
ghost use Rattle.quiver_paths.specs.Quiver.{vertex_count};
ghost use Rattle.alg_table.specs.TableView.{IsTable};
ghost use Rattle.projectives.specs.CanonicalCover.{vertex_in};
ghost use Rattle.module_types.specs.Algebras.{algebra_at, other_side};
ghost use Rattle.module_types.specs.Readings.{dim_at};
ghost use Rattle.module_types.specs.Shapes.{IsModule, AreMatrices};
ghost use Rattle.term_rows.specs.SumDims.{sum_dim};
ghost use Rattle.translate_checks.specs.Across.{IsPresentation};
ghost use Rattle.sequence_checks.specs.Pullbacks.{pulled_back, ArePulledBack};

use crate::pullbacks::write_pullback;
use alg_table::Table;
use fp_linear::{Matrix, echelon_rows};
use module_types::{Module, Side, TermRows};
use seq::Seq;
use term_rows::sum_dimension;
use translate_checks::vanish_on_rows;

/// Whether at each vertex the matrices of a module of the side into the injective modules of term 1 and the module `m`, and then the pullback, are zero.
/// `into` has 393,216 places, `line` 768, `row` and `next` 512, `spare` one for each word; they are written over.
pub fn are_pulled_back(
    table: &Table,
    side: Side,
    e: &Module,
    m: &Module,
    cover: &Seq<u8>,
    syzygy: &TermRows,
    functional: &Seq<u8>,
    matrices: &Seq<Matrix>,
    into: &mut [u8],
    line: &mut [u8],
    row: &mut [u8],
    next: &mut [u8],
    spare: &mut [u8],
) -> bool
    requires table { IsTable table.now.header table.now.words }
    requires presentation { IsPresentation table.now.words table.now.header side cover.now syzygy.now }
    requires e { IsModule table.now.header.field (algebra_at side table.now.header).quiver e.now }
    requires m { IsModule table.now.header.field (algebra_at side table.now.header).quiver m.now }
    requires few { length cover.now < 4294967296 }
    requires functional { IsRow table.now.header.field (total (length cover.now) (λ c. dim_at (algebra_at side table.now.header).quiver m.now.dims (vertex_in cover.now c))) functional.now }
    requires matrices { AreMatrices table.now.header.field (algebra_at side table.now.header).quiver.vertices (dim_at (algebra_at side table.now.header).quiver e.now.dims)
        (λ w. sum_dim table.now.words (other_side side) syzygy.now.vertices w + dim_at (algebra_at side table.now.header).quiver m.now.dims w) matrices.now }
    requires into { length into.old ≡ 393216 }
    requires line { length line.old ≡ 768 }
    requires row { length row.old ≡ 512 }
    requires next { length next.old ≡ 512 }
    requires spare { length spare.old ≡ length table.now.words }
    ensures { (t : IsTable table.now.header table.now.words) → MatchBool result
        (ArePulledBack table.now.header table.now.words t side m.now cover.now functional.now syzygy.now e.now matrices.now (length e.now.dims))
        (¬ ArePulledBack table.now.header table.now.words t side m.now cover.now functional.now syzygy.now e.now matrices.now (length e.now.dims)) }
{
    let field = table.header().field;
    for w in 0..e.dims.len() {
        write_pullback(
            table, side, m, cover, syzygy, functional, w as u8, into, line, row, next, spare,
        );
        let count = sum_dimension(table, side.other(), cover, w as u8);
        if !vanish_on_rows(field, &matrices[w], into, count) {
            return false;
        }
    }
    true
}

/// The rank of the pullback at the vertex `w`. `into` has 393,216 places, `line` 768, `pivots`, `row` and `next` 512, `spare` one for each word; they are
/// written over.
pub fn pullback_rank(
    table: &Table,
    side: Side,
    m: &Module,
    cover: &Seq<u8>,
    syzygy: &TermRows,
    functional: &Seq<u8>,
    w: u8,
    into: &mut [u8],
    pivots: &mut [u32],
    line: &mut [u8],
    row: &mut [u8],
    next: &mut [u8],
    spare: &mut [u8],
) -> u32
    requires table { IsTable table.now.header table.now.words }
    requires presentation { IsPresentation table.now.words table.now.header side cover.now syzygy.now }
    requires m { IsModule table.now.header.field (algebra_at side table.now.header).quiver m.now }
    requires few { length cover.now < 4294967296 }
    requires functional { IsRow table.now.header.field (total (length cover.now) (λ c. dim_at (algebra_at side table.now.header).quiver m.now.dims (vertex_in cover.now c))) functional.now }
    requires vertex { w < vertex_count table.now.header.quiver }
    requires into { length into.old ≡ 393216 }
    requires pivots { 512 ≤ length pivots.old }
    requires line { length line.old ≡ 768 }
    requires row { length row.old ≡ 512 }
    requires next { length next.old ≡ 512 }
    requires spare { length spare.old ≡ length table.now.words }
    ensures { (t : IsTable table.now.header table.now.words) → result ≡ rank (pulled_back table.now.header table.now.words t side m.now cover.now functional.now syzygy.now w) }
{
    let field = table.header().field;
    write_pullback(
        table, side, m, cover, syzygy, functional, w, into, line, row, next, spare,
    );
    let rows = sum_dimension(table, side.other(), cover, w);
    let first = sum_dimension(table, side.other(), &syzygy.vertices, w);
    let columns = first + m.dims[w as usize] as usize;
    let entries = &mut into[..rows * columns];
    echelon_rows(field, rows as u32, columns as u32, entries, pivots)
}
