//! The dimensions of the middle of a sequence.
ghost use Rattle.std.specs.Prelude.{ℕ, ◌≡◌, ◌<◌, ◌≤◌, length, MatchBool};
ghost use Rattle.linear_algebra.specs.BlockFamilies.{total};
ghost use Rattle.linear_algebra.specs.Rows.{IsRow};
ghost use Rattle.quiver_paths.specs.Quiver.{vertex_count};
ghost use Rattle.alg_table.specs.TableView.{IsTable};
ghost use Rattle.projectives.specs.CanonicalCover.{vertex_in};
ghost use Rattle.module_types.specs.Algebras.{algebra_at};
ghost use Rattle.module_types.specs.Readings.{dim_at};
ghost use Rattle.module_types.specs.Shapes.{IsModule};
ghost use Rattle.translate_checks.specs.Across.{IsPresentation};
ghost use Rattle.sequence_checks.specs.Sizes.{HavePulledSizes};

use crate::middles::pullback_rank;
use alg_table::Table;
use module_types::{Module, Side, TermRows};
use seq::Seq;
use term_rows::sum_dimension;

/// Whether at each vertex the dimension is that of the injective modules of term 1 and of the module `m`, less the rank of the pullback. `into` has
/// 393,216 places, `line` 768, `pivots`, `row` and `next` 512, `spare` one for each word; they are written over.
pub fn have_pulled_sizes(
    table: &Table,
    side: Side,
    dims: &Seq<u32>,
    m: &Module,
    cover: &Seq<u8>,
    syzygy: &TermRows,
    functional: &Seq<u8>,
    into: &mut [u8],
    pivots: &mut [u32],
    line: &mut [u8],
    row: &mut [u8],
    next: &mut [u8],
    spare: &mut [u8],
) -> bool
    requires table { IsTable table.now.header table.now.words }
    requires presentation { IsPresentation table.now.words table.now.header side cover.now syzygy.now }
    requires dims { length dims.now ≡ vertex_count table.now.header.quiver }
    requires m { IsModule table.now.header.field (algebra_at side table.now.header).quiver m.now }
    requires few { length cover.now < 4294967296 }
    requires functional { IsRow table.now.header.field (total (length cover.now) (λ c. dim_at (algebra_at side table.now.header).quiver m.now.dims (vertex_in cover.now c))) functional.now }
    requires into { length into.old ≡ 393216 }
    requires pivots { 512 ≤ length pivots.old }
    requires line { length line.old ≡ 768 }
    requires row { length row.old ≡ 512 }
    requires next { length next.old ≡ 512 }
    requires spare { length spare.old ≡ length table.now.words }
    ensures { (t : IsTable table.now.header table.now.words) → MatchBool result
        (HavePulledSizes table.now.header table.now.words t side m.now cover.now functional.now syzygy.now dims.now (length dims.now))
        (¬ HavePulledSizes table.now.header table.now.words t side m.now cover.now functional.now syzygy.now dims.now (length dims.now)) }
{
    for w in 0..dims.len() {
        let rank = pullback_rank(
            table, side, m, cover, syzygy, functional, w as u8, into, pivots, line, row, next,
            spare,
        );
        let first = sum_dimension(table, side.other(), &syzygy.vertices, w as u8);
        let whole = first as u64 + m.dims[w] as u64;
        if dims[w] as u64 + rank as u64 != whole {
            return false;
        }
    }
    true
}
