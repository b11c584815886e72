//! Rows of a module in lent memory that go along the arrows of a word.
ghost use Rattle.std.specs.Prelude.{ℕ, ◌≡◌, ◌<◌, length, slice_index};
ghost use Rattle.fp_linear.specs.Slices.{AreElements};
ghost use Rattle.quiver_paths.specs.Quiver.{arrow_count};
ghost use Rattle.bound_algebra.specs.TypedPaths.{quiver_of};
ghost use Rattle.module_types.specs.Algebras.{algebra_at};
ghost use Rattle.module_types.specs.Readings.{read, dim_at};
ghost use Rattle.module_types.specs.Shapes.{IsModule};
ghost use Rattle.module_checks.specs.RowWalks.{arrow_in_turn, IsArrowsMoved};
ghost use Rattle.term_rows.specs.SumDims.{IsRoomFor};

use module_types::{Module, Side};
use path_algebra::Header;
use seq::Seq;
use term_rows::step_in_module;

/// Arrow `n` of a path, in the order in which the side takes them.
fn arrow_at(side: Side, arrows: &Seq<u8>, n: usize) -> u8
    requires { n < length arrows.now }
    ensures { result ≡ arrow_in_turn side arrows.now n }
{
    match side {
        Side::Right => arrows[n],
        Side::Left => arrows[arrows.len() - (n + 1)],
    }
}

/// The row goes along the arrows of a path, as the module's side takes them. `next` is as long, and is written over.
pub(crate) fn walk_in_module(
    header: &Header,
    m: &Module,
    arrows: &Seq<u8>,
    row: &mut [u8],
    next: &mut [u8],
)
    requires m { IsModule header.now.field (algebra_at m.now.side header.now).quiver m.now }
    requires arrows { (n : ℕ) → n < length arrows.now → slice_index arrows.now n < arrow_count header.now.quiver }
    requires room { IsRoomFor header.now (dim_at (quiver_of header.now.quiver) m.now.dims) (length row.old) }
    requires lengths { length next.old ≡ length row.old }
    requires elements { AreElements header.now.field row.old }
    ensures walked { IsArrowsMoved (read header.now m.now) m.now.side arrows.now row.old row.new }
    ensures elements { AreElements header.now.field row.new }
{
    for n in 0..arrows.len() {
        let arrow = arrow_at(m.side, arrows, n);
        step_in_module(header, m, arrow, row, next);
        row.copy_from_slice(next);
    }
}
