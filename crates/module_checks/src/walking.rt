//! Rows in lent memory that go along the arrows of paths.
ghost use Rattle.std.specs.Prelude.{ℕ, ◌≡◌, ◌<◌, ◌≤◌, length, slice_index};
ghost use Rattle.linear_algebra.specs.Field.{order};
ghost use Rattle.fp_linear.specs.Slices.{AreElements};
ghost use Rattle.quiver_paths.specs.Quiver.{arrow_count};
ghost use Rattle.module_types.specs.Algebras.{algebra_at};
ghost use Rattle.module_types.specs.Readings.{read};
ghost use Rattle.module_types.specs.Shapes.{IsModule, dimension};
ghost use Rattle.module_checks.specs.RowWalks.{row_entry, IsRowTimes, arrow_in_turn, along_all, IsArrowsMoved};

use crate::clearing::clear;
use fp_linear::{Field, Matrix};
use module_types::{Module, Side};
use path_algebra::Header;
use seq::Seq;

/// One entry of the product of the row and the matrix.
fn entry_times(field: Field, matrix: &Matrix, j: u32, row: &[u8]) -> u8
    requires field { matrix.now.field ≡ field }
    requires column { j < matrix.now.col_count }
    requires elements { AreElements field row.now }
    requires room { matrix.now.row_count ≤ length row.now }
    ensures product { result ≡ row_entry field matrix.now.row_count row.now matrix.now j }
    ensures small { result < order field }
{
    let mut sum = 0;
    for t in 0..matrix.rows() {
        sum = field.add(sum, field.mul(row[t as usize], matrix.row(t)[j as usize]));
    }
    sum
}

/// Writes the product of the row and the matrix, and zeros behind it.
pub(crate) fn row_times(field: Field, matrix: &Matrix, row: &[u8], next: &mut [u8])
    requires field { matrix.now.field ≡ field }
    requires elements { AreElements field row.now }
    requires room { matrix.now.row_count ≤ length row.now }
    requires next_room { matrix.now.col_count ≤ length next.old }
    ensures times { IsRowTimes field matrix.now row.now next.new }
    ensures elements { AreElements field next.new }
{
    clear(next);
    for j in 0..matrix.cols() {
        next[j as usize] = entry_times(field, matrix, j, row);
    }
}

/// Arrow `k` of a path, in the order in which the side takes them.
fn arrow_at(side: Side, arrows: &Seq<u8>, k: usize) -> u8
    requires { k < length arrows.now }
    ensures { result ≡ arrow_in_turn side arrows.now k }
{
    match side {
        Side::Right => arrows[k],
        Side::Left => arrows[arrows.len() - (k + 1)],
    }
}

/// The row goes along the arrows of a path, as the module's side takes them; `next` is as long, and is written over.
pub(crate) fn walk_row(
    header: &Header,
    m: &Module,
    arrows: &Seq<u8>,
    row: &mut [u8],
    next: &mut [u8],
)
    requires m { IsModule header.now.field (algebra_at m.now.side header.now).quiver m.now }
    requires arrows { (k : ℕ) → k < length arrows.now → slice_index arrows.now k < arrow_count header.now.quiver }
    requires elements { AreElements header.now.field row.old }
    requires next_elements { AreElements header.now.field next.old }
    requires room { dimension m.now.dims ≤ length row.old }
    requires lengths { length next.old ≡ length row.old }
    ensures walked { IsArrowsMoved (read header.now m.now) m.now.side arrows.now row.old row.new }
    ensures elements { AreElements header.now.field row.new }
    ensures next_elements { AreElements header.now.field next.new }
{
    for k in 0..arrows.len() {
        let matrix = &m.matrices[arrow_at(m.side, arrows, k) as usize];
        row_times(header.field, matrix, row, next);
        row.copy_from_slice(next);
    }
}
