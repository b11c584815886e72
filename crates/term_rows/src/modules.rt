//! Rows of a module in lent memory that go along an arrow.
ghost use Rattle.std.specs.Prelude.{ℕ, ◌≡◌, ◌<◌, ◌≤◌, length, slice_index};
ghost use Rattle.linear_algebra.specs.Field.{order};
ghost use Rattle.fp_linear.specs.Slices.{AreElements};
ghost use Rattle.quiver_paths.specs.Quiver.{arrow_count};
ghost use Rattle.module_types.specs.Algebras.{algebra_at};
ghost use Rattle.module_types.specs.Readings.{read, dim_at};
ghost use Rattle.module_types.specs.Shapes.{IsModule};
ghost use Rattle.bound_algebra.specs.TypedPaths.{quiver_of};
ghost use Rattle.module_checks.specs.RowWalks.{row_entry, IsRowTimes};
ghost use Rattle.term_rows.specs.SumDims.{IsRoomFor};
ghost use Rattle.term_rows.specs.RowSteps.{IsStep};

use crate::clearing::clear;
use fp_linear::{Field, Matrix};
use module_types::Module;
use path_algebra::Header;

/// One entry of the product of the row and the matrix.
fn entry_times(field: Field, matrix: &Matrix, j: u32, row: &[u8]) -> u8
    requires field { matrix.now.field ≡ field }
    requires column { j < matrix.now.col_count }
    requires elements { AreElements field row.now }
    requires room { matrix.now.row_count ≤ length row.now }
    ensures product { result ≡ row_entry field matrix.now.row_count row.now matrix.now j }
    ensures small { result < order field }
{
    let mut sum = 0;
    for t in 0..matrix.rows() {
        sum = field.add(sum, field.mul(row[t as usize], matrix.row(t)[j as usize]));
    }
    sum
}

/// Writes the product of the row and the matrix, and zeros behind it.
fn row_times(field: Field, matrix: &Matrix, row: &[u8], next: &mut [u8])
    requires field { matrix.now.field ≡ field }
    requires elements { AreElements field row.now }
    requires room { matrix.now.row_count ≤ length row.now }
    requires next_room { matrix.now.col_count ≤ length next.old }
    ensures times { IsRowTimes field matrix.now row.now next.new }
    ensures elements { AreElements field next.new }
{
    clear(next);
    for j in 0..matrix.cols() {
        next[j as usize] = entry_times(field, matrix, j, row);
    }
}

/// Writes what the arrow makes of a row of the module, and zeros behind it.
pub fn step_in_module(header: &Header, m: &Module, arrow: u8, row: &[u8], next: &mut [u8])
    requires m { IsModule header.now.field (algebra_at m.now.side header.now).quiver m.now }
    requires arrow { arrow < arrow_count header.now.quiver }
    requires row_room { IsRoomFor header.now (dim_at (quiver_of header.now.quiver) m.now.dims) (length row.now) }
    requires room { IsRoomFor header.now (dim_at (quiver_of header.now.quiver) m.now.dims) (length next.old) }
    requires row_elements { AreElements header.now.field row.now }
    ensures step { IsStep (read header.now m.now) arrow row.now next.new }
    ensures elements { AreElements header.now.field next.new }
{
    row_times(header.field, &m.matrices[arrow as usize], row, next);
}
