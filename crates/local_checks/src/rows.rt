//! Rows in lent memory: those of a matrix, those that rows of coordinates stand for, and the space that rows span.
ghost use Rattle.std.specs.Prelude.{ℕ, ◌≡◌, ◌<◌, ◌≤◌, ◌+◌, ◌*◌, length};
ghost use Rattle.linear_algebra.specs.Matrix.{◌·◌};
ghost use Rattle.linear_algebra.specs.Rows.{rows_of};
ghost use Rattle.linear_algebra.specs.Typed.{as_mat};
ghost use Rattle.fp_linear.specs.Slices.{AreElements};
ghost use Rattle.local_checks.specs.Standing.{standing};
ghost use Rattle.local_checks.specs.Rows.{IsSpaceOf};

use fp_linear::{Field, Matrix, echelon_rows, multiply_row};

/// Writes the rows of the matrix one behind the other.
pub fn write_rows(matrix: &Matrix, rows: &mut [u8])
    requires count { length rows.old ≡ matrix.now.row_count * matrix.now.col_count }
    requires elements { AreElements matrix.now.field rows.old }
    ensures elements { AreElements matrix.now.field rows.new }
    ensures rows { rows_of matrix.now.row_count matrix.now.col_count rows.new ≡ matrix.now.rows }
{
    let cols = matrix.cols() as usize;
    for i in 0..matrix.rows() {
        let start = i as usize * cols;
        let end = start + cols;
        rows[start..end].copy_from_slice(matrix.row(i));
    }
}

/// Writes the rows, of `cols` numbers each, for which the rows of `coordinates` stand over the rows that stand in `basis`.
pub fn write_combinations(coordinates: &Matrix, cols: usize, basis: &[u8], rows: &mut [u8])
    requires basis_elements { AreElements coordinates.now.field basis.now }
    requires basis_count { length basis.now ≡ coordinates.now.col_count * cols }
    requires count { length rows.old ≡ coordinates.now.row_count * cols }
    requires elements { AreElements coordinates.now.field rows.old }
    ensures elements { AreElements coordinates.now.field rows.new }
    ensures rows { standing coordinates.now.field coordinates.now.row_count cols rows.new
        ≡ as_mat coordinates.now.field coordinates.now.row_count coordinates.now.col_count coordinates.now.rows · standing coordinates.now.field coordinates.now.col_count cols basis.now }
{
    let field = coordinates.field();
    for i in 0..coordinates.rows() {
        let start = i as usize * cols;
        let end = start + cols;
        multiply_row(field, coordinates.row(i), basis, &mut rows[start..end]);
    }
}

/// Brings `rows` rows into reduced row form and answers their rank: so many rows and pivots are then the space that they spanned.
pub fn reduce_rows(
    field: Field,
    rows: u32,
    cols: u32,
    entries: &mut [u8],
    pivots: &mut [u32],
) -> u32
    requires count { length entries.old ≡ rows * cols }
    requires elements { AreElements field entries.old }
    requires room { rows ≤ length pivots.old }
    ensures elements { AreElements field entries.new }
    ensures space { IsSpaceOf (standing field rows cols entries.old) entries.new pivots.new result }
{
    echelon_rows(field, rows, cols, entries, pivots)
}
