//! Whether the rows of a matrix meet rows in lent memory.
ghost use Rattle.std.specs.Prelude.{ℕ, ◌≡◌, ◌<◌, ◌≤◌, ◌+◌, ◌*◌, length, slice_index, MatchBool};
ghost use Rattle.linear_algebra.specs.Field.{order};
ghost use Rattle.linear_algebra.specs.Rows.{entry};
ghost use Rattle.fp_linear.specs.Slices.{AreElements};
ghost use Rattle.fp_linear.specs.Meeting.{dot, Meets};
ghost use Rattle.module_checks.specs.Meeting.{AllMeet};

use fp_linear::{Field, Matrix};

/// The numbers from `start` on, each times the number of the row at its place, summed.
fn dot_of(field: Field, count: usize, start: usize, row: &[u8], entries: &[u8]) -> u8
    requires row_elements { AreElements field row.now }
    requires elements { AreElements field entries.now }
    requires row_inside { count ≤ length row.now }
    requires inside { start + count ≤ length entries.now }
    ensures { result ≡ dot field count entries.now start (slice_index row.now) }
{
    let mut sum = 0;
    for t in 0..count {
        sum = field.add(sum, field.mul(entries[start + t], row[t]));
    }
    sum
}

/// Whether the row meets the first `rows` rows of `count` numbers.
fn row_meets(field: Field, count: usize, rows: usize, row: &[u8], entries: &[u8]) -> bool
    requires row_elements { AreElements field row.now }
    requires elements { AreElements field entries.now }
    requires row_inside { count ≤ length row.now }
    requires inside { rows * count ≤ length entries.now }
    ensures { MatchBool result (Meets field count rows entries.now (slice_index row.now)) (¬ Meets field count rows entries.now (slice_index row.now)) }
{
    for i in 0..rows {
        if dot_of(field, count, i * count, row, entries) != 0 {
            return false;
        }
    }
    true
}

/// Whether each row of the matrix meets them.
pub fn all_meet(field: Field, matrix: &Matrix, rows: usize, entries: &[u8]) -> bool
    requires field { matrix.now.field ≡ field }
    requires elements { AreElements field entries.now }
    requires inside { rows * matrix.now.col_count ≤ length entries.now }
    ensures { MatchBool result (AllMeet field matrix.now rows entries.now) (¬ AllMeet field matrix.now rows entries.now) }
{
    for i in 0..matrix.rows() {
        if !row_meets(field, matrix.cols() as usize, rows, matrix.row(i), entries) {
            return false;
        }
    }
    true
}
