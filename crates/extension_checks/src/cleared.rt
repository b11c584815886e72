//! Whether the rows of a matrix are zero at some places.
ghost use Rattle.std.specs.Prelude.{ℕ, ◌<◌, ◌≤◌, length, slice_index, MatchBool};
ghost use Rattle.extension_checks.specs.Cleared.{IsClearedAt, AreClearedAt};

use fp_linear::Matrix;

/// Whether the row is zero at the first `count` of some places.
fn is_cleared(row: &[u8], places: &[u32], count: usize) -> bool
    requires few { count ≤ length places.now }
    requires inside { (k : ℕ) → k < count → slice_index places.now k < length row.now }
    ensures { MatchBool result (IsClearedAt row.now places.now count) (¬ IsClearedAt row.now places.now count) }
{
    for k in 0..count {
        if row[places[k] as usize] != 0 {
            return false;
        }
    }
    true
}

/// Whether each row of the matrix is zero at the first `count` of some places.
pub(crate) fn are_cleared(matrix: &Matrix, places: &[u32], count: usize) -> bool
    requires few { count ≤ length places.now }
    requires inside { (k : ℕ) → k < count → slice_index places.now k < matrix.now.col_count }
    ensures { MatchBool result (AreClearedAt matrix.now.rows matrix.now.row_count places.now count) (¬ AreClearedAt matrix.now.rows matrix.now.row_count places.now count) }
{
    for i in 0..matrix.rows() {
        if !is_cleared(matrix.row(i), places, count) {
            return false;
        }
    }
    true
}
