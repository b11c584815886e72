//! Writing equations into lent memory.
ghost use Rattle.std.specs.Prelude.{ℕ, ◌≡◌, ◌<◌, ◌≤◌, ◌+◌, ◌*◌, length, slice_index};
ghost use Rattle.linear_algebra.specs.Field.{order, neg};
ghost use Rattle.linear_algebra.specs.Rows.{entry};
ghost use Rattle.fp_linear.specs.Slices.{AreElements};
ghost use Rattle.fp_linear.specs.Meeting.{dot};
ghost use Rattle.module_checks.specs.Spreading.{IsAddedAt, IsSpread, in_steps, from_first, negated_column};

use fp_linear::{Field, Matrix};

/// Adds a value at one place.
pub(crate) fn add_at(field: Field, at: usize, value: u8, entries: &mut [u8])
    requires elements { AreElements field entries.old }
    requires inside { at < length entries.old }
    requires small { value < order field }
    ensures added { IsAddedAt field at value entries.old entries.new }
    ensures elements { AreElements field entries.new }
{
    entries[at] = field.add(entries[at], value);
}

/// Adds row `i` of the matrix, its entries `step` places apart, from place `first` on of the `count` numbers from `start` on.
pub fn add_row(
    field: Field,
    matrix: &Matrix,
    i: u32,
    start: usize,
    count: usize,
    first: usize,
    step: usize,
    entries: &mut [u8],
)
    requires field { matrix.now.field ≡ field }
    requires row { i < matrix.now.row_count }
    requires elements { AreElements field entries.old }
    requires within { start + count ≤ length entries.old }
    requires places { (k : ℕ) → k < matrix.now.col_count → first + k * step < count }
    ensures spread { IsSpread field start count matrix.now.col_count (entry matrix.now.rows i) (in_steps first step) entries.old entries.new }
    ensures elements { AreElements field entries.new }
{
    let row = matrix.row(i);
    for k in 0..matrix.cols() as usize {
        add_at(field, start + (first + k * step), row[k], entries);
    }
}

/// Subtracts column `j` of the matrix, its entries one behind the other, from place `first` on.
pub(crate) fn subtract_column(
    field: Field,
    matrix: &Matrix,
    j: u32,
    start: usize,
    count: usize,
    first: usize,
    entries: &mut [u8],
)
    requires field { matrix.now.field ≡ field }
    requires column { j < matrix.now.col_count }
    requires elements { AreElements field entries.old }
    requires within { start + count ≤ length entries.old }
    requires places { first + matrix.now.row_count ≤ count }
    ensures spread { IsSpread field start count matrix.now.row_count (negated_column field matrix.now.rows j) (from_first first) entries.old entries.new }
    ensures elements { AreElements field entries.new }
{
    for l in 0..matrix.rows() {
        let value = field.neg(matrix.row(l)[j as usize]);
        add_at(field, start + (first + l as usize), value, entries);
    }
}
