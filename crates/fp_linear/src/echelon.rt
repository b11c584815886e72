//! Reduced row form, in place.
ghost use Rattle.std.specs.Prelude.{◌≡◌, ◌≢◌, ◌+◌, ◌*◌, ◌<◌, ◌≤◌, ◌^◌, ℕ, length, slice_index, slice_set, MatchOption};
ghost use Rattle.linear_algebra.specs.Field.{Gf, order, degree, characteristic, add, mul, neg, inv};
ghost use Rattle.linear_algebra.specs.Rows.{rows_of, SameSpan};
ghost use Rattle.linear_algebra.specs.Reduced.{ReducesTo};
ghost use Rattle.fp_linear.specs.Slices.{cell, AreElements, IsWritten};
ghost use Rattle.fp_linear.specs.Elimination.{IsPartlyReduced, AreExchanged, IsScaled, IsCleared};

use crate::add::add_within;
use crate::field::Field;

/// Brings the matrix of `rows` rows and `cols` columns whose rows stand in `entries` one after another into reduced row form, and answers its
/// rank: the first rank rows are then the reduced row form of the same row space, the others are zero, and the first rank places of `pivots` are
/// the pivot columns.
pub fn echelon_rows(
    field: Field,
    rows: u32,
    cols: u32,
    entries: &mut [u8],
    pivots: &mut [u32],
) -> u32
    requires shape { length entries.old ≡ rows * cols }
    requires elements { AreElements field entries.old }
    requires room { rows ≤ length pivots.old }
    ensures elements { AreElements field entries.new }
    ensures form { ReducesTo field cols (rows_of rows cols entries.old) (rows_of rows cols entries.new) pivots.new result }
{
    let mut rank = 0;
    for column in 0..cols as usize {
        rank = reduce_column(
            field,
            rows as usize,
            cols as usize,
            column,
            rank,
            entries,
            pivots,
        );
    }
    rank as u32
}

// Goes on from the first `column` columns, of rank `rank`, to the next, and answers the new rank.
fn reduce_column(
    field: Field,
    rows: usize,
    cols: usize,
    column: usize,
    rank: usize,
    entries: &mut [u8],
    pivots: &mut [u32],
) -> usize
    requires shape { length entries.old ≡ rows * cols }
    requires elements { AreElements field entries.old }
    requires room { rows ≤ length pivots.old }
    requires inside { column < cols }
    requires small { cols < 2 ^ 32 }
    requires partly { IsPartlyReduced rows column rank (cell cols entries.old) (slice_index pivots.old) }
    ensures elements { AreElements field entries.new }
    ensures partly { IsPartlyReduced rows (column + 1) result (cell cols entries.new) (slice_index pivots.new) }
    ensures span { SameSpan field cols (rows_of rows cols entries.old) (rows_of rows cols entries.new) }
{
    match find_pivot(rows, cols, column, rank, entries) {
        None => rank,
        Some(row) => {
            swap_rows(rows, cols, rank, row, entries);
            let scale = field.inv(entries[rank * cols + column]);
            scale_row(field, rows, cols, rank, scale, entries);
            clear_column(field, rows, cols, rank, column, entries);
            pivots[rank] = column as u32;
            rank + 1
        }
    }
}

// The first row from `rank` on whose entry in this column is not zero.
fn find_pivot(rows: usize, cols: usize, column: usize, rank: usize, entries: &[u8]) -> Option<usize>
    requires shape { length entries.now ≡ rows * cols }
    requires inside { column < cols }
    ensures { MatchOption result ((i : ℕ) → rank ≤ i → i < rows → cell cols entries.now i column ≡ 0) (λ i. (rank ≤ i) × (i < rows) × (cell cols entries.now i column ≢ 0)) }
{
    for i in rank..rows {
        if entries[i * cols + column] != 0 {
            return Some(i);
        }
    }
    None
}

fn swap_rows(rows: usize, cols: usize, a: usize, b: usize, entries: &mut [u8])
    requires shape { length entries.old ≡ rows * cols }
    requires first { a < rows }
    requires second { b < rows }
    ensures exchanged { AreExchanged rows cols a b (cell cols entries.old) (cell cols entries.new) }
    ensures elements { (q : Gf) → AreElements q entries.old → AreElements q entries.new }
{
    if a != b {
        for j in 0..cols {
            entries.swap(a * cols + j, b * cols + j);
        }
    }
}

fn scale_row(field: Field, rows: usize, cols: usize, row: usize, factor: u8, entries: &mut [u8])
    requires shape { length entries.old ≡ rows * cols }
    requires elements { AreElements field entries.old }
    requires inside { row < rows }
    requires element { factor < order field }
    ensures scaled { IsScaled field rows cols row factor (cell cols entries.old) (cell cols entries.new) }
    ensures elements { AreElements field entries.new }
{
    let start = row * cols;
    for j in 0..cols {
        entries[start + j] = field.mul(factor, entries[start + j]);
    }
}

// Takes multiples of row `row`, which has a 1 in column `column` and zeros before it, from the others, so that their entries there vanish.
fn clear_column(
    field: Field,
    rows: usize,
    cols: usize,
    row: usize,
    column: usize,
    entries: &mut [u8],
)
    requires shape { length entries.old ≡ rows * cols }
    requires elements { AreElements field entries.old }
    requires inside { row < rows }
    requires column_inside { column < cols }
    requires before { (j : ℕ) → j < column → cell cols entries.old row j ≡ 0 }
    ensures cleared { IsCleared field rows cols row column (cell cols entries.old) (cell cols entries.new) }
    ensures elements { AreElements field entries.new }
{
    for i in 0..rows {
        if i != row {
            let factor = field.neg(entries[i * cols + column]);
            if factor != 0 {
                add_within(
                    field,
                    factor,
                    row * cols + column,
                    i * cols + column,
                    cols - column,
                    entries,
                );
            }
        }
    }
}
