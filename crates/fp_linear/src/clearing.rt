//! Rows in lent memory: a row less what reduced rows say of it, a row times a matrix, and a matrix times a matrix.
ghost use Rattle.std.specs.Prelude.{ℕ, ◌≡◌, ◌*◌, length, slice_index};
ghost use Rattle.linear_algebra.specs.Rows.{rows_of, product, times};
ghost use Rattle.linear_algebra.specs.Reduced.{IsReduced, pivots_of, remainder};
ghost use Rattle.fp_linear.specs.Slices.{AreElements};

use crate::add::add_multiple;
use crate::field::Field;

/// Takes from the row `x` its remainder modulo rows in reduced row form, which stand in `rows` one after another, as many as there are `pivots`:
/// from `x` each row is taken as often as its pivot says, so that the entries at the pivots vanish.
pub fn clear_row(field: Field, rows: &[u8], pivots: &[u32], x: &mut [u8])
    requires rows_elements { AreElements field rows.now }
    requires elements { AreElements field x.old }
    requires shape { length rows.now ≡ length pivots.now * length x.old }
    requires reduced { IsReduced (length x.old) (rows_of (length pivots.now) (length x.old) rows.now) }
    requires pivots { pivots.now ≡ pivots_of (rows_of (length pivots.now) (length x.old) rows.now) }
    ensures remainder { x.new ≡ remainder field (length x.old) (rows_of (length pivots.now) (length x.old) rows.now) x.old }
    ensures elements { AreElements field x.new }
{
    let count = x.len();
    for i in 0..pivots.len() {
        let factor = field.neg(x[pivots[i] as usize]);
        add_multiple(field, factor, &rows[i * count..i * count + count], x);
    }
}

/// Writes the row `x` times the matrix whose rows, as many as `x` has entries and as long as `out`, stand in `rows` one after another.
pub fn multiply_row(field: Field, x: &[u8], rows: &[u8], out: &mut [u8])
    requires x_elements { AreElements field x.now }
    requires rows_elements { AreElements field rows.now }
    requires shape { length rows.now ≡ length x.now * length out.old }
    ensures product { out.new ≡ times field (length out.old) x.now (rows_of (length x.now) (length out.old) rows.now) }
    ensures elements { AreElements field out.new }
{
    make_zero(out);
    let count = out.len();
    for i in 0..x.len() {
        add_multiple(field, x[i], &rows[i * count..i * count + count], out);
    }
}

/// Writes the product of the matrix `left`, of `rows` rows and `inner` columns, and the matrix `right`, of `inner` rows and `cols` columns: in each of
/// the slices the rows stand one after another.
pub fn multiply_rows(
    field: Field,
    rows: usize,
    inner: usize,
    cols: usize,
    left: &[u8],
    right: &[u8],
    out: &mut [u8],
)
    requires left_elements { AreElements field left.now }
    requires right_elements { AreElements field right.now }
    requires left_shape { length left.now ≡ rows * inner }
    requires right_shape { length right.now ≡ inner * cols }
    requires shape { length out.old ≡ rows * cols }
    ensures product { rows_of rows cols out.new ≡ product field cols (rows_of rows inner left.now) (rows_of inner cols right.now) }
    ensures elements { AreElements field out.new }
{
    for i in 0..rows {
        let row = &left[i * inner..i * inner + inner];
        multiply_row(field, row, right, &mut out[i * cols..i * cols + cols]);
    }
}

// Writes zeros.
fn make_zero(row: &mut [u8])
    ensures { (j : ℕ) → slice_index row.new j ≡ 0 }
{
    for j in 0..row.len() {
        row[j] = 0;
    }
}
