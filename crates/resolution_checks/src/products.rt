//! Whether the product of two matrices in lent memory is zero.
ghost use Rattle.std.specs.Prelude.{ℕ, ◌≡◌, ◌<◌, ◌≤◌, ◌+◌, ◌*◌, length, MatchBool};
ghost use Rattle.linear_algebra.specs.Field.{order};
ghost use Rattle.fp_linear.specs.Slices.{AreElements};
ghost use Rattle.resolution_checks.specs.Products.{partial_entry, IsZeroRow, IsZeroProduct};

use fp_linear::Field;

/// One entry of the product of row `i` of the first and column `j` of the second; the rows have `width` and `columns` numbers.
fn entry_of(
    field: Field,
    width: usize,
    columns: usize,
    f: &[u8],
    g: &[u8],
    i: usize,
    j: usize,
) -> u8
    requires f_elements { AreElements field f.now }
    requires g_elements { AreElements field g.now }
    requires column { j < columns }
    requires f_inside { i * width + width ≤ length f.now }
    requires g_inside { length g.now ≡ width * columns }
    ensures { result ≡ partial_entry field width columns f.now g.now i j width }
{
    let mut sum = 0;
    for t in 0..width {
        sum = field.add(sum, field.mul(f[i * width + t], g[t * columns + j]));
    }
    sum
}

/// Whether the product is zero in row `i`.
fn is_zero_row(field: Field, width: usize, columns: usize, f: &[u8], g: &[u8], i: usize) -> bool
    requires f_elements { AreElements field f.now }
    requires g_elements { AreElements field g.now }
    requires f_inside { i * width + width ≤ length f.now }
    requires g_inside { length g.now ≡ width * columns }
    ensures { MatchBool result (IsZeroRow field width columns f.now g.now i columns) (¬ IsZeroRow field width columns f.now g.now i columns) }
{
    for j in 0..columns {
        if entry_of(field, width, columns, f, g, i, j) != 0 {
            return false;
        }
    }
    true
}

/// Whether the product of a matrix with `rows` rows of `width` numbers and one with `width` rows of `columns` numbers is zero.
pub(crate) fn product_is_zero(
    field: Field,
    rows: usize,
    width: usize,
    columns: usize,
    f: &[u8],
    g: &[u8],
) -> bool
    requires f_elements { AreElements field f.now }
    requires g_elements { AreElements field g.now }
    requires f_shape { length f.now ≡ rows * width }
    requires g_shape { length g.now ≡ width * columns }
    ensures { MatchBool result (IsZeroProduct field rows width columns f.now g.now) (¬ IsZeroProduct field rows width columns f.now g.now) }
{
    for i in 0..rows {
        if !is_zero_row(field, width, columns, f, g, i) {
            return false;
        }
    }
    true
}
