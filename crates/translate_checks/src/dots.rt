//! Rows and columns of matrices, times numbers in lent memory.
ghost use Rattle.std.specs.Prelude.{ℕ, ◌≡◌, ◌<◌, ◌≤◌, ◌+◌, ◌*◌, length, MatchBool};
ghost use Rattle.linear_algebra.specs.Field.{order};
ghost use Rattle.fp_linear.specs.Slices.{AreElements};
ghost use Rattle.module_checks.specs.Products.{product_entry};
ghost use Rattle.translate_checks.specs.Dots.{row_dot, column_dot, RowsVanish, ColumnsVanish, VanishOnRows, RowsVanishOn};
ghost use Rattle.translate_checks.specs.Squares.{AgreeInColumn, AgreeInRow};

use fp_linear::{Field, Matrix};

/// Row `r` of the matrix, times the numbers from place `start` on.
pub fn row_dot(field: Field, a: &Matrix, r: u32, s: &[u8], start: usize) -> u8
    requires field { a.now.field ≡ field }
    requires row { r < a.now.row_count }
    requires inside { start + a.now.col_count ≤ length s.now }
    requires elements { AreElements field s.now }
    ensures dot { result ≡ row_dot field a.now.col_count a.now r s.now start }
    ensures small { result < order field }
{
    let row = a.row(r);
    let mut sum = 0;
    for t in 0..a.cols() as usize {
        sum = field.add(sum, field.mul(row[t], s[start + t]));
    }
    sum
}

/// The numbers from place `start` on, times column `j` of the matrix.
pub fn column_dot(field: Field, s: &[u8], start: usize, a: &Matrix, j: u32) -> u8
    requires field { a.now.field ≡ field }
    requires column { j < a.now.col_count }
    requires inside { start + a.now.row_count ≤ length s.now }
    requires elements { AreElements field s.now }
    ensures dot { result ≡ column_dot field a.now.row_count s.now start a.now j }
    ensures small { result < order field }
{
    let mut sum = 0;
    for t in 0..a.rows() {
        sum = field.add(sum, field.mul(s[start + t as usize], a.row(t)[j as usize]));
    }
    sum
}

/// The entry of the product at row `i` and column `j`.
pub fn product_at(field: Field, left: &Matrix, right: &Matrix, i: u32, j: u32) -> u8
    requires left_field { left.now.field ≡ field }
    requires right_field { right.now.field ≡ field }
    requires between { left.now.col_count ≡ right.now.row_count }
    requires row { i < left.now.row_count }
    requires column { j < right.now.col_count }
    ensures { result ≡ product_entry field left.now.col_count left.now right.now i j }
{
    let row = left.row(i);
    let mut sum = 0;
    for t in 0..right.rows() {
        sum = field.add(sum, field.mul(row[t as usize], right.row(t)[j as usize]));
    }
    sum
}

/// Whether column `j` of the product of `x` and `t` is what the rows of `s` make of the numbers.
pub fn column_agrees(
    field: Field,
    x: &Matrix,
    t: &Matrix,
    s: &Matrix,
    j: u32,
    values: &[u8],
) -> bool
    requires x_field { x.now.field ≡ field }
    requires t_field { t.now.field ≡ field }
    requires s_field { s.now.field ≡ field }
    requires between { x.now.col_count ≡ t.now.row_count }
    requires rows { s.now.row_count ≡ x.now.row_count }
    requires column { j < t.now.col_count }
    requires inside { s.now.col_count ≤ length values.now }
    requires elements { AreElements field values.now }
    ensures { MatchBool result (AgreeInColumn field x.now t.now s.now j values.now x.now.row_count) (¬ AgreeInColumn field x.now t.now s.now j values.now x.now.row_count) }
{
    for r in 0..x.rows() {
        let product = product_at(field, x, t, r, j);
        let dot = row_dot(field, s, r, values, 0);
        if product != dot {
            return false;
        }
    }
    true
}

/// Whether what the numbers make of the columns of `t` is row `j` of the product of `s` and `y`.
pub fn row_agrees(field: Field, values: &[u8], t: &Matrix, s: &Matrix, y: &Matrix, j: u32) -> bool
    requires t_field { t.now.field ≡ field }
    requires s_field { s.now.field ≡ field }
    requires y_field { y.now.field ≡ field }
    requires between { s.now.col_count ≡ y.now.row_count }
    requires columns { y.now.col_count ≡ t.now.col_count }
    requires row { j < s.now.row_count }
    requires inside { t.now.row_count ≤ length values.now }
    requires elements { AreElements field values.now }
    ensures { MatchBool result (AgreeInRow field values.now t.now s.now y.now j t.now.col_count) (¬ AgreeInRow field values.now t.now s.now y.now j t.now.col_count) }
{
    for c in 0..t.cols() {
        let dot = column_dot(field, values, 0, t, c);
        let product = product_at(field, s, y, j, c);
        if dot != product {
            return false;
        }
    }
    true
}

/// Whether each row of the matrix takes the numbers from place `start` on to zero.
fn rows_vanish(field: Field, a: &Matrix, s: &[u8], start: usize) -> bool
    requires field { a.now.field ≡ field }
    requires inside { start + a.now.col_count ≤ length s.now }
    requires elements { AreElements field s.now }
    ensures { MatchBool result (RowsVanish field a.now s.now start a.now.row_count) (¬ RowsVanish field a.now s.now start a.now.row_count) }
{
    for r in 0..a.rows() {
        if row_dot(field, a, r, s, start) != 0 {
            return false;
        }
    }
    true
}

/// Whether the numbers from place `start` on take each column of the matrix to zero.
fn columns_vanish(field: Field, s: &[u8], start: usize, a: &Matrix) -> bool
    requires field { a.now.field ≡ field }
    requires inside { start + a.now.row_count ≤ length s.now }
    requires elements { AreElements field s.now }
    ensures { MatchBool result (ColumnsVanish field s.now start a.now a.now.col_count) (¬ ColumnsVanish field s.now start a.now a.now.col_count) }
{
    for j in 0..a.cols() {
        if column_dot(field, s, start, a, j) != 0 {
            return false;
        }
    }
    true
}

/// Whether each row of the matrix takes each of the first `count` rows of the slice, which are as long, to zero.
pub fn vanish_on_rows(field: Field, a: &Matrix, s: &[u8], count: usize) -> bool
    requires field { a.now.field ≡ field }
    requires inside { count * a.now.col_count ≤ length s.now }
    requires elements { AreElements field s.now }
    ensures { MatchBool result (VanishOnRows field a.now s.now count) (¬ VanishOnRows field a.now s.now count) }
{
    let width = a.cols() as usize;
    for c in 0..count {
        if !rows_vanish(field, a, s, c * width) {
            return false;
        }
    }
    true
}

/// Whether each of the first `count` rows of the slice, which are as long as the matrix has rows, takes each column of the matrix to zero.
pub fn rows_vanish_on(field: Field, s: &[u8], count: usize, a: &Matrix) -> bool
    requires field { a.now.field ≡ field }
    requires inside { count * a.now.row_count ≤ length s.now }
    requires elements { AreElements field s.now }
    ensures { MatchBool result (RowsVanishOn field s.now a.now count) (¬ RowsVanishOn field s.now a.now count) }
{
    let width = a.rows() as usize;
    for c in 0..count {
        if !columns_vanish(field, s, c * width, a) {
            return false;
        }
    }
    true
}
