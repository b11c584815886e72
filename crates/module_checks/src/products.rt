//! Products of matrices, entry by entry.
ghost use Rattle.std.specs.Prelude.{ℕ, ◌≡◌, ◌<◌, MatchBool};
ghost use Rattle.linear_algebra.specs.Field.{order};
ghost use Rattle.module_checks.specs.Products.{product_entry, AgreeInRow, AgreeInRows};

use fp_linear::{Field, Matrix};

/// The entry of the product at row `i` and column `j`.
pub(crate) fn product_at(field: Field, left: &Matrix, right: &Matrix, i: u32, j: u32) -> u8
    requires left_field { left.now.field ≡ field }
    requires right_field { right.now.field ≡ field }
    requires between { left.now.col_count ≡ right.now.row_count }
    requires row { i < left.now.row_count }
    requires column { j < right.now.col_count }
    ensures product { result ≡ product_entry field left.now.col_count left.now right.now i j }
    ensures small { result < order field }
{
    let row = left.row(i);
    let mut sum = 0;
    for t in 0..right.rows() {
        sum = field.add(sum, field.mul(row[t as usize], right.row(t)[j as usize]));
    }
    sum
}

/// Whether row `i` of the product of `a` and `b` is that of the product of `c` and `d`.
fn rows_agree(field: Field, a: &Matrix, b: &Matrix, c: &Matrix, d: &Matrix, i: u32) -> bool
    requires a_field { a.now.field ≡ field }
    requires b_field { b.now.field ≡ field }
    requires c_field { c.now.field ≡ field }
    requires d_field { d.now.field ≡ field }
    requires ab { a.now.col_count ≡ b.now.row_count }
    requires cd { c.now.col_count ≡ d.now.row_count }
    requires columns { b.now.col_count ≡ d.now.col_count }
    requires row { i < a.now.row_count }
    requires row_there { i < c.now.row_count }
    ensures { MatchBool result
        (AgreeInRow field a.now b.now c.now d.now i b.now.col_count)
        (¬ AgreeInRow field a.now b.now c.now d.now i b.now.col_count) }
{
    for j in 0..b.cols() {
        if product_at(field, a, b, i, j) != product_at(field, c, d, i, j) {
            return false;
        }
    }
    true
}

/// Whether the product of `a` and `b` is that of `c` and `d`, which has as many rows and columns.
pub fn products_agree(field: Field, a: &Matrix, b: &Matrix, c: &Matrix, d: &Matrix) -> bool
    requires a_field { a.now.field ≡ field }
    requires b_field { b.now.field ≡ field }
    requires c_field { c.now.field ≡ field }
    requires d_field { d.now.field ≡ field }
    requires ab { a.now.col_count ≡ b.now.row_count }
    requires cd { c.now.col_count ≡ d.now.row_count }
    requires columns { b.now.col_count ≡ d.now.col_count }
    requires rows { a.now.row_count ≡ c.now.row_count }
    ensures { MatchBool result
        (AgreeInRows field a.now b.now c.now d.now a.now.row_count)
        (¬ AgreeInRows field a.now b.now c.now d.now a.now.row_count) }
{
    for i in 0..a.rows() {
        if !rows_agree(field, a, b, c, d, i) {
            return false;
        }
    }
    true
}
