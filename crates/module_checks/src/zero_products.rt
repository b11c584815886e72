//! Products of matrices that are zero, or the identity.
ghost use Rattle.std.specs.Prelude.{ℕ, ◌≡◌, ◌<◌, length, MatchBool};
ghost use Rattle.module_checks.specs.VertexMatrices.{IsZeroInProductRow, IsZeroProduct, HaveProduct, HaveProducts, AreZeroProducts, IsUnitInProductRow, IsUnitProduct, AreUnitProducts};

use crate::column_reduced::unit_entry;
use crate::products::product_at;
use fp_linear::{Field, Matrix};
use seq::Seq;

/// Whether row `i` of the product is zero.
fn is_zero_row(field: Field, a: &Matrix, b: &Matrix, i: u32) -> bool
    requires fits { HaveProduct field a.now b.now }
    requires row { i < a.now.row_count }
    ensures { MatchBool result (IsZeroInProductRow field a.now b.now i b.now.col_count) (¬ IsZeroInProductRow field a.now b.now i b.now.col_count) }
{
    for j in 0..b.cols() {
        if product_at(field, a, b, i, j) != 0 {
            return false;
        }
    }
    true
}

/// Whether the product of `a` and `b` is zero.
pub fn is_zero_product(field: Field, a: &Matrix, b: &Matrix) -> bool
    requires fits { HaveProduct field a.now b.now }
    ensures { MatchBool result (IsZeroProduct field a.now b.now a.now.row_count) (¬ IsZeroProduct field a.now b.now a.now.row_count) }
{
    for i in 0..a.rows() {
        if !is_zero_row(field, a, b, i) {
            return false;
        }
    }
    true
}

/// Whether at each vertex the product is zero.
pub fn are_zero_products(field: Field, first: &Seq<Matrix>, second: &Seq<Matrix>) -> bool
    requires fit { HaveProducts field first.now second.now }
    ensures { MatchBool result (AreZeroProducts field (length first.now) first.now second.now) (¬ AreZeroProducts field (length first.now) first.now second.now) }
{
    for v in 0..first.len() {
        if !is_zero_product(field, &first[v], &second[v]) {
            return false;
        }
    }
    true
}

/// Whether row `i` of the product is that of the identity matrix.
fn is_unit_product_row(field: Field, a: &Matrix, b: &Matrix, i: u32) -> bool
    requires fits { HaveProduct field a.now b.now }
    requires row { i < a.now.row_count }
    ensures { MatchBool result (IsUnitInProductRow field a.now b.now i b.now.col_count) (¬ IsUnitInProductRow field a.now b.now i b.now.col_count) }
{
    for j in 0..b.cols() {
        let value = product_at(field, a, b, i, j);
        let expected = unit_entry(i, j);
        if value != expected {
            return false;
        }
    }
    true
}

/// Whether the product of `a` and `b` is the identity matrix.
pub fn is_unit_product(field: Field, a: &Matrix, b: &Matrix) -> bool
    requires fits { HaveProduct field a.now b.now }
    ensures { MatchBool result (IsUnitProduct field a.now b.now a.now.row_count) (¬ IsUnitProduct field a.now b.now a.now.row_count) }
{
    for i in 0..a.rows() {
        if !is_unit_product_row(field, a, b, i) {
            return false;
        }
    }
    true
}

/// Whether at each vertex the product is the identity matrix.
pub fn are_unit_products(field: Field, first: &Seq<Matrix>, second: &Seq<Matrix>) -> bool
    requires fit { HaveProducts field first.now second.now }
    ensures { MatchBool result (AreUnitProducts field (length first.now) first.now second.now) (¬ AreUnitProducts field (length first.now) first.now second.now) }
{
    for v in 0..first.len() {
        if !is_unit_product(field, &first[v], &second[v]) {
            return false;
        }
    }
    true
}
