//! Whether a matrix is co-reduced: each column has a unit row, further down from column to column, and is zero below it.
ghost use Rattle.std.specs.Prelude.{ℕ, suc, ◌≡◌, ◌≢◌, ◌<◌, ◌≤◌, ◌+◌, MatchBool, MatchOption};
ghost use Rattle.linear_algebra.specs.Rows.{entry};
ghost use Rattle.linear_algebra.specs.Matrix.{delta};
ghost use Rattle.module_checks.specs.VertexMatrices.{IsPlaceOf, IsColumnReduced};

use fp_linear::Matrix;

/// The last row whose entry in column `k` is not zero.
fn last_row(matrix: &Matrix, k: u32) -> Option<u32>
    requires { k < matrix.now.col_count }
    ensures { MatchOption result
        ((i : ℕ) → i < matrix.now.row_count → entry matrix.now.rows i k ≡ 0)
        (λ p. (p < matrix.now.row_count) × (entry matrix.now.rows p k ≢ 0) × ((i : ℕ) → p < i → i < matrix.now.row_count → entry matrix.now.rows i k ≡ 0)) }
{
    let count = matrix.rows();
    for t in 0..count {
        let i = count - (t + 1);
        if matrix.row(i)[k as usize] != 0 {
            return Some(i);
        }
    }
    None
}

/// Entry `j` of the unit row `k`.
pub fn unit_entry(k: u32, j: u32) -> u8
    ensures { result ≡ delta k j }
{
    if k == j {
        return 1;
    }
    0
}

/// Whether row `p` has 1 in column `k` and zeros elsewhere.
fn is_unit_row(matrix: &Matrix, p: u32, k: u32) -> bool
    requires row { p < matrix.now.row_count }
    ensures { MatchBool result
        ((j : ℕ) → j < matrix.now.col_count → entry matrix.now.rows p j ≡ delta k j)
        (¬ ((j : ℕ) → j < matrix.now.col_count → entry matrix.now.rows p j ≡ delta k j)) }
{
    let row = matrix.row(p);
    for j in 0..matrix.cols() {
        let value = row[j as usize];
        let expected = unit_entry(k, j);
        if value != expected {
            return false;
        }
    }
    true
}

/// The place of column `k`, if it has one from row `least` on.
fn place_from(matrix: &Matrix, k: u32, least: u32) -> Option<u32>
    requires { k < matrix.now.col_count }
    ensures { MatchOption result
        ((p : ℕ) → least ≤ p → IsPlaceOf matrix.now.row_count matrix.now.col_count matrix.now.rows k p → ⊥)
        (λ p. (least ≤ p) × IsPlaceOf matrix.now.row_count matrix.now.col_count matrix.now.rows k p) }
{
    match last_row(matrix, k) {
        None => None,
        Some(p) => {
            if p < least {
                return None;
            }
            if !is_unit_row(matrix, p, k) {
                return None;
            }
            Some(p)
        }
    }
}

/// Whether the matrix is co-reduced.
pub fn is_column_reduced(matrix: &Matrix) -> bool
    ensures { MatchBool result (IsColumnReduced matrix.now) (¬ IsColumnReduced matrix.now) }
{
    let mut least = 0;
    for k in 0..matrix.cols() {
        match place_from(matrix, k, least) {
            None => {
                return false;
            }
            Some(p) => {
                least = p + 1;
            }
        }
    }
    true
}
