//! Whether a module is the dual of another.
ghost use Rattle.std.specs.Prelude.{ℕ, ◌≡◌, ◌<◌, ◌≤◌, length, slice_index, MatchBool};
ghost use Rattle.linear_algebra.specs.Rows.{entry};
ghost use Rattle.path_algebra.specs.Allowed.{IsAllowed};
ghost use Rattle.module_types.specs.Algebras.{algebra_at};
ghost use Rattle.module_types.specs.Shapes.{IsModule};
ghost use Rattle.claim_conditions.specs.Translates.{IsDualOf};
ghost use Rattle.translate_checks.specs.Duals.{IsTransposedRow, IsTransposed, AreTransposed, AgreeBelow};

use fp_linear::Matrix;
use module_checks::same_side;
use module_types::Module;
use path_algebra::Header;
use seq::Seq;

/// Whether the dimensions are the same.
fn same_dims(a: &Seq<u32>, b: &Seq<u32>) -> bool
    requires { length b.now ≡ length a.now }
    ensures { MatchBool result (AgreeBelow a.now b.now (length a.now)) (¬ AgreeBelow a.now b.now (length a.now)) }
{
    for v in 0..a.len() {
        if a[v] != b[v] {
            return false;
        }
    }
    true
}

/// Whether row `i` of `b` is column `i` of `a`.
fn is_transposed_row(a: &Matrix, b: &Matrix, i: u32) -> bool
    requires rows { b.now.row_count ≡ a.now.col_count }
    requires columns { b.now.col_count ≡ a.now.row_count }
    requires row { i < b.now.row_count }
    ensures { MatchBool result (IsTransposedRow a.now b.now i b.now.col_count) (¬ IsTransposedRow a.now b.now i b.now.col_count) }
{
    let row = b.row(i);
    for j in 0..b.cols() {
        let value = row[j as usize];
        let expected = a.row(j)[i as usize];
        if value != expected {
            return false;
        }
    }
    true
}

/// Whether `b` is the transposed matrix of `a`.
fn is_transposed(a: &Matrix, b: &Matrix) -> bool
    requires rows { b.now.row_count ≡ a.now.col_count }
    requires columns { b.now.col_count ≡ a.now.row_count }
    ensures { MatchBool result (IsTransposed a.now b.now b.now.row_count) (¬ IsTransposed a.now b.now b.now.row_count) }
{
    for i in 0..b.rows() {
        if !is_transposed_row(a, b, i) {
            return false;
        }
    }
    true
}

/// Whether `b` is the dual of `a`: it has the other side, the same dimensions, and the transposed matrices.
pub fn is_dual(header: &Header, a: &Module, b: &Module) -> bool
    requires allowed { IsAllowed header.now }
    requires a { IsModule header.now.field (algebra_at a.now.side header.now).quiver a.now }
    requires b { IsModule header.now.field (algebra_at b.now.side header.now).quiver b.now }
    ensures { MatchBool result (IsDualOf header.now a.now b.now) (¬ IsDualOf header.now a.now b.now) }
{
    if !same_side(b.side, a.side.other()) {
        return false;
    }
    if !same_dims(&a.dims, &b.dims) {
        return false;
    }
    for k in 0..header.quiver.arrows.len() {
        if !is_transposed(&a.matrices[k], &b.matrices[k]) {
            return false;
        }
    }
    true
}
