//! Matrices at the vertices: whether each is in reduced row form.
ghost use Rattle.std.specs.Prelude.{ℕ, ◌≡◌, ◌<◌, length, MatchBool};
ghost use Rattle.module_checks.specs.VertexMatrices.{AreAllReduced, AreAllColumnReduced};

use crate::column_reduced::is_column_reduced;
use crate::reduced::is_reduced;
use fp_linear::Matrix;
use seq::Seq;

/// Whether each of the matrices is in reduced row form.
pub fn are_reduced(matrices: &Seq<Matrix>) -> bool
    ensures { MatchBool result (AreAllReduced (length matrices.now) matrices.now) (¬ AreAllReduced (length matrices.now) matrices.now) }
{
    for v in 0..matrices.len() {
        if !is_reduced(&matrices[v]) {
            return false;
        }
    }
    true
}

/// Whether each of the matrices is co-reduced.
pub fn are_column_reduced(matrices: &Seq<Matrix>) -> bool
    ensures { MatchBool result (AreAllColumnReduced (length matrices.now) matrices.now) (¬ AreAllColumnReduced (length matrices.now) matrices.now) }
{
    for v in 0..matrices.len() {
        if !is_column_reduced(&matrices[v]) {
            return false;
        }
    }
    true
}
