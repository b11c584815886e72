//! Ranks of matrices, by elimination in lent memory.
ghost use Rattle.std.specs.Prelude.{ℕ, ◌≡◌, ◌<◌, ◌≤◌, ◌+◌, ◌*◌, length, slice_index, MatchBool};
ghost use Rattle.fp_linear.specs.Slices.{AreElements};
ghost use Rattle.module_checks.specs.VertexMatrices.{HoldsEntries, rank_of_plain, HaveRoom, HaveRanks};

use fp_linear::{Matrix, echelon_rows};
use seq::Seq;

/// Writes the entries of the matrix row by row.
fn copy_entries(matrix: &Matrix, entries: &mut [u8])
    requires { length entries.old ≡ matrix.now.row_count * matrix.now.col_count }
    ensures copied { HoldsEntries matrix.now (matrix.now.row_count * matrix.now.col_count) entries.new }
    ensures elements { AreElements matrix.now.field entries.new }
{
    let cols = matrix.cols() as u64;
    for e in 0..matrix.rows() as u64 * cols {
        let row = matrix.row((e / cols) as u32);
        entries[e as usize] = row[(e % cols) as usize];
    }
}

/// The rank of the matrix. The slices are worked in; one has a place for each entry of the matrix, the other for each row, and what they hold before
/// and after says nothing.
pub fn rank_of(matrix: &Matrix, entries: &mut [u8], pivots: &mut [u32]) -> u32
    requires room { matrix.now.row_count * matrix.now.col_count ≤ length entries.old }
    requires rows { matrix.now.row_count ≤ length pivots.old }
    ensures { result ≡ rank_of_plain matrix.now }
{
    let size = matrix.rows() as usize * matrix.cols() as usize;
    let part = &mut entries[..size];
    copy_entries(matrix, part);
    echelon_rows(matrix.field(), matrix.rows(), matrix.cols(), part, pivots)
}

/// Whether at each vertex the dimension `part` is the dimension `whole` less the rank of the matrix.
pub fn have_ranks(
    part: &Seq<u32>,
    whole: &Seq<u32>,
    matrices: &Seq<Matrix>,
    entries: &mut [u8],
    pivots: &mut [u32],
) -> bool
    requires part { length part.now ≡ length matrices.now }
    requires whole { length whole.now ≡ length matrices.now }
    requires room { HaveRoom matrices.now entries.old pivots.old }
    ensures { MatchBool result
        (HaveRanks (length matrices.now) part.now whole.now matrices.now)
        (¬ HaveRanks (length matrices.now) part.now whole.now matrices.now) }
{
    for v in 0..matrices.len() {
        let rank = rank_of(&matrices[v], entries, pivots);
        if part[v] as u64 + rank as u64 != whole[v] as u64 {
            return false;
        }
    }
    true
}
