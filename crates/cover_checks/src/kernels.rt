//! Kernels of matrices in lent memory.
ghost use Rattle.std.specs.Prelude.{ℕ, ◌≡◌, ◌<◌, ◌≤◌, ◌+◌, ◌*◌, ◌^◌, length, slice_index};
ghost use Rattle.linear_algebra.specs.Field.{Gf};
ghost use Rattle.linear_algebra.specs.Rows.{rows_of};
ghost use Rattle.linear_algebra.specs.Kernels.{IsKernel, IsExtended};
ghost use Rattle.fp_linear.specs.Slices.{AreElements};
ghost use Rattle.cover_checks.specs.Bases.{AreExtended};

use crate::copying::{copy_part, put_unit};
use fp_linear::{Field, echelon_rows};
use module_checks::clear;

/// Writes the matrix with the identity to its right.
fn extend(rows: u32, cols: u32, entries: &[u8], wide: &mut [u8])
    requires shape { length entries.now ≡ rows * cols }
    requires wide_shape { length wide.old ≡ rows * (cols + rows) }
    requires small { rows ≤ 512 }
    requires small_columns { cols ≤ 512 }
    ensures extended { (q : Gf) → AreElements q entries.now → IsExtended q rows cols (rows_of rows cols entries.now) (rows_of rows (cols + rows) wide.new) }
    ensures elements { (q : Gf) → AreElements q entries.now → AreElements q wide.new }
{
    clear(wide);
    let width = cols as usize + rows as usize;
    for i in 0..rows {
        let start = i as usize * width;
        copy_part(
            entries,
            i as usize * cols as usize,
            wide,
            start,
            cols as usize,
        );
        put_unit(wide, start + cols as usize, rows, i);
    }
}

/// How many of the first `rank` pivots, which ascend, are below `bound`.
fn count_below(pivots: &[u32], rank: u32, bound: u32) -> u32
    requires inside { rank ≤ length pivots.now }
    requires ascending { (i k : ℕ) → i < k → k < rank → slice_index pivots.now i < slice_index pivots.now k }
    ensures fits { result ≤ rank }
    ensures before { (i : ℕ) → i < result → slice_index pivots.now i < bound }
    ensures behind { (i : ℕ) → result ≤ i → i < rank → bound ≤ slice_index pivots.now i }
{
    for i in 0..rank {
        if pivots[i as usize] >= bound {
            return i;
        }
    }
    rank
}

/// Copies the ends, from column `from` on, of the `count` rows of `width` numbers from row `first` on: rows of `taken` numbers.
fn copy_ends(
    width: usize,
    first: usize,
    from: usize,
    count: usize,
    taken: usize,
    source: &[u8],
    target: &mut [u8],
)
    requires small { first + count < 2 ^ 32 }
    requires width { from + taken ≤ width }
    requires source_inside { (first + count) * width ≤ length source.now }
    requires target_inside { count * taken ≤ length target.old }
    ensures ends { (i j : ℕ) → i < count → j < taken → slice_index target.new (i * taken + j) ≡ slice_index source.now ((first + i) * width + (from + j)) }
    ensures elements { (q : Gf) → AreElements q source.now → AreElements q target.old → AreElements q target.new }
{
    for i in 0..count {
        copy_part(source, (first + i) * width + from, target, i * taken, taken);
    }
}

/// Writes the basis in reduced row form of the rows that the matrix takes to zero, and answers how many there are.
pub fn kernel_of(
    field: Field,
    rows: u32,
    cols: u32,
    matrix: &[u8],
    wide: &mut [u8],
    pivots: &mut [u32],
    basis: &mut [u8],
) -> u32
    requires shape { length matrix.now ≡ rows * cols }
    requires elements { AreElements field matrix.now }
    requires wide_shape { length wide.old ≡ rows * (cols + rows) }
    requires small { rows ≤ 512 }
    requires small_columns { cols ≤ 512 }
    requires pivots { rows ≤ length pivots.old }
    requires room { rows * rows ≤ length basis.old }
    ensures few { result ≤ rows }
    ensures elements { AreElements field basis.new }
    ensures kernel { IsKernel field rows cols (rows_of rows cols matrix.now) (rows_of result rows basis.new) }
{
    extend(rows, cols, matrix, wide);
    let rank = echelon_rows(field, rows, cols + rows, wide, pivots);
    let left = count_below(pivots, rank, cols);
    let count = rank - left;
    clear(basis);
    copy_ends(
        cols as usize + rows as usize,
        left as usize,
        cols as usize,
        count as usize,
        rows as usize,
        wide,
        basis,
    );
    count
}
