//! Kernels.
ghost use Rattle.std.specs.Prelude.{◌≡◌, ◌+◌, ◌-◌, ◌*◌, ◌<◌, ◌≤◌, ◌^◌, ℕ, IfOk, length, slice_index};
ghost use Rattle.linear_algebra.specs.Field.{Gf};
ghost use Rattle.linear_algebra.specs.Rows.{rows_of};
ghost use Rattle.linear_algebra.specs.Kernels.{IsKernel, IsExtended};
ghost use Rattle.fp_linear.specs.Slices.{AreElements, cell};
ghost use Rattle.fp_linear.specs.Matrix.{PlainMatrix, plain, IsMatrix, most_entries};

use crate::blocks::{Corner, copy_block, put_units};
use crate::echelon::echelon_rows;
use crate::matrix::Matrix;
use std::alloc::{AllocError, Global};

impl Matrix {
    /// The basis in reduced row form of all rows x with x · self = 0.
    pub fn kernel(&self, alloc: Global) -> Result<Matrix, AllocError>
        requires { self.now.row_count * self.now.row_count ≤ most_entries }
        ensures shape { IfOk result (λ k. k ≡ plain self.now.field k.row_count self.now.row_count k.rows) }
        ensures matrix { IfOk result IsMatrix }
        ensures basis { IfOk result (λ k. IsKernel self.now.field self.now.row_count self.now.col_count self.now.rows k.rows) }
    {
        let rows = self.rows as usize;
        let cols = self.cols as usize;
        let width = cols + rows;
        let mut wide = vec![in alloc; 0u8; rows * width]?;
        extend(rows, cols, &self.entries, &mut wide);
        let mut pivots = vec![in alloc; 0u32; rows]?;
        let rank = echelon_rows(
            self.field,
            self.rows,
            width as u32,
            &mut wide,
            &mut pivots,
        ) as usize;
        let left = count_below(&pivots, rank, cols);
        let count = rank - left;
        let mut entries = vec![in alloc; 0u8; count * rows]?;
        let corner = Corner {
            width,
            first: left,
            from: cols,
        };
        copy_block(&wide, corner, &mut entries, rows, count, rows);
        Ok(Matrix {
            field: self.field,
            rows: count as u32,
            cols: self.rows,
            entries,
        })
    }
}

// Writes the matrix with the identity to its right over zeros.
fn extend(rows: usize, cols: usize, entries: &[u8], wide: &mut [u8])
    requires shape { length entries.now ≡ rows * cols }
    requires wide_shape { length wide.old ≡ rows * (cols + rows) }
    requires small { rows < 2 ^ 32 }
    requires zero { (k : ℕ) → slice_index wide.old k ≡ 0 }
    ensures extended { (q : Gf) → AreElements q entries.now → IsExtended q rows cols (rows_of rows cols entries.now) (rows_of rows (cols + rows) wide.new) }
    ensures elements { (q : Gf) → AreElements q entries.now → AreElements q wide.new }
{
    let width = cols + rows;
    let corner = Corner {
        width: cols,
        first: 0,
        from: 0,
    };
    copy_block(entries, corner, wide, width, rows, cols);
    put_units(rows, width, cols, wide);
}

/// How many of the first `rank` pivots, which ascend, are below `bound`.
pub(crate) fn count_below(pivots: &[u32], rank: usize, bound: usize) -> usize
    requires inside { rank ≤ length pivots.now }
    requires ascending { (i k : ℕ) → i < k → k < rank → slice_index pivots.now i < slice_index pivots.now k }
    ensures fits { result ≤ rank }
    ensures before { (i : ℕ) → i < result → slice_index pivots.now i < bound }
    ensures behind { (i : ℕ) → result ≤ i → i < rank → bound ≤ slice_index pivots.now i }
{
    for i in 0..rank {
        if pivots[i] as usize >= bound {
            return i;
        }
    }
    rank
}
