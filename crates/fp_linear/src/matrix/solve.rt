//! Solutions of X · self = right, and inverses.
ghost use Rattle.std.specs.Prelude.{◌≡◌, ◌≢◌, ◌+◌, ◌*◌, ◌<◌, ◌≤◌, ◌^◌, ℕ, List, IfOk, MatchOption, length, slice_index, ⊤};
ghost use Rattle.linear_algebra.specs.Field.{Gf};
ghost use Rattle.linear_algebra.specs.Rows.{identity, rows_of};
ghost use Rattle.linear_algebra.specs.RowSolutions.{IsSolution, IsInverse, IsReadFrom, AreReducedEquations};
ghost use Rattle.fp_linear.specs.Slices.{AreElements, cell};
ghost use Rattle.fp_linear.specs.Matrix.{PlainMatrix, plain, most_entries};

use crate::blocks::{put_column, put_columns, put_units};
use crate::echelon::echelon_rows;
use crate::field::Field;
use crate::matrix::Matrix;
use crate::matrix::kernel::count_below;
use std::alloc::{AllocError, Global};

impl Matrix {
    /// Some X with X · self = right; `None` where there is none.
    pub fn solve(&self, alloc: Global, right: &Matrix) -> Result<Option<Matrix>, AllocError>
        requires field { right.now.field ≡ self.now.field }
        requires shape { right.now.col_count ≡ self.now.col_count }
        requires size { right.now.row_count * self.now.row_count ≤ most_entries }
        ensures shape { IfOk result (λ o. MatchOption o ⊤ (λ x. x ≡ plain self.now.field right.now.row_count self.now.row_count x.rows)) }
        ensures solution { IfOk result (λ o. MatchOption o
            ((x : List (List ℕ)) → IsSolution self.now.field right.now.row_count self.now.row_count self.now.col_count self.now.rows right.now.rows x → ⊥)
            (λ x. IsSolution self.now.field right.now.row_count self.now.row_count self.now.col_count self.now.rows right.now.rows x.rows)) }
    {
        let rows = self.rows as usize;
        let cols = self.cols as usize;
        let count = right.rows as usize;
        let mut wide = vec![in alloc; 0u8; cols * (rows + count)]?;
        let mut pivots = vec![in alloc; 0u32; cols]?;
        let rank = reduce_equations(
            self.field,
            rows,
            cols,
            count,
            &self.entries,
            &right.entries,
            &mut wide,
            &mut pivots,
        );
        if count_below(&pivots, rank, rows) < rank {
            return Ok(None);
        }
        let mut entries = vec![in alloc; 0u8; count * rows]?;
        read_solution(rows, count, rank, &wide, &pivots, &mut entries);
        Ok(Some(Matrix {
            field: self.field,
            rows: right.rows,
            cols: self.rows,
            entries,
        }))
    }

    /// The inverse; `None` where there is none.
    pub fn invert(&self, alloc: Global) -> Result<Option<Matrix>, AllocError>
        requires square { self.now.col_count ≡ self.now.row_count }
        ensures shape { IfOk result (λ o. MatchOption o ⊤ (λ x. x ≡ plain self.now.field self.now.row_count self.now.row_count x.rows)) }
        ensures inverse { IfOk result (λ o. MatchOption o
            ((x : List (List ℕ)) → IsInverse self.now.field self.now.row_count self.now.rows x → ⊥)
            (λ x. IsInverse self.now.field self.now.row_count self.now.rows x.rows)) }
    {
        let identity = Matrix::identity(alloc, self.field, self.rows)?;
        self.solve(alloc, &identity)
    }

    // The identity matrix.
    fn identity(alloc: Global, field: Field, size: u32) -> Result<Matrix, AllocError>
        requires { size * size ≤ most_entries }
        ensures { IfOk result (λ m. m ≡ plain field size size (identity size)) }
    {
        let count = size as usize;
        let mut entries = vec![in alloc; 0u8; count * count]?;
        put_units(count, count, 0, &mut entries);
        Ok(Matrix {
            field,
            rows: size,
            cols: size,
            entries,
        })
    }
}

// Writes the equations of X · left = right, one for each column, and brings them into reduced row form.
fn reduce_equations(
    field: Field,
    rows: usize,
    cols: usize,
    count: usize,
    left: &[u8],
    right: &[u8],
    wide: &mut [u8],
    pivots: &mut [u32],
) -> usize
    requires small_cols { cols < 2 ^ 32 }
    requires small_width { rows + count < 2 ^ 32 }
    requires left_shape { length left.now ≡ rows * cols }
    requires right_shape { length right.now ≡ count * cols }
    requires wide_shape { length wide.old ≡ cols * (rows + count) }
    requires room { cols ≤ length pivots.old }
    requires left_elements { AreElements field left.now }
    requires right_elements { AreElements field right.now }
    requires elements { AreElements field wide.old }
    ensures equations { AreReducedEquations field rows count cols (rows_of rows cols left.now) (rows_of count cols right.now) (rows_of cols (rows + count) wide.new) pivots.new result }
    ensures elements { AreElements field wide.new }
{
    let width = rows + count;
    put_columns(left, cols, wide, width, 0, rows);
    put_columns(right, cols, wide, width, rows, count);
    echelon_rows(field, cols as u32, width as u32, wide, pivots) as usize
}

// Writes the solution that the first `rank` reduced equations tell over zeros: column `rows` + l of `wide` holds the right sides of row l.
fn read_solution(
    rows: usize,
    count: usize,
    rank: usize,
    wide: &[u8],
    pivots: &[u32],
    entries: &mut [u8],
)
    requires wide_shape { rank * (rows + count) ≤ length wide.now }
    requires shape { length entries.old ≡ count * rows }
    requires room { rank ≤ length pivots.now }
    requires inside { (i : ℕ) → i < rank → slice_index pivots.now i < rows }
    requires ascending { (i k : ℕ) → i < k → k < rank → slice_index pivots.now i < slice_index pivots.now k }
    requires zero { (k : ℕ) → slice_index entries.old k ≡ 0 }
    ensures read { IsReadFrom rows count rank (slice_index pivots.now) (cell (rows + count) wide.now) (cell rows entries.new) }
    ensures elements { (q : Gf) → AreElements q wide.now → AreElements q entries.new }
{
    for i in 0..rank {
        put_column(
            wide,
            i * (rows + count) + rows,
            count,
            entries,
            rows,
            pivots[i] as usize,
        );
    }
}
