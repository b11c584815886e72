//! Products, stacks and transposes.
ghost use Rattle.std.specs.Prelude.{◌≡◌, ◌+◌, ◌*◌, ◌≤◌, ◌++◌, IfOk};
ghost use Rattle.linear_algebra.specs.Rows.{product, transposed};
ghost use Rattle.fp_linear.specs.Matrix.{PlainMatrix, plain, IsMatrix, most_entries};

use crate::blocks::put_columns;
use crate::clearing::multiply_rows;
use crate::matrix::Matrix;
use std::alloc::{AllocError, Global};

impl Matrix {
    /// The product self · other.
    pub fn mul(&self, alloc: Global, other: &Matrix) -> Result<Matrix, AllocError>
        requires field { other.now.field ≡ self.now.field }
        requires shape { other.now.row_count ≡ self.now.col_count }
        requires size { self.now.row_count * other.now.col_count ≤ most_entries }
        ensures { IfOk result (λ m. m ≡ plain self.now.field self.now.row_count other.now.col_count (product self.now.field other.now.col_count self.now.rows other.now.rows)) }
    {
        let rows = self.rows as usize;
        let cols = other.cols as usize;
        let mut entries = vec![in alloc; 0u8; rows * cols]?;
        multiply_rows(
            self.field,
            rows,
            self.cols as usize,
            cols,
            &self.entries,
            &other.entries,
            &mut entries,
        );
        Ok(Matrix {
            field: self.field,
            rows: self.rows,
            cols: other.cols,
            entries,
        })
    }

    /// The rows of this matrix followed by those of `below`.
    pub fn stack(&self, alloc: Global, below: &Matrix) -> Result<Matrix, AllocError>
        requires field { below.now.field ≡ self.now.field }
        requires shape { below.now.col_count ≡ self.now.col_count }
        requires rows { self.now.row_count + below.now.row_count ≤ 4294967295 }
        requires size { (self.now.row_count + below.now.row_count) * self.now.col_count ≤ most_entries }
        ensures { IfOk result (λ m. m ≡ plain self.now.field (self.now.row_count + below.now.row_count) self.now.col_count (self.now.rows ++ below.now.rows)) }
    {
        let mut entries = Vec::with_capacity(alloc, self.entries.len() + below.entries.len())?;
        entries.extend_from_slice(&self.entries)?;
        entries.extend_from_slice(&below.entries)?;
        Ok(Matrix {
            field: self.field,
            rows: self.rows + below.rows,
            cols: self.cols,
            entries,
        })
    }

    /// The transposed matrix.
    pub fn transpose(&self, alloc: Global) -> Result<Matrix, AllocError>
        ensures { IfOk result (λ m. m ≡ plain self.now.field self.now.col_count self.now.row_count (transposed self.now.row_count self.now.col_count self.now.rows)) }
    {
        let rows = self.rows as usize;
        let cols = self.cols as usize;
        let mut entries = vec![in alloc; 0u8; rows * cols]?;
        put_columns(&self.entries, cols, &mut entries, rows, 0, rows);
        Ok(Matrix {
            field: self.field,
            rows: self.cols,
            cols: self.rows,
            entries,
        })
    }
}
