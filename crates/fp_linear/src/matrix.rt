//! Matrices.
ghost use Rattle.std.specs.Prelude.{◌≡◌, ◌*◌, ◌<◌, ◌≤◌, IfOk, length, slice_index_or, []};
ghost use Rattle.std.specs.Cmp.{decided, partial_equiv_from_equiv};
ghost use Rattle.linear_algebra.specs.Field.{order};
ghost use Rattle.linear_algebra.specs.Rows.{rows_of};
ghost use Rattle.linear_algebra.specs.Reduced.{ReducesTo};
ghost use Rattle.fp_linear.specs.Slices.{AreElements};
ghost use Rattle.fp_linear.specs.Matrix.{PlainMatrix, plain, IsMatrix, most_entries, zero_rows};
ghost use Rattle.fp_linear.specs.Equality.{same_matrix, same_matrix-decides};

mod arithmetic;
mod kernel;
mod solve;

use crate::echelon::echelon_rows;
use crate::field::Field;
use std::alloc::{AllocError, Global};
use std::marker::Model;

/// A matrix over a field of the table, of at most 67,108,864 entries. It acts on rows from the right.
#[derive(Debug, Drop)]
pub struct Matrix {
    field: Field,
    rows: u32,
    cols: u32,
    entries: Vec<u8>,
}

impl Model for Matrix {
    ghost use Rattle.linear_algebra.specs.Rows.{rows_of};
    ghost use Rattle.fp_linear.specs.Matrix.{PlainMatrix, plain, HoldsMatrix};

    ghost Value = { PlainMatrix };

    ghost view = { λ m. plain m.field m.rows m.cols (rows_of m.rows m.cols m.entries.items) };

    ghost invariant = { λ m. HoldsMatrix m.field m.rows m.cols m.entries.items };
}

impl Clone for Matrix {
    ghost is_clone = { λ m copy. copy ≡ m };

    fn clone(&self) -> Result<Self, AllocError> {
        let entries = self.entries.clone()?;
        Ok(Matrix {
            field: self.field,
            rows: self.rows,
            cols: self.cols,
            entries,
        })
    }
}

impl PartialEq for Matrix {
    ghost eq = { same_matrix };

    ghost laws = { partial_equiv_from_equiv (decided same_matrix same_matrix-decides) };

    fn eq(&self, other: &Self) -> bool {
        self.field == other.field
            && self.rows == other.rows
            && self.cols == other.cols
            && self.entries == other.entries
    }
}

impl Eq for Matrix {
    ghost laws = { decided same_matrix same_matrix-decides };
}

impl Matrix {
    /// The matrix of zeros.
    pub fn zero(alloc: Global, field: Field, rows: u32, cols: u32) -> Result<Matrix, AllocError>
        requires { rows * cols ≤ most_entries }
        ensures { IfOk result (λ m. m ≡ plain field rows cols (zero_rows rows cols)) }
    {
        let entries = vec![in alloc; 0u8; rows as usize * cols as usize]?;
        Ok(Matrix {
            field,
            rows,
            cols,
            entries,
        })
    }

    /// The matrix that has these entries, row by row.
    pub fn from_entries(
        alloc: Global,
        field: Field,
        rows: u32,
        cols: u32,
        entries: &[u8],
    ) -> Result<Matrix, AllocError>
        requires size { rows * cols ≤ most_entries }
        requires count { length entries.now ≡ rows * cols }
        requires elements { AreElements field entries.now }
        ensures { IfOk result (λ m. m ≡ plain field rows cols (rows_of rows cols entries.now)) }
    {
        let entries = Vec::from_slice(alloc, entries)?;
        Ok(Matrix {
            field,
            rows,
            cols,
            entries,
        })
    }

    /// The entries row by row, in memory of their own.
    pub(crate) fn entries_in(&self, alloc: Global) -> Result<Vec<u8>, AllocError>
        ensures count { IfOk result (λ v. length v.items ≡ self.now.row_count * self.now.col_count) }
        ensures elements { IfOk result (λ v. AreElements self.now.field v.items) }
        ensures rows { IfOk result (λ v. rows_of self.now.row_count self.now.col_count v.items ≡ self.now.rows) }
    {
        Vec::from_slice(alloc, &self.entries)
    }

    /// The field of the entries.
    pub fn field(&self) -> Field
        ensures field { result ≡ self.now.field }
        ensures matrix { IsMatrix self.now }
    {
        self.field
    }

    /// The number of rows.
    pub fn rows(&self) -> u32
        ensures count { result ≡ self.now.row_count }
        ensures matrix { IsMatrix self.now }
    {
        self.rows
    }

    /// The number of columns.
    pub fn cols(&self) -> u32
        ensures count { result ≡ self.now.col_count }
        ensures matrix { IsMatrix self.now }
    {
        self.cols
    }

    /// The entries of row `i`, counted from 0.
    pub fn row(&self, i: u32) -> &[u8]
        requires { i < self.now.row_count }
        ensures row { result.now ≡ slice_index_or self.now.rows i [] }
        ensures matrix { IsMatrix self.now }
    {
        let cols = self.cols as usize;
        let start = i as usize * cols;
        let end = start + cols;
        &self.entries[start..end]
    }
}

/// Brings the matrix into reduced row form and answers its rank: the first rank rows are then the reduced row form of the same row space, the
/// others are zero, and the first rank places of `pivots` are the pivot columns.
pub fn echelon_in_place(m: &mut Matrix, pivots: &mut [u32]) -> u32
    requires { m.old.row_count ≤ length pivots.old }
    ensures shape { m.new ≡ record m.old { rows = m.new.rows } }
    ensures matrix { IsMatrix m.new }
    ensures form { ReducesTo m.old.field m.old.col_count m.old.rows m.new.rows pivots.new result }
{
    echelon_rows(m.field, m.rows, m.cols, &mut m.entries, pivots)
}
