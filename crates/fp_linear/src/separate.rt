//! Functionals that tell a row from a row space.
ghost use Rattle.std.specs.Prelude.{◌≡◌, ◌≢◌, ◌*◌, ◌<◌, ℕ, List, IfOk, MatchOption, length, slice_index};
ghost use Rattle.linear_algebra.specs.Rows.{rows_of, IsGrid, IsInSpan, SameSpan};
ghost use Rattle.linear_algebra.specs.Reduced.{IsReduced, pivots_of};
ghost use Rattle.linear_algebra.specs.Separators.{IsFunctionalAt, IsSeparated};
ghost use Rattle.fp_linear.specs.Slices.{AreElements};
ghost use Rattle.fp_linear.specs.Matrix.{PlainMatrix};

use crate::clearing::clear_row;
use crate::echelon::echelon_rows;
use crate::field::Field;
use crate::matrix::Matrix;
use std::alloc::{AllocError, Global};

/// `None` where `x` is in the span of the rows. Otherwise a functional that is zero on every row and not zero on `x`: it has 1 in the first column
/// where the remainder of `x` modulo the reduced row form of the rows is not zero, minus the entry there of each row of that form at the row's pivot,
/// and zeros elsewhere.
pub fn separating(alloc: Global, rows: &Matrix, x: &[u8]) -> Result<Option<Vec<u8>>, AllocError>
    requires count { length x.now ≡ rows.now.col_count }
    requires elements { AreElements rows.now.field x.now }
    ensures { IfOk result (λ o. MatchOption o (IsInSpan rows.now.field rows.now.col_count rows.now.rows x.now) (λ y. IsSeparated rows.now.field rows.now.col_count rows.now.rows x.now y.items)) }
{
    let field = rows.field();
    let row_count = rows.rows();
    let col_count = rows.cols();
    let mut entries = rows.entries_in(alloc)?;
    let mut pivots = vec![in alloc; 0u32; row_count as usize]?;
    let rank = echelon_rows(field, row_count, col_count, &mut entries, &mut pivots) as usize;
    let count = rank * col_count as usize;
    let functional = separating_by(alloc, field, &entries[..count], &pivots[..rank], x)?;
    Ok(functional)
}

// The same for rows in reduced row form and their pivots, and so for all rows that have the same combinations.
fn separating_by(
    alloc: Global,
    field: Field,
    rows: &[u8],
    pivots: &[u32],
    x: &[u8],
) -> Result<Option<Vec<u8>>, AllocError>
    requires rows_elements { AreElements field rows.now }
    requires elements { AreElements field x.now }
    requires shape { length rows.now ≡ length pivots.now * length x.now }
    requires reduced { IsReduced (length x.now) (rows_of (length pivots.now) (length x.now) rows.now) }
    requires pivots { pivots.now ≡ pivots_of (rows_of (length pivots.now) (length x.now) rows.now) }
    ensures { IfOk result (λ o. MatchOption o
        (IsInSpan field (length x.now) (rows_of (length pivots.now) (length x.now) rows.now) x.now)
        (λ y. (k : ℕ) (start : List (List ℕ)) → IsGrid field k (length x.now) start → SameSpan field (length x.now) start (rows_of (length pivots.now) (length x.now) rows.now) → IsSeparated field (length x.now) start x.now y.items)) }
{
    let mut rest = Vec::from_slice(alloc, x)?;
    clear_row(field, rows, pivots, &mut rest);
    match first_nonzero(&rest) {
        None => Ok(None),
        Some(column) => {
            let mut functional = vec![in alloc; 0u8; x.len()]?;
            write_functional(field, column, rows, pivots, &mut functional);
            Ok(Some(functional))
        }
    }
}

// The first place of a row that is not zero.
fn first_nonzero(row: &[u8]) -> Option<usize>
    ensures { MatchOption result
        ((j : ℕ) → j < length row.now → slice_index row.now j ≡ 0)
        (λ c. (c < length row.now) × (slice_index row.now c ≢ 0) × ((j : ℕ) → j < c → slice_index row.now j ≡ 0)) }
{
    for j in 0..row.len() {
        if row[j] != 0 {
            return Some(j);
        }
    }
    None
}

// Writes the functional of a column, which is no pivot, over zeros.
fn write_functional(field: Field, column: usize, rows: &[u8], pivots: &[u32], functional: &mut [u8])
    requires elements { AreElements field rows.now }
    requires shape { length rows.now ≡ length pivots.now * length functional.old }
    requires column_inside { column < length functional.old }
    requires reduced { IsReduced (length functional.old) (rows_of (length pivots.now) (length functional.old) rows.now) }
    requires pivots { pivots.now ≡ pivots_of (rows_of (length pivots.now) (length functional.old) rows.now) }
    requires apart { (i : ℕ) → i < length pivots.now → slice_index pivots.now i ≢ column }
    requires zero { (k : ℕ) → slice_index functional.old k ≡ 0 }
    ensures { IsFunctionalAt field (length functional.old) (rows_of (length pivots.now) (length functional.old) rows.now) column functional.new }
{
    let cols = functional.len();
    functional[column] = 1;
    for i in 0..pivots.len() {
        functional[pivots[i] as usize] = field.neg(rows[i * cols + column]);
    }
}
