//! Matrices of the rows that lines hold.
ghost use Rattle.std.specs.Prelude.{ℕ, ◌≡◌, ◌<◌, ◌≤◌, ◌*◌, length, slice_index, slice_index_or, IfOk, MatchOption, All, true, []};
ghost use Rattle.script_types.specs.Ranges.{IsRow};
ghost use Rattle.script_types.specs.declared.AtLine.{AtLine};
ghost use Rattle.script_answers.specs.Written.{rows_at_name, rows_fit, lines_fit, matrix_or_zero, matrices_at};
ghost use Rattle.written_modules.specs.Lines.{HoldRows, AreSmall};
ghost use Rattle.fp_linear.specs.Matrix.{most_entries};

use fp_linear::{Field, Matrix};
use quiver_paths::Name;
use script_types::AtLine;
use seq::Seq;
use std::alloc::{AllocError, Global};

/// The line at a name: the first that has it.
fn line_at(lines: &Seq<AtLine>, name: &Name) -> Option<usize>
    ensures { MatchOption result
        (rows_at_name lines.now name.now ≡ [])
        (λ j. (j < length lines.now) × ((l : AtLine) → rows_at_name lines.now name.now ≡ (slice_index_or lines.now j l).rows)) }
{
    for j in 0..lines.len() {
        if *name == lines[j].name {
            return Some(j);
        }
    }
    None
}

/// The matrix with these rows; the zero matrix where there is none.
fn matrix_of_rows(
    alloc: Global,
    field: Field,
    rows: u32,
    cols: u32,
    written: &Seq<Seq<u8>>,
) -> Result<Matrix, AllocError>
    requires fit { rows_fit rows cols written.now ≡ true }
    requires entries { All (IsRow field) written.now }
    requires size { rows * cols ≤ most_entries }
    ensures { IfOk result (λ m. m ≡ matrix_or_zero field rows cols written.now) }
{
    if written.is_empty() {
        let zero = Matrix::zero(alloc, field, rows, cols)?;
        return Ok(zero);
    }
    let mut entries = Vec::with_capacity(alloc, rows as usize * cols as usize)?;
    for i in 0..written.len() {
        entries.extend_from_slice(&written[i])?;
    }
    let matrix = Matrix::from_entries(alloc, field, rows, cols, &entries)?;
    Ok(matrix)
}

/// The matrix at a name; the zero matrix where no line has it.
fn matrix_at(
    alloc: Global,
    field: Field,
    rows: u32,
    cols: u32,
    lines: &Seq<AtLine>,
    name: &Name,
) -> Result<Matrix, AllocError>
    requires fit { ¬ (rows_at_name lines.now name.now ≡ []) → rows_fit rows cols (rows_at_name lines.now name.now) ≡ true }
    requires entries { HoldRows field lines.now }
    requires size { rows * cols ≤ most_entries }
    ensures { IfOk result (λ m. m ≡ matrix_or_zero field rows cols (rows_at_name lines.now name.now)) }
{
    let Some(j) = line_at(lines, name) else {
        let zero = Matrix::zero(alloc, field, rows, cols)?;
        return Ok(zero);
    };
    if lines[j].rows.is_empty() {
        let zero = Matrix::zero(alloc, field, rows, cols)?;
        return Ok(zero);
    }
    let matrix = matrix_of_rows(alloc, field, rows, cols, &lines[j].rows)?;
    Ok(matrix)
}

/// The matrices at all names, in their order. That at a name has the rows and columns at its place.
pub(crate) fn written_matrices(
    alloc: Global,
    field: Field,
    names: &Seq<Name>,
    rows: &Seq<u32>,
    cols: &Seq<u32>,
    lines: &Seq<AtLine>,
) -> Result<Seq<Matrix>, AllocError>
    requires rows { length rows.now ≡ length names.now }
    requires cols { length cols.now ≡ length names.now }
    requires row_counts { AreSmall rows.now }
    requires col_counts { AreSmall cols.now }
    requires fit { lines_fit names.now (slice_index rows.now) (slice_index cols.now) lines.now ≡ true }
    requires entries { HoldRows field lines.now }
    ensures { IfOk result (λ matrices. matrices ≡ matrices_at field names.now (slice_index rows.now) (slice_index cols.now) lines.now) }
{
    let mut matrices = Vec::with_capacity(alloc, names.len())?;
    for i in 0..names.len() {
        let matrix = matrix_at(alloc, field, rows[i], cols[i], lines, &names[i])?;
        matrices.push(matrix)?;
    }
    Ok(Seq::from_vec(matrices))
}
