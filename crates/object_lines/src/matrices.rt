//! Reading matrices.
ghost use Rattle.std.specs.Prelude.{ℕ, ◌≡◌, ◌<◌, ◌≤◌, ◌++◌, ◌∷◌, [], List, IfOk, MatchBool, IsTrue, ◌↔◌};
ghost use Rattle.quiver_paths.specs.Quiver.{vertex_count, arrow_count};
ghost use Rattle.fp_linear.specs.Matrix.{PlainMatrix, most_entries};
ghost use Rattle.module_types.specs.Shapes.{HasShape};
ghost use Rattle.header_text.specs.Spelling.{vertex_name, arrow_name};
ghost use Rattle.header_text.specs.Reading.{Reads};
ghost use Rattle.object_lines.specs.Spelling.{matrix_form, at_line};
ghost use Rattle.object_lines.specs.Reading.{slash_before, TakesRow, LacksRow, TakesRows, LacksRows};

use crate::numbers::take_entries;
use fp_linear::{Field, Matrix};
use header_text::{arrow_text, vertex_text};
use quiver_paths::Quiver;
use std::alloc::{AllocError, Global};
use text_lines::Parts;

/// Takes what stands before row i, and says whether it was there.
fn take_slash(i: u32, tokens: &mut Parts<'_>) -> bool
    ensures { MatchBool result (tokens.old ≡ slash_before i ++ tokens.new) ((rest : List (List ℕ)) → ¬ (tokens.old ≡ slash_before i ++ rest)) }
{
    if i == 0 {
        return true;
    }
    tokens.take_word(b"/")
}

/// Takes row i, with what stands before it, and adds its entries; says whether it was there.
fn take_row(
    entries: &mut Vec<u8>,
    i: u32,
    field: Field,
    cols: u32,
    tokens: &mut Parts<'_>,
) -> Result<bool, AllocError>
    ensures { IfOk result (λ b. MatchBool b (TakesRow field i cols entries.old.items entries.new.items tokens.old tokens.new) (LacksRow field i cols tokens.old)) }
{
    if !take_slash(i, tokens) {
        return Ok(false);
    }
    let taken = take_entries(entries, field, cols, tokens)?;
    Ok(taken)
}

/// Takes so many rows, and says whether they were there.
fn take_rows(
    entries: &mut Vec<u8>,
    field: Field,
    rows: u32,
    cols: u32,
    tokens: &mut Parts<'_>,
) -> Result<bool, AllocError>
    requires { entries.old.items ≡ [] }
    ensures { IfOk result (λ b. MatchBool b (TakesRows field rows cols entries.new.items tokens.old tokens.new) (LacksRows field rows cols tokens.old)) }
{
    for i in 0..rows {
        let taken = take_row(entries, i, field, cols, tokens)?;
        if !taken {
            return Ok(false);
        }
    }
    Ok(true)
}

/// Reads a matrix of this shape, which is all that is left: its rows of entries of the field, with a `/` between each two. `Ok(None)`: what is left is no such
/// matrix. `Err`: memory is wanting.
pub fn read_matrix(
    alloc: Global,
    field: Field,
    rows: u32,
    cols: u32,
    tokens: Parts<'_>,
) -> Result<Option<Matrix>, AllocError>
    ensures { IfOk result (λ r. Reads (HasShape field rows cols) (λ (m : PlainMatrix). matrix_form m.rows) tokens.entry r) }
{
    if rows as u64 * cols as u64 > 67_108_864 {
        return Ok(None);
    }
    let mut tokens = tokens;
    let mut entries = Vec::new(alloc);
    let taken = take_rows(&mut entries, field, rows, cols, &mut tokens)?;
    if !taken {
        return Ok(None);
    }
    if !tokens.is_done() {
        return Ok(None);
    }
    let m = Matrix::from_entries(alloc, field, rows, cols, &entries)?;
    Ok(Some(m))
}

/// The matrix of a line that begins with `at` and this name.
fn matrix_at(
    alloc: Global,
    name: &[u8],
    field: Field,
    rows: u32,
    cols: u32,
    tokens: Parts<'_>,
) -> Result<Option<Matrix>, AllocError>
    ensures { IfOk result (λ r. Reads (HasShape field rows cols) (at_line name.now) tokens.entry r) }
{
    let mut tokens = tokens;
    if !tokens.take_word(b"at") {
        return Ok(None);
    }
    if !tokens.take_word(name) {
        return Ok(None);
    }
    let m = read_matrix(alloc, field, rows, cols, tokens)?;
    Ok(m)
}

/// Reads the tokens of the line of the matrix at a vertex, of this shape. `Ok(None)`: they are not those of such a matrix there. `Err`: memory is wanting.
pub fn read_at_vertex(
    alloc: Global,
    quiver: &Quiver,
    vertex: u8,
    field: Field,
    rows: u32,
    cols: u32,
    tokens: Parts<'_>,
) -> Result<Option<Matrix>, AllocError>
    ensures { IfOk result (λ r. Reads (HasShape field rows cols) (at_line (vertex_name quiver.now vertex)) tokens.entry r) }
{
    let m = matrix_at(
        alloc,
        vertex_text(quiver, vertex),
        field,
        rows,
        cols,
        tokens,
    )?;
    Ok(m)
}

/// Reads the tokens of the line of the matrix at an arrow, of this shape. `Ok(None)`: they are not those of such a matrix there. `Err`: memory is wanting.
pub fn read_at_arrow(
    alloc: Global,
    quiver: &Quiver,
    arrow: u8,
    field: Field,
    rows: u32,
    cols: u32,
    tokens: Parts<'_>,
) -> Result<Option<Matrix>, AllocError>
    ensures { IfOk result (λ r. Reads (HasShape field rows cols) (at_line (arrow_name quiver.now arrow)) tokens.entry r) }
{
    let m = matrix_at(alloc, arrow_text(quiver, arrow), field, rows, cols, tokens)?;
    Ok(m)
}
