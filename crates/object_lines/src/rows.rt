//! Reading rows.
ghost use Rattle.std.specs.Prelude.{ℕ, ◌≡◌, ◌∷◌, List, IfOk, MatchBool};
ghost use Rattle.linear_algebra.specs.Rows.{IsRow};
ghost use Rattle.header_text.specs.Reading.{Reads};
ghost use Rattle.object_lines.specs.Spelling.{numbers_form, row_line, gen_line};
ghost use Rattle.object_lines.specs.Reading.{AddsRow};

use crate::numbers::take_entries;
use fp_linear::Field;
use seq::Seq;
use std::alloc::{AllocError, Global};
use text_lines::Parts;

/// Adds the entries of a row that is all that is left behind those that are there, and says whether it was.
fn add_entries(
    entries: &mut Vec<u8>,
    field: Field,
    width: u32,
    tokens: Parts<'_>,
) -> Result<bool, AllocError>
    ensures { IfOk result (λ b. MatchBool b (AddsRow field width numbers_form entries.old.items entries.new.items tokens.entry) ((row : List ℕ) → IsRow field width row → ¬ (tokens.entry ≡ numbers_form row))) }
{
    let mut tokens = tokens;
    let taken = take_entries(entries, field, width, &mut tokens)?;
    if !taken {
        return Ok(false);
    }
    if !tokens.is_done() {
        return Ok(false);
    }
    Ok(true)
}

/// The same of a line that begins with a word.
fn add_row(
    entries: &mut Vec<u8>,
    word: &[u8],
    field: Field,
    width: u32,
    tokens: Parts<'_>,
) -> Result<bool, AllocError>
    ensures { IfOk result (λ b. MatchBool b (AddsRow field width (λ (row : List ℕ). word.now ∷ numbers_form row) entries.old.items entries.new.items tokens.entry) ((row : List ℕ) → IsRow field width row → ¬ (tokens.entry ≡ word.now ∷ numbers_form row))) }
{
    let mut tokens = tokens;
    if !tokens.take_word(word) {
        return Ok(false);
    }
    let added = add_entries(entries, field, width, tokens)?;
    Ok(added)
}

/// The row of a line that begins with a word.
fn row_of(
    alloc: Global,
    word: &[u8],
    field: Field,
    width: u32,
    tokens: Parts<'_>,
) -> Result<Option<Seq<u8>>, AllocError>
    ensures { IfOk result (λ r. Reads (IsRow field width) (λ (row : List ℕ). word.now ∷ numbers_form row) tokens.entry r) }
{
    let mut entries = Vec::new(alloc);
    let added = add_row(&mut entries, word, field, width, tokens)?;
    if !added {
        return Ok(None);
    }
    Ok(Some(Seq::from_vec(entries)))
}

/// Reads the tokens of the line of a row of a matrix, and adds its entries, exactly `width`, behind those of the rows before it. `Ok(false)`: they are
/// not those of such a row; some entries may then have been added. `Err`: memory is wanting.
pub fn add_row_line(
    entries: &mut Vec<u8>,
    field: Field,
    width: u32,
    tokens: Parts<'_>,
) -> Result<bool, AllocError>
    ensures { IfOk result (λ b. MatchBool b (AddsRow field width row_line entries.old.items entries.new.items tokens.entry) ((row : List ℕ) → IsRow field width row → ¬ (tokens.entry ≡ row_line row))) }
{
    let added = add_row(entries, b"row", field, width, tokens)?;
    Ok(added)
}

/// Reads the tokens of the line of the row that a generator goes to. `Ok(None)`: they are not those of such a row. `Err`: memory is wanting.
pub fn read_gen(
    alloc: Global,
    field: Field,
    width: u32,
    tokens: Parts<'_>,
) -> Result<Option<Seq<u8>>, AllocError>
    ensures { IfOk result (λ r. Reads (IsRow field width) gen_line tokens.entry r) }
{
    let row = row_of(alloc, b"gen", field, width, tokens)?;
    Ok(row)
}
