//! Taking numbers, entries and vertices from the tokens of a line.
ghost use Rattle.std.specs.Prelude.{ℕ, ◌≡◌, ◌<◌, ◌≤◌, ◌∷◌, [], ◌^◌, ◌++◌, List, length, decimal, IfOk, MatchBool};
ghost use Rattle.linear_algebra.specs.Field.{order};
ghost use Rattle.path_algebra.specs.Derivations.{IsNumber};
ghost use Rattle.quiver_paths.specs.Quiver.{vertex_count};
ghost use Rattle.header_text.specs.Reading.{Reads, ReadsFirst};
ghost use Rattle.header_text.specs.Spelling.{vertex_name};
ghost use Rattle.object_lines.specs.Spelling.{numbers_form};
ghost use Rattle.object_lines.specs.Items.{AreNumbers};
ghost use Rattle.object_lines.specs.Reading.{Takes, BeginsOtherwise, IsElement, IsAtMost, IsVertex};

use fp_linear::Field;
use header_text::{only_number, vertex_place};
use quiver_paths::Quiver;
use seq::Seq;
use std::alloc::{AllocError, Global};
use text_lines::Parts;

/// Takes the next token if it is the numeral of this number, and says whether it was.
fn take_number(tokens: &mut Parts<'_>, n: u64) -> bool
    ensures { MatchBool result (tokens.old ≡ decimal n ∷ tokens.new) ((rest : List (List ℕ)) → ¬ (tokens.old ≡ decimal n ∷ rest)) }
{
    let Some(found) = tokens.take_numeral(n) else {
        return false;
    };
    found == n
}

/// Takes a word and the numeral of a number, and says whether they were there.
pub(crate) fn take_word_and_number(tokens: &mut Parts<'_>, word: &[u8], k: u32) -> bool
    ensures { MatchBool result (tokens.old ≡ word.now ∷ decimal k ∷ tokens.new) ((rest : List (List ℕ)) → ¬ (tokens.old ≡ word.now ∷ decimal k ∷ rest)) }
{
    if !tokens.take_word(word) {
        return false;
    }
    take_number(tokens, k as u64)
}

/// The number from 1 to `last` that is the next token.
pub(crate) fn next_place(tokens: &mut Parts<'_>, last: u32) -> Option<u32>
    ensures { ReadsFirst (IsNumber last) (λ (n : ℕ). decimal n ∷ []) tokens.old tokens.new result }
{
    let Some(n) = tokens.take_numeral(last as u64) else {
        return None;
    };
    if n == 0 {
        return None;
    }
    Some(n as u32)
}

/// The number from 1 to `last` that is all that is left.
pub(crate) fn only_place(tokens: Parts<'_>, last: u32) -> Option<u32>
    ensures { Reads (IsNumber last) (λ (n : ℕ). decimal n ∷ []) tokens.entry result }
{
    let Some(n) = only_number(tokens, last as u64) else {
        return None;
    };
    if n == 0 {
        return None;
    }
    Some(n as u32)
}

/// The element of the field that is the next token.
fn next_entry(field: Field, tokens: &mut Parts<'_>) -> Option<u8>
    ensures { ReadsFirst (IsElement field) (λ (e : ℕ). decimal e ∷ []) tokens.old tokens.new result }
{
    let Some(n) = tokens.take_numeral(field.size() as u64 - 1) else {
        return None;
    };
    Some(n as u8)
}

/// The number up to `most` that is the next token.
fn next_number(most: u32, tokens: &mut Parts<'_>) -> Option<u32>
    ensures { ReadsFirst (IsAtMost most) (λ (n : ℕ). decimal n ∷ []) tokens.old tokens.new result }
{
    let Some(n) = tokens.take_numeral(most as u64) else {
        return None;
    };
    Some(n as u32)
}

/// The vertex whose name is the next token.
fn next_vertex(quiver: &Quiver, tokens: &mut Parts<'_>) -> Option<u8>
    requires { vertex_count quiver.now ≤ 32 }
    ensures { ReadsFirst (IsVertex quiver.now) (λ (v : ℕ). vertex_name quiver.now v ∷ []) tokens.old tokens.new result }
{
    let Some(name) = tokens.next_part() else {
        return None;
    };
    vertex_place(quiver, name)
}

/// Takes so many entries, each an element of the field, behind those that are there. `Ok(false)`: the next tokens are not so many; some may then have been taken.
/// `Err`: memory is wanting.
pub fn take_entries(
    entries: &mut Vec<u8>,
    field: Field,
    count: u32,
    tokens: &mut Parts<'_>,
) -> Result<bool, AllocError>
    ensures { IfOk result (λ b. MatchBool b (Takes decimal (IsElement field) count entries.old.items entries.new.items tokens.old tokens.new) (BeginsOtherwise decimal (IsElement field) count tokens.old)) }
{
    for _taken in 0..count {
        let Some(entry) = next_entry(field, tokens) else {
            return Ok(false);
        };
        entries.push(entry)?;
    }
    Ok(true)
}

/// Takes so many numbers behind those that are there, each at most `most`, and says whether they were.
fn take_numbers(
    numbers: &mut Seq<u32>,
    most: u32,
    count: usize,
    tokens: &mut Parts<'_>,
) -> Result<bool, AllocError>
    ensures { IfOk result (λ b. MatchBool b (Takes decimal (IsAtMost most) count numbers.old numbers.new tokens.old tokens.new) (BeginsOtherwise decimal (IsAtMost most) count tokens.old)) }
{
    for _taken in 0..count {
        let Some(n) = next_number(most, tokens) else {
            return Ok(false);
        };
        numbers.push(n)?;
    }
    Ok(true)
}

/// Takes so many vertices by their names behind those that are there, and says whether they were.
pub(crate) fn take_vertices(
    vertices: &mut Seq<u8>,
    quiver: &Quiver,
    count: u64,
    tokens: &mut Parts<'_>,
) -> Result<bool, AllocError>
    requires { vertex_count quiver.now ≤ 32 }
    ensures { IfOk result (λ b. MatchBool b (Takes (vertex_name quiver.now) (IsVertex quiver.now) count vertices.old vertices.new tokens.old tokens.new) (BeginsOtherwise (vertex_name quiver.now) (IsVertex quiver.now) count tokens.old)) }
{
    for _taken in 0..count {
        let Some(vertex) = next_vertex(quiver, tokens) else {
            return Ok(false);
        };
        vertices.push(vertex)?;
    }
    Ok(true)
}

/// Reads numbers, each at most `most`: so many, and they are all that is left. `Ok(None)`: what is left is something else. `Err`: memory is wanting.
pub fn read_numbers(
    alloc: Global,
    most: u32,
    count: usize,
    tokens: Parts<'_>,
) -> Result<Option<Seq<u32>>, AllocError>
    ensures { IfOk result (λ r. Reads (AreNumbers most count) numbers_form tokens.entry r) }
{
    let mut tokens = tokens;
    let mut numbers = Seq::new(alloc);
    let taken = take_numbers(&mut numbers, most, count, &mut tokens)?;
    if !taken {
        return Ok(None);
    }
    if !tokens.is_done() {
        return Ok(None);
    }
    Ok(Some(numbers))
}
