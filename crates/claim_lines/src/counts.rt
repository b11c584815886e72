//! Reading numbers and numerals.
ghost use Rattle.std.specs.Prelude.{ℕ, ◌≡◌, ◌<◌, ◌≤◌, ◌∷◌, [], ◌↔◌, List, length, slice_index, IsTrue, MatchOption, decimal};
ghost use Rattle.std.specs.Str.Parse.{AllDigits};
ghost use Rattle.linear_algebra.specs.Field.{order};
ghost use Rattle.path_algebra.specs.Derivations.{IsNumber};
ghost use Rattle.report_types.specs.Limits.{IsLine, path_limit};
ghost use Rattle.header_text.specs.Reading.{Reads, ReadsFirst};
ghost use Rattle.claim_lines.specs.Items.{IsCount, counted};
ghost use Rattle.claim_lines.specs.Spelling.{words_line};
ghost use Rattle.claim_lines.specs.Reading.{ReadsCount};

use fp_linear::Field;
use header_text::only_number;
use text_lines::{Parts, digits_value};

/// Whether all bytes are decimal digits.
fn are_digits(bytes: &[u8]) -> bool
    ensures { IsTrue result ↔ AllDigits 10 bytes.now }
{
    for byte in bytes {
        if !byte.is_ascii_digit() {
            return false;
        }
    }
    true
}

/// Whether the bytes are a numeral, of a number of any size.
fn is_numeral(bytes: &[u8]) -> bool
    ensures yes_if { IsTrue result → IsCount bytes.now }
    ensures only_if { IsCount bytes.now → IsTrue result }
{
    if bytes.is_empty() || (bytes.len() > 1 && bytes[0] == b'0') {
        return false;
    }
    are_digits(bytes)
}

/// The number that a numeral writes, and 2^32 for every larger one.
fn numeral_value(bytes: &[u8]) -> u64
    requires { IsCount bytes.now }
    ensures { result ≡ counted bytes.now }
{
    match digits_value(bytes) {
        Some(n) if n < 4_294_967_296 => n,
        _ => 4_294_967_296,
    }
}

/// Reads a count: the numeral that is all that is left of a line. The answer is its number, and 2^32 for every larger one.
/// `None`: what is left is no numeral, or more than one token.
pub fn only_count(tokens: Parts<'_>) -> Option<u64>
    ensures { ReadsCount tokens.entry result }
{
    let mut tokens = tokens;
    let Some(numeral) = tokens.next_part() else {
        return None;
    };
    if tokens.next_part().is_some() || !is_numeral(numeral) {
        return None;
    }
    Some(numeral_value(numeral))
}

/// The number from 1 to `last` that is all that is left.
pub(crate) fn only_place(tokens: Parts<'_>, last: u32) -> Option<u32>
    ensures { Reads (IsNumber last) (λ (n : ℕ). decimal n ∷ []) tokens.entry result }
{
    let Some(n) = only_number(tokens, last as u64) else {
        return None;
    };
    if n == 0 {
        return None;
    }
    Some(n as u32)
}

/// The number from 1 to `last` that is the next token.
pub(crate) fn next_place(tokens: &mut Parts<'_>, last: u32) -> Option<u32>
    ensures { ReadsFirst (IsNumber last) (λ (n : ℕ). decimal n ∷ []) tokens.old tokens.new result }
{
    let Some(n) = tokens.take_numeral(last as u64) else {
        return None;
    };
    if n == 0 {
        return None;
    }
    Some(n as u32)
}

/// The line of a script whose number is the next token.
pub(crate) fn next_line(tokens: &mut Parts<'_>) -> Option<u32>
    ensures { ReadsFirst IsLine (λ (n : ℕ). decimal n ∷ []) tokens.old tokens.new result }
{
    let Some(n) = tokens.take_numeral(4_194_304) else {
        return None;
    };
    if n == 0 {
        return None;
    }
    Some(n as u32)
}

/// The coefficient, from 1 to the field's size less 1, that is the next token.
pub(crate) fn next_factor(field: Field, tokens: &mut Parts<'_>) -> Option<u8>
    ensures { ReadsFirst (λ (c : ℕ). (0 < c) × (c < order field)) (λ (c : ℕ). decimal c ∷ []) tokens.old tokens.new result }
{
    let Some(n) = tokens.take_numeral(field.size() as u64 - 1) else {
        return None;
    };
    if n == 0 {
        return None;
    }
    Some(n as u8)
}
