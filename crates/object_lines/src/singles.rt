//! Reading the single lines of local claims and of sequences.
ghost use Rattle.std.specs.Prelude.{ℕ, ◌≡◌, ◌≤◌, ◌∷◌, [], decimal, IsTrue, ◌↔◌};
ghost use Rattle.path_algebra.specs.Derivations.{IsNumber};
ghost use Rattle.claim_conditions.specs.declared.Residue.{Residue as ResidueView};
ghost use Rattle.report_types.specs.Limits.{power_limit};
ghost use Rattle.header_text.specs.Reading.{Reads};
ghost use Rattle.object_lines.specs.Spelling.{ideal_line, power_line, residue_word, residue_line, left_line, middle_line};

use crate::numbers::only_place;
use claim_conditions::Residue;
use header_text::only_number;
use text_lines::Parts;

/// Reads the tokens of the line that says of how many rows an ideal is, at most `most`. `None`: they are not those of such a line.
pub fn read_ideal(most: u32, tokens: Parts<'_>) -> Option<u32>
    ensures { Reads (λ (n : ℕ). n ≤ most) ideal_line tokens.entry result }
{
    let mut tokens = tokens;
    if !tokens.take_word(b"ideal") {
        return None;
    }
    let Some(n) = only_number(tokens, most as u64) else {
        return None;
    };
    Some(n as u32)
}

/// Reads the tokens of the line that says which power of an ideal is zero, from 1 to 256. `None`: they are not those of such a line.
pub fn read_power(tokens: Parts<'_>) -> Option<u32>
    ensures { Reads (IsNumber power_limit) power_line tokens.entry result }
{
    let mut tokens = tokens;
    if !tokens.take_word(b"power") {
        return None;
    }
    let Some(n) = only_place(tokens, 256) else {
        return None;
    };
    Some(n)
}

/// The form of a residue ring whose word is all that is left.
fn only_residue(tokens: Parts<'_>) -> Option<Residue>
    ensures { Reads (λ (r : ResidueView). Unit {0}) (λ (r : ResidueView). residue_word r ∷ []) tokens.entry result }
{
    let mut tokens = tokens;
    let Some(word) = tokens.next_part() else {
        return None;
    };
    if tokens.next_part().is_some() {
        return None;
    }
    if word == b"frobenius".as_slice() {
        return Some(Residue::Frobenius);
    }
    if word == b"listed".as_slice() {
        return Some(Residue::Listed);
    }
    None
}

/// Reads the tokens of the line of the form of a residue ring. `None`: they are not those of such a line.
pub fn read_residue(tokens: Parts<'_>) -> Option<Residue>
    ensures { Reads (λ (r : ResidueView). Unit {0}) residue_line tokens.entry result }
{
    let mut tokens = tokens;
    if !tokens.take_word(b"residue") {
        return None;
    }
    let Some(residue) = only_residue(tokens) else {
        return None;
    };
    Some(residue)
}

/// Whether the tokens are those of the line before the matrices of the left end of a sequence.
pub fn is_left(tokens: Parts<'_>) -> bool
    ensures { IsTrue result ↔ (tokens.entry ≡ left_line) }
{
    let mut tokens = tokens;
    tokens.take_word(b"left") && tokens.is_done()
}

/// Whether the tokens are those of the line before the matrices of the middle of a sequence.
pub fn is_middle(tokens: Parts<'_>) -> bool
    ensures { IsTrue result ↔ (tokens.entry ≡ middle_line) }
{
    let mut tokens = tokens;
    tokens.take_word(b"middle") && tokens.is_done()
}
