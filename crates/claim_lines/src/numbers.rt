//! Reading several numbers in a row.
ghost use Rattle.std.specs.Prelude.{ℕ, ◌≡◌, ◌≤◌, ◌∷◌, [], List, codes, decimal};
ghost use Rattle.path_algebra.specs.Derivations.{IsNumber};
ghost use Rattle.header_text.specs.Reading.{Reads, ReadsFirst};

use crate::counts::{next_place, only_place};
use header_text::only_number;
use text_lines::Parts;

/// The number up to `most` that is the next token.
pub(crate) fn next_number(tokens: &mut Parts<'_>, most: u32) -> Option<u32>
    ensures { ReadsFirst (λ (n : ℕ). n ≤ most) (λ (n : ℕ). decimal n ∷ []) tokens.old tokens.new result }
{
    let Some(n) = tokens.take_numeral(most as u64) else {
        return None;
    };
    Some(n as u32)
}

/// The number up to `most` that is all that is left.
pub(crate) fn only_up_to(tokens: Parts<'_>, most: u32) -> Option<u32>
    ensures { Reads (λ (n : ℕ). n ≤ most) (λ (n : ℕ). decimal n ∷ []) tokens.entry result }
{
    let Some(n) = only_number(tokens, most as u64) else {
        return None;
    };
    Some(n as u32)
}

/// The numbers from 1 to `first` and to `second` that are the next two tokens.
pub(crate) fn next_two(tokens: &mut Parts<'_>, first: u32, second: u32) -> Option<(u32, u32)>
    ensures { ReadsFirst (λ (x : ℕ × ℕ). IsNumber first x.0 × IsNumber second x.1) (λ (x : ℕ × ℕ). decimal x.0 ∷ decimal x.1 ∷ []) tokens.old tokens.new result }
{
    let Some(a) = next_place(tokens, first) else {
        return None;
    };
    let Some(b) = next_place(tokens, second) else {
        return None;
    };
    Some((a, b))
}

/// The numbers from 1 to `first` and to `second` that are all that is left.
pub(crate) fn only_two(tokens: Parts<'_>, first: u32, second: u32) -> Option<(u32, u32)>
    ensures { Reads (λ (x : ℕ × ℕ). IsNumber first x.0 × IsNumber second x.1) (λ (x : ℕ × ℕ). decimal x.0 ∷ decimal x.1 ∷ []) tokens.entry result }
{
    let mut tokens = tokens;
    let Some(a) = next_place(&mut tokens, first) else {
        return None;
    };
    let Some(b) = only_place(tokens, second) else {
        return None;
    };
    Some((a, b))
}

/// The numbers from 1 to each of `first`, `second` and `third` that are all that is left.
pub(crate) fn only_three(
    tokens: Parts<'_>,
    first: u32,
    second: u32,
    third: u32,
) -> Option<(u32, u32, u32)>
    ensures { Reads (λ (x : ℕ × ℕ × ℕ). IsNumber first x.0 × IsNumber second x.1 × IsNumber third x.2) (λ (x : ℕ × ℕ × ℕ). decimal x.0 ∷ decimal x.1 ∷ decimal x.2 ∷ [])
        tokens.entry result }
{
    let mut tokens = tokens;
    let Some(a) = next_place(&mut tokens, first) else {
        return None;
    };
    let Some((b, c)) = only_two(tokens, second, third) else {
        return None;
    };
    Some((a, b, c))
}

/// The number of an earlier claim that, behind `using`, is all that is left.
pub(crate) fn only_using(tokens: Parts<'_>, last: u32) -> Option<u32>
    ensures { Reads (IsNumber last) (λ (n : ℕ). codes "using" ∷ decimal n ∷ []) tokens.entry result }
{
    let mut tokens = tokens;
    if !tokens.take_word(b"using") {
        return None;
    }
    only_place(tokens, last)
}

/// The numbers of two earlier claims that, behind `using`, are all that is left.
pub(crate) fn only_using_two(tokens: Parts<'_>, last: u32) -> Option<(u32, u32)>
    ensures { Reads (λ (x : ℕ × ℕ). IsNumber last x.0 × IsNumber last x.1) (λ (x : ℕ × ℕ). codes "using" ∷ decimal x.0 ∷ decimal x.1 ∷ []) tokens.entry result }
{
    let mut tokens = tokens;
    if !tokens.take_word(b"using") {
        return None;
    }
    only_two(tokens, last, last)
}
