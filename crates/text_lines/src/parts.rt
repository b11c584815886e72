// Bytes cut at one byte.
ghost use Rattle.std.specs.Prelude.{◌≡◌, ◌≢◌, ℕ, List, [], ◌∷◌, ◌++◌, ◌≤◌, All, decimal, IfSome, IfNone, MatchOption, MatchBool, IsTrue, ◌↔◌};
ghost use Rattle.text_lines.specs.Parts.{parts, joined, Lacks};

use super::numerals::read_numeral;
use std::marker::Model;

/// Cuts the bytes at the first byte `at`: what stands before it and what stands after it. None where there is none.
pub fn cut_at(bytes: &[u8], at: u8) -> Option<(&[u8], &[u8])>
    ensures cut { IfSome result (λ x. (bytes.now ≡ x.0.now ++ at ∷ x.1.now) × Lacks at x.0.now) }
    ensures whole { IfNone result (Lacks at bytes.now) }
{
    for (i, byte) in bytes.iter().enumerate() {
        if *byte == at {
            return Some((&bytes[..i], &bytes[i + 1..]));
        }
    }
    None
}

/// The parts of bytes that are cut at each byte of one kind. Contracts see the list of those that are left.
#[derive(Debug, Drop)]
pub struct Parts<'a> {
    rest: &'a [u8],
    at: u8,
    is_done: bool,
}

impl<'a> Model for Parts<'a> {
    ghost use Rattle.std.specs.Prelude.{ℕ, List, [], if◌then◌else◌};
    ghost use Rattle.text_lines.specs.Parts.{parts};

    ghost Value = { List (List ℕ) };

    ghost view = { λ p. if p.is_done then [] else parts p.at p.rest.now };
}

impl<'a> Parts<'a> {
    /// The parts of these bytes, cut at each byte `at`.
    pub fn of(bytes: &'a [u8], at: u8) -> Parts<'a>
        ensures { result ≡ parts at bytes.now }
    {
        Parts {
            rest: bytes,
            at,
            is_done: false,
        }
    }

    /// Takes the next part. None where there is none left.
    pub fn next_part(&mut self) -> Option<&'a [u8]>
        ensures { MatchOption result ((self.old ≡ []) × (self.new ≡ [])) (λ part. self.old ≡ part.now ∷ self.new) }
    {
        if self.is_done {
            return None;
        }
        match cut_at(self.rest, self.at) {
            Some((part, rest)) => {
                self.rest = rest;
                Some(part)
            }
            None => {
                self.is_done = true;
                Some(self.rest)
            }
        }
    }

    /// Takes the next part, and says whether it was this word. The part is gone either way.
    pub fn take_word(&mut self, word: &[u8]) -> bool
        ensures { MatchBool result (self.old ≡ word.now ∷ self.new) ((rest : List (List ℕ)) → ¬ (self.old ≡ word.now ∷ rest)) }
    {
        match self.next_part() {
            Some(part) => part == word,
            None => false,
        }
    }

    /// Takes the next part, and answers the number if it was the numeral of one up to `most`. The part is gone either way.
    pub fn take_numeral(&mut self, most: u64) -> Option<u64>
        ensures within { IfSome result (λ n. n ≤ most) }
        ensures taken { IfSome result (λ n. self.old ≡ decimal n ∷ self.new) }
        ensures none { IfNone result ((n : ℕ) (rest : List (List ℕ)) → n ≤ most → ¬ (self.old ≡ decimal n ∷ rest)) }
    {
        let part = self.next_part()?;
        read_numeral(part, most)
    }

    /// Whether no part is left.
    pub fn is_done(&self) -> bool
        ensures { IsTrue result ↔ (self.now ≡ []) }
    {
        self.is_done
    }
}

/// The parts of any bytes, joined, are the bytes.
pub fn joined_parts()
    ensures { (c : ℕ) (bytes : List ℕ) → joined c (parts c bytes) ≡ bytes }
{}

/// Parts without the byte at which they are joined, at least one, are the parts of what they are joined to.
pub fn parts_joined()
    ensures { (c : ℕ) (pieces : List (List ℕ)) → pieces ≢ [] → All (Lacks c) pieces → parts c (joined c pieces) ≡ pieces }
{}
