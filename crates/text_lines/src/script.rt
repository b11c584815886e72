// Lines of a script: blanks, comments and line ends.
ghost use Rattle.std.specs.Prelude.{◌≡◌, ◌<◌, ◌≤◌, ◌↔◌, ℕ, List, ◌∷◌, [], length, IfSome, IfNone, MatchOption, Some};
ghost use Rattle.text_lines.specs.Numerals.{WritesNumber};
ghost use Rattle.std.specs.List.{slice_split, list_all};
ghost use Rattle.text_lines.specs.Script.{is_blank, is_plain, words, without_last, script_bytes, uncommented, script_tokens, number_in};

use super::numerals::digits_value;
use super::parts::cut_at;
use std::marker::Model;

fn is_blank(byte: u8) -> bool
    ensures { result ≡ is_blank byte }
{
    byte == b' ' || byte == b'\t'
}

fn is_plain(byte: u8) -> bool
    ensures { result ≡ is_plain byte }
{
    (byte >= b' ' && byte <= b'~') || byte == b'\t'
}

fn all_plain(bytes: &[u8]) -> bool
    ensures { result ≡ list_all is_plain bytes.now }
{
    bytes.iter().all(|byte| is_plain(*byte))
}

// Cuts the bytes at the first blank, which is left out: what stands before it and what stands after it.
fn cut_at_blank(bytes: &[u8]) -> Option<(&[u8], &[u8])>
    ensures cut { IfSome result (λ x. slice_split is_blank bytes.now ≡ x.0.now ∷ slice_split is_blank x.1.now) }
    ensures shorter { IfSome result (λ x. length x.1.now < length bytes.now) }
    ensures whole { IfNone result (slice_split is_blank bytes.now ≡ bytes.now ∷ []) }
{
    for (i, byte) in bytes.iter().enumerate() {
        if is_blank(*byte) {
            return Some((&bytes[..i], &bytes[i + 1..]));
        }
    }
    None
}

/// The tokens of a line of a script. Contracts see the list of those that are left.
#[derive(Debug, Drop)]
pub struct Words<'a> {
    rest: &'a [u8],
}

impl<'a> Model for Words<'a> {
    ghost use Rattle.std.specs.Prelude.{ℕ, List};
    ghost use Rattle.text_lines.specs.Script.{words};

    ghost Value = { List (List ℕ) };

    ghost view = { λ w. words w.rest.now };
}

impl<'a> Words<'a> {
    /// Takes the next token. None where there is none left.
    pub fn next_word(&mut self) -> Option<&'a [u8]>
        ensures { MatchOption result ((self.old ≡ []) × (self.new ≡ [])) (λ word. self.old ≡ word.now ∷ self.new) }
    {
        while let Some((front, rest)) = cut_at_blank(self.rest) {
            self.rest = rest;
            if !front.is_empty() {
                return Some(front);
            }
        }
        let last = self.rest;
        self.rest = &last[last.len()..];
        if last.is_empty() { None } else { Some(last) }
    }
}

fn without_last(bytes: &[u8], last: u8) -> &[u8]
    ensures { result.now ≡ without_last last bytes.now }
{
    match bytes.split_last() {
        Some((byte, front)) if *byte == last => front,
        _ => bytes,
    }
}

// The line without its line feed and one carriage return before that.
fn script_bytes(line: &[u8]) -> &[u8]
    ensures { result.now ≡ script_bytes line.now }
{
    match line.split_last() {
        Some((byte, front)) if *byte == b'\n' => without_last(front, b'\r'),
        _ => line,
    }
}

// What stands before the comment.
fn uncommented(bytes: &[u8]) -> &[u8]
    ensures { result.now ≡ uncommented bytes.now }
{
    match cut_at(bytes, b'#') {
        Some((code, _)) => code,
        None => bytes,
    }
}

/// The tokens of a line of a script: separated by spaces and tabs, without the comment and the line's end. None where a
/// byte before the comment is not printable ASCII, a space or a tab.
pub fn script_words(line: &[u8]) -> Option<Words<'_>>
    ensures { result ≡ script_tokens line.now }
{
    let code = uncommented(script_bytes(line));
    if all_plain(code) {
        Some(Words { rest: code })
    } else {
        None
    }
}

/// The number that 1 to 10 decimal digits write, zeros in front allowed. None where the bytes are something else.
pub fn script_number(bytes: &[u8]) -> Option<u64>
    ensures { result ≡ number_in bytes.now }
{
    if bytes.len() > 10 {
        return None;
    }
    digits_value(bytes)
}

/// A token is a number of a script exactly where it is 1 to 10 digits that write it.
pub fn script_numbers_are_written()
    ensures { (word : List ℕ) (n : ℕ) → (number_in word ≡ Some n) ↔ (WritesNumber word n × (length word ≤ 10)) }
{}
