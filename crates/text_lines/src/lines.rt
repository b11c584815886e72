// Texts cut into lines.
ghost use Rattle.std.specs.Prelude.{◌≡◌, ◌≢◌, ℕ, ◌<◌, List, [], ◌∷◌, ◌++◌, length, All, Some, IfSome, IfNone};
ghost use Rattle.std.specs.List.{concat};
ghost use Rattle.text_lines.specs.Parts.{Lacks};
ghost use Rattle.text_lines.specs.Strict.{strict_tokens, strict_line};
ghost use Rattle.text_lines.specs.Lines.{lines, ended};

use super::parts::{Parts, cut_at};

/// Cuts the first line, with its line feed if it has one, from a text that is not empty.
pub fn first_line(text: &[u8]) -> (&[u8], &[u8])
    requires { 0 < length text.now }
    ensures whole { text.now ≡ result.0.now ++ result.1.now }
    ensures first { lines text.now ≡ result.0.now ∷ lines result.1.now }
    ensures some { 0 < length result.0.now }
{
    match cut_at(text, b'\n') {
        Some((front, _)) => text.split_at(front.len() + 1),
        None => text.split_at(text.len()),
    }
}

/// The line without its line feed. None where it does not end with one.
pub fn without_feed(line: &[u8]) -> Option<&[u8]>
    ensures found { IfSome result (λ bytes. line.now ≡ ended bytes.now) }
    ensures none { IfNone result ((bytes : List ℕ) → ¬ (line.now ≡ ended bytes)) }
{
    let (last, bytes) = line.split_last()?;
    if *last == b'\n' { Some(bytes) } else { None }
}

/// The tokens of a line in the strict form: separated by single spaces, with one line feed behind them. None where the
/// line does not end with a line feed.
pub fn strict_tokens(line: &[u8]) -> Option<Parts<'_>>
    ensures { result ≡ strict_tokens line.now }
{
    let bytes = without_feed(line)?;
    Some(Parts::of(bytes, b' '))
}

/// A text is its lines in a row, and its first line ends at its first line feed.
pub fn text_of_lines()
    ensures whole { (text : List ℕ) → concat (lines text) ≡ text }
    ensures first { (bytes rest : List ℕ) → Lacks 10 bytes → lines (ended bytes ++ rest) ≡ ended bytes ∷ lines rest }
{}

/// A line that has tokens in the strict form is the strict line of them, and tokens without spaces, at least one, are
/// those of their strict line.
pub fn strict_lines()
    ensures spelled { (line : List ℕ) (pieces : List (List ℕ)) → strict_tokens line ≡ Some pieces → line ≡ strict_line pieces }
    ensures lexed { (pieces : List (List ℕ)) → pieces ≢ [] → All (Lacks 32) pieces → strict_tokens (strict_line pieces) ≡ Some pieces }
{}
