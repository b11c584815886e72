// Reading a text to its end or to its first bad line.
ghost use Rattle.std.specs.Prelude.{◌≡◌, ℕ, ◌+◌, ◌<◌, ◌^◌, List, length, IfOk, IfErr, OnOk, MatchBool, IsTrue, ◌↔◌};
ghost use Rattle.text_lines.specs.Lines.{lines};
ghost use Rattle.text_lines.specs.Reading.{ReadsWhole, IsFirstBad, IsDetermined};
ghost use Rattle.text_lines.specs.Refusals.{IsRefused};

use super::lines::first_line;
use std::alloc::AllocError;
use thiserror::Error;

/// What reads a text line by line. Contracts see it as what was read so far.
pub trait LineReader {
    /// The line, with its line feed if it has one, may follow what was read so far, and then this is read.
    ghost Step: { Self → List ℕ → Self → Type 0 };

    /// The text may end here.
    ghost MayEnd: { Self → Type 0 };

    /// Reads one line more, if it may follow. After a line that may not, or want of memory, the reader is of no use.
    fn take_line(&mut self, line: &[u8]) -> Result<bool, AllocError>
        ensures { IfOk result (λ taken. MatchBool taken (Step self.old line.now self.new) ((next : Self) → ¬ Step self.old line.now next)) };

    /// Whether the text may end here.
    fn may_end(&self) -> bool
        ensures { IsTrue result ↔ MayEnd self.now };

    /// A line leads to one part.
    ghost determined: { IsDetermined Step };
}

/// Why a text was not read.
#[derive(Clone, Copy, Debug, PartialEq, Eq, Error)]
pub enum TextError {
    /// The first bad line, counted from 1.
    #[error("line {line} is bad")]
    BadLine { line: u32 },
    #[error("out of memory")]
    NoMemory,
}

/// Reads the whole text, or stops at its first bad line.
pub fn read_lines<R: LineReader>(reader: &mut R, text: &[u8]) -> Result<(), TextError>
    requires { length text.now + 1 < 2 ^ 32 }
    ensures whole { OnOk result (ReadsWhole R.Step R.MayEnd reader.old (lines text.now) reader.new) }
    ensures refused { IfErr result (IsRefused R.Step R.MayEnd reader.old (lines text.now)) }
{
    let mut rest = text;
    let mut line = 1u32;
    while !rest.is_empty() {
        let (first, others) = first_line(rest);
        let Ok(taken) = reader.take_line(first) else {
            return Err(TextError::NoMemory);
        };
        if !taken {
            return Err(TextError::BadLine { line });
        }
        rest = others;
        line += 1;
    }
    if !reader.may_end() {
        return Err(TextError::BadLine { line });
    }
    Ok(())
}

/// A text that is read whole has no first bad line, and no text has two.
pub fn one_first_bad_line<R: LineReader>()
    ensures whole { (first last : R) (text : List (List ℕ)) (k : ℕ) → ReadsWhole R.Step R.MayEnd first text last → ¬ IsFirstBad R.Step R.MayEnd first text k }
    ensures one { (first : R) (text : List (List ℕ)) (j k : ℕ) → IsFirstBad R.Step R.MayEnd first text j → IsFirstBad R.Step R.MayEnd first text k → j ≡ k }
{}
