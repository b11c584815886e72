//! Reading a script line by line.
ghost use Rattle.std.specs.Prelude.{◌≡◌, ◌≤◌, length, IfOk, IfErr, MatchBool};
ghost use Rattle.script_lang.specs.declared.part.Part.{Part};
ghost use Rattle.script_lang.specs.Parts.{IsSmall};
ghost use Rattle.script_lang.specs.Scripts.{counted, TokenStep, start, script_of, IsScript};
ghost use Rattle.script_types.specs.Lawful.{IsLawful};
ghost use Rattle.script_lang.specs.Refusals.{IsRefused};

use super::line::read_line;
use super::part::{Part, Place};
use fp_linear::Field;
use path_algebra::Header;
use quiver_paths::Quiver;
use script_types::Script;
use seq::Seq;
use std::alloc::{AllocError, Global};
use std::marker::Model;
use text_lines::{LineReader, TextError, Words, read_lines, script_words};
use thiserror::Error;

/// Why a text is no script.
#[derive(Clone, Copy, Debug, PartialEq, Eq, Error)]
pub enum ParseError {
    /// The first bad line, counted from 1.
    #[error("line {line} is bad")]
    BadText { line: u32 },
    #[error("out of memory")]
    NoMemory,
}

fn count_line(part: &mut Part)
    ensures { part.new ≡ counted part.old }
{
    part.lines = part.lines.saturating_add(1);
}

// Reads the line of these tokens, if it may follow.
fn take_tokens(alloc: Global, part: &mut Part, words: &mut Words<'_>) -> Result<bool, AllocError>
    requires { IsSmall part.old }
    ensures kept { IsSmall part.new }
    ensures step { IfOk result (λ taken. MatchBool taken (TokenStep part.old words.old part.new) ((next : Part) → ¬ TokenStep part.old words.old next)) }
{
    count_line(part);
    let Some(word) = words.next_word() else {
        return Ok(true);
    };
    let Some(line) = read_line(alloc, &part.header, word, words)? else {
        return Ok(false);
    };
    part.take(line)
}

// What reads a script. Contracts see what it has read.
#[derive(Drop)]
struct Reader {
    part: Part,
    alloc: Global,
}

impl Model for Reader {
    ghost use Rattle.script_lang.specs.Parts.{IsSmall};
    ghost use Rattle.script_lang.specs.declared.part.Part.{Part};

    ghost Value = { Part };

    ghost view = { λ r. r.part };

    ghost invariant = { λ r. IsSmall r.part };
}

impl LineReader for Reader {
    ghost use Rattle.script_lang.specs.Scripts.{Step, MayEnd};
    ghost use Rattle.script_lang.specs.Determined.{Step-determined};

    ghost Step = { Step };

    ghost MayEnd = { MayEnd };

    fn take_line(&mut self, line: &[u8]) -> Result<bool, AllocError> {
        let Some(words) = script_words(line) else {
            return Ok(false);
        };
        let mut words = words;
        take_tokens(self.alloc, &mut self.part, &mut words)
    }

    fn may_end(&self) -> bool {
        matches!(self.part.place, Place::Body)
    }

    ghost determined = { Step-determined };
}

// Before the first line.
fn start(alloc: Global) -> Part
    ensures value { result ≡ start }
    ensures small { IsSmall result }
{
    let Some(field) = Field::of(2) else {
        unreachable!()
    };
    Part {
        place: Place::Start,
        header: Header {
            field,
            quiver: Quiver {
                vertices: Seq::new(alloc),
                arrows: Seq::new(alloc),
            },
            bound: 0,
            relations: Seq::new(alloc),
        },
        bound_line: 0,
        basis_line: 0,
        statements: Seq::new(alloc),
        lines: 0,
    }
}

fn script_of(part: Part) -> Script
    ensures { result ≡ script_of part }
{
    Script {
        header: part.header,
        bound_line: part.bound_line,
        basis_line: part.basis_line,
        statements: part.statements,
    }
}

/// The script that the text reads as. Where it reads as none, the first line that may not follow those before it, or the
/// number of lines plus one where the text ends too early.
pub fn parse(alloc: Global, text: &[u8]) -> Result<Script, ParseError>
    requires { length text.now ≤ 4194304 }
    ensures script { IfOk result (IsScript text.now) }
    ensures lawful { IfOk result (λ script. IsLawful script) }
    ensures refused { IfErr result (IsRefused text.now) }
{
    let mut reader = Reader {
        part: start(alloc),
        alloc,
    };
    match read_lines(&mut reader, text) {
        Ok(()) => Ok(script_of(reader.part)),
        Err(TextError::BadLine { line }) => Err(ParseError::BadText { line }),
        Err(TextError::NoMemory) => Err(ParseError::NoMemory),
    }
}
