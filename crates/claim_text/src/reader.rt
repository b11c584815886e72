//! Reading reports.
ghost use Rattle.std.specs.Prelude.{◌≡◌, ◌≤◌, length, IfOk, IfErr};
ghost use Rattle.report_types.specs.declared.reports.Report.{Report};
ghost use Rattle.claim_text.specs.Part.{start, report_of};
ghost use Rattle.claim_text.specs.Texts.{IsTextOf};
ghost use Rattle.claim_text.specs.Refusals.{IsRefused};

use crate::part::{Part, Place};
use claim_lines::Words;
use header_text::HeaderReader;
use report_types::{End, Records, Report};
use seq::Seq;
use std::alloc::{AllocError, Global};
use std::marker::Model;
use text_lines::{LineReader, TextError, read_lines};
use thiserror::Error;

/// Why a text is no report.
#[derive(Clone, Copy, Debug, PartialEq, Eq, Error)]
pub enum ReadTextError {
    /// The first bad line, counted from 1.
    #[error("line {line} is bad")]
    BadText { line: u32 },
    #[error("out of memory")]
    NoMemory,
}

// What reads a report. Contracts see what it has read.
#[derive(Drop)]
struct Reader {
    part: Part,
    alloc: Global,
}

impl Model for Reader {
    ghost use Rattle.claim_text.specs.declared.part.Part.{Part};

    ghost Value = { Part };

    ghost view = { λ r. r.part };
}

impl LineReader for Reader {
    ghost use Rattle.claim_text.specs.Steps.{Step, MayEnd};
    ghost use Rattle.claim_text.specs.Determined.{Step-determined};

    ghost Step = { Step };

    ghost MayEnd = { MayEnd };

    fn take_line(&mut self, line: &[u8]) -> Result<bool, AllocError> {
        self.part.take(self.alloc, line)
    }

    fn may_end(&self) -> bool {
        matches!(self.part.place, Place::Ended)
    }

    ghost determined = { Step-determined };
}

// Before the first line.
fn start(alloc: Global) -> Part
    ensures { result ≡ start }
{
    Part {
        front: HeaderReader::new(alloc),
        place: Place::Title,
        line: 0,
        words: Words::new(alloc),
        steps: Seq::new(alloc),
        rules: Seq::new(alloc),
        records: Records::new(alloc),
        modules: Seq::new(alloc),
        maps: Seq::new(alloc),
        dims: Seq::new(alloc),
        matrices: Seq::new(alloc),
        block: None,
        end: End::Done,
    }
}

// The report of all that was read.
fn report_of(part: Part) -> Report
    ensures { result ≡ report_of part }
{
    Report {
        header: part.front.into_header(),
        records: part.records,
        end: part.end,
    }
}

/// The report whose spelling the text is. Where it is the spelling of none, the first line that may not follow those before it,
/// or the number of lines plus one where the text ends too early.
pub fn read(alloc: Global, text: &[u8]) -> Result<Report, ReadTextError>
    requires { length text.now ≤ 67108864 }
    ensures report { IfOk result (λ report. IsTextOf text.now report) }
    ensures refused { IfErr result (IsRefused text.now) }
{
    let mut reader = Reader {
        part: start(alloc),
        alloc,
    };
    match read_lines(&mut reader, text) {
        Ok(()) => Ok(report_of(reader.part)),
        Err(TextError::BadLine { line }) => Err(ReadTextError::BadText { line }),
        Err(TextError::NoMemory) => Err(ReadTextError::NoMemory),
    }
}
