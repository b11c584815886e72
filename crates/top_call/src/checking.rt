//! The mode `check`: the verdict on a report.
ghost use Rattle.std.specs.Prelude.{◌≡◌, ◌≤◌, length, IfOk};
ghost use Rattle.top_call.specs.declared.modes.Mode.TheVariants.{Check};
ghost use Rattle.top_call.specs.Modes.{input_limit};
ghost use Rattle.top_call.specs.Answers.{CheckAnswers};
ghost use Rattle.claim_text.specs.Texts.{IsTextOf};

use crate::outcome::Outcome;
use crate::texts::{bad_text, holds_text, rejected_text};
use claim_check::check_report;
use claim_text::{ReadTextError, read};
use report_types::{Report, Verdict};
use std::alloc::{AllocError, Global};
use std::thread::Threads;

/// An outcome and the text that is written for it.
#[derive(Drop)]
pub(crate) struct Answer {
    pub(crate) outcome: Outcome,
    pub(crate) text: Vec<u8>,
}

/// The verdict on the report that the input is.
pub(crate) fn check_input<R: Threads + Sync>(
    rt: &R,
    alloc: Global,
    input: &[u8],
    workers: u32,
) -> Result<Answer, AllocError>
    requires short { length input.now ≤ input_limit Check }
    requires workers { (1 ≤ workers) × (workers ≤ 16) }
    ensures { IfOk result (λ a. CheckAnswers a.outcome input.now a.text.items) }
{
    match read(alloc, input) {
        Ok(report) => {
            let answer = check_read(rt, alloc, input, &report, workers)?;
            Ok(answer)
        }
        Err(ReadTextError::BadText { line }) => {
            let text = bad_text(alloc, line)?;
            Ok(Answer {
                outcome: Outcome::BadText { line },
                text,
            })
        }
        Err(ReadTextError::NoMemory) => Err(AllocError),
    }
}

/// The verdict on a report, which was read of the input.
fn check_read<R: Threads + Sync>(
    rt: &R,
    alloc: Global,
    input: &[u8],
    report: &Report,
    workers: u32,
) -> Result<Answer, AllocError>
    requires reads { IsTextOf input.now report.now }
    requires workers { (1 ≤ workers) × (workers ≤ 16) }
    ensures { IfOk result (λ a. CheckAnswers a.outcome input.now a.text.items) }
{
    match check_report(rt, alloc, report, workers)? {
        Verdict::Holds => {
            let text = holds_text(alloc, report.records.len() as u32)?;
            Ok(Answer {
                outcome: Outcome::Done,
                text,
            })
        }
        Verdict::Fails { claim, clause } => {
            let text = rejected_text(alloc, claim, clause)?;
            Ok(Answer {
                outcome: Outcome::Rejected { claim, clause },
                text,
            })
        }
    }
}
