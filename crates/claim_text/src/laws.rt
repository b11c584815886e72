//! Laws of reports as texts. The first two functions do nothing: their contracts are laws.
ghost use Rattle.std.specs.Prelude.{ℕ, ◌≡◌, ◌≤◌, ◌⊎◌, ◌++◌, List, length, IfOk, IfErr};
ghost use Rattle.report_types.specs.declared.reports.Report.{Report};
ghost use Rattle.report_types.specs.Lawful.{IsReport};
ghost use Rattle.claim_text.specs.declared.reader.ReadTextError.TheVariants.{NoMemory};
ghost use Rattle.claim_text.specs.Spelling.{report_text, front_text, records_text, end_text};
ghost use Rattle.claim_text.specs.Texts.{IsTextOf, IsBadLine};

use crate::reader::{ReadTextError, read};
use crate::writing::write;
use report_types::Report;
use std::alloc::Global;

/// A text is the spelling of exactly one report or has exactly one first bad line, and never both.
pub fn texts_are_read_once()
    ensures one { (text : List ℕ) (r s : Report) → IsTextOf text r → IsTextOf text s → r ≡ s }
    ensures one_bad { (text : List ℕ) (j k : ℕ) → IsBadLine text j → IsBadLine text k → j ≡ k }
    ensures not_bad { (text : List ℕ) (r : Report) (k : ℕ) → IsTextOf text r → ¬ IsBadLine text k }
    ensures read_or_bad { (text : List ℕ) → ((r : Report) × IsTextOf text r) ⊎ ((k : ℕ) × IsBadLine text k) }
{}

/// The text of a report is that of its header, those of its records in their order, and that of its end.
pub fn texts_are_in_pieces()
    ensures { (r : Report) → report_text r ≡ front_text r ++ (records_text r.header 0 0 0 r.records ++ end_text r) }
{}

/// What is read of the text that is written of a report is that report, where its text is within the limit.
/// No line of it is bad.
pub fn read_written(alloc: Global, report: &Report) -> Result<Report, ReadTextError>
    requires is { IsReport report.now }
    requires short { length (report_text report.now) ≤ 67108864 }
    ensures same { IfOk result (λ again. again ≡ report.now) }
    ensures memory { IfErr result (λ e. e ≡ NoMemory) }
{
    let Ok(text) = write(alloc, report) else {
        return Err(ReadTextError::NoMemory);
    };
    match read(alloc, text.as_slice()) {
        Ok(again) => Ok(again),
        Err(ReadTextError::NoMemory) => Err(ReadTextError::NoMemory),
        Err(ReadTextError::BadText { line: _line }) => unreachable!(),
    }
}
