//! How a run of the program ends.
ghost use Rattle.std.specs.Prelude.{◌≡◌};
ghost use Rattle.top_call.specs.Outcomes.{status_of};

use claim_conditions::Clause;
use report_types::Why;

/// How a run of the program ends.
#[derive(Clone, Debug, Drop, PartialEq, Eq)]
pub enum Outcome {
    /// The report, or the verdict that all claims hold, was written.
    Done,
    /// The statement of this line was refused; the report up to its refusal was written.
    Refused { line: u32, why: Why },
    /// This claim of the report, counted from 1, is the first that fails, and this the first of its conditions that does.
    Rejected { claim: u32, clause: Clause },
    /// This line of the input, counted from 1, is the first that the language or the format refuses.
    BadText { line: u32 },
    /// The input is longer than the mode's limit.
    TooLong,
    /// The words ask for nothing that there is.
    Usage,
    /// A read failed.
    ReadFault,
    /// A write failed.
    WriteFault,
    /// There was no memory.
    NoMemory,
}

impl Outcome {
    /// The exit status of the program.
    pub fn status(self) -> u8
        ensures { result ≡ status_of self }
    {
        match self {
            Outcome::Done => 0,
            Outcome::Refused { .. } => 1,
            Outcome::Rejected { .. } => 2,
            Outcome::BadText { .. } => 3,
            Outcome::TooLong => 4,
            Outcome::Usage => 5,
            Outcome::ReadFault => 6,
            Outcome::WriteFault => 7,
            Outcome::NoMemory => 8,
        }
    }
}
