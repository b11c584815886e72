//! How a run ends.

use report_types::Why;

/// How a run of a script ends.
#[derive(Clone, Debug, Drop, PartialEq, Eq)]
pub enum RunEnd {
    /// All statements were done; the report has so many claims.
    Done { claims: u32 },
    /// The statement of this line was refused. Lines are counted from 1.
    Refused { line: u32, why: Why },
    /// The sink counted a fault.
    WriteFault,
    /// There was no memory.
    NoMemory,
}

/// Why a run halts before its report is whole.
#[derive(Debug, Drop)]
pub(crate) enum Halt {
    /// The sink counted a fault.
    WriteFault,
    /// There was no memory.
    NoMemory,
}
