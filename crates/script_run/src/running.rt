//! The work on a script.
ghost use Rattle.std.specs.Prelude.{ℕ, ◌≡◌, ◌≤◌, [], List};
ghost use Rattle.std.specs.declared.option.Option.{Option};
ghost use Rattle.script_run.specs.Ends.{EndsBehindBasis};
ghost use Rattle.script_types.specs.declared.Script.{Script};
ghost use Rattle.script_types.specs.Lawful.{IsLawful};
ghost use Rattle.script_run.specs.Records.{IsRightRecord};
ghost use Rattle.script_run.specs.Runs.{RunsTo};
ghost use Rattle.script_run.specs.Reached.{IsReached, IsHalted};

use crate::basis::{BasisAnswer, answer_basis};
use crate::ends::{Halt, RunEnd};
use crate::writing::{write_first, write_front, write_last};
use quiv_io::Sink;
use report_types::{End, Record, Report, Why};
use script_types::Script;
use std::alloc::Global;

/// Answers the statements of a script in their order and writes the report to the sink, record by record: each record's text is made
/// whole and then written. The number of workers, from 1 to 16, changes no answer.
///
/// See `RunsTo` for what is written with each end. `Refused` comes with the first statement that is refused: today that is the header, where
/// more than 4,096 paths are shorter than the bound, and else the first statement behind `basis`.
pub fn run<K: Sink>(alloc: Global, script: &Script, workers: u32, sink: &mut K) -> RunEnd
    requires lawful { IsLawful script.now }
    requires some_workers { 1 ≤ workers }
    requires few_workers { workers ≤ 16 }
    ensures count { K.faults sink.old ≤ K.faults sink.new }
    ensures end { RunsTo script.now result (K.taken sink.old) (K.taken sink.new) (K.faults sink.old) (K.faults sink.new) }
{
    let report = match write_front(alloc, script, sink) {
        Ok(report) => report,
        Err(halt) => return end_of_halt(halt),
    };
    let Ok(answer) = answer_basis(alloc, script) else {
        return RunEnd::NoMemory;
    };
    match answer {
        BasisAnswer::Answered(first) => run_statements(alloc, script, report, first, sink),
        BasisAnswer::TooMany(count) => {
            let last = End::Refused {
                line: script.bound_line,
                why: Why::PathLimit { count },
            };
            write_last(alloc, script, report, last, sink)
        }
    }
}

/// Writes the record of the basis, and answers the statements behind it.
fn run_statements<K: Sink>(
    alloc: Global,
    script: &Script,
    report: Report,
    first: Record,
    sink: &mut K,
) -> RunEnd
    requires lawful { IsLawful script.now }
    requires header { report.header ≡ script.now.header }
    requires empty { report.records ≡ [] }
    requires first { IsRightRecord script.now first }
    ensures count { K.faults sink.old ≤ K.faults sink.new }
    ensures end { (start : Option (List ℕ)) → IsReached script.now report start (K.taken sink.old)
        → RunsTo script.now result start (K.taken sink.new) (K.faults sink.old) (K.faults sink.new) }
{
    let next = match write_first(alloc, script, report, first, sink) {
        Ok(next) => next,
        Err(halt) => return end_of_halt(halt),
    };
    write_last(alloc, script, next, end_of_statements(script), sink)
}

/// How a script ends behind the record of its basis: no kind of statement is built, so the first one is refused.
fn end_of_statements(script: &Script) -> End
    ensures { EndsBehindBasis script.now.statements result }
{
    match script.statements.first() {
        None => End::Done,
        Some(statement) => End::Refused {
            line: statement.line,
            why: Why::NotBuilt,
        },
    }
}

/// How a run ends that halts.
fn end_of_halt(halt: Halt) -> RunEnd
    ensures { (script : Script) (start now : Option (List ℕ)) (old new : ℕ) → IsHalted script start now old new halt → RunsTo script result start now old new }
{
    match halt {
        Halt::WriteFault => RunEnd::WriteFault,
        Halt::NoMemory => RunEnd::NoMemory,
    }
}
