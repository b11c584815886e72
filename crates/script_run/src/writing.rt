//! Writing a report piece by piece.
ghost use Rattle.std.specs.Prelude.{ℕ, ◌≡◌, ◌<◌, ◌≤◌, ◌∷◌, [], ◌^◌, List, length, IfOk, IfErr, OnOk, OnErr};
ghost use Rattle.std.specs.declared.option.Option.{Option};
ghost use Rattle.quiv_io.specs.Counts.{Rose};
ghost use Rattle.quiv_io.specs.Bytes.{Takes, TakesFront};
ghost use Rattle.script_types.specs.declared.Script.{Script};
ghost use Rattle.script_types.specs.Lawful.{IsLawful};
ghost use Rattle.script_run.specs.Records.{IsRightRecord};
ghost use Rattle.script_run.specs.Runs.{IsRightReport, RunsTo};
ghost use Rattle.script_run.specs.Reached.{IsReached, IsHalted, run_end};

use crate::ends::{Halt, RunEnd};
use claim_text::{write_end, write_header, write_record};
use quiv_io::{Sink, write_whole};
use report_types::{End, Record, Records, Report};
use script_types::Script;
use std::alloc::Global;

/// Writes the title and the header; answers a report without records.
pub(crate) fn write_front<K: Sink>(
    alloc: Global,
    script: &Script,
    sink: &mut K,
) -> Result<Report, Halt>
    requires { IsLawful script.now }
    ensures count { K.faults sink.old ≤ K.faults sink.new }
    ensures header { IfOk result (λ report. report.header ≡ script.now.header) }
    ensures empty { IfOk result (λ report. report.records ≡ []) }
    ensures reached { IfOk result (λ report. IsReached script.now report (K.taken sink.old) (K.taken sink.new)) }
    ensures halted { IfErr result (IsHalted script.now (K.taken sink.old) (K.taken sink.new) (K.faults sink.old) (K.faults sink.new)) }
{
    let Ok(header) = script.header.clone() else {
        return Err(Halt::NoMemory);
    };
    let Ok(text) = write_header(alloc, &header) else {
        return Err(Halt::NoMemory);
    };
    let Ok(()) = write_whole(sink, &text) else {
        return Err(Halt::WriteFault);
    };
    Ok(Report {
        header,
        records: Records::new(alloc),
        end: End::Done,
    })
}

/// Writes the first record behind the header; answers the report with it.
pub(crate) fn write_first<K: Sink>(
    alloc: Global,
    script: &Script,
    report: Report,
    first: Record,
    sink: &mut K,
) -> Result<Report, Halt>
    requires header { report.header ≡ script.now.header }
    requires empty { report.records ≡ [] }
    requires first { IsRightRecord script.now first }
    requires lawful { IsLawful script.now }
    ensures count { K.faults sink.old ≤ K.faults sink.new }
    ensures header { IfOk result (λ next. next.header ≡ script.now.header) }
    ensures records { IfOk result (λ next. next.records ≡ first ∷ []) }
    ensures reached { (start : Option (List ℕ)) → IsReached script.now report start (K.taken sink.old) → IfOk result (λ next. IsReached script.now next start (K.taken sink.new)) }
    ensures halted { (start : Option (List ℕ)) → IsReached script.now report start (K.taken sink.old)
        → IfErr result (IsHalted script.now start (K.taken sink.new) (K.faults sink.old) (K.faults sink.new)) }
{
    let mut next = report;
    let Ok(()) = next.records.push(first) else {
        return Err(Halt::NoMemory);
    };
    next.end = End::Done;
    let Ok(text) = write_record(alloc, &next, 1) else {
        return Err(Halt::NoMemory);
    };
    let Ok(()) = write_whole(sink, &text) else {
        return Err(Halt::WriteFault);
    };
    Ok(next)
}

/// Writes the last line.
pub(crate) fn write_last<K: Sink>(
    alloc: Global,
    script: &Script,
    report: Report,
    last: End,
    sink: &mut K,
) -> RunEnd
    requires header { report.header ≡ script.now.header }
    requires few { length report.records < 2 ^ 32 }
    requires right { IsRightReport script.now (record report { end = last }) }
    ensures count { K.faults sink.old ≤ K.faults sink.new }
    ensures end { (start : Option (List ℕ)) → IsReached script.now report start (K.taken sink.old)
        → RunsTo script.now result start (K.taken sink.new) (K.faults sink.old) (K.faults sink.new) }
{
    let mut whole = report;
    whole.end = last;
    let Ok(text) = write_end(alloc, &whole) else {
        return RunEnd::NoMemory;
    };
    let Ok(()) = write_whole(sink, &text) else {
        return RunEnd::WriteFault;
    };
    let claims = whole.records.len() as u32;
    end_of(whole.end, claims)
}

/// How a run ends whose report has this end and so many claims.
fn end_of(last: End, claims: u32) -> RunEnd
    ensures { result ≡ run_end last claims }
{
    match last {
        End::Done => RunEnd::Done { claims },
        End::Refused { line, why } => RunEnd::Refused { line, why },
    }
}
