//! Runs of claims that follow each other, each checked in space of its own.
ghost use Rattle.std.specs.Prelude.{ℕ, ◌≡◌, ◌<◌, length, IfOk};
ghost use Rattle.report_types.specs.Lawful.{IsReport};
ghost use Rattle.claim_check.specs.ClaimVerdicts.{IsLaterClaim, IsTableOf};
ghost use Rattle.claim_check.specs.Room.{HasRoom};
ghost use Rattle.claim_check.specs.Runs.{AreClaims, AreRuns, IsRunVerdict, first_failure};

use crate::claims::check_claim;
use crate::rooms::scratch_for;
use alg_table::Table;
use fp_linear::Scratch;
use report_types::{Report, Verdict};
use std::alloc::{AllocError, Global};

/// The claims behind number `behind` up to number `last`, and the space that they are checked in.
#[derive(Drop)]
pub(crate) struct Run {
    pub(crate) behind: u32,
    pub(crate) last: u32,
    pub(crate) scratch: Scratch,
}

/// Adds the run up to claim `last`, where it has a claim.
fn push_run(
    alloc: Global,
    table: &Table,
    report: &Report,
    behind: u32,
    last: u32,
    runs: &mut Vec<Run>,
) -> Result<(), AllocError>
    requires claims { AreClaims report.now behind last }
    requires runs { AreRuns report.now 1 behind runs.old.items }
    ensures { IfOk result (λ done. AreRuns report.now 1 last runs.new.items) }
{
    if behind == last {
        return Ok(());
    }
    let scratch = scratch_for(alloc, table, report)?;
    runs.push(Run {
        behind,
        last,
        scratch,
    })?;
    Ok(())
}

/// The claims behind the first one, cut into at most as many runs as there are workers.
pub(crate) fn cut(
    alloc: Global,
    table: &Table,
    report: &Report,
    workers: u32,
) -> Result<Vec<Run>, AllocError>
    requires report { IsReport report.now }
    requires some { 0 < length report.now.records }
    ensures { IfOk result (λ runs. AreRuns report.now 1 (length report.now.records) runs.items) }
{
    let end = report.records.len() as u32;
    let mut runs = Vec::new(alloc);
    let mut behind = 1;
    for done in 1..workers {
        let last = behind + (end - behind) / (workers - done + 1);
        push_run(alloc, table, report, behind, last, &mut runs)?;
        behind = last;
    }
    push_run(alloc, table, report, behind, end, &mut runs)?;
    Ok(runs)
}

/// The verdict on the claims behind number `behind` up to number `last`. Before each claim `gate` is called with its number.
pub(crate) fn check_run<F: Fn(u32)>(
    table: &Table,
    report: &Report,
    behind: u32,
    last: u32,
    scratch: &mut Scratch,
    gate: &F,
) -> Verdict
    requires report { IsReport report.now }
    requires table { IsTableOf report.now table.now }
    requires gate { (k : ℕ) → IsLaterClaim report.now k → F.pre gate.now k }
    requires claims { AreClaims report.now behind last }
    requires room { HasRoom report.now.records scratch.old.bytes.items scratch.old.numbers.items }
    ensures { IsRunVerdict report.now behind last result }
{
    for k in behind..last {
        gate(k + 1);
        if let Verdict::Fails { claim, clause } = check_claim(table, report, k + 1, scratch) {
            return Verdict::Fails { claim, clause };
        }
    }
    Verdict::Holds
}

/// The first verdict of a failure.
pub(crate) fn first_failure(verdicts: &[Verdict]) -> Verdict
    ensures { result ≡ first_failure verdicts.now }
{
    for verdict in verdicts {
        if let Verdict::Fails { claim, clause } = *verdict {
            return Verdict::Fails { claim, clause };
        }
    }
    Verdict::Holds
}
