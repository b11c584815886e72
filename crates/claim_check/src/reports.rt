//! Checking a report.
ghost use Rattle.std.specs.Prelude.{ℕ, ◌≡◌, ◌<◌, ◌≤◌, Some, length, IfOk};
ghost use Rattle.report_types.specs.Numbers.{record_of};
ghost use Rattle.report_types.specs.Lawful.{IsReport};
ghost use Rattle.report_types.specs.Verdicts.{IsVerdict};
ghost use Rattle.claim_check.specs.ClaimVerdicts.{IsLaterClaim, IsTableOf, clause_of};
ghost use Rattle.claim_check.specs.Runs.{IsRun, IsRunVerdict};

use crate::runs::{Run, check_run, cut, first_failure};
use alg_table::{CheckBasisError, Table, check_basis};
use claim_conditions::Clause;
use par_phase::map_in_order;
use path_algebra::BasisFault;
use report_types::{Claim, Record, Report, Verdict};
use std::alloc::{AllocError, Global};
use std::thread::Threads;

/// The condition on a claim that a fault of its basis names.
fn clause_of(fault: BasisFault) -> Clause
    ensures { result ≡ clause_of fault }
{
    match fault {
        BasisFault::Step => Clause::Step,
        BasisFault::Rule => Clause::Rule,
        BasisFault::Reduced => Clause::Reduced,
        BasisFault::Words => Clause::Words,
        BasisFault::Action => Clause::Action,
    }
}

/// The verdict where claim 1 has given its table.
fn check_later<R: Threads + Sync, F: Fn(u32) + Sync>(
    rt: &R,
    alloc: Global,
    table: &Table,
    report: &Report,
    workers: u32,
    gate: &F,
) -> Result<Verdict, AllocError>
    requires report { IsReport report.now }
    requires table { IsTableOf report.now table.now }
    requires some { 0 < length report.now.records }
    requires workers { (1 ≤ workers) × (workers ≤ 16) }
    requires gate { (k : ℕ) → IsLaterClaim report.now k → F.pre gate.now k }
    ensures { IfOk result (IsVerdict report.now) }
{
    let runs = cut(alloc, table, report, workers)?;
    let verdicts = map_in_order(
        rt,
        alloc,
        runs,
        workers,
        &|mut run: Run| -> Verdict
            requires { IsReport report.now × IsTableOf report.now table.now × ((k : ℕ) → IsLaterClaim report.now k → F.pre gate.now k) × IsRun report.now run }
            ensures { IsRunVerdict report.entry.now run.behind run.last result }
        { check_run(table, report, run.behind, run.last, &mut run.scratch, gate) },
    )?;
    Ok(first_failure(verdicts.as_slice()))
}

/// The record of claim 1.
fn first_record(report: &Report) -> &Record
    requires { 0 < length report.now.records }
    ensures { record_of report.now.records 1 ≡ Some result.now }
{
    match report.records.record_at(1) {
        Some(found) => found,
        None => unreachable!(),
    }
}

/// The verdict on a report that has a claim.
fn check_claims<R: Threads + Sync, F: Fn(u32) + Sync>(
    rt: &R,
    alloc: Global,
    report: &Report,
    workers: u32,
    gate: &F,
) -> Result<Verdict, AllocError>
    requires report { IsReport report.now }
    requires some { 0 < length report.now.records }
    requires workers { (1 ≤ workers) × (workers ≤ 16) }
    requires gate { (k : ℕ) → IsLaterClaim report.now k → F.pre gate.now k }
    ensures { IfOk result (IsVerdict report.now) }
{
    let first = first_record(report);
    let Claim::Basis {
        words,
        steps,
        rules,
    } = &first.claim
    else {
        unreachable!()
    };
    match check_basis(
        alloc,
        &report.header,
        words.as_slice(),
        steps.as_slice(),
        rules.as_slice(),
    ) {
        Ok(table) => {
            let verdict = check_later(rt, alloc, &table, report, workers, gate)?;
            Ok(verdict)
        }
        Err(CheckBasisError::Fault(fault)) => Ok(Verdict::Fails {
            claim: 1,
            clause: clause_of(fault),
        }),
        Err(CheckBasisError::NoMemory) => Err(AllocError),
    }
}

/// The verdict on a report: all conditions hold, or the first claim of which they do not, with the first that fails.
/// A report without claims holds. The claims behind the first are cut into runs, at most as many as there are workers, which are from 1 to 16; the verdict is
/// the same for every number of them.
pub fn check_report<R: Threads + Sync>(
    rt: &R,
    alloc: Global,
    report: &Report,
    workers: u32,
) -> Result<Verdict, AllocError>
    requires report { IsReport report.now }
    requires workers { (1 ≤ workers) × (workers ≤ 16) }
    ensures { IfOk result (IsVerdict report.now) }
{
    let verdict = check_gated(rt, alloc, report, workers, &|_claim: u32| {})?;
    Ok(verdict)
}

/// The same, where `gate` is called with the number of each claim behind the first before that claim is checked.
pub fn check_gated<R: Threads + Sync, F: Fn(u32) + Sync>(
    rt: &R,
    alloc: Global,
    report: &Report,
    workers: u32,
    gate: &F,
) -> Result<Verdict, AllocError>
    requires report { IsReport report.now }
    requires workers { (1 ≤ workers) × (workers ≤ 16) }
    requires gate { (k : ℕ) → IsLaterClaim report.now k → F.pre gate.now k }
    ensures { IfOk result (IsVerdict report.now) }
{
    if report.records.is_empty() {
        return Ok(Verdict::Holds);
    }
    let verdict = check_claims(rt, alloc, report, workers, gate)?;
    Ok(verdict)
}
