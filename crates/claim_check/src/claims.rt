//! Checking one claim behind the first.
ghost use Rattle.std.specs.Prelude.{ℕ, ◌≡◌, ◌≤◌, Some};
ghost use Rattle.claim_conditions.specs.Conditions.{IsAnswer};
ghost use Rattle.report_types.specs.Numbers.{record_of};
ghost use Rattle.report_types.specs.Conditions.{claim_conditions, conditions_of};
ghost use Rattle.report_types.specs.Lawful.{IsReport};
ghost use Rattle.report_types.specs.Verdicts.{NormalWords, sides_by};
ghost use Rattle.claim_check.specs.ClaimVerdicts.{IsClaimNumber, IsClaimVerdict, IsTableOf};
ghost use Rattle.claim_check.specs.Room.{HasObjectRoom, HasClaimRoom, HasRoom};

use crate::groups::{
    first_failing_by_map, first_failing_of_sequence, first_failing_on_local,
    first_failing_over_resolution,
};
use crate::kinds::first_failing_hom_claim;
use crate::objects::first_failing_object;
use crate::terms::first_failing_resolution_claim;
use alg_table::Table;
use claim_conditions::Clause;
use fp_linear::Scratch;
use report_types::{Claim, Record, Report, Verdict};

/// The first condition on a claim that fails, of those of its kind.
fn first_failing_of_kind(
    table: &Table,
    report: &Report,
    k: u32,
    item: &Record,
    bytes: &mut [u8],
    numbers: &mut [u32],
) -> Option<Clause>
    requires report { IsReport report.now }
    requires there { record_of report.now.records k ≡ Some item.now }
    requires table { IsTableOf report.now table.now }
    requires behind { 2 ≤ k }
    requires room { HasClaimRoom item.now.claim bytes.old numbers.old }
    ensures { (w : NormalWords report.now.header) → IsAnswer (claim_conditions report.now.header (sides_by w) report.now.records item.now.claim) result }
{
    match &item.claim {
        Claim::Basis { .. } => unreachable!(),
        Claim::Module { .. } | Claim::Map { .. } => None,
        Claim::Hom { a, b, rows } => first_failing_hom_claim(report, *a, *b, rows, bytes, numbers),
        Claim::Kernel { .. } => first_failing_by_map(report, k, item, bytes, numbers),
        Claim::Cokernel { .. } => first_failing_by_map(report, k, item, bytes, numbers),
        Claim::Radical { .. } => first_failing_by_map(report, k, item, bytes, numbers),
        Claim::Local { .. } => first_failing_on_local(report, k, item, bytes, numbers),
        Claim::Decomposition { .. } => first_failing_on_local(report, k, item, bytes, numbers),
        Claim::Resolution { a, n, terms } => {
            first_failing_resolution_claim(table, report, *a, *n, terms, bytes, numbers)
        }
        Claim::Ext { .. } => first_failing_over_resolution(table, report, k, item, bytes, numbers),
        Claim::Translate { .. } => {
            first_failing_over_resolution(table, report, k, item, bytes, numbers)
        }
        Claim::AlmostSplit { .. } => {
            first_failing_of_sequence(table, report, k, item, bytes, numbers)
        }
    }
}

/// The first condition on claim k that fails.
fn first_failing(
    table: &Table,
    report: &Report,
    k: u32,
    item: &Record,
    bytes: &mut [u8],
    numbers: &mut [u32],
) -> Option<Clause>
    requires report { IsReport report.now }
    requires there { record_of report.now.records k ≡ Some item.now }
    requires table { IsTableOf report.now table.now }
    requires behind { 2 ≤ k }
    requires objects { HasObjectRoom bytes.old numbers.old }
    requires room { HasClaimRoom item.now.claim bytes.old numbers.old }
    ensures { (w : NormalWords report.now.header) → IsAnswer (conditions_of report.now (sides_by w) k) result }
{
    if let Some(which) = first_failing_object(report, item, bytes, numbers) {
        return Some(which);
    }
    first_failing_of_kind(table, report, k, item, bytes, numbers)
}

/// The verdict on one claim of a report, counted from 1, over the table of the report's first claim. It takes no memory.
///
/// `Fails` comes exactly where a condition on the claim fails, and names the first. Claim 1 holds: the table is there.
pub fn check_claim(table: &Table, report: &Report, k: u32, scratch: &mut Scratch) -> Verdict
    requires report { IsReport report.now }
    requires table { IsTableOf report.now table.now }
    requires number { IsClaimNumber report.now k }
    requires room { HasRoom report.now.records scratch.old.bytes.items scratch.old.numbers.items }
    ensures verdict { IsClaimVerdict report.now k result }
    ensures room_stays { HasRoom report.now.records scratch.new.bytes.items scratch.new.numbers.items }
{
    if k == 1 {
        return Verdict::Holds;
    }
    let Some(item) = report.records.record_at(k) else {
        unreachable!()
    };
    match first_failing(
        table,
        report,
        k,
        item,
        &mut scratch.bytes,
        &mut scratch.numbers,
    ) {
        Some(clause) => Verdict::Fails { claim: k, clause },
        None => Verdict::Holds,
    }
}
