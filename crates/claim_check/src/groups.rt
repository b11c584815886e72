//! The first condition on a claim that fails, by kinds that are checked alike.
ghost use Rattle.std.specs.Prelude.{ℕ, ◌≡◌, Some};
ghost use Rattle.claim_conditions.specs.Conditions.{IsAnswer};
ghost use Rattle.report_types.specs.Numbers.{record_of};
ghost use Rattle.report_types.specs.Conditions.{claim_conditions};
ghost use Rattle.report_types.specs.Lawful.{IsReport};
ghost use Rattle.report_types.specs.Verdicts.{NormalWords, sides_by};
ghost use Rattle.claim_check.specs.ClaimVerdicts.{IsTableOf};
ghost use Rattle.claim_check.specs.Kinds.{IsByMap, IsOnLocal, IsOverResolution, IsSequence};
ghost use Rattle.claim_check.specs.Room.{HasClaimRoom};

use crate::kinds::{
    first_failing_cokernel_claim, first_failing_decomposition_claim, first_failing_kernel_claim,
    first_failing_local_claim, first_failing_radical_claim,
};
use crate::sequences::first_failing_sequence_claim;
use crate::terms::{first_failing_extension_claim, first_failing_translate_claim};
use alg_table::Table;
use claim_conditions::Clause;
use report_types::{Claim, Record, Report};

/// The first condition on a kernel, a cokernel or a radical that fails.
pub(crate) fn first_failing_by_map(
    report: &Report,
    k: u32,
    item: &Record,
    bytes: &mut [u8],
    numbers: &mut [u32],
) -> Option<Clause>
    requires report { IsReport report.now }
    requires there { record_of report.now.records k ≡ Some item.now }
    requires kind { IsByMap item.now.claim }
    requires room { HasClaimRoom item.now.claim bytes.old numbers.old }
    ensures { (w : NormalWords report.now.header) → IsAnswer (claim_conditions report.now.header (sides_by w) report.now.records item.now.claim) result }
{
    match &item.claim {
        Claim::Kernel {
            kernel,
            f,
            inclusion,
        } => first_failing_kernel_claim(report, *kernel, *f, *inclusion, bytes, numbers),
        Claim::Cokernel {
            cokernel,
            f,
            projection,
        } => first_failing_cokernel_claim(report, *cokernel, *f, *projection, bytes, numbers),
        Claim::Radical {
            radical,
            a,
            inclusion,
        } => first_failing_radical_claim(report, *radical, *a, *inclusion, bytes, numbers),
        _ => unreachable!(),
    }
}

/// The first condition on a local module or a decomposition that fails.
pub(crate) fn first_failing_on_local(
    report: &Report,
    k: u32,
    item: &Record,
    bytes: &mut [u8],
    numbers: &mut [u32],
) -> Option<Clause>
    requires report { IsReport report.now }
    requires there { record_of report.now.records k ≡ Some item.now }
    requires kind { IsOnLocal item.now.claim }
    requires room { HasClaimRoom item.now.claim bytes.old numbers.old }
    ensures { (w : NormalWords report.now.header) → IsAnswer (claim_conditions report.now.header (sides_by w) report.now.records item.now.claim) result }
{
    match &item.claim {
        Claim::Local {
            module,
            hom,
            ideal,
            power,
            residue,
        } => first_failing_local_claim(
            report, *module, *hom, ideal, *power, *residue, bytes, numbers,
        ),
        Claim::Decomposition {
            a,
            sum,
            to,
            back,
            parts,
        } => first_failing_decomposition_claim(
            report,
            *a,
            *sum,
            *to,
            *back,
            parts.as_slice(),
            numbers,
        ),
        _ => unreachable!(),
    }
}

/// The first condition on extensions, a translate or a transpose that fails.
pub(crate) fn first_failing_over_resolution(
    table: &Table,
    report: &Report,
    k: u32,
    item: &Record,
    bytes: &mut [u8],
    numbers: &mut [u32],
) -> Option<Clause>
    requires report { IsReport report.now }
    requires there { record_of report.now.records k ≡ Some item.now }
    requires kind { IsOverResolution item.now.claim }
    requires table { IsTableOf report.now table.now }
    requires room { HasClaimRoom item.now.claim bytes.old numbers.old }
    ensures { (w : NormalWords report.now.header) → IsAnswer (claim_conditions report.now.header (sides_by w) report.now.records item.now.claim) result }
{
    match &item.claim {
        Claim::Ext {
            n,
            a,
            b,
            rows,
            resolution,
        } => first_failing_extension_claim(
            table,
            report,
            *n,
            *a,
            *b,
            rows,
            *resolution,
            bytes,
            numbers,
        ),
        Claim::Translate {
            which,
            module,
            a,
            resolution,
            rows,
        } => first_failing_translate_claim(
            table,
            report,
            *which,
            *module,
            *a,
            *resolution,
            rows,
            bytes,
            numbers,
        ),
        _ => unreachable!(),
    }
}

/// The first condition on an almost split sequence that fails.
pub(crate) fn first_failing_of_sequence(
    table: &Table,
    report: &Report,
    k: u32,
    item: &Record,
    bytes: &mut [u8],
    numbers: &mut [u32],
) -> Option<Clause>
    requires report { IsReport report.now }
    requires there { record_of report.now.records k ≡ Some item.now }
    requires kind { IsSequence item.now.claim }
    requires table { IsTableOf report.now table.now }
    requires room { HasClaimRoom item.now.claim bytes.old numbers.old }
    ensures { (w : NormalWords report.now.header) → IsAnswer (claim_conditions report.now.header (sides_by w) report.now.records item.now.claim) result }
{
    let Claim::AlmostSplit {
        left,
        middle,
        right,
        f,
        g,
        resolution,
        local,
        phi,
        left_rows,
        middle_rows,
    } = &item.claim
    else {
        unreachable!()
    };
    first_failing_sequence_claim(
        table,
        report,
        *left,
        *middle,
        *right,
        *f,
        *g,
        *resolution,
        *local,
        phi,
        left_rows,
        middle_rows,
        bytes,
        numbers,
    )
}
