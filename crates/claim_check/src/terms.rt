//! The first condition on a claim that fails, of the kinds that have terms of resolutions.
ghost use Rattle.std.specs.Prelude.{ℕ, ◌≡◌, ◌≤◌, ◌<◌, length, MatchBool};
ghost use Rattle.claim_conditions.specs.Conditions.{IsAnswer};
ghost use Rattle.report_types.specs.declared.claims.Claim.TheVariants as claim;
ghost use Rattle.report_types.specs.declared.claims.Translation.TheVariants.{Tau as TauIs, Transpose as TransposeIs, Taui as TauiIs};
ghost use Rattle.report_types.specs.Numbers.{claim_of, NamesClaim};
ghost use Rattle.report_types.specs.NamedClaims.{HasLength};
ghost use Rattle.report_types.specs.ClaimBlocks.{IsResolutionBlock, IsExtensionBlock, IsTranslateBlock};
ghost use Rattle.report_types.specs.Conditions.{claim_conditions};
ghost use Rattle.report_types.specs.Lawful.{IsReport};
ghost use Rattle.report_types.specs.Verdicts.{NormalWords, sides_by};
ghost use Rattle.claim_check.specs.ClaimVerdicts.{IsTableOf};
ghost use Rattle.claim_check.specs.Room.{HasClaimRoom};

use crate::objects::{claim_at, module_at};
use alg_table::Table;
use claim_conditions::Clause;
use cover_checks::first_failing_resolution;
use extension_checks::first_failing_extension;
use fp_linear::Matrix;
use module_types::TermRows;
use report_types::{Claim, Report, Translation};
use seq::Seq;
use translate_checks::{first_failing_tau, first_failing_taui, first_failing_transpose};

/// The resolution with this number, of which the length is known: the number of its module, its length and its terms.
pub(crate) fn resolution_at(report: &Report, n: u32) -> (u32, u32, &Seq<TermRows>)
    requires named { NamesClaim report.now.records n }
    requires resolution { (m : ℕ) × HasLength (claim_of report.now.records n) m }
    ensures { claim_of report.now.records n ≡ claim.Resolution result.0 result.1 result.2.now }
{
    let found = claim_at(report, n);
    let Claim::Resolution { a, n, terms } = found else {
        unreachable!()
    };
    (*a, *n, terms)
}

pub(crate) fn first_failing_resolution_claim(
    table: &Table,
    report: &Report,
    a: u32,
    n: u32,
    terms: &Seq<TermRows>,
    bytes: &mut [u8],
    numbers: &mut [u32],
) -> Option<Clause>
    requires report { IsReport report.now }
    requires table { IsTableOf report.now table.now }
    requires block { IsResolutionBlock report.now.header report.now.records a n terms.now }
    requires room { HasClaimRoom (claim.Resolution a n terms.now) bytes.old numbers.old }
    ensures { (w : NormalWords report.now.header) → IsAnswer (claim_conditions report.now.header (sides_by w) report.now.records (claim.Resolution a n terms.now)) result }
{
    let whole = module_at(report, a);
    let answer = first_failing_resolution(table, whole, terms, n, bytes, numbers);
    answer
}

pub(crate) fn first_failing_extension_claim(
    table: &Table,
    report: &Report,
    n: u32,
    a: u32,
    b: u32,
    rows: &Matrix,
    c: u32,
    bytes: &mut [u8],
    numbers: &mut [u32],
) -> Option<Clause>
    requires report { IsReport report.now }
    requires table { IsTableOf report.now table.now }
    requires block { IsExtensionBlock report.now.header report.now.records n a b rows.now c }
    requires room { HasClaimRoom (claim.Ext n a b rows.now c) bytes.old numbers.old }
    ensures { (w : NormalWords report.now.header) → IsAnswer (claim_conditions report.now.header (sides_by w) report.now.records (claim.Ext n a b rows.now c)) result }
{
    let (of, _length, terms) = resolution_at(report, c);
    if of != a {
        return Some(Clause::Objects);
    }
    let source = module_at(report, a);
    let target = module_at(report, b);
    let answer = first_failing_extension(table, source, target, terms, n, rows, bytes, numbers);
    answer
}

fn first_failing_tau_claim(
    table: &Table,
    report: &Report,
    n: u32,
    a: u32,
    c: u32,
    rows: &Seq<Matrix>,
    bytes: &mut [u8],
    numbers: &mut [u32],
) -> Option<Clause>
    requires report { IsReport report.now }
    requires table { IsTableOf report.now table.now }
    requires block { IsTranslateBlock report.now.header report.now.records TauIs n a c rows.now }
    requires room { HasClaimRoom (claim.Translate TauIs n a c rows.now) bytes.old numbers.old }
    ensures { (w : NormalWords report.now.header) → IsAnswer (claim_conditions report.now.header (sides_by w) report.now.records (claim.Translate TauIs n a c rows.now)) result }
{
    let (of, _length, terms) = resolution_at(report, c);
    if of != a {
        return Some(Clause::Objects);
    }
    let translate = module_at(report, n);
    let whole = module_at(report, a);
    let answer = first_failing_tau(table, translate, whole, terms, rows, bytes, numbers);
    answer
}

fn first_failing_transpose_claim(
    table: &Table,
    report: &Report,
    n: u32,
    a: u32,
    c: u32,
    rows: &Seq<Matrix>,
    bytes: &mut [u8],
    numbers: &mut [u32],
) -> Option<Clause>
    requires report { IsReport report.now }
    requires table { IsTableOf report.now table.now }
    requires block { IsTranslateBlock report.now.header report.now.records TransposeIs n a c rows.now }
    requires room { HasClaimRoom (claim.Translate TransposeIs n a c rows.now) bytes.old numbers.old }
    ensures { (w : NormalWords report.now.header) → IsAnswer (claim_conditions report.now.header (sides_by w) report.now.records (claim.Translate TransposeIs n a c rows.now)) result }
{
    let (of, _length, terms) = resolution_at(report, c);
    if of != a {
        return Some(Clause::Objects);
    }
    let transpose = module_at(report, n);
    let whole = module_at(report, a);
    let answer = first_failing_transpose(table, transpose, whole, terms, rows, bytes, numbers);
    answer
}

fn first_failing_taui_claim(
    table: &Table,
    report: &Report,
    n: u32,
    a: u32,
    b: u32,
    c: u32,
    rows: &Seq<Matrix>,
    bytes: &mut [u8],
    numbers: &mut [u32],
) -> Option<Clause>
    requires report { IsReport report.now }
    requires table { IsTableOf report.now table.now }
    requires block { IsTranslateBlock report.now.header report.now.records (TauiIs b) n a c rows.now }
    requires room { HasClaimRoom (claim.Translate (TauiIs b) n a c rows.now) bytes.old numbers.old }
    ensures { (w : NormalWords report.now.header) → IsAnswer (claim_conditions report.now.header (sides_by w) report.now.records (claim.Translate (TauiIs b) n a c rows.now)) result }
{
    let (of, _length, terms) = resolution_at(report, c);
    if of != b {
        return Some(Clause::Objects);
    }
    let translate = module_at(report, n);
    let whole = module_at(report, a);
    let dual = module_at(report, b);
    let answer = first_failing_taui(table, translate, whole, dual, terms, rows, bytes, numbers);
    answer
}

pub(crate) fn first_failing_translate_claim(
    table: &Table,
    report: &Report,
    which: Translation,
    n: u32,
    a: u32,
    c: u32,
    rows: &Seq<Matrix>,
    bytes: &mut [u8],
    numbers: &mut [u32],
) -> Option<Clause>
    requires report { IsReport report.now }
    requires table { IsTableOf report.now table.now }
    requires block { IsTranslateBlock report.now.header report.now.records which n a c rows.now }
    requires room { HasClaimRoom (claim.Translate which n a c rows.now) bytes.old numbers.old }
    ensures { (w : NormalWords report.now.header) → IsAnswer (claim_conditions report.now.header (sides_by w) report.now.records (claim.Translate which n a c rows.now)) result }
{
    match which {
        Translation::Tau => {
            first_failing_tau_claim(table, report, n, a, c, rows, bytes, numbers)
        }
        Translation::Transpose => {
            first_failing_transpose_claim(table, report, n, a, c, rows, bytes, numbers)
        }
        Translation::Taui { dual } => {
            first_failing_taui_claim(table, report, n, a, dual, c, rows, bytes, numbers)
        }
    }
}
