//! The first condition on a claim that fails, kind by kind.
ghost use Rattle.std.specs.Prelude.{ℕ, ◌≡◌, ◌≤◌, length, MatchBool};
ghost use Rattle.fp_linear.specs.Matrix.{PlainMatrix};
ghost use Rattle.claim_conditions.specs.Conditions.{IsAnswer};
ghost use Rattle.claim_conditions.specs.Modules.{Sides};
ghost use Rattle.report_types.specs.declared.claims.Claim.TheVariants as claim;
ghost use Rattle.report_types.specs.Numbers.{module_of, map_of, NamesModule, NamesMap};
ghost use Rattle.report_types.specs.ClaimBlocks.{IsHomBlock, IsKernelBlock, IsRadicalBlock, IsLocalBlock, IsDecompositionBlock};
ghost use Rattle.report_types.specs.Conditions.{Goes, claim_conditions};
ghost use Rattle.report_types.specs.Lawful.{IsReport};
ghost use Rattle.claim_check.specs.Room.{HasClaimRoom};

use crate::objects::{hom_at, map_at, module_at};
use crate::parts::{NamedParts, are_local};
use claim_conditions::{Clause, Residue};
use fp_linear::Matrix;
use map_checks::{
    first_failing_cokernel, first_failing_decomposition, first_failing_kernel,
    first_failing_radical,
};
use module_checks::first_failing_hom;
use report_types::{PartClaim, Report};
use residue_checks::first_failing_local;

/// Whether the map f goes from module a to module b, by their numbers.
pub(crate) fn goes(report: &Report, f: u32, a: u32, b: u32) -> bool
    requires { NamesMap report.now.records f }
    ensures { MatchBool result (Goes report.now.records f a b) (¬ Goes report.now.records f a b) }
{
    let map = map_at(report, f);
    if map.source != a {
        return false;
    }
    if map.target != b {
        return false;
    }
    true
}

pub(crate) fn first_failing_hom_claim(
    report: &Report,
    a: u32,
    b: u32,
    rows: &Matrix,
    bytes: &mut [u8],
    numbers: &mut [u32],
) -> Option<Clause>
    requires report { IsReport report.now }
    requires block { IsHomBlock report.now.header report.now.records a b rows.now }
    requires room { HasClaimRoom (claim.Hom a b rows.now) bytes.old numbers.old }
    ensures { (T : Sides report.now.header) → IsAnswer (claim_conditions report.now.header T report.now.records (claim.Hom a b rows.now)) result }
{
    let source = module_at(report, a);
    let target = module_at(report, b);
    let unknowns = rows.cols();
    let count = 2 * unknowns + 1;
    let room = count as usize * unknowns as usize;
    first_failing_hom(
        &report.header,
        source,
        target,
        rows,
        count,
        &mut bytes[..room],
        numbers,
    )
}

pub(crate) fn first_failing_kernel_claim(
    report: &Report,
    n: u32,
    f: u32,
    i: u32,
    bytes: &mut [u8],
    numbers: &mut [u32],
) -> Option<Clause>
    requires report { IsReport report.now }
    requires block { IsKernelBlock report.now.header report.now.records n f i }
    requires room { HasClaimRoom (claim.Kernel n f i) bytes.old numbers.old }
    ensures { (T : Sides report.now.header) → IsAnswer (claim_conditions report.now.header T report.now.records (claim.Kernel n f i)) result }
{
    let map = map_at(report, f);
    if !goes(report, i, n, map.source) {
        return Some(Clause::Objects);
    }
    let kernel = module_at(report, n);
    let source = module_at(report, map.source);
    let target = module_at(report, map.target);
    let inclusion = map_at(report, i);
    first_failing_kernel(
        &report.header,
        kernel,
        source,
        target,
        &map.matrices,
        &inclusion.matrices,
        bytes,
        numbers,
    )
}

pub(crate) fn first_failing_cokernel_claim(
    report: &Report,
    n: u32,
    f: u32,
    p: u32,
    bytes: &mut [u8],
    numbers: &mut [u32],
) -> Option<Clause>
    requires report { IsReport report.now }
    requires block { IsKernelBlock report.now.header report.now.records n f p }
    requires room { HasClaimRoom (claim.Cokernel n f p) bytes.old numbers.old }
    ensures { (T : Sides report.now.header) → IsAnswer (claim_conditions report.now.header T report.now.records (claim.Cokernel n f p)) result }
{
    let map = map_at(report, f);
    if !goes(report, p, map.target, n) {
        return Some(Clause::Objects);
    }
    let cokernel = module_at(report, n);
    let source = module_at(report, map.source);
    let target = module_at(report, map.target);
    let projection = map_at(report, p);
    first_failing_cokernel(
        &report.header,
        cokernel,
        source,
        target,
        &map.matrices,
        &projection.matrices,
        bytes,
        numbers,
    )
}

pub(crate) fn first_failing_radical_claim(
    report: &Report,
    n: u32,
    a: u32,
    i: u32,
    bytes: &mut [u8],
    numbers: &mut [u32],
) -> Option<Clause>
    requires report { IsReport report.now }
    requires block { IsRadicalBlock report.now.header report.now.records n a i }
    requires room { HasClaimRoom (claim.Radical n a i) bytes.old numbers.old }
    ensures { (T : Sides report.now.header) → IsAnswer (claim_conditions report.now.header T report.now.records (claim.Radical n a i)) result }
{
    if !goes(report, i, n, a) {
        return Some(Clause::Objects);
    }
    let radical = module_at(report, n);
    let whole = module_at(report, a);
    let inclusion = map_at(report, i);
    first_failing_radical(
        &report.header,
        radical,
        whole,
        &inclusion.matrices,
        bytes,
        numbers,
    )
}

/// Whether both numbers are that of module m.
pub(crate) fn are_of(a: u32, b: u32, m: u32) -> bool
    ensures { MatchBool result ((a ≡ m) × (b ≡ m)) (¬ ((a ≡ m) × (b ≡ m))) }
{
    if a != m {
        return false;
    }
    if b != m {
        return false;
    }
    true
}

pub(crate) fn first_failing_local_claim(
    report: &Report,
    m: u32,
    c: u32,
    ideal: &Matrix,
    power: u32,
    residue: Residue,
    bytes: &mut [u8],
    numbers: &mut [u32],
) -> Option<Clause>
    requires report { IsReport report.now }
    requires block { IsLocalBlock report.now.header report.now.records m c ideal.now power }
    requires room { HasClaimRoom (claim.Local m c ideal.now power residue) bytes.old numbers.old }
    ensures { (T : Sides report.now.header) → IsAnswer (claim_conditions report.now.header T report.now.records (claim.Local m c ideal.now power residue)) result }
{
    let (a, b, rows) = hom_at(report, c);
    if !are_of(a, b, m) {
        return Some(Clause::Objects);
    }
    let whole = module_at(report, m);
    first_failing_local(
        &report.header,
        whole,
        rows,
        ideal,
        power,
        residue,
        bytes,
        numbers,
    )
}

pub(crate) fn first_failing_decomposition_claim(
    report: &Report,
    a: u32,
    s: u32,
    f: u32,
    g: u32,
    parts: &[PartClaim],
    numbers: &mut [u32],
) -> Option<Clause>
    requires report { IsReport report.now }
    requires block { IsDecompositionBlock report.now.header report.now.records a s f g parts.now }
    requires room { 32 ≤ length numbers.old }
    ensures { (T : Sides report.now.header) → IsAnswer (claim_conditions report.now.header T report.now.records (claim.Decomposition a s f g parts.now)) result }
{
    if !goes(report, f, s, a) {
        return Some(Clause::Objects);
    }
    if !goes(report, g, a, s) {
        return Some(Clause::Objects);
    }
    if !are_local(report, parts) {
        return Some(Clause::Objects);
    }
    let whole = module_at(report, a);
    let sum = module_at(report, s);
    let to = map_at(report, f);
    let back = map_at(report, g);
    let modules = NamedParts::of(&report.records, parts);
    first_failing_decomposition(
        &report.header,
        whole,
        sum,
        &modules,
        &to.matrices,
        &back.matrices,
        numbers,
    )
}
