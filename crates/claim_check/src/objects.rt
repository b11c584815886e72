//! Modules and maps by their numbers, and whether those of a record are what they are said to be.
ghost use Rattle.std.specs.Prelude.{◌≡◌, ◌≤◌, length, map, All, MatchBool};
ghost use Rattle.module_types.specs.declared.Module.{Module};
ghost use Rattle.module_types.specs.declared.Map.{Map};
ghost use Rattle.claim_conditions.specs.Conditions.{IsAnswer};
ghost use Rattle.claim_conditions.specs.Modules.{ModuleHolds, object_conditions};
ghost use Rattle.report_types.specs.Numbers.{module_of, map_of, claim_of, printed, NamesModule, NamesMap, NamesClaim};
ghost use Rattle.report_types.specs.declared.claims.Claim.TheVariants as claim;
ghost use Rattle.report_types.specs.NamedClaims.{IsHomClaim};
ghost use Rattle.report_types.specs.Holding.{IsHomomorphism};
ghost use Rattle.report_types.specs.Lawful.{IsReport, IsModuleBlock, IsMapBlock};
ghost use Rattle.claim_check.specs.Room.{HasObjectRoom};

use claim_conditions::Clause;
use fp_linear::Matrix;
use module_checks::{is_homomorphism, is_module};
use module_types::{Map, Module};
use path_algebra::Header;
use report_types::{Claim, Record, Report};
use std::alloc::{AllocError, Global};

/// The module with this number.
pub(crate) fn module_at(report: &Report, n: u32) -> &Module
    requires { NamesModule report.now.records n }
    ensures { result.now ≡ module_of report.now.records n }
{
    match report.records.module(n) {
        Some(found) => found,
        None => unreachable!(),
    }
}

/// The map with this number.
pub(crate) fn map_at(report: &Report, n: u32) -> &Map
    requires { NamesMap report.now.records n }
    ensures { result.now ≡ map_of report.now.records n }
{
    match report.records.map(n) {
        Some(found) => found,
        None => unreachable!(),
    }
}

/// The claim with this number.
pub(crate) fn claim_at(report: &Report, n: u32) -> &Claim
    requires { NamesClaim report.now.records n }
    ensures { result.now ≡ claim_of report.now.records n }
{
    match report.records.claim(n) {
        Some(found) => found,
        None => unreachable!(),
    }
}

/// The claim on homomorphisms with this number: the numbers of the modules, and the rows.
pub(crate) fn hom_at(report: &Report, n: u32) -> (u32, u32, &Matrix)
    requires named { NamesClaim report.now.records n }
    requires homs { IsHomClaim (claim_of report.now.records n) }
    ensures { claim_of report.now.records n ≡ claim.Hom result.0 result.1 result.2.now }
{
    let found = claim_at(report, n);
    let Claim::Hom { a, b, rows } = found else {
        unreachable!()
    };
    (*a, *b, rows)
}

/// Whether a module is one over the algebra.
fn module_holds(report: &Report, m: &Module, bytes: &mut [u8], numbers: &mut [u32]) -> bool
    requires report { IsReport report.now }
    requires m { IsModuleBlock report.now.header m.now }
    requires room { HasObjectRoom bytes.old numbers.old }
    ensures { MatchBool result (ModuleHolds report.now.header m.now) (¬ ModuleHolds report.now.header m.now) }
{
    let dim = m.dimension() as usize;
    let rows = 2 * dim + 1;
    let (images, rest) = bytes.split_at_mut(rows * dim);
    is_module(
        &report.header,
        m,
        rows as u32,
        images,
        &mut rest[..rows * dim],
        numbers,
    )
}

fn modules_hold(report: &Report, modules: &[Module], bytes: &mut [u8], numbers: &mut [u32]) -> bool
    requires report { IsReport report.now }
    requires modules { All (IsModuleBlock report.now.header) modules.now }
    requires room { HasObjectRoom bytes.old numbers.old }
    ensures { MatchBool result (All (ModuleHolds report.now.header) modules.now) (¬ All (ModuleHolds report.now.header) modules.now) }
{
    for m in modules {
        if !module_holds(report, m, bytes, numbers) {
            return false;
        }
    }
    true
}

/// Whether a map is a homomorphism between modules of one side.
fn map_holds(report: &Report, f: &Map) -> bool
    requires report { IsReport report.now }
    requires f { IsMapBlock report.now.header report.now.records f.now }
    ensures { MatchBool result (IsHomomorphism report.now.header report.now.records f.now) (¬ IsHomomorphism report.now.header report.now.records f.now) }
{
    let source = module_at(report, f.source);
    let target = module_at(report, f.target);
    is_homomorphism(&report.header, source, target, &f.matrices)
}

fn maps_hold(report: &Report, maps: &[Map]) -> bool
    requires report { IsReport report.now }
    requires maps { All (IsMapBlock report.now.header report.now.records) maps.now }
    ensures { MatchBool result
        (All (IsHomomorphism report.now.header report.now.records) maps.now)
        (¬ All (IsHomomorphism report.now.header report.now.records) maps.now) }
{
    for f in maps {
        if !map_holds(report, f) {
            return false;
        }
    }
    true
}

/// The first condition on the objects of a record that fails.
pub(crate) fn first_failing_object(
    report: &Report,
    item: &Record,
    bytes: &mut [u8],
    numbers: &mut [u32],
) -> Option<Clause>
    requires report { IsReport report.now }
    requires modules { All (IsModuleBlock report.now.header) item.now.modules }
    requires maps { All (IsMapBlock report.now.header report.now.records) item.now.maps }
    requires room { HasObjectRoom bytes.old numbers.old }
    ensures { IsAnswer (object_conditions report.now.header item.now.modules (map (printed report.now.records) item.now.maps)) result }
{
    if !modules_hold(report, item.modules.as_slice(), bytes, numbers) {
        return Some(Clause::Relations);
    }
    if !maps_hold(report, item.maps.as_slice()) {
        return Some(Clause::Commutes);
    }
    None
}
