//! The first condition on a claim that fails, of almost split sequences.
ghost use Rattle.std.specs.Prelude.{ℕ, ◌≡◌, MatchBool};
ghost use Rattle.claim_conditions.specs.declared.Residue.{Residue};
ghost use Rattle.claim_conditions.specs.Conditions.{IsAnswer};
ghost use Rattle.report_types.specs.declared.claims.Claim.TheVariants as claim;
ghost use Rattle.report_types.specs.Numbers.{claim_of, NamesMap, NamesClaim};
ghost use Rattle.report_types.specs.NamedClaims.{IsLocalClaim};
ghost use Rattle.report_types.specs.ClaimBlocks.{NamesResolution, IsSequenceBlock};
ghost use Rattle.report_types.specs.Conditions.{NameSequence, claim_conditions};
ghost use Rattle.report_types.specs.Lawful.{IsReport};
ghost use Rattle.report_types.specs.Verdicts.{NormalWords, sides_by};
ghost use Rattle.claim_check.specs.ClaimVerdicts.{IsTableOf};
ghost use Rattle.claim_check.specs.Room.{HasClaimRoom};

use crate::kinds::{are_of, goes};
use crate::objects::{claim_at, hom_at, map_at, module_at};
use crate::terms::resolution_at;
use alg_table::Table;
use claim_conditions::Clause;
use fp_linear::Matrix;
use report_types::{Claim, Report};
use seq::Seq;
use sequence_checks::first_failing_sequence;

/// The claim on a local module with this number: the numbers of the module and of the claim on its endomorphisms, and the ideal.
fn local_at(report: &Report, n: u32) -> (u32, u32, &Matrix)
    requires named { NamesClaim report.now.records n }
    requires local { IsLocalClaim (claim_of report.now.records n) }
    ensures { (power : ℕ) × (residue : Residue) × (claim_of report.now.records n ≡ claim.Local result.0 result.1 result.2.now power residue) }
{
    let found = claim_at(report, n);
    let Claim::Local {
        module,
        hom,
        ideal,
        power,
        residue,
    } = found
    else {
        unreachable!()
    };
    (*module, *hom, ideal)
}

/// Whether the numbers of a sequence say that the resolution and the certificate are those of its right end, and that the maps go along it.
fn names_sequence(report: &Report, n: u32, e: u32, a: u32, f: u32, g: u32, c: u32, l: u32) -> bool
    requires report { IsReport report.now }
    requires first { NamesMap report.now.records f }
    requires second { NamesMap report.now.records g }
    requires resolution { NamesResolution report.now.header report.now.records c 1 }
    requires certificate { NamesClaim report.now.records l }
    requires local { IsLocalClaim (claim_of report.now.records l) }
    ensures { MatchBool result (NameSequence report.now.records n e a f g c l) (¬ NameSequence report.now.records n e a f g c l) }
{
    let (of, _length, _terms) = resolution_at(report, c);
    if of != a {
        return false;
    }
    let (module, hom, _ideal) = local_at(report, l);
    if module != a {
        return false;
    }
    let (x, y, _rows) = hom_at(report, hom);
    if !are_of(x, y, a) {
        return false;
    }
    if !goes(report, f, n, e) {
        return false;
    }
    goes(report, g, e, a)
}

pub(crate) fn first_failing_sequence_claim(
    table: &Table,
    report: &Report,
    n: u32,
    e: u32,
    a: u32,
    f: u32,
    g: u32,
    c: u32,
    l: u32,
    phi: &Seq<u8>,
    left: &Seq<Matrix>,
    middle: &Seq<Matrix>,
    bytes: &mut [u8],
    numbers: &mut [u32],
) -> Option<Clause>
    requires report { IsReport report.now }
    requires table { IsTableOf report.now table.now }
    requires block { IsSequenceBlock report.now.header report.now.records n e a f g c l phi.now left.now middle.now }
    requires room { HasClaimRoom (claim.AlmostSplit n e a f g c l phi.now left.now middle.now) bytes.old numbers.old }
    ensures { (w : NormalWords report.now.header) → IsAnswer (claim_conditions report.now.header (sides_by w) report.now.records (claim.AlmostSplit n e a f g c l phi.now left.now middle.now)) result }
{
    if !names_sequence(report, n, e, a, f, g, c, l) {
        return Some(Clause::Objects);
    }
    let (_of, _length, terms) = resolution_at(report, c);
    let (_module, hom, ideal) = local_at(report, l);
    let (_x, _y, basis) = hom_at(report, hom);
    let begins = module_at(report, n);
    let between = module_at(report, e);
    let ends = module_at(report, a);
    let first = map_at(report, f);
    let second = map_at(report, g);
    let answer = first_failing_sequence(
        table,
        begins,
        between,
        ends,
        &first.matrices,
        &second.matrices,
        terms,
        basis,
        ideal,
        phi,
        left,
        middle,
        bytes,
        numbers,
    );
    answer
}
