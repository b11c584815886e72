//! The parts of a decomposition, by their numbers.
ghost use Rattle.std.specs.Prelude.{◌≡◌, All, MatchBool};
ghost use Rattle.report_types.specs.declared.claims.PartClaim.{PartClaim as Part};
ghost use Rattle.report_types.specs.Numbers.{claim_of, NamesClaim};
ghost use Rattle.report_types.specs.NamedClaims.{IsLocalOf};
ghost use Rattle.report_types.specs.Conditions.{parts_of};
ghost use Rattle.claim_check.specs.NamedParts.{NameModules, AreLocal};

use crate::objects::claim_at;
use map_checks::Parts;
use module_types::Module;
use report_types::{Claim, PartClaim, Records, Report};
use std::marker::Model;

/// The modules that parts name among records, in their order. Contracts see the list of them.
#[derive(Drop)]
pub(crate) struct NamedParts<'a> {
    records: &'a Records,
    parts: &'a [PartClaim],
}

impl<'a> Model for NamedParts<'a> {
    ghost use Rattle.std.specs.Prelude.{List};
    ghost use Rattle.module_types.specs.declared.Module.{Module};
    ghost use Rattle.report_types.specs.Conditions.{parts_of};
    ghost use Rattle.claim_check.specs.NamedParts.{NameModules};

    ghost Value = { List Module };

    ghost view = { λ p. parts_of p.records.now p.parts.now };

    ghost invariant = { λ p. NameModules p.records.now p.parts.now };
}

impl<'a> NamedParts<'a> {
    /// The modules of these parts.
    pub(crate) fn of(records: &'a Records, parts: &'a [PartClaim]) -> NamedParts<'a>
        requires { NameModules records.now parts.now }
        ensures { result ≡ parts_of records.now parts.now }
    {
        NamedParts { records, parts }
    }
}

impl<'a> Parts for NamedParts<'a> {
    ghost modules = { λ p. p };

    fn count(&self) -> usize {
        self.parts.len()
    }

    fn part(&self, i: usize) -> &Module {
        match self.records.module(self.parts[i].module) {
            Some(found) => found,
            None => unreachable!(),
        }
    }
}

/// Whether the claim that a part names says that its module is local.
fn is_local(report: &Report, part: &PartClaim) -> bool
    requires { NamesClaim report.now.records part.now.local }
    ensures { MatchBool result (IsLocalOf (claim_of report.now.records part.now.local) part.now.module) (¬ IsLocalOf (claim_of report.now.records part.now.local) part.now.module) }
{
    match claim_at(report, part.local) {
        Claim::Local { module, .. } => *module == part.module,
        _ => false,
    }
}

/// Whether each part is a module of which the claim that it names says that it is local.
pub(crate) fn are_local(report: &Report, parts: &[PartClaim]) -> bool
    requires { All (λ (p : Part). NamesClaim report.now.records p.local) parts.now }
    ensures { MatchBool result (AreLocal report.now.records parts.now) (¬ AreLocal report.now.records parts.now) }
{
    for part in parts {
        if !is_local(report, part) {
            return false;
        }
    }
    true
}
