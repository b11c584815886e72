//! Whether rules are reduced: their tips ascend, and nothing that they say has a tip within.
ghost use Rattle.std.specs.Prelude.{◌≡◌, ◌<◌, ◌≤◌, length, All, MatchBool};
ghost use Rattle.quiver_paths.specs.Path.{IsPath, path_length};
ghost use Rattle.quiver_paths.specs.PathOrder.{IsSmaller};
ghost use Rattle.path_algebra.specs.declared.Term.{Term};
ghost use Rattle.path_algebra.specs.declared.rules.Rule.{Rule};
ghost use Rattle.path_algebra.specs.Rules.{AreElementTerms};
ghost use Rattle.path_algebra.specs.Reduction.{HasNoTip};
ghost use Rattle.path_algebra.specs.BasisClauses.{ReducedHolds};
ghost use Rattle.path_algebra.specs.Occurring.{AreLongTips, TipsAscend, IsReducedAmong, HasTip, EndsInTip};

use path_algebra::{Header, Rule, Term, ends_in_tip, has_tip};
use quiver_paths::{Path, compare};
use std::cmp::Ordering;

/// Whether the tips ascend, no tip has another tip as a factor, and no path of a tail has a tip as a factor.
///
/// The tips are paths with two arrows or more. Each factor of a path is looked for among the tips by halving, so the time grows with the number of
/// rules little faster than in proportion.
pub(crate) fn reduced_holds(header: &Header, rules: &[Rule]) -> bool
    requires tips { AreLongTips header.now rules.now }
    requires tails { All (λ (rule : Rule). AreElementTerms header.now rule.tail.terms) rules.now }
    ensures { MatchBool result (ReducedHolds header.now rules.now) (¬ ReducedHolds header.now rules.now) }
{
    if !tips_ascend(rules) {
        return false;
    }
    for rule in rules {
        if !is_reduced_among(header, rules, rule) {
            return false;
        }
    }
    true
}

/// Whether each tip is smaller than the next.
fn tips_ascend(rules: &[Rule]) -> bool
    ensures { MatchBool result (TipsAscend rules.now) (¬ TipsAscend rules.now) }
{
    for next in 1..rules.len() {
        if !is_smaller(&rules[next - 1].tip, &rules[next].tip) {
            return false;
        }
    }
    true
}

/// Whether the first path is smaller than the second.
pub(crate) fn is_smaller(a: &Path, b: &Path) -> bool
    ensures { MatchBool result (IsSmaller a.now b.now) (¬ IsSmaller a.now b.now) }
{
    match compare(a, b) {
        Ordering::Less => true,
        Ordering::Equal | Ordering::Greater => false,
    }
}

/// Whether no other tip is a factor of the rule's tip, and no tip is a factor of a path of its tail.
fn is_reduced_among(header: &Header, rules: &[Rule], rule: &Rule) -> bool
    requires tips { AreLongTips header.now rules.now }
    requires ascending { TipsAscend rules.now }
    requires path { IsPath header.now.quiver rule.now.tip }
    requires long { 2 ≤ path_length rule.now.tip }
    requires tail { AreElementTerms header.now rule.now.tail.terms }
    ensures { MatchBool result (IsReducedAmong header.now rules.now rule.now) (¬ IsReducedAmong header.now rules.now rule.now) }
{
    let arrows = rule.tip.arrows.as_slice();
    if has_tip(rules, &arrows[..arrows.len() - 1]) {
        return false;
    }
    if ends_in_tip(rules, &arrows[1..]) {
        return false;
    }
    has_no_tip(header, rules, rule.tail.terms.as_slice())
}

/// Whether no path of the terms has a tip as a factor.
fn has_no_tip(header: &Header, rules: &[Rule], terms: &[Term]) -> bool
    requires tips { AreLongTips header.now rules.now }
    requires ascending { TipsAscend rules.now }
    requires terms { AreElementTerms header.now terms.now }
    ensures { MatchBool result (All (λ (a : Term). HasNoTip header.now rules.now a.path) terms.now) (¬ (All (λ (a : Term). HasNoTip header.now rules.now a.path) terms.now)) }
{
    for term in terms {
        if has_tip(rules, term.path.arrows.as_slice()) {
            return false;
        }
    }
    true
}
