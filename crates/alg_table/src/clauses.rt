//! The conditions on the steps and the rules of a claim: that the steps name what is there, and that each rule is derived.
ghost use Rattle.std.specs.Prelude.{ℕ, ◌≡◌, ◌<◌, ◌≤◌, ◌+◌, ◌↔◌, List, length, map, IfOk, All, IsTrue, MatchBool};
ghost use Rattle.linear_algebra.specs.Field.{order};
ghost use Rattle.quiver_paths.specs.declared.Path.{Path};
ghost use Rattle.quiver_paths.specs.Path.{IsPath, path_length};
ghost use Rattle.path_algebra.specs.declared.Term.{Term};
ghost use Rattle.path_algebra.specs.declared.rules.Element.{Element};
ghost use Rattle.path_algebra.specs.declared.rules.Rule.{Rule};
ghost use Rattle.path_algebra.specs.Allowed.{IsAllowed};
ghost use Rattle.path_algebra.specs.Rules.{AreElementTerms};
ghost use Rattle.path_algebra.specs.Derivations.{IsNumber, NamesEarlier, AreSteps, step_elements};
ghost use Rattle.path_algebra.specs.BasisClauses.{StepsHold, RulesHold, RuleHolds, HasFactor};
ghost use Rattle.path_algebra.specs.ElementTerms.{AreTermsOf, IsRuleOf, negative};

use crate::elements::elements_for_rules;
use fp_linear::Field;
use path_algebra::{Element, Header, Rule, Step, Term};
use std::alloc::{AllocError, Global};

/// Whether each step names what stands before it, and each rule a step.
pub(crate) fn steps_hold(header: &Header, steps: &[Step], rules: &[Rule]) -> bool
    ensures { MatchBool result (StepsHold header.now steps.now rules.now) (¬ StepsHold header.now steps.now rules.now) }
{
    steps_name_earlier(header, steps) && rules_name_steps(steps.len(), rules)
}

/// Whether each step names what stands before it.
fn steps_name_earlier(header: &Header, steps: &[Step]) -> bool
    ensures { MatchBool result (AreSteps header.now steps.now) (¬ AreSteps header.now steps.now) }
{
    for (k, step) in steps.iter().enumerate() {
        if !names_earlier(header, k, *step) {
            return false;
        }
    }
    true
}

/// Whether what the step names stands before it, `earlier` steps being there.
fn names_earlier(header: &Header, earlier: usize, step: Step) -> bool
    ensures { MatchBool result (NamesEarlier header.now earlier step) (¬ NamesEarlier header.now earlier step) }
{
    match step {
        Step::Relation(relation) => is_number(header.relations.len(), relation),
        Step::Left(arrow, number) => {
            (arrow as usize) < header.quiver.arrows.len() && is_number(earlier, number)
        }
        Step::Right(number, arrow) => {
            is_number(earlier, number) && (arrow as usize) < header.quiver.arrows.len()
        }
        Step::Add(number, _factor, other) => is_number(earlier, number)
            && is_number(earlier, other),
    }
}

/// Whether this is a number from 1 to the last.
fn is_number(last: usize, number: u32) -> bool
    ensures { MatchBool result (IsNumber last number) (¬ IsNumber last number) }
{
    1 <= number && number as usize <= last
}

/// Whether each rule names one of so many steps.
fn rules_name_steps(steps: usize, rules: &[Rule]) -> bool
    ensures { MatchBool result (All (λ (rule : Rule). IsNumber steps rule.step) rules.now) (¬ (All (λ (rule : Rule). IsNumber steps rule.step) rules.now)) }
{
    for rule in rules {
        if !is_number(steps, rule.step) {
            return false;
        }
    }
    true
}

/// Whether each rule's tip is shorter than the bound and greater than each path of its tail, and the tip less the tail is the element of the
/// rule's step.
pub(crate) fn rules_hold(
    alloc: Global,
    header: &Header,
    steps: &[Step],
    rules: &[Rule],
) -> Result<bool, AllocError>
    requires allowed { IsAllowed header.now }
    requires steps { StepsHold header.now steps.now rules.now }
    requires factors { All (HasFactor header.now) steps.now }
    requires tips { All (λ (rule : Rule). IsPath header.now.quiver rule.tip) rules.now }
    requires tails { All (λ (rule : Rule). AreElementTerms header.now rule.tail.terms) rules.now }
    ensures { IfOk result (λ holds. MatchBool holds (RulesHold header.now steps.now rules.now) (¬ RulesHold header.now steps.now rules.now)) }
{
    let elements = elements_for_rules(alloc, header, steps, rules)?;
    for rule in rules {
        let element = &elements[rule.step as usize - 1];
        if !is_rule_of(header, rule, element.terms.as_slice()) {
            return Ok(false);
        }
    }
    Ok(true)
}

/// Whether the tip is shorter than the bound, and the terms are those of the tip less the tail.
fn is_rule_of(header: &Header, rule: &Rule, terms: &[Term]) -> bool
    requires tail { AreElementTerms header.now rule.now.tail.terms }
    ensures { MatchBool result (IsRuleOf header.now rule.now terms.now) (¬ IsRuleOf header.now rule.now terms.now) }
{
    let tail = rule.tail.terms.as_slice();
    if rule.tip.arrows.len() >= header.bound as usize {
        return false;
    }
    if terms.len() != tail.len() + 1 || !is_tip_term(&terms[0], rule) {
        return false;
    }
    are_negatives(header.field, tail, &terms[1..])
}

/// Whether the term is the rule's tip with the coefficient 1.
fn is_tip_term(term: &Term, rule: &Rule) -> bool
    ensures { MatchBool result (term.now ≡ record { coef = 1; path = rule.now.tip }) (¬ (term.now ≡ record { coef = 1; path = rule.now.tip })) }
{
    term.coef == 1 && term.path == rule.tip
}

/// Whether the terms are the negatives of those of the tail.
fn are_negatives(field: Field, tail: &[Term], terms: &[Term]) -> bool
    requires count { length terms.now ≡ length tail.now }
    requires small { All (λ (a : Term). a.coef < order field) tail.now }
    ensures { MatchBool result (terms.now ≡ map (negative field) tail.now) (¬ (terms.now ≡ map (negative field) tail.now)) }
{
    for (i, term) in tail.iter().enumerate() {
        if !is_negative(field, term, &terms[i]) {
            return false;
        }
    }
    true
}

/// Whether the second term is the negative of the first.
fn is_negative(field: Field, term: &Term, other: &Term) -> bool
    requires { term.now.coef < order field }
    ensures { MatchBool result (other.now ≡ negative field term.now) (¬ (other.now ≡ negative field term.now)) }
{
    other.coef == field.neg(term.coef) && other.path == term.path
}
