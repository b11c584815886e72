//! What rules say, between two paths, as elements; and rules from elements.
ghost use Rattle.std.specs.Prelude.{ℕ, ◌≡◌, ◌<◌, ◌≤◌, ◌+◌, ◌^◌, length, map, drop, slice_index_or, All, IfOk, OnOk};
ghost use Rattle.linear_algebra.specs.Field.{order};
ghost use Rattle.quiver_paths.specs.declared.Path.{Path};
ghost use Rattle.quiver_paths.specs.Path.{IsPath, path_length};
ghost use Rattle.path_algebra.specs.declared.Term.{Term};
ghost use Rattle.path_algebra.specs.Allowed.{IsAllowed};
ghost use Rattle.path_algebra.specs.Elements.{path_element, sum_of_terms};
ghost use Rattle.path_algebra.specs.Rules.{AreElementTerms, rule_element};
ghost use Rattle.path_algebra.specs.ElementTerms.{AreTermsOf, negative, rule_terms};
ghost use Rattle.path_algebra.specs.Reduction.{HasNoTip};
ghost use Rattle.path_reduction.specs.Gaps.{IsTidy, AreTidy};
ghost use Rattle.path_reduction.specs.NewRules.{AreParallel};
ghost use Rattle.path_reduction.specs.NewRules.{IsNewTo};
ghost use Rattle.path_reduction.specs.Occurrences.{StandsAt};
ghost use Rattle.path_reduction.specs.Derived.{Derives, Lengthens, rule_between};

use crate::making::derive_between;
use crate::monic::monic;
use crate::reducing::{Derived, tail_between};
use path_algebra::{Element, Header, Rule, Step, Term, plus_multiple};
use quiver_paths::Path;
use seq::Seq;
use std::alloc::{AllocError, Global};

/// What the rule says, between what stands before its tip in the path and what stands behind it, and its derivation: the terms of u·(tip − tail)·v,
/// where the path is u·tip·v and u has `before` arrows. At most 32 steps are added.
///
/// `AllocError` comes for want of memory; steps may have been added then.
pub fn element_between(
    alloc: Global,
    header: &Header,
    steps: &mut Vec<Step>,
    rule: &Rule,
    path: &Path,
    before: usize,
) -> Result<Derived, AllocError>
    requires allowed { IsAllowed header.now }
    requires tidy { IsTidy header.now rule.now }
    requires path { IsPath header.now.quiver path.now }
    requires short { path_length path.now ≤ header.now.bound }
    requires stands { StandsAt rule.now path.now.arrows before }
    requires room { length steps.old.items + 32 < 2 ^ 32 }
    ensures terms { IfOk result (λ d. AreTermsOf header.now (rule_between header.now rule.now path.now before) d.terms.items) }
    ensures count { OnOk result (length steps.new.items ≤ length steps.old.items + 32) }
    ensures lengthens { OnOk result (Lengthens steps.old.items steps.new.items) }
    ensures makes { IfOk result (λ d. Derives header.now steps.old.items rule.now.step (rule_element header.now rule.now)
        → Derives header.now steps.new.items d.step (rule_between header.now rule.now path.now before)) }
{
    let tail = tail_between(alloc, header, rule, path, before)?;
    let whole = terms_of_path(alloc, header, path)?;
    let terms = plus_multiple(alloc, header, &whole, header.field.neg(1), &tail)?;
    let step = derive_between(steps, rule, path, before)?;
    Ok(Derived { terms, step })
}

/// The path as an element: one term, or none where the path has the bound's length or more.
fn terms_of_path(alloc: Global, header: &Header, path: &Path) -> Result<Vec<Term>, AllocError>
    requires { IsPath header.now.quiver path.now }
    ensures { IfOk result (λ terms. AreTermsOf header.now (path_element header.now.bound path.now) terms.items) }
{
    let mut terms = Vec::new(alloc);
    if path.arrows.len() >= header.bound as usize {
        return Ok(terms);
    }
    let path = path.clone()?;
    terms.push(Term { coef: 1, path })?;
    Ok(terms)
}

/// The rule that says that the element is zero, and its derivation: at most one step is added. The element is not zero, its paths are parallel, and
/// no tip of the rules occurs in them.
///
/// `AllocError` comes for want of memory; a step may have been added then.
pub fn new_rule(
    alloc: Global,
    header: &Header,
    rules: &[Rule],
    steps: &mut Vec<Step>,
    given: Derived,
) -> Result<Rule, AllocError>
    requires allowed { IsAllowed header.now }
    requires tidy { AreTidy header.now rules.now }
    requires terms { AreElementTerms header.now given.terms.items }
    requires some { 0 < length given.terms.items }
    requires parallel { AreParallel given.terms.items }
    requires no_tip { All (λ (a : Term). HasNoTip header.now rules.now a.path) given.terms.items }
    requires derives { Derives header.now steps.old.items given.step (sum_of_terms header.now.field header.now.bound given.terms.items) }
    requires room { length steps.old.items + 1 < 2 ^ 32 }
    ensures new { IfOk result (λ rule. IsNewTo header.now rules.now rule) }
    ensures count { OnOk result (length steps.new.items ≤ length steps.old.items + 1) }
    ensures lengthens { OnOk result (Lengthens steps.old.items steps.new.items) }
    ensures derives { IfOk result (λ rule. Derives header.now steps.new.items rule.step (rule_element header.now rule)) }
{
    let found = monic(alloc, header, steps, given)?;
    let rule = rule_of(alloc, header, found)?;
    Ok(rule)
}

/// The rule that says that the element is zero, its greatest path having the coefficient 1.
fn rule_of(alloc: Global, header: &Header, given: Derived) -> Result<Rule, AllocError>
    requires terms { AreElementTerms header.now given.terms.items }
    requires some { 0 < length given.terms.items }
    requires monic { (d : Term) → (slice_index_or given.terms.items 0 d).coef ≡ 1 }
    ensures terms { IfOk result (λ rule. given.terms.items ≡ rule_terms header.now rule) }
    ensures tail { IfOk result (λ rule. rule.tail.terms ≡ map (negative header.now.field) (drop 1 given.terms.items)) }
    ensures step { IfOk result (λ rule. rule.step ≡ given.step) }
{
    let mut rest = given.terms;
    let first = rest.remove(0);
    let tail = negatives(alloc, header, &rest)?;
    let terms = Seq::from_vec(tail);
    Ok(Rule {
        tip: first.path,
        tail: Element { terms },
        step: given.step,
    })
}

/// The negatives of the terms, in their order; their coefficients are below the field's size.
///
/// `AllocError` comes for want of memory.
pub fn negatives(alloc: Global, header: &Header, terms: &[Term]) -> Result<Vec<Term>, AllocError>
    requires { All (λ (a : Term). a.coef < order header.now.field) terms.now }
    ensures { IfOk result (λ others. others.items ≡ map (negative header.now.field) terms.now) }
{
    let mut others = Vec::new(alloc);
    for term in terms {
        let path = term.path.clone()?;
        others.push(Term {
            coef: header.field.neg(term.coef),
            path,
        })?;
    }
    Ok(others)
}
