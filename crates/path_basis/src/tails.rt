//! Rules with reduced tails.
ghost use Rattle.std.specs.Prelude.{ℕ, ◌≡◌, ◌<◌, ◌≤◌, ◌+◌, ◌*◌, ◌^◌, length, Contains, IfOk, OnOk};
ghost use Rattle.quiver_paths.specs.PathList.{path_count, ListsPathsBelow};
ghost use Rattle.path_algebra.specs.Allowed.{IsAllowed};
ghost use Rattle.path_algebra.specs.Rules.{rule_element};
ghost use Rattle.path_reduction.specs.Gaps.{AreTidy};
ghost use Rattle.path_reduction.specs.Derived.{IsDerivation, Derives, Lengthens, AreDerived};
ghost use Rattle.path_basis.specs.Tails.{IsTailReduced, AreTailsReduced, HaveSameTips};

use crate::inserting::has_run;
use path_algebra::{Element, Header, Rule, Step};
use path_reduction::{Derived, ShortPaths, negatives, reduce};
use quiver_paths::Path;
use seq::Seq;
use std::alloc::{AllocError, Global};

/// The rules with what their tails become by reduction as tails, and the derivation of these.
pub(crate) fn reduce_tails(
    alloc: Global,
    header: &Header,
    space: &ShortPaths,
    rules: &[Rule],
    steps: &mut Vec<Step>,
) -> Result<Vec<Rule>, AllocError>
    requires allowed { IsAllowed header.now }
    requires few { path_count header.now.quiver header.now.bound ≤ 4096 }
    requires space { ListsPathsBelow header.now.quiver header.now.bound space.now }
    requires tidy { AreTidy header.now rules.now }
    requires lawful { IsDerivation header.now steps.old.items }
    requires derived { AreDerived header.now steps.old.items rules.now }
    requires count { length rules.now ≤ 4096 }
    requires room { length steps.old.items ≤ 2 ^ 31 + 131136 * 4097 }
    ensures reduced { IfOk result (λ new. AreTailsReduced header.now rules.now (length rules.now) new.items) }
    ensures lawful { OnOk result (IsDerivation header.now steps.new.items) }
    ensures derived { IfOk result (λ new. AreDerived header.now steps.new.items new.items) }
    ensures count { OnOk result (length steps.new.items ≤ 2 ^ 31 + 131136 * 8193) }
    ensures lengthens { OnOk result (Lengthens steps.old.items steps.new.items) }
{
    let mut reduced = Vec::new(alloc);
    for rule in rules {
        let with_tail = with_reduced_tail(alloc, header, space, rules, steps, rule)?;
        reduced.push(with_tail)?;
    }
    Ok(reduced)
}

/// One of the rules, with what its tail becomes by reduction as its tail.
fn with_reduced_tail(
    alloc: Global,
    header: &Header,
    space: &ShortPaths,
    rules: &[Rule],
    steps: &mut Vec<Step>,
    rule: &Rule,
) -> Result<Rule, AllocError>
    requires allowed { IsAllowed header.now }
    requires few { path_count header.now.quiver header.now.bound ≤ 4096 }
    requires space { ListsPathsBelow header.now.quiver header.now.bound space.now }
    requires tidy { AreTidy header.now rules.now }
    requires listed { Contains rules.now rule.now }
    requires lawful { IsDerivation header.now steps.old.items }
    requires derived { AreDerived header.now steps.old.items rules.now }
    requires room { length steps.old.items + 131072 < 2 ^ 32 }
    ensures reduced { IfOk result (λ new. IsTailReduced header.now rules.now rule.now new) }
    ensures derives { IfOk result (λ new. Derives header.now steps.new.items new.step (rule_element header.now new)) }
    ensures count { OnOk result (length steps.new.items ≤ length steps.old.items + 131072) }
    ensures lengthens { OnOk result (Lengthens steps.old.items steps.new.items) }
{
    let terms = negatives(alloc, header, rule.tail.terms.as_slice())?;
    let step = rule.step;
    let rest = reduce(alloc, header, space, rules, steps, Derived { terms, step })?;
    let tail = negatives(alloc, header, &rest.terms)?;
    let tip = rule.tip.clone()?;
    let terms = Seq::from_vec(tail);
    Ok(Rule {
        tip,
        tail: Element { terms },
        step: rest.step,
    })
}

/// This many steps may be there before tails are reduced while rules are still found.
const MANY_STEPS: usize = 2_147_483_648;

/// Reduces the tails of those rules that have the tip in them.
pub(crate) fn reduce_tails_with(
    alloc: Global,
    header: &Header,
    space: &ShortPaths,
    rules: &mut Vec<Rule>,
    steps: &mut Vec<Step>,
    tip: &Path,
) -> Result<(), AllocError>
    requires allowed { IsAllowed header.now }
    requires few { path_count header.now.quiver header.now.bound ≤ 4096 }
    requires space { ListsPathsBelow header.now.quiver header.now.bound space.now }
    requires tidy { AreTidy header.now rules.old.items }
    requires lawful { IsDerivation header.now steps.old.items }
    requires derived { AreDerived header.now steps.old.items rules.old.items }
    ensures tidy { OnOk result (AreTidy header.now rules.new.items) }
    ensures tips { OnOk result (HaveSameTips rules.old.items rules.new.items) }
    ensures lawful { OnOk result (IsDerivation header.now steps.new.items) }
    ensures derived { OnOk result (AreDerived header.now steps.new.items rules.new.items) }
    ensures count { (most : ℕ) → length steps.old.items ≤ most → 2 ^ 31 + 131072 ≤ most → OnOk result (length steps.new.items ≤ most) }
    ensures lengthens { OnOk result (Lengthens steps.old.items steps.new.items) }
{
    for i in 0..rules.len() {
        reduce_tail_if(alloc, header, space, rules, steps, i, tip)?;
    }
    Ok(())
}

/// Reduces the tail of the rule at a place, if it has the tip in it.
fn reduce_tail_if(
    alloc: Global,
    header: &Header,
    space: &ShortPaths,
    rules: &mut Vec<Rule>,
    steps: &mut Vec<Step>,
    place: usize,
    tip: &Path,
) -> Result<(), AllocError>
    requires allowed { IsAllowed header.now }
    requires few { path_count header.now.quiver header.now.bound ≤ 4096 }
    requires space { ListsPathsBelow header.now.quiver header.now.bound space.now }
    requires tidy { AreTidy header.now rules.old.items }
    requires lawful { IsDerivation header.now steps.old.items }
    requires derived { AreDerived header.now steps.old.items rules.old.items }
    requires place { place < length rules.old.items }
    ensures tidy { OnOk result (AreTidy header.now rules.new.items) }
    ensures tips { OnOk result (HaveSameTips rules.old.items rules.new.items) }
    ensures lawful { OnOk result (IsDerivation header.now steps.new.items) }
    ensures derived { OnOk result (AreDerived header.now steps.new.items rules.new.items) }
    ensures count { (most : ℕ) → length steps.old.items ≤ most → 2 ^ 31 + 131072 ≤ most → OnOk result (length steps.new.items ≤ most) }
    ensures lengthens { OnOk result (Lengthens steps.old.items steps.new.items) }
{
    if steps.len() > MANY_STEPS {
        return Ok(());
    }
    if !tail_has(&rules[place], tip) {
        return Ok(());
    }
    reduce_tail_at(alloc, header, space, rules, steps, place)?;
    Ok(())
}

/// Whether the arrows of the tip stand among those of a path of the rule's tail.
fn tail_has(rule: &Rule, tip: &Path) -> bool {
    for term in rule.tail.terms.as_slice() {
        if has_run(term.path.arrows.as_slice(), tip.arrows.as_slice()) {
            return true;
        }
    }
    false
}

/// Reduces the tail of the rule at a place.
fn reduce_tail_at(
    alloc: Global,
    header: &Header,
    space: &ShortPaths,
    rules: &mut Vec<Rule>,
    steps: &mut Vec<Step>,
    place: usize,
) -> Result<(), AllocError>
    requires allowed { IsAllowed header.now }
    requires few { path_count header.now.quiver header.now.bound ≤ 4096 }
    requires space { ListsPathsBelow header.now.quiver header.now.bound space.now }
    requires tidy { AreTidy header.now rules.old.items }
    requires lawful { IsDerivation header.now steps.old.items }
    requires derived { AreDerived header.now steps.old.items rules.old.items }
    requires place { place < length rules.old.items }
    requires room { length steps.old.items + 131072 < 2 ^ 32 }
    ensures tidy { OnOk result (AreTidy header.now rules.new.items) }
    ensures tips { OnOk result (HaveSameTips rules.old.items rules.new.items) }
    ensures lawful { OnOk result (IsDerivation header.now steps.new.items) }
    ensures derived { OnOk result (AreDerived header.now steps.new.items rules.new.items) }
    ensures count { OnOk result (length steps.new.items ≤ length steps.old.items + 131072) }
    ensures lengthens { OnOk result (Lengthens steps.old.items steps.new.items) }
{
    let rule = with_reduced_tail(alloc, header, space, rules, steps, &rules[place])?;
    rules[place] = rule;
    Ok(())
}
