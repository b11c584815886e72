//! Steps that derive products and differences of elements.
ghost use Rattle.std.specs.Prelude.{ℕ, ◌≡◌, ◌<◌, ◌≤◌, ◌+◌, ◌-◌, ◌^◌, ◌++◌, ◌∷◌, [], length, IfOk, OnOk};
ghost use Rattle.linear_algebra.specs.Field.{order, neg};
ghost use Rattle.quiver_paths.specs.declared.Path.{Path};
ghost use Rattle.quiver_paths.specs.Path.{IsPath, path_length};
ghost use Rattle.path_algebra.specs.declared.Header.{Header};
ghost use Rattle.path_algebra.specs.Allowed.{IsAllowed};
ghost use Rattle.path_algebra.specs.Rules.{rule_element};
ghost use Rattle.path_reduction.specs.Gaps.{IsTidy};
ghost use Rattle.path_reduction.specs.Occurrences.{StandsAt, part_before, part_behind};
ghost use Rattle.path_reduction.specs.Derived.{Derives, Lengthens, MakesBehind, MakesBefore, rule_between, plus_rule};

use path_algebra::{Header, Rule, Step};
use quiver_paths::Path;
use std::alloc::AllocError;

/// Adds a step, and answers its number, counted from 1. The steps stay below 2^32.
///
/// `AllocError` comes for want of memory.
pub fn push_step(steps: &mut Vec<Step>, step: Step) -> Result<u32, AllocError>
    requires room { length steps.old.items + 1 < 2 ^ 32 }
    ensures pushed { OnOk result (steps.new.items ≡ steps.old.items ++ step ∷ []) }
    ensures number { IfOk result (λ n. n ≡ length steps.old.items + 1) }
{
    steps.push(step)?;
    Ok(steps.len() as u32)
}

/// Adds the steps that make what this step makes, times a path with these arrows; answers the number of the last.
fn derive_behind(steps: &mut Vec<Step>, number: u32, arrows: &[u8]) -> Result<u32, AllocError>
    requires room { length steps.old.items + length arrows.now < 2 ^ 32 }
    ensures count { OnOk result (length steps.new.items ≡ length steps.old.items + length arrows.now) }
    ensures lengthens { OnOk result (Lengthens steps.old.items steps.new.items) }
    ensures makes { IfOk result (λ n. MakesBehind arrows.now steps.old.items number steps.new.items n) }
{
    let mut last = number;
    for arrow in arrows {
        last = push_step(steps, Step::Right(last, *arrow))?;
    }
    Ok(last)
}

/// Adds the steps that make a path with these arrows times what this step makes; answers the number of the last.
fn derive_before(steps: &mut Vec<Step>, arrows: &[u8], number: u32) -> Result<u32, AllocError>
    requires room { length steps.old.items + length arrows.now < 2 ^ 32 }
    ensures count { OnOk result (length steps.new.items ≡ length steps.old.items + length arrows.now) }
    ensures lengthens { OnOk result (Lengthens steps.old.items steps.new.items) }
    ensures makes { IfOk result (λ n. MakesBefore arrows.now steps.old.items number steps.new.items n) }
{
    let mut last = number;
    for done in 0..arrows.len() {
        last = push_step(steps, Step::Left(arrows[arrows.len() - 1 - done], last))?;
    }
    Ok(last)
}

/// Adds the steps that make what the rule says, between what stands before its tip in the path and what stands behind it.
pub(crate) fn derive_between(
    steps: &mut Vec<Step>,
    rule: &Rule,
    path: &Path,
    before: usize,
) -> Result<u32, AllocError>
    requires stands { StandsAt rule.now path.now.arrows before }
    requires room { length steps.old.items + path_length path.now < 2 ^ 32 }
    ensures count { OnOk result (length steps.new.items ≤ length steps.old.items + path_length path.now) }
    ensures lengthens { OnOk result (Lengthens steps.old.items steps.new.items) }
    ensures makes { IfOk result (λ n. (h : Header) → IsAllowed h → IsTidy h rule.now → IsPath h.quiver (part_before path.now rule.now before) → IsPath h.quiver (part_behind path.now rule.now before)
        → Derives h steps.old.items rule.now.step (rule_element h rule.now) → Derives h steps.new.items n (rule_between h rule.now path.now before)) }
{
    let arrows = path.arrows.as_slice();
    let behind = derive_behind(steps, rule.step, &arrows[before + rule.tip.arrows.len()..])?;
    let last = derive_before(steps, &arrows[..before], behind)?;
    Ok(last)
}

/// Adds the steps that take a multiple of what the rule says, at its tip's place in the path, from what a step makes.
pub(crate) fn derive_rewriting(
    header: &Header,
    steps: &mut Vec<Step>,
    number: u32,
    factor: u8,
    rule: &Rule,
    path: &Path,
    before: usize,
) -> Result<u32, AllocError>
    requires nonzero { 0 < factor }
    requires small { factor < order header.now.field }
    requires stands { StandsAt rule.now path.now.arrows before }
    requires room { length steps.old.items + path_length path.now + 1 < 2 ^ 32 }
    ensures count { OnOk result (length steps.new.items ≤ length steps.old.items + path_length path.now + 1) }
    ensures lengthens { OnOk result (Lengthens steps.old.items steps.new.items) }
    ensures makes { IfOk result (λ n. IsAllowed header.now → IsTidy header.now rule.now
        → IsPath header.now.quiver (part_before path.now rule.now before) → IsPath header.now.quiver (part_behind path.now rule.now before)
        → (x : Path → ℕ) → Derives header.now steps.old.items rule.now.step (rule_element header.now rule.now) → Derives header.now steps.old.items number x
        → Derives header.now steps.new.items n (plus_rule header.now x (neg header.now.field factor) rule.now path.now before)) }
{
    let other = derive_between(steps, rule, path, before)?;
    let last = push_step(steps, Step::Add(number, header.field.neg(factor), other))?;
    Ok(last)
}
