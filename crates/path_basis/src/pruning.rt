//! Derivations without steps that nobody needs.
ghost use Rattle.std.specs.Prelude.{◌≡◌, ◌<◌, ◌≤◌, ◌+◌, ◌^◌, List, length, map, All, IfOk, OnOk};
ghost use Rattle.path_algebra.specs.declared.Header.{Header};
ghost use Rattle.path_algebra.specs.declared.rules.Rule.{Rule};
ghost use Rattle.path_algebra.specs.Derivations.{IsNumber};
ghost use Rattle.path_reduction.specs.Derived.{IsDerivation, AreDerived};
ghost use Rattle.path_basis.specs.Used.{named, HasNoUnusedStep};
ghost use Rattle.path_basis.specs.Pruning.{AreOrdered, AreMarked, AreRenumbered, IsKept, mark_all, new_number, renumbered, with_new_number};

use path_algebra::{Rule, Step};
use std::alloc::{AllocError, Global};

/// The rules, and of the steps that derive them those that a rule or a later step of these names. Each takes the new number of its step.
pub(crate) fn drop_unused_steps(
    alloc: Global,
    rules: Vec<Rule>,
    steps: &[Step],
) -> Result<(Vec<Rule>, Vec<Step>), AllocError>
    requires ordered { AreOrdered steps.now }
    requires numbered { All (λ (rule : Rule). IsNumber (length steps.now) rule.step) rules.items }
    requires few { length steps.now < 2 ^ 32 }
    ensures rules { IfOk result (λ r. AreRenumbered rules.items r.0.items) }
    ensures lawful { IfOk result (λ r. (h : Header) → IsDerivation h steps.now → IsDerivation h r.1.items) }
    ensures derived { IfOk result (λ r. (h : Header) → AreDerived h steps.now rules.items → AreDerived h r.1.items r.0.items) }
    ensures used { IfOk result (λ r. HasNoUnusedStep r.1.items r.0.items) }
    ensures count { IfOk result (λ r. length r.1.items ≤ length steps.now) }
{
    let marks = mark_used(alloc, &rules, steps)?;
    let (kept, numbers) = keep_marked(alloc, steps, &marks)?;
    let rules = renumber_rules(alloc, rules, &numbers)?;
    Ok((rules, kept))
}

/// Marks the steps of the rules, and those that marked steps name.
fn mark_used(alloc: Global, rules: &[Rule], steps: &[Step]) -> Result<Vec<bool>, AllocError>
    requires ordered { AreOrdered steps.now }
    requires numbered { All (λ (rule : Rule). IsNumber (length steps.now) rule.step) rules.now }
    ensures { IfOk result (λ marks. AreMarked steps.now rules.now marks.items 0) }
{
    let mut marks = mark_rules(alloc, rules, steps)?;
    for behind in 0..steps.len() {
        mark_named(steps, steps.len() - 1 - behind, &mut marks);
    }
    Ok(marks)
}

/// Marks the steps of the rules.
fn mark_rules(alloc: Global, rules: &[Rule], steps: &[Step]) -> Result<Vec<bool>, AllocError>
    requires { All (λ (rule : Rule). IsNumber (length steps.now) rule.step) rules.now }
    ensures { IfOk result (λ marks. AreMarked steps.now rules.now marks.items (length steps.now)) }
{
    let mut marks = vec![in alloc; false; steps.len()]?;
    for rule in rules {
        marks[rule.step as usize - 1] = true;
    }
    Ok(marks)
}

/// Marks what the step at this place, counted from 0, names, if it is marked.
fn mark_named(steps: &[Step], place: usize, marks: &mut Vec<bool>)
    requires ordered { AreOrdered steps.now }
    requires place { place < length steps.now }
    requires count { length marks.old.items ≡ length steps.now }
    ensures { (rules : List Rule) → AreMarked steps.now rules marks.old.items (place + 1) → AreMarked steps.now rules marks.new.items place }
{
    if !marks[place] {
        return;
    }
    mark_numbers(steps[place], marks);
}

/// Marks what the step names.
fn mark_numbers(step: Step, marks: &mut Vec<bool>)
    requires { All (IsNumber (length marks.old.items)) (named step) }
    ensures { marks.new.items ≡ mark_all (named step) marks.old.items }
{
    match step {
        Step::Relation(_) => {}
        Step::Left(_, number) => marks[number as usize - 1] = true,
        Step::Right(number, _) => marks[number as usize - 1] = true,
        Step::Add(first, _, second) => {
            marks[first as usize - 1] = true;
            marks[second as usize - 1] = true;
        }
    }
}

/// The marked steps, which name new numbers, and the new number of each step; it is 0 where the step is not marked.
fn keep_marked(
    alloc: Global,
    steps: &[Step],
    marks: &[bool],
) -> Result<(Vec<Step>, Vec<u32>), AllocError>
    requires ordered { AreOrdered steps.now }
    requires few { length steps.now < 2 ^ 32 }
    requires count { length marks.now ≡ length steps.now }
    ensures kept { IfOk result (λ r. IsKept steps.now marks.now r.0.items r.1.items) }
    ensures count { IfOk result (λ r. length r.1.items ≡ length steps.now) }
{
    let mut kept = Vec::new(alloc);
    let mut numbers = Vec::new(alloc);
    for _place in 0..steps.len() {
        keep_step(steps, marks, &mut kept, &mut numbers)?;
    }
    Ok((kept, numbers))
}

/// Numbers the next step, and keeps it if it is marked.
fn keep_step(
    steps: &[Step],
    marks: &[bool],
    kept: &mut Vec<Step>,
    numbers: &mut Vec<u32>,
) -> Result<(), AllocError>
    requires ordered { AreOrdered steps.now }
    requires few { length steps.now < 2 ^ 32 }
    requires count { length marks.now ≡ length steps.now }
    requires next { length numbers.old.items < length steps.now }
    requires kept { IsKept steps.now marks.now kept.old.items numbers.old.items }
    ensures kept { OnOk result (IsKept steps.now marks.now kept.new.items numbers.new.items) }
    ensures count { OnOk result (length numbers.new.items ≡ length numbers.old.items + 1) }
{
    let place = numbers.len();
    if !marks[place] {
        numbers.push(0)?;
        return Ok(());
    }
    let step = renumbered(steps[place], numbers);
    kept.push(step)?;
    numbers.push(kept.len() as u32)?;
    Ok(())
}

/// The step, which names new numbers.
fn renumbered(step: Step, numbers: &[u32]) -> Step
    requires { All (IsNumber (length numbers.now)) (named step) }
    ensures { result ≡ renumbered numbers.now step }
{
    match step {
        Step::Relation(relation) => Step::Relation(relation),
        Step::Left(arrow, number) => Step::Left(arrow, new_number(number, numbers)),
        Step::Right(number, arrow) => Step::Right(new_number(number, numbers), arrow),
        Step::Add(first, factor, second) => {
            let first = new_number(first, numbers);
            Step::Add(first, factor, new_number(second, numbers))
        }
    }
}

/// The new number of a step.
fn new_number(number: u32, numbers: &[u32]) -> u32
    requires { IsNumber (length numbers.now) number }
    ensures { result ≡ new_number numbers.now number }
{
    numbers[number as usize - 1]
}

/// The rules with the new numbers of their steps.
fn renumber_rules(alloc: Global, rules: Vec<Rule>, numbers: &[u32]) -> Result<Vec<Rule>, AllocError>
    requires { All (λ (rule : Rule). IsNumber (length numbers.now) rule.step) rules.items }
    ensures { IfOk result (λ new. new.items ≡ map (with_new_number numbers.now) rules.items) }
{
    let mut renumbered = Vec::new(alloc);
    for rule in rules {
        let step = new_number(rule.step, numbers);
        renumbered.push(Rule {
            tip: rule.tip,
            tail: rule.tail,
            step,
        })?;
    }
    Ok(renumbered)
}
