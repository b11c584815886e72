//! Completion: rules of an ideal until all that is known to give one reduces to zero.
ghost use Rattle.std.specs.Prelude.{ℕ, ◌≡◌, ◌<◌, ◌≤◌, ◌+◌, ◌*◌, ◌^◌, ◌-◌, [], List, take, length, All, slice_index_or, IfOk, IfSome, OnOk, MatchBool, IsTrue};
ghost use Rattle.std.specs.BinaryHeap.{heap_items, heap_len};
ghost use Rattle.quiver_paths.specs.Path.{IsPath, path_length};
ghost use Rattle.quiver_paths.specs.PathList.{path_count, ListsPathsBelow};
ghost use Rattle.path_algebra.specs.declared.Header.{Header};
ghost use Rattle.path_algebra.specs.declared.Relation.{Relation};
ghost use Rattle.path_algebra.specs.declared.rules.Rule.{Rule};
ghost use Rattle.path_algebra.specs.declared.rules.Step.{Step};
ghost use Rattle.path_algebra.specs.Allowed.{IsAllowed};
ghost use Rattle.path_algebra.specs.Elements.{sum_of_terms};
ghost use Rattle.path_algebra.specs.Derivations.{IsNumber};
ghost use Rattle.path_algebra.specs.Rules.{AreElementTerms, rule_element};
ghost use Rattle.path_reduction.specs.Gaps.{IsTidy};
ghost use Rattle.path_reduction.specs.Occurrences.{StandsAt};
ghost use Rattle.path_reduction.specs.Derived.{IsDerivation, Derives, AreDerived};
ghost use Rattle.path_reduction.specs.Reducing.{AreReducedTo};
ghost use Rattle.path_reduction.specs.FirstGaps.{ForReductions, ClosesAt, IsFirstGap};
ghost use Rattle.path_reduction.specs.NewRules.{AreParallel, IsNewTo};
ghost use Rattle.path_basis.specs.Pruning.{AreOrdered};
ghost use Rattle.path_basis.specs.Measure.{free_count};
ghost use Rattle.path_basis.specs.Completing.{IsObstruction, IsOpen, IsCompletion, HasGrown, IsSame, RelationReduces, RelationsReduce, IsClosed};

use crate::inserting::insert_rule;
use crate::obstructions::{Obstruction, pop_least, push_obstructions, rank_of};
use crate::pruning::drop_unused_steps;
use crate::tails::reduce_tails_with;
use path_algebra::{Header, Rule, Step, terms_of_relation};
use path_reduction::{
    Derived, Gap, ShortPaths, element_between, first_gap, new_rule, occurrence_at_end, push_step,
    reduce,
};
use quiver_paths::{Path, compare};
use std::alloc::{AllocError, Global};
use std::cmp::Ordering;
use std::collections::BinaryHeap;
use std::mem;

/// Rules on the way to the reduced rules, the steps that derive them, rules that were taken out and are still to be reduced, and the
/// obstructions that are still to be looked at.
#[derive(Drop)]
pub(crate) struct Completion {
    pub(crate) rules: Vec<Rule>,
    pub(crate) steps: Vec<Step>,
    pub(crate) removed: Vec<Rule>,
    pub(crate) obstructions: BinaryHeap<Obstruction>,
    /// How many steps were left when unused ones were last dropped.
    pub(crate) kept: usize,
}

/// What a completion still has to look at.
#[derive(Drop)]
pub(crate) enum Open {
    Removed(Rule),
    Obstruction(Obstruction),
}

/// This many steps are kept before unused ones are dropped.
const SPARE_STEPS: usize = 65_536;

/// The relations, one after the other, as rules.
pub(crate) fn from_relations(
    alloc: Global,
    header: &Header,
    space: &ShortPaths,
) -> Result<Completion, AllocError>
    requires allowed { IsAllowed header.now }
    requires few { path_count header.now.quiver header.now.bound ≤ 4096 }
    requires space { ListsPathsBelow header.now.quiver header.now.bound space.now }
    ensures completion { IfOk result (λ done. IsCompletion header.now done.rules.items done.removed.items done.steps.items) }
    ensures obstructions { IfOk result (λ done. All (IsObstruction header.now) (heap_items done.obstructions)) }
{
    let mut state = Completion {
        rules: Vec::new(alloc),
        steps: Vec::new(alloc),
        removed: Vec::new(alloc),
        obstructions: BinaryHeap::new(alloc),
        kept: 0,
    };
    for i in 0..header.relations.len() {
        let _grown = reduce_relation(alloc, header, space, &mut state, i)?;
    }
    Ok(state)
}

/// Makes rules of what was removed, of the places and of the relations, until none of these gives one.
pub(crate) fn complete(
    alloc: Global,
    header: &Header,
    space: &ShortPaths,
    state: &mut Completion,
) -> Result<(), AllocError>
    requires allowed { IsAllowed header.now }
    requires few { path_count header.now.quiver header.now.bound ≤ 4096 }
    requires space { ListsPathsBelow header.now.quiver header.now.bound space.now }
    requires completion { IsCompletion header.now state.old.rules.items state.old.removed.items state.old.steps.items }
    requires obstructions { All (IsObstruction header.now) (heap_items state.old.obstructions) }
    ensures completion { OnOk result (IsCompletion header.now state.new.rules.items state.new.removed.items state.new.steps.items) }
    ensures obstructions { OnOk result (All (IsObstruction header.now) (heap_items state.new.obstructions)) }
    ensures relations { OnOk result (RelationsReduce header.now state.new.rules.items) }
    ensures fewer { OnOk result (free_count header.now state.new.rules.items ≤ free_count header.now state.old.rules.items) }
{
    while improve(alloc, header, space, state)? {}
    Ok(())
}

/// Makes a rule of what was removed, of an obstruction or of a relation, the first that gives one. Answers whether there was one.
fn improve(
    alloc: Global,
    header: &Header,
    space: &ShortPaths,
    state: &mut Completion,
) -> Result<bool, AllocError>
    requires allowed { IsAllowed header.now }
    requires few { path_count header.now.quiver header.now.bound ≤ 4096 }
    requires space { ListsPathsBelow header.now.quiver header.now.bound space.now }
    requires completion { IsCompletion header.now state.old.rules.items state.old.removed.items state.old.steps.items }
    requires obstructions { All (IsObstruction header.now) (heap_items state.old.obstructions) }
    ensures completion { OnOk result (IsCompletion header.now state.new.rules.items state.new.removed.items state.new.steps.items) }
    ensures obstructions { OnOk result (All (IsObstruction header.now) (heap_items state.new.obstructions)) }
    ensures fewer { OnOk result (free_count header.now state.new.rules.items ≤ free_count header.now state.old.rules.items) }
    ensures grown { IfOk result (λ grown. MatchBool grown (free_count header.now state.new.rules.items < free_count header.now state.old.rules.items) (RelationsReduce header.now state.new.rules.items)) }
{
    drop_steps_if_many(alloc, state)?;
    if resolve_open(alloc, header, space, state)? {
        return Ok(true);
    }
    let grown = reduce_relations(alloc, header, space, state)?;
    Ok(grown)
}

/// Drops the steps that no rule needs, where there are more than twice as many as the last time, and some more, and no rule is removed.
fn drop_steps_if_many(alloc: Global, state: &mut Completion) -> Result<(), AllocError>
    requires ordered { AreOrdered state.old.steps.items }
    requires numbered { All (λ (rule : Rule). IsNumber (length state.old.steps.items) rule.step) state.old.rules.items }
    requires few { length state.old.steps.items < 2 ^ 32 }
    ensures completion { (h : Header) → IsCompletion h state.old.rules.items state.old.removed.items state.old.steps.items → OnOk result (IsCompletion h state.new.rules.items state.new.removed.items state.new.steps.items) }
    ensures same { (h : Header) → OnOk result (free_count h state.new.rules.items ≡ free_count h state.old.rules.items) }
    ensures obstructions { OnOk result ((heap_items state.new.obstructions) ≡ (heap_items state.old.obstructions)) }
{
    let more = state.steps.len().saturating_sub(SPARE_STEPS);
    if more / 2 <= state.kept || !state.removed.is_empty() {
        return Ok(());
    }
    let rules = mem::replace(&mut state.rules, Vec::new(alloc));
    let (rules, steps) = drop_unused_steps(alloc, rules, &state.steps)?;
    state.kept = steps.len();
    state.rules = rules;
    state.steps = steps;
    Ok(())
}

/// Makes rules of what was removed and of the obstructions, those with the least paths first, up to the first that gives one. Answers whether there
/// was one.
fn resolve_open(
    alloc: Global,
    header: &Header,
    space: &ShortPaths,
    state: &mut Completion,
) -> Result<bool, AllocError>
    requires allowed { IsAllowed header.now }
    requires few { path_count header.now.quiver header.now.bound ≤ 4096 }
    requires space { ListsPathsBelow header.now.quiver header.now.bound space.now }
    requires completion { IsCompletion header.now state.old.rules.items state.old.removed.items state.old.steps.items }
    requires obstructions { All (IsObstruction header.now) (heap_items state.old.obstructions) }
    ensures completion { OnOk result (IsCompletion header.now state.new.rules.items state.new.removed.items state.new.steps.items) }
    ensures obstructions { OnOk result (All (IsObstruction header.now) (heap_items state.new.obstructions)) }
    ensures grown { IfOk result (λ grown. MatchBool grown (free_count header.now state.new.rules.items < free_count header.now state.old.rules.items) (state.new.rules.items ≡ state.old.rules.items)) }
{
    while let Some(next) = take_least(space, state) {
        if resolve_next(alloc, header, space, state, &next)? {
            return Ok(true);
        }
    }
    Ok(false)
}

/// Takes out the rule that was removed or the obstruction with the least path.
fn take_least(space: &ShortPaths, state: &mut Completion) -> Option<Open>
    ensures completion { (h : Header) → IsCompletion h state.old.rules.items state.old.removed.items state.old.steps.items → IsCompletion h state.new.rules.items state.new.removed.items state.new.steps.items }
    ensures obstructions { (h : Header) → All (IsObstruction h) (heap_items state.old.obstructions) → All (IsObstruction h) (heap_items state.new.obstructions) }
    ensures taken { (h : Header) → IsCompletion h state.old.rules.items state.old.removed.items state.old.steps.items → All (IsObstruction h) (heap_items state.old.obstructions)
        → IfSome result (IsOpen h state.old.steps.items) }
    ensures rules { state.new.rules.items ≡ state.old.rules.items }
    ensures steps { state.new.steps.items ≡ state.old.steps.items }
    ensures fewer { IfSome result (λ next. length state.new.removed.items + heap_len state.new.obstructions < length state.old.removed.items + heap_len state.old.obstructions) }
{
    match next_removed(space, &state.removed, &state.obstructions) {
        Some(i) => {
            let rule = take_rule(&mut state.removed, i);
            Some(Open::Removed(rule))
        }
        None => match pop_least(&mut state.obstructions) {
            None => None,
            Some(obstruction) => Some(Open::Obstruction(obstruction)),
        },
    }
}

/// Takes out the rule at a place.
fn take_rule(removed: &mut Vec<Rule>, i: usize) -> Rule
    requires { i < length removed.old.items }
    ensures tidy { (h : Header) → All (IsTidy h) removed.old.items → IsTidy h result × All (IsTidy h) removed.new.items }
    ensures derived { (h : Header) (steps : List Step) → AreDerived h steps removed.old.items → Derives h steps result.step (rule_element h result) × AreDerived h steps removed.new.items }
    ensures count { length removed.new.items + 1 ≡ length removed.old.items }
{
    removed.swap_remove(i)
}

/// The place of the removed rule with the least tip, where that comes before the obstructions.
fn next_removed(
    space: &ShortPaths,
    removed: &[Rule],
    obstructions: &BinaryHeap<Obstruction>,
) -> Option<usize>
    ensures { IfSome result (λ i. i < length removed.now) }
{
    let least = least_tip(removed)?;
    let tip = &removed[least].tip;
    let rank = rank_of(space.place_along(tip.start, tip.arrows.as_slice(), &[], &[]));
    if let Some(obstruction) = obstructions.peek()
        && obstruction.rank > rank
    {
        return None;
    }
    Some(least)
}

/// The place of the rule with the least tip.
fn least_tip(rules: &[Rule]) -> Option<usize>
    ensures { IfSome result (λ i. i < length rules.now) }
{
    if rules.is_empty() {
        return None;
    }
    let mut least = 0;
    for i in 1..rules.len() {
        if compare(&rules[i].tip, &rules[least].tip) == Ordering::Less {
            least = i;
        }
    }
    Some(least)
}

/// Makes a rule of a rule that was removed, or of an obstruction. Answers whether it gives one.
fn resolve_next(
    alloc: Global,
    header: &Header,
    space: &ShortPaths,
    state: &mut Completion,
    next: &Open,
) -> Result<bool, AllocError>
    requires allowed { IsAllowed header.now }
    requires few { path_count header.now.quiver header.now.bound ≤ 4096 }
    requires space { ListsPathsBelow header.now.quiver header.now.bound space.now }
    requires completion { IsCompletion header.now state.old.rules.items state.old.removed.items state.old.steps.items }
    requires obstructions { All (IsObstruction header.now) (heap_items state.old.obstructions) }
    requires next { IsOpen header.now state.old.steps.items next.now }
    ensures completion { OnOk result (IsCompletion header.now state.new.rules.items state.new.removed.items state.new.steps.items) }
    ensures obstructions { OnOk result (All (IsObstruction header.now) (heap_items state.new.obstructions)) }
    ensures grown { IfOk result (λ grown. MatchBool grown (HasGrown header.now state.old.rules.items state.old.removed.items state.new.rules.items state.new.removed.items)
        (IsSame state.old.rules.items state.old.removed.items (heap_items state.old.obstructions) state.new.rules.items state.new.removed.items (heap_items state.new.obstructions))) }
{
    match next {
        Open::Removed(rule) => reduce_removed(alloc, header, space, state, rule),
        Open::Obstruction(obstruction) => {
            resolve_obstruction(alloc, header, space, state, obstruction)
        }
    }
}

/// Makes rules of the relations, up to the first that gives one. Answers whether there was one.
fn reduce_relations(
    alloc: Global,
    header: &Header,
    space: &ShortPaths,
    state: &mut Completion,
) -> Result<bool, AllocError>
    requires allowed { IsAllowed header.now }
    requires few { path_count header.now.quiver header.now.bound ≤ 4096 }
    requires space { ListsPathsBelow header.now.quiver header.now.bound space.now }
    requires completion { IsCompletion header.now state.old.rules.items state.old.removed.items state.old.steps.items }
    requires obstructions { All (IsObstruction header.now) (heap_items state.old.obstructions) }
    ensures completion { OnOk result (IsCompletion header.now state.new.rules.items state.new.removed.items state.new.steps.items) }
    ensures obstructions { OnOk result (All (IsObstruction header.now) (heap_items state.new.obstructions)) }
    ensures grown { IfOk result (λ grown. MatchBool grown (free_count header.now state.new.rules.items < free_count header.now state.old.rules.items)
        ((state.new.rules.items ≡ state.old.rules.items) × RelationsReduce header.now state.old.rules.items)) }
{
    for i in 0..header.relations.len() {
        if reduce_relation(alloc, header, space, state, i)? {
            return Ok(true);
        }
    }
    Ok(false)
}

/// Makes a rule of the first gap, which there is where the rules are not closed.
pub(crate) fn resolve_first_gap(
    alloc: Global,
    header: &Header,
    space: &ShortPaths,
    state: &mut Completion,
) -> Result<(), AllocError>
    requires allowed { IsAllowed header.now }
    requires few { path_count header.now.quiver header.now.bound ≤ 4096 }
    requires space { ListsPathsBelow header.now.quiver header.now.bound space.now }
    requires completion { IsCompletion header.now state.old.rules.items state.old.removed.items state.old.steps.items }
    requires obstructions { All (IsObstruction header.now) (heap_items state.old.obstructions) }
    requires relations { RelationsReduce header.now state.old.rules.items }
    requires gaps { IsClosed header.now state.old.rules.items → ⊥ }
    ensures completion { OnOk result (IsCompletion header.now state.new.rules.items state.new.removed.items state.new.steps.items) }
    ensures obstructions { OnOk result (All (IsObstruction header.now) (heap_items state.new.obstructions)) }
    ensures fewer { OnOk result (free_count header.now state.new.rules.items < free_count header.now state.old.rules.items) }
{
    match first_gap(alloc, header, &state.rules)? {
        None => {
            prove!(false);
            Ok(())
        }
        Some(gap) => {
            let _grown = resolve_gap(alloc, header, space, state, &gap)?;
            Ok(())
        }
    }
}

/// Makes a rule of the first gap, which always gives one.
fn resolve_gap(
    alloc: Global,
    header: &Header,
    space: &ShortPaths,
    state: &mut Completion,
    gap: &Gap,
) -> Result<bool, AllocError>
    requires allowed { IsAllowed header.now }
    requires few { path_count header.now.quiver header.now.bound ≤ 4096 }
    requires space { ListsPathsBelow header.now.quiver header.now.bound space.now }
    requires completion { IsCompletion header.now state.old.rules.items state.old.removed.items state.old.steps.items }
    requires obstructions { All (IsObstruction header.now) (heap_items state.old.obstructions) }
    requires gap { ForReductions header.now state.old.rules.items (λ becomes. IsFirstGap header.now state.old.rules.items becomes gap.now) }
    ensures completion { OnOk result (IsCompletion header.now state.new.rules.items state.new.removed.items state.new.steps.items) }
    ensures obstructions { OnOk result (All (IsObstruction header.now) (heap_items state.new.obstructions)) }
    ensures always { IfOk result IsTrue }
    ensures fewer { OnOk result (free_count header.now state.new.rules.items < free_count header.now state.old.rules.items) }
{
    let rule = gap.rule as usize - 1;
    let grown = resolve_at(
        alloc,
        header,
        space,
        state,
        rule,
        &gap.path,
        gap.at as usize,
    )?;
    Ok(grown)
}

/// Makes a rule of the relation with this number, counted from 0. Answers whether it gives one.
fn reduce_relation(
    alloc: Global,
    header: &Header,
    space: &ShortPaths,
    state: &mut Completion,
    i: usize,
) -> Result<bool, AllocError>
    requires allowed { IsAllowed header.now }
    requires few { path_count header.now.quiver header.now.bound ≤ 4096 }
    requires space { ListsPathsBelow header.now.quiver header.now.bound space.now }
    requires completion { IsCompletion header.now state.old.rules.items state.old.removed.items state.old.steps.items }
    requires obstructions { All (IsObstruction header.now) (heap_items state.old.obstructions) }
    requires number { i < length header.now.relations }
    ensures completion { OnOk result (IsCompletion header.now state.new.rules.items state.new.removed.items state.new.steps.items) }
    ensures obstructions { OnOk result (All (IsObstruction header.now) (heap_items state.new.obstructions)) }
    ensures grown { IfOk result (λ grown. MatchBool grown (HasGrown header.now state.old.rules.items state.old.removed.items state.new.rules.items state.new.removed.items)
        (IsSame state.old.rules.items state.old.removed.items (heap_items state.old.obstructions) state.new.rules.items state.new.removed.items (heap_items state.new.obstructions)
        × ((d : Relation) → RelationReduces header.now state.old.rules.items (slice_index_or header.now.relations i d)))) }
{
    let mark = state.steps.len();
    let relation = &header.relations[i];
    let terms = terms_of_relation(alloc, header, relation)?;
    let step = push_step(&mut state.steps, Step::Relation(i as u32 + 1))?;
    let grown = add_reduced(alloc, header, space, state, mark, Derived { terms, step })?;
    Ok(grown)
}

/// Makes a rule of what the rule says whose tip stands in the obstruction's path, up to its end, if one does. Answers whether there is a new rule.
fn resolve_obstruction(
    alloc: Global,
    header: &Header,
    space: &ShortPaths,
    state: &mut Completion,
    obstruction: &Obstruction,
) -> Result<bool, AllocError>
    requires allowed { IsAllowed header.now }
    requires few { path_count header.now.quiver header.now.bound ≤ 4096 }
    requires space { ListsPathsBelow header.now.quiver header.now.bound space.now }
    requires completion { IsCompletion header.now state.old.rules.items state.old.removed.items state.old.steps.items }
    requires obstructions { All (IsObstruction header.now) (heap_items state.old.obstructions) }
    requires obstruction { IsObstruction header.now obstruction.now }
    ensures completion { OnOk result (IsCompletion header.now state.new.rules.items state.new.removed.items state.new.steps.items) }
    ensures obstructions { OnOk result (All (IsObstruction header.now) (heap_items state.new.obstructions)) }
    ensures grown { IfOk result (λ grown. MatchBool grown (HasGrown header.now state.old.rules.items state.old.removed.items state.new.rules.items state.new.removed.items)
        (IsSame state.old.rules.items state.old.removed.items (heap_items state.old.obstructions) state.new.rules.items state.new.removed.items (heap_items state.new.obstructions))) }
{
    let arrows = obstruction.path.arrows.as_slice();
    match occurrence_at_end(&state.rules, &arrows[..obstruction.end]) {
        None => Ok(false),
        Some(found) => {
            let grown = resolve_at(
                alloc,
                header,
                space,
                state,
                found.rule,
                &obstruction.path,
                found.before,
            )?;
            Ok(grown)
        }
    }
}

/// Makes a rule of what the rule with this number, counted from 0, says at the place of its tip in the path. Answers whether it gives one.
fn resolve_at(
    alloc: Global,
    header: &Header,
    space: &ShortPaths,
    state: &mut Completion,
    rule: usize,
    path: &Path,
    before: usize,
) -> Result<bool, AllocError>
    requires allowed { IsAllowed header.now }
    requires few { path_count header.now.quiver header.now.bound ≤ 4096 }
    requires space { ListsPathsBelow header.now.quiver header.now.bound space.now }
    requires completion { IsCompletion header.now state.old.rules.items state.old.removed.items state.old.steps.items }
    requires obstructions { All (IsObstruction header.now) (heap_items state.old.obstructions) }
    requires number { rule < length state.old.rules.items }
    requires path { IsPath header.now.quiver path.now }
    requires short { path_length path.now ≤ header.now.bound }
    requires stands { (d : Rule) → StandsAt (slice_index_or state.old.rules.items rule d) path.now.arrows before }
    ensures completion { OnOk result (IsCompletion header.now state.new.rules.items state.new.removed.items state.new.steps.items) }
    ensures obstructions { OnOk result (All (IsObstruction header.now) (heap_items state.new.obstructions)) }
    ensures grown { IfOk result (λ grown. MatchBool grown (HasGrown header.now state.old.rules.items state.old.removed.items state.new.rules.items state.new.removed.items)
        (IsSame state.old.rules.items state.old.removed.items (heap_items state.old.obstructions) state.new.rules.items state.new.removed.items (heap_items state.new.obstructions)
        × ((d : Rule) → ForReductions header.now state.old.rules.items (λ becomes. ClosesAt header.now becomes (slice_index_or state.old.rules.items rule d) path.now before)))) }
{
    let mark = state.steps.len();
    let rule = &state.rules[rule];
    let given = element_between(alloc, header, &mut state.steps, rule, path, before)?;
    let grown = add_reduced(alloc, header, space, state, mark, given)?;
    Ok(grown)
}

/// Makes a rule of what another rule says, if that does not reduce to zero. Answers whether it gives one.
fn reduce_removed(
    alloc: Global,
    header: &Header,
    space: &ShortPaths,
    state: &mut Completion,
    rule: &Rule,
) -> Result<bool, AllocError>
    requires allowed { IsAllowed header.now }
    requires few { path_count header.now.quiver header.now.bound ≤ 4096 }
    requires space { ListsPathsBelow header.now.quiver header.now.bound space.now }
    requires completion { IsCompletion header.now state.old.rules.items state.old.removed.items state.old.steps.items }
    requires obstructions { All (IsObstruction header.now) (heap_items state.old.obstructions) }
    requires tidy { IsTidy header.now rule.now }
    requires derives { Derives header.now state.old.steps.items rule.now.step (rule_element header.now rule.now) }
    ensures completion { OnOk result (IsCompletion header.now state.new.rules.items state.new.removed.items state.new.steps.items) }
    ensures obstructions { OnOk result (All (IsObstruction header.now) (heap_items state.new.obstructions)) }
    ensures grown { IfOk result (λ grown. MatchBool grown (HasGrown header.now state.old.rules.items state.old.removed.items state.new.rules.items state.new.removed.items)
        (IsSame state.old.rules.items state.old.removed.items (heap_items state.old.obstructions) state.new.rules.items state.new.removed.items (heap_items state.new.obstructions))) }
{
    let mark = state.steps.len();
    let given = element_between(alloc, header, &mut state.steps, rule, &rule.tip, 0)?;
    let grown = add_reduced(alloc, header, space, state, mark, given)?;
    Ok(grown)
}

/// Makes a rule of what the element reduces to, if that is not zero; where it is, the steps from the mark on go. Answers whether there is a new
/// rule.
fn add_reduced(
    alloc: Global,
    header: &Header,
    space: &ShortPaths,
    state: &mut Completion,
    mark: usize,
    given: Derived,
) -> Result<bool, AllocError>
    requires allowed { IsAllowed header.now }
    requires few { path_count header.now.quiver header.now.bound ≤ 4096 }
    requires space { ListsPathsBelow header.now.quiver header.now.bound space.now }
    requires completion { IsCompletion header.now state.old.rules.items state.old.removed.items (take mark state.old.steps.items) }
    requires obstructions { All (IsObstruction header.now) (heap_items state.old.obstructions) }
    requires mark { mark ≤ length state.old.steps.items }
    requires steps { length state.old.steps.items ≤ mark + 32 }
    requires terms { AreElementTerms header.now given.terms.items }
    requires parallel { AreParallel given.terms.items }
    requires derives { Derives header.now state.old.steps.items given.step (sum_of_terms header.now.field header.now.bound given.terms.items) }
    ensures completion { OnOk result (IsCompletion header.now state.new.rules.items state.new.removed.items state.new.steps.items) }
    ensures obstructions { OnOk result (All (IsObstruction header.now) (heap_items state.new.obstructions)) }
    ensures grown { IfOk result (λ grown. MatchBool grown (HasGrown header.now state.old.rules.items state.old.removed.items state.new.rules.items state.new.removed.items)
        (IsSame state.old.rules.items state.old.removed.items (heap_items state.old.obstructions) state.new.rules.items state.new.removed.items (heap_items state.new.obstructions)
        × AreReducedTo header.now state.old.rules.items given.terms.items [])) }
{
    let reduced = reduce(alloc, header, space, &state.rules, &mut state.steps, given)?;
    if reduced.terms.is_empty() {
        state.steps.truncate(mark);
        return Ok(false);
    }
    let rule = new_rule(alloc, header, &state.rules, &mut state.steps, reduced)?;
    add_rule(alloc, header, space, state, rule)?;
    Ok(true)
}

/// Adds a rule whose tip has no other as a factor, and its obstructions; the tails are reduced by it.
fn add_rule(
    alloc: Global,
    header: &Header,
    space: &ShortPaths,
    state: &mut Completion,
    rule: Rule,
) -> Result<(), AllocError>
    requires allowed { IsAllowed header.now }
    requires few { path_count header.now.quiver header.now.bound ≤ 4096 }
    requires space { ListsPathsBelow header.now.quiver header.now.bound space.now }
    requires new { IsNewTo header.now state.old.rules.items rule }
    requires lawful { IsDerivation header.now state.old.steps.items }
    requires derived { AreDerived header.now state.old.steps.items state.old.rules.items }
    requires derives { Derives header.now state.old.steps.items rule.step (rule_element header.now rule) }
    requires removed_tidy { All (IsTidy header.now) state.old.removed.items }
    requires removed_derived { AreDerived header.now state.old.steps.items state.old.removed.items }
    requires room { length state.old.steps.items + 131136 * free_count header.now state.old.rules.items ≤ 2 ^ 31 + 131136 * 4098 }
    requires obstructions { All (IsObstruction header.now) (heap_items state.old.obstructions) }
    ensures completion { OnOk result (IsCompletion header.now state.new.rules.items state.new.removed.items state.new.steps.items) }
    ensures obstructions { OnOk result (All (IsObstruction header.now) (heap_items state.new.obstructions)) }
    ensures grown { OnOk result (HasGrown header.now state.old.rules.items state.old.removed.items state.new.rules.items state.new.removed.items) }
{
    push_obstructions(
        alloc,
        header,
        space,
        &state.rules,
        &rule,
        &mut state.obstructions,
    )?;
    let tip = rule.tip.clone()?;
    let rules = mem::replace(&mut state.rules, Vec::new(alloc));
    state.rules = insert_rule(alloc, rules, rule, &mut state.removed)?;
    reduce_tails_with(
        alloc,
        header,
        space,
        &mut state.rules,
        &mut state.steps,
        &tip,
    )?;
    Ok(())
}
