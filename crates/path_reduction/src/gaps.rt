//! The first gap of rules: a path that an occurrence of a tip takes to something else than reduction does.
ghost use Rattle.std.specs.Prelude.{ℕ, ◌≡◌, ◌<◌, ◌≤◌, ◌+◌, ◌^◌, [], List, length, Contains, IfOk, MatchBool, MatchOption};
ghost use Rattle.quiver_paths.specs.declared.Path.{Path};
ghost use Rattle.quiver_paths.specs.Path.{IsPath, path_length};
ghost use Rattle.quiver_paths.specs.PathList.{path_count, ListsPathsBelow};
ghost use Rattle.path_algebra.specs.declared.rules.Rule.{Rule};
ghost use Rattle.path_algebra.specs.Allowed.{IsAllowed};
ghost use Rattle.path_reduction.specs.Gaps.{IsTidy, AreTidy, HasNoGap};
ghost use Rattle.path_reduction.specs.Occurrences.{StandsAt};
ghost use Rattle.path_reduction.specs.FirstGaps.{ClosesAt, ClosesBefore, ClosesAll, IsFirstGapIn, IsFirstGap, ClosesTo, ForReductions, IsBecome, IsOpenAt};

use crate::reducing::{Derived, reduce, tail_between};
use crate::short_paths::ShortPaths;
use path_algebra::{Header, Rule, Term, tip_place};
use quiver_paths::{Path, PathError, paths_below};
use std::alloc::{AllocError, Global};

/// An occurrence of a rule's tip in a path that takes it to something else than reduction does. Rules are counted from 1; `at` is the number of
/// arrows that stand before the tip.
#[derive(Debug, Drop)]
pub struct Gap {
    pub path: Path,
    pub rule: u32,
    pub at: u32,
}

/// The least path of at most the bound's length that has a gap, with the occurrence in it that starts first.
///
/// The answer is none exactly where the rules have no gap. (Green.)
pub fn first_gap(alloc: Global, header: &Header, rules: &[Rule]) -> Result<Option<Gap>, AllocError>
    requires allowed { IsAllowed header.now }
    requires few { path_count header.now.quiver header.now.bound ≤ 4096 }
    requires tidy { AreTidy header.now rules.now }
    requires rules { length rules.now < 2 ^ 32 }
    ensures { IfOk result (λ found. MatchOption found (ForReductions header.now rules.now (HasNoGap header.now rules.now))
        (λ gap. ForReductions header.now rules.now (λ becomes. IsFirstGap header.now rules.now becomes gap))) }
{
    let space = ShortPaths::new(alloc, header)?;
    let paths = paths_to_bound(alloc, header)?;
    let found = first_gap_among(alloc, header, &space, rules, &paths)?;
    Ok(found)
}

/// The paths of at most the bound's length.
fn paths_to_bound(alloc: Global, header: &Header) -> Result<Vec<Path>, AllocError>
    requires allowed { IsAllowed header.now }
    requires few { path_count header.now.quiver header.now.bound ≤ 4096 }
    ensures { IfOk result (λ paths. ListsPathsBelow header.now.quiver (header.now.bound + 1) paths.items) }
{
    match paths_below(alloc, &header.quiver, header.bound + 1, u32::MAX) {
        Ok(paths) => Ok(paths),
        Err(PathError::NoMemory) => Err(AllocError),
        Err(PathError::PathLimit { count: _ }) => {
            prove!(false);
            Err(AllocError)
        }
    }
}

/// The first of the paths that has a gap, with the occurrence in it that starts first.
fn first_gap_among(
    alloc: Global,
    header: &Header,
    space: &ShortPaths,
    rules: &[Rule],
    paths: &[Path],
) -> Result<Option<Gap>, AllocError>
    requires allowed { IsAllowed header.now }
    requires few { path_count header.now.quiver header.now.bound ≤ 4096 }
    requires space { ListsPathsBelow header.now.quiver header.now.bound space.now }
    requires tidy { AreTidy header.now rules.now }
    requires rules { length rules.now < 2 ^ 32 }
    requires paths { ListsPathsBelow header.now.quiver (header.now.bound + 1) paths.now }
    ensures { IfOk result (λ found. MatchOption found (ForReductions header.now rules.now (HasNoGap header.now rules.now))
        (λ gap. ForReductions header.now rules.now (λ becomes. IsFirstGap header.now rules.now becomes gap))) }
{
    for path in paths {
        if let Some(gap) = first_gap_in(alloc, header, space, rules, path)? {
            return Ok(Some(gap));
        }
    }
    Ok(None)
}

/// The gap in a path that starts first.
fn first_gap_in(
    alloc: Global,
    header: &Header,
    space: &ShortPaths,
    rules: &[Rule],
    path: &Path,
) -> Result<Option<Gap>, AllocError>
    requires allowed { IsAllowed header.now }
    requires few { path_count header.now.quiver header.now.bound ≤ 4096 }
    requires space { ListsPathsBelow header.now.quiver header.now.bound space.now }
    requires tidy { AreTidy header.now rules.now }
    requires rules { length rules.now < 2 ^ 32 }
    requires path { IsPath header.now.quiver path.now }
    requires short { path_length path.now ≤ header.now.bound }
    ensures { IfOk result (λ found. MatchOption found (ForReductions header.now rules.now (λ becomes. ClosesAll header.now rules.now becomes path.now))
        (λ gap. ForReductions header.now rules.now (λ becomes. IsFirstGapIn header.now rules.now becomes path.now gap))) }
{
    let whole = become_of(alloc, header, space, rules, path)?;
    for at in 0..path.arrows.len() {
        if let Some(rule) = open_rule_at(alloc, header, space, rules, path, at, &whole)? {
            let path = path.clone()?;
            return Ok(Some(Gap {
                path,
                rule: rule as u32 + 1,
                at: at as u32,
            }));
        }
    }
    Ok(None)
}

/// The place of a rule whose tip stands there in the path and does not close. The terms are those of what the path becomes.
fn open_rule_at(
    alloc: Global,
    header: &Header,
    space: &ShortPaths,
    rules: &[Rule],
    path: &Path,
    at: usize,
    whole: &[Term],
) -> Result<Option<usize>, AllocError>
    requires allowed { IsAllowed header.now }
    requires few { path_count header.now.quiver header.now.bound ≤ 4096 }
    requires space { ListsPathsBelow header.now.quiver header.now.bound space.now }
    requires tidy { AreTidy header.now rules.now }
    requires path { IsPath header.now.quiver path.now }
    requires short { path_length path.now ≤ header.now.bound }
    requires at { at < path_length path.now }
    requires whole { IsBecome header.now rules.now path.now whole.now }
    ensures { IfOk result (λ found. MatchOption found (ForReductions header.now rules.now (λ becomes. (rule : Rule) → Contains rules.now rule → StandsAt rule path.now.arrows at → ClosesAt header.now becomes rule path.now at))
        (IsOpenAt header.now rules.now path.now at)) }
{
    for last in at..path.arrows.len() {
        if let Some(place) = open_rule_to(alloc, header, space, rules, path, at, last + 1, whole)? {
            return Ok(Some(place));
        }
    }
    Ok(None)
}

/// The place of a rule whose tip stands there, up to this end, and does not close.
fn open_rule_to(
    alloc: Global,
    header: &Header,
    space: &ShortPaths,
    rules: &[Rule],
    path: &Path,
    at: usize,
    end: usize,
    whole: &[Term],
) -> Result<Option<usize>, AllocError>
    requires allowed { IsAllowed header.now }
    requires few { path_count header.now.quiver header.now.bound ≤ 4096 }
    requires space { ListsPathsBelow header.now.quiver header.now.bound space.now }
    requires tidy { AreTidy header.now rules.now }
    requires path { IsPath header.now.quiver path.now }
    requires short { path_length path.now ≤ header.now.bound }
    requires at { at ≤ end }
    requires end { end ≤ path_length path.now }
    requires whole { IsBecome header.now rules.now path.now whole.now }
    ensures { IfOk result (λ found. MatchOption found (ForReductions header.now rules.now (ClosesTo header.now rules.now path.now at end)) (IsOpenAt header.now rules.now path.now at)) }
{
    let arrows = path.arrows.as_slice();
    match tip_place(rules, &arrows[at..end]) {
        None => Ok(None),
        Some(place) => {
            let closed = closes(alloc, header, space, rules, &rules[place], path, at, whole)?;
            if closed { Ok(None) } else { Ok(Some(place)) }
        }
    }
}

/// Whether the rule's tip there takes the path to what it becomes, of which the terms are given.
fn closes(
    alloc: Global,
    header: &Header,
    space: &ShortPaths,
    rules: &[Rule],
    rule: &Rule,
    path: &Path,
    at: usize,
    whole: &[Term],
) -> Result<bool, AllocError>
    requires allowed { IsAllowed header.now }
    requires few { path_count header.now.quiver header.now.bound ≤ 4096 }
    requires space { ListsPathsBelow header.now.quiver header.now.bound space.now }
    requires tidy { AreTidy header.now rules.now }
    requires rule { IsTidy header.now rule.now }
    requires path { IsPath header.now.quiver path.now }
    requires short { path_length path.now ≤ header.now.bound }
    requires stands { StandsAt rule.now path.now.arrows at }
    requires whole { IsBecome header.now rules.now path.now whole.now }
    ensures { IfOk result (λ answer. MatchBool answer (ForReductions header.now rules.now (λ becomes. ClosesAt header.now becomes rule.now path.now at))
        (ForReductions header.now rules.now (λ becomes. ¬ ClosesAt header.now becomes rule.now path.now at))) }
{
    let terms = tail_between(alloc, header, rule, path, at)?;
    let mut steps = Vec::new(alloc);
    let other = reduce(
        alloc,
        header,
        space,
        rules,
        &mut steps,
        Derived { terms, step: 0 },
    )?;
    let same = are_same(&other.terms, whole);
    Ok(same)
}

/// Whether the two have the same terms.
fn are_same(a: &[Term], b: &[Term]) -> bool
    ensures { MatchBool result (a.now ≡ b.now) (¬ (a.now ≡ b.now)) }
{
    if a.len() != b.len() {
        return false;
    }
    for i in 0..a.len() {
        if a[i].coef != b[i].coef || a[i].path != b[i].path {
            return false;
        }
    }
    true
}

/// The descending terms of what the path becomes.
fn become_of(
    alloc: Global,
    header: &Header,
    space: &ShortPaths,
    rules: &[Rule],
    path: &Path,
) -> Result<Vec<Term>, AllocError>
    requires allowed { IsAllowed header.now }
    requires few { path_count header.now.quiver header.now.bound ≤ 4096 }
    requires space { ListsPathsBelow header.now.quiver header.now.bound space.now }
    requires tidy { AreTidy header.now rules.now }
    requires path { IsPath header.now.quiver path.now }
    ensures { IfOk result (λ terms. IsBecome header.now rules.now path.now terms.items) }
{
    let mut terms = Vec::new(alloc);
    if path.arrows.len() >= header.bound as usize {
        return Ok(terms);
    }
    terms.push(Term {
        coef: 1,
        path: path.clone()?,
    })?;
    let mut steps = Vec::new(alloc);
    let reduced = reduce(
        alloc,
        header,
        space,
        rules,
        &mut steps,
        Derived { terms, step: 0 },
    )?;
    Ok(reduced.terms)
}
