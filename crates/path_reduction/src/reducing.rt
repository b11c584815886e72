//! Reduction of elements by rules, each step of it derived.
ghost use Rattle.std.specs.Prelude.{ℕ, ◌≡◌, ◌≢◌, ◌<◌, ◌≤◌, ◌+◌, ◌^◌, List, length, slice_index, IfOk, OnOk};
ghost use Rattle.linear_algebra.specs.Field.{order, neg};
ghost use Rattle.quiver_paths.specs.declared.Path.{Path};
ghost use Rattle.quiver_paths.specs.Path.{IsPath, path_length};
ghost use Rattle.quiver_paths.specs.PathList.{path_count, ListsPathsBelow};
ghost use Rattle.linear_algebra.specs.Rows.{IsRow};
ghost use Rattle.path_algebra.specs.declared.Term.{Term};
ghost use Rattle.path_algebra.specs.Allowed.{IsAllowed};
ghost use Rattle.path_algebra.specs.Elements.{sum_of_terms};
ghost use Rattle.path_algebra.specs.Rows.{path_at};
ghost use Rattle.path_algebra.specs.Rules.{AreElementTerms, rule_element};
ghost use Rattle.path_algebra.specs.ElementTerms.{terms_behind, terms_before};
ghost use Rattle.path_reduction.specs.Gaps.{IsTidy, AreTidy};
ghost use Rattle.path_reduction.specs.Occurrences.{StandsAt, part_before, part_behind};
ghost use Rattle.path_reduction.specs.Derived.{Derives, Lengthens, AreDerived, plus_rule};
ghost use Rattle.path_reduction.specs.Reducing.{AreReducedTo, IsReducing, IsRewritten, IsAdded, beside, row_element, tail_at};

use crate::dense::{add_products, coefs_of, last_place, terms_of};
use crate::making::derive_rewriting;
use crate::occurrences::first_occurrence;
use crate::short_paths::ShortPaths;
use path_algebra::{Header, Rule, Step, Term, terms_before, terms_behind};
use quiver_paths::Path;
use seq::Seq;
use std::alloc::{AllocError, Global};

/// The descending terms of an element, and the number of the step that makes it, counted from 1.
#[derive(Drop)]
pub struct Derived {
    pub terms: Vec<Term>,
    pub step: u32,
}

/// An element by its coefficients at the short paths, and the number of the step that makes it, counted from 1.
#[derive(Drop)]
struct Dense {
    coefs: Vec<u8>,
    step: u32,
}

/// What an element becomes by reduction by the rules, in which no tip occurs, and its derivation: at most 131,072 steps are added behind those that
/// are there. Where the given step makes another element beside the given one, so does the last step beside what it becomes. The short paths are
/// those of the header.
///
/// The rules are tidy; steps that do not derive them and the element may be given, and then only the terms of the answer tell something.
/// `AllocError` comes for want of memory; steps may have been added then.
pub fn reduce(
    alloc: Global,
    header: &Header,
    space: &ShortPaths,
    rules: &[Rule],
    steps: &mut Vec<Step>,
    given: Derived,
) -> Result<Derived, AllocError>
    requires allowed { IsAllowed header.now }
    requires few { path_count header.now.quiver header.now.bound ≤ 4096 }
    requires space { ListsPathsBelow header.now.quiver header.now.bound space.now }
    requires tidy { AreTidy header.now rules.now }
    requires terms { AreElementTerms header.now given.terms.items }
    requires room { length steps.old.items + 131072 < 2 ^ 32 }
    ensures reduced { IfOk result (λ d. AreReducedTo header.now rules.now given.terms.items d.terms.items) }
    ensures count { OnOk result (length steps.new.items ≤ length steps.old.items + 131072) }
    ensures lengthens { OnOk result (Lengthens steps.old.items steps.new.items) }
    ensures makes { IfOk result (λ d. (x : Path → ℕ) → AreDerived header.now steps.old.items rules.now
        → Derives header.now steps.old.items given.step (beside header.now x (sum_of_terms header.now.field header.now.bound given.terms.items))
        → Derives header.now steps.new.items d.step (beside header.now x (sum_of_terms header.now.field header.now.bound d.terms.items))) }
{
    let coefs = coefs_of(alloc, header, space, &given.terms)?;
    let mut element = Dense {
        coefs,
        step: given.step,
    };
    let mut end = space.len();
    while let Some(place) = last_place(&element.coefs, end) {
        element = reduce_at(header, space, rules, steps, place, element)?;
        end = place;
    }
    let terms = terms_of(alloc, space, &element.coefs)?;
    Ok(Derived {
        terms,
        step: element.step,
    })
}

/// The element, once the first tip in the path at a place is rewritten, if the path has a tip.
fn reduce_at(
    header: &Header,
    space: &ShortPaths,
    rules: &[Rule],
    steps: &mut Vec<Step>,
    place: usize,
    element: Dense,
) -> Result<Dense, AllocError>
    requires allowed { IsAllowed header.now }
    requires space { ListsPathsBelow header.now.quiver header.now.bound space.now }
    requires tidy { AreTidy header.now rules.now }
    requires place { place < length space.now }
    requires row { IsRow header.now.field (length space.now) element.coefs.items }
    requires nonzero { slice_index element.coefs.items place ≢ 0 }
    requires room { length steps.old.items + 32 < 2 ^ 32 }
    ensures reducing { IfOk result (λ next. (given : List Term) → IsReducing header.now rules.now given space.now element.coefs.items (place + 1)
        → IsReducing header.now rules.now given space.now next.coefs.items place) }
    ensures count { OnOk result (length steps.new.items ≤ length steps.old.items + 32) }
    ensures lengthens { OnOk result (Lengthens steps.old.items steps.new.items) }
    ensures makes { IfOk result (λ next. (x : Path → ℕ) → AreDerived header.now steps.old.items rules.now
        → Derives header.now steps.old.items element.step (beside header.now x (row_element header.now space.now element.coefs.items))
        → Derives header.now steps.new.items next.step (beside header.now x (row_element header.now space.now next.coefs.items))) }
{
    match first_occurrence(rules, space.path(place).arrows.as_slice()) {
        None => Ok(element),
        Some(found) => {
            let rule = &rules[found.rule];
            let next = rewrite(header, space, rule, steps, place, found.before, element)?;
            Ok(next)
        }
    }
}

/// The element, once the rule's tip in the path at a place is rewritten.
fn rewrite(
    header: &Header,
    space: &ShortPaths,
    rule: &Rule,
    steps: &mut Vec<Step>,
    place: usize,
    before: usize,
    element: Dense,
) -> Result<Dense, AllocError>
    requires allowed { IsAllowed header.now }
    requires space { ListsPathsBelow header.now.quiver header.now.bound space.now }
    requires tidy { IsTidy header.now rule.now }
    requires place { place < length space.now }
    requires stands { StandsAt rule.now (path_at space.now place).arrows before }
    requires row { IsRow header.now.field (length space.now) element.coefs.items }
    requires nonzero { slice_index element.coefs.items place ≢ 0 }
    requires room { length steps.old.items + 32 < 2 ^ 32 }
    ensures rewritten { IfOk result (λ next. IsRewritten header.now space.now rule.now place before element.coefs.items next.coefs.items) }
    ensures count { OnOk result (length steps.new.items ≤ length steps.old.items + 32) }
    ensures lengthens { OnOk result (Lengthens steps.old.items steps.new.items) }
    ensures makes { IfOk result (λ next. (x : Path → ℕ) → Derives header.now steps.old.items rule.now.step (rule_element header.now rule.now) → Derives header.now steps.old.items element.step x
        → Derives header.now steps.new.items next.step (plus_rule header.now x (neg header.now.field (slice_index element.coefs.items place)) rule.now (path_at space.now place) before)) }
{
    let path = space.path(place);
    let mut coefs = element.coefs;
    let factor = coefs[place];
    coefs[place] = 0;
    add_tail(header, space, rule, place, before, factor, &mut coefs);
    let step = derive_rewriting(header, steps, element.step, factor, rule, path, before)?;
    Ok(Dense { coefs, step })
}

/// Adds a multiple of the rule's tail, between what stands before its tip in the path at a place and what stands behind it.
fn add_tail(
    header: &Header,
    space: &ShortPaths,
    rule: &Rule,
    place: usize,
    before: usize,
    factor: u8,
    coefs: &mut [u8],
)
    requires allowed { IsAllowed header.now }
    requires space { ListsPathsBelow header.now.quiver header.now.bound space.now }
    requires tidy { IsTidy header.now rule.now }
    requires place { place < length space.now }
    requires stands { StandsAt rule.now (path_at space.now place).arrows before }
    requires factor { factor < order header.now.field }
    requires row { IsRow header.now.field (length space.now) coefs.old }
    ensures { IsAdded header.now space.now (tail_at header.now factor rule.now (path_at space.now place) before) (path_at space.now place) coefs.old coefs.new }
{
    let arrows = space.path(place).arrows.as_slice();
    let behind = &arrows[before + rule.tip.arrows.len()..];
    match space.walk(space.start(place), &arrows[..before]) {
        None => {
            prove!(false);
        }
        Some(first) => {
            add_products(
                header,
                space,
                factor,
                first,
                rule.tail.terms.as_slice(),
                behind,
                coefs,
            );
        }
    }
}

/// The terms of the rule's tail, between what stands before its tip in the path and what stands behind it.
pub(crate) fn tail_between(
    alloc: Global,
    header: &Header,
    rule: &Rule,
    path: &Path,
    before: usize,
) -> Result<Vec<Term>, AllocError>
    requires allowed { IsAllowed header.now }
    requires tidy { IsTidy header.now rule.now }
    requires path { IsPath header.now.quiver path.now }
    requires length { path_length path.now ≤ 32 }
    requires stands { StandsAt rule.now path.now.arrows before }
    ensures { IfOk result (λ terms. terms.items ≡ terms_behind header.now.bound (part_before path.now rule.now before)
        (terms_before header.now.bound (part_behind path.now rule.now before) rule.now.tail.terms)) }
{
    let arrows = path.arrows.as_slice();
    let left = part(alloc, path.start, &arrows[..before], rule.tip.start)?;
    let end = before + rule.tip.arrows.len();
    let right = part(alloc, rule.tip.end, &arrows[end..], path.end)?;
    let tail = terms_before(alloc, header, rule.tail.terms.as_slice(), &right)?;
    let terms = terms_behind(alloc, header, &left, &tail)?;
    Ok(terms)
}

/// The path with these ends and arrows.
fn part(alloc: Global, start: u8, arrows: &[u8], end: u8) -> Result<Path, AllocError>
    ensures { IfOk result (λ path. path ≡ record { start = start; end = end; arrows = arrows.now }) }
{
    let arrows = Seq::from_vec(Vec::from_slice(alloc, arrows)?);
    Ok(Path { start, end, arrows })
}
