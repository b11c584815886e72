//! A new rule among tidy rules, in the place of those whose tips have its tip as a factor.
ghost use Rattle.std.specs.Prelude.{◌≡◌, ◌++◌, ◌∷◌, [], IfOk, OnOk};
ghost use Rattle.std.specs.List.{filter};
ghost use Rattle.path_algebra.specs.declared.Header.{Header};
ghost use Rattle.path_reduction.specs.NewRules.{IsNewTo};
ghost use Rattle.path_basis.specs.Inserting.{Inserts, IsPlaceOf, has_run, lacks_run};
ghost use Rattle.path_basis.specs.Measure.{runs_in};

use path_algebra::Rule;
use quiver_paths::{Path, compare};
use std::alloc::{AllocError, Global};
use std::cmp::Ordering;

/// The rules with a new one, at its place by ascending tips. Those whose tips have the new tip as a factor are put behind what was removed.
pub(crate) fn insert_rule(
    alloc: Global,
    rules: Vec<Rule>,
    rule: Rule,
    removed: &mut Vec<Rule>,
) -> Result<Vec<Rule>, AllocError>
    ensures { IfOk result (λ new. (h : Header) → IsNewTo h rules.items rule → Inserts h rules.items rule new.items removed.old.items removed.new.items) }
{
    let mut kept = take_out(alloc, rules, rule.tip.arrows.as_slice(), removed)?;
    let place = place_of(&kept, &rule.tip);
    kept.insert(place, rule)?;
    Ok(kept)
}

/// The rules whose tips do not have these arrows among theirs; the others are put behind what was removed.
fn take_out(
    alloc: Global,
    rules: Vec<Rule>,
    arrows: &[u8],
    removed: &mut Vec<Rule>,
) -> Result<Vec<Rule>, AllocError>
    ensures kept { IfOk result (λ kept. kept.items ≡ filter (lacks_run arrows.now) rules.items) }
    ensures removed { OnOk result (removed.new.items ≡ removed.old.items ++ filter (has_run arrows.now) rules.items) }
{
    let mut kept = Vec::new(alloc);
    for rule in rules {
        sort_out(rule, arrows, &mut kept, removed)?;
    }
    Ok(kept)
}

/// Puts the rule behind what was removed if its tip has these arrows among its own, and behind what is kept otherwise.
fn sort_out(
    rule: Rule,
    arrows: &[u8],
    kept: &mut Vec<Rule>,
    removed: &mut Vec<Rule>,
) -> Result<(), AllocError>
    ensures kept { OnOk result (kept.new.items ≡ kept.old.items ++ filter (lacks_run arrows.now) (rule ∷ [])) }
    ensures removed { OnOk result (removed.new.items ≡ removed.old.items ++ filter (has_run arrows.now) (rule ∷ [])) }
{
    if has_run(rule.tip.arrows.as_slice(), arrows) {
        removed.push(rule)?;
        return Ok(());
    }
    kept.push(rule)?;
    Ok(())
}

/// Whether the run stands among the arrows, one behind the other.
pub(crate) fn has_run(arrows: &[u8], run: &[u8]) -> bool
    ensures { result ≡ runs_in run.now arrows.now }
{
    for start in 0..arrows.len() {
        if arrows[start..].starts_with(run) {
            return true;
        }
    }
    false
}

/// The place of the path among ascending tips.
fn place_of(rules: &[Rule], path: &Path) -> usize
    ensures { IsPlaceOf rules.now path.now result }
{
    for place in 0..rules.len() {
        let rule = &rules[place];
        if compare(&rule.tip, path) != Ordering::Less {
            return place;
        }
    }
    rules.len()
}
