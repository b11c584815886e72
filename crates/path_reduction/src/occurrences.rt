//! Where tips stand among the arrows of a path.
ghost use Rattle.std.specs.Prelude.{ℕ, ⊤, ◌≡◌, ◌<◌, ◌≤◌, List, length, slice_index_or, IfSome, IfNone, MatchBool};
ghost use Rattle.path_algebra.specs.declared.rules.Rule.{Rule};
ghost use Rattle.path_algebra.specs.Occurring.{TipsAscend, IsTipOf, EndsInTip, HasTip};
ghost use Rattle.path_reduction.specs.Occurrences.{StandsAtEnd, EndsFirst};

use path_algebra::{Rule, tip_place};

/// A tip among the arrows of a path: the place of its rule, counted from 0, and how many arrows stand before it.
#[derive(Drop)]
pub struct Occurrence {
    pub rule: usize,
    pub before: usize,
}

/// The tip among the arrows that ends first. It takes no memory.
pub(crate) fn first_occurrence(rules: &[Rule], arrows: &[u8]) -> Option<Occurrence>
    requires { TipsAscend rules.now }
    ensures some { IfSome result (λ o. EndsFirst rules.now arrows.now o.rule o.before) }
    ensures none { IfNone result (¬ HasTip rules.now arrows.now) }
{
    for end in 0..arrows.len() {
        if let Some(found) = occurrence_at_end(rules, &arrows[..end + 1]) {
            return Some(found);
        }
    }
    None
}

/// The tip with which the arrows end, none where they end with no tip. The tips of the rules ascend. It takes no memory.
pub fn occurrence_at_end(rules: &[Rule], arrows: &[u8]) -> Option<Occurrence>
    requires { TipsAscend rules.now }
    ensures some { IfSome result (λ o. StandsAtEnd rules.now arrows.now o.rule o.before) }
    ensures none { IfNone result (¬ EndsInTip rules.now arrows.now) }
{
    for before in 0..arrows.len() {
        if let Some(rule) = place_of_tip(rules, &arrows[before..]) {
            return Some(Occurrence { rule, before });
        }
    }
    None
}

/// The place of the rule whose tip has these arrows; where no tip has so many, none is compared with them. It takes no memory.
fn place_of_tip(rules: &[Rule], arrows: &[u8]) -> Option<usize>
    requires { TipsAscend rules.now }
    ensures found { IfSome result (λ place. place < length rules.now) }
    ensures same { IfSome result (λ place. (d : Rule) → (slice_index_or rules.now place d).tip.arrows ≡ arrows.now) }
    ensures none { IfNone result (¬ IsTipOf rules.now arrows.now) }
{
    if !may_have_length(rules, arrows.len()) {
        return None;
    }
    let place = tip_place(rules, arrows)?;
    Some(place)
}

/// Whether the first tip has no more arrows than so many and the last no fewer. It takes no memory.
fn may_have_length(rules: &[Rule], count: usize) -> bool
    requires { TipsAscend rules.now }
    ensures { MatchBool result ⊤ ((arrows : List ℕ) → length arrows ≡ count → IsTipOf rules.now arrows → ⊥) }
{
    if rules.is_empty() {
        return false;
    }
    if count < rules[0].tip.arrows.len() {
        return false;
    }
    if rules[rules.len() - 1].tip.arrows.len() < count {
        return false;
    }
    true
}
