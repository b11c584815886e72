//! Tips of ascending rules among the arrows of a path.
ghost use Rattle.std.specs.Prelude.{ℕ, ◌≡◌, ◌<◌, ◌≤◌, length, slice_index_or, MatchBool, IfSome, IfNone};
ghost use Rattle.path_algebra.specs.declared.rules.Rule.{Rule};
ghost use Rattle.path_algebra.specs.Occurring.{arrows_cmp, TipsAscend, IsTipOf, EndsInTip, HasTip};

use crate::Rule;
use std::cmp::Ordering;

/// How arrows stand to others: fewer are smaller, as many are compared from the left.
pub fn compare_arrows(a: &[u8], b: &[u8]) -> Ordering
    ensures { result ≡ arrows_cmp a.now b.now }
{
    a.len().cmp(&b.len()).then(a.cmp(b))
}

/// The place of the rule whose tip has these arrows. It takes no memory.
pub fn tip_place(rules: &[Rule], arrows: &[u8]) -> Option<usize>
    requires { TipsAscend rules.now }
    ensures found { IfSome result (λ place. place < length rules.now) }
    ensures same { IfSome result (λ place. (d : Rule) → (slice_index_or rules.now place d).tip.arrows ≡ arrows.now) }
    ensures none { IfNone result (¬ IsTipOf rules.now arrows.now) }
{
    let mut low = 0;
    let mut high = rules.len();
    while low < high {
        let middle = low + (high - low) / 2;
        let rule = &rules[middle];
        match compare_arrows(rule.tip.arrows.as_slice(), arrows) {
            Ordering::Less => low = middle + 1,
            Ordering::Equal => return Some(middle),
            Ordering::Greater => high = middle,
        }
    }
    None
}

/// Whether a tip has these arrows. It takes no memory.
fn is_tip(rules: &[Rule], arrows: &[u8]) -> bool
    requires { TipsAscend rules.now }
    ensures { MatchBool result (IsTipOf rules.now arrows.now) (¬ IsTipOf rules.now arrows.now) }
{
    match tip_place(rules, arrows) {
        Some(_place) => true,
        None => false,
    }
}

/// Whether the arrows end with those of a tip.
pub fn ends_in_tip(rules: &[Rule], arrows: &[u8]) -> bool
    requires { TipsAscend rules.now }
    ensures { MatchBool result (EndsInTip rules.now arrows.now) (¬ EndsInTip rules.now arrows.now) }
{
    for place in 0..arrows.len() {
        if is_tip(rules, &arrows[place..]) {
            return true;
        }
    }
    false
}

/// Whether the arrows of a tip stand among these, one behind the other.
pub fn has_tip(rules: &[Rule], arrows: &[u8]) -> bool
    requires { TipsAscend rules.now }
    ensures { MatchBool result (HasTip rules.now arrows.now) (¬ HasTip rules.now arrows.now) }
{
    for place in 0..arrows.len() {
        if ends_in_tip(rules, &arrows[..place + 1]) {
            return true;
        }
    }
    false
}
