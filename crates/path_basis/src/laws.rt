//! What holds of rules without gaps. The functions do nothing: their contracts are laws.
ghost use Rattle.std.specs.Prelude.{List, Contains, All};
ghost use Rattle.path_algebra.specs.declared.Header.{Header};
ghost use Rattle.path_algebra.specs.declared.Term.{Term};
ghost use Rattle.path_algebra.specs.declared.rules.Rule.{Rule};
ghost use Rattle.path_algebra.specs.Allowed.{IsAllowed};
ghost use Rattle.path_algebra.specs.Ideals.{IsInIdeal};
ghost use Rattle.path_algebra.specs.Rules.{rule_element, AreReducedRules};
ghost use Rattle.path_algebra.specs.Reduction.{HasNoTip};
ghost use Rattle.path_reduction.specs.Gaps.{AreTidy};
ghost use Rattle.path_basis.specs.Completing.{IsClosed};

/// Where rules of the ideal have no gap, each relation without its terms of the bound's length or more reduces to zero, and in no path of a
/// tail a tip occurs, the rules are the reduced rules of the ideal. (Green.) Of reduction by tidy rules there is exactly one.
pub fn no_gap_means_reduced()
    ensures { (h : Header) (rules : List Rule) → IsAllowed h → AreTidy h rules → IsClosed h rules
        → ((rule : Rule) → Contains rules rule → IsInIdeal h (rule_element h rule))
        → All (λ (rule : Rule). All (λ (a : Term). HasNoTip h rules a.path) rule.tail.terms) rules
        → AreReducedRules h rules }
{}
