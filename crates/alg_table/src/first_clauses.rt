//! The conditions on a basis that are tried before the action on the words.
ghost use Rattle.std.specs.Prelude.{IfOk, MatchOption};
ghost use Rattle.path_algebra.specs.Allowed.{IsAllowed};
ghost use Rattle.path_algebra.specs.BasisClauses.{IsBasisClaim, IsFirstFault};
ghost use Rattle.alg_table.specs.FirstClauses.{MeetsFirstClauses};

use crate::clauses::{rules_hold, steps_hold};
use crate::reduced::reduced_holds;
use crate::words::words_hold;
use path_algebra::{BasisFault, Header, Rule, Step};
use quiver_paths::Path;
use std::alloc::{AllocError, Global};

/// The first of the conditions on steps, rules, tips and words that does not hold; none where they all hold. The condition on the action comes
/// after them, and is not tried here.
pub fn first_fault(
    alloc: Global,
    header: &Header,
    words: &[Path],
    steps: &[Step],
    rules: &[Rule],
) -> Result<Option<BasisFault>, AllocError>
    requires allowed { IsAllowed header.now }
    requires claim { IsBasisClaim header.now words.now steps.now rules.now }
    ensures { IfOk result (λ fault. MatchOption fault (MeetsFirstClauses header.now words.now steps.now rules.now) (IsFirstFault header.now words.now steps.now rules.now)) }
{
    if !steps_hold(header, steps, rules) {
        return Ok(Some(BasisFault::Step));
    }
    if !rules_hold(alloc, header, steps, rules)? {
        return Ok(Some(BasisFault::Rule));
    }
    if !reduced_holds(header, rules) {
        return Ok(Some(BasisFault::Reduced));
    }
    if !words_hold(alloc, header, words, rules)? {
        return Ok(Some(BasisFault::Words));
    }
    Ok(None)
}
