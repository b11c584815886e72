//! Elements divided by the coefficient of their greatest path.
ghost use Rattle.std.specs.Prelude.{ℕ, ◌≡◌, ◌<◌, ◌≤◌, ◌+◌, ◌^◌, length, IfOk, OnOk};
ghost use Rattle.path_algebra.specs.declared.Term.{Term};
ghost use Rattle.path_algebra.specs.Elements.{sum_of_terms};
ghost use Rattle.path_algebra.specs.Rules.{AreElementTerms};
ghost use Rattle.path_reduction.specs.Derived.{Derives, Lengthens};
ghost use Rattle.path_reduction.specs.Scaling.{monic_terms};

use crate::making::push_step;
use crate::reducing::Derived;
use path_algebra::{Header, Step, plus_multiple};
use std::alloc::{AllocError, Global};

/// The element divided by the coefficient of its greatest path.
pub(crate) fn monic(
    alloc: Global,
    header: &Header,
    steps: &mut Vec<Step>,
    given: Derived,
) -> Result<Derived, AllocError>
    requires terms { AreElementTerms header.now given.terms.items }
    requires some { 0 < length given.terms.items }
    requires room { length steps.old.items + 1 < 2 ^ 32 }
    ensures terms { IfOk result (λ d. (x : Term) → d.terms.items ≡ monic_terms header.now given.terms.items x) }
    ensures count { OnOk result (length steps.new.items ≤ length steps.old.items + 1) }
    ensures lengthens { OnOk result (Lengthens steps.old.items steps.new.items) }
    ensures makes { IfOk result (λ d. Derives header.now steps.old.items given.step (sum_of_terms header.now.field header.now.bound given.terms.items)
        → Derives header.now steps.new.items d.step (sum_of_terms header.now.field header.now.bound d.terms.items)) }
{
    let first = given.terms[0].coef;
    if first == 1 {
        return Ok(given);
    }
    let factor = header.field.sub(header.field.inv(first), 1);
    let terms = plus_multiple(alloc, header, &given.terms, factor, &given.terms)?;
    let step = push_step(steps, Step::Add(given.step, factor, given.step))?;
    Ok(Derived { terms, step })
}
