//! The last use of each step of a derivation: the last step that names it, or the end where a rule does.
ghost use Rattle.std.specs.Prelude.{ℕ, ◌<◌, ◌≤◌, length, slice_index_or, IfOk, All};
ghost use Rattle.path_algebra.specs.declared.rules.Rule.{Rule};
ghost use Rattle.path_algebra.specs.declared.rules.Step.{Step};
ghost use Rattle.path_algebra.specs.Derivations.{IsNumber};
ghost use Rattle.alg_table.specs.LastUses.{AllNamed, last_use, KeepsNamed, AreLater, AreLastUses};

use path_algebra::{Rule, Step};
use std::alloc::{AllocError, Global};

/// For each step the place, counted from 0, of the last step that names it, and the number of all steps where a rule names it; 0 where nothing does.
pub(crate) fn last_uses(
    alloc: Global,
    steps: &[Step],
    rules: &[Rule],
) -> Result<Vec<usize>, AllocError>
    requires earlier { (k : ℕ) (s : Step) → k < length steps.now → AllNamed (IsNumber k) (slice_index_or steps.now k s) }
    requires rules { All (λ (rule : Rule). IsNumber (length steps.now) rule.step) rules.now }
    ensures { IfOk result (λ lasts. AreLastUses steps.now rules.now lasts.items) }
{
    let mut lasts = vec![in alloc; 0usize; steps.len()]?;
    for (place, step) in steps.iter().enumerate() {
        note_named(*step, place, &mut lasts);
    }
    for rule in rules {
        note_use(rule.step, steps.len(), &mut lasts);
    }
    Ok(lasts)
}

/// Notes that what the step names is used at this place.
fn note_named(step: Step, place: usize, lasts: &mut Vec<usize>)
    requires { AllNamed (IsNumber (length lasts.old.items)) step }
    ensures later { AreLater lasts.old.items lasts.new.items }
    ensures noted { KeepsNamed lasts.new.items place step }
{
    match step {
        Step::Relation(_) => {}
        Step::Left(_, number) => note_use(number, place, lasts),
        Step::Right(number, _) => note_use(number, place, lasts),
        Step::Add(number, _, other) => {
            note_use(number, place, lasts);
            note_use(other, place, lasts);
        }
    }
}

/// Notes that the step with this number is used at this place.
fn note_use(number: u32, place: usize, lasts: &mut Vec<usize>)
    requires { IsNumber (length lasts.old.items) number }
    ensures later { AreLater lasts.old.items lasts.new.items }
    ensures noted { place ≤ last_use lasts.new.items number }
{
    if lasts[number as usize - 1] < place {
        lasts[number as usize - 1] = place;
    }
}
