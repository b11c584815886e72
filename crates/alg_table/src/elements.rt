//! The elements of the steps that rules name. An element is let go behind the last step that names it.
ghost use Rattle.std.specs.Prelude.{ℕ, ◌≡◌, ◌<◌, ◌≤◌, ◌+◌, ◌-◌, List, length, slice_index_or, IfOk, OnOk, All, IsTrue};
ghost use Rattle.quiver_paths.specs.declared.Path.{Path};
ghost use Rattle.path_algebra.specs.declared.Header.{Header};
ghost use Rattle.path_algebra.specs.declared.rules.Element.{Element};
ghost use Rattle.path_algebra.specs.declared.rules.Rule.{Rule};
ghost use Rattle.path_algebra.specs.Allowed.{IsAllowed};
ghost use Rattle.path_algebra.specs.Rules.{AreElementTerms};
ghost use Rattle.path_algebra.specs.Derivations.{IsNumber, NamesEarlier, step_element, step_elements, element_at};
ghost use Rattle.path_algebra.specs.BasisClauses.{StepsHold, HasFactor};
ghost use Rattle.path_algebra.specs.ElementTerms.{AreTermsOf};
ghost use Rattle.alg_table.specs.LastUses.{AllNamed, KeepsNamed, IsElementAt, AreInUse};

use crate::last_uses::last_uses;
use path_algebra::{
    Element, Header, Rule, Step, Term, arrow_path, plus_multiple, terms_before, terms_behind,
    terms_of_relation,
};
use seq::Seq;
use std::alloc::{AllocError, Global};

/// For each step its element where a rule names the step; where none does, the element may be without terms.
///
/// An element is in memory up to its last use, and is not made where nothing uses it.
pub(crate) fn elements_for_rules(
    alloc: Global,
    header: &Header,
    steps: &[Step],
    rules: &[Rule],
) -> Result<Vec<Element>, AllocError>
    requires allowed { IsAllowed header.now }
    requires steps { StepsHold header.now steps.now rules.now }
    requires factors { All (HasFactor header.now) steps.now }
    ensures count { IfOk result (λ elements. length elements.items ≡ length steps.now) }
    ensures rules { IfOk result (λ elements. All (λ (rule : Rule). IsElementAt header.now (step_elements header.now steps.now) elements.items rule.step) rules.now) }
{
    let lasts = last_uses(alloc, steps, rules)?;
    let mut elements = Vec::new(alloc);
    for step in steps {
        push_element(alloc, header, &lasts, *step, &mut elements)?;
    }
    Ok(elements)
}

/// Adds the element of the next step, if it is used, and lets go what is not used behind that step.
fn push_element(
    alloc: Global,
    header: &Header,
    lasts: &[usize],
    step: Step,
    elements: &mut Vec<Element>,
) -> Result<(), AllocError>
    requires allowed { IsAllowed header.now }
    requires named { NamesEarlier header.now (length elements.old.items) step }
    requires factor { HasFactor header.now step }
    requires lasts { length elements.old.items < length lasts.now }
    requires terms { All (λ (e : Element). AreElementTerms header.now e.terms) elements.old.items }
    ensures count { OnOk result (length elements.new.items ≡ length elements.old.items + 1) }
    ensures in_use { (xs : List (Path → ℕ)) → element_at xs (length elements.old.items + 1) ≡ step_element header.now xs step → KeepsNamed lasts.now (length elements.old.items) step
        → AreInUse header.now xs lasts.now elements.old.items → OnOk result (AreInUse header.now xs lasts.now elements.new.items) }
{
    let place = elements.len();
    let element = element_if_used(alloc, header, elements, step, lasts[place] > place)?;
    elements.push(element)?;
    let_go_named(alloc, lasts, step, elements);
    Ok(())
}

/// The step's element, and one without terms where it is not used.
fn element_if_used(
    alloc: Global,
    header: &Header,
    elements: &[Element],
    step: Step,
    is_used: bool,
) -> Result<Element, AllocError>
    requires allowed { IsAllowed header.now }
    requires named { NamesEarlier header.now (length elements.now) step }
    requires factor { HasFactor header.now step }
    requires terms { All (λ (e : Element). AreElementTerms header.now e.terms) elements.now }
    ensures terms { IfOk result (λ element. AreElementTerms header.now element.terms) }
    ensures used { (xs : List (Path → ℕ)) → IsTrue is_used → AllNamed (IsElementAt header.now xs elements.now) step → IfOk result (λ element. AreTermsOf header.now (step_element header.now xs step) element.terms) }
{
    if !is_used {
        return Ok(Element {
            terms: Seq::new(alloc),
        });
    }
    let terms = terms_of_step(alloc, header, elements, step)?;
    Ok(Element {
        terms: Seq::from_vec(terms),
    })
}

/// The terms of a step's element, from the elements that the step names.
fn terms_of_step(
    alloc: Global,
    header: &Header,
    elements: &[Element],
    step: Step,
) -> Result<Vec<Term>, AllocError>
    requires allowed { IsAllowed header.now }
    requires named { NamesEarlier header.now (length elements.now) step }
    requires factor { HasFactor header.now step }
    requires terms { All (λ (e : Element). AreElementTerms header.now e.terms) elements.now }
    ensures terms { IfOk result (λ terms. AreElementTerms header.now terms.items) }
    ensures value { (xs : List (Path → ℕ)) → AllNamed (IsElementAt header.now xs elements.now) step → IfOk result (λ terms. AreTermsOf header.now (step_element header.now xs step) terms.items) }
{
    match step {
        Step::Relation(number) => {
            let relation = &header.relations[number as usize - 1];
            let terms = terms_of_relation(alloc, header, relation)?;
            Ok(terms)
        }
        Step::Left(arrow, number) => {
            let path = arrow_path(alloc, header, arrow)?;
            let terms = terms_behind(alloc, header, &path, terms_at(elements, number))?;
            Ok(terms)
        }
        Step::Right(number, arrow) => {
            let path = arrow_path(alloc, header, arrow)?;
            let terms = terms_before(alloc, header, terms_at(elements, number), &path)?;
            Ok(terms)
        }
        Step::Add(number, factor, other) => {
            let first = terms_at(elements, number);
            let second = terms_at(elements, other);
            let terms = plus_multiple(alloc, header, first, factor, second)?;
            Ok(terms)
        }
    }
}

/// The terms of the element with this number, counted from 1.
fn terms_at(elements: &[Element], number: u32) -> &[Term]
    requires { IsNumber (length elements.now) number }
    ensures { (e : Element) → result.now ≡ (slice_index_or elements.now (number - 1) e).terms }
{
    let element = &elements[number as usize - 1];
    element.terms.as_slice()
}

/// Lets go what the step names, if it is used no more.
fn let_go_named(alloc: Global, lasts: &[usize], step: Step, elements: &mut Vec<Element>)
    requires named { AllNamed (IsNumber (length elements.old.items)) step }
    requires lasts { length elements.old.items ≤ length lasts.now }
    ensures count { length elements.new.items ≡ length elements.old.items }
    ensures in_use { (h : Header) (xs : List (Path → ℕ)) → AreInUse h xs lasts.now elements.old.items → AreInUse h xs lasts.now elements.new.items }
{
    match step {
        Step::Relation(_) => {}
        Step::Left(_, number) => let_go(alloc, lasts, number, elements),
        Step::Right(number, _) => let_go(alloc, lasts, number, elements),
        Step::Add(number, _, other) => {
            let_go(alloc, lasts, number, elements);
            let_go(alloc, lasts, other, elements);
        }
    }
}

/// Lets go the element with this number, if it is used no more.
fn let_go(alloc: Global, lasts: &[usize], number: u32, elements: &mut Vec<Element>)
    requires number { IsNumber (length elements.old.items) number }
    requires lasts { length elements.old.items ≤ length lasts.now }
    ensures count { length elements.new.items ≡ length elements.old.items }
    ensures in_use { (h : Header) (xs : List (Path → ℕ)) → AreInUse h xs lasts.now elements.old.items → AreInUse h xs lasts.now elements.new.items }
{
    if lasts[number as usize - 1] < elements.len() {
        elements[number as usize - 1] = Element {
            terms: Seq::new(alloc),
        };
    }
}
