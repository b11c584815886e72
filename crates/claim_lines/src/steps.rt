//! Reading the steps of a derivation.
ghost use Rattle.std.specs.Prelude.{ℕ, ◌≡◌, ◌<◌, ◌≤◌, ◌+◌, ◌^◌, ◌∷◌, [], List, length, codes, decimal};
ghost use Rattle.path_algebra.specs.Derivations.{IsNumber};
ghost use Rattle.path_algebra.specs.declared.rules.Step.{Step};
ghost use Rattle.path_algebra.specs.Derivations.{NamesEarlier};
ghost use Rattle.path_algebra.specs.BasisClauses.{HasFactor};
ghost use Rattle.header_text.specs.Named.{IsNamed};
ghost use Rattle.header_text.specs.Spelling.{arrow_name};
ghost use Rattle.header_text.specs.Reading.{Reads};
ghost use Rattle.claim_lines.specs.Spelling.{step_form, step_line};
ghost use Rattle.claim_lines.specs.Items.{FitsStep};
ghost use Rattle.claim_lines.specs.Reading.{AreArrowAndNumber, AreSummands};

use crate::counts::{next_factor, next_place, only_place};
use crate::paths::{next_arrow, only_arrow_name};
use path_algebra::{Header, Step};
use quiver_paths::Quiver;
use text_lines::Parts;

/// The arrow and the number from 1 to `last` that are all that is left.
fn arrow_and_place(quiver: &Quiver, last: u32, tokens: Parts<'_>) -> Option<(u8, u32)>
    requires { IsNamed quiver.now }
    ensures { Reads (λ (x : ℕ × ℕ). AreArrowAndNumber quiver.now last x.0 x.1) (λ (x : ℕ × ℕ). arrow_name quiver.now x.0 ∷ decimal x.1 ∷ []) tokens.entry result }
{
    let mut tokens = tokens;
    let Some(arrow) = next_arrow(quiver, &mut tokens) else {
        return None;
    };
    let Some(place) = only_place(tokens, last) else {
        return None;
    };
    Some((arrow, place))
}

/// The number from 1 to `last` and the arrow that are all that is left.
fn place_and_arrow(quiver: &Quiver, last: u32, tokens: Parts<'_>) -> Option<(u32, u8)>
    requires { IsNamed quiver.now }
    ensures { Reads (λ (x : ℕ × ℕ). AreArrowAndNumber quiver.now last x.1 x.0) (λ (x : ℕ × ℕ). decimal x.0 ∷ arrow_name quiver.now x.1 ∷ []) tokens.entry result }
{
    let mut tokens = tokens;
    let Some(place) = next_place(&mut tokens, last) else {
        return None;
    };
    let Some(arrow) = only_arrow_name(quiver, tokens) else {
        return None;
    };
    Some((place, arrow))
}

/// The number from 1 to `last`, the coefficient and the other such number that are all that is left.
fn summands(header: &Header, last: u32, tokens: Parts<'_>) -> Option<(u32, u8, u32)>
    ensures { Reads (λ (x : ℕ × ℕ × ℕ). AreSummands header.now last x.0 x.1 x.2) (λ (x : ℕ × ℕ × ℕ). decimal x.0 ∷ decimal x.1 ∷ decimal x.2 ∷ []) tokens.entry result }
{
    let mut tokens = tokens;
    let Some(first) = next_place(&mut tokens, last) else {
        return None;
    };
    let Some(factor) = next_factor(header.field, &mut tokens) else {
        return None;
    };
    let Some(second) = only_place(tokens, last) else {
        return None;
    };
    Some((first, factor, second))
}

fn relation_step(header: &Header, last: u32, tokens: Parts<'_>) -> Option<Step>
    requires { length header.now.relations < 2 ^ 32 }
    ensures { Reads (λ (s : Step). NamesEarlier header.now last s × HasFactor header.now s) (step_form header.now.quiver) (codes "relation" ∷ tokens.entry) result }
{
    let Some(number) = only_place(tokens, header.relations.len() as u32) else {
        return None;
    };
    Some(Step::Relation(number))
}

fn left_step(header: &Header, last: u32, tokens: Parts<'_>) -> Option<Step>
    requires { IsNamed header.now.quiver }
    ensures { Reads (λ (s : Step). NamesEarlier header.now last s × HasFactor header.now s) (step_form header.now.quiver) (codes "left" ∷ tokens.entry) result }
{
    let Some((arrow, place)) = arrow_and_place(&header.quiver, last, tokens) else {
        return None;
    };
    Some(Step::Left(arrow, place))
}

fn right_step(header: &Header, last: u32, tokens: Parts<'_>) -> Option<Step>
    requires { IsNamed header.now.quiver }
    ensures { Reads (λ (s : Step). NamesEarlier header.now last s × HasFactor header.now s) (step_form header.now.quiver) (codes "right" ∷ tokens.entry) result }
{
    let Some((place, arrow)) = place_and_arrow(&header.quiver, last, tokens) else {
        return None;
    };
    Some(Step::Right(place, arrow))
}

fn add_step(header: &Header, last: u32, tokens: Parts<'_>) -> Option<Step>
    ensures { Reads (λ (s : Step). NamesEarlier header.now last s × HasFactor header.now s) (step_form header.now.quiver) (codes "add" ∷ tokens.entry) result }
{
    let Some((first, factor, second)) = summands(header, last, tokens) else {
        return None;
    };
    Some(Step::Add(first, factor, second))
}

/// What a step is, behind its number and behind `last` steps.
fn read_form(header: &Header, last: u32, tokens: Parts<'_>) -> Option<Step>
    requires named { IsNamed header.now.quiver }
    requires few { length header.now.relations < 2 ^ 32 }
    ensures { Reads (λ (s : Step). NamesEarlier header.now last s × HasFactor header.now s) (step_form header.now.quiver) tokens.entry result }
{
    let mut tokens = tokens;
    let Some(word) = tokens.next_part() else {
        return None;
    };
    if word == b"relation".as_slice() {
        return relation_step(header, last, tokens);
    }
    if word == b"left".as_slice() {
        return left_step(header, last, tokens);
    }
    if word == b"right".as_slice() {
        return right_step(header, last, tokens);
    }
    if word == b"add".as_slice() {
        return add_step(header, last, tokens);
    }
    None
}

/// Reads the tokens of the line of a step, behind the lines of so many steps: its number, which is one more, and what it is.
/// `None`: they spell no such step, it names a relation, an arrow or a step that is not there or a coefficient that is 0 or
/// not in the field, or there are too many steps to be counted in 32 bits.
pub fn read_step(header: &Header, earlier: usize, tokens: Parts<'_>) -> Option<Step>
    requires named { IsNamed header.now.quiver }
    requires few { length header.now.relations < 2 ^ 32 }
    ensures { Reads (FitsStep header.now earlier) (step_line header.now.quiver (earlier + 1)) tokens.entry result }
{
    if earlier >= 4_294_967_295 {
        return None;
    }
    let mut tokens = tokens;
    if !tokens.take_word(b"step") {
        return None;
    }
    let Some(number) = tokens.take_numeral(earlier as u64 + 1) else {
        return None;
    };
    if number != earlier as u64 + 1 {
        return None;
    }
    read_form(header, earlier as u32, tokens)
}
