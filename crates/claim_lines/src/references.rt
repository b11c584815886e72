//! Reading names and references.
ghost use Rattle.std.specs.Prelude.{ℕ, ◌≡◌, ◌∷◌, ◌++◌, [], ◌↔◌, List, IsTrue, decimal};
ghost use Rattle.path_algebra.specs.Allowed.{IsArrowName};
ghost use Rattle.path_algebra.specs.Derivations.{IsNumber};
ghost use Rattle.quiver_paths.specs.declared.names.Reference.{Reference as Named};
ghost use Rattle.report_types.specs.Ends.{IsToken};
ghost use Rattle.report_types.specs.Limits.{part_limit};
ghost use Rattle.text_lines.specs.Parts.{Lacks};
ghost use Rattle.header_text.specs.Reading.{Reads};
ghost use Rattle.claim_lines.specs.Spelling.{suffix_text, reference_text};
ghost use Rattle.claim_lines.specs.Reading.{IsDotted};

use quiver_paths::{Name, Reference, Suffix};
use text_lines::{Parts, cut_at, read_numeral};

/// Whether the name begins with a letter.
fn begins_with_letter(name: &Name) -> bool
    ensures { IsTrue result ↔ IsArrowName name.now }
{
    matches!(name.text()[0], b'a'..=b'z' | b'A'..=b'Z')
}

/// The name of a module or a map in a script.
fn script_name(token: &[u8]) -> Option<Name>
    ensures { Reads IsArrowName (λ (n : List ℕ). n) token.now result }
{
    let Some(name) = Name::of(token) else {
        return None;
    };
    if begins_with_letter(&name) {
        Some(name)
    } else {
        None
    }
}

/// The name of a module or a map that is all that is left.
pub(crate) fn only_name(tokens: Parts<'_>) -> Option<Name>
    ensures { Reads IsArrowName (λ (n : List ℕ). n ∷ []) tokens.entry result }
{
    let mut tokens = tokens;
    let Some(token) = tokens.next_part() else {
        return None;
    };
    if !tokens.is_done() {
        return None;
    }
    script_name(token)
}

/// The number of a part, from 1 to 256, that the bytes are.
fn part_number(bytes: &[u8]) -> Option<u32>
    ensures { Reads (IsNumber part_limit) decimal bytes.now result }
{
    let Some(k) = read_numeral(bytes, 256) else {
        return None;
    };
    if k == 0 {
        return None;
    }
    Some(k as u32)
}

/// What stands behind the dot.
fn suffix_of(bytes: &[u8]) -> Option<Suffix>
    ensures { Reads IsDotted suffix_text (46 ∷ bytes.now) result }
{
    if bytes == b"map".as_slice() {
        return Some(Suffix::Map);
    }
    if bytes == b"inv".as_slice() {
        return Some(Suffix::Inv);
    }
    let Some(k) = part_number(bytes) else {
        return None;
    };
    Some(Suffix::Part(k))
}

/// A token without a dot.
fn whole_reference(token: &[u8]) -> Option<Reference>
    requires { Lacks 46 token.now }
    ensures { Reads (λ (r : Named). IsToken r.name r.suffix) reference_text token.now result }
{
    let Some(name) = Name::of(token) else {
        return None;
    };
    Some(Reference {
        name,
        suffix: Suffix::Whole,
    })
}

/// What stands before and behind the first dot.
fn dotted_reference(front: &[u8], back: &[u8]) -> Option<Reference>
    requires { Lacks 46 front.now }
    ensures { Reads (λ (r : Named). IsToken r.name r.suffix) reference_text (front.now ++ 46 ∷ back.now) result }
{
    let Some(name) = script_name(front) else {
        return None;
    };
    let Some(suffix) = suffix_of(back) else {
        return None;
    };
    Some(Reference { name, suffix })
}

/// The reference, or the name alone, that the token is.
fn reference_of(token: &[u8]) -> Option<Reference>
    ensures { Reads (λ (r : Named). IsToken r.name r.suffix) reference_text token.now result }
{
    let Some((front, back)) = cut_at(token, b'.') else {
        return whole_reference(token);
    };
    dotted_reference(front, back)
}

/// The reference, or the name alone, that is all that is left.
pub(crate) fn only_reference(tokens: Parts<'_>) -> Option<Reference>
    ensures { Reads (λ (r : Named). IsToken r.name r.suffix) (λ (r : Named). reference_text r ∷ []) tokens.entry result }
{
    let mut tokens = tokens;
    let Some(token) = tokens.next_part() else {
        return None;
    };
    if !tokens.is_done() {
        return None;
    }
    reference_of(token)
}
