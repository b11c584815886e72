//! Reading rules.
ghost use Rattle.std.specs.Prelude.{ℕ, ◌≡◌, ◌<◌, ◌≤◌, ◌∷◌, [], ◌++◌, ◌↔◌, Bool, List, All, AllPairs, length, codes, decimal, IsTrue, IfOk};
ghost use Rattle.quiver_paths.specs.Path.{path_length};
ghost use Rattle.quiver_paths.specs.PathOrder.{IsSmaller};
ghost use Rattle.path_algebra.specs.declared.Term.{Term};
ghost use Rattle.path_algebra.specs.declared.Header.{Header};
ghost use Rattle.path_algebra.specs.declared.rules.Rule.{Rule};
ghost use Rattle.header_text.specs.Named.{IsNamed};
ghost use Rattle.header_text.specs.Reading.{Reads, ReadsFirst};
ghost use Rattle.claim_lines.specs.Spelling.{rule_line};
ghost use Rattle.header_text.specs.Spelling.{term_text};
ghost use Rattle.path_algebra.specs.Derivations.{IsNumber};
ghost use Rattle.claim_lines.specs.Items.{FitsRule};
ghost use Rattle.claim_lines.specs.Reading.{IsTailTerm, AreTailTerms, separator, separated, rule_form, tail_then_by, IsRuleForm, HasLimits};

use crate::counts::only_place;
use crate::paths::{next_path, tail_term};
use path_algebra::{Element, Header, Rule, Term};
use quiver_paths::{Path, compare};
use seq::Seq;
use std::alloc::{AllocError, Global};
use text_lines::Parts;

/// What stands behind a term: true for `by`, false for `+`.
fn next_separator(tokens: &mut Parts<'_>) -> Option<bool>
    ensures { ReadsFirst (λ (b : Bool). Unit {0}) (λ (b : Bool). separator b ∷ []) tokens.old tokens.new result }
{
    let Some(word) = tokens.next_part() else {
        return None;
    };
    if word == b"by".as_slice() {
        return Some(true);
    }
    if word == b"+".as_slice() {
        return Some(false);
    }
    None
}

/// The term that a token spells, and whether it is the last by what stands behind it.
fn separated(
    alloc: Global,
    header: &Header,
    token: &[u8],
    tokens: &mut Parts<'_>,
) -> Result<Option<(Term, bool)>, AllocError>
    requires { IsNamed header.now.quiver }
    ensures { IfOk result (λ r. ReadsFirst (λ (x : Term × Bool). IsTailTerm header.now x.0) (separated header.now.quiver) (token.now ∷ tokens.old) tokens.new r) }
{
    let Some(term) = tail_term(alloc, header, token)? else {
        return Ok(None);
    };
    let Some(is_last) = next_separator(tokens) else {
        return Ok(None);
    };
    Ok(Some((term, is_last)))
}

/// The same of the next token.
fn next_separated(
    alloc: Global,
    header: &Header,
    tokens: &mut Parts<'_>,
) -> Result<Option<(Term, bool)>, AllocError>
    requires { IsNamed header.now.quiver }
    ensures { IfOk result (λ r. ReadsFirst (λ (x : Term × Bool). IsTailTerm header.now x.0) (separated header.now.quiver) tokens.old tokens.new r) }
{
    let Some(token) = tokens.next_part() else {
        return Ok(None);
    };
    separated(alloc, header, token, tokens)
}

/// The terms, of which a token spells the first, up to the word `by`.
fn some_terms(
    alloc: Global,
    header: &Header,
    token: &[u8],
    tokens: &mut Parts<'_>,
) -> Result<Option<Seq<Term>>, AllocError>
    requires { IsNamed header.now.quiver }
    ensures { IfOk result (λ r. ReadsFirst (AreTailTerms header.now) (tail_then_by header.now.quiver) (token.now ∷ tokens.old) tokens.new r) }
{
    let mut terms = Seq::new(alloc);
    let Some((first, is_only)) = separated(alloc, header, token, tokens)? else {
        return Ok(None);
    };
    terms.push(first)?;
    let mut is_last = is_only;
    while !is_last {
        let Some((term, ends)) = next_separated(alloc, header, tokens)? else {
            return Ok(None);
        };
        terms.push(term)?;
        is_last = ends;
    }
    Ok(Some(terms))
}

/// The tail without terms, of which the first token was taken, up to the word `by`.
fn zero_tail(alloc: Global, tokens: &mut Parts<'_>) -> Option<Seq<Term>>
    ensures { ReadsFirst (λ (ts : List Term). ts ≡ []) (λ (ts : List Term). codes "by" ∷ []) tokens.old tokens.new result }
{
    if !tokens.take_word(b"by") {
        return None;
    }
    Some(Seq::new(alloc))
}

/// Whether the token is `0`.
fn is_zero(token: &[u8]) -> bool
    ensures { IsTrue result ↔ (token.now ≡ codes "0") }
{
    token == b"0".as_slice()
}

/// The tail of a rule up to the word `by`.
fn read_tail(
    alloc: Global,
    header: &Header,
    tokens: &mut Parts<'_>,
) -> Result<Option<Seq<Term>>, AllocError>
    requires { IsNamed header.now.quiver }
    ensures { IfOk result (λ r. ReadsFirst (All (IsTailTerm header.now)) (tail_then_by header.now.quiver) tokens.old tokens.new r) }
{
    let Some(token) = tokens.next_part() else {
        return Ok(None);
    };
    if is_zero(token) {
        return Ok(zero_tail(alloc, tokens));
    }
    some_terms(alloc, header, token, tokens)
}

/// The tail and the number of the step that are all that is left.
fn tail_and_place(
    alloc: Global,
    header: &Header,
    steps: u32,
    tokens: Parts<'_>,
) -> Result<Option<(Seq<Term>, u32)>, AllocError>
    requires { IsNamed header.now.quiver }
    ensures { IfOk result (λ r. Reads (λ (x : List Term × ℕ). All (IsTailTerm header.now) x.0 × IsNumber steps x.1) (λ (x : List Term × ℕ). tail_then_by header.now.quiver x.0 ++ decimal x.1 ∷ []) tokens.entry r) }
{
    let mut tokens = tokens;
    let Some(terms) = read_tail(alloc, header, &mut tokens)? else {
        return Ok(None);
    };
    let Some(place) = only_place(tokens, steps) else {
        return Ok(None);
    };
    Ok(Some((terms, place)))
}

/// The rule whose tokens, behind the first, these are.
fn rule_form(
    alloc: Global,
    header: &Header,
    steps: u32,
    tokens: Parts<'_>,
) -> Result<Option<Rule>, AllocError>
    requires { IsNamed header.now.quiver }
    ensures { IfOk result (λ r. Reads (IsRuleForm header.now steps) (rule_form header.now.quiver) tokens.entry r) }
{
    let mut tokens = tokens;
    let Some(tip) = next_path(alloc, &header.quiver, &mut tokens)? else {
        return Ok(None);
    };
    if !tokens.take_word(b"->") {
        return Ok(None);
    }
    let Some((terms, step)) = tail_and_place(alloc, header, steps, tokens)? else {
        return Ok(None);
    };
    Ok(Some(Rule {
        tip,
        tail: Element { terms },
        step,
    }))
}

/// Whether the first path is smaller than the second.
fn is_smaller(a: &Path, b: &Path) -> bool
    ensures { IsTrue result ↔ IsSmaller a.now b.now }
{
    compare(a, b).is_lt()
}

/// Whether the paths of the terms descend.
fn are_descending(terms: &[Term]) -> bool
    ensures { IsTrue result ↔ AllPairs (λ (a b : Term). IsSmaller b.path a.path) terms.now }
{
    for i in 1..terms.len() {
        if !is_smaller(&terms[i].path, &terms[i - 1].path) {
            return false;
        }
    }
    true
}

/// Whether the paths of the terms are shorter than the bound.
fn are_short(terms: &[Term], bound: u32) -> bool
    ensures { IsTrue result ↔ All (λ (t : Term). path_length t.path < bound) terms.now }
{
    for term in terms {
        if term.path.arrows.len() >= bound as usize {
            return false;
        }
    }
    true
}

/// Whether a rule of the right form is within the limits, and its tail descends.
fn has_limits(header: &Header, rule: &Rule) -> bool
    ensures { IsTrue result ↔ HasLimits header.now rule.now }
{
    let terms = rule.tail.terms.as_slice();
    rule.tip.arrows.len() <= 64 && are_descending(terms) && are_short(terms, header.bound)
}

/// Reads the tokens of the line of a rule, behind the lines of so many steps and so many rules. The rule names one of the
/// steps by its number, from 1 on. `Ok(None)`: they spell no rule with a tip of at most 64 arrows and a tail that descends and
/// whose paths are shorter than the bound, or there are too many steps or rules to be counted in 32 bits. `Err`: memory is
/// wanting.
pub fn read_rule(
    alloc: Global,
    header: &Header,
    steps: usize,
    earlier: usize,
    tokens: Parts<'_>,
) -> Result<Option<Rule>, AllocError>
    requires { IsNamed header.now.quiver }
    ensures { IfOk result (λ r. Reads (FitsRule header.now steps earlier) (rule_line header.now.quiver) tokens.entry r) }
{
    if steps >= 4_294_967_296 || earlier >= 4_294_967_295 {
        return Ok(None);
    }
    let mut tokens = tokens;
    if !tokens.take_word(b"rule") {
        return Ok(None);
    }
    let Some(rule) = rule_form(alloc, header, steps as u32, tokens)? else {
        return Ok(None);
    };
    if !has_limits(header, &rule) {
        return Ok(None);
    }
    Ok(Some(rule))
}
