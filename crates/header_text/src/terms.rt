//! Reading terms and relations.
ghost use Rattle.std.specs.Prelude.{ℕ, ◌≡◌, ◌≢◌, ◌<◌, ◌≤◌, [], ◌∷◌, ◌++◌, ◌↔◌, List, length, slice_index_or, All, AllPairs, IfOk, IfSome, IfNone, IsTrue};
ghost use Rattle.linear_algebra.specs.Field.{order};
ghost use Rattle.quiver_paths.specs.Path.{path_length};
ghost use Rattle.path_algebra.specs.declared.Term.{Term};
ghost use Rattle.path_algebra.specs.declared.Relation.{Relation};
ghost use Rattle.path_algebra.specs.Allowed.{IsTerm, IsParallel, IsRelation};
ghost use Rattle.header_text.specs.Spelling.{term_text, terms_arguments};
ghost use Rattle.header_text.specs.Named.{IsNamed, IsLongPath, IsCoefficientThen, AreTerms, AreRelated};
ghost use Rattle.header_text.specs.Reading.{Reads, ReadsFirst};

use crate::tokens::{cut_coefficient, read_path};
use path_algebra::{Header, Relation, Term};
use quiver_paths::Path;
use seq::Seq;
use std::alloc::{AllocError, Global};
use text_lines::Parts;

/// Whether a term of a relation may have this path: its length is from 2 to 64.
pub fn has_term_length(path: &Path) -> bool
    ensures { IsTrue result ↔ ((2 ≤ path_length path.now) × (path_length path.now ≤ 64)) }
{
    path.arrows.len() >= 2 && path.arrows.len() <= 64
}

/// The term that a token spells.
fn read_term(alloc: Global, header: &Header, token: &[u8]) -> Result<Option<Term>, AllocError>
    requires { IsNamed header.now.quiver }
    ensures { IfOk result (λ r. Reads (IsTerm header.now) (term_text header.now.quiver) token.now r) }
{
    let Some((coef, rest)) = cut_coefficient(header.field, token) else {
        return Ok(None);
    };
    let Some(path) = read_path(alloc, &header.quiver, rest)? else {
        return Ok(None);
    };
    if !has_term_length(&path) {
        return Ok(None);
    }
    Ok(Some(Term { coef, path }))
}

/// The term that the next token spells.
fn next_term(
    alloc: Global,
    header: &Header,
    tokens: &mut Parts<'_>,
) -> Result<Option<Term>, AllocError>
    requires { IsNamed header.now.quiver }
    ensures { IfOk result (λ r. ReadsFirst (IsTerm header.now) (λ (t : Term). term_text header.now.quiver t ∷ []) tokens.old tokens.new r) }
{
    let Some(token) = tokens.next_part() else {
        return Ok(None);
    };
    read_term(alloc, header, token)
}

/// The term that the next two tokens spell, the first of which is `+`.
fn next_plus_term(
    alloc: Global,
    header: &Header,
    tokens: &mut Parts<'_>,
) -> Result<Option<Term>, AllocError>
    requires { IsNamed header.now.quiver }
    ensures { IfOk result (λ r. ReadsFirst (IsTerm header.now) (λ (t : Term). (43 ∷ []) ∷ term_text header.now.quiver t ∷ []) tokens.old tokens.new r) }
{
    if !tokens.take_word(b"+") {
        return Ok(None);
    }
    next_term(alloc, header, tokens)
}

/// The terms that the tokens spell, with a `+` between each two.
fn read_terms(
    alloc: Global,
    header: &Header,
    tokens: Parts<'_>,
) -> Result<Option<Seq<Term>>, AllocError>
    requires { IsNamed header.now.quiver }
    ensures { IfOk result (λ r. Reads (AreTerms header.now) (terms_arguments header.now.quiver) tokens.entry r) }
{
    let mut tokens = tokens;
    let mut terms = Seq::new(alloc);
    let Some(first) = next_term(alloc, header, &mut tokens)? else {
        return Ok(None);
    };
    terms.push(first)?;
    while !tokens.is_done() {
        let Some(term) = next_plus_term(alloc, header, &mut tokens)? else {
            return Ok(None);
        };
        terms.push(term)?;
    }
    Ok(Some(terms))
}

/// Whether two paths start at one vertex and end at one vertex.
fn is_parallel(a: &Path, b: &Path) -> bool
    ensures { IsTrue result ↔ IsParallel a.now b.now }
{
    a.start == b.start && a.end == b.end
}

/// Whether the paths of the terms are parallel.
fn are_parallel(terms: &[Term]) -> bool
    ensures { IsTrue result ↔ AllPairs (λ (a b : Term). IsParallel a.path b.path) terms.now }
{
    for term in terms {
        if !is_parallel(&terms[0].path, &term.path) {
            return false;
        }
    }
    true
}

/// Whether none of the terms before one has its path.
fn is_new(terms: &[Term], i: usize) -> bool
    requires { i < length terms.now }
    ensures { IsTrue result ↔ ((j : ℕ) (d : Term) → j < i → (slice_index_or terms.now j d).path ≢ (slice_index_or terms.now i d).path) }
{
    for j in 0..i {
        if terms[j].path == terms[i].path {
            return false;
        }
    }
    true
}

/// Whether the paths of the terms are all different.
fn are_different(terms: &[Term]) -> bool
    ensures { IsTrue result ↔ AllPairs (λ (a b : Term). a.path ≢ b.path) terms.now }
{
    for i in 0..terms.len() {
        if !is_new(terms, i) {
            return false;
        }
    }
    true
}

/// Whether terms make a relation: at most 64, their paths parallel and all different.
pub fn are_related(terms: &[Term]) -> bool
    ensures { IsTrue result ↔ AreRelated terms.now }
{
    terms.len() <= 64 && are_parallel(terms) && are_different(terms)
}

/// The relation that the tokens spell.
pub(crate) fn read_relation(
    alloc: Global,
    header: &Header,
    tokens: Parts<'_>,
) -> Result<Option<Relation>, AllocError>
    requires { IsNamed header.now.quiver }
    ensures { IfOk result (λ r. Reads (IsRelation header.now) (λ (x : Relation). terms_arguments header.now.quiver x.terms) tokens.entry r) }
{
    let Some(terms) = read_terms(alloc, header, tokens)? else {
        return Ok(None);
    };
    if !are_related(terms.as_slice()) {
        return Ok(None);
    }
    Ok(Some(Relation { terms }))
}
