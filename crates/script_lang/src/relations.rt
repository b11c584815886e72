//! Relations by their tokens.
ghost use Rattle.std.specs.Prelude.{ℕ, ◌≡◌, ◌≢◌, ◌<◌, ◌≤◌, ◌↔◌, length, slice_index_or, AllPairs, IfOk, IfSome, IsTrue, Some, drop};
ghost use Rattle.linear_algebra.specs.Field.{order};
ghost use Rattle.quiver_paths.specs.Quiver.{vertex_count, arrow_count, source, target};
ghost use Rattle.text_lines.specs.Parts.{parts};
ghost use Rattle.script_lang.specs.Arguments.{before};
ghost use Rattle.script_lang.specs.Relations.{arrow_place, places_in, path_of, path_in, term_of, term_in, negative, is_plus, is_minus, next_signed, signed_terms, relation_of, relation_in};

use super::tokens::{is_word, read_number};
use fp_linear::Field;
use path_algebra::{Header, Relation, Term};
use quiver_paths::{Arrow, Path, Quiver};
use seq::Seq;
use std::alloc::{AllocError, Global};
use text_lines::{Parts, Words, cut_at};

fn arrow_place(arrows: &[Arrow], name: &[u8]) -> Option<u8>
    requires { length arrows.now ≤ 128 }
    ensures { result ≡ arrow_place arrows.now name.now }
{
    for (i, arrow) in arrows.iter().enumerate() {
        if is_word(arrow.name.text(), name) {
            return Some(i as u8);
        }
    }
    None
}

// The places of the arrows whose names, joined by `.`, are the token.
fn read_places(alloc: Global, arrows: &[Arrow], token: &[u8]) -> Result<Option<Seq<u8>>, AllocError>
    requires { length arrows.now ≤ 128 }
    ensures { IfOk result (λ r. r ≡ places_in arrows.now (parts 46 token.now)) }
{
    let mut places = Seq::new(alloc);
    let mut names = Parts::of(token, b'.');
    while let Some(name) = names.next_part() {
        let Some(place) = arrow_place(arrows, name) else {
            return Ok(None);
        };
        places.push(place)?;
    }
    Ok(Some(places))
}

fn source_of(quiver: &Quiver, arrow: u8) -> u8
    requires { vertex_count quiver.now ≤ 32 }
    ensures { result ≡ source quiver.now arrow }
{
    let place = arrow as usize;
    if place < quiver.arrows.len() {
        quiver.arrows[place].from
    } else {
        quiver.vertices.len() as u8
    }
}

fn target_of(quiver: &Quiver, arrow: u8) -> u8
    requires { vertex_count quiver.now ≤ 32 }
    ensures { result ≡ target quiver.now arrow }
{
    let place = arrow as usize;
    if place < quiver.arrows.len() {
        quiver.arrows[place].to
    } else {
        quiver.vertices.len() as u8
    }
}

fn path_of(quiver: &Quiver, arrows: Option<Seq<u8>>) -> Option<Path>
    requires { vertex_count quiver.now ≤ 32 }
    ensures { result ≡ path_of quiver.now arrows }
{
    let arrows = arrows?;
    if arrows.is_empty() {
        return None;
    }
    Some(Path {
        start: source_of(quiver, arrows[0]),
        end: target_of(quiver, arrows[arrows.len() - 1]),
        arrows,
    })
}

fn read_path(alloc: Global, quiver: &Quiver, token: &[u8]) -> Result<Option<Path>, AllocError>
    requires vertices { vertex_count quiver.now ≤ 32 }
    requires arrows { arrow_count quiver.now ≤ 128 }
    ensures { IfOk result (λ r. r ≡ path_in quiver.now token.now) }
{
    let places = read_places(alloc, quiver.arrows.as_slice(), token)?;
    Ok(path_of(quiver, places))
}

fn term_of(coef: Option<u32>, path: Option<Path>) -> Option<Term>
    requires { IfSome coef (λ c. c < 256) }
    ensures { result ≡ term_of coef path }
{
    Some(Term {
        coef: coef? as u8,
        path: path?,
    })
}

fn read_term(alloc: Global, header: &Header, token: &[u8]) -> Result<Option<Term>, AllocError>
    requires vertices { vertex_count header.now.quiver ≤ 32 }
    requires arrows { arrow_count header.now.quiver ≤ 128 }
    ensures term { IfOk result (λ r. r ≡ term_in header.now.field header.now.quiver token.now) }
    ensures small { IfOk result (λ r. IfSome r (λ t. t.coef < order header.now.field)) }
{
    match cut_at(token, b'*') {
        Some((coef, path)) => {
            let path = read_path(alloc, &header.quiver, path)?;
            Ok(term_of(read_number(coef, header.field.size() - 1), path))
        }
        None => {
            let path = read_path(alloc, &header.quiver, token)?;
            Ok(term_of(Some(1), path))
        }
    }
}

fn negative(field: Field, term: Option<Term>) -> Option<Term>
    requires { IfSome term (λ t. t.coef < order field) }
    ensures { result ≡ negative field term }
{
    let term = term?;
    Some(Term {
        coef: field.neg(term.coef),
        path: term.path,
    })
}

// The term behind its sign.
fn next_signed(
    alloc: Global,
    header: &Header,
    sign: &[u8],
    words: &mut Words<'_>,
) -> Result<Option<Term>, AllocError>
    requires vertices { vertex_count header.now.quiver ≤ 32 }
    requires arrows { arrow_count header.now.quiver ≤ 128 }
    ensures term { IfOk result (λ r. r ≡ next_signed header.now.field header.now.quiver sign.now words.old) }
    ensures rest { words.new ≡ drop 1 words.old }
{
    let Some(token) = words.next_word() else {
        return Ok(None);
    };
    if is_plus(sign) {
        read_term(alloc, header, token)
    } else if is_minus(sign) {
        let term = read_term(alloc, header, token)?;
        Ok(negative(header.field, term))
    } else {
        Ok(None)
    }
}

fn is_plus(token: &[u8]) -> bool
    ensures { result ≡ is_plus token.now }
{
    is_word(token, b"+")
}

fn is_minus(token: &[u8]) -> bool
    ensures { result ≡ is_minus token.now }
{
    is_word(token, b"-")
}

// The terms from the first on, each later one behind its sign.
fn read_more(
    alloc: Global,
    header: &Header,
    first: Term,
    words: &mut Words<'_>,
) -> Result<Option<Seq<Term>>, AllocError>
    requires vertices { vertex_count header.now.quiver ≤ 32 }
    requires arrows { arrow_count header.now.quiver ≤ 128 }
    ensures { IfOk result (λ r. r ≡ before (Some first) (signed_terms header.now.field header.now.quiver words.old)) }
{
    let mut terms = Seq::new(alloc);
    terms.push(first)?;
    while let Some(sign) = words.next_word() {
        let Some(term) = next_signed(alloc, header, sign, words)? else {
            return Ok(None);
        };
        terms.push(term)?;
    }
    Ok(Some(terms))
}

fn relation_of(terms: Option<Seq<Term>>) -> Option<Relation>
    ensures { result ≡ relation_of terms }
{
    Some(Relation { terms: terms? })
}

/// The relation that the tokens write, whatever its paths.
pub fn read_relation(
    alloc: Global,
    header: &Header,
    words: &mut Words<'_>,
) -> Result<Option<Relation>, AllocError>
    requires vertices { vertex_count header.now.quiver ≤ 32 }
    requires arrows { arrow_count header.now.quiver ≤ 128 }
    ensures { IfOk result (λ r. r ≡ relation_in header.now words.old) }
{
    let Some(first) = words.next_word() else {
        return Ok(None);
    };
    let term = if is_minus(first) {
        next_signed(alloc, header, first, words)?
    } else {
        read_term(alloc, header, first)?
    };
    let Some(term) = term else {
        return Ok(None);
    };
    let terms = read_more(alloc, header, term, words)?;
    Ok(relation_of(terms))
}
