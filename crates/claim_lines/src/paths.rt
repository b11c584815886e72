//! Reading paths, arrows and the terms of tails.
ghost use Rattle.std.specs.Prelude.{ℕ, ◌≡◌, ◌≢◌, ◌<◌, ◌≤◌, ◌∷◌, [], ◌↔◌, List, All, IsTrue, IfOk, slice_index};
ghost use Rattle.quiver_paths.specs.declared.Path.{Path};
ghost use Rattle.quiver_paths.specs.Path.{IsPath, path_length};
ghost use Rattle.quiver_paths.specs.Quiver.{vertex_count, arrow_count};
ghost use Rattle.path_algebra.specs.declared.Header.{Header};
ghost use Rattle.header_text.specs.Named.{IsNamed};
ghost use Rattle.header_text.specs.Spelling.{vertex_name, arrow_name, path_text, term_text};
ghost use Rattle.header_text.specs.Reading.{Reads, ReadsFirst};
ghost use Rattle.claim_lines.specs.Spelling.{word_line};
ghost use Rattle.claim_lines.specs.Items.{FitsWord};
ghost use Rattle.claim_lines.specs.Reading.{IsTailTerm};

use crate::words::Words;
use header_text::{arrow_place, cut_coefficient, read_path, vertex_place};
use path_algebra::{Header, Term};
use quiver_paths::{Path, Quiver};
use seq::Seq;
use std::alloc::{AllocError, Global};
use text_lines::Parts;

/// The trivial path at a vertex.
fn path_at(alloc: Global, vertex: u8) -> Path
    ensures { result ≡ record { start = vertex; end = vertex; arrows = [] } }
{
    Path {
        start: vertex,
        end: vertex,
        arrows: Seq::new(alloc),
    }
}

/// The trivial path whose vertex has the name.
fn trivial_path(alloc: Global, quiver: &Quiver, name: &[u8]) -> Option<Path>
    requires { IsNamed quiver.now }
    ensures { Reads (λ (p : Path). IsPath quiver.now p × (p.arrows ≡ [])) (λ (p : Path). vertex_name quiver.now p.start) name.now result }
{
    let Some(vertex) = vertex_place(quiver, name) else {
        return None;
    };
    Some(path_at(alloc, vertex))
}

/// Whether `@` is the first byte.
fn begins_with_at(token: &[u8]) -> bool
    ensures { IsTrue result ↔ (slice_index token.now 0 ≡ 64) }
{
    !token.is_empty() && token[0] == b'@'
}

/// The path, trivial or not, that the token spells.
pub(crate) fn any_path(
    alloc: Global,
    quiver: &Quiver,
    token: &[u8],
) -> Result<Option<Path>, AllocError>
    requires { IsNamed quiver.now }
    ensures { IfOk result (λ r. Reads (IsPath quiver.now) (path_text quiver.now) token.now r) }
{
    if begins_with_at(token) {
        return Ok(trivial_path(alloc, quiver, &token[1..]));
    }
    let path = read_path(alloc, quiver, token)?;
    Ok(path)
}

/// The path that the next token spells.
pub(crate) fn next_path(
    alloc: Global,
    quiver: &Quiver,
    tokens: &mut Parts<'_>,
) -> Result<Option<Path>, AllocError>
    requires { IsNamed quiver.now }
    ensures { IfOk result (λ r. ReadsFirst (IsPath quiver.now) (λ (p : Path). path_text quiver.now p ∷ []) tokens.old tokens.new r) }
{
    let Some(token) = tokens.next_part() else {
        return Ok(None);
    };
    any_path(alloc, quiver, token)
}

/// The path that is spelled by all that is left.
pub(crate) fn only_path(
    alloc: Global,
    quiver: &Quiver,
    tokens: Parts<'_>,
) -> Result<Option<Path>, AllocError>
    requires { IsNamed quiver.now }
    ensures { IfOk result (λ r. Reads (IsPath quiver.now) (λ (p : Path). path_text quiver.now p ∷ []) tokens.entry r) }
{
    let mut tokens = tokens;
    let Some(token) = tokens.next_part() else {
        return Ok(None);
    };
    if tokens.next_part().is_some() {
        return Ok(None);
    }
    any_path(alloc, quiver, token)
}

/// Reads the tokens of the line of a word, behind the lines of these words: a path that is shorter than the bound.
/// `Ok(None)`: they spell no such path, or it is one of the words. `Err`: memory is wanting.
pub fn read_word(
    alloc: Global,
    header: &Header,
    words: &Words,
    tokens: Parts<'_>,
) -> Result<Option<Path>, AllocError>
    requires { IsNamed header.now.quiver }
    ensures { IfOk result (λ r. Reads (FitsWord header.now words.now) (word_line header.now.quiver) tokens.entry r) }
{
    let mut tokens = tokens;
    if !tokens.take_word(b"word") {
        return Ok(None);
    }
    let Some(path) = only_path(alloc, &header.quiver, tokens)? else {
        return Ok(None);
    };
    if path.arrows.len() >= header.bound as usize {
        return Ok(None);
    }
    if !words.lack(&path) {
        return Ok(None);
    }
    Ok(Some(path))
}

/// The arrow whose name is the next token.
pub(crate) fn next_arrow(quiver: &Quiver, tokens: &mut Parts<'_>) -> Option<u8>
    requires { IsNamed quiver.now }
    ensures { ReadsFirst (λ (a : ℕ). a < arrow_count quiver.now) (λ (a : ℕ). arrow_name quiver.now a ∷ []) tokens.old tokens.new result }
{
    let Some(name) = tokens.next_part() else {
        return None;
    };
    arrow_place(quiver, name)
}

/// The arrow whose name is all that is left.
pub(crate) fn only_arrow_name(quiver: &Quiver, tokens: Parts<'_>) -> Option<u8>
    requires { IsNamed quiver.now }
    ensures { Reads (λ (a : ℕ). a < arrow_count quiver.now) (λ (a : ℕ). arrow_name quiver.now a ∷ []) tokens.entry result }
{
    let mut tokens = tokens;
    let Some(name) = tokens.next_part() else {
        return None;
    };
    if tokens.next_part().is_some() {
        return None;
    }
    arrow_place(quiver, name)
}

/// The term of a tail that the token spells.
pub(crate) fn tail_term(
    alloc: Global,
    header: &Header,
    token: &[u8],
) -> Result<Option<Term>, AllocError>
    requires { IsNamed header.now.quiver }
    ensures { IfOk result (λ r. Reads (IsTailTerm header.now) (term_text header.now.quiver) token.now r) }
{
    let Some((coef, rest)) = cut_coefficient(header.field, token) else {
        return Ok(None);
    };
    let Some(path) = any_path(alloc, &header.quiver, rest)? else {
        return Ok(None);
    };
    Ok(Some(Term { coef, path }))
}
