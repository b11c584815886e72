//! Reading names, paths and coefficients.
ghost use Rattle.std.specs.Prelude.{ℕ, ◌≡◌, ◌<◌, ◌≤◌, ◌++◌, ◌↔◌, List, MatchOption, IfOk, IfSome, IfNone, IsTrue};
ghost use Rattle.linear_algebra.specs.Field.{order};
ghost use Rattle.quiver_paths.specs.Quiver.{HasEnds, vertex_count, arrow_count};
ghost use Rattle.quiver_paths.specs.Path.{IsPath, Leads};
ghost use Rattle.text_lines.specs.Parts.{Lacks};
ghost use Rattle.header_text.specs.Spelling.{vertex_name, arrow_name, arrows_text, path_text, coefficient_text};
ghost use Rattle.header_text.specs.Named.{IsNamed, IsArrows, IsLongPath, IsCoefficientThen};
ghost use Rattle.header_text.specs.Reading.{Reads};

use crate::writing::{arrow_text, vertex_text};
use fp_linear::Field;
use quiver_paths::{Path, Quiver};
use seq::Seq;
use std::alloc::{AllocError, Global};
use text_lines::{Parts, cut_at, read_numeral};

/// The place of the vertex with this name.
pub fn vertex_place(quiver: &Quiver, name: &[u8]) -> Option<u8>
    requires { vertex_count quiver.now ≤ 32 }
    ensures { Reads (λ (v : ℕ). v < vertex_count quiver.now) (vertex_name quiver.now) name.now result }
{
    for v in 0..quiver.vertices.len() {
        if vertex_text(quiver, v as u8) == name {
            return Some(v as u8);
        }
    }
    None
}

/// The place of the arrow with this name.
pub fn arrow_place(quiver: &Quiver, name: &[u8]) -> Option<u8>
    requires { arrow_count quiver.now ≤ 128 }
    ensures { Reads (λ (a : ℕ). a < arrow_count quiver.now) (arrow_name quiver.now) name.now result }
{
    for a in 0..quiver.arrows.len() {
        if arrow_text(quiver, a as u8) == name {
            return Some(a as u8);
        }
    }
    None
}

/// The places of the arrows whose names, joined by `.`, are the token.
fn arrows_of(alloc: Global, quiver: &Quiver, token: &[u8]) -> Result<Option<Seq<u8>>, AllocError>
    requires { IsNamed quiver.now }
    ensures { IfOk result (λ r. Reads (IsArrows quiver.now) (arrows_text quiver.now) token.now r) }
{
    let mut arrows = Seq::new(alloc);
    let mut names = Parts::of(token, b'.');
    while let Some(name) = names.next_part() {
        let Some(arrow) = arrow_place(quiver, name) else {
            return Ok(None);
        };
        arrows.push(arrow)?;
    }
    Ok(Some(arrows))
}

/// Where the arrows lead from a vertex, one behind the other; none where they do not.
fn end_of(quiver: &Quiver, start: u8, arrows: &[u8]) -> Option<u8>
    requires { IsArrows quiver.now arrows.now }
    ensures { MatchOption result ((w : ℕ) → ¬ Leads quiver.now start arrows.now w) (λ w. Leads quiver.now start arrows.now w) }
{
    let mut at = start;
    for arrow in arrows {
        let arrow = &quiver.arrows[*arrow as usize];
        if arrow.from != at {
            return None;
        }
        at = arrow.to;
    }
    Some(at)
}

/// The path of these arrows; none where they do not lead one behind the other.
fn path_of(quiver: &Quiver, arrows: Seq<u8>) -> Option<Path>
    requires arrows { IsArrows quiver.now arrows }
    requires named { IsNamed quiver.now }
    ensures { Reads (IsPath quiver.now) (λ p. p.arrows) arrows result }
{
    let start = quiver.arrows[arrows[0] as usize].from;
    let Some(end) = end_of(quiver, start, arrows.as_slice()) else {
        return None;
    };
    Some(Path { start, end, arrows })
}

/// The path, not a trivial one, that the token spells.
pub fn read_path(alloc: Global, quiver: &Quiver, token: &[u8]) -> Result<Option<Path>, AllocError>
    requires { IsNamed quiver.now }
    ensures { IfOk result (λ r. Reads (IsLongPath quiver.now) (path_text quiver.now) token.now r) }
{
    match arrows_of(alloc, quiver, token)? {
        Some(arrows) => Ok(path_of(quiver, arrows)),
        None => Ok(None),
    }
}

/// The coefficient in front of a token, and the token behind it.
pub fn cut_coefficient(field: Field, token: &[u8]) -> Option<(u8, &[u8])>
    ensures cut { IfSome result (λ r. IsCoefficientThen (order field) token.now r.0 r.1.now) }
    ensures none { IfNone result ((c : ℕ) (rest : List ℕ) → 0 < c → c < order field → Lacks 42 rest → ¬ (token.now ≡ coefficient_text c ++ rest)) }
{
    let Some((digits, rest)) = cut_at(token, b'*') else {
        return Some((1, token));
    };
    let Some(c) = read_numeral(digits, u64::from(field.size()) - 1) else {
        return None;
    };
    if c < 2 {
        return None;
    }
    Some((c as u8, rest))
}
