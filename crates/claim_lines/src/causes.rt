//! Reading the causes of a refusal, each behind its first word.
ghost use Rattle.std.specs.Prelude.{ℕ, ◌≡◌, ◌<◌, ◌≤◌, ◌^◌, ◌∷◌, [], List, length, codes, decimal, IfOk};
ghost use Rattle.quiver_paths.specs.declared.Path.{Path as PathView};
ghost use Rattle.path_algebra.specs.Derivations.{IsNumber};
ghost use Rattle.report_types.specs.Ends.{IsBoundPath, IsWhy};
ghost use Rattle.report_types.specs.Limits.{resolution_limit};
ghost use Rattle.header_text.specs.Named.{IsNamed};
ghost use Rattle.header_text.specs.Reading.{Reads};
ghost use Rattle.header_text.specs.Spelling.{path_text};
ghost use Rattle.claim_lines.specs.Spelling.{why_form};

use crate::counts::only_place;
use crate::numbers::next_number;
use crate::paths::{only_arrow_name, only_path};
use crate::references::{only_name, only_reference};
use header_text::only_number;
use path_algebra::Header;
use quiver_paths::Path;
use report_types::Why;
use std::alloc::{AllocError, Global};
use text_lines::Parts;

pub(crate) fn not_built_why(header: &Header, tokens: Parts<'_>) -> Option<Why>
    requires { length header.now.relations < 2 ^ 32 }
    ensures { Reads (IsWhy header.now) (why_form header.now) (codes "NotBuilt" ∷ tokens.entry) result }
{
    if !tokens.is_done() {
        return None;
    }
    Some(Why::NotBuilt)
}

pub(crate) fn side_why(header: &Header, tokens: Parts<'_>) -> Option<Why>
    requires { length header.now.relations < 2 ^ 32 }
    ensures { Reads (IsWhy header.now) (why_form header.now) (codes "Side" ∷ tokens.entry) result }
{
    if !tokens.is_done() {
        return None;
    }
    Some(Why::Side)
}

pub(crate) fn shape_why(header: &Header, tokens: Parts<'_>) -> Option<Why>
    requires { length header.now.relations < 2 ^ 32 }
    ensures { Reads (IsWhy header.now) (why_form header.now) (codes "Shape" ∷ tokens.entry) result }
{
    if !tokens.is_done() {
        return None;
    }
    Some(Why::Shape)
}

pub(crate) fn zero_why(header: &Header, tokens: Parts<'_>) -> Option<Why>
    requires { length header.now.relations < 2 ^ 32 }
    ensures { Reads (IsWhy header.now) (why_form header.now) (codes "Zero" ∷ tokens.entry) result }
{
    if !tokens.is_done() {
        return None;
    }
    Some(Why::Zero)
}

pub(crate) fn decomposable_why(header: &Header, tokens: Parts<'_>) -> Option<Why>
    requires { length header.now.relations < 2 ^ 32 }
    ensures { Reads (IsWhy header.now) (why_form header.now) (codes "Decomposable" ∷ tokens.entry) result }
{
    if !tokens.is_done() {
        return None;
    }
    Some(Why::Decomposable)
}

pub(crate) fn projective_why(header: &Header, tokens: Parts<'_>) -> Option<Why>
    requires { length header.now.relations < 2 ^ 32 }
    ensures { Reads (IsWhy header.now) (why_form header.now) (codes "Projective" ∷ tokens.entry) result }
{
    if !tokens.is_done() {
        return None;
    }
    Some(Why::Projective)
}

pub(crate) fn unknown_name(header: &Header, tokens: Parts<'_>) -> Option<Why>
    requires { length header.now.relations < 2 ^ 32 }
    ensures { Reads (IsWhy header.now) (why_form header.now) (codes "UnknownName" ∷ tokens.entry) result }
{
    let Some(token) = only_reference(tokens) else {
        return None;
    };
    Some(Why::UnknownName { token })
}

pub(crate) fn name_taken(header: &Header, tokens: Parts<'_>) -> Option<Why>
    requires { length header.now.relations < 2 ^ 32 }
    ensures { Reads (IsWhy header.now) (why_form header.now) (codes "NameTaken" ∷ tokens.entry) result }
{
    let Some(name) = only_name(tokens) else {
        return None;
    };
    Some(Why::NameTaken { name })
}

pub(crate) fn relation_why(header: &Header, tokens: Parts<'_>) -> Option<Why>
    requires { length header.now.relations < 2 ^ 32 }
    ensures { Reads (IsWhy header.now) (why_form header.now) (codes "RelationFails" ∷ tokens.entry) result }
{
    let Some(relation) = only_place(tokens, header.relations.len() as u32) else {
        return None;
    };
    Some(Why::RelationFails { relation })
}

/// The path of the bound's length that is all that is left.
fn bound_path(alloc: Global, header: &Header, tokens: Parts<'_>) -> Result<Option<Path>, AllocError>
    requires { IsNamed header.now.quiver }
    ensures { IfOk result (λ r. Reads (IsBoundPath header.now) (λ (p : PathView). path_text header.now.quiver p ∷ []) tokens.entry r) }
{
    let Some(path) = only_path(alloc, &header.quiver, tokens)? else {
        return Ok(None);
    };
    if path.arrows.len() != header.bound as usize {
        return Ok(None);
    }
    Ok(Some(path))
}

pub(crate) fn bound_fails(
    alloc: Global,
    header: &Header,
    tokens: Parts<'_>,
) -> Result<Option<Why>, AllocError>
    requires few { length header.now.relations < 2 ^ 32 }
    requires named { IsNamed header.now.quiver }
    ensures { IfOk result (λ r. Reads (IsWhy header.now) (why_form header.now) (codes "BoundFails" ∷ tokens.entry) r) }
{
    let Some(path) = bound_path(alloc, header, tokens)? else {
        return Ok(None);
    };
    Ok(Some(Why::BoundFails { path }))
}

pub(crate) fn not_hom(header: &Header, tokens: Parts<'_>) -> Option<Why>
    requires few { length header.now.relations < 2 ^ 32 }
    requires named { IsNamed header.now.quiver }
    ensures { Reads (IsWhy header.now) (why_form header.now) (codes "NotHom" ∷ tokens.entry) result }
{
    let Some(arrow) = only_arrow_name(&header.quiver, tokens) else {
        return None;
    };
    Some(Why::NotHom { arrow })
}

/// The number that is all that is left.
pub(crate) fn only_wide(tokens: Parts<'_>) -> Option<u64>
    ensures { Reads (λ (n : ℕ). n < 2 ^ 64) (λ (n : ℕ). decimal n ∷ []) tokens.entry result }
{
    only_number(tokens, u64::MAX)
}

pub(crate) fn dim_why(header: &Header, tokens: Parts<'_>) -> Option<Why>
    requires { length header.now.relations < 2 ^ 32 }
    ensures { Reads (IsWhy header.now) (why_form header.now) (codes "DimLimit" ∷ tokens.entry) result }
{
    let Some(dim) = only_wide(tokens) else {
        return None;
    };
    Some(Why::DimLimit { dim })
}

pub(crate) fn hom_why(header: &Header, tokens: Parts<'_>) -> Option<Why>
    requires { length header.now.relations < 2 ^ 32 }
    ensures { Reads (IsWhy header.now) (why_form header.now) (codes "HomLimit" ∷ tokens.entry) result }
{
    let Some(unknowns) = only_wide(tokens) else {
        return None;
    };
    Some(Why::HomLimit { unknowns })
}

/// The number of a term and its dimension that are all that is left.
fn step_and_dim(tokens: Parts<'_>) -> Option<(u32, u64)>
    ensures { Reads (λ (x : ℕ × ℕ). (x.0 ≤ resolution_limit) × (x.1 < 2 ^ 64)) (λ (x : ℕ × ℕ). decimal x.0 ∷ decimal x.1 ∷ []) tokens.entry result }
{
    let mut tokens = tokens;
    let Some(step) = next_number(&mut tokens, 16) else {
        return None;
    };
    let Some(dim) = only_wide(tokens) else {
        return None;
    };
    Some((step, dim))
}

pub(crate) fn term_why(header: &Header, tokens: Parts<'_>) -> Option<Why>
    requires { length header.now.relations < 2 ^ 32 }
    ensures { Reads (IsWhy header.now) (why_form header.now) (codes "TermLimit" ∷ tokens.entry) result }
{
    let Some((step, dim)) = step_and_dim(tokens) else {
        return None;
    };
    Some(Why::TermLimit { step, dim })
}

pub(crate) fn dual_why(header: &Header, tokens: Parts<'_>) -> Option<Why>
    requires { length header.now.relations < 2 ^ 32 }
    ensures { Reads (IsWhy header.now) (why_form header.now) (codes "DualLimit" ∷ tokens.entry) result }
{
    let Some((step, dim)) = step_and_dim(tokens) else {
        return None;
    };
    Some(Why::DualLimit { step, dim })
}
