//! Reading the last line.
ghost use Rattle.std.specs.Prelude.{ℕ, ◌≡◌, ◌≢◌, ◌<◌, ◌^◌, ◌∷◌, [], List, length, codes, decimal, IsTrue, ◌↔◌, IfOk};
ghost use Rattle.report_types.specs.Ends.{IsWhy, IsFullEnd, IsEmptyEnd};
ghost use Rattle.report_types.specs.Limits.{IsLine};
ghost use Rattle.report_types.specs.declared.reports.Why.{Why as Cause};
ghost use Rattle.header_text.specs.Named.{IsNamed};
ghost use Rattle.header_text.specs.Reading.{Reads};
ghost use Rattle.claim_lines.specs.Spelling.{why_form, end_line};
ghost use Rattle.claim_lines.specs.Items.{FitsEnd};
ghost use Rattle.claim_lines.specs.Reading.{IsNoLongCause};

use crate::causes::{
    bound_fails, decomposable_why, dim_why, dual_why, hom_why, name_taken, not_built_why, not_hom,
    only_wide, projective_why, relation_why, shape_why, side_why, term_why, unknown_name, zero_why,
};
use crate::counts::next_line;
use header_text::only_number;
use path_algebra::Header;
use report_types::{End, Why};
use std::alloc::{AllocError, Global};
use text_lines::Parts;

/// The cause that is a word alone.
fn bare_why(word: &[u8], header: &Header, tokens: Parts<'_>) -> Option<Why>
    requires few { length header.now.relations < 2 ^ 32 }
    requires short { IsNoLongCause word.now }
    ensures { Reads (IsWhy header.now) (why_form header.now) (word.now ∷ tokens.entry) result }
{
    if word == b"NotBuilt".as_slice() {
        return not_built_why(header, tokens);
    }
    if word == b"Side".as_slice() {
        return side_why(header, tokens);
    }
    if word == b"Shape".as_slice() {
        return shape_why(header, tokens);
    }
    if word == b"Zero".as_slice() {
        return zero_why(header, tokens);
    }
    if word == b"Decomposable".as_slice() {
        return decomposable_why(header, tokens);
    }
    if word == b"Projective".as_slice() {
        return projective_why(header, tokens);
    }
    None
}

/// The cause, if it is no path.
fn plain_why(word: &[u8], header: &Header, tokens: Parts<'_>) -> Option<Why>
    requires few { length header.now.relations < 2 ^ 32 }
    requires named { IsNamed header.now.quiver }
    requires other { word.now ≢ codes "BoundFails" }
    ensures { Reads (IsWhy header.now) (why_form header.now) (word.now ∷ tokens.entry) result }
{
    if word == b"UnknownName".as_slice() {
        return unknown_name(header, tokens);
    }
    if word == b"NameTaken".as_slice() {
        return name_taken(header, tokens);
    }
    if word == b"RelationFails".as_slice() {
        return relation_why(header, tokens);
    }
    if word == b"NotHom".as_slice() {
        return not_hom(header, tokens);
    }
    if word == b"DimLimit".as_slice() {
        return dim_why(header, tokens);
    }
    if word == b"HomLimit".as_slice() {
        return hom_why(header, tokens);
    }
    if word == b"TermLimit".as_slice() {
        return term_why(header, tokens);
    }
    if word == b"DualLimit".as_slice() {
        return dual_why(header, tokens);
    }
    bare_why(word, header, tokens)
}

/// The cause of a refusal.
fn read_why(alloc: Global, header: &Header, tokens: Parts<'_>) -> Result<Option<Why>, AllocError>
    requires few { length header.now.relations < 2 ^ 32 }
    requires named { IsNamed header.now.quiver }
    ensures { IfOk result (λ r. Reads (IsWhy header.now) (why_form header.now) tokens.entry r) }
{
    let mut tokens = tokens;
    let Some(word) = tokens.next_part() else {
        return Ok(None);
    };
    if word == b"BoundFails".as_slice() {
        let why = bound_fails(alloc, header, tokens)?;
        return Ok(why);
    }
    Ok(plain_why(word, header, tokens))
}

/// The line of the script and the cause.
fn line_and_why(
    alloc: Global,
    header: &Header,
    tokens: Parts<'_>,
) -> Result<Option<(u32, Why)>, AllocError>
    requires few { length header.now.relations < 2 ^ 32 }
    requires named { IsNamed header.now.quiver }
    ensures { IfOk result (λ r. Reads (λ (x : ℕ × Cause). IsLine x.0 × IsWhy header.now x.1) (λ (x : ℕ × Cause). decimal x.0 ∷ why_form header.now x.1) tokens.entry r) }
{
    let mut tokens = tokens;
    let Some(line) = next_line(&mut tokens) else {
        return Ok(None);
    };
    let Some(why) = read_why(alloc, header, tokens)? else {
        return Ok(None);
    };
    Ok(Some((line, why)))
}

/// The number that is all that is left, if it is this one.
fn only_this(claims: u32, tokens: Parts<'_>) -> bool
    ensures { IsTrue result ↔ (tokens.entry ≡ decimal claims ∷ []) }
{
    let Some(n) = only_number(tokens, claims as u64) else {
        return false;
    };
    if n != claims as u64 {
        return false;
    }
    true
}

fn done_end(header: &Header, claims: u32, tokens: Parts<'_>) -> Option<End>
    ensures { Reads (IsFullEnd header.now) (end_line header.now claims) (codes "end" ∷ tokens.entry) result }
{
    if !only_this(claims, tokens) {
        return None;
    }
    Some(End::Done)
}

fn refused_end(
    alloc: Global,
    header: &Header,
    claims: u32,
    tokens: Parts<'_>,
) -> Result<Option<End>, AllocError>
    requires few { length header.now.relations < 2 ^ 32 }
    requires named { IsNamed header.now.quiver }
    ensures { IfOk result (λ r. Reads (IsFullEnd header.now) (end_line header.now claims) (codes "refused" ∷ tokens.entry) r) }
{
    let Some((line, why)) = line_and_why(alloc, header, tokens)? else {
        return Ok(None);
    };
    Ok(Some(End::Refused { line, why }))
}

/// The last line behind at least one claim.
fn read_full_end(
    alloc: Global,
    header: &Header,
    claims: u32,
    tokens: Parts<'_>,
) -> Result<Option<End>, AllocError>
    requires few { length header.now.relations < 2 ^ 32 }
    requires named { IsNamed header.now.quiver }
    ensures { IfOk result (λ r. Reads (IsFullEnd header.now) (end_line header.now claims) tokens.entry r) }
{
    let mut tokens = tokens;
    let Some(word) = tokens.next_part() else {
        return Ok(None);
    };
    if word == b"end".as_slice() {
        return Ok(done_end(header, claims, tokens));
    }
    if word == b"refused".as_slice() {
        let end = refused_end(alloc, header, claims, tokens)?;
        return Ok(end);
    }
    Ok(None)
}

/// The number of paths, too many.
fn count_form(tokens: Parts<'_>) -> Option<u64>
    ensures { Reads (λ (n : ℕ). n < 2 ^ 64) (λ (n : ℕ). codes "PathLimit" ∷ decimal n ∷ []) tokens.entry result }
{
    let mut tokens = tokens;
    if !tokens.take_word(b"PathLimit") {
        return None;
    }
    only_wide(tokens)
}

/// The line of the script and the number of paths.
fn limit_form(tokens: Parts<'_>) -> Option<(u32, u64)>
    ensures { Reads (λ (x : ℕ × ℕ). IsLine x.0 × (x.1 < 2 ^ 64)) (λ (x : ℕ × ℕ). codes "refused" ∷ decimal x.0 ∷ codes "PathLimit" ∷ decimal x.1 ∷ []) tokens.entry result }
{
    let mut tokens = tokens;
    if !tokens.take_word(b"refused") {
        return None;
    }
    let Some(line) = next_line(&mut tokens) else {
        return None;
    };
    let Some(count) = count_form(tokens) else {
        return None;
    };
    Some((line, count))
}

/// The last line where there is no claim.
fn read_empty_end(header: &Header, tokens: Parts<'_>) -> Option<End>
    ensures { Reads IsEmptyEnd (end_line header.now 0) tokens.entry result }
{
    let Some((line, count)) = limit_form(tokens) else {
        return None;
    };
    Some(End::Refused {
        line,
        why: Why::PathLimit { count },
    })
}

/// Reads the tokens of the last line of a report with so many claims: that all was answered, or what was refused and why. Where there is no claim, there are
/// too many paths.
/// `Ok(None)`: they spell no such line, or name a relation, an arrow or a path that the header does not have. `Err`: memory is wanting.
pub fn read_end(
    alloc: Global,
    header: &Header,
    claims: u32,
    tokens: Parts<'_>,
) -> Result<Option<End>, AllocError>
    requires few { length header.now.relations < 2 ^ 32 }
    requires named { IsNamed header.now.quiver }
    ensures { IfOk result (λ r. Reads (FitsEnd header.now claims) (end_line header.now claims) tokens.entry r) }
{
    if claims == 0 {
        return Ok(read_empty_end(header, tokens));
    }
    let end = read_full_end(alloc, header, claims, tokens)?;
    Ok(end)
}
