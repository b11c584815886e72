//! Reading the first line of any claim.
ghost use Rattle.std.specs.Prelude.{ℕ, ◌≡◌, ◌≢◌, ◌<◌, ◌≤◌, ◌+◌, ◌∷◌, [], List, All, codes, decimal, IfOk, MatchBool};
ghost use Rattle.path_algebra.specs.Derivations.{IsNumber};
ghost use Rattle.report_types.specs.declared.claims.PartClaim.{PartClaim as Part};
ghost use Rattle.report_types.specs.Limits.{IsLine};
ghost use Rattle.header_text.specs.Reading.{Reads, ReadsFirst};
ghost use Rattle.claim_lines.specs.declared.heads.Head.{Head as Said};
ghost use Rattle.claim_lines.specs.Spelling.{parts_form, head_form, claim_line};
ghost use Rattle.claim_lines.specs.Items.{ArePartNumbers, AreNumbers, FitsClaim};
ghost use Rattle.claim_lines.specs.Reading.{IsNoFirstWord};

use crate::counts::next_line;
use crate::heads::{Counts, Head};
use crate::numbers::next_two;
use crate::object_heads::{
    basis_head, cokernel_head, ext_head, hom_head, kernel_head, local_head, map_head, module_head,
    radical_head, resolution_head,
};
use crate::translate_heads::{sequence_head, tau_head, taui_head, transpose_head};
use report_types::PartClaim;
use seq::Seq;
use std::alloc::{AllocError, Global};
use text_lines::Parts;

/// A part: its module, and the claim that it is local.
fn next_part_claim(earlier: u32, modules: u32, tokens: &mut Parts<'_>) -> Option<PartClaim>
    ensures { ReadsFirst (ArePartNumbers earlier modules) (λ (p : Part). decimal p.module ∷ decimal p.local ∷ []) tokens.old tokens.new result }
{
    let Some((module, local)) = next_two(tokens, modules, earlier) else {
        return None;
    };
    Some(PartClaim { module, local })
}

/// The parts that are all that is left.
fn read_parts(
    alloc: Global,
    earlier: u32,
    modules: u32,
    tokens: Parts<'_>,
) -> Result<Option<Seq<PartClaim>>, AllocError>
    ensures { IfOk result (λ r. Reads (All (ArePartNumbers earlier modules)) parts_form tokens.entry r) }
{
    let mut tokens = tokens;
    let mut parts = Seq::new(alloc);
    while !tokens.is_done() {
        let Some(part) = next_part_claim(earlier, modules, &mut tokens) else {
            return Ok(None);
        };
        parts.push(part)?;
    }
    Ok(Some(parts))
}

/// Two modules and two maps.
fn decomposition_front(
    modules: u32,
    maps: u32,
    tokens: &mut Parts<'_>,
) -> Option<((u32, u32), (u32, u32))>
    ensures { ReadsFirst (λ (x : (ℕ × ℕ) × (ℕ × ℕ)). (IsNumber modules x.0.0 × IsNumber modules x.0.1) × (IsNumber maps x.1.0 × IsNumber maps x.1.1))
        (λ (x : (ℕ × ℕ) × (ℕ × ℕ)). decimal x.0.0 ∷ decimal x.0.1 ∷ decimal x.1.0 ∷ decimal x.1.1 ∷ []) tokens.old tokens.new result }
{
    let Some(modules) = next_two(tokens, modules, modules) else {
        return None;
    };
    let Some(maps) = next_two(tokens, maps, maps) else {
        return None;
    };
    Some((modules, maps))
}

/// The parts behind `parts`.
fn parts_behind(
    alloc: Global,
    earlier: u32,
    modules: u32,
    tokens: Parts<'_>,
) -> Result<Option<Seq<PartClaim>>, AllocError>
    ensures { IfOk result (λ r. Reads (All (ArePartNumbers earlier modules)) (λ (ps : List Part). codes "parts" ∷ parts_form ps) tokens.entry r) }
{
    let mut tokens = tokens;
    if !tokens.take_word(b"parts") {
        return Ok(None);
    }
    let parts = read_parts(alloc, earlier, modules, tokens)?;
    Ok(parts)
}

fn decomposition_head(
    alloc: Global,
    earlier: u32,
    modules: u32,
    maps: u32,
    tokens: Parts<'_>,
) -> Result<Option<Head>, AllocError>
    ensures { IfOk result (λ r. Reads (AreNumbers earlier modules maps) head_form (codes "decomposition" ∷ tokens.entry) r) }
{
    let mut tokens = tokens;
    let Some(((a, sum), (to, back))) = decomposition_front(modules, maps, &mut tokens) else {
        return Ok(None);
    };
    let Some(parts) = parts_behind(alloc, earlier, modules, tokens)? else {
        return Ok(None);
    };
    Ok(Some(Head::Decomposition {
        a,
        sum,
        to,
        back,
        parts,
    }))
}

/// The line of a claim that names other claims, and of none of objects alone.
fn later_head(word: &[u8], earlier: u32, modules: u32, maps: u32, tokens: Parts<'_>) -> Option<Head>
    requires { IsNoFirstWord word.now }
    ensures { Reads (AreNumbers earlier modules maps) head_form (word.now ∷ tokens.entry) result }
{
    if word == b"resolution".as_slice() {
        return resolution_head(earlier, modules, maps, tokens);
    }
    if word == b"ext".as_slice() {
        return ext_head(earlier, modules, maps, tokens);
    }
    if word == b"local".as_slice() {
        return local_head(earlier, modules, maps, tokens);
    }
    if word == b"tau".as_slice() {
        return tau_head(earlier, modules, maps, tokens);
    }
    if word == b"transpose".as_slice() {
        return transpose_head(earlier, modules, maps, tokens);
    }
    if word == b"taui".as_slice() {
        return taui_head(earlier, modules, maps, tokens);
    }
    if word == b"almostsplit".as_slice() {
        return sequence_head(earlier, modules, maps, tokens);
    }
    None
}

/// The line of a claim that is not one of a decomposition.
fn plain_head(word: &[u8], earlier: u32, modules: u32, maps: u32, tokens: Parts<'_>) -> Option<Head>
    requires { word.now ≢ codes "decomposition" }
    ensures { Reads (AreNumbers earlier modules maps) head_form (word.now ∷ tokens.entry) result }
{
    if word == b"basis".as_slice() {
        return basis_head(earlier, modules, maps, tokens);
    }
    if word == b"module".as_slice() {
        return module_head(earlier, modules, maps, tokens);
    }
    if word == b"map".as_slice() {
        return map_head(earlier, modules, maps, tokens);
    }
    if word == b"hom".as_slice() {
        return hom_head(earlier, modules, maps, tokens);
    }
    if word == b"kernel".as_slice() {
        return kernel_head(earlier, modules, maps, tokens);
    }
    if word == b"cokernel".as_slice() {
        return cokernel_head(earlier, modules, maps, tokens);
    }
    if word == b"radical".as_slice() {
        return radical_head(earlier, modules, maps, tokens);
    }
    later_head(word, earlier, modules, maps, tokens)
}

/// What a claim is, behind its number and its line.
fn read_form(
    alloc: Global,
    earlier: u32,
    modules: u32,
    maps: u32,
    tokens: Parts<'_>,
) -> Result<Option<Head>, AllocError>
    ensures { IfOk result (λ r. Reads (AreNumbers earlier modules maps) head_form tokens.entry r) }
{
    let mut tokens = tokens;
    let Some(word) = tokens.next_part() else {
        return Ok(None);
    };
    if word == b"decomposition".as_slice() {
        let decomposition = decomposition_head(alloc, earlier, modules, maps, tokens)?;
        return Ok(decomposition);
    }
    Ok(plain_head(word, earlier, modules, maps, tokens))
}

/// The line of the script, behind `line`, and what the claim is.
fn line_and_form(
    alloc: Global,
    earlier: u32,
    modules: u32,
    maps: u32,
    tokens: Parts<'_>,
) -> Result<Option<(u32, Head)>, AllocError>
    ensures { IfOk result (λ r. Reads (λ (x : ℕ × Said). IsLine x.0 × AreNumbers earlier modules maps x.1) (λ (x : ℕ × Said). codes "line" ∷ decimal x.0 ∷ head_form x.1) tokens.entry r) }
{
    let mut tokens = tokens;
    if !tokens.take_word(b"line") {
        return Ok(None);
    }
    let Some(line) = next_line(&mut tokens) else {
        return Ok(None);
    };
    let Some(head) = read_form(alloc, earlier, modules, maps, tokens)? else {
        return Ok(None);
    };
    Ok(Some((line, head)))
}

/// Whether the next tokens are `claim` and this number.
fn take_claim(tokens: &mut Parts<'_>, k: u32) -> bool
    ensures { MatchBool result (tokens.old ≡ codes "claim" ∷ decimal k ∷ tokens.new) ((rest : List (List ℕ)) → ¬ (tokens.old ≡ codes "claim" ∷ decimal k ∷ rest)) }
{
    if !tokens.take_word(b"claim") {
        return false;
    }
    let Some(number) = tokens.take_numeral(k as u64) else {
        return false;
    };
    if number != k as u64 {
        return false;
    }
    true
}

/// Reads the tokens of the first line of a claim, behind so many claims, where the report has so many modules and maps up to here: the line of the script,
/// and what the claim is. The number of the claim is one more.
/// `Ok(None)`: they spell no such line, a module, a map or an earlier claim that it names is not there, or a number is beyond its limit. Of which kind the
/// claims are that it names is not looked at. `Err`: memory is wanting.
pub fn read_head(
    alloc: Global,
    earlier: u32,
    counts: Counts,
    tokens: Parts<'_>,
) -> Result<Option<(u32, Head)>, AllocError>
    ensures { IfOk result (λ r. Reads (FitsClaim earlier counts) (λ (x : ℕ × Said). claim_line (earlier + 1) x.0 x.1) tokens.entry r) }
{
    if earlier == u32::MAX {
        return Ok(None);
    }
    let mut tokens = tokens;
    if !take_claim(&mut tokens, earlier + 1) {
        return Ok(None);
    }
    let Some(read) = line_and_form(alloc, earlier, counts.modules, counts.maps, tokens)? else {
        return Ok(None);
    };
    Ok(Some(read))
}
