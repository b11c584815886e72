//! Reading the first lines of claims on objects, resolutions and extensions.
ghost use Rattle.std.specs.Prelude.{ℕ, ◌≡◌, ◌<◌, ◌≤◌, ◌∷◌, [], codes, decimal};
ghost use Rattle.path_algebra.specs.Derivations.{IsNumber};
ghost use Rattle.report_types.specs.Limits.{unknown_limit, resolution_limit};
ghost use Rattle.header_text.specs.Reading.{Reads};
ghost use Rattle.claim_lines.specs.Spelling.{head_form};
ghost use Rattle.claim_lines.specs.Items.{AreNumbers};

use crate::counts::{next_place, only_place};
use crate::heads::Head;
use crate::numbers::{next_number, next_two, only_three, only_up_to, only_using};
use text_lines::Parts;

pub(crate) fn basis_head(earlier: u32, modules: u32, maps: u32, tokens: Parts<'_>) -> Option<Head>
    ensures { Reads (AreNumbers earlier modules maps) head_form (codes "basis" ∷ tokens.entry) result }
{
    if !tokens.is_done() {
        return None;
    }
    Some(Head::Basis)
}

pub(crate) fn module_head(earlier: u32, modules: u32, maps: u32, tokens: Parts<'_>) -> Option<Head>
    ensures { Reads (AreNumbers earlier modules maps) head_form (codes "module" ∷ tokens.entry) result }
{
    let Some(module) = only_place(tokens, modules) else {
        return None;
    };
    Some(Head::Module { module })
}

pub(crate) fn map_head(earlier: u32, modules: u32, maps: u32, tokens: Parts<'_>) -> Option<Head>
    ensures { Reads (AreNumbers earlier modules maps) head_form (codes "map" ∷ tokens.entry) result }
{
    let Some(map) = only_place(tokens, maps) else {
        return None;
    };
    Some(Head::Map { map })
}

/// Two modules, and how many rows there are.
fn hom_form(modules: u32, tokens: Parts<'_>) -> Option<(u32, u32, u32)>
    ensures { Reads (λ (x : ℕ × ℕ × ℕ). IsNumber modules x.0 × IsNumber modules x.1 × (x.2 ≤ unknown_limit)) (λ (x : ℕ × ℕ × ℕ). decimal x.0 ∷ decimal x.1 ∷ decimal x.2 ∷ [])
        tokens.entry result }
{
    let mut tokens = tokens;
    let Some((a, b)) = next_two(&mut tokens, modules, modules) else {
        return None;
    };
    let Some(count) = only_up_to(tokens, 1024) else {
        return None;
    };
    Some((a, b, count))
}

pub(crate) fn hom_head(earlier: u32, modules: u32, maps: u32, tokens: Parts<'_>) -> Option<Head>
    ensures { Reads (AreNumbers earlier modules maps) head_form (codes "hom" ∷ tokens.entry) result }
{
    let Some((a, b, count)) = hom_form(modules, tokens) else {
        return None;
    };
    Some(Head::Hom { a, b, count })
}

pub(crate) fn kernel_head(earlier: u32, modules: u32, maps: u32, tokens: Parts<'_>) -> Option<Head>
    ensures { Reads (AreNumbers earlier modules maps) head_form (codes "kernel" ∷ tokens.entry) result }
{
    let Some((kernel, f, inclusion)) = only_three(tokens, modules, maps, maps) else {
        return None;
    };
    Some(Head::Kernel {
        kernel,
        f,
        inclusion,
    })
}

pub(crate) fn cokernel_head(
    earlier: u32,
    modules: u32,
    maps: u32,
    tokens: Parts<'_>,
) -> Option<Head>
    ensures { Reads (AreNumbers earlier modules maps) head_form (codes "cokernel" ∷ tokens.entry) result }
{
    let Some((cokernel, f, projection)) = only_three(tokens, modules, maps, maps) else {
        return None;
    };
    Some(Head::Cokernel {
        cokernel,
        f,
        projection,
    })
}

pub(crate) fn radical_head(earlier: u32, modules: u32, maps: u32, tokens: Parts<'_>) -> Option<Head>
    ensures { Reads (AreNumbers earlier modules maps) head_form (codes "radical" ∷ tokens.entry) result }
{
    let Some((radical, a, inclusion)) = only_three(tokens, modules, modules, maps) else {
        return None;
    };
    Some(Head::Radical {
        radical,
        a,
        inclusion,
    })
}

/// A module, and the length of a resolution.
fn resolution_form(modules: u32, tokens: Parts<'_>) -> Option<(u32, u32)>
    ensures { Reads (λ (x : ℕ × ℕ). IsNumber modules x.0 × (x.1 ≤ resolution_limit)) (λ (x : ℕ × ℕ). decimal x.0 ∷ decimal x.1 ∷ []) tokens.entry result }
{
    let mut tokens = tokens;
    let Some(a) = next_place(&mut tokens, modules) else {
        return None;
    };
    let Some(n) = only_up_to(tokens, 16) else {
        return None;
    };
    Some((a, n))
}

pub(crate) fn resolution_head(
    earlier: u32,
    modules: u32,
    maps: u32,
    tokens: Parts<'_>,
) -> Option<Head>
    ensures { Reads (AreNumbers earlier modules maps) head_form (codes "resolution" ∷ tokens.entry) result }
{
    let Some((a, n)) = resolution_form(modules, tokens) else {
        return None;
    };
    Some(Head::Resolution { a, n })
}

/// How many rows there are, and the resolution.
fn count_and_using(earlier: u32, tokens: Parts<'_>) -> Option<(u32, u32)>
    ensures { Reads (λ (x : ℕ × ℕ). (x.0 ≤ unknown_limit) × IsNumber earlier x.1) (λ (x : ℕ × ℕ). decimal x.0 ∷ codes "using" ∷ decimal x.1 ∷ []) tokens.entry result }
{
    let mut tokens = tokens;
    let Some(count) = next_number(&mut tokens, 1024) else {
        return None;
    };
    let Some(resolution) = only_using(tokens, earlier) else {
        return None;
    };
    Some((count, resolution))
}

/// The degree, two modules, how many rows there are, and the resolution.
fn ext_form(earlier: u32, modules: u32, tokens: Parts<'_>) -> Option<(u32, (u32, u32), (u32, u32))>
    ensures { Reads (λ (x : ℕ × (ℕ × ℕ) × (ℕ × ℕ)). (x.0 ≤ 15) × (IsNumber modules x.1.0 × IsNumber modules x.1.1) × ((x.2.0 ≤ unknown_limit) × IsNumber earlier x.2.1))
        (λ (x : ℕ × (ℕ × ℕ) × (ℕ × ℕ)). decimal x.0 ∷ decimal x.1.0 ∷ decimal x.1.1 ∷ decimal x.2.0 ∷ codes "using" ∷ decimal x.2.1 ∷ []) tokens.entry result }
{
    let mut tokens = tokens;
    let Some(n) = next_number(&mut tokens, 15) else {
        return None;
    };
    let Some(modules) = next_two(&mut tokens, modules, modules) else {
        return None;
    };
    let Some(rest) = count_and_using(earlier, tokens) else {
        return None;
    };
    Some((n, modules, rest))
}

pub(crate) fn ext_head(earlier: u32, modules: u32, maps: u32, tokens: Parts<'_>) -> Option<Head>
    ensures { Reads (AreNumbers earlier modules maps) head_form (codes "ext" ∷ tokens.entry) result }
{
    let Some((n, (a, b), (count, resolution))) = ext_form(earlier, modules, tokens) else {
        return None;
    };
    Some(Head::Ext {
        n,
        a,
        b,
        count,
        resolution,
    })
}

/// A module, and a claim behind `using`.
pub(crate) fn local_form(earlier: u32, modules: u32, tokens: Parts<'_>) -> Option<(u32, u32)>
    ensures { Reads (λ (x : ℕ × ℕ). IsNumber modules x.0 × IsNumber earlier x.1) (λ (x : ℕ × ℕ). decimal x.0 ∷ codes "using" ∷ decimal x.1 ∷ []) tokens.entry result }
{
    let mut tokens = tokens;
    let Some(module) = next_place(&mut tokens, modules) else {
        return None;
    };
    let Some(claim) = only_using(tokens, earlier) else {
        return None;
    };
    Some((module, claim))
}

pub(crate) fn local_head(earlier: u32, modules: u32, maps: u32, tokens: Parts<'_>) -> Option<Head>
    ensures { Reads (AreNumbers earlier modules maps) head_form (codes "local" ∷ tokens.entry) result }
{
    let Some((module, hom)) = local_form(earlier, modules, tokens) else {
        return None;
    };
    Some(Head::Local { module, hom })
}
