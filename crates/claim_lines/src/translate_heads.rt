//! Reading the first lines of claims on translates and almost split sequences.
ghost use Rattle.std.specs.Prelude.{ℕ, ◌≡◌, ◌<◌, ◌≤◌, ◌∷◌, [], codes, decimal};
ghost use Rattle.path_algebra.specs.Derivations.{IsNumber};
ghost use Rattle.header_text.specs.Reading.{Reads};
ghost use Rattle.claim_lines.specs.Spelling.{head_form};
ghost use Rattle.claim_lines.specs.Items.{AreNumbers};

use crate::counts::next_place;
use crate::heads::Head;
use crate::numbers::{next_two, only_using, only_using_two};
use crate::object_heads::local_form;
use report_types::Translation;
use text_lines::Parts;

/// Two modules, and a claim behind `using`.
fn translate_form(earlier: u32, modules: u32, tokens: Parts<'_>) -> Option<((u32, u32), u32)>
    ensures { Reads (λ (x : (ℕ × ℕ) × ℕ). (IsNumber modules x.0.0 × IsNumber modules x.0.1) × IsNumber earlier x.1)
        (λ (x : (ℕ × ℕ) × ℕ). decimal x.0.0 ∷ decimal x.0.1 ∷ codes "using" ∷ decimal x.1 ∷ []) tokens.entry result }
{
    let mut tokens = tokens;
    let Some(modules) = next_two(&mut tokens, modules, modules) else {
        return None;
    };
    let Some(claim) = only_using(tokens, earlier) else {
        return None;
    };
    Some((modules, claim))
}

pub(crate) fn tau_head(earlier: u32, modules: u32, maps: u32, tokens: Parts<'_>) -> Option<Head>
    ensures { Reads (AreNumbers earlier modules maps) head_form (codes "tau" ∷ tokens.entry) result }
{
    let Some(((module, a), resolution)) = translate_form(earlier, modules, tokens) else {
        return None;
    };
    Some(Head::Translate {
        which: Translation::Tau,
        module,
        a,
        resolution,
    })
}

pub(crate) fn transpose_head(
    earlier: u32,
    modules: u32,
    maps: u32,
    tokens: Parts<'_>,
) -> Option<Head>
    ensures { Reads (AreNumbers earlier modules maps) head_form (codes "transpose" ∷ tokens.entry) result }
{
    let Some(((module, a), resolution)) = translate_form(earlier, modules, tokens) else {
        return None;
    };
    Some(Head::Translate {
        which: Translation::Transpose,
        module,
        a,
        resolution,
    })
}

/// Three modules, and a claim behind `using`.
fn taui_form(earlier: u32, modules: u32, tokens: Parts<'_>) -> Option<((u32, u32), (u32, u32))>
    ensures { Reads (λ (x : (ℕ × ℕ) × (ℕ × ℕ)). (IsNumber modules x.0.0 × IsNumber modules x.0.1) × (IsNumber modules x.1.0 × IsNumber earlier x.1.1))
        (λ (x : (ℕ × ℕ) × (ℕ × ℕ)). decimal x.0.0 ∷ decimal x.0.1 ∷ decimal x.1.0 ∷ codes "using" ∷ decimal x.1.1 ∷ []) tokens.entry result }
{
    let mut tokens = tokens;
    let Some(first) = next_two(&mut tokens, modules, modules) else {
        return None;
    };
    let Some(rest) = local_form(earlier, modules, tokens) else {
        return None;
    };
    Some((first, rest))
}

pub(crate) fn taui_head(earlier: u32, modules: u32, maps: u32, tokens: Parts<'_>) -> Option<Head>
    ensures { Reads (AreNumbers earlier modules maps) head_form (codes "taui" ∷ tokens.entry) result }
{
    let Some(((module, a), (dual, resolution))) = taui_form(earlier, modules, tokens) else {
        return None;
    };
    Some(Head::Translate {
        which: Translation::Taui { dual },
        module,
        a,
        resolution,
    })
}

/// Two maps, and two claims behind `using`.
fn maps_and_using(earlier: u32, maps: u32, tokens: Parts<'_>) -> Option<((u32, u32), (u32, u32))>
    ensures { Reads (λ (x : (ℕ × ℕ) × (ℕ × ℕ)). (IsNumber maps x.0.0 × IsNumber maps x.0.1) × (IsNumber earlier x.1.0 × IsNumber earlier x.1.1))
        (λ (x : (ℕ × ℕ) × (ℕ × ℕ)). decimal x.0.0 ∷ decimal x.0.1 ∷ codes "using" ∷ decimal x.1.0 ∷ decimal x.1.1 ∷ []) tokens.entry result }
{
    let mut tokens = tokens;
    let Some(two) = next_two(&mut tokens, maps, maps) else {
        return None;
    };
    let Some(claims) = only_using_two(tokens, earlier) else {
        return None;
    };
    Some((two, claims))
}

/// Three modules, two maps, and two claims behind `using`.
fn sequence_form(
    earlier: u32,
    modules: u32,
    maps: u32,
    tokens: Parts<'_>,
) -> Option<((u32, u32), u32, ((u32, u32), (u32, u32)))>
    ensures { Reads (λ (x : (ℕ × ℕ) × ℕ × ((ℕ × ℕ) × (ℕ × ℕ))). (IsNumber modules x.0.0 × IsNumber modules x.0.1) × IsNumber modules x.1
        × ((IsNumber maps x.2.0.0 × IsNumber maps x.2.0.1) × (IsNumber earlier x.2.1.0 × IsNumber earlier x.2.1.1)))
        (λ (x : (ℕ × ℕ) × ℕ × ((ℕ × ℕ) × (ℕ × ℕ))). decimal x.0.0 ∷ decimal x.0.1 ∷ decimal x.1 ∷ decimal x.2.0.0 ∷ decimal x.2.0.1 ∷ codes "using" ∷ decimal x.2.1.0 ∷ decimal x.2.1.1 ∷ [])
        tokens.entry result }
{
    let mut tokens = tokens;
    let Some(ends) = next_two(&mut tokens, modules, modules) else {
        return None;
    };
    let Some(right) = next_place(&mut tokens, modules) else {
        return None;
    };
    let Some(rest) = maps_and_using(earlier, maps, tokens) else {
        return None;
    };
    Some((ends, right, rest))
}

pub(crate) fn sequence_head(
    earlier: u32,
    modules: u32,
    maps: u32,
    tokens: Parts<'_>,
) -> Option<Head>
    ensures { Reads (AreNumbers earlier modules maps) head_form (codes "almostsplit" ∷ tokens.entry) result }
{
    let Some(((left, middle), right, ((f, g), (resolution, local)))) = sequence_form(
        earlier, modules, maps, tokens,
    ) else {
        return None;
    };
    Some(Head::AlmostSplit {
        left,
        middle,
        right,
        f,
        g,
        resolution,
        local,
    })
}
