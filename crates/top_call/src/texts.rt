//! The texts of one line.
ghost use Rattle.std.specs.Prelude.{◌≡◌, IfOk};
ghost use Rattle.top_call.specs.Texts.{clause_name, holds_text, rejected_text, bad_text};

use claim_conditions::Clause;
use std::alloc::{AllocError, Global};
use text_lines::push_numeral;

/// The name of a condition.
fn clause_name(clause: Clause) -> &'static [u8]
    ensures { result.now ≡ clause_name clause }
{
    match clause {
        Clause::Relations => b"relations",
        Clause::Commutes => b"commutes",
        Clause::Step => b"step",
        Clause::Rule => b"rule",
        Clause::Reduced => b"reduced",
        Clause::Words => b"words",
        Clause::Action => b"action",
        Clause::Objects => b"objects",
        Clause::Homs => b"homs",
        Clause::All => b"all",
        Clause::Zero => b"zero",
        Clause::Complex => b"complex",
        Clause::Exact => b"exact",
        Clause::Minimal => b"minimal",
        Clause::Choice => b"choice",
        Clause::Cocycles => b"cocycles",
        Clause::Nonzero => b"nonzero",
        Clause::Ideal => b"ideal",
        Clause::Power => b"power",
        Clause::Residue => b"residue",
        Clause::Order => b"order",
        Clause::Sum => b"sum",
        Clause::Inverse => b"inverse",
        Clause::Inside => b"inside",
        Clause::Nonprojective => b"nonprojective",
        Clause::Functional => b"functional",
        Clause::Left => b"left",
        Clause::Middle => b"middle",
        Clause::Maps => b"maps",
    }
}

/// The conditions hold of all claims, so many.
pub(crate) fn holds_text(alloc: Global, claims: u32) -> Result<Vec<u8>, AllocError>
    ensures { IfOk result (λ text. text.items ≡ holds_text claims) }
{
    let mut text = Vec::from_slice(alloc, b"holds ")?;
    push_numeral(&mut text, u64::from(claims))?;
    text.push(b'\n')?;
    Ok(text)
}

/// This claim is the first that fails, and this the first of its conditions that does.
pub(crate) fn rejected_text(
    alloc: Global,
    claim: u32,
    clause: Clause,
) -> Result<Vec<u8>, AllocError>
    ensures { IfOk result (λ text. text.items ≡ rejected_text claim clause) }
{
    let mut text = Vec::from_slice(alloc, b"rejected ")?;
    push_numeral(&mut text, u64::from(claim))?;
    text.push(b' ')?;
    text.extend_from_slice(clause_name(clause))?;
    text.push(b'\n')?;
    Ok(text)
}

/// This line is the first bad one.
pub(crate) fn bad_text(alloc: Global, line: u32) -> Result<Vec<u8>, AllocError>
    ensures { IfOk result (λ text. text.items ≡ bad_text line) }
{
    let mut text = Vec::from_slice(alloc, b"badtext ")?;
    push_numeral(&mut text, u64::from(line))?;
    text.push(b'\n')?;
    Ok(text)
}
