//! Writing lines. Each writer adds behind what is there; where memory is wanting, `Err`, and a front of the line may stand there.
ghost use Rattle.std.specs.Prelude.{◌≡◌, ◌++◌, ◌∷◌, [], OnOk, decimal, codes};
ghost use Rattle.text_lines.specs.Strict.{strict_line};
ghost use Rattle.text_lines.specs.Parts.{joined};
ghost use Rattle.header_text.specs.Spelling.{arrow_name};
ghost use Rattle.claim_lines.specs.Spelling.{word_line, step_form, step_line, tail_form, rule_line};

use header_text::{arrow_text, push_path, push_terms};
use path_algebra::{Rule, Step, Term};
use quiver_paths::{Path, Quiver};
use std::alloc::AllocError;
use text_lines::push_numeral;

/// Adds a space and the numeral of a number.
pub(crate) fn push_number(out: &mut Vec<u8>, n: u64) -> Result<(), AllocError>
    ensures { OnOk result (out.new.items ≡ out.old.items ++ 32 ∷ decimal n) }
{
    out.push(b' ')?;
    push_numeral(out, n)?;
    Ok(())
}

/// Adds a line of a word and a number, as `words 4`.
pub fn push_count(out: &mut Vec<u8>, word: &[u8], n: u64) -> Result<(), AllocError>
    ensures { OnOk result (out.new.items ≡ out.old.items ++ strict_line (word.now ∷ decimal n ∷ [])) }
{
    out.extend_from_slice(word)?;
    push_number(out, n)?;
    out.push(b'\n')?;
    Ok(())
}

/// Adds a space and the name of an arrow.
pub(crate) fn push_arrow_name(
    out: &mut Vec<u8>,
    quiver: &Quiver,
    arrow: u8,
) -> Result<(), AllocError>
    ensures { OnOk result (out.new.items ≡ out.old.items ++ 32 ∷ arrow_name quiver.now arrow) }
{
    out.push(b' ')?;
    out.extend_from_slice(arrow_text(quiver, arrow))?;
    Ok(())
}

/// Adds the line of a word: a path of the quiver.
pub fn push_word(out: &mut Vec<u8>, quiver: &Quiver, word: &Path) -> Result<(), AllocError>
    ensures { OnOk result (out.new.items ≡ out.old.items ++ strict_line (word_line quiver.now word.now)) }
{
    out.extend_from_slice(b"word ")?;
    push_path(out, quiver, word)?;
    out.push(b'\n')?;
    Ok(())
}

fn push_relation_step(out: &mut Vec<u8>, r: u32) -> Result<(), AllocError>
    ensures { OnOk result (out.new.items ≡ out.old.items ++ joined 32 (codes "relation" ∷ decimal r ∷ [])) }
{
    out.extend_from_slice(b"relation")?;
    push_number(out, r as u64)?;
    Ok(())
}

fn push_left_step(out: &mut Vec<u8>, quiver: &Quiver, a: u8, j: u32) -> Result<(), AllocError>
    ensures { OnOk result (out.new.items ≡ out.old.items ++ joined 32 (codes "left" ∷ arrow_name quiver.now a ∷ decimal j ∷ [])) }
{
    out.extend_from_slice(b"left")?;
    push_arrow_name(out, quiver, a)?;
    push_number(out, j as u64)?;
    Ok(())
}

fn push_right_step(out: &mut Vec<u8>, quiver: &Quiver, j: u32, a: u8) -> Result<(), AllocError>
    ensures { OnOk result (out.new.items ≡ out.old.items ++ joined 32 (codes "right" ∷ decimal j ∷ arrow_name quiver.now a ∷ [])) }
{
    out.extend_from_slice(b"right")?;
    push_number(out, j as u64)?;
    push_arrow_name(out, quiver, a)?;
    Ok(())
}

fn push_add_step(out: &mut Vec<u8>, j: u32, c: u8, m: u32) -> Result<(), AllocError>
    ensures { OnOk result (out.new.items ≡ out.old.items ++ joined 32 (codes "add" ∷ decimal j ∷ decimal c ∷ decimal m ∷ [])) }
{
    out.extend_from_slice(b"add")?;
    push_number(out, j as u64)?;
    push_number(out, c as u64)?;
    push_number(out, m as u64)?;
    Ok(())
}

/// Adds what a step is, without its number.
fn push_step_form(out: &mut Vec<u8>, quiver: &Quiver, step: Step) -> Result<(), AllocError>
    ensures { OnOk result (out.new.items ≡ out.old.items ++ joined 32 (step_form quiver.now step)) }
{
    match step {
        Step::Relation(r) => push_relation_step(out, r),
        Step::Left(a, j) => push_left_step(out, quiver, a, j),
        Step::Right(j, a) => push_right_step(out, quiver, j, a),
        Step::Add(j, c, m) => push_add_step(out, j, c, m),
    }
}

/// Adds the line of the step with the number k, from 1 on.
pub fn push_step(out: &mut Vec<u8>, quiver: &Quiver, k: u64, step: Step) -> Result<(), AllocError>
    ensures { OnOk result (out.new.items ≡ out.old.items ++ strict_line (step_line quiver.now k step)) }
{
    out.extend_from_slice(b"step")?;
    push_number(out, k)?;
    out.push(b' ')?;
    push_step_form(out, quiver, step)?;
    out.push(b'\n')?;
    Ok(())
}

fn push_tail(out: &mut Vec<u8>, quiver: &Quiver, terms: &[Term]) -> Result<(), AllocError>
    ensures { OnOk result (out.new.items ≡ out.old.items ++ joined 32 (tail_form quiver.now terms.now)) }
{
    if terms.is_empty() {
        return Ok(out.push(b'0')?);
    }
    push_terms(out, quiver, terms)
}

/// Adds the line of a rule: its tip, its tail and the number of its step.
pub fn push_rule(out: &mut Vec<u8>, quiver: &Quiver, rule: &Rule) -> Result<(), AllocError>
    ensures { OnOk result (out.new.items ≡ out.old.items ++ strict_line (rule_line quiver.now rule.now)) }
{
    out.extend_from_slice(b"rule ")?;
    push_path(out, quiver, &rule.tip)?;
    out.extend_from_slice(b" -> ")?;
    push_tail(out, quiver, rule.tail.terms.as_slice())?;
    out.extend_from_slice(b" by")?;
    push_number(out, rule.step as u64)?;
    out.push(b'\n')?;
    Ok(())
}
