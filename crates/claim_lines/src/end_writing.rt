//! Writing the last line. Each writer adds behind what is there; where memory is wanting, `Err`, and a front of the line may stand there.
ghost use Rattle.std.specs.Prelude.{◌≡◌, ◌++◌, ◌∷◌, [], OnOk, decimal, codes};
ghost use Rattle.text_lines.specs.Strict.{strict_line};
ghost use Rattle.header_text.specs.Spelling.{arrow_name, path_text};
ghost use Rattle.claim_lines.specs.Spelling.{behind_spaces, suffix_text, reference_text, why_form, end_line};

use crate::writing::{push_arrow_name, push_count, push_number};
use header_text::push_path;
use path_algebra::Header;
use quiver_paths::{Name, Path, Reference, Suffix};
use report_types::{End, Why};
use std::alloc::AllocError;
use text_lines::push_numeral;

fn push_suffix(out: &mut Vec<u8>, suffix: Suffix) -> Result<(), AllocError>
    ensures { OnOk result (out.new.items ≡ out.old.items ++ suffix_text suffix) }
{
    match suffix {
        Suffix::Whole => {}
        Suffix::Map => out.extend_from_slice(b".map")?,
        Suffix::Inv => out.extend_from_slice(b".inv")?,
        Suffix::Part(k) => {
            out.push(b'.')?;
            push_numeral(out, k as u64)?;
        }
    }
    Ok(())
}

/// Adds a word behind a space.
fn push_bare(out: &mut Vec<u8>, word: &[u8]) -> Result<(), AllocError>
    ensures { OnOk result (out.new.items ≡ out.old.items ++ behind_spaces (word.now ∷ [])) }
{
    out.push(b' ')?;
    out.extend_from_slice(word)?;
    Ok(())
}

/// Adds a word and a number.
fn push_limit(out: &mut Vec<u8>, word: &[u8], n: u64) -> Result<(), AllocError>
    ensures { OnOk result (out.new.items ≡ out.old.items ++ behind_spaces (word.now ∷ decimal n ∷ [])) }
{
    push_bare(out, word)?;
    push_number(out, n)?;
    Ok(())
}

/// Adds a word and two numbers.
fn push_term_limit(out: &mut Vec<u8>, word: &[u8], step: u32, n: u64) -> Result<(), AllocError>
    ensures { OnOk result (out.new.items ≡ out.old.items ++ behind_spaces (word.now ∷ decimal step ∷ decimal n ∷ [])) }
{
    push_limit(out, word, step as u64)?;
    push_number(out, n)?;
    Ok(())
}

fn push_unknown(out: &mut Vec<u8>, token: &Reference) -> Result<(), AllocError>
    ensures { OnOk result (out.new.items ≡ out.old.items ++ behind_spaces (codes "UnknownName" ∷ reference_text token.now ∷ [])) }
{
    out.extend_from_slice(b" UnknownName ")?;
    out.extend_from_slice(token.name.text())?;
    push_suffix(out, token.suffix)?;
    Ok(())
}

fn push_taken(out: &mut Vec<u8>, name: &Name) -> Result<(), AllocError>
    ensures { OnOk result (out.new.items ≡ out.old.items ++ behind_spaces (codes "NameTaken" ∷ name.now ∷ [])) }
{
    push_bare(out, b"NameTaken")?;
    push_bare(out, name.text())?;
    Ok(())
}

fn push_bound_fails(out: &mut Vec<u8>, header: &Header, path: &Path) -> Result<(), AllocError>
    ensures { OnOk result (out.new.items ≡ out.old.items ++ behind_spaces (codes "BoundFails" ∷ path_text header.now.quiver path.now ∷ [])) }
{
    out.extend_from_slice(b" BoundFails ")?;
    push_path(out, &header.quiver, path)?;
    Ok(())
}

fn push_not_hom(out: &mut Vec<u8>, header: &Header, arrow: u8) -> Result<(), AllocError>
    ensures { OnOk result (out.new.items ≡ out.old.items ++ behind_spaces (codes "NotHom" ∷ arrow_name header.now.quiver arrow ∷ [])) }
{
    push_bare(out, b"NotHom")?;
    push_arrow_name(out, &header.quiver, arrow)?;
    Ok(())
}

/// Adds the cause of a refusal.
fn push_why(out: &mut Vec<u8>, header: &Header, why: &Why) -> Result<(), AllocError>
    ensures { OnOk result (out.new.items ≡ out.old.items ++ behind_spaces (why_form header.now why.now)) }
{
    match why {
        Why::NotBuilt => push_bare(out, b"NotBuilt"),
        Why::UnknownName { token } => push_unknown(out, token),
        Why::NameTaken { name } => push_taken(out, name),
        Why::Side => push_bare(out, b"Side"),
        Why::Shape => push_bare(out, b"Shape"),
        Why::RelationFails { relation } => push_limit(out, b"RelationFails", *relation as u64),
        Why::BoundFails { path } => push_bound_fails(out, header, path),
        Why::NotHom { arrow } => push_not_hom(out, header, *arrow),
        Why::PathLimit { count } => push_limit(out, b"PathLimit", *count),
        Why::DimLimit { dim } => push_limit(out, b"DimLimit", *dim),
        Why::HomLimit { unknowns } => push_limit(out, b"HomLimit", *unknowns),
        Why::TermLimit { step, dim } => push_term_limit(out, b"TermLimit", *step, *dim),
        Why::DualLimit { step, dim } => push_term_limit(out, b"DualLimit", *step, *dim),
        Why::Zero => push_bare(out, b"Zero"),
        Why::Decomposable => push_bare(out, b"Decomposable"),
        Why::Projective => push_bare(out, b"Projective"),
    }
}

fn push_refused(out: &mut Vec<u8>, header: &Header, line: u32, why: &Why) -> Result<(), AllocError>
    ensures { OnOk result (out.new.items ≡ out.old.items ++ strict_line (codes "refused" ∷ decimal line ∷ why_form header.now why.now)) }
{
    out.extend_from_slice(b"refused")?;
    push_number(out, line as u64)?;
    push_why(out, header, why)?;
    out.push(b'\n')?;
    Ok(())
}

/// Adds the last line of a report with so many claims.
pub fn push_end(
    out: &mut Vec<u8>,
    header: &Header,
    claims: u64,
    end: &End,
) -> Result<(), AllocError>
    ensures { OnOk result (out.new.items ≡ out.old.items ++ strict_line (end_line header.now claims end.now)) }
{
    match end {
        End::Done => push_count(out, b"end", claims),
        End::Refused { line, why } => push_refused(out, header, *line, why),
    }
}
