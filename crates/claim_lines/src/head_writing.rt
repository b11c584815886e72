//! Writing the first lines of claims. Each writer adds behind what is there; where memory is wanting, `Err`, and a front of the line may stand there.
ghost use Rattle.std.specs.Prelude.{◌≡◌, ◌++◌, ◌∷◌, [], map, OnOk, decimal, codes};
ghost use Rattle.text_lines.specs.Strict.{strict_line};
ghost use Rattle.claim_lines.specs.Spelling.{behind_spaces, parts_form, translate_form, head_form, claim_line};
ghost use Rattle.claim_lines.specs.Reading.{IsLong};

use crate::heads::Head;
use crate::writing::push_number;
use report_types::{PartClaim, Translation};
use std::alloc::AllocError;

/// Adds each number behind a space.
fn push_numbers(out: &mut Vec<u8>, numbers: &[u32]) -> Result<(), AllocError>
    ensures { OnOk result (out.new.items ≡ out.old.items ++ behind_spaces (map decimal numbers.now)) }
{
    for n in numbers {
        push_number(out, *n as u64)?;
    }
    Ok(())
}

/// Adds a word and numbers, each behind a space.
fn push_form(out: &mut Vec<u8>, word: &[u8], numbers: &[u32]) -> Result<(), AllocError>
    ensures { OnOk result (out.new.items ≡ out.old.items ++ behind_spaces (word.now ∷ map decimal numbers.now)) }
{
    out.push(b' ')?;
    out.extend_from_slice(word)?;
    push_numbers(out, numbers)?;
    Ok(())
}

/// Adds a word and numbers, and behind `using` those of claims, each behind a space.
fn push_using(
    out: &mut Vec<u8>,
    word: &[u8],
    numbers: &[u32],
    claims: &[u32],
) -> Result<(), AllocError>
    ensures { OnOk result (out.new.items ≡ out.old.items ++ behind_spaces (word.now ∷ (map decimal numbers.now ++ codes "using" ∷ map decimal claims.now))) }
{
    push_form(out, word, numbers)?;
    push_form(out, b"using", claims)?;
    Ok(())
}

fn push_parts(out: &mut Vec<u8>, parts: &[PartClaim]) -> Result<(), AllocError>
    ensures { OnOk result (out.new.items ≡ out.old.items ++ behind_spaces (parts_form parts.now)) }
{
    for part in parts {
        push_number(out, part.module as u64)?;
        push_number(out, part.local as u64)?;
    }
    Ok(())
}

fn push_decomposition(
    out: &mut Vec<u8>,
    numbers: &[u32],
    parts: &[PartClaim],
) -> Result<(), AllocError>
    ensures { OnOk result (out.new.items ≡ out.old.items ++ behind_spaces (codes "decomposition" ∷ (map decimal numbers.now ++ codes "parts" ∷ parts_form parts.now))) }
{
    push_form(out, b"decomposition", numbers)?;
    out.extend_from_slice(b" parts")?;
    push_parts(out, parts)?;
    Ok(())
}

fn push_translate(
    out: &mut Vec<u8>,
    which: Translation,
    translate: u32,
    a: u32,
    resolution: u32,
) -> Result<(), AllocError>
    ensures { OnOk result (out.new.items ≡ out.old.items ++ behind_spaces (translate_form which translate a resolution)) }
{
    match which {
        Translation::Tau => push_using(out, b"tau", &[translate, a], &[resolution]),
        Translation::Transpose => push_using(out, b"transpose", &[translate, a], &[resolution]),
        Translation::Taui { dual } => push_using(
            out,
            b"taui",
            &[translate, a, dual],
            &[resolution],
        ),
    }
}

/// Adds what the line says of extensions, a decomposition, a translate or an almost split sequence.
fn push_long_head(out: &mut Vec<u8>, head: &Head) -> Result<(), AllocError>
    requires { IsLong head.now }
    ensures { OnOk result (out.new.items ≡ out.old.items ++ behind_spaces (head_form head.now)) }
{
    match head {
        Head::Ext {
            n,
            a,
            b,
            count,
            resolution,
        } => push_using(out, b"ext", &[*n, *a, *b, *count], &[*resolution]),
        Head::Decomposition {
            a,
            sum,
            to,
            back,
            parts,
        } => push_decomposition(out, &[*a, *sum, *to, *back], parts.as_slice()),
        Head::Translate {
            which,
            module,
            a,
            resolution,
        } => push_translate(out, *which, *module, *a, *resolution),
        Head::AlmostSplit {
            left,
            middle,
            right,
            f,
            g,
            resolution,
            local,
        } => push_using(
            out,
            b"almostsplit",
            &[*left, *middle, *right, *f, *g],
            &[*resolution, *local],
        ),
        _ => Ok(()),
    }
}

/// Adds what the line says behind the claim's number and its line.
fn push_head(out: &mut Vec<u8>, head: &Head) -> Result<(), AllocError>
    ensures { OnOk result (out.new.items ≡ out.old.items ++ behind_spaces (head_form head.now)) }
{
    match head {
        Head::Basis => push_form(out, b"basis", &[]),
        Head::Module { module } => push_form(out, b"module", &[*module]),
        Head::Map { map } => push_form(out, b"map", &[*map]),
        Head::Hom { a, b, count } => push_form(out, b"hom", &[*a, *b, *count]),
        Head::Kernel {
            kernel,
            f,
            inclusion,
        } => push_form(out, b"kernel", &[*kernel, *f, *inclusion]),
        Head::Cokernel {
            cokernel,
            f,
            projection,
        } => push_form(out, b"cokernel", &[*cokernel, *f, *projection]),
        Head::Radical {
            radical,
            a,
            inclusion,
        } => push_form(out, b"radical", &[*radical, *a, *inclusion]),
        Head::Resolution { a, n } => push_form(out, b"resolution", &[*a, *n]),
        Head::Local { module, hom } => push_using(out, b"local", &[*module], &[*hom]),
        Head::Ext { .. } => push_long_head(out, head),
        Head::Decomposition { .. } => push_long_head(out, head),
        Head::Translate { .. } => push_long_head(out, head),
        Head::AlmostSplit { .. } => push_long_head(out, head),
    }
}

/// Adds the first line of claim k, which a line of the script asks for. Both numbers count from 1.
pub fn push_claim_line(out: &mut Vec<u8>, k: u32, line: u32, head: &Head) -> Result<(), AllocError>
    ensures { OnOk result (out.new.items ≡ out.old.items ++ strict_line (claim_line k line head.now)) }
{
    out.extend_from_slice(b"claim")?;
    push_number(out, k as u64)?;
    out.extend_from_slice(b" line")?;
    push_number(out, line as u64)?;
    push_head(out, head)?;
    out.push(b'\n')?;
    Ok(())
}
