//! Writing lines. Each writer adds behind what is there; where memory is wanting, `Err`, and a front of the line may stand there.
ghost use Rattle.std.specs.Prelude.{◌≡◌, ◌≤◌, ◌++◌, ◌∷◌, [], ◌==◌, OnOk, decimal, codes, length, map, if◌then◌else◌};
ghost use Rattle.text_lines.specs.Strict.{strict_line};
ghost use Rattle.header_text.specs.Spelling.{vertex_name, arrow_name, text_of};
ghost use Rattle.object_lines.specs.Spelling.{numbers_form, side_word, module_line, map_line, matrix_form, at_line, at_lines, has_entry, row_line, gen_line, phi_line, term_line, ideal_line, power_line, residue_word, residue_line, left_line, middle_line};
ghost use Rattle.object_lines.specs.Written.{behind_spaces};

use claim_conditions::Residue;
use fp_linear::Matrix;
use header_text::{arrow_text, vertex_text};
use module_types::Side;
use quiver_paths::Quiver;
use std::alloc::AllocError;
use text_lines::push_numeral;

/// Adds a space and a token.
fn push_token(out: &mut Vec<u8>, token: &[u8]) -> Result<(), AllocError>
    ensures { OnOk result (out.new.items ≡ out.old.items ++ 32 ∷ token.now) }
{
    out.push(b' ')?;
    out.extend_from_slice(token)?;
    Ok(())
}

/// Adds a space and the numeral of a number.
fn push_number(out: &mut Vec<u8>, n: u64) -> Result<(), AllocError>
    ensures { OnOk result (out.new.items ≡ out.old.items ++ 32 ∷ decimal n) }
{
    out.push(b' ')?;
    push_numeral(out, n)?;
    Ok(())
}

/// Adds numbers, each behind a space.
fn push_numbers(out: &mut Vec<u8>, numbers: &[u32]) -> Result<(), AllocError>
    ensures { OnOk result (out.new.items ≡ out.old.items ++ behind_spaces (numbers_form numbers.now)) }
{
    for n in numbers {
        push_number(out, *n as u64)?;
    }
    Ok(())
}

/// Adds entries, each behind a space.
fn push_entries(out: &mut Vec<u8>, entries: &[u8]) -> Result<(), AllocError>
    ensures { OnOk result (out.new.items ≡ out.old.items ++ behind_spaces (numbers_form entries.now)) }
{
    for entry in entries {
        push_number(out, *entry as u64)?;
    }
    Ok(())
}

/// Adds the names of vertices, each behind a space.
fn push_vertices(out: &mut Vec<u8>, quiver: &Quiver, vertices: &[u8]) -> Result<(), AllocError>
    ensures { OnOk result (out.new.items ≡ out.old.items ++ behind_spaces (map (vertex_name quiver.now) vertices.now)) }
{
    for vertex in vertices {
        push_token(out, vertex_text(quiver, *vertex))?;
    }
    Ok(())
}

/// Adds a line of a word and a number.
fn push_word_and_number(out: &mut Vec<u8>, word: &[u8], n: u64) -> Result<(), AllocError>
    ensures { OnOk result (out.new.items ≡ out.old.items ++ strict_line (word.now ∷ decimal n ∷ [])) }
{
    out.extend_from_slice(word)?;
    push_number(out, n)?;
    out.push(b'\n')?;
    Ok(())
}

/// Adds a line of a word and entries.
fn push_word_and_entries(out: &mut Vec<u8>, word: &[u8], entries: &[u8]) -> Result<(), AllocError>
    ensures { OnOk result (out.new.items ≡ out.old.items ++ strict_line (word.now ∷ numbers_form entries.now)) }
{
    out.extend_from_slice(word)?;
    push_entries(out, entries)?;
    out.push(b'\n')?;
    Ok(())
}

/// The word for a side.
fn side_text(side: Side) -> &'static [u8]
    ensures { result.now ≡ side_word side }
{
    match side {
        Side::Right => b"right",
        Side::Left => b"left",
    }
}

/// Adds the first line of module k, of this side and with these dimensions.
pub fn push_module_line(
    out: &mut Vec<u8>,
    k: u32,
    side: Side,
    dims: &[u32],
) -> Result<(), AllocError>
    ensures { OnOk result (out.new.items ≡ out.old.items ++ strict_line (module_line k side dims.now)) }
{
    out.extend_from_slice(b"module")?;
    push_number(out, k as u64)?;
    push_token(out, side_text(side))?;
    push_numbers(out, dims)?;
    out.push(b'\n')?;
    Ok(())
}

/// Adds the first line of map k, from one module to another, both by their numbers.
pub fn push_map_line(out: &mut Vec<u8>, k: u32, source: u32, target: u32) -> Result<(), AllocError>
    ensures { OnOk result (out.new.items ≡ out.old.items ++ strict_line (map_line k source target)) }
{
    out.extend_from_slice(b"map")?;
    push_number(out, k as u64)?;
    push_number(out, source as u64)?;
    push_number(out, target as u64)?;
    out.push(b'\n')?;
    Ok(())
}

/// Adds what stands between two rows, before each but the first.
fn push_slash(out: &mut Vec<u8>, i: u32) -> Result<(), AllocError>
    ensures { OnOk result (out.new.items ≡ out.old.items ++ behind_spaces (if i == 0 then [] else (codes "/" ∷ []))) }
{
    if i != 0 {
        out.extend_from_slice(b" /")?;
    }
    Ok(())
}

/// Adds the rows of a matrix.
fn push_matrix(out: &mut Vec<u8>, m: &Matrix) -> Result<(), AllocError>
    ensures { OnOk result (out.new.items ≡ out.old.items ++ behind_spaces (matrix_form m.now.rows)) }
{
    for i in 0..m.rows() {
        push_slash(out, i)?;
        push_entries(out, m.row(i))?;
    }
    Ok(())
}

fn push_at_line(out: &mut Vec<u8>, name: &[u8], m: &Matrix) -> Result<(), AllocError>
    ensures { OnOk result (out.new.items ≡ out.old.items ++ strict_line (at_line name.now m.now)) }
{
    out.extend_from_slice(b"at")?;
    push_token(out, name)?;
    push_matrix(out, m)?;
    out.push(b'\n')?;
    Ok(())
}

/// Adds the line of the matrix at this name, if it has an entry.
fn push_at_some(out: &mut Vec<u8>, name: &[u8], m: &Matrix) -> Result<(), AllocError>
    ensures { OnOk result (out.new.items ≡ out.old.items ++ text_of (if has_entry m.now then at_line name.now m.now ∷ [] else [])) }
{
    if m.rows() > 0 && m.cols() > 0 {
        push_at_line(out, name, m)?;
    }
    Ok(())
}

/// Adds the lines of the matrices at the vertices, those without an entry left out.
pub fn push_at_vertices(
    out: &mut Vec<u8>,
    quiver: &Quiver,
    matrices: &[Matrix],
) -> Result<(), AllocError>
    requires { length matrices.now ≤ 256 }
    ensures { OnOk result (out.new.items ≡ out.old.items ++ text_of (at_lines (vertex_name quiver.now) 0 matrices.now)) }
{
    for (v, m) in matrices.iter().enumerate() {
        push_at_some(out, vertex_text(quiver, v as u8), m)?;
    }
    Ok(())
}

/// Adds the lines of the matrices at the arrows, those without an entry left out.
pub fn push_at_arrows(
    out: &mut Vec<u8>,
    quiver: &Quiver,
    matrices: &[Matrix],
) -> Result<(), AllocError>
    requires { length matrices.now ≤ 256 }
    ensures { OnOk result (out.new.items ≡ out.old.items ++ text_of (at_lines (arrow_name quiver.now) 0 matrices.now)) }
{
    for (a, m) in matrices.iter().enumerate() {
        push_at_some(out, arrow_text(quiver, a as u8), m)?;
    }
    Ok(())
}

/// Adds the line of a row of a matrix.
pub fn push_row_line(out: &mut Vec<u8>, entries: &[u8]) -> Result<(), AllocError>
    ensures { OnOk result (out.new.items ≡ out.old.items ++ strict_line (row_line entries.now)) }
{
    push_word_and_entries(out, b"row", entries)
}

/// Adds the lines of the rows of a matrix.
pub fn push_row_lines(out: &mut Vec<u8>, m: &Matrix) -> Result<(), AllocError>
    ensures { OnOk result (out.new.items ≡ out.old.items ++ text_of (map row_line m.now.rows)) }
{
    for i in 0..m.rows() {
        push_row_line(out, m.row(i))?;
    }
    Ok(())
}

/// Adds the line of the row that a generator goes to.
pub fn push_gen_line(out: &mut Vec<u8>, entries: &[u8]) -> Result<(), AllocError>
    ensures { OnOk result (out.new.items ≡ out.old.items ++ strict_line (gen_line entries.now)) }
{
    push_word_and_entries(out, b"gen", entries)
}

/// Adds the line of a functional.
pub fn push_phi_line(out: &mut Vec<u8>, entries: &[u8]) -> Result<(), AllocError>
    ensures { OnOk result (out.new.items ≡ out.old.items ++ strict_line (phi_line entries.now)) }
{
    push_word_and_entries(out, b"phi", entries)
}

/// Adds the first line of term k of a resolution, with the vertices of its generators.
pub fn push_term_line(
    out: &mut Vec<u8>,
    quiver: &Quiver,
    k: u32,
    vertices: &[u8],
) -> Result<(), AllocError>
    ensures { OnOk result (out.new.items ≡ out.old.items ++ strict_line (term_line quiver.now k vertices.now)) }
{
    out.extend_from_slice(b"term")?;
    push_number(out, k as u64)?;
    push_number(out, vertices.len() as u64)?;
    push_vertices(out, quiver, vertices)?;
    out.push(b'\n')?;
    Ok(())
}

/// Adds the line that says of how many rows an ideal is.
pub fn push_ideal_line(out: &mut Vec<u8>, n: u32) -> Result<(), AllocError>
    ensures { OnOk result (out.new.items ≡ out.old.items ++ strict_line (ideal_line n)) }
{
    push_word_and_number(out, b"ideal", n as u64)
}

/// Adds the line that says which power of an ideal is zero.
pub fn push_power_line(out: &mut Vec<u8>, n: u32) -> Result<(), AllocError>
    ensures { OnOk result (out.new.items ≡ out.old.items ++ strict_line (power_line n)) }
{
    push_word_and_number(out, b"power", n as u64)
}

/// Adds the line of the form of a residue ring.
pub fn push_residue_line(out: &mut Vec<u8>, residue: Residue) -> Result<(), AllocError>
    ensures { OnOk result (out.new.items ≡ out.old.items ++ strict_line (residue_line residue)) }
{
    match residue {
        Residue::Frobenius => out.extend_from_slice(b"residue frobenius\n")?,
        Residue::Listed => out.extend_from_slice(b"residue listed\n")?,
    }
    Ok(())
}

/// Adds the line before the matrices of the left end of a sequence.
pub fn push_left_line(out: &mut Vec<u8>) -> Result<(), AllocError>
    ensures { OnOk result (out.new.items ≡ out.old.items ++ strict_line left_line) }
{
    out.extend_from_slice(b"left\n")?;
    Ok(())
}

/// Adds the line before the matrices of the middle of a sequence.
pub fn push_middle_line(out: &mut Vec<u8>) -> Result<(), AllocError>
    ensures { OnOk result (out.new.items ≡ out.old.items ++ strict_line middle_line) }
{
    out.extend_from_slice(b"middle\n")?;
    Ok(())
}
