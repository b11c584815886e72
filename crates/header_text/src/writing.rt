//! Writing headers and paths.
ghost use Rattle.std.specs.Prelude.{◌≡◌, ◌++◌, [], map, OnOk, ◌==◌, if◌then◌else◌};
ghost use Rattle.text_lines.specs.Strict.{strict_line};
ghost use Rattle.text_lines.specs.Parts.{joined};
ghost use Rattle.header_text.specs.Spelling.{vertex_name, arrow_name, arrows_text, path_text, coefficient_text, term_text, terms_arguments, field_line, vertex_line, arrow_line, bound_line, relation_line, text_of, header_text};

use fp_linear::Field;
use path_algebra::{Header, Relation, Term};
use quiver_paths::{Arrow, Name, Path, Quiver};
use std::alloc::AllocError;
use text_lines::push_numeral;

/// The name of the vertex at a place, empty where there is none.
pub fn vertex_text(quiver: &Quiver, vertex: u8) -> &[u8]
    ensures { result.now ≡ vertex_name quiver.now vertex }
{
    match quiver.vertices.as_slice().get(vertex as usize) {
        Some(name) => name.text(),
        None => &[],
    }
}

/// The name of the arrow at a place, empty where there is none.
pub fn arrow_text(quiver: &Quiver, arrow: u8) -> &[u8]
    ensures { result.now ≡ arrow_name quiver.now arrow }
{
    match quiver.arrows.as_slice().get(arrow as usize) {
        Some(arrow) => arrow.name.text(),
        None => &[],
    }
}

/// Adds what stands between two pieces, before each but the first.
fn push_between(out: &mut Vec<u8>, i: usize, between: &[u8]) -> Result<(), AllocError>
    ensures { OnOk result (out.new.items ≡ out.old.items ++ (if i == 0 then [] else between.now)) }
{
    if i == 0 {
        return Ok(());
    }
    out.extend_from_slice(between)
}

/// Adds the names of the arrows, joined by `.`.
fn push_arrows(out: &mut Vec<u8>, quiver: &Quiver, arrows: &[u8]) -> Result<(), AllocError>
    ensures { OnOk result (out.new.items ≡ out.old.items ++ arrows_text quiver.now arrows.now) }
{
    for (i, arrow) in arrows.iter().enumerate() {
        push_between(out, i, b".")?;
        out.extend_from_slice(arrow_text(quiver, *arrow))?;
    }
    Ok(())
}

/// Adds the spelling of a path: `@` and its vertex for a trivial path, else its arrows joined by `.`.
pub fn push_path(out: &mut Vec<u8>, quiver: &Quiver, path: &Path) -> Result<(), AllocError>
    ensures { OnOk result (out.new.items ≡ out.old.items ++ path_text quiver.now path.now) }
{
    if path.arrows.is_empty() {
        out.push(b'@')?;
        out.extend_from_slice(vertex_text(quiver, path.start))?;
    } else {
        push_arrows(out, quiver, path.arrows.as_slice())?;
    }
    Ok(())
}

/// Adds a coefficient and `*`, but nothing for 1.
fn push_coefficient(out: &mut Vec<u8>, coef: u8) -> Result<(), AllocError>
    ensures { OnOk result (out.new.items ≡ out.old.items ++ coefficient_text coef) }
{
    if coef != 1 {
        push_numeral(out, coef as u64)?;
        out.push(b'*')?;
    }
    Ok(())
}

/// Adds the spelling of a term.
fn push_term(out: &mut Vec<u8>, quiver: &Quiver, term: &Term) -> Result<(), AllocError>
    ensures { OnOk result (out.new.items ≡ out.old.items ++ term_text quiver.now term.now) }
{
    push_coefficient(out, term.coef)?;
    push_path(out, quiver, &term.path)?;
    Ok(())
}

/// Adds the terms with ` + ` between each two.
pub fn push_terms(out: &mut Vec<u8>, quiver: &Quiver, terms: &[Term]) -> Result<(), AllocError>
    ensures { OnOk result (out.new.items ≡ out.old.items ++ joined 32 (terms_arguments quiver.now terms.now)) }
{
    for (i, term) in terms.iter().enumerate() {
        push_between(out, i, b" + ")?;
        push_term(out, quiver, term)?;
    }
    Ok(())
}

fn push_field(out: &mut Vec<u8>, field: Field) -> Result<(), AllocError>
    ensures { OnOk result (out.new.items ≡ out.old.items ++ strict_line (field_line field)) }
{
    out.extend_from_slice(b"field ")?;
    push_numeral(out, field.size() as u64)?;
    out.push(b'\n')?;
    Ok(())
}

fn push_vertex(out: &mut Vec<u8>, name: &Name) -> Result<(), AllocError>
    ensures { OnOk result (out.new.items ≡ out.old.items ++ strict_line (vertex_line name.now)) }
{
    out.extend_from_slice(b"vertex ")?;
    out.extend_from_slice(name.text())?;
    out.push(b'\n')?;
    Ok(())
}

fn push_arrow(out: &mut Vec<u8>, quiver: &Quiver, arrow: &Arrow) -> Result<(), AllocError>
    ensures { OnOk result (out.new.items ≡ out.old.items ++ strict_line (arrow_line quiver.now arrow.now)) }
{
    out.extend_from_slice(b"arrow ")?;
    out.extend_from_slice(arrow.name.text())?;
    out.push(b' ')?;
    out.extend_from_slice(vertex_text(quiver, arrow.from))?;
    out.push(b' ')?;
    out.extend_from_slice(vertex_text(quiver, arrow.to))?;
    out.push(b'\n')?;
    Ok(())
}

fn push_bound(out: &mut Vec<u8>, bound: u32) -> Result<(), AllocError>
    ensures { OnOk result (out.new.items ≡ out.old.items ++ strict_line (bound_line bound)) }
{
    out.extend_from_slice(b"bound ")?;
    push_numeral(out, bound as u64)?;
    out.push(b'\n')?;
    Ok(())
}

fn push_relation(out: &mut Vec<u8>, quiver: &Quiver, relation: &Relation) -> Result<(), AllocError>
    ensures { OnOk result (out.new.items ≡ out.old.items ++ strict_line (relation_line quiver.now relation.now)) }
{
    out.extend_from_slice(b"relation")?;
    if !relation.terms.is_empty() {
        out.push(b' ')?;
    }
    push_terms(out, quiver, relation.terms.as_slice())?;
    out.push(b'\n')?;
    Ok(())
}

fn push_vertices(out: &mut Vec<u8>, names: &[Name]) -> Result<(), AllocError>
    ensures { OnOk result (out.new.items ≡ out.old.items ++ text_of (map vertex_line names.now)) }
{
    for name in names {
        push_vertex(out, name)?;
    }
    Ok(())
}

fn push_all_arrows(out: &mut Vec<u8>, quiver: &Quiver) -> Result<(), AllocError>
    ensures { OnOk result (out.new.items ≡ out.old.items ++ text_of (map (arrow_line quiver.now) quiver.now.arrows)) }
{
    for arrow in quiver.arrows.as_slice() {
        push_arrow(out, quiver, arrow)?;
    }
    Ok(())
}

fn push_relations(
    out: &mut Vec<u8>,
    quiver: &Quiver,
    relations: &[Relation],
) -> Result<(), AllocError>
    ensures { OnOk result (out.new.items ≡ out.old.items ++ text_of (map (relation_line quiver.now) relations.now)) }
{
    for relation in relations {
        push_relation(out, quiver, relation)?;
    }
    Ok(())
}

/// Adds the lines of a header.
pub fn push_header(out: &mut Vec<u8>, header: &Header) -> Result<(), AllocError>
    ensures { OnOk result (out.new.items ≡ out.old.items ++ header_text header.now) }
{
    push_field(out, header.field)?;
    push_vertices(out, header.quiver.vertices.as_slice())?;
    push_all_arrows(out, &header.quiver)?;
    push_bound(out, header.bound)?;
    push_relations(out, &header.quiver, header.relations.as_slice())?;
    Ok(())
}
