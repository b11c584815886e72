//! Names of lines among those of arrows or of vertices.
ghost use Rattle.std.specs.Prelude.{◌≡◌, IfOk, length, nat_eq};
ghost use Rattle.std.specs.List.{list_any};
ghost use Rattle.std.specs.Cmp.Lexicographic.{pointwise};
ghost use Rattle.script_answers.specs.FirstTests.{are_among};
ghost use Rattle.script_answers.specs.Written.{arrow_names, vertex_names, line_names};
ghost use Rattle.written_modules.specs.Lines.{unknown_name};
ghost use Rattle.written_modules.specs.Tests.{Tested};

use crate::stops::Stop;
use path_algebra::Header;
use quiver_paths::{Name, Reference, Suffix};
use report_types::Why;
use script_types::AtLine;
use seq::Seq;
use std::alloc::{AllocError, Global};

/// The names of all arrows, in their order.
pub(crate) fn arrow_names(alloc: Global, header: &Header) -> Result<Seq<Name>, AllocError>
    ensures { IfOk result (λ names. names ≡ arrow_names header.now) }
{
    let mut names = Vec::with_capacity(alloc, header.quiver.arrows.len())?;
    for a in 0..header.quiver.arrows.len() {
        let name = header.quiver.arrows[a].name.clone()?;
        names.push(name)?;
    }
    Ok(Seq::from_vec(names))
}

/// Whether the name is one of those.
fn is_among(known: &Seq<Name>, name: &Name) -> bool
    ensures { result ≡ list_any (pointwise nat_eq name.now) known.now }
{
    for i in 0..known.len() {
        if *name == known[i] {
            return true;
        }
    }
    false
}

/// Refuses the first line whose name is none of those.
pub(crate) fn names_among(known: &Seq<Name>, lines: &Seq<AtLine>) -> Result<(), Stop>
    ensures { Tested (are_among known.now (line_names lines.now)) result }
{
    for j in 0..lines.len() {
        let name = &lines[j].name;
        if !is_among(known, name) {
            let why = unknown(name)?;
            return Err(Stop::Refused(why));
        }
    }
    Ok(())
}

/// The refusal of a name to which nothing is known.
fn unknown(name: &Name) -> Result<Why, AllocError>
    ensures { IfOk result (λ w. w ≡ unknown_name name.now) }
{
    let name = name.clone()?;
    Ok(Why::UnknownName {
        token: Reference {
            name,
            suffix: Suffix::Whole,
        },
    })
}

/// Refuses the first line whose name is that of no arrow.
pub fn names_are_arrows(alloc: Global, header: &Header, lines: &Seq<AtLine>) -> Result<(), Stop>
    ensures { Tested (are_among (arrow_names header.now) (line_names lines.now)) result }
{
    let names = arrow_names(alloc, header)?;
    names_among(&names, lines)?;
    Ok(())
}

/// Refuses the first line whose name is that of no vertex.
pub fn names_are_vertices(header: &Header, lines: &Seq<AtLine>) -> Result<(), Stop>
    ensures { Tested (are_among (vertex_names header.now) (line_names lines.now)) result }
{
    names_among(&header.quiver.vertices, lines)?;
    Ok(())
}
