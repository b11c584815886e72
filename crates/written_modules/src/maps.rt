//! Maps that a script writes.
ghost use Rattle.std.specs.Prelude.{◌≡◌, ◌∷◌, [], length, true, IfOk};
ghost use Rattle.path_algebra.specs.Allowed.{IsAllowed};
ghost use Rattle.module_faults.specs.ModuleFaults.{IsSmallModule};
ghost use Rattle.module_faults.specs.MapFaults.{IsSmallMap};
ghost use Rattle.script_answers.specs.Refusals.{map_shape, map_holds};
ghost use Rattle.quiver_paths.specs.Quiver.{vertex_count};
ghost use Rattle.report_types.specs.WordDimensions.{dim_of};
ghost use Rattle.script_answers.specs.Written.{vertex_names, lines_fit, map_written};
ghost use Rattle.written_modules.specs.Lines.{HoldRows};
ghost use Rattle.written_modules.specs.Tests.{Tested, AllTested};

use crate::building::written_matrices;
use crate::holding::map_holds;
use crate::shapes::shapes_fit;
use crate::stops::Stop;
use fp_linear::Matrix;
use module_types::Module;
use path_algebra::Header;
use script_types::AtLine;
use seq::Seq;
use std::alloc::Global;

/// Refuses lines of which two are at one vertex or one does not fit.
fn map_fits(header: &Header, a: &Module, b: &Module, lines: &Seq<AtLine>) -> Result<(), Stop>
    requires a { length a.now.dims ≡ vertex_count header.now.quiver }
    requires b { length b.now.dims ≡ vertex_count header.now.quiver }
    ensures tested { Tested (map_shape header.now a.now b.now lines.now) result }
    ensures fit { IfOk result (λ _. lines_fit (vertex_names header.now) (dim_of header.now a.now) (dim_of header.now b.now) lines.now ≡ true) }
{
    if let Err(stop) = shapes_fit(&header.quiver.vertices, &a.dims, &b.dims, lines) {
        return Err(stop);
    }
    Ok(())
}

/// The matrices of these lines, where they commute with those of the arrows.
fn map_built(
    alloc: Global,
    header: &Header,
    a: &Module,
    b: &Module,
    lines: &Seq<AtLine>,
) -> Result<Seq<Matrix>, Stop>
    requires allowed { IsAllowed header.now }
    requires a { IsSmallModule header.now a.now }
    requires b { IsSmallModule header.now b.now }
    requires a_count { length a.now.dims ≡ vertex_count header.now.quiver }
    requires b_count { length b.now.dims ≡ vertex_count header.now.quiver }
    requires side { a.now.side ≡ b.now.side }
    requires fit { lines_fit (vertex_names header.now) (dim_of header.now a.now) (dim_of header.now b.now) lines.now ≡ true }
    requires lines { HoldRows header.now.field lines.now }
    ensures tested { Tested (map_holds header.now a.now b.now lines.now) result }
    ensures written { IfOk result (λ matrices. matrices ≡ map_written header.now a.now b.now lines.now) }
    ensures small { IfOk result (λ matrices. IsSmallMap header.now a.now b.now matrices) }
{
    let names = &header.quiver.vertices;
    let matrices = written_matrices(alloc, header.field, names, &a.dims, &b.dims, lines)?;
    if let Err(stop) = map_holds(header, a, b, &matrices) {
        return Err(stop);
    }
    Ok(matrices)
}

/// The matrices at the vertices of a map from `a` to `b`, by the lines at vertices; a vertex without a line has the zero matrix. The map is refused for the
/// first of these: two lines at one vertex or rows of another shape; an arrow with whose matrices the written ones do not commute. That each line has the name
/// of a vertex is for `names_are_vertices` to say.
pub fn written_map(
    alloc: Global,
    header: &Header,
    a: &Module,
    b: &Module,
    lines: &Seq<AtLine>,
) -> Result<Seq<Matrix>, Stop>
    requires allowed { IsAllowed header.now }
    requires a { IsSmallModule header.now a.now }
    requires b { IsSmallModule header.now b.now }
    requires side { a.now.side ≡ b.now.side }
    requires lines { HoldRows header.now.field lines.now }
    ensures tested { AllTested (map_shape header.now a.now b.now lines.now ∷ map_holds header.now a.now b.now lines.now ∷ []) result }
    ensures written { IfOk result (λ matrices. matrices ≡ map_written header.now a.now b.now lines.now) }
    ensures small { IfOk result (λ matrices. IsSmallMap header.now a.now b.now matrices) }
{
    map_fits(header, a, b, lines)?;
    let matrices = map_built(alloc, header, a, b, lines)?;
    Ok(matrices)
}
