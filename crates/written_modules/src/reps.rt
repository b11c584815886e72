//! Modules that a script writes.
ghost use Rattle.std.specs.Prelude.{ℕ, ◌≡◌, ◌<◌, ◌≤◌, ◌∷◌, ◌^◌, [], All, length, slice_index, true, IfOk};
ghost use Rattle.path_algebra.specs.Allowed.{IsAllowed};
ghost use Rattle.quiver_paths.specs.Quiver.{vertex_count, arrow_count};
ghost use Rattle.module_types.specs.Shapes.{dimension, most_dimension};
ghost use Rattle.module_faults.specs.ModuleFaults.{IsSmallModule};
ghost use Rattle.script_answers.specs.FirstTests.{are_among, dim_limit};
ghost use Rattle.script_answers.specs.Refusals.{rep_shape, rep_holds};
ghost use Rattle.script_answers.specs.Written.{arrow_names, line_names, lines_fit, rows_from, columns_to, rep_written};
ghost use Rattle.written_modules.specs.Lines.{HoldRows};
ghost use Rattle.written_modules.specs.Tests.{Tested, AllTested};

use crate::building::written_matrices;
use crate::holding::rep_holds;
use crate::names::{arrow_names, names_among};
use crate::shapes::shapes_fit;
use crate::stops::Stop;
use module_types::{Module, Side, source_at, target_at};
use path_algebra::Header;
use quiver_paths::Name;
use report_types::Why;
use script_types::AtLine;
use seq::Seq;
use std::alloc::{AllocError, Global};

const MOST_DIMENSION: u64 = 256;

/// The sum of the dimensions.
fn dimension_of(dims: &Seq<u32>) -> u64
    requires { length dims.now < 2 ^ 32 }
    ensures { result ≡ dimension dims.now }
{
    let mut sum = 0u64;
    for v in 0..dims.len() {
        sum += dims[v] as u64;
    }
    sum
}

/// Refuses dimensions whose sum is above 256.
fn dim_limit(dims: &Seq<u32>) -> Result<(), Stop>
    requires { length dims.now < 2 ^ 32 }
    ensures tested { Tested (dim_limit (dimension dims.now)) result }
    ensures small { IfOk result (λ _. dimension dims.now ≤ most_dimension) }
{
    let dim = dimension_of(dims);
    if dim > MOST_DIMENSION {
        return Err(Stop::Refused(Why::DimLimit { dim }));
    }
    Ok(())
}

/// For each arrow the dimension where it starts.
fn row_counts(alloc: Global, header: &Header, dims: &Seq<u32>) -> Result<Seq<u32>, AllocError>
    requires allowed { IsAllowed header.now }
    requires dims { length dims.now ≡ vertex_count header.now.quiver }
    ensures count { IfOk result (λ counts. length counts ≡ arrow_count header.now.quiver) }
    ensures at { IfOk result (λ counts. (a : ℕ) → slice_index counts a ≡ rows_from header.now dims.now a) }
{
    let mut counts = Vec::with_capacity(alloc, header.quiver.arrows.len())?;
    for a in 0..header.quiver.arrows.len() {
        counts.push(dims[source_at(header, Side::Right, a as u8) as usize])?;
    }
    Ok(Seq::from_vec(counts))
}

/// For each arrow the dimension where it ends.
fn col_counts(alloc: Global, header: &Header, dims: &Seq<u32>) -> Result<Seq<u32>, AllocError>
    requires allowed { IsAllowed header.now }
    requires dims { length dims.now ≡ vertex_count header.now.quiver }
    ensures count { IfOk result (λ counts. length counts ≡ arrow_count header.now.quiver) }
    ensures at { IfOk result (λ counts. (a : ℕ) → slice_index counts a ≡ columns_to header.now dims.now a) }
{
    let mut counts = Vec::with_capacity(alloc, header.quiver.arrows.len())?;
    for a in 0..header.quiver.arrows.len() {
        counts.push(dims[target_at(header, Side::Right, a as u8) as usize])?;
    }
    Ok(Seq::from_vec(counts))
}

/// The names of the arrows, where each line has one of them.
fn known_names(alloc: Global, header: &Header, lines: &Seq<AtLine>) -> Result<Seq<Name>, Stop>
    ensures tested { Tested (are_among (arrow_names header.now) (line_names lines.now)) result }
    ensures names { IfOk result (λ names. names ≡ arrow_names header.now) }
{
    let names = arrow_names(alloc, header)?;
    if let Err(stop) = names_among(&names, lines) {
        return Err(stop);
    }
    Ok(names)
}

/// For each arrow the rows and the columns of its matrix.
#[derive(Drop)]
struct Counts {
    rows: Seq<u32>,
    cols: Seq<u32>,
}

/// The counts of rows and columns, where there are as many dimensions as vertices and the lines fit.
fn rep_fits(
    alloc: Global,
    header: &Header,
    names: &Seq<Name>,
    dims: &Seq<u32>,
    lines: &Seq<AtLine>,
) -> Result<Counts, Stop>
    requires allowed { IsAllowed header.now }
    requires names { names.now ≡ arrow_names header.now }
    ensures tested { Tested (rep_shape header.now dims.now lines.now) result }
    ensures counted { IfOk result (λ _. length dims.now ≡ vertex_count header.now.quiver) }
    ensures row_count { IfOk result (λ counts. length counts.rows ≡ arrow_count header.now.quiver) }
    ensures col_count { IfOk result (λ counts. length counts.cols ≡ arrow_count header.now.quiver) }
    ensures rows { IfOk result (λ counts. slice_index counts.rows ≡ rows_from header.now dims.now) }
    ensures cols { IfOk result (λ counts. slice_index counts.cols ≡ columns_to header.now dims.now) }
    ensures fit { IfOk result (λ _. lines_fit (arrow_names header.now) (rows_from header.now dims.now) (columns_to header.now dims.now) lines.now ≡ true) }
{
    if dims.len() != header.quiver.vertices.len() {
        return Err(Stop::Refused(Why::Shape));
    }
    let rows = row_counts(alloc, header, dims)?;
    let cols = col_counts(alloc, header, dims)?;
    if let Err(stop) = shapes_fit(names, &rows, &cols, lines) {
        return Err(stop);
    }
    Ok(Counts { rows, cols })
}

/// The module of these lines, where the relations and the paths of the bound's length act as zero on it.
fn rep_built(
    alloc: Global,
    header: &Header,
    names: &Seq<Name>,
    counts: &Counts,
    dims: &Seq<u32>,
    lines: &Seq<AtLine>,
) -> Result<Module, Stop>
    requires allowed { IsAllowed header.now }
    requires names { names.now ≡ arrow_names header.now }
    requires counted { length dims.now ≡ vertex_count header.now.quiver }
    requires small { dimension dims.now ≤ most_dimension }
    requires row_count { length counts.now.rows ≡ arrow_count header.now.quiver }
    requires col_count { length counts.now.cols ≡ arrow_count header.now.quiver }
    requires rows { slice_index counts.now.rows ≡ rows_from header.now dims.now }
    requires cols { slice_index counts.now.cols ≡ columns_to header.now dims.now }
    requires fit { lines_fit (arrow_names header.now) (rows_from header.now dims.now) (columns_to header.now dims.now) lines.now ≡ true }
    requires lines { HoldRows header.now.field lines.now }
    ensures tested { Tested (rep_holds header.now (rep_written header.now dims.now lines.now)) result }
    ensures written { IfOk result (λ m. m ≡ rep_written header.now dims.now lines.now) }
    ensures small { IfOk result (λ m. IsSmallModule header.now m) }
{
    let copy = dims.clone()?;
    let matrices = written_matrices(
        alloc,
        header.field,
        names,
        &counts.rows,
        &counts.cols,
        lines,
    )?;
    let m = Module {
        side: Side::Right,
        dims: copy,
        matrices,
    };
    if let Err(stop) = rep_holds(alloc, header, &m) {
        return Err(stop);
    }
    Ok(m)
}

/// The right module with these dimensions at the vertices, and the matrices of the lines at arrows; an arrow without a line has the zero matrix. It is refused
/// for the first of these: a line whose name is that of no arrow; another number of dimensions than vertices, two lines at one arrow or rows of another shape;
/// a dimension above 256; a relation, or else a path of the bound's length, that does not act as zero.
pub fn written_rep(
    alloc: Global,
    header: &Header,
    dims: &Seq<u32>,
    lines: &Seq<AtLine>,
) -> Result<Module, Stop>
    requires allowed { IsAllowed header.now }
    requires lines { HoldRows header.now.field lines.now }
    ensures tested { AllTested (are_among (arrow_names header.now) (line_names lines.now) ∷ rep_shape header.now dims.now lines.now
        ∷ dim_limit (dimension dims.now) ∷ rep_holds header.now (rep_written header.now dims.now lines.now) ∷ []) result }
    ensures written { IfOk result (λ m. m ≡ rep_written header.now dims.now lines.now) }
    ensures small { IfOk result (λ m. IsSmallModule header.now m) }
{
    let names = known_names(alloc, header, lines)?;
    let counts = rep_fits(alloc, header, &names, dims, lines)?;
    dim_limit(dims)?;
    let m = rep_built(alloc, header, &names, &counts, dims, lines)?;
    Ok(m)
}
