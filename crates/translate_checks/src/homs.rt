//! Whether matrices into injective modules, and out of transposed projective modules, are a homomorphism.
ghost use Rattle.std.specs.Prelude.{ℕ, ◌≡◌, ◌<◌, length, MatchBool};
ghost use Rattle.quiver_paths.specs.Quiver.{arrow_count};
ghost use Rattle.alg_table.specs.TableView.{IsTable};
ghost use Rattle.representations.specs.Quiver.{opposite};
ghost use Rattle.module_types.specs.Algebras.{algebra_at, other_side};
ghost use Rattle.module_types.specs.Readings.{dim_at, family_of, IsHom};
ghost use Rattle.module_types.specs.Shapes.{IsModule, AreMatrices};
ghost use Rattle.term_rows.specs.SumDims.{AreVertices, IsRoomFor, sum_dim};
ghost use Rattle.translate_checks.specs.Across.{across};
ghost use Rattle.translate_checks.specs.Steps.{IsSquareAt, module_in, module_across, injectives_in};

use crate::dots::{column_agrees, row_agrees};
use crate::rows::write_arrow_row;
use alg_table::Table;
use fp_linear::Matrix;
use module_types::{Module, Side, source_at, target_at};
use seq::Seq;

/// Whether the square of the matrices at arrow `k` commutes.
fn goes_into_at(
    table: &Table,
    side: Side,
    m: &Module,
    vertices: &Seq<u8>,
    matrices: &Seq<Matrix>,
    k: u8,
    row: &mut [u8],
    next: &mut [u8],
    spare: &mut [u8],
) -> bool
    requires table { IsTable table.now.header table.now.words }
    requires m { IsModule table.now.header.field (algebra_at side table.now.header).quiver m.now }
    requires vertices { AreVertices table.now.header vertices.now }
    requires small { IsRoomFor table.now.header (sum_dim table.now.words (other_side side) vertices.now) 512 }
    requires matrices { AreMatrices table.now.header.field (algebra_at side table.now.header).quiver.vertices
        (dim_at (algebra_at side table.now.header).quiver m.now.dims) (sum_dim table.now.words (other_side side) vertices.now) matrices.now }
    requires arrow { k < arrow_count table.now.header.quiver }
    requires row { length row.old ≡ 512 }
    requires next { length next.old ≡ 512 }
    requires spare { length spare.old ≡ length table.now.words }
    ensures { (t : IsTable table.now.header table.now.words) → MatchBool result
        (IsSquareAt (module_in table.now.header table.now.words t side m.now) (injectives_in table.now.header table.now.words t side vertices.now) matrices.now k)
        (¬ IsSquareAt (module_in table.now.header table.now.words t side m.now) (injectives_in table.now.header table.now.words t side vertices.now) matrices.now k) }
{
    let header = table.header();
    let target = &matrices[target_at(header, side, k) as usize];
    let source = &matrices[source_at(header, side, k) as usize];
    let along = &m.matrices[k as usize];
    for j in 0..target.cols() {
        write_arrow_row(
            table,
            side.other(),
            vertices,
            k,
            j as usize,
            row,
            next,
            spare,
        );
        if !column_agrees(header.field, along, target, source, j, next) {
            return false;
        }
    }
    true
}

/// Whether the matrices, one at each vertex, are a homomorphism from a module of the side to the sum of its injective modules at these vertices. `row` and
/// `next` have 512 places, `spare` one for each word; they are written over.
pub fn is_hom_into(
    table: &Table,
    side: Side,
    m: &Module,
    vertices: &Seq<u8>,
    matrices: &Seq<Matrix>,
    row: &mut [u8],
    next: &mut [u8],
    spare: &mut [u8],
) -> bool
    requires table { IsTable table.now.header table.now.words }
    requires m { IsModule table.now.header.field (algebra_at side table.now.header).quiver m.now }
    requires vertices { AreVertices table.now.header vertices.now }
    requires small { IsRoomFor table.now.header (sum_dim table.now.words (other_side side) vertices.now) 512 }
    requires matrices { AreMatrices table.now.header.field (algebra_at side table.now.header).quiver.vertices
        (dim_at (algebra_at side table.now.header).quiver m.now.dims) (sum_dim table.now.words (other_side side) vertices.now) matrices.now }
    requires row { length row.old ≡ 512 }
    requires next { length next.old ≡ 512 }
    requires spare { length spare.old ≡ length table.now.words }
    ensures { (t : IsTable table.now.header table.now.words) → MatchBool result
        (IsHom (module_in table.now.header table.now.words t side m.now) (injectives_in table.now.header table.now.words t side vertices.now)
        (family_of (module_in table.now.header table.now.words t side m.now) (injectives_in table.now.header table.now.words t side vertices.now) matrices.now))
        (¬ IsHom (module_in table.now.header table.now.words t side m.now) (injectives_in table.now.header table.now.words t side vertices.now)
        (family_of (module_in table.now.header table.now.words t side m.now) (injectives_in table.now.header table.now.words t side vertices.now) matrices.now)) }
{
    for k in 0..table.header().quiver.arrows.len() {
        if !goes_into_at(
            table, side, m, vertices, matrices, k as u8, row, next, spare,
        ) {
            return false;
        }
    }
    true
}

/// Whether the square of the matrices at arrow `k` commutes.
fn comes_from_at(
    table: &Table,
    side: Side,
    m: &Module,
    vertices: &Seq<u8>,
    matrices: &Seq<Matrix>,
    k: u8,
    row: &mut [u8],
    next: &mut [u8],
    spare: &mut [u8],
) -> bool
    requires table { IsTable table.now.header table.now.words }
    requires m { IsModule table.now.header.field (opposite (algebra_at side table.now.header).quiver) m.now }
    requires vertices { AreVertices table.now.header vertices.now }
    requires small { IsRoomFor table.now.header (sum_dim table.now.words (other_side side) vertices.now) 512 }
    requires matrices { AreMatrices table.now.header.field (algebra_at side table.now.header).quiver.vertices
        (sum_dim table.now.words (other_side side) vertices.now) (dim_at (opposite (algebra_at side table.now.header).quiver) m.now.dims) matrices.now }
    requires arrow { k < arrow_count table.now.header.quiver }
    requires row { length row.old ≡ 512 }
    requires next { length next.old ≡ 512 }
    requires spare { length spare.old ≡ length table.now.words }
    ensures { (t : IsTable table.now.header table.now.words) → MatchBool result
        (IsSquareAt (across table.now.header table.now.words t side vertices.now) (module_across table.now.header table.now.words t side m.now) matrices.now k)
        (¬ IsSquareAt (across table.now.header table.now.words t side vertices.now) (module_across table.now.header table.now.words t side m.now) matrices.now k) }
{
    let header = table.header();
    let target = &matrices[source_at(header, side, k) as usize];
    let source = &matrices[target_at(header, side, k) as usize];
    let along = &m.matrices[k as usize];
    for j in 0..source.rows() {
        write_arrow_row(
            table,
            side.other(),
            vertices,
            k,
            j as usize,
            row,
            next,
            spare,
        );
        if !row_agrees(header.field, next, target, source, along, j) {
            return false;
        }
    }
    true
}

/// Whether the matrices, one at each vertex, are a homomorphism from the sum of the projective modules of the other side at these vertices to a module of
/// that side. `row` and `next` have 512 places, `spare` one for each word; they are written over.
pub fn is_hom_from(
    table: &Table,
    side: Side,
    m: &Module,
    vertices: &Seq<u8>,
    matrices: &Seq<Matrix>,
    row: &mut [u8],
    next: &mut [u8],
    spare: &mut [u8],
) -> bool
    requires table { IsTable table.now.header table.now.words }
    requires m { IsModule table.now.header.field (opposite (algebra_at side table.now.header).quiver) m.now }
    requires vertices { AreVertices table.now.header vertices.now }
    requires small { IsRoomFor table.now.header (sum_dim table.now.words (other_side side) vertices.now) 512 }
    requires matrices { AreMatrices table.now.header.field (algebra_at side table.now.header).quiver.vertices
        (sum_dim table.now.words (other_side side) vertices.now) (dim_at (opposite (algebra_at side table.now.header).quiver) m.now.dims) matrices.now }
    requires row { length row.old ≡ 512 }
    requires next { length next.old ≡ 512 }
    requires spare { length spare.old ≡ length table.now.words }
    ensures { (t : IsTable table.now.header table.now.words) → MatchBool result
        (IsHom (across table.now.header table.now.words t side vertices.now) (module_across table.now.header table.now.words t side m.now)
        (family_of (across table.now.header table.now.words t side vertices.now) (module_across table.now.header table.now.words t side m.now) matrices.now))
        (¬ IsHom (across table.now.header table.now.words t side vertices.now) (module_across table.now.header table.now.words t side m.now)
        (family_of (across table.now.header table.now.words t side vertices.now) (module_across table.now.header table.now.words t side m.now) matrices.now)) }
{
    for k in 0..table.header().quiver.arrows.len() {
        if !comes_from_at(
            table, side, m, vertices, matrices, k as u8, row, next, spare,
        ) {
            return false;
        }
    }
    true
}
