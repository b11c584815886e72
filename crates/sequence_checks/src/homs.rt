//! Whether matrices into injective modules and a module beside them are a homomorphism.
ghost use Rattle.std.specs.Prelude.{ℕ, ◌≡◌, ◌<◌, ◌≤◌, ◌+◌, length, MatchBool};
ghost use Rattle.fp_linear.specs.Slices.{AreElements};
ghost use Rattle.quiver_paths.specs.Quiver.{arrow_count};
ghost use Rattle.alg_table.specs.TableView.{IsTable};
ghost use Rattle.representations.specs.Sum.{sum_rep};
ghost use Rattle.module_types.specs.Algebras.{algebra_at, other_side};
ghost use Rattle.module_types.specs.Readings.{dim_at, family_of, IsHom};
ghost use Rattle.module_types.specs.Shapes.{IsModule, AreMatrices};
ghost use Rattle.term_rows.specs.SumDims.{AreVertices, IsRoomFor, sum_dim};
ghost use Rattle.translate_checks.specs.Dots.{HoldsColumn};
ghost use Rattle.translate_checks.specs.Steps.{IsSquareAt, module_in, injectives_in};
ghost use Rattle.sequence_checks.specs.Maps.{IsShiftedColumn};

use alg_table::Table;
use fp_linear::Matrix;
use module_checks::clear;
use module_types::{Module, Side, source_at, target_at};
use seq::Seq;
use term_rows::sum_dimension;
use translate_checks::{column_agrees, write_arrow_row};

/// Writes column `j` of the matrix, from place `start` on, between zeros.
fn write_shifted_column(a: &Matrix, j: u32, start: usize, into: &mut [u8])
    requires column { j < a.now.col_count }
    requires inside { start + a.now.row_count ≤ length into.old }
    ensures column { IsShiftedColumn a.now j start a.now.row_count into.new }
    ensures elements { AreElements a.now.field into.new }
{
    clear(into);
    for i in 0..a.rows() {
        into[start + i as usize] = a.row(i)[j as usize];
    }
}

/// Writes column `j` of the matrix of an arrow on the injective modules of the side at these vertices, and then the module. `row` and `next` have 768
/// places, `spare` one for each word; the column stands in `next`.
fn write_around_column(
    table: &Table,
    side: Side,
    m: &Module,
    vertices: &Seq<u8>,
    k: u8,
    j: u32,
    row: &mut [u8],
    next: &mut [u8],
    spare: &mut [u8],
)
    requires table { IsTable table.now.header table.now.words }
    requires m { IsModule table.now.header.field (algebra_at side table.now.header).quiver m.now }
    requires vertices { AreVertices table.now.header vertices.now }
    requires small { IsRoomFor table.now.header (sum_dim table.now.words (other_side side) vertices.now) 512 }
    requires arrow { k < arrow_count table.now.header.quiver }
    requires column { j < sum_dim table.now.words (other_side side) vertices.now ((algebra_at side table.now.header).quiver.target k)
        + dim_at (algebra_at side table.now.header).quiver m.now.dims ((algebra_at side table.now.header).quiver.target k) }
    requires row { length row.old ≡ 768 }
    requires next { length next.old ≡ 768 }
    requires spare { length spare.old ≡ length table.now.words }
    ensures column { (t : IsTable table.now.header table.now.words)
        → HoldsColumn ((sum_rep (injectives_in table.now.header table.now.words t side vertices.now) (module_in table.now.header table.now.words t side m.now)).mat k) j next.new }
    ensures elements { AreElements table.now.header.field next.new }
{
    let header = table.header();
    let target = target_at(header, side, k);
    let source = source_at(header, side, k);
    let first = sum_dimension(table, side.other(), vertices, target);
    if (j as usize) < first {
        write_arrow_row(
            table,
            side.other(),
            vertices,
            k,
            j as usize,
            row,
            next,
            spare,
        );
        return;
    }
    let start = sum_dimension(table, side.other(), vertices, source);
    write_shifted_column(&m.matrices[k as usize], j - first as u32, start, next);
}

/// Whether the square of the matrices at arrow `k` commutes.
fn goes_around_at(
    table: &Table,
    side: Side,
    e: &Module,
    m: &Module,
    vertices: &Seq<u8>,
    matrices: &Seq<Matrix>,
    k: u8,
    row: &mut [u8],
    next: &mut [u8],
    spare: &mut [u8],
) -> bool
    requires table { IsTable table.now.header table.now.words }
    requires e { IsModule table.now.header.field (algebra_at side table.now.header).quiver e.now }
    requires m { IsModule table.now.header.field (algebra_at side table.now.header).quiver m.now }
    requires vertices { AreVertices table.now.header vertices.now }
    requires small { IsRoomFor table.now.header (sum_dim table.now.words (other_side side) vertices.now) 512 }
    requires matrices { AreMatrices table.now.header.field (algebra_at side table.now.header).quiver.vertices (dim_at (algebra_at side table.now.header).quiver e.now.dims)
        (λ w. sum_dim table.now.words (other_side side) vertices.now w + dim_at (algebra_at side table.now.header).quiver m.now.dims w) matrices.now }
    requires arrow { k < arrow_count table.now.header.quiver }
    requires row { length row.old ≡ 768 }
    requires next { length next.old ≡ 768 }
    requires spare { length spare.old ≡ length table.now.words }
    ensures { (t : IsTable table.now.header table.now.words) → MatchBool result
        (IsSquareAt (module_in table.now.header table.now.words t side e.now)
        (sum_rep (injectives_in table.now.header table.now.words t side vertices.now) (module_in table.now.header table.now.words t side m.now)) matrices.now k)
        (¬ IsSquareAt (module_in table.now.header table.now.words t side e.now)
        (sum_rep (injectives_in table.now.header table.now.words t side vertices.now) (module_in table.now.header table.now.words t side m.now)) matrices.now k) }
{
    let header = table.header();
    let target = &matrices[target_at(header, side, k) as usize];
    let source = &matrices[source_at(header, side, k) as usize];
    let along = &e.matrices[k as usize];
    for j in 0..target.cols() {
        write_around_column(table, side, m, vertices, k, j, row, next, spare);
        if !column_agrees(header.field, along, target, source, j, next) {
            return false;
        }
    }
    true
}

/// Whether the matrices, one at each vertex, are a homomorphism from the module `e` to the injective modules of the side at these vertices, and then the
/// module `m`. `row` and `next` have 768 places, `spare` one for each word; they are written over.
pub fn is_hom_around(
    table: &Table,
    side: Side,
    e: &Module,
    m: &Module,
    vertices: &Seq<u8>,
    matrices: &Seq<Matrix>,
    row: &mut [u8],
    next: &mut [u8],
    spare: &mut [u8],
) -> bool
    requires table { IsTable table.now.header table.now.words }
    requires e { IsModule table.now.header.field (algebra_at side table.now.header).quiver e.now }
    requires m { IsModule table.now.header.field (algebra_at side table.now.header).quiver m.now }
    requires vertices { AreVertices table.now.header vertices.now }
    requires small { IsRoomFor table.now.header (sum_dim table.now.words (other_side side) vertices.now) 512 }
    requires matrices { AreMatrices table.now.header.field (algebra_at side table.now.header).quiver.vertices (dim_at (algebra_at side table.now.header).quiver e.now.dims)
        (λ w. sum_dim table.now.words (other_side side) vertices.now w + dim_at (algebra_at side table.now.header).quiver m.now.dims w) matrices.now }
    requires row { length row.old ≡ 768 }
    requires next { length next.old ≡ 768 }
    requires spare { length spare.old ≡ length table.now.words }
    ensures { (t : IsTable table.now.header table.now.words) → MatchBool result
        (IsHom (module_in table.now.header table.now.words t side e.now)
        (sum_rep (injectives_in table.now.header table.now.words t side vertices.now) (module_in table.now.header table.now.words t side m.now))
        (family_of (module_in table.now.header table.now.words t side e.now)
        (sum_rep (injectives_in table.now.header table.now.words t side vertices.now) (module_in table.now.header table.now.words t side m.now)) matrices.now))
        (¬ IsHom (module_in table.now.header table.now.words t side e.now)
        (sum_rep (injectives_in table.now.header table.now.words t side vertices.now) (module_in table.now.header table.now.words t side m.now))
        (family_of (module_in table.now.header table.now.words t side e.now)
        (sum_rep (injectives_in table.now.header table.now.words t side vertices.now) (module_in table.now.header table.now.words t side m.now)) matrices.now)) }
{
    for k in 0..table.header().quiver.arrows.len() {
        if !goes_around_at(
            table, side, e, m, vertices, matrices, k as u8, row, next, spare,
        ) {
            return false;
        }
    }
    true
}
