//! What a term of a resolution covers, by bases in reduced row form in lent memory.
ghost use Rattle.std.specs.Prelude.{ℕ, ◌≡◌, ◌<◌, ◌≤◌, ◌+◌, ◌*◌, suc, zero, length, slice_index};
ghost use Rattle.linear_algebra.specs.Matrix.{one};
ghost use Rattle.fp_linear.specs.Slices.{AreElements};
ghost use Rattle.quiver_paths.specs.Quiver.{vertex_count};
ghost use Rattle.alg_table.specs.TableView.{IsTable};
ghost use Rattle.module_types.specs.Algebras.{algebra_at};
ghost use Rattle.module_types.specs.Readings.{read};
ghost use Rattle.module_types.specs.Shapes.{IsModule};
ghost use Rattle.term_rows.specs.SumDims.{AreTerms};
ghost use Rattle.resolution_checks.specs.Room.{AreSmall};
ghost use Rattle.resolution_checks.specs.Steps.{words_of_side};
ghost use Rattle.cover_checks.specs.Bases.{HoldsBasis, same_place};
ghost use Rattle.cover_checks.specs.Covers.{covered_size, covered_rows, covered_pivot};

use crate::copying::put_unit;
use crate::kernels::kernel_of;
use crate::places::write_places;
use alg_table::Table;
use fp_linear::Field;
use module_checks::clear;
use module_types::{Module, TermRows};
use seq::Seq;
use term_rows::{sum_dimension, target_dimension, write_term_matrix};

/// Writes the unit matrix with `n` rows, and their pivots.
fn write_whole(field: Field, n: u32, basis: &mut [u8], places: &mut [u32])
    requires small { n ≤ 512 }
    requires room { 262144 ≤ length basis.old }
    requires places { 512 ≤ length places.old }
    ensures elements { AreElements field basis.new }
    ensures holds { HoldsBasis (one field n) same_place basis.new places.new }
{
    clear(basis);
    for i in 0..n {
        put_unit(basis, i as usize * n as usize, n, i);
    }
    write_places(n as usize, n, basis, places);
}

/// Writes the basis of the kernel of the matrix of term `k` at the vertex `w`, and its pivots, and answers its size.
fn write_kernel(
    table: &Table,
    a: &Module,
    terms: &Seq<TermRows>,
    k: u32,
    w: u8,
    matrix: &mut [u8],
    wide: &mut [u8],
    basis: &mut [u8],
    places: &mut [u32],
    pivots: &mut [u32],
    row: &mut [u8],
    next: &mut [u8],
    spare: &mut [u8],
) -> u32
    requires table { IsTable table.now.header table.now.words }
    requires a { IsModule table.now.header.field (algebra_at a.now.side table.now.header).quiver a.now }
    requires terms { AreTerms table.now.words table.now.header a.now terms.now (suc k) }
    requires small { AreSmall table.now.words table.now.header a.now terms.now (suc k) }
    requires vertex { w < vertex_count table.now.header.quiver }
    requires matrix { length matrix.old ≡ 262144 }
    requires wide { length wide.old ≡ 524288 }
    requires basis { 262144 ≤ length basis.old }
    requires places { 512 ≤ length places.old }
    requires pivots { 512 ≤ length pivots.old }
    requires row { length row.old ≡ 512 }
    requires next { length next.old ≡ 512 }
    requires spare { length spare.old ≡ length table.now.words }
    ensures few { result ≤ 512 }
    ensures elements { AreElements table.now.header.field basis.new }
    ensures size { (t : IsTable table.now.header table.now.words) → result ≡ covered_size (words_of_side table.now.header table.now.words t a.now terms.now) (read table.now.header a.now) terms.now (suc k) w }
    ensures holds { (t : IsTable table.now.header table.now.words) → HoldsBasis (covered_rows (words_of_side table.now.header table.now.words t a.now terms.now) (read table.now.header a.now) terms.now (suc k) w)
        (covered_pivot (words_of_side table.now.header table.now.words t a.now terms.now) (read table.now.header a.now) terms.now (suc k) w) basis.new places.new }
{
    let field = table.header().field;
    let rows = sum_dimension(table, a.side, &terms[k as usize].vertices, w);
    let columns = target_dimension(table, a, terms, k as usize, w);
    let m = &mut matrix[..rows * columns];
    write_term_matrix(table, a, terms, k as usize, w, m, row, next, spare);
    let z = &mut wide[..rows * (columns + rows)];
    let size = kernel_of(field, rows as u32, columns as u32, m, z, pivots, basis);
    write_places(size as usize, rows as u32, basis, places);
    size
}

/// Writes the basis in reduced row form of what term `k` covers at the vertex `w`, and its pivots, and answers its size.
pub fn write_covered(
    table: &Table,
    a: &Module,
    terms: &Seq<TermRows>,
    k: u32,
    w: u8,
    matrix: &mut [u8],
    wide: &mut [u8],
    basis: &mut [u8],
    places: &mut [u32],
    pivots: &mut [u32],
    row: &mut [u8],
    next: &mut [u8],
    spare: &mut [u8],
) -> u32
    requires table { IsTable table.now.header table.now.words }
    requires a { IsModule table.now.header.field (algebra_at a.now.side table.now.header).quiver a.now }
    requires terms { AreTerms table.now.words table.now.header a.now terms.now k }
    requires small { AreSmall table.now.words table.now.header a.now terms.now k }
    requires vertex { w < vertex_count table.now.header.quiver }
    requires matrix { length matrix.old ≡ 262144 }
    requires wide { length wide.old ≡ 524288 }
    requires basis { 262144 ≤ length basis.old }
    requires places { 512 ≤ length places.old }
    requires pivots { 512 ≤ length pivots.old }
    requires row { length row.old ≡ 512 }
    requires next { length next.old ≡ 512 }
    requires spare { length spare.old ≡ length table.now.words }
    ensures few { result ≤ 512 }
    ensures elements { AreElements table.now.header.field basis.new }
    ensures size { (t : IsTable table.now.header table.now.words) → result ≡ covered_size (words_of_side table.now.header table.now.words t a.now terms.now) (read table.now.header a.now) terms.now k w }
    ensures holds { (t : IsTable table.now.header table.now.words) → HoldsBasis (covered_rows (words_of_side table.now.header table.now.words t a.now terms.now) (read table.now.header a.now) terms.now k w)
        (covered_pivot (words_of_side table.now.header table.now.words t a.now terms.now) (read table.now.header a.now) terms.now k w) basis.new places.new }
{
    if k == 0 {
        let n = target_dimension(table, a, terms, 0, w) as u32;
        write_whole(table.header().field, n, basis, places);
        return n;
    }
    write_kernel(
        table,
        a,
        terms,
        k - 1,
        w,
        matrix,
        wide,
        basis,
        places,
        pivots,
        row,
        next,
        spare,
    )
}
