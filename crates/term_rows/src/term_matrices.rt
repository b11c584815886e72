//! The printed matrices of the terms of a resolution in lent memory, row by row.
ghost use Rattle.std.specs.Prelude.{ℕ, ◌≡◌, ◌<◌, ◌≤◌, ◌+◌, ◌*◌, ◌^◌, suc, length, slice_index};
ghost use Rattle.linear_algebra.specs.Field.{Gf, order};
ghost use Rattle.linear_algebra.specs.BlockFamilies.{total};
ghost use Rattle.linear_algebra.specs.Rows.{rows_of};
ghost use Rattle.linear_algebra.specs.Typed.{as_mat};
ghost use Rattle.fp_linear.specs.Slices.{AreElements, IsWritten};
ghost use Rattle.quiver_paths.specs.Quiver.{vertex_count};
ghost use Rattle.path_algebra.specs.Rows.{path_at};
ghost use Rattle.alg_table.specs.TableView.{IsTable};
ghost use Rattle.module_types.specs.Algebras.{algebra_at};
ghost use Rattle.module_types.specs.Shapes.{IsModule};
ghost use Rattle.claim_conditions.specs.Terms.{vertices_at};
ghost use Rattle.term_rows.specs.SumDims.{AreTerms, AreVertices, IsRoomFor, sum_dim, covered_dim};
ghost use Rattle.term_rows.specs.RowSteps.{part_dim};
ghost use Rattle.term_rows.specs.TermCells.{HoldsAlong, FirstRows, term_sum, term_target, matrix_in};

use crate::clearing::clear;
use crate::sums::side_in_table;
use crate::targets::walk_in_target;
use alg_table::Table;
use module_types::{Module, Side, TermRows};
use seq::Seq;

/// The dimension at a vertex of the sum of the projective modules of a side at some vertices.
pub fn sum_dimension(table: &Table, side: Side, vertices: &Seq<u8>, w: u8) -> usize
    requires table { IsTable table.now.header table.now.words }
    requires vertices { AreVertices table.now.header vertices.now }
    requires vertex { w < vertex_count table.now.header.quiver }
    requires small { sum_dim table.now.words side vertices.now w < 2 ^ 32 }
    ensures { result ≡ sum_dim table.now.words side vertices.now w }
{
    let hand = side_in_table(side);
    let mut count = 0;
    for j in 0..vertices.len() {
        let places = table.words_at(hand, vertices[j], w);
        count += places.len();
    }
    count
}

/// The dimension at a vertex of what term `k` goes to.
pub fn target_dimension(table: &Table, a: &Module, terms: &Seq<TermRows>, k: usize, w: u8) -> usize
    requires table { IsTable table.now.header table.now.words }
    requires a { IsModule table.now.header.field (algebra_at a.now.side table.now.header).quiver a.now }
    requires terms { AreTerms table.now.words table.now.header a.now terms.now k }
    requires vertex { w < vertex_count table.now.header.quiver }
    requires small { covered_dim table.now.words table.now.header a.now terms.now k w < 2 ^ 32 }
    ensures { result ≡ covered_dim table.now.words table.now.header a.now terms.now k w }
{
    if k == 0 {
        return a.dims[w as usize] as usize;
    }
    let vertices = &terms[k - 1].vertices;
    sum_dimension(table, a.side, vertices, w)
}

/// Writes the numbers of a row, and zeros behind them.
fn hold(image: &Seq<u8>, row: &mut [u8])
    requires { length image.now ≤ length row.old }
    ensures held { (j : ℕ) → slice_index row.new j ≡ slice_index image.now j }
    ensures elements { (q : Gf) → AreElements q image.now → AreElements q row.new }
{
    clear(row);
    for c in 0..image.len() {
        row[c] = image[c];
    }
}

/// Writes the first `count` numbers of a row, from place `start` on.
fn copy_row(row: &[u8], count: usize, start: usize, into: &mut [u8])
    requires within { count ≤ length row.now }
    requires inside { start + count ≤ length into.old }
    ensures { IsWritten into.old into.new start count (slice_index row.now) }
{
    for c in 0..count {
        into[start + c] = row[c];
    }
}

/// Writes what a word makes of a row of what term `k` goes to, and zeros behind it.
fn write_word_row(
    table: &Table,
    a: &Module,
    terms: &Seq<TermRows>,
    k: usize,
    image: &Seq<u8>,
    word: u32,
    row: &mut [u8],
    next: &mut [u8],
    spare: &mut [u8],
)
    requires table { IsTable table.now.header table.now.words }
    requires a { IsModule table.now.header.field (algebra_at a.now.side table.now.header).quiver a.now }
    requires terms { AreTerms table.now.words table.now.header a.now terms.now k }
    requires word { word < length table.now.words }
    requires image { length image.now ≤ length row.old }
    requires image_elements { AreElements table.now.header.field image.now }
    requires room { IsRoomFor table.now.header (covered_dim table.now.words table.now.header a.now terms.now k) (length row.old) }
    requires lengths { length next.old ≡ length row.old }
    requires spare { length spare.old ≡ length table.now.words }
    ensures row { (t : IsTable table.now.header table.now.words)
        → HoldsAlong (term_target table.now.header table.now.words t a.now terms.now k) a.now.side (path_at table.now.words word).arrows (slice_index image.now) row.new }
    ensures elements { AreElements table.now.header.field row.new }
{
    hold(image, row);
    let path = table.word(word);
    walk_in_target(table, a, terms, k, &path.arrows, row, next, spare);
}

/// Writes the rows of generator `j` of term `k`, one for each word from its vertex to `w`, from row `at` on, where they stand in the matrix of the term
/// at `w`, with `columns` numbers each. It answers the row behind them.
fn write_generator(
    table: &Table,
    a: &Module,
    terms: &Seq<TermRows>,
    k: usize,
    w: u8,
    j: usize,
    columns: usize,
    at: usize,
    into: &mut [u8],
    row: &mut [u8],
    next: &mut [u8],
    spare: &mut [u8],
) -> usize
    requires table { IsTable table.now.header table.now.words }
    requires a { IsModule table.now.header.field (algebra_at a.now.side table.now.header).quiver a.now }
    requires terms { AreTerms table.now.words table.now.header a.now terms.now (suc k) }
    requires vertex { w < vertex_count table.now.header.quiver }
    requires generator { j < length (vertices_at terms.now k) }
    requires columns { columns ≡ covered_dim table.now.words table.now.header a.now terms.now k w }
    requires at { at ≡ total j (part_dim table.now.words a.now.side (vertices_at terms.now k) w) }
    requires into { length into.old ≡ sum_dim table.now.words a.now.side (vertices_at terms.now k) w * columns }
    requires few { sum_dim table.now.words a.now.side (vertices_at terms.now k) w < 2 ^ 32 }
    requires elements { AreElements table.now.header.field into.old }
    requires room { IsRoomFor table.now.header (covered_dim table.now.words table.now.header a.now terms.now k) (length row.old) }
    requires lengths { length next.old ≡ length row.old }
    requires spare { length spare.old ≡ length table.now.words }
    ensures next { result ≡ total (j + 1) (part_dim table.now.words a.now.side (vertices_at terms.now k) w) }
    ensures rows { (t : IsTable table.now.header table.now.words) → FirstRows (matrix_in table.now.header table.now.words t a.now terms.now k w) columns at into.old
        → FirstRows (matrix_in table.now.header table.now.words t a.now terms.now k w) columns result into.new }
    ensures elements { AreElements table.now.header.field into.new }
{
    let term = &terms[k];
    let image = &term.images[j];
    let words = table.words_at(side_in_table(a.side), term.vertices[j], w);
    for i in 0..words.len() {
        write_word_row(table, a, terms, k, image, words[i], row, next, spare);
        copy_row(row, columns, (at + i) * columns, into);
    }
    at + words.len()
}

/// Writes the matrix of term `k` at the vertex `w`: for each generator and each word from its vertex to `w` the row of what the generator goes to
/// times the word, with as many numbers as what the term goes to has dimensions at `w`. `row` and `next` have places for each row of what the term goes
/// to, `spare` one for each word; they are written over.
pub fn write_term_matrix(
    table: &Table,
    a: &Module,
    terms: &Seq<TermRows>,
    k: usize,
    w: u8,
    into: &mut [u8],
    row: &mut [u8],
    next: &mut [u8],
    spare: &mut [u8],
)
    requires table { IsTable table.now.header table.now.words }
    requires a { IsModule table.now.header.field (algebra_at a.now.side table.now.header).quiver a.now }
    requires terms { AreTerms table.now.words table.now.header a.now terms.now (suc k) }
    requires vertex { w < vertex_count table.now.header.quiver }
    requires into { length into.old ≡ sum_dim table.now.words a.now.side (vertices_at terms.now k) w * covered_dim table.now.words table.now.header a.now terms.now k w }
    requires few { sum_dim table.now.words a.now.side (vertices_at terms.now k) w < 2 ^ 32 }
    requires few_columns { covered_dim table.now.words table.now.header a.now terms.now k w < 2 ^ 32 }
    requires room { IsRoomFor table.now.header (covered_dim table.now.words table.now.header a.now terms.now k) (length row.old) }
    requires lengths { length next.old ≡ length row.old }
    requires spare { length spare.old ≡ length table.now.words }
    ensures matrix { (t : IsTable table.now.header table.now.words)
        → as_mat table.now.header.field ((term_sum table.now.header table.now.words t a.now terms.now k).dim w) ((term_target table.now.header table.now.words t a.now terms.now k).dim w)
        (rows_of ((term_sum table.now.header table.now.words t a.now terms.now k).dim w) ((term_target table.now.header table.now.words t a.now terms.now k).dim w) into.new)
        ≡ matrix_in table.now.header table.now.words t a.now terms.now k w }
    ensures elements { AreElements table.now.header.field into.new }
{
    clear(into);
    let columns = target_dimension(table, a, terms, k, w);
    let mut at = 0;
    for j in 0..terms[k].vertices.len() {
        at = write_generator(
            table, a, terms, k, w, j, columns, at, into, row, next, spare,
        );
    }
}
