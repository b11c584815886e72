//! The matrices of transposed maps in lent memory, row by row.
ghost use Rattle.std.specs.Prelude.{ℕ, ◌≡◌, ◌<◌, ◌≤◌, ◌+◌, ◌*◌, length, slice_index};
ghost use Rattle.linear_algebra.specs.BlockFamilies.{total};
ghost use Rattle.fp_linear.specs.Slices.{AreElements, IsWritten};
ghost use Rattle.quiver_paths.specs.Quiver.{vertex_count};
ghost use Rattle.path_algebra.specs.Rows.{path_at};
ghost use Rattle.alg_table.specs.TableView.{IsTable};
ghost use Rattle.module_types.specs.Algebras.{other_side};
ghost use Rattle.term_rows.specs.SumDims.{AreVertices, sum_dim};
ghost use Rattle.term_rows.specs.RowSteps.{part_dim};
ghost use Rattle.term_rows.specs.TermCells.{FirstRows};
ghost use Rattle.translate_checks.specs.Across.{IsPresentation, HoldsTransposedRow, HoldsWordRow, transposed_in};

use crate::rows::{side_in_table, walk_in_sum};
use alg_table::Table;
use module_checks::clear;
use module_types::{Side, TermRows};
use seq::Seq;
use term_rows::sum_dimension;

/// Where component `j` begins in a row at `w` of the sum of the projective modules of a side at these vertices.
fn component_start(table: &Table, side: Side, vertices: &Seq<u8>, j: usize, w: u8) -> usize
    requires table { IsTable table.now.header table.now.words }
    requires vertices { AreVertices table.now.header vertices.now }
    requires component { j ≤ length vertices.now }
    requires vertex { w < vertex_count table.now.header.quiver }
    requires small { sum_dim table.now.words side vertices.now w < 4294967296 }
    ensures { result ≡ total j (part_dim table.now.words side vertices.now w) }
{
    let hand = side_in_table(side);
    let mut count = 0;
    for c in 0..j {
        let places = table.words_at(hand, vertices[c], w);
        count += places.len();
    }
    count
}

/// Copies `count` numbers of a row, from place `from` on, to the places from `start` on.
pub fn copy_part(row: &[u8], from: usize, count: usize, start: usize, into: &mut [u8])
    requires within { from + count ≤ length row.now }
    requires inside { start + count ≤ length into.old }
    ensures { IsWritten into.old into.new start count (λ c. slice_index row.now (from + c)) }
{
    for c in 0..count {
        into[start + c] = row[from + c];
    }
}

/// Writes the row of generator `j` of term 0 under the transposed map, and zeros behind it: component `i` has the numbers that component `j` of the
/// printed row of generator `i` has.
fn write_transposed_row(
    table: &Table,
    side: Side,
    cover: &Seq<u8>,
    syzygy: &TermRows,
    j: usize,
    row: &mut [u8],
)
    requires table { IsTable table.now.header table.now.words }
    requires presentation { IsPresentation table.now.words table.now.header side cover.now syzygy.now }
    requires generator { j < length cover.now }
    requires row { length row.old ≡ 512 }
    ensures row { (t : IsTable table.now.header table.now.words) → HoldsTransposedRow table.now.header table.now.words t side cover.now syzygy.now j row.new }
    ensures elements { AreElements table.now.header.field row.new }
{
    clear(row);
    let hand = side_in_table(side.other());
    let mut to = 0;
    for i in 0..syzygy.vertices.len() {
        let vertex = syzygy.vertices[i];
        let places = table.words_at(hand, vertex, cover[j]);
        let from = component_start(table, side, cover, j, vertex);
        copy_part(&syzygy.images[i], from, places.len(), to, row);
        to += places.len();
    }
}

/// Writes what a word of the other side makes of the row of generator `j` under the transposed map, and zeros behind it.
pub fn write_word_row(
    table: &Table,
    side: Side,
    cover: &Seq<u8>,
    syzygy: &TermRows,
    j: usize,
    word: u32,
    row: &mut [u8],
    next: &mut [u8],
    spare: &mut [u8],
)
    requires table { IsTable table.now.header table.now.words }
    requires presentation { IsPresentation table.now.words table.now.header side cover.now syzygy.now }
    requires generator { j < length cover.now }
    requires word { word < length table.now.words }
    requires row { length row.old ≡ 512 }
    requires next { length next.old ≡ 512 }
    requires spare { length spare.old ≡ length table.now.words }
    ensures row { (t : IsTable table.now.header table.now.words)
        → HoldsWordRow table.now.header table.now.words t side cover.now syzygy.now j (path_at table.now.words word).arrows row.new }
    ensures elements { AreElements table.now.header.field row.new }
{
    write_transposed_row(table, side, cover, syzygy, j, row);
    let path = table.word(word);
    walk_in_sum(
        table,
        side.other(),
        &syzygy.vertices,
        &path.arrows,
        row,
        next,
        spare,
    );
}

/// Writes the rows of generator `j`, one for each word of the other side from its vertex to `w`, from row `at` on, where they stand in the transposed
/// matrix at `w`, with `columns` numbers each. It answers the row behind them.
fn write_generator(
    table: &Table,
    side: Side,
    cover: &Seq<u8>,
    syzygy: &TermRows,
    w: u8,
    j: usize,
    columns: usize,
    at: usize,
    into: &mut [u8],
    row: &mut [u8],
    next: &mut [u8],
    spare: &mut [u8],
) -> usize
    requires table { IsTable table.now.header table.now.words }
    requires presentation { IsPresentation table.now.words table.now.header side cover.now syzygy.now }
    requires generator { j < length cover.now }
    requires vertex { w < vertex_count table.now.header.quiver }
    requires columns { columns ≡ sum_dim table.now.words (other_side side) syzygy.now.vertices w }
    requires at { at ≡ total j (part_dim table.now.words (other_side side) cover.now w) }
    requires into { length into.old ≡ 262144 }
    requires row { length row.old ≡ 512 }
    requires next { length next.old ≡ 512 }
    requires spare { length spare.old ≡ length table.now.words }
    requires elements { AreElements table.now.header.field into.old }
    ensures next { result ≡ total (j + 1) (part_dim table.now.words (other_side side) cover.now w) }
    ensures rows { (t : IsTable table.now.header table.now.words) → FirstRows (transposed_in table.now.header table.now.words t side cover.now syzygy.now w) columns at into.old
        → FirstRows (transposed_in table.now.header table.now.words t side cover.now syzygy.now w) columns result into.new }
    ensures elements { AreElements table.now.header.field into.new }
{
    let words = table.words_at(side_in_table(side.other()), cover[j], w);
    for i in 0..words.len() {
        write_word_row(table, side, cover, syzygy, j, words[i], row, next, spare);
        copy_part(row, 0, columns, (at + i) * columns, into);
    }
    at + words.len()
}

/// Writes the matrix at the vertex `w` of the transposed map of a presentation: for each generator of term 0 and each word of the other side from its
/// vertex to `w` the row of the transposed map times the word, with as many numbers as the transposed term 1 has dimensions at `w`. The Nakayama functor
/// has at `w` the transposed matrix. `row` and `next` have 512 places, `spare` one for each word; they are written over, and so are the numbers of `into`,
/// of which there are 262,144, behind the matrix.
pub fn write_transposed(
    table: &Table,
    side: Side,
    cover: &Seq<u8>,
    syzygy: &TermRows,
    w: u8,
    into: &mut [u8],
    row: &mut [u8],
    next: &mut [u8],
    spare: &mut [u8],
)
    requires table { IsTable table.now.header table.now.words }
    requires presentation { IsPresentation table.now.words table.now.header side cover.now syzygy.now }
    requires vertex { w < vertex_count table.now.header.quiver }
    requires into { length into.old ≡ 262144 }
    requires row { length row.old ≡ 512 }
    requires next { length next.old ≡ 512 }
    requires spare { length spare.old ≡ length table.now.words }
    ensures matrix { (t : IsTable table.now.header table.now.words)
        → FirstRows (transposed_in table.now.header table.now.words t side cover.now syzygy.now w) (sum_dim table.now.words (other_side side) syzygy.now.vertices w)
        (sum_dim table.now.words (other_side side) cover.now w) into.new }
    ensures elements { AreElements table.now.header.field into.new }
{
    clear(into);
    let columns = sum_dimension(table, side.other(), &syzygy.vertices, w);
    let mut at = 0;
    for j in 0..cover.len() {
        at = write_generator(
            table, side, cover, syzygy, w, j, columns, at, into, row, next, spare,
        );
    }
}
