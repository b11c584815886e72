//! The matrices of the pullback of a presentation and a functional in lent memory, transposed, row by row.
ghost use Rattle.std.specs.Prelude.{ℕ, ◌≡◌, ◌<◌, ◌≤◌, ◌+◌, ◌*◌, length, slice_index};
ghost use Rattle.linear_algebra.specs.BlockFamilies.{total};
ghost use Rattle.linear_algebra.specs.Field.{neg};
ghost use Rattle.linear_algebra.specs.Rows.{IsRow};
ghost use Rattle.fp_linear.specs.Slices.{AreElements, IsWritten};
ghost use Rattle.quiver_paths.specs.Quiver.{arrow_count, vertex_count};
ghost use Rattle.path_algebra.specs.Rows.{path_at};
ghost use Rattle.alg_table.specs.TableView.{IsTable};
ghost use Rattle.bound_algebra.specs.TypedPaths.{quiver_of};
ghost use Rattle.projectives.specs.CanonicalCover.{vertex_in};
ghost use Rattle.representations.specs.Dual.{dual};
ghost use Rattle.module_types.specs.Algebras.{algebra_at, other_side};
ghost use Rattle.module_types.specs.Readings.{dim_at, rep_of};
ghost use Rattle.module_types.specs.Shapes.{IsModule};
ghost use Rattle.module_checks.specs.RowWalks.{IsArrowsMoved};
ghost use Rattle.term_rows.specs.SumDims.{AreVertices, sum_dim};
ghost use Rattle.term_rows.specs.RowSteps.{IsStep, part_dim};
ghost use Rattle.term_rows.specs.TermCells.{FirstRows};
ghost use Rattle.translate_checks.specs.Across.{IsPresentation};
ghost use Rattle.sequence_checks.specs.Pullbacks.{pulled_back, HoldsPart, HoldsPartAlong, IsPulledRow};

use alg_table::Table;
use fp_linear::Field;
use module_checks::clear;
use module_types::{Module, Side, TermRows};
use path_algebra::Header;
use seq::Seq;
use term_rows::sum_dimension;
use translate_checks::{arrow_at, copy_part, row_dot, side_in_table, write_word_row};

/// Writes what the arrow makes of a row of the dual of a module of the side, and zeros behind it.
fn step_in_dual(header: &Header, side: Side, m: &Module, arrow: u8, row: &[u8], next: &mut [u8])
    requires m { IsModule header.now.field (algebra_at side header.now).quiver m.now }
    requires arrow { arrow < arrow_count header.now.quiver }
    requires row { length row.now ≡ 512 }
    requires next { length next.old ≡ 512 }
    requires row_elements { AreElements header.now.field row.now }
    ensures step { IsStep (dual (rep_of header.now.field (algebra_at side header.now).quiver m.now)) arrow row.now next.new }
    ensures elements { AreElements header.now.field next.new }
{
    clear(next);
    let matrix = &m.matrices[arrow as usize];
    for j in 0..matrix.rows() {
        next[j as usize] = row_dot(header.field, matrix, j, row, 0);
    }
}

/// A row of the dual of a module of the side goes along the arrows of a path, as the other side takes them. `next` is written over.
fn walk_in_dual(
    header: &Header,
    side: Side,
    m: &Module,
    arrows: &Seq<u8>,
    row: &mut [u8],
    next: &mut [u8],
)
    requires m { IsModule header.now.field (algebra_at side header.now).quiver m.now }
    requires arrows { (n : ℕ) → n < length arrows.now → slice_index arrows.now n < arrow_count header.now.quiver }
    requires row { length row.old ≡ 512 }
    requires next { length next.old ≡ 512 }
    requires elements { AreElements header.now.field row.old }
    ensures walked { IsArrowsMoved (dual (rep_of header.now.field (algebra_at side header.now).quiver m.now)) (other_side side) arrows.now row.old row.new }
    ensures elements { AreElements header.now.field row.new }
{
    for n in 0..arrows.len() {
        let arrow = arrow_at(side.other(), arrows, n);
        step_in_dual(header, side, m, arrow, row, next);
        row.copy_from_slice(next);
    }
}

/// Where part `j` of a functional begins.
fn part_start(m: &Module, vertices: &Seq<u8>, j: usize) -> usize
    requires dims { (v : ℕ) → slice_index m.now.dims v ≤ 256 }
    requires vertices { (c : ℕ) → c < length vertices.now → slice_index vertices.now c < length m.now.dims }
    requires part { j ≤ length vertices.now }
    requires few { length vertices.now < 4294967296 }
    ensures { result ≡ total j (λ c. slice_index m.now.dims (vertex_in vertices.now c)) }
{
    let mut start = 0;
    for c in 0..j {
        start += m.dims[vertices[c] as usize] as usize;
    }
    start
}

/// Writes part `j` of the functional, and zeros behind it.
fn write_part(
    table: &Table,
    side: Side,
    m: &Module,
    cover: &Seq<u8>,
    functional: &Seq<u8>,
    j: usize,
    row: &mut [u8],
)
    requires table { IsTable table.now.header table.now.words }
    requires m { IsModule table.now.header.field (algebra_at side table.now.header).quiver m.now }
    requires cover { AreVertices table.now.header cover.now }
    requires few { length cover.now < 4294967296 }
    requires functional { IsRow table.now.header.field (total (length cover.now) (λ c. dim_at (algebra_at side table.now.header).quiver m.now.dims (vertex_in cover.now c))) functional.now }
    requires part { j < length cover.now }
    requires row { length row.old ≡ 512 }
    ensures part { (t : IsTable table.now.header table.now.words) → HoldsPart table.now.header table.now.words t side m.now cover.now functional.now j row.new }
    ensures elements { AreElements table.now.header.field row.new }
{
    clear(row);
    let start = part_start(m, cover, j);
    let count = m.dims[cover[j] as usize] as usize;
    copy_part(functional, start, count, 0, row);
}

/// Writes what a word makes of part `j` of the functional, and zeros behind it.
fn write_part_along(
    table: &Table,
    side: Side,
    m: &Module,
    cover: &Seq<u8>,
    functional: &Seq<u8>,
    j: usize,
    word: u32,
    row: &mut [u8],
    next: &mut [u8],
)
    requires table { IsTable table.now.header table.now.words }
    requires m { IsModule table.now.header.field (algebra_at side table.now.header).quiver m.now }
    requires cover { AreVertices table.now.header cover.now }
    requires few { length cover.now < 4294967296 }
    requires functional { IsRow table.now.header.field (total (length cover.now) (λ c. dim_at (algebra_at side table.now.header).quiver m.now.dims (vertex_in cover.now c))) functional.now }
    requires part { j < length cover.now }
    requires word { word < length table.now.words }
    requires row { length row.old ≡ 512 }
    requires next { length next.old ≡ 512 }
    ensures row { (t : IsTable table.now.header table.now.words)
        → HoldsPartAlong table.now.header table.now.words t side m.now cover.now functional.now j (path_at table.now.words word).arrows row.new }
    ensures elements { AreElements table.now.header.field row.new }
{
    write_part(table, side, m, cover, functional, j, row);
    let path = table.word(word);
    walk_in_dual(table.header(), side, m, &path.arrows, row, next);
}

/// Copies the negatives of the first `count` numbers of a row to the places from `start` on.
fn copy_negatives(field: Field, row: &[u8], count: usize, start: usize, into: &mut [u8])
    requires elements { AreElements field row.now }
    requires within { count ≤ length row.now }
    requires inside { start + count ≤ length into.old }
    ensures { IsWritten into.old into.new start count (λ c. neg field (slice_index row.now c)) }
{
    for c in 0..count {
        into[start + c] = field.neg(row[c]);
    }
}

/// Writes the row of generator `j` and a word of the other side from its vertex to `w` in the transposed pullback to `line`: `a` numbers of the transposed
/// map, and then `b` of −θ.
fn write_pulled_row(
    table: &Table,
    side: Side,
    m: &Module,
    cover: &Seq<u8>,
    syzygy: &TermRows,
    functional: &Seq<u8>,
    j: usize,
    word: u32,
    a: usize,
    b: usize,
    line: &mut [u8],
    row: &mut [u8],
    next: &mut [u8],
    spare: &mut [u8],
)
    requires table { IsTable table.now.header table.now.words }
    requires presentation { IsPresentation table.now.words table.now.header side cover.now syzygy.now }
    requires m { IsModule table.now.header.field (algebra_at side table.now.header).quiver m.now }
    requires few { length cover.now < 4294967296 }
    requires functional { IsRow table.now.header.field (total (length cover.now) (λ c. dim_at (algebra_at side table.now.header).quiver m.now.dims (vertex_in cover.now c))) functional.now }
    requires part { j < length cover.now }
    requires word { word < length table.now.words }
    requires first { a ≤ 512 }
    requires second { b ≤ 256 }
    requires line { length line.old ≡ 768 }
    requires row { length row.old ≡ 512 }
    requires next { length next.old ≡ 512 }
    requires spare { length spare.old ≡ length table.now.words }
    ensures row { (t : IsTable table.now.header table.now.words)
        → IsPulledRow table.now.header table.now.words t side m.now cover.now functional.now syzygy.now j (path_at table.now.words word).arrows a b line.new }
    ensures elements { AreElements table.now.header.field line.new }
{
    clear(line);
    write_word_row(table, side, cover, syzygy, j, word, row, next, spare);
    copy_part(row, 0, a, 0, line);
    write_part_along(table, side, m, cover, functional, j, word, row, next);
    copy_negatives(table.header().field, row, b, a, line);
}

/// Writes the rows of generator `j` in the transposed pullback at `w`, one for each word of the other side from its vertex to `w`, from row `at` on, with
/// `a` and then `b` numbers each. It answers the row behind them.
fn write_pulled_generator(
    table: &Table,
    side: Side,
    m: &Module,
    cover: &Seq<u8>,
    syzygy: &TermRows,
    functional: &Seq<u8>,
    w: u8,
    j: usize,
    a: usize,
    b: usize,
    at: usize,
    into: &mut [u8],
    line: &mut [u8],
    row: &mut [u8],
    next: &mut [u8],
    spare: &mut [u8],
) -> usize
    requires table { IsTable table.now.header table.now.words }
    requires presentation { IsPresentation table.now.words table.now.header side cover.now syzygy.now }
    requires m { IsModule table.now.header.field (algebra_at side table.now.header).quiver m.now }
    requires few { length cover.now < 4294967296 }
    requires functional { IsRow table.now.header.field (total (length cover.now) (λ c. dim_at (algebra_at side table.now.header).quiver m.now.dims (vertex_in cover.now c))) functional.now }
    requires part { j < length cover.now }
    requires vertex { w < vertex_count table.now.header.quiver }
    requires first { a ≡ sum_dim table.now.words (other_side side) syzygy.now.vertices w }
    requires second { b ≡ dim_at (algebra_at side table.now.header).quiver m.now.dims w }
    requires at { at ≡ total j (part_dim table.now.words (other_side side) cover.now w) }
    requires into { length into.old ≡ 393216 }
    requires line { length line.old ≡ 768 }
    requires row { length row.old ≡ 512 }
    requires next { length next.old ≡ 512 }
    requires spare { length spare.old ≡ length table.now.words }
    requires elements { AreElements table.now.header.field into.old }
    ensures next { result ≡ total (j + 1) (part_dim table.now.words (other_side side) cover.now w) }
    ensures rows { (t : IsTable table.now.header table.now.words)
        → FirstRows (pulled_back table.now.header table.now.words t side m.now cover.now functional.now syzygy.now w) (a + b) at into.old
        → FirstRows (pulled_back table.now.header table.now.words t side m.now cover.now functional.now syzygy.now w) (a + b) result into.new }
    ensures elements { AreElements table.now.header.field into.new }
{
    let words = table.words_at(side_in_table(side.other()), cover[j], w);
    let width = a + b;
    for i in 0..words.len() {
        write_pulled_row(
            table, side, m, cover, syzygy, functional, j, words[i], a, b, line, row, next, spare,
        );
        copy_part(line, 0, width, (at + i) * width, into);
    }
    at + words.len()
}

/// Writes the transposed matrix at the vertex `w` of the pullback of νd and θ: a row for each place of the injective modules of term 0, with the numbers
/// of νd, and then those of −θ. `into` has 393,216 places, `line` 768, `row` and `next` 512, `spare` one for each word; they are written over.
pub fn write_pullback(
    table: &Table,
    side: Side,
    m: &Module,
    cover: &Seq<u8>,
    syzygy: &TermRows,
    functional: &Seq<u8>,
    w: u8,
    into: &mut [u8],
    line: &mut [u8],
    row: &mut [u8],
    next: &mut [u8],
    spare: &mut [u8],
)
    requires table { IsTable table.now.header table.now.words }
    requires presentation { IsPresentation table.now.words table.now.header side cover.now syzygy.now }
    requires m { IsModule table.now.header.field (algebra_at side table.now.header).quiver m.now }
    requires few { length cover.now < 4294967296 }
    requires functional { IsRow table.now.header.field (total (length cover.now) (λ c. dim_at (algebra_at side table.now.header).quiver m.now.dims (vertex_in cover.now c))) functional.now }
    requires vertex { w < vertex_count table.now.header.quiver }
    requires into { length into.old ≡ 393216 }
    requires line { length line.old ≡ 768 }
    requires row { length row.old ≡ 512 }
    requires next { length next.old ≡ 512 }
    requires spare { length spare.old ≡ length table.now.words }
    ensures matrix { (t : IsTable table.now.header table.now.words)
        → FirstRows (pulled_back table.now.header table.now.words t side m.now cover.now functional.now syzygy.now w)
        (sum_dim table.now.words (other_side side) syzygy.now.vertices w + dim_at (algebra_at side table.now.header).quiver m.now.dims w)
        (sum_dim table.now.words (other_side side) cover.now w) into.new }
    ensures elements { AreElements table.now.header.field into.new }
{
    clear(into);
    let a = sum_dimension(table, side.other(), &syzygy.vertices, w);
    let b = m.dims[w as usize] as usize;
    let mut at = 0;
    for j in 0..cover.len() {
        at = write_pulled_generator(
            table, side, m, cover, syzygy, functional, w, j, a, b, at, into, line, row, next, spare,
        );
    }
}
