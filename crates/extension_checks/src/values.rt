//! The values of homomorphisms from a term of a resolution to a module behind the map from the next term, one coordinate after another.
ghost use Rattle.std.specs.Prelude.{ℕ, ◌≡◌, ◌<◌, ◌≤◌, ◌+◌, length, slice_index};
ghost use Rattle.linear_algebra.specs.Field.{Gf, order};
ghost use Rattle.linear_algebra.specs.BlockFamilies.{total};
ghost use Rattle.fp_linear.specs.Slices.{AreElements};
ghost use Rattle.quiver_paths.specs.Quiver.{vertex_count};
ghost use Rattle.alg_table.specs.TableView.{IsTable};
ghost use Rattle.module_types.specs.Algebras.{algebra_at};
ghost use Rattle.module_types.specs.Shapes.{IsModule};
ghost use Rattle.term_rows.specs.SumDims.{side_in_table, sum_dim, AreVertices};
ghost use Rattle.term_rows.specs.RowSteps.{part_dim};
ghost use Rattle.extension_checks.specs.Following.{IsUnitRow, IsWordAdded, HoldsWords, HoldsValue, IsTermOver, value_dims};

use crate::walking::walk_in_module;
use alg_table::{Side as TableSide, Table};
use fp_linear::add_multiple;
use module_checks::clear;
use module_types::{Module, Side, TermRows};
use seq::Seq;

/// Writes the unit row `c`, and zeros behind it.
fn put_unit(c: usize, row: &mut [u8])
    requires { c < length row.old }
    ensures unit { IsUnitRow c row.new }
    ensures elements { (q : Gf) → AreElements q row.new }
{
    clear(row);
    row[c] = 1;
}

/// Adds `factor` times row `c` of the matrix of a word to `sum`. `row` and `next` are written over.
fn add_word(
    table: &Table,
    b: &Module,
    word: u32,
    c: usize,
    factor: u8,
    sum: &mut [u8],
    row: &mut [u8],
    next: &mut [u8],
)
    requires table { IsTable table.now.header table.now.words }
    requires b { IsModule table.now.header.field (algebra_at b.now.side table.now.header).quiver b.now }
    requires word { word < length table.now.words }
    requires coordinate { c < 256 }
    requires small { factor < order table.now.header.field }
    requires sum { length sum.old ≡ 256 }
    requires row { length row.old ≡ 256 }
    requires next { length next.old ≡ 256 }
    requires elements { AreElements table.now.header.field sum.old }
    ensures added { IsWordAdded table.now.header table.now.words b.now word c factor sum.old sum.new }
    ensures elements { AreElements table.now.header.field sum.new }
{
    if factor == 0 {
        return;
    }
    put_unit(c, row);
    let path = table.word(word);
    walk_in_module(table.header(), b, &path.arrows, row, next);
    let field = table.header().field;
    add_multiple(field, factor, row, sum);
}

/// Writes the sum of the rows `c` of the matrices of some words, each times the number of `image` at its place from `from` on, and zeros behind it.
fn add_words(
    table: &Table,
    b: &Module,
    places: &[u32],
    image: &Seq<u8>,
    from: usize,
    c: usize,
    sum: &mut [u8],
    row: &mut [u8],
    next: &mut [u8],
)
    requires table { IsTable table.now.header table.now.words }
    requires b { IsModule table.now.header.field (algebra_at b.now.side table.now.header).quiver b.now }
    requires places { (t : ℕ) → t < length places.now → slice_index places.now t < length table.now.words }
    requires image { AreElements table.now.header.field image.now }
    requires inside { from + length places.now ≤ length image.now }
    requires few { length image.now ≤ 512 }
    requires coordinate { c < 256 }
    requires sum { length sum.old ≡ 256 }
    requires row { length row.old ≡ 256 }
    requires next { length next.old ≡ 256 }
    ensures words { HoldsWords table.now.header table.now.words b.now image.now from places.now (length places.now) c sum.new }
    ensures elements { AreElements table.now.header.field sum.new }
{
    clear(sum);
    for p in 0..places.len() {
        add_word(table, b, places[p], c, image[from + p], sum, row, next);
    }
}

/// The side as a table has it.
fn side_in_table(side: Side) -> TableSide
    ensures { result ≡ side_in_table side }
{
    match side {
        Side::Right => TableSide::Right,
        Side::Left => TableSide::Left,
    }
}

/// How many words lead to `w` from the first `j` of some vertices: where part `j` of the sum of the projective modules begins.
fn part_start(table: &Table, side: Side, vertices: &Seq<u8>, j: usize, w: u8) -> usize
    requires table { IsTable table.now.header table.now.words }
    requires vertices { AreVertices table.now.header vertices.now }
    requires part { j ≤ length vertices.now }
    requires vertex { w < vertex_count table.now.header.quiver }
    requires small { sum_dim table.now.words side vertices.now w ≤ 512 }
    ensures { result ≡ total j (part_dim table.now.words side vertices.now w) }
{
    let hand = side_in_table(side);
    let mut count = 0;
    for g in 0..j {
        let places = table.words_at(hand, vertices[g], w);
        count += places.len();
    }
    count
}

/// Writes what coordinate `c` of the value of generator `j` of the first term gives to the value of generator `i` of the next, for the homomorphism
/// to `b` whose coordinate it is, behind the map from the next term; and zeros behind it.
pub(crate) fn write_value(
    table: &Table,
    b: &Module,
    first: &TermRows,
    next: &TermRows,
    j: usize,
    c: usize,
    i: usize,
    sum: &mut [u8],
    row: &mut [u8],
    step: &mut [u8],
)
    requires table { IsTable table.now.header table.now.words }
    requires b { IsModule table.now.header.field (algebra_at b.now.side table.now.header).quiver b.now }
    requires terms { IsTermOver table.now.header table.now.words b.now.side first.now next.now }
    requires generator { j < length first.now.vertices }
    requires coordinate { c < value_dims table.now.header table.now.words b.now first.now j }
    requires target { i < length next.now.vertices }
    requires sum { length sum.old ≡ 256 }
    requires row { length row.old ≡ 256 }
    requires step { length step.old ≡ 256 }
    ensures value { (t : IsTable table.now.header table.now.words) → HoldsValue table.now.header table.now.words b.now t first.now next.now j c i sum.new }
    ensures elements { AreElements table.now.header.field sum.new }
{
    let w = next.vertices[i];
    let image = &next.images[i];
    let places = table.words_at(side_in_table(b.side), first.vertices[j], w);
    let from = part_start(table, b.side, &first.vertices, j, w);
    add_words(table, b, places, image, from, c, sum, row, step);
}

/// The dimension of the module at the vertex of generator `j`: how many coordinates its value has.
pub(crate) fn value_dimension(table: &Table, b: &Module, term: &TermRows, j: usize) -> usize
    requires b { IsModule table.now.header.field (algebra_at b.now.side table.now.header).quiver b.now }
    requires vertices { AreVertices table.now.header term.now.vertices }
    requires generator { j < length term.now.vertices }
    ensures { result ≡ value_dims table.now.header table.now.words b.now term.now j }
{
    let v = term.vertices[j] as usize;
    b.dims[v] as usize
}
