//! Whether maps are those that the embeddings of a sequence say.
ghost use Rattle.std.specs.Prelude.{ℕ, ◌≡◌, ◌<◌, ◌≤◌, ◌+◌, length, MatchBool};
ghost use Rattle.alg_table.specs.TableView.{IsTable};
ghost use Rattle.module_types.specs.Algebras.{algebra_at, other_side};
ghost use Rattle.module_types.specs.Readings.{dim_at};
ghost use Rattle.module_types.specs.Shapes.{AreMatrices, IsMap};
ghost use Rattle.module_checks.specs.VertexMatrices.{HaveProduct};
ghost use Rattle.term_rows.specs.SumDims.{AreVertices, IsRoomFor, sum_dim};
ghost use Rattle.translate_checks.specs.Steps.{module_in, injectives_in};
ghost use Rattle.sequence_checks.specs.Maps.{widened, IsWidenedRow, IsWidened, IsLastRow, AreLast, AreMapsUpTo};

use alg_table::Table;
use fp_linear::{Field, Matrix};
use module_types::{Module, Side};
use seq::Seq;
use term_rows::sum_dimension;
use translate_checks::product_at;

/// Entry `j` of row `r` of the matrix, followed by zeros.
fn widened_entry(a: &Matrix, r: u32, j: u32) -> u8
    requires row { r < a.now.row_count }
    ensures { result ≡ widened a.now r j }
{
    if j < a.cols() {
        return a.row(r)[j as usize];
    }
    0
}

/// Whether row `r` of the product of `f` and `j` is that of `i`, followed by zeros.
fn is_widened_row(field: Field, f: &Matrix, j: &Matrix, i: &Matrix, r: u32) -> bool
    requires fits { HaveProduct field f.now j.now }
    requires row { r < f.now.row_count }
    requires same { i.now.row_count ≡ f.now.row_count }
    ensures { MatchBool result (IsWidenedRow field f.now j.now i.now r j.now.col_count) (¬ IsWidenedRow field f.now j.now i.now r j.now.col_count) }
{
    for c in 0..j.cols() {
        let value = product_at(field, f, j, r, c);
        let expected = widened_entry(i, r, c);
        if value != expected {
            return false;
        }
    }
    true
}

/// Whether the product of `f` and `j` is the matrix `i`, followed by zeros.
pub fn is_widened(field: Field, f: &Matrix, j: &Matrix, i: &Matrix) -> bool
    requires fits { HaveProduct field f.now j.now }
    requires same { i.now.row_count ≡ f.now.row_count }
    ensures { MatchBool result (IsWidened field f.now j.now i.now f.now.row_count) (¬ IsWidened field f.now j.now i.now f.now.row_count) }
{
    for r in 0..f.rows() {
        if !is_widened_row(field, f, j, i, r) {
            return false;
        }
    }
    true
}

/// Whether row `r` of `g` is what `j` has in that row behind its first `start` columns.
fn is_last_row(g: &Matrix, j: &Matrix, start: u32, r: u32) -> bool
    requires row { r < g.now.row_count }
    requires same { j.now.row_count ≡ g.now.row_count }
    requires columns { start + g.now.col_count ≤ j.now.col_count }
    ensures { MatchBool result (IsLastRow g.now j.now start r g.now.col_count) (¬ IsLastRow g.now j.now start r g.now.col_count) }
{
    let row = g.row(r);
    for c in 0..g.cols() {
        let value = row[c as usize];
        let expected = j.row(r)[start as usize + c as usize];
        if value != expected {
            return false;
        }
    }
    true
}

/// Whether the matrix `g` is what `j` has behind its first `start` columns.
pub fn are_last(g: &Matrix, j: &Matrix, start: u32) -> bool
    requires same { j.now.row_count ≡ g.now.row_count }
    requires columns { start + g.now.col_count ≤ j.now.col_count }
    ensures { MatchBool result (AreLast g.now j.now start g.now.row_count) (¬ AreLast g.now j.now start g.now.row_count) }
{
    for r in 0..g.rows() {
        if !is_last_row(g, j, start, r) {
            return false;
        }
    }
    true
}

/// Whether at each vertex `f` and then the embedding of `e` is the embedding of `n` followed by zeros, and `g` is the part of the embedding of `e` that
/// lies in the module `m`.
pub fn are_maps(
    table: &Table,
    side: Side,
    n: &Module,
    e: &Module,
    m: &Module,
    syzygy: &Seq<u8>,
    f: &Seq<Matrix>,
    g: &Seq<Matrix>,
    left: &Seq<Matrix>,
    middle: &Seq<Matrix>,
) -> bool
    requires table { IsTable table.now.header table.now.words }
    requires vertices { AreVertices table.now.header syzygy.now }
    requires small { IsRoomFor table.now.header (sum_dim table.now.words (other_side side) syzygy.now) 512 }
    requires n { length n.now.dims ≡ (algebra_at side table.now.header).quiver.vertices }
    requires f { IsMap table.now.header.field (algebra_at side table.now.header).quiver n.now e.now f.now }
    requires g { IsMap table.now.header.field (algebra_at side table.now.header).quiver e.now m.now g.now }
    requires left { AreMatrices table.now.header.field (algebra_at side table.now.header).quiver.vertices
        (dim_at (algebra_at side table.now.header).quiver n.now.dims) (sum_dim table.now.words (other_side side) syzygy.now) left.now }
    requires middle { AreMatrices table.now.header.field (algebra_at side table.now.header).quiver.vertices (dim_at (algebra_at side table.now.header).quiver e.now.dims)
        (λ w. sum_dim table.now.words (other_side side) syzygy.now w + dim_at (algebra_at side table.now.header).quiver m.now.dims w) middle.now }
    ensures { (t : IsTable table.now.header table.now.words) → MatchBool result
        (AreMapsUpTo (module_in table.now.header table.now.words t side n.now) (module_in table.now.header table.now.words t side e.now)
        (injectives_in table.now.header table.now.words t side syzygy.now) (module_in table.now.header table.now.words t side m.now) f.now g.now left.now middle.now (length n.now.dims))
        (¬ AreMapsUpTo (module_in table.now.header table.now.words t side n.now) (module_in table.now.header table.now.words t side e.now)
        (injectives_in table.now.header table.now.words t side syzygy.now) (module_in table.now.header table.now.words t side m.now) f.now g.now left.now middle.now (length n.now.dims)) }
{
    let field = table.header().field;
    for w in 0..n.dims.len() {
        let to_middle = &f[w];
        let from_middle = &g[w];
        let around = &middle[w];
        let inside = &left[w];
        if !is_widened(field, to_middle, around, inside) {
            return false;
        }
        let start = sum_dimension(table, side.other(), syzygy, w as u8);
        if !are_last(from_middle, around, start as u32) {
            return false;
        }
    }
    true
}
