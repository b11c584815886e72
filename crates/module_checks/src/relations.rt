//! Whether the relations of a header act as zero on a module, row by row.
ghost use Rattle.std.specs.Prelude.{ℕ, ◌≡◌, ◌<◌, ◌≤◌, length, slice_index, MatchBool};
ghost use Rattle.linear_algebra.specs.Field.{order};
ghost use Rattle.fp_linear.specs.Slices.{AreElements};
ghost use Rattle.quiver_paths.specs.Quiver.{arrow_count};
ghost use Rattle.path_algebra.specs.Allowed.{IsAllowed, IsTerm, IsRelation};
ghost use Rattle.module_types.specs.Algebras.{algebra_at};
ghost use Rattle.module_types.specs.Readings.{read};
ghost use Rattle.module_types.specs.Shapes.{IsModule, dimension};
ghost use Rattle.module_checks.specs.RowWalks.{IsTermAdded, IsZeroInRow, ActsAsZero, AllActAsZero, first_vertex};

use crate::clearing::{clear, is_zero};
use crate::walking::walk_row;
use fp_linear::add_multiple;
use module_types::{Module, Side};
use path_algebra::{Header, Relation, Term};
use quiver_paths::Path;

/// Adds what the unit row `i` goes to along the term's path, times its coefficient.
fn add_term(
    header: &Header,
    m: &Module,
    term: &Term,
    i: usize,
    row: &mut [u8],
    next: &mut [u8],
    sum: &mut [u8],
)
    requires m { IsModule header.now.field (algebra_at m.now.side header.now).quiver m.now }
    requires term { IsTerm header.now term.now }
    requires inside { i < length row.old }
    requires elements { AreElements header.now.field sum.old }
    requires next_elements { AreElements header.now.field next.old }
    requires room { dimension m.now.dims ≤ length row.old }
    requires lengths { length next.old ≡ length row.old }
    requires sum_length { length sum.old ≡ length row.old }
    ensures added { IsTermAdded (read header.now m.now) m.now.side term.now i sum.old sum.new }
    ensures elements { AreElements header.now.field sum.new }
    ensures next_elements { AreElements header.now.field next.new }
{
    clear(row);
    row[i] = 1;
    walk_row(header, m, &term.path.arrows, row, next);
    add_multiple(header.field, term.coef, row, sum);
}

/// Whether the relation's matrix is zero in row `i`.
fn is_zero_in_row(
    header: &Header,
    m: &Module,
    relation: &Relation,
    i: usize,
    row: &mut [u8],
    next: &mut [u8],
    sum: &mut [u8],
) -> bool
    requires m { IsModule header.now.field (algebra_at m.now.side header.now).quiver m.now }
    requires relation { IsRelation header.now relation.now }
    requires inside { i < length row.old }
    requires next_elements { AreElements header.now.field next.old }
    requires room { dimension m.now.dims ≤ length row.old }
    requires lengths { length next.old ≡ length row.old }
    requires sum_length { length sum.old ≡ length row.old }
    ensures zero { MatchBool result
        (IsZeroInRow (read header.now m.now) m.now.side relation.now.terms i)
        (¬ IsZeroInRow (read header.now m.now) m.now.side relation.now.terms i) }
    ensures next_elements { AreElements header.now.field next.new }
{
    clear(sum);
    for k in 0..relation.terms.len() {
        add_term(header, m, &relation.terms[k], i, row, next, sum);
    }
    is_zero(sum)
}

/// The vertex at whose rows a path begins, as a side takes it.
fn first_vertex(side: Side, path: &Path) -> u8
    ensures { result ≡ first_vertex side path.now }
{
    match side {
        Side::Right => path.start,
        Side::Left => path.end,
    }
}

/// Whether relation `r` acts as zero, on a module or on any representation. The three slices are worked in; each has a place for each dimension.
pub fn acts_as_zero(
    header: &Header,
    m: &Module,
    r: usize,
    row: &mut [u8],
    next: &mut [u8],
    sum: &mut [u8],
) -> bool
    requires allowed { IsAllowed header.now }
    requires m { IsModule header.now.field (algebra_at m.now.side header.now).quiver m.now }
    requires relation { r < length header.now.relations }
    requires next_elements { AreElements header.now.field next.old }
    requires room { dimension m.now.dims ≤ length row.old }
    requires lengths { length next.old ≡ length row.old }
    requires sum_length { length sum.old ≡ length row.old }
    ensures zero { MatchBool result (ActsAsZero header.now m.now r) (¬ ActsAsZero header.now m.now r) }
    ensures next_elements { AreElements header.now.field next.new }
{
    let relation = &header.relations[r];
    let from = first_vertex(m.side, &relation.terms[0].path);
    for i in 0..m.dims[from as usize] {
        if !is_zero_in_row(header, m, relation, i as usize, row, next, sum) {
            return false;
        }
    }
    true
}

/// Whether all relations of the header act as zero, on a module or on any representation. The three slices are worked in; each has a place for each
/// dimension, and what they hold before and after says nothing.
pub fn relations_act_as_zero(
    header: &Header,
    m: &Module,
    row: &mut [u8],
    next: &mut [u8],
    sum: &mut [u8],
) -> bool
    requires allowed { IsAllowed header.now }
    requires m { IsModule header.now.field (algebra_at m.now.side header.now).quiver m.now }
    requires room { dimension m.now.dims ≤ length row.old }
    requires lengths { length next.old ≡ length row.old }
    requires sum_length { length sum.old ≡ length row.old }
    ensures { MatchBool result
        (AllActAsZero header.now m.now (length header.now.relations))
        (¬ AllActAsZero header.now m.now (length header.now.relations)) }
{
    clear(next);
    for r in 0..header.relations.len() {
        if !acts_as_zero(header, m, r, row, next, sum) {
            return false;
        }
    }
    true
}
