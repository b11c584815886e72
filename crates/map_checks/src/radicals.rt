//! The first condition on a radical that fails.
ghost use Rattle.std.specs.Prelude.{ℕ, ⊤, ◌≡◌, ◌<◌, ◌≤◌, ◌+◌, ◌*◌, length, slice_index, MatchBool};
ghost use Rattle.fp_linear.specs.Slices.{AreElements};
ghost use Rattle.fp_linear.specs.Meeting.{IsClearFrom};
ghost use Rattle.linear_algebra.specs.Reduced.{IsReduced};
ghost use Rattle.path_algebra.specs.Allowed.{IsAllowed};
ghost use Rattle.quiver_paths.specs.Quiver.{arrow_count};
ghost use Rattle.bound_algebra.specs.TypedPaths.{quiver_of};
ghost use Rattle.module_types.specs.Algebras.{algebra_at};
ghost use Rattle.module_types.specs.Readings.{read};
ghost use Rattle.module_types.specs.Shapes.{IsModule, IsMap};
ghost use Rattle.claim_conditions.specs.Conditions.{IsAnswer};
ghost use Rattle.claim_conditions.specs.RadicalConditions.{radical_conditions};
ghost use Rattle.module_checks.specs.Room.{IsRoom};
ghost use Rattle.module_checks.specs.Commuting.{AsksMore};
ghost use Rattle.module_checks.specs.VertexMatrices.{HoldsEntries, AreAllReduced};
ghost use Rattle.map_checks.specs.ArrowRows.{RowMet, RowsMet, ArrowMet, HasArrowForm, SpansAt, SpanUpTo, FitsVertex, FitVertices};

use claim_conditions::Clause;
use fp_linear::{Field, Matrix, echelon_rows};
use module_checks::{add_row, are_reduced, clear, make_room};
use module_types::{Module, target_at};
use path_algebra::Header;
use seq::Seq;

/// Writes row `i` of the matrix into row `used`, which is clear.
fn write_row(
    field: Field,
    unknowns: u32,
    rows: u32,
    used: u32,
    matrix: &Matrix,
    i: u32,
    entries: &mut [u8],
)
    requires field { matrix.now.field ≡ field }
    requires row { i < matrix.now.row_count }
    requires columns { matrix.now.col_count ≡ unknowns }
    requires shape { length entries.old ≡ rows * unknowns }
    requires elements { AreElements field entries.old }
    requires inside { used < rows }
    requires clear { IsClearFrom (used * unknowns) entries.old }
    ensures elements { AreElements field entries.new }
    ensures clear { IsClearFrom ((used + 1) * unknowns) entries.new }
    ensures more { AsksMore field unknowns rows entries.old entries.new (RowMet field matrix.now i) }
{
    let start = used as usize * unknowns as usize;
    let count = unknowns as usize;
    add_row(field, matrix, i, start, count, 0, 1, entries);
}

/// Folds the rows of the matrix into the rows, of which the first `used` are taken, and answers how many are taken then.
fn fold_rows(
    field: Field,
    unknowns: u32,
    rows: u32,
    used: u32,
    matrix: &Matrix,
    entries: &mut [u8],
    pivots: &mut [u32],
) -> u32
    requires field { matrix.now.field ≡ field }
    requires columns { matrix.now.col_count ≡ unknowns }
    requires room { IsRoom unknowns rows entries.old pivots.old }
    requires elements { AreElements field entries.old }
    requires clear { IsClearFrom (used * unknowns) entries.old }
    requires used { used ≤ rows }
    ensures used { result ≤ rows }
    ensures elements { AreElements field entries.new }
    ensures clear { IsClearFrom (result * unknowns) entries.new }
    ensures more { AsksMore field unknowns rows entries.old entries.new (RowsMet field matrix.now matrix.now.row_count) }
{
    let mut used = used;
    for i in 0..matrix.rows() {
        used = make_room(field, unknowns, rows, used, entries, pivots);
        write_row(field, unknowns, rows, used, matrix, i, entries);
        used += 1;
    }
    used
}

/// Folds the rows of the matrix of arrow `a` into the rows, if it goes to the vertex, and answers how many are taken then.
fn fold_arrow_into(
    header: &Header,
    x: &Module,
    a: u8,
    vertex: u8,
    unknowns: u32,
    rows: u32,
    used: u32,
    entries: &mut [u8],
    pivots: &mut [u32],
) -> u32
    requires allowed { IsAllowed header.now }
    requires x { IsModule header.now.field (algebra_at x.now.side header.now).quiver x.now }
    requires arrow { a < arrow_count header.now.quiver }
    requires unknowns { unknowns ≡ (read header.now x.now).dim vertex }
    requires room { IsRoom unknowns rows entries.old pivots.old }
    requires elements { AreElements header.now.field entries.old }
    requires clear { IsClearFrom (used * unknowns) entries.old }
    requires used { used ≤ rows }
    ensures used { result ≤ rows }
    ensures elements { AreElements header.now.field entries.new }
    ensures clear { IsClearFrom (result * unknowns) entries.new }
    ensures more { AsksMore header.now.field unknowns rows entries.old entries.new (ArrowMet (read header.now x.now) vertex a) }
{
    if target_at(header, x.side, a) != vertex {
        return used;
    }
    let matrix = &x.matrices[a as usize];
    fold_rows(header.field, unknowns, rows, used, matrix, entries, pivots)
}

/// Writes over zeros the reduced row form of the rows of all arrows that go to the vertex, and answers their rank.
fn arrow_rank(
    header: &Header,
    x: &Module,
    vertex: u8,
    unknowns: u32,
    rows: u32,
    entries: &mut [u8],
    pivots: &mut [u32],
) -> u32
    requires allowed { IsAllowed header.now }
    requires x { IsModule header.now.field (algebra_at x.now.side header.now).quiver x.now }
    requires unknowns { unknowns ≡ (read header.now x.now).dim vertex }
    requires room { IsRoom unknowns rows entries.old pivots.old }
    requires elements { AreElements header.now.field entries.old }
    requires zeros { IsClearFrom 0 entries.old }
    ensures shape { length entries.new ≡ rows * unknowns }
    ensures few { result ≤ rows }
    ensures elements { AreElements header.now.field entries.new }
    ensures form { HasArrowForm (read header.now x.now) vertex unknowns rows entries.new result }
{
    let mut used = 0;
    for a in 0..header.quiver.arrows.len() {
        used = fold_arrow_into(
            header, x, a as u8, vertex, unknowns, rows, used, entries, pivots,
        );
    }
    echelon_rows(header.field, rows, unknowns, entries, pivots)
}

/// Whether the slice begins with the entries of the matrix, row by row.
fn holds_entries(matrix: &Matrix, entries: &[u8]) -> bool
    requires { matrix.now.row_count * matrix.now.col_count ≤ length entries.now }
    ensures { MatchBool result
        (HoldsEntries matrix.now (matrix.now.row_count * matrix.now.col_count) entries.now)
        (¬ HoldsEntries matrix.now (matrix.now.row_count * matrix.now.col_count) entries.now) }
{
    let cols = matrix.cols() as u64;
    for e in 0..matrix.rows() as u64 * cols {
        let row = matrix.row((e / cols) as u32);
        if entries[e as usize] != row[(e % cols) as usize] {
            return false;
        }
    }
    true
}

/// Whether the rows of the matrix, which is in reduced row form, span what comes along arrows to the vertex.
fn spans_at(
    header: &Header,
    x: &Module,
    vertex: u8,
    matrix: &Matrix,
    entries: &mut [u8],
    pivots: &mut [u32],
) -> bool
    requires allowed { IsAllowed header.now }
    requires x { IsModule header.now.field (algebra_at x.now.side header.now).quiver x.now }
    requires fits { FitsVertex (read header.now x.now) vertex matrix.now }
    requires reduced { IsReduced matrix.now.col_count matrix.now.rows }
    requires entries { 131328 ≤ length entries.old }
    requires pivots { 513 ≤ length pivots.old }
    ensures { MatchBool result (SpansAt (read header.now x.now) vertex matrix.now) (¬ SpansAt (read header.now x.now) vertex matrix.now) }
{
    let unknowns = matrix.cols();
    let rows = 2 * unknowns + 1;
    let part = &mut entries[..rows as usize * unknowns as usize];
    clear(part);
    let rank = arrow_rank(header, x, vertex, unknowns, rows, part, pivots);
    if rank != matrix.rows() {
        return false;
    }
    if !holds_entries(matrix, part) {
        return false;
    }
    true
}

/// Whether at each vertex the rows span what comes along arrows.
fn span_arrows(
    header: &Header,
    x: &Module,
    i: &Seq<Matrix>,
    entries: &mut [u8],
    pivots: &mut [u32],
) -> bool
    requires allowed { IsAllowed header.now }
    requires x { IsModule header.now.field (algebra_at x.now.side header.now).quiver x.now }
    requires few { length i.now ≤ 32 }
    requires fit { FitVertices (read header.now x.now) i.now }
    requires reduced { AreAllReduced (length i.now) i.now }
    requires entries { 131328 ≤ length entries.old }
    requires pivots { 513 ≤ length pivots.old }
    ensures { MatchBool result (SpanUpTo (read header.now x.now) (length i.now) i.now) (¬ SpanUpTo (read header.now x.now) (length i.now) i.now) }
{
    for v in 0..i.len() {
        if !spans_at(header, x, v as u8, &i[v], entries, pivots) {
            return false;
        }
    }
    true
}

/// The first condition on a radical that fails, where the numbers say that `i` goes from `n` to `a`. Both modules are read on the side of `a`, whatever
/// side they say they have. The slices are worked in: 131,328 bytes and 513 numbers.
pub fn first_failing_radical(
    header: &Header,
    n: &Module,
    a: &Module,
    i: &Seq<Matrix>,
    entries: &mut [u8],
    pivots: &mut [u32],
) -> Option<Clause>
    requires allowed { IsAllowed header.now }
    requires n { IsModule header.now.field (algebra_at n.now.side header.now).quiver n.now }
    requires a { IsModule header.now.field (algebra_at a.now.side header.now).quiver a.now }
    requires i { IsMap header.now.field (quiver_of header.now.quiver) n.now a.now i.now }
    requires entries { 131328 ≤ length entries.old }
    requires pivots { 513 ≤ length pivots.old }
    ensures { IsAnswer (radical_conditions ⊤ header.now n.now a.now i.now) result }
{
    if !are_reduced(i) {
        return Some(Clause::Reduced);
    }
    if !span_arrows(header, a, i, entries, pivots) {
        return Some(Clause::All);
    }
    None
}
