//! Equations, folded into rows in lent memory one by one.
ghost use Rattle.std.specs.Prelude.{ℕ, ◌≡◌, ◌<◌, ◌≤◌, ◌+◌, ◌*◌, length, slice_index, ⊤};
ghost use Rattle.linear_algebra.specs.Field.{order, neg};
ghost use Rattle.fp_linear.specs.Slices.{AreElements};
ghost use Rattle.fp_linear.specs.Meeting.{dot, IsClearFrom};
ghost use Rattle.module_checks.specs.Room.{IsRoom};
ghost use Rattle.module_checks.specs.Commuting.{AsksMore, GoesAlong, defect_at};

use crate::spreading::{add_row, subtract_column};
use fp_linear::{Field, Matrix, echelon_rows};

/// Makes room for a row behind the first `used` of `rows` rows: where there is none, they are brought into reduced row form.
pub fn make_room(
    field: Field,
    unknowns: u32,
    rows: u32,
    used: u32,
    entries: &mut [u8],
    pivots: &mut [u32],
) -> u32
    requires elements { AreElements field entries.old }
    requires room { IsRoom unknowns rows entries.old pivots.old }
    requires clear { IsClearFrom (used * unknowns) entries.old }
    ensures result { result < rows }
    ensures elements { AreElements field entries.new }
    ensures clear { IsClearFrom (result * unknowns) entries.new }
    ensures same { AsksMore field unknowns rows entries.old entries.new (λ x. ⊤) }
{
    if used < rows {
        used
    } else {
        echelon_rows(field, rows, unknowns, entries, pivots)
    }
}

/// Writes the equation at row `i` and column `j` of an arrow into row `used`, which is clear.
fn write_equation(
    field: Field,
    unknowns: u32,
    rows: u32,
    used: u32,
    x: &Matrix,
    y: &Matrix,
    target: usize,
    source: usize,
    i: u32,
    j: u32,
    entries: &mut [u8],
)
    requires x_field { x.now.field ≡ field }
    requires y_field { y.now.field ≡ field }
    requires shape { length entries.old ≡ rows * unknowns }
    requires elements { AreElements field entries.old }
    requires inside { used < rows }
    requires row { i < x.now.row_count }
    requires column { j < y.now.col_count }
    requires target_inside { target + x.now.col_count * y.now.col_count ≤ unknowns }
    requires source_inside { source + x.now.row_count * y.now.row_count ≤ unknowns }
    requires clear { IsClearFrom (used * unknowns) entries.old }
    ensures elements { AreElements field entries.new }
    ensures clear { IsClearFrom ((used + 1) * unknowns) entries.new }
    ensures more { AsksMore field unknowns rows entries.old entries.new (λ f. defect_at field x.now y.now target source i j f ≡ 0) }
{
    let start = used as usize * unknowns as usize;
    let count = unknowns as usize;
    add_row(
        field,
        x,
        i,
        start,
        count,
        target + j as usize,
        y.cols() as usize,
        entries,
    );
    subtract_column(
        field,
        y,
        j,
        start,
        count,
        source + i as usize * y.rows() as usize,
        entries,
    );
}

/// Folds the equations of an arrow into the rows, of which the first `used` are taken, and answers how many are taken then. The matrices
/// are those of the arrow in two modules; the unknowns of its target and of its source begin at the places `target` and `source`.
pub fn fold_arrow(
    field: Field,
    unknowns: u32,
    rows: u32,
    used: u32,
    x: &Matrix,
    y: &Matrix,
    target: usize,
    source: usize,
    entries: &mut [u8],
    pivots: &mut [u32],
) -> u32
    requires x_field { x.now.field ≡ field }
    requires y_field { y.now.field ≡ field }
    requires elements { AreElements field entries.old }
    requires room { IsRoom unknowns rows entries.old pivots.old }
    requires target_inside { target + x.now.col_count * y.now.col_count ≤ unknowns }
    requires source_inside { source + x.now.row_count * y.now.row_count ≤ unknowns }
    requires clear { IsClearFrom (used * unknowns) entries.old }
    requires used { used ≤ rows }
    ensures used { result ≤ rows }
    ensures elements { AreElements field entries.new }
    ensures clear { IsClearFrom (result * unknowns) entries.new }
    ensures more { AsksMore field unknowns rows entries.old entries.new (GoesAlong field x.now y.now target source (x.now.row_count * y.now.col_count)) }
{
    let mut used = used;
    let cols = y.cols() as u64;
    for e in 0..x.rows() as u64 * cols {
        used = make_room(field, unknowns, rows, used, entries, pivots);
        write_equation(
            field,
            unknowns,
            rows,
            used,
            x,
            y,
            target,
            source,
            (e / cols) as u32,
            (e % cols) as u32,
            entries,
        );
        used += 1;
    }
    used
}
