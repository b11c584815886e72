//! What rows in lent memory become along arrows, folded into other rows.
ghost use Rattle.std.specs.Prelude.{ℕ, ◌≡◌, ◌<◌, ◌≤◌, ◌+◌, ◌*◌, length, MatchBool};
ghost use Rattle.linear_algebra.specs.Field.{order};
ghost use Rattle.fp_linear.specs.Slices.{AreElements};
ghost use Rattle.fp_linear.specs.Meeting.{IsClearFrom};
ghost use Rattle.module_checks.specs.Room.{IsRoom};
ghost use Rattle.module_checks.specs.Commuting.{AsksMore};
ghost use Rattle.module_checks.specs.Spreading.{IsSpread, from_first};
ghost use Rattle.module_checks.specs.PathImages.{image_entry, ImageMet, ImagesMet, IsZeroWithin};

use crate::folding::make_room;
use crate::spreading::add_at;
use fp_linear::{Field, Matrix};

/// One entry of what the numbers from `from` on become under the matrix.
fn image_entry(field: Field, matrix: &Matrix, j: u32, from: usize, row: &[u8]) -> u8
    requires field { matrix.now.field ≡ field }
    requires column { j < matrix.now.col_count }
    requires elements { AreElements field row.now }
    requires inside { from + matrix.now.row_count ≤ length row.now }
    ensures image { result ≡ image_entry field row.now from matrix.now j }
    ensures small { result < order field }
{
    let mut sum = 0;
    for i in 0..matrix.rows() {
        let factor = row[from + i as usize];
        sum = field.add(sum, field.mul(factor, matrix.row(i)[j as usize]));
    }
    sum
}

/// Adds what the numbers from `from` on become under the matrix from place `first` on of the `count` numbers from `start` on.
fn add_image(
    field: Field,
    matrix: &Matrix,
    from: usize,
    row: &[u8],
    start: usize,
    count: usize,
    first: usize,
    entries: &mut [u8],
)
    requires field { matrix.now.field ≡ field }
    requires row_elements { AreElements field row.now }
    requires row_inside { from + matrix.now.row_count ≤ length row.now }
    requires elements { AreElements field entries.old }
    requires within { start + count ≤ length entries.old }
    requires places { first + matrix.now.col_count ≤ count }
    ensures spread { IsSpread field start count matrix.now.col_count (image_entry field row.now from matrix.now) (from_first first) entries.old entries.new }
    ensures elements { AreElements field entries.new }
{
    for j in 0..matrix.cols() {
        let value = image_entry(field, matrix, j, from, row);
        add_at(field, start + (first + j as usize), value, entries);
    }
}

/// Writes what the numbers from `from` on become into row `used`, which is clear, from place `first` on.
fn write_image(
    field: Field,
    unknowns: u32,
    rows: u32,
    used: u32,
    matrix: &Matrix,
    from: usize,
    first: usize,
    row: &[u8],
    entries: &mut [u8],
)
    requires field { matrix.now.field ≡ field }
    requires row_elements { AreElements field row.now }
    requires row_inside { from + matrix.now.row_count ≤ length row.now }
    requires shape { length entries.old ≡ rows * unknowns }
    requires elements { AreElements field entries.old }
    requires inside { used < rows }
    requires places { first + matrix.now.col_count ≤ unknowns }
    requires clear { IsClearFrom (used * unknowns) entries.old }
    ensures elements { AreElements field entries.new }
    ensures clear { IsClearFrom ((used + 1) * unknowns) entries.new }
    ensures more { AsksMore field unknowns rows entries.old entries.new (ImageMet field row.now from matrix.now first) }
{
    let start = used as usize * unknowns as usize;
    let count = unknowns as usize;
    add_image(field, matrix, from, row, start, count, first, entries);
}

/// Whether the `count` numbers from `from` on are zero.
fn is_zero_within(row: &[u8], from: usize, count: usize) -> bool
    requires { from + count ≤ length row.now }
    ensures { MatchBool result (IsZeroWithin row.now from count) (¬ IsZeroWithin row.now from count) }
{
    for k in 0..count {
        if row[from + k] != 0 {
            return false;
        }
    }
    true
}

/// Folds what the numbers from `from` on become into the rows, of which the first `used` are taken, and answers how many are taken then.
fn fold_image(
    field: Field,
    unknowns: u32,
    rows: u32,
    used: u32,
    matrix: &Matrix,
    from: usize,
    first: usize,
    row: &[u8],
    entries: &mut [u8],
    pivots: &mut [u32],
) -> u32
    requires field { matrix.now.field ≡ field }
    requires row_elements { AreElements field row.now }
    requires row_inside { from + matrix.now.row_count ≤ length row.now }
    requires room { IsRoom unknowns rows entries.old pivots.old }
    requires elements { AreElements field entries.old }
    requires places { first + matrix.now.col_count ≤ unknowns }
    requires clear { IsClearFrom (used * unknowns) entries.old }
    requires used { used ≤ rows }
    ensures used { result ≤ rows }
    ensures elements { AreElements field entries.new }
    ensures clear { IsClearFrom (result * unknowns) entries.new }
    ensures more { AsksMore field unknowns rows entries.old entries.new (ImageMet field row.now from matrix.now first) }
{
    if is_zero_within(row, from, matrix.rows() as usize) {
        return used;
    }
    let place = make_room(field, unknowns, rows, used, entries, pivots);
    write_image(
        field, unknowns, rows, place, matrix, from, first, row, entries,
    );
    place + 1
}

/// Folds what each of the first `count` rows of `images` becomes, the numbers from place `source` of the row on, and answers how many rows are
/// taken then.
pub fn fold_images(
    field: Field,
    unknowns: u32,
    rows: u32,
    used: u32,
    matrix: &Matrix,
    source: usize,
    first: usize,
    count: u32,
    images: &[u8],
    entries: &mut [u8],
    pivots: &mut [u32],
) -> u32
    requires field { matrix.now.field ≡ field }
    requires image_elements { AreElements field images.now }
    requires images { length images.now ≡ rows * unknowns }
    requires source { source + matrix.now.row_count ≤ unknowns }
    requires count { count ≤ rows }
    requires room { IsRoom unknowns rows entries.old pivots.old }
    requires elements { AreElements field entries.old }
    requires places { first + matrix.now.col_count ≤ unknowns }
    requires clear { IsClearFrom (used * unknowns) entries.old }
    requires used { used ≤ rows }
    ensures used { result ≤ rows }
    ensures elements { AreElements field entries.new }
    ensures clear { IsClearFrom (result * unknowns) entries.new }
    ensures more { AsksMore field unknowns rows entries.old entries.new (ImagesMet field unknowns count images.now source matrix.now first) }
{
    let mut used = used;
    for r in 0..count {
        let from = r as usize * unknowns as usize + source;
        used = fold_image(
            field, unknowns, rows, used, matrix, from, first, images, entries, pivots,
        );
    }
    used
}
