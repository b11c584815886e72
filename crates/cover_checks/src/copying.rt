//! Rows in lent memory that are copied, unit rows, and rows behind others.
ghost use Rattle.std.specs.Prelude.{ℕ, ◌≡◌, ◌<◌, ◌≤◌, ◌+◌, ◌*◌, length, slice_index};
ghost use Rattle.linear_algebra.specs.Field.{Gf};
ghost use Rattle.linear_algebra.specs.Matrix.{delta};
ghost use Rattle.fp_linear.specs.Slices.{AreElements, IsWritten, copied};
ghost use Rattle.fp_linear.specs.Meeting.{IsClearFrom};
ghost use Rattle.module_checks.specs.Commuting.{AsksMore};
ghost use Rattle.cover_checks.specs.Bases.{RowKilled};

use fp_linear::Field;
use module_checks::unit_entry;

/// Copies the `count` numbers of `source` from `from` on to the places of `target` from `at` on.
pub fn copy_part(source: &[u8], from: usize, target: &mut [u8], at: usize, count: usize)
    requires from_inside { from + count ≤ length source.now }
    requires at_inside { at + count ≤ length target.old }
    ensures written { IsWritten target.old target.new at count (copied from source.now) }
    ensures elements { (q : Gf) → AreElements q source.now → AreElements q target.old → AreElements q target.new }
{
    for j in 0..count {
        target[at + j] = source[from + j];
    }
}

/// Writes the unit row `i` of `count` numbers to the places of `target` from `at` on.
pub fn put_unit(target: &mut [u8], at: usize, count: u32, i: u32)
    requires at_inside { at + count ≤ length target.old }
    ensures written { IsWritten target.old target.new at count (delta i) }
    ensures elements { (q : Gf) → AreElements q target.old → AreElements q target.new }
{
    for j in 0..count {
        target[at + j as usize] = unit_entry(i, j);
    }
}

/// Writes the first `unknowns` numbers of `row` into row `used`, which is clear.
pub fn append_row(field: Field, unknowns: u32, rows: u32, used: u32, row: &[u8], entries: &mut [u8])
    requires shape { length entries.old ≡ rows * unknowns }
    requires elements { AreElements field entries.old }
    requires row { unknowns ≤ length row.now }
    requires row_elements { AreElements field row.now }
    requires inside { used < rows }
    requires clear { IsClearFrom (used * unknowns) entries.old }
    ensures elements { AreElements field entries.new }
    ensures clear { IsClearFrom ((used + 1) * unknowns) entries.new }
    ensures more { AsksMore field unknowns rows entries.old entries.new (RowKilled field unknowns row.now) }
{
    let start = used as usize * unknowns as usize;
    copy_part(row, 0, entries, start, unknowns as usize);
}
