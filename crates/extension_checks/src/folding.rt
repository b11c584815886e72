//! Lines of a block, folded into rows in lent memory one by one, and places of a block that are written.
ghost use Rattle.std.specs.Prelude.{ℕ, ◌≡◌, ◌<◌, ◌≤◌, ◌+◌, ◌*◌, length, slice_index};
ghost use Rattle.linear_algebra.specs.Field.{Gf};
ghost use Rattle.linear_algebra.specs.Reduced.{ReducesTo};
ghost use Rattle.linear_algebra.specs.Rows.{rows_of};
ghost use Rattle.fp_linear.specs.Slices.{AreElements, IsWritten, copied};
ghost use Rattle.module_checks.specs.Room.{IsRoom};
ghost use Rattle.module_checks.specs.Commuting.{AsksMore};
ghost use Rattle.extension_checks.specs.Asking.{AreTaken, MeetsLines, IsColumnWritten};

use alg_table::Table;
use fp_linear::{Field, echelon_rows};
use module_checks::make_room;

/// Writes `count` numbers of `source`, from `from` on, to the places from `at` on.
pub(crate) fn copy_numbers(source: &[u8], from: usize, count: usize, at: usize, into: &mut [u8])
    requires within { from + count ≤ length source.now }
    requires inside { at + count ≤ length into.old }
    ensures written { IsWritten into.old into.new at count (copied from source.now) }
    ensures elements { (q : Gf) → AreElements q source.now → AreElements q into.old → AreElements q into.new }
{
    for k in 0..count {
        into[at + k] = source[from + k];
    }
}

/// Writes the first `count` numbers of `source` to a place of the first lines of `width` numbers of the block, one to each.
pub(crate) fn put_column(source: &[u8], count: usize, width: usize, place: usize, block: &mut [u8])
    requires within { count ≤ length source.now }
    requires inside { count * width ≤ length block.old }
    requires place { place < width }
    ensures written { IsColumnWritten width place count (slice_index source.now) block.old block.new }
    ensures elements { (q : Gf) → AreElements q source.now → AreElements q block.old → AreElements q block.new }
{
    for z in 0..count {
        block[z * width + place] = source[z];
    }
}

/// Folds the first `count` lines of `unknowns` numbers of the block into the rows, of which the first `used` are taken, and answers how many are taken
/// then.
fn fold_lines(
    field: Field,
    unknowns: u32,
    rows: u32,
    used: u32,
    count: usize,
    block: &[u8],
    entries: &mut [u8],
    pivots: &mut [u32],
) -> u32
    requires room { IsRoom unknowns rows entries.old pivots.old }
    requires taken { AreTaken field unknowns rows used entries.old }
    requires elements { AreElements field block.now }
    requires inside { count * unknowns ≤ length block.now }
    ensures taken { AreTaken field unknowns rows result entries.new }
    ensures more { AsksMore field unknowns rows entries.old entries.new (MeetsLines field unknowns block.now count) }
{
    let width = unknowns as usize;
    let mut used = used;
    for z in 0..count {
        used = make_room(field, unknowns, rows, used, entries, pivots);
        copy_numbers(block, z * width, width, used as usize * width, entries);
        used += 1;
    }
    used
}

/// The same for one row more than the most unknowns, over the field of the table.
pub(crate) fn fold_block(
    table: &Table,
    unknowns: u32,
    used: u32,
    count: usize,
    block: &[u8],
    entries: &mut [u8],
    pivots: &mut [u32],
) -> u32
    requires room { IsRoom unknowns 1025 entries.old pivots.old }
    requires taken { AreTaken table.now.header.field unknowns 1025 used entries.old }
    requires elements { AreElements table.now.header.field block.now }
    requires inside { count * unknowns ≤ length block.now }
    ensures taken { AreTaken table.now.header.field unknowns 1025 result entries.new }
    ensures more { AsksMore table.now.header.field unknowns 1025 entries.old entries.new (MeetsLines table.now.header.field unknowns block.now count) }
{
    let field = table.header().field;
    fold_lines(field, unknowns, 1025, used, count, block, entries, pivots)
}

/// Brings the rows into reduced row form, and answers their rank.
pub(crate) fn reduce_rows(
    table: &Table,
    unknowns: u32,
    entries: &mut [u8],
    pivots: &mut [u32],
) -> u32
    requires room { IsRoom unknowns 1025 entries.old pivots.old }
    requires elements { AreElements table.now.header.field entries.old }
    ensures elements { AreElements table.now.header.field entries.new }
    ensures form { ReducesTo table.now.header.field unknowns (rows_of 1025 unknowns entries.old) (rows_of 1025 unknowns entries.new) pivots.new result }
    ensures few { result ≤ 1025 }
{
    let field = table.header().field;
    echelon_rows(field, 1025, unknowns, entries, pivots)
}
