//! The coboundaries: the rank and the pivots of the rows that they are combinations of.
ghost use Rattle.std.specs.Prelude.{◌≡◌, ◌<◌, ◌≤◌, ◌+◌, length};
ghost use Rattle.linear_algebra.specs.BlockFamilies.{total};
ghost use Rattle.fp_linear.specs.Slices.{AreElements};
ghost use Rattle.alg_table.specs.TableView.{IsTable};
ghost use Rattle.module_types.specs.Algebras.{algebra_at};
ghost use Rattle.module_types.specs.Readings.{read};
ghost use Rattle.module_types.specs.Shapes.{IsModule};
ghost use Rattle.module_types.specs.TermCoordinates.{coordinates};
ghost use Rattle.module_checks.specs.Room.{IsRoom};
ghost use Rattle.extension_checks.specs.Asking.{AreTaken, AskRows, HoldsRows};
ghost use Rattle.extension_checks.specs.Cleared.{HasPivots};
ghost use Rattle.extension_checks.specs.Following.{IsTermOver, value_dims, following, row_entries};

use crate::folding::{copy_numbers, fold_block, reduce_rows};
use crate::values::{value_dimension, write_value};
use alg_table::Table;
use module_checks::clear;
use module_types::{Module, TermRows};

/// Writes the row of coordinate `c` of generator `j` of the term before: its values at the generators of the term, one after another.
fn write_line(
    table: &Table,
    b: &Module,
    first: &TermRows,
    next: &TermRows,
    j: usize,
    c: usize,
    unknowns: usize,
    line: &mut [u8],
    sum: &mut [u8],
    row: &mut [u8],
    step: &mut [u8],
)
    requires table { IsTable table.now.header table.now.words }
    requires b { IsModule table.now.header.field (algebra_at b.now.side table.now.header).quiver b.now }
    requires terms { IsTermOver table.now.header table.now.words b.now.side first.now next.now }
    requires generator { j < length first.now.vertices }
    requires coordinate { c < value_dims table.now.header table.now.words b.now first.now j }
    requires unknowns { unknowns ≡ coordinates (read table.now.header b.now) next.now }
    requires line { unknowns ≤ length line.old }
    requires elements { AreElements table.now.header.field line.old }
    requires sum { length sum.old ≡ 256 }
    requires row { length row.old ≡ 256 }
    requires step { length step.old ≡ 256 }
    ensures line { (t : IsTable table.now.header table.now.words)
        → HoldsRows unknowns (row_entries table.now.header table.now.words b.now t first.now next.now) (total j (value_dims table.now.header table.now.words b.now first.now) + c) 1 unknowns line.new }
    ensures elements { AreElements table.now.header.field line.new }
{
    let mut at = 0;
    for i in 0..next.vertices.len() {
        let count = value_dimension(table, b, next, i);
        write_value(table, b, first, next, j, c, i, sum, row, step);
        copy_numbers(sum, 0, count, at, line);
        at += count;
    }
}

/// Folds the rows of the coordinates of generator `j` of the term before into the rows, of which the first `used` are taken, and answers how many are
/// taken then.
fn fold_generator(
    table: &Table,
    b: &Module,
    first: &TermRows,
    next: &TermRows,
    j: usize,
    count: usize,
    unknowns: u32,
    used: u32,
    line: &mut [u8],
    sum: &mut [u8],
    row: &mut [u8],
    step: &mut [u8],
    entries: &mut [u8],
    pivots: &mut [u32],
) -> u32
    requires table { IsTable table.now.header table.now.words }
    requires b { IsModule table.now.header.field (algebra_at b.now.side table.now.header).quiver b.now }
    requires terms { IsTermOver table.now.header table.now.words b.now.side first.now next.now }
    requires generator { j < length first.now.vertices }
    requires count { count ≡ value_dims table.now.header table.now.words b.now first.now j }
    requires unknowns { unknowns ≡ coordinates (read table.now.header b.now) next.now }
    requires line { unknowns ≤ length line.old }
    requires elements { AreElements table.now.header.field line.old }
    requires sum { length sum.old ≡ 256 }
    requires row { length row.old ≡ 256 }
    requires step { length step.old ≡ 256 }
    requires room { IsRoom unknowns 1025 entries.old pivots.old }
    requires taken { AreTaken table.now.header.field unknowns 1025 used entries.old }
    ensures taken { AreTaken table.now.header.field unknowns 1025 result entries.new }
    ensures asked { (t : IsTable table.now.header table.now.words)
        → AskRows table.now.header.field unknowns 1025 entries.old (row_entries table.now.header table.now.words b.now t first.now next.now) (total j (value_dims table.now.header table.now.words b.now first.now))
        → AskRows table.now.header.field unknowns 1025 entries.new (row_entries table.now.header table.now.words b.now t first.now next.now) (total j (value_dims table.now.header table.now.words b.now first.now) + count) }
    ensures elements { AreElements table.now.header.field line.new }
{
    let mut used = used;
    for c in 0..count {
        write_line(
            table,
            b,
            first,
            next,
            j,
            c,
            unknowns as usize,
            line,
            sum,
            row,
            step,
        );
        used = fold_block(table, unknowns, used, 1, line, entries, pivots);
    }
    used
}

/// Folds the rows of following from the term before, and answers their rank. The first places of `pivots` are then the pivots of their reduced row form.
pub(crate) fn coboundary_rank(
    table: &Table,
    b: &Module,
    first: &TermRows,
    next: &TermRows,
    unknowns: u32,
    line: &mut [u8],
    sum: &mut [u8],
    row: &mut [u8],
    step: &mut [u8],
    entries: &mut [u8],
    pivots: &mut [u32],
) -> u32
    requires table { IsTable table.now.header table.now.words }
    requires b { IsModule table.now.header.field (algebra_at b.now.side table.now.header).quiver b.now }
    requires terms { IsTermOver table.now.header table.now.words b.now.side first.now next.now }
    requires unknowns { unknowns ≡ coordinates (read table.now.header b.now) next.now }
    requires line { unknowns ≤ length line.old }
    requires elements { AreElements table.now.header.field line.old }
    requires sum { length sum.old ≡ 256 }
    requires row { length row.old ≡ 256 }
    requires step { length step.old ≡ 256 }
    requires room { IsRoom unknowns 1025 entries.old pivots.old }
    ensures pivots { (t : IsTable table.now.header table.now.words) → HasPivots (following table.now.header table.now.words b.now t first.now next.now) result pivots.new }
    ensures few { result ≤ 1025 }
{
    clear(entries);
    let mut used = 0;
    for j in 0..first.vertices.len() {
        let count = value_dimension(table, b, first, j);
        used = fold_generator(
            table, b, first, next, j, count, unknowns, used, line, sum, row, step, entries, pivots,
        );
    }
    reduce_rows(table, unknowns, entries, pivots)
}
