//! The rank of following by the next differential, and the equations that say that it gives zero.
ghost use Rattle.std.specs.Prelude.{◌≡◌, ◌<◌, ◌≤◌, ◌+◌, ◌*◌, length};
ghost use Rattle.linear_algebra.specs.Ranks.{rank};
ghost use Rattle.linear_algebra.specs.BlockFamilies.{total};
ghost use Rattle.fp_linear.specs.Slices.{AreElements};
ghost use Rattle.alg_table.specs.TableView.{IsTable};
ghost use Rattle.module_types.specs.Algebras.{algebra_at};
ghost use Rattle.module_types.specs.Readings.{read};
ghost use Rattle.module_types.specs.Shapes.{IsModule};
ghost use Rattle.module_types.specs.TermCoordinates.{coordinates};
ghost use Rattle.module_checks.specs.Room.{IsRoom};
ghost use Rattle.extension_checks.specs.Asking.{AskRows, HoldsRows};
ghost use Rattle.extension_checks.specs.Following.{IsTermOver, value_dims, following, column_entries};

use crate::folding::{fold_block, put_column, reduce_rows};
use crate::values::{value_dimension, write_value};
use alg_table::Table;
use module_checks::clear;
use module_types::{Module, TermRows};

/// Writes the columns of the coordinates of generator `j`, which begin at place `at`, of the equations for generator `i` of the next term.
fn write_columns(
    table: &Table,
    b: &Module,
    first: &TermRows,
    next: &TermRows,
    i: usize,
    j: usize,
    at: usize,
    count: usize,
    height: usize,
    unknowns: usize,
    block: &mut [u8],
    sum: &mut [u8],
    row: &mut [u8],
    step: &mut [u8],
)
    requires table { IsTable table.now.header table.now.words }
    requires b { IsModule table.now.header.field (algebra_at b.now.side table.now.header).quiver b.now }
    requires terms { IsTermOver table.now.header table.now.words b.now.side first.now next.now }
    requires target { i < length next.now.vertices }
    requires generator { j < length first.now.vertices }
    requires at { at ≡ total j (value_dims table.now.header table.now.words b.now first.now) }
    requires count { count ≡ value_dims table.now.header table.now.words b.now first.now j }
    requires height { height ≡ value_dims table.now.header table.now.words b.now next.now i }
    requires unknowns { unknowns ≡ coordinates (read table.now.header b.now) first.now }
    requires block { height * unknowns ≤ length block.old }
    requires elements { AreElements table.now.header.field block.old }
    requires sum { length sum.old ≡ 256 }
    requires row { length row.old ≡ 256 }
    requires step { length step.old ≡ 256 }
    ensures columns { (t : IsTable table.now.header table.now.words)
        → HoldsRows unknowns (column_entries table.now.header table.now.words b.now t first.now next.now) (total i (value_dims table.now.header table.now.words b.now next.now)) height at block.old
        → HoldsRows unknowns (column_entries table.now.header table.now.words b.now t first.now next.now) (total i (value_dims table.now.header table.now.words b.now next.now)) height (at + count) block.new }
    ensures elements { AreElements table.now.header.field block.new }
{
    for c in 0..count {
        write_value(table, b, first, next, j, c, i, sum, row, step);
        put_column(sum, height, unknowns, at + c, block);
    }
}

/// Writes the equations for generator `i` of the next term, one line for each coordinate of its value.
fn write_equations(
    table: &Table,
    b: &Module,
    first: &TermRows,
    next: &TermRows,
    i: usize,
    height: usize,
    unknowns: usize,
    block: &mut [u8],
    sum: &mut [u8],
    row: &mut [u8],
    step: &mut [u8],
)
    requires table { IsTable table.now.header table.now.words }
    requires b { IsModule table.now.header.field (algebra_at b.now.side table.now.header).quiver b.now }
    requires terms { IsTermOver table.now.header table.now.words b.now.side first.now next.now }
    requires target { i < length next.now.vertices }
    requires height { height ≡ value_dims table.now.header table.now.words b.now next.now i }
    requires unknowns { unknowns ≡ coordinates (read table.now.header b.now) first.now }
    requires block { height * unknowns ≤ length block.old }
    requires elements { AreElements table.now.header.field block.old }
    requires sum { length sum.old ≡ 256 }
    requires row { length row.old ≡ 256 }
    requires step { length step.old ≡ 256 }
    ensures equations { (t : IsTable table.now.header table.now.words)
        → HoldsRows unknowns (column_entries table.now.header table.now.words b.now t first.now next.now) (total i (value_dims table.now.header table.now.words b.now next.now)) height unknowns block.new }
    ensures elements { AreElements table.now.header.field block.new }
{
    let mut at = 0;
    for j in 0..first.vertices.len() {
        let count = value_dimension(table, b, first, j);
        write_columns(
            table, b, first, next, i, j, at, count, height, unknowns, block, sum, row, step,
        );
        at += count;
    }
}

/// Folds the equations that say that a homomorphism to `b` is zero behind the map from the next term, generator by generator of the next term, and answers
/// their rank.
pub(crate) fn cocycle_rank(
    table: &Table,
    b: &Module,
    first: &TermRows,
    next: &TermRows,
    unknowns: u32,
    block: &mut [u8],
    sum: &mut [u8],
    row: &mut [u8],
    step: &mut [u8],
    entries: &mut [u8],
    pivots: &mut [u32],
) -> u32
    requires table { IsTable table.now.header table.now.words }
    requires b { IsModule table.now.header.field (algebra_at b.now.side table.now.header).quiver b.now }
    requires terms { IsTermOver table.now.header table.now.words b.now.side first.now next.now }
    requires unknowns { unknowns ≡ coordinates (read table.now.header b.now) first.now }
    requires block { 256 * unknowns ≤ length block.old }
    requires elements { AreElements table.now.header.field block.old }
    requires sum { length sum.old ≡ 256 }
    requires row { length row.old ≡ 256 }
    requires step { length step.old ≡ 256 }
    requires room { IsRoom unknowns 1025 entries.old pivots.old }
    ensures rank { (t : IsTable table.now.header table.now.words) → result ≡ rank (following table.now.header table.now.words b.now t first.now next.now) }
    ensures asked { (t : IsTable table.now.header table.now.words)
        → AskRows table.now.header.field unknowns 1025 entries.new (column_entries table.now.header table.now.words b.now t first.now next.now) (coordinates (read table.now.header b.now) next.now) }
    ensures elements { AreElements table.now.header.field entries.new }
    ensures block_elements { AreElements table.now.header.field block.new }
{
    clear(entries);
    let mut used = 0;
    for i in 0..next.vertices.len() {
        let height = value_dimension(table, b, next, i);
        write_equations(
            table,
            b,
            first,
            next,
            i,
            height,
            unknowns as usize,
            block,
            sum,
            row,
            step,
        );
        used = fold_block(table, unknowns, used, height, block, entries, pivots);
    }
    reduce_rows(table, unknowns, entries, pivots)
}
