//! Whether lines have the shapes of the matrices at their names.
ghost use Rattle.std.specs.Prelude.{ℕ, ◌≡◌, ◌<◌, ◌≤◌, ◌&&◌, length, slice_index, slice_index_or, nat_eq, IfOk, MatchBool, true, false, []};
ghost use Rattle.std.specs.Cmp.Lexicographic.{pointwise};
ghost use Rattle.report_types.specs.declared.reports.Why.TheVariants as why;
ghost use Rattle.script_answers.specs.FirstTests.{unless, all_different};
ghost use Rattle.script_answers.specs.Written.{line_names, rows_fit, line_fits, lines_fit};
ghost use Rattle.written_modules.specs.Tests.{Tested};

use crate::stops::Stop;
use quiver_paths::Name;
use report_types::Why;
use script_types::AtLine;
use seq::Seq;

/// Whether one of the first `count` lines has the name.
fn is_named_before(lines: &Seq<AtLine>, count: usize, name: &Name) -> bool
    requires { count ≤ length lines.now }
    ensures { MatchBool result
        ((i : ℕ) × (i < count) × (pointwise nat_eq (slice_index_or (line_names lines.now) i []) name.now ≡ true))
        ((i : ℕ) → i < count → pointwise nat_eq (slice_index_or (line_names lines.now) i []) name.now ≡ false) }
{
    for i in 0..count {
        if lines[i].name == *name {
            return true;
        }
    }
    false
}

/// Whether no two lines have one name.
fn are_different(lines: &Seq<AtLine>) -> bool
    ensures { result ≡ all_different (line_names lines.now) }
{
    for j in 0..lines.len() {
        if is_named_before(lines, j, &lines[j].name) {
            return false;
        }
    }
    true
}

/// Whether rows fit a matrix with `rows` rows and `cols` columns: no row where it has no entry, and else all of them.
fn rows_fit(rows: u32, cols: u32, written: &Seq<Seq<u8>>) -> bool
    ensures { result ≡ rows_fit rows cols written.now }
{
    if written.is_empty() {
        return rows == 0 || cols == 0;
    }
    if rows == 0 || cols == 0 {
        return false;
    }
    if written.len() != rows as usize {
        return false;
    }
    for i in 0..written.len() {
        if written[i].len() != cols as usize {
            return false;
        }
    }
    true
}

/// Whether the line fits at each name that it has.
fn line_fits(names: &Seq<Name>, rows: &Seq<u32>, cols: &Seq<u32>, line: &AtLine) -> bool
    requires rows { length rows.now ≡ length names.now }
    requires cols { length cols.now ≡ length names.now }
    ensures { result ≡ line_fits (slice_index rows.now) (slice_index cols.now) line.now 0 names.now }
{
    for i in 0..names.len() {
        if names[i] == line.name && !rows_fit(rows[i], cols[i], &line.rows) {
            return false;
        }
    }
    true
}

/// Whether each line fits.
fn lines_fit(names: &Seq<Name>, rows: &Seq<u32>, cols: &Seq<u32>, lines: &Seq<AtLine>) -> bool
    requires rows { length rows.now ≡ length names.now }
    requires cols { length cols.now ≡ length names.now }
    ensures { result ≡ lines_fit names.now (slice_index rows.now) (slice_index cols.now) lines.now }
{
    for j in 0..lines.len() {
        if !line_fits(names, rows, cols, &lines[j]) {
            return false;
        }
    }
    true
}

/// Refuses lines of which two have one name or one does not fit. The matrix at a name has the rows and columns at its place.
pub(crate) fn shapes_fit(
    names: &Seq<Name>,
    rows: &Seq<u32>,
    cols: &Seq<u32>,
    lines: &Seq<AtLine>,
) -> Result<(), Stop>
    requires rows { length rows.now ≡ length names.now }
    requires cols { length cols.now ≡ length names.now }
    ensures tested { Tested (unless (all_different (line_names lines.now) && lines_fit names.now (slice_index rows.now) (slice_index cols.now) lines.now) why.Shape) result }
    ensures fit { IfOk result (λ _. lines_fit names.now (slice_index rows.now) (slice_index cols.now) lines.now ≡ true) }
{
    if !are_different(lines) {
        return Err(Stop::Refused(Why::Shape));
    }
    if !lines_fit(names, rows, cols, lines) {
        return Err(Stop::Refused(Why::Shape));
    }
    Ok(())
}
