//! Whether a row is a member of a space.
ghost use Rattle.std.specs.Prelude.{ℕ, ◌≡◌, ◌<◌, length, slice_index, MatchBool};
ghost use Rattle.linear_algebra.specs.Rank.{IsInSpan};
ghost use Rattle.linear_algebra.specs.Typed.{as_row};
ghost use Rattle.fp_linear.specs.Slices.{AreElements};
ghost use Rattle.module_checks.specs.RowWalks.{AreAllZero};
ghost use Rattle.local_checks.specs.Standing.{IsSpace, space};

use fp_linear::{Field, clear_row};

/// Whether all numbers are zero.
pub(crate) fn is_zero(row: &[u8]) -> bool
    ensures { MatchBool result (AreAllZero row.now) (¬ AreAllZero row.now) }
{
    for j in 0..row.len() {
        if row[j] != 0 {
            return false;
        }
    }
    true
}

/// Whether the row `x` is a member of the space that `rows` with these `pivots` span. It is worked in: what is left is its remainder.
pub fn is_member(field: Field, rows: &[u8], pivots: &[u32], x: &mut [u8]) -> bool
    requires space { IsSpace field (length x.old) rows.now pivots.now }
    requires elements { AreElements field x.old }
    ensures elements { AreElements field x.new }
    ensures member { MatchBool result (IsInSpan (space field (length x.old) rows.now pivots.now) (as_row field (length x.old) x.old))
        (¬ IsInSpan (space field (length x.old) rows.now pivots.now) (as_row field (length x.old) x.old)) }
{
    clear_row(field, rows, pivots, x);
    is_zero(x)
}
