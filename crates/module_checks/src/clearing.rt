//! Lent memory without what was in it.
ghost use Rattle.std.specs.Prelude.{ℕ, ◌≡◌, MatchBool};
ghost use Rattle.linear_algebra.specs.Field.{Gf};
ghost use Rattle.fp_linear.specs.Slices.{AreElements};
ghost use Rattle.fp_linear.specs.Meeting.{IsClearFrom};
ghost use Rattle.module_checks.specs.RowWalks.{AreAllZero};

/// Writes zeros.
pub fn clear(entries: &mut [u8])
    ensures clear { IsClearFrom 0 entries.new }
    ensures elements { (q : Gf) → AreElements q entries.new }
{
    for k in 0..entries.len() {
        entries[k] = 0;
    }
}

/// Whether all numbers are zero.
pub(crate) fn is_zero(row: &[u8]) -> bool
    ensures { MatchBool result (AreAllZero row.now) (¬ AreAllZero row.now) }
{
    for j in 0..row.len() {
        if row[j] != 0 {
            return false;
        }
    }
    true
}
