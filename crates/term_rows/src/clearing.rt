//! Lent memory without what was in it.
ghost use Rattle.std.specs.Prelude.{ℕ};
ghost use Rattle.linear_algebra.specs.Field.{Gf};
ghost use Rattle.fp_linear.specs.Slices.{AreElements};
ghost use Rattle.fp_linear.specs.Meeting.{IsClearFrom};

/// Writes zeros.
pub(crate) fn clear(entries: &mut [u8])
    ensures clear { IsClearFrom 0 entries.new }
    ensures elements { (q : Gf) → AreElements q entries.new }
{
    for k in 0..entries.len() {
        entries[k] = 0;
    }
}
