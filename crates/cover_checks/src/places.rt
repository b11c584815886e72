//! The pivots of rows in lent memory.
ghost use Rattle.std.specs.Prelude.{ℕ, ◌≡◌, ◌≢◌, ◌<◌, ◌≤◌, ◌+◌, ◌*◌, length, slice_index};
ghost use Rattle.cover_checks.specs.Bases.{ArePlaces};

/// The place of the first of the `width` numbers from `start` on that is not zero, and `width` where there is none.
fn first_nonzero(entries: &[u8], start: usize, width: usize) -> usize
    requires inside { start + width ≤ length entries.now }
    ensures before { (j : ℕ) → j < result → slice_index entries.now (start + j) ≡ 0 }
    ensures here { result < width → slice_index entries.now (start + result) ≢ 0 }
    ensures fits { result ≤ width }
{
    for j in 0..width {
        if entries[start + j] != 0 {
            return j;
        }
    }
    width
}

/// Writes the places of the first numbers that are not zero in the first `count` rows of `width` numbers, none of which is zero.
pub fn write_places(count: usize, width: u32, entries: &[u8], places: &mut [u32])
    requires inside { count * width ≤ length entries.now }
    requires room { count ≤ length places.old }
    requires nonzero { (i : ℕ) → i < count → (p : ℕ) × (p < width) × (slice_index entries.now (i * width + p) ≢ 0) }
    ensures places { ArePlaces width count entries.now places.new }
{
    for i in 0..count {
        places[i] = first_nonzero(entries, i * width as usize, width as usize) as u32;
    }
}
