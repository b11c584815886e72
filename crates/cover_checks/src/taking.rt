//! Coordinates of rows, folded into rows in lent memory.
ghost use Rattle.std.specs.Prelude.{ℕ, ⊤, ◌≡◌, ◌<◌, ◌≤◌, ◌+◌, ◌*◌, length, slice_index, MatchOption};
ghost use Rattle.fp_linear.specs.Slices.{AreElements};
ghost use Rattle.fp_linear.specs.Meeting.{IsClearFrom};
ghost use Rattle.module_checks.specs.Room.{IsRoom};
ghost use Rattle.module_checks.specs.Commuting.{AsksMore};
ghost use Rattle.cover_checks.specs.Bases.{GivesBack, AreAtPlaces, RowKilled};

use crate::coordinates::find_coordinates;
use crate::copying::append_row;
use fp_linear::Field;
use module_checks::make_room;

/// Folds the coordinates of the row over a basis of `size` rows of `width` numbers into the rows, of which the first `used` are taken, and answers how
/// many are taken then; none where the row is no combination of the basis.
pub fn fold_coordinates(
    field: Field,
    size: u32,
    width: usize,
    basis: &[u8],
    places: &[u32],
    row: &[u8],
    rows: u32,
    used: u32,
    entries: &mut [u8],
    pivots: &mut [u32],
    coordinates: &mut [u8],
) -> Option<u32>
    requires basis_elements { AreElements field basis.now }
    requires inside { size * width ≤ length basis.now }
    requires places { (i : ℕ) → i < size → slice_index places.now i < width }
    requires few { size ≤ length places.now }
    requires row { width ≤ length row.now }
    requires row_elements { AreElements field row.now }
    requires coordinates { size ≤ length coordinates.old }
    requires room { IsRoom size rows entries.old pivots.old }
    requires elements { AreElements field entries.old }
    requires clear { IsClearFrom (used * size) entries.old }
    requires used { used ≤ rows }
    ensures elements { AreElements field entries.new }
    ensures used { MatchOption result ⊤ (λ u. (u ≤ rows) × IsClearFrom (u * size) entries.new) }
    ensures taken { AreAtPlaces size places.now row.now coordinates.new }
    ensures folded { MatchOption result
        (¬ GivesBack field size width coordinates.new basis.now row.now width)
        (λ u. GivesBack field size width coordinates.new basis.now row.now width × AsksMore field size rows entries.old entries.new (RowKilled field size coordinates.new)) }
{
    let stays = find_coordinates(field, size as usize, width, basis, places, row, coordinates);
    if !stays {
        return None;
    }
    let place = make_room(field, size, rows, used, entries, pivots);
    append_row(field, size, rows, place, coordinates, entries);
    Some(place + 1)
}
