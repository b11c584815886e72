//! Coordinates of rows over a basis in reduced row form, in lent memory.
ghost use Rattle.std.specs.Prelude.{ℕ, ◌≡◌, ◌<◌, ◌≤◌, ◌+◌, ◌*◌, length, slice_index, MatchBool};
ghost use Rattle.linear_algebra.specs.Field.{Gf, order};
ghost use Rattle.fp_linear.specs.Slices.{AreElements};
ghost use Rattle.cover_checks.specs.Bases.{combined_entry, GivesBack, AreAtPlaces};

use fp_linear::Field;
use module_checks::clear;

/// Writes the numbers of the row at the first `count` places, and zeros behind them.
fn take_places(count: usize, width: usize, places: &[u32], row: &[u8], coordinates: &mut [u8])
    requires places { (i : ℕ) → i < count → slice_index places.now i < width }
    requires few { count ≤ length places.now }
    requires inside { width ≤ length row.now }
    requires room { count ≤ length coordinates.old }
    ensures taken { AreAtPlaces count places.now row.now coordinates.new }
    ensures elements { (q : Gf) → AreElements q row.now → AreElements q coordinates.new }
{
    clear(coordinates);
    for i in 0..count {
        coordinates[i] = row[places[i] as usize];
    }
}

/// Entry `j` of the first `count` numbers times the rows of `width` numbers.
fn entry_of(
    field: Field,
    count: usize,
    width: usize,
    coordinates: &[u8],
    basis: &[u8],
    j: usize,
) -> u8
    requires elements { AreElements field coordinates.now }
    requires basis_elements { AreElements field basis.now }
    requires column { j < width }
    requires room { count ≤ length coordinates.now }
    requires inside { count * width ≤ length basis.now }
    ensures { result ≡ combined_entry field count width coordinates.now basis.now j }
{
    let mut sum = 0;
    for i in 0..count {
        sum = field.add(sum, field.mul(coordinates[i], basis[i * width + j]));
    }
    sum
}

/// Whether the coordinates give back the first `width` numbers of the row.
fn give_back(
    field: Field,
    count: usize,
    width: usize,
    coordinates: &[u8],
    basis: &[u8],
    row: &[u8],
) -> bool
    requires elements { AreElements field coordinates.now }
    requires basis_elements { AreElements field basis.now }
    requires room { count ≤ length coordinates.now }
    requires inside { count * width ≤ length basis.now }
    requires row { width ≤ length row.now }
    ensures { MatchBool result
        (GivesBack field count width coordinates.now basis.now row.now width)
        (¬ GivesBack field count width coordinates.now basis.now row.now width) }
{
    for j in 0..width {
        if entry_of(field, count, width, coordinates, basis, j) != row[j] {
            return false;
        }
    }
    true
}

/// Writes the coordinates of the row over the first `count` rows of `width` numbers, which have their pivots at the places, and answers whether it is a
/// combination of them.
pub fn find_coordinates(
    field: Field,
    count: usize,
    width: usize,
    basis: &[u8],
    places: &[u32],
    row: &[u8],
    coordinates: &mut [u8],
) -> bool
    requires basis_elements { AreElements field basis.now }
    requires inside { count * width ≤ length basis.now }
    requires places { (i : ℕ) → i < count → slice_index places.now i < width }
    requires few { count ≤ length places.now }
    requires row { width ≤ length row.now }
    requires row_elements { AreElements field row.now }
    requires room { count ≤ length coordinates.old }
    ensures taken { AreAtPlaces count places.now row.now coordinates.new }
    ensures elements { AreElements field coordinates.new }
    ensures back { MatchBool result
        (GivesBack field count width coordinates.new basis.now row.now width)
        (¬ GivesBack field count width coordinates.new basis.now row.now width) }
{
    take_places(count, width, places, row, coordinates);
    give_back(field, count, width, coordinates, basis, row)
}
