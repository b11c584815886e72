//! Whether all paths of the bound's length act as zero on a module, by the images of the arrows and without the list of the paths.
ghost use Rattle.std.specs.Prelude.{ℕ, ◌≡◌, ◌<◌, ◌≤◌, ◌+◌, ◌*◌, length, slice_index, MatchBool};
ghost use Rattle.linear_algebra.specs.Field.{Gf};
ghost use Rattle.linear_algebra.specs.BlockFamilies.{total};
ghost use Rattle.fp_linear.specs.Slices.{AreElements};
ghost use Rattle.fp_linear.specs.Meeting.{IsClearFrom};
ghost use Rattle.path_algebra.specs.Allowed.{IsAllowed};
ghost use Rattle.module_types.specs.Algebras.{algebra_at};
ghost use Rattle.module_types.specs.Readings.{read};
ghost use Rattle.module_types.specs.Shapes.{IsModule, dimension};
ghost use Rattle.module_checks.specs.Room.{IsRoom};
ghost use Rattle.module_checks.specs.PathImages.{IsUnitRows, AskImages, HoldPaths, LongPathsActAsZero};

use crate::clearing::{clear, is_zero};
use crate::images::fold_images;
use fp_linear::echelon_rows;
use module_types::{Module, source_at, target_at};
use path_algebra::Header;
use seq::Seq;

/// How many coordinates stand before those of a vertex.
pub fn first_place(dims: &Seq<u32>, vertex: u8) -> usize
    requires vertex { vertex < length dims.now }
    requires small { (v : ℕ) → slice_index dims.now v ≤ 256 }
    ensures { result ≡ total vertex (slice_index dims.now) }
{
    let mut count: usize = 0;
    for v in 0..vertex as usize {
        count += dims[v] as usize;
    }
    count
}

/// Writes the rows of the identity matrix, and zeros behind them.
pub fn write_unit_rows(count: u32, entries: &mut [u8])
    requires { count * count ≤ length entries.old }
    ensures units { IsUnitRows count count entries.new }
    ensures elements { (q : Gf) → AreElements q entries.new }
{
    clear(entries);
    for i in 0..count {
        entries[i as usize * count as usize + i as usize] = 1;
    }
}

/// Writes into `entries`, which are zero, rows that span what the first `count` rows of `images` become along all arrows, and answers how many.
pub fn next_images(
    header: &Header,
    m: &Module,
    unknowns: u32,
    rows: u32,
    count: u32,
    images: &[u8],
    entries: &mut [u8],
    pivots: &mut [u32],
) -> u32
    requires allowed { IsAllowed header.now }
    requires m { IsModule header.now.field (algebra_at m.now.side header.now).quiver m.now }
    requires unknowns { unknowns ≡ dimension m.now.dims }
    requires count { count ≤ rows }
    requires image_elements { AreElements header.now.field images.now }
    requires images { length images.now ≡ rows * unknowns }
    requires zeros { IsClearFrom 0 entries.old }
    requires elements { AreElements header.now.field entries.old }
    requires room { IsRoom unknowns rows entries.old pivots.old }
    ensures count { result ≤ rows }
    ensures elements { AreElements header.now.field entries.new }
    ensures clear { IsClearFrom (result * unknowns) entries.new }
    ensures asked { AskImages (read header.now m.now) unknowns rows count (algebra_at m.now.side header.now).quiver.arrows images.now entries.new }
{
    let mut used = 0;
    for a in 0..header.quiver.arrows.len() {
        let source = first_place(&m.dims, source_at(header, m.side, a as u8));
        let target = first_place(&m.dims, target_at(header, m.side, a as u8));
        used = fold_images(
            header.field,
            unknowns,
            rows,
            used,
            &m.matrices[a],
            source,
            target,
            count,
            images,
            entries,
            pivots,
        );
    }
    echelon_rows(header.field, rows, unknowns, entries, pivots)
}

/// Whether all paths of the bound's length act as zero, on a module or on any representation. Both slices are worked in; each has the room of `rows`
/// rows, and what they hold before and after says nothing. With twice as many rows as the dimension the work is that of a few eliminations an arrow.
pub fn long_paths_act_as_zero(
    header: &Header,
    m: &Module,
    rows: u32,
    images: &mut [u8],
    entries: &mut [u8],
    pivots: &mut [u32],
) -> bool
    requires allowed { IsAllowed header.now }
    requires m { IsModule header.now.field (algebra_at m.now.side header.now).quiver m.now }
    requires room { IsRoom (dimension m.now.dims) rows entries.old pivots.old }
    requires images { length images.old ≡ length entries.old }
    ensures { MatchBool result
        (LongPathsActAsZero (read header.now m.now) header.now.bound)
        (¬ LongPathsActAsZero (read header.now m.now) header.now.bound) }
{
    let unknowns = m.dimension() as u32;
    let mut count = unknowns;
    write_unit_rows(count, images);
    for k in 0..header.bound {
        clear(entries);
        count = next_images(header, m, unknowns, rows, count, images, entries, pivots);
        images.copy_from_slice(entries);
    }
    is_zero(images)
}
