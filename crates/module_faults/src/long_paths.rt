//! The first path of the bound's length that does not act as zero on a module, without the list of the paths.
ghost use Rattle.std.specs.Prelude.{ℕ, ◌≡◌, ◌<◌, ◌-◌, length, slice_index, slice_index_or, IfOk, MatchOption};
ghost use Rattle.quiver_paths.specs.Quiver.{arrow_count, source, target};
ghost use Rattle.fp_linear.specs.Matrix.{PlainMatrix};
ghost use Rattle.path_algebra.specs.Allowed.{IsAllowed};
ghost use Rattle.representations.specs.Dual.{dual};
ghost use Rattle.bound_algebra.specs.TypedPaths.{quiver_of};
ghost use Rattle.module_types.specs.declared.Side.TheVariants.{Right};
ghost use Rattle.module_types.specs.Algebras.{algebra_at};
ghost use Rattle.module_types.specs.Readings.{read, rep_of};
ghost use Rattle.module_types.specs.Shapes.{IsModule, dimension};
ghost use Rattle.module_types.specs.Written.{dual_of};
ghost use Rattle.module_checks.specs.PathImages.{LongPathsActAsZero};
ghost use Rattle.module_checks.specs.Room.{IsRoom};
ghost use Rattle.module_faults.specs.Levels.{IsLevel};
ghost use Rattle.module_faults.specs.PathActions.{IsFirstAlong, IsFirstLongPath};

use crate::duals::dual_module;
use crate::levels::levels;
use crate::next_arrows::next_arrow;
use fp_linear::Matrix;
use module_checks::write_unit_rows;
use module_types::{Module, Side};
use path_algebra::Header;
use quiver_paths::Path;
use seq::Seq;
use std::alloc::{AllocError, Global};

/// The path of these arrows.
fn path_along(header: &Header, arrows: Vec<u8>) -> Path
    requires some { 0 < length arrows.items }
    requires arrows { (k : ℕ) → k < length arrows.items → slice_index arrows.items k < arrow_count header.now.quiver }
    ensures start { result.start ≡ source header.now.quiver (slice_index arrows.items 0) }
    ensures end { result.end ≡ target header.now.quiver (slice_index arrows.items (length arrows.items - 1)) }
    ensures arrows { result.arrows ≡ arrows.items }
{
    let first = arrows[0] as usize;
    let last = arrows[arrows.len() - 1] as usize;
    Path {
        start: header.quiver.arrows[first].from,
        end: header.quiver.arrows[last].to,
        arrows: Seq::from_vec(arrows),
    }
}

/// The first path of the bound's length that does not act as zero on a right module, by the levels of its dual, with slices to work in.
fn first_path(
    alloc: Global,
    header: &Header,
    m: &Module,
    levels: &Seq<Matrix>,
    rows: u32,
    images: &mut [u8],
    entries: &mut [u8],
    pivots: &mut [u32],
) -> Result<Option<Path>, AllocError>
    requires allowed { IsAllowed header.now }
    requires side { m.now.side ≡ Right }
    requires m { IsModule header.now.field (quiver_of header.now.quiver) m.now }
    requires count { length levels.now ≡ header.now.bound }
    requires levels { (j : ℕ) (d : PlainMatrix) → j < header.now.bound
        → IsLevel (dual (rep_of header.now.field (quiver_of header.now.quiver) m.now)) j (dimension m.now.dims) (slice_index_or levels.now j d) }
    requires room { IsRoom (dimension m.now.dims) rows entries.old pivots.old }
    requires images { length images.old ≡ length entries.old }
    ensures { IfOk result (λ found. MatchOption found
        (LongPathsActAsZero (rep_of header.now.field (quiver_of header.now.quiver) m.now) header.now.bound)
        (IsFirstAlong Right header.now (rep_of header.now.field (quiver_of header.now.quiver) m.now))) }
{
    let unknowns = m.dimension() as u32;
    let mut arrows = Vec::with_capacity(alloc, header.bound as usize)?;
    let mut count = unknowns;
    write_unit_rows(count, images);
    for k in 0..header.bound {
        let level = &levels[(header.bound - 1 - k) as usize];
        let Some((arrow, used)) = next_arrow(
            header, m, level, unknowns, rows, count, images, entries, pivots,
        ) else {
            return Ok(None);
        };
        arrows.push(arrow)?;
        count = used;
        images.copy_from_slice(entries);
    }
    Ok(Some(path_along(header, arrows)))
}

/// The same for a right module and its dual.
fn first_path_with(
    alloc: Global,
    header: &Header,
    m: &Module,
    dual: &Module,
) -> Result<Option<Path>, AllocError>
    requires allowed { IsAllowed header.now }
    requires side { m.now.side ≡ Right }
    requires m { IsModule header.now.field (quiver_of header.now.quiver) m.now }
    requires dual { dual.now ≡ dual_of header.now.field (quiver_of header.now.quiver) m.now }
    ensures { IfOk result (λ found. MatchOption found
        (LongPathsActAsZero (rep_of header.now.field (quiver_of header.now.quiver) m.now) header.now.bound)
        (IsFirstAlong Right header.now (rep_of header.now.field (quiver_of header.now.quiver) m.now))) }
{
    let unknowns = m.dimension() as u32;
    let rows = 2 * unknowns + 1;
    let size = rows as usize * unknowns as usize;
    let mut images = vec![in alloc; 0u8; size]?;
    let mut entries = vec![in alloc; 0u8; size]?;
    let mut pivots = vec![in alloc; 0u32; rows as usize]?;
    let levels = levels(
        alloc,
        header,
        dual,
        rows,
        &mut images,
        &mut entries,
        &mut pivots,
    )?;
    let found = first_path(
        alloc,
        header,
        m,
        &levels,
        rows,
        &mut images,
        &mut entries,
        &mut pivots,
    )?;
    Ok(found)
}

/// The first path of the bound's length that does not act as zero; none where all do. Its arrows are found one by one from the left: the next is the first
/// behind which something is left of the rows that went along those before it, by the rows that all paths of the remaining length take to zero.
pub fn first_long_path(
    alloc: Global,
    header: &Header,
    m: &Module,
) -> Result<Option<Path>, AllocError>
    requires allowed { IsAllowed header.now }
    requires m { IsModule header.now.field (algebra_at m.now.side header.now).quiver m.now }
    ensures { IfOk result (λ found. MatchOption found (LongPathsActAsZero (read header.now m.now) header.now.bound) (IsFirstLongPath header.now m.now)) }
{
    let dual = dual_module(alloc, header, m)?;
    match m.side {
        Side::Right => {
            let found = first_path_with(alloc, header, m, &dual)?;
            Ok(found)
        }
        Side::Left => {
            let found = first_path_with(alloc, header, &dual, m)?;
            Ok(found)
        }
    }
}
