//! Rows that stand for what comes along all paths of a length.
ghost use Rattle.std.specs.Prelude.{ℕ, ◌≡◌, ◌<◌, ◌≤◌, ◌+◌, ◌*◌, length, slice_index_or, IfOk};
ghost use Rattle.linear_algebra.specs.Rows.{rows_of};
ghost use Rattle.fp_linear.specs.Slices.{AreElements};
ghost use Rattle.fp_linear.specs.Matrix.{plain, PlainMatrix};
ghost use Rattle.path_algebra.specs.Allowed.{IsAllowed};
ghost use Rattle.module_types.specs.Algebras.{algebra_at};
ghost use Rattle.module_types.specs.Readings.{read};
ghost use Rattle.module_types.specs.Shapes.{IsModule, dimension};
ghost use Rattle.module_checks.specs.Room.{IsRoom};
ghost use Rattle.module_faults.specs.Levels.{IsLevel};

use fp_linear::{Field, Matrix};
use module_checks::{clear, next_images, write_unit_rows};
use module_types::Module;
use path_algebra::Header;
use seq::Seq;
use std::alloc::{AllocError, Global};

/// The first `count` rows of a slice as a matrix.
fn first_rows(
    alloc: Global,
    field: Field,
    unknowns: u32,
    count: u32,
    images: &[u8],
) -> Result<Matrix, AllocError>
    requires few { count ≤ 513 }
    requires unknowns { unknowns ≤ 256 }
    requires images { count * unknowns ≤ length images.now }
    requires elements { AreElements field images.now }
    ensures { IfOk result (λ m. m ≡ plain field count unknowns (rows_of count unknowns images.now)) }
{
    let size = count as usize * unknowns as usize;
    let matrix = Matrix::from_entries(alloc, field, count, unknowns, &images[..size])?;
    Ok(matrix)
}

/// For each length below the bound, rows that stand for what comes along all paths of that length. The slices have the room of `rows` rows, more than twice
/// as many as the dimension, and are worked in.
pub(crate) fn levels(
    alloc: Global,
    header: &Header,
    m: &Module,
    rows: u32,
    images: &mut [u8],
    entries: &mut [u8],
    pivots: &mut [u32],
) -> Result<Seq<Matrix>, AllocError>
    requires allowed { IsAllowed header.now }
    requires m { IsModule header.now.field (algebra_at m.now.side header.now).quiver m.now }
    requires rows { rows ≤ 513 }
    requires room { IsRoom (dimension m.now.dims) rows entries.old pivots.old }
    requires images { length images.old ≡ length entries.old }
    ensures count { IfOk result (λ levels. length levels ≡ header.now.bound) }
    ensures each { IfOk result (λ levels. (j : ℕ) (d : PlainMatrix) → j < header.now.bound → IsLevel (read header.now m.now) j (dimension m.now.dims) (slice_index_or levels j d)) }
{
    let unknowns = m.dimension() as u32;
    let mut levels = Vec::with_capacity(alloc, header.bound as usize)?;
    let mut count = unknowns;
    write_unit_rows(count, images);
    for k in 0..header.bound {
        let level = first_rows(alloc, header.field, unknowns, count, images)?;
        levels.push(level)?;
        clear(entries);
        count = next_images(header, m, unknowns, rows, count, images, entries, pivots);
        images.copy_from_slice(entries);
    }
    Ok(Seq::from_vec(levels))
}
