//! Putting matrices, modules and maps into an arena of bytes.
ghost use Rattle.std.specs.Prelude.{◌≡◌, [], ◌∷◌, ◌++◌, IfOk, OnOk, OnErr, is_ok, if◌then◌else◌};

use crate::marks::RepId;
use crate::views::{MapRef, MatrixRef, ModuleRef};
use bumpalo::Bump;
use bumpalo::collections::into_bump_slice;
use fp_linear::Matrix;
use module_types::{Map, Module};
use seq::Seq;
use std::alloc::AllocError;

/// Adds an item behind the others; where there is no memory the list is as before.
pub(crate) fn push<T: Drop>(list: &mut Vec<T>, item: T) -> Result<(), AllocError>
    ensures { list.new.items ≡ (if is_ok result then list.old.items ++ item ∷ [] else list.old.items) }
{
    list.push(item)?;
    Ok(())
}

/// Puts a matrix into the arena.
fn store_matrix<'a>(bump: &'a Bump, matrix: &Matrix) -> Result<MatrixRef<'a>, AllocError>
    ensures { IfOk result (λ stored. stored ≡ matrix.now) }
{
    let rows = matrix.rows();
    let cols = matrix.cols();
    let mut entries = Vec::with_capacity(bump, rows as usize * cols as usize)?;
    for i in 0..rows {
        entries.extend_from_slice(matrix.row(i))?;
    }
    Ok(MatrixRef {
        field: matrix.field(),
        rows,
        cols,
        entries: into_bump_slice(entries),
    })
}

fn store_matrices<'a>(
    bump: &'a Bump,
    matrices: &Seq<Matrix>,
) -> Result<&'a [MatrixRef<'a>], AllocError>
    ensures { IfOk result (λ stored. stored.now ≡ matrices.now) }
{
    let mut stored = Vec::with_capacity(bump, matrices.len())?;
    for i in 0..matrices.len() {
        let matrix = store_matrix(bump, &matrices[i])?;
        stored.push(matrix)?;
    }
    Ok(into_bump_slice(stored))
}

/// Puts a module into the arena.
pub(crate) fn store_module<'a>(bump: &'a Bump, m: &Module) -> Result<ModuleRef<'a>, AllocError>
    ensures { IfOk result (λ stored. stored ≡ m.now) }
{
    let dims: &'a [u32] = bump.try_alloc_slice_copy(m.dims.as_slice())?;
    let matrices = store_matrices(bump, &m.matrices)?;
    Ok(ModuleRef {
        side: m.side,
        dims,
        matrices,
    })
}

/// Puts a map into the arena.
pub(crate) fn store_map<'a>(bump: &'a Bump, f: &Map) -> Result<MapRef<'a>, AllocError>
    ensures { IfOk result (λ stored. stored ≡ f.now) }
{
    let matrices = store_matrices(bump, &f.matrices)?;
    Ok(MapRef {
        source: RepId { number: f.source },
        target: RepId { number: f.target },
        matrices,
    })
}

/// Copies a matrix from where it stands into the arena.
fn copy_matrix<'a>(bump: &'a Bump, matrix: &MatrixRef<'_>) -> Result<MatrixRef<'a>, AllocError>
    ensures { IfOk result (λ copy. copy ≡ matrix.now) }
{
    let entries: &'a [u8] = bump.try_alloc_slice_copy(matrix.entries)?;
    Ok(MatrixRef {
        field: matrix.field,
        rows: matrix.rows,
        cols: matrix.cols,
        entries,
    })
}

fn copy_matrices<'a>(
    bump: &'a Bump,
    matrices: &[MatrixRef<'_>],
) -> Result<&'a [MatrixRef<'a>], AllocError>
    ensures { IfOk result (λ copies. copies.now ≡ matrices.now) }
{
    let mut copies = Vec::with_capacity(bump, matrices.len())?;
    for i in 0..matrices.len() {
        let matrix = copy_matrix(bump, &matrices[i])?;
        copies.push(matrix)?;
    }
    Ok(into_bump_slice(copies))
}

/// Copies a module from where it stands into the arena.
pub(crate) fn copy_module<'a>(
    bump: &'a Bump,
    m: &ModuleRef<'_>,
) -> Result<ModuleRef<'a>, AllocError>
    ensures { IfOk result (λ copy. copy ≡ m.now) }
{
    let dims: &'a [u32] = bump.try_alloc_slice_copy(m.dims)?;
    let matrices = copy_matrices(bump, m.matrices)?;
    Ok(ModuleRef {
        side: m.side,
        dims,
        matrices,
    })
}

/// Copies a map from where it stands into the arena.
pub(crate) fn copy_map<'a>(bump: &'a Bump, f: &MapRef<'_>) -> Result<MapRef<'a>, AllocError>
    ensures { IfOk result (λ copy. copy ≡ f.now) }
{
    let matrices = copy_matrices(bump, f.matrices)?;
    Ok(MapRef {
        source: f.source,
        target: f.target,
        matrices,
    })
}

/// Copies modules into the arena, behind those of a list; where there is no memory the list is as before.
fn append_modules<'a>(
    bump: &'a Bump,
    modules: &Vec<ModuleRef<'_>>,
    into: &mut Vec<ModuleRef<'a>>,
) -> Result<(), AllocError>
    ensures appended { OnOk result (into.new.items ≡ into.old.items ++ modules.now.items) }
    ensures refused { OnErr result (into.new.items ≡ into.old.items) }
{
    let before = into.len();
    for i in 0..modules.len() {
        if push_module(bump, &modules[i], into).is_err() {
            into.truncate(before);
            return Err(AllocError);
        }
    }
    Ok(())
}

fn push_module<'a>(
    bump: &'a Bump,
    m: &ModuleRef<'_>,
    into: &mut Vec<ModuleRef<'a>>,
) -> Result<(), AllocError>
    ensures pushed { OnOk result (into.new.items ≡ into.old.items ++ m.now ∷ []) }
    ensures refused { OnErr result (into.new.items ≡ into.old.items) }
{
    let copy = copy_module(bump, m)?;
    into.push(copy)?;
    Ok(())
}

/// Copies maps into the arena, behind those of a list; where there is no memory the list is as before.
fn append_maps<'a>(
    bump: &'a Bump,
    maps: &Vec<MapRef<'_>>,
    into: &mut Vec<MapRef<'a>>,
) -> Result<(), AllocError>
    ensures appended { OnOk result (into.new.items ≡ into.old.items ++ maps.now.items) }
    ensures refused { OnErr result (into.new.items ≡ into.old.items) }
{
    let before = into.len();
    for i in 0..maps.len() {
        if push_map(bump, &maps[i], into).is_err() {
            into.truncate(before);
            return Err(AllocError);
        }
    }
    Ok(())
}

fn push_map<'a>(
    bump: &'a Bump,
    f: &MapRef<'_>,
    into: &mut Vec<MapRef<'a>>,
) -> Result<(), AllocError>
    ensures pushed { OnOk result (into.new.items ≡ into.old.items ++ f.now ∷ []) }
    ensures refused { OnErr result (into.new.items ≡ into.old.items) }
{
    let copy = copy_map(bump, f)?;
    into.push(copy)?;
    Ok(())
}

/// Copies modules and maps into the arena, behind those of two lists; where there is no memory the lists are as before.
pub(crate) fn append_entries<'a>(
    bump: &'a Bump,
    modules: &Vec<ModuleRef<'_>>,
    maps: &Vec<MapRef<'_>>,
    into_modules: &mut Vec<ModuleRef<'a>>,
    into_maps: &mut Vec<MapRef<'a>>,
) -> Result<(), AllocError>
    ensures modules { OnOk result (into_modules.new.items ≡ into_modules.old.items ++ modules.now.items) }
    ensures maps { OnOk result (into_maps.new.items ≡ into_maps.old.items ++ maps.now.items) }
    ensures modules_refused { OnErr result (into_modules.new.items ≡ into_modules.old.items) }
    ensures maps_refused { OnErr result (into_maps.new.items ≡ into_maps.old.items) }
{
    let before = into_modules.len();
    append_modules(bump, modules, into_modules)?;
    if append_maps(bump, maps, into_maps).is_err() {
        into_modules.truncate(before);
        return Err(AllocError);
    }
    Ok(())
}
