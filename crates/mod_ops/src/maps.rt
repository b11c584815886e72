//! Kernels, cokernels and images of the maps of an arena.
ghost use Rattle.std.specs.Prelude.{◌≡◌, IfOk, OnErr};
ghost use Rattle.rep_arena.specs.Entries.{NamesMap};
ghost use Rattle.mod_ops.specs.Results.{HasRoom, AddsKernel, AddsCokernel, AddsImage};

use crate::adding::{add_inclusion, add_projection};
use rep_arena::{Arena, MapId, RepId};
use std::alloc::{AllocError, Global};

/// Adds the kernel of a map and its inclusion, in reduced row form at each vertex, and answers their numbers. After a refusal the lists are as before.
pub fn kernel(
    alloc: Global,
    arena: &mut Arena<'_, '_>,
    f: MapId,
) -> Result<(RepId, MapId), AllocError>
    requires map { NamesMap arena.old f.number }
    requires room { HasRoom arena.old }
    ensures kernel { IfOk result (λ ids. AddsKernel arena.old arena.new f.number ids.0.number ids.1.number) }
    ensures refused { OnErr result (arena.new ≡ arena.old) }
{
    let (source, _) = arena.ends(f);
    let a = arena.module(source).to_module(alloc)?;
    let map = arena.map(f).to_map(alloc)?;
    let found = module_operations::kernel(alloc, arena.header(), &a, &map.matrices)?;
    let ids = add_inclusion(arena, found, source)?;
    Ok(ids)
}

/// Adds the cokernel of a map and its projection, co-reduced at each vertex, and answers their numbers. After a refusal the lists are as before.
pub fn cokernel(
    alloc: Global,
    arena: &mut Arena<'_, '_>,
    f: MapId,
) -> Result<(RepId, MapId), AllocError>
    requires map { NamesMap arena.old f.number }
    requires room { HasRoom arena.old }
    ensures cokernel { IfOk result (λ ids. AddsCokernel arena.old arena.new f.number ids.0.number ids.1.number) }
    ensures refused { OnErr result (arena.new ≡ arena.old) }
{
    let (_, target) = arena.ends(f);
    let b = arena.module(target).to_module(alloc)?;
    let map = arena.map(f).to_map(alloc)?;
    let found = module_operations::cokernel(alloc, arena.header(), &b, &map.matrices)?;
    let ids = add_projection(arena, target, found)?;
    Ok(ids)
}

/// Adds the image of a map and its inclusion, in reduced row form at each vertex, and answers their numbers. After a refusal the lists are as before.
pub fn image(
    alloc: Global,
    arena: &mut Arena<'_, '_>,
    f: MapId,
) -> Result<(RepId, MapId), AllocError>
    requires map { NamesMap arena.old f.number }
    requires room { HasRoom arena.old }
    ensures image { IfOk result (λ ids. AddsImage arena.old arena.new f.number ids.0.number ids.1.number) }
    ensures refused { OnErr result (arena.new ≡ arena.old) }
{
    let (_, target) = arena.ends(f);
    let b = arena.module(target).to_module(alloc)?;
    let map = arena.map(f).to_map(alloc)?;
    let found = module_operations::image(alloc, arena.header(), &b, &map.matrices)?;
    let ids = add_inclusion(arena, found, target)?;
    Ok(ids)
}
