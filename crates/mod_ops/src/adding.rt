//! A module and a map from it or to it, put behind the other entries.
ghost use Rattle.std.specs.Prelude.{◌≡◌, IfOk, OnErr};
ghost use Rattle.module_faults.specs.ModuleFaults.{IsSmallModule};
ghost use Rattle.module_faults.specs.MapFaults.{IsSmallMap};
ghost use Rattle.rep_arena.specs.Entries.{NamesModule, module_at, with_module, IsMapAmong};
ghost use Rattle.mod_ops.specs.Results.{HasRoom, Adds, inclusion_of, projection_of};

use module_operations::MappedModule;
use rep_arena::{Arena, Map, MapId, Module, RepId};
use std::alloc::AllocError;

/// Adds a module and its inclusion into one that stands. Where there is no memory the lists are as before.
pub(crate) fn add_inclusion(
    arena: &mut Arena<'_, '_>,
    found: MappedModule,
    target: RepId,
) -> Result<(RepId, MapId), AllocError>
    requires small { IsSmallModule arena.old.header found.module }
    requires target { NamesModule arena.old target.number }
    requires map { IsSmallMap arena.old.header found.module (module_at arena.old target.number) found.matrices }
    requires room { HasRoom arena.old }
    ensures added { IfOk result (λ ids. Adds arena.old arena.new found.module (inclusion_of arena.old target.number found.matrices) ids.0.number ids.1.number) }
    ensures refused { OnErr result (arena.new ≡ arena.old) }
{
    let number = arena.module_count() + 1;
    let map = Map {
        source: number,
        target: target.number,
        matrices: found.matrices,
    };
    let ids = add_both(arena, found.module, map)?;
    Ok(ids)
}

/// Adds a module and the projection onto it of one that stands. Where there is no memory the lists are as before.
pub(crate) fn add_projection(
    arena: &mut Arena<'_, '_>,
    source: RepId,
    found: MappedModule,
) -> Result<(RepId, MapId), AllocError>
    requires small { IsSmallModule arena.old.header found.module }
    requires source { NamesModule arena.old source.number }
    requires map { IsSmallMap arena.old.header (module_at arena.old source.number) found.module found.matrices }
    requires room { HasRoom arena.old }
    ensures added { IfOk result (λ ids. Adds arena.old arena.new found.module (projection_of arena.old source.number found.matrices) ids.0.number ids.1.number) }
    ensures refused { OnErr result (arena.new ≡ arena.old) }
{
    let number = arena.module_count() + 1;
    let map = Map {
        source: source.number,
        target: number,
        matrices: found.matrices,
    };
    let ids = add_both(arena, found.module, map)?;
    Ok(ids)
}

/// Adds a module and then a map. Where there is no memory for both neither is added.
fn add_both(arena: &mut Arena<'_, '_>, m: Module, f: Map) -> Result<(RepId, MapId), AllocError>
    requires small { IsSmallModule arena.old.header m }
    requires map { IsMapAmong (with_module arena.old m) f }
    requires room { HasRoom arena.old }
    ensures added { IfOk result (λ ids. Adds arena.old arena.new m f ids.0.number ids.1.number) }
    ensures refused { OnErr result (arena.new ≡ arena.old) }
{
    let mark = arena.mark();
    let id = arena.put_module(m)?;
    let added = arena.put_map(f);
    match added {
        Ok(map) => Ok((id, map)),
        Err(none) => {
            arena.release(mark);
            Err(none)
        }
    }
}
