//! The entries of a command once some of them are kept and the others let go.
ghost use Rattle.std.specs.Prelude.{ℕ, ◌≡◌, ◌≤◌, ◌<◌, ◌+◌, ◌^◌, ◌-◌, ◌++◌, ◌⊎◌, IfOk, All, Contains, length, map, take};
ghost use Rattle.path_algebra.specs.Derivations.{IsNumber};
ghost use Rattle.rep_arena.specs.Entries.{numbered, no_module, no_map};
ghost use Rattle.rep_arena.specs.Marks.{module_numbers, map_numbers, new_number, renumbered};

use crate::marks::{MapId, RepId};
use crate::storing::{copy_map, copy_module};
use crate::views::{MapRef, ModuleRef};
use bumpalo::Bump;
use std::alloc::{AllocError, Global};

/// The module with a number, in the command's memory.
fn command_module<'c>(
    command: &'c Bump,
    old: &Vec<ModuleRef<'_>>,
    modules: &Vec<ModuleRef<'c>>,
    id: RepId,
) -> Result<ModuleRef<'c>, AllocError>
    requires { IsNumber (length (old.now.items ++ modules.now.items)) id.number }
    ensures { IfOk result (λ m. m ≡ numbered no_module (old.now.items ++ modules.now.items) id.number) }
{
    let at = id.number as usize - 1;
    if at < old.len() {
        let copy = copy_module(command, &old[at])?;
        return Ok(copy);
    }
    Ok(modules[at - old.len()].again())
}

/// The command's modules below a height, and then those with these numbers.
pub(crate) fn kept_modules<'c>(
    alloc: Global,
    command: &'c Bump,
    old: &Vec<ModuleRef<'_>>,
    modules: &Vec<ModuleRef<'c>>,
    below: usize,
    kept: &[RepId],
) -> Result<Vec<ModuleRef<'c>>, AllocError>
    requires below { below ≤ length (old.now.items ++ modules.now.items) }
    requires kept { All (IsNumber (length (old.now.items ++ modules.now.items))) (module_numbers kept.now) }
    ensures { IfOk result (λ all. all.items ≡ take (below - length old.now.items) modules.now.items
        ++ map (numbered no_module (old.now.items ++ modules.now.items)) (module_numbers kept.now)) }
{
    let mut all = Vec::new(alloc);
    for i in 0..below.saturating_sub(old.len()) {
        all.push(modules[i].again())?;
    }
    for k in 0..kept.len() {
        let m = command_module(command, old, modules, kept[k])?;
        all.push(m)?;
    }
    Ok(all)
}

/// The number of a module once those that are kept stand behind the first `below`.
fn new_number(below: u32, kept: &[RepId], id: RepId) -> RepId
    requires few { below + length kept.now < 2 ^ 32 - 1 }
    requires among { (id.number ≤ below) ⊎ Contains (module_numbers kept.now) id.number }
    ensures { result.number ≡ new_number below (module_numbers kept.now) id.number }
{
    if id.number <= below {
        return id;
    }
    for k in 0..kept.len() {
        if kept[k].number == id.number {
            let number = below as usize + k + 1;
            return RepId {
                number: number as u32,
            };
        }
    }
    id
}

/// The map with a number, in the command's memory.
fn command_map<'c>(
    command: &'c Bump,
    old: &Vec<MapRef<'_>>,
    maps: &Vec<MapRef<'c>>,
    id: MapId,
) -> Result<MapRef<'c>, AllocError>
    requires { IsNumber (length (old.now.items ++ maps.now.items)) id.number }
    ensures { IfOk result (λ f. f ≡ numbered no_map (old.now.items ++ maps.now.items) id.number) }
{
    let at = id.number as usize - 1;
    if at < old.len() {
        let copy = copy_map(command, &old[at])?;
        return Ok(copy);
    }
    Ok(maps[at - old.len()].again())
}

/// The map between the new numbers of its modules.
fn renumbered<'c>(below: u32, kept: &[RepId], f: &MapRef<'c>) -> MapRef<'c>
    requires few { below + length kept.now < 2 ^ 32 - 1 }
    requires source { (f.now.source ≤ below) ⊎ Contains (module_numbers kept.now) f.now.source }
    requires target { (f.now.target ≤ below) ⊎ Contains (module_numbers kept.now) f.now.target }
    ensures { result ≡ renumbered below (module_numbers kept.now) f.now }
{
    MapRef {
        source: new_number(below, kept, f.source),
        target: new_number(below, kept, f.target),
        matrices: f.matrices,
    }
}

/// The command's maps below a height, and then those with these numbers, between the new numbers of their modules.
pub(crate) fn kept_maps<'c>(
    alloc: Global,
    command: &'c Bump,
    old: &Vec<MapRef<'_>>,
    maps: &Vec<MapRef<'c>>,
    below: usize,
    kept: &[MapId],
    modules_below: u32,
    kept_modules: &[RepId],
) -> Result<Vec<MapRef<'c>>, AllocError>
    requires below { below ≤ length (old.now.items ++ maps.now.items) }
    requires kept { All (IsNumber (length (old.now.items ++ maps.now.items))) (map_numbers kept.now) }
    requires few { modules_below + length kept_modules.now < 2 ^ 32 - 1 }
    requires sources { All (λ n. ((numbered no_map (old.now.items ++ maps.now.items) n).source ≤ modules_below)
        ⊎ Contains (module_numbers kept_modules.now) (numbered no_map (old.now.items ++ maps.now.items) n).source) (map_numbers kept.now) }
    requires targets { All (λ n. ((numbered no_map (old.now.items ++ maps.now.items) n).target ≤ modules_below)
        ⊎ Contains (module_numbers kept_modules.now) (numbered no_map (old.now.items ++ maps.now.items) n).target) (map_numbers kept.now) }
    ensures { IfOk result (λ all. all.items ≡ take (below - length old.now.items) maps.now.items
        ++ map (λ n. renumbered modules_below (module_numbers kept_modules.now) (numbered no_map (old.now.items ++ maps.now.items) n)) (map_numbers kept.now)) }
{
    let mut all = Vec::new(alloc);
    for i in 0..below.saturating_sub(old.len()) {
        all.push(maps[i].again())?;
    }
    for k in 0..kept.len() {
        let f = command_map(command, old, maps, kept[k])?;
        all.push(renumbered(modules_below, kept_modules, &f))?;
    }
    Ok(all)
}
