//! Radicals, tops, sums and duals of the modules of an arena.
ghost use Rattle.std.specs.Prelude.{◌≡◌, ◌<◌, ◌≤◌, ◌-◌, ◌^◌, length, IfOk, IfErr, OnErr};
ghost use Rattle.module_types.specs.Shapes.{dimension, most_dimension};
ghost use Rattle.rep_arena.specs.Entries.{NamesModule, module_at, with_module};
ghost use Rattle.mod_ops.specs.Results.{HasRoom, AddsRadical, AddsTop, sum_at, dual_at, sum_dimension, IsSumRefused};

use crate::DimError;
use crate::adding::{add_inclusion, add_projection};
use rep_arena::{Arena, MapId, RepId};
use std::alloc::{AllocError, Global};

/// Adds the radical of a module and its inclusion, in reduced row form at each vertex, and answers their numbers. After a refusal the lists are as before.
pub fn radical(
    alloc: Global,
    arena: &mut Arena<'_, '_>,
    a: RepId,
) -> Result<(RepId, MapId), AllocError>
    requires names { NamesModule arena.old a.number }
    requires room { HasRoom arena.old }
    ensures radical { IfOk result (λ ids. AddsRadical arena.old arena.new a.number ids.0.number ids.1.number) }
    ensures refused { OnErr result (arena.new ≡ arena.old) }
{
    let whole = arena.module(a).to_module(alloc)?;
    let found = module_operations::radical(alloc, arena.header(), &whole)?;
    let ids = add_inclusion(arena, found, a)?;
    Ok(ids)
}

/// Adds the top of a module and its projection, co-reduced at each vertex, and answers their numbers. After a refusal the lists are as before.
pub fn top(alloc: Global, arena: &mut Arena<'_, '_>, a: RepId) -> Result<(RepId, MapId), AllocError>
    requires names { NamesModule arena.old a.number }
    requires room { HasRoom arena.old }
    ensures top { IfOk result (λ ids. AddsTop arena.old arena.new a.number ids.0.number ids.1.number) }
    ensures refused { OnErr result (arena.new ≡ arena.old) }
{
    let whole = arena.module(a).to_module(alloc)?;
    let found = module_operations::top(alloc, arena.header(), &whole)?;
    let ids = add_projection(arena, a, found)?;
    Ok(ids)
}

/// Adds the direct sum of two modules of one side, the coordinates of `a` before those of `b`, and answers its number. It is refused where the dimensions add
/// to more than 256; after a refusal the lists are as before.
pub fn sum(alloc: Global, arena: &mut Arena<'_, '_>, a: RepId, b: RepId) -> Result<RepId, DimError>
    requires first { NamesModule arena.old a.number }
    requires second { NamesModule arena.old b.number }
    requires side { (module_at arena.old a.number).side ≡ (module_at arena.old b.number).side }
    requires room { length arena.old.modules < 2 ^ 32 - 2 }
    ensures added { IfOk result (λ id. (arena.new ≡ with_module arena.old (sum_at arena.old a.number b.number)) × (id.number ≡ length arena.new.modules)) }
    ensures fits { IfOk result (λ _. sum_dimension arena.old a.number b.number ≤ most_dimension) }
    ensures fault { IfErr result (IsSumRefused arena.old a.number b.number) }
    ensures refused { OnErr result (arena.new ≡ arena.old) }
{
    let dim = dimension_of(arena, a) + dimension_of(arena, b);
    if dim > 256 {
        return Err(DimError::DimLimit { dim });
    }
    let first = arena.module(a).to_module(alloc)?;
    let second = arena.module(b).to_module(alloc)?;
    let whole = module_operations::sum(alloc, &first, &second)?;
    let id = arena.put_module(whole)?;
    Ok(id)
}

/// The dimension of a module: the sum of its dimensions at the vertices.
fn dimension_of(arena: &Arena<'_, '_>, a: RepId) -> u64
    requires { NamesModule arena.now a.number }
    ensures sum { result ≡ dimension (module_at arena.now a.number).dims }
    ensures small { result ≤ most_dimension }
{
    let dims = arena.dims(a);
    let mut sum = 0u64;
    for v in 0..dims.len() {
        sum += dims[v] as u64;
    }
    sum
}

/// Adds the dual of a module, of the other side, with the transposed matrices, and answers its number. After a refusal the lists are as before.
pub fn dual(alloc: Global, arena: &mut Arena<'_, '_>, a: RepId) -> Result<RepId, AllocError>
    requires names { NamesModule arena.old a.number }
    requires room { length arena.old.modules < 2 ^ 32 - 2 }
    ensures added { IfOk result (λ id. (arena.new ≡ with_module arena.old (dual_at arena.old a.number)) × (id.number ≡ length arena.new.modules)) }
    ensures refused { OnErr result (arena.new ≡ arena.old) }
{
    let whole = arena.module(a).to_module(alloc)?;
    let transposed = module_operations::dual(alloc, &whole)?;
    let id = arena.put_module(transposed)?;
    Ok(id)
}
