//! The basis of the homomorphisms between two modules, as they stand in lent memory and by their numbers.
ghost use Rattle.std.specs.Prelude.{◌≡◌, ◌≤◌, IfOk, IfErr};
ghost use Rattle.path_algebra.specs.Allowed.{IsAllowed};
ghost use Rattle.claim_conditions.specs.Conditions.{AllHold};
ghost use Rattle.claim_conditions.specs.HomConditions.{hom_conditions};
ghost use Rattle.report_types.specs.Limits.{unknown_limit};
ghost use Rattle.module_faults.specs.ModuleFaults.{IsSmallModule};
ghost use Rattle.rep_arena.specs.Entries.{NamesModule, module_at};
ghost use Rattle.hom_space.specs.HomForms.{unknown_number, IsReducedHomBasis, IsHomError};

use crate::HomError;
use crate::bases::reduced_basis;
use crate::counting::unknowns_between;
use fp_linear::Matrix;
use path_algebra::Header;
use rep_arena::{Arena, ModuleRef, RepId};
use std::alloc::Global;

/// More entries than this are refused.
const UNKNOWN_LIMIT: u64 = 1024;

/// The basis in reduced row form of the homomorphisms from `a` to `b`, modules of one side over the header; each row is a homomorphism, its matrices vertex
/// by vertex, each row by row. It is the one matrix that meets the conditions on such a basis. More than 1,024 entries are refused.
pub fn hom_of(
    alloc: Global,
    header: &Header,
    a: &ModuleRef<'_>,
    b: &ModuleRef<'_>,
) -> Result<Matrix, HomError>
    requires allowed { IsAllowed header.now }
    requires a { IsSmallModule header.now a.now }
    requires b { IsSmallModule header.now b.now }
    requires side { a.now.side ≡ b.now.side }
    ensures basis { IfOk result (IsReducedHomBasis header.now a.now b.now) }
    ensures conditions { IfOk result (λ rows. AllHold (hom_conditions header.now a.now b.now rows)) }
    ensures within { IfOk result (λ _. unknown_number header.now a.now b.now ≤ unknown_limit) }
    ensures refused { IfErr result (IsHomError header.now a.now b.now) }
{
    let unknowns = unknowns_between(a, b);
    if unknowns > UNKNOWN_LIMIT {
        return Err(HomError::HomLimit { unknowns });
    }
    let first = a.to_module(alloc)?;
    let second = b.to_module(alloc)?;
    let basis = reduced_basis(alloc, header, &first, &second, unknowns as u32)?;
    Ok(basis)
}

/// The basis in reduced row form of the homomorphisms from `m` to `n`, modules of one side; as `hom_of`.
pub fn hom_basis(
    alloc: Global,
    arena: &Arena<'_, '_>,
    m: RepId,
    n: RepId,
) -> Result<Matrix, HomError>
    requires m { NamesModule arena.now m.number }
    requires n { NamesModule arena.now n.number }
    requires side { (module_at arena.now m.number).side ≡ (module_at arena.now n.number).side }
    ensures basis { IfOk result (IsReducedHomBasis arena.now.header (module_at arena.now m.number) (module_at arena.now n.number)) }
    ensures conditions { IfOk result (λ rows. AllHold (hom_conditions arena.now.header (module_at arena.now m.number) (module_at arena.now n.number) rows)) }
    ensures within { IfOk result (λ _. unknown_number arena.now.header (module_at arena.now m.number) (module_at arena.now n.number) ≤ unknown_limit) }
    ensures refused { IfErr result (IsHomError arena.now.header (module_at arena.now m.number) (module_at arena.now n.number)) }
{
    let source = arena.module(m);
    let target = arena.module(n);
    let basis = hom_of(alloc, arena.header(), &source, &target)?;
    Ok(basis)
}
