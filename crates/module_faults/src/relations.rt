//! The first relation that does not act as zero on a module.
ghost use Rattle.std.specs.Prelude.{ℕ, ◌≡◌, ◌<◌, ◌≤◌, length, IfOk, MatchOption, MatchBool};
ghost use Rattle.fp_linear.specs.Slices.{AreElements};
ghost use Rattle.path_algebra.specs.Allowed.{IsAllowed};
ghost use Rattle.module_types.specs.Algebras.{algebra_at};
ghost use Rattle.module_types.specs.Shapes.{IsModule, dimension};
ghost use Rattle.module_faults.specs.ModuleFaults.{IsFirstFailing};
ghost use Rattle.module_faults.specs.RelationActions.{IsRelationZero, AreRelationsZero};
ghost use Rattle.module_faults.specs.ShortRelations.{short_header};

use crate::short_relations::{has_short_term, short_header};
use module_checks::{acts_as_zero, clear};
use module_types::Module;
use path_algebra::Header;
use std::alloc::{AllocError, Global};

/// The number, counted from 1, of the first relation that does not act as zero; none where all do. Terms of the bound's length or more are left out.
pub fn first_failing_relation(
    alloc: Global,
    header: &Header,
    m: &Module,
) -> Result<Option<u32>, AllocError>
    requires allowed { IsAllowed header.now }
    requires m { IsModule header.now.field (algebra_at m.now.side header.now).quiver m.now }
    ensures { IfOk result (λ found. MatchOption found (AreRelationsZero header.now m.now (length header.now.relations)) (IsFirstFailing header.now m.now)) }
{
    let short = short_header(alloc, header)?;
    let count = m.dimension() as usize;
    let mut row = vec![in alloc; 0u8; count]?;
    let mut next = vec![in alloc; 0u8; count]?;
    let mut sum = vec![in alloc; 0u8; count]?;
    let found = first_failing(header, &short, m, &mut row, &mut next, &mut sum);
    Ok(found)
}

/// The same by the header with shortened relations, in three slices to work in, each with a place for each dimension.
fn first_failing(
    header: &Header,
    short: &Header,
    m: &Module,
    row: &mut [u8],
    next: &mut [u8],
    sum: &mut [u8],
) -> Option<u32>
    requires allowed { IsAllowed header.now }
    requires short { short.now ≡ short_header header.now }
    requires m { IsModule header.now.field (algebra_at m.now.side header.now).quiver m.now }
    requires room { dimension m.now.dims ≤ length row.old }
    requires lengths { length next.old ≡ length row.old }
    requires sum_length { length sum.old ≡ length row.old }
    ensures { MatchOption result (AreRelationsZero header.now m.now (length header.now.relations)) (IsFirstFailing header.now m.now) }
{
    clear(next);
    for r in 0..header.relations.len() {
        if !is_relation_zero(header, short, m, r, row, next, sum) {
            return Some(r as u32 + 1);
        }
    }
    None
}

/// Whether relation `r` acts as zero, its terms of the bound's length or more left out.
fn is_relation_zero(
    header: &Header,
    short: &Header,
    m: &Module,
    r: usize,
    row: &mut [u8],
    next: &mut [u8],
    sum: &mut [u8],
) -> bool
    requires allowed { IsAllowed header.now }
    requires short { short.now ≡ short_header header.now }
    requires m { IsModule header.now.field (algebra_at m.now.side header.now).quiver m.now }
    requires relation { r < length header.now.relations }
    requires next_elements { AreElements header.now.field next.old }
    requires room { dimension m.now.dims ≤ length row.old }
    requires lengths { length next.old ≡ length row.old }
    requires sum_length { length sum.old ≡ length row.old }
    ensures zero { MatchBool result (IsRelationZero header.now m.now r) (¬ IsRelationZero header.now m.now r) }
    ensures next_elements { AreElements header.now.field next.new }
{
    if !has_short_term(&header.relations[r], header.bound) {
        return true;
    }
    if !acts_as_zero(short, m, r, row, next, sum) {
        return false;
    }
    true
}
