//! Whether a representation is a module over the algebra of a header.
ghost use Rattle.std.specs.Prelude.{ℕ, ◌≡◌, ◌≤◌, ◌+◌, length, MatchBool};
ghost use Rattle.path_algebra.specs.Allowed.{IsAllowed};
ghost use Rattle.module_types.specs.Algebras.{algebra_at};
ghost use Rattle.module_types.specs.Shapes.{IsModule, dimension};
ghost use Rattle.claim_conditions.specs.Modules.{ModuleHolds};
ghost use Rattle.module_checks.specs.Room.{IsRoom};
ghost use Rattle.module_checks.specs.RowWalks.{AllActAsZero};

use crate::long_paths::long_paths_act_as_zero;
use crate::relations::relations_act_as_zero;
use module_types::Module;
use path_algebra::Header;

/// Whether the relations act as zero, with the first places of two slices to work in.
fn relations_hold(header: &Header, m: &Module, images: &mut [u8], entries: &mut [u8]) -> bool
    requires allowed { IsAllowed header.now }
    requires m { IsModule header.now.field (algebra_at m.now.side header.now).quiver m.now }
    requires images { dimension m.now.dims + dimension m.now.dims ≤ length images.old }
    requires entries { dimension m.now.dims ≤ length entries.old }
    ensures { MatchBool result
        (AllActAsZero header.now m.now (length header.now.relations))
        (¬ AllActAsZero header.now m.now (length header.now.relations)) }
{
    let count = m.dimension() as usize;
    let (row, rest) = images.split_at_mut(count);
    relations_act_as_zero(header, m, row, &mut entries[..count], &mut rest[..count])
}

/// Whether the representation is a module over the algebra of the header, on its side: each relation and each path of the bound's length acts as zero.
/// Both slices are worked in; each has the room of `rows` rows, and what they hold before and after says nothing.
pub fn is_module(
    header: &Header,
    m: &Module,
    rows: u32,
    images: &mut [u8],
    entries: &mut [u8],
    pivots: &mut [u32],
) -> bool
    requires allowed { IsAllowed header.now }
    requires m { IsModule header.now.field (algebra_at m.now.side header.now).quiver m.now }
    requires room { IsRoom (dimension m.now.dims) rows entries.old pivots.old }
    requires images { length images.old ≡ length entries.old }
    ensures { MatchBool result (ModuleHolds header.now m.now) (¬ ModuleHolds header.now m.now) }
{
    if !relations_hold(header, m, images, entries) {
        return false;
    }
    if !long_paths_act_as_zero(header, m, rows, images, entries, pivots) {
        return false;
    }
    true
}
