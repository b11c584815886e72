//! The rank of the equations that say which matrices at the vertices are a homomorphism.
ghost use Rattle.std.specs.Prelude.{ℕ, ◌≡◌, ◌<◌, ◌≤◌, ◌+◌, ◌*◌, length, slice_index};
ghost use Rattle.linear_algebra.specs.LinearMaps.{matrix_of};
ghost use Rattle.linear_algebra.specs.BlockFamilies.{total};
ghost use Rattle.linear_algebra.specs.Ranks.{rank};
ghost use Rattle.fp_linear.specs.Slices.{AreElements};
ghost use Rattle.path_algebra.specs.Allowed.{IsAllowed};
ghost use Rattle.representations.specs.HomSpace.{unknowns as unknown_count, defects};
ghost use Rattle.module_types.specs.Algebras.{algebra_at};
ghost use Rattle.module_types.specs.Readings.{rep_of};
ghost use Rattle.module_types.specs.Shapes.{IsModule};
ghost use Rattle.module_checks.specs.Room.{IsRoom};
ghost use Rattle.module_checks.specs.Commuting.{AskUpTo, block_sizes};
ghost use Rattle.fp_linear.specs.Meeting.{IsClearFrom};

use crate::folding::fold_arrow;
use fp_linear::echelon_rows;
use module_types::{Module, Side, source_at, target_at};
use path_algebra::Header;

/// How many unknowns stand before those of a vertex.
fn first_unknown(x: &Module, y: &Module, vertex: u8) -> usize
    requires x_vertices { vertex < length x.now.dims }
    requires y_vertices { vertex < length y.now.dims }
    requires x_small { (v : ℕ) → slice_index x.now.dims v ≤ 256 }
    requires y_small { (v : ℕ) → slice_index y.now.dims v ≤ 256 }
    ensures { result ≡ total vertex (block_sizes x.now.dims y.now.dims) }
{
    let mut count: usize = 0;
    for v in 0..vertex as usize {
        count += x.dims[v] as usize * y.dims[v] as usize;
    }
    count
}

/// The rank of the equations, in lent memory of `rows` rows of as many numbers as there are unknowns, which are zero.
pub fn equations_rank(
    header: &Header,
    side: Side,
    x: &Module,
    y: &Module,
    unknowns: u32,
    rows: u32,
    entries: &mut [u8],
    pivots: &mut [u32],
) -> u32
    requires allowed { IsAllowed header.now }
    requires x { IsModule header.now.field (algebra_at side header.now).quiver x.now }
    requires y { IsModule header.now.field (algebra_at side header.now).quiver y.now }
    requires unknowns { unknowns ≡ unknown_count (rep_of header.now.field (algebra_at side header.now).quiver x.now) (rep_of header.now.field (algebra_at side header.now).quiver y.now) }
    requires zeros { IsClearFrom 0 entries.old }
    requires elements { AreElements header.now.field entries.old }
    requires room { IsRoom unknowns rows entries.old pivots.old }
    ensures elements { AreElements header.now.field entries.new }
    ensures asked { AskUpTo (rep_of header.now.field (algebra_at side header.now).quiver x.now) (rep_of header.now.field (algebra_at side header.now).quiver y.now) unknowns rows (algebra_at side header.now).quiver.arrows entries.new }
    ensures rank { result ≡ rank (matrix_of (defects (rep_of header.now.field (algebra_at side header.now).quiver x.now) (rep_of header.now.field (algebra_at side header.now).quiver y.now))) }
{
    let mut used = 0;
    for a in 0..header.quiver.arrows.len() {
        let target = first_unknown(x, y, target_at(header, side, a as u8));
        let source = first_unknown(x, y, source_at(header, side, a as u8));
        used = fold_arrow(
            header.field,
            unknowns,
            rows,
            used,
            &x.matrices[a],
            &y.matrices[a],
            target,
            source,
            entries,
            pivots,
        );
    }
    echelon_rows(header.field, rows, unknowns, entries, pivots)
}
