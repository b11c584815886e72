//! Whether a number is the least power of a space of families that is zero.
ghost use Rattle.std.specs.Prelude.{ℕ, ◌≡◌, ◌<◌, ◌≤◌, ◌+◌, ◌*◌, length, MatchBool, MatchOption};
ghost use Rattle.linear_algebra.specs.BlockFamilies.{total};
ghost use Rattle.fp_linear.specs.Slices.{AreElements};
ghost use Rattle.local_modules.specs.Ideal.{IsLeastPower};
ghost use Rattle.local_modules.specs.ImageChain.{VanishFrom};
ghost use Rattle.module_types.specs.Algebras.{algebra_at};
ghost use Rattle.module_types.specs.Shapes.{IsModule};
ghost use Rattle.module_checks.specs.Commuting.{block_sizes};
ghost use Rattle.claim_conditions.specs.LocalConditions.{families_of};
ghost use Rattle.local_checks.specs.Families.{IsFamily, family_rows};
ghost use Rattle.local_checks.specs.Images.{NeverVanish};
ghost use Rattle.local_checks.specs.Vertices.{at_vertex};

use crate::powers::power_at;
use module_types::Module;
use path_algebra::Header;

/// The larger of two numbers.
fn larger(a: u32, b: u32) -> u32
    ensures first { a ≤ result }
    ensures second { b ≤ result }
    ensures least { (t : ℕ) → a ≤ t → b ≤ t → result ≤ t }
{
    if a < b { b } else { a }
}

/// The least number from which on the products of so many of `count` families are zero at vertex `v`, whose block begins at `from`.
fn vertex_power(
    header: &Header,
    m: &Module,
    v: usize,
    from: usize,
    count: usize,
    rows: &[u8],
    work: &mut [u8],
    next: &mut [u8],
    pivots: &mut [u32],
) -> Option<u32>
    requires m { IsModule header.now.field (algebra_at m.now.side header.now).quiver m.now }
    requires vertex { v < length m.now.dims }
    requires from { from ≡ total v (block_sizes m.now.dims m.now.dims) }
    requires elements { AreElements header.now.field rows.now }
    requires count { length rows.now ≡ count * (families_of header.now m.now).size }
    requires work { IsFamily header.now m.now work.old }
    requires next { AreElements header.now.field next.old }
    requires next_room { (families_of header.now m.now).size + (families_of header.now m.now).size ≤ length next.old }
    requires pivots { 512 ≤ length pivots.old }
    ensures work { IsFamily header.now m.now work.new }
    ensures next { AreElements header.now.field next.new }
    ensures power { MatchOption result (NeverVanish count (at_vertex header.now m.now count rows.now v)) (VanishFrom count (at_vertex header.now m.now count rows.now v)) }
{
    let width = work.len();
    let size = m.dims[v];
    let entries = size as usize * size as usize;
    power_at(
        header.field,
        size,
        count,
        width,
        from,
        rows,
        &mut work[..entries],
        &mut next[..entries + entries],
        pivots,
    )
}

/// Whether each product of `power` of the members of the span of `count` families, which stand one after another in `rows`, is zero, and no smaller number
/// from 1 on has this property. The other slices are worked in: there is room for a family in `work`, and for two in `next`.
pub fn is_least_power(
    header: &Header,
    m: &Module,
    count: usize,
    rows: &[u8],
    power: u32,
    work: &mut [u8],
    next: &mut [u8],
    pivots: &mut [u32],
) -> bool
    requires m { IsModule header.now.field (algebra_at m.now.side header.now).quiver m.now }
    requires elements { AreElements header.now.field rows.now }
    requires count { length rows.now ≡ count * (families_of header.now m.now).size }
    requires work { IsFamily header.now m.now work.old }
    requires next { AreElements header.now.field next.old }
    requires next_room { (families_of header.now m.now).size + (families_of header.now m.now).size ≤ length next.old }
    requires pivots { 512 ≤ length pivots.old }
    ensures work { IsFamily header.now m.now work.new }
    ensures next { AreElements header.now.field next.new }
    ensures power { MatchBool result (IsLeastPower (families_of header.now m.now) (family_rows header.now m.now count rows.now) power)
        (¬ IsLeastPower (families_of header.now m.now) (family_rows header.now m.now count rows.now) power) }
{
    let mut most: u32 = 0;
    let mut from: usize = 0;
    for v in 0..m.dims.len() {
        match vertex_power(header, m, v, from, count, rows, work, next, pivots) {
            None => return false,
            Some(p) => most = larger(most, p),
        }
        let size = m.dims[v] as usize;
        from += size * size;
    }
    power == larger(most, 1)
}
