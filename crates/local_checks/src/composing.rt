//! Products of families of square matrices, vertex by vertex, each family as one row.
ghost use Rattle.std.specs.Prelude.{ℕ, ◌≡◌, ◌<◌, ◌≤◌, ◌+◌, ◌*◌, length, slice_index};
ghost use Rattle.fp_linear.specs.Slices.{AreElements, IsWritten};
ghost use Rattle.module_types.specs.Algebras.{algebra_at};
ghost use Rattle.module_types.specs.Shapes.{IsModule};
ghost use Rattle.claim_conditions.specs.LocalConditions.{families_of};
ghost use Rattle.local_checks.specs.Composites.{block_product};
ghost use Rattle.local_checks.specs.Families.{IsFamily, family};

use fp_linear::{Field, multiply_row};
use module_types::Module;
use path_algebra::Header;

/// Writes the product of the square blocks with `size` rows that begin at `from`.
fn compose_block(field: Field, size: usize, from: usize, left: &[u8], right: &[u8], out: &mut [u8])
    requires left_elements { AreElements field left.now }
    requires right_elements { AreElements field right.now }
    requires elements { AreElements field out.old }
    requires left_inside { from + size * size ≤ length left.now }
    requires right_inside { from + size * size ≤ length right.now }
    requires inside { from + size * size ≤ length out.old }
    ensures written { IsWritten out.old out.new from (size * size) (block_product field size from left.now right.now) }
    ensures elements { AreElements field out.new }
{
    let block = &right[from..from + size * size];
    for i in 0..size {
        let start = from + i * size;
        let end = start + size;
        multiply_row(field, &left[start..end], block, &mut out[start..end]);
    }
}

/// Writes the family that is the product of two families of square matrices at the vertices of a module: at each vertex, first `left`, then `right`.
pub fn compose(header: &Header, m: &Module, left: &[u8], right: &[u8], out: &mut [u8])
    requires m { IsModule header.now.field (algebra_at m.now.side header.now).quiver m.now }
    requires left { IsFamily header.now m.now left.now }
    requires right { IsFamily header.now m.now right.now }
    requires out { IsFamily header.now m.now out.old }
    ensures out { IsFamily header.now m.now out.new }
    ensures product { family header.now m.now out.new ≡ (families_of header.now m.now).product (family header.now m.now left.now) (family header.now m.now right.now) }
{
    let mut from: usize = 0;
    for v in 0..m.dims.len() {
        let size = m.dims[v] as usize;
        compose_block(header.field, size, from, left, right, out);
        from += size * size;
    }
}
