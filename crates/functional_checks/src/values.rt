//! The value of a functional on the images of the generators of a term under an endomorphism.
ghost use Rattle.std.specs.Prelude.{ℕ, ◌≡◌, ◌<◌, ◌≤◌, ◌+◌, ◌*◌, length, take, drop};
ghost use Rattle.linear_algebra.specs.BlockFamilies.{total};
ghost use Rattle.linear_algebra.specs.Matrix.{◌⊞◌, ◌·◌};
ghost use Rattle.linear_algebra.specs.Typed.{as_row};
ghost use Rattle.fp_linear.specs.Slices.{AreElements};
ghost use Rattle.module_types.specs.Algebras.{algebra_at};
ghost use Rattle.linear_algebra.specs.Rows.{IsRow};
ghost use Rattle.representations.specs.HomSpace.{unflat};
ghost use Rattle.module_types.specs.Readings.{read};
ghost use Rattle.module_types.specs.Shapes.{IsModule, IsTerm};
ghost use Rattle.module_types.specs.TermMatrices.{count};
ghost use Rattle.local_checks.specs.Families.{IsFamily, family};
ghost use Rattle.functional_checks.specs.Values.{generator_dim, HoldsValue};
ghost use Rattle.local_checks.specs.Standing.{standing};

use fp_linear::{Field, add_multiple, multiply_row};
use module_types::{Module, TermRows};
use path_algebra::Header;

/// Adds to the one number of `value` a row times a square block times a column. `image` has room for the row, and `product` for one number; both are written
/// over.
fn add_value(
    field: Field,
    row: &[u8],
    block: &[u8],
    column: &[u8],
    image: &mut [u8],
    product: &mut [u8],
    value: &mut [u8],
)
    requires row { AreElements field row.now }
    requires block { AreElements field block.now }
    requires block_count { length block.now ≡ length row.now * length row.now }
    requires column { AreElements field column.now }
    requires column_count { length column.now ≡ length row.now }
    requires image_count { length image.old ≡ length row.now }
    requires product_count { length product.old ≡ 1 }
    requires value { AreElements field value.old }
    requires value_count { length value.old ≡ 1 }
    ensures value { AreElements field value.new }
    ensures sum { as_row field 1 value.new ≡ as_row field 1 value.old ⊞ as_row field (length row.now) row.now · standing field (length row.now) (length row.now) block.now · standing field (length row.now) 1 column.now }
{
    multiply_row(field, row, block, image);
    multiply_row(field, image, column, product);
    add_multiple(field, 1, product, value);
}

/// The `count` numbers from `from` on.
fn part(entries: &[u8], from: usize, count: usize) -> &[u8]
    requires inside { from + count ≤ length entries.now }
    ensures { result.now ≡ take count (drop from entries.now) }
{
    &entries[from..from + count]
}

/// The block of a family of square matrices at a vertex.
fn block_at<'a>(header: &Header, m: &Module, element: &'a [u8], v: usize) -> &'a [u8]
    requires m { IsModule header.now.field (algebra_at m.now.side header.now).quiver m.now }
    requires element { IsFamily header.now m.now element.now }
    requires vertex { v < length m.now.dims }
    ensures elements { AreElements header.now.field result.now }
    ensures count { length result.now ≡ (read header.now m.now).dim v * (read header.now m.now).dim v }
    ensures block { standing header.now.field ((read header.now m.now).dim v) ((read header.now m.now).dim v) result.now
        ≡ unflat (read header.now m.now) (read header.now m.now) (family header.now m.now element.now) v }
{
    let _field = header.field;
    let mut from: usize = 0;
    for w in 0..v {
        let size = m.dims[w] as usize;
        from += size * size;
    }
    let size = m.dims[v] as usize;
    part(element, from, size * size)
}

/// Writes the value of a functional on the images of the generators of a term under an endomorphism, which stands as one row. `image` has room for 256
/// numbers, `product` and `value` have room for one; they are written over.
pub fn write_value(
    header: &Header,
    m: &Module,
    cover: &TermRows,
    functional: &[u8],
    element: &[u8],
    image: &mut [u8],
    product: &mut [u8],
    value: &mut [u8],
)
    requires m { IsModule header.now.field (algebra_at m.now.side header.now).quiver m.now }
    requires cover { IsTerm header.now.field (algebra_at m.now.side header.now).quiver (read header.now m.now).dim cover.now }
    requires functional { IsRow header.now.field (total (count cover.now) (generator_dim header.now m.now cover.now)) functional.now }
    requires element { IsFamily header.now m.now element.now }
    requires image { 256 ≤ length image.old }
    requires product { length product.old ≡ 1 }
    requires value { length value.old ≡ 1 }
    ensures elements { AreElements header.now.field value.new }
    ensures value { HoldsValue header.now m.now cover.now functional.now (family header.now m.now element.now) (count cover.now) value.new }
{
    value[0] = 0;
    let mut from: usize = 0;
    for j in 0..cover.vertices.len() {
        let v = cover.vertices[j] as usize;
        let size = m.dims[v] as usize;
        add_value(
            header.field,
            &cover.images[j],
            block_at(header, m, element, v),
            part(functional, from, size),
            &mut image[..size],
            product,
            value,
        );
        from += size;
    }
}
