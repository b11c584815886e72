//! Whether a functional vanishes on an ideal of endomorphisms and not on all of them.
ghost use Rattle.std.specs.Prelude.{ℕ, ◌≡◌, ◌≤◌, length, MatchBool};
ghost use Rattle.linear_algebra.specs.BlockFamilies.{total};
ghost use Rattle.linear_algebra.specs.Rows.{IsRow};
ghost use Rattle.fp_linear.specs.Slices.{AreElements};
ghost use Rattle.module_types.specs.Algebras.{algebra_at, sided_words};
ghost use Rattle.module_types.specs.Presentations.{Presentation};
ghost use Rattle.module_types.specs.Readings.{read};
ghost use Rattle.module_types.specs.Shapes.{IsModule, IsTerm};
ghost use Rattle.module_types.specs.TermMatrices.{count};
ghost use Rattle.claim_conditions.specs.LocalConditions.{families_of, ring_rows, ideal_rows};
ghost use Rattle.claim_conditions.specs.Modules.{Sides};
ghost use Rattle.claim_conditions.specs.SequenceConditions.{IsEndFunctional};
ghost use Rattle.functional_checks.specs.Values.{generator_dim, HoldsValues, VanishUpTo, HasNonzero};

use crate::values::write_value;
use fp_linear::{Field, Matrix, multiply_row};
use module_types::{Module, TermRows};
use path_algebra::Header;

/// Writes the values of a functional at the endomorphisms that the rows of the basis are. `image` has room for 256 numbers, `product` for one; they are
/// written over.
fn write_values(
    header: &Header,
    m: &Module,
    cover: &TermRows,
    functional: &[u8],
    basis: &Matrix,
    image: &mut [u8],
    product: &mut [u8],
    values: &mut [u8],
)
    requires m { IsModule header.now.field (algebra_at m.now.side header.now).quiver m.now }
    requires cover { IsTerm header.now.field (algebra_at m.now.side header.now).quiver (read header.now m.now).dim cover.now }
    requires functional { IsRow header.now.field (total (count cover.now) (generator_dim header.now m.now cover.now)) functional.now }
    requires field { basis.now.field ≡ header.now.field }
    requires unknowns { basis.now.col_count ≡ (families_of header.now m.now).size }
    requires image { 256 ≤ length image.old }
    requires product { length product.old ≡ 1 }
    requires values { length values.old ≡ basis.now.row_count }
    ensures values { HoldsValues header.now m.now cover.now functional.now basis.now basis.now.row_count values.new }
{
    for i in 0..basis.rows() {
        let at = i as usize;
        write_value(
            header,
            m,
            cover,
            functional,
            basis.row(i),
            image,
            product,
            &mut values[at..at + 1],
        );
    }
}

/// Whether each row, times the column of the values, is zero. `product` has room for one number, which is written over.
fn vanish(field: Field, rows: &Matrix, values: &[u8], product: &mut [u8]) -> bool
    requires field { rows.now.field ≡ field }
    requires elements { AreElements field values.now }
    requires columns { rows.now.col_count ≡ length values.now }
    requires product { length product.old ≡ 1 }
    ensures { MatchBool result (VanishUpTo field (length values.now) rows.now values.now rows.now.row_count)
        (¬ VanishUpTo field (length values.now) rows.now values.now rows.now.row_count) }
{
    for i in 0..rows.rows() {
        multiply_row(field, rows.row(i), values, product);
        if product[0] != 0 {
            return false;
        }
    }
    true
}

/// Whether some of the values is not zero.
fn has_nonzero(values: &[u8]) -> bool
    ensures { MatchBool result (HasNonzero values.now) (¬ HasNonzero values.now) }
{
    for i in 0..values.len() {
        if values[i] != 0 {
            return true;
        }
    }
    false
}

/// Whether the functional is zero on the images of the generators of the cover under each row of the ideal, and not under some member of the basis. The
/// slices are worked in: `values` has as many numbers as the basis has rows, `image` 256, `product` one.
pub fn has_end_functional(
    header: &Header,
    m: &Module,
    cover: &TermRows,
    functional: &[u8],
    basis: &Matrix,
    ideal: &Matrix,
    values: &mut [u8],
    image: &mut [u8],
    product: &mut [u8],
) -> bool
    requires m { IsModule header.now.field (algebra_at m.now.side header.now).quiver m.now }
    requires cover { IsTerm header.now.field (algebra_at m.now.side header.now).quiver (read header.now m.now).dim cover.now }
    requires functional { IsRow header.now.field (total (count cover.now) (generator_dim header.now m.now cover.now)) functional.now }
    requires field { basis.now.field ≡ header.now.field }
    requires ideal_field { ideal.now.field ≡ header.now.field }
    requires unknowns { basis.now.col_count ≡ (families_of header.now m.now).size }
    requires coordinates { ideal.now.col_count ≡ basis.now.row_count }
    requires values { length values.old ≡ basis.now.row_count }
    requires image { 256 ≤ length image.old }
    requires product { length product.old ≡ 1 }
    ensures { (T : Sides header.now) (p : Presentation) → p.cover ≡ cover.now → MatchBool result
        (IsEndFunctional (sided_words m.now.side T) p (read header.now m.now) functional.now (ring_rows header.now m.now basis.now) (ideal_rows header.now basis.now ideal.now))
        (¬ IsEndFunctional (sided_words m.now.side T) p (read header.now m.now) functional.now (ring_rows header.now m.now basis.now) (ideal_rows header.now basis.now ideal.now)) }
{
    write_values(header, m, cover, functional, basis, image, product, values);
    vanish(header.field, ideal, values, product) && has_nonzero(values)
}
