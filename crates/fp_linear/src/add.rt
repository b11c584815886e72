//! Adding a multiple of a row to another: the inner loop of elimination and of products.
ghost use Rattle.std.specs.Prelude.{◌≡◌, ◌≢◌, ◌+◌, ◌<◌, ◌≤◌, ℕ, length};
ghost use Rattle.linear_algebra.specs.Field.{order, degree, characteristic};
ghost use Rattle.fp_linear.specs.Slices.{AreElements, IsWritten, AreApart, IsRowOfProducts, HasSums, HasAdded, plus_multiple, added};

use crate::field::Field;

/// Adds `factor` times the row `source` to the row `target`, which has as many entries. All numbers are elements of the field.
pub fn add_multiple(field: Field, factor: u8, source: &[u8], target: &mut [u8])
    requires source_elements { AreElements field source.now }
    requires elements { AreElements field target.old }
    requires below { factor < order field }
    requires count { length source.now ≡ length target.old }
    ensures sum { target.new ≡ plus_multiple field factor source.now target.old }
    ensures elements { AreElements field target.new }
{
    if factor == 0 {
        return;
    }
    add_nonzero(field, factor, source, target);
}

// The same where the factor is not zero.
fn add_nonzero(field: Field, factor: u8, source: &[u8], target: &mut [u8])
    requires source_elements { AreElements field source.now }
    requires elements { AreElements field target.old }
    requires below { factor < order field }
    requires nonzero { factor ≢ 0 }
    requires count { length source.now ≡ length target.old }
    ensures { HasAdded field factor source.now target.old target.new (length target.old) }
{
    match field.size() {
        2 => add_binary(field, factor, source, target),
        3 => add_modulo::<3>(field, factor, source, target),
        5 => add_modulo::<5>(field, factor, source, target),
        7 => add_modulo::<7>(field, factor, source, target),
        11 => add_modulo::<11>(field, factor, source, target),
        13 => add_modulo::<13>(field, factor, source, target),
        _ => add_by_table(field, factor, source, target),
    }
}

/// Adds `factor` times the `count` entries from `source` on to those from `target` on.
pub(crate) fn add_within(
    field: Field,
    factor: u8,
    source: usize,
    target: usize,
    count: usize,
    entries: &mut [u8],
)
    requires elements { AreElements field entries.old }
    requires below { factor < order field }
    requires source_inside { source + count ≤ length entries.old }
    requires target_inside { target + count ≤ length entries.old }
    requires apart { AreApart source target count }
    ensures written { IsWritten entries.old entries.new target count (added field factor source target entries.old) }
    ensures elements { AreElements field entries.new }
{
    if source < target {
        let (front, back) = entries.split_at_mut(target);
        add_multiple(
            field,
            factor,
            &front[source..source + count],
            &mut back[..count],
        );
    } else {
        let (front, back) = entries.split_at_mut(source);
        add_multiple(
            field,
            factor,
            &back[..count],
            &mut front[target..target + count],
        );
    }
}

// The same as `add_multiple` in the field of two elements, where the factor is 1.
fn add_binary(field: Field, factor: u8, source: &[u8], target: &mut [u8])
    requires source_elements { AreElements field source.now }
    requires elements { AreElements field target.old }
    requires below { factor < order field }
    requires nonzero { factor ≢ 0 }
    requires count { length source.now ≡ length target.old }
    requires two { order field ≡ 2 }
    ensures { HasAdded field factor source.now target.old target.new (length target.old) }
{
    for j in 0..target.len() {
        target[j] ^= source[j];
    }
}

// The same in the field of P elements, for a prime P.
fn add_modulo<const P: u8>(field: Field, factor: u8, source: &[u8], target: &mut [u8])
    requires source_elements { AreElements field source.now }
    requires elements { AreElements field target.old }
    requires below { factor < order field }
    requires count { length source.now ≡ length target.old }
    requires size { order field ≡ P }
    requires bounded { P ≤ 13 }
    requires prime { degree field ≡ 1 }
    ensures { HasAdded field factor source.now target.old target.new (length target.old) }
{
    for j in 0..target.len() {
        target[j] = (target[j] + factor * source[j]) % P;
    }
}

// The same in a field that is not prime.
fn add_by_table(field: Field, factor: u8, source: &[u8], target: &mut [u8])
    requires source_elements { AreElements field source.now }
    requires elements { AreElements field target.old }
    requires below { factor < order field }
    requires count { length source.now ≡ length target.old }
    requires extension { degree field ≢ 1 }
    ensures { HasAdded field factor source.now target.old target.new (length target.old) }
{
    if field.is_binary() {
        add_products(field, factor, field.products_by(factor), source, target);
    } else {
        add_sums(field, factor, field.sums_by(factor), source, target);
    }
}

// The same where the products of the factor with each element are given, and sums are exclusive ors.
fn add_products(field: Field, factor: u8, products: &[u8], source: &[u8], target: &mut [u8])
    requires source_elements { AreElements field source.now }
    requires elements { AreElements field target.old }
    requires count { length source.now ≡ length target.old }
    requires table { IsRowOfProducts field factor products.now }
    requires binary { characteristic field ≡ 2 }
    ensures { HasAdded field factor source.now target.old target.new (length target.old) }
{
    for j in 0..target.len() {
        target[j] ^= products[source[j] as usize];
    }
}

// The same where the letters of the sums of each element and each product with the factor are given.
fn add_sums(field: Field, factor: u8, sums: &[u8], source: &[u8], target: &mut [u8])
    requires source_elements { AreElements field source.now }
    requires elements { AreElements field target.old }
    requires count { length source.now ≡ length target.old }
    requires table { HasSums field factor sums.now }
    ensures { HasAdded field factor source.now target.old target.new (length target.old) }
{
    let size = field.size() as usize;
    for j in 0..target.len() {
        let place = target[j] as usize * size + source[j] as usize;
        target[j] = sums[place] - b'@';
    }
}
