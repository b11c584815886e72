//! From which power on a space of families is zero: the images of all rows at each vertex, taken again and again.
ghost use Rattle.std.specs.Prelude.{ℕ, ◌≡◌, ◌<◌, ◌≤◌, ◌+◌, ◌*◌, length, slice_index, drop, MatchOption, MatchBool};
ghost use Rattle.linear_algebra.specs.Matrix.{one, delta, ◌·◌};
ghost use Rattle.linear_algebra.specs.Rank.{HasRightInverse};
ghost use Rattle.fp_linear.specs.Slices.{AreElements};
ghost use Rattle.local_modules.specs.ImageChain.{IsImageOf, VanishFrom};
ghost use Rattle.local_checks.specs.Standing.{standing};
ghost use Rattle.local_checks.specs.Units.{unit_entry};
ghost use Rattle.local_checks.specs.Images.{blocks_at, IsSumOfSpans, NeverVanish};

use crate::rows::reduce_rows;
use fp_linear::{Field, multiply_row};

/// Writes the images of the first `count` rows under a square matrix with `size` rows.
fn write_images(field: Field, size: usize, count: usize, rows: &[u8], block: &[u8], out: &mut [u8])
    requires rows_elements { AreElements field rows.now }
    requires block_elements { AreElements field block.now }
    requires elements { AreElements field out.old }
    requires rows_count { length rows.now ≡ count * size }
    requires block_count { length block.now ≡ size * size }
    requires count { length out.old ≡ count * size }
    ensures elements { AreElements field out.new }
    ensures images { standing field count size out.new ≡ standing field count size rows.now · standing field size size block.now }
{
    for i in 0..count {
        let start = i * size;
        let end = start + size;
        multiply_row(field, &rows[start..end], block, &mut out[start..end]);
    }
}

/// Adds the images of the first `count` rows under a square matrix to the span of the first `rank` rows of `next`, and answers its new rank. There is room
/// for twice as many rows as they are long.
fn add_images(
    field: Field,
    size: u32,
    count: u32,
    rows: &[u8],
    block: &[u8],
    rank: u32,
    next: &mut [u8],
    pivots: &mut [u32],
) -> u32
    requires rows_elements { AreElements field rows.now }
    requires block_elements { AreElements field block.now }
    requires elements { AreElements field next.old }
    requires rows_count { length rows.now ≡ count * size }
    requires block_count { length block.now ≡ size * size }
    requires few { count ≤ size }
    requires rank { rank ≤ size }
    requires small { size ≤ 256 }
    requires shape { length next.old ≡ (size + size) * size }
    requires room { size + size ≤ length pivots.old }
    ensures elements { AreElements field next.new }
    ensures rank { result ≤ size }
    ensures sum { IsSumOfSpans (standing field rank size next.old) (standing field count size rows.now · standing field size size block.now) (standing field result size next.new) }
{
    let start = rank as usize * size as usize;
    let end = start + count as usize * size as usize;
    write_images(
        field,
        size as usize,
        count as usize,
        rows,
        block,
        &mut next[start..end],
    );
    reduce_rows(field, rank + count, size, &mut next[..end], pivots)
}

/// Writes a basis of the sum of the images of the first `count` rows under the blocks of `members` families, which are `width` long each and in which the
/// block begins at `from`; answers how many rows it has.
fn images_of(
    field: Field,
    size: u32,
    count: u32,
    rows: &[u8],
    members: usize,
    width: usize,
    from: usize,
    families: &[u8],
    next: &mut [u8],
    pivots: &mut [u32],
) -> u32
    requires rows_elements { AreElements field rows.now }
    requires families_elements { AreElements field families.now }
    requires elements { AreElements field next.old }
    requires rows_count { length rows.now ≡ count * size }
    requires block_inside { from + size * size ≤ width }
    requires families_count { length families.now ≡ members * width }
    requires few { count ≤ size }
    requires small { size ≤ 256 }
    requires shape { length next.old ≡ (size + size) * size }
    requires room { size + size ≤ length pivots.old }
    ensures elements { AreElements field next.new }
    ensures rank { result ≤ size }
    ensures independent { HasRightInverse (standing field result size next.new) }
    ensures images { IsImageOf members (blocks_at field size width from families.now) (standing field count size rows.now) (standing field result size next.new) }
{
    let entries = size as usize * size as usize;
    let mut rank = 0;
    for j in 0..members {
        let start = j * width + from;
        let end = start + entries;
        rank = add_images(
            field,
            size,
            count,
            rows,
            &families[start..end],
            rank,
            next,
            pivots,
        );
    }
    rank
}

/// An entry of the identity matrix.
fn identity_entry(i: usize, j: usize) -> u8
    ensures { result ≡ delta i j }
{
    if i == j { 1 } else { 0 }
}

/// Writes the identity matrix.
pub(crate) fn write_identity(field: Field, size: usize, rows: &mut [u8])
    requires elements { AreElements field rows.old }
    requires shape { length rows.old ≡ size * size }
    ensures elements { AreElements field rows.new }
    ensures identity { standing field size size rows.new ≡ one field size }
    ensures entries { (k : ℕ) → k < size * size → slice_index rows.new k ≡ unit_entry size k }
{
    for e in 0..size * size {
        rows[e] = identity_entry(e / size, e % size);
    }
}

/// The least number from which on the products of so many members of `members` families are zero at a vertex, at which a family, `width` long, has its square
/// block with `size` rows from `from` on; `None` where there is no such number. The other slices are worked in.
pub fn power_at(
    field: Field,
    size: u32,
    members: usize,
    width: usize,
    from: usize,
    families: &[u8],
    rows: &mut [u8],
    next: &mut [u8],
    pivots: &mut [u32],
) -> Option<u32>
    requires families_elements { AreElements field families.now }
    requires rows_elements { AreElements field rows.old }
    requires elements { AreElements field next.old }
    requires block_inside { from + size * size ≤ width }
    requires families_count { length families.now ≡ members * width }
    requires small { size ≤ 256 }
    requires rows_shape { length rows.old ≡ size * size }
    requires shape { length next.old ≡ (size + size) * size }
    requires room { size + size ≤ length pivots.old }
    ensures rows_elements { AreElements field rows.new }
    ensures elements { AreElements field next.new }
    ensures power { MatchOption result (NeverVanish members (blocks_at field size width from families.now)) (VanishFrom members (blocks_at field size width from families.now)) }
{
    write_identity(field, size as usize, rows);
    let mut rank = size;
    for i in 0..size {
        if rank == 0 {
            return Some(i);
        }
        let less = images_of(
            field,
            size,
            rank,
            &rows[..rank as usize * size as usize],
            members,
            width,
            from,
            families,
            next,
            pivots,
        );
        if less == rank {
            return None;
        }
        rows.copy_from_slice(&next[..rows.len()]);
        rank = less;
    }
    Some(size)
}
