//! Copying parts of matrices, and identity matrices.
ghost use Rattle.std.specs.Prelude.{◌≡◌, ◌+◌, ◌*◌, ◌<◌, ◌≤◌, ◌^◌, ℕ, length};
ghost use Rattle.linear_algebra.specs.Field.{Gf};
ghost use Rattle.fp_linear.specs.Slices.{AreElements, IsWritten, cell, copied};
ghost use Rattle.fp_linear.specs.Products.{HasBlock, HasColumn, HasColumns, HasUnits};

/// Copies the `count` entries of `source` from `from` on to the places of `target` from `at` on.
pub(crate) fn copy_part(source: &[u8], from: usize, target: &mut [u8], at: usize, count: usize)
    requires from_inside { from + count ≤ length source.now }
    requires at_inside { at + count ≤ length target.old }
    ensures written { IsWritten target.old target.new at count (copied from source.now) }
    ensures elements { (q : Gf) → AreElements q source.now → AreElements q target.old → AreElements q target.new }
{
    for j in 0..count {
        target[at + j] = source[from + j];
    }
}

/// Where a block of a matrix of `width` columns begins: in row `first` and column `from`.
#[derive(Clone, Copy)]
pub(crate) struct Corner {
    pub width: usize,
    pub first: usize,
    pub from: usize,
}

/// Copies `rows` rows of `count` entries each from a corner of one matrix to the beginnings of the rows of another, of `width` columns.
pub(crate) fn copy_block(
    source: &[u8],
    corner: Corner,
    target: &mut [u8],
    width: usize,
    rows: usize,
    count: usize,
)
    requires source_inside { (corner.first + rows) * corner.width ≤ length source.now }
    requires columns_inside { corner.from + count ≤ corner.width }
    requires target_inside { rows * width ≤ length target.old }
    requires fits { count ≤ width }
    requires small { corner.first + rows < 2 ^ 33 }
    ensures block { HasBlock width count rows corner.first corner.from (cell corner.width source.now) (cell width target.old) (cell width target.new) }
    ensures elements { (q : Gf) → AreElements q source.now → AreElements q target.old → AreElements q target.new }
{
    for i in 0..rows {
        copy_part(
            source,
            (corner.first + i) * corner.width + corner.from,
            target,
            i * width,
            count,
        );
    }
}

/// Writes ones on the diagonal that begins in row 0 and column `from`, over zeros.
pub(crate) fn put_units(rows: usize, width: usize, from: usize, entries: &mut [u8])
    requires shape { length entries.old ≡ rows * width }
    requires fits { from + rows ≤ width }
    requires zero { (i j : ℕ) → i < rows → j < rows → cell width entries.old i (from + j) ≡ 0 }
    ensures units { HasUnits rows from rows (cell width entries.old) (cell width entries.new) }
    ensures elements { (q : Gf) → AreElements q entries.old → AreElements q entries.new }
{
    for i in 0..rows {
        entries[i * width + from + i] = 1;
    }
}

/// Writes the `count` entries of `source` from `from` on as a column of a matrix of `width` columns.
pub(crate) fn put_column(
    source: &[u8],
    from: usize,
    count: usize,
    target: &mut [u8],
    width: usize,
    column: usize,
)
    requires source_inside { from + count ≤ length source.now }
    requires target_inside { count * width ≤ length target.old }
    requires column_inside { column < width }
    ensures column { HasColumn width count column (copied from source.now) (cell width target.old) (cell width target.new) }
    ensures elements { (q : Gf) → AreElements q source.now → AreElements q target.old → AreElements q target.new }
{
    for j in 0..count {
        target[j * width + column] = source[from + j];
    }
}

/// Writes the first `rows` rows of `source`, of `count` entries each, as the columns from `first` on of a matrix of `width` columns.
pub(crate) fn put_columns(
    source: &[u8],
    count: usize,
    target: &mut [u8],
    width: usize,
    first: usize,
    rows: usize,
)
    requires source_shape { length source.now ≡ rows * count }
    requires target_shape { length target.old ≡ count * width }
    requires fits { first + rows ≤ width }
    ensures columns { HasColumns count first rows (cell count source.now) (cell width target.old) (cell width target.new) }
    ensures elements { (q : Gf) → AreElements q source.now → AreElements q target.old → AreElements q target.new }
{
    for i in 0..rows {
        put_column(source, i * count, count, target, width, first + i);
    }
}
