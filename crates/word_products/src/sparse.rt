//! Rows over the words of which only some entries are written.
ghost use Rattle.std.specs.Prelude.{◌≡◌, ◌<◌, ◌≤◌, ◌++◌, ◌∷◌, [], length, All, IfOk, OnOk, slice_index_or};
ghost use Rattle.linear_algebra.specs.Field.{Gf, order};
ghost use Rattle.linear_algebra.specs.Rows.{IsRow};
ghost use Rattle.word_products.specs.SparseRows.{IsEntry, begin_of, dense_row, with_multiple, acted_by, acted_along};
ghost use Rattle.word_products.specs.WordProducts.{AreEntriesOf};

use fp_linear::Field;
use std::alloc::{AllocError, Global};
use std::marker::Model;

/// A coefficient and the place of its word.
#[derive(Clone, Copy, Debug, Drop, PartialEq, Eq)]
pub struct Entry {
    pub coef: u8,
    pub word: u16,
}

/// Rows of entries, one behind the other, over a number of words.
#[derive(Drop)]
pub struct SparseRows {
    field: Field,
    width: usize,
    ends: Vec<usize>,
    entries: Vec<Entry>,
}

impl Model for SparseRows {
    ghost use Rattle.word_products.specs.SparseRows.{SparseView, HoldsSparse, pieces};

    ghost Value = { SparseView };

    ghost view = { λ s. record { field = s.field; width = s.width; rows = pieces s.ends.items s.entries.items } };

    ghost invariant = { λ s. HoldsSparse s.field s.width s.ends.items s.entries.items };
}

impl SparseRows {
    /// No rows.
    pub(crate) fn new(alloc: Global, field: Field, width: usize) -> SparseRows
        ensures { result ≡ record { field = field; width = width; rows = [] } }
    {
        SparseRows {
            field,
            width,
            ends: Vec::new(alloc),
            entries: Vec::new(alloc),
        }
    }

    /// Adds a row behind the others.
    pub(crate) fn push_row(&mut self, row: &[Entry]) -> Result<(), AllocError>
        requires { All (IsEntry self.old.field self.old.width) row.now }
        ensures { OnOk result (self.new ≡ record self.old { rows = self.old.rows ++ row.now ∷ [] }) }
    {
        let start = self.entries.len();
        self.entries.extend_from_slice(row)?;
        match self.ends.push(self.entries.len()) {
            Ok(()) => Ok(()),
            Err(failed) => {
                self.entries.truncate(start);
                Err(AllocError::from(failed))
            }
        }
    }

    /// The row with a number, counted from 0; the empty row past the last.
    pub(crate) fn row(&self, k: usize) -> &[Entry]
        ensures row { result.now ≡ slice_index_or self.now.rows k [] }
        ensures entries { All (IsEntry self.now.field self.now.width) result.now }
    {
        if k >= self.ends.len() {
            return &[];
        }
        let start = begin_of(&self.ends, k);
        &self.entries[start..self.ends[k]]
    }

    /// Writes the row with a number, counted from 0, with all its entries; zeros past the last.
    pub fn write_row(&self, k: usize, into: &mut [u8])
        requires { length into.old ≡ self.now.width }
        ensures { into.new ≡ dense_row self.now.field self.now.width (slice_index_or self.now.rows k []) }
    {
        into.fill(0);
        add_multiple(self.field, 1, self.row(k), into);
    }

    /// What an arrow makes of a row: the sum of the rows of the words with the arrow. Each word has rows for so many arrows, one behind the other.
    pub(crate) fn act(&self, arrows: usize, arrow: usize, from: &[u8], into: &mut [u8])
        requires arrow { arrow < arrows }
        requires arrows { arrows ≤ 128 }
        requires width { self.now.width ≤ 4096 }
        requires from { IsRow self.now.field self.now.width from.now }
        requires into { length into.old ≡ self.now.width }
        ensures { into.new ≡ acted_by self.now.field self.now.rows arrows arrow from.now }
    {
        into.fill(0);
        for (i, factor) in from.iter().enumerate() {
            if *factor != 0 {
                add_multiple(self.field, *factor, self.row(i * arrows + arrow), into);
            }
        }
    }

    /// What arrows make of a row, one behind the other. `spare` is written over.
    pub(crate) fn act_along(&self, arrows: usize, path: &[u8], row: &mut [u8], spare: &mut [u8])
        requires path { All (λ a. a < arrows) path.now }
        requires arrows { arrows ≤ 128 }
        requires width { self.now.width ≤ 4096 }
        requires row { IsRow self.now.field self.now.width row.old }
        requires spare { length spare.old ≡ self.now.width }
        ensures row { row.new ≡ acted_along self.now.field self.now.rows arrows path.now row.old }
        ensures spare { length spare.new ≡ length spare.old }
    {
        for arrow in path {
            self.act(arrows, *arrow as usize, row, spare);
            row.copy_from_slice(spare);
        }
    }
}

// Where the row with a number begins.
fn begin_of(ends: &[usize], k: usize) -> usize
    requires { k ≤ length ends.now }
    ensures { result ≡ begin_of ends.now k }
{
    if k == 0 { 0 } else { ends[k - 1] }
}

/// Adds a multiple of a sparse row.
pub(crate) fn add_multiple(field: Field, factor: u8, row: &[Entry], into: &mut [u8])
    requires factor { factor < order field }
    requires entries { All (IsEntry field (length into.old)) row.now }
    requires into { IsRow field (length into.old) into.old }
    ensures { into.new ≡ with_multiple field factor row.now into.old }
{
    for entry in row {
        let place = entry.word as usize;
        into[place] = field.add(into[place], field.mul(factor, entry.coef));
    }
}

/// The entries of a row that are not zero, with their places.
pub(crate) fn entries_of(alloc: Global, row: &[u8]) -> Result<Vec<Entry>, AllocError>
    requires few { length row.now ≤ 4096 }
    ensures { (q : Gf) → IsRow q (length row.now) row.now → IfOk result (λ entries. AreEntriesOf q row.now (length row.now) entries.items) }
{
    let mut entries = Vec::new(alloc);
    for (j, coef) in row.iter().enumerate() {
        if *coef != 0 {
            entries.push(Entry {
                coef: *coef,
                word: j as u16,
            })?;
        }
    }
    Ok(entries)
}
