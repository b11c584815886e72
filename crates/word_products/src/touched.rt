//! Rows with all coefficients, beside a list of the places at which they may differ from zero: what is done to one costs as much as there are places.
ghost use Rattle.std.specs.Prelude.{ℕ, ◌≡◌, ◌<◌, ◌≤◌, ◌↔◌, length, All, IfOk, OnOk, IsTrue, MatchOption, slice_index, slice_set};
ghost use Rattle.linear_algebra.specs.Field.{Gf, order, add};
ghost use Rattle.linear_algebra.specs.Rows.{IsRow, zeros, unit};
ghost use Rattle.word_products.specs.SparseRows.{IsEntry, with_multiple, plus_multiple, acted_by, acted_along, HoldsTouched, IsRowOver, IsTakenOut};
ghost use Rattle.word_products.specs.WordProducts.{AreEntriesOf};

use crate::sparse::{Entry, SparseRows};
use fp_linear::Field;
use std::alloc::{AllocError, Global};
use std::marker::Model;
use std::mem;

/// A row over a field, and a list of places. A place may be listed more than once, and its coefficient be zero; at all others it is zero.
#[derive(Drop)]
pub(crate) struct TouchedRow {
    field: Field,
    width: usize,
    row: Vec<u8>,
    places: Vec<u16>,
}

impl Model for TouchedRow {
    ghost use Rattle.std.specs.Prelude.{length};
    ghost use Rattle.word_products.specs.SparseRows.{TouchedView, HoldsTouched};

    ghost Value = { TouchedView };

    ghost view = { λ t. record { field = t.field; width = t.width; row = t.row.items; listed = length t.places.items } };

    ghost invariant = { λ t. HoldsTouched t.field t.width t.row.items t.places.items };
}

impl TouchedRow {
    /// The zero row of a width.
    pub(crate) fn new(alloc: Global, field: Field, width: usize) -> Result<TouchedRow, AllocError>
        ensures { IfOk result (λ t. t ≡ record { field = field; width = width; row = zeros width; listed = 0 }) }
    {
        let row = vec![in alloc; 0u8; width]?;
        Ok(TouchedRow {
            field,
            width,
            row,
            places: Vec::new(alloc),
        })
    }

    /// The coefficients.
    pub(crate) fn row(&self) -> &[u8]
        ensures value { result.now ≡ self.now.row }
        ensures row { IsRow self.now.field self.now.width result.now }
    {
        &self.row
    }

    /// Whether all coefficients are zero.
    pub(crate) fn is_zero(&self) -> bool
        ensures { IsTrue result ↔ ((j : ℕ) → slice_index self.now.row j ≡ 0) }
    {
        for place in &self.places {
            if self.row[*place as usize] != 0 {
                return false;
            }
        }
        true
    }

    /// Makes all coefficients zero.
    pub(crate) fn clear(&mut self)
        ensures fits { IsRowOver self.old.field self.old.width self.new }
        ensures row { self.new.row ≡ zeros self.old.width }
    {
        make_zero(&mut self.row, &self.places);
        self.places.clear();
    }

    /// Makes the row of the word at a place.
    pub(crate) fn set_unit(&mut self, place: u16) -> Result<(), AllocError>
        requires { place < self.old.width }
        ensures fits { IsRowOver self.old.field self.old.width self.new }
        ensures row { OnOk result (self.new.row ≡ unit self.old.width place) }
    {
        self.clear();
        self.add_at(place, 1)?;
        Ok(())
    }

    /// Adds to the coefficient at a place.
    fn add_at(&mut self, place: u16, coef: u8) -> Result<(), AllocError>
        requires place { place < self.old.width }
        requires coef { coef < order self.old.field }
        ensures fits { IsRowOver self.old.field self.old.width self.new }
        ensures row { OnOk result (self.new.row ≡ slice_set self.old.row place (add self.old.field (slice_index self.old.row place) coef)) }
    {
        let old = self.row[place as usize];
        if old != 0 {
            self.row[place as usize] = self.field.add(old, coef);
            return Ok(());
        }
        self.places.push(place)?;
        self.row[place as usize] = coef;
        Ok(())
    }

    /// Adds a multiple of a sparse row.
    pub(crate) fn add_multiple(&mut self, factor: u8, row: &[Entry]) -> Result<(), AllocError>
        requires factor { factor < order self.old.field }
        requires entries { All (IsEntry self.old.field self.old.width) row.now }
        ensures fits { IsRowOver self.old.field self.old.width self.new }
        ensures row { OnOk result (self.new.row ≡ with_multiple self.old.field factor row.now self.old.row) }
    {
        let field = self.field;
        if factor == 0 {
            return Ok(());
        }
        for entry in row {
            self.add_at(entry.word, field.mul(factor, entry.coef))?;
        }
        Ok(())
    }

    /// Takes out the coefficient at a place that is listed, and the place from the list; none where no place is.
    fn take(&mut self) -> Option<Entry>
        ensures fits { IsRowOver self.old.field self.old.width self.new }
        ensures taken { MatchOption result (self.old.row ≡ zeros self.old.width) (IsTakenOut self.old self.new) }
    {
        match self.places.pop() {
            None => None,
            Some(word) => {
                let coef = self.row[word as usize];
                self.row[word as usize] = 0;
                Some(Entry { coef, word })
            }
        }
    }

    /// Takes out the coefficients that are not zero, with their places, each once.
    pub(crate) fn take_entries(&mut self, alloc: Global) -> Result<Vec<Entry>, AllocError>
        ensures fits { IsRowOver self.old.field self.old.width self.new }
        ensures entries { IfOk result (λ entries. AreEntriesOf self.old.field self.old.row (length self.old.row) entries.items) }
    {
        let mut entries = Vec::with_capacity(alloc, self.places.len())?;
        while let Some(entry) = self.take() {
            if entry.coef == 0 {
                continue;
            }
            entries.push(entry)?;
        }
        Ok(entries)
    }

    /// Adds a multiple of a row, which is taken out of there.
    pub(crate) fn add_taken(&mut self, factor: u8, from: &mut TouchedRow) -> Result<(), AllocError>
        requires factor { factor < order self.old.field }
        requires from { IsRowOver self.old.field self.old.width from.old }
        ensures fits { IsRowOver self.old.field self.old.width self.new }
        ensures from { IsRowOver self.old.field self.old.width from.new }
        ensures row { OnOk result (self.new.row ≡ plus_multiple self.old.field factor from.old.row self.old.row) }
    {
        let field = self.field;
        while let Some(entry) = from.take() {
            self.add_at(entry.word, field.mul(factor, entry.coef))?;
        }
        Ok(())
    }

    /// Makes what an arrow makes of a row, which is taken out of there. Each word has rows for so many arrows, one behind the other.
    pub(crate) fn of_arrow(
        &mut self,
        rows: &SparseRows,
        arrows: usize,
        arrow: usize,
        from: &mut TouchedRow,
    ) -> Result<(), AllocError>
        requires arrow { arrow < arrows }
        requires arrows { arrows ≤ 128 }
        requires width { rows.now.width ≤ 4096 }
        requires fits { IsRowOver rows.now.field rows.now.width self.old }
        requires from { IsRowOver rows.now.field rows.now.width from.old }
        ensures fits { IsRowOver rows.now.field rows.now.width self.new }
        ensures from { IsRowOver rows.now.field rows.now.width from.new }
        ensures row { OnOk result (self.new.row ≡ acted_by rows.now.field rows.now.rows arrows arrow from.old.row) }
    {
        self.clear();
        while let Some(entry) = from.take() {
            self.add_multiple(entry.coef, rows.row(entry.word as usize * arrows + arrow))?;
        }
        Ok(())
    }

    /// Makes of the row what arrows make of it, one behind the other. `spare` is written over.
    pub(crate) fn act_along(
        &mut self,
        rows: &SparseRows,
        arrows: usize,
        path: &[u8],
        spare: &mut TouchedRow,
    ) -> Result<(), AllocError>
        requires path { All (λ a. a < arrows) path.now }
        requires arrows { arrows ≤ 128 }
        requires width { rows.now.width ≤ 4096 }
        requires fits { IsRowOver rows.now.field rows.now.width self.old }
        requires spare { IsRowOver rows.now.field rows.now.width spare.old }
        ensures fits { IsRowOver rows.now.field rows.now.width self.new }
        ensures spare { IsRowOver rows.now.field rows.now.width spare.new }
        ensures row { OnOk result (self.new.row ≡ acted_along rows.now.field rows.now.rows arrows path.now self.old.row) }
    {
        for arrow in path {
            spare.of_arrow(rows, arrows, *arrow as usize, self)?;
            mem::swap(self, spare);
        }
        Ok(())
    }
}

/// Makes the coefficients at these places zero.
fn make_zero(row: &mut [u8], places: &[u16])
    requires { All (λ p. p < length row.old) places.now }
    ensures { (q : Gf) (n : ℕ) → HoldsTouched q n row.old places.now → row.new ≡ zeros n }
{
    for k in 0..places.len() {
        row[places[k] as usize] = 0;
    }
}
