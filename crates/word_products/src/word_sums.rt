//! Sums of terms that act on a word.
ghost use Rattle.std.specs.Prelude.{ℕ, ◌≡◌, ◌<◌, ◌≤◌, ◌∷◌, ◌↔◌, length, All, IfOk, OnOk, IsTrue, slice_index, if◌then◌else◌};
ghost use Rattle.linear_algebra.specs.Field.{order};
ghost use Rattle.linear_algebra.specs.Rows.{IsRow, zeros, unit};
ghost use Rattle.path_algebra.specs.declared.Term.{Term};
ghost use Rattle.word_products.specs.SparseRows.{IsEntry, dense_row, plus_multiple, acted_by, acted_along, acted_terms, counts, IsRowOver};
ghost use Rattle.word_products.specs.WordProducts.{AreEntriesOf};

use crate::sparse::{Entry, SparseRows};
use crate::touched::TouchedRow;
use fp_linear::Field;
use path_algebra::Term;
use quiver_paths::Path;
use std::alloc::{AllocError, Global};
use std::marker::Model;

/// A row, and two more to make it in.
#[derive(Drop)]
pub(crate) struct Sum {
    field: Field,
    width: usize,
    sum: TouchedRow,
    row: TouchedRow,
    spare: TouchedRow,
}

impl Model for Sum {
    ghost use Rattle.word_products.specs.SparseRows.{SumView, HoldsSum};

    ghost Value = { SumView };

    ghost view = { λ s. record { field = s.field; width = s.width; sum = s.sum.row } };

    ghost invariant = { λ s. HoldsSum s.field s.width s.sum s.row s.spare };
}

impl Sum {
    /// The zero row of a width.
    pub(crate) fn new(alloc: Global, field: Field, width: usize) -> Result<Sum, AllocError>
        ensures { IfOk result (λ s. s ≡ record { field = field; width = width; sum = zeros width }) }
    {
        let sum = TouchedRow::new(alloc, field, width)?;
        let row = TouchedRow::new(alloc, field, width)?;
        let spare = TouchedRow::new(alloc, field, width)?;
        Ok(Sum {
            field,
            width,
            sum,
            row,
            spare,
        })
    }

    /// The row.
    pub(crate) fn row(&self) -> &[u8]
        ensures value { result.now ≡ self.now.sum }
        ensures row { IsRow self.now.field self.now.width result.now }
    {
        self.sum.row()
    }

    /// Whether the row is zero.
    pub(crate) fn is_zero(&self) -> bool
        ensures { IsTrue result ↔ ((j : ℕ) → slice_index self.now.sum j ≡ 0) }
    {
        self.sum.is_zero()
    }

    /// Takes out the coefficients that are not zero, with their places, each once.
    pub(crate) fn take_entries(&mut self, alloc: Global) -> Result<Vec<Entry>, AllocError>
        ensures shape { self.new ≡ record self.old { sum = self.new.sum } }
        ensures width { length self.old.sum ≡ self.old.width }
        ensures entries { IfOk result (λ entries. AreEntriesOf self.old.field self.old.sum (length self.old.sum) entries.items) }
    {
        self.sum.take_entries(alloc)
    }

    /// Makes the sum of what the terms make of the word at a place. Terms of the bound's length and more are left out, and those that do not
    /// start and end where the path does.
    pub(crate) fn of_terms(
        &mut self,
        rows: &SparseRows,
        arrows: usize,
        bound: usize,
        like: &Path,
        terms: &[Term],
        place: usize,
    ) -> Result<(), AllocError>
        requires field { rows.now.field ≡ self.old.field }
        requires width { rows.now.width ≡ self.old.width }
        requires few { self.old.width ≤ 4096 }
        requires arrows { arrows ≤ 128 }
        requires terms { All (λ (term : Term). All (λ a. a < arrows) term.path.arrows) terms.now }
        requires coefs { All (λ (term : Term). term.coef < order self.old.field) terms.now }
        requires place { place < self.old.width }
        ensures { OnOk result (self.new ≡ record self.old { sum = acted_terms self.old.field rows.now.rows arrows bound like.now terms.now (unit self.old.width place) }) }
    {
        self.clear();
        for term in terms {
            self.add_term(rows, arrows, bound, like, term, place)?;
        }
        Ok(())
    }

    /// Makes what an arrow makes of the row with these entries.
    pub(crate) fn of_entries(
        &mut self,
        rows: &SparseRows,
        arrows: usize,
        arrow: usize,
        entries: &[Entry],
    ) -> Result<(), AllocError>
        requires field { rows.now.field ≡ self.old.field }
        requires width { rows.now.width ≡ self.old.width }
        requires few { self.old.width ≤ 4096 }
        requires arrow { arrow < arrows }
        requires arrows { arrows ≤ 128 }
        requires entries { All (IsEntry self.old.field self.old.width) entries.now }
        ensures { OnOk result (self.new ≡ record self.old { sum = acted_by self.old.field rows.now.rows arrows arrow (dense_row self.old.field self.old.width entries.now) }) }
    {
        self.row.clear();
        self.row.add_multiple(1, entries)?;
        self.sum.of_arrow(rows, arrows, arrow, &mut self.row)?;
        Ok(())
    }

    // Makes the row zero.
    fn clear(&mut self)
        ensures { self.new ≡ record self.old { sum = zeros self.old.width } }
    {
        self.sum.clear();
    }

    // Adds what a term makes of the word at a place, unless it is left out.
    fn add_term(
        &mut self,
        rows: &SparseRows,
        arrows: usize,
        bound: usize,
        like: &Path,
        term: &Term,
        place: usize,
    ) -> Result<(), AllocError>
        requires field { rows.now.field ≡ self.old.field }
        requires width { rows.now.width ≡ self.old.width }
        requires few { self.old.width ≤ 4096 }
        requires arrows { arrows ≤ 128 }
        requires term { All (λ a. a < arrows) term.now.path.arrows }
        requires coef { term.now.coef < order self.old.field }
        requires place { place < self.old.width }
        ensures { OnOk result (self.new ≡ record self.old {
          sum = if counts bound like.now term.now
              then plus_multiple self.old.field term.now.coef (acted_along self.old.field rows.now.rows arrows term.now.path.arrows (unit self.old.width place)) self.old.sum
              else self.old.sum;
        }) }
    {
        if !term_counts(bound, like, term) {
            return Ok(());
        }
        add_acted(
            rows,
            arrows,
            term,
            place,
            &mut self.sum,
            &mut self.row,
            &mut self.spare,
        )?;
        Ok(())
    }
}

/// Whether the term is shorter than the bound, and starts and ends where the path does.
fn term_counts(bound: usize, like: &Path, term: &Term) -> bool
    ensures { result ≡ counts bound like.now term.now }
{
    term.path.arrows.len() < bound && (term.path.start == like.start && term.path.end == like.end)
}

/// Adds what a term makes of the word at a place. `row` and `spare` are written over.
fn add_acted(
    rows: &SparseRows,
    arrows: usize,
    term: &Term,
    place: usize,
    sum: &mut TouchedRow,
    row: &mut TouchedRow,
    spare: &mut TouchedRow,
) -> Result<(), AllocError>
    requires width { rows.now.width ≤ 4096 }
    requires arrows { arrows ≤ 128 }
    requires term { All (λ a. a < arrows) term.now.path.arrows }
    requires coef { term.now.coef < order rows.now.field }
    requires place { place < rows.now.width }
    requires sum { IsRowOver rows.now.field rows.now.width sum.old }
    requires row { IsRowOver rows.now.field rows.now.width row.old }
    requires spare { IsRowOver rows.now.field rows.now.width spare.old }
    ensures sum { IsRowOver rows.now.field rows.now.width sum.new }
    ensures row { IsRowOver rows.now.field rows.now.width row.new }
    ensures spare { IsRowOver rows.now.field rows.now.width spare.new }
    ensures added { OnOk result (sum.new.row ≡ plus_multiple rows.now.field term.now.coef (acted_along rows.now.field rows.now.rows arrows term.now.path.arrows (unit rows.now.width place)) sum.old.row) }
{
    row.set_unit(place as u16)?;
    row.act_along(rows, arrows, term.path.arrows.as_slice(), spare)?;
    sum.add_taken(term.coef, row)?;
    Ok(())
}

/// Makes the row of the word at a place.
fn set_unit(row: &mut [u8], place: usize)
    requires { place < length row.old }
    ensures { row.new ≡ unit (length row.old) place }
{
    row.fill(0);
    row[place] = 1;
}

/// Writes what the arrows of a path make of the word at a place. `spare` is written over. It takes no memory.
pub fn act_on_word(
    rows: &SparseRows,
    arrows: usize,
    path: &Path,
    place: usize,
    into: &mut [u8],
    spare: &mut [u8],
)
    requires width { rows.now.width ≤ 4096 }
    requires arrows { arrows ≤ 128 }
    requires path { All (λ a. a < arrows) path.now.arrows }
    requires place { place < rows.now.width }
    requires into { length into.old ≡ rows.now.width }
    requires spare { length spare.old ≡ rows.now.width }
    ensures { into.new ≡ acted_along rows.now.field rows.now.rows arrows path.now.arrows (unit rows.now.width place) }
{
    set_unit(into, place);
    rows.act_along(arrows, path.arrows.as_slice(), into, spare);
}

/// Writes what an arrow, and then the arrows of a path, make of the word at a place. `spare` is written over. It takes no memory.
pub fn act_on_word_behind(
    rows: &SparseRows,
    arrows: usize,
    arrow: u8,
    path: &Path,
    place: usize,
    into: &mut [u8],
    spare: &mut [u8],
)
    requires width { rows.now.width ≤ 4096 }
    requires arrows { arrows ≤ 128 }
    requires arrow { arrow < arrows }
    requires path { All (λ a. a < arrows) path.now.arrows }
    requires place { place < rows.now.width }
    requires into { length into.old ≡ rows.now.width }
    requires spare { length spare.old ≡ rows.now.width }
    ensures { into.new ≡ acted_along rows.now.field rows.now.rows arrows (arrow ∷ path.now.arrows) (unit rows.now.width place) }
{
    set_unit(into, place);
    rows.act_along(arrows, &[arrow], into, spare);
    rows.act_along(arrows, path.arrows.as_slice(), into, spare);
}
