//! Rows that are collected and brought into reduced row form whenever their number passes twice that of the columns.
ghost use Rattle.std.specs.Prelude.{◌≡◌, ◌+◌, ◌*◌, ◌<◌, ◌≤◌, ◌++◌, ◌∷◌, [], length, IfOk, OnOk, slice_index_or};
ghost use Rattle.linear_algebra.specs.Rows.{IsRow, IsInSpan, SameSpan};
ghost use Rattle.linear_algebra.specs.Reduced.{IsReduced};

use fp_linear::{Field, echelon_rows};
use std::alloc::{AllocError, Global};
use std::marker::Model;

/// Rows over a field, of one length.
#[derive(Drop)]
pub(crate) struct Closure {
    field: Field,
    columns: u32,
    rows: u32,
    entries: Vec<u8>,
    pivots: Vec<u32>,
}

impl Model for Closure {
    ghost use Rattle.linear_algebra.specs.Rows.{rows_of};
    ghost use Rattle.path_algebra.specs.Rows.{RowsView};
    ghost use Rattle.word_products.specs.Closure.{HoldsRows};
    ghost use Rattle.std.specs.Prelude.{length};

    ghost Value = { RowsView };

    ghost view = { λ c. record { field = c.field; columns = c.columns; room = length c.pivots.items; rows = rows_of c.rows c.columns c.entries.items } };

    ghost invariant = { λ c. HoldsRows c.field c.columns c.rows (length c.pivots.items) c.entries.items };
}

impl Closure {
    /// No rows, of at most 4,096 columns.
    pub(crate) fn new(alloc: Global, field: Field, columns: u32) -> Result<Closure, AllocError>
        requires { columns ≤ 4096 }
        ensures { IfOk result (λ c. c ≡ record { field = field; columns = columns; room = 2 * columns + 1; rows = [] }) }
    {
        let pivots = vec![in alloc; 0u32; 2 * columns as usize + 1]?;
        Ok(Closure {
            field,
            columns,
            rows: 0,
            entries: Vec::new(alloc),
            pivots,
        })
    }

    /// Adds a row to those whose combinations are held.
    pub(crate) fn push(&mut self, row: &[u8]) -> Result<(), AllocError>
        requires { IsRow self.old.field self.old.columns row.now }
        ensures shape { OnOk result (self.new ≡ record self.old { rows = self.new.rows }) }
        ensures span { OnOk result (SameSpan self.old.field self.old.columns (self.old.rows ++ row.now ∷ []) self.new.rows) }
    {
        self.make_room();
        self.entries.extend_from_slice(row)?;
        self.rows += 1;
        Ok(())
    }

    // Room for one more row, the same combinations.
    fn make_room(&mut self)
        ensures shape { self.new ≡ record self.old { rows = self.new.rows } }
        ensures span { SameSpan self.old.field self.old.columns self.old.rows self.new.rows }
        ensures room { length self.new.rows < self.new.room }
    {
        if self.rows as usize == self.pivots.len() {
            self.reduce();
        }
    }

    /// How many rows are held.
    pub(crate) fn len(&self) -> u32
        ensures { result ≡ length self.now.rows }
    {
        self.rows
    }

    /// The row at a place, counted from 0.
    pub(crate) fn row(&self, i: u32) -> &[u8]
        requires { i < length self.now.rows }
        ensures value { result.now ≡ slice_index_or self.now.rows i [] }
        ensures row { IsRow self.now.field self.now.columns result.now }
        ensures span { IsInSpan self.now.field self.now.columns self.now.rows result.now }
    {
        let start = i as usize * self.columns as usize;
        let end = start + self.columns as usize;
        &self.entries[start..end]
    }

    /// Brings the rows into reduced row form, without those that are zero.
    pub(crate) fn reduce(&mut self)
        ensures shape { self.new ≡ record self.old { rows = self.new.rows } }
        ensures span { SameSpan self.old.field self.old.columns self.old.rows self.new.rows }
        ensures reduced { IsReduced self.old.columns self.new.rows }
        ensures few { length self.new.rows ≤ self.new.columns }
    {
        let rank = echelon_rows(
            self.field,
            self.rows,
            self.columns,
            &mut self.entries,
            &mut self.pivots,
        );
        self.entries.truncate(rank as usize * self.columns as usize);
        self.rows = rank;
    }
}
