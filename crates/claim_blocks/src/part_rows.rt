//! Rows of a matrix that are read one by one.
ghost use Rattle.std.specs.Prelude.{ℕ, ◌≡◌, ◌≤◌, ◌*◌, IfOk, MatchBool, IsTrue, ◌↔◌, length};
ghost use Rattle.fp_linear.specs.Matrix.{most_entries};
ghost use Rattle.claim_blocks.specs.PartRows.{PartRows as Plain, no_rows, matrix_of, RowStep};

use fp_linear::{Field, Matrix};
use object_lines::add_row_line;
use std::alloc::{AllocError, Global};
use std::marker::Model;
use std::mem;
use text_lines::Parts;

/// Rows of a matrix that are read one by one, so many and each of so many entries. Contracts see the field, both numbers, and the list of the rows that
/// have been read.
#[derive(Drop)]
pub struct PartRows {
    field: Field,
    width: u32,
    wanted: u32,
    read: u32,
    entries: Vec<u8>,
}

impl Model for PartRows {
    ghost use Rattle.claim_blocks.specs.PartRows.{PartRows as Plain, HoldsRows, rows_from};

    ghost Value = { Plain };

    ghost view = { λ r. rows_from r.field r.width r.wanted r.read r.entries.items };

    ghost invariant = { λ r. HoldsRows r.field r.width r.wanted r.read r.entries.items };
}

impl PartRows {
    /// Before the first of so many rows. It takes no memory.
    pub fn new(alloc: Global, field: Field, width: u32, wanted: u32) -> PartRows
        requires { wanted * width ≤ most_entries }
        ensures { result ≡ no_rows field width wanted }
    {
        PartRows {
            field,
            width,
            wanted,
            read: 0,
            entries: Vec::new(alloc),
        }
    }

    /// The field of the entries.
    pub fn field(&self) -> Field
        ensures { result ≡ self.now.field }
    {
        self.field
    }

    /// How many entries each row has.
    pub fn width(&self) -> u32
        ensures { result ≡ self.now.width }
    {
        self.width
    }

    /// Whether no row is left.
    pub fn is_whole(&self) -> bool
        ensures { IsTrue result ↔ (length self.now.rows ≡ self.now.wanted) }
    {
        self.read == self.wanted
    }

    /// Reads the tokens of the line of the next row. `Ok(false)`: they are not those of a row that may follow; the rows that were read are then given up.
    /// `Err`: memory is wanting.
    pub fn take(&mut self, alloc: Global, tokens: Parts<'_>) -> Result<bool, AllocError>
        ensures { IfOk result (λ taken. MatchBool taken (RowStep self.old tokens.entry self.new) ((next : Plain) → ¬ RowStep self.old tokens.entry next)) }
    {
        if self.read == self.wanted {
            return Ok(false);
        }
        let read = self.read;
        let mut entries = mem::replace(&mut self.entries, Vec::new(alloc));
        self.read = 0;
        let added = add_row_line(&mut entries, self.field, self.width, tokens)?;
        if !added {
            return Ok(false);
        }
        self.read = read + 1;
        self.entries = entries;
        Ok(true)
    }

    /// The rows that have been read as a matrix. `Err`: memory is wanting.
    pub fn into_matrix(self, alloc: Global) -> Result<Matrix, AllocError>
        ensures { IfOk result (λ m. m ≡ matrix_of self) }
    {
        let m = Matrix::from_entries(alloc, self.field, self.read, self.width, &self.entries)?;
        Ok(m)
    }
}
