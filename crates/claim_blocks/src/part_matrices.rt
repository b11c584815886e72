//! Matrices at the vertices that are read one by one.
ghost use Rattle.std.specs.Prelude.{ℕ, ◌≡◌, ◌<◌, ◌≤◌, ◌+◌, IfOk, OnOk, MatchBool, IsTrue, ◌↔◌, length, slice_index};
ghost use Rattle.header_text.specs.Named.{IsNamed};
ghost use Rattle.claim_blocks.specs.declared.part_matrices.PartMatrices.{PartMatrices as PartMatricesView};
ghost use Rattle.claim_blocks.specs.PartMatrices.{filled_part, no_matrices, MatrixStep, IsWholeMatrices, Filling};

use fp_linear::{Field, Matrix};
use object_lines::read_at_vertex;
use path_algebra::Header;
use seq::Seq;
use std::alloc::{AllocError, Global};
use text_lines::Parts;

/// Matrices at the vertices that are read one by one: their field, how many rows and columns each has, and those that have been read. Matrices without entries
/// have no line: they stand there as soon as they are next.
#[derive(Drop)]
pub struct PartMatrices {
    pub field: Field,
    pub rows: Seq<u32>,
    pub columns: Seq<u32>,
    pub matrices: Seq<Matrix>,
}

/// The number in a list; 0 past its end.
fn number_in(numbers: &[u32], i: usize) -> u32
    ensures { result ≡ slice_index numbers.now i }
{
    if i >= numbers.len() {
        return 0;
    }
    numbers[i]
}

impl PartMatrices {
    /// Before the first line. `Err`: memory is wanting.
    pub(crate) fn new(
        alloc: Global,
        field: Field,
        rows: Seq<u32>,
        columns: Seq<u32>,
    ) -> Result<PartMatrices, AllocError>
        ensures { IfOk result (λ m. m ≡ no_matrices field rows columns) }
    {
        let mut part = PartMatrices {
            field,
            rows,
            columns,
            matrices: Seq::new(alloc),
        };
        part.fill(alloc)?;
        Ok(part)
    }

    /// How many rows matrix i has.
    fn row_count(&self, i: usize) -> u32
        ensures { result ≡ slice_index self.now.rows i }
    {
        number_in(self.rows.as_slice(), i)
    }

    /// How many columns it has.
    fn column_count(&self, i: usize) -> u32
        ensures { result ≡ slice_index self.now.columns i }
    {
        number_in(self.columns.as_slice(), i)
    }

    /// Adds the matrix that is next where it has no entries, and says whether it has none.
    fn add_next(&mut self, alloc: Global) -> Result<bool, AllocError>
        requires { length self.old.matrices < length self.old.rows }
        ensures { IfOk result (λ added. MatchBool added (Filling self.old self.new (length self.old.matrices + 1) (length self.old.rows)) (self.new ≡ filled_part self.old)) }
    {
        let i = self.matrices.len();
        let rows = self.row_count(i);
        let columns = self.column_count(i);
        if rows != 0 && columns != 0 {
            return Ok(false);
        }
        let empty = Matrix::zero(alloc, self.field, rows, columns)?;
        self.matrices.push(empty)?;
        Ok(true)
    }

    /// Adds the matrices without entries that come next.
    fn fill(&mut self, alloc: Global) -> Result<(), AllocError>
        ensures { OnOk result (self.new ≡ filled_part self.old) }
    {
        for _i in self.matrices.len()..self.rows.len() {
            let added = self.add_next(alloc)?;
            if !added {
                return Ok(());
            }
        }
        Ok(())
    }

    /// Whether no matrix is left.
    pub fn is_whole(&self) -> bool
        ensures { IsTrue result ↔ IsWholeMatrices self.now }
    {
        self.matrices.len() == self.rows.len()
    }

    /// The matrices that have been read.
    pub(crate) fn into_matrices(self) -> Seq<Matrix>
        ensures { result ≡ self.matrices }
    {
        self.matrices
    }

    /// Reads the tokens of the line of the matrix that is next. `Ok(false)`: they are not those of such a line. `Err`: memory is wanting.
    pub(crate) fn take(
        &mut self,
        alloc: Global,
        header: &Header,
        tokens: Parts<'_>,
    ) -> Result<bool, AllocError>
        requires { IsNamed header.now.quiver }
        ensures { IfOk result (λ taken. MatchBool taken (MatrixStep header.now self.old tokens.entry self.new) ((next : PartMatricesView) → ¬ MatrixStep header.now self.old tokens.entry next)) }
    {
        let i = self.matrices.len();
        if i >= self.rows.len() || i >= header.quiver.vertices.len() {
            return Ok(false);
        }
        let rows = self.row_count(i);
        let columns = self.column_count(i);
        let Some(m) = read_at_vertex(
            alloc,
            &header.quiver,
            i as u8,
            self.field,
            rows,
            columns,
            tokens,
        )?
        else {
            return Ok(false);
        };
        if rows == 0 || columns == 0 {
            return Ok(false);
        }
        self.matrices.push(m)?;
        self.fill(alloc)?;
        Ok(true)
    }
}
