//! The objects of a report that is being read: their numbers, and their matrices line by line.
ghost use Rattle.std.specs.Prelude.{ℕ, ◌≡◌, ◌<◌, ◌≤◌, ◌+◌, ◌^◌, ◌∷◌, ◌++◌, [], length, slice_index, IfOk, OnOk, MatchBool, MatchOption};
ghost use Rattle.bound_algebra.specs.TypedPaths.{quiver_of};
ghost use Rattle.module_types.specs.Algebras.{algebra_at};
ghost use Rattle.module_types.specs.Readings.{dim_at};
ghost use Rattle.object_lines.specs.Spelling.{at_line};
ghost use Rattle.quiver_paths.specs.Quiver.{vertex_count, arrow_count};
ghost use Rattle.report_types.specs.Numbers.{modules_of, maps_of, module_of};
ghost use Rattle.claim_text.specs.declared.part.Part.{Part};
ghost use Rattle.claim_text.specs.Part.{here, count_of, name_of, rows_of, columns_of, closed, at_matrices, fill, with_matrix};
ghost use Rattle.claim_text.specs.declared.part.Place.TheVariants.{Between as between};
ghost use Rattle.header_text.specs.Reading.{Reads};
ghost use Rattle.module_types.specs.Shapes.{HasShape};
ghost use Rattle.claim_text.specs.Filling.{Filling, with_empties};
ghost use Rattle.claim_text.specs.Steps.{Takes, FitsMatrix};

use crate::part::{Owner, Part, Place};
use fp_linear::Matrix;
use module_types::{Map, Module, source_at, target_at};
use object_lines::{read_at_arrow, read_at_vertex};
use path_algebra::Header;
use seq::Seq;
use std::alloc::{AllocError, Global};
use std::mem;
use text_lines::Parts;

/// The dimension at a vertex; none past the last vertex.
fn dim_at(header: &Header, dims: &[u32], vertex: usize) -> u32
    ensures { result ≡ dim_at (quiver_of header.now.quiver) dims.now vertex }
{
    if vertex >= header.quiver.vertices.len() || vertex >= dims.len() {
        return 0;
    }
    dims[vertex]
}

impl Part {
    /// How many modules there are up to here; none where their number has no 32 bits.
    #[tactic(auto, using(crate::proofs::ObjectReading::modules_counted))]
    pub(crate) fn module_count(&self) -> Option<u32>
        ensures { MatchOption result (2 ^ 32 ≤ length (modules_of (here self.now))) (λ n. n ≡ length (modules_of (here self.now))) }
    {
        let more = self.modules.len();
        if more > u32::MAX as usize {
            return None;
        }
        self.records.module_count().checked_add(more as u32)
    }

    /// How many maps there are up to here; none where their number has no 32 bits.
    #[tactic(auto, using(crate::proofs::ObjectReading::maps_counted))]
    pub(crate) fn map_count(&self) -> Option<u32>
        ensures { MatchOption result (2 ^ 32 ≤ length (maps_of (here self.now))) (λ n. n ≡ length (maps_of (here self.now))) }
    {
        let more = self.maps.len();
        if more > u32::MAX as usize {
            return None;
        }
        self.records.map_count().checked_add(more as u32)
    }

    /// The dimensions of the module with this number; of none where there is no such module.
    fn dims_of(&self, n: u32) -> &[u32]
        ensures { result.now ≡ (module_of (here self.now) n).dims }
    {
        if let Some(found) = self.records.module(n) {
            return found.dims.as_slice();
        }
        let before = self.records.module_count();
        if n <= before || (n - before) as usize > self.modules.len() {
            return &[];
        }
        self.modules[(n - before) as usize - 1].dims.as_slice()
    }

    /// How many matrices an object has.
    fn matrix_count(&self, owner: Owner) -> usize
        ensures { result ≡ count_of self.now.front.header owner }
    {
        match owner {
            Owner::Module { side: _side } => self.front.header().quiver.arrows.len(),
            Owner::Map {
                source: _source,
                target: _target,
            } => self.front.header().quiver.vertices.len(),
        }
    }

    /// How many rows matrix i of an object has.
    fn row_count(&self, owner: Owner, i: usize) -> u32
        requires { i < count_of self.now.front.header owner }
        ensures { result ≡ rows_of self.now.front.header self.now.dims (here self.now) owner i }
    {
        let header = self.front.header();
        match owner {
            Owner::Module { side } => dim_at(
                header,
                self.dims.as_slice(),
                source_at(header, side, i as u8) as usize,
            ),
            Owner::Map {
                source,
                target: _target,
            } => dim_at(header, self.dims_of(source), i),
        }
    }

    /// How many columns it has.
    fn column_count(&self, owner: Owner, i: usize) -> u32
        requires { i < count_of self.now.front.header owner }
        ensures { result ≡ columns_of self.now.front.header self.now.dims (here self.now) owner i }
    {
        let header = self.front.header();
        match owner {
            Owner::Module { side } => dim_at(
                header,
                self.dims.as_slice(),
                target_at(header, side, i as u8) as usize,
            ),
            Owner::Map {
                source: _source,
                target,
            } => dim_at(header, self.dims_of(target), i),
        }
    }

    /// Adds the matrix that is next where it has no entries, and says whether it has none.
    fn add_next(&mut self, alloc: Global, owner: Owner) -> Result<bool, AllocError>
        requires { length self.old.matrices < count_of self.old.front.header owner }
        ensures { IfOk result (λ added. MatchBool added (Filling owner self.old self.new (length self.old.matrices + 1) (count_of self.old.front.header owner)) (self.new ≡ with_empties self.old owner)) }
    {
        let i = self.matrices.len();
        let rows = self.row_count(owner, i);
        let columns = self.column_count(owner, i);
        if rows != 0 && columns != 0 {
            return Ok(false);
        }
        let empty = Matrix::zero(alloc, self.front.header().field, rows, columns)?;
        self.matrices.push(empty)?;
        Ok(true)
    }

    /// Adds the matrices without entries that come next.
    fn add_empty(&mut self, alloc: Global, owner: Owner) -> Result<(), AllocError>
        ensures { OnOk result (self.new ≡ with_empties self.old owner) }
    {
        for _i in self.matrices.len()..self.matrix_count(owner) {
            let added = self.add_next(alloc, owner)?;
            if !added {
                return Ok(());
            }
        }
        Ok(())
    }

    /// Makes a whole object of its matrices.
    fn close_object(&mut self, alloc: Global, owner: Owner) -> Result<(), AllocError>
        ensures { OnOk result (self.new ≡ closed (record self.old { place = between }) owner) }
    {
        let matrices = mem::replace(&mut self.matrices, Seq::new(alloc));
        match owner {
            Owner::Module { side } => {
                let dims = mem::replace(&mut self.dims, Seq::new(alloc));
                self.modules.push(Module {
                    side,
                    dims,
                    matrices,
                })?;
            }
            Owner::Map { source, target } => {
                self.maps.push(Map {
                    source,
                    target,
                    matrices,
                })?;
            }
        }
        self.place = Place::Between;
        Ok(())
    }

    /// Adds the matrices without entries that come next; where none is left, makes a whole object of them.
    pub(crate) fn fill(&mut self, alloc: Global, owner: Owner) -> Result<(), AllocError>
        ensures { OnOk result (self.new ≡ fill self.old owner) }
    {
        self.add_empty(alloc, owner)?;
        if self.matrices.len() == self.matrix_count(owner) {
            self.close_object(alloc, owner)?;
            return Ok(());
        }
        self.place = Place::Matrices(owner);
        Ok(())
    }

    /// Reads the line of matrix i of an object.
    fn read_matrix(
        &self,
        alloc: Global,
        owner: Owner,
        i: usize,
        tokens: Parts<'_>,
    ) -> Result<Option<Matrix>, AllocError>
        requires { i < count_of self.now.front.header owner }
        ensures { IfOk result (λ r. Reads (HasShape self.now.front.header.field (rows_of self.now.front.header self.now.dims (here self.now) owner i) (columns_of self.now.front.header self.now.dims (here self.now) owner i))
            (at_line (name_of self.now.front.header.quiver owner i)) tokens.entry r) }
    {
        let header = self.front.header();
        let rows = self.row_count(owner, i);
        let columns = self.column_count(owner, i);
        match owner {
            Owner::Module { side: _side } => read_at_arrow(
                alloc,
                &header.quiver,
                i as u8,
                header.field,
                rows,
                columns,
                tokens,
            ),
            Owner::Map {
                source: _source,
                target: _target,
            } => read_at_vertex(
                alloc,
                &header.quiver,
                i as u8,
                header.field,
                rows,
                columns,
                tokens,
            ),
        }
    }

    /// Reads the line of the matrix that is next.
    pub(crate) fn take_matrix(
        &mut self,
        alloc: Global,
        owner: Owner,
        tokens: Parts<'_>,
    ) -> Result<bool, AllocError>
        ensures { IfOk result (λ taken. MatchBool taken (Takes (FitsMatrix self.old owner) (at_line (name_of self.old.front.header.quiver owner (length self.old.matrices))) (with_matrix self.old owner) tokens.entry self.new)
            ((next : Part) → ¬ Takes (FitsMatrix self.old owner) (at_line (name_of self.old.front.header.quiver owner (length self.old.matrices))) (with_matrix self.old owner) tokens.entry next)) }
    {
        let i = self.matrices.len();
        if i >= self.matrix_count(owner) {
            return Ok(false);
        }
        let Some(m) = self.read_matrix(alloc, owner, i, tokens)? else {
            return Ok(false);
        };
        if m.rows() == 0 || m.cols() == 0 {
            return Ok(false);
        }
        self.matrices.push(m)?;
        self.fill(alloc, owner)?;
        Ok(true)
    }
}
