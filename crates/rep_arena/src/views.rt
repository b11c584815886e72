//! Matrices, modules and maps whose numbers stand in memory that somebody else owns. Contracts see them as those that own theirs.

ghost use Rattle.std.specs.Prelude.{◌≡◌, ◌<◌, length, slice_index_or, [], IfOk};
ghost use Rattle.fp_linear.specs.Matrix.{IsMatrix};
ghost use Rattle.module_types.specs.Readings.{rows_at};
ghost use Rattle.rep_arena.specs.RowCounts.{row_count_at};

use crate::marks::RepId;
use fp_linear::{Field, Matrix};
use module_types::{Map, Module, Side};
use seq::Seq;
use std::alloc::{AllocError, Global};
use std::marker::Model;

/// A matrix, by its entries row by row.
#[derive(Drop)]
pub struct MatrixRef<'a> {
    pub field: Field,
    pub rows: u32,
    pub cols: u32,
    pub entries: &'a [u8],
}

impl<'a> Model for MatrixRef<'a> {
    ghost use Rattle.linear_algebra.specs.Rows.{rows_of};
    ghost use Rattle.fp_linear.specs.Matrix.{PlainMatrix, plain, HoldsMatrix};

    ghost Value = { PlainMatrix };

    ghost view = { λ m. plain m.field m.rows m.cols (rows_of m.rows m.cols m.entries.now) };

    ghost invariant = { λ m. HoldsMatrix m.field m.rows m.cols m.entries.now };
}

/// A module.
#[derive(Drop)]
pub struct ModuleRef<'a> {
    pub side: Side,
    pub dims: &'a [u32],
    pub matrices: &'a [MatrixRef<'a>],
}

impl<'a> Model for ModuleRef<'a> {
    ghost use Rattle.module_types.specs.declared.Module.{Module};

    ghost Value = { Module };

    ghost view = { λ m. record { side = m.side; dims = m.dims.now; matrices = m.matrices.now } };
}

/// A map, with the numbers of the modules that it goes from and to.
#[derive(Drop)]
pub struct MapRef<'a> {
    pub source: RepId,
    pub target: RepId,
    pub matrices: &'a [MatrixRef<'a>],
}

impl<'a> Model for MapRef<'a> {
    ghost use Rattle.module_types.specs.declared.Map.{Map};

    ghost Value = { Map };

    ghost view = { λ f. record { source = f.source.number; target = f.target.number; matrices = f.matrices.now } };
}

impl<'a> MatrixRef<'a> {
    /// The entries of row `i`, counted from 0.
    pub fn row(&self, i: u32) -> &'a [u8]
        requires { i < self.now.row_count }
        ensures row { result.now ≡ slice_index_or self.now.rows i [] }
        ensures matrix { IsMatrix self.now }
    {
        let cols = self.cols as usize;
        let start = i as usize * cols;
        let end = start + cols;
        &self.entries[start..end]
    }

    /// A matrix that owns its entries.
    pub fn to_matrix(&self, alloc: Global) -> Result<Matrix, AllocError>
        ensures { IfOk result (λ m. m ≡ self.now) }
    {
        Matrix::from_entries(alloc, self.field, self.rows, self.cols, self.entries)
    }
}

fn owned_matrices(alloc: Global, matrices: &[MatrixRef<'_>]) -> Result<Seq<Matrix>, AllocError>
    ensures { IfOk result (λ owned. owned ≡ matrices.now) }
{
    let mut owned = Vec::new(alloc);
    for i in 0..matrices.len() {
        let matrix = matrices[i].to_matrix(alloc)?;
        owned.push(matrix)?;
    }
    Ok(Seq::from_vec(owned))
}

impl<'a> ModuleRef<'a> {
    /// The same once more.
    pub fn again(&self) -> ModuleRef<'a>
        ensures { result ≡ self.now }
    {
        ModuleRef {
            side: self.side,
            dims: self.dims,
            matrices: self.matrices,
        }
    }

    /// The same, for as long as it is lent here.
    pub fn shorter<'b>(&'b self) -> ModuleRef<'b>
        ensures { result ≡ self.now }
    {
        let dims: &'b [u32] = self.dims;
        let matrices: &'b [MatrixRef<'b>] = self.matrices;
        ModuleRef {
            side: self.side,
            dims,
            matrices,
        }
    }

    /// Its side.
    pub fn side(&self) -> Side
        ensures { result ≡ self.now.side }
    {
        self.side
    }

    /// Its dimensions at the vertices, in order of declaration.
    pub fn dims(&self) -> &'a [u32]
        ensures { result.now ≡ self.now.dims }
    {
        self.dims
    }

    /// Row `i` of the matrix of an arrow, both counted from 0.
    pub fn arrow_row(&self, arrow: u8, i: u32) -> &'a [u8]
        requires arrow { arrow < length self.now.matrices }
        requires row { i < row_count_at self.now.matrices arrow }
        ensures { result.now ≡ slice_index_or (rows_at self.now.matrices arrow) i [] }
    {
        self.matrices[arrow as usize].row(i)
    }

    /// A module that owns its numbers.
    pub fn to_module(&self, alloc: Global) -> Result<Module, AllocError>
        ensures { IfOk result (λ m. m ≡ self.now) }
    {
        let dims = Vec::from_slice(alloc, self.dims)?;
        let matrices = owned_matrices(alloc, self.matrices)?;
        Ok(Module {
            side: self.side,
            dims: Seq::from_vec(dims),
            matrices,
        })
    }
}

impl<'a> MapRef<'a> {
    /// The same once more.
    pub fn again(&self) -> MapRef<'a>
        ensures { result ≡ self.now }
    {
        MapRef {
            source: self.source,
            target: self.target,
            matrices: self.matrices,
        }
    }

    /// The same, for as long as it is lent here.
    pub fn shorter<'b>(&'b self) -> MapRef<'b>
        ensures { result ≡ self.now }
    {
        let matrices: &'b [MatrixRef<'b>] = self.matrices;
        MapRef {
            source: self.source,
            target: self.target,
            matrices,
        }
    }

    /// The modules that it goes from and to.
    pub fn ends(&self) -> (RepId, RepId)
        ensures source { result.0.number ≡ self.now.source }
        ensures target { result.1.number ≡ self.now.target }
    {
        (self.source, self.target)
    }

    /// Row `i` of the matrix at a vertex, both counted from 0.
    pub fn vertex_row(&self, vertex: u8, i: u32) -> &'a [u8]
        requires vertex { vertex < length self.now.matrices }
        requires row { i < row_count_at self.now.matrices vertex }
        ensures { result.now ≡ slice_index_or (rows_at self.now.matrices vertex) i [] }
    {
        self.matrices[vertex as usize].row(i)
    }

    /// A map that owns its numbers.
    pub fn to_map(&self, alloc: Global) -> Result<Map, AllocError>
        ensures { IfOk result (λ f. f ≡ self.now) }
    {
        let matrices = owned_matrices(alloc, self.matrices)?;
        Ok(Map {
            source: self.source.number,
            target: self.target.number,
            matrices,
        })
    }
}
