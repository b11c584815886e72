//! Modules, maps and terms of resolutions as data, and what they are read as: representations, families of matrices, rows of generators.
#![tactic(auto)]

ghost use Rattle.std.specs.Prelude.{◌≡◌};

use fp_linear::Matrix;
use seq::Seq;
use std::alloc::AllocError;

pub mod laws;
mod modules;
mod sides;
mod threads;

pub use sides::{source_at, target_at};

/// The side on which the algebra acts.
#[derive(Clone, Copy, Debug, Drop, PartialEq, Eq)]
pub enum Side {
    Right,
    Left,
}

/// A module: its dimension at each vertex, and its matrix at each arrow, both in order of declaration. A right module has at an arrow from u to w a
/// matrix with rows for u and columns for w, a left module one with rows for w and columns for u.
#[derive(Debug, Drop)]
pub struct Module {
    pub side: Side,
    pub dims: Seq<u32>,
    pub matrices: Seq<Matrix>,
}

/// A map from one module to another, both named by their numbers, by its matrix at each vertex.
#[derive(Debug, Drop)]
pub struct Map {
    pub source: u32,
    pub target: u32,
    pub matrices: Seq<Matrix>,
}

/// A term of a resolution, a sum of projective modules at vertices: the vertices of its generators, and for each generator the row that it goes to, in
/// the module that term 0 covers, or in the term before.
#[derive(Debug, Drop, PartialEq, Eq)]
pub struct TermRows {
    pub vertices: Seq<u8>,
    pub images: Seq<Seq<u8>>,
}

/// A map between two sums of projective modules of a side, by their vertices and, for each generator of the first, the row that it goes to.
#[derive(Debug, Drop, PartialEq, Eq)]
pub struct ProjMap {
    pub side: Side,
    pub from: Seq<u8>,
    pub to: Seq<u8>,
    pub images: Seq<Seq<u8>>,
}

impl Clone for Module {
    ghost is_clone = { λ m copy. copy ≡ m };

    fn clone(&self) -> Result<Self, AllocError> {
        let dims = self.dims.clone()?;
        let matrices = self.matrices.clone()?;
        Ok(Module {
            side: self.side,
            dims,
            matrices,
        })
    }
}

impl Clone for Map {
    ghost is_clone = { λ map copy. copy ≡ map };

    fn clone(&self) -> Result<Self, AllocError> {
        let matrices = self.matrices.clone()?;
        Ok(Map {
            source: self.source,
            target: self.target,
            matrices,
        })
    }
}

impl Clone for TermRows {
    ghost is_clone = { λ term copy. copy ≡ term };

    fn clone(&self) -> Result<Self, AllocError> {
        let vertices = self.vertices.clone()?;
        let images = self.images.clone()?;
        Ok(TermRows { vertices, images })
    }
}

impl Clone for ProjMap {
    ghost is_clone = { λ map copy. copy ≡ map };

    fn clone(&self) -> Result<Self, AllocError> {
        let from = self.from.clone()?;
        let to = self.to.clone()?;
        let images = self.images.clone()?;
        Ok(ProjMap {
            side: self.side,
            from,
            to,
            images,
        })
    }
}
