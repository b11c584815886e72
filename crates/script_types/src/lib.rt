//! What a script says: the types of scripts, and what holds of each that is read.
#![tactic(auto)]

use path_algebra::Header;
use quiver_paths::{Name, Reference};
use seq::Seq;

/// The modules that each vertex has.
#[derive(Clone, Copy, Debug, Drop, PartialEq, Eq)]
pub enum Standard {
    Simple,
    Projective,
    Injective,
}

/// The matrix at an arrow or a vertex, row by row as written. A line without a matrix has no rows.
#[derive(Clone, Debug, Drop, PartialEq, Eq)]
pub struct AtLine {
    pub name: Name,
    pub rows: Seq<Seq<u8>>,
}

/// What a statement says. `name`, and in `Ars` `left` and `middle`, are the new names; `a`, `b` and `f` refer to earlier
/// modules and maps.
#[derive(Clone, Drop)]
pub enum StatementKind {
    /// A module, by its dimensions at the vertices and its matrices at arrows.
    Rep {
        name: Name,
        dims: Seq<u32>,
        lines: Seq<AtLine>,
    },
    /// The simple, projective or injective module of a vertex.
    Std {
        name: Name,
        which: Standard,
        vertex: Name,
    },
    /// A block sum.
    Sum {
        name: Name,
        a: Reference,
        b: Reference,
    },
    /// A map from `a` to `b`, by its matrices at vertices.
    Map {
        name: Name,
        a: Reference,
        b: Reference,
        lines: Seq<AtLine>,
    },
    Kernel {
        name: Name,
        f: Reference,
    },
    Cokernel {
        name: Name,
        f: Reference,
    },
    Radical {
        name: Name,
        a: Reference,
    },
    Dual {
        name: Name,
        a: Reference,
    },
    Hom {
        a: Reference,
        b: Reference,
    },
    /// The minimal resolution to term `n`, from 0 to 16.
    Resolve {
        a: Reference,
        n: u32,
    },
    /// Ext of degree `n`, from 0 to 15.
    Ext {
        n: u32,
        a: Reference,
        b: Reference,
    },
    Decompose {
        a: Reference,
        name: Name,
    },
    Transpose {
        name: Name,
        a: Reference,
    },
    Tau {
        name: Name,
        a: Reference,
    },
    Taui {
        name: Name,
        a: Reference,
    },
    /// The almost split sequence that ends in `a`.
    Ars {
        a: Reference,
        left: Name,
        middle: Name,
    },
}

/// A statement and its line, counted from 1; of a statement of several lines it is the first.
#[derive(Clone, Drop)]
pub struct Statement {
    pub line: u32,
    pub kind: StatementKind,
}

/// A script: the algebra, the lines of `bound` and `basis`, counted from 1, and the statements in their order.
#[derive(Clone, Drop)]
pub struct Script {
    pub header: Header,
    pub bound_line: u32,
    pub basis_line: u32,
    pub statements: Seq<Statement>,
}
