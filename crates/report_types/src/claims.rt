//! Claims and the records that carry them.

use claim_conditions::Residue;
use fp_linear::Matrix;
use module_types::{Map, Module, TermRows};
use path_algebra::{Rule, Step};
use quiver_paths::Path;
use seq::Seq;

/// A part of a decomposition: the number of its module, and that of the claim that it is local.
#[derive(Clone, Copy, Debug, Drop, PartialEq, Eq)]
pub struct PartClaim {
    pub module: u32,
    pub local: u32,
}

/// Which module is claimed of another: its translate; its transpose; its inverse translate, over the number of its dual.
#[derive(Clone, Copy, Debug, Drop, PartialEq, Eq)]
pub enum Translation {
    Tau,
    Transpose,
    Taui { dual: u32 },
}

/// A statement on the algebra of a report and its modules, with what is needed to check it. Modules, maps and claims are named by their numbers, which count
/// from 1 through the report. Lists of matrices have one for each vertex.
#[derive(Debug, Drop)]
pub enum Claim {
    /// The words are a basis of the quotient by normal words. The rules are its reduced rules; the steps derive them from the relations.
    Basis {
        words: Seq<Path>,
        steps: Seq<Step>,
        rules: Seq<Rule>,
    },
    /// This is a module over the algebra.
    Module {
        module: u32,
    },
    /// This map is a homomorphism.
    Map {
        map: u32,
    },
    /// The rows, each a map vertex by vertex and row by row, are a basis of the homomorphisms from `a` to `b`.
    Hom {
        a: u32,
        b: u32,
        rows: Matrix,
    },
    /// By the inclusion, `kernel` is the kernel of the map `f`.
    Kernel {
        kernel: u32,
        f: u32,
        inclusion: u32,
    },
    /// By the projection, `cokernel` is the cokernel of the map `f`.
    Cokernel {
        cokernel: u32,
        f: u32,
        projection: u32,
    },
    /// By the inclusion, `radical` is the radical of `a`.
    Radical {
        radical: u32,
        a: u32,
        inclusion: u32,
    },
    /// The terms 0 to `n` are a minimal projective resolution of `a`.
    Resolution {
        a: u32,
        n: u32,
        terms: Seq<TermRows>,
    },
    /// Over this resolution of `a`, the rows are a basis of the extensions of degree `n` of `a` by `b`.
    Ext {
        n: u32,
        a: u32,
        b: u32,
        rows: Matrix,
        resolution: u32,
    },
    /// This module is local. The ideal, in coordinates over the rows of the Hom claim, has this power zero, and modulo it the endomorphisms are a division ring.
    Local {
        module: u32,
        hom: u32,
        ideal: Matrix,
        power: u32,
        residue: Residue,
    },
    /// By the maps `to` and `back`, which are inverse, `a` is the direct sum of the parts, each of them local.
    Decomposition {
        a: u32,
        sum: u32,
        to: u32,
        back: u32,
        parts: Seq<PartClaim>,
    },
    /// Over a resolution of length 1, `module` is the translate, the transpose or the inverse translate of `a`.
    Translate {
        which: Translation,
        module: u32,
        a: u32,
        resolution: u32,
        rows: Seq<Matrix>,
    },
    /// By the maps `f` and `g` the sequence of `left`, `middle` and `right` is almost split.
    AlmostSplit {
        left: u32,
        middle: u32,
        right: u32,
        f: u32,
        g: u32,
        resolution: u32,
        local: u32,
        phi: Seq<u8>,
        left_rows: Seq<Matrix>,
        middle_rows: Seq<Matrix>,
    },
}

/// New modules and maps, a claim, and the line of the script that asked for it, counted from 1.
#[derive(Debug, Drop)]
pub struct Record {
    pub line: u32,
    pub modules: Seq<Module>,
    pub maps: Seq<Map>,
    pub claim: Claim,
}
