//! Reports: the records of a script in their order, and how they end.

use super::records::Records;
use path_algebra::Header;
use quiver_paths::{Name, Path, Reference};

/// Why a statement was refused. Numbers that 64 bits do not hold count as 2^64 − 1.
#[derive(Clone, Debug, Drop, PartialEq, Eq)]
pub enum Why {
    /// Statements of this form are not built.
    NotBuilt,
    /// To this nothing is bound, or something of another kind.
    UnknownName { token: Reference },
    /// To this name something is bound.
    NameTaken { name: Name },
    /// The modules have other sides than the statement asks for.
    Side,
    /// A matrix has another shape than the dimensions ask for.
    Shape,
    /// The written relation with this number, counted from 1, does not hold.
    RelationFails { relation: u32 },
    /// This path of the bound's length does not act as zero.
    BoundFails { path: Path },
    /// The map does not commute with this arrow, counted from 0.
    NotHom { arrow: u8 },
    /// So many paths, more than 4,096, are shorter than the bound.
    PathLimit { count: u64 },
    /// A module has this dimension, more than 256.
    DimLimit { dim: u64 },
    /// Homomorphisms have so many coordinates, more than 1,024.
    HomLimit { unknowns: u64 },
    /// This term of a resolution has this dimension, more than 512.
    TermLimit { step: u32, dim: u64 },
    /// The injective modules of this term have this dimension, more than 512.
    DualLimit { step: u32, dim: u64 },
    /// The module is zero.
    Zero,
    /// The module is not local.
    Decomposable,
    /// The module is projective.
    Projective,
}

/// How a report ends.
#[derive(Clone, Debug, Drop, PartialEq, Eq)]
pub enum End {
    /// All statements were done.
    Done,
    /// The statement of this line was refused. Lines are counted from 1.
    Refused { line: u32, why: Why },
}

/// An algebra, the records on it, and how they end. Modules, maps and claims are numbered from 1 through the records.
#[derive(Drop)]
pub struct Report {
    pub header: Header,
    pub records: Records,
    pub end: End,
}
