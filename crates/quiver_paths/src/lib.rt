//! Quivers, their paths, the order of paths, and the list of all paths below a length.
#![tactic(auto)]

ghost use Rattle.std.specs.Prelude.{◌≡◌};
ghost use Rattle.quiver_paths.specs.declared.PathError.TheVariants.{NoMemory};

use seq::Seq;
use std::alloc::AllocError;
use thiserror::Error;

mod counting;
mod joining;
pub mod laws;
mod listing;
mod names;
mod naming;
mod order;

pub use joining::concat;
pub use listing::paths_below;
pub use names::{Names, Reference, Suffix};
pub use naming::Name;
pub use order::compare;

/// An arrow: its name, and the places of the vertices that it leads from and to, counted from 0.
#[derive(Clone, Debug, Drop, PartialEq, Eq)]
pub struct Arrow {
    pub name: Name,
    pub from: u8,
    pub to: u8,
}

/// A quiver: its vertices and its arrows, both in the order of their declaration.
#[derive(Clone, Debug, Drop, PartialEq, Eq)]
pub struct Quiver {
    pub vertices: Seq<Name>,
    pub arrows: Seq<Arrow>,
}

/// A path: the places of its start and of its end among the vertices, and of its arrows from first to last among
/// the arrows, all counted from 0.
#[derive(Clone, Debug, Drop, PartialEq, Eq)]
pub struct Path {
    pub start: u8,
    pub end: u8,
    pub arrows: Seq<u8>,
}

/// Why there is no list of paths.
#[derive(Debug, Drop, Error)]
pub enum PathError {
    /// There are more paths than the limit. `count` is their number, or 2^64 - 1 where it is larger.
    #[error("there are {count} paths")]
    PathLimit { count: u64 },
    /// Memory ran out.
    #[error("out of memory")]
    NoMemory,
}

impl From<AllocError> for PathError {
    ghost from_gives = { λ _ e. e ≡ NoMemory };

    fn from(_none: AllocError) -> PathError {
        PathError::NoMemory
    }
}

#[cfg(test)]
mod tests;
