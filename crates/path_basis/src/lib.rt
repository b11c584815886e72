//! The reduced rules of an ideal, each with its derivation from the relations, by completion of overlaps.
#![tactic(auto)]

mod basis;
mod completion;
mod inserting;
pub mod laws;
mod obstructions;
mod pruning;
mod tails;

pub use basis::{Reduced, reduce_basis};
pub use path_reduction::{Gap, first_gap};
