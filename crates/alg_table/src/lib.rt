//! The quotient of the path algebra of a quiver by an ideal of relations, over a finite field, with its basis of normal words.
#![tactic(auto)]

mod checking;
mod clauses;
mod elements;
mod first_clauses;
mod last_uses;
pub mod laws;
mod places;
mod reduced;
mod table;
mod words;

pub use checking::{CheckBasisError, check_basis};
pub use first_clauses::first_fault;
pub use table::{Side, Table};
