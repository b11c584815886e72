//! Deciding in lent memory whether the residue ring of an endomorphism ring is a division ring by its list of elements, and the first condition on a local
//! module that fails. Nothing is allocated, and each call answers on all numbers that have the shapes.
#![tactic(auto)]

mod clauses;
mod listed;
mod local;
mod representatives;
mod units;
mod walks;

pub use clauses::is_printed_listed;
pub use listed::has_listed_residue;
pub use local::first_failing_local;
