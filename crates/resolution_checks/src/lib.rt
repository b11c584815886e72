//! Deciding the conditions on resolutions in lent memory: nothing is allocated, and each call answers on all numbers that have the shapes, whether the
//! modules are modules or not.
#![tactic(auto)]

mod composing;
mod exactness;
pub mod laws;
mod matrices;
mod products;

pub use composing::is_complex;
pub use exactness::{is_exact, is_onto, term_rank};
pub use matrices::first_failing_matrices;
