//! Rows of modules and of sums of projective modules in lent memory, and the matrices of the terms of resolutions, entry by entry.
#![tactic(auto)]

mod clearing;
mod modules;
mod sums;
mod targets;
mod term_matrices;

pub use modules::step_in_module;
pub use sums::step_in_sum;
pub use targets::{step_in_target, walk_in_target};
pub use term_matrices::{sum_dimension, target_dimension, write_term_matrix};
