//! Deciding in lent memory whether the terms of a resolution are minimal, and whether their generators are the canonical ones: each call answers on all
//! numbers that have the shapes, whether the modules are modules or not.
#![tactic(auto)]

mod bases;
mod choosing;
mod coordinates;
mod copying;
mod folding;
mod generators;
mod kernels;
mod minimal;
mod places;
mod resolutions;
mod taking;

pub use bases::write_covered;
pub use choosing::is_chosen;
pub use coordinates::find_coordinates;
pub use copying::append_row;
pub use folding::{fold_arrow, fold_radical, fold_row, fold_rows};
pub use generators::are_independent_at;
pub use kernels::kernel_of;
pub use minimal::is_minimal;
pub use places::write_places;
pub use resolutions::first_failing_resolution;
pub use taking::fold_coordinates;
