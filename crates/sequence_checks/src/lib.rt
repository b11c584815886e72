//! Deciding the conditions on almost split sequences in lent memory: nothing is allocated, and each call answers on all numbers that have the shapes,
//! whether the modules are modules or not.
#![tactic(auto)]

mod ends;
mod homs;
mod maps;
mod middles;
mod pullbacks;
mod sequences;
mod sizes;

pub use ends::{is_left, is_middle};
pub use homs::is_hom_around;
pub use maps::{are_last, are_maps, is_widened};
pub use middles::{are_pulled_back, pullback_rank};
pub use pullbacks::write_pullback;
pub use sequences::first_failing_sequence;
pub use sizes::have_pulled_sizes;
