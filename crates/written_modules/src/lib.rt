//! The matrices that a script writes, as modules and as maps, or the refusal that they meet.
#![tactic(auto)]

mod building;
mod holding;
mod maps;
mod names;
mod reps;
mod shapes;
mod stops;

pub use holding::{map_holds, rep_holds};
pub use maps::written_map;
pub use names::{names_are_arrows, names_are_vertices};
pub use reps::written_rep;
pub use stops::Stop;
