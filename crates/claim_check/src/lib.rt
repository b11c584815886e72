//! Checking reports: the verdict on a report, and on one of its claims.
#![tactic(auto)]

mod claims;
mod groups;
mod kinds;
mod objects;
mod parts;
mod reports;
mod rooms;
mod runs;
mod sequences;
mod terms;

pub use claims::check_claim;
pub use fp_linear::Scratch;
pub use reports::{check_gated, check_report};
pub use rooms::scratch_for;
