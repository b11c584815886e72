//! Runs a script: its statements are answered one by one, and the report is written record by record.
#![tactic(auto)]

mod basis;
mod ends;
mod running;
mod writing;

pub use ends::RunEnd;
pub use running::run;
