//! The top call: all that the program does, over any source and any sink.
#![tactic(auto)]

mod checking;
pub mod laws;
mod modes;
mod outcome;
mod running;
mod texts;

pub use modes::Mode;
pub use outcome::Outcome;
pub use running::quiv;
