//! Reports as texts: their one spelling, writing it, and reading it.
#![tactic(auto)]

mod items;
pub mod laws;
mod lines;
mod objects;
mod part;
mod reader;
mod taking;
mod writing;

pub use reader::{ReadTextError, read};
pub use writing::{push_record, write, write_end, write_header, write_record};
