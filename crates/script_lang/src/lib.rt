//! The script language: how the text of a script is read.
#![tactic(auto)]

mod arguments;
mod following;
pub mod laws;
mod line;
mod part;
mod reader;
mod related;
mod relations;
mod statements;
mod tokens;

pub use reader::{ParseError, parse};
