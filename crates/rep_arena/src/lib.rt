//! Modules and maps by number, in memory that a caller owns: those of a session, and those of the command that is at work.
#![tactic(auto)]

mod arenas;
mod keeping;
mod marks;
mod readers;
mod sessions;
mod storing;
#[cfg(test)]
mod tests;
mod views;

pub use arenas::{Arena, CloseRefused};
pub use marks::{Kept, MapId, Mark, RepId};
pub use module_faults::{MapFault, ModuleFault};
pub use module_types::{Map, Module, Side};
pub use sessions::Session;
pub use views::{MapRef, MatrixRef, ModuleRef};
