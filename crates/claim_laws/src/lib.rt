//! The laws of claims: where the conditions of a claim hold, and what is claimed of the objects that it names, what it says holds; and what is computed in
//! canonical form meets the conditions. The functions do nothing: their contracts are laws.
#![tactic(auto)]

pub mod answers;
pub mod complete;
pub mod suffice;
