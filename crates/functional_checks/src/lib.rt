//! Deciding in lent memory whether a functional on the homomorphisms from a projective cover to a module vanishes on an ideal of its endomorphisms and not on
//! all of them. Nothing is allocated, and each call answers on all numbers that have the shapes.
#![tactic(auto)]

mod functional;
mod values;

pub use functional::has_end_functional;
