//! Deciding the conditions on bases of extensions in lent memory: nothing is allocated, and each call answers on all numbers that have the shapes, whether
//! the modules are modules or not.
#![tactic(auto)]

mod cleared;
mod coboundaries;
mod cocycles;
mod extension;
mod folding;
mod values;
mod walking;

pub use extension::first_failing_extension;
