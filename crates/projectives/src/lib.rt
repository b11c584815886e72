//! Projective modules over a finite-dimensional algebra of a quiver with relations: the definitions that contracts of the crates
//! above cite, and the laws. There is no code here but law functions: the body is empty, and the contract is the law.
#![tactic(auto)]

pub mod examples;
pub mod extension_bases;
pub mod injectivity;
pub mod minimal_covers;
pub mod minimal_resolutions;
pub mod projectivity;
