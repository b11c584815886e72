//! Representations of a quiver with relations over the finite fields of the table: the definitions that contracts of the crates
//! above cite, and the laws. There is no code here but law functions: the body is empty, and the contract is the law.
//! Modules are right modules; a left module is a right module over the opposite algebra.
#![tactic(auto)]

pub mod constructions;
pub mod decompositions;
pub mod homomorphisms;
pub mod radicals;
