//! Local modules over a finite-dimensional algebra of a quiver with relations: Fitting's lemma, certificates of locality, decompositions.
//! There is no code here but law functions: the body is empty, and the contract is the law.
#![tactic(auto)]

pub mod algebras;
pub mod certificates;
pub mod larger_algebras;
pub mod locality;
pub mod sums;
