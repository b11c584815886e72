//! Linear algebra over the finite fields of the table: scalars, sums, matrices, rank, and the laws that the crates above cite.
//! There is no code here but law functions: the body is empty, and the contract is the law.
//! Matrices act on rows from the right: a matrix f of m rows and n columns takes the row x of length m to x · f.
#![tactic(auto)]

pub mod fields;
pub mod lists;
pub mod matrices;
