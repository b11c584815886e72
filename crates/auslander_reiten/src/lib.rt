//! Translates and almost split sequences. There is no code here but law functions: the body is empty, and the contract is the law.
#![tactic(auto)]

pub mod closed_lists;
pub mod indecomposables;
pub mod left_end;
pub mod right_end;
pub mod sequences;
pub mod translation;
