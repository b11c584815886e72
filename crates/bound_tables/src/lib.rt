//! The words and products that a table answers are those of its algebra, as the theory of representations has it. There is no code here but
//! law functions: the body is empty, and the contract is the law.
#![tactic(auto)]

pub mod laws;
