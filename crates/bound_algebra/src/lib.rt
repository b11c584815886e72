//! From a header to the algebra that the theory of representations speaks of: its quiver with relations, and the normal words, which are
//! a basis of it on both sides. There is no code here but law functions: the body is empty, and the contract is the law.
#![tactic(auto)]

pub mod algebra;
pub mod modules;
pub mod sequences;
pub mod words;
