//! Deciding, for proofs: of what is finite it is decided whether it holds; paths, terms, relations and their lists are so. There is no code here.
#![tactic(auto)]
