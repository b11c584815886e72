//! The products of words with arrows, by reduction, as rows over the words, and whether relations and long paths act as zero on the words.
#![tactic(auto)]

mod action;
mod closure;
mod multiplying;
mod sparse;
mod touched;
mod word_sums;

pub use action::products_if_action_holds;
pub use sparse::{Entry, SparseRows};
pub use word_sums::{act_on_word, act_on_word_behind};
