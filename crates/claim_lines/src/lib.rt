//! The lines of a report: their spelling, writing them, and reading each by its tokens.
#![tactic(auto)]

mod causes;
mod claims;
mod counts;
mod end_writing;
mod ends;
mod head_writing;
mod heads;
mod numbers;
mod object_heads;
mod paths;
mod references;
mod rules;
mod steps;
mod translate_heads;
mod words;
mod writing;

pub use claims::read_head;
pub use counts::only_count;
pub use end_writing::push_end;
pub use ends::read_end;
pub use head_writing::push_claim_line;
pub use heads::{Counts, Head};
pub use paths::read_word;
pub use rules::read_rule;
pub use steps::read_step;
pub use words::Words;
pub use writing::{push_count, push_rule, push_step, push_word};
