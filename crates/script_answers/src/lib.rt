//! What a report says of a script: names and what they are bound to, the refusals of each statement, the records that it takes, and reports that answer a
//! script. There is no code here: types, and laws.
#![tactic(auto)]

mod bound;
pub mod examples;
pub mod laws;

pub use bound::Bound;
