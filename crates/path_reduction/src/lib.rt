//! Reduction of elements by rules, each step of it derived, and the first gap of rules.
#![tactic(auto)]

mod dense;
mod gaps;
mod making;
mod monic;
mod occurrences;
mod reducing;
mod rule_elements;
mod short_paths;

pub use gaps::{Gap, first_gap};
pub use making::push_step;
pub use occurrences::{Occurrence, occurrence_at_end};
pub use reducing::{Derived, reduce};
pub use rule_elements::{element_between, negatives, new_rule};
pub use short_paths::ShortPaths;
