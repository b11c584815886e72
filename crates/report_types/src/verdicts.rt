//! What is judged of a report.

use claim_conditions::Clause;

/// What is said of a report: the conditions hold of every claim, or this claim, counted from 1, is the first of which they
/// do not, and this is the first of them that fails.
#[derive(Clone, Copy, Debug, Drop, PartialEq, Eq)]
pub enum Verdict {
    Holds,
    Fails { claim: u32, clause: Clause },
}
