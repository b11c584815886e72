//! Reports of every kind of claim: their types, the numbers and shapes that the format asks for, what each claim says, by which conditions it is judged, and the
//! verdict. There are types here, records by whose numbers modules, maps and claims are found, and laws.
#![tactic(auto)]

mod claims;
pub mod laws;
mod records;
mod reports;
mod verdicts;

pub use claims::{Claim, PartClaim, Record, Translation};
pub use records::Records;
pub use reports::{End, Report, Why};
pub use verdicts::Verdict;
