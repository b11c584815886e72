//! Deciding the conditions on kernels, cokernels, radicals and decompositions in lent memory: nothing is allocated, and each call answers on all modules
//! and maps that have the shapes.
#![tactic(auto)]

mod decompositions;
mod kernels;
mod orders;
mod parts;
mod radicals;
mod sums;

pub use decompositions::first_failing_decomposition;
pub use kernels::{first_failing_cokernel, first_failing_kernel};
pub use orders::comes_before;
pub use parts::Parts;
pub use radicals::first_failing_radical;
