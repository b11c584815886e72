//! Linear algebra over the small finite fields of the table: scalars, matrices, elimination, kernels and solutions.
#![tactic(auto)]

mod add;
mod blocks;
mod clearing;
mod echelon;
mod field;
pub mod laws;
mod matrix;
mod multiples;
mod scratch;
mod separate;
mod tables;

pub use add::add_multiple;
pub use clearing::{clear_row, multiply_row, multiply_rows};
pub use echelon::echelon_rows;
pub use field::Field;
pub use matrix::{Matrix, echelon_in_place};
pub use scratch::Scratch;
pub use separate::separating;

#[cfg(test)]
mod tests;
