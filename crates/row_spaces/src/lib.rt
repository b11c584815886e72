//! Spaces of rows over a field, in the forms in which answers are canonical: bases in reduced row form, co-reduced projections, coordinates.
#![tactic(auto)]

mod coefficients;
mod columns;
mod factoring;
mod forms;
mod kernels;
pub mod laws;
mod orthogonal;
mod quotients;

pub use coefficients::{coordinates, coordinates_of_rows, pivots};
pub use columns::free_columns;
pub use factoring::factor_through;
pub use forms::reduced_rows;
pub use kernels::{annihilator, left_kernel};
pub use quotients::{places, quotient_projection};
