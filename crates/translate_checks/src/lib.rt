//! Deciding the conditions on translates and transposes in lent memory: nothing is allocated, and each call answers on all numbers that have the shapes,
//! whether the modules are modules or not.
#![tactic(auto)]

mod dots;
mod duals;
mod embeddings;
mod homs;
mod rows;
mod sizes;
mod translates;
mod transposed;

pub use dots::{
    column_agrees, column_dot, product_at, row_agrees, row_dot, rows_vanish_on, vanish_on_rows,
};
pub use duals::is_dual;
pub use embeddings::{first_failing_embedding, first_failing_projection};
pub use homs::{is_hom_from, is_hom_into};
pub use rows::{arrow_at, side_in_table, walk_in_sum, write_arrow_row};
pub use sizes::{are_killed, have_sizes, kill, transposed_rank};
pub use translates::{first_failing_tau, first_failing_taui, first_failing_transpose};
pub use transposed::{copy_part, write_transposed, write_word_row};
