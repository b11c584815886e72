//! Deciding in lent memory whether numbers show that an endomorphism ring is local: products of families of matrices, spaces of rows, ideals, their
//! powers, residue rings. Nothing is allocated, and each call answers on all numbers that have the shapes.
#![tactic(auto)]

mod clauses;
mod composing;
mod ideals;
mod least_powers;
mod members;
mod powers;
mod residues;
mod rows;
mod subrings;

pub use clauses::{
    is_not_zero, is_printed_frobenius, is_printed_ideal, is_printed_power, write_ideal,
};
pub use composing::compose;
pub use ideals::{has_product, is_ideal};
pub use least_powers::is_least_power;
pub use members::is_member;
pub use powers::power_at;
pub use residues::{has_frobenius_residue, write_power};
pub use rows::{reduce_rows, write_combinations, write_rows};
pub use subrings::{commutes_modulo, is_subalgebra, write_unit};
