//! The homomorphisms from one module to another of its side: how many entries they have, their basis in reduced row form, and coordinates in it.
#![tactic(auto)]

ghost use Rattle.std.specs.Prelude.{◌≡◌};
ghost use Rattle.hom_space.specs.declared.HomError.TheVariants as hom_error;

use std::alloc::AllocError;

mod bases;
mod coefficients;
mod counting;
pub mod laws;
mod spaces;

pub use coefficients::coordinates;
pub use counting::unknowns_between;
pub use spaces::{hom_basis, hom_of};

/// Why there is no basis.
#[derive(Debug, Drop)]
pub enum HomError {
    /// The homomorphisms have more than 1,024 entries: `unknowns` many.
    HomLimit { unknowns: u64 },
    /// Memory ran out.
    NoMemory,
}

impl From<AllocError> for HomError {
    ghost from_gives = { λ _ error. error ≡ hom_error.NoMemory };

    fn from(_none: AllocError) -> HomError {
        HomError::NoMemory
    }
}

#[cfg(test)]
mod tests;
