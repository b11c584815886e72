//! The simple, the projective and the injective module at each vertex, on both sides, from the words of a table.
#![tactic(auto)]

ghost use Rattle.std.specs.Prelude.{◌≡◌};
ghost use Rattle.standard_modules.specs.declared.StandardError.TheVariants as standard_error;

use std::alloc::AllocError;

mod arrows;
mod dimensions;
pub mod laws;
mod sides;
mod simples;
mod standard;
mod transposing;

pub use dimensions::{injective_dim, nakayama_dim, projective_dim, projectives_dim};
pub use simples::simple_module;
pub use standard::{injective_module, projective_module};

/// Why a module is not made.
#[derive(Debug, Drop)]
pub enum StandardError {
    /// The dimension, `dim`, exceeds 256.
    DimLimit { dim: u64 },
    /// Memory ran out.
    NoMemory,
}

impl From<AllocError> for StandardError {
    ghost from_gives = { λ _ e. e ≡ standard_error.NoMemory };

    fn from(_none: AllocError) -> StandardError {
        StandardError::NoMemory
    }
}
