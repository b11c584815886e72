//! Minimal projective covers of modules, by their canonical generators.
#![tactic(auto)]

ghost use Rattle.std.specs.Prelude.{◌≡◌};
ghost use Rattle.proj_cover.specs.declared.CoverError.TheVariants as cover_error;

use std::alloc::AllocError;

mod covers;
mod generators;

pub use covers::cover_of;
pub use module_types::TermRows;

/// Why a cover is not given.
#[derive(Debug, Drop)]
pub enum CoverError {
    /// Its dimension, `dim`, exceeds 512.
    TermLimit { dim: u64 },
    /// Memory ran out.
    NoMemory,
}

impl From<AllocError> for CoverError {
    ghost from_gives = { λ _ e. e ≡ cover_error.NoMemory };

    fn from(_none: AllocError) -> CoverError {
        CoverError::NoMemory
    }
}
