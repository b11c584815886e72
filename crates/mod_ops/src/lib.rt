//! Operations on the modules and maps of an arena: kernels, cokernels, images, radicals and tops with their maps, sums and duals; what they answer stands
//! behind the other entries.
#![tactic(auto)]

ghost use Rattle.std.specs.Prelude.{◌≡◌};
ghost use Rattle.mod_ops.specs.declared.DimError.TheVariants as dim_error;

mod adding;
mod maps;
mod modules;

pub use maps::{cokernel, image, kernel};
pub use modules::{dual, radical, sum, top};
use std::alloc::AllocError;

/// Why there is no sum.
#[derive(Clone, Copy, Debug, Drop, PartialEq, Eq)]
pub enum DimError {
    /// The dimensions add to `dim`, which exceeds 256.
    DimLimit { dim: u64 },
    /// Memory ran out.
    NoMemory,
}

impl From<AllocError> for DimError {
    ghost from_gives = { λ _ error. error ≡ dim_error.NoMemory };

    fn from(_none: AllocError) -> DimError {
        DimError::NoMemory
    }
}
