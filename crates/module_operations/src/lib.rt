//! Operations on modules over an algebra: kernels, cokernels, images, radicals and tops in canonical form, with their maps; sums and duals.
#![tactic(auto)]

mod duals;
mod kernels;
pub mod laws;
mod quotient_modules;
mod radicals;
mod submodules;
mod sums;
mod vertex_forms;

pub use duals::dual;
use fp_linear::Matrix;
pub use kernels::{cokernel, image, kernel};
use module_types::Module;
pub use radicals::{radical, radical_bases, top};
use seq::Seq;
pub use sums::sum;

/// A module with the matrices at the vertices of a map: that from it, of a submodule, or that to it, of a quotient.
#[derive(Debug, Drop)]
pub struct MappedModule {
    pub module: Module,
    pub matrices: Seq<Matrix>,
}
