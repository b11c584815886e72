//! Sizes of modules.

ghost use Rattle.std.specs.Prelude.{◌≡◌, ◌<◌, ◌≤◌, ◌*◌, ◌^◌, length, slice_index};
ghost use Rattle.linear_algebra.specs.BlockFamilies.{total};
ghost use Rattle.module_types.specs.Shapes.{dimension};

use crate::Module;

impl Module {
    /// Its dimension: the sum of its dimensions at the vertices.
    pub fn dimension(&self) -> u64
        requires { length self.now.dims < 2 ^ 32 }
        ensures { result ≡ dimension self.now.dims }
    {
        let mut sum = 0u64;
        for i in 0..self.dims.len() {
            sum += self.dims[i] as u64;
        }
        sum
    }
}
