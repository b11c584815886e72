//! Modules that a caller has in some order.
ghost use Rattle.std.specs.Prelude.{◌≡◌, ◌<◌, List, length, slice_index_or};
ghost use Rattle.module_types.specs.declared.Module.{Module};

use module_types::Module;

/// The parts of a decomposition, in their order, wherever the caller keeps them.
pub trait Parts {
    /// The modules.
    ghost modules: { Self → List Module };

    /// How many there are.
    fn count(&self) -> usize
        ensures { result ≡ length (modules self.now) };

    /// Part `i`, counted from 0.
    fn part(&self, i: usize) -> &Module
        requires { i < length (modules self.now) }
        ensures { result.now ≡ slice_index_or (modules self.now) i result.now };
}
