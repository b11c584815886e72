//! The order of paths.
ghost use Rattle.std.specs.Prelude.{◌≡◌, length};
ghost use Rattle.std.specs.Ordering.{ordering_then, nat_cmp};
ghost use Rattle.std.specs.Cmp.Lexicographic.{slice_cmp};
ghost use Rattle.quiver_paths.specs.PathOrder.{path_cmp};

use crate::Path;
use std::cmp::Ordering;

/// How the first path stands to the second: a shorter path is smaller, paths of one length are compared arrow by
/// arrow from the left by the order of declaration, and paths with the same arrows by their starts. It takes no memory.
#[tactic(auto, unfolding(crate::specs::PathOrder::path_cmp))]
pub fn compare(a: &Path, b: &Path) -> Ordering
    ensures { result ≡ path_cmp a.now b.now }
{
    let by_length = a.arrows.len().cmp(&b.arrows.len());
    let by_arrows = a.arrows.as_slice().cmp(&b.arrows.as_slice());
    by_length.then(by_arrows).then(a.start.cmp(&b.start))
}
