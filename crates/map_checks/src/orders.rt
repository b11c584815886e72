//! Whether parts ascend.
ghost use Rattle.std.specs.Prelude.{ℕ, suc, ◌≡◌, ◌<◌, ◌≤◌, length, slice_index, MatchBool};
ghost use Rattle.claim_conditions.specs.DecompositionConditions.{ComesBefore, AreInOrder};
ghost use Rattle.map_checks.specs.BlockParts.{Ascends};

use crate::parts::Parts;
use module_types::Module;
use seq::Seq;

/// Whether the first of two vectors of one length does not come behind the other: the first places that differ decide.
fn ascends(a: &Seq<u32>, b: &Seq<u32>) -> bool
    requires { length b.now ≡ length a.now }
    ensures { MatchBool result (Ascends a.now b.now) (¬ Ascends a.now b.now) }
{
    for v in 0..a.len() {
        let x = a[v];
        let y = b[v];
        if y < x {
            return false;
        }
        if x < y {
            return true;
        }
    }
    true
}

/// Whether `a` does not come behind `b`, by the dimension and then by the dimensions at the vertices.
pub fn comes_before(a: &Module, b: &Module) -> bool
    requires few { length a.now.dims ≤ 32 }
    requires lengths { length b.now.dims ≡ length a.now.dims }
    ensures { MatchBool result (ComesBefore a.now b.now) (¬ ComesBefore a.now b.now) }
{
    let first = a.dimension();
    let second = b.dimension();
    if second < first {
        return false;
    }
    if first < second {
        return true;
    }
    if !ascends(&a.dims, &b.dims) {
        return false;
    }
    true
}
