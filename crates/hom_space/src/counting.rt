//! How many entries the homomorphisms have.
ghost use Rattle.std.specs.Prelude.{ℕ, ◌≡◌, ◌≤◌, length, slice_index};
ghost use Rattle.linear_algebra.specs.BlockFamilies.{total};
ghost use Rattle.path_algebra.specs.declared.Header.{Header};
ghost use Rattle.module_types.specs.Shapes.{dimension, most_dimension};
ghost use Rattle.module_checks.specs.Commuting.{block_sizes};
ghost use Rattle.module_faults.specs.ModuleFaults.{IsSmallModule};
ghost use Rattle.hom_space.specs.HomForms.{unknown_number};

use rep_arena::ModuleRef;

/// How many entries a homomorphism from `a` to `b` has: the sum over the vertices of the products of their dimensions.
pub fn unknowns_between(a: &ModuleRef<'_>, b: &ModuleRef<'_>) -> u64
    requires places { length b.now.dims ≡ length a.now.dims }
    requires a_small { dimension a.now.dims ≤ most_dimension }
    requires b_small { dimension b.now.dims ≤ most_dimension }
    ensures summed { result ≡ total (length a.now.dims) (block_sizes a.now.dims b.now.dims) }
    ensures unknowns { (h : Header) → IsSmallModule h a.now → result ≡ unknown_number h a.now b.now }
{
    products_summed(a.dims(), b.dims())
}

/// The products of the numbers at each place, summed.
fn products_summed(a: &[u32], b: &[u32]) -> u64
    requires places { length b.now ≡ length a.now }
    requires a_small { dimension a.now ≤ most_dimension }
    requires b_small { dimension b.now ≤ most_dimension }
    ensures { result ≡ total (length a.now) (block_sizes a.now b.now) }
{
    let mut count: u64 = 0;
    for v in 0..a.len() {
        count += a[v] as u64 * b[v] as u64;
    }
    count
}
