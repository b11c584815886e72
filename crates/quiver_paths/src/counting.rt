//! The number of paths below a length, without a list of them.
ghost use Rattle.std.specs.Prelude.{ℕ, ◌≡◌, ◌+◌, ◌≤◌, ◌<◌, ◌-◌, ◌^◌, min, sum, length};
ghost use Rattle.quiver_paths.specs.Quiver.{IsQuiver, vertex_count};
ghost use Rattle.quiver_paths.specs.PathCount.{CountsPaths};
ghost use Rattle.quiver_paths.specs.PathList.{path_count, saturated};

use crate::Quiver;

/// How many paths are shorter than `t`, or 2^64 - 1 where there are more.
pub(crate) fn count_below(quiver: &Quiver, t: u32) -> u64
    requires { IsQuiver quiver.now }
    ensures { result ≡ saturated (path_count quiver.now t) }
{
    let mut counts = trivial_counts(quiver);
    let mut count = 0u64;
    for _length in 0..t {
        count = count.saturating_add(total(&counts));
        counts = one_arrow_more(quiver, &counts);
    }
    count
}

/// One trivial path at each vertex.
fn trivial_counts(quiver: &Quiver) -> [u64; 32]
    requires { IsQuiver quiver.now }
    ensures { CountsPaths quiver.now 0 result }
{
    let mut counts = [0u64; 32];
    for v in 0..quiver.vertices.len() {
        counts[v] = 1;
    }
    counts
}

/// For each vertex how many paths of one arrow more start there.
fn one_arrow_more(quiver: &Quiver, counts: &[u64; 32]) -> [u64; 32]
    requires { IsQuiver quiver.now }
    ensures { (n : ℕ) → CountsPaths quiver.now n counts.now → CountsPaths quiver.now (n + 1) result }
{
    let mut longer = [0u64; 32];
    for arrow in quiver.arrows.as_slice() {
        let from = arrow.from as usize;
        longer[from] = longer[from].saturating_add(counts[arrow.to as usize]);
    }
    longer
}

fn total(counts: &[u64; 32]) -> u64
    ensures { result ≡ saturated (sum counts.now) }
{
    let mut sum = 0u64;
    for count in counts {
        sum = sum.saturating_add(*count);
    }
    sum
}
