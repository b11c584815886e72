//! Sums of dimensions that have a limit.
ghost use Rattle.std.specs.Prelude.{ℕ, ◌≡◌, ◌<◌, ◌≤◌, ◌+◌, MatchOption, length};
ghost use Rattle.bound_algebra.specs.TypedPaths.{quiver_of};
ghost use Rattle.linear_algebra.specs.BlockFamilies.{total};
ghost use Rattle.module_types.specs.Readings.{dim_at};
ghost use Rattle.quiver_paths.specs.Quiver.{vertex_count};
ghost use Rattle.report_types.specs.Limits.{unknown_limit};
ghost use Rattle.claim_blocks.specs.Sums.{dim_products, dims_at, IsSum};

use path_algebra::Header;

/// The dimension at a vertex; none past the last vertex.
pub(crate) fn dim_at(header: &Header, dims: &[u32], vertex: usize) -> u32
    ensures { result ≡ dim_at (quiver_of header.now.quiver) dims.now vertex }
{
    if vertex >= header.quiver.vertices.len() || vertex >= dims.len() {
        return 0;
    }
    dims[vertex]
}

/// The sum of both; none where it is greater than `most`.
pub(crate) fn add_within(most: u32, sum: u32, more: u64) -> Option<u32>
    requires { sum ≤ most }
    ensures { MatchOption result (most < sum + more) (IsSum most (sum + more)) }
{
    if more > (most - sum) as u64 {
        return None;
    }
    Some(sum + more as u32)
}

/// The number of coordinates of maps between modules of these dimensions; none where there are more than 1,024.
pub(crate) fn unknown_count(header: &Header, x: &[u32], y: &[u32]) -> Option<u32>
    ensures { MatchOption result (unknown_limit < total (vertex_count header.now.quiver) (dim_products header.now x.now y.now))
        (IsSum unknown_limit (total (vertex_count header.now.quiver) (dim_products header.now x.now y.now))) }
{
    let mut sum = 0u32;
    for v in 0..header.quiver.vertices.len() {
        let more = dim_at(header, x, v) as u64 * dim_at(header, y, v) as u64;
        let Some(next) = add_within(1024, sum, more) else {
            return None;
        };
        sum = next;
    }
    Some(sum)
}

/// The sum of the dimensions at some vertices; none where it is greater than 1,024.
pub(crate) fn count_at(header: &Header, dims: &[u32], vertices: &[u8]) -> Option<u32>
    ensures { MatchOption result (unknown_limit < total (length vertices.now) (dims_at header.now dims.now vertices.now))
        (IsSum unknown_limit (total (length vertices.now) (dims_at header.now dims.now vertices.now))) }
{
    let mut sum = 0u32;
    for j in 0..vertices.len() {
        let more = dim_at(header, dims, vertices[j] as usize) as u64;
        let Some(next) = add_within(1024, sum, more) else {
            return None;
        };
        sum = next;
    }
    Some(sum)
}
