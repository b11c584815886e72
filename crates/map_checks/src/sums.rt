//! Whether a module has others as its blocks.
ghost use Rattle.std.specs.Prelude.{ℕ, ◌≡◌, ◌<◌, ◌≤◌, ◌+◌, ◌-◌, length, slice_index, MatchBool};
ghost use Rattle.linear_algebra.specs.Rows.{entry};
ghost use Rattle.path_algebra.specs.Allowed.{IsAllowed};
ghost use Rattle.module_types.specs.Algebras.{algebra_at};
ghost use Rattle.module_types.specs.Readings.{rep_of};
ghost use Rattle.module_types.specs.Shapes.{IsModule};
ghost use Rattle.map_checks.specs.BlockParts.{block_entry, IsBlockRow, IsBlock, HasRoomFor, HasBlock, HasBlocks, HasPart, HasRoom, AreEnds};

use fp_linear::Matrix;
use module_types::{Module, Side, source_at, target_at};
use path_algebra::Header;
use seq::Seq;

/// Entry `j` of a row of zeros in which row `r` of the matrix stands from place `start` on.
fn block_entry(matrix: &Matrix, r: u32, start: u32, j: u32) -> u8
    requires { r < matrix.now.row_count }
    ensures { result ≡ block_entry start (entry matrix.now.rows r) j }
{
    if j < start {
        return 0;
    }
    if j - start >= matrix.cols() {
        return 0;
    }
    matrix.row(r)[(j - start) as usize]
}

/// Whether row `r` of `p` stands in row `i + r` of `s` from column `k` on, with zeros beside it.
fn is_block_row(s: &Matrix, p: &Matrix, i: u32, k: u32, r: u32) -> bool
    requires row { r < p.now.row_count }
    requires inside { i + r < s.now.row_count }
    requires small { s.now.row_count ≤ 256 }
    ensures { MatchBool result (IsBlockRow s.now p.now i k r s.now.col_count) (¬ IsBlockRow s.now p.now i k r s.now.col_count) }
{
    let row = s.row(i + r);
    for j in 0..s.cols() {
        let value = row[j as usize];
        let expected = block_entry(p, r, k, j);
        if value != expected {
            return false;
        }
    }
    true
}

/// Whether `p` stands in `s` from row `i` and column `k` on, with zeros beside it.
fn is_block(s: &Matrix, p: &Matrix, i: u32, k: u32) -> bool
    requires inside { i + p.now.row_count ≤ s.now.row_count }
    requires small { s.now.row_count ≤ 256 }
    ensures { MatchBool result (IsBlock s.now p.now i k p.now.row_count) (¬ IsBlock s.now p.now i k p.now.row_count) }
{
    for r in 0..p.rows() {
        if !is_block_row(s, p, i, k, r) {
            return false;
        }
    }
    true
}

/// Whether there is room for the part from the places `starts` on, at each vertex.
fn has_room(s: &Seq<u32>, part: &Seq<u32>, starts: &[u32]) -> bool
    requires part { length part.now ≡ length s.now }
    requires starts { length s.now ≤ length starts.now }
    ensures { MatchBool result (HasRoom s.now part.now starts.now (length s.now)) (¬ HasRoom s.now part.now starts.now (length s.now)) }
{
    for v in 0..s.len() {
        let end = starts[v] as u64 + part[v] as u64;
        let most = s[v] as u64;
        if most < end {
            return false;
        }
    }
    true
}

/// Whether at each arrow the part is a block, from the places `starts` on.
fn has_blocks(header: &Header, side: Side, s: &Module, part: &Module, starts: &[u32]) -> bool
    requires allowed { IsAllowed header.now }
    requires s { IsModule header.now.field (algebra_at side header.now).quiver s.now }
    requires part { IsModule header.now.field (algebra_at side header.now).quiver part.now }
    requires room { HasRoom s.now.dims part.now.dims starts.now (length s.now.dims) }
    requires starts { length s.now.dims ≤ length starts.now }
    ensures { MatchBool result
        (HasBlocks (rep_of header.now.field (algebra_at side header.now).quiver s.now) (rep_of header.now.field (algebra_at side header.now).quiver part.now) (slice_index starts.now) (algebra_at side header.now).quiver.arrows)
        (¬ HasBlocks (rep_of header.now.field (algebra_at side header.now).quiver s.now) (rep_of header.now.field (algebra_at side header.now).quiver part.now) (slice_index starts.now) (algebra_at side header.now).quiver.arrows) }
{
    for a in 0..header.quiver.arrows.len() {
        let source = starts[source_at(header, side, a as u8) as usize];
        let target = starts[target_at(header, side, a as u8) as usize];
        if !is_block(&s.matrices[a], &part.matrices[a], source, target) {
            return false;
        }
    }
    true
}

/// Whether the part is a block of the module, from the places `starts` on.
pub(crate) fn has_part(
    header: &Header,
    side: Side,
    s: &Module,
    part: &Module,
    starts: &[u32],
) -> bool
    requires allowed { IsAllowed header.now }
    requires s { IsModule header.now.field (algebra_at side header.now).quiver s.now }
    requires part { IsModule header.now.field (algebra_at side header.now).quiver part.now }
    requires starts { length s.now.dims ≤ length starts.now }
    ensures { MatchBool result
        (HasPart (rep_of header.now.field (algebra_at side header.now).quiver s.now) (rep_of header.now.field (algebra_at side header.now).quiver part.now) (slice_index starts.now))
        (¬ HasPart (rep_of header.now.field (algebra_at side header.now).quiver s.now) (rep_of header.now.field (algebra_at side header.now).quiver part.now) (slice_index starts.now)) }
{
    if !has_room(&s.dims, &part.dims, starts) {
        return false;
    }
    if !has_blocks(header, side, s, part, starts) {
        return false;
    }
    true
}

/// Adds the dimensions of a part to the places where it begins.
pub(crate) fn pass_part(part: &Seq<u32>, starts: &mut [u32])
    requires starts { length part.now ≤ length starts.old }
    requires small { (v : ℕ) → v < length part.now → slice_index starts.old v + slice_index part.now v ≤ 256 }
    ensures { (v : ℕ) → v < length part.now → slice_index starts.new v ≡ slice_index starts.old v + slice_index part.now v }
{
    for v in 0..part.len() {
        starts[v] += part[v];
    }
}

/// Whether the places are the ends of the module, at each vertex.
pub(crate) fn are_ends(s: &Seq<u32>, starts: &[u32]) -> bool
    requires { length s.now ≤ length starts.now }
    ensures { MatchBool result (AreEnds s.now starts.now (length s.now)) (¬ AreEnds s.now starts.now (length s.now)) }
{
    for v in 0..s.len() {
        if starts[v] != s[v] {
            return false;
        }
    }
    true
}

/// Writes zeros.
pub(crate) fn clear_starts(starts: &mut [u32])
    ensures { (v : ℕ) → slice_index starts.new v ≡ 0 }
{
    for v in 0..starts.len() {
        starts[v] = 0;
    }
}
