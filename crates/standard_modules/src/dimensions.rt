//! The dimensions of projective and injective modules, counted by words.
ghost use Rattle.std.specs.Prelude.{ℕ, ◌≡◌, ◌<◌, ◌≤◌, length, slice_index, IfOk};
ghost use Rattle.linear_algebra.specs.Rows.{list_of};
ghost use Rattle.quiver_paths.specs.Quiver.{vertex_count};
ghost use Rattle.term_rows.specs.SumDims.{count_to, AreVertices};
ghost use Rattle.standard_modules.specs.StandardModules.{projective_dim, injective_dim, projectives_dim, injectives_dim};

use crate::sides::side_in_table;
use alg_table::Table;
use module_types::Side;
use seq::Seq;
use std::alloc::{AllocError, Global};

/// The dimension of the projective module of a side at a vertex: how many words the side has from it.
pub fn projective_dim(table: &Table, side: Side, v: u8) -> u64
    requires { v < vertex_count table.now.header.quiver }
    ensures dim { result ≡ projective_dim table.now.header table.now.words side v }
    ensures few { result ≤ 131072 }
{
    let hand = side_in_table(side);
    let mut dim = 0u64;
    for w in 0..table.header().quiver.vertices.len() {
        dim += table.words_at(hand, v, w as u8).len() as u64;
    }
    dim
}

/// The dimension of the injective module of a side at a vertex.
pub fn injective_dim(table: &Table, side: Side, v: u8) -> u64
    requires { v < vertex_count table.now.header.quiver }
    ensures dim { result ≡ injective_dim table.now.header table.now.words side v }
    ensures few { result ≤ 131072 }
{
    projective_dim(table, side.other(), v)
}

/// The dimension of the sum of the projective modules of a side at at most 512 vertices.
pub fn projectives_dim(table: &Table, side: Side, vertices: &[u8]) -> u64
    requires vertices { AreVertices table.now.header vertices.now }
    requires few { length vertices.now ≤ 512 }
    ensures { result ≡ projectives_dim table.now.header table.now.words side vertices.now }
{
    let mut dim = 0u64;
    for j in 0..vertices.len() {
        dim += projective_dim(table, side, vertices[j]);
    }
    dim
}

/// The dimension of the sum of the injective modules of a side at at most 512 vertices: what the Nakayama functor makes of the sum of the projective
/// modules there.
pub fn nakayama_dim(table: &Table, side: Side, vertices: &[u8]) -> u64
    requires vertices { AreVertices table.now.header vertices.now }
    requires few { length vertices.now ≤ 512 }
    ensures { result ≡ injectives_dim table.now.header table.now.words side vertices.now }
{
    projectives_dim(table, side.other(), vertices)
}

/// The dimension at each vertex of the projective module of a side at a vertex.
pub(crate) fn dims_by_words(
    alloc: Global,
    table: &Table,
    side: Side,
    v: u8,
) -> Result<Seq<u32>, AllocError>
    requires { v < vertex_count table.now.header.quiver }
    ensures { IfOk result (λ dims. dims ≡ list_of (vertex_count table.now.header.quiver) (count_to table.now.words side v)) }
{
    let hand = side_in_table(side);
    let mut dims = Vec::new(alloc);
    for w in 0..table.header().quiver.vertices.len() {
        dims.push(table.words_at(hand, v, w as u8).len() as u32)?;
    }
    Ok(Seq::from_vec(dims))
}
