//! How many words lead from a vertex to a vertex, counted once.
ghost use Rattle.std.specs.Prelude.{ℕ, ◌≡◌, ◌<◌, ◌≤◌, ◌+◌, ◌*◌, ◌^◌, length, take, slice_index, IfOk, MatchOption};
ghost use Rattle.report_types.specs.Limits.{term_limit};
ghost use Rattle.claim_blocks.specs.Counts.{ends_of, AreCounts, word_table, entry_at, table_dim, table_dims, table_dimension};

use module_types::Side;
use quiver_paths::Path;
use seq::Seq;
use std::alloc::{AllocError, Global};
use std::marker::Model;

/// How many words of a side lead from each vertex to each of the `size` vertices of a quiver. Contracts see the table of the counts.
#[derive(Drop)]
pub struct WordCounts {
    size: usize,
    counts: Seq<u64>,
}

impl Model for WordCounts {
    ghost use Rattle.claim_blocks.specs.Counts.{WordTable, IsTable};

    ghost Value = { WordTable };

    ghost view = { λ t. record { size = t.size; counts = t.counts } };

    ghost invariant = { λ t. IsTable record { size = t.size; counts = t.counts } };
}

/// Where a word begins and ends as a side takes it.
fn ends_of(side: Side, word: &Path) -> (u8, u8)
    ensures { result ≡ ends_of side word.now }
{
    match side {
        Side::Right => (word.start, word.end),
        Side::Left => (word.end, word.start),
    }
}

/// Counts word i behind those before it.
fn count_word(counts: &mut Vec<u64>, size: usize, side: Side, words: &[Path], i: usize)
    requires inside { i < length words.now }
    requires room { i + 1 < 2 ^ 64 }
    requires before { AreCounts (take i words.now) side size counts.old.items }
    ensures { AreCounts (take (i + 1) words.now) side size counts.new.items }
{
    let (from, to) = ends_of(side, &words[i]);
    if to as usize >= size {
        return;
    }
    counts[from as usize * size + to as usize] += 1;
}

impl WordCounts {
    /// Counts the words of a side that lead to one of the first `size` vertices, in one pass. `Err`: memory is wanting.
    pub(crate) fn count(
        alloc: Global,
        size: usize,
        side: Side,
        words: &[Path],
    ) -> Result<WordCounts, AllocError>
        requires { size ≤ 32 }
        ensures { IfOk result (λ t. t ≡ word_table words.now side size) }
    {
        let mut counts = vec![in alloc; 0u64; 256 * size]?;
        for i in 0..words.len() {
            count_word(&mut counts, size, side, words, i);
        }
        Ok(WordCounts {
            size,
            counts: Seq::from_vec(counts),
        })
    }

    /// How many words lead from v to w.
    fn entry(&self, v: u8, w: usize) -> u64
        requires { w < self.now.size }
        ensures { result ≡ entry_at self.now v w }
    {
        self.counts[v as usize * self.size + w]
    }

    /// The dimension at a vertex of the sum of the projective modules at some vertices; none where it is greater than `most`.
    fn dim_at(&self, vertices: &[u8], vertex: usize, most: u32) -> Option<u32>
        requires { vertex < self.now.size }
        ensures { MatchOption result (most < table_dim self.now vertices.now vertex) (λ n. (n ≡ table_dim self.now vertices.now vertex) × (n ≤ most)) }
    {
        let mut sum = 0u32;
        for j in 0..vertices.len() {
            let more = self.entry(vertices[j], vertex);
            if more > (most - sum) as u64 {
                return None;
            }
            sum += more as u32;
        }
        Some(sum)
    }

    /// The dimension at each vertex of the sum of the projective modules at some vertices; none where the whole is greater than 512. `Err`: memory is
    /// wanting.
    pub(crate) fn dims(
        &self,
        alloc: Global,
        vertices: &[u8],
    ) -> Result<Option<Seq<u32>>, AllocError>
        ensures { IfOk result (λ r. MatchOption r (term_limit < table_dimension self.now vertices.now)
            (λ dims. (table_dimension self.now vertices.now ≤ term_limit) × (dims ≡ table_dims self.now vertices.now))) }
    {
        let mut dims = Seq::new(alloc);
        let mut left = 512u32;
        for vertex in 0..self.size {
            let Some(dim) = self.dim_at(vertices, vertex, left) else {
                return Ok(None);
            };
            dims.push(dim)?;
            left -= dim;
        }
        Ok(Some(dims))
    }
}
