//! The lines behind the first line of a claim, whatever its kind.
ghost use Rattle.std.specs.Prelude.{ℕ, ◌≡◌, IfOk, MatchBool, MatchOption};
ghost use Rattle.header_text.specs.Named.{IsNamed};
ghost use Rattle.claim_blocks.specs.declared.block.Block.{Block as BlockView};
ghost use Rattle.claim_blocks.specs.declared.block.Block.TheVariants.{Rows as rows_block, Local as local_lines, Terms as terms_block, Vertices as vertices_block, Sequence as sequence_lines};
ghost use Rattle.claim_blocks.specs.RowBlocks.{FitsRows, row_block};
ghost use Rattle.claim_blocks.specs.LocalBlocks.{FitsLocal, local_block};
ghost use Rattle.claim_blocks.specs.TermBlocks.{FitsResolution, term_block};
ghost use Rattle.claim_blocks.specs.VertexBlocks.{FitsPresentation, vertex_block};
ghost use Rattle.claim_blocks.specs.SequenceBlocks.{FitsSequence, sequence_block};
ghost use Rattle.claim_blocks.specs.Blocks.{FitsHead, IsOnSpace, IsOnSequence, begin_block, BlockStep, whole_block, block_claim};

use crate::context::Context;
use crate::local_block::LocalBlock;
use crate::row_block::{RowBlock, Space};
use crate::sequence_block::{Sequence, SequenceBlock};
use crate::term_block::TermBlock;
use crate::vertex_block::VertexBlock;
use claim_lines::Head;
use path_algebra::Header;
use report_types::{Claim, Translation};
use std::alloc::{AllocError, Global};
use text_lines::Parts;

/// What has been read of the lines behind the first line of a claim.
#[derive(Drop)]
pub enum Block {
    Rows(RowBlock),
    Local(LocalBlock),
    Terms(TermBlock),
    Vertices(VertexBlock),
    Sequence(SequenceBlock),
}

/// The rows of a claim on a space, before the first of them.
fn begin_rows(alloc: Global, context: &Context<'_>, space: Space, count: u32) -> Option<Block>
    ensures { MatchOption result (¬ FitsRows context.now.header context.now.records space count)
        (λ b. FitsRows context.now.header context.now.records space count × (b ≡ rows_block (row_block context.now.header context.now.records space count))) }
{
    let Some(rows) = RowBlock::begin(alloc, context, space, count) else {
        return None;
    };
    Some(Block::Rows(rows))
}

/// The rows of a claim on homomorphisms or on extensions, before the first of them.
fn begin_space(alloc: Global, context: &Context<'_>, head: &Head) -> Option<Block>
    requires { IsOnSpace head.now }
    ensures { MatchOption result (¬ FitsHead context.now.header context.now.records head.now)
        (λ b. FitsHead context.now.header context.now.records head.now × (b ≡ begin_block context.now.header context.now.records head.now)) }
{
    match head {
        Head::Hom { a, b, count } => {
            let space = Space::Hom { a: *a, b: *b };
            begin_rows(alloc, context, space, *count)
        }
        Head::Ext {
            n,
            a,
            b,
            count,
            resolution,
        } => {
            let space = Space::Ext {
                n: *n,
                a: *a,
                b: *b,
                resolution: *resolution,
            };
            begin_rows(alloc, context, space, *count)
        }
        _ => None,
    }
}

/// The lines of a claim that a module is local, before the first of them.
fn begin_local(alloc: Global, context: &Context<'_>, subject: u32, hom: u32) -> Option<Block>
    ensures { MatchOption result (¬ FitsLocal context.now.records hom)
        (λ b. FitsLocal context.now.records hom × (b ≡ local_lines (local_block context.now.header context.now.records subject hom))) }
{
    let Some(lines) = LocalBlock::begin(alloc, context, subject, hom) else {
        return None;
    };
    Some(Block::Local(lines))
}

/// The lines of a resolution up to this term, before the first of them.
fn begin_terms(
    alloc: Global,
    context: &Context<'_>,
    subject: u32,
    last: u32,
) -> Result<Option<Block>, AllocError>
    requires { IsNamed context.now.header.quiver }
    ensures { IfOk result (λ r. MatchOption r (¬ FitsResolution last)
        (λ b. FitsResolution last × (b ≡ terms_block (term_block context.now.header context.now.records subject last)))) }
{
    let Some(terms) = TermBlock::begin(alloc, context, subject, last)? else {
        return Ok(None);
    };
    Ok(Some(Block::Terms(terms)))
}

/// The matrices of a claim on a translate, a transpose or an inverse translate, before the first of them.
fn begin_vertices(
    alloc: Global,
    context: &Context<'_>,
    which: Translation,
    subject: u32,
    of: u32,
    resolution: u32,
) -> Result<Option<Block>, AllocError>
    requires { IsNamed context.now.header.quiver }
    ensures { IfOk result (λ r. MatchOption r (¬ FitsPresentation context.now.header context.now.records resolution)
        (λ b. FitsPresentation context.now.header context.now.records resolution × (b ≡ vertices_block (vertex_block context.now.header context.now.records which subject of resolution)))) }
{
    let Some(matrices) = VertexBlock::begin(alloc, context, which, subject, of, resolution)? else {
        return Ok(None);
    };
    Ok(Some(Block::Vertices(matrices)))
}

/// The lines of a claim that this sequence is almost split, before the first of them.
fn begin_lines(
    alloc: Global,
    context: &Context<'_>,
    of: Sequence,
) -> Result<Option<Block>, AllocError>
    requires { IsNamed context.now.header.quiver }
    ensures { IfOk result (λ r. MatchOption r (¬ FitsSequence context.now.header context.now.records of)
        (λ b. FitsSequence context.now.header context.now.records of × (b ≡ sequence_lines (sequence_block context.now.header context.now.records of)))) }
{
    let Some(lines) = SequenceBlock::begin(alloc, context, of)? else {
        return Ok(None);
    };
    Ok(Some(Block::Sequence(lines)))
}

/// The lines of a claim that a sequence is almost split, before the first of them.
fn begin_sequence(
    alloc: Global,
    context: &Context<'_>,
    head: &Head,
) -> Result<Option<Block>, AllocError>
    requires named { IsNamed context.now.header.quiver }
    requires kind { IsOnSequence head.now }
    ensures { IfOk result (λ r. MatchOption r (¬ FitsHead context.now.header context.now.records head.now)
        (λ b. FitsHead context.now.header context.now.records head.now × (b ≡ begin_block context.now.header context.now.records head.now))) }
{
    match head {
        Head::AlmostSplit {
            left,
            middle,
            right,
            f,
            g,
            resolution,
            local,
        } => {
            let of = Sequence {
                left: *left,
                middle: *middle,
                right: *right,
                f: *f,
                g: *g,
                resolution: *resolution,
                local: *local,
            };
            let lines = begin_lines(alloc, context, of)?;
            Ok(lines)
        }
        _ => Ok(None),
    }
}

impl Block {
    /// The block behind this first line of a claim. None: the claims that it names are of other kinds than it asks, what it counts is past its limits, or
    /// claims of this kind have no such lines. `Err`: memory is wanting.
    pub fn begin(
        alloc: Global,
        context: &Context<'_>,
        head: &Head,
    ) -> Result<Option<Block>, AllocError>
        requires { IsNamed context.now.header.quiver }
        ensures { IfOk result (λ r. MatchOption r (¬ FitsHead context.now.header context.now.records head.now)
            (λ b. FitsHead context.now.header context.now.records head.now × (b ≡ begin_block context.now.header context.now.records head.now))) }
    {
        match head {
            Head::Hom { .. } => Ok(begin_space(alloc, context, head)),
            Head::Ext { .. } => Ok(begin_space(alloc, context, head)),
            Head::Local { module, hom } => Ok(begin_local(alloc, context, *module, *hom)),
            Head::Resolution { a, n } => {
                let terms = begin_terms(alloc, context, *a, *n)?;
                Ok(terms)
            }
            Head::Translate {
                which,
                module,
                a,
                resolution,
            } => {
                let matrices = begin_vertices(alloc, context, *which, *module, *a, *resolution)?;
                Ok(matrices)
            }
            Head::AlmostSplit { .. } => {
                let lines = begin_sequence(alloc, context, head)?;
                Ok(lines)
            }
            _ => Ok(None),
        }
    }

    /// Reads the tokens of a line behind those that were read. `Ok(false)`: they are not those of a line that may follow. `Err`: memory is wanting.
    pub fn take(
        &mut self,
        alloc: Global,
        header: &Header,
        tokens: Parts<'_>,
    ) -> Result<bool, AllocError>
        requires { IsNamed header.now.quiver }
        ensures { IfOk result (λ taken. MatchBool taken (BlockStep header.now self.old tokens.entry self.new) ((next : BlockView) → ¬ BlockStep header.now self.old tokens.entry next)) }
    {
        match self {
            Block::Rows(block) => {
                let taken = block.take(alloc, tokens)?;
                Ok(taken)
            }
            Block::Local(block) => {
                let taken = block.take(alloc, tokens)?;
                Ok(taken)
            }
            Block::Terms(block) => {
                let taken = block.take(alloc, header, tokens)?;
                Ok(taken)
            }
            Block::Vertices(block) => {
                let taken = block.take(alloc, header, tokens)?;
                Ok(taken)
            }
            Block::Sequence(block) => {
                let taken = block.take(alloc, header, tokens)?;
                Ok(taken)
            }
        }
    }

    /// Whether no line is left.
    pub fn is_whole(&self) -> bool
        ensures { result ≡ whole_block self.now }
    {
        match self {
            Block::Rows(block) => block.is_whole(),
            Block::Local(block) => block.is_whole(),
            Block::Terms(block) => block.is_whole(),
            Block::Vertices(block) => block.is_whole(),
            Block::Sequence(block) => block.is_whole(),
        }
    }

    /// The claim with what has been read. `Err`: memory is wanting.
    pub fn into_claim(self, alloc: Global) -> Result<Claim, AllocError>
        ensures { IfOk result (λ c. c ≡ block_claim self) }
    {
        match self {
            Block::Rows(block) => {
                let claim = block.into_claim(alloc)?;
                Ok(claim)
            }
            Block::Local(block) => {
                let claim = block.into_claim(alloc)?;
                Ok(claim)
            }
            Block::Terms(block) => Ok(block.into_claim()),
            Block::Vertices(block) => Ok(block.into_claim()),
            Block::Sequence(block) => Ok(block.into_claim()),
        }
    }
}
