//! The lines of a claim on a translate, a transpose or an inverse translate.
ghost use Rattle.std.specs.Prelude.{ℕ, ◌≡◌, ◌<◌, ◌≤◌, IfOk, MatchBool, MatchOption, IsTrue, ◌↔◌, length, slice_index};
ghost use Rattle.header_text.specs.Named.{IsNamed};
ghost use Rattle.quiver_paths.specs.Quiver.{vertex_count};
ghost use Rattle.claim_blocks.specs.declared.vertex_block.VertexBlock.{VertexBlock as VertexBlockView};
ghost use Rattle.claim_blocks.specs.VertexBlocks.{FitsPresentation, dual_dims, translate_between, vertex_block, VertexStep, IsWholeVertices, vertex_claim};

use crate::context::Context;
use crate::part_matrices::PartMatrices;
use crate::term_block::{module_dims, printed_table};
use path_algebra::Header;
use report_types::{Claim, Translation};
use seq::Seq;
use std::alloc::{AllocError, Global};
use text_lines::Parts;

/// What has been read of a claim that module `subject` is the translate, the transpose or the inverse translate of module `of`, over a resolution.
#[derive(Drop)]
pub struct VertexBlock {
    pub which: Translation,
    pub subject: u32,
    pub of: u32,
    pub resolution: u32,
    pub matrices: PartMatrices,
}

/// It does nothing: each item of a slice of bytes is below 256.
fn are_bytes(items: &[u8])
    ensures { (j : ℕ) → slice_index items.now j < 256 }
{
    let _items = items;
}

/// The dimensions of the injective modules of term 1 of a resolution, one for each vertex. `Ok(None)`: it has not length 1, or those of one of its terms have
/// a dimension greater than 512. `Err`: memory is wanting.
pub(crate) fn presentation(
    alloc: Global,
    context: &Context<'_>,
    resolution: u32,
) -> Result<Option<Seq<u32>>, AllocError>
    requires { vertex_count context.now.header.quiver ≤ 32 }
    ensures { IfOk result (λ r. MatchOption r (¬ FitsPresentation context.now.header context.now.records resolution)
        (λ dims. FitsPresentation context.now.header context.now.records resolution × (dims ≡ dual_dims context.now.header context.now.records resolution))) }
{
    if !context.has_length(resolution, 1) {
        return Ok(None);
    }
    let side = context.side(context.resolved(resolution)).other();
    let table = printed_table(alloc, context, side)?;
    let first = context.vertices(resolution, 0);
    are_bytes(first);
    let Some(_small) = table.dims(alloc, first)? else {
        return Ok(None);
    };
    let second = context.vertices(resolution, 1);
    are_bytes(second);
    let Some(dims) = table.dims(alloc, second)? else {
        return Ok(None);
    };
    Ok(Some(dims))
}

/// Before the first line of an embedding of a translate, or of a projection onto a transpose or a dual.
fn translate_start(
    alloc: Global,
    context: &Context<'_>,
    which: Translation,
    own: Seq<u32>,
    dual: Seq<u32>,
) -> Result<PartMatrices, AllocError>
    ensures { IfOk result (λ m. m ≡ translate_between context.now.header which own dual) }
{
    match which {
        Translation::Tau => PartMatrices::new(alloc, context.header.field, own, dual),
        _ => PartMatrices::new(alloc, context.header.field, dual, own),
    }
}

impl VertexBlock {
    /// The lines of such a claim, before the first of them. `Ok(None)`: the resolution does not fit. `Err`: memory is wanting.
    pub fn begin(
        alloc: Global,
        context: &Context<'_>,
        which: Translation,
        subject: u32,
        of: u32,
        resolution: u32,
    ) -> Result<Option<VertexBlock>, AllocError>
        requires { vertex_count context.now.header.quiver ≤ 32 }
        ensures { IfOk result (λ r. MatchOption r (¬ FitsPresentation context.now.header context.now.records resolution)
            (λ b. FitsPresentation context.now.header context.now.records resolution × (b ≡ vertex_block context.now.header context.now.records which subject of resolution))) }
    {
        let Some(dual) = presentation(alloc, context, resolution)? else {
            return Ok(None);
        };
        let own = module_dims(alloc, context, subject)?;
        let matrices = translate_start(alloc, context, which, own, dual)?;
        Ok(Some(VertexBlock {
            which,
            subject,
            of,
            resolution,
            matrices,
        }))
    }

    /// Reads the tokens of a line behind those that were read. `Ok(false)`: they are not those of a line that may follow. `Err`: memory is wanting.
    pub fn take(
        &mut self,
        alloc: Global,
        header: &Header,
        tokens: Parts<'_>,
    ) -> Result<bool, AllocError>
        requires { IsNamed header.now.quiver }
        ensures { IfOk result (λ taken. MatchBool taken (VertexStep header.now self.old tokens.entry self.new) ((next : VertexBlockView) → ¬ VertexStep header.now self.old tokens.entry next)) }
    {
        let taken = self.matrices.take(alloc, header, tokens)?;
        if !taken {
            return Ok(false);
        }
        Ok(true)
    }

    /// Whether no line is left.
    pub fn is_whole(&self) -> bool
        ensures { IsTrue result ↔ IsWholeVertices self.now }
    {
        self.matrices.is_whole()
    }

    /// The claim with what has been read.
    pub fn into_claim(self) -> Claim
        ensures { result ≡ vertex_claim self }
    {
        Claim::Translate {
            which: self.which,
            module: self.subject,
            a: self.of,
            resolution: self.resolution,
            rows: self.matrices.into_matrices(),
        }
    }
}
