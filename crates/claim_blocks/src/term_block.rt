//! The lines of a claim that terms are a minimal projective resolution.
ghost use Rattle.std.specs.Prelude.{ℕ, ◌≡◌, ◌<◌, ◌≤◌, IfOk, OnOk, MatchBool, MatchOption, IsTrue, ◌↔◌, length, slice_index};
ghost use Rattle.linear_algebra.specs.Rows.{IsRow};
ghost use Rattle.quiver_paths.specs.Quiver.{vertex_count};
ghost use Rattle.header_text.specs.Named.{IsNamed};
ghost use Rattle.header_text.specs.Reading.{Reads};
ghost use Rattle.module_types.specs.declared.Side.{Side as SideView};
ghost use Rattle.claim_blocks.specs.declared.term_block.TermBlock.{TermBlock as TermBlockView};
ghost use Rattle.claim_blocks.specs.declared.term_block.TermPlace.TheVariants as place;
ghost use Rattle.claim_blocks.specs.TermBlocks.{FitsResolution, module_dims, printed_table, term_block, term_place, closed_term, settled, image_width, FitsImage, TermStep, TermStepAt, IsWholeTerms, terms_claim};

use crate::context::Context;
use crate::counts::WordCounts;
use module_types::{Side, TermRows};
use object_lines::{read_gen, read_term};
use path_algebra::Header;
use report_types::Claim;
use seq::Seq;
use std::alloc::{AllocError, Global};
use std::mem;
use text_lines::Parts;

/// What is owed: the generators of the next term; the row that a generator goes to; nothing.
#[derive(Clone, Copy, Drop, PartialEq, Eq)]
pub enum TermPlace {
    Term,
    Image,
    Whole,
}

/// What has been read of a claim that terms 0 to `last` are a minimal projective resolution: whole terms, and of the term behind them the vertices of its
/// generators and the rows that the first of these go to. Kept beside it are the dimensions, one for each vertex, of what that term goes to and of what the next one does.
#[derive(Drop)]
pub struct TermBlock {
    pub subject: u32,
    pub last: u32,
    pub place: TermPlace,
    pub table: WordCounts,
    pub covered: Seq<u32>,
    pub reached: Seq<u32>,
    pub terms: Seq<TermRows>,
    pub vertices: Seq<u8>,
    pub images: Seq<Seq<u8>>,
}

/// The dimensions of the module with this number, one for each vertex.
pub(crate) fn module_dims(
    alloc: Global,
    context: &Context<'_>,
    n: u32,
) -> Result<Seq<u32>, AllocError>
    ensures { IfOk result (λ dims. dims ≡ module_dims context.now.header context.now.records n) }
{
    let mut dims = Seq::new(alloc);
    for vertex in 0..context.header.quiver.vertices.len() {
        dims.push(context.dim(n, vertex))?;
    }
    Ok(dims)
}

/// The words that claim 1 prints, counted on a side.
pub(crate) fn printed_table(
    alloc: Global,
    context: &Context<'_>,
    side: Side,
) -> Result<WordCounts, AllocError>
    requires { vertex_count context.now.header.quiver ≤ 32 }
    ensures { IfOk result (λ t. t ≡ printed_table context.now.header context.now.records side) }
{
    let table = WordCounts::count(
        alloc,
        context.header.quiver.vertices.len(),
        side,
        context.words(),
    )?;
    Ok(table)
}

/// The dimension in a list; none past its end.
pub(crate) fn dim_in(dims: &[u32], vertex: usize) -> u32
    ensures { result ≡ slice_index dims.now vertex }
{
    if vertex >= dims.len() {
        return 0;
    }
    dims[vertex]
}

/// Where a block stands behind so many whole terms.
fn term_place(last: u32, count: usize) -> TermPlace
    ensures { result ≡ term_place last count }
{
    if (last as usize) < count {
        TermPlace::Whole
    } else {
        TermPlace::Term
    }
}

impl TermBlock {
    /// The lines of a claim that terms 0 to `last` resolve a module, before the first of them. `Ok(None)`: there are too many terms. `Err`: memory is wanting.
    pub fn begin(
        alloc: Global,
        context: &Context<'_>,
        subject: u32,
        last: u32,
    ) -> Result<Option<TermBlock>, AllocError>
        requires { vertex_count context.now.header.quiver ≤ 32 }
        ensures { IfOk result (λ r. MatchOption r (¬ FitsResolution last)
            (λ b. FitsResolution last × (b ≡ term_block context.now.header context.now.records subject last))) }
    {
        if last > 16 {
            return Ok(None);
        }
        let table = printed_table(alloc, context, context.side(subject))?;
        let reached = module_dims(alloc, context, subject)?;
        Ok(Some(TermBlock {
            subject,
            last,
            place: TermPlace::Term,
            table,
            covered: Seq::new(alloc),
            reached,
            terms: Seq::new(alloc),
            vertices: Seq::new(alloc),
            images: Seq::new(alloc),
        }))
    }

    /// Puts the term that is read behind the whole ones.
    fn close(&mut self, alloc: Global) -> Result<(), AllocError>
        ensures { OnOk result (self.new ≡ closed_term self.old) }
    {
        let vertices = mem::replace(&mut self.vertices, Seq::new(alloc));
        let images = mem::replace(&mut self.images, Seq::new(alloc));
        self.terms.push(TermRows { vertices, images })?;
        self.place = term_place(self.last, self.terms.len());
        Ok(())
    }

    /// The same where each of its generators has a row.
    fn settle(&mut self, alloc: Global) -> Result<(), AllocError>
        ensures { OnOk result (self.new ≡ settled self.old) }
    {
        if self.images.len() == self.vertices.len() {
            self.close(alloc)?;
            return Ok(());
        }
        self.place = TermPlace::Image;
        Ok(())
    }

    /// Reads the line of the generators of the next term.
    fn take_vertices(
        &mut self,
        alloc: Global,
        header: &Header,
        tokens: Parts<'_>,
    ) -> Result<bool, AllocError>
        requires { IsNamed header.now.quiver }
        ensures { IfOk result (λ taken. MatchBool taken (TermStepAt place.Term header.now self.old tokens.entry self.new) ((next : TermBlockView) → ¬ TermStepAt place.Term header.now self.old tokens.entry next)) }
    {
        let count = self.terms.len();
        if count > self.last as usize {
            return Ok(false);
        }
        if count > 16 {
            return Ok(false);
        }
        let Some(vertices) = read_term(alloc, header, count as u32, tokens)? else {
            return Ok(false);
        };
        if vertices.len() > u32::MAX as usize {
            return Ok(false);
        }
        let Some(dims) = self.table.dims(alloc, vertices.as_slice())? else {
            return Ok(false);
        };
        self.covered = mem::replace(&mut self.reached, dims);
        self.vertices = vertices;
        self.images = Seq::new(alloc);
        self.settle(alloc)?;
        Ok(true)
    }

    /// How many entries the row of the next generator has.
    fn image_width(&self) -> u32
        requires { length self.now.images < length self.now.vertices }
        ensures { result ≡ image_width self.now }
    {
        dim_in(
            self.covered.as_slice(),
            self.vertices[self.images.len()] as usize,
        )
    }

    /// Reads the line of the row that the next generator goes to.
    fn take_image(
        &mut self,
        alloc: Global,
        header: &Header,
        tokens: Parts<'_>,
    ) -> Result<bool, AllocError>
        ensures { IfOk result (λ taken. MatchBool taken (TermStepAt place.Image header.now self.old tokens.entry self.new) ((next : TermBlockView) → ¬ TermStepAt place.Image header.now self.old tokens.entry next)) }
    {
        if self.images.len() >= self.vertices.len() {
            return Ok(false);
        }
        let Some(row) = read_gen(alloc, header.field, self.image_width(), tokens)? else {
            return Ok(false);
        };
        self.images.push(row)?;
        self.settle(alloc)?;
        Ok(true)
    }

    /// Reads the tokens of a line behind those that were read. `Ok(false)`: they are not those of a line that may follow. `Err`: memory is wanting.
    pub fn take(
        &mut self,
        alloc: Global,
        header: &Header,
        tokens: Parts<'_>,
    ) -> Result<bool, AllocError>
        requires { IsNamed header.now.quiver }
        ensures { IfOk result (λ taken. MatchBool taken (TermStep header.now self.old tokens.entry self.new) ((next : TermBlockView) → ¬ TermStep header.now self.old tokens.entry next)) }
    {
        match self.place {
            TermPlace::Term => self.take_vertices(alloc, header, tokens),
            TermPlace::Image => self.take_image(alloc, header, tokens),
            TermPlace::Whole => Ok(false),
        }
    }

    /// Whether no line is left.
    pub fn is_whole(&self) -> bool
        ensures { IsTrue result ↔ IsWholeTerms self.now }
    {
        self.place == TermPlace::Whole
    }

    /// The claim with what has been read.
    pub fn into_claim(self) -> Claim
        ensures { result ≡ terms_claim self }
    {
        Claim::Resolution {
            a: self.subject,
            n: self.last,
            terms: self.terms,
        }
    }
}
