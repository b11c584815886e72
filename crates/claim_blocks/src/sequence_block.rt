//! The lines of a claim that a sequence is almost split.
ghost use Rattle.std.specs.Prelude.{ℕ, ◌≡◌, ◌≤◌, IfOk, MatchBool, MatchOption, IsTrue, ◌↔◌};
ghost use Rattle.header_text.specs.Named.{IsNamed};
ghost use Rattle.quiver_paths.specs.Quiver.{vertex_count};
ghost use Rattle.claim_blocks.specs.declared.sequence_block.SequenceBlock.{SequenceBlock as SequenceBlockView};
ghost use Rattle.claim_blocks.specs.declared.sequence_block.SequencePlace.TheVariants as place;
ghost use Rattle.claim_blocks.specs.PartMatrices.{IsWholeMatrices};
ghost use Rattle.claim_blocks.specs.SequenceBlocks.{generator_dims, dims_beside, AreNarrow, FitsSequence, sequence_block, FunctionalStep, LeftStep, MiddleStep, MiddleMatrixStep, SequenceStepAt, SequenceStep, IsWholeSequence, sequence_claim};

use crate::context::Context;
use crate::functional::read_functional;
use crate::part_matrices::PartMatrices;
use crate::term_block::{dim_in, module_dims};
use crate::vertex_block::presentation;
use object_lines::{is_left, is_middle};
use path_algebra::Header;
use report_types::Claim;
use seq::Seq;
use std::alloc::{AllocError, Global};
use text_lines::Parts;

/// The numbers of the modules and maps of a sequence, and of the claims that it is almost split by: a resolution of its right end, and that this is local.
#[derive(Clone, Copy, Drop)]
pub struct Sequence {
    pub left: u32,
    pub middle: u32,
    pub right: u32,
    pub f: u32,
    pub g: u32,
    pub resolution: u32,
    pub local: u32,
}

/// What is owed: the functional; the line before the matrices of the left end; these, and behind them the line before those of the middle; those.
#[derive(Clone, Copy, Drop, PartialEq, Eq)]
pub enum SequencePlace {
    Functional,
    Left,
    LeftMatrices,
    MiddleMatrices,
}

/// What has been read of a claim that a sequence is almost split. Kept beside it is how many entries the functional has for each generator of term 0.
#[derive(Drop)]
pub struct SequenceBlock {
    pub of: Sequence,
    pub place: SequencePlace,
    pub counts: Seq<u32>,
    pub phi: Seq<u8>,
    pub left: PartMatrices,
    pub middle: PartMatrices,
}

/// The dimensions of the module with this number at the generators of term 0 of a resolution.
fn generator_dims(
    alloc: Global,
    context: &Context<'_>,
    n: u32,
    resolution: u32,
) -> Result<Seq<u32>, AllocError>
    ensures { IfOk result (λ counts. counts ≡ generator_dims context.now.header context.now.records n resolution) }
{
    let vertices = context.vertices(resolution, 0);
    let mut counts = Seq::new(alloc);
    for j in 0..vertices.len() {
        counts.push(context.dim(n, vertices[j] as usize))?;
    }
    Ok(counts)
}

/// At each vertex these dimensions and those of the module with this number. `Ok(None)`: at one of them there are 2^32 or more. `Err`: memory is wanting.
fn dims_beside(
    alloc: Global,
    context: &Context<'_>,
    dims: &[u32],
    n: u32,
) -> Result<Option<Seq<u32>>, AllocError>
    ensures { IfOk result (λ r. MatchOption r (¬ AreNarrow context.now.header context.now.records dims.now n)
        (λ sums. AreNarrow context.now.header context.now.records dims.now n × (sums ≡ dims_beside context.now.header context.now.records dims.now n))) }
{
    let mut sums = Seq::new(alloc);
    for vertex in 0..context.header.quiver.vertices.len() {
        let sum = dim_in(dims, vertex) as u64 + context.dim(n, vertex) as u64;
        if sum > u32::MAX as u64 {
            return Ok(None);
        }
        sums.push(sum as u32)?;
    }
    Ok(Some(sums))
}

impl SequenceBlock {
    /// The lines of such a claim, before the first of them. `Ok(None)`: the claims that it names are of other kinds, or the resolution does not fit. `Err`:
    /// memory is wanting.
    pub fn begin(
        alloc: Global,
        context: &Context<'_>,
        of: Sequence,
    ) -> Result<Option<SequenceBlock>, AllocError>
        requires { vertex_count context.now.header.quiver ≤ 32 }
        ensures { IfOk result (λ r. MatchOption r (¬ FitsSequence context.now.header context.now.records of)
            (λ b. FitsSequence context.now.header context.now.records of × (b ≡ sequence_block context.now.header context.now.records of))) }
    {
        if !context.is_local(of.local) {
            return Ok(None);
        }
        let Some(dual) = presentation(alloc, context, of.resolution)? else {
            return Ok(None);
        };
        let Some(sums) = dims_beside(alloc, context, dual.as_slice(), of.right)? else {
            return Ok(None);
        };
        let counts = generator_dims(alloc, context, of.right, of.resolution)?;
        let left = module_dims(alloc, context, of.left)?;
        let left = PartMatrices::new(alloc, context.header.field, left, dual)?;
        let middle = module_dims(alloc, context, of.middle)?;
        let middle = PartMatrices::new(alloc, context.header.field, middle, sums)?;
        Ok(Some(SequenceBlock {
            of,
            place: SequencePlace::Functional,
            counts,
            phi: Seq::new(alloc),
            left,
            middle,
        }))
    }

    /// Reads the line of the functional.
    fn take_functional(
        &mut self,
        alloc: Global,
        header: &Header,
        tokens: Parts<'_>,
    ) -> Result<bool, AllocError>
        ensures { IfOk result (λ taken. MatchBool taken (FunctionalStep header.now self.old tokens.entry self.new) ((next : SequenceBlockView) → ¬ FunctionalStep header.now self.old tokens.entry next)) }
    {
        let Some(phi) = read_functional(alloc, header.field, self.counts.as_slice(), tokens)? else {
            return Ok(false);
        };
        self.phi = phi;
        self.place = SequencePlace::Left;
        Ok(true)
    }

    /// Reads the line before the matrices of the left end.
    fn take_left(&mut self, tokens: Parts<'_>) -> bool
        ensures { MatchBool result (LeftStep self.old tokens.entry self.new) ((next : SequenceBlockView) → ¬ LeftStep self.old tokens.entry next) }
    {
        if !is_left(tokens) {
            return false;
        }
        self.place = SequencePlace::LeftMatrices;
        true
    }

    /// Reads the line before the matrices of the middle.
    fn take_middle(&mut self, tokens: Parts<'_>) -> bool
        requires { IsWholeMatrices self.old.left }
        ensures { MatchBool result (MiddleStep self.old tokens.entry self.new) ((next : SequenceBlockView) → ¬ MiddleStep self.old tokens.entry next) }
    {
        if !is_middle(tokens) {
            return false;
        }
        self.place = SequencePlace::MiddleMatrices;
        true
    }

    /// Reads the line of a matrix of the left end, or that before those of the middle.
    fn take_left_matrix(
        &mut self,
        alloc: Global,
        header: &Header,
        tokens: Parts<'_>,
    ) -> Result<bool, AllocError>
        requires { IsNamed header.now.quiver }
        ensures { IfOk result (λ taken. MatchBool taken (SequenceStepAt place.LeftMatrices header.now self.old tokens.entry self.new) ((next : SequenceBlockView) → ¬ SequenceStepAt place.LeftMatrices header.now self.old tokens.entry next)) }
    {
        if self.left.is_whole() {
            return Ok(self.take_middle(tokens));
        }
        let taken = self.left.take(alloc, header, tokens)?;
        Ok(taken)
    }

    /// Reads the line of a matrix of the middle.
    fn take_middle_matrix(
        &mut self,
        alloc: Global,
        header: &Header,
        tokens: Parts<'_>,
    ) -> Result<bool, AllocError>
        requires { IsNamed header.now.quiver }
        ensures { IfOk result (λ taken. MatchBool taken (MiddleMatrixStep header.now self.old tokens.entry self.new) ((next : SequenceBlockView) → ¬ MiddleMatrixStep header.now self.old tokens.entry next)) }
    {
        let taken = self.middle.take(alloc, header, tokens)?;
        Ok(taken)
    }

    /// Reads the tokens of a line behind those that were read. `Ok(false)`: they are not those of a line that may follow. `Err`: memory is wanting.
    pub fn take(
        &mut self,
        alloc: Global,
        header: &Header,
        tokens: Parts<'_>,
    ) -> Result<bool, AllocError>
        requires { IsNamed header.now.quiver }
        ensures { IfOk result (λ taken. MatchBool taken (SequenceStep header.now self.old tokens.entry self.new) ((next : SequenceBlockView) → ¬ SequenceStep header.now self.old tokens.entry next)) }
    {
        match self.place {
            SequencePlace::Functional => self.take_functional(alloc, header, tokens),
            SequencePlace::Left => Ok(self.take_left(tokens)),
            SequencePlace::LeftMatrices => self.take_left_matrix(alloc, header, tokens),
            SequencePlace::MiddleMatrices => self.take_middle_matrix(alloc, header, tokens),
        }
    }

    /// Whether no line is left.
    pub fn is_whole(&self) -> bool
        ensures { IsTrue result ↔ IsWholeSequence self.now }
    {
        self.place == SequencePlace::MiddleMatrices && self.middle.is_whole()
    }

    /// The claim with what has been read.
    pub fn into_claim(self) -> Claim
        ensures { result ≡ sequence_claim self }
    {
        Claim::AlmostSplit {
            left: self.of.left,
            middle: self.of.middle,
            right: self.of.right,
            f: self.of.f,
            g: self.of.g,
            resolution: self.of.resolution,
            local: self.of.local,
            phi: self.phi,
            left_rows: self.left.into_matrices(),
            middle_rows: self.middle.into_matrices(),
        }
    }
}
