//! The rows of a claim on homomorphisms or on extensions.
ghost use Rattle.std.specs.Prelude.{ℕ, ◌≡◌, ◌<◌, ◌≤◌, suc, IfOk, MatchBool, MatchOption, IsTrue, ◌↔◌, length};
ghost use Rattle.report_types.specs.Limits.{unknown_limit};
ghost use Rattle.claim_blocks.specs.declared.row_block.RowBlock.{RowBlock as RowBlockView};
ghost use Rattle.claim_blocks.specs.RowBlocks.{width_of, FitsSpace, FitsRows, row_block, RowBlockStep, IsWholeRows, row_claim};
ghost use Rattle.claim_blocks.specs.Sums.{IsSum};

use crate::context::Context;
use crate::part_rows::PartRows;
use report_types::Claim;
use std::alloc::{AllocError, Global};
use text_lines::Parts;

/// The space that rows are a basis of: the homomorphisms from module `a` to module `b`, or the extensions of degree `n` of `a` by `b`, which are read over a
/// resolution of `a`.
#[derive(Clone, Copy, Drop)]
pub enum Space {
    Hom {
        a: u32,
        b: u32,
    },
    Ext {
        n: u32,
        a: u32,
        b: u32,
        resolution: u32,
    },
}

/// The rows of a claim on such a space that have been read.
#[derive(Drop)]
pub struct RowBlock {
    pub space: Space,
    pub rows: PartRows,
}

/// Whether a space is read over what it has to be.
fn fits_space(context: &Context<'_>, space: Space) -> bool
    ensures { IsTrue result ↔ FitsSpace context.now.records space }
{
    match space {
        Space::Hom { a: _a, b: _b } => true,
        Space::Ext {
            n,
            a: _a,
            b: _b,
            resolution,
        } => context.has_length(resolution, n as u64 + 1),
    }
}

/// How many coordinates each row has; none where there are more than 1,024.
fn width_of(context: &Context<'_>, space: Space) -> Option<u32>
    ensures { MatchOption result (unknown_limit < width_of context.now.header context.now.records space)
        (IsSum unknown_limit (width_of context.now.header context.now.records space)) }
{
    match space {
        Space::Hom { a, b } => context.unknown_count(a, b),
        Space::Ext {
            n,
            a: _a,
            b,
            resolution,
        } => context.count_at(b, context.vertices(resolution, n)),
    }
}

impl RowBlock {
    /// The rows of a claim on a space, so many, before the first of them. None: the space is read over a claim of another kind, the rows have more than 1,024
    /// coordinates, or there are more rows than coordinates.
    pub fn begin(alloc: Global, context: &Context<'_>, space: Space, count: u32) -> Option<RowBlock>
        ensures { MatchOption result (¬ FitsRows context.now.header context.now.records space count)
            (λ b. FitsRows context.now.header context.now.records space count × (b ≡ row_block context.now.header context.now.records space count)) }
    {
        if !fits_space(context, space) {
            return None;
        }
        let width = width_of(context, space)?;
        if count > width {
            return None;
        }
        let rows = PartRows::new(alloc, context.header.field, width, count);
        Some(RowBlock { space, rows })
    }

    /// Reads the tokens of a line behind those that were read. `Ok(false)`: they are not those of a row that may follow. `Err`: memory is wanting.
    pub fn take(&mut self, alloc: Global, tokens: Parts<'_>) -> Result<bool, AllocError>
        ensures { IfOk result (λ taken. MatchBool taken (RowBlockStep self.old tokens.entry self.new) ((next : RowBlockView) → ¬ RowBlockStep self.old tokens.entry next)) }
    {
        let taken = self.rows.take(alloc, tokens)?;
        Ok(taken)
    }

    /// Whether no line is left.
    pub fn is_whole(&self) -> bool
        ensures { IsTrue result ↔ IsWholeRows self.now }
    {
        self.rows.is_whole()
    }

    /// The claim with the rows that have been read. `Err`: memory is wanting.
    pub fn into_claim(self, alloc: Global) -> Result<Claim, AllocError>
        ensures { IfOk result (λ c. c ≡ row_claim self) }
    {
        let rows = self.rows.into_matrix(alloc)?;
        Ok(match self.space {
            Space::Hom { a, b } => Claim::Hom { a, b, rows },
            Space::Ext {
                n,
                a,
                b,
                resolution,
            } => Claim::Ext {
                n,
                a,
                b,
                rows,
                resolution,
            },
        })
    }
}
