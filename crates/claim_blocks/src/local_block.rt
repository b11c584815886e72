//! The lines of a claim that a module is local.
ghost use Rattle.std.specs.Prelude.{ℕ, ◌≡◌, ◌≤◌, ◌*◌, IfOk, MatchBool, MatchOption, IsTrue, ◌↔◌, length};
ghost use Rattle.fp_linear.specs.Matrix.{most_entries};
ghost use Rattle.claim_blocks.specs.declared.local_block.LocalBlock.{LocalBlock as LocalBlockView};
ghost use Rattle.claim_blocks.specs.declared.local_block.LocalPlace.TheVariants as place;
ghost use Rattle.claim_blocks.specs.LocalBlocks.{FitsLocal, local_block, LocalStep, LocalStepAt, IsWholeLocal, local_claim};

use crate::context::Context;
use crate::part_rows::PartRows;
use claim_conditions::Residue;
use object_lines::{read_ideal, read_power, read_residue};
use report_types::Claim;
use std::alloc::{AllocError, Global};
use text_lines::Parts;

/// What is owed: the number of rows of the ideal; its rows, and behind them the power; the form of the residue ring; nothing.
#[derive(Clone, Copy, Drop, PartialEq, Eq)]
pub enum LocalPlace {
    Ideal,
    Rows,
    Residue,
    Whole,
}

/// What has been read of a claim that a module is local.
#[derive(Drop)]
pub struct LocalBlock {
    pub subject: u32,
    pub hom: u32,
    pub place: LocalPlace,
    pub ideal: PartRows,
    pub power: u32,
    pub residue: Residue,
}

impl LocalBlock {
    /// The lines of a claim that a module is local by a claim on its endomorphisms, before the first of them. None: that claim is of another kind.
    pub fn begin(alloc: Global, context: &Context<'_>, subject: u32, hom: u32) -> Option<LocalBlock>
        ensures { MatchOption result (¬ FitsLocal context.now.records hom)
            (λ b. FitsLocal context.now.records hom × (b ≡ local_block context.now.header context.now.records subject hom)) }
    {
        let width = context.hom_rows(hom)?;
        Some(LocalBlock {
            subject,
            hom,
            place: LocalPlace::Ideal,
            ideal: PartRows::new(alloc, context.header.field, width, 0),
            power: 0,
            residue: Residue::Frobenius,
        })
    }

    /// Reads the line of the number of rows.
    fn take_ideal(&mut self, alloc: Global, tokens: Parts<'_>) -> bool
        ensures { MatchBool result (LocalStepAt place.Ideal self.old tokens.entry self.new) ((next : LocalBlockView) → ¬ LocalStepAt place.Ideal self.old tokens.entry next) }
    {
        let width = self.ideal.width();
        let Some(count) = read_ideal(width, tokens) else {
            return false;
        };
        if count as u64 * width as u64 > 67_108_864 {
            return false;
        }
        self.place = LocalPlace::Rows;
        self.ideal = PartRows::new(alloc, self.ideal.field(), width, count);
        true
    }

    /// Reads the line of the power.
    fn take_power(&mut self, tokens: Parts<'_>) -> bool
        requires { length self.old.ideal.rows ≡ self.old.ideal.wanted }
        ensures { MatchBool result (LocalStepAt place.Rows self.old tokens.entry self.new) ((next : LocalBlockView) → ¬ LocalStepAt place.Rows self.old tokens.entry next) }
    {
        let Some(power) = read_power(tokens) else {
            return false;
        };
        self.place = LocalPlace::Residue;
        self.power = power;
        true
    }

    /// Reads the line of a row, or that of the power.
    fn take_row(&mut self, alloc: Global, tokens: Parts<'_>) -> Result<bool, AllocError>
        ensures { IfOk result (λ taken. MatchBool taken (LocalStepAt place.Rows self.old tokens.entry self.new) ((next : LocalBlockView) → ¬ LocalStepAt place.Rows self.old tokens.entry next)) }
    {
        if self.ideal.is_whole() {
            return Ok(self.take_power(tokens));
        }
        let taken = self.ideal.take(alloc, tokens)?;
        Ok(taken)
    }

    /// Reads the line of the form of the residue ring.
    fn take_residue(&mut self, tokens: Parts<'_>) -> bool
        ensures { MatchBool result (LocalStepAt place.Residue self.old tokens.entry self.new) ((next : LocalBlockView) → ¬ LocalStepAt place.Residue self.old tokens.entry next) }
    {
        let Some(residue) = read_residue(tokens) else {
            return false;
        };
        self.place = LocalPlace::Whole;
        self.residue = residue;
        true
    }

    /// Reads the tokens of a line behind those that were read. `Ok(false)`: they are not those of a line that may follow. `Err`: memory is wanting.
    pub fn take(&mut self, alloc: Global, tokens: Parts<'_>) -> Result<bool, AllocError>
        ensures { IfOk result (λ taken. MatchBool taken (LocalStep self.old tokens.entry self.new) ((next : LocalBlockView) → ¬ LocalStep self.old tokens.entry next)) }
    {
        match self.place {
            LocalPlace::Ideal => Ok(self.take_ideal(alloc, tokens)),
            LocalPlace::Rows => self.take_row(alloc, tokens),
            LocalPlace::Residue => Ok(self.take_residue(tokens)),
            LocalPlace::Whole => Ok(false),
        }
    }

    /// Whether no line is left.
    pub fn is_whole(&self) -> bool
        ensures { IsTrue result ↔ IsWholeLocal self.now }
    {
        self.place == LocalPlace::Whole
    }

    /// The claim with what has been read. `Err`: memory is wanting.
    pub fn into_claim(self, alloc: Global) -> Result<Claim, AllocError>
        ensures { IfOk result (λ c. c ≡ local_claim self) }
    {
        let ideal = self.ideal.into_matrix(alloc)?;
        Ok(Claim::Local {
            module: self.subject,
            hom: self.hom,
            ideal,
            power: self.power,
            residue: self.residue,
        })
    }
}
