//! The lines behind the first line of a claim.
ghost use Rattle.std.specs.Prelude.{◌≡◌, ◌<◌, ◌+◌, ◌^◌, length, IfOk, OnOk, MatchBool};
ghost use Rattle.header_text.specs.Named.{IsNamed};
ghost use Rattle.claim_lines.specs.declared.heads.Head.{Head};
ghost use Rattle.claim_blocks.specs.Blocks.{FitsHead as FitsLines};
ghost use Rattle.claim_text.specs.declared.part.Part.{Part};
ghost use Rattle.claim_text.specs.Part.{here, counts_of, setting_of, at_block, with_block};
ghost use Rattle.claim_text.specs.Steps.{FitsHead, TakesBlock};

use crate::part::{Part, Place};
use claim_blocks::{Block, Context};
use claim_lines::Head;
use std::alloc::{AllocError, Global};
use std::mem;
use text_lines::Parts;

impl Part {
    /// What the lines of a claim are read over.
    pub(crate) fn context(&self) -> Context<'_>
        ensures value { result ≡ setting_of self.now }
        ensures named { IsNamed result.header.quiver }
    {
        let header = self.front.header();
        Context {
            header,
            before: &self.records,
            modules: self.modules.as_slice(),
            maps: self.maps.as_slice(),
        }
    }

    /// What is read with so much of a claim: its record, where no line is left.
    fn set_block(&mut self, alloc: Global, block: Block) -> Result<(), AllocError>
        requires modules { (counts_of self.old).modules < 2 ^ 32 }
        requires maps { (counts_of self.old).maps < 2 ^ 32 }
        ensures { OnOk result (self.new ≡ at_block self.old block) }
    {
        if block.is_whole() {
            let claim = block.into_claim(alloc)?;
            self.close_claim(alloc, self.line, claim)?;
            return Ok(());
        }
        self.place = Place::Block;
        self.block = Some(block);
        Ok(())
    }

    /// What is read with the first line of a claim behind which others follow.
    pub(crate) fn begin_block(
        &mut self,
        alloc: Global,
        line: u32,
        head: &Head,
    ) -> Result<(), AllocError>
        requires claim { FitsHead self.old line head.now }
        requires lines { FitsLines self.old.front.header (here self.old) head.now }
        ensures { OnOk result (self.new ≡ with_block self.old line head.now) }
    {
        let Some(block) = Block::begin(alloc, &self.context(), head)? else {
            unreachable!();
        };
        self.line = line;
        self.set_block(alloc, block)?;
        Ok(())
    }

    /// Reads one line more of a claim.
    pub(crate) fn take_block(
        &mut self,
        alloc: Global,
        tokens: Parts<'_>,
    ) -> Result<bool, AllocError>
        ensures { IfOk result (λ taken. MatchBool taken (TakesBlock self.old self.old.block tokens.entry self.new) ((next : Part) → ¬ TakesBlock self.old self.old.block tokens.entry next)) }
    {
        let Some(_modules) = self.module_count() else {
            return Ok(false);
        };
        let Some(_maps) = self.map_count() else {
            return Ok(false);
        };
        let Some(block) = mem::replace(&mut self.block, None) else {
            return Ok(false);
        };
        let header = self.front.header();
        let mut lines = block;
        let taken = lines.take(alloc, header, tokens)?;
        if !taken {
            return Ok(false);
        }
        self.set_block(alloc, lines)?;
        Ok(true)
    }
}
