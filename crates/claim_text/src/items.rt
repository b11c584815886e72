//! What stands between whole objects and claims.
ghost use Rattle.std.specs.Prelude.{ℕ, ◌≡◌, ◌≢◌, ◌<◌, ◌≤◌, ◌+◌, ◌^◌, ◌∷◌, [], List, All, Some, length, codes, slice_index_or, IfOk, OnOk, MatchBool, MatchOption, IsTrue, ◌↔◌};
ghost use Rattle.text_lines.specs.Strict.{strict_tokens};
ghost use Rattle.header_text.specs.Reading.{Reads};
ghost use Rattle.object_lines.specs.declared.objects.ModuleHead.{ModuleHead as ModuleView};
ghost use Rattle.object_lines.specs.Items.{head_line};
ghost use Rattle.object_lines.specs.Spelling.{map_line};
ghost use Rattle.report_types.specs.declared.claims.PartClaim.{PartClaim as PartView};
ghost use Rattle.report_types.specs.NamedClaims.{IsLocalClaim};
ghost use Rattle.report_types.specs.Numbers.{claim_of};
ghost use Rattle.claim_lines.specs.declared.heads.Head.{Head as HeadView};
ghost use Rattle.claim_lines.specs.Spelling.{claim_line, end_line};
ghost use Rattle.claim_text.specs.declared.part.Part.{Part};
ghost use Rattle.claim_blocks.specs.Blocks.{FitsHead as FitsLines};
ghost use Rattle.claim_text.specs.Part.{here, counts_of, fill, line_claim, IsOnSubmodule, with_head, with_item};
ghost use Rattle.claim_text.specs.Steps.{Takes, FitsItem, item_line, FitsModule, FitsMap, FitsHead, FitsKind, FitsLast};

use crate::part::{Item, Owner, Part, Place};
use claim_blocks::Block;
use claim_lines::{Counts, Head, read_end, read_head};
use object_lines::{ModuleHead, read_map, read_module};
use report_types::{Claim, End, PartClaim};
use seq::Seq;
use std::alloc::{AllocError, Global};
use text_lines::{Parts, strict_tokens};

/// Whether the tokens of a line begin with this word.
fn begins_with(line: &[u8], word: &[u8]) -> bool
    requires { word.now ≢ [] }
    ensures { (ts : List (List ℕ)) → strict_tokens line.now ≡ Some ts → MatchBool result (slice_index_or ts 0 [] ≡ word.now) (¬ (slice_index_or ts 0 [] ≡ word.now)) }
{
    let Some(tokens) = strict_tokens(line) else {
        return false;
    };
    let mut tokens = tokens;
    tokens.take_word(word)
}

/// The claim of a kernel, a cokernel or a radical, which its first line says whole.
fn submodule_claim(head: Head) -> Claim
    requires { IsOnSubmodule head }
    ensures { result ≡ line_claim head }
{
    match head {
        Head::Kernel {
            kernel,
            f,
            inclusion,
        } => Claim::Kernel {
            kernel,
            f,
            inclusion,
        },
        Head::Cokernel {
            cokernel,
            f,
            projection,
        } => Claim::Cokernel {
            cokernel,
            f,
            projection,
        },
        Head::Radical {
            radical,
            a,
            inclusion,
        } => Claim::Radical {
            radical,
            a,
            inclusion,
        },
        _ => Claim::Module { module: 0 },
    }
}

/// The claim that its first line says whole; of another kind, that of module 0.
fn line_claim(head: Head) -> Claim
    ensures { result ≡ line_claim head }
{
    match head {
        Head::Module { module } => Claim::Module { module },
        Head::Map { map } => Claim::Map { map },
        Head::Kernel { .. } => submodule_claim(head),
        Head::Cokernel { .. } => submodule_claim(head),
        Head::Radical { .. } => submodule_claim(head),
        Head::Decomposition {
            a,
            sum,
            to,
            back,
            parts,
        } => Claim::Decomposition {
            a,
            sum,
            to,
            back,
            parts,
        },
        _ => Claim::Module { module: 0 },
    }
}

impl Part {
    /// Reads the first line of a module.
    fn read_module_line(
        &self,
        alloc: Global,
        tokens: Parts<'_>,
    ) -> Result<Option<ModuleHead>, AllocError>
        ensures { IfOk result (λ r. Reads (λ (m : ModuleView). FitsModule self.now m.side m.dims) (head_line ((counts_of self.now).modules + 1)) tokens.entry r) }
    {
        if self.records.is_empty() || !self.maps.is_empty() {
            return Ok(None);
        }
        let Some(count) = self.module_count() else {
            return Ok(None);
        };
        if count == u32::MAX {
            return Ok(None);
        }
        let Some(head) = read_module(alloc, self.front.header(), count + 1, tokens)? else {
            return Ok(None);
        };
        Ok(Some(head))
    }

    /// Reads the first line of a map.
    fn read_map_line(&self, tokens: Parts<'_>) -> Option<(u32, u32)>
        ensures { Reads (λ (x : ℕ × ℕ). FitsMap self.now x.0 x.1) (λ (x : ℕ × ℕ). map_line ((counts_of self.now).maps + 1) x.0 x.1) tokens.entry result }
    {
        if self.records.is_empty() {
            return None;
        }
        let Some(modules) = self.module_count() else {
            return None;
        };
        let Some(count) = self.map_count() else {
            return None;
        };
        if count == u32::MAX {
            return None;
        }
        let Some(ends) = read_map(count + 1, modules, tokens) else {
            return None;
        };
        Some(ends)
    }

    /// Whether each part names an earlier claim that its module is local.
    fn have_local_claims(&self, parts: &[PartClaim]) -> bool
        ensures { IsTrue result ↔ All (λ (x : PartView). IsLocalClaim (claim_of self.now.records x.local)) parts.now }
    {
        for part in parts {
            if !self.is_local_claim(part.local) {
                return false;
            }
        }
        true
    }

    /// Whether the claim with this number is one that a module is local.
    fn is_local_claim(&self, n: u32) -> bool
        ensures { IsTrue result ↔ IsLocalClaim (claim_of self.now.records n) }
    {
        match self.records.claim(n) {
            Some(Claim::Local { .. }) => true,
            _ => false,
        }
    }

    /// Whether the lines behind the first line of a claim may follow here: the claims that it names are of the kinds that it asks, and it is within the limits.
    fn may_begin(&self, alloc: Global, head: &Head) -> Result<bool, AllocError>
        ensures { IfOk result (λ b. IsTrue b ↔ ((0 < length self.now.records) × FitsLines self.now.front.header (here self.now) head.now)) }
    {
        if self.records.is_empty() {
            return Ok(false);
        }
        match Block::begin(alloc, &self.context(), head)? {
            Some(_begun) => Ok(true),
            None => Ok(false),
        }
    }

    /// Whether a claim of this kind may stand here, behind these objects, and the claims that it names are of the kinds that it asks.
    fn has_its_place(&self, alloc: Global, head: &Head) -> Result<bool, AllocError>
        ensures { IfOk result (λ b. IsTrue b ↔ FitsKind self.now head.now) }
    {
        match head {
            Head::Basis => {
                Ok(self.records.is_empty() && self.modules.is_empty() && self.maps.is_empty())
            }
            Head::Module { .. } => Ok(!self.records.is_empty()),
            Head::Map { .. } => Ok(!self.records.is_empty()),
            Head::Kernel { .. } => Ok(!self.records.is_empty()),
            Head::Cokernel { .. } => Ok(!self.records.is_empty()),
            Head::Radical { .. } => Ok(!self.records.is_empty()),
            Head::Decomposition { parts, .. } => {
                Ok(!self.records.is_empty() && self.have_local_claims(parts.as_slice()))
            }
            Head::Hom { .. } => self.may_begin(alloc, head),
            Head::Resolution { .. } => self.may_begin(alloc, head),
            Head::Ext { .. } => self.may_begin(alloc, head),
            Head::Local { .. } => self.may_begin(alloc, head),
            Head::Translate { .. } => self.may_begin(alloc, head),
            Head::AlmostSplit { .. } => self.may_begin(alloc, head),
        }
    }

    /// Reads the first line of a claim.
    fn read_claim_line(
        &self,
        alloc: Global,
        tokens: Parts<'_>,
    ) -> Result<Option<(u32, Head)>, AllocError>
        ensures { IfOk result (λ r. Reads (λ (x : ℕ × HeadView). FitsHead self.now x.0 x.1) (λ (x : ℕ × HeadView). claim_line (length self.now.records + 1) x.0 x.1) tokens.entry r) }
    {
        let Some(modules) = self.module_count() else {
            return Ok(None);
        };
        let Some(maps) = self.map_count() else {
            return Ok(None);
        };
        let earlier = self.records.len();
        if earlier >= u32::MAX as usize {
            return Ok(None);
        }
        let counts = Counts { modules, maps };
        let Some((line, head)) = read_head(alloc, earlier as u32, counts, tokens)? else {
            return Ok(None);
        };
        let stands = self.has_its_place(alloc, &head)?;
        if !stands {
            return Ok(None);
        }
        Ok(Some((line, head)))
    }

    /// Reads the last line.
    fn read_last_line(&self, alloc: Global, tokens: Parts<'_>) -> Result<Option<End>, AllocError>
        ensures { IfOk result (λ r. Reads (FitsLast self.now) (end_line self.now.front.header (length self.now.records)) tokens.entry r) }
    {
        let claims = self.records.len();
        if claims > u32::MAX as usize || !self.modules.is_empty() || !self.maps.is_empty() {
            return Ok(None);
        }
        let Some(end) = read_end(alloc, self.front.header(), claims as u32, tokens)? else {
            return Ok(None);
        };
        Ok(Some(end))
    }

    fn module_item(&self, alloc: Global, tokens: Parts<'_>) -> Result<Option<Item>, AllocError>
        requires { slice_index_or tokens 0 [] ≡ codes "module" }
        ensures { IfOk result (λ r. Reads (FitsItem self.now) (item_line self.now) tokens.entry r) }
    {
        let Some(head) = self.read_module_line(alloc, tokens)? else {
            return Ok(None);
        };
        Ok(Some(Item::Module {
            side: head.side,
            dims: head.dims,
        }))
    }

    fn map_item(&self, tokens: Parts<'_>) -> Option<Item>
        requires { slice_index_or tokens 0 [] ≡ codes "map" }
        ensures { Reads (FitsItem self.now) (item_line self.now) tokens.entry result }
    {
        let Some((source, target)) = self.read_map_line(tokens) else {
            return None;
        };
        Some(Item::Map { source, target })
    }

    fn claim_item(&self, alloc: Global, tokens: Parts<'_>) -> Result<Option<Item>, AllocError>
        requires { slice_index_or tokens 0 [] ≡ codes "claim" }
        ensures { IfOk result (λ r. Reads (FitsItem self.now) (item_line self.now) tokens.entry r) }
    {
        let Some((line, head)) = self.read_claim_line(alloc, tokens)? else {
            return Ok(None);
        };
        Ok(Some(Item::Claim { line, head }))
    }

    fn last_item(&self, alloc: Global, tokens: Parts<'_>) -> Result<Option<Item>, AllocError>
        requires module { ¬ (slice_index_or tokens 0 [] ≡ codes "module") }
        requires map { ¬ (slice_index_or tokens 0 [] ≡ codes "map") }
        requires claim { ¬ (slice_index_or tokens 0 [] ≡ codes "claim") }
        ensures { IfOk result (λ r. Reads (FitsItem self.now) (item_line self.now) tokens.entry r) }
    {
        let Some(end) = self.read_last_line(alloc, tokens)? else {
            return Ok(None);
        };
        Ok(Some(Item::End { end }))
    }

    /// Reads what stands between whole objects and claims.
    fn read_item(
        &self,
        alloc: Global,
        line: &[u8],
        tokens: Parts<'_>,
    ) -> Result<Option<Item>, AllocError>
        requires { strict_tokens line.now ≡ Some tokens }
        ensures { IfOk result (λ r. Reads (FitsItem self.now) (item_line self.now) tokens.entry r) }
    {
        if begins_with(line, b"module") {
            return self.module_item(alloc, tokens);
        }
        if begins_with(line, b"map") {
            return Ok(self.map_item(tokens));
        }
        if begins_with(line, b"claim") {
            return self.claim_item(alloc, tokens);
        }
        self.last_item(alloc, tokens)
    }

    /// What is read with the first line of a claim.
    fn set_head(&mut self, alloc: Global, line: u32, head: Head) -> Result<(), AllocError>
        requires { FitsHead self.old line head }
        ensures { OnOk result (self.new ≡ with_head self.old line head) }
    {
        match head {
            Head::Basis => {
                self.place = Place::WordCount;
                self.line = line;
                Ok(())
            }
            Head::Module { .. } => self.close_claim(alloc, line, line_claim(head)),
            Head::Map { .. } => self.close_claim(alloc, line, line_claim(head)),
            Head::Kernel { .. } => self.close_claim(alloc, line, line_claim(head)),
            Head::Cokernel { .. } => self.close_claim(alloc, line, line_claim(head)),
            Head::Radical { .. } => self.close_claim(alloc, line, line_claim(head)),
            Head::Decomposition { .. } => self.close_claim(alloc, line, line_claim(head)),
            Head::Hom { .. } => self.begin_block(alloc, line, &head),
            Head::Resolution { .. } => self.begin_block(alloc, line, &head),
            Head::Ext { .. } => self.begin_block(alloc, line, &head),
            Head::Local { .. } => self.begin_block(alloc, line, &head),
            Head::Translate { .. } => self.begin_block(alloc, line, &head),
            Head::AlmostSplit { .. } => self.begin_block(alloc, line, &head),
        }
    }

    /// What is read with a module whose matrices follow, or with a map.
    fn set_owner(&mut self, alloc: Global, owner: Owner) -> Result<(), AllocError>
        ensures { OnOk result (self.new ≡ fill (record self.old { matrices = [] }) owner) }
    {
        self.matrices = Seq::new(alloc);
        self.fill(alloc, owner)?;
        Ok(())
    }

    /// What is read with one of them.
    fn set_item(&mut self, alloc: Global, item: Item) -> Result<(), AllocError>
        requires { FitsItem self.old item }
        ensures { OnOk result (self.new ≡ with_item self.old item) }
    {
        match item {
            Item::Module { side, dims } => {
                self.dims = dims;
                self.set_owner(alloc, Owner::Module { side })
            }
            Item::Map { source, target } => self.set_owner(alloc, Owner::Map { source, target }),
            Item::Claim { line, head } => self.set_head(alloc, line, head),
            Item::End { end } => {
                self.place = Place::Ended;
                self.end = end;
                Ok(())
            }
        }
    }

    /// Reads what stands between whole objects and claims, if it may follow.
    pub(crate) fn take_item(
        &mut self,
        alloc: Global,
        line: &[u8],
        tokens: Parts<'_>,
    ) -> Result<bool, AllocError>
        requires { strict_tokens line.now ≡ Some tokens }
        ensures { IfOk result (λ taken. MatchBool taken (Takes (FitsItem self.old) (item_line self.old) (with_item self.old) tokens.entry self.new)
            ((next : Part) → ¬ Takes (FitsItem self.old) (item_line self.old) (with_item self.old) tokens.entry next)) }
    {
        let _header = self.front.header();
        let Some(item) = self.read_item(alloc, line, tokens)? else {
            return Ok(false);
        };
        self.set_item(alloc, item)?;
        Ok(true)
    }
}
