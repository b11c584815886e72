//! Reading one line more.
ghost use Rattle.std.specs.Prelude.{ℕ, ◌≡◌, ◌<◌, ◌≤◌, ◌+◌, ◌^◌, ◌∷◌, [], List, length, codes, decimal, Some, IfOk, OnOk, MatchBool, MatchOption};
ghost use Rattle.text_lines.specs.Strict.{strict_tokens};
ghost use Rattle.header_text.specs.Reading.{Reads};
ghost use Rattle.report_types.specs.Limits.{path_limit};
ghost use Rattle.report_types.specs.Numbers.{modules_of, maps_of};
ghost use Rattle.report_types.specs.declared.claims.Claim.TheVariants as Said;
ghost use Rattle.claim_text.specs.declared.part.Part.{Part};
ghost use Rattle.claim_lines.specs.Spelling.{words_line, steps_line, rules_line, word_line, step_line, rule_line};
ghost use Rattle.claim_lines.specs.Items.{IsCount, FitsWord, FitsStep, FitsRule};
ghost use Rattle.claim_text.specs.Part.{words_place, steps_place, claimed, at_rules, with_word_count, with_word, with_step_count, with_step, with_rule_count, with_rule};
ghost use Rattle.claim_text.specs.Steps.{Takes, TakesTitle, TakesFirst, FitsItem, item_line, TokenStep, lexed_begins, LexedStep, FrontStep, is_header_line, Step};

use crate::part::{Part, Place};
use claim_lines::{Words, only_count, read_rule, read_step, read_word};
use header_text::only_number;
use report_types::{Claim, Record};
use seq::Seq;
use std::alloc::{AllocError, Global};
use std::mem;
use text_lines::{LineReader, Parts, strict_tokens};

fn words_place(n: u64, k: usize) -> Place
    ensures { result ≡ words_place n k }
{
    if k as u64 == n {
        Place::StepCount
    } else {
        Place::Words(n)
    }
}

fn steps_place(n: u64, k: usize) -> Place
    ensures { result ≡ steps_place n k }
{
    if k as u64 == n {
        Place::RuleCount
    } else {
        Place::Steps(n)
    }
}

impl Part {
    fn take_title(&mut self, tokens: Parts<'_>) -> bool
        ensures { MatchBool result (TakesTitle self.old tokens.entry self.new) ((next : Part) → ¬ TakesTitle self.old tokens.entry next) }
    {
        let mut tokens = tokens;
        if !tokens.take_word(b"report") || !tokens.take_word(b"1") || !tokens.is_done() {
            return false;
        }
        self.place = Place::Header;
        true
    }

    fn take_word_count(&mut self, tokens: Parts<'_>) -> bool
        ensures { MatchBool result (Takes (λ (n : ℕ). n ≤ path_limit) (λ (n : ℕ). words_line (decimal n)) (with_word_count self.old) tokens.entry self.new)
            ((next : Part) → ¬ Takes (λ (n : ℕ). n ≤ path_limit) (λ (n : ℕ). words_line (decimal n)) (with_word_count self.old) tokens.entry next) }
    {
        let mut tokens = tokens;
        if !tokens.take_word(b"words") {
            return false;
        }
        let Some(n) = only_number(tokens, 4096) else {
            return false;
        };
        self.place = words_place(n, self.words.len());
        true
    }

    fn take_word(&mut self, alloc: Global, n: u64, tokens: Parts<'_>) -> Result<bool, AllocError>
        ensures { IfOk result (λ taken. MatchBool taken (Takes (FitsWord self.old.front.header self.old.words) (word_line self.old.front.header.quiver) (with_word self.old n) tokens.entry self.new)
            ((next : Part) → ¬ Takes (FitsWord self.old.front.header self.old.words) (word_line self.old.front.header.quiver) (with_word self.old n) tokens.entry next)) }
    {
        let header = self.front.header();
        let Some(word) = read_word(alloc, header, &self.words, tokens)? else {
            return Ok(false);
        };
        self.words.push(word)?;
        self.place = words_place(n, self.words.len());
        Ok(true)
    }

    fn take_step_count(&mut self, tokens: Parts<'_>) -> bool
        ensures { MatchBool result (Takes IsCount steps_line (with_step_count self.old) tokens.entry self.new) ((next : Part) → ¬ Takes IsCount steps_line (with_step_count self.old) tokens.entry next) }
    {
        let mut tokens = tokens;
        if !tokens.take_word(b"steps") {
            return false;
        }
        let Some(n) = only_count(tokens) else {
            return false;
        };
        self.place = steps_place(n, self.steps.len());
        true
    }

    fn take_step(&mut self, n: u64, tokens: Parts<'_>) -> Result<bool, AllocError>
        ensures { IfOk result (λ taken. MatchBool taken (Takes (FitsStep self.old.front.header (length self.old.steps)) (step_line self.old.front.header.quiver (length self.old.steps + 1)) (with_step self.old n) tokens.entry self.new)
            ((next : Part) → ¬ Takes (FitsStep self.old.front.header (length self.old.steps)) (step_line self.old.front.header.quiver (length self.old.steps + 1)) (with_step self.old n) tokens.entry next)) }
    {
        let header = self.front.header();
        let Some(step) = read_step(header, self.steps.len(), tokens) else {
            return Ok(false);
        };
        self.steps.push(step)?;
        self.place = steps_place(n, self.steps.len());
        Ok(true)
    }

    /// Makes a record of a claim and of the objects that were read before it.
    pub(crate) fn close_claim(
        &mut self,
        alloc: Global,
        line: u32,
        claim: Claim,
    ) -> Result<(), AllocError>
        requires modules { length (modules_of self.old.records) + length self.old.modules < 2 ^ 32 }
        requires maps { length (maps_of self.old.records) + length self.old.maps < 2 ^ 32 }
        ensures { OnOk result (self.new ≡ claimed self.old line claim) }
    {
        let added = Record {
            line,
            modules: mem::replace(&mut self.modules, Seq::new(alloc)),
            maps: mem::replace(&mut self.maps, Seq::new(alloc)),
            claim,
        };
        self.records.push(added)?;
        self.place = Place::Between;
        self.line = 0;
        self.words = Words::new(alloc);
        self.steps = Seq::new(alloc);
        self.rules = Seq::new(alloc);
        self.block = None;
        Ok(())
    }

    /// Makes a record of the basis.
    fn close_basis(&mut self, alloc: Global) -> Result<(), AllocError>
        ensures { OnOk result (self.new ≡ claimed (record self.old { modules = []; maps = [] }) self.old.line (Said.Basis self.old.words self.old.steps self.old.rules)) }
    {
        // There are fewer than 2^32 of each.
        let _modules = self.records.module_count();
        let _maps = self.records.map_count();
        let words = mem::replace(&mut self.words, Words::new(alloc));
        let steps = mem::replace(&mut self.steps, Seq::new(alloc));
        let rules = mem::replace(&mut self.rules, Seq::new(alloc));
        self.modules = Seq::new(alloc);
        self.maps = Seq::new(alloc);
        let basis = Claim::Basis {
            words: words.into_paths(),
            steps,
            rules,
        };
        self.close_claim(alloc, self.line, basis)?;
        Ok(())
    }

    /// Where the rules are n, makes a record of the basis.
    fn set_rules(&mut self, alloc: Global, n: u64) -> Result<(), AllocError>
        ensures { OnOk result (self.new ≡ at_rules self.old n) }
    {
        if self.rules.len() as u64 == n {
            self.close_basis(alloc)?;
            return Ok(());
        }
        self.place = Place::Rules(n);
        Ok(())
    }

    fn take_rule_count(&mut self, alloc: Global, tokens: Parts<'_>) -> Result<bool, AllocError>
        ensures { IfOk result (λ taken. MatchBool taken (Takes IsCount rules_line (with_rule_count self.old) tokens.entry self.new) ((next : Part) → ¬ Takes IsCount rules_line (with_rule_count self.old) tokens.entry next)) }
    {
        let mut tokens = tokens;
        if !tokens.take_word(b"rules") {
            return Ok(false);
        }
        let Some(n) = only_count(tokens) else {
            return Ok(false);
        };
        self.set_rules(alloc, n)?;
        Ok(true)
    }

    fn take_rule(&mut self, alloc: Global, n: u64, tokens: Parts<'_>) -> Result<bool, AllocError>
        ensures { IfOk result (λ taken. MatchBool taken (Takes (FitsRule self.old.front.header (length self.old.steps) (length self.old.rules)) (rule_line self.old.front.header.quiver) (with_rule self.old n) tokens.entry self.new)
            ((next : Part) → ¬ Takes (FitsRule self.old.front.header (length self.old.steps) (length self.old.rules)) (rule_line self.old.front.header.quiver) (with_rule self.old n) tokens.entry next)) }
    {
        let header = self.front.header();
        let Some(rule) = read_rule(alloc, header, self.steps.len(), self.rules.len(), tokens)?
        else {
            return Ok(false);
        };
        self.rules.push(rule)?;
        self.set_rules(alloc, n)?;
        Ok(true)
    }

    /// The first line behind the header.
    fn take_first(
        &mut self,
        alloc: Global,
        line: &[u8],
        tokens: Parts<'_>,
    ) -> Result<bool, AllocError>
        requires { strict_tokens line.now ≡ Some tokens }
        ensures { IfOk result (λ taken. MatchBool taken (TakesFirst self.old tokens.entry self.new) ((next : Part) → ¬ TakesFirst self.old tokens.entry next)) }
    {
        if !self.front.may_end() {
            return Ok(false);
        }
        let taken = self.take_item(alloc, line, tokens)?;
        Ok(taken)
    }

    /// Reads one line more, given by its tokens, if it may follow.
    fn take_tokens(
        &mut self,
        alloc: Global,
        line: &[u8],
        tokens: Parts<'_>,
    ) -> Result<bool, AllocError>
        requires { strict_tokens line.now ≡ Some tokens }
        ensures { IfOk result (λ taken. MatchBool taken (TokenStep self.old.place self.old tokens.entry self.new) ((next : Part) → ¬ TokenStep self.old.place self.old tokens.entry next)) }
    {
        match self.place {
            Place::Title => Ok(self.take_title(tokens)),
            Place::Header => self.take_first(alloc, line, tokens),
            Place::WordCount => Ok(self.take_word_count(tokens)),
            Place::Words(n) => self.take_word(alloc, n, tokens),
            Place::StepCount => Ok(self.take_step_count(tokens)),
            Place::Steps(n) => self.take_step(n, tokens),
            Place::RuleCount => self.take_rule_count(alloc, tokens),
            Place::Rules(n) => self.take_rule(alloc, n, tokens),
            Place::Between => self.take_item(alloc, line, tokens),
            Place::Matrices(owner) => self.take_matrix(alloc, owner, tokens),
            Place::Block => self.take_block(alloc, tokens),
            Place::Ended => Ok(false),
        }
    }

    fn take_lexed(&mut self, alloc: Global, line: &[u8]) -> Result<bool, AllocError>
        ensures { IfOk result (λ taken. MatchBool taken (LexedStep self.old line.now self.new) ((next : Part) → ¬ LexedStep self.old line.now next)) }
    {
        let Some(tokens) = strict_tokens(line) else {
            return Ok(false);
        };
        self.take_tokens(alloc, line, tokens)
    }

    fn take_front(&mut self, line: &[u8]) -> Result<bool, AllocError>
        ensures { IfOk result (λ taken. MatchBool taken (FrontStep self.old line.now self.new) ((next : Part) → ¬ FrontStep self.old line.now next)) }
    {
        let taken = self.front.take_line(line)?;
        if !taken {
            return Ok(false);
        }
        Ok(true)
    }

    /// Reads one line more, if it may follow.
    pub(crate) fn take(&mut self, alloc: Global, line: &[u8]) -> Result<bool, AllocError>
        ensures { IfOk result (λ taken. MatchBool taken (Step self.old line.now self.new) ((next : Part) → ¬ Step self.old line.now next)) }
    {
        if is_header_line(self.place, line) {
            self.take_front(line)
        } else {
            self.take_lexed(alloc, line)
        }
    }
}

/// Whether the line begins with `claim` or `refused`.
fn begins_body(line: &[u8]) -> bool
    ensures { result ≡ lexed_begins (strict_tokens line.now) }
{
    let Some(tokens) = strict_tokens(line) else {
        return false;
    };
    let mut tokens = tokens;
    match tokens.next_part() {
        Some(word) => word == b"claim".as_slice() || word == b"refused".as_slice(),
        None => false,
    }
}

/// Whether the line is to be one of the header's.
fn is_header_line(place: Place, line: &[u8]) -> bool
    ensures { result ≡ is_header_line place line.now }
{
    match place {
        Place::Header => !begins_body(line),
        _ => false,
    }
}
