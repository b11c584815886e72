//! Records in their order, with their modules, maps and claims by number.
ghost use Rattle.std.specs.Prelude.{◌≡◌, ℕ, ◌+◌, ◌<◌, ◌≤◌, ◌^◌, ◌++◌, ◌∷◌, [], ◌⊎◌, None, Some, List, length, take, slice_index, MatchOption, IsTrue, ◌↔◌, is_ok, if◌then◌else◌};
ghost use Rattle.std.specs.List.Sorted.{IsNonDecreasing};
ghost use Rattle.report_types.specs.Numbers.{modules_of, maps_of, module_of, map_of, claim_of, record_of, NamesModule, NamesMap};
ghost use Rattle.path_algebra.specs.Derivations.{IsNumber};
ghost use Rattle.report_types.specs.Places.{reached, IsPlace};

use super::claims::{Claim, Record};
use module_types::{Map, Module};
use seq::Seq;
use std::alloc::{AllocError, Global};
use std::marker::Model;

/// Records in their order. Contracts see the list of them. Modules, maps and claims are numbered from 1 through the records, and each is found by its
/// number without a walk.
#[derive(Drop)]
pub struct Records {
    list: Seq<Record>,
    module_ends: Vec<u32>,
    map_ends: Vec<u32>,
}

impl Model for Records {
    ghost use Rattle.std.specs.Prelude.{List};
    ghost use Rattle.report_types.specs.declared.claims.Record.{Record};
    ghost use Rattle.report_types.specs.Places.{AreCounted};

    ghost Value = { List Record };

    ghost view = { λ r. r.list };

    ghost invariant = { λ r. AreCounted r.list r.module_ends.items r.map_ends.items };
}

/// How many stand before record i, by the numbers that stand up to each.
fn before(ends: &[u32], i: usize) -> u32
    requires { i ≤ length ends.now }
    ensures { result ≡ reached ends.now i }
{
    if i == 0 { 0 } else { ends[i - 1] }
}

/// The first record up to which at least n stand.
fn first_end(ends: &[u32], n: u32) -> usize
    requires { IsNonDecreasing ends.now }
    ensures bound { result ≤ length ends.now }
    ensures below { (k : ℕ) → k < result → slice_index ends.now k < n }
    ensures from { (k : ℕ) → result ≤ k → k < length ends.now → n ≤ slice_index ends.now k }
{
    ends.partition_point(|end| *end < n)
}

/// Where number n stands, counted from 1: the place of its record, and its own place in it.
fn find(ends: &[u32], n: u32) -> Option<(usize, usize)>
    requires { IsNonDecreasing ends.now }
    ensures { MatchOption result ((n ≡ 0) ⊎ ((k : ℕ) → k < length ends.now → slice_index ends.now k < n)) (λ x. IsPlace ends.now n x.0 x.1) }
{
    if n == 0 {
        return None;
    }
    let i = first_end(ends, n);
    if i == ends.len() {
        return None;
    }
    Some((i, (n - 1 - before(ends, i)) as usize))
}

/// Keeps the first `count` numbers, and adds one that is greater than the last by `more`.
fn push_end(ends: &mut Vec<u32>, count: usize, more: usize) -> Result<(), AllocError>
    requires enough { count ≤ length ends.old.items }
    requires room { reached ends.old.items count + more < 2 ^ 32 }
    ensures { ends.new.items ≡ take count ends.old.items ++ (if is_ok result then (reached ends.old.items count + more) ∷ [] else []) }
{
    let last = before(ends.as_slice(), count);
    ends.truncate(count);
    ends.push(last + more as u32)?;
    Ok(())
}

impl Records {
    /// No records. It takes no memory.
    pub fn new(alloc: Global) -> Records
        ensures { result ≡ [] }
    {
        Records {
            list: Seq::new(alloc),
            module_ends: Vec::new(alloc),
            map_ends: Vec::new(alloc),
        }
    }

    /// Adds a record behind the others. Where there is no memory for it, the records stay as they were.
    pub fn push(&mut self, added: Record) -> Result<(), AllocError>
        requires modules { length (modules_of self.old) + length added.modules < 2 ^ 32 }
        requires maps { length (maps_of self.old) + length added.maps < 2 ^ 32 }
        ensures { self.new ≡ (if is_ok result then self.old ++ added ∷ [] else self.old) }
    {
        let count = self.list.len();
        push_end(&mut self.module_ends, count, added.modules.len())?;
        push_end(&mut self.map_ends, count, added.maps.len())?;
        self.list.push(added)?;
        Ok(())
    }

    /// How many records there are.
    pub fn len(&self) -> usize
        ensures { result ≡ length self.now }
    {
        self.list.len()
    }

    /// Whether there is no record.
    pub fn is_empty(&self) -> bool
        ensures { IsTrue result ↔ (self.now ≡ []) }
    {
        self.list.is_empty()
    }

    /// The records, lent.
    pub fn as_slice(&self) -> &[Record]
        ensures { result.now ≡ self.now }
    {
        self.list.as_slice()
    }

    /// The records as a sequence.
    pub fn into_list(self) -> Seq<Record>
        ensures { result ≡ self }
    {
        self.list
    }

    /// How many modules there are in all records.
    pub fn module_count(&self) -> u32
        ensures { result ≡ length (modules_of self.now) }
    {
        before(self.module_ends.as_slice(), self.list.len())
    }

    /// How many maps there are in all records.
    pub fn map_count(&self) -> u32
        ensures { result ≡ length (maps_of self.now) }
    {
        before(self.map_ends.as_slice(), self.list.len())
    }

    /// The module with this number; none where no module has it.
    pub fn module(&self, n: u32) -> Option<&Module>
        ensures { MatchOption result (¬ NamesModule self.now n) (λ m. NamesModule self.now n × (m.now ≡ module_of self.now n)) }
    {
        let Some((i, j)) = find(&self.module_ends[..self.list.len()], n) else {
            return None;
        };
        Some(&self.list[i].modules[j])
    }

    /// The map with this number; none where no map has it.
    pub fn map(&self, n: u32) -> Option<&Map>
        ensures { MatchOption result (¬ NamesMap self.now n) (λ m. NamesMap self.now n × (m.now ≡ map_of self.now n)) }
    {
        let Some((i, j)) = find(&self.map_ends[..self.list.len()], n) else {
            return None;
        };
        Some(&self.list[i].maps[j])
    }

    /// The record of the claim with this number; none where no claim has it.
    pub fn record_at(&self, n: u32) -> Option<&Record>
        ensures { MatchOption result (¬ IsNumber (length self.now) n) (λ r. IsNumber (length self.now) n × (record_of self.now n ≡ Some r.now)) }
    {
        if n == 0 || n as usize > self.list.len() {
            return None;
        }
        Some(&self.list[n as usize - 1])
    }

    /// The claim with this number; none where no claim has it.
    pub fn claim(&self, n: u32) -> Option<&Claim>
        ensures { MatchOption result (¬ IsNumber (length self.now) n) (λ c. IsNumber (length self.now) n × (c.now ≡ claim_of self.now n)) }
    {
        let Some(found) = self.record_at(n) else {
            return None;
        };
        Some(&found.claim)
    }
}
