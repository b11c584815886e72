//! Lists of distinct names in which a name's place is looked up, and references to what a script names.
ghost use Rattle.std.specs.Prelude.{◌≡◌, ◌≢◌, ◌-◌, ◌^◌, ◌<◌, ◌↔◌, ◌++◌, ◌∷◌, [], length, IfOk, OnErr, IfSome, IfNone, IsTrue, Contains, AllPairs, slice_get, Some, if◌then◌else◌};

use super::Name;
use indexmap::IndexSet;
use std::alloc::{AllocError, Global};
use std::marker::Model;

/// Distinct names, in the order in which they were added. Contracts see the list of them.
#[derive(Drop)]
pub struct Names {
    set: IndexSet<Name>,
}

impl Model for Names {
    ghost use Rattle.std.specs.Prelude.{ℕ, List, ◌<◌, ◌^◌, ◌≢◌, length, AllPairs};

    ghost Value = { List (List ℕ) };

    ghost view = { λ n. n.set.keys };

    ghost invariant = { λ n. (length n.set.keys < 2 ^ 32) × AllPairs (λ a b. a ≢ b) n.set.keys };
}

impl Names {
    /// No names. Takes no memory; `add` takes it from this allocator.
    pub fn new(alloc: Global) -> Names
        ensures { result ≡ [] }
    {
        Names {
            set: IndexSet::new(alloc),
        }
    }

    /// Adds the name at the end, where it is not in the list yet, and answers whether it was added.
    pub fn add(&mut self, name: Name) -> Result<bool, AllocError>
        requires { length self.old < 2 ^ 32 - 1 }
        ensures added { IfOk result (λ is_new. IsTrue is_new ↔ ¬ Contains self.old name) }
        ensures names { IfOk result (λ is_new. self.new ≡ (if is_new then self.old ++ name ∷ [] else self.old)) }
        ensures err { OnErr result (self.new ≡ self.old) }
    {
        Ok(self.set.insert(name)?)
    }

    /// The place of the name in the list, counted from 0; none where it is not in the list.
    pub fn place(&self, name: &Name) -> Option<u32>
        ensures found { IfSome result (λ i. slice_get self.now i ≡ Some name.now) }
        ensures none { IfNone result (¬ Contains self.now name.now) }
        ensures distinct { AllPairs (λ a b. a ≢ b) self.now }
        ensures count { length self.now < 2 ^ 32 }
    {
        let i = self.set.get_index_of(name)?;
        Some(i as u32)
    }
}

/// Which of the values of a statement a reference means: the one of the name itself, its map, the inverse map, or a
/// part, counted from 1.
#[derive(Clone, Copy, Debug, Drop, PartialEq, Eq)]
pub enum Suffix {
    Whole,
    Map,
    Inv,
    Part(u32),
}

/// A name of a script, and which of its values is meant.
#[derive(Clone, Debug, Drop, PartialEq, Eq)]
pub struct Reference {
    pub name: Name,
    pub suffix: Suffix,
}
