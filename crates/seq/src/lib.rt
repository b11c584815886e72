//! A growing sequence that contracts see as the list of its items, however it is stored.
#![tactic(auto)]

ghost use Rattle.std.specs.Prelude.{◌≡◌, ℕ, ◌<◌, ◌^◌, List, [], ◌∷◌, ◌++◌, length, slice_index_or, vec_len, if◌then◌else◌, is_ok, IsTrue, ◌↔◌};
ghost use Rattle.std.specs.List.{AllZip};
ghost use Rattle.std.specs.Cmp.Lexicographic.{pointwise, lists_per, lists_equiv};
ghost use Rattle.std.specs.Iterator.Runs.{EveryRun, ItemsMapTo};
ghost use Rattle.std.specs.Slice.Iter.{iter_rest, iter_steps};

use std::alloc::{AllocError, Global};
use std::marker::Model;
use std::ops::{DerefSlice, Index};
use std::{fmt, slice};

/// A sequence of items in order.
#[derive(Drop)]
pub struct Seq<T> {
    items: Vec<T>,
}

impl<T> Model for Seq<T> {
    ghost use Rattle.std.specs.Prelude.{List};

    ghost Value = { List T };

    ghost view = { λ s. s.items.items };
}

impl<T> Seq<T> {
    /// The empty sequence. It takes no memory.
    pub fn new(alloc: Global) -> Self
        ensures { result ≡ [] }
    {
        Seq {
            items: Vec::new(alloc),
        }
    }

    /// The items of the vector, in their order. It takes no memory.
    pub fn from_vec(items: Vec<T>) -> Self
        ensures { result ≡ items.items }
    {
        Seq { items }
    }

    /// The vector of the items. It takes no memory.
    pub fn into_vec(self) -> Vec<T>
        ensures { result.items ≡ self }
    {
        self.items
    }

    /// The items, lent.
    pub fn as_slice(&self) -> &[T]
        ensures { result.now ≡ self.now }
    {
        self.items.as_slice()
    }

    /// How many items there are.
    pub fn len(&self) -> usize
        ensures { result ≡ length self.now }
    {
        self.items.len()
    }

    /// Whether there is no item.
    pub fn is_empty(&self) -> bool
        ensures { IsTrue result ↔ (self.now ≡ []) }
    {
        self.items.is_empty()
    }

    /// Adds an item behind the others. Where there is no memory for it, the sequence stays as it was.
    pub fn push(&mut self, item: T) -> Result<(), AllocError>
    where
        T: Drop,
        ensures { self.new ≡ (if is_ok result then self.old ++ item ∷ [] else self.old) }
    {
        self.items.push(item)?;
        Ok(())
    }
}

impl<T> DerefSlice for Seq<T> {
    type Elem = T;

    ghost deref_gives = { λ s xs. xs ≡ s };

    fn deref(&self) -> &[T] {
        self.items.as_slice()
    }
}

impl<T> Index<usize> for Seq<T> {
    type Output = T;

    ghost can_index = { λ s i. i < length s };

    ghost index_gives = { λ s i x. x ≡ slice_index_or s i x };

    fn index(&self, index: usize) -> &T {
        &self.items[index]
    }
}

impl<'a, T> IntoIterator for &'a Seq<T> {
    type Item = &'a T;

    type IntoIter = slice::Iter<'a, T>;

    ghost into_iter_gives = { λ s it. (iter_rest it ≡ s.now) × (length (iter_rest it) < 2 ^ 64)
        × EveryRun (iter_steps {A = T}) (λ p. ItemsMapTo p (λ x. x.now) (iter_rest p.from)) };

    fn into_iter(self) -> slice::Iter<'a, T> {
        self.items.as_slice().iter()
    }
}

impl<T: Clone> Clone for Seq<T> {
    ghost is_clone = { λ s copy. AllZip T.is_clone s copy };

    fn clone(&self) -> Result<Self, AllocError> {
        let items = self.items.clone()?;
        Ok(Seq { items })
    }
}

impl<T: PartialEq> PartialEq for Seq<T> {
    ghost eq = { λ s t. pointwise T.eq s t };

    ghost laws = { lists_per T.laws };

    fn eq(&self, other: &Self) -> bool {
        self.items == other.items
    }
}

impl<T: Eq> Eq for Seq<T> {
    ghost laws = { lists_equiv T.Eq.laws };
}

impl<T: fmt::Debug> fmt::Debug for Seq<T> {
    fn fmt<W: fmt::Write>(&self, f: &mut fmt::Formatter<W>) -> fmt::Result {
        fmt::Debug::fmt(&self.items, f)
    }
}

#[cfg(test)]
mod tests {
    use super::*;
    use std::test::Fail;

    fn crosses<T: Send + Sync>(_value: &T) {}

    fn letters(alloc: Global, text: &[u8]) -> Result<Seq<u8>, AllocError> {
        Ok(Seq::from_vec(Vec::from_slice(alloc, text)?))
    }

    #[test]
    fn grows_and_reads(rt: HostRuntime) -> Result<(), Fail> {
        let mut s: Seq<u8> = Seq::new(rt.alloc());
        assert!(rt; s.is_empty());
        s.push(7)?;
        s.push(9)?;
        assert!(rt; !s.is_empty());
        assert_eq!(rt; s.len(), 2);
        assert_eq!(rt; s[1], 9);
        assert_eq!(rt; s.as_slice(), [7, 9].as_slice());
        assert_eq!(rt; s.iter().copied().max(), Some(9));
        let mut last = 0;
        for item in &s {
            last = *item;
        }
        assert_eq!(rt; last, 9);
        let items = s.into_vec();
        assert_eq!(rt; items.as_slice(), [7, 9].as_slice());
        Ok(())
    }

    #[test]
    fn nests(rt: HostRuntime) -> Result<(), Fail> {
        let mut words: Seq<Seq<u8>> = Seq::new(rt.alloc());
        words.push(letters(rt.alloc(), b"ab")?)?;
        words.push(letters(rt.alloc(), b"")?)?;
        assert_eq!(rt; words.len(), 2);
        assert_eq!(rt; words[0].len(), 2);
        assert_eq!(rt; words[0][1], b'b');
        let copy = words.clone()?;
        assert!(rt; copy == words);
        words.push(letters(rt.alloc(), b"c")?)?;
        assert!(rt; copy != words);
        assert_eq!(rt;
            format!(in rt.alloc(); "{copy:?}")?.as_str(),
            "[[97, 98], []]"
        );
        crosses(&copy);
        Ok(())
    }
}
