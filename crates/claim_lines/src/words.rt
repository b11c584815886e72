//! The words of a report as they are read.
ghost use Rattle.std.specs.Prelude.{◌≡◌, ◌≢◌, ◌++◌, ◌∷◌, [], ◌↔◌, List, length, All, IsTrue, is_ok, if◌then◌else◌};
ghost use Rattle.quiver_paths.specs.declared.Path.{Path};
ghost use Rattle.claim_lines.specs.Behind.{IsBehind};

use quiver_paths::{Path, compare};
use seq::Seq;
use std::alloc::{AllocError, Global};
use std::cmp::Ordering;
use std::marker::Model;

/// Words, one behind the other, and whether they are known to ascend. Contracts see the list of the words.
#[derive(Drop)]
pub struct Words {
    paths: Seq<Path>,
    ascending: bool,
}

impl Model for Words {
    ghost use Rattle.std.specs.Prelude.{List, IsTrue};
    ghost use Rattle.quiver_paths.specs.declared.Path.{Path};
    ghost use Rattle.quiver_paths.specs.PathOrder.{IsAscending};

    ghost Value = { List Path };

    ghost view = { λ w. w.paths };

    ghost invariant = { λ w. IsTrue w.ascending → IsAscending w.paths };
}

impl Words {
    /// No words.
    pub fn new(alloc: Global) -> Words
        ensures { result ≡ [] }
    {
        Words {
            paths: Seq::new(alloc),
            ascending: true,
        }
    }

    /// How many there are.
    pub fn len(&self) -> usize
        ensures { result ≡ length self.now }
    {
        self.paths.len()
    }

    /// Adds a word. Where there is no memory for it, the words stay as they were.
    pub fn push(&mut self, word: Path) -> Result<(), AllocError>
        ensures { self.new ≡ (if is_ok result then self.old ++ word ∷ [] else self.old) }
    {
        let ascending = self.is_below(&word);
        self.paths.push(word)?;
        self.ascending = ascending;
        Ok(())
    }

    /// The words as a sequence.
    pub fn into_paths(self) -> Seq<Path>
        ensures { result ≡ self }
    {
        self.paths
    }

    /// Whether no word is the path. Where the words ascend and the path is greater than the last, none is compared but this.
    pub(crate) fn lack(&self, path: &Path) -> bool
        ensures { IsTrue result ↔ All (λ (other : Path). other ≢ path.now) self.now }
    {
        self.is_below(path) || is_none_of(self.paths.as_slice(), path)
    }

    // Whether the words ascend and the path is greater than the last.
    fn is_below(&self, path: &Path) -> bool
        ensures { IsTrue result → IsBehind self.now path.now }
    {
        if !self.ascending {
            return false;
        }
        let count = self.paths.len();
        if count == 0 {
            return true;
        }
        matches!(compare(&self.paths[count - 1], path), Ordering::Less)
    }
}

/// Whether none of the paths is this one.
fn is_none_of(paths: &[Path], path: &Path) -> bool
    ensures { IsTrue result ↔ All (λ (other : Path). other ≢ path.now) paths.now }
{
    for other in paths {
        if other == path {
            return false;
        }
    }
    true
}
