//! Names of vertices and arrows.
ghost use Rattle.std.specs.Prelude.{◌≡◌, IsSome, IfSome, IsTrue, ◌↔◌, ◌≤◌, nat_eq, length, take};
ghost use Rattle.std.specs.Cmp.{partial_equiv_from_equiv};
ghost use Rattle.std.specs.Cmp.Lexicographic.{pointwise, nat_list_eq_equiv, bytes_decides};
ghost use Rattle.std.specs.Hash as fed;
ghost use Rattle.std.proofs.Common.{ap};
ghost use Rattle.quiver_paths.specs.Name.{IsName, is_name_byte};

use std::alloc::AllocError;
use std::fmt;
use std::hash::{Hash, Hasher};
use std::marker::Model;

const LIMIT: usize = 16;

/// A name: 1 to 16 ASCII letters, digits and underscores.
#[derive(Drop)]
pub struct Name {
    bytes: [u8; 16],
    len: u8,
}

impl Model for Name {
    ghost use Rattle.std.specs.Prelude.{ℕ, List, take, ◌≤◌};

    ghost Value = { List ℕ };

    ghost use Rattle.quiver_paths.specs.Name.{IsName};

    ghost view = { λ a. take a.len a.bytes };

    ghost invariant = { λ a. (a.len ≤ 16) × IsName (take a.len a.bytes) };
}

impl Name {
    /// The name with these bytes; none where they are not 1 to 16 letters, digits and underscores.
    pub fn of(bytes: &[u8]) -> Option<Name>
        ensures named { IsSome result ↔ IsName bytes.now }
        ensures value { IfSome result (λ name. name ≡ bytes.now) }
    {
        if !is_name(bytes) {
            return None;
        }
        Some(Name {
            bytes: padded(bytes),
            len: bytes.len() as u8,
        })
    }

    /// The bytes of the name.
    pub fn text(&self) -> &[u8]
        ensures bytes { result.now ≡ self.now }
        ensures name { IsName self.now }
    {
        &self.bytes[..self.len as usize]
    }
}

fn is_name(bytes: &[u8]) -> bool
    ensures { IsTrue result ↔ IsName bytes.now }
{
    !bytes.is_empty() && bytes.len() <= LIMIT && bytes.iter().all(|b| is_name_byte(*b))
}

fn padded(bytes: &[u8]) -> [u8; 16]
    requires { length bytes.now ≤ 16 }
    ensures { take (length bytes.now) result ≡ bytes.now }
{
    let mut all = [0u8; 16];
    for (i, byte) in bytes.iter().enumerate() {
        all[i] = *byte;
    }
    all
}

const fn is_name_byte(byte: u8) -> bool
    ensures { result ≡ is_name_byte byte }
{
    matches!(byte, b'a'..=b'z' | b'A'..=b'Z' | b'0'..=b'9' | b'_')
}

impl Clone for Name {
    ghost is_clone = { λ name copy. copy ≡ name };

    ghost is_infallible = { λ _. Unit {0} };

    fn clone(&self) -> Result<Self, AllocError> {
        Ok(Name {
            bytes: self.bytes,
            len: self.len,
        })
    }
}

impl PartialEq for Name {
    ghost eq = { pointwise nat_eq };

    ghost laws = { partial_equiv_from_equiv nat_list_eq_equiv };

    fn eq(&self, other: &Self) -> bool {
        self.text() == other.text()
    }
}

impl Eq for Name {
    ghost laws = { nat_list_eq_equiv };
}

impl Hash for Name {
    ghost hash_input = { fed.slice fed.u8 };

    ghost respects_eq = { λ x y h. ap (fed.slice fed.u8) ((bytes_decides x y).0 h) };

    fn hash<H: Hasher>(&self, state: &mut H) {
        self.text().hash(state);
    }
}

impl fmt::Debug for Name {
    fn fmt<W: fmt::Write>(&self, f: &mut fmt::Formatter<W>) -> fmt::Result {
        fmt::Debug::fmt(&self.text(), f)
    }
}
