//! The values of tokens.
ghost use Rattle.std.specs.Prelude.{◌≡◌, ◌==◌, slice_index};
ghost use Rattle.path_algebra.specs.Allowed.{is_letter};
ghost use Rattle.script_lang.specs.Tokens.{is_word, vertex_in, name_in, within, number_to, suffix_in, part_of, with_suffix, reference_in};

use quiver_paths::{Name, Reference, Suffix};
use text_lines::{cut_at, script_number};

pub fn is_word(token: &[u8], word: &[u8]) -> bool
    ensures { result ≡ is_word token.now word.now }
{
    token == word
}

/// The name of a vertex.
pub fn read_vertex(token: &[u8]) -> Option<Name>
    ensures { result ≡ vertex_in token.now }
{
    Name::of(token)
}

const fn is_letter(byte: u8) -> bool
    ensures { result ≡ is_letter byte }
{
    matches!(byte, b'a'..=b'z' | b'A'..=b'Z')
}

// Whether the first byte is a letter.
pub fn letter(token: &[u8]) -> bool
    ensures { is_letter (slice_index token.now 0) ≡ result }
{
    match token.first() {
        Some(byte) => is_letter(*byte),
        None => false,
    }
}

/// The name of an arrow, a module or a map.
pub fn read_name(token: &[u8]) -> Option<Name>
    ensures { result ≡ name_in token.now }
{
    if letter(token) { Name::of(token) } else { None }
}

fn within(n: Option<u64>, most: u32) -> Option<u32>
    ensures { result ≡ within most n }
{
    match n {
        Some(n) if n <= most as u64 => Some(n as u32),
        _ => None,
    }
}

/// A number up to `most`.
pub fn read_number(token: &[u8], most: u32) -> Option<u32>
    ensures { result ≡ number_to most token.now }
{
    within(script_number(token), most)
}

fn part_of(k: Option<u32>) -> Option<Suffix>
    ensures { result ≡ part_of k }
{
    Some(Suffix::Part(k?))
}

fn begins_with_zero(token: &[u8]) -> bool
    ensures { result ≡ (slice_index token.now 0 == 48) }
{
    match token.first() {
        Some(byte) => *byte == b'0',
        None => false,
    }
}

fn read_suffix(token: &[u8]) -> Option<Suffix>
    ensures { result ≡ suffix_in token.now }
{
    if is_word(token, b"map") {
        Some(Suffix::Map)
    } else if is_word(token, b"inv") {
        Some(Suffix::Inv)
    } else if begins_with_zero(token) {
        None
    } else {
        part_of(read_number(token, 256))
    }
}

fn with_suffix(name: Option<Name>, suffix: Option<Suffix>) -> Option<Reference>
    ensures { result ≡ with_suffix name suffix }
{
    Some(Reference {
        name: name?,
        suffix: suffix?,
    })
}

/// A name, alone or with a dot and a suffix.
pub fn read_reference(token: &[u8]) -> Option<Reference>
    ensures { result ≡ reference_in token.now }
{
    match cut_at(token, b'.') {
        Some((front, back)) => with_suffix(read_name(front), read_suffix(back)),
        None => with_suffix(read_name(token), Some(Suffix::Whole)),
    }
}
