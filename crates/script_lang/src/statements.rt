//! Statements by their first words.
ghost use Rattle.std.specs.Prelude.{◌≡◌, IfOk};
ghost use Rattle.script_lang.specs.Arguments.{two_of, three_of, four_of};
ghost use Rattle.script_lang.specs.Statements.{name_reference, unary_in, unary_kind, unary_from, standard_in, std_kind, std_of, sum_kind, sum_of, map_kind, map_of, hom_kind, hom_of, resolve_kind, resolve_of, ext_kind, ext_of, decompose_kind, decompose_of, ars_kind, ars_of, plain_in, rep_kind, rep_in};

use super::arguments::{four_words, read_numbers, three_words, two_words};
use super::tokens::{is_word, read_name, read_number, read_reference, read_vertex};
use quiver_paths::{Name, Reference};
use script_types::{Standard, StatementKind};
use seq::Seq;
use std::alloc::{AllocError, Global};
use text_lines::Words;

fn name_reference(name: Option<Name>, a: Option<Reference>) -> Option<(Name, Reference)>
    ensures { result ≡ name_reference name a }
{
    Some((name?, a?))
}

// A new name and a reference.
fn read_unary(words: &mut Words<'_>) -> Option<(Name, Reference)>
    ensures { result ≡ unary_in words.old }
{
    let (name, a) = two_words(words)?;
    name_reference(read_name(name), read_reference(a))
}

// The statement of a new name and a reference that the word begins.
fn unary_kind(word: &[u8], name: Name, a: Reference) -> Option<StatementKind>
    ensures { result ≡ unary_kind word.now (name, a) }
{
    if is_word(word, b"kernel") {
        Some(StatementKind::Kernel { name, f: a })
    } else if is_word(word, b"cokernel") {
        Some(StatementKind::Cokernel { name, f: a })
    } else if is_word(word, b"radical") {
        Some(StatementKind::Radical { name, a })
    } else if is_word(word, b"dual") {
        Some(StatementKind::Dual { name, a })
    } else if is_word(word, b"transpose") {
        Some(StatementKind::Transpose { name, a })
    } else if is_word(word, b"tau") {
        Some(StatementKind::Tau { name, a })
    } else if is_word(word, b"taui") {
        Some(StatementKind::Taui { name, a })
    } else {
        None
    }
}

fn unary_statement(word: &[u8], words: &mut Words<'_>) -> Option<StatementKind>
    ensures { result ≡ unary_from word.now (unary_in words.old) }
{
    let (name, a) = read_unary(words)?;
    unary_kind(word, name, a)
}

fn read_standard(token: &[u8]) -> Option<Standard>
    ensures { result ≡ standard_in token.now }
{
    if is_word(token, b"simple") {
        Some(Standard::Simple)
    } else if is_word(token, b"projective") {
        Some(Standard::Projective)
    } else if is_word(token, b"injective") {
        Some(Standard::Injective)
    } else {
        None
    }
}

fn std_kind(
    name: Option<Name>,
    which: Option<Standard>,
    vertex: Option<Name>,
) -> Option<StatementKind>
    ensures { result ≡ std_kind name which vertex }
{
    Some(StatementKind::Std {
        name: name?,
        which: which?,
        vertex: vertex?,
    })
}

fn read_std(words: &mut Words<'_>) -> Option<StatementKind>
    ensures { result ≡ std_of (three_of words.old) }
{
    let (name, which, vertex) = three_words(words)?;
    std_kind(read_name(name), read_standard(which), read_vertex(vertex))
}

fn sum_kind(name: Option<Name>, a: Option<Reference>, b: Option<Reference>) -> Option<StatementKind>
    ensures { result ≡ sum_kind name a b }
{
    Some(StatementKind::Sum {
        name: name?,
        a: a?,
        b: b?,
    })
}

fn read_sum(words: &mut Words<'_>) -> Option<StatementKind>
    ensures { result ≡ sum_of (three_of words.old) }
{
    let (name, a, b) = three_words(words)?;
    sum_kind(read_name(name), read_reference(a), read_reference(b))
}

fn map_kind(
    alloc: Global,
    name: Option<Name>,
    a: Option<Reference>,
    b: Option<Reference>,
) -> Option<StatementKind>
    ensures { result ≡ map_kind name a b }
{
    Some(StatementKind::Map {
        name: name?,
        a: a?,
        b: b?,
        lines: Seq::new(alloc),
    })
}

fn read_map(alloc: Global, words: &mut Words<'_>) -> Option<StatementKind>
    ensures { result ≡ map_of (three_of words.old) }
{
    let (name, a, b) = three_words(words)?;
    map_kind(alloc, read_name(name), read_reference(a), read_reference(b))
}

fn hom_kind(a: Option<Reference>, b: Option<Reference>) -> Option<StatementKind>
    ensures { result ≡ hom_kind a b }
{
    Some(StatementKind::Hom { a: a?, b: b? })
}

fn read_hom(words: &mut Words<'_>) -> Option<StatementKind>
    ensures { result ≡ hom_of (two_of words.old) }
{
    let (a, b) = two_words(words)?;
    hom_kind(read_reference(a), read_reference(b))
}

fn resolve_kind(a: Option<Reference>, n: Option<u32>) -> Option<StatementKind>
    ensures { result ≡ resolve_kind a n }
{
    Some(StatementKind::Resolve { a: a?, n: n? })
}

fn read_resolve(words: &mut Words<'_>) -> Option<StatementKind>
    ensures { result ≡ resolve_of (two_of words.old) }
{
    let (a, n) = two_words(words)?;
    resolve_kind(read_reference(a), read_number(n, 16))
}

fn ext_kind(n: Option<u32>, a: Option<Reference>, b: Option<Reference>) -> Option<StatementKind>
    ensures { result ≡ ext_kind n a b }
{
    Some(StatementKind::Ext {
        n: n?,
        a: a?,
        b: b?,
    })
}

fn read_ext(words: &mut Words<'_>) -> Option<StatementKind>
    ensures { result ≡ ext_of (three_of words.old) }
{
    let (n, a, b) = three_words(words)?;
    ext_kind(read_number(n, 15), read_reference(a), read_reference(b))
}

fn decompose_kind(a: Option<Reference>, name: Option<Name>) -> Option<StatementKind>
    ensures { result ≡ decompose_kind a name }
{
    Some(StatementKind::Decompose { a: a?, name: name? })
}

fn read_decompose(words: &mut Words<'_>) -> Option<StatementKind>
    ensures { result ≡ decompose_of (three_of words.old) }
{
    let (a, between, name) = three_words(words)?;
    if is_word(between, b"as") {
        decompose_kind(read_reference(a), read_name(name))
    } else {
        None
    }
}

fn ars_kind(a: Option<Reference>, left: Option<Name>, middle: Option<Name>) -> Option<StatementKind>
    ensures { result ≡ ars_kind a left middle }
{
    Some(StatementKind::Ars {
        a: a?,
        left: left?,
        middle: middle?,
    })
}

fn read_ars(words: &mut Words<'_>) -> Option<StatementKind>
    ensures { result ≡ ars_of (four_of words.old) }
{
    let (a, between, left, middle) = four_words(words)?;
    if is_word(between, b"as") {
        ars_kind(read_reference(a), read_name(left), read_name(middle))
    } else {
        None
    }
}

/// A statement of one line, or the first line of a `map`.
pub fn read_plain(alloc: Global, word: &[u8], words: &mut Words<'_>) -> Option<StatementKind>
    ensures { result ≡ plain_in word.now words.old }
{
    if is_word(word, b"std") {
        read_std(words)
    } else if is_word(word, b"sum") {
        read_sum(words)
    } else if is_word(word, b"map") {
        read_map(alloc, words)
    } else if is_word(word, b"hom") {
        read_hom(words)
    } else if is_word(word, b"resolve") {
        read_resolve(words)
    } else if is_word(word, b"ext") {
        read_ext(words)
    } else if is_word(word, b"decompose") {
        read_decompose(words)
    } else if is_word(word, b"ars") {
        read_ars(words)
    } else {
        unary_statement(word, words)
    }
}

fn rep_kind(alloc: Global, name: Option<Name>, dims: Option<Seq<u32>>) -> Option<StatementKind>
    ensures { result ≡ rep_kind name dims }
{
    let name = name?;
    let dims = dims?;
    if dims.is_empty() {
        return None;
    }
    Some(StatementKind::Rep {
        name,
        dims,
        lines: Seq::new(alloc),
    })
}

/// The first line of a `rep`.
pub fn read_rep(alloc: Global, words: &mut Words<'_>) -> Result<Option<StatementKind>, AllocError>
    ensures { IfOk result (λ r. r ≡ rep_in words.old) }
{
    match words.next_word() {
        Some(name) => {
            let dims = read_numbers(alloc, words, 65_535)?;
            Ok(rep_kind(alloc, read_name(name), dims))
        }
        None => Ok(None),
    }
}
