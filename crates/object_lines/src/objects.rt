//! Reading the first lines of modules and maps.
ghost use Rattle.std.specs.Prelude.{ℕ, ◌≡◌, ◌≤◌, ◌<◌, ◌∷◌, [], List, length, decimal, codes, IfOk, IsTrue, MatchBool, ◌↔◌};
ghost use Rattle.path_algebra.specs.Derivations.{IsNumber};
ghost use Rattle.module_types.specs.declared.Side.{Side as SideView};
ghost use Rattle.module_types.specs.Shapes.{dimension, most_dimension};
ghost use Rattle.header_text.specs.Reading.{Reads, ReadsFirst};
ghost use Rattle.object_lines.specs.declared.objects.ModuleHead.{ModuleHead};
ghost use Rattle.object_lines.specs.Spelling.{side_word, numbers_form, map_line};
ghost use Rattle.object_lines.specs.Items.{AreNumbers, FitsModule, head_line, FitsMap};

use crate::numbers::{next_place, only_place, read_numbers, take_word_and_number};
use module_types::Side;
use path_algebra::Header;
use seq::Seq;
use std::alloc::{AllocError, Global};
use text_lines::Parts;

/// What the first line of a module says: its side, and its dimension at each vertex.
#[derive(Drop)]
pub struct ModuleHead {
    pub side: Side,
    pub dims: Seq<u32>,
}

/// The side whose word is the next token.
fn next_side(tokens: &mut Parts<'_>) -> Option<Side>
    ensures { ReadsFirst (λ (s : SideView). Unit {0}) (λ (s : SideView). side_word s ∷ []) tokens.old tokens.new result }
{
    let Some(word) = tokens.next_part() else {
        return None;
    };
    if word == b"right".as_slice() {
        return Some(Side::Right);
    }
    if word == b"left".as_slice() {
        return Some(Side::Left);
    }
    None
}

/// Whether the dimensions add to at most 256.
fn are_small(dims: &[u32]) -> bool
    ensures { IsTrue result ↔ (dimension dims.now ≤ most_dimension) }
{
    let mut left = 256u32;
    for dim in dims {
        if *dim > left {
            return false;
        }
        left -= *dim;
    }
    true
}

/// The side and the dimensions, each at most 256, that are all that is left.
fn side_and_dims(
    alloc: Global,
    count: usize,
    tokens: Parts<'_>,
) -> Result<Option<ModuleHead>, AllocError>
    ensures { IfOk result (λ r. Reads (λ (m : ModuleHead). AreNumbers 256 count m.dims) (λ (m : ModuleHead). side_word m.side ∷ numbers_form m.dims) tokens.entry r) }
{
    let mut tokens = tokens;
    let Some(side) = next_side(&mut tokens) else {
        return Ok(None);
    };
    let Some(dims) = read_numbers(alloc, 256, count, tokens)? else {
        return Ok(None);
    };
    Ok(Some(ModuleHead { side, dims }))
}

/// Reads the tokens of the first line of module k: its side, and a dimension at each vertex, which add to at most 256. `Ok(None)`: they are not those of such a
/// line. `Err`: memory is wanting.
pub fn read_module(
    alloc: Global,
    header: &Header,
    k: u32,
    tokens: Parts<'_>,
) -> Result<Option<ModuleHead>, AllocError>
    ensures { IfOk result (λ r. Reads (FitsModule header.now) (head_line k) tokens.entry r) }
{
    let mut tokens = tokens;
    if !take_word_and_number(&mut tokens, b"module", k) {
        return Ok(None);
    }
    let Some(head) = side_and_dims(alloc, header.quiver.vertices.len(), tokens)? else {
        return Ok(None);
    };
    if !are_small(head.dims.as_slice()) {
        return Ok(None);
    }
    Ok(Some(head))
}

/// Two numbers from 1 to `last` that are all that is left.
fn two_places(last: u32, tokens: Parts<'_>) -> Option<(u32, u32)>
    ensures { Reads (λ (x : ℕ × ℕ). FitsMap last x.0 x.1) (λ (x : ℕ × ℕ). decimal x.0 ∷ decimal x.1 ∷ []) tokens.entry result }
{
    let mut tokens = tokens;
    let Some(first) = next_place(&mut tokens, last) else {
        return None;
    };
    let Some(second) = only_place(tokens, last) else {
        return None;
    };
    Some((first, second))
}

/// Reads the tokens of the first line of map k: the numbers of its source and its target, both from 1 to `modules`. `None`: they are not those of such a line.
pub fn read_map(k: u32, modules: u32, tokens: Parts<'_>) -> Option<(u32, u32)>
    ensures { Reads (λ (x : ℕ × ℕ). FitsMap modules x.0 x.1) (λ (x : ℕ × ℕ). map_line k x.0 x.1) tokens.entry result }
{
    let mut tokens = tokens;
    if !take_word_and_number(&mut tokens, b"map", k) {
        return None;
    }
    let Some(ends) = two_places(modules, tokens) else {
        return None;
    };
    Some(ends)
}
