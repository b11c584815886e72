//! The places of the words from a vertex to a vertex.
ghost use Rattle.std.specs.Prelude.{◌≡◌, ◌<◌, ◌≤◌, ◌+◌, ◌*◌, ◌/◌, ◌%◌, length, IfOk, OnOk};
ghost use Rattle.alg_table.specs.WordPlaces.{ArePlacesAmong, ArePlacesBetween, ArePlaceLists};

use quiver_paths::Path;
use seq::Seq;
use std::alloc::{AllocError, Global};

/// For each pair of a start and an end among the vertices, by start and then by end, the places of the words between them.
pub(crate) fn place_lists(
    alloc: Global,
    words: &[Path],
    vertices: u8,
) -> Result<Seq<Seq<u32>>, AllocError>
    requires few { length words.now ≤ 4096 }
    ensures lists { IfOk result (λ lists. ArePlaceLists words.now vertices lists) }
    ensures count { IfOk result (λ lists. length lists ≡ vertices * vertices) }
{
    let mut lists = Seq::new(alloc);
    for start in 0..vertices {
        add_lists(alloc, words, vertices, start, &mut lists)?;
    }
    Ok(lists)
}

/// Adds the lists of the words from a vertex.
fn add_lists(
    alloc: Global,
    words: &[Path],
    vertices: u8,
    start: u8,
    lists: &mut Seq<Seq<u32>>,
) -> Result<(), AllocError>
    requires few { length words.now ≤ 4096 }
    requires lists { ArePlaceLists words.now vertices lists.old }
    requires count { length lists.old ≡ start * vertices }
    ensures lists { OnOk result (ArePlaceLists words.now vertices lists.new) }
    ensures count { OnOk result (length lists.new ≡ (start + 1) * vertices) }
{
    for end in 0..vertices {
        let places = places_between(alloc, words, start, end)?;
        lists.push(places)?;
    }
    Ok(())
}

/// The places of the words from a vertex to a vertex, ascending.
fn places_between(alloc: Global, words: &[Path], start: u8, end: u8) -> Result<Seq<u32>, AllocError>
    requires few { length words.now ≤ 4096 }
    ensures { IfOk result (ArePlacesBetween words.now start end) }
{
    let mut places = Seq::new(alloc);
    for place in 0..words.len() {
        add_place(words, start, end, place, &mut places)?;
    }
    Ok(places)
}

/// Adds the place of a word if it leads from the start to the end.
fn add_place(
    words: &[Path],
    start: u8,
    end: u8,
    place: usize,
    places: &mut Seq<u32>,
) -> Result<(), AllocError>
    requires few { length words.now ≤ 4096 }
    requires place { place < length words.now }
    requires places { ArePlacesAmong words.now start end place places.old }
    ensures { OnOk result (ArePlacesAmong words.now start end (place + 1) places.new) }
{
    let word = &words[place];
    if word.start != start {
        return Ok(());
    }
    if word.end != end {
        return Ok(());
    }
    places.push(place as u32)?;
    Ok(())
}
