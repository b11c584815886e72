//! Whether words are all paths without a tip, judged word by word.
ghost use Rattle.std.specs.Prelude.{ℕ, ◌≡◌, ◌<◌, ◌≤◌, ◌++◌, ◌∷◌, [], length, All, IfOk, MatchBool};
ghost use Rattle.std.specs.Ordering.{ordering_then, nat_cmp};
ghost use Rattle.quiver_paths.specs.Path.{IsPath, path_length};
ghost use Rattle.quiver_paths.specs.PathOrder.{IsAscending};
ghost use Rattle.quiver_paths.specs.Quiver.{arrow_count};
ghost use Rattle.path_algebra.specs.Allowed.{IsAllowed};
ghost use Rattle.path_algebra.specs.BasisClauses.{WordsHold};
ghost use Rattle.path_algebra.specs.Occurring.{arrows_cmp, AreLongTips, TipsAscend};
ghost use Rattle.alg_table.specs.WordChecks.{IsWordAt, HasTrivialWords, IsGrown, GoesOn, GoesOnBy, IsClosed, IsWellPlaced};

use crate::reduced::is_smaller;
use path_algebra::{Header, Rule, compare_arrows, ends_in_tip};
use quiver_paths::Path;
use std::alloc::{AllocError, Global};
use std::cmp::Ordering;

/// Whether the words are, ascending, exactly the paths shorter than the bound that have no tip as a factor.
///
/// The tips are paths with two arrows or more. The paths are not listed: each word has to be a word and then an arrow, and with each arrow it has to
/// be a word or to end in a tip.
pub(crate) fn words_hold(
    alloc: Global,
    header: &Header,
    words: &[Path],
    rules: &[Rule],
) -> Result<bool, AllocError>
    requires allowed { IsAllowed header.now }
    requires tips { AreLongTips header.now rules.now }
    requires ascending { TipsAscend rules.now }
    requires paths { All (IsPath header.now.quiver) words.now }
    ensures { IfOk result (λ holds. MatchBool holds (WordsHold header.now words.now rules.now) (¬ WordsHold header.now words.now rules.now)) }
{
    if !words_ascend(words) {
        return Ok(false);
    }
    if !has_trivial_words(header, words) {
        return Ok(false);
    }
    for word in words {
        if !is_well_placed(alloc, header, words, rules, word)? {
            return Ok(false);
        }
    }
    Ok(true)
}

/// Whether each word is smaller than the next.
fn words_ascend(words: &[Path]) -> bool
    ensures { MatchBool result (IsAscending words.now) (¬ IsAscending words.now) }
{
    for next in 1..words.len() {
        if !is_smaller(&words[next - 1], &words[next]) {
            return false;
        }
    }
    true
}

/// Whether each trivial path is a word.
fn has_trivial_words(header: &Header, words: &[Path]) -> bool
    requires allowed { IsAllowed header.now }
    requires ascending { IsAscending words.now }
    ensures { MatchBool result (HasTrivialWords header.now words.now) (¬ HasTrivialWords header.now words.now) }
{
    for vertex in 0..header.quiver.vertices.len() {
        if !is_word(words, vertex as u8, &[]) {
            return false;
        }
    }
    true
}

/// How a path stands to one with this start and these arrows.
fn compare_at(path: &Path, start: u8, arrows: &[u8]) -> Ordering
    ensures { result ≡ ordering_then (arrows_cmp path.now.arrows arrows.now) (nat_cmp path.now.start start) }
{
    compare_arrows(path.arrows.as_slice(), arrows).then(path.start.cmp(&start))
}

/// Whether a word has this start and these arrows. It takes no memory.
fn is_word(words: &[Path], start: u8, arrows: &[u8]) -> bool
    requires { IsAscending words.now }
    ensures { MatchBool result (IsWordAt words.now start arrows.now) (¬ IsWordAt words.now start arrows.now) }
{
    let mut low = 0;
    let mut high = words.len();
    while low < high {
        let middle = low + (high - low) / 2;
        match compare_at(&words[middle], start, arrows) {
            Ordering::Less => low = middle + 1,
            Ordering::Equal => return true,
            Ordering::Greater => high = middle,
        }
    }
    false
}

/// Whether the word is a word and then an arrow, and with each arrow is a word or ends in a tip.
fn is_well_placed(
    alloc: Global,
    header: &Header,
    words: &[Path],
    rules: &[Rule],
    word: &Path,
) -> Result<bool, AllocError>
    requires allowed { IsAllowed header.now }
    requires words { IsAscending words.now }
    requires ascending { TipsAscend rules.now }
    ensures { IfOk result (λ placed. MatchBool placed (IsWellPlaced header.now words.now rules.now word.now) (¬ IsWellPlaced header.now words.now rules.now word.now)) }
{
    if !is_grown(header, words, rules, word) {
        return Ok(false);
    }
    let closed = is_closed(alloc, header, words, rules, word)?;
    Ok(closed)
}

/// Whether a word that has arrows is shorter than the bound, is a word and then an arrow, and does not end in a tip.
fn is_grown(header: &Header, words: &[Path], rules: &[Rule], word: &Path) -> bool
    requires words { IsAscending words.now }
    requires ascending { TipsAscend rules.now }
    ensures { MatchBool result (IsGrown header.now words.now rules.now word.now) (¬ IsGrown header.now words.now rules.now word.now) }
{
    let arrows = word.arrows.as_slice();
    if arrows.len() == 0 {
        return true;
    }
    if arrows.len() >= header.bound as usize {
        return false;
    }
    if !is_word(words, word.start, &arrows[..arrows.len() - 1]) {
        return false;
    }
    !ends_in_tip(rules, arrows)
}

/// Whether the word with each arrow that it meets is a word or ends in a tip, where that is shorter than the bound.
fn is_closed(
    alloc: Global,
    header: &Header,
    words: &[Path],
    rules: &[Rule],
    word: &Path,
) -> Result<bool, AllocError>
    requires allowed { IsAllowed header.now }
    requires words { IsAscending words.now }
    requires ascending { TipsAscend rules.now }
    ensures { IfOk result (λ closed. MatchBool closed (IsClosed header.now words.now rules.now word.now) (¬ IsClosed header.now words.now rules.now word.now)) }
{
    if word.arrows.len() >= header.bound as usize - 1 {
        return Ok(true);
    }
    for arrow in 0..header.quiver.arrows.len() {
        if !goes_on_by(alloc, header, words, rules, word, arrow as u8)? {
            return Ok(false);
        }
    }
    Ok(true)
}

/// Whether the word with the arrow, if it meets it, is a word or ends in a tip.
fn goes_on_by(
    alloc: Global,
    header: &Header,
    words: &[Path],
    rules: &[Rule],
    word: &Path,
    arrow: u8,
) -> Result<bool, AllocError>
    requires arrow { arrow < arrow_count header.now.quiver }
    requires words { IsAscending words.now }
    requires ascending { TipsAscend rules.now }
    ensures { IfOk result (λ goes. MatchBool goes (GoesOnBy header.now words.now rules.now word.now arrow) (¬ GoesOnBy header.now words.now rules.now word.now arrow)) }
{
    if header.quiver.arrows[arrow as usize].from != word.end {
        return Ok(true);
    }
    let mut longer = Vec::new(alloc);
    longer.extend_from_slice(word.arrows.as_slice())?;
    longer.push(arrow)?;
    Ok(goes_on(words, rules, word.start, &longer))
}

/// Whether a path is a word or ends in a tip.
fn goes_on(words: &[Path], rules: &[Rule], start: u8, arrows: &[u8]) -> bool
    requires words { IsAscending words.now }
    requires ascending { TipsAscend rules.now }
    ensures { MatchBool result (GoesOn words.now rules.now start arrows.now) (¬ GoesOn words.now rules.now start arrows.now) }
{
    is_word(words, start, arrows) || ends_in_tip(rules, arrows)
}
