//! Obstructions: paths in which rules may disagree. They are the overlaps of tips, and the paths of the bound's length with a tip in them.
ghost use Rattle.std.specs.Prelude.{◌≡◌, ◌<◌, ◌≤◌, ◌+◌, length, All, IfOk, IfSome, OnOk};
ghost use Rattle.std.specs.BinaryHeap.{heap_items, heap_len};
ghost use Rattle.quiver_paths.specs.Path.{IsPath, path_length};
ghost use Rattle.quiver_paths.specs.Quiver.{arrow_count};
ghost use Rattle.quiver_paths.specs.declared.Path.{Path};
ghost use Rattle.path_algebra.specs.declared.Header.{Header};
ghost use Rattle.path_algebra.specs.Allowed.{IsAllowed};
ghost use Rattle.path_algebra.specs.Words.{IsShortPath};
ghost use Rattle.path_reduction.specs.Gaps.{IsTidy};
ghost use Rattle.path_basis.specs.Completing.{IsObstruction};

use path_algebra::{Header, Rule, arrow_path};
use path_reduction::ShortPaths;
use quiver_paths::{Path, concat};
use seq::Seq;
use std::alloc::{AllocError, Global};
use std::collections::BinaryHeap;

/// A path, and the number of its arrows up to the end of a tip. The ranks say which is taken first: the one with the greatest, which is that of the
/// least path, and of several the one whose tip ends last.
#[derive(Drop)]
#[derive_where(PartialEq, Eq, PartialOrd, Ord)]
pub(crate) struct Obstruction {
    pub(crate) rank: usize,
    pub(crate) end: usize,
    #[derive_where(skip(EqHashOrd))]
    pub(crate) path: Path,
}

/// The rank of a short path, greater for smaller paths; that of no path is 0.
pub(crate) fn rank_of(place: Option<usize>) -> usize {
    match place {
        None => 0,
        Some(place) => 4_096usize.saturating_sub(place),
    }
}

/// Adds the obstructions of a new rule: its overlaps with the rules and with itself, and, where a path of its tail is shorter than the tip, the paths
/// of the bound's length with the tip in them. (Where none is, the tail is zero in these too.)
pub(crate) fn push_obstructions(
    alloc: Global,
    header: &Header,
    space: &ShortPaths,
    rules: &[Rule],
    rule: &Rule,
    heap: &mut BinaryHeap<Obstruction>,
) -> Result<(), AllocError>
    requires allowed { IsAllowed header.now }
    requires rules { All (IsTidy header.now) rules.now }
    requires rule { IsTidy header.now rule.now }
    requires heap { All (IsObstruction header.now) (heap_items heap.old) }
    ensures { OnOk result (All (IsObstruction header.now) (heap_items heap.new)) }
{
    let mut found = Vec::new(alloc);
    push_overlaps(alloc, header, space, &rule.tip, &rule.tip, &mut found)?;
    push_all_overlaps(alloc, header, space, rules, &rule.tip, &mut found)?;
    if has_shorter(rule) {
        push_long(alloc, header, space, rule, &mut found)?;
    }
    push_all(header, found, heap)?;
    Ok(())
}

/// Adds obstructions to those that are open.
fn push_all(
    header: &Header,
    found: Vec<Obstruction>,
    heap: &mut BinaryHeap<Obstruction>,
) -> Result<(), AllocError>
    requires found { All (IsObstruction header.now) found.items }
    requires heap { All (IsObstruction header.now) (heap_items heap.old) }
    ensures { OnOk result (All (IsObstruction header.now) (heap_items heap.new)) }
{
    for obstruction in found {
        push_one(heap, obstruction)?;
    }
    Ok(())
}

/// Adds an obstruction to those that are open.
fn push_one(heap: &mut BinaryHeap<Obstruction>, obstruction: Obstruction) -> Result<(), AllocError>
    ensures { (h : Header) → IsObstruction h obstruction → All (IsObstruction h) (heap_items heap.old) → OnOk result (All (IsObstruction h) (heap_items heap.new)) }
{
    heap.push(obstruction)?;
    Ok(())
}

/// Takes out the obstruction with the least path.
pub(crate) fn pop_least(heap: &mut BinaryHeap<Obstruction>) -> Option<Obstruction>
    ensures taken { (h : Header) → All (IsObstruction h) (heap_items heap.old) → IfSome result (IsObstruction h) }
    ensures others { (h : Header) → All (IsObstruction h) (heap_items heap.old) → All (IsObstruction h) (heap_items heap.new) }
    ensures fewer { IfSome result (λ o. heap_len heap.new < heap_len heap.old) }
{
    heap.pop()
}

/// Whether a path of the tail is shorter than the tip.
fn has_shorter(rule: &Rule) -> bool {
    for term in rule.tail.terms.as_slice() {
        if term.path.arrows.len() < rule.tip.arrows.len() {
            return true;
        }
    }
    false
}

/// Adds the overlaps of the tip with those of the rules, on both sides.
fn push_all_overlaps(
    alloc: Global,
    header: &Header,
    space: &ShortPaths,
    rules: &[Rule],
    tip: &Path,
    found: &mut Vec<Obstruction>,
) -> Result<(), AllocError>
    requires rules { All (IsTidy header.now) rules.now }
    requires tip { IsShortPath header.now tip.now }
    requires found { All (IsObstruction header.now) found.old.items }
    ensures { OnOk result (All (IsObstruction header.now) found.new.items) }
{
    for rule in rules {
        push_overlaps(alloc, header, space, &rule.tip, tip, found)?;
        push_overlaps(alloc, header, space, tip, &rule.tip, found)?;
    }
    Ok(())
}

/// Adds the paths shorter than the bound that begin with the first path and end with the second, both sharing some arrows, but neither all.
fn push_overlaps(
    alloc: Global,
    header: &Header,
    space: &ShortPaths,
    first: &Path,
    second: &Path,
    found: &mut Vec<Obstruction>,
) -> Result<(), AllocError>
    requires first { IsShortPath header.now first.now }
    requires second { IsShortPath header.now second.now }
    requires found { All (IsObstruction header.now) found.old.items }
    ensures { OnOk result (All (IsObstruction header.now) found.new.items) }
{
    for cut in 1..first.arrows.len() {
        push_overlap(alloc, header, space, first, second, cut, found)?;
    }
    Ok(())
}

/// Adds the path that begins with the first and ends with the second, which starts behind so many arrows of it; if there is one, and it is shorter
/// than the bound.
fn push_overlap(
    alloc: Global,
    header: &Header,
    space: &ShortPaths,
    first: &Path,
    second: &Path,
    cut: usize,
    found: &mut Vec<Obstruction>,
) -> Result<(), AllocError>
    requires first { IsShortPath header.now first.now }
    requires second { IsShortPath header.now second.now }
    requires inside { cut < path_length first.now }
    requires found { All (IsObstruction header.now) found.old.items }
    ensures { OnOk result (All (IsObstruction header.now) found.new.items) }
{
    let front = first.arrows.as_slice();
    let rest = second.arrows.as_slice();
    let common = front.len() - cut;
    if common >= rest.len() || rest.len() - common >= header.bound as usize - front.len() {
        return Ok(());
    }
    if front[cut..] != rest[..common] {
        return Ok(());
    }
    let mut arrows = Vec::from_slice(alloc, front)?;
    arrows.extend_from_slice(&rest[common..])?;
    let end = arrows.len();
    let path = Path {
        start: first.start,
        end: second.end,
        arrows: Seq::from_vec(arrows),
    };
    let rank = rank_of(space.place_along(path.start, path.arrows.as_slice(), &[], &[]));
    found.push(Obstruction { rank, end, path })?;
    Ok(())
}

/// Adds the paths of the bound's length with the rule's tip in them.
fn push_long(
    alloc: Global,
    header: &Header,
    space: &ShortPaths,
    rule: &Rule,
    found: &mut Vec<Obstruction>,
) -> Result<(), AllocError>
    requires allowed { IsAllowed header.now }
    requires tip { IsShortPath header.now rule.now.tip }
    requires found { All (IsObstruction header.now) found.old.items }
    ensures { OnOk result (All (IsObstruction header.now) found.new.items) }
{
    let room = header.bound - rule.tip.arrows.len() as u32;
    for before in 0..room + 1 {
        let path = rule.tip.clone()?;
        let end = path.arrows.len();
        let short = Obstruction { rank: 0, end, path };
        push_longer(
            alloc,
            header,
            space,
            rule,
            short,
            before,
            room - before,
            found,
        )?;
    }
    Ok(())
}

/// Adds the obstructions with so many arrows before the path and so many behind it.
fn push_longer(
    alloc: Global,
    header: &Header,
    space: &ShortPaths,
    rule: &Rule,
    short: Obstruction,
    before: u32,
    behind: u32,
    found: &mut Vec<Obstruction>,
) -> Result<(), AllocError>
    requires allowed { IsAllowed header.now }
    requires short { IsObstruction header.now short }
    requires room { path_length short.path + (before + behind) ≤ header.now.bound }
    requires found { All (IsObstruction header.now) found.old.items }
    ensures { OnOk result (All (IsObstruction header.now) found.new.items) }
{
    if before == 0 && behind == 0 {
        push_ranked(space, rule, short, found)?;
        return Ok(());
    }
    for arrow in 0..header.quiver.arrows.len() {
        if let Some(longer) = longer(alloc, header, &short, arrow as u8, before > 0)? {
            if before > 0 {
                push_longer(
                    alloc,
                    header,
                    space,
                    rule,
                    longer,
                    before - 1,
                    behind,
                    found,
                )?;
            } else {
                push_longer(alloc, header, space, rule, longer, 0, behind - 1, found)?;
            }
        }
    }
    Ok(())
}

/// Adds the obstruction with the rank of the greatest path that is left once the rule's tip is rewritten in its path, if one is left.
fn push_ranked(
    space: &ShortPaths,
    rule: &Rule,
    long: Obstruction,
    found: &mut Vec<Obstruction>,
) -> Result<(), AllocError>
    requires { long.end ≤ path_length long.path }
    ensures { (h : Header) → IsObstruction h long → All (IsObstruction h) found.old.items → OnOk result (All (IsObstruction h) found.new.items) }
{
    let rank = rank_of(greatest_left(space, rule, &long));
    if rank == 0 {
        return Ok(());
    }
    let Obstruction { rank: _, end, path } = long;
    found.push(Obstruction { rank, end, path })?;
    Ok(())
}

/// The place of the greatest path that is left once the rule's tip is rewritten in the obstruction's path, which has the bound's length.
fn greatest_left(space: &ShortPaths, rule: &Rule, long: &Obstruction) -> Option<usize>
    requires { long.now.end ≤ path_length long.now.path }
{
    let arrows = long.path.arrows.as_slice();
    let tip = rule.tip.arrows.len();
    let before = &arrows[..long.end.saturating_sub(tip)];
    for term in rule.tail.terms.as_slice() {
        let middle = term.path.arrows.as_slice();
        if middle.len() < tip {
            return space.place_along(long.path.start, before, middle, &arrows[long.end..]);
        }
    }
    None
}
/// The obstruction with the arrow before its path, or behind it; none where they do not meet.
fn longer(
    alloc: Global,
    header: &Header,
    short: &Obstruction,
    arrow: u8,
    before: bool,
) -> Result<Option<Obstruction>, AllocError>
    requires allowed { IsAllowed header.now }
    requires short { IsObstruction header.now short.now }
    requires room { path_length short.now.path < header.now.bound }
    requires arrow { arrow < arrow_count header.now.quiver }
    ensures longer { IfOk result (λ longer. IfSome longer (IsObstruction header.now)) }
    ensures length { IfOk result (λ longer. IfSome longer (λ p. path_length p.path ≡ path_length short.now.path + 1)) }
{
    let one = arrow_path(alloc, header, arrow)?;
    if before {
        let path = concat(alloc, &header.quiver, &one, &short.path)?;
        let end = short.end + 1;
        Ok(obstruction_of(path, end))
    } else {
        let path = concat(alloc, &header.quiver, &short.path, &one)?;
        let end = short.end;
        Ok(obstruction_of(path, end))
    }
}

/// The obstruction in the path, if there is one.
fn obstruction_of(path: Option<Path>, end: usize) -> Option<Obstruction>
    ensures none { path ≡ None → result ≡ None }
    ensures some { (p : Path) → path ≡ Some p → result ≡ Some (record { rank = 0; end = end; path = p }) }
{
    match path {
        None => None,
        Some(path) => Some(Obstruction { rank: 0, end, path }),
    }
}
