//! The short paths of a quiver, and where each leads when an arrow is put behind it.
ghost use Rattle.std.specs.Prelude.{ℕ, ◌≡◌, ◌<◌, ◌≤◌, ◌+◌, ◌*◌, ◌++◌, ◌∷◌, [], List, length, Contains, IfOk, OnOk, IfSome, IfNone};
ghost use Rattle.quiver_paths.specs.PathOrder.{IsAscending};
ghost use Rattle.quiver_paths.specs.PathList.{path_count, paths_below, ListsPathsBelow};
ghost use Rattle.quiver_paths.specs.Quiver.{arrow_count};
ghost use Rattle.path_algebra.specs.Allowed.{IsAllowed};
ghost use Rattle.path_algebra.specs.Rows.{path_at};
ghost use Rattle.path_reduction.specs.ShortPaths.{IsWalked, IsAlong, IsPlaceBehind, AreBehind, StartsAt};

use path_algebra::{Header, path_place, then_arrow};
use quiver_paths::{Path, PathError, paths_below};
use std::alloc::{AllocError, Global};
use std::marker::Model;

/// The paths shorter than the bound, ascending, and where each leads when an arrow is put behind it. Contracts see the list of the paths.
#[derive(Drop)]
pub struct ShortPaths {
    paths: Vec<Path>,
    arrows: usize,
    // For each path, in order, its place with each arrow behind it, counted from 1; 0 where that is no short path.
    behind: Vec<u32>,
}

impl Model for ShortPaths {
    ghost use Rattle.std.specs.Prelude.{List};
    ghost use Rattle.quiver_paths.specs.declared.Path.{Path};
    ghost use Rattle.path_reduction.specs.ShortPaths.{HoldsPaths};

    ghost Value = { List Path };

    ghost view = { λ s. s.paths.items };

    ghost invariant = { λ s. HoldsPaths s.paths.items s.arrows s.behind.items };
}

impl ShortPaths {
    /// The paths of the header's quiver that are shorter than its bound.
    ///
    /// `AllocError` comes for want of memory.
    pub fn new(alloc: Global, header: &Header) -> Result<ShortPaths, AllocError>
        requires allowed { IsAllowed header.now }
        requires few { path_count header.now.quiver header.now.bound ≤ 4096 }
        ensures { IfOk result (λ space. ListsPathsBelow header.now.quiver header.now.bound space) }
    {
        let paths = short_paths(alloc, header)?;
        let behind = places_behind(alloc, header, &paths)?;
        Ok(ShortPaths {
            paths,
            arrows: header.quiver.arrows.len(),
            behind,
        })
    }

    /// How many there are.
    pub(crate) fn len(&self) -> usize
        ensures { result ≡ length self.now }
    {
        self.paths.len()
    }

    /// The path at a place, counted from 0.
    pub(crate) fn path(&self, place: usize) -> &Path
        requires { place < length self.now }
        ensures { result.now ≡ path_at self.now place }
    {
        &self.paths[place]
    }

    /// The place of a path that is one of them.
    pub(crate) fn place(&self, path: &Path) -> usize
        requires ascending { IsAscending self.now }
        requires listed { Contains self.now path.now }
        ensures inside { result < length self.now }
        ensures there { path_at self.now result ≡ path.now }
    {
        match path_place(&self.paths, path) {
            Some(place) => place,
            None => unreachable!(),
        }
    }

    /// The place of the trivial path where the path at a place starts.
    pub(crate) fn start(&self, place: usize) -> usize
        requires { place < length self.now }
        ensures vertex { result ≡ (path_at self.now place).start }
        ensures trivial { StartsAt self.now result }
    {
        self.paths[place].start as usize
    }

    /// The place of the path with these arrows behind the path at a place; none where it is no short path. It takes no memory.
    pub(crate) fn walk(&self, place: usize, arrows: &[u8]) -> Option<usize>
        requires { place < length self.now }
        ensures some { IfSome result (λ k. IsWalked self.now place arrows.now k) }
        ensures none { IfNone result ((more : List ℕ) (k : ℕ) → IsWalked self.now place (arrows.now ++ more) k → ⊥) }
    {
        let mut at = place;
        for arrow in arrows {
            at = self.follow(at, *arrow)?;
        }
        Some(at)
    }

    /// The same for one arrow.
    fn follow(&self, place: usize, arrow: u8) -> Option<usize>
        requires { place < length self.now }
        ensures some { IfSome result (λ k. IsWalked self.now place (arrow ∷ []) k) }
        ensures none { IfNone result ((more : List ℕ) (k : ℕ) → IsWalked self.now place (arrow ∷ more) k → ⊥) }
    {
        let arrow = arrow as usize;
        if arrow >= self.arrows {
            return None;
        }
        let next = self.behind[place * self.arrows + arrow];
        if next == 0 {
            return None;
        }
        Some(next as usize - 1)
    }

    /// The place of the short path from a vertex along these arrows, one run behind the other; none where no short path is: where there is no such
    /// vertex, where the arrows do not lead on from it, and where they make a path of the bound's length or more. It takes no memory.
    pub fn place_along(
        &self,
        vertex: u8,
        first: &[u8],
        second: &[u8],
        third: &[u8],
    ) -> Option<usize>
        ensures some { IfSome result (λ k. IsAlong self.now vertex (first.now ++ (second.now ++ third.now)) k) }
        ensures none { IfNone result ((k : ℕ) → IsAlong self.now vertex (first.now ++ (second.now ++ third.now)) k → ⊥) }
    {
        let start = vertex as usize;
        if start >= self.paths.len() {
            return None;
        }
        if self.paths[start].start != vertex {
            return None;
        }
        match self.walk(start, first) {
            None => None,
            Some(at) => self.walk_on(at, second, third),
        }
    }

    /// The place of the path with these arrows and then those behind the path at a place; none where it is no short path. It takes no memory.
    pub(crate) fn walk_on(&self, place: usize, first: &[u8], second: &[u8]) -> Option<usize>
        requires { place < length self.now }
        ensures some { IfSome result (λ k. IsWalked self.now place (first.now ++ second.now) k) }
        ensures none { IfNone result ((k : ℕ) → IsWalked self.now place (first.now ++ second.now) k → ⊥) }
    {
        match self.walk(place, first) {
            None => None,
            Some(at) => self.walk(at, second),
        }
    }
}

/// The paths shorter than the bound.
fn short_paths(alloc: Global, header: &Header) -> Result<Vec<Path>, AllocError>
    requires allowed { IsAllowed header.now }
    requires few { path_count header.now.quiver header.now.bound ≤ 4096 }
    ensures { IfOk result (λ paths. paths.items ≡ paths_below header.now.quiver header.now.bound) }
{
    match paths_below(alloc, &header.quiver, header.bound, u32::MAX) {
        Ok(paths) => Ok(paths),
        Err(PathError::NoMemory) => Err(AllocError),
        Err(PathError::PathLimit { count: _ }) => {
            prove!(false);
            Err(AllocError)
        }
    }
}

/// For each path, in order, its place with each arrow behind it, counted from 1; 0 where that is no short path.
fn places_behind(alloc: Global, header: &Header, paths: &[Path]) -> Result<Vec<u32>, AllocError>
    requires allowed { IsAllowed header.now }
    requires paths { ListsPathsBelow header.now.quiver header.now.bound paths.now }
    requires few { length paths.now ≤ 4096 }
    ensures size { IfOk result (λ behind. length behind.items ≡ length paths.now * arrow_count header.now.quiver) }
    ensures places { IfOk result (λ behind. AreBehind paths.now (arrow_count header.now.quiver) behind.items) }
{
    let mut behind = Vec::new(alloc);
    for place in 0..paths.len() {
        push_places(alloc, header, paths, place, &mut behind)?;
    }
    Ok(behind)
}

/// Adds the places for the path at a place.
fn push_places(
    alloc: Global,
    header: &Header,
    paths: &[Path],
    place: usize,
    behind: &mut Vec<u32>,
) -> Result<(), AllocError>
    requires allowed { IsAllowed header.now }
    requires paths { ListsPathsBelow header.now.quiver header.now.bound paths.now }
    requires few { length paths.now ≤ 4096 }
    requires place { place < length paths.now }
    requires size { length behind.old.items ≡ place * arrow_count header.now.quiver }
    requires places { AreBehind paths.now (arrow_count header.now.quiver) behind.old.items }
    ensures size { OnOk result (length behind.new.items ≡ (place + 1) * arrow_count header.now.quiver) }
    ensures places { OnOk result (AreBehind paths.now (arrow_count header.now.quiver) behind.new.items) }
{
    for arrow in 0..header.quiver.arrows.len() {
        let next = place_behind(alloc, header, paths, place, arrow as u8)?;
        behind.push(next)?;
    }
    Ok(())
}

/// The place of the path with the arrow behind it, counted from 1; 0 where they do not meet or make a path of the bound's length.
fn place_behind(
    alloc: Global,
    header: &Header,
    paths: &[Path],
    place: usize,
    arrow: u8,
) -> Result<u32, AllocError>
    requires allowed { IsAllowed header.now }
    requires paths { ListsPathsBelow header.now.quiver header.now.bound paths.now }
    requires few { length paths.now ≤ 4096 }
    requires place { place < length paths.now }
    requires arrow { arrow < arrow_count header.now.quiver }
    ensures { IfOk result (λ entry. IsPlaceBehind paths.now place arrow entry) }
{
    let path = &paths[place];
    if header.quiver.arrows[arrow as usize].from != path.end {
        return Ok(0);
    }
    if path.arrows.len() + 1 >= header.bound as usize {
        return Ok(0);
    }
    let longer = then_arrow(alloc, &header.quiver, path, arrow)?;
    match path_place(paths, &longer) {
        Some(next) => Ok(next as u32 + 1),
        None => unreachable!(),
    }
}
