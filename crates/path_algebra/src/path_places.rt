//! A path with an arrow behind it, and its place among ascending paths.
ghost use Rattle.std.specs.Prelude.{◌≡◌, ◌<◌, length, slice_index_or, Contains, IfOk, MatchOption};
ghost use Rattle.quiver_paths.specs.Path.{concat, arrow_path};
ghost use Rattle.quiver_paths.specs.PathOrder.{IsAscending};
ghost use Rattle.quiver_paths.specs.Quiver.{arrow_count};

use quiver_paths::{Path, Quiver, compare};
use seq::Seq;
use std::alloc::{AllocError, Global};
use std::cmp::Ordering;

/// The path with the arrow behind it, which starts where the path ends.
pub fn then_arrow(
    alloc: Global,
    quiver: &Quiver,
    path: &Path,
    arrow: u8,
) -> Result<Path, AllocError>
    requires { arrow < arrow_count quiver.now }
    ensures { IfOk result (λ p. p ≡ concat path.now (arrow_path quiver.now arrow)) }
{
    let mut arrows = Vec::with_capacity(alloc, path.arrows.len().saturating_add(1))?;
    arrows.extend_from_slice(path.arrows.as_slice())?;
    arrows.push(arrow)?;
    Ok(Path {
        start: path.start,
        end: quiver.arrows[arrow as usize].to,
        arrows: Seq::from_vec(arrows),
    })
}

/// The place of a path among ascending paths; none where it is not one of them. It takes no memory.
pub fn path_place(paths: &[Path], path: &Path) -> Option<usize>
    requires { IsAscending paths.now }
    ensures { MatchOption result (¬ Contains paths.now path.now) (λ k. (k < length paths.now) × (slice_index_or paths.now k path.now ≡ path.now)) }
{
    let mut low = 0;
    let mut high = paths.len();
    while low < high {
        let middle = low + (high - low) / 2;
        let found = &paths[middle];
        match compare(found, path) {
            Ordering::Less => low = middle + 1,
            Ordering::Equal => {
                if found.end != path.end {
                    return None;
                }
                return Some(middle);
            }
            Ordering::Greater => high = middle,
        }
    }
    None
}
