//! Concatenation of paths.
ghost use Rattle.std.specs.Prelude.{◌≡◌, ◌+◌, ◌≤◌, IfOk, ◌++◌, ◌∷◌, [], length, IsSome, IfSome, ◌↔◌, ◌<◌};
ghost use Rattle.quiver_paths.specs.Path.{IsPath, Meets, concat, path_length, arrow_path};
ghost use Rattle.quiver_paths.specs.Quiver.{arrow_count};

use crate::{Path, Quiver};
use seq::Seq;
use std::alloc::{AllocError, Global};

/// The first path and then the second; none where the first does not end where the second starts.
pub fn concat(
    alloc: Global,
    quiver: &Quiver,
    a: &Path,
    b: &Path,
) -> Result<Option<Path>, AllocError>
    requires { path_length a.now + path_length b.now ≤ 64 }
    ensures meets { IfOk result (λ joined. IsSome joined ↔ Meets a.now b.now) }
    ensures none { (Meets a.now b.now → ⊥) → result ≡ Ok None }
    ensures value { IfOk result (λ joined. IfSome joined (λ p. p ≡ concat a.now b.now)) }
    ensures path { IsPath quiver.now a.now → IsPath quiver.now b.now → IfOk result (λ joined. IfSome joined (IsPath quiver.now)) }
{
    if a.end != b.start {
        return Ok(None);
    }
    let arrows = joined(alloc, a.arrows.as_slice(), b.arrows.as_slice())?;
    Ok(Some(Path {
        start: a.start,
        end: b.end,
        arrows,
    }))
}

/// The arrow, and then the path, which starts where the arrow ends.
pub(crate) fn behind(
    alloc: Global,
    quiver: &Quiver,
    arrow: u8,
    path: &Path,
) -> Result<Path, AllocError>
    requires { arrow < arrow_count quiver.now }
    ensures { IfOk result (λ p. p ≡ concat (arrow_path quiver.now arrow) path.now) }
{
    let arrows = joined(alloc, &[arrow], path.arrows.as_slice())?;
    Ok(Path {
        start: quiver.arrows[arrow as usize].from,
        end: path.end,
        arrows,
    })
}

fn joined(alloc: Global, first: &[u8], second: &[u8]) -> Result<Seq<u8>, AllocError>
    ensures { IfOk result (λ all. all ≡ first.now ++ second.now) }
{
    let mut all = Vec::with_capacity(alloc, first.len().saturating_add(second.len()))?;
    all.extend_from_slice(first)?;
    all.extend_from_slice(second)?;
    Ok(Seq::from_vec(all))
}
