//! The list of all paths below a length.
ghost use Rattle.std.specs.Prelude.{◌≡◌, ◌≤◌, ◌<◌, ◌-◌, ◌^◌, min, IfOk, OnOk, IfErr, ◌++◌, take, drop, map, length, vec_len};
ghost use Rattle.std.specs.List.{flat_map, range_with_len};
ghost use Rattle.quiver_paths.specs.declared.PathError.TheVariants.{PathLimit, NoMemory};
ghost use Rattle.quiver_paths.specs.Quiver.{IsQuiver, vertex_count, arrow_count};
ghost use Rattle.quiver_paths.specs.Path.{trivial_path};
ghost use Rattle.quiver_paths.specs.PathList.{behind_arrow, paths_below, path_count, saturated, ListsPathsBelow};

use crate::counting::count_below;
use crate::joining::behind;
use crate::{Path, PathError, Quiver};
use seq::Seq;
use std::alloc::{AllocError, Global};

/// All paths of the quiver shorter than `t`, in ascending order.
///
/// `PathLimit` comes exactly where there are more than `limit`.
pub fn paths_below(
    alloc: Global,
    quiver: &Quiver,
    t: u32,
    limit: u32,
) -> Result<Vec<Path>, PathError>
    requires quiver { IsQuiver quiver.now }
    requires bound { t ≤ 33 }
    ensures listed { IfOk result (λ paths. ListsPathsBelow quiver.now t paths.items) }
    ensures value { IfOk result (λ paths. paths.items ≡ paths_below quiver.now t) }
    ensures within { OnOk result (path_count quiver.now t ≤ limit) }
    ensures refused { limit < path_count quiver.now t → result ≡ Err (PathLimit (saturated (path_count quiver.now t))) }
    ensures memory { path_count quiver.now t ≤ limit → IfErr result (λ e. e ≡ NoMemory) }
{
    let count = count_below(quiver, t);
    if count > u64::from(limit) {
        return Err(PathError::PathLimit { count });
    }
    let paths = list_below(alloc, quiver, t)?;
    Ok(paths)
}

/// The list, of any length.
fn list_below(alloc: Global, quiver: &Quiver, t: u32) -> Result<Vec<Path>, AllocError>
    requires { IsQuiver quiver.now }
    ensures { IfOk result (λ paths. paths.items ≡ paths_below quiver.now t) }
{
    let mut paths = Vec::new(alloc);
    if t == 0 {
        return Ok(paths);
    }
    push_trivial(alloc, quiver, &mut paths)?;
    let mut begin = 0;
    for _length in 1..t {
        let end = paths.len();
        push_longer(alloc, quiver, &mut paths, begin)?;
        begin = end;
    }
    Ok(paths)
}

/// Adds the trivial path at each vertex.
fn push_trivial(alloc: Global, quiver: &Quiver, paths: &mut Vec<Path>) -> Result<(), AllocError>
    requires { IsQuiver quiver.now }
    ensures { OnOk result (paths.new.items ≡ paths.old.items ++ map trivial_path (range_with_len 0 (vertex_count quiver.now))) }
{
    for v in 0..quiver.vertices.len() {
        let vertex = v as u8;
        paths.push(Path {
            start: vertex,
            end: vertex,
            arrows: Seq::new(alloc),
        })?;
    }
    Ok(())
}

/// Adds, for each arrow in its order, the arrow followed by each of the paths from `begin` on that it meets.
fn push_longer(
    alloc: Global,
    quiver: &Quiver,
    paths: &mut Vec<Path>,
    begin: usize,
) -> Result<(), AllocError>
    requires quiver { IsQuiver quiver.now }
    requires begin { begin ≤ vec_len paths.old }
    ensures { OnOk result (paths.new.items ≡ paths.old.items ++ flat_map (behind_arrow quiver.now (drop begin paths.old.items)) (range_with_len 0 (arrow_count quiver.now))) }
{
    let end = paths.len();
    for a in 0..quiver.arrows.len() {
        push_behind(alloc, quiver, a as u8, paths, begin, end)?;
    }
    Ok(())
}

/// Adds the arrow followed by each of the paths from `begin` to `end` that it meets.
fn push_behind(
    alloc: Global,
    quiver: &Quiver,
    arrow: u8,
    paths: &mut Vec<Path>,
    begin: usize,
    end: usize,
) -> Result<(), AllocError>
    requires arrow { arrow < arrow_count quiver.now }
    requires begin { begin ≤ end }
    requires end { end ≤ vec_len paths.old }
    ensures { OnOk result (paths.new.items ≡ paths.old.items ++ behind_arrow quiver.now (take (end - begin) (drop begin paths.old.items)) arrow) }
{
    let target = quiver.arrows[arrow as usize].to;
    for i in begin..end {
        if paths[i].start == target {
            let longer = behind(alloc, quiver, arrow, &paths[i])?;
            paths.push(longer)?;
        }
    }
    Ok(())
}
