//! Pieces of work that are independent of each other, handed out to threads and gathered in their order.
#![tactic(auto)]

ghost use Rattle.std.specs.Prelude.{◌≡◌, ◌≤◌, ◌++◌, All, IfOk};
ghost use Rattle.std.proofs.Common.{Ok};
ghost use Rattle.std.specs.List.{AllZip};
ghost use denote.Param.Send.{IsSync, IsSend};

use std::alloc::{AllocError, Global};
use std::thread::{Threads, join};

/// What f answers for each of the items, in their order. The items are cut into at most `workers` groups of neighbours, a thread for each group
/// where one can be made; with one worker no thread is used. The one refusal is want of memory: the items and answers are then dropped, and f may
/// not have been called for some of them.
pub fn map_in_order<R: Threads + Sync, T: Send + Drop, U: Send + Drop, F: Fn(T) -> U + Sync>(
    rt: &R,
    alloc: Global,
    items: Vec<T>,
    workers: u32,
    f: &F,
) -> Result<Vec<U>, AllocError>
    requires some { 1 ≤ workers }
    requires few { workers ≤ 16 }
    requires accepts { All (F.pre f.now) items.items }
    ensures { IfOk result (λ answers. AllZip (F.post f.now) items.items answers.items) }
{
    in_groups(rt, alloc, items, workers, f)
}

#[tactic(auto, using(crate::proofs::Zips::append_all_zip))]
fn in_turn<T: Drop, U: Drop, F: Fn(T) -> U>(
    alloc: Global,
    items: Vec<T>,
    f: &F,
) -> Result<Vec<U>, AllocError>
    requires { All (F.pre f.now) items.items }
    ensures { IfOk result (λ answers. AllZip (F.post f.now) items.items answers.items) }
{
    let mut answers = Vec::new(alloc);
    for item in items {
        answers.push(f(item))?;
    }
    Ok(answers)
}

fn in_groups<R: Threads + Sync, T: Send + Drop, U: Send + Drop, F: Fn(T) -> U + Sync>(
    rt: &R,
    alloc: Global,
    mut items: Vec<T>,
    workers: u32,
    f: &F,
) -> Result<Vec<U>, AllocError>
    requires few { workers ≤ 16 }
    requires accepts { All (F.pre f.now) items.items }
    ensures { IfOk result (λ answers. AllZip (F.post f.now) items.items answers.items) }
{
    if workers < 2 || items.len() < 2 {
        return in_turn(alloc, items, f);
    }
    let front_workers = workers / 2;
    let back_workers = workers - front_workers;
    let back_items = items.split_off(items.len() / 2)?;
    let front = move || -> Result<Vec<U>, AllocError>
        requires { IsSync R.row × IsSync F.row × IsSend T.row × IsSend U.row × (front_workers ≤ 16) × All (F.pre f.now) items.items }
        ensures { IfOk result (λ answers. AllZip (F.post f.entry.now) items.items answers.items) }
    { in_groups(rt, alloc, items, front_workers, f) };
    let back = move || -> Result<Vec<U>, AllocError>
        requires { IsSync R.row × IsSync F.row × IsSend T.row × IsSend U.row × (back_workers ≤ 16) × All (F.pre f.now) back_items.items }
        ensures { IfOk result (λ answers. AllZip (F.post f.entry.now) back_items.items answers.items) }
    { in_groups(rt, alloc, back_items, back_workers, f) };
    let (front_answers, back_answers) = join(rt, front, back);
    let answers = gathered(front_answers, back_answers)?;
    Ok(answers)
}

fn gathered<U: Drop>(
    front: Result<Vec<U>, AllocError>,
    back: Result<Vec<U>, AllocError>,
) -> Result<Vec<U>, AllocError>
    ensures { IfOk result (λ answers. (a : _) × (b : _) × (front ≡ Ok a) × (back ≡ Ok b) × (answers.items ≡ a.items ++ b.items)) }
{
    let mut answers = front?;
    answers.append(&mut back?)?;
    Ok(answers)
}

#[cfg(test)]
mod tests;
