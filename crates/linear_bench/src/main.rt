//! Runs one task of linear algebra on a matrix of pseudo-random entries, to be timed: `linear_bench TASK FIELD SIZE [TIMES]`, where TASK is rank,
//! kernel, solve or product. Prints a number that depends on the answer.
#![tactic(auto)]

mod tasks;

use anyhow::{Context, Result, ensure};
use std::env;

fn main(rt: HostRuntime) -> Result<()> {
    let mut words = env::args(&rt)?.skip(1);
    let task = words.next().context("a task is wanted")?;
    let field = words
        .next()
        .context("a field is wanted")?
        .as_str()
        .parse::<u32>()?;
    let size = words
        .next()
        .context("a size is wanted")?
        .as_str()
        .parse::<u32>()?;
    ensure!(size <= 4096, "at most 4096 rows");
    let times = match words.next() {
        None => 1,
        Some(word) => word.as_str().parse::<u32>()?,
    };
    let answer = tasks::run(rt.alloc(), task.as_str(), field, size, times)?;
    println!(rt; "{answer}")?;
    Ok(())
}
