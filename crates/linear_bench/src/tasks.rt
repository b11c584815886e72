//! The tasks.
ghost use Rattle.std.specs.Prelude.{◌≡◌, ◌*◌, ◌≤◌, IfOk, length};
ghost use Rattle.linear_algebra.specs.Field.{order};
ghost use Rattle.fp_linear.specs.Slices.{AreElements};
ghost use Rattle.fp_linear.specs.Matrix.{plain};

use anyhow::{Context, Result, bail};
use fp_linear::{Field, Matrix, echelon_in_place};
use std::alloc::{AllocError, Global};

/// Runs a task `times` times on matrices of `size` rows and columns, and answers a number that depends on its result.
pub fn run(alloc: Global, task: &str, field: u32, size: u32, times: u32) -> Result<u64>
    requires { size ≤ 4096 }
{
    let field = Field::of(field).context("no such field")?;
    let mut answer = 0;
    for _ in 0..times {
        answer = run_once(alloc, task, field, size)?;
    }
    Ok(answer)
}

fn run_once(alloc: Global, task: &str, field: Field, size: u32) -> Result<u64>
    requires { size ≤ 4096 }
{
    let mut matrix = random(alloc, field, size, 1)?;
    match task {
        "rank" => {
            let mut pivots = vec![in alloc; 0u32; size as usize]?;
            Ok(echelon_in_place(&mut matrix, &mut pivots) as u64)
        }
        "kernel" => Ok(matrix.kernel(alloc)?.rows() as u64),
        "product" => {
            let other = random(alloc, field, size, 2)?;
            Ok(matrix.mul(alloc, &other)?.rows() as u64)
        }
        "solve" => {
            let other = random(alloc, field, size, 2)?;
            match matrix.solve(alloc, &other)? {
                None => Ok(0),
                Some(x) => Ok(x.rows() as u64),
            }
        }
        _ => bail!("no such task"),
    }
}

fn random(alloc: Global, field: Field, size: u32, seed: u32) -> Result<Matrix, AllocError>
    requires { size ≤ 4096 }
    ensures { IfOk result (λ m. m ≡ plain field size size m.rows) }
{
    let entries = random_entries(alloc, field, size as usize * size as usize, seed)?;
    Matrix::from_entries(alloc, field, size, size, &entries)
}

fn random_entries(
    alloc: Global,
    field: Field,
    count: usize,
    seed: u32,
) -> Result<Vec<u8>, AllocError>
    ensures count { IfOk result (λ v. length v.items ≡ count) }
    ensures elements { IfOk result (λ v. AreElements field v.items) }
{
    let mut entries = Vec::with_capacity(alloc, count)?;
    let mut x = seed;
    for _ in 0..count {
        x = x.wrapping_mul(1664525).wrapping_add(1013904223);
        entries.push(((x >> 26) % field.size()) as u8)?;
    }
    Ok(entries)
}
