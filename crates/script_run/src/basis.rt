//! The record of a basis.
ghost use Rattle.std.specs.Prelude.{◌≡◌, ◌<◌, ◌≤◌, ◌^◌, length, IfOk};
ghost use Rattle.quiver_paths.specs.PathList.{path_count};
ghost use Rattle.path_algebra.specs.BasisClauses.{IsBasisClaim, MeetsClauses};
ghost use Rattle.script_types.specs.Lawful.{IsLawful};
ghost use Rattle.script_run.specs.Records.{IsRightRecord, IsBasisAnswer};

use alg_table::Table;
use path_basis::{Reduced, reduce_basis};
use quiver_paths::{Path, PathError};
use report_types::{Claim, Record};
use script_types::Script;
use seq::Seq;
use std::alloc::{AllocError, Global};

/// What is answered to the line `basis`.
#[derive(Drop)]
pub(crate) enum BasisAnswer {
    /// Its record.
    Answered(Record),
    /// So many paths, too many, are shorter than the bound.
    TooMany(u64),
}

/// The answer to the line `basis`.
pub(crate) fn answer_basis(alloc: Global, script: &Script) -> Result<BasisAnswer, AllocError>
    requires { IsLawful script.now }
    ensures { IfOk result (IsBasisAnswer script.now) }
{
    match reduce_basis(alloc, &script.header) {
        Ok(reduced) => {
            let record = basis_record(alloc, script, reduced)?;
            Ok(BasisAnswer::Answered(record))
        }
        Err(PathError::PathLimit { count }) => Ok(BasisAnswer::TooMany(count)),
        Err(PathError::NoMemory) => Err(AllocError),
    }
}

/// The record of the basis.
fn basis_record(alloc: Global, script: &Script, reduced: Reduced) -> Result<Record, AllocError>
    requires lawful { IsLawful script.now }
    requires few { path_count script.now.header.quiver script.now.header.bound ≤ 4096 }
    requires claim { IsBasisClaim script.now.header reduced.table.words reduced.steps reduced.rules }
    requires holds { MeetsClauses script.now.header reduced.table.words reduced.steps reduced.rules }
    requires few_steps { length reduced.steps < 2 ^ 32 }
    requires few_rules { length reduced.rules ≤ 4096 }
    ensures { IfOk result (IsRightRecord script.now) }
{
    let words = words_of(alloc, &reduced.table)?;
    Ok(Record {
        line: script.basis_line,
        modules: Seq::new(alloc),
        maps: Seq::new(alloc),
        claim: Claim::Basis {
            words,
            steps: reduced.steps,
            rules: reduced.rules,
        },
    })
}

/// The words of a table.
fn words_of(alloc: Global, table: &Table) -> Result<Seq<Path>, AllocError>
    ensures { IfOk result (λ words. words ≡ table.now.words) }
{
    let mut words = Seq::new(alloc);
    for i in 0..table.word_count() {
        words.push(table.word(i).clone()?)?;
    }
    Ok(words)
}
