//! The space that the claims of a report are checked in.
ghost use Rattle.std.specs.Prelude.{◌≡◌, ◌≤◌, IfOk, All, max, length};
ghost use Rattle.report_types.specs.declared.claims.Record.{Record as Item};
ghost use Rattle.claim_check.specs.Room.{object_bytes, object_numbers, claim_bytes, claim_numbers, HasRoom};

use alg_table::Table;
use fp_linear::Scratch;
use report_types::{Claim, Record, Report};
use std::alloc::{AllocError, Global};

/// The bytes that a claim is checked in, by its kind.
fn claim_bytes(claim: &Claim) -> u64
    ensures { result ≡ claim_bytes claim.now }
{
    match claim {
        Claim::Hom { .. } => 2_098_176,
        Claim::Kernel { .. } | Claim::Cokernel { .. } => 65_536,
        Claim::Radical { .. } => 131_328,
        Claim::Local { .. } => 4_200_448,
        Claim::Resolution { .. } => 1_579_008,
        Claim::Ext { .. } => 1_312_512,
        Claim::Translate { .. } => 267_264,
        Claim::AlmostSplit { .. } => 400_896,
        Claim::Basis { .. }
        | Claim::Module { .. }
        | Claim::Map { .. }
        | Claim::Decomposition { .. } => 0,
    }
}

/// The numbers that a claim is checked in, by its kind.
fn claim_numbers(claim: &Claim) -> u64
    ensures { result ≡ claim_numbers claim.now }
{
    match claim {
        Claim::Hom { .. } => 2049,
        Claim::Kernel { .. } | Claim::Cokernel { .. } => 256,
        Claim::Radical { .. } => 513,
        Claim::Local { .. } => 4608,
        Claim::Decomposition { .. } => 32,
        Claim::Resolution { .. } => 1537,
        Claim::Ext { .. } => 1025,
        Claim::Translate { .. } | Claim::AlmostSplit { .. } => 512,
        Claim::Basis { .. } | Claim::Module { .. } | Claim::Map { .. } => 0,
    }
}

/// The most bytes that the objects of the records and a claim of theirs are checked in.
fn most_bytes(records: &[Record]) -> u64
    ensures objects { object_bytes ≤ result }
    ensures claims { All (λ (r : Item). claim_bytes r.claim ≤ result) records.now }
{
    let mut most = 262_656;
    for item in records {
        most = most.max(claim_bytes(&item.claim));
    }
    most
}

/// The most numbers that they are checked in.
fn most_numbers(records: &[Record]) -> u64
    ensures objects { object_numbers ≤ result }
    ensures claims { All (λ (r : Item). claim_numbers r.claim ≤ result) records.now }
{
    let mut most = 513;
    for item in records {
        most = most.max(claim_numbers(&item.claim));
    }
    most
}

/// Space for checking each claim of a report.
pub fn scratch_for(alloc: Global, _table: &Table, report: &Report) -> Result<Scratch, AllocError>
    ensures { IfOk result (λ s. HasRoom report.now.records s.bytes.items s.numbers.items) }
{
    let bytes = most_bytes(report.records.as_slice());
    let numbers = most_numbers(report.records.as_slice());
    let scratch = Scratch::reserve(alloc, numbers, bytes)?;
    Ok(scratch)
}
