//! What `check` answers with one worker, it answers with more.

use crate::tables::holds_with;
use crate::{local_reports, long_reports, loop_sequences, sequence_reports};
use std::test::Fail;

// The first two sequences over a loop are one that is right and one with two faults.
#[test]
fn workers_change_no_verdict(rt: HostRuntime) -> Result<(), Fail> {
    for (table, count) in [
        (local_reports::rows(), 1usize),
        (long_reports::rows(), 1),
        (loop_sequences::rows(), 2),
        (sequence_reports::rows(), 1),
    ] {
        for row in table.split("\n> ").skip(1).take(count) {
            assert!(rt; holds_with(&rt, row, "--workers 3")?, "{row}");
            assert!(rt; holds_with(&rt, row, "--workers 16")?, "{row}");
        }
    }
    Ok(())
}
