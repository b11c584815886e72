//! Claims that are checked at the same time.

use claim_check::check_gated;
use claim_text::read;
use report_types::Verdict;
use std::sync::atomic::{AtomicU64, Ordering};
use std::test::Fail;

/// The smallest almost split sequence: of two workers one has claim 2, the other claim 6.
const REPORT: &str = "report 1
field 2
vertex 1
vertex 2
arrow a 1 2
bound 2
claim 1 line 6 basis
words 3
word @1
word @2
word a
steps 0
rules 0
module 1 right 1 0
claim 2 line 7 module 1
claim 3 line 8 hom 1 1 1
row 1
claim 4 line 8 local 1 using 3
ideal 0
power 1
residue frobenius
claim 5 line 8 resolution 1 1
term 0 1 1
gen 1
term 1 1 2
gen 1
module 2 right 0 1
module 3 right 1 1
at a 1
map 1 2 3
at 2 1
map 2 3 1
at 1 1
claim 6 line 8 almostsplit 2 3 1 1 2 using 5 4
phi 1
left
at 2 1
middle
at 1 1 1
at 2 1
end 6
";

/// Raises the first flag, and waits for a while until the second one is raised. Where it was, one more is counted.
fn meet(own: &AtomicU64, other: &AtomicU64, seen: &AtomicU64) {
    own.store(1, Ordering::SeqCst);
    for _ in 0..2_000_000_000u32 {
        if other.load(Ordering::SeqCst) == 1 {
            seen.fetch_add(1, Ordering::SeqCst);
            return;
        }
    }
}

#[test]
fn two_claims_at_once(rt: HostRuntime) -> Result<(), Fail> {
    let left = AtomicU64::new(0);
    let right = AtomicU64::new(0);
    let seen = AtomicU64::new(0);
    let Ok(report) = read(rt.alloc(), REPORT.as_bytes()) else {
        return Err("no report".into());
    };
    let verdict = check_gated(
        &rt,
        rt.alloc(),
        &report,
        2,
        &|claim: u32| {
            if claim == 2 {
                meet(&left, &right, &seen);
            }
            if claim == 6 {
                meet(&right, &left, &seen);
            }
        },
    )?;
    assert_eq!(rt; verdict, Verdict::Holds);
    assert_eq!(rt; seen.load(Ordering::SeqCst), 2);
    Ok(())
}
