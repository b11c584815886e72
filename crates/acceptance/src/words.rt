//! What words ask for.

use crate::tables::answer;
use std::alloc::Global;
use std::test::Fail;

const SCRIPT: &str = "field 2\nvertex 1\nbound 2\nbasis\n";

const USAGE: &str = "usage: quiv run|check [--workers K] | quiv gen --seed S --size N\n";

/// Words that ask for nothing, a line for each; in the first there is no word.
const NOTHING: &str = "
walk
Run
run extra
extra run
run check
run run
run --seed 1
gen --seed 1
gen --workers 3
walk --workers 3
check --workers
--workers check
check --workers 0
--workers 0 check
check --workers 17
--workers 17 check
check --workers 01
--workers 01 check
check --workers 03
run --workers +1
run --workers -1
run --workers 0x1
run --workers one
run --workers 1a
run --workers 4294967297
run --workers 18446744073709551617
run --worker 3
run --workers3
run -workers 3
run 3 --workers
3 --workers run
--workers 3
--workers run 3
--workers
--workers --workers 3
run --workers 3 extra
extra run --workers 3
run --workers 1 --workers 1
--workers 1 run --workers 1
--workers 1 --workers 1 run";

/// Words that ask for a run of the script, a line for each.
const RUNS: &str = "run
run --workers 1
run --workers 9
run --workers 16
--workers 1 run
--workers 10 run
--workers 16 run";

fn nothing() -> &'static str {
    NOTHING
}

fn runs() -> &'static str {
    RUNS
}

/// The script, whole.
fn script(alloc: Global) -> Result<Vec<u8>, Fail> {
    Ok(Vec::from_slice(alloc, SCRIPT.as_bytes())?)
}

#[test]
fn words_ask_for_nothing(rt: HostRuntime) -> Result<(), Fail> {
    for words in nothing().split("\n") {
        let found = answer(&rt, words, script(rt.alloc())?)?;
        assert_eq!(rt; found.status, 5, "{words}");
        assert_eq!(rt; found.text.as_slice(), USAGE.as_bytes(), "{words}");
    }
    Ok(())
}

#[test]
fn words_ask_for_a_run(rt: HostRuntime) -> Result<(), Fail> {
    let wanted = answer(&rt, "run", script(rt.alloc())?)?;
    for words in runs().split("\n") {
        let found = answer(&rt, words, script(rt.alloc())?)?;
        assert_eq!(rt; found.status, 0, "{words}");
        assert_eq!(rt; found.text.as_slice(), wanted.text.as_slice(), "{words}");
    }
    Ok(())
}
