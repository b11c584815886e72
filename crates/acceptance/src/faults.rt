//! Reads and writes that fail, and reports that are cut off.

use crate::tables::{answer, failing_answer};
use std::alloc::Global;
use std::test::Fail;
use std::thread::Threads;

const SCRIPT: &str = "field 3\nvertex v\narrow x v v\nbound 4\nrelation x.x + x.x.x\nbasis\n";

/// The script, whole.
fn script(alloc: Global) -> Result<Vec<u8>, Fail> {
    Ok(Vec::from_slice(alloc, SCRIPT.as_bytes())?)
}

/// Its report.
fn report<R: Threads + AllocGlobal + Sync>(rt: &R) -> Result<Vec<u8>, Fail> {
    Ok(answer(rt, "run", script(rt.alloc())?)?.text)
}

// The script has 64 bytes, which are read in pieces of 7; the last read finds nothing.
#[test]
fn each_read_fails(rt: HostRuntime) -> Result<(), Fail> {
    for call in 1..=20 {
        let found = failing_answer(&rt, "run", script(rt.alloc())?, call, 0)?;
        if call <= 10 {
            assert_eq!(rt; found.status, 6, "{call}");
            assert!(rt; found.text.is_empty(), "{call}");
        }
        if call > 11 {
            assert_eq!(rt; found.status, 0, "{call}");
        }
    }
    Ok(())
}

#[test]
fn each_write_fails(rt: HostRuntime) -> Result<(), Fail> {
    let whole = report(&rt)?;
    for call in 1..=50 {
        let found = failing_answer(&rt, "run", script(rt.alloc())?, 0, call)?;
        assert!(rt; whole.starts_with(found.text.as_slice()), "{call}");
        if call <= 3 {
            assert_eq!(rt; found.status, 7, "{call}");
        }
        assert!(rt;
            found.status == 7 || (found.status == 0 && found.text.len() == whole.len()),
            "{call}"
        );
    }
    Ok(())
}

#[test]
fn each_cut_is_named(rt: HostRuntime) -> Result<(), Fail> {
    let whole = report(&rt)?;
    let mut line = 1u32;
    for length in 0..whole.len() {
        let cut = Vec::from_slice(rt.alloc(), &whole[..length])?;
        let found = answer(&rt, "check", cut)?;
        let bad = format!(in rt.alloc(); "badtext {line}\n")?;
        assert_eq!(rt; found.status, 3, "{length}");
        assert_eq!(rt; found.text.as_slice(), bad.as_bytes(), "{length}");
        if whole[length] == b'\n' {
            line = line.saturating_add(1);
        }
    }
    Ok(())
}
