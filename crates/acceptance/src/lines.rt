//! Tables of first bad lines.
//!
//! A row begins with a line `> LINE`, behind which a name may stand, and its text follows. LINE is the first bad line, counted from 1, or 0 where there is none.

use crate::tables::{answer, ended};
use std::test::Fail;
use std::thread::Threads;

/// Whether the program names the row's line as the first bad one.
fn is_named<R: Threads + AllocGlobal + Sync>(
    rt: &R,
    words: &str,
    head: &str,
    row: &str,
) -> Result<bool, Fail> {
    let alloc = rt.alloc();
    let (first, rest) = row.split_once("\n").ok_or("no text")?;
    let line = match first.split_once(" ") {
        Some((line, _)) => line,
        None => first,
    };
    let mut input = Vec::from_slice(alloc, head.as_bytes())?;
    input.extend_from_slice(ended(alloc, rest)?.as_slice())?;
    let found = answer(rt, words, input)?;
    if line == "0" {
        return Ok(found.status != 3);
    }
    let bad = format!(in alloc; "badtext {line}\n")?;
    Ok(found.status == 3 && found.text.as_slice() == bad.as_bytes())
}

/// The first row of a table, with this text before each, whose line is not named.
pub(crate) fn wrong_row<'a, R: Threads + AllocGlobal + Sync>(
    rt: &R,
    words: &str,
    head: &str,
    table: &'a str,
) -> Result<Option<&'a str>, Fail> {
    for row in table.split("\n> ").skip(1) {
        if !is_named(rt, words, head, row)? {
            return Ok(Some(row));
        }
    }
    Ok(None)
}
