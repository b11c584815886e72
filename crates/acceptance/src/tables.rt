//! How tables of text are read, and what the program answers to their rows.
//!
//! A row begins with a line `> NAME | WORDS`. Its input follows, then a line `< STATUS`, then what is written. Each of the two texts ends with a line feed,
//! or is written with a backslash at its end and has none. Where `...` stands in what is written, any text may stand.

use claim_text::{read, write};
use quiv_io::{MemorySink, MemorySource};
use std::alloc::{AllocError, Global};
use std::test::Fail;
use std::thread::Threads;
use top_call::quiv;

/// What a run of the program comes to: its exit status, and what it wrote.
#[derive(Drop)]
pub(crate) struct Written {
    pub(crate) status: u8,
    pub(crate) text: Vec<u8>,
}

/// The bytes that a text of a table stands for.
pub(crate) fn ended(alloc: Global, text: &str) -> Result<Vec<u8>, AllocError> {
    if let Some(open) = text.strip_suffix("\\") {
        return Vec::from_slice(alloc, open.as_bytes());
    }
    let mut bytes = Vec::from_slice(alloc, text.as_bytes())?;
    bytes.push(b'\n')?;
    Ok(bytes)
}

/// The words behind the program's name, which blanks separate.
fn words_of(alloc: Global, text: &str) -> Result<Vec<String>, AllocError> {
    let mut words = Vec::new(alloc);
    for word in text.split(' ') {
        if !word.is_empty() {
            words.push(String::from_str(alloc, word)?)?;
        }
    }
    Ok(words)
}

/// What the program answers to the input.
pub(crate) fn answer<R: Threads + AllocGlobal + Sync>(
    rt: &R,
    words: &str,
    input: Vec<u8>,
) -> Result<Written, AllocError> {
    let alloc = rt.alloc();
    let source = MemorySource::new(input, 1000, Vec::new(alloc));
    let sink = MemorySink::new(alloc, 1_000_000, 1000, Vec::new(alloc))?;
    answer_over(rt, words, source, sink)
}

/// The same in pieces of 7 bytes, where this call of the source and this one of the sink fail, counted from 1.
pub(crate) fn failing_answer<R: Threads + AllocGlobal + Sync>(
    rt: &R,
    words: &str,
    input: Vec<u8>,
    read: u64,
    write: u64,
) -> Result<Written, AllocError> {
    let alloc = rt.alloc();
    let source = MemorySource::new(input, 7, Vec::from_slice(alloc, &[read])?);
    let sink = MemorySink::new(alloc, 1_000_000, 7, Vec::from_slice(alloc, &[write])?)?;
    answer_over(rt, words, source, sink)
}

/// What the program answers over this source and this sink.
fn answer_over<R: Threads + AllocGlobal + Sync>(
    rt: &R,
    words: &str,
    mut source: MemorySource,
    mut sink: MemorySink,
) -> Result<Written, AllocError> {
    let alloc = rt.alloc();
    let words = words_of(alloc, words)?;
    let outcome = quiv(rt, alloc, words.as_slice(), &mut source, &mut sink);
    Ok(Written {
        status: outcome.status(),
        text: Vec::from_slice(alloc, sink.bytes())?,
    })
}

/// What stands behind the first place at which the piece stands.
fn behind<'a>(text: &'a [u8], piece: &[u8]) -> Option<&'a [u8]> {
    for at in 0..text.len() {
        if let Some(rest) = text[at..].strip_prefix(piece) {
            return Some(rest);
        }
    }
    None
}

/// Whether the text is the pattern with some text in the place of each `...`.
fn fits(text: &[u8], pattern: &str) -> bool {
    let Some((front, pieces)) = pattern.split_once("...") else {
        return text == pattern.as_bytes();
    };
    let Some(mut rest) = text.strip_prefix(front.as_bytes()) else {
        return false;
    };
    for piece in pieces.split("...") {
        let Some(more) = behind(rest, piece.as_bytes()) else {
            return false;
        };
        rest = more;
    }
    rest.is_empty()
}

/// Whether the bytes are a text that fits.
fn bytes_fit(alloc: Global, bytes: &[u8], pattern: &str) -> Result<bool, Fail> {
    let pattern = ended(alloc, pattern)?;
    let pattern = str::from_utf8(pattern.as_slice())?;
    Ok(fits(bytes, pattern))
}

/// Whether the row's answer is as it says.
pub(crate) fn holds<R: Threads + AllocGlobal + Sync>(rt: &R, row: &str) -> Result<bool, Fail> {
    holds_with(rt, row, "")
}

/// The same, with these words behind the row's own.
pub(crate) fn holds_with<R: Threads + AllocGlobal + Sync>(
    rt: &R,
    row: &str,
    more: &str,
) -> Result<bool, Fail> {
    let alloc = rt.alloc();
    let (head, rest) = row.split_once("\n").ok_or("no input")?;
    let (_, words) = head.split_once(" |").ok_or("no words")?;
    let (input, rest) = rest.split_once("\n< ").ok_or("no status")?;
    let (status, text) = rest.split_once("\n").ok_or("no text")?;
    let words = format!(in alloc; "{words} {more}")?;
    let found = answer(rt, words.as_str(), ended(alloc, input)?)?;
    if status.parse() != Ok(found.status) {
        return Ok(false);
    }
    bytes_fit(alloc, found.text.as_slice(), text)
}

/// Whether `check` accepts the report that `run` writes to the row's script.
pub(crate) fn is_accepted<R: Threads + AllocGlobal + Sync>(
    rt: &R,
    row: &str,
) -> Result<bool, Fail> {
    let (_, rest) = row.split_once("\n").ok_or("no input")?;
    let (input, _) = rest.split_once("\n< ").ok_or("no status")?;
    let report = answer(rt, "run", ended(rt.alloc(), input)?)?;
    let verdict = answer(
        rt,
        "check",
        Vec::from_slice(rt.alloc(), report.text.as_slice())?,
    )?;
    let shared = answer(rt, "check --workers 16", report.text)?;
    Ok(verdict.status == 0 && shared.status == 0)
}

/// Whether the row's input, where it is a report, is what is written of the report that is read of it.
pub(crate) fn is_written_back(rt: &HostRuntime, row: &str) -> Result<bool, Fail> {
    let alloc = rt.alloc();
    let (_, rest) = row.split_once("\n").ok_or("no input")?;
    let (input, _) = rest.split_once("\n< ").ok_or("no status")?;
    let input = ended(alloc, input)?;
    if input.len() > 67_108_864 {
        return Ok(false);
    }
    let Ok(report) = read(alloc, input.as_slice()) else {
        return Ok(true);
    };
    let text = write(alloc, &report)?;
    Ok(text.as_slice() == input.as_slice())
}
