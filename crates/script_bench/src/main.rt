//! Reads a script from standard input and prints how many statements it has, or its first bad line: to be timed.
#![tactic(auto)]

use quiv_io::{ReaderSource, read_all};
use script_lang::{ParseError, parse};
use std::io;

const MOST_BYTES: u32 = 4_194_304;

fn main(rt: HostRuntime) -> io::Result<()> {
    let mut source = ReaderSource::new(rt.stdin());
    let Ok(text) = read_all(rt.alloc(), &mut source, MOST_BYTES) else {
        println!(rt; "unread")?;
        return Ok(());
    };
    match parse(rt.alloc(), text.as_slice()) {
        Ok(script) => println!(rt; "{}", script.statements.len())?,
        Err(ParseError::BadText { line }) => println!(rt; "badtext {line}")?,
        Err(ParseError::NoMemory) => println!(rt; "no memory")?,
    }
    Ok(())
}
