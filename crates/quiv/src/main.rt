//! The calculator: `run` reads a script from standard input and writes its report to standard output, `check` reads a report and writes the verdict on it.
#![tactic(auto)]

use quiv_io::{ReaderSource, WriterSink};
use std::process::ExitCode;
use std::{env, io};
use top_call::quiv;

/// The words behind the program's name, where the system gives them.
fn words_of(rt: &HostRuntime) -> Option<Vec<String>> {
    let args = env::args(rt).ok()?;
    args.skip(1).collect(rt.alloc()).ok()
}

fn main(rt: HostRuntime) -> ExitCode {
    let Some(words) = words_of(&rt) else {
        return ExitCode::from(10);
    };
    let mut source = ReaderSource::new(rt.stdin());
    let mut sink = WriterSink::new(rt.stdout());
    let outcome = quiv(&rt, rt.alloc(), words.as_slice(), &mut source, &mut sink);
    ExitCode::from(outcome.status())
}
