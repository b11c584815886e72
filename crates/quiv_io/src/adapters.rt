// Readers and writers of std as sources and sinks. They tell nothing of the bytes, since nothing is known of those of
// a file or a terminal.
ghost use Rattle.std.specs.Prelude.{◌≡◌, ◌<◌, ◌≤◌, length, None, IfSome};

use super::streams::{Failed, Sink, Source};
use std::io::{Read, Write};

/// A reader of std as a source.
#[derive(Debug, Drop)]
pub struct ReaderSource<R> {
    reader: R,
    faults: u64,
}

impl<R: Read> ReaderSource<R> {
    /// A source over this reader, with no failure so far.
    pub fn new(reader: R) -> ReaderSource<R>
        ensures { ⟦<ReaderSource<R> as Source>⟧.faults result ≡ 0 }
    {
        ReaderSource { reader, faults: 0 }
    }
}

impl<R: Read> Source for ReaderSource<R> {
    ghost left = { λ _. None };

    ghost faults = { λ s. s.faults };

    fn read(&mut self, into: &mut [u8]) -> Result<usize, Failed> {
        match self.reader.read(into) {
            Ok(n) => Ok(n),
            Err(_) => {
                self.faults = self.faults.saturating_add(1);
                Err(Failed)
            }
        }
    }
}

/// A writer of std as a sink. Each write is flushed.
#[derive(Debug, Drop)]
pub struct WriterSink<W> {
    writer: W,
    faults: u64,
}

impl<W: Write> WriterSink<W> {
    /// A sink over this writer, with no failure so far.
    pub fn new(writer: W) -> WriterSink<W>
        ensures { ⟦<WriterSink<W> as Sink>⟧.faults result ≡ 0 }
    {
        WriterSink { writer, faults: 0 }
    }
}

// Writes bytes from the front of the piece, and says how many went out: None where that failed, or where none of a
// piece did that has some.
fn write_some<W: Write>(writer: &mut W, from: &[u8]) -> Option<usize>
    ensures within { IfSome result (λ n. n ≤ length from.now) }
    ensures some { IfSome result (λ n. 0 < length from.now → 0 < n) }
{
    let n = writer.write(from).ok()?;
    writer.flush().ok()?;
    if n == 0 && !from.is_empty() {
        return None;
    }
    Some(n)
}

impl<W: Write> Sink for WriterSink<W> {
    ghost taken = { λ _. None };

    ghost faults = { λ s. s.faults };

    fn write(&mut self, from: &[u8]) -> Result<usize, Failed> {
        match write_some(&mut self.writer, from) {
            Some(n) => Ok(n),
            None => {
                self.faults = self.faults.saturating_add(1);
                Err(Failed)
            }
        }
    }
}
