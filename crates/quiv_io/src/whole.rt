// Reading to the end, and writing a whole text.
ghost use Rattle.std.specs.Prelude.{◌≤◌, length, IfOk, IfErr, OnOk, OnErr, IsErrOf};
ghost use Rattle.quiv_io.specs.Counts.{Rose};
ghost use Rattle.quiv_io.specs.Bytes.{Takes, TakesFront};
ghost use Rattle.quiv_io.specs.Whole.{GivesAll, GivesBefore};

use super::streams::{Failed, Sink, Source};
use std::alloc::Global;
use thiserror::Error;

/// Why a source was not read to its end.
#[derive(Clone, Copy, Debug, PartialEq, Eq, Error)]
pub enum ReadError {
    #[error("a read failed")]
    Fault,
    #[error("the input is too long")]
    TooLong,
    #[error("out of memory")]
    NoMemory,
}

/// How many bytes are asked of a source in one call.
const PIECE: usize = 8192;

/// All bytes that the source has left, if there are at most `limit`. Reading stops at one byte more than that. The
/// bytes that were read before an error are lost.
pub fn read_all<S: Source>(alloc: Global, source: &mut S, limit: u32) -> Result<Vec<u8>, ReadError>
    ensures count { S.faults source.old ≤ S.faults source.new }

    // All that was left is read, and fits the limit.
    ensures read { IfOk result (λ v. GivesAll (S.left source.old) v.items (S.left source.new)) }
    ensures within { IfOk result (λ v. length v.items ≤ limit) }

    // A fault is one that the source counted, and the input is too long exactly where more than the limit was read.
    ensures fault { IsErrOf result ReadError.Fault → Rose (S.faults source.old) (S.faults source.new) }
    ensures refused { IfErr result (λ e. GivesBefore e limit (S.left source.old) (S.left source.new)) }
{
    let most = limit as usize;
    let mut bytes = Vec::new(alloc);
    let mut piece = [0u8; PIECE];
    'pieces: loop {
        let room = (most + 1 - bytes.len()).min(PIECE);
        let Ok(n) = source.read(&mut piece[..room]) else {
            return Err(ReadError::Fault);
        };
        if n == 0 {
            return Ok(bytes);
        }
        if n > most - bytes.len() {
            return Err(ReadError::TooLong);
        }
        if bytes.extend_from_slice(&piece[..n]).is_err() {
            return Err(ReadError::NoMemory);
        }
    }
}

/// Writes the whole text to the sink, in as many calls as it takes. It takes no memory.
pub fn write_whole<K: Sink>(sink: &mut K, text: &[u8]) -> Result<(), Failed>
    ensures count { K.faults sink.old ≤ K.faults sink.new }
    ensures written { OnOk result (Takes (K.taken sink.old) text.now (K.taken sink.new)) }
    ensures failed { OnErr result (Rose (K.faults sink.old) (K.faults sink.new)) }
    ensures front { OnErr result (TakesFront (K.taken sink.old) text.now (K.taken sink.new)) }
{
    let mut at = 0;
    while at < text.len() {
        let Ok(n) = sink.write(&text[at..]) else {
            return Err(Failed);
        };
        at += n;
    }
    Ok(())
}
