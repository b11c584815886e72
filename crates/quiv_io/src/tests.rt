// Faults in the middle, limits, full sinks, and the adapters over a reader and a writer in memory.
ghost use Rattle.std.specs.Prelude.{◌≤◌};

use super::{
    Failed, MemorySink, MemorySource, ReadError, ReaderSource, Sink, SureSink, SureSource,
    WriterSink, read_all, write_whole,
};
use std::alloc::{AllocError, Global};
use std::io::Cursor;
use std::test::Fail;

const TEXT: &[u8] = b"field 2\nvertex v\narrow x v v\nbound 3\nrelation x.x\nbasis\n";

fn source(alloc: Global, piece: usize, failing: &[u64]) -> Result<MemorySource, AllocError>
    requires { 1 ≤ piece }
{
    let bytes = Vec::from_slice(alloc, TEXT)?;
    let failing = Vec::from_slice(alloc, failing)?;
    Ok(MemorySource::new(bytes, piece, failing))
}

fn sink(alloc: Global, room: usize, piece: usize, failing: &[u64]) -> Result<MemorySink, AllocError>
    requires { 1 ≤ piece }
{
    let failing = Vec::from_slice(alloc, failing)?;
    MemorySink::new(alloc, room, piece, failing)
}

#[test]
fn reads_to_the_end(rt: HostRuntime) -> Result<(), Fail> {
    for piece in [1, 10, 1000] {
        let mut source = source(rt.alloc(), piece, &[])?;
        let bytes = read_all(rt.alloc(), &mut source, TEXT.len() as u32)?;
        assert_eq!(rt; bytes.as_slice(), TEXT);
    }
    let mut source = SureSource::new(Vec::from_slice(rt.alloc(), TEXT)?);
    let bytes = read_all(rt.alloc(), &mut source, 4_194_304)?;
    assert_eq!(rt; bytes.as_slice(), TEXT);
    Ok(())
}

#[test]
fn stops_at_a_fault_and_at_the_limit(rt: HostRuntime) -> Result<(), Fail> {
    let mut faulty = source(rt.alloc(), 10, &[2])?;
    assert_eq!(rt;
        read_all(rt.alloc(), &mut faulty, 100).err(),
        Some(ReadError::Fault)
    );
    let rest = read_all(rt.alloc(), &mut faulty, 100)?;
    assert_eq!(rt; rest.as_slice(), &TEXT[10..]);

    let mut long = source(rt.alloc(), 10, &[])?;
    let limit = TEXT.len() as u32 - 1;
    assert_eq!(rt;
        read_all(rt.alloc(), &mut long, limit).err(),
        Some(ReadError::TooLong)
    );
    Ok(())
}

#[test]
fn writes_whole_or_a_front(rt: HostRuntime) -> Result<(), Fail> {
    let mut small = sink(rt.alloc(), 6, 4, &[])?;
    assert_eq!(rt; write_whole(&mut small, b"sink"), Ok(()));
    assert_eq!(rt; write_whole(&mut small, b"full"), Err(Failed));
    assert_eq!(rt; small.bytes(), b"sinkfu".as_slice());

    let mut faulty = sink(rt.alloc(), 100, 4, &[1])?;
    assert_eq!(rt; write_whole(&mut faulty, b"first"), Err(Failed));
    assert_eq!(rt; faulty.bytes(), b"".as_slice());
    assert_eq!(rt; write_whole(&mut faulty, b"second"), Ok(()));
    assert_eq!(rt; faulty.bytes(), b"second".as_slice());

    let mut sure = SureSink::new(rt.alloc(), 3)?;
    assert_eq!(rt; write_whole(&mut sure, b"long"), Ok(()));
    assert_eq!(rt; sure.bytes(), b"lon".as_slice());
    Ok(())
}

#[test]
fn goes_through_std(rt: HostRuntime) -> Result<(), Fail> {
    let mut source = ReaderSource::new(Cursor::new(TEXT));
    let bytes = read_all(rt.alloc(), &mut source, 100)?;
    assert_eq!(rt; bytes.as_slice(), TEXT);

    let mut room = [0u8; 6];
    let mut sink = WriterSink::new(room.as_mut_slice());
    assert_eq!(rt; write_whole(&mut sink, b"sink"), Ok(()));
    assert_eq!(rt; write_whole(&mut sink, b"full"), Err(Failed));
    assert_eq!(rt; room.as_slice(), b"sinkfu".as_slice());
    Ok(())
}
