//! Readings and writings, in memory and over devices that fail.

ghost use Rattle.std.specs.Prelude.{◌<◌, ◌≤◌, IfOk};

use std::alloc::{AllocError, Global};
use std::io::{Error, ErrorKind, Read, Write};
use std::test::Fail;
use wire_io::{
    MemorySink, MemorySource, NoPace, Pacer, ReadStop, Sink, Source, StdSink, StdSource,
    read_up_to, write_whole,
};

/// A device that gives or takes two bytes a call, and fails at its third call.
#[derive(Drop)]
struct Device {
    calls: u8,
}

impl Device {
    fn step(&mut self, size: usize) -> std::io::Result<usize>
        ensures { IfOk result (λ count. count ≤ size) }
    {
        self.calls = self.calls.saturating_add(1);
        if self.calls == 3 {
            return Err(Error::from(ErrorKind::Other));
        }
        Ok(size.min(2))
    }
}

impl Read for Device {
    fn read(&mut self, buf: &mut [u8]) -> std::io::Result<usize> {
        self.step(buf.len())
    }
}

impl Write for Device {
    fn write(&mut self, piece: &[u8]) -> std::io::Result<usize> {
        self.step(piece.len())
    }

    fn flush(&mut self) -> std::io::Result<()> {
        Ok(())
    }
}

/// A device that takes nothing.
#[derive(Drop)]
struct Stuck;

impl Write for Stuck {
    fn write(&mut self, _piece: &[u8]) -> std::io::Result<usize> {
        Ok(0)
    }

    fn flush(&mut self) -> std::io::Result<()> {
        Ok(())
    }
}

/// Its proof shows that over a steady source no reading fails.
fn read_steady(alloc: Global, bytes: &[u8]) -> Result<Vec<u8>, AllocError> {
    let mut source = MemorySource::steady(bytes.to_vec(alloc)?);
    match read_up_to(alloc, &mut source, 16) {
        Ok(bytes) => Ok(bytes),
        Err(ReadStop::Memory) => Err(AllocError),
        Err(ReadStop::Failed) => unreachable!(),
    }
}

#[test]
fn over_a_steady_source_no_reading_fails(rt: HostRuntime) -> Result<(), Fail> {
    assert!(rt; read_steady(rt.alloc(), b"abcde")?.as_slice() == b"abcde".as_slice());
    Ok(())
}

/// Its proof shows that in a steady sink's room no writing fails, one after another.
fn write_steady(alloc: Global) -> Result<MemorySink, AllocError> {
    let mut sink = MemorySink::steady(alloc, 5)?;
    let first = write_whole(&mut sink, b"abc");
    prove!(first.is_ok());
    let second = write_whole(&mut sink, b"de");
    prove!(second.is_ok());
    Ok(sink)
}

#[test]
fn in_a_steady_sinks_room_no_writing_fails(rt: HostRuntime) -> Result<(), Fail> {
    assert!(rt; write_steady(rt.alloc())?.bytes() == b"abcde".as_slice());
    Ok(())
}

/// A source of so many bytes, which gives at most so many a call and fails at the listed ones.
fn source_of(
    alloc: Global,
    size: usize,
    most: usize,
    failing: &[u64],
) -> Result<MemorySource, AllocError>
    requires { 0 < most }
{
    let failing = Vec::from_slice(alloc, failing)?;
    Ok(MemorySource::new(vec![in alloc; 7u8; size]?, most, failing))
}

/// How many bytes a reading gives.
fn count_read<S: Source>(alloc: Global, source: &mut S, most: usize) -> Result<usize, ReadStop> {
    Ok(read_up_to(alloc, source, most)?.len())
}

#[test]
fn a_reading_takes_all_or_the_most_it_may(rt: HostRuntime) -> Result<(), Fail> {
    let mut source = source_of(rt.alloc(), 20_000, 9_000, &[])?;
    assert!(rt; count_read(rt.alloc(), &mut source, 12_000) == Ok(12_000));
    assert!(rt; count_read(rt.alloc(), &mut source, 12_000) == Ok(8_000));
    Ok(())
}

#[test]
fn a_failure_in_the_middle_ends_the_reading_and_the_next_one_goes_on(
    rt: HostRuntime,
) -> Result<(), Fail> {
    let mut source = source_of(rt.alloc(), 5, 2, &[1])?;
    assert!(rt; count_read(rt.alloc(), &mut source, 100) == Err(ReadStop::Failed));
    assert!(rt; count_read(rt.alloc(), &mut source, 100) == Ok(3));
    Ok(())
}

const LETTERS: &[u8] = b"seven letters";

/// A sink with room for 16 bytes, which takes three a call and fails at the listed ones.
fn sink_of(alloc: Global, failing: &[u64]) -> Result<MemorySink, AllocError> {
    MemorySink::new(alloc, 16, 3, Vec::from_slice(alloc, failing)?)
}

#[test]
fn a_text_is_written_whole_or_up_to_a_failure(rt: HostRuntime) -> Result<(), Fail> {
    let mut sink = sink_of(rt.alloc(), &[])?;
    assert!(rt; write_whole(&mut sink, LETTERS).is_ok());
    assert!(rt; sink.bytes() == LETTERS);
    let mut sink = sink_of(rt.alloc(), &[2])?;
    assert!(rt; write_whole(&mut sink, LETTERS).is_err());
    assert!(rt; sink.bytes() == &LETTERS[..6]);
    Ok(())
}

#[test]
fn a_reader_of_std_fails_where_it_has_an_error(rt: HostRuntime) {
    let mut source = StdSource::new(Device { calls: 0 });
    assert!(rt; count_read(rt.alloc(), &mut source, 5) == Err(ReadStop::Failed));
    assert!(rt; count_read(rt.alloc(), &mut source, 5) == Ok(5));
}

#[test]
fn a_writer_of_std_fails_where_it_has_an_error_or_takes_nothing(rt: HostRuntime) {
    let mut sink = StdSink::new(Device { calls: 0 });
    assert!(rt; write_whole(&mut sink, b"abcd").is_ok());
    assert!(rt; write_whole(&mut sink, b"e").is_err());
    assert!(rt; StdSink::new(Stuck).write(b"e").is_err());
    assert!(rt; StdSink::new(Stuck).write(b"") == Ok(0));
}

#[test]
fn no_pace_does_nothing() {
    NoPace.before(0, 1);
}
