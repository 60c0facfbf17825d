//! Sources and sinks, those over memory and those of the system.

use krml_trace::{
    Failed, MemSink, MemSource, Name, RealSink, RealSource, Seq, Sink, SinkFault, Source, SureSink,
    SureSource, Width,
};
use std::io::{self, ErrorKind, Read, Write};
use std::test::Fail;

/// A device that fails at each call.
#[derive(Drop)]
struct Broken;

impl Read for Broken {
    fn read(&mut self, _buf: &mut [u8]) -> io::Result<usize> {
        Err(io::Error::from(ErrorKind::Other))
    }
}

/// A device that takes nothing.
#[derive(Drop)]
struct Stalled;

impl Write for Stalled {
    fn write(&mut self, _buf: &[u8]) -> io::Result<usize> {
        Ok(0)
    }

    fn flush(&mut self) -> io::Result<()> {
        Ok(())
    }
}

/// A device that refuses each call, for want of memory.
#[derive(Drop)]
struct Full;

impl Write for Full {
    fn write(&mut self, _buf: &[u8]) -> io::Result<usize> {
        Err(io::Error::from(ErrorKind::OutOfMemory))
    }

    fn flush(&mut self) -> io::Result<()> {
        Ok(())
    }
}

#[test]
fn words_of_all(rt: HostRuntime) -> Result<(), Fail> {
    let name = Name::new(rt.alloc(), b"x_1")?;
    assert_eq!(rt; name.as_bytes(), b"x_1".as_slice());
    let mut list = Seq::new(rt.alloc());
    list.push(7u64)?;
    assert_eq!(rt; list.as_slice(), [7].as_slice());
    for (width, want) in [(Width::W8, 0), (Width::W32, 0), (Width::W64, 1 << 32)] {
        assert_eq!(rt; width.wrap(1 << 32), want);
    }
    Ok(())
}

#[test]
fn real_source(rt: HostRuntime) {
    let mut buf = [0u8; 2];
    let mut source = RealSource::new(b"abc".as_slice());
    assert_eq!(rt; source.read(&mut buf), Ok(2));
    assert_eq!(rt; buf.as_slice(), b"ab".as_slice());
    assert_eq!(rt; source.read(&mut buf), Ok(1));
    assert_eq!(rt; source.read(&mut buf), Ok(0));
    let mut broken = RealSource::new(Broken);
    assert_eq!(rt; broken.read(&mut buf), Err(Failed));
}

#[test]
fn real_sink(rt: HostRuntime) {
    let mut sink = RealSink::new(Vec::new(rt.alloc()));
    assert_eq!(rt; sink.write(b"abc"), Ok(3));
    assert_eq!(rt; sink.write(b""), Ok(0));
    let mut stalled = RealSink::new(Stalled);
    assert_eq!(rt; stalled.write(b""), Ok(0));
    assert_eq!(rt; stalled.write(b"abc"), Err(SinkFault::Failed));
    let mut full = RealSink::new(Full);
    assert_eq!(rt; full.write(b""), Err(SinkFault::Failed));
    assert_eq!(rt; full.write(b"abc"), Err(SinkFault::Failed));
}

#[test]
fn memory_source(rt: HostRuntime) -> Result<(), Fail> {
    let mut buf = [0u8; 4];
    let mut source = MemSource::new(rt.alloc(), b"abcdef", &[1], 3)?;
    assert_eq!(rt; source.read(&mut buf), Ok(3));
    assert_eq!(rt; source.read(&mut buf), Err(Failed));
    assert_eq!(rt; buf.as_slice(), b"abc\0".as_slice());
    assert_eq!(rt; source.read(&mut buf), Ok(3));
    assert_eq!(rt; source.read(&mut buf), Ok(0));
    let mut sure = SureSource::new(rt.alloc(), b"abcdef")?;
    assert_eq!(rt; sure.read(&mut buf), Ok(4));
    assert_eq!(rt; sure.read(&mut buf), Ok(2));
    assert_eq!(rt; buf.as_slice(), b"efcd".as_slice());
    Ok(())
}

#[test]
fn memory_sink(rt: HostRuntime) -> Result<(), Fail> {
    let mut sink = MemSink::new(rt.alloc(), &[1], 2)?;
    assert_eq!(rt; sink.write(b"abc"), Ok(2));
    assert_eq!(rt; sink.write(b"c"), Err(SinkFault::Failed));
    assert_eq!(rt; sink.write(b"c"), Ok(1));
    assert_eq!(rt; sink.bytes(), b"abc".as_slice());
    let mut sure = SureSink::new(rt.alloc())?;
    assert_eq!(rt; sure.write(b"abc"), Ok(3));
    assert_eq!(rt; sure.bytes(), b"abc".as_slice());
    Ok(())
}
