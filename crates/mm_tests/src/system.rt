//! Tests of the adapters over real files and streams.

ghost use Rattle.std.specs.Prelude.{◌≤◌, IfOk};

use mm_io::{
    Failed, Files, MemSink, ReadError, Sink, StdFiles, StdSink, StdSource, WriteFault, read_all,
    read_input, write_all,
};
use std::fs;
use std::io::{self, ErrorKind, Read, Write};
use std::test::Fail;

// Bytes that differ by their places, so that each part of the file is another one.
#[test]
fn real_files(rt: HostRuntime) -> Result<(), Fail> {
    let name = "a_real_file";
    let mut text = [0u8; 70_000];
    for at in 0..text.len() {
        text[at] = (at % 251) as u8;
    }
    fs::write(&rt, name, text.as_slice())?;
    let mut files = StdFiles::new(rt.clone()?);
    let whole = read_all(rt.alloc(), &mut files, name, 70_000);
    let mut buf = [0u8; 4];
    let tail = files.read_at(name, 69_997, &mut buf);
    let end = files.read_at(name, 70_000, &mut [0u8; 4]);
    fs::remove_file(&rt, name)?;
    let absent = files.read_at(name, 0, &mut [0u8; 4]);
    assert_eq!(rt; whole?.as_slice(), text.as_slice());
    assert_eq!(rt; tail, Ok(3));
    assert_eq!(rt; buf, [219, 220, 221, 0]);
    assert_eq!(rt; end, Ok(0));
    assert_eq!(rt; absent, Err(Failed));
    Ok(())
}

#[test]
fn real_streams(rt: HostRuntime) -> Result<(), Fail> {
    let mut input = StdSource::new(b"two words".as_slice());
    let all = read_input(rt.alloc(), &mut input, 9)?;
    assert_eq!(rt; all.as_slice(), b"two words".as_slice());
    let mut kept = MemSink::new(rt.alloc(), 9, Vec::new(rt.alloc()), 4)?;
    write_all(&mut kept, &all)?;
    assert_eq!(rt; kept.taken(), all.as_slice());
    let mut out = StdSink::new(io::writer(&rt));
    assert_eq!(rt; write_all(&mut out, b"written\n"), Ok(()));
    Ok(())
}

/// A stream that moves one byte and then fails.
#[derive(Drop)]
struct Breaks {
    broken: bool,
}

impl Breaks {
    /// One byte at most, the first time; a failure from then on.
    fn moves(&mut self, room: usize) -> io::Result<usize>
        ensures { IfOk result (λ n. n ≤ room) }
    {
        if self.broken {
            return Err(io::Error::from(ErrorKind::Other));
        }
        self.broken = true;
        Ok(room.min(1))
    }
}

impl Read for Breaks {
    fn read(&mut self, buf: &mut [u8]) -> io::Result<usize> {
        self.moves(buf.len())
    }
}

impl Write for Breaks {
    fn write(&mut self, buf: &[u8]) -> io::Result<usize> {
        self.moves(buf.len())
    }

    fn flush(&mut self) -> io::Result<()> {
        Ok(())
    }
}

#[test]
fn broken_streams(rt: HostRuntime) -> Result<(), Fail> {
    let mut input = StdSource::new(Breaks { broken: false });
    assert_eq!(rt;
        read_input(rt.alloc(), &mut input, 9).err(),
        Some(ReadError::ReadFault)
    );
    let mut out = StdSink::new(Breaks { broken: false });
    assert_eq!(rt; write_all(&mut out, b"two words"), Err(WriteFault));
    Ok(())
}
