//! Real files and streams: the trusted edge, where what the system does is not proved.
//!
//! As files, sinks and sources they do not say their content. If std knows what a stream holds or has left, the stream
//! took or gave what a call says.

ghost use Rattle.std.specs.Prelude.{◌≡◌, ℕ, ◌<◌, ◌≤◌, None, length, take, IfOk, OnOk, OnErr, ⊤};
ghost use Rattle.std.specs.Io.KnownBytes.{Keeps, Appends, Consumes, IsAtEnd};
ghost use Rattle.mm_io.specs.Files.{Rose, raised};
ghost use Rattle.mm_io.specs.Streams.{WrittenStream, ReadStream, ReadsPlaced, GaveFrom};

use crate::{Failed, Files, Sink, Source};
use std::io::{Read, Seek, SeekFrom, Write};
use std::marker::Model;
use std::{fs, io, rt};

/// The files of the system. An absent file is a failure, as any error of the system is. All names share one count of
/// faults, which each error raises.
#[derive(Drop)]
pub struct StdFiles<R: rt::Files + Drop> {
    rt: R,
    faults: u64,
}

impl<R: rt::Files + Drop> Model for StdFiles<R> {
    ghost Value = { ℕ };

    ghost view = { λ s. s.faults };
}

impl<R: rt::Files + Drop> StdFiles<R> {
    /// The files that the runtime reaches, with no fault so far.
    pub fn new(rt: R) -> Self
        ensures { result ≡ 0 }
    {
        StdFiles { rt, faults: 0 }
    }
}

/// Reads bytes of a stream from an offset on.
fn read_placed<S: Read + Seek>(stream: &mut S, offset: u64, buf: &mut [u8]) -> io::Result<usize>
    ensures bound { IfOk result (λ n. n ≤ length buf.new) }
    ensures placed { IfOk result
        (λ n. ReadsPlaced S.stream_position S.remaining stream.old stream.new offset n buf.new) }
{
    stream.seek(SeekFrom::Start(offset))?;
    stream.read(buf)
}

/// Reads bytes of the named file, which is opened anew.
fn read_from<R: rt::Files>(rt: &R, name: &str, offset: u64, buf: &mut [u8]) -> io::Result<usize>
    ensures bound { IfOk result (λ n. n ≤ length buf.new) }
    ensures gave { IfOk result
        (λ n. GaveFrom R.File.stream_position R.File.remaining offset n buf.new) }
{
    let mut file = fs::open(rt, name)?;
    read_placed(&mut file, offset, buf)
}

impl<R: rt::Files + Drop> Files for StdFiles<R> {
    ghost held = { λ _ _. None };

    ghost faults = { λ s _. s };

    // the reads are not kept
    ghost asked = { λ _ _. ⊤ };

    fn read_at(&mut self, name: &str, offset: u64, buf: &mut [u8]) -> Result<usize, Failed>
        ensures bound { IfOk result (λ n. n ≤ length buf.new) }
        ensures cause { OnErr result (Rose self.old self.new) }
        ensures later { self.old ≤ self.new }

        // what is answered is what some open file gave from the offset on, and none only at that file's end; that it is
        // the file of this name, opened in this call, is not said
        ensures gave { IfOk result
            (λ n. GaveFrom R.File.stream_position R.File.remaining offset n buf.new) }

        // each error raises the count, and nothing else does
        ensures ok { OnOk result (self.new ≡ self.old) }
        ensures err { OnErr result (self.new ≡ raised self.old) }
    {
        match read_from(&self.rt, name, offset, buf) {
            Ok(count) => Ok(count),
            Err(_) => {
                self.faults = self.faults.saturating_add(1);
                Err(Failed)
            }
        }
    }
}

/// A stream of the system that is written. A write that takes nothing of a nonempty piece is a
/// failure, as any error of the system is. Each failure raises the count of faults.
#[derive(Drop)]
pub struct StdSink<W: Write + Drop> {
    stream: W,
    faults: u64,
}

impl<W: Write + Drop> Model for StdSink<W> {
    ghost Value = { WrittenStream };

    ghost view = { λ s. record { contents = W.contents s.stream; faults = s.faults } };
}

impl<W: Write + Drop> StdSink<W> {
    /// A sink over the stream, with no fault so far.
    pub fn new(stream: W) -> Self
        ensures { result ≡ record { contents = W.contents stream; faults = 0 } }
    {
        StdSink { stream, faults: 0 }
    }
}

impl<W: Write + Drop> Sink for StdSink<W> {
    ghost taken = { λ _. None };

    ghost faults = { λ s. s.faults };

    fn write(&mut self, piece: &[u8]) -> Result<usize, Failed>
        ensures bound { IfOk result (λ n. n ≤ length piece.now) }
        ensures some { IfOk result (λ n. 0 < length piece.now → 0 < n) }
        ensures cause { OnErr result (Rose self.old.faults self.new.faults) }
        ensures later { self.old.faults ≤ self.new.faults }

        // the stream took what is answered, and nothing at an error
        ensures handed { IfOk result (λ n. Appends self.old.contents self.new.contents (take n piece.now)) }
        ensures nothing { OnErr result (Keeps self.old.contents self.new.contents) }

        // each error raises the count, and nothing else does
        ensures ok { OnOk result (self.new.faults ≡ self.old.faults) }
        ensures err { OnErr result (self.new.faults ≡ raised self.old.faults) }
    {
        match self.stream.write(piece) {
            Ok(count) if count > 0 || piece.is_empty() => Ok(count),
            _ => {
                self.faults = self.faults.saturating_add(1);
                Err(Failed)
            }
        }
    }
}

/// A stream of the system that is read. Each error raises the count of faults.
#[derive(Drop)]
pub struct StdSource<R: Read + Drop> {
    stream: R,
    faults: u64,
}

impl<R: Read + Drop> Model for StdSource<R> {
    ghost Value = { ReadStream };

    ghost view = { λ s. record { remaining = R.remaining s.stream; faults = s.faults } };
}

impl<R: Read + Drop> StdSource<R> {
    /// A source over the stream, with no fault so far.
    pub fn new(stream: R) -> Self
        ensures { result ≡ record { remaining = R.remaining stream; faults = 0 } }
    {
        StdSource { stream, faults: 0 }
    }
}

impl<R: Read + Drop> Source for StdSource<R> {
    ghost left = { λ _. None };

    ghost faults = { λ s. s.faults };

    fn read(&mut self, buf: &mut [u8]) -> Result<usize, Failed>
        ensures bound { IfOk result (λ n. n ≤ length buf.new) }
        ensures cause { OnErr result (Rose self.old.faults self.new.faults) }
        ensures later { self.old.faults ≤ self.new.faults }

        // the stream gave what is answered, is at its end if it gave nothing, and keeps all at an error
        ensures handed { IfOk result (λ n. Consumes self.old.remaining self.new.remaining (take n buf.new)) }
        ensures ends { IfOk result (λ n. n ≡ 0 → 0 < length buf.new → IsAtEnd self.new.remaining) }
        ensures nothing { OnErr result (Keeps self.old.remaining self.new.remaining) }

        // each error raises the count, and nothing else does
        ensures ok { OnOk result (self.new.faults ≡ self.old.faults) }
        ensures err { OnErr result (self.new.faults ≡ raised self.old.faults) }
    {
        match self.stream.read(buf) {
            Ok(count) => Ok(count),
            Err(_) => {
                self.faults = self.faults.saturating_add(1);
                Err(Failed)
            }
        }
    }
}
