//! The standard streams of a program, and other readers and writers of std. They tell nothing of their bytes.

ghost use Rattle.std.specs.Prelude.{◌≡◌, None};

use crate::sink::Sink;
use crate::source::{Failed, Source};
use std::io::{Read, Write};

/// A reader as a source. It counts its calls, and each error of the reader.
#[derive(Drop)]
pub struct StdSource<R> {
    reader: R,
    faults: u64,
    takes: u64,
}

impl<R> StdSource<R> {
    /// A source of what the reader gives, with no fault so far.
    pub fn new(reader: R) -> StdSource<R>
        ensures { (result.reader ≡ reader) × (result.faults ≡ 0) × (result.takes ≡ 0) }
    {
        StdSource {
            reader,
            faults: 0,
            takes: 0,
        }
    }
}

impl<R: Read> Source for StdSource<R> {
    ghost remaining = { λ _. None };

    ghost faults = { λ s. s.faults };

    ghost takes = { λ s. s.takes };

    fn take(&mut self, buf: &mut [u8]) -> Result<usize, Failed> {
        self.takes = self.takes.saturating_add(1);
        match self.reader.read(buf) {
            Ok(n) => Ok(n),
            Err(_error) => {
                self.faults = self.faults.saturating_add(1);
                Err(Failed)
            }
        }
    }
}

/// A writer as a sink. It counts its calls, each error of the writer, and each call that took nothing of a piece.
#[derive(Drop)]
pub struct StdSink<W> {
    writer: W,
    faults: u64,
    standstills: u64,
    puts: u64,
}

impl<W> StdSink<W> {
    /// A sink to what the writer takes, with no fault and no standstill so far.
    pub fn new(writer: W) -> StdSink<W>
        ensures { (result.writer ≡ writer) × (result.faults ≡ 0) × (result.standstills ≡ 0) × (result.puts ≡ 0) }
    {
        StdSink {
            writer,
            faults: 0,
            standstills: 0,
            puts: 0,
        }
    }
}

impl<W: Write> Sink for StdSink<W> {
    ghost contents = { λ _. None };

    ghost faults = { λ s. s.faults };

    ghost standstills = { λ s. s.standstills };

    ghost puts = { λ s. s.puts };

    fn put(&mut self, bytes: &[u8]) -> Result<usize, Failed> {
        self.puts = self.puts.saturating_add(1);
        match self.writer.write(bytes) {
            Ok(n) => {
                if n == 0 && !bytes.is_empty() {
                    self.standstills = self.standstills.saturating_add(1);
                }
                Ok(n)
            }
            Err(_error) => {
                self.faults = self.faults.saturating_add(1);
                Err(Failed)
            }
        }
    }
}
