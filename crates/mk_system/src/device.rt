//! The devices over the real system.

ghost use Rattle.std.specs.Prelude.{◌≡◌, ◌<◌, Bool, false, not};
ghost use Rattle.mk_line.specs.Meters.{ticked};

use mk_mailbox::{Fault, Sink, Source};
use std::fs::Metadata;
use std::io;
use std::io::{ErrorKind, Read, Write};

/// A reader as a source.
#[derive(Drop)]
pub struct Input<R: Read> {
    reader: R,
    /// How many bytes are left, where that was known when reading began.
    left: Option<usize>,
    error: Option<io::Error>,
    faults: u64,
    reads: u64,
}

impl<R: Read + Drop> Input<R> {
    /// A source over this reader, of which nothing is read yet.
    pub fn new(reader: R) -> Self
        ensures same { ⟦<Input<R> as Source>⟧.remaining result ≡ R.remaining reader }
        ensures well { ⟦<Input<R> as Source>⟧.failures result ≡ 0 }
        ensures unread { ⟦<Input<R> as Source>⟧.read_count result ≡ 0 }
    {
        Input::with_size(reader, None)
    }

    /// The same, where it may be known how many bytes the reader gives.
    pub fn with_size(reader: R, size: Option<usize>) -> Self
        ensures same { ⟦<Input<R> as Source>⟧.remaining result ≡ R.remaining reader }
        ensures well { ⟦<Input<R> as Source>⟧.failures result ≡ 0 }
        ensures unread { ⟦<Input<R> as Source>⟧.read_count result ≡ 0 }
    {
        Input {
            reader,
            left: size,
            error: None,
            faults: 0,
            reads: 0,
        }
    }

    /// Why the last read failed, if one has.
    pub fn close(self) -> Option<io::Error> {
        self.error
    }
}

impl<R: Read + Drop> Source for Input<R> {
    ghost remaining = { λ s. R.remaining s.reader };

    ghost failures = { λ s. s.faults };

    ghost read_count = { λ s. s.reads };

    fn read(&mut self, piece: &mut [u8]) -> Result<usize, Fault> {
        self.reads = self.reads.saturating_add(1);
        match self.reader.read(piece) {
            Ok(count) => {
                if let Some(left) = self.left {
                    self.left = Some(left.saturating_sub(count));
                }
                Ok(count)
            }
            Err(error) => {
                self.faults = self.faults.saturating_add(1);
                self.error = Some(error);
                Err(Fault)
            }
        }
    }

    fn left(&self) -> Option<usize> {
        self.left
    }

    fn faults(&self) -> u64 {
        self.faults
    }

    fn reads(&self) -> u64 {
        self.reads
    }
}

/// How many bytes a file has, where these are known: those of a pipe or a terminal aren't.
pub fn size_in(found: io::Result<Metadata>) -> Option<usize> {
    match found {
        Ok(metadata) if metadata.is_file() => usize::try_from(metadata.len()).ok(),
        _ => None,
    }
}

/// A sink that may be a pipe.
pub trait MaybePipe: Sink {
    ghost broken: { Self → Bool };

    /// Whether a write failed because nobody reads the pipe any more.
    fn is_broken_pipe(&self) -> bool
        ensures { result ≡ broken self.now };
}

/// A writer as a sink.
#[derive(Drop)]
pub struct Output<W: Write> {
    writer: W,
    faults: u64,
    finishes: u64,
    /// Whether the reader of the pipe is there, as far as a write has told.
    has_reader: bool,
}

impl<W: Write + Drop> Output<W> {
    /// A sink over this writer, to which nothing is written yet.
    pub fn new(writer: W) -> Self
        ensures same { ⟦<Output<W> as Sink>⟧.contents result ≡ W.contents writer }
        ensures well { ⟦<Output<W> as Sink>⟧.failures result ≡ 0 }
        ensures whole { ⟦<Output<W> as MaybePipe>⟧.broken result ≡ false }
    {
        Output {
            writer,
            faults: 0,
            finishes: 0,
            has_reader: true,
        }
    }

    // Counts a failure.
    fn fail(&mut self, error: &io::Error) -> Fault
        ensures counted { self.new.faults ≡ ticked self.old.faults }
        ensures unfinished { self.new.finishes ≡ self.old.finishes }
        ensures kept { self.new.writer ≡ self.old.writer }
    {
        self.faults = self.faults.saturating_add(1);
        if error.kind() == ErrorKind::BrokenPipe {
            self.has_reader = false;
        }
        Fault
    }
}

impl<W: Write + Drop> MaybePipe for Output<W> {
    ghost broken = { λ s. not s.has_reader };

    fn is_broken_pipe(&self) -> bool {
        !self.has_reader
    }
}

impl<W: Write + Drop> Sink for Output<W> {
    ghost contents = { λ s. W.contents s.writer };

    ghost failures = { λ s. s.faults };

    ghost finishes = { λ s. s.finishes };

    fn write(&mut self, piece: &[u8]) -> Result<usize, Fault> {
        match self.writer.write(piece) {
            Ok(count) => {
                if count == 0 && !piece.is_empty() {
                    self.faults = self.faults.saturating_add(1);
                }
                Ok(count)
            }
            Err(error) => Err(self.fail(&error)),
        }
    }

    fn finish(&mut self) -> Result<(), Fault> {
        match self.writer.flush() {
            Ok(()) => {
                self.finishes = self.finishes.saturating_add(1);
                Ok(())
            }
            Err(error) => Err(self.fail(&error)),
        }
    }

    fn faults(&self) -> u64 {
        self.faults
    }
}
