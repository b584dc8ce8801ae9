//! Reasons in words, before the lines that name them (`--explain`).

ghost use Rattle.std.specs.Prelude.{◌≡◌, ◌≤◌, length, None};
ghost use Rattle.mk_line.specs.Meters.{ticked};

use mk_mail::{Fault, Sink};
use mk_run::write_all;
use mk_words::reasons::told;

/// What ends a line.
pub const LINE_FEED: u8 = b'\n';

/// Errors with reasons in words: a line that names a reason comes after one that says what it means.
#[derive(Drop)]
pub struct Explained<'a, E: Sink> {
    command: &'a str,
    err: &'a mut E,
    // Whether a line has begun.
    is_inside: bool,
    faults: u64,
    finishes: u64,
}

impl<'a, E: Sink> Explained<'a, E> {
    /// The errors of a subcommand.
    pub fn over(command: &'a str, err: &'a mut E) -> Self {
        Explained {
            command,
            err,
            is_inside: false,
            faults: 0,
            finishes: 0,
        }
    }

    // Says what a line means, if it names a reason. A failed write is passed over: the line itself is tried next.
    fn tell(&mut self, line: &[u8])
        ensures counted { self.new.faults ≡ self.old.faults }
        ensures unfinished { self.new.finishes ≡ self.old.finishes }
    {
        if let Some((about, sentence)) = told(self.command, line) {
            let _ = write_all(self.err, about);
            let _ = write_all(self.err, sentence.as_bytes());
            let _ = write_all(self.err, b"\n");
        }
    }

    // Counts a failure.
    fn fail(&mut self) -> Fault
        ensures counted { self.new.faults ≡ ticked self.old.faults }
        ensures unfinished { self.new.finishes ≡ self.old.finishes }
    {
        self.faults = self.faults.saturating_add(1);
        Fault
    }
}

/// The first line of a piece, with its line feed.
pub fn first_line(piece: &[u8]) -> &[u8]
    ensures { length result.now ≤ length piece.now }
{
    match piece.iter().position(|byte| *byte == LINE_FEED) {
        Some(place) => match piece.split_at_checked(place.saturating_add(1)) {
            Some((line, _)) => line,
            None => piece,
        },
        None => piece,
    }
}

impl<E: Sink> Sink for Explained<'_, E> {
    ghost contents = { λ _. None };

    ghost failures = { λ s. s.faults };

    ghost finishes = { λ s. s.finishes };

    fn write(&mut self, piece: &[u8]) -> Result<usize, Fault> {
        let line = first_line(piece);
        if !self.is_inside {
            self.tell(line);
        }
        match self.err.write(line) {
            Ok(0) if !piece.is_empty() => Err(self.fail()),
            Ok(count) => {
                self.is_inside = count < line.len() || line.last() != Some(&LINE_FEED);
                Ok(count)
            }
            Err(_) => Err(self.fail()),
        }
    }

    fn finish(&mut self) -> Result<(), Fault> {
        match self.err.finish() {
            Ok(()) => {
                self.finishes = self.finishes.saturating_add(1);
                Ok(())
            }
            Err(_) => Err(self.fail()),
        }
    }

    fn faults(&self) -> u64 {
        self.faults
    }
}
