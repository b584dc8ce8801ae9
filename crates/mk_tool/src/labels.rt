//! The names of files before lines.

ghost use Rattle.std.specs.Prelude.{◌≡◌, None};
ghost use Rattle.mk_line.specs.Meters.{ticked};

use crate::explaining::{LINE_FEED, first_line};
use mk_mail::{Fault, Sink};
use mk_run::write_all;

/// What stands between a name and a line that reports something.
pub const BEFORE_REPORT: &str = ": ";

/// What stands between a name and a line that is printed, as grep has it.
pub const BEFORE_LINE: &str = ":";

/// Lines that begin with the name of a file.
#[derive(Drop)]
pub struct Labelled<'a, E: Sink> {
    name: &'a str,
    separator: &'static str,
    lines: &'a mut E,
    // Whether a line has begun.
    is_inside: bool,
    faults: u64,
    finishes: u64,
}

impl<'a, E: Sink> Labelled<'a, E> {
    /// The lines that are written here, each after a name and a separator.
    pub fn over(name: &'a str, separator: &'static str, lines: &'a mut E) -> Self {
        Labelled {
            name,
            separator,
            lines,
            is_inside: false,
            faults: 0,
            finishes: 0,
        }
    }

    // Writes the name and the separator.
    fn label(&mut self) -> Result<(), Fault>
        ensures counted { self.new.faults ≡ self.old.faults }
        ensures unfinished { self.new.finishes ≡ self.old.finishes }
    {
        write_all(self.lines, self.name.as_bytes())?;
        write_all(self.lines, self.separator.as_bytes())
    }

    // Counts a failure.
    fn fail(&mut self) -> Fault
        ensures counted { self.new.faults ≡ ticked self.old.faults }
        ensures unfinished { self.new.finishes ≡ self.old.finishes }
    {
        self.faults = self.faults.saturating_add(1);
        Fault
    }
}

impl<E: Sink> Sink for Labelled<'_, E> {
    ghost contents = { λ _. None };

    ghost failures = { λ s. s.faults };

    ghost finishes = { λ s. s.finishes };

    fn write(&mut self, piece: &[u8]) -> Result<usize, Fault> {
        let line = first_line(piece);
        if !self.is_inside && !line.is_empty() {
            match self.label() {
                Ok(()) => self.is_inside = true,
                Err(_) => return Err(self.fail()),
            }
        }
        match self.lines.write(line) {
            Ok(0) if !piece.is_empty() => Err(self.fail()),
            Ok(count) => {
                self.is_inside = count < line.len() || line.last() != Some(&LINE_FEED);
                Ok(count)
            }
            Err(_) => Err(self.fail()),
        }
    }

    fn finish(&mut self) -> Result<(), Fault> {
        match self.lines.finish() {
            Ok(()) => {
                self.finishes = self.finishes.saturating_add(1);
                Ok(())
            }
            Err(_) => Err(self.fail()),
        }
    }

    fn faults(&self) -> u64 {
        self.faults
    }
}
