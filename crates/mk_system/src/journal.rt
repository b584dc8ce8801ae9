//! The file that keeps a journal between two runs.

ghost use Rattle.std.specs.Prelude.{◌≡◌, ◌≤◌, length, None, IfOk};
ghost use Rattle.mk_line.specs.Meters.{ticked};

use crate::locking::Lock;
use crate::replacing::{Replacement, followed, open_folder, sync_folder};
use mk_mailbox::{Fault, Sink};
use std::fs::{File, OpenOptions};
use std::io::{Error, ErrorKind, Read, Write};
use std::path::PathBuf;
use std::rt::{Clock, Files};
use std::time::Duration;
use std::{fs, io};

// What was at the path when the run began.
#[derive(Drop)]
enum Found {
    Nothing,
    Regular(File),
    /// A pipe or a device.
    Special,
}

// How far the writing is.
#[derive(Drop)]
enum State {
    Unwritten,
    /// A fresh file is written, which will take the place of the journal.
    Beside(Replacement),
    /// What isn't a regular file is written in place.
    InPlace(File),
    Ended,
}

/// The file of a journal as a sink. It is replaced as a whole: until all is written and is on the disk, it is as it was.
#[derive(Drop)]
pub struct JournalFile<'a, R: Files<File = File> + AllocGlobal> {
    rt: &'a R,
    path: PathBuf,
    /// `None` for a pipe or a device.
    lock: Option<Lock<'a, R>>,
    found: Found,
    state: State,
    error: Option<io::Error>,
    faults: u64,
    finishes: u64,
}

impl<'a, R: Files<File = File> + Clock + AllocGlobal> JournalFile<'a, R> {
    /// Opens the journal at a path, and reads it if it exists. A link is followed. No other run can open it until this
    /// value is dropped. If another run has it open, this waits as long as the limit says, or without a limit as long as it
    /// takes; then that is an error of the kind `WouldBlock`, or `TimedOut` if it waited.
    pub fn open(
        rt: &'a R,
        path: &str,
        limit: Option<Duration>,
    ) -> io::Result<(Self, Option<Vec<u8>>)> {
        let path = followed(rt, path)?;
        let lock = if is_special(rt, &path)? {
            None
        } else {
            Some(Lock::take(rt, &path, limit)?)
        };
        let (found, text) = match OpenOptions::new().read(true).open(rt, path.as_str()) {
            Ok(file) => {
                let (found, text) = read(rt, file)?;
                (found, Some(text))
            }
            Err(error) if error.kind() == ErrorKind::NotFound => (Found::Nothing, None),
            Err(error) => return Err(error),
        };
        let journal = JournalFile {
            rt,
            path,
            lock,
            found,
            state: State::Unwritten,
            error: None,
            faults: 0,
            finishes: 0,
        };
        Ok((journal, text))
    }
}

impl<R: Files<File = File> + AllocGlobal> JournalFile<'_, R> {
    /// Gives up what was written, unless the journal is finished, and answers the error of the call that failed, if one has.
    pub fn close(self) -> Option<io::Error> {
        if let State::Beside(new) = &self.state {
            new.remove(self.rt);
        }
        self.error
    }

    // Begins to write, at the first byte.
    fn begin(&mut self) -> io::Result<()>
        ensures counted { self.new.faults ≡ self.old.faults }
        ensures unfinished { self.new.finishes ≡ self.old.finishes }
    {
        if let Found::Special = self.found {
            let file = OpenOptions::new()
                .write(true)
                .open(self.rt, self.path.as_str())?;
            self.state = State::InPlace(file);
            return Ok(());
        }
        if let Some(lock) = &mut self.lock {
            lock.check()?;
        }
        let new = Replacement::beside(self.rt, &self.path)?;
        let begun = match &self.found {
            Found::Regular(old) => new.copy_permissions(old),
            Found::Nothing | Found::Special => Ok(()),
        };
        self.state = State::Beside(new);
        begun
    }

    // Writes the start of the piece.
    fn write_some(&mut self, piece: &[u8]) -> io::Result<usize>
        ensures counted { self.new.faults ≡ self.old.faults }
        ensures unfinished { self.new.finishes ≡ self.old.finishes }
        ensures bound { IfOk result (λ n. n ≤ length piece.now) }
    {
        if let State::Unwritten = self.state {
            self.begin()?;
        }
        match &mut self.state {
            State::Beside(new) => new.write(piece),
            State::InPlace(file) => file.write(piece),
            State::Unwritten | State::Ended => Err(Error::from(ErrorKind::Other)),
        }
    }

    // Puts the fresh file, if there is one, in the place of the journal.
    fn end(&self) -> io::Result<()> {
        if let State::Beside(new) = &self.state {
            let folder = open_folder(self.rt, &self.path)?;
            new.sync()?;
            match self.found {
                Found::Nothing => new.take_name(self.rt, &self.path)?,
                Found::Regular(_) | Found::Special => new.replace(self.rt, &self.path)?,
            }
            sync_folder(&folder)?;
        }
        Ok(())
    }

    // Counts a failure, and removes the fresh file, if it has no other name yet.
    fn fail(&mut self, error: io::Error) -> Fault
        ensures counted { self.new.faults ≡ ticked self.old.faults }
        ensures unfinished { self.new.finishes ≡ self.old.finishes }
    {
        self.faults = self.faults.saturating_add(1);
        if let State::Beside(new) = &self.state {
            new.remove(self.rt);
        }
        self.state = State::Ended;
        self.error = Some(error);
        Fault
    }
}

// Whether what is at a path is neither a regular file nor nothing. A folder is an error.
fn is_special<R: Files>(rt: &R, path: &PathBuf) -> io::Result<bool> {
    match fs::metadata(rt, path.as_str()) {
        Ok(metadata) if metadata.is_dir() => Err(Error::from(ErrorKind::IsADirectory)),
        Ok(metadata) => Ok(!metadata.is_file()),
        Err(error) if error.kind() == ErrorKind::NotFound => Ok(false),
        Err(error) => Err(error),
    }
}

// Reads a file that was opened.
fn read<R: Files + AllocGlobal>(rt: &R, mut file: File) -> io::Result<(Found, Vec<u8>)> {
    let mut text = Vec::new(rt.alloc());
    file.read_to_end(&mut text)?;
    if file.metadata()?.is_file() {
        Ok((Found::Regular(file), text))
    } else {
        Ok((Found::Special, text))
    }
}

impl<R: Files<File = File> + AllocGlobal> Sink for JournalFile<'_, R> {
    ghost contents = { λ _. None };

    ghost failures = { λ s. s.faults };

    ghost finishes = { λ s. s.finishes };

    fn write(&mut self, piece: &[u8]) -> Result<usize, Fault> {
        match self.write_some(piece) {
            Ok(0) if !piece.is_empty() => Err(self.fail(Error::from(ErrorKind::WriteZero))),
            Ok(count) => Ok(count),
            Err(error) => Err(self.fail(error)),
        }
    }

    fn finish(&mut self) -> Result<(), Fault> {
        match self.end() {
            Ok(()) => {
                self.state = State::Ended;
                self.finishes = self.finishes.saturating_add(1);
                Ok(())
            }
            Err(error) => Err(self.fail(error)),
        }
    }

    fn faults(&self) -> u64 {
        self.faults
    }
}
