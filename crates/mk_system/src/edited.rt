//! The file of a message that is edited in place.

ghost use Rattle.std.specs.Prelude.{◌≡◌, ◌≤◌, length, None, IfOk};
ghost use Rattle.mk_line.specs.Meters.{ticked};

use crate::locking::Lock;
use crate::replacing::{Replacement, followed, open_folder, sync_folder};
use crate::stamps::Stamp;
use mk_mailbox::{CHUNK_BYTES, Fault, Sink};
use std::fs::File;
use std::io;
use std::io::{Error, ErrorKind, Read};
use std::path::PathBuf;
use std::rt::{Clock, Files};
use std::time::Duration;

/// What is said of a file that another program has written to, or replaced, since it was opened.
const CHANGED: &str = "another program has changed it";

/// What is said of a pipe or a device.
const SPECIAL: &str = "not a regular file";

// How far the writing is.
#[derive(Drop)]
enum State {
    /// What was written so far is how the file begins.
    Same { length: u64 },
    /// A fresh file is written, which will take the place of the old one.
    Beside(Replacement),
    Ended,
}

/// The file that a message comes from, as the sink of the result. It is replaced as a whole: until all is written and is
/// on the disk, it is as it was. If it would get the bytes that it has, nothing is done to it.
#[derive(Drop)]
pub struct EditedFile<'a, R: Files<File = File> + AllocGlobal> {
    rt: &'a R,
    path: PathBuf,
    lock: Lock<'a, R>,
    original: File,
    found: Stamp,
    state: State,
    error: Option<io::Error>,
    faults: u64,
    finishes: u64,
}

impl<'a, R: Files<File = File> + Clock + AllocGlobal> EditedFile<'a, R> {
    /// Opens the file at a path, once as a sink and once for reading. A link is followed. No other run can open it as a sink
    /// until this one is dropped. If another run has it open, this waits as long as the limit says, or without a limit as long
    /// as it takes; then that is an error of the kind `WouldBlock`, or `TimedOut` if it waited. What isn't a regular file is
    /// an error of the kind `InvalidInput`.
    pub fn open(rt: &'a R, path: &str, limit: Option<Duration>) -> io::Result<(Self, File)> {
        let path = followed(rt, path)?;
        let metadata = std::fs::metadata(rt, path.as_str())?;
        if metadata.is_dir() {
            return Err(Error::from(ErrorKind::IsADirectory));
        }
        if !metadata.is_file() {
            return Err(Error::new(ErrorKind::InvalidInput, SPECIAL));
        }
        let lock = Lock::take(rt, &path, limit)?;
        let old = File::open(rt, path.as_str())?;
        let found = Stamp::of(&old)?;
        let message = File::open(rt, path.as_str())?;
        let edited = EditedFile {
            rt,
            path,
            lock,
            original: old,
            found,
            state: State::Same { length: 0 },
            error: None,
            faults: 0,
            finishes: 0,
        };
        Ok((edited, message))
    }
}

impl<R: Files<File = File> + AllocGlobal> EditedFile<'_, R> {
    /// Gives up what was written, unless the file is finished, and answers the error of the call that failed, if one has.
    pub fn close(self) -> Option<io::Error> {
        if let State::Beside(new) = &self.state {
            new.remove(self.rt);
        }
        self.error
    }

    // Writes the start of the piece.
    fn write_some(&mut self, piece: &[u8]) -> io::Result<usize>
        ensures counted { self.new.faults ≡ self.old.faults }
        ensures unfinished { self.new.finishes ≡ self.old.finishes }
        ensures bound { IfOk result (λ n. n ≤ length piece.now) }
    {
        if let State::Same { length } = self.state {
            let count = self.same_bytes(piece)?;
            if count > 0 || piece.is_empty() {
                let length = length.saturating_add(count as u64);
                self.state = State::Same { length };
                return Ok(count);
            }
            self.begin(length)?;
        }
        match &mut self.state {
            State::Beside(new) => new.write(piece),
            State::Same { .. } | State::Ended => Err(Error::from(ErrorKind::Other)),
        }
    }

    // How many bytes of the piece the old file has next; 0 if one of those that are looked at differs. It isn't inlined, so
    // its buffer and that of `copy_front` are never on the stack together, which may have no room for both.
    #[inline(never)]
    fn same_bytes(&mut self, piece: &[u8]) -> io::Result<usize>
        ensures counted { self.new.faults ≡ self.old.faults }
        ensures unfinished { self.new.finishes ≡ self.old.finishes }
        ensures bound { IfOk result (λ n. n ≤ length piece.now) }
    {
        let mut buffer = [0u8; CHUNK_BYTES];
        let room = piece.len().min(CHUNK_BYTES);
        let count = self.original.read(&mut buffer[..room])?;
        if piece.starts_with(&buffer[..count]) {
            Ok(count)
        } else {
            Ok(0)
        }
    }

    // Makes the fresh file, which begins with as many bytes of the old one.
    fn begin(&mut self, length: u64) -> io::Result<()>
        ensures counted { self.new.faults ≡ self.old.faults }
        ensures unfinished { self.new.finishes ≡ self.old.finishes }
    {
        self.lock.check()?;
        let mut new = Replacement::beside(self.rt, &self.path)?;
        let begun = match new.copy_permissions(&self.original) {
            Ok(()) => new.copy_front(&mut self.original, length),
            Err(error) => Err(error),
        };
        self.state = State::Beside(new);
        begun
    }

    // Puts what was written in the place of the old file, if it differs from that.
    fn end(&mut self) -> io::Result<()>
        ensures counted { self.new.faults ≡ self.old.faults }
        ensures unfinished { self.new.finishes ≡ self.old.finishes }
    {
        if let State::Same { length } = self.state {
            if length == self.found.length {
                return Ok(());
            }
            self.begin(length)?;
        }
        if let State::Beside(new) = &self.state {
            let folder = open_folder(self.rt, &self.path)?;
            new.sync()?;
            if Stamp::at(self.rt, &self.path)? != self.found {
                return Err(Error::new(ErrorKind::Other, CHANGED));
            }
            new.replace(self.rt, &self.path)?;
            sync_folder(&folder)?;
        }
        Ok(())
    }

    // Counts a failure, and removes the fresh file.
    fn fail(&mut self, error: io::Error) -> Fault
        ensures counted { self.new.faults ≡ ticked self.old.faults }
        ensures unfinished { self.new.finishes ≡ self.old.finishes }
    {
        self.faults = self.faults.saturating_add(1);
        if let State::Beside(new) = &self.state {
            new.remove(self.rt);
        }
        self.state = State::Ended;
        self.error = Some(error);
        Fault
    }
}

impl<R: Files<File = File> + AllocGlobal> Sink for EditedFile<'_, R> {
    ghost contents = { λ _. None };

    ghost failures = { λ s. s.faults };

    ghost finishes = { λ s. s.finishes };

    fn write(&mut self, piece: &[u8]) -> Result<usize, Fault> {
        match self.write_some(piece) {
            Ok(0) if !piece.is_empty() => Err(self.fail(Error::from(ErrorKind::WriteZero))),
            Ok(count) => Ok(count),
            Err(error) => Err(self.fail(error)),
        }
    }

    fn finish(&mut self) -> Result<(), Fault> {
        match self.end() {
            Ok(()) => {
                self.state = State::Ended;
                self.finishes = self.finishes.saturating_add(1);
                Ok(())
            }
            Err(error) => Err(self.fail(error)),
        }
    }

    fn faults(&self) -> u64 {
        self.faults
    }
}
