//! Folders of the system.

ghost use Rattle.std.specs.Prelude.{◌≡◌, None, Ok, true, false, IfOk};
ghost use Rattle.mk_line.specs.Meters.{ticked};

use crate::replacing::Replacement;
use mk_show::{Content, Folder, Stop};
use std::alloc::AllocError;
use std::collections::BTreeMap;
use std::fs::{File, OpenOptions};
use std::io::{Error, ErrorKind, Write};
use std::path::PathBuf;
use std::rt::Files;
use std::{fs, io};

/// What is said of an empty path.
const NAMELESS: &str = "a folder needs a name";

/// The folders of a Maildir: of new messages, of those that were seen, and of those that aren't whole yet.
const NEW: &str = "new";

const CURRENT: &str = "cur";

const TEMPORARY: &str = "tmp";

/// Of how many names it is kept how many names with a number were tried.
const MOST_NAMES: usize = 4096;

/// Why a file wasn't written.
#[derive(Drop)]
pub struct Unwritten {
    /// The path of the file. `None` if the folder itself can't be made.
    pub path: Option<PathBuf>,
    pub error: io::Error,
}

// Why a content wasn't put.
#[derive(Drop)]
enum Halt {
    /// Memory ran out.
    Memory,
    Unwritten(Unwritten),
}

impl Halt {
    // The same, where the file at a path was to be written.
    fn at(self, path: PathBuf) -> Halt {
        match self {
            Halt::Memory => Halt::Memory,
            Halt::Unwritten(Unwritten { error, .. }) => Halt::Unwritten(Unwritten {
                path: Some(path),
                error,
            }),
        }
    }
}

impl From<io::Error> for Halt {
    fn from(error: io::Error) -> Halt {
        Halt::Unwritten(Unwritten { path: None, error })
    }
}

impl From<AllocError> for Halt {
    fn from(_: AllocError) -> Halt {
        Halt::Memory
    }
}

/// A folder of the system. It is made for the first file, if it doesn't exist.
#[derive(Drop)]
pub struct Directory<'r, 'p, R: Files<File = File> + AllocGlobal> {
    rt: &'r R,
    path: &'p str,
    is_maildir: bool,
    is_made: bool,
    unwritten: Option<Unwritten>,
    faults: u64,
    /// How many names with a number were tried for a name.
    tried: BTreeMap<Vec<u8>, u64>,
}

impl<'r, 'p, R: Files<File = File> + AllocGlobal> Directory<'r, 'p, R> {
    /// The folder at a path, to which nothing is written yet.
    pub fn new(rt: &'r R, path: &'p str) -> Self
        ensures { ⟦<Directory<'r, 'p, R> as Folder>⟧.failures result ≡ 0 }
    {
        Directory {
            rt,
            path,
            is_maildir: false,
            is_made: false,
            unwritten: None,
            faults: 0,
            tried: BTreeMap::new(rt.alloc()),
        }
    }

    /// The Maildir at a path. A file is whole before it gets its name in `new`.
    pub fn maildir(rt: &'r R, path: &'p str) -> Self
        ensures { ⟦<Directory<'r, 'p, R> as Folder>⟧.failures result ≡ 0 }
    {
        Directory {
            rt,
            path,
            is_maildir: true,
            is_made: false,
            unwritten: None,
            faults: 0,
            tried: BTreeMap::new(rt.alloc()),
        }
    }

    /// The last file that wasn't written, and why.
    pub fn close(self) -> Option<Unwritten> {
        self.unwritten
    }

    // Makes the folder if it doesn't exist.
    fn make(&mut self) -> io::Result<()>
        ensures { self.new.faults ≡ self.old.faults }
    {
        if !self.is_made {
            if self.path.is_empty() {
                return Err(Error::new(ErrorKind::InvalidInput, NAMELESS));
            }
            if self.is_maildir {
                self.make_maildir()?;
            } else {
                fs::create_dir_all(self.rt, self.path)?;
            }
            self.is_made = true;
        }
        Ok(())
    }

    // Makes the folders of a Maildir that don't exist.
    fn make_maildir(&self) -> io::Result<()> {
        for name in [TEMPORARY, NEW, CURRENT] {
            fs::create_dir_all(self.rt, self.within(name)?.as_str())?;
        }
        Ok(())
    }

    // The path of a name in the folder.
    fn within(&self, name: &str) -> Result<PathBuf, AllocError> {
        let mut path = PathBuf::from_str(self.rt.alloc(), self.path)?;
        path.push(name)?;
        Ok(path)
    }

    // The path of a file in one of the folders of a Maildir.
    fn delivered(&self, folder: &str, name: &str) -> Result<PathBuf, AllocError> {
        let mut path = self.within(folder)?;
        path.push(name)?;
        Ok(path)
    }

    // Writes a file. `false` if there is one of the name, and it may not be overwritten.
    fn write(&mut self, name: &[u8], content: &mut Content<'_>, over: bool) -> Result<bool, Halt>
        ensures counted { self.new.faults ≡ self.old.faults }
        ensures kept { result ≡ Ok false → over ≡ false }
        ensures untaken { result ≡ Ok false → content.new ≡ content.old }
    {
        self.make()?;
        let Ok(name) = std::str::from_utf8(name) else {
            return Err(Halt::from(Error::from(ErrorKind::InvalidFilename)));
        };
        if self.is_maildir {
            let path = self.delivered(NEW, name)?;
            let temporary = self.delivered(TEMPORARY, name)?;
            return told_at(deliver(self.rt, &temporary, &path, content, over), path);
        }
        let path = self.within(name)?;
        let written = if over {
            deliver(self.rt, &path, &path, content, over)
        } else {
            write_new(self.rt, &path, content)
        };
        told_at(written, path)
    }

    // Counts a failure.
    fn fail(&mut self, unwritten: Unwritten) -> Stop
        ensures counted { self.new.faults ≡ ticked self.old.faults }
        ensures stop { result ≡ Stop.Fault }
    {
        self.faults = self.faults.saturating_add(1);
        self.unwritten = Some(unwritten);
        Stop::Fault
    }
}

// The same, where the file at a path was to be written.
fn told_at(written: Result<bool, Halt>, path: PathBuf) -> Result<bool, Halt>
    ensures { IfOk result (λ is_written. written ≡ Ok is_written) }
{
    match written {
        Ok(is_written) => Ok(is_written),
        Err(halt) => Err(halt.at(path)),
    }
}

// Writes a file beside a temporary path, and gives it its own path once it is whole. Where files may be overwritten it takes the
// place of the one there: no link is followed, and a file that also has another name stays as it is. Else nothing is written if
// something has the path, even a link that leads nowhere.
fn deliver<R: Files<File = File> + AllocGlobal>(
    rt: &R,
    temporary: &PathBuf,
    path: &PathBuf,
    content: &mut Content<'_>,
    over: bool,
) -> Result<bool, Halt>
    ensures kept { result ≡ Ok false → over ≡ false }
    ensures untaken { result ≡ Ok false → content.new ≡ content.old }
{
    if !over && fs::symlink_metadata(rt, path.as_str()).is_ok() {
        return Ok(false);
    }
    let mut new = Replacement::beside(rt, temporary)?;
    match fill(rt, path, &mut new, content, over) {
        Ok(()) => Ok(true),
        Err(halt) => {
            new.remove(rt);
            Err(halt)
        }
    }
}

// Writes a new file, and gives it its path.
fn fill<R: Files<File = File> + AllocGlobal>(
    rt: &R,
    path: &PathBuf,
    new: &mut Replacement,
    content: &mut Content<'_>,
    over: bool,
) -> Result<(), Halt> {
    write_pieces(new.file(), content)?;
    if over {
        Ok(new.replace(rt, path)?)
    } else {
        Ok(new.take_name(rt, path)?)
    }
}

// Writes a new file, or nothing if something has the path, even a link that leads nowhere.
fn write_new<R: Files<File = File>>(
    rt: &R,
    path: &PathBuf,
    content: &mut Content<'_>,
) -> Result<bool, Halt>
    ensures { result ≡ Ok false → content.new ≡ content.old }
{
    let mut file = match OpenOptions::new()
        .write(true)
        .create_new(true)
        .open(rt, path.as_str())
    {
        Ok(file) => file,
        Err(error) if error.kind() == ErrorKind::AlreadyExists => return Ok(false),
        Err(error) => return Err(Halt::from(error)),
    };
    match write_pieces(&mut file, content) {
        Ok(()) => Ok(true),
        Err(halt) => {
            let _ = fs::remove_file(rt, path.as_str());
            Err(halt)
        }
    }
}

// Writes all that is left of a content.
fn write_pieces(file: &mut File, content: &mut Content<'_>) -> Result<(), Halt> {
    'each: while content.advance()? {
        file.write_all(content.piece())?;
    }
    Ok(())
}

impl<R: Files<File = File> + AllocGlobal> Folder for Directory<'_, '_, R> {
    ghost files = { λ _. None };

    ghost failures = { λ s. s.faults };

    fn put(&mut self, name: &[u8], content: &mut Content<'_>, over: bool) -> Result<bool, Stop> {
        match self.write(name, content, over) {
            Ok(is_written) => Ok(is_written),
            Err(Halt::Memory) => Err(Stop::Memory),
            Err(Halt::Unwritten(unwritten)) => Err(self.fail(unwritten)),
        }
    }

    fn tried(&self, name: &[u8]) -> u64 {
        self.tried.get(name).copied().unwrap_or(0)
    }

    // What isn't kept, since memory runs out or there are too many names, is tried again.
    fn keep_tried(&mut self, name: &[u8], count: u64) {
        if count > 1 {
            if self.tried.len() >= MOST_NAMES {
                self.tried.clear();
            }
            if let Ok(name) = Vec::from_slice(self.rt.alloc(), name) {
                let _ = self.tried.insert(name, count);
            }
        }
    }

    fn faults(&self) -> u64 {
        self.faults
    }
}
