//! Files that one run at a time has.

use crate::replacing::SHORT_NAME;
use crate::stamps::Stamp;
use mk_splice::digest_of;
use std::alloc::Global;
use std::fs::{File, OpenOptions, TryLockError};
use std::io::{Error, ErrorKind};
use std::path::PathBuf;
use std::rt::{Clock, Files};
use std::time::{Duration, Instant};
use std::{fs, io, thread};

/// What is said of a file that another run has locked.
const HELD: &str = "another run is using it (--wait waits for it)";

/// The same, after waiting for it.
const STILL_HELD: &str = "another run is still using it";

/// What is said of a file that isn't a lock and has the name of one.
const NO_LOCK: &str = "another file has the name of its lock";

/// The pauses between two attempts, in milliseconds: the first, and the longest.
const FIRST_PAUSE: u64 = 1;

const LONGEST_PAUSE: u64 = 50;

/// How often the hidden file is opened again at once, when another run has just removed it.
const MOST_OPENINGS: u32 = 100;

/// The lock that one run at a time has for the file at a path, whether or not that file exists. It is held by flock(2) on a
/// hidden file beside it, and that file is removed with the lock. So the lock holds while the file itself is replaced, and it
/// has nothing to do with a lock that another program holds on the file itself.
pub struct Lock<'a, R: Files<File = File>> {
    rt: &'a R,
    /// The path of the hidden file.
    path: PathBuf,
    /// The hidden file. `None` if the system doesn't give the lock.
    file: Option<File>,
    /// Why it doesn't.
    error: Option<Error>,
}

impl<'a, R: Files<File = File> + Clock + AllocGlobal> Lock<'a, R> {
    /// Takes the lock for the file at a path. If another run holds it, this waits as long as the limit says, or without a limit
    /// as long as it takes; then that is an error of the kind `WouldBlock`, or `TimedOut` if it waited. If the system
    /// doesn't give the lock, as in a folder that can't be written to, only `check` fails: the file can still be read.
    pub fn take(rt: &'a R, path: &PathBuf, limit: Option<Duration>) -> io::Result<Lock<'a, R>> {
        let alloc = rt.alloc();
        let name = path.file_name().unwrap_or(SHORT_NAME);
        let hidden = hidden_path(alloc, path, name)?;
        match Lock::take_at(rt, hidden, path, limit) {
            Err(error) if error.kind() == ErrorKind::InvalidFilename => {
                let digest = digest_of(name.as_bytes());
                let name = std::str::from_utf8(&digest).unwrap_or(SHORT_NAME);
                let hidden = hidden_path(alloc, path, name)?;
                Lock::take_at(rt, hidden, path, limit)
            }
            done => done,
        }
    }

    // Takes the lock by a hidden file.
    fn take_at(
        rt: &'a R,
        hidden: PathBuf,
        path: &PathBuf,
        limit: Option<Duration>,
    ) -> io::Result<Lock<'a, R>> {
        let (file, error) = match wait(rt, &hidden, path, limit) {
            Ok(file) => (Some(file), None),
            Err(error) => match error.kind() {
                ErrorKind::WouldBlock
                | ErrorKind::TimedOut
                | ErrorKind::InvalidFilename
                | ErrorKind::OutOfMemory => return Err(error),
                _ => (None, Some(error)),
            },
        };
        Ok(Lock {
            rt,
            path: hidden,
            file,
            error,
        })
    }
}

impl<R: Files<File = File>> Lock<'_, R> {
    /// Fails if the system doesn't give the lock, so the file may not be replaced.
    pub fn check(&mut self) -> io::Result<()> {
        if self.file.is_some() {
            return Ok(());
        }
        match self.error.take() {
            Some(error) => Err(error),
            None => Err(Error::from(ErrorKind::Other)),
        }
    }
}

impl<R: Files<File = File>> Drop for Lock<'_, R> {
    // The hidden file goes first, while the lock is held: nobody else removes it, so no other run's file is removed.
    fn drop(self) {
        if self.file.is_some() {
            let _ = fs::remove_file(self.rt, self.path.as_str());
        }
        let Lock {
            rt: _,
            path: _,
            file: _,
            error: _,
        } = self;
    }
}

// The path of the hidden file beside a file.
fn hidden_path(alloc: Global, path: &PathBuf, name: &str) -> io::Result<PathBuf> {
    let hidden = format!(in alloc; ".{name}.mimetool.lock")?;
    Ok(path.with_file_name(alloc, hidden.as_str())?)
}

// Locks the hidden file; tries again and again until the limit.
fn wait<R: Files<File = File> + Clock>(
    rt: &R,
    hidden: &PathBuf,
    path: &PathBuf,
    limit: Option<Duration>,
) -> io::Result<File> {
    let longest = Duration::from_millis(LONGEST_PAUSE);
    let mut pause = Duration::from_millis(FIRST_PAUSE);
    let begin = Instant::now(rt)?;
    for _attempt in 0..u64::MAX {
        match locked(rt, hidden, path) {
            Err(error) if error.kind() == ErrorKind::WouldBlock => {}
            done => return done,
        }
        let left = match limit {
            Some(limit) => limit.saturating_sub(begin.elapsed(rt)?),
            None => longest,
        };
        if left.is_zero() {
            break;
        }
        thread::sleep(rt, pause.min(left));
        pause = pause.saturating_mul(2).min(longest);
    }
    match limit {
        Some(limit) if limit.is_zero() => Err(Error::new(ErrorKind::WouldBlock, HELD)),
        _ => Err(Error::new(ErrorKind::TimedOut, STILL_HELD)),
    }
}

// Locks the hidden file. One that another run has locked is an error of the kind `WouldBlock`.
fn locked<R: Files<File = File>>(rt: &R, hidden: &PathBuf, path: &PathBuf) -> io::Result<File> {
    for _opening in 0..MOST_OPENINGS {
        if let Some(file) = locked_once(rt, hidden, path)? {
            return Ok(file);
        }
    }
    Err(Error::from(ErrorKind::WouldBlock))
}

// The same. `None` if another run has removed the file before it was locked.
fn locked_once<R: Files<File = File>>(
    rt: &R,
    hidden: &PathBuf,
    path: &PathBuf,
) -> io::Result<Option<File>> {
    let Some(file) = opened(rt, hidden, path)? else {
        return Ok(None);
    };
    match file.try_lock() {
        Ok(()) => {}
        Err(TryLockError::WouldBlock) => return Err(Error::from(ErrorKind::WouldBlock)),
        Err(TryLockError::Error(error)) => return Err(error),
    }
    match fs::symlink_metadata(rt, hidden.as_str()) {
        Ok(there) if Stamp::of(&file)?.is_same_file(&Stamp::read(&there)) => Ok(Some(file)),
        Ok(_) => Ok(None),
        Err(error) if error.kind() == ErrorKind::NotFound => Ok(None),
        Err(error) => Err(error),
    }
}

// Opens the hidden file, and makes it if it doesn't exist. `None` if another run has removed it meanwhile.
fn opened<R: Files<File = File>>(
    rt: &R,
    hidden: &PathBuf,
    path: &PathBuf,
) -> io::Result<Option<File>> {
    match File::create_new(rt, hidden.as_str()) {
        Ok(file) => {
            // Whoever may read the file may also wait for its lock.
            if let Ok(metadata) = fs::metadata(rt, path.as_str()) {
                let _ = file.set_permissions(metadata.permissions());
            }
            return Ok(Some(file));
        }
        Err(error) if error.kind() == ErrorKind::AlreadyExists => {}
        Err(error) => return Err(error),
    }
    match reopened(rt, hidden) {
        Ok(file) => Ok(Some(file)),
        Err(error) if error.kind() == ErrorKind::NotFound => Ok(None),
        Err(error) => Err(error),
    }
}

// Opens a hidden file that another run has, or that a killed one has left. What has its name and isn't an empty file isn't
// touched.
fn reopened<R: Files<File = File>>(rt: &R, hidden: &PathBuf) -> io::Result<File> {
    let metadata = fs::symlink_metadata(rt, hidden.as_str())?;
    if !metadata.is_file() || metadata.len() > 0 {
        return Err(Error::new(ErrorKind::AlreadyExists, NO_LOCK));
    }
    // Some file systems over a network lock only what may be written.
    match OpenOptions::new()
        .read(true)
        .write(true)
        .open(rt, hidden.as_str())
    {
        Err(error) if error.kind() == ErrorKind::PermissionDenied => File::open(
            rt,
            hidden.as_str(),
        ),
        opened => opened,
    }
}
