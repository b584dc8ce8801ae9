//! Files that take the place of others.

ghost use Rattle.std.specs.Prelude.{◌≤◌, length, IfOk};

use mk_mailbox::CHUNK_BYTES;
use std::alloc::Global;
use std::fs::{File, OpenOptions};
use std::io::{Error, ErrorKind, Read, Seek, SeekFrom, Write};
use std::path::PathBuf;
use std::rt::Files;
use std::{fs, io};

/// The most links that a path is followed through, which is the system's limit.
const MOST_LINKS: u32 = 40;

/// How many names are tried for a fresh file.
const MOST_NAMES: u32 = 10_000;

/// The folder of a path that doesn't name one.
const HERE: &str = ".";

/// The name within that of a fresh file, if the other file's own leaves no room for more.
pub const SHORT_NAME: &str = "mimetool";

/// Where the links at a path lead, whether or not something is there.
pub fn followed<R: Files + AllocGlobal>(rt: &R, path: &str) -> io::Result<PathBuf> {
    let mut path = PathBuf::from_str(rt.alloc(), path)?;
    for _link in 0..MOST_LINKS {
        let Ok(target) = fs::read_link(rt, path.as_str()) else {
            return Ok(path);
        };
        path.pop();
        path.push(target.as_str())?;
    }
    Err(Error::from(ErrorKind::FilesystemLoop))
}

/// A new file that is to take the place of another. Until then the other is as it was.
#[derive(Drop)]
pub struct Replacement {
    file: File,
    /// The path of the new file, beside the other one.
    fresh: PathBuf,
}

impl Replacement {
    /// An empty file beside the one at a path. A file that an earlier run left there keeps its name.
    pub fn beside<R: Files<File = File> + AllocGlobal>(
        rt: &R,
        path: &PathBuf,
    ) -> io::Result<Replacement> {
        match fresh_file(rt, path) {
            Err(error) if error.kind() == ErrorKind::InvalidFilename => {
                fresh_file(rt, &path.with_file_name(rt.alloc(), SHORT_NAME)?)
            }
            made => made,
        }
    }

    /// Gives the new file the permissions of the one that it will replace.
    pub fn copy_permissions(&self, old: &File) -> io::Result<()> {
        self.file.set_permissions(old.metadata()?.permissions())
    }

    /// Writes the first bytes of a file, as many as that. If it has fewer, that is an error.
    #[inline(never)]
    pub fn copy_front(&mut self, old: &mut File, length: u64) -> io::Result<()> {
        old.seek(SeekFrom::Start(0))?;
        let mut buffer = [0u8; CHUNK_BYTES];
        let mut rest = length;
        while rest > 0 {
            let room = rest.min(CHUNK_BYTES as u64) as usize;
            let count = old.read(&mut buffer[..room])?;
            if count == 0 {
                return Err(Error::from(ErrorKind::UnexpectedEof));
            }
            self.file.write_all(&buffer[..count])?;
            rest -= count as u64;
        }
        Ok(())
    }

    /// Writes the start of the piece.
    pub fn write(&mut self, piece: &[u8]) -> io::Result<usize>
        ensures { IfOk result (λ n. n ≤ length piece.now) }
    {
        self.file.write(piece)
    }

    /// The new file itself, to write to.
    pub fn file(&mut self) -> &mut File {
        &mut self.file
    }

    /// Makes sure that what was written is on the disk.
    pub fn sync(&self) -> io::Result<()> {
        self.file.sync_all()
    }

    /// Takes the place of the file at a path.
    pub fn replace<R: Files>(&self, rt: &R, path: &PathBuf) -> io::Result<()> {
        fs::rename(rt, self.fresh.as_str(), path.as_str())
    }

    /// Takes a name that no other file has. A file that has it stays, and that is an error of the kind `AlreadyExists`.
    pub fn take_name<R: Files>(&self, rt: &R, path: &PathBuf) -> io::Result<()> {
        match fs::hard_link(rt, self.fresh.as_str(), path.as_str()) {
            Ok(()) => {
                self.remove(rt);
                Ok(())
            }
            Err(error) if error.kind() == ErrorKind::AlreadyExists => Err(error),
            // A file system without links.
            Err(_) => match fs::symlink_metadata(rt, path.as_str()) {
                Ok(_) => Err(Error::from(ErrorKind::AlreadyExists)),
                Err(_) => self.replace(rt, path),
            },
        }
    }

    /// Removes the new file, if it still has its own name.
    pub fn remove<R: Files>(&self, rt: &R) {
        let _ = fs::remove_file(rt, self.fresh.as_str());
    }
}

// A new file, with the first free one of the numbered names that the file at a path gives.
fn fresh_file<R: Files<File = File> + AllocGlobal>(
    rt: &R,
    path: &PathBuf,
) -> io::Result<Replacement> {
    let alloc = rt.alloc();
    for number in 1..=MOST_NAMES {
        let fresh = fresh_name(alloc, path, number)?;
        match File::create_new(rt, fresh.as_str()) {
            Ok(file) => return Ok(Replacement { file, fresh }),
            Err(error) if error.kind() == ErrorKind::AlreadyExists => {}
            Err(error) => return Err(error),
        }
    }
    Err(Error::from(ErrorKind::AlreadyExists))
}

// A hidden name, so that what lists messages doesn't take the file for one.
fn fresh_name(alloc: Global, path: &PathBuf, number: u32) -> io::Result<PathBuf> {
    let name = path.file_name().unwrap_or(SHORT_NAME);
    let fresh = format!(in alloc; ".{name}.{number}.new")?;
    Ok(path.with_file_name(alloc, fresh.as_str())?)
}

/// The folder of a path, opened to make sure that its names are on the disk. `None` for a folder that may not be read, which is
/// left to the system.
pub fn open_folder<R: Files<File = File>>(rt: &R, path: &PathBuf) -> io::Result<Option<File>> {
    let folder = match path.parent() {
        Some(folder) if !folder.as_str().is_empty() => folder.as_str(),
        _ => HERE,
    };
    match OpenOptions::new().read(true).open(rt, folder) {
        Ok(folder) => Ok(Some(folder)),
        Err(error) if error.kind() == ErrorKind::PermissionDenied => Ok(None),
        Err(error) => Err(error),
    }
}

/// Makes sure that the names in a folder are on the disk.
pub fn sync_folder(folder: &Option<File>) -> io::Result<()> {
    match folder {
        Some(folder) => folder.sync_all(),
        None => Ok(()),
    }
}
