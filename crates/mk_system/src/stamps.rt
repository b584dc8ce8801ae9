//! What tells files apart.

use std::fs::{File, Metadata};
use std::os::unix::fs::MetadataExt;
use std::path::PathBuf;
use std::rt::Files;
use std::{fs, io};

/// Tells whether the file at a path is the one that was there before, with the bytes that it had.
#[derive(Clone, Copy, Debug, PartialEq, Eq)]
pub struct Stamp {
    device: u64,
    node: u64,
    /// The length of the file in bytes.
    pub length: u64,
    changed: i64,
    changed_nanoseconds: i64,
}

impl Stamp {
    /// The stamp of a file that was opened.
    pub fn of(file: &File) -> io::Result<Stamp> {
        Ok(Stamp::read(&file.metadata()?))
    }

    /// The stamp of the file at a path. A link is followed.
    pub fn at<R: Files>(rt: &R, path: &PathBuf) -> io::Result<Stamp> {
        Ok(Stamp::read(&fs::metadata(rt, path.as_str())?))
    }

    /// The stamp of what these data are of.
    pub fn read(metadata: &Metadata) -> Stamp {
        Stamp {
            device: metadata.dev(),
            node: metadata.ino(),
            length: metadata.size(),
            changed: metadata.mtime(),
            changed_nanoseconds: metadata.mtime_nsec(),
        }
    }

    /// Whether two stamps are of one file, whatever it held.
    pub fn is_same_file(&self, other: &Stamp) -> bool {
        self.device == other.device && self.node == other.node
    }
}

/// Whether two paths lead to one file that is there.
pub fn is_one_file<R: Files>(rt: &R, path: &str, other: &str) -> bool {
    match (fs::metadata(rt, path), fs::metadata(rt, other)) {
        (Ok(one), Ok(other)) => Stamp::read(&one).is_same_file(&Stamp::read(&other)),
        _ => false,
    }
}
