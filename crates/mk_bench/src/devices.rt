//! Devices that keep a digest of what they take.

ghost use Rattle.std.specs.Prelude.{◌≡◌, None, false};

use crate::digest::Digest;
use mk_mailbox::{Fault, Sink};
use mk_run::{Content, Folder, Stop};

/// A sink that takes all.
#[derive(Debug, Drop)]
pub struct Taken {
    pub digest: Digest,
    finishes: u64,
}

impl Taken {
    /// One that took nothing yet.
    pub fn new() -> Taken {
        Taken {
            digest: Digest::new(),
            finishes: 0,
        }
    }
}

impl Sink for Taken {
    ghost contents = { λ _. None };

    ghost failures = { λ _. 0 };

    ghost finishes = { λ s. s.finishes };

    fn write(&mut self, piece: &[u8]) -> Result<usize, Fault> {
        self.digest.add(piece);
        Ok(piece.len())
    }

    fn finish(&mut self) -> Result<(), Fault> {
        self.finishes = self.finishes.saturating_add(1);
        Ok(())
    }

    fn faults(&self) -> u64 {
        0
    }
}

/// A sink that keeps what it takes, for a later run.
#[derive(Debug, Drop)]
pub struct Page {
    pub held: Vec<u8>,
    faults: u64,
    finishes: u64,
}

impl Page {
    /// One that keeps its bytes in this memory.
    pub fn new(held: Vec<u8>) -> Page {
        Page {
            held,
            faults: 0,
            finishes: 0,
        }
    }
}

impl Sink for Page {
    ghost contents = { λ _. None };

    ghost failures = { λ s. s.faults };

    ghost finishes = { λ s. s.finishes };

    fn write(&mut self, piece: &[u8]) -> Result<usize, Fault> {
        match self.held.extend_from_slice(piece) {
            Ok(()) => Ok(piece.len()),
            Err(_) => {
                self.faults = self.faults.saturating_add(1);
                Err(Fault)
            }
        }
    }

    fn finish(&mut self) -> Result<(), Fault> {
        self.finishes = self.finishes.saturating_add(1);
        Ok(())
    }

    fn faults(&self) -> u64 {
        self.faults
    }
}

/// A folder that takes every file.
#[derive(Debug, Drop)]
pub struct Shelf {
    pub digest: Digest,
}

impl Shelf {
    /// One that took nothing yet.
    pub fn new() -> Shelf {
        Shelf {
            digest: Digest::new(),
        }
    }
}

impl Folder for Shelf {
    ghost files = { λ _. None };

    ghost failures = { λ _. 0 };

    fn put(&mut self, name: &[u8], content: &mut Content<'_>, _over: bool) -> Result<bool, Stop> {
        self.digest.add(name);
        self.digest.add_number(content.size() as u64);
        'each: while content.advance()? {
            self.digest.add(content.piece());
        }
        Ok(true)
    }

    fn faults(&self) -> u64 {
        0
    }
}
