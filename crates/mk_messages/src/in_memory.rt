//! A message in memory as a device.
ghost use Rattle.std.specs.Prelude.{◌≡◌, Some};

use mk_mailbox::{Fault, Source};

/// A device that gives the bytes of a text, and never fails.
#[derive(Debug, Drop)]
pub struct InMemory<'a> {
    /// The bytes that aren't read yet.
    pub rest: &'a [u8],
    reads: u64,
}

impl<'a> InMemory<'a> {
    /// A device that gives this text.
    pub fn new(text: &'a [u8]) -> InMemory<'a>
        ensures { result.rest.now ≡ text.now }
    {
        InMemory {
            rest: text,
            reads: 0,
        }
    }
}

impl Source for InMemory<'_> {
    ghost remaining = { λ s. Some s.rest.now };

    ghost failures = { λ _. 0 };

    ghost read_count = { λ s. s.reads };

    fn read(&mut self, piece: &mut [u8]) -> Result<usize, Fault> {
        self.reads = self.reads.saturating_add(1);
        let count = piece.len().min(self.rest.len());
        piece[..count].copy_from_slice(&self.rest[..count]);
        self.rest = &self.rest[count..];
        Ok(count)
    }

    fn left(&self) -> Option<usize> {
        Some(self.rest.len())
    }

    fn faults(&self) -> u64 {
        0
    }

    fn reads(&self) -> u64 {
        self.reads
    }
}
