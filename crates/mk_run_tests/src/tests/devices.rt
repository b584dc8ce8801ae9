//! Devices in memory, which tell their bytes and fail when they are told to.

ghost use Rattle.std.specs.Prelude.{◌≡◌, ◌<◌, Some};

use mk_mail::{Fault, Sink, Source};
use std::alloc::{AllocError, Global};

/// The most bytes that a page takes with no further allocation.
const ROOM: usize = 1_000;

/// When a device fails, by how many calls were made before.
#[derive(Clone, Copy, Debug, PartialEq, Eq)]
pub enum Failing {
    Never,
    /// At one call; those after it go well.
    At(u64),
    /// At one call and at each after it.
    From(u64),
}

impl Failing {
    /// Whether a call fails that this many came before.
    pub fn fails(self, calls: u64) -> bool {
        match self {
            Failing::Never => false,
            Failing::At(call) => calls == call,
            Failing::From(call) => calls >= call,
        }
    }
}

/// A source that gives a text, this many bytes at once.
#[derive(Drop)]
pub struct Text<'a> {
    rest: &'a [u8],
    size: usize,
    failing: Failing,
    reads: u64,
    faults: u64,
    told: Option<usize>,
    ghost some: { 0 < size },
}

impl<'a> Text<'a> {
    /// A source that never fails and gives at most `size` bytes at once, or one byte where it is 0.
    pub fn new(text: &'a [u8], size: usize) -> Text<'a> {
        Text::over(text, size, Failing::Never)
    }

    /// The same, which fails after this many good reads.
    pub fn failing(text: &'a [u8], size: usize, good: u64) -> Text<'a> {
        Text::over(text, size, Failing::From(good))
    }

    /// The same, which fails as it is told.
    pub fn over(text: &'a [u8], size: usize, failing: Failing) -> Text<'a> {
        Text {
            rest: text,
            size: size.max(1),
            failing,
            reads: 0,
            faults: 0,
            told: None,
        }
    }

    /// The same, which says that so many bytes are left, be it true or not.
    pub fn telling(mut self, told: Option<usize>) -> Text<'a> {
        self.told = told;
        self
    }
}

impl Source for Text<'_> {
    ghost remaining = { λ s. Some s.rest.now };

    ghost failures = { λ s. s.faults };

    ghost read_count = { λ s. s.reads };

    fn read(&mut self, piece: &mut [u8]) -> Result<usize, Fault> {
        let read = self.reads;
        self.reads = read.saturating_add(1);
        if self.failing.fails(read) {
            self.faults = self.faults.saturating_add(1);
            return Err(Fault);
        }
        let count = self.size.min(piece.len()).min(self.rest.len());
        piece[..count].copy_from_slice(&self.rest[..count]);
        self.rest = &self.rest[count..];
        Ok(count)
    }

    fn left(&self) -> Option<usize> {
        self.told
    }

    fn faults(&self) -> u64 {
        self.faults
    }

    fn reads(&self) -> u64 {
        self.reads
    }
}

/// A sink that holds what it took, this many bytes at once. One of size 0 takes none.
#[derive(Drop)]
pub struct Page {
    held: Vec<u8>,
    size: usize,
    failing: Failing,
    calls: u64,
    faults: u64,
    finishes: u64,
}

impl Page {
    /// A sink that never fails and takes at most `size` bytes at once.
    pub fn new(alloc: Global, size: usize) -> Result<Page, AllocError> {
        Page::over(alloc, size, Failing::Never)
    }

    /// The same, which fails after this many good calls.
    pub fn failing(alloc: Global, size: usize, good: u64) -> Result<Page, AllocError> {
        Page::over(alloc, size, Failing::From(good))
    }

    /// The same, which fails as it is told.
    pub fn over(alloc: Global, size: usize, failing: Failing) -> Result<Page, AllocError> {
        let held = Vec::with_capacity(alloc, ROOM)?;
        Ok(Page {
            held,
            size,
            failing,
            calls: 0,
            faults: 0,
            finishes: 0,
        })
    }

    /// What it took.
    pub fn bytes(&self) -> &[u8] {
        &self.held
    }

    /// How many times it was told that all was written.
    pub fn finishes(&self) -> u64 {
        self.finishes
    }
}

impl Sink for Page {
    ghost contents = { λ s. Some s.held.items };

    ghost failures = { λ s. s.faults };

    ghost finishes = { λ s. s.finishes };

    fn write(&mut self, piece: &[u8]) -> Result<usize, Fault> {
        let count = self.size.min(piece.len());
        let is_stuck = count == 0 && !piece.is_empty();
        let call = self.calls;
        self.calls = call.saturating_add(1);
        let fails = self.failing.fails(call)
            || self.held.extend_from_slice(&piece[..count]).is_err();
        if fails || is_stuck {
            self.faults = self.faults.saturating_add(1);
        }
        if fails {
            return Err(Fault);
        }
        Ok(count)
    }

    fn finish(&mut self) -> Result<(), Fault> {
        let call = self.calls;
        self.calls = call.saturating_add(1);
        if self.failing.fails(call) {
            self.faults = self.faults.saturating_add(1);
            return Err(Fault);
        }
        self.finishes = self.finishes.saturating_add(1);
        Ok(())
    }

    fn faults(&self) -> u64 {
        self.faults
    }
}
