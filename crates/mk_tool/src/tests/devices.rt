//! Devices in memory.

ghost use Rattle.std.specs.Prelude.{false, None};

use mk_mail::{Fault, Sink, Source};
use mk_system::MaybePipe;
use std::alloc::Global;

/// A sink that holds all that it took.
#[derive(Drop)]
pub struct Page {
    held: Vec<u8>,
    faults: u64,
    finishes: u64,
}

impl Page {
    /// A sink that holds nothing yet.
    pub fn new(alloc: Global) -> Page {
        Page {
            held: Vec::new(alloc),
            faults: 0,
            finishes: 0,
        }
    }

    /// What it took.
    pub fn bytes(&self) -> &[u8] {
        &self.held
    }
}

impl Sink for Page {
    ghost contents = { λ _. None };

    ghost failures = { λ s. s.faults };

    ghost finishes = { λ s. s.finishes };

    fn write(&mut self, piece: &[u8]) -> Result<usize, Fault> {
        if self.held.extend_from_slice(piece).is_err() {
            self.faults = self.faults.saturating_add(1);
            return Err(Fault);
        }
        Ok(piece.len())
    }

    fn finish(&mut self) -> Result<(), Fault> {
        self.finishes = self.finishes.saturating_add(1);
        Ok(())
    }

    fn faults(&self) -> u64 {
        self.faults
    }
}

impl MaybePipe for Page {
    ghost broken = { λ _. false };

    fn is_broken_pipe(&self) -> bool {
        false
    }
}

/// A device that fails at each call.
#[derive(Drop)]
pub struct Broken {
    faults: u64,
    /// Whether it is a pipe that nobody reads.
    is_pipe: bool,
}

impl Broken {
    /// A device that was not called yet.
    pub fn new() -> Broken {
        Broken {
            faults: 0,
            is_pipe: false,
        }
    }

    /// A pipe that nobody reads.
    pub fn pipe() -> Broken {
        Broken {
            faults: 0,
            is_pipe: true,
        }
    }
}

impl Source for Broken {
    ghost remaining = { λ _. None };

    ghost failures = { λ s. s.faults };

    ghost read_count = { λ s. s.faults };

    fn read(&mut self, _piece: &mut [u8]) -> Result<usize, Fault> {
        self.faults = self.faults.saturating_add(1);
        Err(Fault)
    }

    fn faults(&self) -> u64 {
        self.faults
    }

    fn reads(&self) -> u64 {
        self.faults
    }
}

impl Sink for Broken {
    ghost contents = { λ _. None };

    ghost failures = { λ s. s.faults };

    ghost finishes = { λ _. 0 };

    fn write(&mut self, _piece: &[u8]) -> Result<usize, Fault> {
        self.faults = self.faults.saturating_add(1);
        Err(Fault)
    }

    fn finish(&mut self) -> Result<(), Fault> {
        self.faults = self.faults.saturating_add(1);
        Err(Fault)
    }

    fn faults(&self) -> u64 {
        self.faults
    }
}

impl MaybePipe for Broken {
    ghost broken = { λ s. s.is_pipe };

    fn is_broken_pipe(&self) -> bool {
        self.is_pipe
    }
}
