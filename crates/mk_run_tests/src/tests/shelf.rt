//! Folders in memory: one that tells its files and fails when it is told to, and one that takes no memory once it is made.

ghost use Rattle.std.specs.Prelude.{◌≡◌, None, Some, true, false, List, ℕ, OnErr, OnOk};
ghost use Rattle.mk_show.specs.Folders.{Gets, IsFree, IsThere};
ghost use Rattle.mk_show.specs.GivenPieces.{IsLeft};
ghost use Rattle.mk_run_tests.specs.Kept.{texts_in};

use super::devices::Failing;
use mk_run::{Content, Folder, Stop};
use std::alloc::{AllocError, Global};
use std::collections::BTreeMap;

type Kept = BTreeMap<Vec<u8>, Vec<u8>>;

/// A folder that keeps its files in a map.
#[derive(Drop)]
pub struct Shelf {
    alloc: Global,
    kept: Kept,
    failing: Failing,
    puts: u64,
    faults: u64,
}

impl Shelf {
    /// A folder without files that fails only when memory runs out.
    pub fn new(alloc: Global) -> Shelf {
        Shelf::over(alloc, Failing::Never)
    }

    /// The same, which fails as it is told.
    pub fn over(alloc: Global, failing: Failing) -> Shelf {
        Shelf {
            alloc,
            kept: Kept::new(alloc),
            failing,
            puts: 0,
            faults: 0,
        }
    }

    /// Keeps a file, before any call is counted.
    pub fn add(&mut self, name: &[u8], text: &[u8]) -> Result<(), AllocError> {
        keep(self.alloc, &mut self.kept, name, text)
    }

    /// How many files it has.
    pub fn count(&self) -> usize {
        self.kept.len()
    }

    /// The text under a name.
    pub fn text(&self, name: &[u8]) -> Option<&[u8]> {
        Some(self.kept.get(name)?.as_slice())
    }
}

fn has(kept: &Kept, name: &[u8]) -> bool
    ensures there { result ≡ true → IsThere (Some (texts_in kept.now)) name.now }
    ensures free { result ≡ false → IsFree (Some (texts_in kept.now)) name.now }
{
    kept.contains_key(name)
}

fn keep(alloc: Global, kept: &mut Kept, name: &[u8], text: &[u8]) -> Result<(), AllocError>
    ensures put { OnOk result (Gets (Some (texts_in kept.old)) (Some (texts_in kept.new)) name.now text.now) }
    ensures same { OnErr result (Some (texts_in kept.new) ≡ Some (texts_in kept.old)) }
{
    let name = Vec::from_slice(alloc, name)?;
    let text = Vec::from_slice(alloc, text)?;
    kept.insert(name, text)?;
    Ok(())
}

fn keep_content(
    alloc: Global,
    kept: &mut Kept,
    name: &[u8],
    content: &mut Content<'_>,
) -> Result<(), AllocError>
    ensures put { OnOk result ((text : List ℕ) → IsLeft content.old text → Gets (Some (texts_in kept.old)) (Some (texts_in kept.new)) name.now text) }
    ensures same { OnErr result (Some (texts_in kept.new) ≡ Some (texts_in kept.old)) }
{
    let text = content.read_all(alloc)?;
    keep(alloc, kept, name, &text)
}

impl Folder for Shelf {
    ghost files = { λ s. Some (texts_in s.kept) };

    ghost failures = { λ s. s.faults };

    fn put(&mut self, name: &[u8], content: &mut Content<'_>, over: bool) -> Result<bool, Stop> {
        let call = self.puts;
        self.puts = call.saturating_add(1);
        if self.failing.fails(call) {
            self.faults = self.faults.saturating_add(1);
            return Err(Stop::Fault);
        }
        if !over && has(&self.kept, name) {
            return Ok(false);
        }
        match keep_content(self.alloc, &mut self.kept, name, content) {
            Ok(()) => Ok(true),
            Err(_) => Err(Stop::Memory),
        }
    }

    fn faults(&self) -> u64 {
        self.faults
    }
}

// Appends all that is left of a content.
fn append(text: &mut Vec<u8>, content: &mut Content<'_>) -> Result<(), AllocError> {
    'each: while content.advance()? {
        text.extend_from_slice(content.piece())?;
    }
    Ok(())
}

/// A folder with room for one file, which it doesn't tell.
#[derive(Drop)]
pub struct Slot {
    name: Vec<u8>,
    text: Vec<u8>,
    faults: u64,
}

impl Slot {
    /// An empty folder, with room for a name and a text of this many bytes each.
    pub fn new(alloc: Global, room: usize) -> Result<Slot, AllocError> {
        Ok(Slot {
            name: Vec::with_capacity(alloc, room)?,
            text: Vec::with_capacity(alloc, room)?,
            faults: 0,
        })
    }

    /// The name of the file and its text, both empty where there is none.
    pub fn file(&self) -> (&[u8], &[u8]) {
        (&self.name, &self.text)
    }
}

impl Folder for Slot {
    ghost files = { λ _. None };

    ghost failures = { λ s. s.faults };

    fn put(&mut self, name: &[u8], content: &mut Content<'_>, _over: bool) -> Result<bool, Stop> {
        if !self.name.is_empty() {
            self.faults = self.faults.saturating_add(1);
            return Err(Stop::Fault);
        }
        self.name.extend_from_slice(name)?;
        append(&mut self.text, content)?;
        Ok(true)
    }

    fn faults(&self) -> u64 {
        self.faults
    }
}
