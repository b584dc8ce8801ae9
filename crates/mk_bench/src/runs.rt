//! Runs over devices in memory, and the digest of all that they give.

use crate::devices::{Page, Shelf, Taken};
use crate::digest::Digest;
use mk_mail::{Attach, Letters};
use mk_messages::InMemory;
use mk_run::{Journal, Status, run_edit, run_extract, run_field, run_pack, run_sections, unpack};
use mk_tree::Doc;
use std::alloc::{AllocError, Global};

/// What the runs of a job gave.
#[derive(Drop)]
pub struct Results {
    alloc: Global,
    digest: Digest,
    runs: u64,
    refused: u64,
}

impl Results {
    /// Those of no run.
    pub fn new(alloc: Global) -> Results {
        Results {
            alloc,
            digest: Digest::new(),
            runs: 0,
            refused: 0,
        }
    }

    /// The digest of all.
    pub fn digest(&self) -> u64 {
        self.digest.value()
    }

    /// How many runs there were.
    pub fn runs(&self) -> u64 {
        self.runs
    }

    /// How many of them refused something.
    pub fn refused(&self) -> u64 {
        self.refused
    }

    fn add(&mut self, status: Status, out: &Taken, err: &Taken) {
        self.runs = self.runs.saturating_add(1);
        if status != Status::Well {
            self.refused = self.refused.saturating_add(1);
        }
        self.digest.add_number(status.code() as u64);
        self.digest.add_number(out.digest.value());
        self.digest.add_number(err.digest.value());
    }

    /// Filters the fields of a message, or with `each` those of the messages of a mailbox.
    pub fn filter(&mut self, text: &[u8], letters: &Letters, each: bool) {
        let (mut out, mut err) = (Taken::new(), Taken::new());
        let mut input = InMemory::new(text);
        if letters.ok() {
            let status = run_field(self.alloc, &mut input, &mut out, &mut err, letters, each);
            self.add(status, &out, &err);
        }
    }

    /// Unpacks all leaves of a message.
    pub fn unpack(&mut self, text: &[u8]) {
        let (mut out, mut err) = (Taken::new(), Taken::new());
        let mut input = InMemory::new(text);
        let mut shelf = Shelf::new();
        let status = unpack(
            self.alloc, &mut input, &mut out, &mut err, &mut shelf, true, true, false,
        );
        self.add(status, &out, &err);
        self.digest.add_number(shelf.digest.value());
    }

    /// Takes the content of one section out.
    pub fn extract(&mut self, text: &[u8], path: &[u32]) {
        let (mut out, mut err) = (Taken::new(), Taken::new());
        let mut input = InMemory::new(text);
        let status = run_extract(self.alloc, &mut input, &mut out, &mut err, path);
        self.add(status, &out, &err);
    }

    /// Lists the sections of a message.
    pub fn list(&mut self, text: &[u8]) {
        let (mut out, mut err) = (Taken::new(), Taken::new());
        let mut input = InMemory::new(text);
        let status = run_sections(self.alloc, &mut input, &mut out, &mut err);
        self.add(status, &out, &err);
    }

    /// Lists them as JSON.
    pub fn list_as_json(&mut self, text: Vec<u8>) -> Result<(), AllocError> {
        let doc = match Doc::read(self.alloc, text) {
            Ok(doc) => doc,
            Err((_, error)) => return Err(error),
        };
        self.digest.add(&mk_json::list(self.alloc, &doc)?);
        Ok(())
    }

    /// Builds a message of fields and parts.
    pub fn pack(&mut self, fields: &[u8], boundary: &[u8], parts: &[Attach]) {
        let (mut out, mut err) = (Taken::new(), Taken::new());
        let mut input = InMemory::new(fields);
        let status = run_pack(self.alloc, &mut input, &mut out, &mut err, boundary, parts);
        self.add(status, &out, &err);
    }

    /// Edits a message by a script, and gives what becomes of it, and its journal where one is kept.
    pub fn edit(
        &mut self,
        text: &[u8],
        script: &[u8],
        pieces: &[Vec<u8>],
        journal: Journal<'_>,
    ) -> Result<(Vec<u8>, Vec<u8>), AllocError> {
        let mut out = Page::new(Vec::with_capacity(self.alloc, text.len())?);
        let mut err = Taken::new();
        let mut kept = Page::new(Vec::new(self.alloc));
        let mut input = InMemory::new(text);
        let status = run_edit(
            self.alloc, &mut input, &mut out, &mut err, script, pieces, journal, &mut kept,
        );
        let mut printed = Taken::new();
        printed.digest.add(&out.held);
        printed.digest.add(&kept.held);
        self.add(status, &printed, &err);
        Ok((out.held, kept.held))
    }

    /// Goes on with what a run left.
    pub fn edit_again(
        &mut self,
        text: &[u8],
        script: &[u8],
        journal: &[u8],
    ) -> Result<(Vec<u8>, Vec<u8>), AllocError> {
        self.edit(text, script, &[], Journal::Old(journal))
    }
}
