//! The identifiers of messages, and which of them were seen.

ghost use Rattle.std.specs.Prelude.{◌≡◌, ◌++◌, not, codes, IfOk, OnErr, OnOk};
ghost use Rattle.std.specs.FinSet as set;
ghost use Rattle.std.specs.Option.{option_map};
ghost use Rattle.mk_line.specs.inner.Kept.{IsKept};
ghost use Rattle.mk_seen.specs.SeenIds.{id_line as line_of_id, id_of_words, is_repeated, message_id as id_of, new_line, seen_after, seen_in, with_lines as file_with_lines};

use mk_line::{cut, ends_open};
use mk_reply::field_words;
use mk_wording::on_one_line;
use std::alloc::{AllocError, Global};
use std::collections::BTreeSet;
use std::marker::Model;

const LINE_FEED: u8 = b'\n';

/// The identifier of a message: what its first Message-ID says, without the white space around it, and with a space in the place of
/// each CR or LF. `None` where it has none, or one that says nothing.
pub fn message_id(alloc: Global, message: &[u8]) -> Result<Option<Vec<u8>>, AllocError>
    ensures { IfOk result (λ id. option_map (λ i. i.items) id ≡ id_of message.now) }
{
    let words = field_words(message, b"Message-ID");
    if words.is_empty() {
        return Ok(None);
    }
    Ok(Some(on_one_line(alloc, words)?))
}

/// Identifiers that were seen.
#[derive(Drop)]
pub struct SeenIds {
    ids: BTreeSet<Vec<u8>>,
}

impl Model for SeenIds {
    ghost use Rattle.std.specs.Prelude.{map};
    ghost use Rattle.std.specs.Coded.{coded_list, coded_ℕ};
    ghost use Rattle.std.specs.FinSet as set;
    ghost use Rattle.mk_seen.specs.SeenIds.{Seen};

    ghost Value = { Seen };

    ghost coded = { set.code (coded_list coded_ℕ) };

    ghost view = { λ s. set.from_list (map (λ id. id.items) s.ids.keys) };
}

impl SeenIds {
    ghost use Rattle.std.specs.Prelude.{◌≡◌, map, not, IfOk, OnErr, OnOk};
    ghost use Rattle.std.specs.FinSet as set;
    ghost use Rattle.mk_seen.specs.SeenIds.{is_repeated, seen_after, seen_in};

    /// None were seen yet.
    pub fn new(alloc: Global) -> SeenIds
        ensures { result ≡ set.empty }
    {
        SeenIds {
            ids: BTreeSet::new(alloc),
        }
    }

    /// Those of a file, one on each line.
    pub fn read(alloc: Global, file: &[u8]) -> Result<SeenIds, AllocError>
        ensures { IfOk result (λ seen. seen ≡ seen_in file.now) }
    {
        let mut seen = SeenIds::new(alloc);
        for line in cut(file) {
            let id = Vec::from_slice(alloc, line.content)?;
            seen.see(id)?;
        }
        Ok(seen)
    }

    /// Sees an identifier. Answers whether it wasn't seen before.
    pub fn see(&mut self, id: Vec<u8>) -> Result<bool, AllocError>
        ensures first { IfOk result (λ first. first ≡ not (set.contains self.old id.items)) }
        ensures seen { OnOk result (self.new ≡ set.insert self.old id.items) }
        ensures stays { OnErr result (self.new ≡ self.old) }
    {
        match self.ids.insert(id) {
            Ok(first) => Ok(first),
            Err(_) => Err(AllocError),
        }
    }

    /// Sees a message. Answers whether no message with its identifier was seen before; one without an identifier always is the first.
    pub fn see_message(&mut self, alloc: Global, message: &[u8]) -> Result<bool, AllocError>
        ensures first { IfOk result (λ first. first ≡ not (is_repeated self.old message.now)) }
        ensures seen { OnOk result (self.new ≡ seen_after self.old message.now) }
        ensures stays { OnErr result (self.new ≡ self.old) }
    {
        match message_id(alloc, message)? {
            Some(id) => self.see(id),
            None => Ok(true),
        }
    }
}

/// Identifiers of a file, and those that come to it.
#[derive(Drop)]
pub struct IdFile {
    /// All that were seen.
    pub seen: SeenIds,
    /// The lines of those that the file doesn't have, in the order in which they came.
    pub lines: Vec<u8>,
}

impl IdFile {
    ghost use Rattle.std.specs.Prelude.{◌≡◌, ◌++◌, if◌then◌else◌, [], not, IfOk, OnErr, OnOk};
    ghost use Rattle.std.specs.FinSet as set;
    ghost use Rattle.mk_seen.specs.SeenIds.{id_line, is_repeated, new_line, seen_after, seen_in};

    /// Those of a file, one on each line.
    pub fn read(alloc: Global, file: &[u8]) -> Result<IdFile, AllocError>
        ensures seen { IfOk result (λ ids. ids.seen ≡ seen_in file.now) }
        ensures lines { IfOk result (λ ids. ids.lines.items ≡ []) }
    {
        Ok(IdFile {
            seen: SeenIds::read(alloc, file)?,
            lines: Vec::new(alloc),
        })
    }

    /// Sees a message, and keeps the line of its identifier if it is new. Answers whether no message with that identifier was seen
    /// before. Where memory runs out, it wasn't seen.
    pub fn see_message(&mut self, alloc: Global, message: &[u8]) -> Result<bool, AllocError>
        ensures first { IfOk result (λ first. first ≡ not (is_repeated self.old.seen message.now)) }
        ensures seen { OnOk result (self.new.seen ≡ seen_after self.old.seen message.now) }
        ensures lines { OnOk result (self.new.lines.items ≡ self.old.lines.items ++ new_line self.old.seen message.now) }
        ensures seen_stays { OnErr result (self.new.seen ≡ self.old.seen) }
        ensures lines_stay { OnErr result (self.new.lines.items ≡ self.old.lines.items) }
    {
        match message_id(alloc, message)? {
            Some(id) => self.keep(id),
            None => Ok(true),
        }
    }

    // Sees an identifier, and keeps its line if it is new. Answers whether it is.
    fn keep(&mut self, id: Vec<u8>) -> Result<bool, AllocError>
        ensures first { IfOk result (λ first. first ≡ not (set.contains self.old.seen id.items)) }
        ensures seen { OnOk result (self.new.seen ≡ set.insert self.old.seen id.items) }
        ensures lines { IfOk result (λ first. self.new.lines.items ≡ self.old.lines.items ++ (if first then id_line id.items else [])) }
        ensures seen_stays { OnErr result (self.new.seen ≡ self.old.seen) }
        ensures lines_stay { OnErr result (self.new.lines.items ≡ self.old.lines.items) }
    {
        let size = self.lines.len();
        let seen = match push_line(&mut self.lines, &id) {
            Ok(()) => self.seen.see(id),
            Err(error) => Err(error),
        };
        if !matches!(seen, Ok(true)) {
            self.lines.truncate(size);
        }
        seen
    }
}

// Appends the line of an identifier; after an error some of it may follow the text.
fn push_line(text: &mut Vec<u8>, id: &[u8]) -> Result<(), AllocError>
    ensures appended { OnOk result (text.new.items ≡ text.old.items ++ line_of_id id.now) }
    ensures kept { IsKept text.old.items text.new.items }
{
    text.extend_from_slice(id)?;
    text.push(LINE_FEED)?;
    Ok(())
}

/// A file with lines more. An open last line of it is ended first.
pub fn with_lines(alloc: Global, file: &[u8], lines: &[u8]) -> Result<Vec<u8>, AllocError>
    ensures { IfOk result (λ text. text.items ≡ file_with_lines file.now lines.now) }
{
    let mut text = Vec::from_slice(alloc, file)?;
    if lines.is_empty() {
        return Ok(text);
    }
    if ends_open(file) {
        text.push(LINE_FEED)?;
    }
    text.extend_from_slice(lines)?;
    Ok(text)
}
