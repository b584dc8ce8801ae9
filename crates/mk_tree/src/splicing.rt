//! Changing a document in place.
ghost use Rattle.std.specs.Prelude.{◌≡◌, ◌+◌, ◌-◌, ◌≤◌, false, length, IfOk, IfErr, OnOk, OnErr};
ghost use Rattle.mk_head.specs.Split.{fields_from};
ghost use Rattle.mk_line.specs.Lines.{cut as lines_of};
ghost use Rattle.mk_tree.specs.Documents.{tree};
ghost use Rattle.mk_tree.specs.Sections.{head_text};
ghost use Rattle.mk_tree.specs.Splicing.{changed_fields, ChangesFields, IsDigestOf};
ghost use Rattle.mk_splice.specs.Splices.{spliced};

use crate::changing::Own;
use crate::describing::{Described, describe};
use crate::doc::Doc;
use crate::planning::{Plan, SectionChange, levels_below, plan_change};
use crate::section::Section;
use crate::shapes::Kind;
use mk_splice::replace;
use std::alloc::{AllocError, Global};

/// A change of a section of a document.
#[derive(Debug, Drop)]
pub enum Change {
    /// `text` comes in the place of `count` bytes at `place`, an offset in bytes from 0 in the document, among the lines of
    /// the section's fields.
    Header {
        place: usize,
        count: usize,
        text: Vec<u8>,
    },
    /// `text` comes in the place of all bytes after the section's head: its body, and before it an empty line where the head
    /// has none.
    Body {
        text: Vec<u8>,
    },
    /// `text` comes in the place of the whole section.
    Entity {
        text: Vec<u8>,
    },
    /// A multipart has one more part, after `place` others: `text` is its delimiter line and the part.
    Part {
        place: u32,
        text: Vec<u8>,
    },
    /// The section, a part, goes with its delimiter line.
    NoPart,
}

// Whether a missing type means a message in a section's parts, where `text` stands in the place of `count` bytes at `from`
// in its head.
fn digest_after(
    alloc: Global,
    section: &Section<'_>,
    from: usize,
    count: usize,
    text: &[u8],
) -> Result<bool, AllocError>
    requires { from + count ≤ length (head_text section.now) }
    ensures { IfOk result (λ g. IsDigestOf g section.now.digest (changed_fields from count text.now section.now) section.now.entity) }
{
    match section.kind() {
        Kind::Leaf | Kind::Message => Ok(false),
        Kind::Multi => {
            let mut head = Vec::from_slice(alloc, section.head())?;
            replace(&mut head, from, count, text)?;
            match describe(alloc, &head, section.default_message())? {
                Described::Multi(_, digest) => Ok(digest),
                Described::Leaf | Described::Message => Ok(false),
            }
        }
    }
}

impl Doc {
    ghost use Rattle.std.specs.Prelude.{◌≡◌, ◌+◌, ◌≤◌, length, IfOk, IfErr, OnOk, OnErr};
    ghost use Rattle.mk_tree.specs.Documents.{Document, tree, printed};
    ghost use Rattle.mk_splice.specs.Splices.{spliced};
    ghost use Rattle.mk_tree.specs.Splicing.{ChangesFields, DigestsBelow, SectionBecomes};
    ghost use Rattle.mk_tree.specs.ChangeViews.{ChangesTo};
    ghost use Rattle.mk_tree.specs.Planning.{Becomes, Puts};

    /// Changes the section at a path, where the document that comes of it is stable: the bytes, and of the tree the
    /// sections on the path. It reads the new bytes and the head of the section. If memory runs out, nothing changes,
    /// and the change comes back.
    pub fn splice(&mut self, path: &[u32], change: Change) -> Result<(), (Change, AllocError)>
        requires { (u : Document) × ChangesTo path.now change (tree self.old) u }
        ensures ok { OnOk result ((u : Document) → ChangesTo path.now change (tree self.old) u → self.new ≡ printed u) }
        ensures same { OnErr result (self.new ≡ self.old) }
        ensures change { IfErr result (λ e. e.0 ≡ change) }
    {
        match self.change(path, &change) {
            Ok(()) => Ok(()),
            Err(error) => Err((change, error)),
        }
    }

    fn change(&mut self, path: &[u32], change: &Change) -> Result<(), AllocError>
        requires { (u : Document) × ChangesTo path.now change.now (tree self.old) u }
        ensures ok { OnOk result ((u : Document) → ChangesTo path.now change.now (tree self.old) u → self.new ≡ printed u) }
        ensures err { OnErr result (self.new ≡ self.old) }
    {
        match change {
            Change::Header { place, count, text } => {
                self.change_fields(path, *place, *count, text)
            }
            Change::Body { text } => self.change_section(path, SectionChange::Body(text)),
            Change::Entity { text } => self.change_section(path, SectionChange::Entity(text)),
            Change::Part { place, text } => {
                self.change_section(path, SectionChange::Part(*place, text))
            }
            Change::NoPart => match path.split_last() {
                Some((number, around)) => {
                    self.change_section(around, SectionChange::NoPart(*number))
                }
                None => Ok(()),
            },
        }
    }

    fn change_section(&mut self, path: &[u32], change: SectionChange<'_>) -> Result<(), AllocError>
        requires { (u : Document) × SectionBecomes path.now (Becomes change) (tree self.old) u }
        ensures ok { OnOk result ((u : Document) → SectionBecomes path.now (Becomes change.entry) (tree self.old) u → self.new ≡ printed u) }
        ensures err { OnErr result (self.new ≡ self.old) }
    {
        let alloc = self.text.allocator();
        let left = levels_below(path.len() - 1);
        match self.section(path) {
            Some(section) => {
                let plan = plan_change(alloc, &section, left, change)?;
                self.put(path, plan, change.text())
            }
            None => Ok(()),
        }
    }

    fn change_fields(
        &mut self,
        path: &[u32],
        place: usize,
        count: usize,
        text: &[u8],
    ) -> Result<(), AllocError>
        requires { ChangesFields path.now place count text.now (tree self.old) }
        ensures ok { OnOk result (self.new ≡ spliced place count text.now self.old) }
        ensures err { OnErr result (self.new ≡ self.old) }
    {
        let digest = self.digest_below(path, place, count, text)?;
        let own = Own::Fields(digest);
        self.put(path, Plan { place, count, own }, text)
    }

    // Makes what is planned. What can fail comes first.
    fn put(&mut self, path: &[u32], plan: Plan, text: &[u8]) -> Result<(), AllocError>
        requires { Puts path.now text.now (tree self.old) plan }
        ensures ok { OnOk result (self.new ≡ spliced plan.place plan.count text.now self.old) }
        ensures err { OnErr result (self.new ≡ self.old) }
    {
        let Plan { place, count, own } = plan;
        self.text.reserve(place, count, text.len())?;
        self.root.change(&path[1..], count, text.len(), own)?;
        self.text.replace_within(place, count, text);
        Ok(())
    }

    // Whether a missing type means a message in the parts of the section at a path, where `text` stands in the place of
    // `count` bytes at `place`, among its fields.
    fn digest_below(
        &self,
        path: &[u32],
        place: usize,
        count: usize,
        text: &[u8],
    ) -> Result<bool, AllocError>
        requires { ChangesFields path.now place count text.now (tree self.now) }
        ensures { IfOk result (λ g. DigestsBelow path.now place count text.now (tree self.now) g) }
    {
        let alloc = self.text.allocator();
        match self.section(path) {
            Some(section) => digest_after(alloc, &section, place - section.start(), count, text),
            None => Ok(false),
        }
    }
}
