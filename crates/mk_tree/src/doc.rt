//! Documents: a text, and the tree that it is read as.
ghost use Rattle.std.specs.Prelude.{◌≡◌, ◌+◌, false, length, IfOk};
ghost use Rattle.mk_tree.specs.Layouts.{IsTreeOver};
ghost use Rattle.mk_line.specs.Lines.{cut as lines_of};
ghost use Rattle.mk_head.specs.Fields.{fields_of};
ghost use Rattle.mk_head.specs.Split.{fields_from};
ghost use Rattle.std.specs.Option.{option_to_list};
ghost use Rattle.mk_tree.specs.Spans.{size};
ghost use Rattle.mk_tree.specs.Documents.{levels, tree};
ghost use Rattle.mk_tree.specs.Sections.{root_of, section_fields};
ghost use Rattle.mk_tree.specs.Tree.{read};

use crate::dashes::dashed_lines;
use crate::node::Node;
use crate::reading::read_entity;
use crate::section::Section;
use mk_line::{first_line, is_from_line};
use mk_splice::Text;
use std::alloc::{AllocError, Global};
use std::marker::Model;

/// How many levels there may be below the root.
pub const LEVELS: u8 = 100;

/// A text that was read, and the tree of its sections.
#[derive(Drop)]
pub struct Doc {
    pub(crate) text: Text,
    /// The line that a mailbox puts before a message, in bytes.
    pub(crate) envelope: usize,
    pub(crate) root: Node,
}

impl Model for Doc {
    ghost use Rattle.std.specs.Prelude.{ℕ, List};

    ghost Value = { List ℕ };

    ghost use Rattle.mk_tree.specs.Layouts.{IsTreeOver};

    ghost view = { λ d. d.text.bytes };

    ghost invariant = { λ d. IsTreeOver d.root d.envelope d.text.bytes };
}

impl Doc {
    ghost use Rattle.std.specs.Prelude.{◌≡◌, IfOk, IfErr};
    ghost use Rattle.mk_tree.specs.Documents.{tree};
    ghost use Rattle.mk_tree.specs.Sections.{root_of, section_at};

    /// Reads a text, in one pass. If memory runs out, the text comes back.
    pub fn read(alloc: Global, text: Vec<u8>) -> Result<Doc, (Vec<u8>, AllocError)>
        ensures ok { IfOk result (λ d. d ≡ text.items) }
        ensures err { IfErr result (λ e. e.0.items ≡ text.items) }
    {
        match read_root(alloc, &text) {
            Ok((envelope, root)) => Ok(Doc {
                text: Text::new(text),
                envelope,
                root,
            }),
            Err(error) => Err((text, error)),
        }
    }

    /// The text.
    pub fn text(&self) -> &[u8]
        ensures { result.now ≡ self.now }
    {
        self.text.bytes()
    }

    /// The text, where the tree is done with.
    pub fn into_text(self) -> Vec<u8>
        ensures { result.items ≡ self }
    {
        self.text.into_bytes()
    }

    /// The root of the sections: all of the text but the line that a mailbox puts before a message.
    pub fn root(&self) -> Section<'_>
        ensures { result ≡ root_of (tree self.now) }
    {
        let (_, raw) = self.text.bytes().split_at(self.envelope);
        Section {
            raw,
            node: &self.root,
            start: self.envelope,
            followed: false,
            digest: false,
            left: LEVELS,
        }
    }

    /// The section at a path: 1 is the root, and each number after it counts the sections below from 1.
    pub fn section(&self, path: &[u32]) -> Option<Section<'_>>
        ensures { result ≡ section_at path.now (tree self.now) }
    {
        let (first, numbers) = path.split_first()?;
        if *first != 1 {
            return None;
        }
        let mut section = self.root();
        for number in numbers {
            section = section.child(*number)?;
        }
        Some(section)
    }
}

/// The tree of a text: how many bytes the line takes that a mailbox puts before a message, and the root.
pub(crate) fn read_root(alloc: Global, text: &[u8]) -> Result<(usize, Node), AllocError>
    ensures { IfOk result (λ r. IsTreeOver r.1 r.0 text.now) }
{
    let message = skip_envelope(text);
    let envelope = text.len() - message.len();
    let (root, _) = read_entity(alloc, message, 0, &[], &dashed_lines(), false, LEVELS)?;
    Ok((envelope, root))
}

/// What follows the line that a mailbox puts before a message, or all of a text that begins with no such line. It begins with
/// the fields of the root, so these are there without reading the rest.
pub fn after_envelope(text: &[u8]) -> &[u8]
    ensures { fields_of (fields_from false (lines_of result.now)) ≡ section_fields (root_of (tree text.now)) }
{
    skip_envelope(text)
}

// What follows the line that a mailbox puts before a message, where it is there.
fn skip_envelope(text: &[u8]) -> &[u8]
    ensures envelope { length text.now ≡ size (option_to_list (tree text.now).envelope) + length result.now }
    ensures message { (tree text.now).root ≡ read levels false (lines_of result.now) }
{
    match first_line(text) {
        Some((line, rest)) => {
            if is_from_line(line.content) {
                rest
            } else {
                text
            }
        }
        None => text,
    }
}
