//! Planning a change of a section: the bytes that go, and what becomes of the node.
ghost use Rattle.std.specs.Prelude.{◌≡◌, ◌≤◌, ◌-◌, ◌∷◌, ℕ, List, [], length, IfOk};
ghost use Rattle.mk_line.specs.Lines.{TextLine, cut as lines_of};
ghost use Rattle.mk_tree.specs.Documents.{levels};
ghost use Rattle.mk_tree.specs.Nodes.{node_span};
ghost use Rattle.mk_tree.specs.Planning.{Becomes, IsBehindParts, LacksPart, MakesAll, new_of};
ghost use Rattle.mk_tree.specs.Spans.{span_of};
ghost use Rattle.mk_tree.specs.Splicing.{HasBody, HasText, HasPart};
ghost use Rattle.mk_tree.specs.Tree.{Entity, read};

use crate::changing::Own;
use crate::dashes::dashed_lines;
use crate::doc::LEVELS;
use crate::node::Node;
use crate::reading::read_entity;
use crate::section::Section;
use mk_line::first_line;
use std::alloc::{AllocError, Global};

/// What is changed of a section.
#[derive(Clone, Copy)]
pub(crate) enum SectionChange<'a> {
    /// All bytes after its head.
    Body(&'a [u8]),
    /// All its bytes.
    Entity(&'a [u8]),
    /// One more part, after this many: its delimiter and its bytes.
    Part(u32, &'a [u8]),
    /// The part of a number, counted from 1, goes with its delimiter.
    NoPart(u32),
}

impl<'a> SectionChange<'a> {
    ghost use Rattle.std.specs.Prelude.{◌≡◌};
    ghost use Rattle.mk_tree.specs.Planning.{new_of};

    /// The bytes that come.
    pub(crate) fn text(self) -> &'a [u8]
        ensures { result.now ≡ new_of self.entry }
    {
        match self {
            SectionChange::Body(text)
            | SectionChange::Entity(text)
            | SectionChange::Part(_, text) => text,
            SectionChange::NoPart(_) => b"",
        }
    }
}

/// Bytes of a document that go, and what becomes of the node of a section.
#[derive(Drop)]
pub(crate) struct Plan {
    /// Where they stand, in bytes from 0.
    pub place: usize,
    pub count: usize,
    pub own: Own,
}

/// How many levels there may be below a section at this depth below the root.
pub(crate) fn levels_below(depth: usize) -> u8
    ensures { result ≡ levels - depth }
{
    (LEVELS as usize).saturating_sub(depth) as u8
}

/// Plans a change of a section with at most this many levels below it. It reads the new bytes, and none of the others but
/// those of the section's head.
pub(crate) fn plan_change(
    alloc: Global,
    section: &Section<'_>,
    left: u8,
    change: SectionChange<'_>,
) -> Result<Plan, AllocError>
    requires { (e : Entity) × Becomes change section.now.entity e }
    ensures { IfOk result (λ q. MakesAll section.now left (Becomes change.entry) (new_of change.entry) q) }
{
    match change {
        SectionChange::Body(text) => plan_body(alloc, section, left, text),
        SectionChange::Entity(text) => plan_entity(alloc, section, left, text),
        SectionChange::Part(place, text) => plan_part(alloc, section, left, place, text),
        SectionChange::NoPart(number) => Ok(plan_removal(section, number)),
    }
}

// Reads all of a text as an entity after a delimiter of a length.
fn read_whole(
    alloc: Global,
    text: &[u8],
    delimiter: usize,
    digest: bool,
    left: u8,
) -> Result<Node, AllocError>
    ensures { IfOk result (λ node. node_span node ≡ span_of digest delimiter (read left digest (lines_of text.now))) }
{
    let (node, _) = read_entity(alloc, text, delimiter, &[], &dashed_lines(), digest, left)?;
    Ok(node)
}

fn plan_body(
    alloc: Global,
    section: &Section<'_>,
    left: u8,
    text: &[u8],
) -> Result<Plan, AllocError>
    ensures { IfOk result (λ q. MakesAll section.now left (HasBody text.now) text.now q) }
{
    let count = section.body().len();
    let (front, _) = section.raw().split_at(section.raw().len() - count);
    let mut whole = Vec::from_slice(alloc, front)?;
    whole.extend_from_slice(text)?;
    let node = read_whole(alloc, &whole, 0, section.default_message(), left)?;
    Ok(Plan {
        place: section.body_start(),
        count,
        own: Own::Entity(node),
    })
}

fn plan_entity(
    alloc: Global,
    section: &Section<'_>,
    left: u8,
    text: &[u8],
) -> Result<Plan, AllocError>
    ensures { IfOk result (λ q. MakesAll section.now left (HasText text.now) text.now q) }
{
    let node = read_whole(alloc, text, 0, section.default_message(), left)?;
    Ok(Plan {
        place: section.start(),
        count: section.raw().len(),
        own: Own::Entity(node),
    })
}

fn plan_part(
    alloc: Global,
    section: &Section<'_>,
    left: u8,
    place: u32,
    text: &[u8],
) -> Result<Plan, AllocError>
    requires { (e : Entity) × HasPart place text.now section.now.entity e }
    ensures { IfOk result (λ q. MakesAll section.now left (HasPart place text.now) text.now q) }
{
    let part = after_first_line(text);
    let delimiter = text.len() - part.len();
    let left = left.saturating_sub(1);
    let node = read_whole(alloc, part, delimiter, section.parts_default(), left)?;
    Ok(Plan {
        place: after_parts(section, place),
        count: 0,
        own: Own::Part(place as usize, node),
    })
}

fn plan_removal(section: &Section<'_>, number: u32) -> Plan
    requires { (e : Entity) × LacksPart number section.now.entity e }
    ensures { (left : ℕ) → MakesAll section.now left (LacksPart number) [] result }
{
    let before = number - 1;
    let place = after_parts(section, before);
    Plan {
        place,
        count: after_parts(section, number) - place,
        own: Own::NoPart(before as usize),
    }
}

// Where a multipart's first parts end, this many of them: after its preamble where they are none.
fn after_parts(section: &Section<'_>, count: u32) -> usize
    ensures { IsBehindParts section.now count result }
{
    match section.child(count) {
        Some(part) => part.end(),
        None => section.end() - (section.body().len() - section.preamble().len()),
    }
}

// What follows the first line of a text.
fn after_first_line(text: &[u8]) -> &[u8]
    ensures lines { (l : TextLine) (ls : List TextLine) → lines_of text.now ≡ l ∷ ls → lines_of result.now ≡ ls }
    ensures less { length result.now ≤ length text.now }
{
    match first_line(text) {
        Some((_, rest)) => rest,
        None => text,
    }
}
