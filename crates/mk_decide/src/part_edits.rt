//! Whether a part may be put into a multipart, or taken out.
ghost use Rattle.std.specs.Prelude.{◌≡◌, ◌+◌, Ok, Some, IfOk, IfErr, length};
ghost use Rattle.mk_line.specs.Lines.{cut as lines_of};
ghost use Rattle.mk_tree.specs.Documents.{tree};
ghost use Rattle.mk_tree.specs.Sections.{root_of, section_at};
ghost use Rattle.mk_decide.specs.Answers.{refusal_of, IsRefusedBy};
ghost use Rattle.mk_decide.specs.Around.{hit_below};
ghost use Rattle.mk_decide.specs.LocalAnswers.{IsDecided, after_first, plain_splice};
ghost use Rattle.mk_decide.specs.Edits.{InsertPart, RemovePart};
ghost use Rattle.mk_decide.specs.Outcomes.{edited, has_mark as have_mark};
ghost use Rattle.mk_decide.specs.SectionAnswers.{or_own, ends_at_delimiter as ends_at, gap_at, insertion_answer, insertion_at, last_number, outer_path, part_bytes, removal, removal_answer, removal_from};

use crate::around::{has_mark, hit_level};
use crate::deciding::Replacement;
use crate::errors::EditError;
use crate::field_answers::opens_early;
use crate::looking::has_separator;
use mk_line::{eol_of, name_len, push_delimiter};
use mk_tree::{Doc, Kind, Section};
use std::alloc::{AllocError, Global};

const HYPHENS: &[u8; 2] = b"--";

/// The bytes that the removal of the part at a path takes out, or the first reason against it.
pub(crate) fn decide_removal(
    alloc: Global,
    doc: &Doc,
    path: &[u32],
) -> Result<Replacement, EditError>
    ensures ok { IfOk result (λ r. IsDecided (RemovePart path.now) doc.now (plain_splice r)) }
    ensures err { IfErr result (λ e. IsRefusedBy (refusal_of e) (edited (RemovePart path.now) (tree doc.now))) }
{
    match doc.section(path) {
        Some(section) => remove(alloc, doc, path, &section),
        None => Err(EditError::NoSuchSection),
    }
}

fn remove(
    alloc: Global,
    doc: &Doc,
    path: &[u32],
    section: &Section<'_>,
) -> Result<Replacement, EditError>
    requires { section_at path.now (tree doc.now) ≡ Some section.now }
    ensures ok { IfOk result (λ r. removal_answer (last_number path.now) (section_at (outer_path path.now) (tree doc.now)) section.now ≡ Ok (plain_splice r)) }
    ensures err { IfErr result (λ e. IsRefusedBy (refusal_of e) (removal_answer (last_number path.now) (section_at (outer_path path.now) (tree doc.now)) section.now)) }
{
    match doc.section(&path[..path.len() - 1]) {
        Some(outer) => remove_from(alloc, path[path.len() - 1], section, &outer),
        None => Err(EditError::NotPart),
    }
}

fn remove_from(
    alloc: Global,
    number: u32,
    section: &Section<'_>,
    outer: &Section<'_>,
) -> Result<Replacement, EditError>
    ensures ok { IfOk result (λ r. removal_from number section.now outer.now outer.now.entity ≡ Ok (plain_splice r)) }
    ensures err { IfErr result (λ e. IsRefusedBy (refusal_of e) (removal_from number section.now outer.now outer.now.entity)) }
{
    if outer.kind() != Kind::Multi {
        return Err(EditError::NotPart);
    }
    match gap(outer, number.saturating_sub(1)) {
        Some(place) => Ok(Replacement {
            place,
            count: section.end().saturating_sub(place),
            new: Vec::new(alloc),
        }),
        None => Err(EditError::NotPart),
    }
}

// Where the parts after this many begin, in bytes, where there are that many.
fn gap(section: &Section<'_>, place: u32) -> Option<usize>
    ensures { result ≡ gap_at place section.now }
{
    if place == 0 {
        let following = section.body().len() - section.preamble().len();
        return Some(section.end() - following);
    }
    match section.child(place) {
        Some(part) => Some(part.end()),
        None => None,
    }
}

/// The bytes that a part more of the multipart at a path puts in, or the first reason against it.
pub(crate) fn decide_insertion(
    alloc: Global,
    doc: &Doc,
    path: &[u32],
    place: u32,
    text: &[u8],
) -> Result<Replacement, EditError>
    ensures ok { IfOk result (λ r. IsDecided (InsertPart path.now place text.now) doc.now (plain_splice r)) }
    ensures err { IfErr result (λ e. IsRefusedBy (refusal_of e) (edited (InsertPart path.now place text.now) (tree doc.now))) }
{
    match doc.section(path) {
        Some(section) => insert(alloc, doc, path, &section, place, text),
        None => Err(EditError::NoSuchSection),
    }
}

fn insert(
    alloc: Global,
    doc: &Doc,
    path: &[u32],
    section: &Section<'_>,
    place: u32,
    text: &[u8],
) -> Result<Replacement, EditError>
    requires { section_at path.now (tree doc.now) ≡ Some section.now }
    ensures ok { IfOk result (λ r. insertion_answer doc.now (after_first path.now) text.now place section.now ≡ Ok (plain_splice r)) }
    ensures err { IfErr result (λ e. IsRefusedBy (refusal_of e) (insertion_answer doc.now (after_first path.now) text.now place section.now)) }
{
    match section.boundary() {
        Some(boundary) => insert_between(alloc, doc, path, section, boundary, place, text),
        None => Err(EditError::NotMultipart),
    }
}

fn insert_between(
    alloc: Global,
    doc: &Doc,
    path: &[u32],
    section: &Section<'_>,
    boundary: &[u8],
    place: u32,
    text: &[u8],
) -> Result<Replacement, EditError>
    requires { section_at path.now (tree doc.now) ≡ Some section.now }
    ensures ok { IfOk result (λ r. insertion_at doc.now (after_first path.now) text.now boundary.now section.now (gap_at place section.now) ≡ Ok (plain_splice r)) }
    ensures err { IfErr result (λ e. IsRefusedBy (refusal_of e) (insertion_at doc.now (after_first path.now) text.now boundary.now section.now (gap_at place section.now))) }
{
    let place = match gap(section, place) {
        Some(place) => place,
        None => return Err(EditError::BadPlace),
    };
    let new = with_delimiter(alloc, doc, boundary, text)?;
    if opens_early(doc.text(), place, 0, &new) {
        return Err(EditError::OpenLine);
    }
    if let Some(level) = part_hits(doc, &path[1..], boundary, &new, text) {
        return Err(EditError::HoldsBoundary { level });
    }
    if !ends_at_delimiter(alloc, section, place, boundary)? {
        return Err(EditError::Recut);
    }
    Ok(Replacement {
        place,
        count: 0,
        new,
    })
}

// The lines of a part more, after its delimiter.
fn with_delimiter(
    alloc: Global,
    doc: &Doc,
    boundary: &[u8],
    text: &[u8],
) -> Result<Vec<u8>, AllocError>
    ensures { IfOk result (λ v. v.items ≡ part_bytes doc.now boundary.now text.now) }
{
    let mut new = Vec::new(alloc);
    push_delimiter(&mut new, boundary, eol_of(doc.text()))?;
    new.extend_from_slice(text)?;
    Ok(new)
}

// The level of the outermost multipart that a made or given line is a delimiter or close line of: one around, or the one
// that the part is put into.
pub(crate) fn part_hits(
    doc: &Doc,
    numbers: &[u32],
    boundary: &[u8],
    lines: &[u8],
    text: &[u8],
) -> Option<usize>
    ensures { result ≡ or_own (hit_below (lines_of lines.now) 1 numbers.now (root_of (tree doc.now))) (have_mark boundary.now (lines_of text.now)) (length numbers.now + 1) }
{
    match hit_level(doc, numbers, lines) {
        Some(level) => Some(level),
        None => {
            if has_mark(text, boundary) {
                Some(numbers.len() + 1)
            } else {
                None
            }
        }
    }
}

// Whether the fields of a multipart end before a delimiter at a place.
fn ends_at_delimiter(
    alloc: Global,
    section: &Section<'_>,
    place: usize,
    boundary: &[u8],
) -> Result<bool, AllocError>
    ensures { IfOk result (λ g. g ≡ ends_at section.now place boundary.now) }
{
    if has_separator(section) || place != section.body_start() {
        return Ok(true);
    }
    let mut content = Vec::from_slice(alloc, HYPHENS)?;
    content.extend_from_slice(boundary)?;
    Ok(name_len(&content).is_none())
}
