//! Parts after the last one of a multipart, or beside any other section.

ghost use Rattle.std.specs.Prelude.{◌≡◌, ◌++◌, ◌∷◌, [], length, IfOk};
ghost use Rattle.mk_head.specs.Fields.{counted};
ghost use Rattle.mk_decide.specs.Edits.{InsertPart, SetSection};
ghost use Rattle.mk_decide.specs.Views.{edit_of};
ghost use Rattle.mk_tree.specs.Documents.{tree};
ghost use Rattle.mk_tree.specs.Sections.{children as sections_below, raw_of, section_at};
ghost use Rattle.mk_expand.specs.Appends.{after_parts, appended, beside, follows_last, follows_parts, is_multipart, last_divided, made_part, text_part};
ghost use Rattle.mk_expand.specs.Contents.{divided};
ghost use Rattle.mk_expand.specs.Views.{plain_edits};
ghost use Rattle.mk_expand.specs.Words.{append as append_at};

use crate::contents::{body_with, divide};
use mk_decide::Edit;
use mk_line::Ending;
use mk_pack::{MIXED, boundary_beside};
use mk_tree::{Doc, Kind, Section};
use std::alloc::{AllocError, Global};

/// Puts a part after the others of the multipart at a path, or beside another section, in a multipart of both.
pub(crate) fn append(
    alloc: Global,
    doc: &Doc,
    path: Vec<u32>,
    text: Vec<u8>,
    eol: Ending,
) -> Result<Vec<Edit>, AllocError>
    ensures { IfOk result (λ edits. plain_edits edits.items ≡ append_at eol path.items text.items (section_at path.items (tree doc.now))) }
{
    match doc.section(&path) {
        Some(section) => append_to(alloc, &section, path, text, eol),
        None => inserted(alloc, path, 0, text),
    }
}

// Puts a part after those of a multipart, or beside another section.
fn append_to(
    alloc: Global,
    section: &Section<'_>,
    path: Vec<u32>,
    text: Vec<u8>,
    eol: Ending,
) -> Result<Vec<Edit>, AllocError>
    ensures { IfOk result (λ edits. plain_edits edits.items ≡ appended eol path.items text.items section.now) }
{
    if is_multi(section) {
        append_part(alloc, section, path, text, eol)
    } else {
        put_beside(alloc, section, path, text)
    }
}

// Whether a section is a multipart.
fn is_multi(section: &Section<'_>) -> bool
    ensures { result ≡ is_multipart section.now.entity }
{
    match section.kind() {
        Kind::Multi => true,
        Kind::Leaf | Kind::Message => false,
    }
}

// Puts a section into a multipart, and a part after it.
fn put_beside(
    alloc: Global,
    section: &Section<'_>,
    path: Vec<u32>,
    text: Vec<u8>,
) -> Result<Vec<Edit>, AllocError>
    ensures { IfOk result (λ edits. plain_edits edits.items ≡ beside path.items text.items section.now) }
{
    let boundary = boundary_beside(alloc, section.raw(), &text)?;
    let subtype = Vec::from_slice(alloc, MIXED)?;
    let around = Vec::from_slice(alloc, &path)?;
    let mut edits = Vec::new(alloc);
    edits.push(Edit::Wrap {
        path: around,
        subtype,
        boundary,
    })?;
    edits.push(Edit::InsertPart {
        path,
        place: 1,
        text,
    })?;
    Ok(edits)
}

// Puts a part after those of a multipart, as far as numbers go.
fn append_part(
    alloc: Global,
    section: &Section<'_>,
    path: Vec<u32>,
    text: Vec<u8>,
    eol: Ending,
) -> Result<Vec<Edit>, AllocError>
    ensures { IfOk result (λ edits. plain_edits edits.items ≡ after_parts eol path.items text.items (length (sections_below section.now)) (sections_below section.now)) }
{
    let Ok(count) = u32::try_from(section.parts()) else {
        return inserted(alloc, path, u32::MAX, text);
    };
    let mut edits = divide_last(alloc, section, &path, count, eol)?;
    edits.push(Edit::InsertPart {
        path,
        place: count,
        text,
    })?;
    Ok(edits)
}

// Puts a line ending after the last of this many parts, if no line follows it.
fn divide_last(
    alloc: Global,
    section: &Section<'_>,
    path: &[u32],
    count: u32,
    eol: Ending,
) -> Result<Vec<Edit>, AllocError>
    ensures { IfOk result (λ edits. plain_edits edits.items ≡ last_divided eol path.now count (sections_below section.now)) }
{
    let mut edits = Vec::new(alloc);
    if let Some(last) = section.child(count) {
        if !last.followed() {
            edits.push(division(alloc, last.raw(), path, count, eol)?)?;
        }
    }
    Ok(edits)
}

// Puts a line ending after a part.
fn division(
    alloc: Global,
    raw: &[u8],
    path: &[u32],
    number: u32,
    eol: Ending,
) -> Result<Edit, AllocError>
    ensures { IfOk result (λ edit. edit_of edit ≡ SetSection (path.now ++ number ∷ []) (divided eol raw.now)) }
{
    let mut path = Vec::from_slice(alloc, path)?;
    path.push(number)?;
    let mut text = Vec::from_slice(alloc, raw)?;
    divide(&mut text, eol)?;
    Ok(Edit::SetSection { path, text })
}

/// A made part as it goes after the others of the multipart at a path, or beside another section: with a line ending, if a line is to follow it.
pub(crate) fn part_to_append(
    doc: &Doc,
    path: &[u32],
    text: Vec<u8>,
    eol: Ending,
) -> Result<Vec<u8>, AllocError>
    ensures { IfOk result (λ part. part.items ≡ made_part eol text.items (section_at path.now (tree doc.now))) }
{
    let mut part = text;
    if let Some(section) = doc.section(path) {
        if is_last_followed(&section) {
            part.extend_from_slice(eol.bytes())?;
        }
    }
    Ok(part)
}

/// A text as a part without fields, as it goes after the others of the multipart at a path.
pub(crate) fn text_to_append(
    alloc: Global,
    doc: &Doc,
    path: &[u32],
    text: &[u8],
    eol: Ending,
) -> Result<Vec<u8>, AllocError>
    ensures { IfOk result (λ part. part.items ≡ text_part eol text.now (section_at path.now (tree doc.now))) }
{
    let mut part = Vec::from_slice(alloc, eol.bytes())?;
    let followed = match doc.section(path) {
        Some(section) => is_last_followed(&section),
        None => false,
    };
    let body = body_with(Vec::from_slice(alloc, text)?, eol, followed)?;
    part.extend_from_slice(&body)?;
    Ok(part)
}

// Whether a line follows a new part: beside a section the close line does.
fn is_last_followed(section: &Section<'_>) -> bool
    ensures { result ≡ follows_last section.now }
{
    !is_multi(section) || are_parts_followed(section)
}

// Whether a line follows the last part of a multipart, as far as numbers go; without parts, whether one follows the preamble.
fn are_parts_followed(section: &Section<'_>) -> bool
    ensures { result ≡ follows_parts section.now }
{
    match u32::try_from(section.parts()) {
        Ok(count) => match section.child(count) {
            Some(last) => last.followed(),
            None => section.preamble().len() < section.body().len() || section.followed(),
        },
        Err(_) => true,
    }
}

// One more part, and nothing else.
fn inserted(
    alloc: Global,
    path: Vec<u32>,
    place: u32,
    text: Vec<u8>,
) -> Result<Vec<Edit>, AllocError>
    ensures { IfOk result (λ edits. plain_edits edits.items ≡ InsertPart path.items place text.items ∷ []) }
{
    let mut edits = Vec::new(alloc);
    edits.push(Edit::InsertPart { path, place, text })?;
    Ok(edits)
}
