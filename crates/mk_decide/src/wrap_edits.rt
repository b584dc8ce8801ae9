//! Whether a section may become the one part of a multipart.
ghost use Rattle.std.specs.Prelude.{◌≡◌, ◌≤◌, ◌+◌, false, length, Ok, Some, IfOk, IfErr};
ghost use Rattle.mk_line.specs.Lines.{cut as lines_of, eol_of as text_ending, is_lf as is_plain_lf, is_nil as has_none};
ghost use Rattle.mk_tree.specs.Documents.{tree};
ghost use Rattle.mk_tree.specs.Sections.{body_text, head_text, raw_of, section_at};
ghost use Rattle.mk_decide.specs.Answers.{refusal_of, IsRefusedBy};
ghost use Rattle.mk_decide.specs.Counts.{edit_lines};
ghost use Rattle.mk_decide.specs.LocalAnswers.{IsDecided, after_first, plain_splice};
ghost use Rattle.mk_decide.specs.Edits.{Wrap};
ghost use Rattle.mk_decide.specs.Outcomes.{edited};
ghost use Rattle.mk_decide.specs.WrapAnswers.{close_bytes, content_part, delimiter_bytes, other_part, separator_text, type_bytes, version_bytes, ends_in_cr as ends_in_return, fits_below as fit_below, fits_levels as fit_in_levels, keeps_wrapped as keeps_when_wrapped, makes_digest as make_digest, may_end as may_get_end, wrap_answer, wrap_fits, wrap_in, wrap_looked, wrap_opens};

use crate::around::is_glued;
use crate::deciding::Replacement;
use crate::errors::EditError;
use crate::kinds_kept::{is_alike, is_other};
use crate::looking::copied_lines;
use crate::part_edits::part_hits;
use crate::wrapped_text::{Apart, Wrapping, all_made, gains_end, is_leaf, wrapped};
use mk_head::{is_boundary, is_token};
use mk_line::{Ending, Meter, ends_open};
use mk_tree::{Doc, LEVELS, Section, describe};
use std::alloc::{AllocError, Global};

const CARRIAGE_RETURN: u8 = b'\r';

/// The bytes that a section as the one part of a multipart puts in the place of the one at a path, or the first reason
/// against it.
pub(crate) fn decide_wrap(
    alloc: Global,
    doc: &Doc,
    path: &[u32],
    subtype: &[u8],
    boundary: &[u8],
    meter: &mut Meter,
) -> Result<Replacement, EditError>
    ensures ok { IfOk result (λ r. IsDecided (Wrap path.now subtype.now boundary.now) doc.now (plain_splice r)) }
    ensures err { IfErr result (λ e. IsRefusedBy (refusal_of e) (edited (Wrap path.now subtype.now boundary.now) (tree doc.now))) }
    ensures most { meter.new ≤ meter.old + edit_lines (Wrap path.now subtype.now boundary.now) (tree doc.now) }
{
    match doc.section(path) {
        Some(section) => wrap(alloc, doc, path, &section, subtype, boundary, meter),
        None => Err(EditError::NoSuchSection),
    }
}

fn wrap(
    alloc: Global,
    doc: &Doc,
    path: &[u32],
    section: &Section<'_>,
    subtype: &[u8],
    boundary: &[u8],
    meter: &mut Meter,
) -> Result<Replacement, EditError>
    requires { section_at path.now (tree doc.now) ≡ Some section.now }
    ensures ok { IfOk result (λ r. wrap_answer doc.now (after_first path.now) subtype.now boundary.now section.now ≡ Ok (plain_splice r)) }
    ensures err { IfErr result (λ e. IsRefusedBy (refusal_of e) (wrap_answer doc.now (after_first path.now) subtype.now boundary.now section.now)) }
    ensures most { meter.new ≤ meter.old + wrap_looked subtype.now boundary.now section.now }
{
    if !is_boundary(boundary) {
        return Err(EditError::BadBoundary);
    }
    if !is_token(subtype) {
        return Err(EditError::BadSubtype);
    }
    wrap_in_place(alloc, doc, &path[1..], section, subtype, boundary, meter)
}

// The same at a section, by the numbers after the root's own.
fn wrap_in_place(
    alloc: Global,
    doc: &Doc,
    numbers: &[u32],
    section: &Section<'_>,
    subtype: &[u8],
    boundary: &[u8],
    meter: &mut Meter,
) -> Result<Replacement, EditError>
    ensures ok { IfOk result (λ r. wrap_in doc.now numbers.now subtype.now boundary.now section.now ≡ Ok (plain_splice r)) }
    ensures err { IfErr result (λ e. IsRefusedBy (refusal_of e) (wrap_in doc.now numbers.now subtype.now boundary.now section.now)) }
    ensures most { meter.new ≤ meter.old + length (lines_of (raw_of section.now)) }
{
    if opens(doc.text(), section) {
        return Err(EditError::OpenLine);
    }
    let raw = copied_lines(alloc, section.raw(), meter)?;
    let wrapping = Wrapping::make(
        alloc,
        doc.text(),
        numbers.is_empty(),
        section,
        &raw,
        subtype,
        boundary,
    )?;
    wrap_made(alloc, doc, numbers, section, &wrapping, subtype, boundary)
}

// The same once the new lines are made.
fn wrap_made(
    alloc: Global,
    doc: &Doc,
    numbers: &[u32],
    section: &Section<'_>,
    wrapping: &Wrapping<'_>,
    subtype: &[u8],
    boundary: &[u8],
) -> Result<Replacement, EditError>
    requires opens { wrap_opens doc.now section.now ≡ false }
    requires ending { wrapping.now.eol ≡ text_ending (lines_of doc.now) }
    requires head { wrapping.now.apart.head.now ≡ head_text section.now }
    requires separator { wrapping.now.apart.separator.now ≡ separator_text section.now }
    requires body { wrapping.now.apart.body.now ≡ body_text section.now }
    requires others { wrapping.now.divided.others.items ≡ other_part (head_text section.now) }
    requires content { wrapping.now.divided.content.items ≡ content_part (head_text section.now) }
    requires version { wrapping.now.made.version.items ≡ version_bytes (text_ending (lines_of doc.now)) (has_none numbers.now) (other_part (head_text section.now)) }
    requires kind { wrapping.now.made.kind.items ≡ type_bytes (text_ending (lines_of doc.now)) subtype.now boundary.now }
    requires delimiter { wrapping.now.made.delimiter.items ≡ delimiter_bytes (text_ending (lines_of doc.now)) boundary.now }
    requires close { wrapping.now.made.close.items ≡ close_bytes (text_ending (lines_of doc.now)) boundary.now }
    ensures ok { IfOk result (λ r. wrap_in doc.now numbers.now subtype.now boundary.now section.now ≡ Ok (plain_splice r)) }
    ensures err { IfErr result (λ e. IsRefusedBy (refusal_of e) (wrap_in doc.now numbers.now subtype.now boundary.now section.now)) }
{
    let Wrapping {
        eol,
        apart,
        divided,
        made,
    } = wrapping;
    let lines = all_made(alloc, made)?;
    if let Some(level) = part_hits(doc, numbers, boundary, &lines, apart.body) {
        return Err(EditError::HoldsBoundary { level });
    }
    if !fits(alloc, doc, *eol, numbers, section, apart, subtype)? {
        return Err(EditError::Recut);
    }
    Ok(Replacement {
        place: section.start(),
        count: section.raw().len(),
        new: wrapped(alloc, *eol, section, apart, divided, made)?,
    })
}

// Whether a line without an ending would stand before another: the last of a text, where it isn't that of a body that
// gets an ending.
fn opens(text: &[u8], section: &Section<'_>) -> bool
    ensures { result ≡ wrap_opens text.now section.now }
{
    if section.followed() || is_leaf(section) && !section.body().is_empty() {
        return false;
    }
    ends_open(text)
}

// Whether what is made of a section is read back.
fn fits(
    alloc: Global,
    doc: &Doc,
    eol: Ending,
    numbers: &[u32],
    section: &Section<'_>,
    apart: &Apart<'_>,
    subtype: &[u8],
) -> Result<bool, AllocError>
    requires head { apart.now.head.now ≡ head_text section.now }
    requires body { apart.now.body.now ≡ body_text section.now }
    ensures { IfOk result (λ g. g ≡ wrap_fits (tree doc.now) eol numbers.now subtype.now section.now) }
{
    if is_glued(doc, numbers) || !may_end(eol, section, apart.body) {
        return Ok(false);
    }
    fits_below(
        alloc,
        numbers.len() + 1,
        section,
        apart.head,
        makes_digest(subtype),
    )
}

// Whether an ending at the end of the body, where it gets one, doesn't meet a CR.
fn may_end(eol: Ending, section: &Section<'_>, body: &[u8]) -> bool
    requires { body.now ≡ body_text section.now }
    ensures { result ≡ may_get_end eol section.now }
{
    !(gains_end(section) && is_lf(eol) && ends_in_cr(body))
}

fn is_lf(eol: Ending) -> bool
    ensures { result ≡ is_plain_lf eol }
{
    match eol {
        Ending::Lf => true,
        Ending::Crlf | Ending::Missing => false,
    }
}

// Whether the last byte is a CR.
fn ends_in_cr(text: &[u8]) -> bool
    ensures { result ≡ ends_in_return text.now }
{
    text.last() == Some(&CARRIAGE_RETURN)
}

fn makes_digest(subtype: &[u8]) -> bool
    ensures { result ≡ make_digest subtype.now }
{
    subtype.eq_ignore_ascii_case(b"digest")
}

// Whether a level is left for a section of a level and for what stands in it, and it stays of its kind.
fn fits_below(
    alloc: Global,
    level: usize,
    section: &Section<'_>,
    head: &[u8],
    digest: bool,
) -> Result<bool, AllocError>
    requires { head.now ≡ head_text section.now }
    ensures { IfOk result (λ g. g ≡ fit_below level digest section.now) }
{
    if level > LEVELS as usize || !fits_levels(section, LEVELS as usize - level) {
        return Ok(false);
    }
    keeps_wrapped(alloc, level + 1, section, head, digest)
}

// Whether no multipart or message is so deep that no level is left below it, with this many levels left below the section.
fn fits_levels(section: &Section<'_>, left: usize) -> bool
    ensures { result ≡ fit_in_levels left section.now.entity }
{
    if is_leaf(section) {
        return true;
    }
    if left == 0 {
        return false;
    }
    for child in section.children() {
        if !fits_levels(&child, left - 1) {
            return false;
        }
    }
    true
}

// Whether a section stays of its kind under a default, where it isn't at a level where all are leaves.
fn keeps_wrapped(
    alloc: Global,
    level: usize,
    section: &Section<'_>,
    head: &[u8],
    digest: bool,
) -> Result<bool, AllocError>
    requires { head.now ≡ head_text section.now }
    ensures { IfOk result (λ g. g ≡ keeps_when_wrapped level digest section.now) }
{
    if level > LEVELS as usize || !is_other(section.default_message(), digest) {
        return Ok(true);
    }
    let described = describe(alloc, head, digest)?;
    Ok(is_alike(&described, section))
}
