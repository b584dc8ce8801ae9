//! Whether an edit of fields is accepted, by the section and what stands around it alone.
ghost use Rattle.std.specs.Prelude.{◌≡◌, ◌≤◌, ◌+◌, ◌-◌, ◌∷◌, length, take, Ok, Some, IfOk, IfErr};
ghost use Rattle.mk_line.specs.Lines.{cut as lines_of};
ghost use Rattle.mk_head.specs.Splits.{IsRun};
ghost use Rattle.mk_tree.specs.Documents.{tree};
ghost use Rattle.mk_tree.specs.Sections.{section_at, head_text};
ghost use Rattle.mk_splice.specs.Splices.{spliced};
ghost use Rattle.mk_decide.specs.FieldPuts.{plain_of};
ghost use Rattle.mk_decide.specs.Answers.{refusal_of, IsRefusedBy};
ghost use Rattle.mk_decide.specs.LocalAnswers.{IsDecided, answer_at, answer_bytes, looked_at, looked_bytes, fits_at, is_first as begins_document, opens_at, plain_splice};
ghost use Rattle.mk_decide.specs.Counts.{edit_lines};
ghost use Rattle.mk_decide.specs.Outcomes.{edited};
ghost use Rattle.mk_decide.specs.KindsKept.{looked_below};

use crate::around::{hit_level, is_glued};
use crate::deciding::Replacement;
use crate::errors::EditError;
use crate::field_edits::{FieldEdit, Put, put_of};
use crate::kinds_kept::keeps_kinds;
use crate::looking::{copied_lines, ends_there};
use mk_line::{Meter, ends_open};
use mk_splice::replace;
use mk_tree::{Doc, Section};
use std::alloc::{AllocError, Global};

/// The bytes that an edit of the fields of the section at a path replaces, or the first reason against it.
pub(crate) fn decide_fields(
    alloc: Global,
    doc: &Doc,
    path: &[u32],
    edit: &FieldEdit<'_>,
    meter: &mut Meter,
) -> Result<Replacement, EditError>
    ensures ok { IfOk result (λ r. IsDecided (plain_of path.now edit.now) doc.now (plain_splice r)) }
    ensures err { IfErr result (λ e. IsRefusedBy (refusal_of e) (edited (plain_of path.now edit.now) (tree doc.now))) }
    ensures most { meter.new ≤ meter.old + edit_lines (plain_of path.now edit.now) (tree doc.now) + 1 }
{
    match doc.section(path) {
        Some(section) => decide_at(alloc, doc, &path[1..], &section, edit, meter),
        None => Err(EditError::NoSuchSection),
    }
}

// The same at a section, by the numbers after the root's own.
fn decide_at(
    alloc: Global,
    doc: &Doc,
    numbers: &[u32],
    section: &Section<'_>,
    edit: &FieldEdit<'_>,
    meter: &mut Meter,
) -> Result<Replacement, EditError>
    requires { section_at (1 ∷ numbers.now) (tree doc.now) ≡ Some section.now }
    ensures ok { IfOk result (λ r. answer_at doc.now numbers.now edit.now section.now ≡ Ok (plain_splice r)) }
    ensures err { IfErr result (λ e. IsRefusedBy (refusal_of e) (answer_at doc.now numbers.now edit.now section.now)) }
    ensures most { meter.new ≤ meter.old + looked_at doc.now edit.now section.now }
{
    let head = copied_lines(alloc, section.head(), meter)?;
    let put = put_of(alloc, &head, edit)?;
    decide_put(alloc, doc, numbers, section, head, put, meter)
}

// The same for whole lines put among those of the section's head.
fn decide_put(
    alloc: Global,
    doc: &Doc,
    numbers: &[u32],
    section: &Section<'_>,
    head: Vec<u8>,
    put: Put,
    meter: &mut Meter,
) -> Result<Replacement, EditError>
    requires head { head.items ≡ head_text section.now }
    requires within { section.now.start + put.from + put.count ≤ length doc.now }
    requires inside { put.from + put.count ≤ length head.items }
    requires stays { put.kept ≤ put.count }
    requires kept { put.kept ≤ length put.lines.items }
    ensures ok { IfOk result (λ r. answer_bytes doc.now numbers.now section.now put.from put.count put.lines.items put.kept ≡ Ok (plain_splice r)) }
    ensures err { IfErr result (λ e. IsRefusedBy (refusal_of e) (answer_bytes doc.now numbers.now section.now put.from put.count put.lines.items put.kept)) }
    ensures most { meter.new ≤ meter.old + looked_bytes doc.now section.now put.from put.count put.lines.items }
{
    let text = doc.text();
    let place = section.start() + put.from;
    if opens_early(text, place, put.count, &put.lines) {
        return Err(EditError::OpenLine);
    }
    if let Some(level) = hit_level(doc, numbers, &put.lines) {
        return Err(EditError::HoldsBoundary { level });
    }
    let mut head = head;
    replace(&mut head, put.from, put.count, &put.lines)?;
    if fits(alloc, doc, numbers, section, &head, meter)? {
        Ok(splice_of(place, put))
    } else {
        Err(EditError::Recut)
    }
}

/// Whether a line without an ending would stand before another, with whole lines in the place of `count` bytes.
pub fn opens_early(text: &[u8], place: usize, count: usize, lines: &[u8]) -> bool
    requires { place + count ≤ length text.now }
    ensures { result ≡ opens_at text.now place count lines.now }
{
    if lines.is_empty() {
        false
    } else if place == text.len() {
        ends_open(text)
    } else {
        ends_open(lines) && place + count < text.len()
    }
}

// Whether the section at numbers below the root is read back as itself under the fields of a head.
fn fits(
    alloc: Global,
    doc: &Doc,
    numbers: &[u32],
    section: &Section<'_>,
    head: &[u8],
    meter: &mut Meter,
) -> Result<bool, AllocError>
    ensures fits { IfOk result (λ g. g ≡ fits_at (tree doc.now) numbers.now section.now head.now) }
    ensures most { meter.new ≤ meter.old + 1 + looked_below head.now section.now }
{
    if is_glued(doc, numbers) {
        return Ok(false);
    }
    if !ends_there(section, head.is_empty(), is_first(numbers, section), meter) {
        return Ok(false);
    }
    keeps_kinds(alloc, numbers.len() + 1, section, head, meter)
}

// Whether a document without an envelope begins with the section at numbers below the root.
fn is_first(numbers: &[u32], section: &Section<'_>) -> bool
    ensures { result ≡ begins_document numbers.now section.now.start }
{
    numbers.is_empty() && section.start() == 0
}

/// What whole lines at a place replace, without the bytes that stay.
pub fn splice_of(place: usize, put: Put) -> Replacement
    requires stays { put.kept ≤ put.count }
    requires within { put.kept ≤ length put.lines.items }
    ensures place { result.place ≡ place }
    ensures count { result.count ≡ put.count - put.kept }
    ensures new { result.new.items ≡ take (length put.lines.items - put.kept) put.lines.items }
{
    let Put {
        count,
        lines,
        kept,
        ..
    } = put;
    let mut new = lines;
    new.truncate(new.len() - kept);
    Replacement {
        place,
        count: count - kept,
        new,
    }
}
