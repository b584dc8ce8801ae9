//! Whether another body, or another section, may stand in the place of one, by the lines given and what stands around.
ghost use Rattle.std.specs.Prelude.{◌≡◌, ◌≤◌, ◌+◌, ◌∷◌, length, Ok, Some, IfOk, IfErr, []};
ghost use Rattle.mk_line.specs.Lines.{cut as lines_of};
ghost use Rattle.mk_line.specs.Views.{line_of};
ghost use Rattle.mk_tree.specs.Documents.{tree};
ghost use Rattle.mk_tree.specs.Sections.{section_at, raw_of, body_text};
ghost use Rattle.mk_decide.specs.Answers.{refusal_of, IsRefusedBy};
ghost use Rattle.mk_decide.specs.LocalAnswers.{IsDecided, after_first, plain_splice};
ghost use Rattle.mk_decide.specs.Edits.{SetBody, SetSection};
ghost use Rattle.mk_decide.specs.Outcomes.{edited};
ghost use Rattle.mk_decide.specs.SectionAnswers.{begins_well, body_answer, body_bytes, body_place, leaf_answer, outer_path, runs_on as may_run_on, section_answer, separator_bytes, stays as may_stay, stays_after as may_stay_after};

use crate::around::{glues, hit_level, is_glued};
use crate::deciding::Replacement;
use crate::errors::EditError;
use crate::field_answers::opens_early;
use crate::looking::has_separator;
use mk_line::{Line, eol_of, first_line, is_continuation, is_from_line, name_len};
use mk_tree::{Doc, Kind, Section};
use std::alloc::{AllocError, Global};

/// The bytes that another section in the place of the one at a path replaces, or the first reason against it.
pub(crate) fn decide_section(
    alloc: Global,
    doc: &Doc,
    path: &[u32],
    text: &[u8],
) -> Result<Replacement, EditError>
    ensures ok { IfOk result (λ r. IsDecided (SetSection path.now text.now) doc.now (plain_splice r)) }
    ensures err { IfErr result (λ e. IsRefusedBy (refusal_of e) (edited (SetSection path.now text.now) (tree doc.now))) }
{
    match doc.section(path) {
        Some(section) => section_in_place(alloc, doc, path, &section, text),
        None => Err(EditError::NoSuchSection),
    }
}

fn section_in_place(
    alloc: Global,
    doc: &Doc,
    path: &[u32],
    section: &Section<'_>,
    text: &[u8],
) -> Result<Replacement, EditError>
    requires { section_at path.now (tree doc.now) ≡ Some section.now }
    ensures ok { IfOk result (λ r. section_answer doc.now (after_first path.now) text.now (section_at (outer_path path.now) (tree doc.now)) section.now ≡ Ok (plain_splice r)) }
    ensures err { IfErr result (λ e. IsRefusedBy (refusal_of e) (section_answer doc.now (after_first path.now) text.now (section_at (outer_path path.now) (tree doc.now)) section.now)) }
{
    let place = section.start();
    let count = section.raw().len();
    if opens_early(doc.text(), place, count, text) {
        return Err(EditError::OpenLine);
    }
    if let Some(level) = hit_level(doc, &path[1..], text) {
        return Err(EditError::HoldsBoundary { level });
    }
    let around = doc.section(&path[..path.len() - 1]);
    if !stays(&around, place, text) {
        return Err(EditError::Recut);
    }
    let new = Vec::from_slice(alloc, text)?;
    Ok(Replacement { place, count, new })
}

// Whether lines may be those of a section that begins at a place, in the section around or as the root.
fn stays(around: &Option<Section<'_>>, start: usize, text: &[u8]) -> bool
    ensures { result ≡ may_stay around.now start (lines_of text.now) }
{
    match first_line(text) {
        Some((line, _)) => match around {
            Some(outer) => stays_after(outer, &line),
            None => !(start == 0 && is_from_line(line.content)),
        },
        None => true,
    }
}

// Whether a line may be the first after the head of a section.
fn stays_after(outer: &Section<'_>, line: &Line<'_>) -> bool
    ensures { result ≡ may_stay_after outer.now.entity (line_of line.now ∷ []) }
{
    !glues(outer) || !runs_on(!outer.head().is_empty(), line.content)
}

// Whether a line after fields, some or none, would belong to them or be their separator.
fn runs_on(some: bool, content: &[u8]) -> bool
    ensures { result ≡ may_run_on some content.now }
{
    name_len(content).is_some() || some && is_continuation(content) || content.is_empty()
}

/// The bytes that another body of the leaf at a path replaces, or the first reason against it.
pub(crate) fn decide_body(
    alloc: Global,
    doc: &Doc,
    path: &[u32],
    text: &[u8],
) -> Result<Replacement, EditError>
    ensures ok { IfOk result (λ r. IsDecided (SetBody path.now text.now) doc.now (plain_splice r)) }
    ensures err { IfErr result (λ e. IsRefusedBy (refusal_of e) (edited (SetBody path.now text.now) (tree doc.now))) }
{
    match doc.section(path) {
        Some(section) => body_in_place(alloc, doc, path, &section, text),
        None => Err(EditError::NoSuchSection),
    }
}

fn body_in_place(
    alloc: Global,
    doc: &Doc,
    path: &[u32],
    section: &Section<'_>,
    text: &[u8],
) -> Result<Replacement, EditError>
    requires { section_at path.now (tree doc.now) ≡ Some section.now }
    ensures ok { IfOk result (λ r. body_answer doc.now (after_first path.now) text.now section.now ≡ Ok (plain_splice r)) }
    ensures err { IfErr result (λ e. IsRefusedBy (refusal_of e) (body_answer doc.now (after_first path.now) text.now section.now)) }
{
    if section.kind() == Kind::Leaf {
        leaf_in_place(alloc, doc, path, section, text)
    } else {
        Err(EditError::NotLeaf)
    }
}

fn leaf_in_place(
    alloc: Global,
    doc: &Doc,
    path: &[u32],
    section: &Section<'_>,
    text: &[u8],
) -> Result<Replacement, EditError>
    requires { section_at path.now (tree doc.now) ≡ Some section.now }
    ensures ok { IfOk result (λ r. leaf_answer doc.now (after_first path.now) text.now section.now ≡ Ok (plain_splice r)) }
    ensures err { IfErr result (λ e. IsRefusedBy (refusal_of e) (leaf_answer doc.now (after_first path.now) text.now section.now)) }
{
    let place = section.body_start();
    let count = section.body().len();
    let new = with_separator(alloc, doc, section, text)?;
    if opens_early(doc.text(), place, count, &new) {
        return Err(EditError::OpenLine);
    }
    if let Some(level) = hit_level(doc, &path[1..], text) {
        return Err(EditError::HoldsBoundary { level });
    }
    if is_glued(doc, &path[1..]) {
        return Err(EditError::Recut);
    }
    Ok(Replacement { place, count, new })
}

// A body, with a separator before it where the section has none.
fn with_separator(
    alloc: Global,
    doc: &Doc,
    section: &Section<'_>,
    text: &[u8],
) -> Result<Vec<u8>, AllocError>
    ensures { IfOk result (λ v. v.items ≡ body_bytes doc.now section.now text.now) }
{
    let mut new = Vec::from_slice(alloc, made_separator(doc, section))?;
    new.extend_from_slice(text)?;
    Ok(new)
}

// The separator that is made where the section has none.
fn made_separator(doc: &Doc, section: &Section<'_>) -> &'static [u8]
    ensures { result.now ≡ separator_bytes doc.now section.now }
{
    if has_separator(section) {
        b""
    } else {
        eol_of(doc.text()).bytes()
    }
}
