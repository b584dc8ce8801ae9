//! Messages built from fields and parts (RFC 2046, 5.1).
ghost use Rattle.std.specs.Prelude.{◌≡◌, ◌≢◌, ◌&&◌, ◌++◌, None, [], codes, map, nat_eq, not, IfOk, IfErr, OnOk, true, false};
ghost use Rattle.std.specs.List.{flat_map, position, slice_get, starts_with};
ghost use Rattle.mk_line.specs.Lines.{cut as lines_of, printed_line};
ghost use Rattle.mk_head.specs.Values.{lowered};
ghost use Rattle.mk_line.specs.Marks.{close_line};
ghost use Rattle.mk_head.specs.Fields.{name_of};
ghost use Rattle.mk_head.specs.Split.{is_start};
ghost use Rattle.mk_build.specs.BuildViews.{attached_of, written_in, written_of};
ghost use Rattle.mk_build.specs.Building.{closed_field, is_free_field as may_begin, is_made_name as is_made, is_media as may_be_attached, is_name as may_be_written};
ghost use Rattle.std.specs.Option.{option_map_or};
ghost use Rattle.mk_build.specs.ForwardViews.{forwarded_of, IsRefusedWith};
ghost use Rattle.mk_build.specs.Forwards.{build_refusal, built, built_with, head_with, refusal_with};
ghost use Rattle.mk_build.specs.Multiparts.{mixed, multipart_of, multipart_refusal, part_as};

use crate::attaching::push_attached;
use crate::attachment::{Attach, Written, as_named, has_name, is_media};
use crate::forwarding::{Forward, are_8bit, first_holding, push_8bit, push_forwards};
use crate::multipart::{Multipart, is_charset};
use mk_head::{is_boundary, is_token, one_field};
use mk_line::{Ending, ends_open, first_line, name_len};
use std::alloc::{AllocError, Global};
use thiserror::Error;

const HYPHENS: &[u8; 2] = b"--";

const CONTENT: &[u8; 8] = b"content-";

const VERSION: &[u8; 12] = b"MIME-Version";

/// Why no message is built. An index counts the fields, the parts or the forwarded messages from 0.
#[derive(Clone, Copy, Debug, PartialEq, Eq, Error)]
pub enum BuildError {
    /// A field isn't exactly one, or is one that is made.
    #[error("field {index} can't go into the header")]
    BadField { index: usize },
    /// As for `attach`.
    #[error("the media type of part {index} can't be attached")]
    BadType { index: usize },
    /// As for `attach`.
    #[error("the name of part {index} can't be written")]
    BadName { index: usize },
    /// The subtype isn't a token (RFC 2045, 5.1).
    #[error("the subtype is invalid")]
    BadSubtype,
    /// The charset isn't a token (RFC 2045, 5.1).
    #[error("the charset is invalid")]
    BadCharset,
    /// The boundary isn't one (RFC 2046, 5.1.1).
    #[error("the boundary is invalid")]
    BadBoundary,
    /// A line of a forwarded message begins with two hyphens and the boundary.
    #[error("forwarded message {index} holds the boundary")]
    HoldsBoundary { index: usize },
    /// Memory ran out.
    #[error("out of memory")]
    Memory,
}

impl From<AllocError> for BuildError {
    ghost use Rattle.mk_build.specs.declared.building.BuildError.TheVariants.{Memory};
    ghost use Rattle.std.specs.Prelude.{◌≡◌};

    ghost from_gives = { λ _ e. e ≡ Memory };

    fn from(_error: AllocError) -> BuildError {
        BuildError::Memory
    }
}

/// A message: fields, `MIME-Version`, the type with its boundary, a part for each file, and the close line. A field whose
/// last line is open gets `eol`, with which all made lines end.
pub fn build(
    alloc: Global,
    fields: &[Vec<u8>],
    parts: &[Attach],
    boundary: &[u8],
    eol: Ending,
) -> Result<Vec<u8>, BuildError>
    requires { eol ≢ Ending.Missing }
    ensures text { IfOk result (λ text. (build_refusal (map (λ f. f.items) fields.now) (map attached_of parts.now) boundary.now ≡ None) × (text.items ≡ built eol (map (λ f. f.items) fields.now) (map attached_of parts.now) boundary.now)) }
    ensures refused { IfErr result (λ error. IsRefusedWith (map (λ f. f.items) fields.now) (map attached_of parts.now) [] (mixed boundary.now) error) }
{
    build_with(alloc, fields, parts, &[], &Multipart::mixed(boundary), eol)
}

/// A message as `build` makes it, in a multipart of any kind, with messages that are forwarded after the parts.
pub fn build_with(
    alloc: Global,
    fields: &[Vec<u8>],
    parts: &[Attach],
    messages: &[Forward],
    multipart: &Multipart<'_>,
    eol: Ending,
) -> Result<Vec<u8>, BuildError>
    requires { eol ≢ Ending.Missing }
    ensures text { IfOk result (λ text. (refusal_with (map (λ f. f.items) fields.now) (map (written_in multipart.now.utf8_names) parts.now) (map forwarded_of messages.now) (multipart_of multipart.now) ≡ None) × (text.items ≡ built_with eol (map (λ f. f.items) fields.now) (map (written_in multipart.now.utf8_names) parts.now) (map forwarded_of messages.now) (multipart_of multipart.now))) }
    ensures refused { IfErr result (λ error. IsRefusedWith (map (λ f. f.items) fields.now) (map (written_in multipart.now.utf8_names) parts.now) (map forwarded_of messages.now) (multipart_of multipart.now) error) }
{
    let parts = all_written(alloc, parts, multipart.utf8_names)?;
    build_of(alloc, fields, &parts, messages, multipart, eol)
}

/// What is written of all parts, under names in UTF-8 where that is asked for.
pub(crate) fn all_written(
    alloc: Global,
    parts: &[Attach],
    utf8_names: bool,
) -> Result<Vec<Written<'_>>, AllocError>
    ensures { IfOk result (λ list. map written_of list.items ≡ map (written_in utf8_names) parts.now) }
{
    let mut list = Vec::with_capacity(alloc, parts.len())?;
    for part in parts {
        list.push(as_named(alloc, part, utf8_names)?)?;
    }
    Ok(list)
}

// The message of what is written of its parts, and of messages.
fn build_of(
    alloc: Global,
    fields: &[Vec<u8>],
    parts: &[Written<'_>],
    messages: &[Forward],
    multipart: &Multipart<'_>,
    eol: Ending,
) -> Result<Vec<u8>, BuildError>
    requires { eol ≢ Ending.Missing }
    ensures text { IfOk result (λ text. (refusal_with (map (λ f. f.items) fields.now) (map written_of parts.now) (map forwarded_of messages.now) (multipart_of multipart.now) ≡ None) × (text.items ≡ built_with eol (map (λ f. f.items) fields.now) (map written_of parts.now) (map forwarded_of messages.now) (multipart_of multipart.now))) }
    ensures refused { IfErr result (λ error. IsRefusedWith (map (λ f. f.items) fields.now) (map written_of parts.now) (map forwarded_of messages.now) (multipart_of multipart.now) error) }
{
    if let Some(reason) = first_refusal(fields, parts, messages, multipart) {
        return Err(reason);
    }
    let mut text = Vec::new(alloc);
    push_fields(&mut text, fields, eol)?;
    push_head(&mut text, multipart, are_8bit(messages), eol)?;
    push_parts(&mut text, parts, multipart, eol)?;
    push_forwards(&mut text, messages, multipart.boundary, eol)?;
    push_close(&mut text, multipart.boundary, eol)?;
    Ok(text)
}

/// Why a message can't be built, if it can't: the first reason.
pub(crate) fn first_refusal(
    fields: &[Vec<u8>],
    parts: &[Written<'_>],
    messages: &[Forward],
    multipart: &Multipart<'_>,
) -> Option<BuildError>
    ensures { result ≡ refusal_with (map (λ f. f.items) fields.now) (map written_of parts.now) (map forwarded_of messages.now) (multipart_of multipart.now) }
{
    if let Some(index) = bad_field(fields) {
        return Some(BuildError::BadField { index });
    }
    if let Some(index) = bad_type(parts) {
        return Some(BuildError::BadType { index });
    }
    if let Some(index) = bad_name(parts) {
        return Some(BuildError::BadName { index });
    }
    if let Some(reason) = refusal(multipart) {
        return Some(reason);
    }
    match first_holding(messages, multipart.boundary) {
        Some(index) => Some(BuildError::HoldsBoundary { index }),
        None => None,
    }
}

// Why a multipart can't be made, if it can't.
fn refusal(multipart: &Multipart<'_>) -> Option<BuildError>
    ensures { result ≡ multipart_refusal (multipart_of multipart.now) }
{
    if !is_token(multipart.subtype) {
        Some(BuildError::BadSubtype)
    } else if !is_charset(multipart.charset) {
        Some(BuildError::BadCharset)
    } else if !is_boundary(multipart.boundary) {
        Some(BuildError::BadBoundary)
    } else {
        None
    }
}

// The index of the first field that can't stand at the start, from 0.
fn bad_field(fields: &[Vec<u8>]) -> Option<usize>
    ensures { result ≡ position (λ f. not (may_begin f)) (map (λ f. f.items) fields.now) }
{
    for (index, field) in fields.iter().enumerate() {
        if !is_free_field(field) {
            return Some(index);
        }
    }
    None
}

// The index of the first part whose media type can't be attached, from 0.
fn bad_type(parts: &[Written<'_>]) -> Option<usize>
    ensures { result ≡ position (λ a. not (may_be_attached a.media)) (map written_of parts.now) }
{
    for (index, part) in parts.iter().enumerate() {
        if !is_media(part.media) {
            return Some(index);
        }
    }
    None
}

// The index of the first part whose name can't be written, from 0.
fn bad_name(parts: &[Written<'_>]) -> Option<usize>
    ensures { result ≡ position (λ a. not (option_map_or may_be_written a.name true)) (map written_of parts.now) }
{
    for (index, part) in parts.iter().enumerate() {
        if !has_name(part) {
            return Some(index);
        }
    }
    None
}

// Whether a text is exactly one field, and none of those that are made.
fn is_free_field(text: &[u8]) -> bool
    ensures { result ≡ may_begin text.now }
{
    one_field(text) && is_free_start(text)
}

fn is_free_start(text: &[u8]) -> bool
    ensures { result ≡ option_map_or (λ l. is_start l && not (is_made (name_of l))) (slice_get (lines_of text.now) 0) false }
{
    match first_line(text) {
        Some((line, _)) => match name_len(line.content) {
            Some(size) => !is_made_name(&line.content[..size]),
            None => false,
        },
        None => false,
    }
}

// Whether a name is that of a field that is made: one of the content, or the MIME version, in any case.
fn is_made_name(name: &[u8]) -> bool
    ensures { result ≡ is_made name.now }
{
    name.eq_ignore_ascii_case(VERSION) || describes_content(name)
}

fn describes_content(name: &[u8]) -> bool
    ensures { result ≡ starts_with nat_eq (lowered name.now) (codes "content-") }
{
    match name.get(..CONTENT.len()) {
        Some(front) => front.eq_ignore_ascii_case(CONTENT),
        None => false,
    }
}

pub(crate) fn push_fields(
    text: &mut Vec<u8>,
    fields: &[Vec<u8>],
    eol: Ending,
) -> Result<(), AllocError>
    ensures { OnOk result (text.new.items ≡ text.old.items ++ flat_map (closed_field eol) (map (λ f. f.items) fields.now)) }
{
    for field in fields {
        push_field(text, field, eol)?;
    }
    Ok(())
}

fn push_field(text: &mut Vec<u8>, field: &[u8], eol: Ending) -> Result<(), AllocError>
    ensures { OnOk result (text.new.items ≡ text.old.items ++ closed_field eol field.now) }
{
    text.extend_from_slice(field)?;
    if ends_open(field) {
        text.extend_from_slice(eol.bytes())
    } else {
        Ok(())
    }
}

pub(crate) fn push_head(
    text: &mut Vec<u8>,
    multipart: &Multipart<'_>,
    wide: bool,
    eol: Ending,
) -> Result<(), AllocError>
    ensures { OnOk result (text.new.items ≡ text.old.items ++ head_with eol wide (multipart_of multipart.now)) }
{
    let ending = eol.bytes();
    text.extend_from_slice(b"MIME-Version: 1.0")?;
    text.extend_from_slice(ending)?;
    text.extend_from_slice(b"Content-Type: multipart/")?;
    text.extend_from_slice(multipart.subtype)?;
    text.extend_from_slice(b"; boundary=\"")?;
    text.extend_from_slice(multipart.boundary)?;
    text.extend_from_slice(b"\"")?;
    text.extend_from_slice(ending)?;
    push_8bit(text, wide, eol)?;
    text.extend_from_slice(ending)
}

fn push_parts(
    text: &mut Vec<u8>,
    parts: &[Written<'_>],
    multipart: &Multipart<'_>,
    eol: Ending,
) -> Result<(), AllocError>
    requires { eol ≢ Ending.Missing }
    ensures { OnOk result (text.new.items ≡ text.old.items ++ flat_map (part_as eol (multipart_of multipart.now)) (map written_of parts.now)) }
{
    for part in parts {
        push_part(text, part, multipart, eol)?;
    }
    Ok(())
}

fn push_part(
    text: &mut Vec<u8>,
    part: &Written<'_>,
    multipart: &Multipart<'_>,
    eol: Ending,
) -> Result<(), AllocError>
    requires { eol ≢ Ending.Missing }
    ensures { OnOk result (text.new.items ≡ text.old.items ++ part_as eol (multipart_of multipart.now) (written_of part.now)) }
{
    text.extend_from_slice(HYPHENS)?;
    text.extend_from_slice(multipart.boundary)?;
    text.extend_from_slice(eol.bytes())?;
    push_attached(text, part, multipart.charset, eol)?;
    text.extend_from_slice(eol.bytes())
}

pub(crate) fn push_close(text: &mut Vec<u8>, boundary: &[u8], eol: Ending) -> Result<(), AllocError>
    ensures { OnOk result (text.new.items ≡ text.old.items ++ printed_line (close_line eol boundary.now)) }
{
    text.extend_from_slice(HYPHENS)?;
    text.extend_from_slice(boundary)?;
    text.extend_from_slice(HYPHENS)?;
    text.extend_from_slice(eol.bytes())
}
