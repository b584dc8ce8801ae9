//! The text of values with a charset and a language (RFC 2231, 4), whole or in segments (4.1).
ghost use Rattle.mk_code.specs.EncodedWords.{as_text as text_of_bytes};
ghost use Rattle.std.specs.Prelude.{◌≡◌, ◌++◌, [], ◌∷◌, nat_lt, map, IfOk, option_and_then, option_map, if◌then◌else◌, Some, None};
ghost use Rattle.std.specs.List.{flat_map};
ghost use Rattle.std.specs.String.{string_bytes};
ghost use Rattle.mk_param.specs.Segments.{Encoded};
ghost use Rattle.mk_param.specs.Extended.{joined, segment_bytes as bytes_of_segment, segments_text as text_of_segments, text_in as text_of_charset};
ghost use Rattle.mk_param.specs.SegmentViews.{segment_of};

use crate::percent::push_decoded;
use crate::segments::Segment;
use mk_code::in_utf8;
use mk_line::split_at_first;
use std::alloc::{AllocError, Global};

const APOSTROPHE: u8 = b'\'';

/// The text of segments, if they can be read.
pub(crate) fn segments_text(
    alloc: Global,
    segments: &[Segment<'_>],
) -> Result<Option<String>, AllocError>
    ensures { IfOk result (λ text. option_map string_bytes text ≡ text_of_segments (map segment_of segments.now)) }
{
    match segments {
        [] => Ok(None),
        [Segment::Encoded(value), others @ ..] => encoded_text(alloc, value, others),
        [Segment::Plain(_), ..] => plain_segments_text(alloc, segments),
    }
}

// The text of segments of which the first says no charset.
fn plain_segments_text(
    alloc: Global,
    segments: &[Segment<'_>],
) -> Result<Option<String>, AllocError>
    ensures { IfOk result (λ text. option_map string_bytes text ≡ option_and_then text_of_bytes (joined (map segment_of segments.now))) }
{
    let mut bytes = Vec::new(alloc);
    if push_joined(&mut bytes, segments)? {
        Ok(as_text(bytes))
    } else {
        Ok(None)
    }
}

/// The text of an encoded value with its charset and of the segments after it, if they can be read.
pub(crate) fn encoded_text(
    alloc: Global,
    value: &[u8],
    others: &[Segment<'_>],
) -> Result<Option<String>, AllocError>
    ensures { IfOk result (λ text. option_map string_bytes text ≡ text_of_segments (Encoded value.now ∷ map segment_of others.now)) }
{
    let Some((charset, language)) = split_at_first(value, APOSTROPHE) else {
        return Ok(None);
    };
    let Some((_, text)) = split_at_first(language, APOSTROPHE) else {
        return Ok(None);
    };
    let mut bytes = Vec::with_capacity(alloc, text.len())?;
    if !push_decoded(&mut bytes, text)? {
        return Ok(None);
    }
    if !push_joined(&mut bytes, others)? {
        return Ok(None);
    }
    text_in(alloc, charset, bytes)
}

// Appends the bytes of segments, and says whether all could be read. Where they couldn't, some of them may be there.
fn push_joined(out: &mut Vec<u8>, segments: &[Segment<'_>]) -> Result<bool, AllocError>
    ensures { IfOk result (λ read. (if read then Some out.new.items else None) ≡ option_map (λ bytes. out.old.items ++ bytes) (joined (map segment_of segments.now))) }
{
    for segment in segments {
        if !push_segment(out, segment)? {
            return Ok(false);
        }
    }
    Ok(true)
}

// Appends the bytes of a segment, and says whether they could be read.
fn push_segment(out: &mut Vec<u8>, segment: &Segment<'_>) -> Result<bool, AllocError>
    ensures { IfOk result (λ read. (if read then Some out.new.items else None) ≡ option_map (λ bytes. out.old.items ++ bytes) (bytes_of_segment (segment_of segment.now))) }
{
    match segment {
        Segment::Encoded(value) => push_decoded(out, value),
        Segment::Plain(value) => {
            out.extend_from_slice(value)?;
            Ok(true)
        }
    }
}

// The text that bytes of a charset are, if it is known and has them.
fn text_in(alloc: Global, charset: &[u8], bytes: Vec<u8>) -> Result<Option<String>, AllocError>
    ensures { IfOk result (λ text. option_map string_bytes text ≡ text_of_charset charset.now bytes.items) }
{
    match in_utf8(alloc, charset, bytes)? {
        Some(bytes) => Ok(as_text(bytes)),
        None => Ok(None),
    }
}

/// The bytes as a text, if they are UTF-8.
pub(crate) fn as_text(bytes: Vec<u8>) -> Option<String>
    ensures { option_map string_bytes result ≡ text_of_bytes bytes.items }
{
    match String::from_utf8(bytes) {
        Ok(text) => Some(text),
        Err(_) => None,
    }
}
