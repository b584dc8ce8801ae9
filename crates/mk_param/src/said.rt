//! What the parameters of a name say as text.
ghost use Rattle.std.specs.Prelude.{◌≡◌, IfOk, option_and_then, option_map};
ghost use Rattle.std.specs.String.{string_bytes};
ghost use Rattle.mk_head.specs.ValueViews.{media_type_of};
ghost use Rattle.mk_param.specs.Extended.{extended_text as text_of_extended, segments_text as text_of_segments};
ghost use Rattle.mk_param.specs.Segments.{encoded_name as name_encoded, segments_from};
ghost use Rattle.mk_param.specs.Said.{plain_text as text_of_plain, text_by_lookup, said_text};
ghost use Rattle.mk_param.specs.SegmentViews.{value_at};

use crate::extended::{as_text, encoded_text, segments_text};
use crate::segments::{Values, encoded_name, first_values, segments, value_of};
use mk_code::words_decode;
use mk_head::ContentType;
use std::alloc::{AllocError, Global};

/// The text that the parameters of a content type, or of another value with parameters, say for a name in lower case: the
/// first that can be read of the value with a charset (`name*`), the segments (`name*0`, `name*0*` and so on), and the plain
/// value, in which encoded words are decoded.
pub fn text_of(
    alloc: Global,
    media: &ContentType,
    name: &[u8],
) -> Result<Option<String>, AllocError>
    ensures { IfOk result (λ text. option_map string_bytes text ≡ said_text name.now (media_type_of media.now).params) }
{
    let params = media.params.as_slice();
    let values = first_values(alloc, params)?;
    said(alloc, &values, params.len(), name)
}

// The same, where the values are known, and of segments at most this many.
fn said(
    alloc: Global,
    values: &Values<'_>,
    most: usize,
    name: &[u8],
) -> Result<Option<String>, AllocError>
    ensures { IfOk result (λ text. option_map string_bytes text ≡ text_by_lookup (value_at values.now) most name.now) }
{
    if let Some(text) = extended(alloc, values, name)? {
        return Ok(Some(text));
    }
    if let Some(text) = segmented(alloc, values, most, name)? {
        return Ok(Some(text));
    }
    plain(alloc, values, name)
}

// The text of the value with a charset.
fn extended(alloc: Global, values: &Values<'_>, name: &[u8]) -> Result<Option<String>, AllocError>
    ensures { IfOk result (λ text. option_map string_bytes text ≡ option_and_then text_of_extended (value_at values.now (name_encoded name.now))) }
{
    let full_name = encoded_name(alloc, name)?;
    match value_of(values, &full_name) {
        Some(value) => encoded_text(alloc, value, &[]),
        None => Ok(None),
    }
}

// The text of the segments.
fn segmented(
    alloc: Global,
    values: &Values<'_>,
    most: usize,
    name: &[u8],
) -> Result<Option<String>, AllocError>
    ensures { IfOk result (λ text. option_map string_bytes text ≡ text_of_segments (segments_from (value_at values.now) name.now 0 most)) }
{
    segments_text(alloc, &segments(alloc, values, name, most)?)
}

// The text of the plain value.
fn plain(alloc: Global, values: &Values<'_>, name: &[u8]) -> Result<Option<String>, AllocError>
    ensures { IfOk result (λ text. option_map string_bytes text ≡ option_and_then text_of_plain (value_at values.now name.now)) }
{
    match value_of(values, name) {
        Some(value) => Ok(as_text(words_decode(alloc, value)?)),
        None => Ok(None),
    }
}
