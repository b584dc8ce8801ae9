//! Fields whose values go in as encoded words (RFC 2047).

ghost use Rattle.std.specs.Prelude.{◌≡◌, ◌≢◌, ◌++◌, codes, IfOk};
ghost use Rattle.std.specs.Option.{option_map};
ghost use Rattle.mk_head.specs.Values.{stripped};
ghost use Rattle.mk_wording.specs.Wording.{takes_words as field_takes_words, value_takes_words as value_can, worded_field as field_in_words, worded_field_of, worded_value as value_in_words};

use crate::lists::{ListKind, worded_list, worded_parameters};
use crate::names::{FieldKind, kind_of};
use crate::stretches::{Outside, worded_text};
use mk_code::words_encode;
use mk_line::{Ending, leading_blanks, trimmed};
use mk_mail::text_for_words;
use mk_script::parted;
use std::alloc::{AllocError, Global};

const COLON: u8 = b':';

/// A field with its value in encoded words, with `eol` between two, where the value isn't printable ASCII or holds `=?`. In a
/// field of addresses these are names and comments, in one with parameters its comments, and parameters get a charset (RFC
/// 2231); in other structured fields they are comments. A field whose value isn't UTF-8 stays as it is, and so does one that
/// needs an encoded word in another place.
pub fn worded_field(alloc: Global, field: &[u8], eol: Ending) -> Result<Vec<u8>, AllocError>
    requires { eol ≢ Ending.Missing }
    ensures { IfOk result (λ worded. worded.items ≡ field_in_words eol field.now) }
{
    match parted(field, COLON) {
        Some((name, value)) => in_words(alloc, field, trimmed(name), strip(value), eol),
        None => Vec::from_slice(alloc, field),
    }
}

// The field of a name and a value in encoded words, or the field as it is given.
fn in_words(
    alloc: Global,
    field: &[u8],
    name: &[u8],
    value: &[u8],
    eol: Ending,
) -> Result<Vec<u8>, AllocError>
    requires { eol ≢ Ending.Missing }
    ensures { IfOk result (λ worded. worded.items ≡ worded_field_of eol field.now name.now value.now) }
{
    let Some(text) = text_for_words(value) else {
        return Vec::from_slice(alloc, field);
    };
    match worded_value(alloc, text, kind_of(name), eol)? {
        Some(worded) => made_field(alloc, name, &worded),
        None => Vec::from_slice(alloc, field),
    }
}

// A value in encoded words; `None` where it needs one in a place that can't have it.
fn worded_value(
    alloc: Global,
    text: &str,
    kind: FieldKind,
    eol: Ending,
) -> Result<Option<Vec<u8>>, AllocError>
    requires { eol ≢ Ending.Missing }
    ensures { IfOk result (λ worded. option_map (λ v. v.items) worded ≡ value_in_words kind eol text.now) }
{
    let value = text.as_bytes();
    match kind {
        FieldKind::Addresses => worded_list(alloc, value, ListKind::Addresses, eol),
        FieldKind::Parameters => worded_parameters(alloc, value, eol),
        FieldKind::Comments => worded_text(alloc, value, Outside::Ascii, eol),
        FieldKind::Text => Ok(Some(words_encode(alloc, text, eol)?)),
    }
}

// The field of a name and a value.
fn made_field(alloc: Global, name: &[u8], value: &[u8]) -> Result<Vec<u8>, AllocError>
    ensures { IfOk result (λ field. field.items ≡ name.now ++ (codes ": " ++ value.now)) }
{
    let mut field = Vec::from_slice(alloc, name)?;
    field.extend_from_slice(b": ")?;
    field.extend_from_slice(value)?;
    Ok(field)
}

/// Whether a field can go in as encoded words: unless it needs one in a place that can't have it, as in an address.
pub fn takes_words(alloc: Global, field: &[u8]) -> Result<bool, AllocError>
    ensures { IfOk result (λ takes. takes ≡ field_takes_words field.now) }
{
    match parted(field, COLON) {
        Some((name, value)) => value_takes_words(alloc, trimmed(name), strip(value)),
        None => Ok(true),
    }
}

// Whether the value of a field of a name can.
fn value_takes_words(alloc: Global, name: &[u8], value: &[u8]) -> Result<bool, AllocError>
    ensures { IfOk result (λ takes. takes ≡ value_can name.now value.now) }
{
    match text_for_words(value) {
        Some(text) => Ok(worded_value(alloc, text, kind_of(name), Ending::Lf)?.is_some()),
        None => Ok(true),
    }
}

/// The text without the blanks at both ends.
pub fn strip(text: &[u8]) -> &[u8]
    ensures { result.now ≡ stripped text.now }
{
    trimmed(&text[leading_blanks(text)..])
}
