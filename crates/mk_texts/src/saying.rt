//! What the values of fields say, and fields that say another text.

ghost use Rattle.std.specs.Prelude.{◌≡◌, ◌≢◌, ◌++◌, codes, IfOk};
ghost use Rattle.mk_line.specs.Lines.{ending_bytes};
ghost use Rattle.mk_wording.specs.Stretches.{are_ascii as all_ascii};
ghost use Rattle.mk_wording.specs.Wording.{field_kind as kind_of_name};
ghost use Rattle.mk_texts.specs.Texts.{field_written as written_field, is_address_mark as address_mark, keeps_marks as marks_stay, line_end as ending_at, marks_of, plain_field as field_plain, reads_words as words_are_read, text_field as field_of_text, said_by_value as value_said};

use mk_code::text_decode;
use mk_head::without_endings;
use mk_line::Ending;
use mk_wording::{FieldKind, kind_of, on_one_line, strip, worded_field};
use std::alloc::{AllocError, Global};

/// The special characters of addresses but the full stop (RFC 5322, 3.2.3).
const ADDRESS_MARKS: &[u8; 12] = b"()<>[]:;@\\,\"";

/// A field that is to say another text.
#[derive(Clone, Copy)]
pub(crate) struct SaidField<'a> {
    /// Its bytes, its line ending included.
    pub raw: &'a [u8],
    /// Its name as it is spelt.
    pub name: &'a [u8],
    /// What follows its colon.
    pub value: &'a [u8],
}

/// What the value of a field says, on one line.
pub(crate) fn said_by_value(
    alloc: Global,
    kind: FieldKind,
    value: &[u8],
) -> Result<Vec<u8>, AllocError>
    ensures { IfOk result (λ text. text.items ≡ value_said kind value.now) }
{
    let said = if reads_words(alloc, kind, value)? {
        text_decode(alloc, value)?
    } else {
        without_endings(alloc, value)?
    };
    let line = on_one_line(alloc, &said)?;
    Vec::from_slice(alloc, strip(&line))
}

// Whether the encoded words of a value are read as what they say.
fn reads_words(alloc: Global, kind: FieldKind, value: &[u8]) -> Result<bool, AllocError>
    ensures { IfOk result (λ reads. reads ≡ words_are_read kind value.now) }
{
    match kind {
        FieldKind::Addresses => keeps_marks(alloc, value),
        FieldKind::Parameters | FieldKind::Comments => Ok(false),
        FieldKind::Text => Ok(true),
    }
}

// Whether the encoded words of a value bring no special character in.
fn keeps_marks(alloc: Global, value: &[u8]) -> Result<bool, AllocError>
    ensures { IfOk result (λ keeps. keeps ≡ marks_stay value.now) }
{
    let decoded = marks_in(alloc, &text_decode(alloc, value)?)?;
    let written = marks_in(alloc, &without_endings(alloc, value)?)?;
    Ok(decoded.as_slice() == written.as_slice())
}

// The special characters of a text.
fn marks_in(alloc: Global, text: &[u8]) -> Result<Vec<u8>, AllocError>
    ensures { IfOk result (λ marks. marks.items ≡ marks_of text.now) }
{
    let mut marks = Vec::new(alloc);
    for byte in text {
        if is_address_mark(*byte) {
            marks.push(*byte)?;
        }
    }
    Ok(marks)
}

fn is_address_mark(byte: u8) -> bool
    ensures { result ≡ address_mark byte }
{
    ADDRESS_MARKS.iter().any(|mark| *mark == byte)
}

/// The field that says a text in the place of another.
pub(crate) fn text_field(
    alloc: Global,
    field: SaidField<'_>,
    text: &[u8],
    eol: Ending,
) -> Result<Vec<u8>, AllocError>
    requires { eol ≢ Ending.Missing }
    ensures { IfOk result (λ made. made.items ≡ field_of_text eol field.entry.raw.now (kind_of_name field.entry.name.now) field.entry.name.now field.entry.value.now text.now) }
{
    let mut made = field_written(alloc, field, text, eol)?;
    made.extend_from_slice(line_end(field.raw).bytes())?;
    Ok(made)
}

// The same without a line ending.
fn field_written(
    alloc: Global,
    field: SaidField<'_>,
    text: &[u8],
    eol: Ending,
) -> Result<Vec<u8>, AllocError>
    requires { eol ≢ Ending.Missing }
    ensures { IfOk result (λ made. made.items ≡ written_field eol field.entry.raw.now (kind_of_name field.entry.name.now) field.entry.name.now field.entry.value.now text.now) }
{
    let plain = plain_field(alloc, field.name, text)?;
    if are_ascii(field.raw) && reads_words(alloc, kind_of(field.name), field.value)? {
        worded_field(alloc, &plain, eol)
    } else {
        Ok(plain)
    }
}

// The field of a name that says a text.
fn plain_field(alloc: Global, name: &[u8], text: &[u8]) -> Result<Vec<u8>, AllocError>
    ensures { IfOk result (λ field. field.items ≡ field_plain name.now text.now) }
{
    let mut field = Vec::from_slice(alloc, name)?;
    field.extend_from_slice(b": ")?;
    field.extend_from_slice(text)?;
    Ok(field)
}

fn are_ascii(bytes: &[u8]) -> bool
    ensures { result ≡ all_ascii bytes.now }
{
    bytes.iter().all(|byte| byte.is_ascii())
}

// The line ending that the bytes of a field end with.
fn line_end(raw: &[u8]) -> Ending
    ensures { ending_bytes result ≡ ending_at raw.now }
{
    if raw.ends_with(b"\r\n") {
        Ending::Crlf
    } else if raw.ends_with(b"\n") {
        Ending::Lf
    } else {
        Ending::Missing
    }
}
