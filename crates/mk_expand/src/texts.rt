//! Texts in charsets: as the contents of leaves, and as parts (RFC 2045, 5; RFC 2046, 4.1.2).

ghost use Rattle.std.specs.Prelude.{◌≡◌, ◌≢◌, ◌==◌, ◌||◌, ◌++◌, nat_lt, not, Ok, IfOk, IfErr, OnOk};
ghost use Rattle.std.specs.List.{flat_map, list_all};
ghost use Rattle.std.specs.Option.{option_map};
ghost use Rattle.std.specs.Str.{is_utf8 as is_in_utf8};
ghost use Rattle.mk_head.specs.ValueViews.{media_type_of};
ghost use Rattle.mk_tree.specs.Documents.{tree};
ghost use Rattle.mk_tree.specs.Sections.{section_at};
ghost use Rattle.mk_expand.specs.Charsets.{are_ascii, charset_field as field_that_names, is_of_text, may_be_in as may_be_so, may_be_text as may_be_text_so, may_hold as may_hold_so, parameter_text, quoted_byte, value_text};
ghost use Rattle.mk_expand.specs.Views.{plain_edits, IsFault};
ghost use Rattle.mk_expand.specs.Words.{attach_text as attach_text_at, said_charset, text_for, text_set};

use crate::appending::{append, part_to_append};
use crate::contents::{encode, with_body};
use crate::errors::WordError;
use crate::field_words::put;
use mk_build::{AttachError, AttachOptions, attach_with};
use mk_decide::Edit;
use mk_head::{ContentType, is_token};
use mk_line::Ending;
use mk_pack::Spec;
use mk_tree::{Doc, Kind};
use mk_view::media_type;
use std::alloc::{AllocError, Global};

/// The type of texts, and the subtype of those that are nothing more.
const TEXT: &[u8] = b"text";

const PLAIN: &[u8] = b"plain";

/// The parameter of a text that names its charset.
const CHARSET: &[u8] = b"charset";

const US_ASCII: &[u8] = b"us-ascii";

const UTF_8: &[u8] = b"utf-8";

const QUOTE: u8 = b'"';

const BACKSLASH: u8 = b'\\';

/// Whether a leaf of a type may hold these bytes: a text only if they may be in its charset.
pub(crate) fn may_hold(media: &ContentType, bytes: &[u8]) -> bool
    ensures { result ≡ may_hold_so (media_type_of media.now) bytes.now }
{
    !is_text(media) || may_be_text(&media.sub, media.param(CHARSET), bytes)
}

fn is_text(media: &ContentType) -> bool
    ensures { result ≡ is_of_text (media_type_of media.now) }
{
    media.main.as_slice() == TEXT
}

// Whether bytes may be a text of a subtype that names this charset, or no charset.
fn may_be_text(sub: &[u8], charset: Option<&[u8]>, bytes: &[u8]) -> bool
    ensures { result ≡ may_be_text_so sub.now (option_map (λ c. c.now) charset.entry) bytes.now }
{
    match charset {
        Some(charset) => may_be_in(charset, bytes),
        None => sub != PLAIN || is_ascii(bytes),
    }
}

// Whether bytes may be a text in a charset; of most charsets nothing is known.
fn may_be_in(charset: &[u8], bytes: &[u8]) -> bool
    ensures { result ≡ may_be_so charset.now bytes.now }
{
    if charset.eq_ignore_ascii_case(US_ASCII) {
        is_ascii(bytes)
    } else if charset.eq_ignore_ascii_case(UTF_8) {
        is_utf8(bytes)
    } else {
        true
    }
}

fn is_ascii(bytes: &[u8]) -> bool
    ensures { result ≡ are_ascii bytes.now }
{
    bytes.iter().all(|byte| byte.is_ascii())
}

fn is_utf8(bytes: &[u8]) -> bool
    ensures { result ≡ is_in_utf8 bytes.now }
{
    match std::str::from_utf8(bytes) {
        Ok(_) => true,
        Err(_) => false,
    }
}

/// Gives the leaf at a path these bytes as its content, a text in this charset, which its type gets.
pub(crate) fn set_text(
    alloc: Global,
    doc: &Doc,
    path: Vec<u32>,
    charset: &[u8],
    bytes: &[u8],
    eol: Ending,
) -> Result<Vec<Edit>, WordError>
    requires { eol ≢ Ending.Missing }
    ensures edits { IfOk result (λ edits. text_set eol path.items charset.now bytes.now (section_at path.items (tree doc.now)) ≡ Ok (plain_edits edits.items)) }
    ensures fault { IfErr result (λ error. IsFault error (text_set eol path.items charset.now bytes.now (section_at path.items (tree doc.now)))) }
{
    let Some(section) = doc.section(&path) else {
        return with_body(alloc, path, bytes);
    };
    match section.kind() {
        Kind::Leaf => {
            let media = media_type(alloc, &section)?;
            check_text(charset, &media, bytes)?;
            let field = charset_field(alloc, charset, &media, eol)?;
            let mut edits = put(alloc, doc, &path, &field)?;
            let encoding = section.encoding(alloc)?;
            let mut body = encode(alloc, path, encoding, bytes, eol, section.followed())?;
            edits.append(&mut body)?;
            Ok(edits)
        }
        Kind::Multi | Kind::Message => with_body(alloc, path, bytes),
    }
}

// Refuses bytes that can't be the text of a leaf of a type, in a charset.
fn check_text(charset: &[u8], media: &ContentType, bytes: &[u8]) -> Result<(), WordError>
    ensures text { OnOk result (text_for charset.now (media_type_of media.now) bytes.now ≡ Ok bytes.now) }
    ensures fault { IfErr result (λ error. IsFault error (text_for charset.now (media_type_of media.now) bytes.now)) }
{
    if !is_text(media) {
        Err(WordError::BadType)
    } else if is_token(charset) && may_be_in(charset, bytes) {
        Ok(())
    } else {
        Err(WordError::BadCharset)
    }
}

// The field that says a type with another charset. Comments and the folds of the old field aren't kept.
fn charset_field(
    alloc: Global,
    charset: &[u8],
    media: &ContentType,
    eol: Ending,
) -> Result<Vec<u8>, AllocError>
    ensures { IfOk result (λ field. field.items ≡ field_that_names eol charset.now (media_type_of media.now)) }
{
    let mut field = Vec::from_slice(alloc, b"Content-Type: ")?;
    field.extend_from_slice(&media.main)?;
    field.extend_from_slice(b"/")?;
    field.extend_from_slice(&media.sub)?;
    push_parameters(&mut field, media)?;
    field.extend_from_slice(b"; charset=")?;
    field.extend_from_slice(charset)?;
    field.extend_from_slice(eol.bytes())?;
    Ok(field)
}

// Writes the parameters of a type except its charset.
fn push_parameters(text: &mut Vec<u8>, media: &ContentType) -> Result<(), AllocError>
    ensures { OnOk result (text.new.items ≡ text.old.items ++ flat_map parameter_text (media_type_of media.now).params) }
{
    for parameter in &media.params {
        push_parameter(text, &parameter.0, &parameter.1)?;
    }
    Ok(())
}

fn push_parameter(text: &mut Vec<u8>, name: &[u8], value: &[u8]) -> Result<(), AllocError>
    ensures { OnOk result (text.new.items ≡ text.old.items ++ parameter_text (name.now, value.now)) }
{
    if name == CHARSET {
        return Ok(());
    }
    text.extend_from_slice(b"; ")?;
    text.extend_from_slice(name)?;
    text.extend_from_slice(b"=")?;
    push_value(text, value)
}

// Writes the value of a parameter: a token, or a quoted string (RFC 2045, 5.1).
fn push_value(text: &mut Vec<u8>, value: &[u8]) -> Result<(), AllocError>
    ensures { OnOk result (text.new.items ≡ text.old.items ++ value_text value.now) }
{
    if is_token(value) {
        return text.extend_from_slice(value);
    }
    text.extend_from_slice(b"\"")?;
    push_quoted(text, value)?;
    text.extend_from_slice(b"\"")
}

// Writes what is between the quotes of a quoted string.
fn push_quoted(text: &mut Vec<u8>, value: &[u8]) -> Result<(), AllocError>
    ensures { OnOk result (text.new.items ≡ text.old.items ++ flat_map quoted_byte value.now) }
{
    for byte in value {
        if *byte == QUOTE || *byte == BACKSLASH {
            text.push(BACKSLASH)?;
        }
        text.push(*byte)?;
    }
    Ok(())
}

/// Puts a text as a part after the others of the multipart at a path, to be shown.
pub(crate) fn attach_text(
    alloc: Global,
    doc: &Doc,
    path: Vec<u32>,
    media: &[u8],
    text: Vec<u8>,
    eol: Ending,
) -> Result<Vec<Edit>, WordError>
    requires { eol ≢ Ending.Missing }
    ensures edits { IfOk result (λ edits. attach_text_at eol path.items media.now text.items (section_at path.items (tree doc.now)) ≡ Ok (plain_edits edits.items)) }
    ensures fault { IfErr result (λ error. IsFault error (attach_text_at eol path.items media.now text.items (section_at path.items (tree doc.now)))) }
{
    let spec = Spec { media, path: b"" };
    if !spec.is_text() {
        return Err(WordError::BadType);
    }
    let charset = charset_of(&text)?;
    let part = spec.inline(alloc, text)?;
    let options = AttachOptions {
        charset,
        utf8_names: false,
    };
    match attach_with(alloc, &part, options, eol) {
        Ok(text) => {
            let text = part_to_append(doc, &path, text, eol)?;
            Ok(append(alloc, doc, path, text, eol)?)
        }
        Err(AttachError::BadType) => Err(WordError::BadType),
        Err(AttachError::BadName) => Err(WordError::BadName),
        Err(AttachError::Memory) => Err(WordError::Memory),
    }
}

// The charset that a text is said to be in: `None` if it is ASCII, or else utf-8.
fn charset_of(text: &[u8]) -> Result<Option<&'static [u8]>, WordError>
    ensures charset { IfOk result (λ charset. said_charset text.now ≡ Ok (option_map (λ c. c.now) charset)) }
    ensures fault { IfErr result (λ error. IsFault error (said_charset text.now)) }
{
    if is_ascii(text) {
        Ok(None)
    } else if is_utf8(text) {
        Ok(Some(UTF_8))
    } else {
        Err(WordError::BadCharset)
    }
}
