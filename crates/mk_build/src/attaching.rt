//! Parts of messages, from what is attached (RFC 2045, 5 and 6; RFC 2183).
ghost use Rattle.std.specs.Prelude.{◌≡◌, ◌≢◌, ◌++◌, if◌then◌else◌, None, [], codes, IfOk, IfErr, OnOk};
ghost use Rattle.mk_build.specs.BuildViews.{attached_of, written_in, written_of, IsAttachRefused};
ghost use Rattle.mk_build.specs.Building.{attach_refusal as refusal_of, disposition_line, encoded, encoding_line};
ghost use Rattle.mk_build.specs.Multiparts.{attached as attached_text, attached_as, charset_param, type_line_as};
ghost use Rattle.mk_build.specs.inner.PieceViews.{part_fields};
ghost use Rattle.mk_param.specs.Percents.{percent_encoded};
ghost use Rattle.std.specs.Option.{option_map, option_map_or};

use crate::attachment::{Attach, Written, as_named, has_name, is_media};
use crate::multipart::charset_for;
use mk_code::{push_b64, push_qp};
use mk_line::Ending;
use mk_param::push_percent;
use std::alloc::{AllocError, Global};
use thiserror::Error;

/// Why something isn't attached.
#[derive(Clone, Copy, Debug, PartialEq, Eq, Error)]
pub enum AttachError {
    /// The media type is invalid, has more than 100 bytes, or is a multipart or a message.
    #[error("the media type can't be attached")]
    BadType,
    /// The name is empty, has more than 100 bytes, or holds a byte that a quoted string can't hold as it is.
    #[error("the name can't be written")]
    BadName,
    /// Memory ran out.
    #[error("out of memory")]
    Memory,
}

impl From<AllocError> for AttachError {
    ghost use Rattle.mk_build.specs.declared.attaching.AttachError.TheVariants.{Memory};
    ghost use Rattle.std.specs.Prelude.{◌≡◌};

    ghost from_gives = { λ _ e. e ≡ Memory };

    fn from(_error: AllocError) -> AttachError {
        AttachError::Memory
    }
}

/// How a part is written. By default it names no charset, and its name is written as it is given.
#[derive(Clone, Copy, Debug)]
pub struct AttachOptions<'a> {
    /// The charset that a text names, as `utf-8`. Whether it can be one, the caller asks `is_charset`.
    pub charset: Option<&'a [u8]>,
    /// Whether a name in UTF-8 that isn't printable ASCII is written a second time, as it is (RFC 2231, 4).
    pub utf8_names: bool,
}

impl<'a> Default for AttachOptions<'a> {
    ghost use Rattle.std.specs.Prelude.{◌≡◌, None, false};

    ghost is_default = { λ options. options ≡ record { charset = None; utf8_names = false } };

    fn default() -> AttachOptions<'a> {
        AttachOptions {
            charset: None,
            utf8_names: false,
        }
    }
}

/// A part: the fields that say what is attached, an empty line, and the encoded bytes. Lines end with `eol`; the last has
/// no ending where the bytes have none.
pub fn attach(alloc: Global, attached: &Attach, eol: Ending) -> Result<Vec<u8>, AttachError>
    requires { eol ≢ Ending.Missing }
    ensures text { IfOk result (λ text. (refusal_of (attached_of attached.now) ≡ None) × (text.items ≡ attached_text eol (attached_of attached.now))) }
    ensures refused { IfErr result (λ error. IsAttachRefused (attached_of attached.now) error) }
{
    attach_with(alloc, attached, AttachOptions::default(), eol)
}

/// A part as `attach` makes it, written as the options say.
pub fn attach_with(
    alloc: Global,
    attached: &Attach,
    options: AttachOptions<'_>,
    eol: Ending,
) -> Result<Vec<u8>, AttachError>
    requires { eol ≢ Ending.Missing }
    ensures text { IfOk result (λ text. (refusal_of (written_in options.entry.utf8_names attached.now) ≡ None) × (text.items ≡ attached_as eol (option_map (λ c. c.now) options.entry.charset) (written_in options.entry.utf8_names attached.now))) }
    ensures refused { IfErr result (λ error. IsAttachRefused (written_in options.entry.utf8_names attached.now) error) }
{
    let written = as_named(alloc, attached, options.utf8_names)?;
    attach_of(alloc, &written, options.charset, eol)
}

// The part of what is written of it.
fn attach_of(
    alloc: Global,
    written: &Written<'_>,
    charset: Option<&[u8]>,
    eol: Ending,
) -> Result<Vec<u8>, AttachError>
    requires { eol ≢ Ending.Missing }
    ensures text { IfOk result (λ text. (refusal_of (written_of written.now) ≡ None) × (text.items ≡ attached_as eol (option_map (λ c. c.now) charset.entry) (written_of written.now))) }
    ensures refused { IfErr result (λ error. IsAttachRefused (written_of written.now) error) }
{
    if let Some(reason) = attach_refusal(written) {
        return Err(reason);
    }
    let mut text = Vec::new(alloc);
    push_attached(&mut text, written, charset, eol)?;
    Ok(text)
}

/// Why something can't be attached, if it can't.
pub(crate) fn attach_refusal(written: &Written<'_>) -> Option<AttachError>
    ensures { result ≡ refusal_of (written_of written.now) }
{
    if !is_media(written.media) {
        Some(AttachError::BadType)
    } else if !has_name(written) {
        Some(AttachError::BadName)
    } else {
        None
    }
}

/// Writes what is attached as a part, a text with the charset.
pub(crate) fn push_attached(
    text: &mut Vec<u8>,
    written: &Written<'_>,
    charset: Option<&[u8]>,
    eol: Ending,
) -> Result<(), AllocError>
    requires { eol ≢ Ending.Missing }
    ensures { OnOk result (text.new.items ≡ text.old.items ++ attached_as eol (option_map (λ c. c.now) charset.entry) (written_of written.now)) }
{
    push_part_fields(text, written, charset, eol)?;
    push_bytes(text, written, eol)
}

/// Writes the fields that say what is attached, and the empty line after them.
pub(crate) fn push_part_fields(
    text: &mut Vec<u8>,
    written: &Written<'_>,
    charset: Option<&[u8]>,
    eol: Ending,
) -> Result<(), AllocError>
    ensures { OnOk result (text.new.items ≡ text.old.items ++ part_fields eol (option_map (λ c. c.now) charset.entry) (written_of written.now)) }
{
    push_type(text, written, charset, eol)?;
    push_disposition(text, written, eol)?;
    push_encoding(text, written.base64, eol)?;
    text.extend_from_slice(eol.bytes())
}

fn push_type(
    text: &mut Vec<u8>,
    written: &Written<'_>,
    charset: Option<&[u8]>,
    eol: Ending,
) -> Result<(), AllocError>
    ensures { OnOk result (text.new.items ≡ text.old.items ++ type_line_as eol (option_map (λ c. c.now) charset.entry) (written_of written.now)) }
{
    text.extend_from_slice(b"Content-Type: ")?;
    text.extend_from_slice(written.media)?;
    push_charset(text, charset_for(charset, written.media))?;
    push_name(text, written)?;
    text.extend_from_slice(eol.bytes())
}

fn push_charset(text: &mut Vec<u8>, charset: Option<&[u8]>) -> Result<(), AllocError>
    ensures { OnOk result (text.new.items ≡ text.old.items ++ charset_param (option_map (λ c. c.now) charset.entry)) }
{
    match charset {
        Some(charset) => {
            text.extend_from_slice(b"; charset=")?;
            text.extend_from_slice(charset)
        }
        None => Ok(()),
    }
}

fn push_name(text: &mut Vec<u8>, written: &Written<'_>) -> Result<(), AllocError>
    ensures { OnOk result (text.new.items ≡ text.old.items ++ option_map_or (λ name. codes "; name=\"" ++ (name ++ codes "\"")) (written_of written.now).name []) }
{
    match &written.name {
        Some(name) => {
            text.extend_from_slice(b"; name=\"")?;
            text.extend_from_slice(name)?;
            text.extend_from_slice(b"\"")
        }
        None => Ok(()),
    }
}

fn push_disposition(
    text: &mut Vec<u8>,
    written: &Written<'_>,
    eol: Ending,
) -> Result<(), AllocError>
    ensures { OnOk result (text.new.items ≡ text.old.items ++ disposition_line eol (written_of written.now).name (written_of written.now).said) }
{
    match &written.name {
        Some(name) => {
            text.extend_from_slice(b"Content-Disposition: attachment; filename=\"")?;
            text.extend_from_slice(name)?;
            text.extend_from_slice(b"\"")?;
            push_said(text, written)?;
            text.extend_from_slice(eol.bytes())
        }
        None => Ok(()),
    }
}

// Writes the name as people write it, where there is one.
fn push_said(text: &mut Vec<u8>, written: &Written<'_>) -> Result<(), AllocError>
    ensures { OnOk result (text.new.items ≡ text.old.items ++ option_map_or (λ said. codes "; filename*=utf-8''" ++ percent_encoded said) (written_of written.now).said []) }
{
    match written.said {
        Some(said) => {
            text.extend_from_slice(b"; filename*=utf-8''")?;
            push_percent(text, said)
        }
        None => Ok(()),
    }
}

fn push_encoding(text: &mut Vec<u8>, base64: bool, eol: Ending) -> Result<(), AllocError>
    ensures { OnOk result (text.new.items ≡ text.old.items ++ encoding_line eol base64) }
{
    text.extend_from_slice(b"Content-Transfer-Encoding: ")?;
    text.extend_from_slice(encoding_name(base64))?;
    text.extend_from_slice(eol.bytes())
}

fn encoding_name(base64: bool) -> &'static [u8]
    ensures { result.now ≡ if base64 then codes "base64" else codes "quoted-printable" }
{
    if base64 {
        b"base64"
    } else {
        b"quoted-printable"
    }
}

// The bytes as they go.
fn push_bytes(text: &mut Vec<u8>, written: &Written<'_>, eol: Ending) -> Result<(), AllocError>
    requires { eol ≢ Ending.Missing }
    ensures { OnOk result (text.new.items ≡ text.old.items ++ encoded eol (written_of written.now)) }
{
    if written.base64 {
        push_b64(text, written.text, eol)
    } else {
        push_qp(text, written.text, eol)
    }
}
