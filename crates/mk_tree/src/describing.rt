//! What fields say of a body (RFC 2045, 5.1, 5.2 and 6; RFC 2046, 5.1 and 5.2.1).
ghost use Rattle.std.specs.Prelude.{◌==◌, ◌≡◌, ◌∷◌, List, None, codes, false, true, not, IfOk, IfNone, IfSome};
ghost use Rattle.std.specs.Option.{option_map, option_map_or};
ghost use Rattle.mk_line.specs.Lines.{cut as lines_of};
ghost use Rattle.mk_head.specs.Split.{fields_from};
ghost use Rattle.mk_head.specs.Fields.{FieldText};
ghost use Rattle.mk_head.specs.Types.{boundary_of, field_value, header_encoding};
ghost use Rattle.mk_head.specs.ValueViews.{media_type_of};
ghost use Rattle.mk_head.specs.Values.{unled};
ghost use Rattle.mk_head.specs.Views.{field_view};
ghost use Rattle.std.specs.List.{list_any};
ghost use Rattle.mk_line.specs.Ascii.{carriage_return};
ghost use Rattle.mk_tree.specs.Kinds.{kind, kind_of, has_boundary, holds_message as is_message, is_identity as identity};
ghost use Rattle.mk_tree.specs.Steps.{kind_described};
ghost use Rattle.mk_tree.specs.inner.Said.{begins_leaf, value_said, said_first};
ghost use Rattle.mk_head.specs.Encodings.{encoding_of};
ghost use Rattle.mk_head.specs.declared.encodings.Encoding.TheVariants.{Identity};

use mk_head::{ContentType, Encoding, Field, content_type, each_field, encoding, unfold};
use mk_line::{leading_blanks, trimmed};
use std::alloc::{AllocError, Global};

const CARRIAGE_RETURN: u8 = b'\r';

const CONTENT_TYPE: &[u8] = b"Content-Type";

const TRANSFER_ENCODING: &[u8] = b"Content-Transfer-Encoding";

const OPENING: u8 = b'(';

/// The first letter of the types that hold others, in lower case.
const FIRST_OF_BOTH: u8 = b'm';

const MULTIPART: &[u8] = b"multipart";

const DIGEST: &[u8] = b"digest";

const MESSAGE: &[u8] = b"message";

const RFC822: &[u8] = b"rfc822";

const GLOBAL: &[u8] = b"global";

/// What fields say of a body.
#[derive(Debug, Drop)]
pub enum Described {
    Leaf,
    Message,
    /// A multipart with this boundary, and whether it is a digest.
    Multi(Vec<u8>, bool),
}

/// What the fields at the start of a text say of the body below them, in a digest or not.
pub fn describe(alloc: Global, head: &[u8], digest: bool) -> Result<Described, AllocError>
    ensures { IfOk result (λ d. kind_described d ≡ kind (fields_from false (lines_of head.now)) digest) }
{
    let Said { media, encoding } = said_in(head);
    match media {
        Some(field) => {
            let value = unfold(alloc, &field)?;
            if is_surely_leaf(&value) {
                return Ok(Described::Leaf);
            }
            let encoding = encoding_by(alloc, encoding)?;
            describe_type(alloc, &content_type(alloc, &value)?, encoding)
        }
        None => describe_untyped(alloc, head, encoding, digest),
    }
}

// Whether the first byte of a content type tells that it is neither a multipart nor a message. Most types are read no further.
fn is_surely_leaf(value: &[u8]) -> bool
    ensures { result ≡ begins_leaf (unled value.now) }
{
    begins_as_leaf(&value[leading_blanks(value)..])
}

// The same for a content type that begins with no blank.
fn begins_as_leaf(value: &[u8]) -> bool
    ensures { result ≡ begins_leaf value.now }
{
    match value {
        [byte, ..] => *byte != OPENING && byte.to_ascii_lowercase() != FIRST_OF_BOTH,
        [] => true,
    }
}

// What fields without a content type say of a body, by their transfer encoding, in a digest or not.
fn describe_untyped(
    alloc: Global,
    head: &[u8],
    said: Option<Field<'_>>,
    digest: bool,
) -> Result<Described, AllocError>
    requires untyped { field_value (codes "Content-Type") (fields_from false (lines_of head.now)) ≡ None }
    requires said { value_said said ≡ field_value (codes "Content-Transfer-Encoding") (fields_from false (lines_of head.now)) }
    ensures { IfOk result (λ d. kind_described d ≡ kind (fields_from false (lines_of head.now)) digest) }
{
    if !digest {
        return Ok(Described::Leaf);
    }
    let encoding = encoding_by(alloc, said)?;
    if is_identity(encoding) {
        Ok(Described::Message)
    } else {
        Ok(Described::Leaf)
    }
}

// What a content type says of a body in an encoding.
fn describe_type(
    alloc: Global,
    media: &ContentType,
    encoding: Encoding,
) -> Result<Described, AllocError>
    ensures { IfOk result (λ d. kind_described d ≡ kind_of (media_type_of media.now) encoding) }
{
    if media.main.as_slice() == MULTIPART {
        if let Some(boundary) = boundary_in(media) {
            let boundary = Vec::from_slice(alloc, boundary)?;
            return Ok(Described::Multi(boundary, media.sub.as_slice() == DIGEST));
        }
    }
    if holds_message(media, encoding) {
        Ok(Described::Message)
    } else {
        Ok(Described::Leaf)
    }
}

// The boundary of a content type, if it counts: it has a byte and no CR.
fn boundary_in(media: &ContentType) -> Option<&[u8]>
    ensures none { IfNone result (has_boundary (media_type_of media.now) ≡ false) }
    ensures counts { IfSome result (λ b. has_boundary (media_type_of media.now) ≡ true) }
    ensures boundary { IfSome result (λ b. b.now ≡ boundary_of (media_type_of media.now)) }
{
    let boundary = trimmed(media.param(b"boundary")?);
    if boundary.is_empty() || has_return(boundary) {
        None
    } else {
        Some(boundary)
    }
}

fn has_return(text: &[u8]) -> bool
    ensures { result ≡ list_any (λ c. c == carriage_return) text.now }
{
    for byte in text {
        if *byte == CARRIAGE_RETURN {
            return true;
        }
    }
    false
}

// Whether a content type in an encoding is that of a message.
fn holds_message(media: &ContentType, encoding: Encoding) -> bool
    ensures { result ≡ is_message (media_type_of media.now) encoding }
{
    let sub = media.sub.as_slice();
    media.main.as_slice() == MESSAGE && (sub == RFC822 || sub == GLOBAL) && is_identity(encoding)
}

fn is_identity(encoding: Encoding) -> bool
    ensures { result ≡ identity encoding }
{
    match encoding {
        Encoding::Identity => true,
        Encoding::Qp | Encoding::Base64 | Encoding::Other => false,
    }
}

// The first field of a content type and that of a transfer encoding.
struct Said<'a> {
    media: Option<Field<'a>>,
    encoding: Option<Field<'a>>,
}

// What the fields at the start of a text say of their body, found in one pass over them.
fn said_in(head: &[u8]) -> Said<'_>
    ensures media { value_said result.media ≡ field_value (codes "Content-Type") (fields_from false (lines_of head.now)) }
    ensures encoding { value_said result.encoding ≡ field_value (codes "Content-Transfer-Encoding") (fields_from false (lines_of head.now)) }
{
    let mut media = None;
    let mut encoding = None;
    for field in each_field(head) {
        media = first_named(media, field, CONTENT_TYPE);
        encoding = first_named(encoding, field, TRANSFER_ENCODING);
        if media.is_some() && encoding.is_some() {
            return Said { media, encoding };
        }
    }
    Said { media, encoding }
}

// The field that was found, or the next one where it has the name.
#[inline(always)]
fn first_named<'a>(found: Option<Field<'a>>, next: Field<'a>, name: &[u8]) -> Option<Field<'a>>
    ensures { (rest : List FieldText) → said_first name.now result rest ≡ said_first name.now found.entry (field_view next.entry ∷ rest) }
{
    match found {
        Some(field) => Some(field),
        None => if next.is_named(name) {
            Some(next)
        } else {
            None
        },
    }
}

// The transfer encoding that a field says, and 7bit where there is none.
fn encoding_by(alloc: Global, said: Option<Field<'_>>) -> Result<Encoding, AllocError>
    ensures { IfOk result (λ e. e ≡ option_map_or encoding_of (value_said said.entry) Identity) }
{
    match said {
        Some(field) => Ok(encoding(&unfold(alloc, &field)?)),
        None => Ok(Encoding::Identity),
    }
}

// The value of a field that was found.
fn value_of(alloc: Global, said: Option<Field<'_>>) -> Result<Option<Vec<u8>>, AllocError>
    ensures { IfOk result (λ v. option_map (λ b. b.items) v ≡ value_said said.entry) }
{
    match said {
        Some(field) => Ok(Some(unfold(alloc, &field)?)),
        None => Ok(None),
    }
}

/// The value of the first content type at the start of a text and the transfer encoding there, found in one pass.
pub(crate) fn content_fields_in(
    alloc: Global,
    head: &[u8],
) -> Result<(Option<Vec<u8>>, Encoding), AllocError>
    ensures media { IfOk result (λ r. option_map (λ b. b.items) r.0 ≡ field_value (codes "Content-Type") (fields_from false (lines_of head.now))) }
    ensures encoding { IfOk result (λ r. r.1 ≡ header_encoding (fields_from false (lines_of head.now))) }
{
    let Said { media, encoding } = said_in(head);
    let value = value_of(alloc, media)?;
    let encoding = encoding_by(alloc, encoding)?;
    Ok((value, encoding))
}

/// The transfer encoding that the fields at the start of a text say.
pub(crate) fn encoding_in(alloc: Global, head: &[u8]) -> Result<Encoding, AllocError>
    ensures { IfOk result (λ e. e ≡ header_encoding (fields_from false (lines_of head.now))) }
{
    match value_in(alloc, head, TRANSFER_ENCODING)? {
        Some(value) => Ok(encoding(&value)),
        None => Ok(Encoding::Identity),
    }
}

/// The value of the first field of a name at the start of a text.
pub(crate) fn value_in(
    alloc: Global,
    head: &[u8],
    name: &[u8],
) -> Result<Option<Vec<u8>>, AllocError>
    ensures { IfOk result (λ v. option_map (λ b. b.items) v ≡ field_value name.now (fields_from false (lines_of head.now))) }
{
    for field in each_field(head) {
        if field.is_named(name) {
            return Ok(Some(unfold(alloc, &field)?));
        }
    }
    Ok(None)
}
