//! What the fields of a section say of it (RFC 2045, 5.1, 5.2 and 6).
ghost use Rattle.std.specs.Prelude.{◌≡◌, ◌++◌, [], IfOk, OnOk, OnErr};
ghost use Rattle.std.specs.Option.{option_map};
ghost use Rattle.mk_head.specs.Types.{type_by};
ghost use Rattle.mk_head.specs.ValueViews.{media_type_of};
ghost use Rattle.mk_view.specs.Listing.{type_of, type_text};

use mk_head::{ContentType, content_type, push_media_type};
use mk_tree::Section;
use std::alloc::{AllocError, Global};

/// Writes the content type of a section after a text, as `text/plain`; without a field that says it that of its place. After
/// an error the text is as before.
pub fn push_type(alloc: Global, text: &mut Vec<u8>, section: &Section<'_>) -> Result<(), AllocError>
    ensures appended { OnOk result (text.new.items ≡ text.old.items ++ type_text (type_of section.now)) }
    ensures unchanged { OnErr result (text.new.items ≡ text.old.items) }
{
    let value = section.value(alloc, b"Content-Type")?;
    push_said_type(text, value, section.default_message())
}

/// Appends the media type that the value of a Content-Type field says; without one, the default, in a digest or not
/// (RFC 2046, 5.1.5).
pub(crate) fn push_said_type(
    text: &mut Vec<u8>,
    value: Option<Vec<u8>>,
    digest: bool,
) -> Result<(), AllocError>
    ensures appended { OnOk result (text.new.items ≡ text.old.items ++ type_text (type_by digest (option_map (λ bytes. bytes.items) value))) }
    ensures unchanged { OnErr result (text.new.items ≡ text.old.items) }
{
    match value {
        Some(value) => push_media_type(text, &value),
        None if digest => text.extend_from_slice(b"message/rfc822"),
        None => text.extend_from_slice(b"text/plain"),
    }
}

/// The content type of a section; without a Content-Type field that of its place (RFC 2046, 5.1.5).
pub fn media_type(alloc: Global, section: &Section<'_>) -> Result<ContentType, AllocError>
    ensures { IfOk result (λ media. media_type_of media ≡ type_of section.now) }
{
    let value = section.value(alloc, b"Content-Type")?;
    said_type(alloc, value, section.default_message())
}

// The content type of the value of a field, or none.
fn said_type(alloc: Global, value: Option<Vec<u8>>, digest: bool) -> Result<ContentType, AllocError>
    ensures { IfOk result (λ media. media_type_of media ≡ type_by digest (option_map (λ bytes. bytes.items) value)) }
{
    match value {
        Some(value) => content_type(alloc, &value),
        None => default_type(alloc, digest),
    }
}

// The content type where no field says it, in a digest or not (RFC 2046, 5.1.5).
fn default_type(alloc: Global, digest: bool) -> Result<ContentType, AllocError>
    ensures { IfOk result (λ media. media_type_of media ≡ type_by digest None) }
{
    if digest {
        media(alloc, b"message", b"rfc822")
    } else {
        media(alloc, b"text", b"plain")
    }
}

// A content type without parameters.
fn media(alloc: Global, main: &[u8], sub: &[u8]) -> Result<ContentType, AllocError>
    ensures { IfOk result (λ media. media_type_of media ≡ record { main = main.now; sub = sub.now; params = [] }) }
{
    let main = Vec::from_slice(alloc, main)?;
    let sub = Vec::from_slice(alloc, sub)?;
    Ok(ContentType {
        main,
        sub,
        params: Vec::new(alloc),
    })
}
