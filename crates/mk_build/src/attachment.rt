//! What is attached to a message, whether it may be (RFC 2045, 5.1), and the names that are written of it (RFC 2231).
ghost use Rattle.std.specs.Prelude.{◌≡◌, if◌then◌else◌, IfOk, true};
ghost use Rattle.std.specs.List.{list_all};
ghost use Rattle.std.specs.Str.{is_utf8 as is_in_utf8};
ghost use Rattle.mk_line.specs.Ascii.{underscore};
ghost use Rattle.mk_code.specs.EncodedWords.{is_shown};
ghost use Rattle.mk_build.specs.BuildViews.{attached_of, written_in, written_of};
ghost use Rattle.mk_build.specs.Building.{is_media as may_be_attached, is_name as may_be_written, is_name_byte as may_stand, is_said as is_said_so, is_single as is_one_body, plain_name as plain_name_of};
ghost use Rattle.std.specs.Option.{option_map_or};

use mk_head::is_token;
use mk_line::split_at_first;
use std::alloc::{AllocError, Global};

/// The most bytes of a media type and of a name.
const LONGEST: usize = 100;

const SLASH: u8 = b'/';

const QUOTE: u8 = b'"';

const BACKSLASH: u8 = b'\\';

const UNDERSCORE: u8 = b'_';

/// The most bytes of a name as people write it.
const LONGEST_SAID: usize = 255;

const MULTIPART: &[u8; 9] = b"multipart";

const MESSAGE: &[u8; 7] = b"message";

/// Something that is attached to a message.
#[derive(Debug, Drop)]
pub struct Attach {
    /// Its media type, as `image/png`: no multipart and no message.
    pub media: Vec<u8>,
    /// The name under which it is stored.
    pub name: Option<Vec<u8>>,
    pub text: Vec<u8>,
    /// Whether it goes as base64; else it goes as quoted-printable.
    pub base64: bool,
}

/// Whether a media type may be attached.
pub(crate) fn is_media(media: &[u8]) -> bool
    ensures { result ≡ may_be_attached media.now }
{
    if media.len() > LONGEST {
        return false;
    }
    match split_at_first(media, SLASH) {
        Some((main, sub)) => is_token(main) && is_token(sub) && is_single(main),
        None => false,
    }
}

// Whether a type is neither multipart nor message, in any case.
fn is_single(main: &[u8]) -> bool
    ensures { result ≡ is_one_body main.now }
{
    !main.eq_ignore_ascii_case(MULTIPART) && !main.eq_ignore_ascii_case(MESSAGE)
}

/// What is written of something that is attached.
#[derive(Debug, Drop)]
pub(crate) struct Written<'a> {
    pub media: &'a [u8],
    /// The name in quotes.
    pub name: Option<Vec<u8>>,
    /// The name as people write it, where that in quotes is what is left of it.
    pub said: Option<&'a [u8]>,
    pub text: &'a [u8],
    pub base64: bool,
}

// What is written of it as it is given.
fn as_given(alloc: Global, attached: &Attach) -> Result<Written<'_>, AllocError>
    ensures { IfOk result (λ w. written_of w ≡ attached_of attached.now) }
{
    let name = match &attached.name {
        Some(name) => Some(Vec::from_slice(alloc, name)?),
        None => None,
    };
    Ok(Written {
        media: &attached.media,
        name,
        said: None,
        text: &attached.text,
        base64: attached.base64,
    })
}

/// What is written of it, under a name in UTF-8 where that is asked for.
pub(crate) fn as_named(
    alloc: Global,
    attached: &Attach,
    utf8_names: bool,
) -> Result<Written<'_>, AllocError>
    ensures { IfOk result (λ w. written_of w ≡ written_in utf8_names attached.now) }
{
    match &attached.name {
        Some(name) if utf8_names && is_said(name) => Ok(Written {
            media: &attached.media,
            name: Some(plain_name(alloc, name)?),
            said: Some(name),
            text: &attached.text,
            base64: attached.base64,
        }),
        _ => as_given(alloc, attached),
    }
}

// Whether a name is written as people write it: a text that isn't printable ASCII, and isn't too long.
fn is_said(name: &[u8]) -> bool
    ensures { result ≡ is_said_so name.now }
{
    name.len() <= LONGEST_SAID && is_utf8(name) && !are_shown(name)
}

fn is_utf8(name: &[u8]) -> bool
    ensures { result ≡ is_in_utf8 name.now }
{
    match std::str::from_utf8(name) {
        Ok(_) => true,
        Err(_) => false,
    }
}

fn are_shown(name: &[u8]) -> bool
    ensures { result ≡ list_all is_shown name.now }
{
    name.iter().all(|byte| (b' '..=b'~').contains(byte))
}

// What is left of a name in quotes.
fn plain_name(alloc: Global, name: &[u8]) -> Result<Vec<u8>, AllocError>
    ensures { IfOk result (λ plain. plain.items ≡ plain_name_of name.now) }
{
    let mut plain: Vec<u8> = name.iter().map(|byte| name_byte(*byte)).collect(alloc)?;
    plain.truncate(LONGEST);
    Ok(plain)
}

fn name_byte(byte: u8) -> u8
    ensures { result ≡ if may_stand byte then byte else underscore }
{
    if is_name_byte(byte) { byte } else { UNDERSCORE }
}

pub(crate) fn has_name(written: &Written<'_>) -> bool
    ensures { result ≡ option_map_or may_be_written (written_of written.now).name true }
{
    match &written.name {
        Some(name) => is_name(name),
        None => true,
    }
}

// Whether a name may be written between quotes.
fn is_name(name: &[u8]) -> bool
    ensures { result ≡ may_be_written name.now }
{
    !name.is_empty() && name.len() <= LONGEST && are_name_bytes(name)
}

fn are_name_bytes(name: &[u8]) -> bool
    ensures { result ≡ list_all may_stand name.now }
{
    name.iter().all(|byte| is_name_byte(*byte))
}

fn is_name_byte(byte: u8) -> bool
    ensures { result ≡ may_stand byte }
{
    (b' '..=b'~').contains(&byte) && byte != QUOTE && byte != BACKSLASH
}
