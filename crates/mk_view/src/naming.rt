//! Names that leaves stored as files would get by themselves.
ghost use Rattle.std.specs.Prelude.{◌≡◌, IfOk};
ghost use Rattle.std.specs.Option.{option_map, option_or};
ghost use Rattle.std.specs.String.{string_bytes};
ghost use Rattle.mk_head.specs.ValueViews.{media_type_of};
ghost use Rattle.std.specs.List.{after_last};
ghost use Rattle.mk_view.specs.FileNames.{cleaned as cleaned_of, is_divider as divides, is_stored_by, leading as leading_of, name_by, part_name as name_of_part, plain as plain_of, raw_name as raw_name_of};

use crate::described::Described;
use crate::writing::push_path;
use mk_head::ContentType;
use mk_tree::Section;
use std::alloc::{AllocError, Global};

const DOT: u8 = b'.';

const HYPHEN: u8 = b'-';

const UNDERSCORE: u8 = b'_';

const SLASH: u8 = b'/';

const BACKSLASH: u8 = b'\\';

/// How many bytes of a name that a message says are kept.
pub(crate) const MOST_BYTES: usize = 100;

const TEXT: &[u8] = b"text";

/// Whether a leaf of a type, with the text and the bytes that its fields say as its name, is stored: a text without a name
/// only where texts are.
pub(crate) fn is_stored(
    texts: bool,
    media: &ContentType,
    text: &Option<String>,
    raw: Option<&[u8]>,
) -> bool
    ensures { result ≡ is_stored_by texts (media_type_of media.now) (option_or (option_map string_bytes text.now) (option_map (λ name. name.now) raw.entry)) }
{
    match (text, raw) {
        (None, None) => texts || media.main.as_slice() != TEXT,
        _ => true,
    }
}

/// The name that the fields of a section say, as it stands there: the parameter `filename` of Content-Disposition, else
/// `name` of Content-Type (RFC 2183, 2.3; RFC 2045, 5.1).
pub fn said_name(alloc: Global, section: &Section<'_>) -> Result<Option<Vec<u8>>, AllocError>
    ensures { IfOk result (λ raw. option_map (λ name. name.items) raw ≡ raw_name_of section.now) }
{
    let described = Described::read(alloc, section)?;
    match described.raw_name() {
        Some(name) => Ok(Some(Vec::from_slice(alloc, name)?)),
        None => Ok(None),
    }
}

/// The name that a section at a path would get by itself.
pub(crate) fn own_name(
    alloc: Global,
    path: &[u32],
    raw: Option<&[u8]>,
) -> Result<Vec<u8>, AllocError>
    ensures { IfOk result (λ name. name.items ≡ name_by path.now (option_map (λ name. name.now) raw.entry)) }
{
    if let Some(raw) = raw {
        let name = cleaned(alloc, raw)?;
        if !name.is_empty() {
            return Ok(name);
        }
    }
    part_name(alloc, path)
}

/// The name of a section that has no other.
pub(crate) fn part_name(alloc: Global, path: &[u32]) -> Result<Vec<u8>, AllocError>
    ensures { IfOk result (λ name. name.items ≡ name_of_part path.now) }
{
    let mut name = Vec::from_slice(alloc, b"part-")?;
    push_path(&mut name, path)?;
    Ok(name)
}

// What is left of a name that a message says.
fn cleaned(alloc: Global, raw: &[u8]) -> Result<Vec<u8>, AllocError>
    ensures { IfOk result (λ name. name.items ≡ cleaned_of raw.now) }
{
    let Some((first, others)) = last_piece(raw).split_first() else {
        return Ok(Vec::new(alloc));
    };
    let mut name = Vec::new(alloc);
    name.push(leading(plain(*first)))?;
    for byte in others {
        name.push(plain(*byte))?;
    }
    name.truncate(MOST_BYTES);
    Ok(name)
}

// What follows the last slash or backslash.
fn last_piece(raw: &[u8]) -> &[u8]
    ensures { result.now ≡ after_last divides raw.now }
{
    let mut piece = raw;
    let mut rest = raw;
    'each: while let [byte, following @ ..] = rest {
        if is_divider(*byte) {
            piece = following;
        }
        rest = following;
    }
    piece
}

fn is_divider(byte: u8) -> bool
    ensures { result ≡ divides byte }
{
    byte == SLASH || byte == BACKSLASH
}

// A byte that may stand in a name, in the place of any.
fn plain(byte: u8) -> u8
    ensures { result ≡ plain_of byte }
{
    if byte.is_ascii_alphanumeric() || byte == DOT || byte == UNDERSCORE || byte == HYPHEN {
        byte
    } else {
        UNDERSCORE
    }
}

// A byte that a name may begin with, in the place of any that may stand in it.
fn leading(byte: u8) -> u8
    ensures { result ≡ leading_of byte }
{
    if byte == DOT || byte == HYPHEN {
        UNDERSCORE
    } else {
        byte
    }
}
