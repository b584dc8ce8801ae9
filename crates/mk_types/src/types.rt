//! What the endings of names mean.

ghost use Rattle.std.specs.Prelude.{◌≡◌, ◌==◌, map};
ghost use Rattle.std.specs.List.{slice_split};
ghost use Rattle.std.specs.Str.{bytes_eq, str_to_ascii_lowercase};
ghost use Rattle.mk_pack.specs.Parts.{last_of};
ghost use Rattle.mk_types.specs.FileTypes.{file_rows, type_in, type_of_file};
ghost use Rattle.mk_types.specs.inner.Rows.{row_of};

use crate::table::{FILE_TYPES, FileType};
use mk_line::split_at_first;
use mk_script::parted;

const SLASH: u8 = b'/';

const FULL_STOP: u8 = b'.';

/// The type of files of which nothing is known (RFC 2046, 4.5.1).
const UNKNOWN: &str = "application/octet-stream";

/// The media type of the file at a path, by what follows the last full stop of its name, in any case: a common one, or else
/// `application/octet-stream`. The file isn't read.
pub fn media_type(path: &[u8]) -> &'static str
    ensures { result.now ≡ type_of_file path.now }
{
    let name = after_last(path, SLASH);
    if split_at_first(name, FULL_STOP).is_none() {
        return UNKNOWN;
    }
    by_ending(types(), after_last(name, FULL_STOP))
}

// What follows the last separator of a text; all of it where it has none.
fn after_last(text: &[u8], separator: u8) -> &[u8]
    ensures { result.now ≡ last_of (slice_split (λ byte. byte == separator) text.now) }
{
    let mut last = text;
    'each: while let Some((_, following)) = parted(last, separator) {
        last = following;
    }
    last
}

// The table.
fn types() -> &'static [FileType]
    ensures { map row_of result.now ≡ file_rows }
{
    &FILE_TYPES
}

// The type of an ending in a table.
fn by_ending(types: &'static [FileType], ending: &[u8]) -> &'static str
    ensures { result.now ≡ type_in (map row_of types.now) (str_to_ascii_lowercase ending.now) }
{
    for known in types {
        if is_spelled(ending, known.ending) {
            return known.media;
        }
    }
    UNKNOWN
}

// Whether an ending is that one, in any case.
fn is_spelled(ending: &[u8], known: &str) -> bool
    ensures { result ≡ bytes_eq (str_to_ascii_lowercase ending.now) (str_to_ascii_lowercase known.now) }
{
    ending.eq_ignore_ascii_case(known.as_bytes())
}
