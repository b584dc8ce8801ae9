//! Texts in a charset, in UTF-8.
ghost use Rattle.std.specs.Prelude.{◌≡◌, ◌++◌, if◌then◌else◌, encode_utf8, IfOk, None, Some, find, is_some, map, nat_lt, option_and_then};
ghost use Rattle.std.specs.List.{flat_map, list_all, list_any};
ghost use Rattle.std.specs.Option.{option_map};
ghost use Rattle.std.specs.Str.{bytes_eq, str_to_ascii_lowercase};
ghost use Rattle.mk_code.specs.Charsets.{character_in as character_of, iso_tables, other_tables, text_in_table as text_by_table, upper_of};
ghost use Rattle.mk_code.specs.EncodedWords.{in_utf8 as bytes_in_utf8, utf8_labels};
ghost use Rattle.mk_code.specs.inner.Tables.{has_label as is_labelled, single_of, table_of};

use crate::iso_tables::ISO_TABLES;
use crate::other_tables::OTHER_TABLES;
use std::alloc::{AllocError, Global};

/// The first byte that isn't ASCII.
const NON_ASCII: u8 = 128;

/// What stands in a table where a byte has no character.
const NO_CHARACTER: char = '\u{FFFD}';

/// Labels of UTF-8 (WHATWG Encoding Standard, 4.2).
const UTF8_LABELS: &[&str] = &[
    "utf-8",
    "unicode-1-1-utf-8",
    "unicode11utf8",
    "unicode20utf8",
    "utf8",
    "x-unicode20utf8",
];

/// A charset of one byte a character.
pub(crate) struct SingleByte {
    /// In lower case.
    pub labels: &'static [&'static str],
    /// The characters of the bytes from 128 on, and `NO_CHARACTER` where a byte has none.
    pub upper: [char; 128],
}

/// The bytes in UTF-8, where the charset is known and has a character for each; those that are said to be UTF-8 as they are.
/// The name of the charset is taken in any case: `utf-8`, `us-ascii`, `iso-8859-1`, and the labels of the WHATWG Encoding
/// Standard for UTF-8 and for charsets of one byte a character.
pub fn in_utf8(alloc: Global, charset: &[u8], bytes: Vec<u8>) -> Result<Option<Vec<u8>>, AllocError>
    ensures { IfOk result (λ found. option_map (λ bytes. bytes.items) found
        ≡ bytes_in_utf8 (str_to_ascii_lowercase charset.now) bytes.items) }
{
    if has_label(UTF8_LABELS, charset) {
        return Ok(Some(bytes));
    }
    if is_named(charset, b"us-ascii") {
        return Ok(if is_ascii(&bytes) { Some(bytes) } else { None });
    }
    if is_named(charset, b"iso-8859-1") {
        return Ok(Some(from_latin(alloc, &bytes)?));
    }
    match upper_half(charset) {
        Some(upper) => from_table(alloc, upper, &bytes),
        None => Ok(None),
    }
}

/// Whether `in_utf8` gives these bytes in UTF-8.
pub fn is_in_charset(charset: &[u8], bytes: &[u8]) -> bool
    ensures { result ≡ is_some (bytes_in_utf8 (str_to_ascii_lowercase charset.now) bytes.now) }
{
    if has_label(UTF8_LABELS, charset) {
        return true;
    }
    if is_named(charset, b"us-ascii") {
        return is_ascii(bytes);
    }
    if is_named(charset, b"iso-8859-1") {
        return true;
    }
    match upper_half(charset) {
        Some(upper) => has_characters(upper, bytes),
        None => false,
    }
}

fn has_characters(upper: &[char], bytes: &[u8]) -> bool
    ensures { result ≡ list_all (λ byte. is_some (character_of upper.now byte)) bytes.now }
{
    bytes
        .iter()
        .all(|byte| character_in(upper, *byte).is_some())
}

fn is_ascii(bytes: &[u8]) -> bool
    ensures { result ≡ list_all (λ byte. nat_lt byte 128) bytes.now }
{
    bytes.iter().all(|byte| byte.is_ascii())
}

// Whether the name is this one, which is in lower case, without regard to ASCII case.
pub(crate) fn is_named(name: &[u8], wanted: &[u8]) -> bool
    ensures { result ≡ bytes_eq (str_to_ascii_lowercase name.now) (str_to_ascii_lowercase wanted.now) }
{
    name.eq_ignore_ascii_case(wanted)
}

// Whether one of the labels is this one, in any case.
fn has_label(labels: &'static [&'static str], charset: &[u8]) -> bool
    ensures { result ≡ is_labelled (map (λ l. l.now) labels.now) (str_to_ascii_lowercase charset.now) }
{
    for label in labels {
        if is_named(charset, label.as_bytes()) {
            return true;
        }
    }
    false
}

// The characters of the bytes from 128 on, by a label.
fn upper_half(charset: &[u8]) -> Option<&'static [char]>
    ensures { option_map (λ u. u.now) result ≡ upper_of (str_to_ascii_lowercase charset.now) }
{
    match upper_in(iso_charsets(), charset) {
        Some(upper) => Some(upper),
        None => upper_in(other_charsets(), charset),
    }
}

fn iso_charsets() -> &'static [SingleByte]
    ensures { map single_of result.now ≡ iso_tables }
{
    &ISO_TABLES
}

fn other_charsets() -> &'static [SingleByte]
    ensures { map single_of result.now ≡ other_tables }
{
    &OTHER_TABLES
}

// The same in some tables.
fn upper_in(tables: &'static [SingleByte], charset: &[u8]) -> Option<&'static [char]>
    ensures { option_map (λ u. u.now) result ≡ table_of (map single_of tables.now) (str_to_ascii_lowercase charset.now) }
{
    for table in tables {
        if has_label(table.labels, charset) {
            return Some(&table.upper);
        }
    }
    None
}

// The bytes in UTF-8 by the characters of those from 128 on, where each has one.
fn from_table(alloc: Global, upper: &[char], bytes: &[u8]) -> Result<Option<Vec<u8>>, AllocError>
    ensures { IfOk result (λ text. option_map (λ text. text.items) text ≡ text_by_table upper.now bytes.now) }
{
    let mut text = String::with_capacity(alloc, bytes.len())?;
    for byte in bytes {
        let Some(character) = character_in(upper, *byte) else {
            return Ok(None);
        };
        text.push(character)?;
    }
    Ok(Some(text.into_bytes()))
}

// The character of a byte, where it has one.
fn character_in(upper: &[char], byte: u8) -> Option<char>
    ensures { result ≡ character_of upper.now byte }
{
    if byte < NON_ASCII {
        return Some(char::from(byte));
    }
    match upper.get(usize::from(byte - NON_ASCII)) {
        Some(&NO_CHARACTER) | None => None,
        Some(character) => Some(*character),
    }
}

// The characters of iso-8859-1 in UTF-8.
fn from_latin(alloc: Global, bytes: &[u8]) -> Result<Vec<u8>, AllocError>
    ensures { IfOk result (λ text. text.items ≡ flat_map encode_utf8 bytes.now) }
{
    let mut text = String::with_capacity(alloc, bytes.len())?;
    for byte in bytes {
        text.push(char::from(*byte))?;
    }
    Ok(text.into_bytes())
}
