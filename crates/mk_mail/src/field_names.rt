//! The bytes of a field: the name that it begins with, and whether it is bare.
ghost use Rattle.std.specs.Prelude.{◌≡◌, ◌≤◌, length};
ghost use Rattle.std.specs.List.{list_all, prefix_len};
ghost use Rattle.mk_line.specs.Ascii.{is_blank as blank, is_name_byte as name_byte};
ghost use Rattle.mk_mail.specs.Letters.{is_bare as bare, name_in};

use memchr::memchr;
use mk_line::is_blank;

const COLON: u8 = b':';

const FIRST_OF_NAME: u8 = b'!';

const LAST_OF_NAME: u8 = b'~';

/// Whether only blanks follow the first colon.
pub(crate) fn is_bare(field: &[u8]) -> bool
    ensures { result ≡ bare field.now }
{
    match memchr(COLON, field) {
        Some(place) => are_blank(&field[place + 1..]),
        None => true,
    }
}

fn are_blank(bytes: &[u8]) -> bool
    ensures { result ≡ list_all blank bytes.now }
{
    for byte in bytes {
        if !is_blank(*byte) {
            return false;
        }
    }
    true
}

// Whether a byte may be in a name (RFC 5322, 2.2).
fn is_name_byte(byte: u8) -> bool
    ensures { result ≡ name_byte byte }
{
    byte >= FIRST_OF_NAME && byte <= LAST_OF_NAME && byte != COLON
}

/// The name that a field begins with.
pub(crate) fn name_of(field: &[u8]) -> &[u8]
    ensures { result.now ≡ name_in field.now }
{
    &field[..name_size(field)]
}

// How many bytes of a name are at the start.
fn name_size(field: &[u8]) -> usize
    ensures size { result ≡ prefix_len name_byte field.now }
    ensures within { result ≤ length field.now }
{
    field.iter().take_while(|byte| is_name_byte(**byte)).count()
}
