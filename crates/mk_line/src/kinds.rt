//! Kinds of line: field starts, continuations, From-lines (RFC 5322, 2.2; From-lines are our own).
ghost use Rattle.std.specs.Prelude.{◌≡◌, ◌+◌, ◌≤◌, length, take, drop};
ghost use Rattle.std.specs.List.{list_all, prefix_len};
ghost use Rattle.mk_line.specs.Ascii.{is_blank as blank, is_name_byte as name_byte};
ghost use Rattle.mk_line.specs.Kinds.{is_continuation as continues, is_from_line as is_from, is_name as are_name, is_past_blanks_colon, name_len as length_of_name};

use crate::lanes::{ByteClass, LANES, Runs, first_set, run_of};
use std::simd::prelude::*;

const TAB: u8 = b'\t';

const SPACE: u8 = b' ';

const COLON: u8 = b':';

const FIRST_OF_NAME: u8 = b'!';

const LAST_OF_NAME: u8 = b'~';

/// How many printable ASCII characters there are, apart from the space.
const PRINTABLE: u8 = 94;

/// The bytes of the names of fields: 33 to 126 other than the colon (RFC 5322, 2.2).
struct NameBytes;

impl ByteClass for NameBytes {
    ghost members = { name_byte };

    fn has(byte: u8) -> bool {
        byte >= FIRST_OF_NAME && byte <= LAST_OF_NAME && byte != COLON
    }
}

impl Runs for NameBytes {
    #[inline(always)]
    fn run_at(text: &[u8], at: usize) -> usize {
        let bytes = u8x16::from_slice(&text[at..]);
        let from_first = bytes - u8x16::splat(FIRST_OF_NAME);
        let stops = from_first.simd_ge(u8x16::splat(PRINTABLE))
            | bytes.simd_eq(u8x16::splat(COLON));
        first_set(stops.to_bitmask(), LANES)
    }
}

/// The length of the name in bytes, where the content is a field start: a name of one or more bytes 33 to 126
/// other than the colon, blanks or none, and a colon.
pub fn name_len(content: &[u8]) -> Option<usize>
    ensures { result ≡ length_of_name content.now }
{
    let name = run_of::<NameBytes>(content);
    if name == 0 {
        return None;
    }
    if opens_value(&content[name..]) {
        Some(name)
    } else {
        None
    }
}

/// Whether these bytes are a field's name: one or more bytes 33 to 126 other than the colon.
pub fn is_name(bytes: &[u8]) -> bool
    ensures { result ≡ are_name bytes.now }
{
    !bytes.is_empty() && are_name_bytes(bytes)
}

fn are_name_bytes(bytes: &[u8]) -> bool
    ensures { result ≡ list_all name_byte bytes.now }
{
    bytes.iter().all(|byte| NameBytes::has(*byte))
}

/// Whether the content begins with a blank, a space or a tab.
pub fn is_continuation(content: &[u8]) -> bool
    ensures { result ≡ continues content.now }
{
    match content {
        [first, ..] => is_blank(*first),
        [] => false,
    }
}

/// Whether the content begins with `From ` and is no field start.
pub fn is_from_line(content: &[u8]) -> bool
    ensures { result ≡ is_from content.now }
{
    content.starts_with(b"From ") && name_len(content).is_none()
}

/// Whether the byte is a blank, a space or a tab.
pub fn is_blank(byte: u8) -> bool
    ensures { result ≡ blank byte }
{
    byte == SPACE || byte == TAB
}

/// How many blanks the bytes begin with.
pub fn leading_blanks(bytes: &[u8]) -> usize
    ensures front { result ≡ prefix_len blank bytes.now }
    ensures within { result ≤ length bytes.now }
{
    bytes.iter().take_while(|byte| is_blank(**byte)).count()
}

// Whether blanks or none and then a colon stand at the start.
fn opens_value(content: &[u8]) -> bool
    ensures { result ≡ is_past_blanks_colon content.now }
{
    let blanks = leading_blanks(content);
    blanks < content.len() && content[blanks] == COLON
}
