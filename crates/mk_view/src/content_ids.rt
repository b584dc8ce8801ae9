//! The ids of sections (RFC 2045, 7).
ghost use Rattle.std.specs.Prelude.{◌≡◌, ◌+◌, ◌^◌, ◌<◌, ◌≤◌, IfOk};
ghost use Rattle.std.specs.Option.{option_map};
ghost use Rattle.mk_head.specs.Depths.{depth_of};
ghost use Rattle.mk_head.specs.Values.{Comment, Plain, out_of, stripped};
ghost use Rattle.mk_line.specs.Parting.{before as before_mark};
ghost use Rattle.mk_view.specs.ContentIds.{content_id as id_of_section, id_in as id_of, past_less as past_less_than, scan_past};
ghost use Rattle.mk_view.specs.inner.Standings.{standing_of};

use mk_line::{leading_blanks, split_at_first, trimmed};
use mk_tree::Section;
use std::alloc::{AllocError, Global};

/// What stands around an id (RFC 5322, 3.6.4).
const LESS_THAN: u8 = b'<';

const GREATER_THAN: u8 = b'>';

/// What stands around a comment, and before a byte of one that stands for itself (RFC 5322, 3.2.1 and 3.2.2).
const OPENING: u8 = b'(';

const CLOSING: u8 = b')';

const BACKSLASH: u8 = b'\\';

/// The id that the first Content-ID of a section says, without its angle brackets, as a URL has it (RFC 2045, 7; RFC 2392).
/// `None` where there is no such field, or its id is empty. A value without brackets is the id as it is (own).
pub fn content_id(alloc: Global, section: &Section<'_>) -> Result<Option<Vec<u8>>, AllocError>
    ensures { IfOk result (λ id. option_map (λ i. i.items) id ≡ id_of_section section.now) }
{
    let Some(value) = section.value(alloc, b"Content-ID")? else {
        return Ok(None);
    };
    let id = id_in(&value);
    if id.is_empty() {
        Ok(None)
    } else {
        Ok(Some(Vec::from_slice(alloc, id)?))
    }
}

// The id in a value.
fn id_in(value: &[u8]) -> &[u8]
    ensures { result.now ≡ id_of value.now }
{
    match past_less(value) {
        Some(rest) => strip(before_greater(rest)),
        None => strip(value),
    }
}

// Without the blanks at both ends.
fn strip(text: &[u8]) -> &[u8]
    ensures { result.now ≡ stripped text.now }
{
    trimmed(&text[leading_blanks(text)..])
}

// What stands before the first `>`.
fn before_greater(text: &[u8]) -> &[u8]
    ensures { result.now ≡ before_mark 62 text.now }
{
    match split_at_first(text, GREATER_THAN) {
        Some((before, _)) => before,
        None => text,
    }
}

// What follows the first `<` outside comments.
fn past_less(value: &[u8]) -> Option<&[u8]>
    ensures { option_map (λ rest. rest.now) result ≡ past_less_than Plain value.now }
{
    let mut standing = Standing::Outside;
    for (place, byte) in value.iter().enumerate() {
        if standing.is_outside() && *byte == LESS_THAN {
            return Some(&value[place + 1..]);
        }
        standing = standing.next(*byte);
    }
    None
}

/// Where a byte before an id stands. A comment has the number of comments around it.
#[derive(Clone, Copy)]
enum Standing {
    Outside,
    Comment(usize),
    Escaped(usize),
}

impl Standing {
    ghost use Rattle.std.specs.Prelude.{◌≡◌, ◌+◌, ◌^◌, ◌<◌, ◌≤◌};
    ghost use Rattle.mk_head.specs.Depths.{depth_of};
    ghost use Rattle.mk_head.specs.Values.{is_plain};
    ghost use Rattle.mk_view.specs.ContentIds.{scan_past};
    ghost use Rattle.mk_view.specs.inner.Standings.{standing_of};

    fn is_outside(self) -> bool
        ensures { result ≡ is_plain (standing_of self) }
    {
        match self {
            Standing::Outside => true,
            Standing::Comment(_) | Standing::Escaped(_) => false,
        }
    }

    // Where the byte after this one stands.
    fn next(self, byte: u8) -> Standing
        requires { depth_of (standing_of self) + 1 < 2 ^ 64 }
        ensures is { standing_of result ≡ scan_past (standing_of self) byte }
        ensures depth { depth_of (standing_of result) ≤ depth_of (standing_of self) + 1 }
    {
        match self {
            Standing::Outside => outside(byte),
            Standing::Comment(depth) => in_comment(byte, depth),
            Standing::Escaped(depth) => Standing::Comment(depth),
        }
    }
}

fn outside(byte: u8) -> Standing
    ensures is { standing_of result ≡ scan_past Plain byte }
    ensures depth { depth_of (standing_of result) ≤ 1 }
{
    if byte == OPENING {
        Standing::Comment(0)
    } else {
        Standing::Outside
    }
}

fn in_comment(byte: u8, depth: usize) -> Standing
    requires { depth + 1 < 2 ^ 64 }
    ensures is { standing_of result ≡ scan_past (Comment depth) byte }
    ensures depth { depth_of (standing_of result) ≤ depth + 2 }
{
    match byte {
        BACKSLASH => Standing::Escaped(depth),
        OPENING => Standing::Comment(depth + 1),
        CLOSING => outer(depth),
        _ => Standing::Comment(depth),
    }
}

// After the end of a comment.
fn outer(depth: usize) -> Standing
    ensures is { standing_of result ≡ out_of depth }
    ensures depth { depth_of (standing_of result) ≤ depth }
{
    if depth == 0 {
        Standing::Outside
    } else {
        Standing::Comment(depth - 1)
    }
}
