//! Comments and quoted strings of structured values (RFC 2045, 5.1).
ghost use Rattle.std.specs.Prelude.{◌≡◌, ◌+◌, ◌^◌, ◌<◌, ◌≤◌, length, take, drop, false, IfOk};
ghost use Rattle.mk_head.specs.Values.{Plain, Quoted, Comment, out_of, scan as scanned, uncommented, unquoted};
ghost use Rattle.mk_head.specs.ValueViews.{scan_of};
ghost use Rattle.mk_head.specs.Depths.{depth_of, first_piece, other_pieces, pieces_after};

use memchr::{memchr, memchr3};
use std::alloc::{AllocError, Global};

pub(crate) const QUOTE: u8 = b'"';

pub(crate) const OPENING: u8 = b'(';

const CLOSING: u8 = b')';

const SEMICOLON: u8 = b';';

const BACKSLASH: u8 = b'\\';

/// Where a byte of a value stands. A comment has the number of comments around it.
#[derive(Clone, Copy, Debug, PartialEq, Eq)]
pub enum Scan {
    Plain,
    Quoted,
    QuotedEscaped,
    Comment(usize),
    CommentEscaped(usize),
}

impl Scan {
    ghost use Rattle.std.specs.Prelude.{◌≡◌, ◌+◌, ◌^◌, ◌<◌, ◌≤◌};
    ghost use Rattle.mk_head.specs.Values.{is_kept, is_plain as stands_plain, scan as scanned};
    ghost use Rattle.mk_head.specs.ValueViews.{scan_of};
    ghost use Rattle.mk_head.specs.Depths.{depth_of};

    /// Where the byte after this one stands.
    pub fn next(self, byte: u8) -> Scan
        requires { depth_of (scan_of self) + 1 < 2 ^ 64 }
        ensures is { scan_of result ≡ scanned (scan_of self) byte }
        ensures depth { depth_of (scan_of result) ≤ depth_of (scan_of self) + 1 }
    {
        match self {
            Scan::Plain => outside(byte),
            Scan::Quoted => in_quotes(byte),
            Scan::QuotedEscaped => Scan::Quoted,
            Scan::Comment(depth) => in_comment(byte, depth),
            Scan::CommentEscaped(depth) => Scan::Comment(depth),
        }
    }

    /// Whether the byte is part of no comment.
    pub fn keeps(self, byte: u8) -> bool
        ensures { result ≡ is_kept (scan_of self) byte }
    {
        match self {
            Scan::Plain => byte != OPENING,
            Scan::Quoted | Scan::QuotedEscaped => true,
            Scan::Comment(_) | Scan::CommentEscaped(_) => false,
        }
    }

    /// Whether the byte stands outside comments and quoted strings.
    pub fn is_plain(self) -> bool
        ensures { result ≡ stands_plain (scan_of self) }
    {
        match self {
            Scan::Plain => true,
            _ => false,
        }
    }
}

fn outside(byte: u8) -> Scan
    ensures { scan_of result ≡ scanned Plain byte }
{
    match byte {
        QUOTE => Scan::Quoted,
        OPENING => Scan::Comment(0),
        _ => Scan::Plain,
    }
}

fn in_quotes(byte: u8) -> Scan
    ensures { scan_of result ≡ scanned Quoted byte }
{
    match byte {
        BACKSLASH => Scan::QuotedEscaped,
        QUOTE => Scan::Plain,
        _ => Scan::Quoted,
    }
}

fn in_comment(byte: u8, depth: usize) -> Scan
    requires { depth + 1 < 2 ^ 64 }
    ensures is { scan_of result ≡ scanned (Comment depth) byte }
    ensures depth { depth_of (scan_of result) ≤ depth + 2 }
{
    match byte {
        BACKSLASH => Scan::CommentEscaped(depth),
        OPENING => Scan::Comment(depth + 1),
        CLOSING => outer(depth),
        _ => Scan::Comment(depth),
    }
}

// After the end of a comment.
fn outer(depth: usize) -> Scan
    ensures is { scan_of result ≡ out_of depth }
    ensures depth { depth_of (scan_of result) ≤ depth }
{
    if depth == 0 {
        Scan::Plain
    } else {
        Scan::Comment(depth - 1)
    }
}

/// The value without its comments.
pub fn uncomment(alloc: Global, value: &[u8]) -> Result<Vec<u8>, AllocError>
    ensures { IfOk result (λ text. text.items ≡ uncommented Plain value.now) }
{
    match memchr(OPENING, value) {
        None => Ok(Vec::from_slice(alloc, value)?),
        Some(_) => without_comments(alloc, value),
    }
}

// The same, byte by byte.
fn without_comments(alloc: Global, value: &[u8]) -> Result<Vec<u8>, AllocError>
    ensures { IfOk result (λ text. text.items ≡ uncommented Plain value.now) }
{
    let mut text = Vec::with_capacity(alloc, value.len())?;
    let mut scan = Scan::Plain;
    for byte in value {
        if scan.keeps(*byte) {
            text.push(*byte)?;
        }
        scan = scan.next(*byte);
    }
    Ok(text)
}

/// Where the first piece of a text ends: at the first semicolon outside quoted strings, or at the end.
pub fn piece_end(text: &[u8]) -> usize
    ensures within { result ≤ length text.now }
    ensures front { first_piece Plain text.now ≡ take result text.now }
    ensures rest { other_pieces Plain text.now ≡ pieces_after (drop result text.now) }
{
    match memchr3(QUOTE, OPENING, SEMICOLON, text) {
        None => text.len(),
        Some(place) => {
            if text[place] == SEMICOLON {
                place
            } else {
                place + scanned_end(&text[place..])
            }
        }
    }
}

// The same, byte by byte.
fn scanned_end(text: &[u8]) -> usize
    ensures within { result ≤ length text.now }
    ensures front { first_piece Plain text.now ≡ take result text.now }
    ensures rest { other_pieces Plain text.now ≡ pieces_after (drop result text.now) }
{
    let mut scan = Scan::Plain;
    for (place, byte) in text.iter().enumerate() {
        if scan.is_plain() && *byte == SEMICOLON {
            return place;
        }
        scan = scan.next(*byte);
    }
    text.len()
}

/// A quoted string from after its opening quote on, up to its closing quote, each backslash replaced by the byte
/// after it.
pub fn unquote(alloc: Global, text: &[u8]) -> Result<Vec<u8>, AllocError>
    ensures { IfOk result (λ value. value.items ≡ unquoted false text.now) }
{
    let mut value = Vec::new(alloc);
    let mut is_escaped = false;
    for byte in text {
        if is_escaped {
            value.push(*byte)?;
            is_escaped = false;
        } else if *byte == QUOTE {
            break;
        } else if *byte == BACKSLASH {
            is_escaped = true;
        } else {
            value.push(*byte)?;
        }
    }
    Ok(value)
}
