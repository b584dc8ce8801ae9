//! Comments of structured values, and what stands between them, as encoded words (RFC 5322, 3.2.2; RFC 2047, 5).

ghost use Rattle.std.specs.Prelude.{◌≡◌, ◌≢◌, ◌<◌, ◌≤◌, ◌++◌, ◌∷◌, if◌then◌else◌, [], Some, None, false, length, IfOk, OnOk};
ghost use Rattle.std.specs.List.{prefix_len};
ghost use Rattle.std.specs.Option.{option_map};
ghost use Rattle.mk_line.specs.Lines.{is_nil};
ghost use Rattle.mk_head.specs.Values.{Plain};
ghost use Rattle.mk_mail.specs.Prepended.{is_break as breaks, is_white as white};
ghost use Rattle.mk_wording.specs.Stretches.{are_ascii as all_ascii, comment_of, comment_said as said_by_comment, indent as indent_of, name_said as said_by_name, stretches, unindented as text_after_indent, worded_comment as comment_in_words, worded_name as name_in_words, worded_outside as outside_in_words, worded_text as text_in_words};
ghost use Rattle.mk_wording.specs.inner.StretchViews.{stretch_of, stretches_after};

use crate::scanning::{comment_end, mark_place};
use mk_code::words_encode;
use mk_line::{Ending, is_blank, trimmed};
use mk_mail::text_for_words;
use std::alloc::{AllocError, Global};

/// What begins a comment.
const OPENING: &[u8; 1] = b"(";

const QUOTE: u8 = b'"';

const BACKSLASH: u8 = b'\\';

const LINE_FEED: u8 = b'\n';

const CARRIAGE_RETURN: u8 = b'\r';

const SPACE: u8 = b' ';

/// What stands outside the comments of a text.
#[derive(Clone, Copy, Debug, PartialEq, Eq)]
pub(crate) enum Outside {
    /// Names, which can be encoded words.
    Names,
    /// What has to be ASCII.
    Ascii,
}

/// Bytes outside comments, and the comment after them.
#[derive(Clone, Copy)]
pub(crate) struct Stretch<'a> {
    pub(crate) outside: &'a [u8],
    /// The parenthesis of the comment; nothing where there is no comment.
    pub(crate) begin: &'a [u8],
    pub(crate) inside: &'a [u8],
    /// Its closing parenthesis; nothing where it has none.
    pub(crate) end: &'a [u8],
}

/// The first stretch of a text, and what stands after it.
pub(crate) fn first_stretch(text: &[u8]) -> (Stretch<'_>, &[u8])
    ensures is { stretches Plain text.now ≡ stretch_of result.0 ∷ stretches_after result.0.end.now result.1.now }
    ensures less { 0 < length result.0.end.now → length result.1.now < length text.now }
{
    let (outside, comment) = text.split_at(mark_place(text, OPENING));
    let (begin, holds) = comment.split_at(first_len(comment));
    let (inside, closing) = holds.split_at(comment_end(holds));
    let (end, rest) = closing.split_at(first_len(closing));
    (
        Stretch {
            outside,
            begin,
            inside,
            end,
        },
        rest,
    )
}

// How many bytes the first byte of a text has: none where there is none.
fn first_len(text: &[u8]) -> usize
    ensures is { result ≡ (if is_nil text.now then 0 else 1) }
    ensures within { result ≤ length text.now }
{
    if text.is_empty() { 0 } else { 1 }
}

/// A text in encoded words, where it needs them, with `eol` between two: its names and comments, or its comments alone. `None`
/// where other bytes aren't ASCII.
pub(crate) fn worded_text(
    alloc: Global,
    text: &[u8],
    which: Outside,
    eol: Ending,
) -> Result<Option<Vec<u8>>, AllocError>
    requires { eol ≢ Ending.Missing }
    ensures { IfOk result (λ worded. option_map (λ v. v.items) worded ≡ text_in_words which eol text.now) }
{
    let mut worded = Vec::new(alloc);
    let mut rest = text;
    'stretches: loop {
        let (stretch, more) = first_stretch(rest);
        match worded_outside(alloc, stretch.outside, which, eol)? {
            Some(outside) => worded.extend_from_slice(&outside)?,
            None => return Ok(None),
        }
        push_comment(alloc, &mut worded, stretch, eol)?;
        if stretch.end.is_empty() {
            return Ok(Some(worded));
        }
        rest = more;
    }
}

// Bytes outside comments in encoded words, where they need them.
fn worded_outside(
    alloc: Global,
    bytes: &[u8],
    which: Outside,
    eol: Ending,
) -> Result<Option<Vec<u8>>, AllocError>
    requires { eol ≢ Ending.Missing }
    ensures { IfOk result (λ worded. option_map (λ v. v.items) worded ≡ outside_in_words which eol bytes.now) }
{
    match which {
        Outside::Names => Ok(Some(worded_name(alloc, bytes, eol)?)),
        Outside::Ascii => kept(alloc, bytes),
    }
}

// The bytes, where they are ASCII.
fn kept(alloc: Global, bytes: &[u8]) -> Result<Option<Vec<u8>>, AllocError>
    ensures { IfOk result (λ kept. option_map (λ v. v.items) kept ≡ if all_ascii bytes.now then Some bytes.now else None) }
{
    if are_ascii(bytes) {
        Ok(Some(Vec::from_slice(alloc, bytes)?))
    } else {
        Ok(None)
    }
}

pub(crate) fn are_ascii(bytes: &[u8]) -> bool
    ensures { result ≡ all_ascii bytes.now }
{
    bytes.iter().all(|byte| byte.is_ascii())
}

/// Writes the comment of a stretch after a text, in encoded words, where it needs them.
pub(crate) fn push_comment(
    alloc: Global,
    text: &mut Vec<u8>,
    stretch: Stretch<'_>,
    eol: Ending,
) -> Result<(), AllocError>
    requires { eol ≢ Ending.Missing }
    ensures { OnOk result (text.new.items ≡ text.old.items ++ comment_of eol (stretch_of stretch.entry)) }
{
    text.extend_from_slice(stretch.begin)?;
    text.extend_from_slice(&worded_comment(alloc, stretch.inside, eol)?)?;
    text.extend_from_slice(stretch.end)
}

// What a comment holds in encoded words, where it needs them.
fn worded_comment(alloc: Global, inside: &[u8], eol: Ending) -> Result<Vec<u8>, AllocError>
    requires { eol ≢ Ending.Missing }
    ensures { IfOk result (λ worded. worded.items ≡ comment_in_words eol inside.now) }
{
    match text_for_words(&comment_said(alloc, inside)?) {
        Some(said) => words_encode(alloc, said, eol),
        None => Vec::from_slice(alloc, inside),
    }
}

// A name in encoded words, where it needs them.
fn worded_name(alloc: Global, name: &[u8], eol: Ending) -> Result<Vec<u8>, AllocError>
    requires { eol ≢ Ending.Missing }
    ensures { IfOk result (λ worded. worded.items ≡ name_in_words eol name.now) }
{
    let (white, text) = split_indent(name);
    match text_for_words(&name_said(alloc, trimmed(text))?) {
        Some(said) => {
            let mut worded = Vec::from_slice(alloc, white)?;
            worded.extend_from_slice(&words_encode(alloc, said, eol)?)?;
            worded.push(SPACE)?;
            Ok(worded)
        }
        None => Vec::from_slice(alloc, name),
    }
}

/// The white space at the start of a text, and what stands after it.
pub(crate) fn split_indent(text: &[u8]) -> (&[u8], &[u8])
    ensures white { result.0.now ≡ indent_of text.now }
    ensures rest { result.1.now ≡ text_after_indent text.now }
{
    text.split_at(leading_white(text))
}

fn leading_white(text: &[u8]) -> usize
    ensures front { result ≡ prefix_len white text.now }
    ensures within { result ≤ length text.now }
{
    text.iter().take_while(|byte| is_white(**byte)).count()
}

/// White space, also of a fold.
pub(crate) fn is_white(byte: u8) -> bool
    ensures { result ≡ white byte }
{
    is_blank(byte) || is_break(byte)
}

fn is_break(byte: u8) -> bool
    ensures { result ≡ breaks byte }
{
    byte == CARRIAGE_RETURN || byte == LINE_FEED
}

/// What a name says, without quotes, backslashes and folds.
pub(crate) fn name_said(alloc: Global, name: &[u8]) -> Result<Vec<u8>, AllocError>
    ensures { IfOk result (λ said. said.items ≡ said_by_name false name.now) }
{
    let mut said = Vec::new(alloc);
    let mut is_escaped = false;
    for byte in name {
        if is_escaped {
            said.push(*byte)?;
            is_escaped = false;
        } else if *byte == BACKSLASH {
            is_escaped = true;
        } else if *byte != QUOTE && !is_break(*byte) {
            said.push(*byte)?;
        }
    }
    Ok(said)
}

// What a comment says, without backslashes and folds.
fn comment_said(alloc: Global, inside: &[u8]) -> Result<Vec<u8>, AllocError>
    ensures { IfOk result (λ said. said.items ≡ said_by_comment false inside.now) }
{
    let mut said = Vec::new(alloc);
    let mut is_escaped = false;
    for byte in inside {
        if is_escaped {
            said.push(*byte)?;
            is_escaped = false;
        } else if *byte == BACKSLASH {
            is_escaped = true;
        } else if !is_break(*byte) {
            said.push(*byte)?;
        }
    }
    Ok(said)
}
