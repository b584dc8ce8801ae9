//! Base64 as a transfer encoding (RFC 2045, 6.8).
ghost use Rattle.std.specs.Prelude.{◌≡◌, ◌≢◌, ◌<◌, ◌≤◌, ◌==◌, ◌++◌, ◌%◌, [], length, not, filter, take, take_while, IfOk, IfErr, OnErr, OnOk};
ghost use Rattle.std.specs.List.{prefix_len};
ghost use Rattle.base64.specs.GeneralPurpose.{encode_of};
ghost use Rattle.base64.specs.Engines.{standard};
ghost use Rattle.mk_line.specs.Ascii.{equals_sign};
ghost use Rattle.mk_code.specs.Base64Text.{IsBase64Of, letters as letters_of, base64_encoded, lined, is_letter as letter};
ghost use Rattle.mk_code.specs.OutputLines.{widest};
ghost use Rattle.mk_code.specs.Contents.{IsRefused};
ghost use Rattle.mk_code.specs.inner.Decoded.{HasDecoded, EncodesNone, IsUngrouped};
ghost use Rattle.mk_line.specs.inner.Kept.{IsKept};
ghost use Rattle.mk_code.specs.inner.Strays.{is_stray};
ghost use Rattle.mk_head.specs.declared.encodings.Encoding.TheVariants.{Base64};

use crate::decoding::{CodeError, make_room};
use crate::lanes::{Letters, Strays};
use base64::DecodeAllocError;
use base64::engine::general_purpose::{STANDARD, STANDARD_NO_PAD};
use mk_line::lanes::{ByteClass, run_of};
use mk_line::{Ending, split_at_first};
use std::alloc::{AllocError, Global};

const EQUALS: u8 = b'=';

/// The most characters of a line.
const WIDEST: usize = 76;

/// How many bytes they stand for.
const LINE_BYTES: usize = 57;

/// How many lines are encoded at once, and their bytes.
const LINES: usize = 32;

const LINES_BYTES: usize = LINES * LINE_BYTES;

/// The letters of a group, and the bytes that they stand for.
const GROUP: usize = 4;

const GROUP_BYTES: usize = 3;

/// How many bytes of a text are decoded at once.
const BLOCK: usize = 16_384;

/// Padded base64 in lines of 76 characters, with the ending between two lines and none after the last.
pub fn b64_encode(alloc: Global, bytes: &[u8], eol: Ending) -> Result<Vec<u8>, AllocError>
    requires { eol ≢ Ending.Missing }
    ensures { IfOk result (λ text. text.items ≡ base64_encoded eol bytes.now) }
{
    let mut text = Vec::new(alloc);
    push_b64(&mut text, bytes, eol)?;
    Ok(text)
}

/// Appends what `b64_encode` gives to a text. After an error the text is as before.
pub fn push_b64(text: &mut Vec<u8>, bytes: &[u8], eol: Ending) -> Result<(), AllocError>
    requires { eol ≢ Ending.Missing }
    ensures appended { OnOk result (text.new.items ≡ text.old.items ++ base64_encoded eol bytes.now) }
    ensures unchanged { OnErr result (text.new.items ≡ text.old.items) }
{
    let size = text.len();
    let pushed = push_blocks(text, bytes, eol);
    if pushed.is_err() {
        text.truncate(size);
    }
    pushed
}

// The same, encoded block by block; after an error more may follow the text.
fn push_blocks(text: &mut Vec<u8>, bytes: &[u8], eol: Ending) -> Result<(), AllocError>
    requires { eol ≢ Ending.Missing }
    ensures appended { OnOk result (text.new.items ≡ text.old.items ++ base64_encoded eol bytes.now) }
    ensures kept { IsKept text.old.items text.new.items }
{
    let ending = eol.bytes();
    text.reserve(room(bytes, ending))?;
    let mut letters = [0u8; LINES * WIDEST];
    let mut rest = bytes;
    while rest.len() > LINES_BYTES {
        let (block, more) = rest.split_at(LINES_BYTES);
        let size = write_letters(block, &mut letters);
        push_lines(text, &letters[..size], ending)?;
        text.extend_from_slice(ending)?;
        rest = more;
    }
    let last = write_letters(rest, &mut letters);
    push_lines(text, &letters[..last], ending)
}

// The length of the lines that bytes become, with the ending between two.
fn room(bytes: &[u8], ending: &[u8]) -> usize
    requires { length ending.now ≤ 2 }
    ensures { result ≡ length (lined ending.now widest (encode_of standard bytes.now)) }
{
    let letters = bytes.len().div_ceil(GROUP_BYTES) * GROUP;
    let endings = letters.saturating_sub(1) / WIDEST;
    letters + endings * ending.len()
}

// Writes the letters of up to `LINES` lines, and gives their count.
fn write_letters(block: &[u8], letters: &mut [u8]) -> usize
    requires few { length block.now ≤ 1824 }
    requires room { length letters.old ≡ 2432 }
    ensures within { result ≤ length letters.new }
    ensures letters { take result letters.new ≡ encode_of standard block.now }
{
    match STANDARD.encode_slice(block, letters) {
        Ok(size) => size,
        Err(_) => unreachable!(),
    }
}

// Appends letters in lines, with the ending between two.
fn push_lines(text: &mut Vec<u8>, letters: &[u8], ending: &[u8]) -> Result<(), AllocError>
    ensures appended { OnOk result (text.new.items ≡ text.old.items ++ lined ending.now widest letters.now) }
    ensures kept { IsKept text.old.items text.new.items }
{
    let mut rest = letters;
    while rest.len() > WIDEST {
        let (line, more) = rest.split_at(WIDEST);
        text.extend_from_slice(line)?;
        text.extend_from_slice(ending)?;
        rest = more;
    }
    text.extend_from_slice(rest)
}

/// Puts the bytes whose encoding the letters before the first `=` are in the place of those that `out` holds. They are decoded
/// block by block, so that no second text of letters is kept.
pub(crate) fn decode(out: &mut Vec<u8>, text: &[u8]) -> Result<(), CodeError>
    ensures content { OnOk result (IsBase64Of text.now out.new.items) }
    ensures refused { IfErr result (λ error. IsRefused Base64 text.now error) }
{
    let alloc = *out.allocator();
    let mut rest = before_equals(text);
    make_room(out, rest.len() / GROUP * GROUP_BYTES + 2 * GROUP_BYTES)?;
    let mut found = Vec::with_capacity(alloc, GROUP + BLOCK.min(rest.len()))?;
    'each: while !rest.is_empty() {
        let (front, following) = rest.split_at(BLOCK.min(rest.len()));
        gather(&mut found, front)?;
        match decode_groups(out, &mut found) {
            Ok(()) => rest = following,
            Err(error) => return Err(error),
        }
    }
    match push_decoded(out, &found) {
        Ok(()) => {
            give_back(out);
            Ok(())
        }
        Err(error) => Err(error),
    }
}

// Gives back most of the room where few bytes came of a long text. A text of letters and line endings keeps its room, so that
// its bytes aren't copied once more.
fn give_back(out: &mut Vec<u8>)
    ensures { out.new.items ≡ out.old.items }
{
    if (out.capacity() / 2).saturating_sub(out.len()) > BLOCK {
        out.shrink_to_fit();
    }
}

// Decodes the whole groups of letters, and leaves the others.
fn decode_groups(out: &mut Vec<u8>, found: &mut Vec<u8>) -> Result<(), CodeError>
    requires { length out.old.items % 3 ≡ 0 }
    ensures ok { OnOk result (HasDecoded out.old.items found.old.items out.new.items found.new.items) }
    ensures err { IfErr result (λ error. IsUngrouped found.old.items error) }
    ensures whole { OnOk result (length out.new.items % 3 ≡ 0) }
{
    let whole = found.len() / GROUP * GROUP;
    if let Err(error) = push_decoded(out, &found[..whole]) {
        return Err(error);
    }
    let size = found.len();
    found.copy_within(whole..size, 0);
    found.truncate(size - whole);
    Ok(())
}

// Appends the bytes whose encoding letters are.
pub(crate) fn push_decoded(out: &mut Vec<u8>, found: &[u8]) -> Result<(), CodeError>
    ensures ok { OnOk result (HasDecoded out.old.items found.now out.new.items []) }
    ensures err { IfErr result (λ error. EncodesNone found.now error) }
{
    match STANDARD_NO_PAD.decode_vec(found, out) {
        Ok(()) => Ok(()),
        Err(DecodeAllocError::OutOfMemory) => Err(CodeError::Memory),
        Err(DecodeAllocError::DecodeError(_)) => Err(CodeError::BadBase64),
    }
}

/// The letters before the first `=`.
pub(crate) fn letters(alloc: Global, text: &[u8]) -> Result<Vec<u8>, AllocError>
    ensures { IfOk result (λ found. found.items ≡ letters_of text.now) }
{
    let front = before_equals(text);
    let mut out = Vec::with_capacity(alloc, front.len())?;
    gather(&mut out, front)?;
    Ok(out)
}

// Appends the letters of a text.
fn gather(out: &mut Vec<u8>, text: &[u8]) -> Result<(), AllocError>
    ensures { OnOk result (out.new.items ≡ out.old.items ++ filter letter text.now) }
{
    let mut rest = text;
    while !rest.is_empty() {
        let (run, following) = split_letters(rest);
        out.extend_from_slice(run)?;
        rest = following;
    }
    Ok(())
}

/// What comes before the first `=`.
pub(crate) fn before_equals(text: &[u8]) -> &[u8]
    ensures { result.now ≡ take_while (λ byte. not (byte == equals_sign)) text.now }
{
    match split_at_first(text, EQUALS) {
        Some((front, _)) => front,
        None => text,
    }
}

// The letters at the start, and what follows the stray bytes after them.
fn split_letters(text: &[u8]) -> (&[u8], &[u8])
    requires { 0 < length text.now }
    ensures letters { filter letter text.now ≡ result.0.now ++ filter letter result.1.now }
    ensures less { length result.1.now < length text.now }
{
    let (run, rest) = text.split_at(run_of::<Letters>(text));
    match rest {
        [_, following @ ..] => (run, after_strays(following)),
        [] => (run, rest),
    }
}

// What follows the stray bytes at the start. Most often none is there, so the first byte is looked at by itself.
fn after_strays(text: &[u8]) -> &[u8]
    ensures letters { filter letter result.now ≡ filter letter text.now }
    ensures less { length result.now ≤ length text.now }
{
    match text {
        [byte, ..] if !Letters::has(*byte) => &text[run_of::<Strays>(text)..],
        _ => text,
    }
}
