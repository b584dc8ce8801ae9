//! Lines of bodies, of the kinds that messages have.
ghost use Rattle.std.specs.Prelude.{◌<◌};

use crate::random::Random;
use std::alloc::{AllocError, Global};

const LOWER_CASE: &[u8; 26] = b"abcdefghijklmnopqrstuvwxyz";

const BASE64: &[u8; 64] = b"ABCDEFGHIJKLMNOPQRSTUVWXYZabcdefghijklmnopqrstuvwxyz0123456789+/";

const STRAY: &[u8; 8] = b" \t-.:!*\x80";

/// How long a line of text may be.
const TEXT_WIDTH: usize = 68;

/// What lines are of.
#[derive(Clone, Copy, Debug)]
pub enum Lines {
    /// Base64, this many letters each.
    Base64(usize),
    /// Base64 with blank lines and stray bytes.
    StrayBase64,
    /// Quoted-printable, about half with a soft ending.
    Qp,
    /// Words.
    Text,
    /// Words of which some bytes are above 127.
    Wide,
    /// Lines that begin as a delimiter does.
    Dashed,
    /// From-lines, many of them after an empty line.
    FromLines,
    /// Bytes of any kind, with hardly a line ending.
    Binary,
}

/// Appends a word of lower-case letters, at most this many.
pub fn push_word(random: &mut Random, text: &mut Vec<u8>, most: usize) -> Result<(), AllocError>
    requires { 0 < most }
{
    for _ in 0..=random.below(most) {
        text.push(random.of(LOWER_CASE))?;
    }
    Ok(())
}

/// Appends words and blanks, about this many bytes.
pub fn push_words(random: &mut Random, text: &mut Vec<u8>, width: usize) -> Result<(), AllocError> {
    for _ in 0..width / 6 {
        push_word(random, text, 9)?;
        text.push(b' ')?;
    }
    push_word(random, text, 9)
}

/// Appends letters of base64.
pub fn push_letters(
    random: &mut Random,
    text: &mut Vec<u8>,
    count: usize,
) -> Result<(), AllocError> {
    for _ in 0..count {
        text.push(random.of(BASE64))?;
    }
    Ok(())
}

fn push_stray(random: &mut Random, text: &mut Vec<u8>) -> Result<(), AllocError> {
    match random.below(8) {
        0 => return Ok(()),
        1 => text.push(random.of(STRAY))?,
        2 => text.extend_from_slice(b"    ")?,
        _ => {}
    }
    push_letters(random, text, 36)?;
    if random.is_in(30) {
        text.push(random.of(STRAY))?;
    }
    push_letters(random, text, 36)
}

fn push_qp(random: &mut Random, text: &mut Vec<u8>) -> Result<(), AllocError> {
    for _ in 0..8 {
        push_word(random, text, 7)?;
        match random.below(6) {
            0 => text.extend_from_slice(b"=C3=A9")?,
            1 => text.extend_from_slice(b"=20")?,
            _ => text.push(b' ')?,
        }
    }
    push_word(random, text, 9)?;
    if random.is_in(50) {
        text.push(b'=')?;
    }
    Ok(())
}

fn push_text(random: &mut Random, text: &mut Vec<u8>) -> Result<(), AllocError> {
    match random.below(40) {
        0..3 => Ok(()),
        3 => text.extend_from_slice(b"-- "),
        4..9 => {
            text.extend_from_slice(b"> ")?;
            push_words(random, text, TEXT_WIDTH)
        }
        _ => {
            let width = random.below(TEXT_WIDTH);
            push_words(random, text, width)
        }
    }
}

fn push_wide(random: &mut Random, text: &mut Vec<u8>) -> Result<(), AllocError> {
    for _ in 0..9 {
        push_word(random, text, 6)?;
        text.extend_from_slice("é ".as_bytes())?;
    }
    Ok(())
}

fn push_dashed(random: &mut Random, text: &mut Vec<u8>) -> Result<(), AllocError> {
    text.extend_from_slice(b"--=_bound")?;
    push_word(random, text, 12)?;
    if random.is_in(20) {
        text.extend_from_slice(b"--  ")?;
    }
    Ok(())
}

fn push_from(random: &mut Random, text: &mut Vec<u8>, eol: &[u8]) -> Result<(), AllocError> {
    if random.is_in(40) {
        text.extend_from_slice(eol)?;
    }
    text.extend_from_slice(b"From ")?;
    push_words(random, text, 30)
}

fn push_binary(random: &mut Random, text: &mut Vec<u8>) -> Result<(), AllocError> {
    for _ in 0..97 {
        text.push(random.below(256) as u8)?;
    }
    Ok(())
}

/// Appends a line with its ending.
pub fn push_line(
    random: &mut Random,
    text: &mut Vec<u8>,
    lines: Lines,
    eol: &[u8],
) -> Result<(), AllocError> {
    match lines {
        Lines::Base64(width) => push_letters(random, text, width)?,
        Lines::StrayBase64 => push_stray(random, text)?,
        Lines::Qp => push_qp(random, text)?,
        Lines::Text => push_text(random, text)?,
        Lines::Wide => push_wide(random, text)?,
        Lines::Dashed => push_dashed(random, text)?,
        Lines::FromLines => push_from(random, text, eol)?,
        Lines::Binary => return push_binary(random, text),
    }
    text.extend_from_slice(eol)
}

/// Whole lines, of at least this many bytes unless the lines are short.
pub fn lines_of(
    alloc: Global,
    random: &mut Random,
    lines: Lines,
    eol: &[u8],
    size: usize,
) -> Result<Vec<u8>, AllocError> {
    let mut text = Vec::with_capacity(alloc, size)?;
    for _ in 0..size {
        if text.len() >= size {
            break;
        }
        push_line(random, &mut text, lines, eol)?;
    }
    Ok(text)
}
