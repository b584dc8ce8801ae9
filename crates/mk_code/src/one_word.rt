//! Decoding one encoded word (RFC 2047, 2 to 4).
ghost use Rattle.std.specs.Prelude.{◌≡◌, ◌<◌, if◌then◌else◌, nat_lt, None, Some, length, IfOk, IfSome, MatchOption, option_map};
ghost use Rattle.std.specs.Str.{bytes_eq, is_utf8, str_to_ascii_lowercase};
ghost use Rattle.mk_line.specs.Ascii.{asterisk};
ghost use Rattle.mk_line.specs.Parting.{before};
ghost use Rattle.mk_code.specs.EncodedWords.{word_decoded, word_read, inner_decoded, text_bytes as bytes_of_text, b_text as b_bytes, q_text as q_bytes, put_before, is_padding as padding};

use crate::charsets::{in_utf8, is_named};
use crate::lanes::Letters;
use crate::qp_decoding::pair;
use base64::DecodeAllocError;
use base64::engine::general_purpose::STANDARD_NO_PAD;
use mk_line::lanes::run_of;
use mk_line::split_at_first;
use std::alloc::{AllocError, Global};

const ASTERISK: u8 = b'*';

const EQUALS: u8 = b'=';

const QUESTION_MARK: u8 = b'?';

const UNDERSCORE: u8 = b'_';

/// The first and the last part of an encoded word.
const EDGE: &[u8] = b"=";

/// The digits of a byte after its `=`.
const DIGITS: usize = 2;

/// Which encoded words are decoded.
#[derive(Clone, Copy)]
pub(crate) enum Readable {
    /// All that can be decoded.
    All,
    /// Those whose bytes are UTF-8.
    Texts,
}

/// The parts of a word that has the form of an encoded word.
#[derive(Clone, Copy)]
struct WordParts<'a> {
    charset: &'a [u8],
    name: &'a [u8],
    text: &'a [u8],
}

/// What a word stands for, where it is an encoded word and among those that are decoded.
pub(crate) fn read_word(
    alloc: Global,
    word: &[u8],
    which: Readable,
) -> Result<Option<Vec<u8>>, AllocError>
    ensures { IfOk result (λ found. option_map (λ bytes. bytes.items) found ≡ word_read which word.now) }
{
    let Some(bytes) = decode_word(alloc, word)? else {
        return Ok(None);
    };
    match which {
        Readable::All => Ok(Some(bytes)),
        Readable::Texts => Ok(only_text(bytes)),
    }
}

// The bytes, where they are UTF-8.
fn only_text(bytes: Vec<u8>) -> Option<Vec<u8>>
    ensures { option_map (λ bytes. bytes.items) result ≡ (if is_utf8 bytes.items then Some bytes.items else None) }
{
    if is_text(&bytes) { Some(bytes) } else { None }
}

/// Whether the bytes are UTF-8.
pub(crate) fn is_text(bytes: &[u8]) -> bool
    ensures { result ≡ is_utf8 bytes.now }
{
    match std::str::from_utf8(bytes) {
        Ok(_) => true,
        Err(_) => false,
    }
}

// What a word stands for in UTF-8, where it is an encoded word that can be decoded.
fn decode_word(alloc: Global, word: &[u8]) -> Result<Option<Vec<u8>>, AllocError>
    ensures { IfOk result (λ found. option_map (λ bytes. bytes.items) found ≡ word_decoded word.now) }
{
    let Some(parts) = split_word(word) else {
        return Ok(None);
    };
    match text_bytes(alloc, parts.name, parts.text)? {
        Some(bytes) => in_utf8(alloc, without_language(parts.charset), bytes),
        None => Ok(None),
    }
}

// The charset before an asterisk, which a language follows (RFC 2231, 5).
fn without_language(charset: &[u8]) -> &[u8]
    ensures { result.now ≡ before asterisk charset.now }
{
    match split_at_first(charset, ASTERISK) {
        Some((name, _)) => name,
        None => charset,
    }
}

// The five parts between question marks, of which the first and the last are `=`.
fn split_word(word: &[u8]) -> Option<WordParts<'_>>
    ensures { MatchOption result (word_decoded word.now ≡ None)
        (λ p. word_decoded word.now ≡ inner_decoded p.charset.now p.name.now p.text.now) }
{
    let (start, rest) = split_at_first(word, QUESTION_MARK)?;
    let (charset, rest) = split_at_first(rest, QUESTION_MARK)?;
    let (name, rest) = split_at_first(rest, QUESTION_MARK)?;
    let (text, end) = split_at_first(rest, QUESTION_MARK)?;
    if start == EDGE && end == EDGE {
        Some(WordParts {
            charset,
            name,
            text,
        })
    } else {
        None
    }
}

// The bytes of a text by the name of its encoding.
fn text_bytes(alloc: Global, name: &[u8], text: &[u8]) -> Result<Option<Vec<u8>>, AllocError>
    ensures { IfOk result (λ found. option_map (λ bytes. bytes.items) found
        ≡ bytes_of_text (str_to_ascii_lowercase name.now) text.now) }
{
    if is_named(name, b"b") {
        b_text(alloc, text)
    } else if is_named(name, b"q") {
        q_text(alloc, text)
    } else {
        Ok(None)
    }
}

// The bytes of base64's letters with padding or none after them.
fn b_text(alloc: Global, text: &[u8]) -> Result<Option<Vec<u8>>, AllocError>
    ensures { IfOk result (λ found. option_map (λ bytes. bytes.items) found ≡ b_bytes text.now) }
{
    let (front, tail) = text.split_at(run_of::<Letters>(text));
    if !is_padding(tail) {
        return Ok(None);
    }
    match STANDARD_NO_PAD.decode(alloc, front) {
        Ok(bytes) => Ok(Some(bytes)),
        Err(DecodeAllocError::OutOfMemory) => Err(AllocError),
        Err(DecodeAllocError::DecodeError(_)) => Ok(None),
    }
}

fn is_padding(tail: &[u8]) -> bool
    ensures { result ≡ padding tail.now }
{
    matches!(tail, [] | [EQUALS] | [EQUALS, EQUALS])
}

// The bytes of a text in the encoding Q.
fn q_text(alloc: Global, text: &[u8]) -> Result<Option<Vec<u8>>, AllocError>
    ensures { IfOk result (λ found. option_map (λ bytes. bytes.items) found ≡ q_bytes text.now) }
{
    let mut out = Vec::with_capacity(alloc, text.len())?;
    let mut rest = text;
    while !rest.is_empty() {
        let Some((byte, following)) = first_byte(rest) else {
            return Ok(None);
        };
        out.push(byte)?;
        rest = following;
    }
    Ok(Some(out))
}

// The first byte that a text in the encoding Q stands for, and what follows it.
fn first_byte(text: &[u8]) -> Option<(u8, &[u8])>
    requires { 0 < length text.now }
    ensures value { MatchOption result (q_bytes text.now ≡ None)
        (λ p. q_bytes text.now ≡ put_before p.0 (q_bytes p.1.now)) }
    ensures less { IfSome result (λ p. length p.1.now < length text.now) }
{
    match text {
        [EQUALS, following @ ..] => Some((pair(following)?, &following[DIGITS..])),
        [UNDERSCORE, following @ ..] => Some((b' ', following)),
        [byte @ b'!'..=b'~', following @ ..] => Some((*byte, following)),
        _ => None,
    }
}
