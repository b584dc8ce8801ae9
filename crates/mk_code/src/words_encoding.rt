//! Encoding a text as encoded words (RFC 2047, 2 and 5).
ghost use Rattle.std.specs.Prelude.{◌≡◌, ◌≢◌, ◌<◌, ◌≤◌, ◌++◌, ◌∷◌, [], take, drop, length, IfOk, IfSome, OnOk, MatchOption};
ghost use Rattle.std.specs.List.{prefix_len, list_all};
ghost use Rattle.std.specs.String.{string_bytes};
ghost use Rattle.mk_line.specs.Ascii.{space, equals_sign, question_mark};
ghost use Rattle.mk_line.specs.Lines.{ending_bytes};
ghost use Rattle.mk_code.specs.EncodedWords.{words_encoded, encoded_word, pieces, characters, is_continuation_byte as continues, is_shown as shown, stays as text_stays, has_pair};

use base64::engine::general_purpose::STANDARD;
use memchr::memmem;
use mk_line::Ending;
use std::alloc::{AllocError, Global};

/// The most bytes of a text that may stand as it is.
const LONGEST: usize = 200;

/// The most bytes of a text in one encoded word, which then has 72 characters.
const PIECE_ROOM: usize = 45;

const MARK: &[u8; 2] = b"=?";

/// The bytes of a character in UTF-8 after its first are these and all between.
const FIRST_CONTINUATION: u8 = 128;

const LAST_CONTINUATION: u8 = 191;

/// The text as the value of a field: as it is where it is short and printable and nothing in it begins like
/// an encoded word, and else as encoded words in UTF-8, each on a line of its own.
pub fn words_encode(alloc: Global, text: &str, eol: Ending) -> Result<Vec<u8>, AllocError>
    requires { eol ≢ Ending.Missing }
    ensures { IfOk result (λ value. value.items ≡ words_encoded eol text.now) }
{
    let bytes = text.as_bytes();
    if stays(bytes) {
        return Ok(Vec::from_slice(alloc, bytes)?);
    }
    let mut out = String::with_capacity(alloc, bytes.len().saturating_mul(2))?;
    let fold = folding(eol);
    let mut rest = bytes;
    while let Some((piece, following)) = split_piece(rest) {
        push_encoded_word(&mut out, piece)?;
        out.push_str(fold)?;
        rest = following;
    }
    push_encoded_word(&mut out, rest)?;
    Ok(out.into_bytes())
}

// Whether the text needs no encoded word.
fn stays(text: &[u8]) -> bool
    ensures { result ≡ text_stays text.now }
{
    text.len() <= LONGEST && are_shown(text) && !has_mark(text)
}

fn are_shown(text: &[u8]) -> bool
    ensures { result ≡ list_all shown text.now }
{
    text.iter().all(|byte| is_shown(*byte))
}

fn is_shown(byte: u8) -> bool
    ensures { result ≡ shown byte }
{
    byte >= b' ' && byte <= b'~'
}

fn has_mark(text: &[u8]) -> bool
    ensures { result ≡ has_pair equals_sign question_mark text.now }
{
    memmem::find(text, MARK).is_some()
}

// What stands between two encoded words.
fn folding(eol: Ending) -> &'static str
    ensures { result.now ≡ ending_bytes eol ++ space ∷ [] }
{
    match eol {
        Ending::Crlf => "\r\n ",
        Ending::Lf => "\n ",
        Ending::Missing => " ",
    }
}

// As many characters as fit in one encoded word, and what follows them, where anything does.
fn split_piece(text: &[u8]) -> Option<(&[u8], &[u8])>
    ensures pieces { MatchOption result (pieces (characters text.now) 0 ≡ text.now ∷ [])
        (λ p. pieces (characters text.now) 0 ≡ p.0.now ∷ pieces (characters p.1.now) 0) }
    ensures less { IfSome result (λ p. length p.1.now < length text.now) }
{
    let mut size = 0;
    while size < text.len() {
        let width = character_len(&text[size..]);
        if size > 0 && size + width > PIECE_ROOM {
            return Some(text.split_at(size));
        }
        size += width;
    }
    None
}

// The length of the first character.
fn character_len(text: &[u8]) -> usize
    requires { 0 < length text.now }
    ensures character { characters text.now ≡ take result text.now ∷ characters (drop result text.now) }
    ensures some { 0 < result }
    ensures within { result ≤ length text.now }
{
    1 + continuation_front(&text[1..])
}

// How many bytes at the start go on with a character.
fn continuation_front(bytes: &[u8]) -> usize
    ensures front { result ≡ prefix_len continues bytes.now }
    ensures within { result ≤ length bytes.now }
{
    bytes
        .iter()
        .take_while(|byte| is_continuation_byte(**byte))
        .count()
}

fn is_continuation_byte(byte: u8) -> bool
    ensures { result ≡ continues byte }
{
    byte >= FIRST_CONTINUATION && byte <= LAST_CONTINUATION
}

// Appends the encoded word of a piece.
fn push_encoded_word(out: &mut String, piece: &[u8]) -> Result<(), AllocError>
    ensures { OnOk result (string_bytes out.new ≡ string_bytes out.old ++ encoded_word piece.now) }
{
    out.push_str("=?utf-8?B?")?;
    STANDARD.encode_string(piece, out)?;
    out.push_str("?=")?;
    Ok(())
}
