//! Decoding the encoded words of a value (RFC 2047, 6.2).
ghost use Rattle.std.specs.Prelude.{◌≡◌, ◌<◌, ◌≤◌, ◌++◌, Bool, length, not, unwrap_or, IfOk, OnOk};
ghost use Rattle.std.specs.List.{prefix_len};
ghost use Rattle.mk_line.specs.Ascii.{is_blank as blank};
ghost use Rattle.mk_code.specs.declared.one_word.Readable.{Readable as Which};
ghost use Rattle.mk_code.specs.EncodedWords.{decoded_with as decoded, gap_shown, is_decoded, runs, shown, text_decoded, word_read, words_decoded};

use crate::one_word::{Readable, is_text, read_word};
use mk_head::without_endings;
use mk_line::{is_blank, leading_blanks};
use std::alloc::{AllocError, Global};

/// The value with its encoded words decoded, in UTF-8 where the charset is known. Line endings are taken
/// out, a gap between two decoded words is dropped, and all else stays as it stands.
pub fn words_decode(alloc: Global, value: &[u8]) -> Result<Vec<u8>, AllocError>
    ensures { IfOk result (λ text. text.items ≡ words_decoded value.now) }
{
    decode_with(alloc, value, Readable::All)
}

/// The same, but a text in UTF-8 as far as it can be: where the value with all its encoded words decoded isn't UTF-8, a word
/// whose bytes by themselves aren't stays as it stands (own). So a character that is spread over two words is read, and half
/// a character isn't given. Bytes of the value outside encoded words stay as they are.
pub fn text_decode(alloc: Global, value: &[u8]) -> Result<Vec<u8>, AllocError>
    ensures { IfOk result (λ text. text.items ≡ text_decoded value.now) }
{
    let text = words_decode(alloc, value)?;
    if is_text(&text) {
        Ok(text)
    } else {
        decode_with(alloc, value, Readable::Texts)
    }
}

// The value with those of its encoded words decoded.
fn decode_with(alloc: Global, value: &[u8], which: Readable) -> Result<Vec<u8>, AllocError>
    ensures { IfOk result (λ text. text.items ≡ decoded which value.now) }
{
    let line = without_endings(alloc, value)?;
    let mut out = Vec::with_capacity(alloc, line.len())?;
    let mut rest = line.as_slice();
    let mut after = false;
    while !rest.is_empty() {
        let (gap, word, following) = split_front(rest);
        after = push_word(alloc, &mut out, which, after, gap, word)?;
        rest = following;
    }
    Ok(out)
}

// The blanks at the start, the word after them, and what follows both.
fn split_front(text: &[u8]) -> (&[u8], &[u8], &[u8])
    requires { 0 < length text.now }
    ensures runs { (which : Which) (after : Bool) → shown which after (runs text.now)
        ≡ gap_shown which after result.0.now result.1.now
        ++ (unwrap_or (word_read which result.1.now) result.1.now ++ shown which (is_decoded which result.1.now) (runs result.2.now)) }
    ensures less { length result.2.now < length text.now }
{
    let (gap, rest) = text.split_at(leading_blanks(text));
    let (word, following) = rest.split_at(word_front(rest));
    (gap, word, following)
}

// How many other bytes stand at the start.
fn word_front(text: &[u8]) -> usize
    ensures front { result ≡ prefix_len (λ byte. not (blank byte)) text.now }
    ensures within { result ≤ length text.now }
{
    text.iter().take_while(|byte| !is_blank(**byte)).count()
}

// Appends a gap and the word after it, decoded where that can be, and says whether it was: a gap between
// two decoded words is dropped.
fn push_word(
    alloc: Global,
    out: &mut Vec<u8>,
    which: Readable,
    after: bool,
    gap: &[u8],
    word: &[u8],
) -> Result<bool, AllocError>
    ensures text { OnOk result (out.new.items
        ≡ out.old.items ++ gap_shown which after gap.now word.now ++ unwrap_or (word_read which word.now) word.now) }
    ensures decoded { IfOk result (λ decoded. decoded ≡ is_decoded which word.now) }
{
    match read_word(alloc, word, which)? {
        Some(bytes) => {
            let kept: &[u8] = if after { b"" } else { gap };
            out.extend_from_slice(kept)?;
            out.extend_from_slice(&bytes)?;
            Ok(true)
        }
        None => {
            out.extend_from_slice(gap)?;
            out.extend_from_slice(word)?;
            Ok(false)
        }
    }
}
