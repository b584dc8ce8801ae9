//! How many bytes a content has, told without decoding it.
ghost use Rattle.std.specs.Prelude.{◌≡◌, ◌≢◌, ◌<◌, ◌≤◌, ◌+◌, ◌++◌, [], ◌∷◌, ℕ, List, count_by, filter, length, IfErr, IfOk, MatchOption};
ghost use Rattle.mk_line.specs.Marks.{trimmed as trimmed_text};
ghost use Rattle.mk_code.specs.Base64Text.{IsBase64Of, is_letter as letter};
ghost use Rattle.mk_code.specs.Contents.{IsContent, IsRefused};
ghost use Rattle.mk_code.specs.QuotedPrintable.{qp_decoded, unquoted};
ghost use Rattle.mk_code.specs.inner.Sizes.{is_well_ended};

use crate::base64_text::before_equals;
use crate::decoding::CodeError;
use crate::lanes::Letters;
use crate::qp_decoding::pair;
use mk_head::Encoding;
use mk_line::lanes::{ByteClass, count_of};
use mk_line::{cut, split_at_first, trimmed};

const EQUALS: u8 = b'=';

/// The letters of a group of base64, and the bytes that they stand for.
const GROUP: usize = 4;

const GROUP_BYTES: usize = 3;

/// The letters whose last four bits are zero, and those whose last two are.
const LAST_OF_TWO: &[u8] = b"AQgw";

const LAST_OF_THREE: &[u8] = b"AEIMQUYcgkosw048";

/// The digits of a byte after its `=`.
const DIGITS: usize = 2;

/// How many bytes `decode` gives of a text. Nothing is decoded, and no memory is asked for: it never answers that memory
/// ran out, and refuses for the reasons of `decode`.
pub fn decoded_size(encoding: Encoding, text: &[u8]) -> Result<usize, CodeError>
    ensures size { IfOk result (λ size. (bytes : List ℕ) × IsContent encoding text.now bytes × (size ≡ length bytes)) }
    ensures refused { IfErr result (λ error. IsRefused encoding text.now error) }
    ensures asks_nothing { IfErr result (λ error. error ≢ CodeError.Memory) }
{
    match encoding {
        Encoding::Identity => Ok(text.len()),
        Encoding::Qp => Ok(qp_size(text)),
        Encoding::Base64 => base64_size(text).ok_or(CodeError::BadBase64),
        Encoding::Other => Err(CodeError::UnknownEncoding),
    }
}

// How many bytes the letters before the first `=` are the encoding of.
fn base64_size(text: &[u8]) -> Option<usize>
    ensures { MatchOption result ((bytes : List ℕ) → ¬ IsBase64Of text.now bytes)
        (λ size. (bytes : List ℕ) × IsBase64Of text.now bytes × (size ≡ length bytes)) }
{
    let front = before_equals(text);
    let Some(last) = last_letter(front) else {
        return Some(0);
    };
    let count = count_of::<Letters>(front);
    let loose = count % GROUP;
    if ends_well(loose, last) {
        Some(count / GROUP * GROUP_BYTES + loose.saturating_sub(1))
    } else {
        None
    }
}

// The last letter of a text.
fn last_letter(text: &[u8]) -> Option<u8>
    ensures { MatchOption result (filter letter text.now ≡ [])
        (λ last. (before : List ℕ) × (filter letter text.now ≡ before ++ last ∷ [])) }
{
    let mut rest = text;
    while let [front @ .., byte] = rest {
        if Letters::has(*byte) {
            return Some(*byte);
        }
        rest = front;
    }
    None
}

// Whether letters of which so many are in no whole group may end with this one: its bits that stand for nothing are zero.
fn ends_well(loose: usize, last: u8) -> bool
    requires { loose < 4 }
    ensures { result ≡ is_well_ended loose last }
{
    match loose {
        0 => true,
        1 => false,
        2 => LAST_OF_TWO.contains(&last),
        _ => LAST_OF_THREE.contains(&last),
    }
}

// How many bytes a quoted-printable text stands for.
fn qp_size(text: &[u8]) -> usize
    ensures { result ≡ length (qp_decoded text.now) }
{
    let mut size = 0;
    for line in cut(text) {
        size += line_size(line.content, line.ending.bytes());
    }
    size
}

// How many bytes a line stands for.
fn line_size(content: &[u8], ending: &[u8]) -> usize
    ensures size { result ≡ length (unquoted ending.now (trimmed_text content.now)) }
    ensures few { result ≤ length content.now + length ending.now }
{
    let mut size = 0;
    let mut rest = trimmed(content);
    while let Some((front, following)) = split_at_first(rest, EQUALS) {
        size += front.len();
        if following.is_empty() {
            return size;
        }
        size += 1;
        rest = match pair(following) {
            Some(_) => &following[DIGITS..],
            None => following,
        };
    }
    size + rest.len() + ending.len()
}
