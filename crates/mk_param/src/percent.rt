//! Bytes with percent signs, read and written (RFC 2231, 7).
ghost use Rattle.std.specs.Prelude.{◌≡◌, ◌<◌, ◌≤◌, ◌++◌, true, length, IfOk, IfSome, IsSome, MatchOption, OnErr, OnOk, option_map, if◌then◌else◌, Some, None};
ghost use Rattle.mk_code.specs.EncodedWords.{put_before};
ghost use Rattle.mk_code.specs.QuotedPrintable.{digit_value as value_of, hex_digit as digit_of, is_hex_digit as hex, pair_at};
ghost use Rattle.mk_param.specs.Percents.{byte_encoded, is_attribute_byte as attribute_byte, percent_decoded, percent_encoded};

use mk_head::is_token;
use std::alloc::{AllocError, Global};

const PERCENT: u8 = b'%';

/// The digits of a byte after its percent sign.
const DIGITS: usize = 2;

/// The bytes that a text with percent signs stands for; `None` where two digits are missing after one.
pub fn percent_decode(alloc: Global, text: &[u8]) -> Result<Option<Vec<u8>>, AllocError>
    ensures { IfOk result (λ found. option_map (λ bytes. bytes.items) found ≡ percent_decoded text.now) }
{
    let mut bytes = Vec::with_capacity(alloc, text.len())?;
    if push_decoded(&mut bytes, text)? {
        Ok(Some(bytes))
    } else {
        Ok(None)
    }
}

/// Appends the bytes that a text with percent signs stands for, and says whether it could be read. Where it couldn't, some of
/// them may be there.
pub(crate) fn push_decoded(out: &mut Vec<u8>, text: &[u8]) -> Result<bool, AllocError>
    ensures { IfOk result (λ read. (if read then Some out.new.items else None) ≡ option_map (λ bytes. out.old.items ++ bytes) (percent_decoded text.now)) }
{
    let mut rest = text;
    while !rest.is_empty() {
        let Some((byte, following)) = first_byte(rest) else {
            return Ok(false);
        };
        out.push(byte)?;
        rest = following;
    }
    Ok(true)
}

// The first byte that a text with percent signs stands for, and what follows it.
fn first_byte(text: &[u8]) -> Option<(u8, &[u8])>
    requires { 0 < length text.now }
    ensures value { MatchOption result (percent_decoded text.now ≡ None)
        (λ p. percent_decoded text.now ≡ put_before p.0 (percent_decoded p.1.now)) }
    ensures less { IfSome result (λ p. length p.1.now < length text.now) }
{
    match text {
        [PERCENT, following @ ..] => Some((pair(following)?, &following[DIGITS..])),
        [byte, following @ ..] => Some((*byte, following)),
        [] => None,
    }
}

// The byte that two digits at the start stand for.
fn pair(digits: &[u8]) -> Option<u8>
    ensures value { result ≡ pair_at digits.now }
    ensures room { IsSome result → 2 ≤ length digits.now }
{
    match digits {
        [high, low, ..] => {
            if is_hex_digit(*high) && is_hex_digit(*low) {
                Some(digit_value(*high) * 16 + digit_value(*low))
            } else {
                None
            }
        }
        _ => None,
    }
}

fn is_hex_digit(byte: u8) -> bool
    ensures { result ≡ hex byte }
{
    byte.is_ascii_hexdigit()
}

// The low four bits of a decimal digit are its number, and those of a letter count from 1; letters have the seventh bit.
fn digit_value(byte: u8) -> u8
    requires { hex byte ≡ true }
    ensures value { result ≡ value_of byte }
    ensures small { result < 16 }
{
    byte % 16 + byte / 64 * 9
}

/// Appends bytes, with percent signs where they can't stand for themselves in a value with a charset. After an error the text
/// is as before.
pub fn push_percent(text: &mut Vec<u8>, bytes: &[u8]) -> Result<(), AllocError>
    ensures appended { OnOk result (text.new.items ≡ text.old.items ++ percent_encoded bytes.now) }
    ensures unchanged { OnErr result (text.new.items ≡ text.old.items) }
{
    let size = text.len();
    for byte in bytes {
        if let Err(error) = push_byte(text, *byte) {
            text.truncate(size);
            return Err(error);
        }
    }
    Ok(())
}

// Appends a byte as itself, or as a percent sign and two digits.
fn push_byte(text: &mut Vec<u8>, byte: u8) -> Result<(), AllocError>
    ensures appended { OnOk result (text.new.items ≡ text.old.items ++ byte_encoded byte) }
    ensures unchanged { OnErr result (text.new.items ≡ text.old.items) }
{
    if is_attribute_byte(byte) {
        text.extend_from_slice(&[byte])
    } else {
        text.extend_from_slice(&[PERCENT, hex_digit(byte / 16), hex_digit(byte % 16)])
    }
}

fn is_attribute_byte(byte: u8) -> bool
    ensures { result ≡ attribute_byte byte }
{
    is_token(&[byte]) && !(byte == b'*' || byte == b'\'' || byte == PERCENT)
}

// An upper case digit.
fn hex_digit(value: u8) -> u8
    requires { value < 16 }
    ensures { result ≡ digit_of value }
{
    if value < 10 {
        b'0' + value
    } else {
        b'A' + (value - 10)
    }
}
