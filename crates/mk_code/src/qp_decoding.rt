//! Decoding quoted-printable (RFC 2045, 6.7).
ghost use Rattle.std.specs.Prelude.{◌≡◌, ◌<◌, ◌++◌, ◌≤◌, true, length, OnOk, IsSome};
ghost use Rattle.mk_line.specs.Marks.{trimmed};
ghost use Rattle.mk_code.specs.QuotedPrintable.{qp_decoded, unquoted, pair_at, is_hex_digit as hex_digit, digit_value as value_of};

use crate::decoding::make_room;
use mk_line::{cut, split_at_first, trimmed};
use std::alloc::AllocError;

const EQUALS: u8 = b'=';

/// The digits of a byte after its `=`.
const DIGITS: usize = 2;

/// Puts what the text stands for in the place of the bytes that `out` holds.
pub(crate) fn decode(out: &mut Vec<u8>, text: &[u8]) -> Result<(), AllocError>
    ensures { OnOk result (out.new.items ≡ qp_decoded text.now) }
{
    make_room(out, text.len())?;
    for line in cut(text) {
        push_line(out, line.content, line.ending.bytes())?;
    }
    Ok(())
}

// Appends what a line stands for.
pub(crate) fn push_line(out: &mut Vec<u8>, content: &[u8], ending: &[u8]) -> Result<(), AllocError>
    ensures { OnOk result (out.new.items ≡ out.old.items ++ unquoted ending.now (trimmed content.now)) }
{
    let mut rest = trimmed(content);
    while let Some((front, following)) = split_at_first(rest, EQUALS) {
        out.extend_from_slice(front)?;
        if following.is_empty() {
            return Ok(());
        }
        match pair(following) {
            Some(byte) => {
                out.push(byte)?;
                rest = &following[DIGITS..];
            }
            None => {
                out.push(EQUALS)?;
                rest = following;
            }
        }
    }
    out.extend_from_slice(rest)?;
    out.extend_from_slice(ending)?;
    Ok(())
}

// The byte that two digits at the start stand for.
pub(crate) fn pair(digits: &[u8]) -> Option<u8>
    ensures value { result ≡ pair_at digits.now }
    ensures room { IsSome result → 2 ≤ length digits.now }
{
    match digits {
        [high, low, ..] => {
            if is_hex_digit(*high) && is_hex_digit(*low) {
                Some(digit_value(*high) * 16 + digit_value(*low))
            } else {
                None
            }
        }
        _ => None,
    }
}

fn is_hex_digit(byte: u8) -> bool
    ensures { result ≡ hex_digit byte }
{
    byte.is_ascii_hexdigit()
}

// The low four bits of a decimal digit are its number, and those of a letter count from 1; letters have the seventh bit.
fn digit_value(byte: u8) -> u8
    requires { hex_digit byte ≡ true }
    ensures value { result ≡ value_of byte }
    ensures small { result < 16 }
{
    byte % 16 + byte / 64 * 9
}
