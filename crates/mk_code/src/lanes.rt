//! The classes of bytes that contents are decoded and encoded by: runs of them are most of what is read.
ghost use Rattle.mk_code.specs.Base64Text.{is_letter as letter};
ghost use Rattle.mk_code.specs.inner.Strays.{is_stray};
ghost use Rattle.mk_code.specs.QuotedPrintable.{is_quiet as quiet};

use mk_line::is_blank;
use mk_line::lanes::{ByteClass, Counts, LANES, Runs, first_set};
use std::simd::prelude::*;

/// What a lower-case letter has and its capital lacks.
const LOWER_CASE: u8 = 0x20;

/// How many letters there are of one case.
const CASE: u8 = 26;

/// How many bytes `/` and the ten digits, which follow it, are.
const SLASH_AND_DIGITS: u8 = 11;

/// How many printable ASCII characters there are, apart from the space.
const PRINTABLE: u8 = 94;

const EQUALS: u8 = b'=';

/// The letters of base64 (RFC 2045, 6.8).
pub(crate) struct Letters;

impl ByteClass for Letters {
    ghost members = { letter };

    // Without branches, since which letter comes can't be foreseen.
    fn has(byte: u8) -> bool {
        let upper_case = byte >= b'A' && byte <= b'Z';
        let lower_case = byte >= b'a' && byte <= b'z';
        let digit = byte >= b'0' && byte <= b'9';
        upper_case | lower_case | digit | (byte == b'+') | (byte == b'/')
    }
}

impl Runs for Letters {
    #[inline(always)]
    fn run_at(text: &[u8], at: usize) -> usize {
        let bytes = u8x16::from_slice(&text[at..]);
        let from_a = (bytes | u8x16::splat(LOWER_CASE)) - u8x16::splat(b'a');
        let from_slash = bytes - u8x16::splat(b'/');
        let stops = from_a.simd_ge(u8x16::splat(CASE))
            & from_slash.simd_ge(u8x16::splat(SLASH_AND_DIGITS))
            & bytes.simd_ne(u8x16::splat(b'+'));
        first_set(stops.to_bitmask(), LANES)
    }
}

impl Counts for Letters {
    #[inline(always)]
    fn count_at(text: &[u8], at: usize) -> usize {
        let bytes = u8x64::from_slice(&text[at..]);
        let from_a = (bytes | u8x64::splat(LOWER_CASE)) - u8x64::splat(b'a');
        let from_slash = bytes - u8x64::splat(b'/');
        let letters = from_a.simd_lt(u8x64::splat(CASE))
            | from_slash.simd_lt(u8x64::splat(SLASH_AND_DIGITS))
            | bytes.simd_eq(u8x64::splat(b'+'));
        letters.to_bitmask().count_ones() as usize
    }
}

/// The bytes that are no letters of base64: they stand for nothing there.
pub(crate) struct Strays;

impl ByteClass for Strays {
    ghost members = { is_stray };

    fn has(byte: u8) -> bool {
        !Letters::has(byte)
    }
}

impl Runs for Strays {
    #[inline(always)]
    fn run_at(text: &[u8], at: usize) -> usize {
        let bytes = u8x16::from_slice(&text[at..]);
        let from_a = (bytes | u8x16::splat(LOWER_CASE)) - u8x16::splat(b'a');
        let from_slash = bytes - u8x16::splat(b'/');
        let letters = from_a.simd_lt(u8x16::splat(CASE))
            | from_slash.simd_lt(u8x16::splat(SLASH_AND_DIGITS))
            | bytes.simd_eq(u8x16::splat(b'+'));
        first_set(letters.to_bitmask(), LANES)
    }
}

/// The bytes that stand for themselves in quoted-printable (RFC 2045, 6.7).
pub(crate) struct Quiet;

impl ByteClass for Quiet {
    ghost members = { quiet };

    fn has(byte: u8) -> bool {
        let printable = byte > b' ' && byte <= b'~';
        printable & (byte != EQUALS) | is_blank(byte)
    }
}

impl Runs for Quiet {
    #[inline(always)]
    fn run_at(text: &[u8], at: usize) -> usize {
        let bytes = u8x16::from_slice(&text[at..]);
        let from_printable = bytes - u8x16::splat(b'!');
        let others = from_printable.simd_ge(u8x16::splat(PRINTABLE))
            & bytes.simd_ne(u8x16::splat(b' '))
            & bytes.simd_ne(u8x16::splat(b'\t'));
        let stops = others | bytes.simd_eq(u8x16::splat(EQUALS));
        first_set(stops.to_bitmask(), LANES)
    }
}
