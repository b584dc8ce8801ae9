//! Where a field ends: at a line feed that no blank follows. Thirty-two places are tested at a time, so a folded field is passed
//! over by one search, and its lines aren't looked for one by one. Long lines are passed by `memchr`.
ghost use Rattle.std.specs.Prelude.{◌≡◌, ◌+◌, ◌<◌, ◌≤◌, length, drop};
ghost use Rattle.mk_line.specs.Lines.{cut as lines_of, text_of};
ghost use Rattle.mk_head.specs.inner.Folds.{fold_size, folded};

use memchr::memchr;
use mk_line::is_continuation;
use mk_line::lanes::first_set;
use std::simd::prelude::*;

/// How many places are tested at once.
const LANES: usize = 32;

/// Once in this many bytes the next line feed is looked for by `memchr`. It takes longer to begin, and then passes the rest of a
/// long line several times as fast.
const NEAR: usize = 4096;

const LINE_FEED: u8 = b'\n';

const SPACE: u8 = b' ';

const TAB: u8 = b'\t';

/// How many bytes the first line takes, with the continuations directly after it.
pub(crate) fn folded_size(text: &[u8]) -> usize
    ensures size { result ≡ length (text_of (folded (lines_of text.now))) }
    ensures within { result ≤ length text.now }
{
    let mut size = 0;
    'each: while LANES < text.len() - size {
        let run = folded_at(text, size);
        if run < LANES {
            return size + run + 1;
        }
        size += LANES;
        if size % NEAR < LANES {
            size += before_feed(&text[size..]);
        }
    }
    size + last_folded(&text[size..])
}

// How many bytes come before the first line feed: all, where there is none. Not inlined, so that the loop above keeps its
// registers.
#[cold]
#[inline(never)]
fn before_feed(text: &[u8]) -> usize
    ensures passed { fold_size text.now ≡ result + fold_size (drop result text.now) }
    ensures within { result ≤ length text.now }
{
    match memchr(LINE_FEED, text) {
        Some(place) => place,
        None => text.len(),
    }
}

// How many of the thirty-two places come before the first line feed that no blank follows.
#[inline(always)]
fn folded_at(text: &[u8], at: usize) -> usize
    requires { at + 32 < length text.now }
    ensures ends { result < 32 → fold_size (drop at text.now) ≡ result + 1 }
    ensures goes_on { result ≡ 32 → fold_size (drop at text.now) ≡ 32 + fold_size (drop (at + 32) text.now) }
    ensures few { result ≤ 32 }
{
    let bytes = u8x32::from_slice(&text[at..]);
    let next = u8x32::from_slice(&text[at + 1..]);
    let feeds = bytes.simd_eq(u8x32::splat(LINE_FEED));
    let others = next.simd_ne(u8x32::splat(SPACE)) & next.simd_ne(u8x32::splat(TAB));
    first_set((feeds & others).to_bitmask(), LANES)
}

// The same of the last places, one by one.
fn last_folded(text: &[u8]) -> usize
    ensures size { result ≡ fold_size text.now }
    ensures within { result ≤ length text.now }
{
    let mut rest = text;
    'each: while let Some((byte, following)) = rest.split_first() {
        if *byte == LINE_FEED && !is_continuation(following) {
            return text.len() - following.len();
        }
        rest = following;
    }
    text.len()
}
