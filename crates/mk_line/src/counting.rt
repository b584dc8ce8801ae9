//! How many lines a text has: line feeds are counted, and no line is looked for.
ghost use Rattle.std.specs.Prelude.{◌≡◌, ◌==◌, ◌+◌, ◌≤◌, length, take, drop, count_by};
ghost use Rattle.mk_line.specs.Ascii.{line_feed};
ghost use Rattle.mk_line.specs.Lines.{cut as lines_of};

use crate::cutting::ends_open;
use crate::lanes::{ByteClass, Counts, count_of};
use std::simd::prelude::*;

const LINE_FEED: u8 = b'\n';

/// The line feed alone.
struct LineFeeds;

impl ByteClass for LineFeeds {
    ghost members = { λ byte. byte == line_feed };

    fn has(byte: u8) -> bool {
        byte == LINE_FEED
    }
}

impl Counts for LineFeeds {
    #[inline(always)]
    fn count_at(text: &[u8], at: usize) -> usize {
        let bytes = u8x64::from_slice(&text[at..]);
        let feeds = bytes.simd_eq(u8x64::splat(LINE_FEED)).to_bitmask();
        feeds.count_ones() as usize
    }
}

/// How many lines a text is cut into.
pub fn line_count(text: &[u8]) -> usize
    ensures { result ≡ length (lines_of text.now) }
{
    let feeds = count_of::<LineFeeds>(text);
    if ends_open(text) { feeds + 1 } else { feeds }
}
