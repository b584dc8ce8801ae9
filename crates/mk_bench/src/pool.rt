//! Lines that are made once, of which bodies are put together: so a body costs little more than a copy.
ghost use Rattle.std.specs.Prelude.{◌<◌, length, vec_len};

use crate::lines::{Lines, lines_of};
use crate::random::Random;
use memchr::{memchr, memrchr};
use std::alloc::{AllocError, Global};

const LINE_FEED: u8 = b'\n';

const PIECES: usize = 8;

/// The bytes of a piece.
const PIECE: usize = 40_000;

/// Pieces of whole lines.
#[derive(Drop)]
pub struct Pool {
    pieces: Vec<Vec<u8>>,
}

impl Pool {
    /// Pieces of these lines.
    pub fn new(
        alloc: Global,
        random: &mut Random,
        lines: Lines,
        eol: &[u8],
    ) -> Result<Pool, AllocError> {
        let mut pieces = Vec::with_capacity(alloc, PIECES)?;
        for _ in 0..PIECES {
            pieces.push(lines_of(alloc, random, lines, eol, PIECE)?)?;
        }
        Ok(Pool { pieces })
    }

    fn piece(&self, random: &mut Random) -> &[u8] {
        if self.pieces.is_empty() {
            return b"";
        }
        &self.pieces[random.below(self.pieces.len())]
    }

    /// Appends lines, of about this many bytes.
    pub fn push(
        &self,
        random: &mut Random,
        text: &mut Vec<u8>,
        size: usize,
    ) -> Result<(), AllocError> {
        for _ in 0..size / PIECE {
            text.extend_from_slice(self.piece(random))?;
        }
        let piece = self.piece(random);
        text.extend_from_slice(some_lines(piece, random, size % PIECE))
    }
}

// Whole lines out of a piece, at most this many bytes; it may be none.
fn some_lines<'a>(piece: &'a [u8], random: &mut Random, size: usize) -> &'a [u8] {
    if size >= piece.len() {
        return piece;
    }
    let (_, rest) = piece.split_at(random.below(piece.len() - size));
    let begun = match memchr(LINE_FEED, rest) {
        Some(end) => &rest[end + 1..],
        None => return b"",
    };
    let (front, _) = begun.split_at(size.min(begun.len()));
    match memrchr(LINE_FEED, front) {
        Some(end) => &front[..end + 1],
        None => b"",
    }
}
