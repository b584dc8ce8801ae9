//! Stretches of whole lines of which none begins with `From `. None of these lines can begin a message, so they are taken at
//! once. One search for a line feed and `From `, which tests many bytes at once, finds where they end.
ghost use Rattle.std.specs.Prelude.{◌≡◌, ◌≤◌, false, length, take};
ghost use Rattle.mk_line.specs.Lines.{ends_open};
ghost use Rattle.mk_mailbox.specs.inner.Gathered.{AreQuiet, feed_and_from};

use memchr::memmem::Finder;
use memchr::memrchr;

const LINE_FEED: u8 = b'\n';

const FROM: &[u8; 5] = b"From ";

/// A line feed, and the first bytes of a From-line.
const FEED_AND_FROM: &[u8; 6] = b"\nFrom ";

/// The search for such stretches.
#[derive(Drop)]
pub(crate) struct Stretches {
    from: Finder<'static>,
    ghost finds: { from ≡ feed_and_from },
}

impl Stretches {
    /// The search, which serves for any bytes.
    pub(crate) fn new() -> Stretches {
        Stretches {
            from: Finder::new(FEED_AND_FROM),
        }
    }

    /// How many bytes the whole lines have that stand before the first one that begins with `From `.
    pub(crate) fn size(&self, bytes: &[u8]) -> usize
        ensures quiet { AreQuiet (take result bytes.now) }
        ensures within { result ≤ length bytes.now }
    {
        if bytes.starts_with(FROM) {
            return 0;
        }
        match self.from.find(bytes) {
            Some(feed) => feed + 1,
            None => end_of_lines(bytes),
        }
    }
}

// How many bytes the whole lines have.
fn end_of_lines(bytes: &[u8]) -> usize
    ensures whole { ends_open (take result bytes.now) ≡ false }
    ensures within { result ≤ length bytes.now }
{
    match memrchr(LINE_FEED, bytes) {
        Some(feed) => feed + 1,
        None => 0,
    }
}
