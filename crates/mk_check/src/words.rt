//! Values in which two words stand side by side.
ghost use Rattle.std.specs.Prelude.{◌≡◌, ◌+◌, ◌<◌, ◌≤◌, ◌^◌};
ghost use Rattle.mk_head.specs.Values.{Comment, Plain as InPlain, Quoted as InQuotes, out_of, scan as scanned};
ghost use Rattle.mk_check.specs.inner.Scans.{depth_in, scan_of};
ghost use Rattle.mk_check.specs.SideBySide.{begins_beside, ended_word, has_words_beside as words_beside, is_word_byte as word_byte, word_after};

use mk_head::is_token;
use mk_line::is_blank;

const QUOTE: u8 = b'"';

const OPENING: u8 = b'(';

const CLOSING: u8 = b')';

const BACKSLASH: u8 = b'\\';

/// What comes before a byte of a value.
#[derive(Clone, Copy, Debug, PartialEq, Eq)]
pub(crate) enum Word {
    /// No word.
    No,
    /// A word.
    Open,
    /// A word, and then blanks, comments or the end of its quotes.
    Ended,
}

impl Word {
    ghost use Rattle.std.specs.Prelude.{◌≡◌};
    ghost use Rattle.mk_check.specs.SideBySide.{begins_beside, ended_word, word_after};

    fn ended(self) -> Word
        ensures { result ≡ ended_word self }
    {
        match self {
            Word::No => Word::No,
            Word::Open | Word::Ended => Word::Ended,
        }
    }

    // The same before the byte after this one, outside comments and quoted strings.
    fn after(self, byte: u8) -> Word
        ensures { result ≡ word_after self byte }
    {
        if byte == QUOTE || is_word_byte(byte) {
            Word::Open
        } else if byte == OPENING || is_blank(byte) {
            self.ended()
        } else {
            Word::No
        }
    }

    // Whether this byte, outside comments and quoted strings, begins a word beside another one.
    fn meets(self, byte: u8) -> bool
        ensures { result ≡ begins_beside self byte }
    {
        match self {
            Word::No => false,
            Word::Open => byte == QUOTE,
            Word::Ended => byte == QUOTE || is_word_byte(byte),
        }
    }
}

/// Where a byte of a value stands. A comment has the number of comments around it.
#[derive(Clone, Copy, Debug, PartialEq, Eq)]
pub(crate) enum Scan {
    Plain,
    Quoted,
    QuotedEscaped,
    Comment(usize),
    CommentEscaped(usize),
}

impl Scan {
    ghost use Rattle.std.specs.Prelude.{◌≡◌, ◌+◌, ◌<◌, ◌≤◌, ◌^◌};
    ghost use Rattle.mk_head.specs.Values.{scan as scanned};
    ghost use Rattle.mk_check.specs.inner.Scans.{depth_in, scan_of};
    ghost use Rattle.mk_check.specs.SideBySide.{meets as meets_word, next_word};

    // Where the byte after this one stands.
    fn next(self, byte: u8) -> Scan
        requires { depth_in self + 1 < 2 ^ 64 }
        ensures is { scan_of result ≡ scanned (scan_of self) byte }
        ensures depth { depth_in result ≤ depth_in self + 1 }
    {
        match self {
            Scan::Plain => outside(byte),
            Scan::Quoted => in_quotes(byte),
            Scan::QuotedEscaped => Scan::Quoted,
            Scan::Comment(depth) => in_comment(byte, depth),
            Scan::CommentEscaped(depth) => Scan::Comment(depth),
        }
    }

    // What comes before the byte after this one.
    fn word_after(self, word: Word, byte: u8) -> Word
        ensures { result ≡ next_word (scan_of self) word byte }
    {
        match self {
            Scan::Plain => word.after(byte),
            Scan::Quoted if byte == QUOTE => Word::Ended,
            _ => word,
        }
    }

    // Whether this byte begins a word beside another one.
    fn meets(self, word: Word, byte: u8) -> bool
        ensures { result ≡ meets_word (scan_of self) word byte }
    {
        match self {
            Scan::Plain => word.meets(byte),
            _ => false,
        }
    }
}

fn outside(byte: u8) -> Scan
    ensures is { scan_of result ≡ scanned InPlain byte }
    ensures depth { depth_in result ≤ 1 }
{
    match byte {
        QUOTE => Scan::Quoted,
        OPENING => Scan::Comment(0),
        _ => Scan::Plain,
    }
}

fn in_quotes(byte: u8) -> Scan
    ensures is { scan_of result ≡ scanned InQuotes byte }
    ensures depth { depth_in result ≡ 0 }
{
    match byte {
        BACKSLASH => Scan::QuotedEscaped,
        QUOTE => Scan::Plain,
        _ => Scan::Quoted,
    }
}

fn in_comment(byte: u8, depth: usize) -> Scan
    requires { depth + 1 < 2 ^ 64 }
    ensures is { scan_of result ≡ scanned (Comment depth) byte }
    ensures depth { depth_in result ≤ depth + 2 }
{
    match byte {
        BACKSLASH => Scan::CommentEscaped(depth),
        OPENING => Scan::Comment(depth + 1),
        CLOSING => outer(depth),
        _ => Scan::Comment(depth),
    }
}

// After the end of a comment.
fn outer(depth: usize) -> Scan
    ensures is { scan_of result ≡ out_of depth }
    ensures depth { depth_in result ≤ depth }
{
    if depth == 0 {
        Scan::Plain
    } else {
        Scan::Comment(depth - 1)
    }
}

fn is_word_byte(byte: u8) -> bool
    ensures { result ≡ word_byte byte }
{
    byte >= 128 || is_token(&[byte])
}

/// Whether two words of a value stand side by side.
pub(crate) fn has_words_beside(value: &[u8]) -> bool
    ensures { result ≡ words_beside value.now }
{
    let mut scan = Scan::Plain;
    let mut word = Word::No;
    for byte in value {
        if scan.meets(word, *byte) {
            return true;
        }
        word = scan.word_after(word, *byte);
        scan = scan.next(*byte);
    }
    false
}
