//! Where the bytes of a structured value stand (RFC 5322, 3.2.2 and 3.2.4).

ghost use Rattle.std.specs.Prelude.{◌≡◌, ◌+◌, ◌^◌, ◌<◌, ◌≤◌, length, take, drop};
ghost use Rattle.mk_head.specs.Depths.{depth_of};
ghost use Rattle.mk_head.specs.Values.{Comment, Plain, Quoted, out_of, scan as scanned};
ghost use Rattle.mk_wording.specs.Scanned.{before_mark, from_mark, is_one_of as one_of};
ghost use Rattle.mk_wording.specs.inner.ScanViews.{closing_of, inside_of, scan_of};

const QUOTE: u8 = b'"';

const OPENING: u8 = b'(';

const CLOSING: u8 = b')';

const BACKSLASH: u8 = b'\\';

/// Where a byte stands. A comment has the number of comments around it.
#[derive(Clone, Copy)]
pub(crate) enum Scan {
    Plain,
    Quoted,
    QuotedEscaped,
    Comment(usize),
    CommentEscaped(usize),
}

impl Scan {
    ghost use Rattle.std.specs.Prelude.{◌≡◌, ◌+◌, ◌^◌, ◌<◌, ◌≤◌};
    ghost use Rattle.mk_head.specs.Depths.{depth_of};
    ghost use Rattle.mk_head.specs.Values.{is_kept, is_plain as stands_plain, scan as scanned};
    ghost use Rattle.mk_wording.specs.inner.ScanViews.{scan_of};

    /// Where the byte after this one stands.
    pub(crate) fn next(self, byte: u8) -> Scan
        requires { depth_of (scan_of self) + 1 < 2 ^ 64 }
        ensures is { scan_of result ≡ scanned (scan_of self) byte }
        ensures depth { depth_of (scan_of result) ≤ depth_of (scan_of self) + 1 }
    {
        match self {
            Scan::Plain => outside(byte),
            Scan::Quoted => in_quotes(byte),
            Scan::QuotedEscaped => Scan::Quoted,
            Scan::Comment(depth) => in_comment(byte, depth),
            Scan::CommentEscaped(depth) => Scan::Comment(depth),
        }
    }

    /// Whether the byte is part of no comment.
    pub(crate) fn keeps(self, byte: u8) -> bool
        ensures { result ≡ is_kept (scan_of self) byte }
    {
        match self {
            Scan::Plain => byte != OPENING,
            Scan::Quoted | Scan::QuotedEscaped => true,
            Scan::Comment(_) | Scan::CommentEscaped(_) => false,
        }
    }

    /// Whether the byte stands outside comments and quoted strings.
    pub(crate) fn is_plain(self) -> bool
        ensures { result ≡ stands_plain (scan_of self) }
    {
        match self {
            Scan::Plain => true,
            _ => false,
        }
    }
}

fn outside(byte: u8) -> Scan
    ensures { scan_of result ≡ scanned Plain byte }
{
    match byte {
        QUOTE => Scan::Quoted,
        OPENING => Scan::Comment(0),
        _ => Scan::Plain,
    }
}

fn in_quotes(byte: u8) -> Scan
    ensures { scan_of result ≡ scanned Quoted byte }
{
    match byte {
        BACKSLASH => Scan::QuotedEscaped,
        QUOTE => Scan::Plain,
        _ => Scan::Quoted,
    }
}

fn in_comment(byte: u8, depth: usize) -> Scan
    requires { depth + 1 < 2 ^ 64 }
    ensures is { scan_of result ≡ scanned (Comment depth) byte }
    ensures depth { depth_of (scan_of result) ≤ depth + 2 }
{
    match byte {
        BACKSLASH => Scan::CommentEscaped(depth),
        OPENING => Scan::Comment(depth + 1),
        CLOSING => outer(depth),
        _ => Scan::Comment(depth),
    }
}

// After the end of a comment.
fn outer(depth: usize) -> Scan
    ensures is { scan_of result ≡ out_of depth }
    ensures depth { depth_of (scan_of result) ≤ depth }
{
    if depth == 0 {
        Scan::Plain
    } else {
        Scan::Comment(depth - 1)
    }
}

/// Where the first of some bytes stands outside quoted strings and comments, or the length of the text.
pub(crate) fn mark_place(text: &[u8], marks: &[u8]) -> usize
    ensures within { result ≤ length text.now }
    ensures front { before_mark marks.now Plain text.now ≡ take result text.now }
    ensures rest { from_mark marks.now Plain text.now ≡ drop result text.now }
{
    let mut scan = Scan::Plain;
    for (place, byte) in text.iter().enumerate() {
        if scan.is_plain() && is_one_of(marks, *byte) {
            return place;
        }
        scan = scan.next(*byte);
    }
    text.len()
}

/// Where a comment ends after its parenthesis: the place of its closing one, or the length of the text.
pub(crate) fn comment_end(text: &[u8]) -> usize
    ensures within { result ≤ length text.now }
    ensures front { inside_of (Comment 0) text.now ≡ take result text.now }
    ensures rest { closing_of (Comment 0) text.now ≡ drop result text.now }
{
    let mut scan = Scan::Comment(0);
    for (place, byte) in text.iter().enumerate() {
        let next = scan.next(*byte);
        if next.is_plain() {
            return place;
        }
        scan = next;
    }
    text.len()
}

/// Whether a byte is one of some marks.
pub(crate) fn is_one_of(marks: &[u8], byte: u8) -> bool
    ensures { result ≡ one_of marks.now byte }
{
    marks.iter().any(|mark| *mark == byte)
}
