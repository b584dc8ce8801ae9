//! The addresses of a field, without names and comments (RFC 5322, 3.4 and 4.4).

ghost use Rattle.std.specs.Prelude.{◌≡◌, ◌++◌, OnOk};
ghost use Rattle.mk_wording.specs.AddressLists.{address_lines, is_joint as joins, may_be_address as may_be};

use crate::scanning::{Scan, is_one_of};
use crate::stretches::is_white;
use std::alloc::{AllocError, Global};

/// The bytes between addresses, names and groups.
const MARKS: &[u8; 5] = b"<>,;:";

/// Those that end an address that stands alone.
const ENDS: &[u8; 2] = b",;";

const COMMA: u8 = b',';

const OPENING_ANGLE: u8 = b'<';

const CLOSING_ANGLE: u8 = b'>';

const OPENING_BRACKET: u8 = b'[';

const CLOSING_BRACKET: u8 = b']';

const AT_SIGN: u8 = b'@';

const FULL_STOP: u8 = b'.';

const LINE_FEED: u8 = b'\n';

/// Appends the addresses of a value that is on one line, each on a line of its own: without names, comments and white space.
pub fn push_addresses(alloc: Global, text: &mut Vec<u8>, value: &[u8]) -> Result<(), AllocError>
    ensures { OnOk result (text.new.items ≡ text.old.items ++ address_lines value.now) }
{
    let mut reader = Reader::new(alloc);
    for byte in value {
        reader.read(text, *byte)?;
    }
    reader.end_piece(text, COMMA)
}

/// Reads a list of addresses, byte by byte.
#[derive(Drop)]
struct Reader {
    /// Where the next byte stands.
    scan: Scan,
    /// The next byte stands in a domain literal.
    in_literal: bool,
    /// White space or a comment stands before the next byte.
    apart: bool,
    /// The mark before the piece that is read.
    before: u8,
    /// What is read of the piece, without white space and comments.
    text: Vec<u8>,
    /// The last byte of that; a full stop where there is none.
    last: u8,
    /// White space and comments stand in it only beside full stops and at signs.
    joined: bool,
    /// An at sign stands in it after another byte, outside quotes and domain literals.
    has_at_sign: bool,
}

impl Reader {
    ghost use Rattle.std.specs.Prelude.{◌≡◌, ◌+◌, ◌^◌, ◌<◌, ◌≤◌, ◌++◌, ◌∷◌, ◌&&◌, [], ℕ, List, false, not, OnOk};
    ghost use Rattle.mk_head.specs.Depths.{depth_of};
    ghost use Rattle.mk_head.specs.Values.{Plain, is_plain as stands_plain};
    ghost use Rattle.mk_wording.specs.AddressLists.{address_lines, in_literal as literal_past, is_gap as is_a_gap, is_list_mark, scan_beyond};
    ghost use Rattle.mk_wording.specs.inner.ReaderViews.{begun_after, begun_line, begun_of, completes, lines_to_come, sign_of, with_sign};
    ghost use Rattle.mk_wording.specs.inner.ScanViews.{scan_of};

    // Nothing is read yet.
    fn new(alloc: Global) -> Reader
        ensures lines { (value : List ℕ) → lines_to_come result value ≡ address_lines value }
        ensures depth { depth_of (scan_of result.scan) ≡ 0 }
    {
        Reader {
            scan: Scan::Plain,
            in_literal: false,
            apart: false,
            before: COMMA,
            text: Vec::new(alloc),
            last: FULL_STOP,
            joined: true,
            has_at_sign: false,
        }
    }

    // Reads a byte, and writes the line of an address that it ends.
    fn read(&mut self, text: &mut Vec<u8>, byte: u8) -> Result<(), AllocError>
        requires { depth_of (scan_of self.now.scan) + 1 < 2 ^ 64 }
        ensures lines { OnOk result ((bytes : List ℕ) → text.new.items ++ lines_to_come self.new bytes ≡ text.old.items ++ lines_to_come self.old (byte ∷ bytes)) }
        ensures depth { OnOk result (depth_of (scan_of self.new.scan) ≤ depth_of (scan_of self.old.scan) + 1) }
    {
        if self.is_mark(byte) {
            self.end_piece(text, byte)?;
            self.begin_after(byte);
            return Ok(());
        }
        if self.is_gap(byte) {
            self.apart = true;
        } else {
            self.push(byte)?;
        }
        self.go_past(byte);
        Ok(())
    }

    // Whether the byte is a mark between addresses.
    fn is_mark(&self, byte: u8) -> bool
        ensures { result ≡ is_list_mark self.now.in_literal (scan_of self.now.scan) byte }
    {
        !self.in_literal && self.scan.is_plain() && is_one_of(MARKS, byte)
    }

    // Whether the byte is part of a comment, or white space.
    fn is_gap(&self, byte: u8) -> bool
        ensures { result ≡ is_a_gap self.now.in_literal (scan_of self.now.scan) byte }
    {
        !self.in_literal && (!self.scan.keeps(byte) || self.scan.is_plain() && is_white(byte))
    }

    // Takes a byte into the piece.
    fn push(&mut self, byte: u8) -> Result<(), AllocError>
        ensures begun { OnOk result (begun_of self.new ≡ with_sign (begun_of self.old) (sign_of self.old byte)) }
        ensures apart { OnOk result (self.new.apart ≡ false) }
        ensures scan { OnOk result (self.new.scan ≡ self.old.scan) }
        ensures literal { OnOk result (self.new.in_literal ≡ self.old.in_literal) }
    {
        let joined = self.is_joined_by(byte);
        let has_at_sign = self.has_at_sign_with(byte);
        self.text.push(byte)?;
        self.joined = joined;
        self.has_at_sign = has_at_sign;
        self.last = byte;
        self.apart = false;
        Ok(())
    }

    // Whether with a byte more white space and comments still stand only beside full stops and at signs.
    fn is_joined_by(&self, byte: u8) -> bool
        ensures { result ≡ (with_sign (begun_of self.now) (sign_of self.now byte)).joined }
    {
        self.joined && (!self.apart || is_joint(self.last) || is_joint(byte))
    }

    // Whether with a byte more the piece has an at sign after another byte.
    fn has_at_sign_with(&self, byte: u8) -> bool
        ensures { result ≡ (with_sign (begun_of self.now) (sign_of self.now byte)).at_sign }
    {
        self.has_at_sign || !self.text.is_empty() && self.is_plain() && byte == AT_SIGN
    }

    // Whether the next byte stands outside quotes, comments and domain literals.
    fn is_plain(&self) -> bool
        ensures { result ≡ (not self.now.in_literal && stands_plain (scan_of self.now.scan)) }
    {
        !self.in_literal && self.scan.is_plain()
    }

    // Goes past a byte that is no mark.
    fn go_past(&mut self, byte: u8)
        requires { depth_of (scan_of self.now.scan) + 1 < 2 ^ 64 }
        ensures begun { begun_of self.new ≡ begun_of self.old }
        ensures apart { self.new.apart ≡ self.old.apart }
        ensures literal { self.new.in_literal ≡ literal_past self.old.in_literal (scan_of self.old.scan) byte }
        ensures scan { scan_of self.new.scan ≡ scan_beyond self.old.in_literal (scan_of self.old.scan) byte }
        ensures depth { depth_of (scan_of self.new.scan) ≤ depth_of (scan_of self.old.scan) + 1 }
    {
        if self.in_literal {
            self.in_literal = byte != CLOSING_BRACKET;
        } else {
            self.in_literal = self.scan.is_plain() && byte == OPENING_BRACKET;
            self.scan = self.scan.next(byte);
        }
    }

    // Writes the line of the piece, where it is an address that this mark ends.
    fn end_piece(&self, text: &mut Vec<u8>, mark: u8) -> Result<(), AllocError>
        ensures { OnOk result (text.new.items ≡ text.old.items ++ begun_line (begun_of self.now) (record { signs = []; end = mark })) }
    {
        if may_be_address(self.before, mark) && self.is_address() {
            text.extend_from_slice(&self.text)?;
            text.push(LINE_FEED)?;
        }
        Ok(())
    }

    // Whether the piece is a local part, an at sign and a domain.
    fn is_address(&self) -> bool
        ensures { result ≡ completes (begun_of self.now) [] }
    {
        self.joined && self.has_at_sign && self.last != AT_SIGN
    }

    // Begins a piece after a mark.
    fn begin_after(&mut self, mark: u8)
        ensures begun { begun_of self.new ≡ begun_after mark }
        ensures apart { self.new.apart ≡ false }
        ensures literal { self.new.in_literal ≡ false }
        ensures scan { scan_of self.new.scan ≡ Plain }
    {
        self.scan = Scan::Plain;
        self.in_literal = false;
        self.apart = false;
        self.before = mark;
        self.text.clear();
        self.last = FULL_STOP;
        self.joined = true;
        self.has_at_sign = false;
    }
}

// Whether what stands between two marks may be an address: it stands in angles, or alone.
fn may_be_address(before: u8, end: u8) -> bool
    ensures { result ≡ may_be before end }
{
    before == OPENING_ANGLE
        || end == CLOSING_ANGLE
        || before != CLOSING_ANGLE && is_one_of(ENDS, end)
}

// A byte beside which an address may have white space and comments.
fn is_joint(byte: u8) -> bool
    ensures { result ≡ joins byte }
{
    byte == FULL_STOP || byte == AT_SIGN
}
