//! Encoding as quoted-printable (RFC 2045, 6.7).
ghost use Rattle.std.specs.Prelude.{◌≡◌, ◌≢◌, ◌<◌, ◌≤◌, ◌+◌, ◌-◌, ◌==◌, ◌++◌, ◌∷◌, [], ℕ, List, true, length, take, drop, IfOk, OnOk, IfSome, MatchOption, OnErr};
ghost use Rattle.std.specs.List.{prefix_len};
ghost use Rattle.mk_line.specs.Ascii.{is_blank as blank};
ghost use Rattle.mk_line.specs.Lines.{is_nil};
ghost use Rattle.mk_code.specs.OutputLines.{widest};
ghost use Rattle.mk_line.specs.inner.Kept.{IsKept};
ghost use Rattle.mk_code.specs.QuotedPrintable.{qp_encoded, packed, form, limit as line_limit, is_plain, is_quiet as quiet, is_guarded as guarded, escaped, hex_digit as digit_of, logical_lines};
ghost use Rattle.mk_line.specs.declared.cutting.Ending.TheVariants.{Crlf};

use crate::lanes::Quiet;
use memchr::memmem;
use mk_line::lanes::{ByteClass, run_of};
use mk_line::{Ending, is_blank, split_at_first};
use std::alloc::{AllocError, Global};

const EQUALS: u8 = b'=';

const LINE_FEED: u8 = b'\n';

const CRLF: &[u8; 2] = b"\r\n";

/// The most characters of a line.
const WIDEST: usize = 76;

/// The characters of an escaped byte.
const ESCAPE_WIDTH: usize = 3;

/// Quoted-printable, with the ending wherever the bytes have it and nothing after the last line. `-`, `.`
/// and `F` are escaped at the start of a line, so that no line is a delimiter, ends a message in SMTP or is
/// a From-line.
pub fn qp_encode(alloc: Global, bytes: &[u8], eol: Ending) -> Result<Vec<u8>, AllocError>
    requires { eol ≢ Ending.Missing }
    ensures { IfOk result (λ text. text.items ≡ qp_encoded eol bytes.now) }
{
    let mut text = Vec::new(alloc);
    push_qp(&mut text, bytes, eol)?;
    Ok(text)
}

/// Appends what `qp_encode` gives to a text. After an error the text is as before.
pub fn push_qp(text: &mut Vec<u8>, bytes: &[u8], eol: Ending) -> Result<(), AllocError>
    requires { eol ≢ Ending.Missing }
    ensures appended { OnOk result (text.new.items ≡ text.old.items ++ qp_encoded eol bytes.now) }
    ensures unchanged { OnErr result (text.new.items ≡ text.old.items) }
{
    let size = text.len();
    let pushed = push_logical_lines(text, bytes, eol);
    if pushed.is_err() {
        text.truncate(size);
    }
    pushed
}

// The same; after an error more may follow the text.
fn push_logical_lines(text: &mut Vec<u8>, bytes: &[u8], eol: Ending) -> Result<(), AllocError>
    requires { eol ≢ Ending.Missing }
    ensures appended { OnOk result (text.new.items ≡ text.old.items ++ qp_encoded eol bytes.now) }
    ensures kept { IsKept text.old.items text.new.items }
{
    text.reserve(bytes.len())?;
    let ending = eol.bytes();
    let mut rest = bytes;
    while let Some((line, following)) = split_line(rest, eol) {
        push_packed(text, line, ending)?;
        text.extend_from_slice(ending)?;
        rest = following;
    }
    push_packed(text, rest, ending)
}

// The first logical line, and what follows its ending.
fn split_line(bytes: &[u8], eol: Ending) -> Option<(&[u8], &[u8])>
    ensures lines { MatchOption result (logical_lines eol bytes.now ≡ bytes.now ∷ [])
        (λ p. logical_lines eol bytes.now ≡ p.0.now ∷ logical_lines eol p.1.now) }
    ensures less { IfSome result (λ p. length p.1.now < length bytes.now) }
{
    match eol {
        Ending::Crlf => split_at_crlf(bytes),
        Ending::Lf => split_at_first(bytes, LINE_FEED),
        Ending::Missing => None,
    }
}

fn split_at_crlf(bytes: &[u8]) -> Option<(&[u8], &[u8])>
    ensures lines { MatchOption result (logical_lines Crlf bytes.now ≡ bytes.now ∷ [])
        (λ p. logical_lines Crlf bytes.now ≡ p.0.now ∷ logical_lines Crlf p.1.now) }
    ensures less { IfSome result (λ p. length p.1.now < length bytes.now) }
{
    let at = memmem::find(bytes, CRLF)?;
    Some((&bytes[..at], &bytes[at + CRLF.len()..]))
}

// Appends a logical line, cut into output lines.
fn push_packed(out: &mut Vec<u8>, line: &[u8], eol: &[u8]) -> Result<(), AllocError>
    ensures appended { OnOk result (out.new.items ≡ out.old.items ++ packed eol.now 0 line.now) }
    ensures kept { IsKept out.old.items out.new.items }
{
    if stands_whole(line) {
        return out.extend_from_slice(line);
    }
    let mut rest = line;
    let mut column = 0;
    while let Some((byte, more)) = rest.split_first() {
        column = break_line(out, column, *byte, more, eol)?;
        column += push_form(out, column, *byte, more)?;
        let copied = push_quiet(out, column, more)?;
        column += copied;
        rest = &more[copied..];
    }
    Ok(())
}

// Whether a logical line stands for itself on one output line, as most lines of a text do; one or no byte isn't looked at.
fn stands_whole(line: &[u8]) -> bool
    ensures { result ≡ true → (eol : List ℕ) → packed eol 0 line.now ≡ line.now }
{
    let [first, .., last] = line else {
        return false;
    };
    if line.len() > WIDEST || is_guarded(*first) || is_blank(*last) {
        return false;
    }
    run_of::<Quiet>(line) == line.len()
}

// Ends the output line by a soft break where a byte's form doesn't fit on it, and says at which column the
// form begins.
fn break_line(
    out: &mut Vec<u8>,
    column: usize,
    byte: u8,
    more: &[u8],
    eol: &[u8],
) -> Result<usize, AllocError>
    requires { column ≤ widest }
    ensures room { IfOk result (λ start. start + length (form start byte more.now) ≤ line_limit more.now) }
    ensures told { IfOk result (λ start. let begun = form start byte more.now in
        out.new.items ++ (begun ++ packed eol.now (start + length begun) more.now)
        ≡ out.old.items ++ packed eol.now column (byte ∷ more.now)) }
    ensures kept { IsKept out.old.items out.new.items }
{
    if column + width(column, byte, more) <= limit(more) {
        return Ok(column);
    }
    out.push(EQUALS)?;
    out.extend_from_slice(eol)?;
    Ok(0)
}

// The greatest length of a line with a byte's form, by what follows the byte.
fn limit(more: &[u8]) -> usize
    ensures { result ≡ line_limit more.now }
{
    match more {
        [] => WIDEST,
        _ => WIDEST - 1,
    }
}

// The length of a byte's form.
fn width(column: usize, byte: u8, more: &[u8]) -> usize
    ensures value { result ≡ length (form column byte more.now) }
    ensures some { 0 < result }
    ensures few { result ≤ 3 }
{
    if stands_plain(column, byte, more) {
        1
    } else {
        ESCAPE_WIDTH
    }
}

// Appends a byte's form, and gives its length.
fn push_form(out: &mut Vec<u8>, column: usize, byte: u8, more: &[u8]) -> Result<usize, AllocError>
    ensures form { OnOk result (out.new.items ≡ out.old.items ++ form column byte more.now) }
    ensures width { IfOk result (λ width. width ≡ length (form column byte more.now)) }
    ensures some { IfOk result (λ width. 0 < width) }
    ensures kept { IsKept out.old.items out.new.items }
{
    if stands_plain(column, byte, more) {
        out.push(byte)?;
        return Ok(1);
    }
    let digits = [EQUALS, hex_digit(byte / 16), hex_digit(byte % 16)];
    out.extend_from_slice(&digits)?;
    Ok(ESCAPE_WIDTH)
}

// Appends the bytes at the start that stand for themselves after the first column, as many as surely fit on
// the line, and gives their count; the last byte of the logical line is left.
fn push_quiet(out: &mut Vec<u8>, column: usize, rest: &[u8]) -> Result<usize, AllocError>
    requires { 0 < column }
    ensures within { IfOk result (λ size. size ≤ length rest.now) }
    ensures narrow { IfOk result (λ size. column ≤ widest → column + size ≤ widest) }
    ensures told { IfOk result (λ size. (eol : List ℕ) →
        out.new.items ++ packed eol (column + size) (drop size rest.now)
        ≡ out.old.items ++ packed eol column rest.now) }
    ensures kept { IsKept out.old.items out.new.items }
{
    let room = (WIDEST - 1)
        .saturating_sub(column)
        .min(rest.len().saturating_sub(1));
    let size = run_of::<Quiet>(&rest[..room]);
    if size == 0 {
        return Ok(0);
    }
    out.extend_from_slice(&rest[..size])?;
    Ok(size)
}

fn stands_plain(column: usize, byte: u8, more: &[u8]) -> bool
    ensures { result ≡ is_plain (column == 0) (is_nil more.now) byte }
{
    Quiet::has(byte) && !(column == 0 && is_guarded(byte)) && !(more.is_empty() && is_blank(byte))
}

fn is_guarded(byte: u8) -> bool
    ensures { result ≡ guarded byte }
{
    byte == b'-' || byte == b'.' || byte == b'F'
}

// An upper case digit.
fn hex_digit(value: u8) -> u8
    requires { value < 16 }
    ensures { result ≡ digit_of value }
{
    if value < 10 {
        b'0' + value
    } else {
        b'A' + (value - 10)
    }
}
