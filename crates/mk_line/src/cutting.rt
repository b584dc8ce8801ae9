//! Cutting a text into lines (RFC 5322, 2.1).
ghost use Rattle.std.specs.Prelude.{◌≡◌, ◌≤◌, ◌<◌, ◌∷◌, ◌++◌, [], true, length, drop, slice_get, IfNone, IfSome};
ghost use Rattle.std.specs.Option.{option_map};
ghost use Rattle.std.specs.Iterator.{YieldsFirstBy, item_count};
ghost use Rattle.mk_line.specs.Lines.{cut as lines_of, ended, ends_open as is_open_text, eol_of as eol, closed as closed_ending, printed_line, text_line, ends_in_return as ends_in_cr};
ghost use Rattle.mk_line.specs.declared.cutting.Ending.TheVariants.{Missing};
ghost use Rattle.mk_line.specs.Meters.{ticked};
ghost use Rattle.mk_line.specs.Views.{line_of, BeginsLine};

use crate::metering::Meter;
use memchr::memchr;
use std::marker::Model;

const LINE_FEED: u8 = b'\n';

const CARRIAGE_RETURN: u8 = b'\r';

/// How a line ends.
#[derive(Clone, Copy, Debug, PartialEq, Eq)]
pub enum Ending {
    /// CR LF.
    Crlf,
    /// LF without a CR before it.
    Lf,
    /// Nothing: the last line of a text may be open, and isn't empty then.
    Missing,
}

impl Ending {
    ghost use Rattle.std.specs.Prelude.{◌≡◌};
    ghost use Rattle.mk_line.specs.Lines.{ending_bytes};

    /// The bytes of the ending: CR LF, LF or none.
    pub fn bytes(self) -> &'static [u8]
        ensures { result.now ≡ ending_bytes self }
    {
        match self {
            Ending::Crlf => b"\r\n",
            Ending::Lf => b"\n",
            Ending::Missing => b"",
        }
    }
}

/// A line of a text. A CR that isn't part of the ending belongs to the content.
#[derive(Clone, Copy, Debug, PartialEq, Eq)]
pub struct Line<'a> {
    /// The bytes before the ending.
    pub content: &'a [u8],
    pub ending: Ending,
}

impl Line<'_> {
    ghost use Rattle.std.specs.Prelude.{◌≡◌, length};
    ghost use Rattle.mk_line.specs.Lines.{printed_line};
    ghost use Rattle.mk_line.specs.Views.{line_of};

    /// How many bytes the line has, its ending included.
    pub fn size(&self) -> usize
        ensures { result ≡ length (printed_line (line_of self.now)) }
    {
        let ending = match self.ending {
            Ending::Crlf => 2,
            Ending::Lf => 1,
            Ending::Missing => 0,
        };
        self.content.len() + ending
    }
}

/// The lines of a text that are still to come, from the first on.
#[derive(Drop)]
pub struct Lines<'a> {
    rest: &'a [u8],
}

impl<'a> Model for Lines<'a> {
    ghost use Rattle.std.specs.Prelude.{List};
    ghost use Rattle.mk_line.specs.Lines.{TextLine, cut as lines_of};

    ghost Value = { List TextLine };

    ghost view = { λ l. lines_of l.rest.now };
}

impl<'a> Iterator for Lines<'a> {
    type Item = Line<'a>;

    ghost next_gives = { YieldsFirstBy line_of (λ s. s) };

    ghost remaining = { item_count (λ s. s) };

    fn next(&mut self) -> Option<Line<'a>> {
        let (line, rest) = first_line(self.rest)?;
        self.rest = rest;
        Some(line)
    }
}

/// The lines of a text, which is cut after each LF.
pub fn cut(text: &[u8]) -> Lines<'_>
    ensures lines { result ≡ lines_of text.now }
    ensures few { length result ≤ length text.now }
{
    Lines { rest: text }
}

/// The line that begins at a place, an offset in bytes from 0; `None` at the end of the text. Counts one look.
pub fn line_at<'a>(text: &'a [u8], place: usize, meter: &mut Meter) -> Option<Line<'a>>
    requires { BeginsLine text.now place }
    ensures line { option_map line_of result ≡ slice_get (lines_of (drop place text.now)) 0 }
    ensures counted { meter.new ≡ ticked meter.old }
{
    meter.tick();
    let (line, _) = first_line(&text[place..])?;
    Some(line)
}

/// The ending of a text: that of its first line, and LF where there is no line or the first is open.
pub fn eol_of(text: &[u8]) -> Ending
    ensures { result ≡ eol (lines_of text.now) }
{
    match cut(text).next() {
        Some(line) => closed(line.ending),
        None => Ending::Lf,
    }
}

/// Whether a text isn't empty and its last line has no ending.
pub fn ends_open(text: &[u8]) -> bool
    ensures { result ≡ is_open_text text.now }
{
    match text {
        [.., last] => *last != LINE_FEED,
        [] => false,
    }
}

/// The first line of a text, and the rest of the text; `None` where the text is empty.
pub fn first_line(text: &[u8]) -> Option<(Line<'_>, &[u8])>
    ensures none { IfNone result (text.now ≡ []) }
    ensures some { IfSome result (λ r. lines_of text.now ≡ line_of r.0 ∷ lines_of r.1.now) }
    ensures rest { IfSome result (λ r. text.now ≡ printed_line (line_of r.0) ++ r.1.now) }
    ensures less { IfSome result (λ r. length r.1.now < length text.now) }
{
    if text.is_empty() {
        return None;
    }
    match memchr(LINE_FEED, text) {
        Some(end) => Some((ended_line(&text[..end]), &text[end + 1..])),
        None => Some((open_line(text), &text[text.len()..])),
    }
}

// The line of these bytes, which an LF follows.
fn ended_line(bytes: &[u8]) -> Line<'_>
    ensures { line_of result ≡ ended bytes.now }
{
    if ends_in_return(bytes) {
        Line {
            content: &bytes[..bytes.len() - 1],
            ending: Ending::Crlf,
        }
    } else {
        Line {
            content: bytes,
            ending: Ending::Lf,
        }
    }
}

fn ends_in_return(bytes: &[u8]) -> bool
    ensures value { result ≡ ends_in_cr bytes.now }
    ensures room { result ≡ true → 0 < length bytes.now }
{
    match bytes {
        [.., last] => *last == CARRIAGE_RETURN,
        [] => false,
    }
}

// The one line of a text without LF.
fn open_line(text: &[u8]) -> Line<'_>
    ensures { line_of result ≡ text_line text.now Missing }
{
    Line {
        content: text,
        ending: Ending::Missing,
    }
}

// An ending for made lines: LF in the place of none.
fn closed(ending: Ending) -> Ending
    ensures { result ≡ closed_ending ending }
{
    match ending {
        Ending::Crlf => Ending::Crlf,
        Ending::Lf | Ending::Missing => Ending::Lf,
    }
}
