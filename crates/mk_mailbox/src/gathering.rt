//! A message of a mailbox, gathered by lines and by stretches of lines.
ghost use Rattle.std.specs.Prelude.{◌≡◌, ◌≢◌, ◌<◌, ◌++◌, [], ◌∷◌, ℕ, List, true, false, length, drop, nat_lt, take, IfOk, IfNone, MatchOption, OnErr, OnOk};
ghost use Rattle.mk_line.specs.Ascii.{carriage_return};
ghost use Rattle.mk_line.specs.Lines.{cut as lines_of, ended, ends_open as is_open_text, has_line_feed};
ghost use Rattle.mk_mailbox.specs.inner.Gathered.{AreQuiet, IsGathered, IsLastSplit, IsOneLine, IsSplit, IsWholeLine, told_by};
ghost use Rattle.mk_mailbox.specs.Pieces.{may_begin};
ghost use Rattle.mk_mailbox.specs.Places.{ends_empty};

use crate::from_lines::FromLines;
use mk_line::{ends_open, name_len};
use std::alloc::{AllocError, Global};
use std::mem;

const LINE_FEED: u8 = b'\n';

const CARRIAGE_RETURN: &[u8; 1] = b"\r";

/// The lines of a message so far. The lines after a place may still turn out to begin the next message:
/// a From-line that waits for a field, if there is one, and then at most one line.
#[derive(Drop)]
pub(crate) struct Gathered {
    pub(crate) bytes: Vec<u8>,
    /// That place.
    pub(crate) start: usize,
    /// Where the last of these lines begins.
    pub(crate) line: usize,
    /// Whether the line before that place is empty.
    pub(crate) after_empty: bool,
    /// Which lines begin a message.
    pub(crate) from_lines: FromLines,
}

/// What the last line tells.
#[derive(Clone, Copy, Debug, PartialEq, Eq)]
enum Told {
    /// A message begins at the place.
    Begins,
    /// A message begins there where the next line is a field.
    Waits,
    /// The lines belong to the message before them.
    Belongs,
}

impl Gathered {
    /// No line of a message yet.
    pub(crate) fn new(alloc: Global, from_lines: FromLines) -> Gathered
        ensures bytes { result.bytes.items ≡ [] }
        ensures from_lines { result.from_lines ≡ from_lines }
        ensures gathered { IsGathered from_lines result.bytes.items result.start result.line result.after_empty }
    {
        Gathered {
            bytes: Vec::new(alloc),
            start: 0,
            line: 0,
            after_empty: false,
            from_lines,
        }
    }

    // The last line, which isn't known yet.
    fn undecided(&self) -> &[u8]
        requires { IsGathered self.now.from_lines self.now.bytes.items self.now.start self.now.line self.now.after_empty }
        ensures { result.now ≡ drop self.now.line self.now.bytes.items }
    {
        &self.bytes[self.line..]
    }

    // All that isn't known yet.
    fn after_place(&self) -> &[u8]
        requires { IsGathered self.now.from_lines self.now.bytes.items self.now.start self.now.line self.now.after_empty }
        ensures { result.now ≡ drop self.now.start self.now.bytes.items }
    {
        &self.bytes[self.start..]
    }

    /// Puts more of that line after it.
    pub(crate) fn take(&mut self, bytes: &[u8]) -> Result<(), AllocError>
        requires gathered { IsGathered self.old.from_lines self.old.bytes.items self.old.start self.old.line self.old.after_empty }
        requires undecided { has_line_feed (drop self.old.line self.old.bytes.items) ≡ false }
        requires one_line { IsOneLine bytes.now }
        ensures gathered { IsGathered self.new.from_lines self.new.bytes.items self.new.start self.new.line self.new.after_empty }
        ensures ok { OnOk result (self.new.bytes.items ≡ self.old.bytes.items ++ bytes.now) }
        ensures err { OnErr result (self.new.bytes.items ≡ self.old.bytes.items) }
        ensures same { self.new.from_lines ≡ self.old.from_lines }
    {
        self.bytes.extend_from_slice(bytes)
    }

    /// Whether no byte stands after the place.
    pub(crate) fn is_between_lines(&self) -> bool
        ensures { result ≡ true → self.now.start ≡ length self.now.bytes.items }
    {
        self.start == self.bytes.len()
    }

    /// Takes whole lines to the message. None of them can begin another.
    pub(crate) fn take_stretch(&mut self, lines: &[u8]) -> Result<(), AllocError>
        requires gathered { IsGathered self.old.from_lines self.old.bytes.items self.old.start self.old.line self.old.after_empty }
        requires between { self.old.start ≡ length self.old.bytes.items }
        requires quiet { AreQuiet lines.now }
        requires some { 0 < length lines.now }
        ensures gathered { IsGathered self.new.from_lines self.new.bytes.items self.new.start self.new.line self.new.after_empty }
        ensures undecided { OnOk result (has_line_feed (drop self.new.line self.new.bytes.items) ≡ false) }
        ensures ok { OnOk result (self.new.bytes.items ≡ self.old.bytes.items ++ lines.now) }
        ensures err { OnErr result (self.new.bytes.items ≡ self.old.bytes.items) }
        ensures same { self.new.from_lines ≡ self.old.from_lines }
    {
        self.bytes.extend_from_slice(lines)?;
        self.start = self.bytes.len();
        self.line = self.start;
        self.after_empty = end_with_empty(lines);
        Ok(())
    }

    /// Where the line has come to its end: takes it to the message, or gives the message before it.
    pub(crate) fn decide(&mut self) -> Result<Option<Vec<u8>>, AllocError>
        requires { IsGathered self.old.from_lines self.old.bytes.items self.old.start self.old.line self.old.after_empty }
        ensures piece { IfOk result (λ o. MatchOption o (self.new.bytes.items ≡ self.old.bytes.items) (λ piece. IsSplit self.old.from_lines piece.items self.old.bytes.items self.new.bytes.items)) }
        ensures undecided { IfOk result (λ o. IfNone o (has_line_feed (drop self.new.line self.new.bytes.items) ≡ false)) }
        ensures gathered { IsGathered self.new.from_lines self.new.bytes.items self.new.start self.new.line self.new.after_empty }
        ensures err { OnErr result (self.new.bytes.items ≡ self.old.bytes.items) }
        ensures same { self.new.from_lines ≡ self.old.from_lines }
    {
        let Some(content) = whole_line(self.undecided()) else {
            return Ok(None);
        };
        let is_empty = content.is_empty();
        match self.told(content) {
            Told::Begins => Ok(Some(self.split()?)),
            Told::Waits => {
                self.line = self.bytes.len();
                Ok(None)
            }
            Told::Belongs => {
                self.after_empty = is_empty;
                self.start = self.bytes.len();
                self.line = self.start;
                Ok(None)
            }
        }
    }

    // What the last line tells, by its content.
    fn told(&self, content: &[u8]) -> Told
        ensures { result ≡ told_by self.now.from_lines (nat_lt self.now.start self.now.line) self.now.after_empty content.now }
    {
        if self.start < self.line {
            if name_len(content).is_some() {
                return Told::Begins;
            }
            return Told::Belongs;
        }
        if !begins_message(self.from_lines, self.after_empty, content) {
            return Told::Belongs;
        }
        if self.from_lines.needs_field() {
            return Told::Waits;
        }
        Told::Begins
    }

    /// Gives the first message of what was gathered, where the input has ended.
    pub(crate) fn last(&mut self) -> Result<Option<Vec<u8>>, AllocError>
        requires gathered { IsGathered self.old.from_lines self.old.bytes.items self.old.start self.old.line self.old.after_empty }
        requires undecided { has_line_feed (drop self.old.line self.old.bytes.items) ≡ false }
        ensures piece { IfOk result (λ o. MatchOption o (self.old.bytes.items ≡ []) (λ piece. IsLastSplit self.old.from_lines piece.items self.old.bytes.items self.new.bytes.items)) }
        ensures none { IfOk result (λ o. IfNone o (self.new.bytes.items ≡ [])) }
        ensures gathered { IsGathered self.new.from_lines self.new.bytes.items self.new.start self.new.line self.new.after_empty }
        ensures err { OnErr result (self.new.bytes.items ≡ self.old.bytes.items) }
        ensures same { self.new.from_lines ≡ self.old.from_lines }
    {
        if let Told::Begins = self.told(self.undecided()) {
            return Ok(Some(self.split()?));
        }
        if self.bytes.is_empty() {
            return Ok(None);
        }
        Ok(Some(self.hand_out()))
    }

    // Gives the bytes before the place, and begins a message with those after it, of which the last line isn't known then.
    fn split(&mut self) -> Result<Vec<u8>, AllocError>
        requires { IsGathered self.old.from_lines self.old.bytes.items self.old.start self.old.line self.old.after_empty }
        ensures piece { IfOk result (λ piece. piece.items ≡ take self.old.start self.old.bytes.items) }
        ensures rest { OnOk result (self.new.bytes.items ≡ drop self.old.start self.old.bytes.items) }
        ensures gathered { IsGathered self.new.from_lines self.new.bytes.items self.new.start self.new.line self.new.after_empty }
        ensures err { OnErr result (self.new.bytes.items ≡ self.old.bytes.items) }
        ensures same { self.new.from_lines ≡ self.old.from_lines }
    {
        let rest = Vec::from_slice(*self.bytes.allocator(), self.after_place())?;
        self.bytes.truncate(self.start);
        self.line -= self.start;
        self.start = self.line;
        self.after_empty = false;
        Ok(mem::replace(&mut self.bytes, rest))
    }

    // Gives all that was gathered.
    fn hand_out(&mut self) -> Vec<u8>
        ensures all { result.items ≡ self.old.bytes.items }
        ensures none { self.new.bytes.items ≡ [] }
        ensures same { self.new.from_lines ≡ self.old.from_lines }
        ensures gathered { IsGathered self.new.from_lines self.new.bytes.items self.new.start self.new.line self.new.after_empty }
    {
        let none = Vec::new(*self.bytes.allocator());
        self.start = 0;
        self.line = 0;
        self.after_empty = false;
        mem::replace(&mut self.bytes, none)
    }
}

// The content of a line that has its line feed; none where there is no line feed.
fn whole_line(line: &[u8]) -> Option<&[u8]>
    requires { IsOneLine line.now }
    ensures { MatchOption result (has_line_feed line.now ≡ false) (λ content. IsWholeLine line.now content.now) }
{
    match line {
        [before @ .., last] => {
            if *last == LINE_FEED {
                Some(content_of(before))
            } else {
                None
            }
        }
        [] => None,
    }
}

// The content of the line of these bytes, which an LF follows.
fn content_of(bytes: &[u8]) -> &[u8]
    ensures { result.now ≡ (ended bytes.now).content }
{
    match before_return(bytes) {
        Some(content) => content,
        None => bytes,
    }
}

/// Whether the last of these whole lines is empty.
pub(crate) fn end_with_empty(lines: &[u8]) -> bool
    requires { is_open_text lines.now ≡ false }
    ensures { result ≡ ends_empty false (lines_of lines.now) }
{
    match lines {
        [before @ .., _feed] => !ends_open(content_of(before)),
        [] => false,
    }
}

// What stands before a CR at the end.
fn before_return(bytes: &[u8]) -> Option<&[u8]>
    ensures { MatchOption result ((front : List ℕ) → bytes.now ≢ front ++ carriage_return ∷ []) (λ front. bytes.now ≡ front.now ++ carriage_return ∷ []) }
{
    bytes.strip_suffix(CARRIAGE_RETURN)
}

// Whether a line begins a message, by whether the line before it is empty, if what follows allows that.
fn begins_message(from_lines: FromLines, after_empty: bool, content: &[u8]) -> bool
    ensures { result ≡ may_begin from_lines after_empty content.now }
{
    after_empty && from_lines.begin_with(content)
}
