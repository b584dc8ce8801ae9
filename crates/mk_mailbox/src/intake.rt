//! A mailbox that is read in chunks, and its messages one by one.
ghost use Rattle.std.specs.Prelude.{◌≡◌, ◌≤◌, ◌<◌, ◌+◌, ◌-◌, ◌++◌, ◌⊎◌, [], ℕ, List, true, false, length, drop, slice_index, take, IfErr, IfNone, IfOk, MatchOption, MatchResult, OnErr, OnOk};
ghost use Rattle.std.specs.Io.KnownBytes.{Consumes, IsAtEnd};
ghost use Rattle.std.specs.Option.{option_map};
ghost use Rattle.mk_line.specs.Ascii.{line_feed};
ghost use Rattle.mk_line.specs.Lines.{has_line_feed};
ghost use Rattle.mk_line.specs.Meters.{ticked};
ghost use Rattle.mk_mailbox.specs.Devices.{IsLong, Rose};
ghost use Rattle.mk_mailbox.specs.inner.Gathered.{IsChunk, IsGathered, IsLastSplit, IsOneLine, IsSplit, chunk_bytes};
ghost use Rattle.mk_mailbox.specs.inner.Intakes.{IsIntake, held_of, kept_by, unread};
ghost use Rattle.mk_mailbox.specs.Mailboxes.{FitsReads, IsKnownWhole};
ghost use Rattle.mk_mailbox.specs.inner.Answers.{Answers};

use crate::device::{CHUNK_BYTES, Fault, MOST_READS, Source};
use crate::from_lines::FromLines;
use crate::gathering::Gathered;
use crate::mailbox::MailFault;
use crate::stretches::Stretches;
use memchr::memchr;
use std::alloc::{AllocError, Global};

const LINE_FEED: u8 = b'\n';

/// The message that is gathered, and a chunk of the input, from which lines are taken.
#[derive(Drop)]
pub(crate) struct Intake {
    gathered: Gathered,
    chunk: Vec<u8>,
    at: usize,
    filled: usize,
    ended: bool,
    stretches: Stretches,
}

impl Intake {
    /// Nothing was read yet.
    pub(crate) fn new(alloc: Global, from_lines: FromLines) -> Intake
        ensures kept { kept_by result ≡ [] }
        ensures from_lines { result.gathered.from_lines ≡ from_lines }
        ensures ended { result.ended ≡ false }
        ensures intake { IsIntake result }
    {
        Intake {
            gathered: Gathered::new(alloc, from_lines),
            chunk: Vec::new(alloc),
            at: 0,
            filled: 0,
            ended: false,
            stretches: Stretches::new(),
        }
    }

    /// The next message.
    pub(crate) fn next<S: Source>(&mut self, r: &mut S) -> Result<Option<Vec<u8>>, MailFault>
        requires { IsIntake self.old }
        ensures intake { IsIntake self.new }
        ensures exact { (read : List ℕ) × Consumes (S.remaining r.old) (S.remaining r.new) read
            × (self.old.ended ≡ true → read ≡ [])
            × FitsReads read (S.read_count r.old) (S.read_count r.new)
            × MatchResult result (λ o. Answers (option_map (λ v. v.items) o) (held_of self.old) read (held_of self.new)) (λ _. kept_by self.new ≡ kept_by self.old ++ read) }
        ensures ended { self.new.ended ≡ true → (self.old.ended ≡ true) ⊎ IsAtEnd (S.remaining r.new) }
        ensures stays { self.old.ended ≡ true → (self.new.ended ≡ true) × (S.remaining r.new ≡ S.remaining r.old) }
        ensures idle { self.old.ended ≡ true → (S.read_count r.new ≡ S.read_count r.old) × (S.failures r.new ≡ S.failures r.old) }
        ensures only { self.old.ended ≡ true → IfErr result (λ e. e ≡ MailFault.Memory) }
        ensures known { IsKnownWhole self.old.gathered.from_lines (kept_by self.old)
            → (S.remaining r.new ≡ S.remaining r.old) × (S.read_count r.new ≡ S.read_count r.old) }
        ensures unknown { IfErr result (λ e. e ≡ MailFault.ReadFault
            → (IsKnownWhole self.old.gathered.from_lines (kept_by self.new) → ⊥) ⊎ IsLong (S.read_count r.old) (S.read_count r.new)) }
        ensures fault { IfErr result (λ e. e ≡ MailFault.ReadFault
            → Rose (S.failures r.old) (S.failures r.new) ⊎ IsLong (S.read_count r.old) (S.read_count r.new)) }
        ensures held { IfErr result (λ e. e ≡ MailFault.ReadFault
            → Rose (S.failures r.old) (S.failures r.new) ⊎ (2147483646 ≤ length (kept_by self.new))) }
        ensures well { OnOk result (S.failures r.new ≡ S.failures r.old) }
        ensures memory { IfErr result (λ e. e ≡ MailFault.Memory → S.failures r.new ≡ S.failures r.old) }
        ensures same { self.new.gathered.from_lines ≡ self.old.gathered.from_lines }
    {
        for _read in 0..MOST_READS {
            match self.take_lines() {
                Ok(Some(piece)) => return Ok(Some(piece)),
                Ok(None) => {}
                Err(_) => return Err(MailFault::Memory),
            }
            if self.ended {
                return self.last();
            }
            self.read(r)?;
        }
        Err(MailFault::ReadFault)
    }

    /// Takes lines from the chunk until one begins the next message, and gives the message before it; none where all
    /// lines of the chunk are taken.
    pub(crate) fn take_lines(&mut self) -> Result<Option<Vec<u8>>, AllocError>
        requires { IsIntake self.old }
        ensures intake { IsIntake self.new }
        ensures piece { IfOk result (λ o. MatchOption o (kept_by self.new ≡ kept_by self.old) (λ piece. IsSplit self.old.gathered.from_lines piece.items (kept_by self.old) (kept_by self.new))) }
        ensures taken { IfOk result (λ o. IfNone o (self.new.at ≡ self.new.filled)) }
        ensures undecided { IfOk result (λ o. IfNone o (has_line_feed (drop self.new.gathered.line self.new.gathered.bytes.items) ≡ false)) }
        ensures err { OnErr result (kept_by self.new ≡ kept_by self.old) }
        ensures ended { self.new.ended ≡ self.old.ended }
        ensures same { self.new.gathered.from_lines ≡ self.old.gathered.from_lines }
    {
        'lines: loop {
            match self.gathered.decide()? {
                Some(piece) => return Ok(Some(piece)),
                None => {}
            }
            let stretch = take_stretch(
                &mut self.gathered,
                &self.chunk,
                self.at,
                self.filled,
                &self.stretches,
            )?;
            self.at += stretch;
            if self.at == self.filled {
                return Ok(None);
            }
            let count = take_from(&mut self.gathered, &self.chunk, self.at, self.filled)?;
            self.at += count;
        }
    }

    // The first message of what is kept, where the input has ended.
    fn last(&mut self) -> Result<Option<Vec<u8>>, MailFault>
        requires intake { IsIntake self.old }
        requires taken { self.old.at ≡ self.old.filled }
        requires undecided { has_line_feed (drop self.old.gathered.line self.old.gathered.bytes.items) ≡ false }
        ensures intake { IsIntake self.new }
        ensures piece { IfOk result (λ o. MatchOption o (kept_by self.old ≡ []) (λ piece. IsLastSplit self.old.gathered.from_lines piece.items (kept_by self.old) (kept_by self.new))) }
        ensures none { IfOk result (λ o. IfNone o (kept_by self.new ≡ [])) }
        ensures err { OnErr result (kept_by self.new ≡ kept_by self.old) }
        ensures memory { IfErr result (λ e. e ≡ MailFault.Memory) }
        ensures ended { self.new.ended ≡ self.old.ended }
        ensures same { self.new.gathered.from_lines ≡ self.old.gathered.from_lines }
    {
        match self.gathered.last() {
            Ok(piece) => Ok(piece),
            Err(_) => Err(MailFault::Memory),
        }
    }

    // Refills the chunk.
    fn read<S: Source>(&mut self, r: &mut S) -> Result<(), MailFault>
        requires intake { IsIntake self.old }
        requires taken { self.old.at ≡ self.old.filled }
        requires goes_on { self.old.ended ≡ false }
        ensures intake { IsIntake self.new }
        ensures bytes { (read : List ℕ) × Consumes (S.remaining r.old) (S.remaining r.new) read
            × (kept_by self.new ≡ kept_by self.old ++ read)
            × FitsReads read (S.read_count r.old) (S.read_count r.new) }
        ensures still { OnErr result (kept_by self.new ≡ kept_by self.old) }
        ensures ended { self.new.ended ≡ true → IsAtEnd (S.remaining r.new) }
        ensures grew { OnOk result (self.new.ended ≡ false → length (kept_by self.old) < length (kept_by self.new)) }
        ensures counted { OnOk result (S.read_count r.new ≡ ticked (S.read_count r.old)) }
        ensures fault { IfErr result (λ e. e ≡ MailFault.ReadFault → Rose (S.failures r.old) (S.failures r.new)) }
        ensures well { OnOk result (S.failures r.new ≡ S.failures r.old) }
        ensures memory { IfErr result (λ e. e ≡ MailFault.Memory → S.failures r.new ≡ S.failures r.old) }
        ensures same { self.new.gathered.from_lines ≡ self.old.gathered.from_lines }
    {
        if make_room(&mut self.chunk).is_err() {
            return Err(MailFault::Memory);
        }
        match r.read(&mut self.chunk) {
            Ok(count) => {
                self.at = 0;
                self.filled = count;
                self.ended = count == 0;
                Ok(())
            }
            Err(Fault) => Err(MailFault::ReadFault),
        }
    }
}

// Takes memory for the chunk, where it has none yet.
fn make_room(chunk: &mut Vec<u8>) -> Result<(), AllocError>
    requires { length chunk.old.items ≤ chunk_bytes }
    ensures room { OnOk result (0 < length chunk.new.items) }
    ensures small { length chunk.new.items ≤ chunk_bytes }
    ensures kept { length chunk.old.items ≤ length chunk.new.items }
{
    if chunk.is_empty() {
        chunk.resize(CHUNK_BYTES, 0)
    } else {
        Ok(())
    }
}

// Takes the whole lines before the next From-line from the chunk, and answers how many bytes they have. Takes none while a
// line is gathered in part.
fn take_stretch(
    gathered: &mut Gathered,
    chunk: &[u8],
    at: usize,
    filled: usize,
    stretches: &Stretches,
) -> Result<usize, AllocError>
    requires gathered { IsGathered gathered.old.from_lines gathered.old.bytes.items gathered.old.start gathered.old.line gathered.old.after_empty }
    requires undecided { has_line_feed (drop gathered.old.line gathered.old.bytes.items) ≡ false }
    requires chunk { IsChunk chunk.now at filled }
    ensures gathered { IsGathered gathered.new.from_lines gathered.new.bytes.items gathered.new.start gathered.new.line gathered.new.after_empty }
    ensures undecided { OnOk result (has_line_feed (drop gathered.new.line gathered.new.bytes.items) ≡ false) }
    ensures ok { IfOk result (λ count. gathered.new.bytes.items ++ unread chunk.now (at + count) filled ≡ gathered.old.bytes.items ++ unread chunk.now at filled) }
    ensures within { IfOk result (λ count. at + count ≤ filled) }
    ensures err { OnErr result (gathered.new.bytes.items ≡ gathered.old.bytes.items) }
    ensures same { gathered.new.from_lines ≡ gathered.old.from_lines }
{
    if !gathered.is_between_lines() {
        return Ok(0);
    }
    let rest = &chunk[at..filled];
    let size = stretches.size(rest);
    if size == 0 {
        return Ok(0);
    }
    gathered.take_stretch(&rest[..size])?;
    Ok(size)
}

// Takes the rest of a line from the chunk, or all that is there, and answers how many bytes that was.
fn take_from(
    gathered: &mut Gathered,
    chunk: &[u8],
    at: usize,
    filled: usize,
) -> Result<usize, AllocError>
    requires gathered { IsGathered gathered.old.from_lines gathered.old.bytes.items gathered.old.start gathered.old.line gathered.old.after_empty }
    requires undecided { has_line_feed (drop gathered.old.line gathered.old.bytes.items) ≡ false }
    requires chunk { IsChunk chunk.now at filled }
    requires more { at < filled }
    ensures gathered { IsGathered gathered.new.from_lines gathered.new.bytes.items gathered.new.start gathered.new.line gathered.new.after_empty }
    ensures ok { IfOk result (λ count. gathered.new.bytes.items ++ unread chunk.now (at + count) filled ≡ gathered.old.bytes.items ++ unread chunk.now at filled) }
    ensures some { IfOk result (λ count. 0 < count) }
    ensures within { IfOk result (λ count. at + count ≤ filled) }
    ensures err { OnErr result (gathered.new.bytes.items ≡ gathered.old.bytes.items) }
    ensures same { gathered.new.from_lines ≡ gathered.old.from_lines }
{
    let rest = &chunk[at..filled];
    let count = line_end(rest);
    gathered.take(&rest[..count])?;
    Ok(count)
}

// How many bytes the first line has, with its line feed where there is one.
fn line_end(bytes: &[u8]) -> usize
    requires { 0 < length bytes.now }
    ensures line { IsOneLine (take result bytes.now) }
    ensures some { 0 < result }
    ensures within { result ≤ length bytes.now }
    ensures whole { result < length bytes.now → slice_index bytes.now (result - 1) ≡ line_feed }
{
    match memchr(LINE_FEED, bytes) {
        Some(end) => end + 1,
        None => bytes.len(),
    }
}
