//! The messages of a mailbox, put into a folder, each into a file of its own.

ghost use Rattle.std.specs.Prelude.{◌≡◌, ◌⊎◌, true, IfErr, IfOk, OnErr, OnOk};
ghost use Rattle.mk_line.specs.Meters.{ticked};
ghost use Rattle.mk_transfer.specs.RunClauses.{IsBlamedWith, SameFailures, counts, ends_itself, held};
ghost use Rattle.mk_transfer.specs.Said.{silence};
ghost use Rattle.mk_show.specs.Unpacking.{exists_line as line_of_exists};
ghost use Rattle.mk_split.specs.Splitting.{PutsMessage, file_text, put_line as line_of_put};
ghost use Rattle.mk_split.specs.SplitClauses.{LeavesSplit, PutsPart};

use crate::template::Template;
use crate::texts::after_from_line;
use mk_mailbox::{FromLines, Sink, Source};
use mk_messages::{Answer, MessageWork, try_each, unmarked, without_separator};
use mk_show::{Content, Folder};
use mk_transfer::{Cause, Status, Stop};
use std::alloc::{AllocError, Global};

/// How a mailbox is split.
#[derive(Clone, Copy, Debug)]
pub struct SplitOptions<'a> {
    /// Which From-lines begin a message.
    pub from_lines: FromLines,
    /// How the files are named, by the number of a message from 1.
    pub names: &'a Template<'a>,
    /// Files that have such a name already are overwritten.
    pub over: bool,
    /// The names aren't printed.
    pub silent: bool,
    /// The From-lines that begin the messages aren't written.
    pub bare: bool,
    /// Lines that the mailbox has marked lose one mark.
    pub unquote: bool,
}

/// Puts each message of the mailbox that the input gives into a file of its own, without the empty line that ends it there, and
/// prints the name of the file. A message is put before the next one is read. Where a file has the name already, the message is
/// reported and left out, unless files may be overwritten. The caller is left to say why the run is given up.
pub fn try_split<S: Source, O: Sink, E: Sink, F: Folder>(
    alloc: Global,
    input: &mut S,
    out: &mut O,
    err: &mut E,
    dir: &mut F,
    options: &SplitOptions<'_>,
) -> Result<Status, Cause>
    ensures leaves { LeavesSplit options.now result
        (held (S.remaining input.old) (O.contents out.old) (E.contents err.old))
        (held (S.remaining input.new) (O.contents out.new) (E.contents err.new))
        (F.files dir.old) (F.files dir.new) }
    ensures ended { IfOk result (λ status. ends_itself status ≡ true) }
    ensures blamed { IfErr result (λ cause. IsBlamedWith cause
        (counts (S.failures input.old) (S.read_count input.old) (O.failures out.old) (E.failures err.old))
        (counts (S.failures input.new) (S.read_count input.new) (O.failures out.new) (E.failures err.new))
        (F.failures dir.old) (F.failures dir.new)) }
    ensures clean { OnOk result (SameFailures
        (counts (S.failures input.old) (S.read_count input.old) (O.failures out.old) (E.failures err.old))
        (counts (S.failures input.new) (S.read_count input.new) (O.failures out.new) (E.failures err.new))) }
    ensures folder_clean { OnOk result (F.failures dir.new ≡ F.failures dir.old) }
    ensures finished { OnOk result (O.finishes out.new ≡ ticked (O.finishes out.old)) }
    ensures unfinished { OnErr result (O.finishes out.new ≡ O.finishes out.old) }
{
    try_each(alloc, input, out, err, dir, options.from_lines, options)
}

impl<F: Folder> MessageWork<F> for SplitOptions<'_> {
    ghost does = { λ o number message said old new. PutsMessage o number message said (F.files old) (F.files new) };

    ghost stops = { λ o number message said old new. (said ≡ silence) × PutsPart o number message (F.files old) (F.files new) };

    ghost failures = { λ _ dir. F.failures dir };

    fn work(
        &self,
        alloc: Global,
        number: u64,
        message: Vec<u8>,
        dir: &mut F,
        answer: &mut Answer,
    ) -> Result<(), Stop> {
        let name = self.names.name(alloc, number)?;
        let text = text_of(alloc, self, message)?;
        let line = put_line(alloc, self.silent, &name)?;
        if dir.put(&name, &mut Content::of(alloc, &text), self.over)? {
            answer.output.text = line;
        } else {
            answer.errors.text = taken_line(alloc, &name)?;
        }
        Ok(())
    }
}

// What of a message goes into its file.
fn text_of(
    alloc: Global,
    options: &SplitOptions<'_>,
    message: Vec<u8>,
) -> Result<Vec<u8>, AllocError>
    ensures { IfOk result (λ text. text.items ≡ file_text options.now message.items) }
{
    let alone = without_separator(message);
    let text = if options.bare {
        after_from_line(&alone)
    } else {
        &alone
    };
    if options.unquote {
        unmarked(alloc, text)
    } else {
        Vec::from_slice(alloc, text)
    }
}

// The line that says which file was put, unless nothing is to be said.
fn put_line(alloc: Global, silent: bool, name: &[u8]) -> Result<Vec<u8>, AllocError>
    ensures { IfOk result (λ line. line.items ≡ line_of_put silent name.now) }
{
    let mut line = Vec::new(alloc);
    if !silent {
        line.extend_from_slice(name)?;
        line.extend_from_slice(b"\n")?;
    }
    Ok(line)
}

// The line that reports that a file has a name already.
fn taken_line(alloc: Global, name: &[u8]) -> Result<Vec<u8>, AllocError>
    ensures { IfOk result (λ line. line.items ≡ line_of_exists name.now) }
{
    let mut line = Vec::from_slice(alloc, name)?;
    line.extend_from_slice(b": exists\n")?;
    Ok(line)
}
