//! The messages of a mailbox, listed by a line for each.
ghost use Rattle.std.specs.Prelude.{◌≡◌, ◌<◌, ◌+◌, ◌^◌, [], List, ℕ, length, false, IfErr, IfOk, MatchResult, OnErr, OnOk};
ghost use Rattle.std.specs.Io.KnownBytes.{Appends, Consumes, IsAtEnd};
ghost use Rattle.mk_line.specs.Meters.{ticked};
ghost use Rattle.mk_mailbox.specs.Devices.{AppendsFront};
ghost use Rattle.mk_messages.specs.MessageLines.{mailbox_lines, mailbox_listing};
ghost use Rattle.mk_transfer.specs.RunClauses.{IsBlamed, SameFailures, Sends, counts};

use crate::lines::{MessageLine, PlainLine};
use mk_mailbox::{FromLines, MailFault, Mailbox, Sink, Source};
use mk_transfer::{Cause, Stop, finish, send, writing};
use std::alloc::Global;

/// Lists the messages of the mailbox that the input gives, one per line: its number from 1, where it begins and where it ends
/// in bytes from 0, and how many sections it has. Each line goes out before the next message is read. Then the output is
/// finished. The caller is left to say why the run is given up.
pub fn try_messages<S: Source, O: Sink>(
    alloc: Global,
    input: &mut S,
    out: &mut O,
    from_lines: FromLines,
) -> Result<(), Cause>
    ensures listed { (text : List ℕ) × Consumes (S.remaining input.old) (S.remaining input.new) text
        × MatchResult result
        (λ _. Appends (O.contents out.old) (O.contents out.new) (mailbox_listing from_lines text))
        (λ _. AppendsFront (O.contents out.old) (O.contents out.new) (mailbox_listing from_lines text)) }
    ensures ended { OnOk result (IsAtEnd (S.remaining input.new)) }
    ensures blamed { IfErr result (λ cause. IsBlamed cause
        (counts (S.failures input.old) (S.read_count input.old) (O.failures out.old) 0)
        (counts (S.failures input.new) (S.read_count input.new) (O.failures out.new) 0)) }
    ensures clean { OnOk result (SameFailures
        (counts (S.failures input.old) (S.read_count input.old) (O.failures out.old) 0)
        (counts (S.failures input.new) (S.read_count input.new) (O.failures out.new) 0)) }
    ensures finished { OnOk result (O.finishes out.new ≡ ticked (O.finishes out.old)) }
    ensures unfinished { OnErr result (O.finishes out.new ≡ O.finishes out.old) }
{
    try_lines(alloc, input, out, from_lines, &PlainLine)
}

/// The same with lines of another kind.
pub fn try_lines<L: MessageLine, S: Source, O: Sink>(
    alloc: Global,
    input: &mut S,
    out: &mut O,
    from_lines: FromLines,
    lines: &L,
) -> Result<(), Cause>
    ensures listed { (text : List ℕ) × Consumes (S.remaining input.old) (S.remaining input.new) text
        × MatchResult result
        (λ _. Appends (O.contents out.old) (O.contents out.new) (mailbox_lines (L.text lines.now) from_lines text))
        (λ _. AppendsFront (O.contents out.old) (O.contents out.new) (mailbox_lines (L.text lines.now) from_lines text)) }
    ensures ended { OnOk result (IsAtEnd (S.remaining input.new)) }
    ensures blamed { IfErr result (λ cause. IsBlamed cause
        (counts (S.failures input.old) (S.read_count input.old) (O.failures out.old) 0)
        (counts (S.failures input.new) (S.read_count input.new) (O.failures out.new) 0)) }
    ensures clean { OnOk result (SameFailures
        (counts (S.failures input.old) (S.read_count input.old) (O.failures out.old) 0)
        (counts (S.failures input.new) (S.read_count input.new) (O.failures out.new) 0)) }
    ensures finished { OnOk result (O.finishes out.new ≡ ticked (O.finishes out.old)) }
    ensures unfinished { OnErr result (O.finishes out.new ≡ O.finishes out.old) }
{
    list_each(alloc, input, out, from_lines, lines)?;
    match finish(out) {
        Ok(()) => Ok(()),
        Err(stop) => Err(writing(stop)),
    }
}

// Lists the messages up to a cause to give up.
fn list_each<L: MessageLine, S: Source, O: Sink>(
    alloc: Global,
    input: &mut S,
    out: &mut O,
    from_lines: FromLines,
    lines: &L,
) -> Result<(), Cause>
    ensures listed { (text : List ℕ) × Consumes (S.remaining input.old) (S.remaining input.new) text
        × MatchResult result
        (λ _. Appends (O.contents out.old) (O.contents out.new) (mailbox_lines (L.text lines.now) from_lines text))
        (λ _. AppendsFront (O.contents out.old) (O.contents out.new) (mailbox_lines (L.text lines.now) from_lines text)) }
    ensures ended { OnOk result (IsAtEnd (S.remaining input.new)) }
    ensures blamed { IfErr result (λ cause. IsBlamed cause
        (counts (S.failures input.old) (S.read_count input.old) (O.failures out.old) 0)
        (counts (S.failures input.new) (S.read_count input.new) (O.failures out.new) 0)) }
    ensures clean { OnOk result (SameFailures
        (counts (S.failures input.old) (S.read_count input.old) (O.failures out.old) 0)
        (counts (S.failures input.new) (S.read_count input.new) (O.failures out.new) 0)) }
    ensures unfinished { O.finishes out.new ≡ O.finishes out.old }
{
    list_in(
        alloc,
        &mut Mailbox::cut_at(alloc, from_lines),
        input,
        out,
        from_lines,
        lines,
    )
}

// The same for a mailbox of which nothing was read.
fn list_in<L: MessageLine, S: Source, O: Sink>(
    alloc: Global,
    mailbox: &mut Mailbox,
    input: &mut S,
    out: &mut O,
    from_lines: FromLines,
    lines: &L,
) -> Result<(), Cause>
    requires kept { mailbox.old.kept ≡ [] }
    requires ended { mailbox.old.ended ≡ false }
    requires from_lines { mailbox.old.from_lines ≡ from_lines }
    ensures listed { (text : List ℕ) × Consumes (S.remaining input.old) (S.remaining input.new) text
        × MatchResult result
        (λ _. Appends (O.contents out.old) (O.contents out.new) (mailbox_lines (L.text lines.now) from_lines text))
        (λ _. AppendsFront (O.contents out.old) (O.contents out.new) (mailbox_lines (L.text lines.now) from_lines text)) }
    ensures ended { OnOk result (IsAtEnd (S.remaining input.new)) }
    ensures blamed { IfErr result (λ cause. IsBlamed cause
        (counts (S.failures input.old) (S.read_count input.old) (O.failures out.old) 0)
        (counts (S.failures input.new) (S.read_count input.new) (O.failures out.new) 0)) }
    ensures clean { OnOk result (SameFailures
        (counts (S.failures input.old) (S.read_count input.old) (O.failures out.old) 0)
        (counts (S.failures input.new) (S.read_count input.new) (O.failures out.new) 0)) }
    ensures unfinished { O.finishes out.new ≡ O.finishes out.old }
{
    let mut start = 0u64;
    for turn in 0..u64::MAX {
        match mailbox.next(input) {
            Ok(Some(message)) => {
                let Some(end) = start.checked_add(message.len() as u64) else {
                    return Err(Cause::Read);
                };
                match list_message(alloc, out, lines, turn + 1, start, message) {
                    Ok(()) => start = end,
                    Err(stop) => return Err(writing(stop)),
                }
            }
            Ok(None) => return Ok(()),
            Err(MailFault::ReadFault) => return Err(Cause::Read),
            Err(MailFault::Memory) => return Err(Cause::Memory),
        }
    }
    Err(Cause::Read)
}

// Writes the line of a message that begins at a place.
fn list_message<L: MessageLine, O: Sink>(
    alloc: Global,
    out: &mut O,
    lines: &L,
    number: u64,
    start: u64,
    message: Vec<u8>,
) -> Result<(), Stop>
    requires { start + length message.items < 2 ^ 64 }
    ensures sends { Sends result (L.text lines.now number start message.items)
        (O.contents out.old) (O.contents out.new) (O.failures out.old) (O.failures out.new) }
    ensures unfinished { O.finishes out.new ≡ O.finishes out.old }
{
    match lines.line(alloc, number, start, message) {
        Ok(line) => send(out, &line),
        Err(_) => Err(Stop::Memory),
    }
}
