//! Runs that work on each message of a mailbox.

ghost use Rattle.std.specs.Prelude.{◌≡◌, ◌≤◌, ◌⊎◌, ◌∷◌, [], ℕ, List, true, false, IfErr, IfOk, OnErr, OnOk};
ghost use Rattle.std.specs.Io.KnownBytes.{Consumes, IsAtEnd};
ghost use Rattle.mk_line.specs.Meters.{ticked};
ghost use Rattle.mk_mailbox.specs.Devices.{Rose};
ghost use Rattle.mk_mailbox.specs.Pieces.{mailbox_pieces};
ghost use Rattle.mk_transfer.specs.RunClauses.{IsBlamedWith, SameFailures, counts, ends_itself, held};
ghost use Rattle.mk_messages.specs.Working.{LeavesWork, WorksOnSome, work_state};
ghost use Rattle.mk_messages.specs.inner.WorkSteps.{WorkWentWell, WorkFailed, WorksOnAll, work_failures};

use crate::work::{Answer, MessageWork};
use mk_mailbox::{FromLines, MailFault, Mailbox, Sink, Source};
use mk_transfer::{Cause, Status, Stop, finish, send, writing};
use std::alloc::Global;

/// Works on each message of the mailbox that the input gives, in turn. What is said of a message goes out before the next one is
/// read. Then the output is finished. The caller is left to say why the run is given up.
pub fn try_each<D, W: MessageWork<D>, S: Source, O: Sink, E: Sink>(
    alloc: Global,
    input: &mut S,
    out: &mut O,
    err: &mut E,
    device: &mut D,
    from_lines: FromLines,
    work: &W,
) -> Result<Status, Cause>
    ensures leaves { (text : List ℕ) × Consumes (S.remaining input.old) (S.remaining input.new) text
        × LeavesWork D (W.does work.now) (W.stops work.now) result (mailbox_pieces from_lines text)
        (held (S.remaining input.old) (O.contents out.old) (E.contents err.old))
        (held (S.remaining input.new) (O.contents out.new) (E.contents err.new))
        device.old device.new }
    ensures ended { IfOk result (λ status. ends_itself status ≡ true) }
    ensures blamed { IfErr result (λ cause. IsBlamedWith cause
        (counts (S.failures input.old) (S.read_count input.old) (O.failures out.old) (E.failures err.old))
        (counts (S.failures input.new) (S.read_count input.new) (O.failures out.new) (E.failures err.new))
        (W.failures work.now device.old) (W.failures work.now device.new)) }
    ensures clean { OnOk result (SameFailures
        (counts (S.failures input.old) (S.read_count input.old) (O.failures out.old) (E.failures err.old))
        (counts (S.failures input.new) (S.read_count input.new) (O.failures out.new) (E.failures err.new))) }
    ensures device_clean { OnOk result (W.failures work.now device.new ≡ W.failures work.now device.old) }
    ensures finished { OnOk result (O.finishes out.new ≡ ticked (O.finishes out.old)) }
    ensures unfinished { OnErr result (O.finishes out.new ≡ O.finishes out.old) }
{
    let mut mailbox = Mailbox::cut_at(alloc, from_lines);
    let refused = work_in(
        alloc,
        &mut mailbox,
        input,
        out,
        err,
        device,
        from_lines,
        work,
    )?;
    match finish(out) {
        Ok(()) => Ok(if refused {
            Status::Refused
        } else {
            Status::Well
        }),
        Err(stop) => Err(writing(stop)),
    }
}

// Works on the messages of a mailbox of which nothing was read. Answers whether one was reported.
fn work_in<D, W: MessageWork<D>, S: Source, O: Sink, E: Sink>(
    alloc: Global,
    mailbox: &mut Mailbox,
    input: &mut S,
    out: &mut O,
    err: &mut E,
    device: &mut D,
    from_lines: FromLines,
    work: &W,
) -> Result<bool, Cause>
    requires kept { mailbox.old.kept ≡ [] }
    requires ended { mailbox.old.ended ≡ false }
    requires from_lines { mailbox.old.from_lines ≡ from_lines }
    ensures all { IfOk result (λ refused. (text : List ℕ) × Consumes (S.remaining input.old) (S.remaining input.new) text
        × WorksOnAll D (W.does work.now) 1 (mailbox_pieces from_lines text) refused
        (work_state D (O.contents out.old) (E.contents err.old) device.old)
        (work_state D (O.contents out.new) (E.contents err.new) device.new)) }
    ensures some { OnErr result ((text : List ℕ) × Consumes (S.remaining input.old) (S.remaining input.new) text
        × WorksOnSome D (W.does work.now) (W.stops work.now) 1 (mailbox_pieces from_lines text)
        (work_state D (O.contents out.old) (E.contents err.old) device.old)
        (work_state D (O.contents out.new) (E.contents err.new) device.new)) }
    ensures at_end { OnOk result (IsAtEnd (S.remaining input.new)) }
    ensures blamed { IfErr result (λ cause. IsBlamedWith cause
        (counts (S.failures input.old) (S.read_count input.old) (O.failures out.old) (E.failures err.old))
        (counts (S.failures input.new) (S.read_count input.new) (O.failures out.new) (E.failures err.new))
        (W.failures work.now device.old) (W.failures work.now device.new)) }
    ensures clean { OnOk result (SameFailures
        (counts (S.failures input.old) (S.read_count input.old) (O.failures out.old) (E.failures err.old))
        (counts (S.failures input.new) (S.read_count input.new) (O.failures out.new) (E.failures err.new))) }
    ensures device_clean { OnOk result (W.failures work.now device.new ≡ W.failures work.now device.old) }
    ensures unfinished { O.finishes out.new ≡ O.finishes out.old }
{
    let mut answer = Answer::new(alloc);
    let mut start = 0u64;
    let mut refused = false;
    for turn in 0..u64::MAX {
        match mailbox.next(input) {
            Ok(Some(message)) => {
                let Some(end) = start.checked_add(message.len() as u64) else {
                    return Err(Cause::Read);
                };
                match work_on(
                    alloc,
                    out,
                    err,
                    device,
                    work,
                    turn + 1,
                    message,
                    &mut answer,
                ) {
                    Ok(reported) => refused |= reported,
                    Err(stop) => return Err(writing(stop)),
                }
                start = end;
            }
            Ok(None) => return Ok(refused),
            Err(MailFault::ReadFault) => return Err(Cause::Read),
            Err(MailFault::Memory) => return Err(Cause::Memory),
        }
    }
    Err(Cause::Read)
}

// Works on a message of a number, and sends what is said of it. Answers whether it was reported.
fn work_on<D, W: MessageWork<D>, O: Sink, E: Sink>(
    alloc: Global,
    out: &mut O,
    err: &mut E,
    device: &mut D,
    work: &W,
    number: u64,
    message: Vec<u8>,
    answer: &mut Answer,
) -> Result<bool, Stop>
    ensures all { IfOk result (λ refused. WorksOnAll D (W.does work.now) number (message.items ∷ []) refused
        (work_state D (O.contents out.old) (E.contents err.old) device.old)
        (work_state D (O.contents out.new) (E.contents err.new) device.new)) }
    ensures some { OnErr result (WorksOnSome D (W.does work.now) (W.stops work.now) number (message.items ∷ [])
        (work_state D (O.contents out.old) (E.contents err.old) device.old)
        (work_state D (O.contents out.new) (E.contents err.new) device.new)) }
    ensures failed { IfErr result (λ stop. stop ≡ Stop.Fault → WorkFailed
        (work_failures (O.failures out.old) (E.failures err.old) (W.failures work.now device.old))
        (work_failures (O.failures out.new) (E.failures err.new) (W.failures work.now device.new))) }
    ensures memory { IfErr result (λ stop. stop ≡ Stop.Memory → WorkWentWell
        (work_failures (O.failures out.old) (E.failures err.old) (W.failures work.now device.old))
        (work_failures (O.failures out.new) (E.failures err.new) (W.failures work.now device.new))) }
    ensures well { OnOk result (WorkWentWell
        (work_failures (O.failures out.old) (E.failures err.old) (W.failures work.now device.old))
        (work_failures (O.failures out.new) (E.failures err.new) (W.failures work.now device.new))) }
    ensures counted { E.failures err.old ≤ E.failures err.new }
    ensures unfinished { O.finishes out.new ≡ O.finishes out.old }
{
    answer.clear();
    let done = work.work(alloc, number, message, device, answer);
    send(out, &answer.output.text)?;
    let report: &[u8] = &answer.errors.text;
    send(err, report)?;
    done?;
    Ok(!report.is_empty())
}
