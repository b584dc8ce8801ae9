//! One message of a mailbox.
ghost use Rattle.std.specs.Prelude.{◌≡◌, ◌<◌, ◌-◌, ◌⊎◌, List, ℕ, IfOk, IfErr, IfSome, OnOk, slice_get};
ghost use Rattle.std.specs.Io.KnownBytes.{Consumes};
ghost use Rattle.std.specs.Option.{option_map};
ghost use Rattle.mk_mailbox.specs.Devices.{IsLong, Rose};
ghost use Rattle.mk_mailbox.specs.Pieces.{mailbox_pieces};
ghost use Rattle.mk_messages.specs.MessageLines.{missing_line};
ghost use Rattle.mk_transfer.specs.RunClauses.{Sends};

use mk_mailbox::{FromLines, MailFault, Mailbox, Sink, Source};
use mk_transfer::{Stop, send};
use std::alloc::Global;

/// The message of a number, from 1, of the mailbox that the input gives; `None` if it has fewer. The messages before it are
/// read one at a time and dropped, and of what follows it nothing is read but the rest of a chunk.
pub fn pick<S: Source>(
    alloc: Global,
    input: &mut S,
    from_lines: FromLines,
    number: u32,
) -> Result<Option<Vec<u8>>, Stop>
    requires { 0 < number }
    ensures picked { IfOk result (λ message. IfSome (S.remaining input.old)
        (λ mailbox. option_map (λ v. v.items) message ≡ slice_get (mailbox_pieces from_lines mailbox) (number - 1))) }
    ensures bytes { (read : List ℕ) × Consumes (S.remaining input.old) (S.remaining input.new) read }
    ensures well { OnOk result (S.failures input.new ≡ S.failures input.old) }
    ensures fault { IfErr result (λ stop. stop ≡ Stop.Fault
        → Rose (S.failures input.old) (S.failures input.new)
        ⊎ IsLong (S.read_count input.old) (S.read_count input.new)) }
    ensures memory { IfErr result (λ stop. stop ≡ Stop.Memory → S.failures input.new ≡ S.failures input.old) }
{
    let mut mailbox = Mailbox::cut_at(alloc, from_lines);
    for turn in 0..number {
        match mailbox.next(input) {
            Ok(Some(message)) => {
                if turn + 1 == number {
                    return Ok(Some(message));
                }
            }
            Ok(None) => return Ok(None),
            Err(MailFault::ReadFault) => return Err(Stop::Fault),
            Err(MailFault::Memory) => return Err(Stop::Memory),
        }
    }
    Ok(None)
}

/// Reports that a mailbox has fewer messages than this number.
pub fn report_missing<E: Sink>(alloc: Global, err: &mut E, number: u32) -> Result<(), Stop>
    ensures { Sends result (missing_line number)
        (E.contents err.old) (E.contents err.new) (E.failures err.old) (E.failures err.new) }
{
    match format!(in alloc; "message {number}: NoSuchMessage\n") {
        Ok(line) => send(err, line.as_bytes()),
        Err(_) => Err(Stop::Memory),
    }
}
