//! Runs that print the header of an answer.

ghost use Rattle.std.specs.Prelude.{◌≡◌, true, IfErr, IfOk, OnErr, OnOk};
ghost use Rattle.mk_line.specs.Meters.{ticked};
ghost use Rattle.mk_transfer.specs.RunClauses.{IsBlamed, SameFailures, counts, ends_itself, held};
ghost use Rattle.mk_show.specs.Shown.{LeavesShownSoFar, run_of_answer};
ghost use Rattle.mk_reply.specs.Replies.{reply_to};
ghost use Rattle.mk_reply.specs.ReplyRuns.{IsReplyRun, run_of_reply};

use crate::header::reply_header;
use mk_mailbox::{Sink, Source};
use mk_show::{Answer, print};
use mk_transfer::{Cause, Status, read_all, reading};
use std::alloc::{AllocError, Global};

/// What is reported of a message without anybody who can be answered.
const NO_ADDRESS: &[u8] = b"message: NoAddress\n";

/// Prints the header of an answer to the message that the input gives, and the empty line after it. A message with neither a
/// Reply-To nor a From that says anything is reported. The caller is left to say why the run is given up.
pub fn try_reply<S: Source, O: Sink, E: Sink>(
    alloc: Global,
    input: &mut S,
    out: &mut O,
    err: &mut E,
) -> Result<Status, Cause>
    ensures leaves { LeavesShownSoFar IsReplyRun result
        (held (S.remaining input.old) (O.contents out.old) (E.contents err.old))
        (held (S.remaining input.new) (O.contents out.new) (E.contents err.new)) }
    ensures ended { IfOk result (λ status. ends_itself status ≡ true) }
    ensures blamed { IfErr result (λ cause. IsBlamed cause
        (counts (S.failures input.old) (S.read_count input.old) (O.failures out.old) (E.failures err.old))
        (counts (S.failures input.new) (S.read_count input.new) (O.failures out.new) (E.failures err.new))) }
    ensures clean { OnOk result (SameFailures
        (counts (S.failures input.old) (S.read_count input.old) (O.failures out.old) (E.failures err.old))
        (counts (S.failures input.new) (S.read_count input.new) (O.failures out.new) (E.failures err.new))) }
    ensures finished { OnOk result (O.finishes out.new ≡ ticked (O.finishes out.old)) }
    ensures unfinished { OnErr result (O.finishes out.new ≡ O.finishes out.old) }
{
    let message = match read_all(alloc, input) {
        Ok(message) => message,
        Err(stop) => return Err(reading(stop)),
    };
    match answer(alloc, &message) {
        Ok(answer) => print(out, err, &answer),
        Err(_) => Err(Cause::Memory),
    }
}

// The header of an answer, or the line that reports that nobody can be answered.
fn answer(alloc: Global, message: &[u8]) -> Result<Answer, AllocError>
    ensures { IfOk result (λ answer. run_of_answer answer ≡ run_of_reply (reply_to message.now)) }
{
    match reply_header(alloc, message)? {
        Some(header) => Ok(Answer {
            output: header,
            errors: Vec::new(alloc),
        }),
        None => Ok(Answer {
            output: Vec::new(alloc),
            errors: Vec::from_slice(alloc, NO_ADDRESS)?,
        }),
    }
}
