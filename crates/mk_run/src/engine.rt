//! The run of a script on a message, over any devices.

ghost use Rattle.std.specs.Prelude.{◌≡◌, ◌≢◌, ◌≤◌, ◌⊎◌, true, false, [], length, IfOk, IfErr, OnOk, OnErr};
ghost use Rattle.std.specs.Io.KnownBytes.{Appends, Keeps};
ghost use Rattle.mk_line.specs.Meters.{ticked};
ghost use Rattle.mk_mailbox.specs.Devices.{AppendsFront, Rose};
ghost use Rattle.mk_expand.specs.Pieces.{as_given};
ghost use Rattle.mk_expand.specs.Views.{pieces_of};
ghost use Rattle.mk_script.specs.ScriptViews.{items_of};
ghost use Rattle.mk_run.specs.Journaling.{journaling_of};
ghost use Rattle.mk_run.specs.JournalRuns.{LeavesBy, LeavesOpen, LeavesRun, LeavesSteps, Prints, SinkFailed, StaysOpen, finished};
ghost use Rattle.mk_run.specs.Runs.{run_from, run_of, run_of_rounds, run_on, run_steps as run_steps_of};
ghost use Rattle.mk_script.specs.Reasons.{steps_of};
ghost use Rattle.mk_transfer.specs.RunClauses.{held, counts, reason_with, IsBlamedWith, SameFailures, ReadFailed, ends_itself};
ghost use Rattle.mk_field.specs.FilterViews.{filter_of, is_allowed};
ghost use Rattle.mk_run.specs.inner.Doings.{doing_of, may_be_done};
ghost use Rattle.mk_run.specs.inner.Sessions.{LeavesSession, sunk};

use crate::journaling::{Journal, begin, is_memory, journal_of};
use crate::report::{report_journal, report_syntax};
use crate::scripts::Script;
use crate::work::Work;
use mk_edit::Session;
use mk_expand::Pieces;
use mk_field::FieldFilter;
use mk_mail::{Sink, Source};
use mk_script::ScriptError;
use mk_transfer::{Cause, Status, Stop, finish, give_up, read_all, reading, send, writing};
use std::alloc::{AllocError, Global};

/// Edits the message that the input gives by the steps of a script, and prints the result.
/// Each refusal is reported as it comes, and doesn't end the run; a refused journal does.
/// The journal is written once the whole message has gone out. Then the output is finished, and after it the journal.
pub fn run_edit<S: Source, O: Sink, E: Sink, J: Sink>(
    alloc: Global,
    input: &mut S,
    out: &mut O,
    err: &mut E,
    script: &[u8],
    pieces: &[Vec<u8>],
    journal: Journal<'_>,
    jout: &mut J,
) -> Status
    ensures leaves { let before = counts (S.failures input.old) (S.read_count input.old) (O.failures out.old) (E.failures err.old) in
        let after = counts (S.failures input.new) (S.read_count input.new) (O.failures out.new) (E.failures err.new) in
        LeavesRun (reason_with before after (J.failures jout.old) (J.failures jout.new)) result (as_given (items_of pieces.now)) (journaling_of journal.entry) script.now
        (held (S.remaining input.old) (O.contents out.old) (E.contents err.old))
        (held (S.remaining input.new) (O.contents out.new) (E.contents err.new))
        (J.contents jout.old) (J.contents jout.new) (J.finishes jout.old) (J.finishes jout.new) }

    // A fault is answered only if a device failed, or if so much was read that reading was given up.
    ensures blamed { result ≡ Status.Fault →
        let before = counts (S.failures input.old) (S.read_count input.old) (O.failures out.old) (E.failures err.old) in
        let after = counts (S.failures input.new) (S.read_count input.new) (O.failures out.new) (E.failures err.new) in
        ReadFailed before after ⊎ SinkFailed before after (J.failures jout.old) (J.failures jout.new) }

    // A run in which a device failed is given up.
    ensures clean { ends_itself result ≡ true → SameFailures
        (counts (S.failures input.old) (S.read_count input.old) (O.failures out.old) (E.failures err.old))
        (counts (S.failures input.new) (S.read_count input.new) (O.failures out.new) (E.failures err.new)) }
    ensures kept { ends_itself result ≡ true → J.failures jout.new ≡ J.failures jout.old }

    // The output is finished if the message goes out. A run that is given up finishes neither device, unless the whole journal
    // has gone out and its device fails last.
    ensures prints { Prints result (journaling_of journal.entry)
        (held (S.remaining input.old) (O.contents out.old) (E.contents err.old))
        (held (S.remaining input.new) (O.contents out.new) (E.contents err.new)) (O.finishes out.old) (O.finishes out.new) }
    ensures unfinished { ends_itself result ≡ false → LeavesOpen (λ message. run_of (as_given (items_of pieces.now)) (journaling_of journal.entry) message script.now)
        (held (S.remaining input.old) (O.contents out.old) (E.contents err.old))
        (held (S.remaining input.new) (O.contents out.new) (E.contents err.new))
        (J.contents jout.old) (J.contents jout.new) (J.failures jout.old) (J.failures jout.new)
        (finished (O.finishes out.old) (J.finishes jout.old)) (finished (O.finishes out.new) (J.finishes jout.new)) }
{
    let script = Script {
        text: script,
        as_one: false,
    };
    let pieces = Pieces {
        texts: pieces,
        turned: false,
    };
    match try_edit(alloc, input, out, err, script, pieces, journal, jout) {
        Ok(status) => status,
        Err(cause) => give_up(err, cause),
    }
}

/// Does the same by a script of either kind, and leaves it to the caller to say why the run is given up. The whole script
/// is read before any of the message.
pub fn try_edit<S: Source, O: Sink, E: Sink, J: Sink>(
    alloc: Global,
    input: &mut S,
    out: &mut O,
    err: &mut E,
    script: Script<'_>,
    pieces: Pieces<'_>,
    journal: Journal<'_>,
    jout: &mut J,
) -> Result<Status, Cause>
    ensures leaves { LeavesSteps result (pieces_of pieces.entry) (journaling_of journal.entry) (steps_of script.entry.as_one (length pieces.entry.texts.now) script.entry.text.now)
        (held (S.remaining input.old) (O.contents out.old) (E.contents err.old))
        (held (S.remaining input.new) (O.contents out.new) (E.contents err.new))
        (J.contents jout.old) (J.contents jout.new) (J.finishes jout.old) (J.finishes jout.new) }
    ensures ended { IfOk result (λ status. ends_itself status ≡ true) }
    ensures blamed { IfErr result (λ cause. IsBlamedWith cause
        (counts (S.failures input.old) (S.read_count input.old) (O.failures out.old) (E.failures err.old))
        (counts (S.failures input.new) (S.read_count input.new) (O.failures out.new) (E.failures err.new))
        (J.failures jout.old) (J.failures jout.new)) }
    ensures clean { OnOk result (SameFailures
        (counts (S.failures input.old) (S.read_count input.old) (O.failures out.old) (E.failures err.old))
        (counts (S.failures input.new) (S.read_count input.new) (O.failures out.new) (E.failures err.new))) }
    ensures kept { OnOk result (J.failures jout.new ≡ J.failures jout.old) }
    ensures prints { IfOk result (λ status. Prints status (journaling_of journal.entry)
        (held (S.remaining input.old) (O.contents out.old) (E.contents err.old))
        (held (S.remaining input.new) (O.contents out.new) (E.contents err.new)) (O.finishes out.old) (O.finishes out.new)) }
    ensures unfinished { OnErr result (LeavesOpen (λ message. run_steps_of (pieces_of pieces.entry) (journaling_of journal.entry) message (steps_of script.entry.as_one (length pieces.entry.texts.now) script.entry.text.now))
        (held (S.remaining input.old) (O.contents out.old) (E.contents err.old))
        (held (S.remaining input.new) (O.contents out.new) (E.contents err.new))
        (J.contents jout.old) (J.contents jout.new) (J.failures jout.old) (J.failures jout.new)
        (finished (O.finishes out.old) (J.finishes jout.old)) (finished (O.finishes out.new) (J.finishes jout.new))) }
{
    match script.steps(alloc, pieces.texts.len()) {
        Ok(steps) => {
            let work = Work::Steps { steps, pieces };
            run_work(alloc, input, out, err, work, journal, jout)
        }
        Err(ScriptError::Syntax(number)) => match report_syntax(alloc, err, number) {
            Ok(()) => Ok(Status::Usage),
            Err(stop) => Err(writing(stop)),
        },
        Err(ScriptError::Memory) => Err(Cause::Memory),
    }
}

/// Filters the fields of a section of the message that the input gives by the rounds of a filter, as one step of its history, and
/// prints the result. What else the filter says is not asked. Where an edit is refused the message is printed as it came, and
/// reported, and no step is made. The journal is kept as `try_edit` keeps it.
pub fn try_field_in_journal<S: Source, O: Sink, E: Sink, J: Sink>(
    alloc: Global,
    input: &mut S,
    out: &mut O,
    err: &mut E,
    filter: &FieldFilter<'_>,
    journal: Journal<'_>,
    jout: &mut J,
) -> Result<Status, Cause>
    requires { is_allowed (filter_of filter.now) ≡ true }
    ensures leaves { LeavesBy (run_of_rounds (filter_of filter.now).path (filter_of filter.now).rounds (journaling_of journal.entry)) result
        (held (S.remaining input.old) (O.contents out.old) (E.contents err.old))
        (held (S.remaining input.new) (O.contents out.new) (E.contents err.new))
        (J.contents jout.old) (J.contents jout.new) (J.finishes jout.old) (J.finishes jout.new) }
    ensures ended { IfOk result (λ status. ends_itself status ≡ true) }
    ensures blamed { IfErr result (λ cause. IsBlamedWith cause
        (counts (S.failures input.old) (S.read_count input.old) (O.failures out.old) (E.failures err.old))
        (counts (S.failures input.new) (S.read_count input.new) (O.failures out.new) (E.failures err.new))
        (J.failures jout.old) (J.failures jout.new)) }
    ensures clean { OnOk result (SameFailures
        (counts (S.failures input.old) (S.read_count input.old) (O.failures out.old) (E.failures err.old))
        (counts (S.failures input.new) (S.read_count input.new) (O.failures out.new) (E.failures err.new))) }
    ensures kept { OnOk result (J.failures jout.new ≡ J.failures jout.old) }
    ensures prints { IfOk result (λ status. Prints status (journaling_of journal.entry)
        (held (S.remaining input.old) (O.contents out.old) (E.contents err.old))
        (held (S.remaining input.new) (O.contents out.new) (E.contents err.new)) (O.finishes out.old) (O.finishes out.new)) }
    ensures unfinished { OnErr result (LeavesOpen (run_of_rounds (filter_of filter.now).path (filter_of filter.now).rounds (journaling_of journal.entry))
        (held (S.remaining input.old) (O.contents out.old) (E.contents err.old))
        (held (S.remaining input.new) (O.contents out.new) (E.contents err.new))
        (J.contents jout.old) (J.contents jout.new) (J.failures jout.old) (J.failures jout.new)
        (finished (O.finishes out.old) (J.finishes jout.old)) (finished (O.finishes out.new) (J.finishes jout.new))) }
{
    let work = Work::Rounds {
        path: filter.path,
        rounds: filter.rounds,
    };
    run_work(alloc, input, out, err, work, journal, jout)
}

// Runs what is to be done up to a cause to give up.
fn run_work<S: Source, O: Sink, E: Sink, J: Sink>(
    alloc: Global,
    input: &mut S,
    out: &mut O,
    err: &mut E,
    work: Work<'_>,
    journal: Journal<'_>,
    jout: &mut J,
) -> Result<Status, Cause>
    requires { may_be_done (doing_of work) ≡ true }
    ensures leaves { LeavesBy (run_on (doing_of work.entry) (journaling_of journal.entry)) result
        (held (S.remaining input.old) (O.contents out.old) (E.contents err.old))
        (held (S.remaining input.new) (O.contents out.new) (E.contents err.new))
        (J.contents jout.old) (J.contents jout.new) (J.finishes jout.old) (J.finishes jout.new) }
    ensures ended { IfOk result (λ status. ends_itself status ≡ true) }
    ensures blamed { IfErr result (λ cause. IsBlamedWith cause
        (counts (S.failures input.old) (S.read_count input.old) (O.failures out.old) (E.failures err.old))
        (counts (S.failures input.new) (S.read_count input.new) (O.failures out.new) (E.failures err.new))
        (J.failures jout.old) (J.failures jout.new)) }
    ensures clean { OnOk result (SameFailures
        (counts (S.failures input.old) (S.read_count input.old) (O.failures out.old) (E.failures err.old))
        (counts (S.failures input.new) (S.read_count input.new) (O.failures out.new) (E.failures err.new))) }
    ensures kept { OnOk result (J.failures jout.new ≡ J.failures jout.old) }
    ensures prints { IfOk result (λ status. Prints status (journaling_of journal.entry)
        (held (S.remaining input.old) (O.contents out.old) (E.contents err.old))
        (held (S.remaining input.new) (O.contents out.new) (E.contents err.new)) (O.finishes out.old) (O.finishes out.new)) }
    ensures unfinished { OnErr result (LeavesOpen (run_on (doing_of work.entry) (journaling_of journal.entry))
        (held (S.remaining input.old) (O.contents out.old) (E.contents err.old))
        (held (S.remaining input.new) (O.contents out.new) (E.contents err.new))
        (J.contents jout.old) (J.contents jout.new) (J.failures jout.old) (J.failures jout.new)
        (finished (O.finishes out.old) (J.finishes jout.old)) (finished (O.finishes out.new) (J.finishes jout.new))) }
{
    let message = match read_all(alloc, input) {
        Ok(message) => message,
        Err(stop) => return Err(reading(stop)),
    };
    match begin(alloc, message, journal) {
        Ok(session) => run_session(alloc, session, out, err, work, journal, jout),
        Err(error) => {
            if is_memory(error) {
                return Err(Cause::Memory);
            }
            match report_journal(alloc, err, error) {
                Ok(()) => Ok(Status::Refused),
                Err(stop) => Err(writing(stop)),
            }
        }
    }
}

// Does it on a session, and writes the result. The journal is made before the first byte goes out.
fn run_session<O: Sink, E: Sink, J: Sink>(
    alloc: Global,
    mut session: Session,
    out: &mut O,
    err: &mut E,
    work: Work<'_>,
    journal: Journal<'_>,
    jout: &mut J,
) -> Result<Status, Cause>
    requires { may_be_done (doing_of work) ≡ true }
    ensures leaves { LeavesSession result (run_from (doing_of work.entry) (journaling_of journal.entry) session)
        (sunk (O.contents out.old) (E.contents err.old) (J.contents jout.old))
        (sunk (O.contents out.new) (E.contents err.new) (J.contents jout.new)) (J.finishes jout.old) (J.finishes jout.new) }
    ensures blamed { IfErr result (λ cause. cause ≡ Cause.Write →
        Rose (O.failures out.old) (O.failures out.new) ⊎ Rose (E.failures err.old) (E.failures err.new) ⊎ Rose (J.failures jout.old) (J.failures jout.new)) }
    ensures memory { IfErr result (λ cause. cause ≡ Cause.Memory →
        (O.failures out.new ≡ O.failures out.old) × (E.failures err.new ≡ E.failures err.old) × (J.failures jout.new ≡ J.failures jout.old)) }
    ensures printed { OnOk result (O.failures out.new ≡ O.failures out.old) }
    ensures told { OnOk result (E.failures err.new ≡ E.failures err.old) }
    ensures counted { E.failures err.old ≤ E.failures err.new }
    ensures kept { OnOk result (J.failures jout.new ≡ J.failures jout.old) }
    ensures finishes { OnOk result (O.finishes out.new ≡ ticked (O.finishes out.old)) }
    ensures unfinished { OnErr result (StaysOpen (run_from (doing_of work.entry) (journaling_of journal.entry) session).journal (J.contents jout.old) (J.contents jout.new) (J.failures jout.old) (J.failures jout.new)
        (finished (O.finishes out.old) (J.finishes jout.old)) (finished (O.finishes out.new) (J.finishes jout.new))) }
{
    let refused = match work.done_on(alloc, &mut session, err) {
        Ok(refused) => refused,
        Err(stop) => return Err(writing(stop)),
    };
    let kept = match journal_of(alloc, &session, journal) {
        Ok(kept) => kept,
        Err(AllocError) => return Err(Cause::Memory),
    };
    match print(out, session.text(), jout, &kept) {
        Ok(()) => Ok(if refused {
            Status::Refused
        } else {
            Status::Well
        }),
        Err(stop) => Err(writing(stop)),
    }
}

// Writes the message, and after it the journal, where there is one; then finishes them in that order.
fn print<O: Sink, J: Sink>(
    out: &mut O,
    text: &[u8],
    jout: &mut J,
    journal: &[u8],
) -> Result<(), Stop>
    ensures output { OnOk result (Appends (O.contents out.old) (O.contents out.new) text.now) }
    ensures journal { OnOk result (Appends (J.contents jout.old) (J.contents jout.new) journal.now) }
    ensures stands { OnOk result (journal.now ≢ [] → J.finishes jout.new ≡ ticked (J.finishes jout.old)) }
    ensures untouched { OnOk result (journal.now ≡ [] → J.finishes jout.new ≡ J.finishes jout.old) }
    ensures output_front { OnErr result (AppendsFront (O.contents out.old) (O.contents out.new) text.now) }
    ensures journal_front { OnErr result (AppendsFront (J.contents jout.old) (J.contents jout.new) journal.now) }
    ensures later { OnErr result (Keeps (J.contents jout.old) (J.contents jout.new) ⊎ Appends (O.contents out.old) (O.contents out.new) text.now) }
    ensures blamed { IfErr result (λ stop. stop ≡ Stop.Fault → Rose (O.failures out.old) (O.failures out.new) ⊎ Rose (J.failures jout.old) (J.failures jout.new)) }
    ensures only { IfErr result (λ stop. stop ≡ Stop.Fault) }
    ensures printed { OnOk result (O.failures out.new ≡ O.failures out.old) }
    ensures saved { OnOk result (J.failures jout.new ≡ J.failures jout.old) }
    ensures finishes { OnOk result (O.finishes out.new ≡ ticked (O.finishes out.old)) }
    ensures unfinished { OnErr result (StaysOpen journal.now (J.contents jout.old) (J.contents jout.new) (J.failures jout.old) (J.failures jout.new)
        (finished (O.finishes out.old) (J.finishes jout.old)) (finished (O.finishes out.new) (J.finishes jout.new))) }
{
    send(out, text)?;
    if journal.is_empty() {
        return finish(out);
    }
    send(jout, journal)?;
    finish(out)?;
    finish(jout)
}
