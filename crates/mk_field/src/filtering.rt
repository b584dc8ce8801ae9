//! Messages of which the fields are filtered by letters, or given, over any devices.

ghost use Rattle.std.specs.Prelude.{◌≡◌, ◌≤◌, ◌⊎◌, ◌-◌, ◌++◌, [], ℕ, List, true, false, nat_le, IfOk, IfErr, MatchResult, OnErr, OnOk};
ghost use Rattle.std.specs.Io.KnownBytes.{Consumes, IsAtEnd};
ghost use Rattle.std.specs.Option.{option_map};
ghost use Rattle.mk_line.specs.Meters.{ticked};
ghost use Rattle.mk_mailbox.specs.Devices.{IsLong, Rose};
ghost use Rattle.mk_mailbox.specs.Mailboxes.{FitsReads, IsKnownWhole};
ghost use Rattle.mk_mailbox.specs.inner.Answers.{Answers};
ghost use Rattle.mk_mail.specs.LetterViews.{letters_of};
ghost use Rattle.mk_mail.specs.Letters.{are_allowed};
ghost use Rattle.mk_field.specs.FilterClauses.{LeavesFiltered, LeavesFilteredSoFar, LeavesSaid, SaysAll, SaysSome};
ghost use Rattle.mk_field.specs.FilterViews.{filter_of, is_allowed};
ghost use Rattle.mk_field.specs.Filtering.{of_letters, said_of};
ghost use Rattle.mk_field.specs.inner.Telling.{Gathers, GathersAll, GathersFront, GathersSome, LeavesGathered};
ghost use Rattle.mk_transfer.specs.RunClauses.{held, counts, reason, SameFailures, ReadFailed, WriteFailed, IsBlamed, ends_itself};

use crate::fields::filter_message;
use crate::filters::{FieldFilter, Round};
use crate::telling::{flush, say, say_alone};
use mk_mail::{Letters, MailFault, Mailbox, Sink, Source};
use mk_mailbox::MOST_READS;
use mk_transfer::{Cause, Status, Stop, finish, give_up, read_all, reading, writing};
use std::alloc::Global;

/// The number of the message if all of the input is one.
const ONLY: u64 = 1;

/// Filters the fields of the message that the input gives by letters, or gives its fields of a name; with `each` those of
/// every message of the mailbox that it gives. What is printed of them is gathered, and goes out before more is read and before
/// each report. A message for which an edit is refused is printed as it came, and reported, and doesn't end the run. The output
/// is finished once all has gone out.
pub fn run_field<S: Source, O: Sink, E: Sink>(
    alloc: Global,
    input: &mut S,
    out: &mut O,
    err: &mut E,
    letters: &Letters,
    each: bool,
) -> Status
    requires { are_allowed (letters_of letters.now) ≡ true }
    ensures leaves { let before = counts (S.failures input.old) (S.read_count input.old) (O.failures out.old) (E.failures err.old) in
        let after = counts (S.failures input.new) (S.read_count input.new) (O.failures out.new) (E.failures err.new) in
        LeavesFiltered (reason before after) (IsLong (S.read_count input.old) (S.read_count input.new)) (of_letters (letters_of letters.now)) each result
        (held (S.remaining input.old) (O.contents out.old) (E.contents err.old))
        (held (S.remaining input.new) (O.contents out.new) (E.contents err.new)) }
    ensures blamed { result ≡ Status.Fault →
        let before = counts (S.failures input.old) (S.read_count input.old) (O.failures out.old) (E.failures err.old) in
        let after = counts (S.failures input.new) (S.read_count input.new) (O.failures out.new) (E.failures err.new) in
        ReadFailed before after ⊎ WriteFailed before after }
    ensures clean { ends_itself result ≡ true → SameFailures
        (counts (S.failures input.old) (S.read_count input.old) (O.failures out.old) (E.failures err.old))
        (counts (S.failures input.new) (S.read_count input.new) (O.failures out.new) (E.failures err.new)) }
    ensures finished { ends_itself result ≡ true → O.finishes out.new ≡ ticked (O.finishes out.old) }
    ensures unfinished { ends_itself result ≡ false → O.finishes out.new ≡ O.finishes out.old }
{
    let rounds = [Round::new(letters)];
    match try_field(alloc, input, out, err, &FieldFilter::new(&rounds), each) {
        Ok(status) => status,
        Err(cause) => give_up(err, cause),
    }
}

/// Does the same by any filter, and leaves it to the caller to say why the run is given up.
pub fn try_field<S: Source, O: Sink, E: Sink>(
    alloc: Global,
    input: &mut S,
    out: &mut O,
    err: &mut E,
    filter: &FieldFilter<'_>,
    each: bool,
) -> Result<Status, Cause>
    requires { is_allowed (filter_of filter.now) ≡ true }
    ensures leaves { LeavesFilteredSoFar (IsLong (S.read_count input.old) (S.read_count input.new)) (filter_of filter.now) each result
        (held (S.remaining input.old) (O.contents out.old) (E.contents err.old))
        (held (S.remaining input.new) (O.contents out.new) (E.contents err.new)) }
    ensures ended { IfOk result (λ status. ends_itself status ≡ true) }
    ensures blamed { IfErr result (λ cause. IsBlamed cause
        (counts (S.failures input.old) (S.read_count input.old) (O.failures out.old) (E.failures err.old))
        (counts (S.failures input.new) (S.read_count input.new) (O.failures out.new) (E.failures err.new))) }
    ensures clean { OnOk result (SameFailures
        (counts (S.failures input.old) (S.read_count input.old) (O.failures out.old) (E.failures err.old))
        (counts (S.failures input.new) (S.read_count input.new) (O.failures out.new) (E.failures err.new))) }
    ensures finished { OnOk result (O.finishes out.new ≡ ticked (O.finishes out.old)) }
    ensures unfinished { OnErr result (O.finishes out.new ≡ O.finishes out.old) }
{
    let refused = match filter_input(alloc, input, out, err, filter, each) {
        Ok(refused) => refused,
        Err(cause) => return Err(cause),
    };
    match finish(out) {
        Ok(()) => Ok(if refused {
            Status::Refused
        } else {
            Status::Well
        }),
        Err(stop) => Err(writing(stop)),
    }
}

// Filters the input up to a cause to give up. Answers whether a message was reported.
fn filter_input<S: Source, O: Sink, E: Sink>(
    alloc: Global,
    input: &mut S,
    out: &mut O,
    err: &mut E,
    filter: &FieldFilter<'_>,
    each: bool,
) -> Result<bool, Cause>
    requires { is_allowed (filter_of filter.now) ≡ true }
    ensures leaves { LeavesSaid (IsLong (S.read_count input.old) (S.read_count input.new)) (filter_of filter.now) each result
        (held (S.remaining input.old) (O.contents out.old) (E.contents err.old))
        (held (S.remaining input.new) (O.contents out.new) (E.contents err.new)) }
    ensures blamed { IfErr result (λ cause. IsBlamed cause
        (counts (S.failures input.old) (S.read_count input.old) (O.failures out.old) (E.failures err.old))
        (counts (S.failures input.new) (S.read_count input.new) (O.failures out.new) (E.failures err.new))) }
    ensures clean { OnOk result (SameFailures
        (counts (S.failures input.old) (S.read_count input.old) (O.failures out.old) (E.failures err.old))
        (counts (S.failures input.new) (S.read_count input.new) (O.failures out.new) (E.failures err.new))) }
    ensures unfinished { O.finishes out.new ≡ O.finishes out.old }
{
    if each {
        filter_each(alloc, input, out, err, filter)
    } else {
        filter_whole(alloc, input, out, err, filter)
    }
}

// Filters all of the input as one message. Answers whether it was reported.
fn filter_whole<S: Source, O: Sink, E: Sink>(
    alloc: Global,
    input: &mut S,
    out: &mut O,
    err: &mut E,
    filter: &FieldFilter<'_>,
) -> Result<bool, Cause>
    requires { is_allowed (filter_of filter.now) ≡ true }
    ensures leaves { LeavesSaid (IsLong (S.read_count input.old) (S.read_count input.new)) (filter_of filter.now) false result
        (held (S.remaining input.old) (O.contents out.old) (E.contents err.old))
        (held (S.remaining input.new) (O.contents out.new) (E.contents err.new)) }
    ensures blamed { IfErr result (λ cause. IsBlamed cause
        (counts (S.failures input.old) (S.read_count input.old) (O.failures out.old) (E.failures err.old))
        (counts (S.failures input.new) (S.read_count input.new) (O.failures out.new) (E.failures err.new))) }
    ensures clean { OnOk result (SameFailures
        (counts (S.failures input.old) (S.read_count input.old) (O.failures out.old) (E.failures err.old))
        (counts (S.failures input.new) (S.read_count input.new) (O.failures out.new) (E.failures err.new))) }
    ensures unfinished { O.finishes out.new ≡ O.finishes out.old }
{
    let message = match read_all(alloc, input) {
        Ok(message) => message,
        Err(stop) => return Err(reading(stop)),
    };
    match filter_one(alloc, filter, false, ONLY, message, out, err) {
        Ok(refused) => Ok(refused),
        Err(stop) => Err(writing(stop)),
    }
}

/// Filters one message, and says what is told of it. With `each` it is one of a mailbox, and the number is the one it has there,
/// from 1; else it stands by itself. Answers whether it was reported. The output isn't finished.
pub fn filter_one<O: Sink, E: Sink>(
    alloc: Global,
    filter: &FieldFilter<'_>,
    each: bool,
    number: u64,
    message: Vec<u8>,
    out: &mut O,
    err: &mut E,
) -> Result<bool, Stop>
    requires { is_allowed (filter_of filter.now) ≡ true }
    ensures all { IfOk result (λ refused. SaysAll (said_of each (filter_of filter.now) number message.items) refused
        (O.contents out.old) (O.contents out.new) (E.contents err.old) (E.contents err.new)) }
    ensures some { OnErr result (SaysSome (said_of each (filter_of filter.now) number message.items)
        (O.contents out.old) (O.contents out.new) (E.contents err.old) (E.contents err.new)) }
    ensures failed { IfErr result (λ stop. stop ≡ Stop.Fault
        → Rose (O.failures out.old) (O.failures out.new) ⊎ Rose (E.failures err.old) (E.failures err.new)) }
    ensures memory { IfErr result (λ stop. stop ≡ Stop.Memory
        → (O.failures out.new ≡ O.failures out.old) × (E.failures err.new ≡ E.failures err.old)) }
    ensures output_well { OnOk result (O.failures out.new ≡ O.failures out.old) }
    ensures errors_well { OnOk result (E.failures err.new ≡ E.failures err.old) }
    ensures counted { E.failures err.old ≤ E.failures err.new }
    ensures unfinished { O.finishes out.new ≡ O.finishes out.old }
{
    match filter_message(alloc, filter, each, message) {
        Ok(told) => say_alone(alloc, filter.path, number, &told, out, err),
        Err(_) => Err(Stop::Memory),
    }
}

// Filters the messages of a mailbox, up to a cause to give up. Answers whether one was reported. The last of what is gathered
// goes out here. If that fails, it is the cause: without gathering it would have failed first.
fn filter_each<S: Source, O: Sink, E: Sink>(
    alloc: Global,
    input: &mut S,
    out: &mut O,
    err: &mut E,
    filter: &FieldFilter<'_>,
) -> Result<bool, Cause>
    requires { is_allowed (filter_of filter.now) ≡ true }
    ensures leaves { LeavesSaid (IsLong (S.read_count input.old) (S.read_count input.new)) (filter_of filter.now) true result
        (held (S.remaining input.old) (O.contents out.old) (E.contents err.old))
        (held (S.remaining input.new) (O.contents out.new) (E.contents err.new)) }
    ensures blamed { IfErr result (λ cause. IsBlamed cause
        (counts (S.failures input.old) (S.read_count input.old) (O.failures out.old) (E.failures err.old))
        (counts (S.failures input.new) (S.read_count input.new) (O.failures out.new) (E.failures err.new))) }
    ensures clean { OnOk result (SameFailures
        (counts (S.failures input.old) (S.read_count input.old) (O.failures out.old) (E.failures err.old))
        (counts (S.failures input.new) (S.read_count input.new) (O.failures out.new) (E.failures err.new))) }
    ensures unfinished { O.finishes out.new ≡ O.finishes out.old }
{
    let mut gathered = Vec::new(alloc);
    let result = filter_in_turn(alloc, input, out, err, filter, &mut gathered);
    match flush(out, &mut gathered) {
        Ok(()) => result,
        Err(stop) => Err(writing(stop)),
    }
}

// Filters them in turn, and leaves the last of what is gathered to its caller.
fn filter_in_turn<S: Source, O: Sink, E: Sink>(
    alloc: Global,
    input: &mut S,
    out: &mut O,
    err: &mut E,
    filter: &FieldFilter<'_>,
    gathered: &mut Vec<u8>,
) -> Result<bool, Cause>
    requires allowed { is_allowed (filter_of filter.now) ≡ true }
    requires none { gathered.old.items ≡ [] }
    ensures leaves { LeavesGathered (IsLong (S.read_count input.old) (S.read_count input.new)) (filter_of filter.now) result gathered.new.items
        (held (S.remaining input.old) (O.contents out.old) (E.contents err.old))
        (held (S.remaining input.new) (O.contents out.new) (E.contents err.new)) }
    ensures blamed { IfErr result (λ cause. IsBlamed cause
        (counts (S.failures input.old) (S.read_count input.old) (O.failures out.old) (E.failures err.old))
        (counts (S.failures input.new) (S.read_count input.new) (O.failures out.new) (E.failures err.new))) }
    ensures clean { OnOk result (SameFailures
        (counts (S.failures input.old) (S.read_count input.old) (O.failures out.old) (E.failures err.old))
        (counts (S.failures input.new) (S.read_count input.new) (O.failures out.new) (E.failures err.new))) }
    ensures steady { gathered.new.items ≡ [] ⊎ (S.failures input.new ≡ S.failures input.old) }
    ensures unfinished { O.finishes out.new ≡ O.finishes out.old }
{
    let before = input.reads();
    let mut mailbox = Mailbox::cut_at(alloc, filter.from_lines);
    let mut refused = false;
    for turn in 0..u64::MAX {
        if are_too_many(before, input.reads()) {
            return Err(Cause::Read);
        }
        match next_message(&mut mailbox, input, out, gathered) {
            Ok(Some(message)) => {
                match say_message(alloc, filter, turn + 1, message, gathered, out, err) {
                    Ok(told) => refused |= told,
                    Err(stop) => return Err(writing(stop)),
                }
            }
            Ok(None) => return Ok(refused),
            Err(cause) => return Err(cause),
        }
    }
    Err(Cause::Read)
}

// The next message. What is gathered goes out before more is read for it.
fn next_message<S: Source, O: Sink>(
    mailbox: &mut Mailbox,
    input: &mut S,
    out: &mut O,
    gathered: &mut Vec<u8>,
) -> Result<Option<Vec<u8>>, Cause>
    ensures exact { (read : List ℕ) × Consumes (S.remaining input.old) (S.remaining input.new) read
        × (mailbox.old.ended ≡ true → read ≡ [])
        × FitsReads read (S.read_count input.old) (S.read_count input.new)
        × MatchResult result (λ o. Answers (option_map (λ v. v.items) o) mailbox.old read mailbox.new) (λ _. mailbox.new.kept ≡ mailbox.old.kept ++ read) }
    ensures ended { mailbox.new.ended ≡ true → (mailbox.old.ended ≡ true) ⊎ IsAtEnd (S.remaining input.new) }
    ensures stays { mailbox.old.ended ≡ true → (mailbox.new.ended ≡ true) × (S.remaining input.new ≡ S.remaining input.old) }
    ensures same { mailbox.new.from_lines ≡ mailbox.old.from_lines }
    ensures moved { OnOk result (Gathers [] gathered.old.items gathered.new.items (O.contents out.old) (O.contents out.new)) }
    ensures cut { OnErr result (GathersFront [] gathered.old.items gathered.new.items (O.contents out.old) (O.contents out.new)) }
    ensures known { IfErr result (λ cause. cause ≡ Cause.Read
        → ((IsKnownWhole mailbox.old.from_lines mailbox.new.kept → ⊥) ⊎ IsLong (S.read_count input.old) (S.read_count input.new))
        × (gathered.new.items ≡ []) × Gathers [] gathered.old.items [] (O.contents out.old) (O.contents out.new)) }
    ensures blamed { IfErr result (λ cause. (errors : ℕ) → IsBlamed cause
        (counts (S.failures input.old) (S.read_count input.old) (O.failures out.old) errors)
        (counts (S.failures input.new) (S.read_count input.new) (O.failures out.new) errors)) }
    ensures steady { gathered.new.items ≡ [] ⊎ (S.failures input.new ≡ S.failures input.old) }
    ensures well { OnOk result (S.failures input.new ≡ S.failures input.old) }
    ensures output_well { OnOk result (O.failures out.new ≡ O.failures out.old) }
    ensures unfinished { O.finishes out.new ≡ O.finishes out.old }
{
    match mailbox.next_known() {
        Ok(Some(message)) => return Ok(Some(message)),
        Ok(None) => {}
        Err(_) => return Err(Cause::Memory),
    }
    match flush(out, gathered) {
        Ok(()) => match mailbox.next(input) {
            Ok(message) => Ok(message),
            Err(MailFault::ReadFault) => Err(Cause::Read),
            Err(MailFault::Memory) => Err(Cause::Memory),
        },
        Err(stop) => Err(writing(stop)),
    }
}

// Filters a message of a mailbox, and says what is told of it after what is gathered. Answers whether it was reported.
fn say_message<O: Sink, E: Sink>(
    alloc: Global,
    filter: &FieldFilter<'_>,
    number: u64,
    message: Vec<u8>,
    gathered: &mut Vec<u8>,
    out: &mut O,
    err: &mut E,
) -> Result<bool, Stop>
    requires { is_allowed (filter_of filter.now) ≡ true }
    ensures all { IfOk result (λ refused. GathersAll (said_of true (filter_of filter.now) number message.items) refused gathered.old.items gathered.new.items
        (O.contents out.old) (O.contents out.new) (E.contents err.old) (E.contents err.new)) }
    ensures some { OnErr result (GathersSome (said_of true (filter_of filter.now) number message.items) gathered.old.items gathered.new.items
        (O.contents out.old) (O.contents out.new) (E.contents err.old) (E.contents err.new)) }
    ensures failed { IfErr result (λ stop. stop ≡ Stop.Fault
        → Rose (O.failures out.old) (O.failures out.new) ⊎ Rose (E.failures err.old) (E.failures err.new)) }
    ensures memory { IfErr result (λ stop. stop ≡ Stop.Memory
        → (O.failures out.new ≡ O.failures out.old) × (E.failures err.new ≡ E.failures err.old)) }
    ensures output_well { OnOk result (O.failures out.new ≡ O.failures out.old) }
    ensures errors_well { OnOk result (E.failures err.new ≡ E.failures err.old) }
    ensures counted { E.failures err.old ≤ E.failures err.new }
    ensures unfinished { O.finishes out.new ≡ O.finishes out.old }
{
    match filter_message(alloc, filter, true, message) {
        Ok(told) => say(alloc, filter.path, number, &told, gathered, out, err),
        Err(_) => Err(Stop::Memory),
    }
}

// Whether so many reads were made that there are no more.
fn are_too_many(before: u64, now: u64) -> bool
    ensures { result ≡ nat_le 2147483647 (now - before) }
{
    now.saturating_sub(before) >= MOST_READS as u64
}
