//! Runs that show what a message is, over any devices.

ghost use Rattle.std.specs.Prelude.{◌≡◌, ◌≤◌, ◌⊎◌, true, false, List, Option, ℕ, IfOk, IfErr, OnOk, OnErr};
ghost use Rattle.std.specs.Io.KnownBytes.{Appends, Consumes, IsAtEnd};
ghost use Rattle.mk_line.specs.Meters.{ticked};
ghost use Rattle.mk_mailbox.specs.Devices.{AppendsFront, Rose, IsLong};
ghost use Rattle.mk_transfer.specs.RunClauses.{held, counts, reason, IsBlamed, SameFailures, ReadFailed, WriteFailed, ends_itself};
ghost use Rattle.mk_show.specs.Portions.{IsTakenAs, ShowsAllAs};
ghost use Rattle.mk_script.specs.ScriptViews.{items_of};
ghost use Rattle.mk_show.specs.Shown.{IsListed, IsTaken, LeavesShown, LeavesShownSoFar, ShowsSoFar, Writes, run_of_answer};

use crate::answers::{Answer, sections};
use crate::portions::{Portion, given, given_all};
use crate::sending::{give_content, judge};
use mk_mailbox::{Sink, Source};
use mk_transfer::{Cause, Status, Stop, finish, give_up, read_all, reading, send};
use mk_tree::Doc;
use std::alloc::Global;

/// Lists the sections of the message that the input gives.
pub fn run_sections<S: Source, O: Sink, E: Sink>(
    alloc: Global,
    input: &mut S,
    out: &mut O,
    err: &mut E,
) -> Status
    ensures leaves { let before = counts (S.failures input.old) (S.read_count input.old) (O.failures out.old) (E.failures err.old) in
        let after = counts (S.failures input.new) (S.read_count input.new) (O.failures out.new) (E.failures err.new) in
        LeavesShown (reason before after) IsListed result
        (held (S.remaining input.old) (O.contents out.old) (E.contents err.old))
        (held (S.remaining input.new) (O.contents out.new) (E.contents err.new)) }
    ensures blamed { result ≡ Status.Fault →
        let before = counts (S.failures input.old) (S.read_count input.old) (O.failures out.old) (E.failures err.old) in
        let after = counts (S.failures input.new) (S.read_count input.new) (O.failures out.new) (E.failures err.new) in
        ReadFailed before after ⊎ WriteFailed before after }
    ensures clean { ends_itself result ≡ true → SameFailures
        (counts (S.failures input.old) (S.read_count input.old) (O.failures out.old) (E.failures err.old))
        (counts (S.failures input.new) (S.read_count input.new) (O.failures out.new) (E.failures err.new)) }
    ensures finished { ends_itself result ≡ true → O.finishes out.new ≡ ticked (O.finishes out.old) }
    ensures unfinished { ends_itself result ≡ false → O.finishes out.new ≡ O.finishes out.old }
{
    match try_sections(alloc, input, out, err) {
        Ok(status) => status,
        Err(cause) => give_up(err, cause),
    }
}

/// Does the same, and leaves it to the caller to say why the run is given up.
pub fn try_sections<S: Source, O: Sink, E: Sink>(
    alloc: Global,
    input: &mut S,
    out: &mut O,
    err: &mut E,
) -> Result<Status, Cause>
    ensures leaves { LeavesShownSoFar IsListed result
        (held (S.remaining input.old) (O.contents out.old) (E.contents err.old))
        (held (S.remaining input.new) (O.contents out.new) (E.contents err.new)) }
    ensures ended { IfOk result (λ status. ends_itself status ≡ true) }
    ensures blamed { IfErr result (λ cause. IsBlamed cause
        (counts (S.failures input.old) (S.read_count input.old) (O.failures out.old) (E.failures err.old))
        (counts (S.failures input.new) (S.read_count input.new) (O.failures out.new) (E.failures err.new))) }
    ensures clean { OnOk result (SameFailures
        (counts (S.failures input.old) (S.read_count input.old) (O.failures out.old) (E.failures err.old))
        (counts (S.failures input.new) (S.read_count input.new) (O.failures out.new) (E.failures err.new))) }
    ensures finished { OnOk result (O.finishes out.new ≡ ticked (O.finishes out.old)) }
    ensures unfinished { OnErr result (O.finishes out.new ≡ O.finishes out.old) }
{
    let doc = match read_doc(alloc, input) {
        Ok(doc) => doc,
        Err(stop) => return Err(reading(stop)),
    };
    match sections(alloc, &doc) {
        Ok(answer) => print(out, err, &answer),
        Err(_) => Err(Cause::Memory),
    }
}

/// Gives the content of the section at a path of the message that the input gives, decoded where it is a leaf.
pub fn run_extract<S: Source, O: Sink, E: Sink>(
    alloc: Global,
    input: &mut S,
    out: &mut O,
    err: &mut E,
    path: &[u32],
) -> Status
    ensures leaves { let before = counts (S.failures input.old) (S.read_count input.old) (O.failures out.old) (E.failures err.old) in
        let after = counts (S.failures input.new) (S.read_count input.new) (O.failures out.new) (E.failures err.new) in
        LeavesShown (reason before after) (IsTaken path.now) result
        (held (S.remaining input.old) (O.contents out.old) (E.contents err.old))
        (held (S.remaining input.new) (O.contents out.new) (E.contents err.new)) }
    ensures blamed { result ≡ Status.Fault →
        let before = counts (S.failures input.old) (S.read_count input.old) (O.failures out.old) (E.failures err.old) in
        let after = counts (S.failures input.new) (S.read_count input.new) (O.failures out.new) (E.failures err.new) in
        ReadFailed before after ⊎ WriteFailed before after }
    ensures clean { ends_itself result ≡ true → SameFailures
        (counts (S.failures input.old) (S.read_count input.old) (O.failures out.old) (E.failures err.old))
        (counts (S.failures input.new) (S.read_count input.new) (O.failures out.new) (E.failures err.new)) }
    ensures finished { ends_itself result ≡ true → O.finishes out.new ≡ ticked (O.finishes out.old) }
    ensures unfinished { ends_itself result ≡ false → O.finishes out.new ≡ O.finishes out.old }
{
    match try_extract(alloc, input, out, err, path, Portion::Content) {
        Ok(status) => status,
        Err(cause) => give_up(err, cause),
    }
}

/// Gives the portion of the section at a path of the message that the input gives, and leaves it to the caller to say why the
/// run is given up.
pub fn try_extract<S: Source, O: Sink, E: Sink>(
    alloc: Global,
    input: &mut S,
    out: &mut O,
    err: &mut E,
    path: &[u32],
    wanted: Portion,
) -> Result<Status, Cause>
    ensures leaves { LeavesShownSoFar (IsTakenAs wanted path.now) result
        (held (S.remaining input.old) (O.contents out.old) (E.contents err.old))
        (held (S.remaining input.new) (O.contents out.new) (E.contents err.new)) }
    ensures ended { IfOk result (λ status. ends_itself status ≡ true) }
    ensures blamed { IfErr result (λ cause. IsBlamed cause
        (counts (S.failures input.old) (S.read_count input.old) (O.failures out.old) (E.failures err.old))
        (counts (S.failures input.new) (S.read_count input.new) (O.failures out.new) (E.failures err.new))) }
    ensures clean { OnOk result (SameFailures
        (counts (S.failures input.old) (S.read_count input.old) (O.failures out.old) (E.failures err.old))
        (counts (S.failures input.new) (S.read_count input.new) (O.failures out.new) (E.failures err.new))) }
    ensures finished { OnOk result (O.finishes out.new ≡ ticked (O.finishes out.old)) }
    ensures unfinished { OnErr result (O.finishes out.new ≡ O.finishes out.old) }
{
    let doc = match read_doc(alloc, input) {
        Ok(doc) => doc,
        Err(stop) => return Err(reading(stop)),
    };
    if let Portion::Content = wanted {
        return show_content(alloc, out, err, &doc, path);
    }
    match given(alloc, &doc, path, wanted) {
        Ok(answer) => print(out, err, &answer),
        Err(_) => Err(Cause::Memory),
    }
}

/// Gives the portions of the sections at some paths of the message that the input gives, one after another with nothing between
/// them, and leaves it to the caller to say why the run is given up. They are in memory before the first goes out.
pub fn try_extract_all<S: Source, O: Sink, E: Sink>(
    alloc: Global,
    input: &mut S,
    out: &mut O,
    err: &mut E,
    paths: &[Vec<u32>],
    wanted: Portion,
) -> Result<Status, Cause>
    ensures leaves { LeavesShownSoFar (ShowsAllAs wanted (items_of paths.now)) result
        (held (S.remaining input.old) (O.contents out.old) (E.contents err.old))
        (held (S.remaining input.new) (O.contents out.new) (E.contents err.new)) }
    ensures ended { IfOk result (λ status. ends_itself status ≡ true) }
    ensures blamed { IfErr result (λ cause. IsBlamed cause
        (counts (S.failures input.old) (S.read_count input.old) (O.failures out.old) (E.failures err.old))
        (counts (S.failures input.new) (S.read_count input.new) (O.failures out.new) (E.failures err.new))) }
    ensures clean { OnOk result (SameFailures
        (counts (S.failures input.old) (S.read_count input.old) (O.failures out.old) (E.failures err.old))
        (counts (S.failures input.new) (S.read_count input.new) (O.failures out.new) (E.failures err.new))) }
    ensures finished { OnOk result (O.finishes out.new ≡ ticked (O.finishes out.old)) }
    ensures unfinished { OnErr result (O.finishes out.new ≡ O.finishes out.old) }
{
    let doc = match read_doc(alloc, input) {
        Ok(doc) => doc,
        Err(stop) => return Err(reading(stop)),
    };
    match given_all(alloc, &doc, paths, wanted) {
        Ok(answer) => print(out, err, &answer),
        Err(_) => Err(Cause::Memory),
    }
}

// Gives the content of the section at a path of a document.
fn show_content<O: Sink, E: Sink>(
    alloc: Global,
    out: &mut O,
    err: &mut E,
    doc: &Doc,
    path: &[u32],
) -> Result<Status, Cause>
    ensures shows { (input left : Option (List ℕ)) → IsAtEnd left → ShowsSoFar (IsTaken path.now doc.now) result
        (held input (O.contents out.old) (E.contents err.old)) (held left (O.contents out.new) (E.contents err.new)) }
    ensures ended { IfOk result (λ status. ends_itself status ≡ true) }
    ensures blamed { IfErr result (λ cause. (failed reads more : ℕ) → IsBlamed cause
        (counts failed reads (O.failures out.old) (E.failures err.old)) (counts failed more (O.failures out.new) (E.failures err.new))) }
    ensures output_well { OnOk result (O.failures out.new ≡ O.failures out.old) }
    ensures errors_well { OnOk result (E.failures err.new ≡ E.failures err.old) }
    ensures finished { OnOk result (O.finishes out.new ≡ ticked (O.finishes out.old)) }
    ensures unfinished { OnErr result (O.finishes out.new ≡ O.finishes out.old) }
{
    match judge(alloc, doc, path) {
        Ok(Ok(mut content)) => give_content(out, &mut content),
        Ok(Err(answer)) => print(out, err, &answer),
        Err(_) => Err(Cause::Memory),
    }
}

/// Reads the message that the input gives.
pub fn read_doc<S: Source>(alloc: Global, input: &mut S) -> Result<Doc, Stop>
    ensures all { IfOk result (λ doc. Consumes (S.remaining input.old) (S.remaining input.new) doc) }
    ensures ended { OnOk result (IsAtEnd (S.remaining input.new)) }
    ensures well { OnOk result (S.failures input.new ≡ S.failures input.old) }
    ensures front { OnErr result ((bytes : List ℕ) × Consumes (S.remaining input.old) (S.remaining input.new) bytes) }
    ensures fault { IfErr result (λ stop. stop ≡ Stop.Fault
        → Rose (S.failures input.old) (S.failures input.new)
        ⊎ IsLong (S.read_count input.old) (S.read_count input.new)) }
    ensures memory { IfErr result (λ stop. stop ≡ Stop.Memory → S.failures input.new ≡ S.failures input.old) }
{
    let message = read_all(alloc, input)?;
    match Doc::read(alloc, message) {
        Ok(doc) => Ok(doc),
        Err(_) => Err(Stop::Memory),
    }
}

/// Writes an answer, says to the output that all was written, and says how the run ends.
pub fn print<O: Sink, E: Sink>(out: &mut O, err: &mut E, answer: &Answer) -> Result<Status, Cause>
    ensures written { Writes result (run_of_answer answer.now) (O.contents out.old) (O.contents out.new) (E.contents err.old) (E.contents err.new) }
    ensures only { IfErr result (λ cause. cause ≡ Cause.Write) }
    ensures failed { OnErr result (Rose (O.failures out.old) (O.failures out.new) ⊎ Rose (E.failures err.old) (E.failures err.new)) }
    ensures output_well { OnOk result (O.failures out.new ≡ O.failures out.old) }
    ensures errors_well { OnOk result (E.failures err.new ≡ E.failures err.old) }
    ensures counted { E.failures err.old ≤ E.failures err.new }
    ensures finished { OnOk result (O.finishes out.new ≡ ticked (O.finishes out.old)) }
    ensures unfinished { OnErr result (O.finishes out.new ≡ O.finishes out.old) }
{
    match send_both(out, err, &answer.output, &answer.errors) {
        Ok(()) => Ok(if answer.errors.is_empty() {
            Status::Well
        } else {
            Status::Refused
        }),
        Err(_) => Err(Cause::Write),
    }
}

/// Writes an output and then errors, and says to the output that all was written.
pub fn send_both<O: Sink, E: Sink>(
    out: &mut O,
    err: &mut E,
    output: &[u8],
    errors: &[u8],
) -> Result<(), Stop>
    ensures output { OnOk result (Appends (O.contents out.old) (O.contents out.new) output.now) }
    ensures errors { OnOk result (Appends (E.contents err.old) (E.contents err.new) errors.now) }
    ensures output_front { OnErr result (AppendsFront (O.contents out.old) (O.contents out.new) output.now) }
    ensures errors_front { OnErr result (AppendsFront (E.contents err.old) (E.contents err.new) errors.now) }
    ensures output_well { OnOk result (O.failures out.new ≡ O.failures out.old) }
    ensures errors_well { OnOk result (E.failures err.new ≡ E.failures err.old) }
    ensures counted { E.failures err.old ≤ E.failures err.new }
    ensures finished { OnOk result (O.finishes out.new ≡ ticked (O.finishes out.old)) }
    ensures unfinished { OnErr result (O.finishes out.new ≡ O.finishes out.old) }
    ensures fault { OnErr result (Rose (O.failures out.old) (O.failures out.new) ⊎ Rose (E.failures err.old) (E.failures err.new)) }
{
    send(out, output)?;
    send(err, errors)?;
    finish(out)
}
