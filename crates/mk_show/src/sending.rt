//! The content of a section as it goes out: piece by piece, so that what is decoded is never in memory as a whole.

ghost use Rattle.std.specs.Prelude.{◌≡◌, ◌≢◌, List, ℕ, Some, IfErr, IfOk, MatchResult, OnErr, OnOk};
ghost use Rattle.std.specs.Io.KnownBytes.{Appends};
ghost use Rattle.mk_line.specs.Meters.{ticked};
ghost use Rattle.mk_mailbox.specs.Devices.{AppendsFront, Rose};
ghost use Rattle.mk_tree.specs.Documents.{tree};
ghost use Rattle.mk_tree.specs.Sections.{Placed, section_at};
ghost use Rattle.mk_view.specs.Extracts.{IsExtract};
ghost use Rattle.mk_transfer.specs.RunClauses.{Sends};
ghost use Rattle.mk_show.specs.GivenPieces.{IsLeft};
ghost use Rattle.mk_show.specs.Shown.{IsTaken, run_of_answer};

use crate::answers::Answer;
use crate::contents::Content;
use crate::portions::refused;
use mk_mailbox::Sink;
use mk_transfer::{Cause, Status, Stop, finish, send, writing};
use mk_tree::Doc;
use mk_view::ExtractError;
use std::alloc::{AllocError, Global};

/// The content of the section at a path, where it has one; or else what is said of it. Nothing is decoded.
pub fn judge<'a>(
    alloc: Global,
    doc: &'a Doc,
    path: &[u32],
) -> Result<Result<Content<'a>, Answer>, AllocError>
    ensures { IfOk result (λ judged. MatchResult judged
        (λ content. (place : Placed) × (section_at path.now (tree doc.now) ≡ Some place) × ((bytes : List ℕ) × IsExtract (Some place) bytes × IsLeft content bytes))
        (λ answer. IsTaken path.now doc.now (run_of_answer answer))) }
{
    let Some(section) = doc.section(path) else {
        return Ok(Err(refused(alloc, path, ExtractError::NoSuchSection)?));
    };
    let mut content = Content::of(alloc, &[]);
    match content.begin(alloc, &section) {
        Ok(()) => Ok(Ok(content)),
        Err(ExtractError::Memory) => Err(AllocError),
        Err(reason) => Ok(Err(refused(alloc, path, reason)?)),
    }
}

/// Writes all that is left of a content, and says to the output that all was written.
pub fn give_content<O: Sink>(out: &mut O, content: &mut Content<'_>) -> Result<Status, Cause>
    requires { (bytes : List ℕ) × IsLeft content.old bytes }
    ensures well { IfOk result (λ status. status ≡ Status.Well) }
    ensures all { OnOk result ((bytes : List ℕ) → IsLeft content.old bytes → Appends (O.contents out.old) (O.contents out.new) bytes) }
    ensures front { OnErr result ((bytes : List ℕ) → IsLeft content.old bytes → AppendsFront (O.contents out.old) (O.contents out.new) bytes) }
    ensures not_read { IfErr result (λ cause. cause ≢ Cause.Read) }
    ensures failed { IfErr result (λ cause. cause ≡ Cause.Write → Rose (O.failures out.old) (O.failures out.new)) }
    ensures memory { IfErr result (λ cause. cause ≡ Cause.Memory → O.failures out.new ≡ O.failures out.old) }
    ensures output_well { OnOk result (O.failures out.new ≡ O.failures out.old) }
    ensures finished { OnOk result (O.finishes out.new ≡ ticked (O.finishes out.old)) }
    ensures unfinished { OnErr result (O.finishes out.new ≡ O.finishes out.old) }
{
    match send_pieces(out, content) {
        Ok(()) => match finish(out) {
            Ok(()) => Ok(Status::Well),
            Err(stop) => Err(writing(stop)),
        },
        Err(stop) => Err(writing(stop)),
    }
}

// Writes all that is left of a content.
fn send_pieces<O: Sink>(out: &mut O, content: &mut Content<'_>) -> Result<(), Stop>
    ensures sends { (bytes : List ℕ) → IsLeft content.old bytes → Sends result bytes
        (O.contents out.old) (O.contents out.new) (O.failures out.old) (O.failures out.new) }
    ensures unfinished { O.finishes out.new ≡ O.finishes out.old }
{
    'each: loop {
        match content.advance() {
            Ok(true) => {}
            Ok(false) => return Ok(()),
            Err(_) => return Err(Stop::Memory),
        }
        match send(out, content.piece()) {
            Ok(()) => {}
            Err(stop) => return Err(stop),
        }
    }
}
