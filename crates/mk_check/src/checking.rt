//! What is found in a message, and runs that print it.
ghost use Rattle.std.specs.Prelude.{◌≡◌, ◌≤◌, ◌⊎◌, ◌++◌, List, true, map, IfErr, IfOk, OnErr, OnOk};
ghost use Rattle.std.specs.List.{flat_map};
ghost use Rattle.mk_line.specs.Meters.{ticked};
ghost use Rattle.mk_mailbox.specs.Devices.{Rose};
ghost use Rattle.mk_transfer.specs.RunClauses.{IsBlamed, SameFailures, counts, ends_itself, held};
ghost use Rattle.mk_show.specs.Shown.{LeavesShownSoFar, Writes};
ghost use Rattle.mk_tree.specs.Documents.{tree};
ghost use Rattle.mk_view.specs.Listed.{listed as sections_of};
ghost use Rattle.mk_check.specs.CheckRuns.{IsCheckRun, run_of_findings};
ghost use Rattle.mk_check.specs.FindingLines.{AreFindingLines, finding_line};
ghost use Rattle.mk_check.specs.Findings.{AreFaults, FoundFault};

use crate::lines::{FindingForm, push_finding};
use crate::sections::faults_in;
use mk_mailbox::{Sink, Source};
use mk_show::{read_doc, send_both};
use mk_transfer::{Cause, Status, reading};
use mk_tree::{Doc, Section};
use mk_view::all_sections;
use std::alloc::{AllocError, Global};

/// Prints what is found in the message that the input gives, a line for each; the status is that of a refusal where something is
/// found. The caller is left to say why the run is given up.
pub fn try_check<S: Source, O: Sink, E: Sink>(
    alloc: Global,
    input: &mut S,
    out: &mut O,
    err: &mut E,
    form: FindingForm,
) -> Result<Status, Cause>
    ensures leaves { LeavesShownSoFar (IsCheckRun form) result
        (held (S.remaining input.old) (O.contents out.old) (E.contents err.old))
        (held (S.remaining input.new) (O.contents out.new) (E.contents err.new)) }
    ensures ended { IfOk result (λ status. ends_itself status ≡ true) }
    ensures blamed { IfErr result (λ cause. IsBlamed cause
        (counts (S.failures input.old) (S.read_count input.old) (O.failures out.old) (E.failures err.old))
        (counts (S.failures input.new) (S.read_count input.new) (O.failures out.new) (E.failures err.new))) }
    ensures clean { OnOk result (SameFailures
        (counts (S.failures input.old) (S.read_count input.old) (O.failures out.old) (E.failures err.old))
        (counts (S.failures input.new) (S.read_count input.new) (O.failures out.new) (E.failures err.new))) }
    ensures finished { OnOk result (O.finishes out.new ≡ ticked (O.finishes out.old)) }
    ensures unfinished { OnErr result (O.finishes out.new ≡ O.finishes out.old) }
{
    let doc = match read_doc(alloc, input) {
        Ok(doc) => doc,
        Err(stop) => return Err(reading(stop)),
    };
    match findings(alloc, &doc, form) {
        Ok(text) => print(out, err, &text),
        Err(_) => Err(Cause::Memory),
    }
}

/// The lines of what is found in a message, in a form.
pub fn findings(alloc: Global, doc: &Doc, form: FindingForm) -> Result<Vec<u8>, AllocError>
    ensures { IfOk result (λ text. AreFindingLines form (sections_of (tree doc.now)) text.items) }
{
    let mut text = Vec::new(alloc);
    for listed in all_sections(alloc, doc)? {
        push_faults(alloc, &mut text, form, &listed.path, &listed.section)?;
    }
    Ok(text)
}

// Writes what is found in the section at a path after a text.
fn push_faults(
    alloc: Global,
    text: &mut Vec<u8>,
    form: FindingForm,
    path: &[u32],
    section: &Section<'_>,
) -> Result<(), AllocError>
    ensures { OnOk result ((faults : List FoundFault) × AreFaults section.now faults × (text.new.items ≡ text.old.items ++ flat_map (finding_line form path.now) faults)) }
{
    let faults = faults_in(alloc, section)?;
    for finding in &faults {
        push_finding(alloc, text, form, path, finding)?;
    }
    Ok(())
}

// Prints findings, and finishes the output.
fn print<O: Sink, E: Sink>(out: &mut O, err: &mut E, text: &[u8]) -> Result<Status, Cause>
    ensures written { Writes result (run_of_findings text.now) (O.contents out.old) (O.contents out.new) (E.contents err.old) (E.contents err.new) }
    ensures only { IfErr result (λ cause. cause ≡ Cause.Write) }
    ensures failed { OnErr result (Rose (O.failures out.old) (O.failures out.new) ⊎ Rose (E.failures err.old) (E.failures err.new)) }
    ensures output_well { OnOk result (O.failures out.new ≡ O.failures out.old) }
    ensures errors_well { OnOk result (E.failures err.new ≡ E.failures err.old) }
    ensures counted { E.failures err.old ≤ E.failures err.new }
    ensures finished { OnOk result (O.finishes out.new ≡ ticked (O.finishes out.old)) }
    ensures unfinished { OnErr result (O.finishes out.new ≡ O.finishes out.old) }
{
    match send_both(out, err, text, b"") {
        Ok(()) => Ok(if text.is_empty() {
            Status::Well
        } else {
            Status::Refused
        }),
        Err(_) => Err(Cause::Write),
    }
}
