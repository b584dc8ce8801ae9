//! A message unpacked into a folder, over any devices.

ghost use Rattle.std.specs.Prelude.{◌≡◌, ◌≤◌, ◌⊎◌, true, false, map, IfOk, IfErr, OnOk, OnErr};
ghost use Rattle.mk_line.specs.Meters.{ticked};
ghost use Rattle.mk_tree.specs.Documents.{Document};
ghost use Rattle.mk_mailbox.specs.Devices.{Rose};
ghost use Rattle.mk_view.specs.GivenNames.{AreSafe};
ghost use Rattle.mk_view.specs.LeafViews.{AreAt, leaf_view};
ghost use Rattle.mk_transfer.specs.RunClauses.{held, counts, reason_with, IsBlamedWith, SameFailures, ReadFailed, WriteFailed, ends_itself};
ghost use Rattle.mk_show.specs.Unpacking.{task_of, tasks_of};
ghost use Rattle.mk_show.specs.Chosen.{asked_of};
ghost use Rattle.mk_show.specs.UnpackClauses.{LeavesAskedSoFar, LeavesUnpacked, NoneFailed, SomeFailed, UnpackedAll, UnpackedAllAfter, UnpackedSome, UnpackedSomeAfter, failures, manner_of, written};

use crate::choosing::{asked_leaves, missing_lines};
use crate::contents::Content;
use crate::folder::Folder;
use crate::placing::Clash;
use crate::showing::read_doc;
use crate::tasks::unpack_task;
use mk_mailbox::{Sink, Source};
use mk_transfer::{Cause, Status, Stop, finish, give_up, reading, send, writing};
use mk_view::{Leaf, Storing};
use std::alloc::Global;

/// What is said of the files that are put.
#[derive(Clone, Copy, Debug, PartialEq, Eq)]
pub enum Report {
    /// Nothing.
    Nothing,
    /// The name and the type of each.
    Names,
    /// The path of its section, and these.
    Paths,
}

/// How files are put.
#[derive(Clone, Copy, Debug)]
pub struct Manner {
    /// What becomes of a content whose name a file has already.
    pub clash: Clash,
    pub report: Report,
}

/// What is unpacked, and how. By default all leaves but texts without a name, each is told, and no file is overwritten.
#[derive(Clone, Copy, Debug)]
pub struct UnpackOptions<'a> {
    pub manner: Manner,
    /// Which sections are stored, and how they are named.
    pub storing: Storing,
    /// After all of them, what decodes of each leaf whose base64 isn't whole is stored, too, under its name and `.part`. It never
    /// takes the place of a file.
    pub prefix: bool,
    /// Only the leaves at and below the sections at these paths are stored; `None` means all leaves. Their names are
    /// those that they get among all leaves.
    pub sections: Option<&'a [Vec<u32>]>,
}

impl<'a> Default for UnpackOptions<'a> {
    ghost use Rattle.std.specs.Prelude.{◌≡◌, false};
    ghost use Rattle.mk_show.specs.Chosen.{asked_of};
    ghost use Rattle.mk_show.specs.UnpackClauses.{all_leaves, manner_of};

    ghost is_default = { λ options. asked_of options ≡ all_leaves (manner_of false false) false };

    fn default() -> UnpackOptions<'a> {
        UnpackOptions {
            manner: Manner {
                clash: Clash::Numbered,
                report: Report::Names,
            },
            storing: Storing::default(),
            prefix: false,
            sections: None,
        }
    }
}

/// Unpacks the message that the input gives: the content of each leaf is put into the folder under its name, and the name
/// and the type are printed. Without `texts` the texts without a name are left out. Where a file has the name and `over` is
/// false, the first free one of 99 more is taken. A leaf that can't be decoded, or finds no name, is reported, and doesn't
/// end the run.
pub fn unpack<S: Source, O: Sink, E: Sink, F: Folder>(
    alloc: Global,
    input: &mut S,
    out: &mut O,
    err: &mut E,
    dir: &mut F,
    texts: bool,
    over: bool,
    silent: bool,
) -> Status
    ensures leaves { let before = counts (S.failures input.old) (S.read_count input.old) (O.failures out.old) (E.failures err.old) in
        let after = counts (S.failures input.new) (S.read_count input.new) (O.failures out.new) (E.failures err.new) in
        LeavesUnpacked (reason_with before after (F.failures dir.old) (F.failures dir.new)) (manner_of over silent) texts result
        (held (S.remaining input.old) (O.contents out.old) (E.contents err.old))
        (held (S.remaining input.new) (O.contents out.new) (E.contents err.new))
        (F.files dir.old) (F.files dir.new) }
    ensures blamed { result ≡ Status.Fault →
        let before = counts (S.failures input.old) (S.read_count input.old) (O.failures out.old) (E.failures err.old) in
        let after = counts (S.failures input.new) (S.read_count input.new) (O.failures out.new) (E.failures err.new) in
        ReadFailed before after ⊎ WriteFailed before after ⊎ Rose (F.failures dir.old) (F.failures dir.new) }
    ensures clean { ends_itself result ≡ true → SameFailures
        (counts (S.failures input.old) (S.read_count input.old) (O.failures out.old) (E.failures err.old))
        (counts (S.failures input.new) (S.read_count input.new) (O.failures out.new) (E.failures err.new)) }
    ensures folder_clean { ends_itself result ≡ true → F.failures dir.new ≡ F.failures dir.old }
    ensures finished { ends_itself result ≡ true → O.finishes out.new ≡ ticked (O.finishes out.old) }
    ensures unfinished { ends_itself result ≡ false → O.finishes out.new ≡ O.finishes out.old }
{
    let options = UnpackOptions {
        manner: manner_for(over, silent),
        storing: Storing {
            texts,
            ..Storing::default()
        },
        ..UnpackOptions::default()
    };
    match try_unpack(alloc, input, out, err, dir, options) {
        Ok(status) => status,
        Err(cause) => give_up(err, cause),
    }
}

// How files are put where nothing is told of them, or the name and the type of each.
fn manner_for(over: bool, silent: bool) -> Manner
    ensures { result ≡ manner_of over silent }
{
    let report = if silent {
        Report::Nothing
    } else {
        Report::Names
    };
    let clash = if over { Clash::Over } else { Clash::Numbered };
    Manner { clash, report }
}

/// Does the same, as the options say, and leaves it to the caller to say why the run is given up. Paths that lead to no section
/// are reported first, in the order given.
pub fn try_unpack<S: Source, O: Sink, E: Sink, F: Folder>(
    alloc: Global,
    input: &mut S,
    out: &mut O,
    err: &mut E,
    dir: &mut F,
    options: UnpackOptions<'_>,
) -> Result<Status, Cause>
    ensures leaves { LeavesAskedSoFar (asked_of options.entry) result
        (held (S.remaining input.old) (O.contents out.old) (E.contents err.old))
        (held (S.remaining input.new) (O.contents out.new) (E.contents err.new))
        (F.files dir.old) (F.files dir.new) }
    ensures ended { IfOk result (λ status. ends_itself status ≡ true) }
    ensures blamed { IfErr result (λ cause. IsBlamedWith cause
        (counts (S.failures input.old) (S.read_count input.old) (O.failures out.old) (E.failures err.old))
        (counts (S.failures input.new) (S.read_count input.new) (O.failures out.new) (E.failures err.new))
        (F.failures dir.old) (F.failures dir.new)) }
    ensures clean { OnOk result (SameFailures
        (counts (S.failures input.old) (S.read_count input.old) (O.failures out.old) (E.failures err.old))
        (counts (S.failures input.new) (S.read_count input.new) (O.failures out.new) (E.failures err.new))) }
    ensures folder_clean { OnOk result (F.failures dir.new ≡ F.failures dir.old) }
    ensures finished { OnOk result (O.finishes out.new ≡ ticked (O.finishes out.old)) }
    ensures unfinished { OnErr result (O.finishes out.new ≡ O.finishes out.old) }
{
    let doc = match read_doc(alloc, input) {
        Ok(doc) => doc,
        Err(stop) => return Err(reading(stop)),
    };
    let Ok(leaves) = asked_leaves(alloc, &doc, options) else {
        return Err(Cause::Memory);
    };
    let Ok(missing) = missing_lines(alloc, &doc, options.sections) else {
        return Err(Cause::Memory);
    };
    let refused = match unpack_after(alloc, &missing, options, &leaves, out, err, dir) {
        Ok(refused) => refused,
        Err(stop) => return Err(writing(stop)),
    };
    match finish(out) {
        Ok(()) => Ok(if refused {
            Status::Refused
        } else {
            Status::Well
        }),
        Err(stop) => Err(writing(stop)),
    }
}

// Reports lines, and unpacks leaves. Answers whether anything was reported.
fn unpack_after<O: Sink, E: Sink, F: Folder>(
    alloc: Global,
    lines: &[u8],
    options: UnpackOptions<'_>,
    leaves: &[Leaf<'_>],
    out: &mut O,
    err: &mut E,
    dir: &mut F,
) -> Result<bool, Stop>
    requires { AreSafe (map leaf_view leaves.now) }
    ensures all { IfOk result (λ refused. (t : Document) → AreAt t leaves.now → UnpackedAllAfter lines.now options.entry.manner t (tasks_of options.entry.prefix (map leaf_view leaves.now)) refused
        (written (O.contents out.old) (E.contents err.old) (F.files dir.old))
        (written (O.contents out.new) (E.contents err.new) (F.files dir.new))) }
    ensures some { OnErr result ((t : Document) → AreAt t leaves.now → UnpackedSomeAfter lines.now options.entry.manner t (tasks_of options.entry.prefix (map leaf_view leaves.now))
        (written (O.contents out.old) (E.contents err.old) (F.files dir.old))
        (written (O.contents out.new) (E.contents err.new) (F.files dir.new))) }
    ensures failed { IfErr result (λ stop. stop ≡ Stop.Fault → SomeFailed
        (failures (O.failures out.old) (E.failures err.old) (F.failures dir.old))
        (failures (O.failures out.new) (E.failures err.new) (F.failures dir.new))) }
    ensures memory { IfErr result (λ stop. stop ≡ Stop.Memory → NoneFailed
        (failures (O.failures out.old) (E.failures err.old) (F.failures dir.old))
        (failures (O.failures out.new) (E.failures err.new) (F.failures dir.new))) }
    ensures well { OnOk result (NoneFailed
        (failures (O.failures out.old) (E.failures err.old) (F.failures dir.old))
        (failures (O.failures out.new) (E.failures err.new) (F.failures dir.new))) }
    ensures counted { E.failures err.old ≤ E.failures err.new }
    ensures unfinished { O.finishes out.new ≡ O.finishes out.old }
{
    send(err, lines)?;
    let refused = unpack_rounds(alloc, options, leaves, out, err, dir)?;
    Ok(!lines.is_empty() || refused)
}

// Unpacks the leaves of a document, and after them what decodes of those that were cut off, where that is wanted. Answers whether one
// was reported.
fn unpack_rounds<O: Sink, E: Sink, F: Folder>(
    alloc: Global,
    options: UnpackOptions<'_>,
    leaves: &[Leaf<'_>],
    out: &mut O,
    err: &mut E,
    dir: &mut F,
) -> Result<bool, Stop>
    requires { AreSafe (map leaf_view leaves.now) }
    ensures all { IfOk result (λ refused. (t : Document) → AreAt t leaves.now → UnpackedAll options.entry.manner t (tasks_of options.entry.prefix (map leaf_view leaves.now)) refused
        (written (O.contents out.old) (E.contents err.old) (F.files dir.old))
        (written (O.contents out.new) (E.contents err.new) (F.files dir.new))) }
    ensures some { OnErr result ((t : Document) → AreAt t leaves.now → UnpackedSome options.entry.manner t (tasks_of options.entry.prefix (map leaf_view leaves.now))
        (written (O.contents out.old) (E.contents err.old) (F.files dir.old))
        (written (O.contents out.new) (E.contents err.new) (F.files dir.new))) }
    ensures failed { IfErr result (λ stop. stop ≡ Stop.Fault → SomeFailed
        (failures (O.failures out.old) (E.failures err.old) (F.failures dir.old))
        (failures (O.failures out.new) (E.failures err.new) (F.failures dir.new))) }
    ensures memory { IfErr result (λ stop. stop ≡ Stop.Memory → NoneFailed
        (failures (O.failures out.old) (E.failures err.old) (F.failures dir.old))
        (failures (O.failures out.new) (E.failures err.new) (F.failures dir.new))) }
    ensures well { OnOk result (NoneFailed
        (failures (O.failures out.old) (E.failures err.old) (F.failures dir.old))
        (failures (O.failures out.new) (E.failures err.new) (F.failures dir.new))) }
    ensures counted { E.failures err.old ≤ E.failures err.new }
    ensures unfinished { O.finishes out.new ≡ O.finishes out.old }
{
    let refused = unpack_all(alloc, options.manner, false, leaves, out, err, dir)?;
    if !options.prefix {
        return Ok(refused);
    }
    let crowded = unpack_all(alloc, options.manner, true, leaves, out, err, dir)?;
    Ok(refused || crowded)
}

// Unpacks the leaves of a document in turn, or what decodes of those that were cut off. Answers whether one was reported.
fn unpack_all<O: Sink, E: Sink, F: Folder>(
    alloc: Global,
    manner: Manner,
    cut: bool,
    leaves: &[Leaf<'_>],
    out: &mut O,
    err: &mut E,
    dir: &mut F,
) -> Result<bool, Stop>
    requires { AreSafe (map leaf_view leaves.now) }
    ensures all { IfOk result (λ refused. (t : Document) → AreAt t leaves.now → UnpackedAll manner t (map (task_of cut) (map leaf_view leaves.now)) refused
        (written (O.contents out.old) (E.contents err.old) (F.files dir.old))
        (written (O.contents out.new) (E.contents err.new) (F.files dir.new))) }
    ensures some { OnErr result ((t : Document) → AreAt t leaves.now → UnpackedSome manner t (map (task_of cut) (map leaf_view leaves.now))
        (written (O.contents out.old) (E.contents err.old) (F.files dir.old))
        (written (O.contents out.new) (E.contents err.new) (F.files dir.new))) }
    ensures failed { IfErr result (λ stop. stop ≡ Stop.Fault → SomeFailed
        (failures (O.failures out.old) (E.failures err.old) (F.failures dir.old))
        (failures (O.failures out.new) (E.failures err.new) (F.failures dir.new))) }
    ensures memory { IfErr result (λ stop. stop ≡ Stop.Memory → NoneFailed
        (failures (O.failures out.old) (E.failures err.old) (F.failures dir.old))
        (failures (O.failures out.new) (E.failures err.new) (F.failures dir.new))) }
    ensures well { OnOk result (NoneFailed
        (failures (O.failures out.old) (E.failures err.old) (F.failures dir.old))
        (failures (O.failures out.new) (E.failures err.new) (F.failures dir.new))) }
    ensures counted { E.failures err.old ≤ E.failures err.new }
    ensures unfinished { O.finishes out.new ≡ O.finishes out.old }
{
    let mut refused = false;
    let mut content = Content::of(alloc, &[]);
    for leaf in leaves {
        refused |= unpack_task(alloc, manner, cut, leaf, &mut content, out, err, dir)?;
    }
    Ok(refused)
}
