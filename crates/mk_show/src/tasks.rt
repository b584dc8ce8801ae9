//! One leaf unpacked.

ghost use Rattle.std.specs.Prelude.{◌≡◌, ◌≤◌, ◌∷◌, [], true, false, Some, IfOk, IfErr, List, OnOk, OnErr, ℕ};
ghost use Rattle.mk_tree.specs.Documents.{Document};
ghost use Rattle.mk_view.specs.GivenNames.{is_safe};
ghost use Rattle.mk_view.specs.LeafViews.{IsAt, leaf_view};
ghost use Rattle.mk_show.specs.GivenPieces.{IsLeft};
ghost use Rattle.mk_show.specs.Unpacking.{IsPutOf, task_name, task_of};
ghost use Rattle.mk_show.specs.UnpackClauses.{NoneFailed, SomeFailed, UnpackedAll, UnpackedSome, failures, written};

use crate::contents::Content;
use crate::folder::Folder;
use crate::placing::put_free;
use crate::saying::{report_exists, report_undecoded, say_stored};
use crate::unpacking::Manner;
use mk_code::decode_front;
use mk_mailbox::Sink;
use mk_transfer::Stop;
use mk_view::{ExtractError, Leaf, content_size};
use std::alloc::{AllocError, Global};

/// What stands after the name of a content that was cut off.
const PART: &[u8; 5] = b".part";

/// Unpacks one leaf, whose content takes the place of another in the same memory, or what decodes of one that was cut off. Answers
/// whether it was reported.
pub(crate) fn unpack_task<'a, O: Sink, E: Sink, F: Folder>(
    alloc: Global,
    manner: Manner,
    cut: bool,
    leaf: &Leaf<'a>,
    content: &mut Content<'a>,
    out: &mut O,
    err: &mut E,
    dir: &mut F,
) -> Result<bool, Stop>
    requires { is_safe leaf.now.name.items ≡ true }
    ensures all { IfOk result (λ refused. (t : Document) → IsAt t leaf.now → UnpackedAll manner t (task_of cut (leaf_view leaf.now) ∷ []) refused
        (written (O.contents out.old) (E.contents err.old) (F.files dir.old))
        (written (O.contents out.new) (E.contents err.new) (F.files dir.new))) }
    ensures some { OnErr result ((t : Document) → IsAt t leaf.now → UnpackedSome manner t (task_of cut (leaf_view leaf.now) ∷ [])
        (written (O.contents out.old) (E.contents err.old) (F.files dir.old))
        (written (O.contents out.new) (E.contents err.new) (F.files dir.new))) }
    ensures failed { IfErr result (λ stop. stop ≡ Stop.Fault → SomeFailed
        (failures (O.failures out.old) (E.failures err.old) (F.failures dir.old))
        (failures (O.failures out.new) (E.failures err.new) (F.failures dir.new))) }
    ensures memory { IfErr result (λ stop. stop ≡ Stop.Memory → NoneFailed
        (failures (O.failures out.old) (E.failures err.old) (F.failures dir.old))
        (failures (O.failures out.new) (E.failures err.new) (F.failures dir.new))) }
    ensures well { OnOk result (NoneFailed
        (failures (O.failures out.old) (E.failures err.old) (F.failures dir.old))
        (failures (O.failures out.new) (E.failures err.new) (F.failures dir.new))) }
    ensures counted { E.failures err.old ≤ E.failures err.new }
    ensures unfinished { O.finishes out.new ≡ O.finishes out.old }
{
    if cut {
        unpack_front(alloc, manner, leaf, out, err, dir)
    } else {
        unpack_whole(alloc, manner, leaf, content, out, err, dir)
    }
}

// Unpacks the content of a leaf. Answers whether it was reported.
fn unpack_whole<'a, O: Sink, E: Sink, F: Folder>(
    alloc: Global,
    manner: Manner,
    leaf: &Leaf<'a>,
    content: &mut Content<'a>,
    out: &mut O,
    err: &mut E,
    dir: &mut F,
) -> Result<bool, Stop>
    requires { is_safe leaf.now.name.items ≡ true }
    ensures all { IfOk result (λ refused. (t : Document) → IsAt t leaf.now → UnpackedAll manner t (task_of false (leaf_view leaf.now) ∷ []) refused
        (written (O.contents out.old) (E.contents err.old) (F.files dir.old))
        (written (O.contents out.new) (E.contents err.new) (F.files dir.new))) }
    ensures some { OnErr result ((t : Document) → IsAt t leaf.now → UnpackedSome manner t (task_of false (leaf_view leaf.now) ∷ [])
        (written (O.contents out.old) (E.contents err.old) (F.files dir.old))
        (written (O.contents out.new) (E.contents err.new) (F.files dir.new))) }
    ensures failed { IfErr result (λ stop. stop ≡ Stop.Fault → SomeFailed
        (failures (O.failures out.old) (E.failures err.old) (F.failures dir.old))
        (failures (O.failures out.new) (E.failures err.new) (F.failures dir.new))) }
    ensures memory { IfErr result (λ stop. stop ≡ Stop.Memory → NoneFailed
        (failures (O.failures out.old) (E.failures err.old) (F.failures dir.old))
        (failures (O.failures out.new) (E.failures err.new) (F.failures dir.new))) }
    ensures well { OnOk result (NoneFailed
        (failures (O.failures out.old) (E.failures err.old) (F.failures dir.old))
        (failures (O.failures out.new) (E.failures err.new) (F.failures dir.new))) }
    ensures counted { E.failures err.old ≤ E.failures err.new }
    ensures unfinished { O.finishes out.new ≡ O.finishes out.old }
{
    match content.begin(alloc, &leaf.section) {
        Ok(()) => {}
        Err(ExtractError::Memory) => return Err(Stop::Memory),
        Err(reason) => {
            report_undecoded(alloc, err, &leaf.path, reason)?;
            return Ok(true);
        }
    }
    store(
        alloc, manner, false, leaf, &leaf.name, content, out, err, dir,
    )
}

// Unpacks what decodes of a leaf that was cut off. Answers whether it was reported.
fn unpack_front<O: Sink, E: Sink, F: Folder>(
    alloc: Global,
    manner: Manner,
    leaf: &Leaf<'_>,
    out: &mut O,
    err: &mut E,
    dir: &mut F,
) -> Result<bool, Stop>
    requires { is_safe leaf.now.name.items ≡ true }
    ensures all { IfOk result (λ refused. (t : Document) → IsAt t leaf.now → UnpackedAll manner t (task_of true (leaf_view leaf.now) ∷ []) refused
        (written (O.contents out.old) (E.contents err.old) (F.files dir.old))
        (written (O.contents out.new) (E.contents err.new) (F.files dir.new))) }
    ensures some { OnErr result ((t : Document) → IsAt t leaf.now → UnpackedSome manner t (task_of true (leaf_view leaf.now) ∷ [])
        (written (O.contents out.old) (E.contents err.old) (F.files dir.old))
        (written (O.contents out.new) (E.contents err.new) (F.files dir.new))) }
    ensures failed { IfErr result (λ stop. stop ≡ Stop.Fault → SomeFailed
        (failures (O.failures out.old) (E.failures err.old) (F.failures dir.old))
        (failures (O.failures out.new) (E.failures err.new) (F.failures dir.new))) }
    ensures memory { IfErr result (λ stop. stop ≡ Stop.Memory → NoneFailed
        (failures (O.failures out.old) (E.failures err.old) (F.failures dir.old))
        (failures (O.failures out.new) (E.failures err.new) (F.failures dir.new))) }
    ensures well { OnOk result (NoneFailed
        (failures (O.failures out.old) (E.failures err.old) (F.failures dir.old))
        (failures (O.failures out.new) (E.failures err.new) (F.failures dir.new))) }
    ensures counted { E.failures err.old ≤ E.failures err.new }
    ensures unfinished { O.finishes out.new ≡ O.finishes out.old }
{
    match content_size(alloc, &leaf.section) {
        Err(ExtractError::BadBase64) => {}
        Err(ExtractError::Memory) => return Err(Stop::Memory),
        Ok(_) => return Ok(false),
        Err(ExtractError::NoSuchSection | ExtractError::UnknownEncoding) => return Ok(false),
    }
    let front = decode_front(alloc, leaf.section.content())?;
    let name = part_name(alloc, &leaf.name)?;
    let mut content = Content::of(alloc, &front);
    store(
        alloc,
        manner,
        true,
        leaf,
        &name,
        &mut content,
        out,
        err,
        dir,
    )
}

// The name of what decodes of a content that was cut off.
fn part_name(alloc: Global, name: &[u8]) -> Result<Vec<u8>, AllocError>
    ensures is { IfOk result (λ part. part.items ≡ task_name true name.now) }
    ensures safe { IfOk result (λ part. is_safe name.now ≡ true → is_safe part.items ≡ true) }
{
    let mut part = Vec::from_slice(alloc, name)?;
    part.extend_from_slice(PART)?;
    Ok(part)
}

// Puts the bytes of a leaf under its name, and says so. Answers whether it was reported.
fn store<O: Sink, E: Sink, F: Folder>(
    alloc: Global,
    manner: Manner,
    cut: bool,
    leaf: &Leaf<'_>,
    name: &[u8],
    content: &mut Content<'_>,
    out: &mut O,
    err: &mut E,
    dir: &mut F,
) -> Result<bool, Stop>
    requires name { name.now ≡ task_name cut leaf.now.name.items }
    requires safe { is_safe name.now ≡ true }
    requires decodes { (bytes : List ℕ) × IsPutOf cut (Some leaf.now.section) bytes × IsLeft content.old bytes }
    ensures all { IfOk result (λ refused. (t : Document) → IsAt t leaf.now → UnpackedAll manner t (task_of cut (leaf_view leaf.now) ∷ []) refused
        (written (O.contents out.old) (E.contents err.old) (F.files dir.old))
        (written (O.contents out.new) (E.contents err.new) (F.files dir.new))) }
    ensures some { OnErr result ((t : Document) → IsAt t leaf.now → UnpackedSome manner t (task_of cut (leaf_view leaf.now) ∷ [])
        (written (O.contents out.old) (E.contents err.old) (F.files dir.old))
        (written (O.contents out.new) (E.contents err.new) (F.files dir.new))) }
    ensures failed { IfErr result (λ stop. stop ≡ Stop.Fault → SomeFailed
        (failures (O.failures out.old) (E.failures err.old) (F.failures dir.old))
        (failures (O.failures out.new) (E.failures err.new) (F.failures dir.new))) }
    ensures memory { IfErr result (λ stop. stop ≡ Stop.Memory → NoneFailed
        (failures (O.failures out.old) (E.failures err.old) (F.failures dir.old))
        (failures (O.failures out.new) (E.failures err.new) (F.failures dir.new))) }
    ensures well { OnOk result (NoneFailed
        (failures (O.failures out.old) (E.failures err.old) (F.failures dir.old))
        (failures (O.failures out.new) (E.failures err.new) (F.failures dir.new))) }
    ensures counted { E.failures err.old ≤ E.failures err.new }
    ensures unfinished { O.finishes out.new ≡ O.finishes out.old }
{
    let clash = manner.clash.of_task(cut);
    match put_free(alloc, dir, name, content, clash)? {
        Some(target) => {
            say_stored(alloc, out, manner.report, leaf, &target)?;
            Ok(false)
        }
        None => {
            report_exists(alloc, err, name)?;
            Ok(true)
        }
    }
}
