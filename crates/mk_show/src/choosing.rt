//! The leaves that are unpacked: all, or those at and below some sections.

ghost use Rattle.std.specs.Prelude.{◌≡◌, ◌++◌, IfOk, OnOk, map};
ghost use Rattle.std.specs.List.{flat_map};
ghost use Rattle.std.specs.Option.{option_map};
ghost use Rattle.mk_tree.specs.Documents.{Document, tree};
ghost use Rattle.mk_view.specs.GivenNames.{AreSafe};
ghost use Rattle.mk_view.specs.LeafViews.{AreAt, leaf_view};
ghost use Rattle.mk_show.specs.Chosen.{AreAsked, asked_of, is_within as path_is_within, missing_line, missing_lines as lines_of_missing, within as leaves_within};
ghost use Rattle.mk_script.specs.ScriptViews.{items_of};

use crate::answers::refusal;
use crate::unpacking::UnpackOptions;
use mk_tree::Doc;
use mk_view::{ExtractError, Leaf, leaves_in};
use std::alloc::{AllocError, Global};

/// The leaves of a document that are asked for, in its order.
pub(crate) fn asked_leaves<'a>(
    alloc: Global,
    doc: &'a Doc,
    options: UnpackOptions<'_>,
) -> Result<Vec<Leaf<'a>>, AllocError>
    ensures asked { IfOk result (λ leaves. AreAsked (asked_of options.entry) (tree doc.now) (map leaf_view leaves.items)) }
    ensures safe { IfOk result (λ leaves. AreSafe (map leaf_view leaves.items)) }
    ensures placed { IfOk result (λ leaves. AreAt (tree doc.now) leaves.items) }
{
    let leaves = leaves_in(alloc, doc, options.storing)?;
    match options.sections {
        Some(sections) => within(alloc, leaves, sections),
        None => Ok(leaves),
    }
}

// The leaves at and below the sections at some paths.
fn within<'a>(
    alloc: Global,
    leaves: Vec<Leaf<'a>>,
    sections: &[Vec<u32>],
) -> Result<Vec<Leaf<'a>>, AllocError>
    ensures kept { IfOk result (λ kept. map leaf_view kept.items ≡ leaves_within (items_of sections.now) (map leaf_view leaves.entry.items)) }
    ensures safe { IfOk result (λ kept. AreSafe (map leaf_view leaves.entry.items) → AreSafe (map leaf_view kept.items)) }
    ensures placed { IfOk result (λ kept. (t : Document) → AreAt t leaves.entry.items → AreAt t kept.items) }
{
    let mut kept = Vec::new(alloc);
    for leaf in leaves {
        if is_within(sections, &leaf.path) {
            kept.push(leaf)?;
        }
    }
    Ok(kept)
}

// Whether one of the sections is at a path, or above it.
fn is_within(sections: &[Vec<u32>], path: &[u32]) -> bool
    ensures { result ≡ path_is_within (items_of sections.now) path.now }
{
    for section in sections {
        if path.starts_with(section) {
            return true;
        }
    }
    false
}

/// The lines that report the paths that lead to no section.
pub(crate) fn missing_lines(
    alloc: Global,
    doc: &Doc,
    sections: Option<&[Vec<u32>]>,
) -> Result<Vec<u8>, AllocError>
    ensures { IfOk result (λ lines. lines.items ≡ lines_of_missing (tree doc.now) (option_map (λ paths. items_of paths.now) sections.entry)) }
{
    match sections {
        Some(paths) => lines_for(alloc, doc, paths),
        None => Ok(Vec::new(alloc)),
    }
}

// Those lines for some paths.
fn lines_for(alloc: Global, doc: &Doc, paths: &[Vec<u32>]) -> Result<Vec<u8>, AllocError>
    ensures { IfOk result (λ lines. lines.items ≡ flat_map (missing_line (tree doc.now)) (items_of paths.now)) }
{
    let mut lines = Vec::new(alloc);
    for path in paths {
        push_missing(alloc, &mut lines, doc, path)?;
    }
    Ok(lines)
}

// Adds the line for a path after others, if it leads to no section.
fn push_missing(
    alloc: Global,
    lines: &mut Vec<u8>,
    doc: &Doc,
    path: &[u32],
) -> Result<(), AllocError>
    ensures { OnOk result (lines.new.items ≡ lines.old.items ++ missing_line (tree doc.now) path.now) }
{
    match doc.section(path) {
        Some(_) => Ok(()),
        None => lines.extend_from_slice(&refusal(alloc, path, ExtractError::NoSuchSection)?),
    }
}
