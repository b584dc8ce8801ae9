//! Whether a section stays of its kind under new fields, and the parts directly below it do.
ghost use Rattle.std.specs.Prelude.{◌≡◌, ◌≤◌, ◌<◌, ◌+◌, ◌^◌, length, IfOk};
ghost use Rattle.mk_line.specs.Lines.{cut as lines_of};
ghost use Rattle.mk_tree.specs.Sections.{children as sections_below, head_text};
ghost use Rattle.mk_tree.specs.Steps.{kind_described};
ghost use Rattle.mk_decide.specs.KindsKept.{is_alike as are_alike, is_other as are_other, keeps_default as keeps_under, keeps_kind as keeps_its_kind, keeps_kinds as keeps_their_kinds, lines_of_others, looked_below, looked_for, parts_keep};

use crate::looking::copied_lines;
use mk_line::Meter;
use mk_tree::{Described, Kind, LEVELS, Section, describe};
use std::alloc::{AllocError, Global};

/// Whether a section, with this many numbers in its path, stays of its kind under the fields of a head, and so do the parts
/// directly below it where they change their default. At the last level all are leaves.
pub(crate) fn keeps_kinds(
    alloc: Global,
    level: usize,
    section: &Section<'_>,
    head: &[u8],
    meter: &mut Meter,
) -> Result<bool, AllocError>
    ensures keeps { IfOk result (λ g. g ≡ keeps_their_kinds level head.now section.now) }
    ensures most { meter.new ≤ meter.old + looked_below head.now section.now }
{
    if level > LEVELS as usize {
        return Ok(true);
    }
    let described = describe(alloc, head, section.default_message())?;
    if !is_alike(&described, section) {
        return Ok(false);
    }
    match described {
        Described::Multi(_, digest) => parts_keep_kinds(alloc, level + 1, section, digest, meter),
        Described::Leaf | Described::Message => Ok(true),
    }
}

// Whether the parts of a section, whose level is given, stay of their kinds under a default.
fn parts_keep_kinds(
    alloc: Global,
    level: usize,
    section: &Section<'_>,
    digest: bool,
    meter: &mut Meter,
) -> Result<bool, AllocError>
    ensures keep { IfOk result (λ g. g ≡ parts_keep level digest section.now) }
    ensures most { meter.new ≤ meter.old + lines_of_others digest (sections_below section.now) }
{
    if level > LEVELS as usize {
        return Ok(true);
    }
    for part in section.children() {
        if !keeps_default(alloc, &part, digest, meter)? {
            return Ok(false);
        }
    }
    Ok(true)
}

// Whether a part stays of its kind under a default, its own or another.
fn keeps_default(
    alloc: Global,
    part: &Section<'_>,
    digest: bool,
    meter: &mut Meter,
) -> Result<bool, AllocError>
    ensures keeps { IfOk result (λ g. g ≡ keeps_under digest part.now) }
    ensures most { meter.new ≤ meter.old + looked_for digest part.now }
{
    if is_other(part.default_message(), digest) {
        keeps_kind(alloc, part, digest, meter)
    } else {
        Ok(true)
    }
}

pub(crate) fn is_other(old: bool, new: bool) -> bool
    ensures { result ≡ are_other old new }
{
    if new { !old } else { old }
}

// Whether a part stays of its kind under another default.
fn keeps_kind(
    alloc: Global,
    part: &Section<'_>,
    digest: bool,
    meter: &mut Meter,
) -> Result<bool, AllocError>
    ensures keeps { IfOk result (λ g. g ≡ keeps_its_kind digest part.now) }
    ensures most { meter.new ≤ meter.old + length (lines_of (head_text part.now)) }
{
    let head = copied_lines(alloc, part.head(), meter)?;
    let described = describe(alloc, &head, digest)?;
    Ok(is_alike(&described, part))
}

// Whether fields say what a section is: a leaf, a message, or a multipart of the same boundary.
pub(crate) fn is_alike(described: &Described, section: &Section<'_>) -> bool
    ensures { result ≡ are_alike (kind_described described.now) section.now.entity }
{
    match described {
        Described::Leaf => section.kind() == Kind::Leaf,
        Described::Message => section.kind() == Kind::Message,
        Described::Multi(boundary, _) => match section.boundary() {
            Some(other) => other == boundary.as_slice(),
            None => false,
        },
    }
}
