//! The listing of a document: a line for each of its sections.
ghost use Rattle.std.specs.Prelude.{◌≡◌, ◌++◌, ◌∷◌, [], length, IfOk, OnOk};
ghost use Rattle.std.specs.List.{flat_map};
ghost use Rattle.mk_line.specs.Lines.{AreLines, cut as lines_of};
ghost use Rattle.mk_tree.specs.Documents.{tree};
ghost use Rattle.mk_tree.specs.Sections.{body_lines, body_text};
ghost use Rattle.mk_view.specs.Listed.{Listed, listed_from};
ghost use Rattle.mk_view.specs.Listing.{encoding_name as name_of_encoding, kind_name as name_of_kind, listing, listing_line};
ghost use Rattle.mk_view.specs.inner.Columns.{line_counts, nature, places};

use crate::typing::push_said_type;
use crate::writing::{push_column, push_number_column, push_path};
use mk_head::Encoding;
use mk_line::line_count;
use mk_tree::{Doc, Kind, Section};
use std::alloc::{AllocError, Global};

const LINE_FEED: u8 = b'\n';

const SPACE: u8 = b' ';

/// Lists the sections of a document, a line each, in the document's order: path, kind, type, transfer encoding, the
/// offsets in bytes of its start, of its body and of its end, and how many lines its fields and its body have. A section
/// with a number in its path that `u32` can't hold is left out.
pub fn list(alloc: Global, doc: &Doc) -> Result<Vec<u8>, AllocError>
    ensures { IfOk result (λ lines. lines.items ≡ listing (tree doc.now)) }
{
    let mut lines = Vec::new(alloc);
    push_sections(alloc, &mut lines, &[1], &doc.root())?;
    Ok(lines)
}

// Writes the line of a section, and after it those of the sections below. Answers how many lines its body has: those of the
// sections below are counted on the way, and no line twice.
fn push_sections(
    alloc: Global,
    lines: &mut Vec<u8>,
    path: &[u32],
    section: &Section<'_>,
) -> Result<usize, AllocError>
    requires { AreLines (body_lines section.now.entity) }
    ensures lines { OnOk result (lines.new.items ≡ lines.old.items ++ flat_map listing_line (listed_from path.now section.now)) }
    ensures count { IfOk result (λ count. count ≡ length (body_lines section.now.entity)) }
{
    let mut below = Vec::new(alloc);
    let mut rest = section.body();
    let mut place = section.body_start();
    let mut count = 0;
    let mut number = 1u32;
    for child in section.children() {
        let child_path = path_below(alloc, path, number)?;
        let (front, following) = rest.split_at(child.body_start() - place);
        count += line_count(front);
        count += push_sections(alloc, &mut below, &child_path, &child)?;
        let (_, after) = following.split_at(child.end() - child.body_start());
        rest = after;
        place = child.end();
        let Some(next) = number.checked_add(1) else {
            return push_listed(
                alloc,
                lines,
                path,
                section,
                count + line_count(rest),
                &below,
            );
        };
        number = next;
    }
    push_listed(
        alloc,
        lines,
        path,
        section,
        count + line_count(rest),
        &below,
    )
}

// Writes the line of a section whose body has this many lines, and after it those of the sections below.
fn push_listed(
    alloc: Global,
    lines: &mut Vec<u8>,
    path: &[u32],
    section: &Section<'_>,
    count: usize,
    below: &[u8],
) -> Result<usize, AllocError>
    requires { count ≡ length (lines_of (body_text section.now)) }
    ensures lines { OnOk result (lines.new.items ≡ lines.old.items ++ (listing_line (record { path = path.now; section = section.now }) ++ below.now)) }
    ensures count { IfOk result (λ answer. answer ≡ count) }
{
    push_line(alloc, lines, path, section, count)?;
    lines.extend_from_slice(below)?;
    Ok(count)
}

/// The path of the section with a number directly below another.
pub(crate) fn path_below(alloc: Global, path: &[u32], number: u32) -> Result<Vec<u32>, AllocError>
    ensures { IfOk result (λ below. below.items ≡ path.now ++ number ∷ []) }
{
    let mut below = Vec::with_capacity(alloc, path.len() + 1)?;
    below.extend_from_slice(path)?;
    below.push(number)?;
    Ok(below)
}

// Writes the line of a section whose body has this many lines.
fn push_line(
    alloc: Global,
    lines: &mut Vec<u8>,
    path: &[u32],
    section: &Section<'_>,
    count: usize,
) -> Result<(), AllocError>
    requires { count ≡ length (lines_of (body_text section.now)) }
    ensures { OnOk result (lines.new.items ≡ lines.old.items ++ listing_line (record { path = path.now; section = section.now })) }
{
    push_path(lines, path)?;
    push_nature(alloc, lines, section)?;
    push_places(lines, section)?;
    push_line_counts(lines, section, count)?;
    lines.push(LINE_FEED)?;
    Ok(())
}

fn push_nature(alloc: Global, lines: &mut Vec<u8>, section: &Section<'_>) -> Result<(), AllocError>
    ensures { OnOk result (lines.new.items ≡ lines.old.items ++ nature section.now) }
{
    push_column(lines, kind_name(section.kind()))?;
    lines.push(SPACE)?;
    let (value, encoding) = section.content_fields(alloc)?;
    push_said_type(lines, value, section.default_message())?;
    push_column(lines, encoding_name(encoding))
}

fn push_places(lines: &mut Vec<u8>, section: &Section<'_>) -> Result<(), AllocError>
    ensures { OnOk result (lines.new.items ≡ lines.old.items ++ places section.now) }
{
    push_number_column(lines, section.start())?;
    push_number_column(lines, section.body_start())?;
    push_number_column(lines, section.end())
}

fn push_line_counts(
    lines: &mut Vec<u8>,
    section: &Section<'_>,
    count: usize,
) -> Result<(), AllocError>
    requires { count ≡ length (lines_of (body_text section.now)) }
    ensures { OnOk result (lines.new.items ≡ lines.old.items ++ line_counts section.now) }
{
    push_number_column(lines, line_count(section.head()))?;
    push_number_column(lines, count)
}

fn kind_name(kind: Kind) -> &'static [u8]
    ensures { result.now ≡ name_of_kind kind }
{
    match kind {
        Kind::Leaf => b"leaf",
        Kind::Multi => b"multi",
        Kind::Message => b"message",
    }
}

fn encoding_name(encoding: Encoding) -> &'static [u8]
    ensures { result.now ≡ name_of_encoding encoding }
{
    match encoding {
        Encoding::Identity => b"identity",
        Encoding::Qp => b"quoted-printable",
        Encoding::Base64 => b"base64",
        Encoding::Other => b"other",
    }
}
