//! Passing over lines up to the first that is a delimiter or close line of an open boundary, one of a multipart around them.
ghost use Rattle.std.specs.Prelude.{◌≡◌, ◌<◌, ◌+◌, ◌++◌, ◌∷◌, [], true, false, length, IfNone, IfSome, IfOk};
ghost use Rattle.mk_line.specs.Lines.{cut as lines_of};
ghost use Rattle.mk_line.specs.Views.{line_of};
ghost use Rattle.mk_line.specs.Marks.{mark};
ghost use Rattle.mk_head.specs.Split.{separator_of, body_of};
ghost use Rattle.std.specs.Option.{option_to_list};
ghost use Rattle.mk_tree.specs.Upto.{is_mark as marks, is_marked as marked, upto, beyond, fields_until, rest_until};
ghost use Rattle.mk_tree.specs.Spans.{size};
ghost use Rattle.mk_tree.specs.Nodes.{tail_of};
ghost use Rattle.mk_tree.specs.Spans.{tail_sizes};
ghost use Rattle.mk_tree.specs.inner.Marked.{first_marked};
ghost use Rattle.mk_tree.specs.Steps.{boundaries_of, begins_part, after_first, first_size, ended_by};

use crate::dashes::to_dashed;
use crate::node::Tail;
use memchr::memmem::Finder;
use mk_head::first_field;
use mk_line::{Line, Mark, first_line, is_delimiter, trimmed};
use std::alloc::{AllocError, Global};

const DASHES: &[u8; 2] = b"--";

/// The open boundaries and one more.
pub(crate) fn with_boundary<'a>(
    alloc: Global,
    opened: &[&'a [u8]],
    boundary: &'a [u8],
) -> Result<Vec<&'a [u8]>, AllocError>
    ensures { IfOk result (λ v. boundaries_of v.items ≡ boundaries_of opened.now ++ boundary.now ∷ []) }
{
    let mut inside = Vec::with_capacity(alloc, opened.len() + 1)?;
    inside.extend_from_slice(opened)?;
    inside.push(boundary)?;
    Ok(inside)
}

// Whether a content is the delimiter or the close line of a boundary.
fn is_mark(content: &[u8], boundary: &[u8]) -> bool
    ensures { result ≡ marks (mark boundary.now content.now) }
{
    match is_delimiter(content, boundary) {
        Mark::No => false,
        Mark::Part | Mark::Close => true,
    }
}

// Whether the line is a delimiter or close line of an open boundary.
fn is_marked(line: &Line<'_>, opened: &[&[u8]]) -> bool
    ensures { result ≡ marked (boundaries_of opened.now) (line_of line.now) }
{
    if !line.content.starts_with(DASHES) {
        return false;
    }
    let content = trimmed(line.content);
    for boundary in opened {
        if is_mark(content, boundary) {
            return true;
        }
    }
    false
}

// Whether the first line is a mark of an open boundary.
fn begins_marked(text: &[u8], opened: &[&[u8]]) -> bool
    ensures { result ≡ first_marked (boundaries_of opened.now) (lines_of text.now) }
{
    if !text.starts_with(DASHES) {
        return false;
    }
    match first_line(text) {
        Some((line, _)) => is_marked(&line, opened),
        None => false,
    }
}

/// What follows the fields at the start, up to a mark. A continuation begins with a blank, so only a field start can be one.
pub(crate) fn skip_fields<'a>(text: &'a [u8], opened: &[&[u8]]) -> &'a [u8]
    ensures fields { length text.now ≡ size (fields_until (boundaries_of opened.now) false (lines_of text.now)) + length result.now }
    ensures rest { rest_until (boundaries_of opened.now) false (lines_of text.now) ≡ lines_of result.now }
{
    let mut rest = text;
    'each: while let Some((_, following)) = first_field(rest) {
        if begins_marked(rest, opened) {
            break;
        }
        rest = following;
    }
    rest
}

/// What follows the empty line at the start, if there is one.
pub(crate) fn skip_separator(text: &[u8]) -> &[u8]
    ensures separator { length text.now ≡ size (option_to_list (separator_of (lines_of text.now))) + length result.now }
    ensures body { body_of (lines_of text.now) ≡ lines_of result.now }
{
    match first_line(text) {
        Some((line, rest)) => { if line.content.is_empty() { rest } else { text } }
        None => text,
    }
}

/// The first mark and what follows it.
pub(crate) fn skip_unmarked<'a>(text: &'a [u8], opened: &[&[u8]], dashed: &Finder<'_>) -> &'a [u8]
    requires { dashed.now ≡ 10 ∷ 45 ∷ 45 ∷ [] }
    ensures front { length text.now ≡ size (upto (boundaries_of opened.now) (lines_of text.now)) + length result.now }
    ensures rest { beyond (boundaries_of opened.now) (lines_of text.now) ≡ lines_of result.now }
{
    if opened.is_empty() {
        return &text[text.len()..];
    }
    let mut rest = to_dashed(text, dashed);
    'each: while let Some((line, following)) = first_line(rest) {
        if is_marked(&line, opened) {
            break;
        }
        rest = to_dashed(following, dashed);
    }
    rest
}

/// What follows a delimiter of the boundary at the start, where it is no mark of those around it.
pub(crate) fn after_delimiter<'a>(
    text: &'a [u8],
    boundary: &[u8],
    opened: &[&[u8]],
) -> Option<&'a [u8]>
    ensures none { IfNone result (begins_part (boundaries_of opened.now) boundary.now (lines_of text.now) ≡ false) }
    ensures begins { IfSome result (λ r. begins_part (boundaries_of opened.now) boundary.now (lines_of text.now) ≡ true) }
    ensures rest { IfSome result (λ r. lines_of r.now ≡ after_first (lines_of text.now)) }
    ensures delimiter { IfSome result (λ r. length text.now ≡ first_size (lines_of text.now) + length r.now) }
    ensures less { IfSome result (λ r. length r.now < length text.now) }
{
    let (line, rest) = first_line(text)?;
    if !is_marked(&line, opened) && is_delimiter(line.content, boundary) == Mark::Part {
        Some(rest)
    } else {
        None
    }
}

/// The line at the start and what it closes off, where it is no mark; and what follows.
pub(crate) fn read_tail<'a>(
    text: &'a [u8],
    opened: &[&[u8]],
    dashed: &Finder<'_>,
) -> (Option<Tail>, &'a [u8])
    requires { dashed.now ≡ 10 ∷ 45 ∷ 45 ∷ [] }
    ensures tail { tail_of result.0 ≡ tail_sizes (ended_by (boundaries_of opened.now) (lines_of text.now)) }
    ensures rest { lines_of result.1.now ≡ beyond (boundaries_of opened.now) (lines_of text.now) }
{
    match first_line(text) {
        Some((line, following)) if !is_marked(&line, opened) => {
            let rest = skip_unmarked(following, opened, dashed);
            let tail = Tail {
                close: text.len() - following.len(),
                epilogue: following.len() - rest.len(),
            };
            (Some(tail), rest)
        }
        _ => (None, text),
    }
}
