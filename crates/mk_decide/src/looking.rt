//! Looks at the lines of a message, each of them counted.
ghost use Rattle.std.specs.Prelude.{◌≡◌, ◌≤◌, ◌+◌, length, IfOk, IfNone, IfSome};
ghost use Rattle.mk_line.specs.Lines.{cut as lines_of};
ghost use Rattle.mk_line.specs.Views.{line_of, BeginsLine};
ghost use Rattle.mk_tree.specs.Sections.{body_text};
ghost use Rattle.mk_tree.specs.Tree.{entity_head};
ghost use Rattle.mk_decide.specs.Looks.{ends_before as ends_before_lines, ends_there as ends_at, has_separator as holds_separator, IsEnd, IsNext};

use mk_line::{Line, Meter, is_continuation, is_from_line, line_at};
use mk_tree::Section;
use std::alloc::{AllocError, Global};

/// A copy of lines, each of which is looked at once.
pub(crate) fn copied_lines(
    alloc: Global,
    text: &[u8],
    meter: &mut Meter,
) -> Result<Vec<u8>, AllocError>
    ensures copy { IfOk result (λ v. v.items ≡ text.now) }
    ensures most { meter.new ≤ meter.old + length (lines_of text.now) }
{
    let mut copy = Vec::with_capacity(alloc, text.len())?;
    let mut place = 0;
    'each: while place < text.len() {
        match look(text, place, meter) {
            Some((_, size)) => {
                copy.extend_from_slice(&text[place..place + size])?;
                place += size;
            }
            None => return Ok(copy),
        }
    }
    Ok(copy)
}

// The line at a place, and how many bytes it takes.
fn look<'a>(text: &'a [u8], place: usize, meter: &mut Meter) -> Option<(Line<'a>, usize)>
    requires { BeginsLine text.now place }
    ensures some { IfSome result (λ r. IsNext text.now place (line_of r.0) r.1) }
    ensures none { IfNone result (IsEnd text.now place) }
    ensures most { meter.new ≤ meter.old + 1 }
{
    match line_at(text, place, meter) {
        Some(line) => {
            let size = line.size();
            Some((line, size))
        }
        None => None,
    }
}

/// Whether new fields of a section, or none, end where the old ones did; `first`, where the section is what a document
/// without an envelope begins with.
pub(crate) fn ends_there(section: &Section<'_>, none: bool, first: bool, meter: &mut Meter) -> bool
    ensures ends { result ≡ ends_at none first (entity_head section.now.entity).separator (lines_of (body_text section.now)) }
    ensures most { meter.new ≤ meter.old + 1 }
{
    has_separator(section) || ends_before(section.body(), none, first, meter)
}

// The same, where no separator stands between.
fn ends_before(body: &[u8], none: bool, first: bool, meter: &mut Meter) -> bool
    ensures ends { result ≡ ends_before_lines none first (lines_of body.now) }
    ensures most { meter.new ≤ meter.old + 1 }
{
    match look(body, 0, meter) {
        Some((line, _)) => {
            if none {
                !(first && is_from_line(line.content))
            } else {
                !is_continuation(line.content)
            }
        }
        None => true,
    }
}

/// Whether a separator stands after the fields of a section.
pub fn has_separator(section: &Section<'_>) -> bool
    ensures { result ≡ holds_separator (entity_head section.now.entity).separator }
{
    section.raw().len() - section.head().len() > section.body().len()
}
