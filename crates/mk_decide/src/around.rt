//! What stands around a section: the enclosing multiparts, and the message that it is in.
ghost use Rattle.std.specs.Prelude.{◌≡◌, false};
ghost use Rattle.mk_line.specs.Lines.{cut as lines_of};
ghost use Rattle.mk_tree.specs.Documents.{tree};
ghost use Rattle.mk_tree.specs.Sections.{boundary_in, root_of};
ghost use Rattle.mk_decide.specs.Outcomes.{has_mark as have_mark};
ghost use Rattle.mk_tree.specs.Upto.{is_mark as are_mark};
ghost use Rattle.mk_decide.specs.Around.{glued_below, glues as glues_below, hit_below, marks_any};

use crate::looking::has_separator;
use mk_line::{Mark, cut, is_delimiter};
use mk_tree::{Doc, Kind, Section};

/// The level of the outermost multipart, on the way by these numbers from the root, of which some line of a text is a
/// delimiter or close line; the root has level 1.
pub(crate) fn hit_level(doc: &Doc, numbers: &[u32], text: &[u8]) -> Option<usize>
    ensures { result ≡ hit_below (lines_of text.now) 1 numbers.now (root_of (tree doc.now)) }
{
    let mut section = doc.root();
    let mut level = 1;
    for number in numbers {
        if is_hit(&section, text) {
            return Some(level);
        }
        section = section.child(*number)?;
        level += 1;
    }
    None
}

// Whether some line of a text is a delimiter or close line of a section.
fn is_hit(section: &Section<'_>, text: &[u8]) -> bool
    ensures { result ≡ marks_any (lines_of text.now) (boundary_in section.now.entity) }
{
    match section.boundary() {
        Some(boundary) => has_mark(text, boundary),
        None => false,
    }
}

// Whether some line of a text is a delimiter or close line of a boundary.
pub(crate) fn has_mark(text: &[u8], boundary: &[u8]) -> bool
    ensures { result ≡ have_mark boundary.now (lines_of text.now) }
{
    for line in cut(text) {
        if is_mark(is_delimiter(line.content, boundary)) {
            return true;
        }
    }
    false
}

fn is_mark(mark: Mark) -> bool
    ensures { result ≡ are_mark mark }
{
    match mark {
        Mark::No => false,
        Mark::Part | Mark::Close => true,
    }
}

/// Whether the section that these numbers lead to from the root stands directly after the fields of a message, without
/// a separator between them.
pub(crate) fn is_glued(doc: &Doc, numbers: &[u32]) -> bool
    ensures { result ≡ glued_below false numbers.now (root_of (tree doc.now)) }
{
    let mut section = doc.root();
    let mut glued = false;
    for number in numbers {
        glued = glues(&section);
        match section.child(*number) {
            Some(child) => section = child,
            None => return false,
        }
    }
    glued
}

// Whether a section is a message whose fields have no separator after them.
pub(crate) fn glues(section: &Section<'_>) -> bool
    ensures { result ≡ glues_below section.now.entity }
{
    section.kind() == Kind::Message && !has_separator(section)
}
