//! The names of the fields of a section, borrowed from it.
ghost use Rattle.std.specs.Prelude.{◌≡◌, false, map, IfOk};
ghost use Rattle.std.specs.List.{list_any};
ghost use Rattle.mk_line.specs.Lines.{cut};
ghost use Rattle.mk_head.specs.Fields.{fields_of};
ghost use Rattle.mk_head.specs.Split.{fields_from};
ghost use Rattle.mk_mail.specs.LetterWork.{texts_of};
ghost use Rattle.mk_mail.specs.Letters.{fields_at, names_at, same_name};

use crate::patterns::is_same;
use mk_head::each_field;
use mk_tree::Doc;
use std::alloc::{AllocError, Global};
use std::borrow::CowSlice;

/// The names of the fields of the section at a path; none if there is no such section.
pub(crate) fn names_of<'a>(
    alloc: Global,
    doc: &'a Doc,
    path: &[u32],
) -> Result<Vec<CowSlice<'a, u8>>, AllocError>
    ensures { IfOk result (λ names. texts_of names.items ≡ names_at path.now doc.now) }
{
    names_in(alloc, head_at(doc, path))
}

/// The bytes of the fields of the section at a path; none if there is no such section.
pub fn head_at<'a>(doc: &'a Doc, path: &[u32]) -> &'a [u8]
    ensures { fields_of (fields_from false (cut result.now)) ≡ fields_at path.now doc.now }
{
    match doc.section(path) {
        Some(section) => section.head(),
        None => b"",
    }
}

// The names of the fields of a head.
fn names_in(alloc: Global, head: &[u8]) -> Result<Vec<CowSlice<'_, u8>>, AllocError>
    ensures { IfOk result (λ names. texts_of names.items ≡ map (λ f. f.name) (fields_of (fields_from false (cut head.now)))) }
{
    let mut names = Vec::new(alloc);
    for field in each_field(head) {
        names.push(CowSlice::Borrowed(field.name))?;
    }
    Ok(names)
}

/// Whether a name is among these, without regard to ASCII case.
pub(crate) fn has_name(names: &[CowSlice<'_, u8>], name: &[u8]) -> bool
    ensures { result ≡ list_any (same_name name.now) (texts_of names.now) }
{
    for own in names {
        if is_same(name, own) {
            return true;
        }
    }
    false
}
