//! Words that change all fields of a name.

ghost use Rattle.std.specs.Prelude.{◌≡◌, ◌∷◌, [], false, filter, map, IfOk};
ghost use Rattle.mk_head.specs.Fields.{is_named};
ghost use Rattle.mk_decide.specs.Edits.{AddField, RemoveField, SetField};
ghost use Rattle.mk_decide.specs.Views.{edit_of};
ghost use Rattle.mk_tree.specs.Documents.{tree};
ghost use Rattle.mk_tree.specs.Sections.{section_at};
ghost use Rattle.mk_expand.specs.Views.{plain_edits};
ghost use Rattle.mk_expand.specs.FieldWords.{dropped, fields_in, name_in as name_that_is_in, put as put_in, put_over};

use mk_decide::Edit;
use mk_head::{each_field, one_field};
use mk_tree::Doc;
use std::alloc::{AllocError, Global};

/// Removes all fields of a name from the section at a path.
pub(crate) fn drop_all(
    alloc: Global,
    doc: &Doc,
    path: &[u32],
    name: &[u8],
) -> Result<Vec<Edit>, AllocError>
    ensures { IfOk result (λ edits. plain_edits edits.items ≡ dropped path.now name.now (section_at path.now (tree doc.now))) }
{
    match doc.section(path) {
        Some(section) => removals(alloc, section.head(), path, name),
        None => {
            let mut edits = Vec::new(alloc);
            edits.push(removal(alloc, path, name, 1)?)?;
            Ok(edits)
        }
    }
}

// Removes the fields of a name from a head.
fn removals(alloc: Global, head: &[u8], path: &[u32], name: &[u8]) -> Result<Vec<Edit>, AllocError>
    ensures { IfOk result (λ edits. plain_edits edits.items ≡ map (λ f. RemoveField path.now name.now 1) (filter (is_named name.now) (fields_in head.now))) }
{
    let mut edits = Vec::new(alloc);
    for field in each_field(head) {
        if field.is_named(name) {
            edits.push(removal(alloc, path, name, 1)?)?;
        }
    }
    Ok(edits)
}

/// Puts a field in the place of those of its name in the section at a path, or adds it if there is none.
pub(crate) fn put(
    alloc: Global,
    doc: &Doc,
    path: &[u32],
    text: &[u8],
) -> Result<Vec<Edit>, AllocError>
    ensures { IfOk result (λ edits. plain_edits edits.items ≡ put_in path.now text.now (section_at path.now (tree doc.now))) }
{
    let Some(section) = doc.section(path) else {
        return added(alloc, path, text);
    };
    if one_field(text) {
        put_over_named(alloc, section.head(), path, name_in(text), text)
    } else {
        added(alloc, path, text)
    }
}

// Puts a field in the place of the first of a name in a head; the others go.
fn put_over_named(
    alloc: Global,
    head: &[u8],
    path: &[u32],
    name: &[u8],
    text: &[u8],
) -> Result<Vec<Edit>, AllocError>
    ensures { IfOk result (λ edits. plain_edits edits.items ≡ put_over path.now name.now text.now (filter (is_named name.now) (fields_in head.now))) }
{
    let mut edits = Vec::new(alloc);
    for field in each_field(head) {
        if field.is_named(name) {
            if edits.is_empty() {
                edits.push(replacement(alloc, path, name, text)?)?;
            } else {
                edits.push(removal(alloc, path, name, 2)?)?;
            }
        }
    }
    if edits.is_empty() {
        added(alloc, path, text)
    } else {
        Ok(edits)
    }
}

// The name of the field that a text is.
fn name_in(text: &[u8]) -> &[u8]
    ensures { result.now ≡ name_that_is_in text.now }
{
    match each_field(text).next() {
        Some(field) => field.name,
        None => b"",
    }
}

// One more field, and nothing else.
fn added(alloc: Global, path: &[u32], text: &[u8]) -> Result<Vec<Edit>, AllocError>
    ensures { IfOk result (λ edits. plain_edits edits.items ≡ AddField path.now false text.now ∷ []) }
{
    let mut edits = Vec::new(alloc);
    edits.push(Edit::AddField {
        path: Vec::from_slice(alloc, path)?,
        top: false,
        text: Vec::from_slice(alloc, text)?,
    })?;
    Ok(edits)
}

fn replacement(alloc: Global, path: &[u32], name: &[u8], text: &[u8]) -> Result<Edit, AllocError>
    ensures { IfOk result (λ edit. edit_of edit ≡ SetField path.now name.now 1 text.now) }
{
    Ok(Edit::SetField {
        path: Vec::from_slice(alloc, path)?,
        name: Vec::from_slice(alloc, name)?,
        k: 1,
        text: Vec::from_slice(alloc, text)?,
    })
}

fn removal(alloc: Global, path: &[u32], name: &[u8], k: u32) -> Result<Edit, AllocError>
    ensures { IfOk result (λ edit. edit_of edit ≡ RemoveField path.now name.now k) }
{
    Ok(Edit::RemoveField {
        path: Vec::from_slice(alloc, path)?,
        name: Vec::from_slice(alloc, name)?,
        k,
    })
}
