//! The nine edits, put down one after another for the next call of `mk_c_make` or `mk_c_check`. Paths are the numbers of a
//! section, each counted from 1: the root is 1. All bytes that are given are copied.
ghost use Rattle.std.specs.Prelude.{◌≡◌, IfErr, IfOk};
ghost use Rattle.mk_decide.specs.Edits.{AddField, InsertPart, RemoveField, RemovePart, RenameField, SetBody, SetField, SetSection, Wrap};
ghost use Rattle.mk_decide.specs.Views.{edit_of};
ghost use Rattle.mk_c.specs.Calls.{Calls, PutsDown};
ghost use Rattle.mk_c.specs.inner.Steps.{PutsDownMade};

use crate::handle::Handle;
use crate::status::{Place, Reason, told};
use mk_edit::Edit;
use std::alloc::{AllocError, Global};

/// Puts down AddField: one field, with its line endings, before the others of a section where `top` holds, or after them.
#[unsafe(no_mangle)]
pub extern "C" fn mk_c_add_field(
    alloc: Global,
    handle: &mut Handle,
    path: &[u32],
    top: bool,
    text: &[u8],
    place: &mut Place,
) -> u32
    ensures { Calls (PutsDown (AddField path.now top text.now)) result place.new handle.old.desk handle.new.desk }
{
    put_down(alloc, handle, add_field(alloc, path, top, text), place)
}

fn add_field(alloc: Global, path: &[u32], top: bool, text: &[u8]) -> Result<Edit, AllocError>
    ensures { IfOk result (λ edit. edit_of edit ≡ AddField path.now top text.now) }
{
    Ok(Edit::AddField {
        path: Vec::from_slice(alloc, path)?,
        top,
        text: Vec::from_slice(alloc, text)?,
    })
}

/// Puts down RemoveField: the `k`-th field of a name, counted from 1, is taken out.
#[unsafe(no_mangle)]
pub extern "C" fn mk_c_remove_field(
    alloc: Global,
    handle: &mut Handle,
    path: &[u32],
    name: &[u8],
    k: u32,
    place: &mut Place,
) -> u32
    ensures { Calls (PutsDown (RemoveField path.now name.now k)) result place.new handle.old.desk handle.new.desk }
{
    put_down(alloc, handle, remove_field(alloc, path, name, k), place)
}

fn remove_field(alloc: Global, path: &[u32], name: &[u8], k: u32) -> Result<Edit, AllocError>
    ensures { IfOk result (λ edit. edit_of edit ≡ RemoveField path.now name.now k) }
{
    Ok(Edit::RemoveField {
        path: Vec::from_slice(alloc, path)?,
        name: Vec::from_slice(alloc, name)?,
        k,
    })
}

/// Puts down RenameField: the `k`-th field of a name gets another.
#[unsafe(no_mangle)]
pub extern "C" fn mk_c_rename_field(
    alloc: Global,
    handle: &mut Handle,
    path: &[u32],
    name: &[u8],
    k: u32,
    to: &[u8],
    place: &mut Place,
) -> u32
    ensures { Calls (PutsDown (RenameField path.now name.now k to.now)) result place.new handle.old.desk handle.new.desk }
{
    put_down(alloc, handle, rename_field(alloc, path, name, k, to), place)
}

fn rename_field(
    alloc: Global,
    path: &[u32],
    name: &[u8],
    k: u32,
    to: &[u8],
) -> Result<Edit, AllocError>
    ensures { IfOk result (λ edit. edit_of edit ≡ RenameField path.now name.now k to.now) }
{
    Ok(Edit::RenameField {
        path: Vec::from_slice(alloc, path)?,
        name: Vec::from_slice(alloc, name)?,
        k,
        to: Vec::from_slice(alloc, to)?,
    })
}

/// Puts down SetField: one field, with its line endings, in the place of the `k`-th of a name.
#[unsafe(no_mangle)]
pub extern "C" fn mk_c_set_field(
    alloc: Global,
    handle: &mut Handle,
    path: &[u32],
    name: &[u8],
    k: u32,
    text: &[u8],
    place: &mut Place,
) -> u32
    ensures { Calls (PutsDown (SetField path.now name.now k text.now)) result place.new handle.old.desk handle.new.desk }
{
    put_down(alloc, handle, set_field(alloc, path, name, k, text), place)
}

fn set_field(
    alloc: Global,
    path: &[u32],
    name: &[u8],
    k: u32,
    text: &[u8],
) -> Result<Edit, AllocError>
    ensures { IfOk result (λ edit. edit_of edit ≡ SetField path.now name.now k text.now) }
{
    Ok(Edit::SetField {
        path: Vec::from_slice(alloc, path)?,
        name: Vec::from_slice(alloc, name)?,
        k,
        text: Vec::from_slice(alloc, text)?,
    })
}

/// Puts down SetBody: the body of a leaf.
#[unsafe(no_mangle)]
pub extern "C" fn mk_c_set_body(
    alloc: Global,
    handle: &mut Handle,
    path: &[u32],
    text: &[u8],
    place: &mut Place,
) -> u32
    ensures { Calls (PutsDown (SetBody path.now text.now)) result place.new handle.old.desk handle.new.desk }
{
    put_down(alloc, handle, set_body(alloc, path, text), place)
}

fn set_body(alloc: Global, path: &[u32], text: &[u8]) -> Result<Edit, AllocError>
    ensures { IfOk result (λ edit. edit_of edit ≡ SetBody path.now text.now) }
{
    Ok(Edit::SetBody {
        path: Vec::from_slice(alloc, path)?,
        text: Vec::from_slice(alloc, text)?,
    })
}

/// Puts down SetSection: an entity in the place of a section.
#[unsafe(no_mangle)]
pub extern "C" fn mk_c_set_section(
    alloc: Global,
    handle: &mut Handle,
    path: &[u32],
    text: &[u8],
    place: &mut Place,
) -> u32
    ensures { Calls (PutsDown (SetSection path.now text.now)) result place.new handle.old.desk handle.new.desk }
{
    put_down(alloc, handle, set_section(alloc, path, text), place)
}

fn set_section(alloc: Global, path: &[u32], text: &[u8]) -> Result<Edit, AllocError>
    ensures { IfOk result (λ edit. edit_of edit ≡ SetSection path.now text.now) }
{
    Ok(Edit::SetSection {
        path: Vec::from_slice(alloc, path)?,
        text: Vec::from_slice(alloc, text)?,
    })
}

/// Puts down InsertPart: a part of a multipart, after so many others.
#[unsafe(no_mangle)]
pub extern "C" fn mk_c_insert_part(
    alloc: Global,
    handle: &mut Handle,
    path: &[u32],
    after: u32,
    text: &[u8],
    place: &mut Place,
) -> u32
    ensures { Calls (PutsDown (InsertPart path.now after text.now)) result place.new handle.old.desk handle.new.desk }
{
    put_down(alloc, handle, insert_part(alloc, path, after, text), place)
}

fn insert_part(alloc: Global, path: &[u32], after: u32, text: &[u8]) -> Result<Edit, AllocError>
    ensures { IfOk result (λ edit. edit_of edit ≡ InsertPart path.now after text.now) }
{
    Ok(Edit::InsertPart {
        path: Vec::from_slice(alloc, path)?,
        place: after,
        text: Vec::from_slice(alloc, text)?,
    })
}

/// Puts down RemovePart: a part is taken out, with its delimiter.
#[unsafe(no_mangle)]
pub extern "C" fn mk_c_remove_part(
    alloc: Global,
    handle: &mut Handle,
    path: &[u32],
    place: &mut Place,
) -> u32
    ensures { Calls (PutsDown (RemovePart path.now)) result place.new handle.old.desk handle.new.desk }
{
    put_down(alloc, handle, remove_part(alloc, path), place)
}

fn remove_part(alloc: Global, path: &[u32]) -> Result<Edit, AllocError>
    ensures { IfOk result (λ edit. edit_of edit ≡ RemovePart path.now) }
{
    Ok(Edit::RemovePart {
        path: Vec::from_slice(alloc, path)?,
    })
}

/// Puts down Wrap: a section becomes the one part of a multipart.
#[unsafe(no_mangle)]
pub extern "C" fn mk_c_wrap(
    alloc: Global,
    handle: &mut Handle,
    path: &[u32],
    subtype: &[u8],
    boundary: &[u8],
    place: &mut Place,
) -> u32
    ensures { Calls (PutsDown (Wrap path.now subtype.now boundary.now)) result place.new handle.old.desk handle.new.desk }
{
    put_down(alloc, handle, wrap(alloc, path, subtype, boundary), place)
}

fn wrap(alloc: Global, path: &[u32], subtype: &[u8], boundary: &[u8]) -> Result<Edit, AllocError>
    ensures { IfOk result (λ edit. edit_of edit ≡ Wrap path.now subtype.now boundary.now) }
{
    Ok(Edit::Wrap {
        path: Vec::from_slice(alloc, path)?,
        subtype: Vec::from_slice(alloc, subtype)?,
        boundary: Vec::from_slice(alloc, boundary)?,
    })
}

// Puts an edit down, unless there is no memory for it.
fn put_down(
    alloc: Global,
    handle: &mut Handle,
    edit: Result<Edit, AllocError>,
    place: &mut Place,
) -> u32
    ensures { Calls (PutsDownMade edit) result place.new handle.old.desk handle.new.desk }
{
    let Some(mut editor) = handle.take(alloc) else {
        return told(Err(Reason::Closed), place);
    };
    let ended = match edit {
        Ok(edit) => editor.put_down(edit),
        Err(_) => Err(Reason::Memory),
    };
    handle.give(editor);
    told(ended, place)
}
