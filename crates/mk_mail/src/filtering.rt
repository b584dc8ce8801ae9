//! The fields of a section by their names, and the edits that letters make of them.
ghost use Rattle.std.specs.Prelude.{◌≡◌, ◌++◌, ◌∷◌, [], Some, false, drop, filter, map, not, IfOk, OnOk};
ghost use Rattle.std.specs.Option.{option_map, option_map_or};
ghost use Rattle.mk_line.specs.Lines.{ending_bytes};
ghost use Rattle.mk_decide.specs.Edits.{AddField, RemoveField, RenameField};
ghost use Rattle.mk_decide.specs.Views.{edit_of};
ghost use Rattle.mk_mail.specs.LetterWork.{plain_edits, removal_by, texts_of, work_of};
ghost use Rattle.mk_mail.specs.Letters.{add_if_letter, added as added_field, added_full, dropped, first_letter, goes, old_name, only_letter, others, prefixed_letter, rename_letter, replaced, respelling, respelt, names_at, then_do, those, untouched, with_first};

use crate::field_names::{is_bare, name_of};
use crate::patterns::{Removal, is_same};
use crate::section_names::{has_name, names_of};
use mk_edit::Edit;
use mk_line::Ending;
use mk_tree::Doc;
use std::alloc::{AllocError, Global};
use std::borrow::CowSlice;
use std::mem;

const OLD: &[u8; 4] = b"Old-";

/// The names that the fields of a section have, and the edits that led to them. A name is borrowed from the section or from what is
/// asked for, unless it is made here.
#[derive(Drop)]
pub(crate) struct Filter<'a> {
    names: Vec<CowSlice<'a, u8>>,
    edits: Vec<Edit>,
}

impl<'a> Filter<'a> {
    /// The fields as they are in the section at a path; none if there is no such section.
    pub(crate) fn new(alloc: Global, doc: &'a Doc, path: &[u32]) -> Result<Filter<'a>, AllocError>
        ensures { IfOk result (λ f. work_of f ≡ untouched (names_at path.now doc.now)) }
    {
        Ok(Filter {
            names: names_of(alloc, doc, path)?,
            edits: Vec::new(alloc),
        })
    }

    /// Removes the fields whose names go.
    pub(crate) fn drop_fields(
        &mut self,
        path: &[u32],
        removal: &Removal<'_>,
    ) -> Result<(), AllocError>
        ensures { OnOk result (work_of self.new ≡ then_do (work_of self.old) (dropped path.now (removal_by removal.now))) }
    {
        if removal.is_nothing() {
            return Ok(());
        }
        let names = self.take_names();
        self.names = remove_dropped(path, names, &mut self.edits, removal)?;
        Ok(())
    }

    /// Gives the fields of a name another name.
    pub(crate) fn rename(
        &mut self,
        path: &[u32],
        old: &[u8],
        new: &'a [u8],
    ) -> Result<(), AllocError>
        ensures { OnOk result (work_of self.new ≡ then_do (work_of self.old) (rename_letter path.now (old.now, new.now))) }
    {
        let names = self.take_names();
        self.names = if is_same(old, new) {
            respell(path, names, &mut self.edits, old, new)?
        } else {
            rename_all(path, names, &mut self.edits, old, new)?
        };
        Ok(())
    }

    /// Adds a field, unless there is one of its name.
    pub(crate) fn add_if(
        &mut self,
        path: &[u32],
        field: &'a [u8],
        eol: Ending,
    ) -> Result<(), AllocError>
        ensures { OnOk result (work_of self.new ≡ then_do (work_of self.old) (add_if_letter path.now eol field.now)) }
    {
        if has_name(&self.names, name_of(field)) {
            Ok(())
        } else {
            self.add(path, field, eol)
        }
    }

    /// Adds a field after the others.
    pub(crate) fn add(
        &mut self,
        path: &[u32],
        field: &'a [u8],
        eol: Ending,
    ) -> Result<(), AllocError>
        ensures { OnOk result (work_of self.new ≡ then_do (work_of self.old) (added_field path.now eol field.now)) }
    {
        let alloc = *self.names.allocator();
        self.edits.push(addition(alloc, path, field, eol)?)?;
        self.names.push(CowSlice::Borrowed(name_of(field)))?;
        Ok(())
    }

    /// Puts `Old-` before the names of the fields of this name, and adds the field.
    pub(crate) fn prefix(
        &mut self,
        path: &[u32],
        field: &'a [u8],
        eol: Ending,
    ) -> Result<(), AllocError>
        ensures { OnOk result (work_of self.new ≡ then_do (work_of self.old) (prefixed_letter path.now eol field.now)) }
    {
        let names = self.take_names();
        self.names = make_old(path, names, &mut self.edits, name_of(field))?;
        self.add_full(path, field, eol)
    }

    /// Removes the fields of this name, and adds the field.
    pub(crate) fn replace(
        &mut self,
        path: &[u32],
        field: &'a [u8],
        eol: Ending,
    ) -> Result<(), AllocError>
        ensures { OnOk result (work_of self.new ≡ then_do (work_of self.old) (only_letter path.now eol field.now)) }
    {
        let names = self.take_names();
        self.names = remove_all(path, names, &mut self.edits, name_of(field))?;
        self.add_full(path, field, eol)
    }

    /// Removes the fields of a name except the first.
    pub(crate) fn keep_first(&mut self, path: &[u32], name: &[u8]) -> Result<(), AllocError>
        ensures { OnOk result (work_of self.new ≡ then_do (work_of self.old) (first_letter path.now name.now)) }
    {
        let names = self.take_names();
        self.names = remove_later(path, names, &mut self.edits, name, 2)?;
        Ok(())
    }

    /// All edits, at the end those that remove the fields of a name except the last.
    pub(crate) fn into_edits(
        mut self,
        path: &[u32],
        last: &Option<Vec<u8>>,
    ) -> Result<Vec<Edit>, AllocError>
        ensures { IfOk result (λ edits. plain_edits edits.items ≡ (work_of self.entry).edits ++ option_map_or (λ name. map (λ own. RemoveField path.now name 1) (drop 1 (those name (work_of self.entry).names))) (option_map (λ v. v.items) last.now) []) }
    {
        match last {
            Some(name) => {
                let names = self.take_names();
                remove_later(path, names, &mut self.edits, name, 1)?;
                Ok(self.edits)
            }
            None => Ok(self.edits),
        }
    }

    // Adds a field that isn't bare.
    fn add_full(&mut self, path: &[u32], field: &'a [u8], eol: Ending) -> Result<(), AllocError>
        ensures { OnOk result (work_of self.new ≡ then_do (work_of self.old) (added_full path.now eol field.now)) }
    {
        if is_bare(field) {
            Ok(())
        } else {
            self.add(path, field, eol)
        }
    }

    fn take_names(&mut self) -> Vec<CowSlice<'a, u8>>
        ensures names { texts_of result.items ≡ texts_of self.old.names.items }
        ensures edits { self.new.edits.items ≡ self.old.edits.items }
    {
        let none = Vec::new(*self.names.allocator());
        mem::replace(&mut self.names, none)
    }
}

// Removes the fields whose names go.
fn remove_dropped<'a>(
    path: &[u32],
    names: Vec<CowSlice<'a, u8>>,
    edits: &mut Vec<Edit>,
    removal: &Removal<'_>,
) -> Result<Vec<CowSlice<'a, u8>>, AllocError>
    ensures names { IfOk result (λ r. texts_of r.items ≡ filter (λ own. not (goes (removal_by removal.now) own)) (texts_of names.entry.items)) }
    ensures edits { OnOk result (plain_edits edits.new.items ≡ plain_edits edits.old.items ++ map (λ own. RemoveField path.now own 1) (filter (goes (removal_by removal.now)) (texts_of names.entry.items))) }
{
    let alloc = *names.allocator();
    let mut list = Vec::with_capacity(alloc, names.len())?;
    for own in names {
        if removal.goes(&own) {
            push_removal(edits, path, &own, 1)?;
        } else {
            list.push(own)?;
        }
    }
    Ok(list)
}

// Gives the fields of a name another name, which isn't the same.
fn rename_all<'a>(
    path: &[u32],
    names: Vec<CowSlice<'a, u8>>,
    edits: &mut Vec<Edit>,
    old: &[u8],
    new: &'a [u8],
) -> Result<Vec<CowSlice<'a, u8>>, AllocError>
    ensures names { IfOk result (λ r. texts_of r.items ≡ replaced old.now (λ own. new.now) (texts_of names.entry.items)) }
    ensures edits { OnOk result (plain_edits edits.new.items ≡ plain_edits edits.old.items ++ map (λ own. RenameField path.now old.now 1 new.now) (those old.now (texts_of names.entry.items))) }
{
    let alloc = *names.allocator();
    let mut list = Vec::with_capacity(alloc, names.len())?;
    for own in names {
        if is_same(old, &own) {
            push_renaming(edits, path, old, 1, new)?;
            list.push(CowSlice::Borrowed(new))?;
        } else {
            list.push(own)?;
        }
    }
    Ok(list)
}

// Spells a name in another way, as far as numbers can name its fields.
fn respell<'a>(
    path: &[u32],
    names: Vec<CowSlice<'a, u8>>,
    edits: &mut Vec<Edit>,
    old: &[u8],
    new: &'a [u8],
) -> Result<Vec<CowSlice<'a, u8>>, AllocError>
    ensures names { IfOk result (λ r. texts_of r.items ≡ respelt old.now new.now (Some 1) (texts_of names.entry.items)) }
    ensures edits { OnOk result (plain_edits edits.new.items ≡ plain_edits edits.old.items ++ respelling path.now old.now new.now (Some 1) (texts_of names.entry.items)) }
{
    let alloc = *names.allocator();
    let mut list = Vec::with_capacity(alloc, names.len())?;
    let mut next = Some(1u32);
    for own in names {
        match next {
            Some(k) => {
                if is_same(old, &own) {
                    push_renaming(edits, path, old, k, new)?;
                    list.push(CowSlice::Borrowed(new))?;
                    next = k.checked_add(1);
                } else {
                    list.push(own)?;
                }
            }
            None => list.push(own)?,
        }
    }
    Ok(list)
}

// Puts `Old-` before the names of the fields of a name.
fn make_old<'a>(
    path: &[u32],
    names: Vec<CowSlice<'a, u8>>,
    edits: &mut Vec<Edit>,
    name: &[u8],
) -> Result<Vec<CowSlice<'a, u8>>, AllocError>
    ensures names { IfOk result (λ r. texts_of r.items ≡ replaced name.now old_name (texts_of names.entry.items)) }
    ensures edits { OnOk result (plain_edits edits.new.items ≡ plain_edits edits.old.items ++ map (λ own. RenameField path.now name.now 1 (old_name own)) (those name.now (texts_of names.entry.items))) }
{
    let alloc = *names.allocator();
    let mut list = Vec::with_capacity(alloc, names.len())?;
    for own in names {
        if is_same(name, &own) {
            let old = after_old(alloc, &own)?;
            push_renaming(edits, path, name, 1, &old)?;
            list.push(CowSlice::Owned(old))?;
        } else {
            list.push(own)?;
        }
    }
    Ok(list)
}

// Removes the fields of a name.
fn remove_all<'a>(
    path: &[u32],
    names: Vec<CowSlice<'a, u8>>,
    edits: &mut Vec<Edit>,
    name: &[u8],
) -> Result<Vec<CowSlice<'a, u8>>, AllocError>
    ensures names { IfOk result (λ r. texts_of r.items ≡ others name.now (texts_of names.entry.items)) }
    ensures edits { OnOk result (plain_edits edits.new.items ≡ plain_edits edits.old.items ++ map (λ own. RemoveField path.now name.now 1) (those name.now (texts_of names.entry.items))) }
{
    if !has_name(&names, name) {
        return Ok(names);
    }
    let alloc = *names.allocator();
    let mut list = Vec::with_capacity(alloc, names.len())?;
    for own in names {
        if is_same(name, &own) {
            push_removal(edits, path, name, 1)?;
        } else {
            list.push(own)?;
        }
    }
    Ok(list)
}

// Removes the fields of a name except one, each by the number `k`.
fn remove_later<'a>(
    path: &[u32],
    names: Vec<CowSlice<'a, u8>>,
    edits: &mut Vec<Edit>,
    name: &[u8],
    k: u32,
) -> Result<Vec<CowSlice<'a, u8>>, AllocError>
    ensures names { IfOk result (λ r. texts_of r.items ≡ with_first name.now (texts_of names.entry.items)) }
    ensures edits { OnOk result (plain_edits edits.new.items ≡ plain_edits edits.old.items ++ map (λ own. RemoveField path.now name.now k) (drop 1 (those name.now (texts_of names.entry.items)))) }
{
    let alloc = *names.allocator();
    let mut list = Vec::with_capacity(alloc, names.len())?;
    let mut is_there = false;
    for own in names {
        let same = is_same(name, &own);
        if is_there & same {
            push_removal(edits, path, name, k)?;
        } else {
            is_there |= same;
            list.push(own)?;
        }
    }
    Ok(list)
}

// Removes the k-th field of a name, after other edits.
fn push_removal(edits: &mut Vec<Edit>, path: &[u32], name: &[u8], k: u32) -> Result<(), AllocError>
    ensures { OnOk result (plain_edits edits.new.items ≡ plain_edits edits.old.items ++ RemoveField path.now name.now k ∷ []) }
{
    let alloc = *edits.allocator();
    let path = Vec::from_slice(alloc, path)?;
    let name = Vec::from_slice(alloc, name)?;
    edits.push(Edit::RemoveField { path, name, k })?;
    Ok(())
}

// Gives the k-th field of a name another one, after other edits.
fn push_renaming(
    edits: &mut Vec<Edit>,
    path: &[u32],
    name: &[u8],
    k: u32,
    to: &[u8],
) -> Result<(), AllocError>
    ensures { OnOk result (plain_edits edits.new.items ≡ plain_edits edits.old.items ++ RenameField path.now name.now k to.now ∷ []) }
{
    let alloc = *edits.allocator();
    let path = Vec::from_slice(alloc, path)?;
    let name = Vec::from_slice(alloc, name)?;
    let to = Vec::from_slice(alloc, to)?;
    edits.push(Edit::RenameField { path, name, k, to })?;
    Ok(())
}

// One more field at the end, with a line ending.
fn addition(alloc: Global, path: &[u32], field: &[u8], eol: Ending) -> Result<Edit, AllocError>
    ensures { IfOk result (λ edit. edit_of edit ≡ AddField path.now false (field.now ++ ending_bytes eol)) }
{
    let mut text = Vec::from_slice(alloc, field)?;
    text.extend_from_slice(eol.bytes())?;
    Ok(Edit::AddField {
        path: Vec::from_slice(alloc, path)?,
        top: false,
        text,
    })
}

// A name after `Old-`.
fn after_old(alloc: Global, name: &[u8]) -> Result<Vec<u8>, AllocError>
    ensures { IfOk result (λ old. old.items ≡ old_name name.now) }
{
    let mut old = Vec::from_slice(alloc, OLD)?;
    old.extend_from_slice(name)?;
    Ok(old)
}
