//! Letters: a filter of the fields of a message (own, after formail).
ghost use Rattle.std.specs.Prelude.{◌≡◌, ◌==◌, ◌&&◌, ◌||◌, ℕ, List, true, is_some, length, map, not, IfOk, OnOk};
ghost use Rattle.std.specs.Option.{option_map, option_map_or};
ghost use Rattle.mk_line.specs.Kinds.{is_name as is_one_name};
ghost use Rattle.mk_decide.specs.Views.{edit_of};
ghost use Rattle.mk_mail.specs.LetterViews.{letters_of, prepend_of};
ghost use Rattle.mk_mail.specs.LetterWork.{work_of};
ghost use Rattle.mk_mail.specs.Prepended.{is_prepend};
ghost use Rattle.mk_mail.specs.Letters.{add_if_letter, added, are_allowed, edits_at, edits_some as some_edits, first_letter, have_values as values_are_had, is_full_field as full_field, is_given_field as given_field, letter, letter_edits as edits_of_letters, names_at, only_letter, prefixed_letter, removes_some as removes_fields, rename_letter, root_path, stand_together as stand_so};

use crate::field_names::is_bare;
use crate::filtering::Filter;
use crate::patterns::{NamePattern, Removal, are_patterns};
use crate::prepending::{Prepend, prepend_edits};
use mk_edit::Edit;
use mk_head::one_field;
use mk_line::{Ending, ends_open, eol_of, is_name};
use mk_tree::Doc;
use std::alloc::{AllocError, Global};

/// The path of the root.
const ROOT: [u32; 1] = [1];

/// What a filter of fields is asked for, each letter at most once except `--drop` and `--keep`. A name has no colon after it, and the
/// last line of a field no ending. They work in this order, each on the fields that those before it left.
#[derive(Debug, Drop)]
pub struct Letters {
    /// `--prepend`: puts a text before what the first hundred fields of a name say.
    pub prepend: Option<Prepend>,
    /// `--drop`: removes the fields of these names.
    pub drops: Vec<NamePattern>,
    /// `--keep`: where there are some, removes all fields but those of these names and those that say the structure of the
    /// message: MIME-Version, and those whose names begin with `Content-`.
    pub keeps: Vec<NamePattern>,
    /// `--keep-only`: then removes those, too.
    pub keep_only: bool,
    /// `--rename`: gives each field of the first name the second.
    pub rename: Option<(Vec<u8>, Vec<u8>)>,
    /// `-a`: adds a field, unless there is one of its name.
    pub add_if: Option<Vec<u8>>,
    /// `-A`: adds a field.
    pub add: Option<Vec<u8>>,
    /// `-i`: puts `Old-` before the names of the fields of this name, and adds the field unless it is bare.
    pub prefixed: Option<Vec<u8>>,
    /// `-I`: removes the fields of this name, and adds the field unless it is bare.
    pub only: Option<Vec<u8>>,
    /// `-u`: of the fields of a name keeps the first.
    pub first: Option<Vec<u8>>,
    /// `-U`: of the fields of a name keeps the last.
    pub last: Option<Vec<u8>>,
    /// `-x`: gives what follows the colons of the fields of a name; no edit.
    pub take: Option<Vec<u8>>,
    /// `-X`: gives the fields of a name; no edit.
    pub whole: Option<Vec<u8>>,
}

impl Letters {
    /// Whether these may be asked for together, with these values.
    pub fn ok(&self) -> bool
        ensures { result ≡ are_allowed (letters_of self.now) }
    {
        self.have_values() && self.stand_together()
    }

    // Whether each value is valid.
    fn have_values(&self) -> bool
        ensures { result ≡ values_are_had (letters_of self.now) }
    {
        may_prepend(&self.prepend)
            && are_patterns(&self.drops)
            && are_patterns(&self.keeps)
            && may_rename(&self.rename)
            && is_full_field(&self.add_if)
            && is_full_field(&self.add)
            && is_given_field(&self.prefixed)
            && is_given_field(&self.only)
            && is_given_name(&self.first)
            && is_given_name(&self.last)
            && is_given_name(&self.take)
            && is_given_name(&self.whole)
    }

    // Whether no letter that gives fields is there with another.
    fn stand_together(&self) -> bool
        ensures { result ≡ stand_so (letters_of self.now) }
    {
        let gives = self.take.is_some() || self.whole.is_some();
        let gives_both = self.take.is_some() && self.whole.is_some();
        !gives_both && !(gives && self.edits_some())
    }

    fn edits_some(&self) -> bool
        ensures { result ≡ some_edits (letters_of self.now) }
    {
        self.prepend.is_some() || self.edits_by_names()
    }

    // Whether fields are taken out by their names.
    fn removes_some(&self) -> bool
        ensures { result ≡ removes_fields (letters_of self.now) }
    {
        !self.drops.is_empty() || !self.keeps.is_empty()
    }

    // Whether there is a letter that works by the names of fields.
    fn edits_by_names(&self) -> bool
        ensures { result ≡ let l = letters_of self.now in removes_fields l || is_some l.rename || is_some l.add_if || is_some l.add || is_some l.prefixed || is_some l.only || is_some l.first || is_some l.last }
    {
        self.removes_some()
            || self.rename.is_some()
            || self.add_if.is_some()
            || self.add.is_some()
            || self.prefixed.is_some()
            || self.only.is_some()
            || self.first.is_some()
            || self.last.is_some()
    }
}

/// The edits of a document that letters ask for, one after another; all are at its root.
pub fn field_edits(alloc: Global, doc: &Doc, letters: &Letters) -> Result<Vec<Edit>, AllocError>
    requires { are_allowed (letters_of letters.now) ≡ true }
    ensures { IfOk result (λ edits. map edit_of edits.items ≡ edits_at root_path doc.now (letters_of letters.now)) }
{
    field_edits_at(alloc, doc, &ROOT, letters)
}

/// The same at the section of a path. If there is no such section, letters find no field there; an edit that adds one is
/// refused.
pub fn field_edits_at(
    alloc: Global,
    doc: &Doc,
    path: &[u32],
    letters: &Letters,
) -> Result<Vec<Edit>, AllocError>
    requires { are_allowed (letters_of letters.now) ≡ true }
    ensures { IfOk result (λ edits. map edit_of edits.items ≡ edits_at path.now doc.now (letters_of letters.now)) }
{
    let eol = eol_of(doc.text());
    let mut others = letter_edits(alloc, doc, path, letters, eol)?;
    match &letters.prepend {
        Some(prepend) => {
            let mut edits = prepend_edits(alloc, doc, path, prepend, eol)?;
            edits.append(&mut others)?;
            Ok(edits)
        }
        None => Ok(others),
    }
}

// The edits of the letters that work by the names of fields.
fn letter_edits(
    alloc: Global,
    doc: &Doc,
    path: &[u32],
    letters: &Letters,
    eol: Ending,
) -> Result<Vec<Edit>, AllocError>
    ensures { IfOk result (λ edits. map edit_of edits.items ≡ edits_of_letters path.now eol (letters_of letters.now) (names_at path.now doc.now)) }
{
    let mut filter = Filter::new(alloc, doc, path)?;
    let removal = Removal {
        drops: &letters.drops,
        keeps: &letters.keeps,
        only: letters.keep_only,
    };
    filter.drop_fields(path, &removal)?;
    rename(&mut filter, path, &letters.rename)?;
    add_if(&mut filter, path, &letters.add_if, eol)?;
    add(&mut filter, path, &letters.add, eol)?;
    prefix(&mut filter, path, &letters.prefixed, eol)?;
    replace(&mut filter, path, &letters.only, eol)?;
    keep_first(&mut filter, path, &letters.first)?;
    filter.into_edits(path, &letters.last)
}

// The work of `--rename`, if it is asked for; the same for each letter below.
fn rename<'a>(
    filter: &mut Filter<'a>,
    path: &[u32],
    names: &'a Option<(Vec<u8>, Vec<u8>)>,
) -> Result<(), AllocError>
    ensures { OnOk result (work_of filter.new ≡ letter (rename_letter path.now) (option_map (λ p. (p.0.items, p.1.items)) names.now) (work_of filter.old)) }
{
    match names {
        Some((old, new)) => filter.rename(path, old, new),
        None => Ok(()),
    }
}

fn add_if<'a>(
    filter: &mut Filter<'a>,
    path: &[u32],
    field: &'a Option<Vec<u8>>,
    eol: Ending,
) -> Result<(), AllocError>
    ensures { OnOk result (work_of filter.new ≡ letter (add_if_letter path.now eol) (option_map (λ v. v.items) field.now) (work_of filter.old)) }
{
    match field {
        Some(field) => filter.add_if(path, field, eol),
        None => Ok(()),
    }
}

fn add<'a>(
    filter: &mut Filter<'a>,
    path: &[u32],
    field: &'a Option<Vec<u8>>,
    eol: Ending,
) -> Result<(), AllocError>
    ensures { OnOk result (work_of filter.new ≡ letter (added path.now eol) (option_map (λ v. v.items) field.now) (work_of filter.old)) }
{
    match field {
        Some(field) => filter.add(path, field, eol),
        None => Ok(()),
    }
}

fn prefix<'a>(
    filter: &mut Filter<'a>,
    path: &[u32],
    field: &'a Option<Vec<u8>>,
    eol: Ending,
) -> Result<(), AllocError>
    ensures { OnOk result (work_of filter.new ≡ letter (prefixed_letter path.now eol) (option_map (λ v. v.items) field.now) (work_of filter.old)) }
{
    match field {
        Some(field) => filter.prefix(path, field, eol),
        None => Ok(()),
    }
}

fn replace<'a>(
    filter: &mut Filter<'a>,
    path: &[u32],
    field: &'a Option<Vec<u8>>,
    eol: Ending,
) -> Result<(), AllocError>
    ensures { OnOk result (work_of filter.new ≡ letter (only_letter path.now eol) (option_map (λ v. v.items) field.now) (work_of filter.old)) }
{
    match field {
        Some(field) => filter.replace(path, field, eol),
        None => Ok(()),
    }
}

fn keep_first(
    filter: &mut Filter<'_>,
    path: &[u32],
    name: &Option<Vec<u8>>,
) -> Result<(), AllocError>
    ensures { OnOk result (work_of filter.new ≡ letter (first_letter path.now) (option_map (λ v. v.items) name.now) (work_of filter.old)) }
{
    match name {
        Some(name) => filter.keep_first(path, name),
        None => Ok(()),
    }
}

fn may_prepend(prepend: &Option<Prepend>) -> bool
    ensures { result ≡ option_map_or is_prepend (option_map prepend_of prepend.now) true }
{
    match prepend {
        Some(prepend) => prepend.ok(),
        None => true,
    }
}

fn may_rename(names: &Option<(Vec<u8>, Vec<u8>)>) -> bool
    ensures { result ≡ option_map_or (λ (p : List ℕ × List ℕ). is_one_name p.0 && is_one_name p.1) (option_map (λ p. (p.0.items, p.1.items)) names.now) true }
{
    match names {
        Some((old, new)) => is_name(old) && is_name(new),
        None => true,
    }
}

fn is_full_field(field: &Option<Vec<u8>>) -> bool
    ensures { result ≡ option_map_or full_field (option_map (λ v. v.items) field.now) true }
{
    match field {
        Some(field) => is_given(field) && !is_bare(field),
        None => true,
    }
}

fn is_given_field(field: &Option<Vec<u8>>) -> bool
    ensures { result ≡ option_map_or given_field (option_map (λ v. v.items) field.now) true }
{
    match field {
        Some(field) => is_given(field),
        None => true,
    }
}

fn is_given_name(name: &Option<Vec<u8>>) -> bool
    ensures { result ≡ option_map_or is_one_name (option_map (λ v. v.items) name.now) true }
{
    match name {
        Some(name) => is_name(name),
        None => true,
    }
}

// Whether a text is exactly one field, without the ending of its last line.
fn is_given(text: &[u8]) -> bool
    ensures { result ≡ given_field text.now }
{
    one_field(text) && ends_open(text)
}
