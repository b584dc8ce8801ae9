//! The four edits of fields, and what each puts among the lines of a head.
ghost use Rattle.std.specs.Prelude.{◌≡◌, ◌≤◌, if◌then◌else◌, false, length, None, IfOk, IfErr, IfNone, IfSome, IsOkAnd};
ghost use Rattle.std.specs.Option.{option_map};
ghost use Rattle.mk_line.specs.Lines.{cut as lines_of};
ghost use Rattle.mk_head.specs.Split.{fields_from};
ghost use Rattle.mk_head.specs.Splits.{IsRun};
ghost use Rattle.mk_head.specs.Fields.{fields_of};
ghost use Rattle.mk_head.specs.Views.{field_view};
ghost use Rattle.mk_decide.specs.FieldEdits.{field_at as found_in};
ghost use Rattle.mk_decide.specs.FieldPuts.{after_field_name, first_line_size, placed_field, puts, IsFieldAt, IsPut, PutsLines};
ghost use Rattle.mk_decide.specs.declared.field_edits.FieldEdit.TheVariants.{Add, Remove, Rename, Set};
ghost use Rattle.mk_decide.specs.Answers.{refusal_of, IsRefusedBy};

use crate::errors::EditError;
use mk_head::{Field, each_field, one_field};
use mk_line::{first_line, is_name};
use std::alloc::{AllocError, Global};

/// A change of the fields of a section. A field is named by its name, without regard to ASCII case, and by its number
/// among the fields of that name, counted from 1.
#[derive(Clone, Copy, Debug)]
pub enum FieldEdit<'a> {
    /// Puts `text`, exactly one field with its line endings, after the last field, or before the first where `top`
    /// holds.
    Add {
        top: bool,
        text: &'a [u8],
    },
    /// Takes a field out.
    Remove {
        name: &'a [u8],
        k: u32,
    },
    /// Gives a field another name.
    Rename {
        name: &'a [u8],
        k: u32,
        to: &'a [u8],
    },
    /// Puts `text`, exactly one field with its line endings, in the place of a field.
    Set {
        name: &'a [u8],
        k: u32,
        text: &'a [u8],
    },
}

/// Whole lines in the place of others, among those of a head.
#[derive(Debug, Drop)]
pub struct Put {
    /// How many bytes of the head stand before them.
    pub from: usize,
    /// How many bytes they take the place of.
    pub count: usize,
    pub lines: Vec<u8>,
    /// How many bytes at the end of the lines are those that stood there.
    pub kept: usize,
}

/// What an edit puts among the lines of a head.
pub fn put_of(alloc: Global, head: &[u8], edit: &FieldEdit<'_>) -> Result<Put, EditError>
    requires { IsRun false (lines_of head.now) }
    ensures ok { IfOk result (λ r. IsOkAnd (puts edit.now (lines_of head.now)) (PutsLines r)) }
    ensures err { IfErr result (λ e. IsRefusedBy (refusal_of e) (puts edit.now (lines_of head.now))) }
{
    match edit {
        FieldEdit::Add { top, text } => put_more(alloc, head, *top, text),
        FieldEdit::Remove { name, k } => put_nothing(alloc, head, name, *k),
        FieldEdit::Rename { name, k, to } => put_name(alloc, head, name, *k, to),
        FieldEdit::Set { name, k, text } => put_other(alloc, head, name, *k, text),
    }
}

// A field more.
fn put_more(alloc: Global, head: &[u8], top: bool, text: &[u8]) -> Result<Put, EditError>
    requires { IsRun false (lines_of head.now) }
    ensures ok { IfOk result (λ r. IsPut r (puts (Add top text.entry) (lines_of head.now))) }
    ensures err { IfErr result (λ e. IsRefusedBy (refusal_of e) (puts (Add top text.entry) (lines_of head.now))) }
{
    if !one_field(text) {
        return Err(EditError::BadField);
    }
    Ok(Put {
        from: add_place(head, top),
        count: 0,
        lines: Vec::from_slice(alloc, text)?,
        kept: 0,
    })
}

// How many bytes stand before a field that is put first (`top`) or last.
fn add_place(head: &[u8], top: bool) -> usize
    ensures { result ≡ (if top then 0 else length head.now) }
{
    if top { 0 } else { head.len() }
}

// Nothing in the place of a field.
fn put_nothing(alloc: Global, head: &[u8], name: &[u8], k: u32) -> Result<Put, EditError>
    requires { IsRun false (lines_of head.now) }
    ensures ok { IfOk result (λ r. IsPut r (puts (Remove name.entry k) (lines_of head.now))) }
    ensures err { IfErr result (λ e. IsRefusedBy (refusal_of e) (puts (Remove name.entry k) (lines_of head.now))) }
{
    match find(head, name, k) {
        Some((from, field)) => Ok(Put {
            from,
            count: field.raw.len(),
            lines: Vec::new(alloc),
            kept: 0,
        }),
        None => Err(EditError::NoSuchField),
    }
}

// A field start under another name, in the place of the old one.
fn put_name(alloc: Global, head: &[u8], name: &[u8], k: u32, to: &[u8]) -> Result<Put, EditError>
    requires { IsRun false (lines_of head.now) }
    ensures ok { IfOk result (λ r. IsPut r (puts (Rename name.entry k to.entry) (lines_of head.now))) }
    ensures err { IfErr result (λ e. IsRefusedBy (refusal_of e) (puts (Rename name.entry k to.entry) (lines_of head.now))) }
{
    match find(head, name, k) {
        Some((from, field)) => {
            if !is_name(to) {
                return Err(EditError::BadName);
            }
            let following = after_name(&field);
            let mut lines = Vec::from_slice(alloc, to)?;
            lines.extend_from_slice(following)?;
            Ok(Put {
                from,
                count: field.name.len() + following.len(),
                lines,
                kept: following.len(),
            })
        }
        None => Err(EditError::NoSuchField),
    }
}

// What follows the name in the first line of a field.
fn after_name<'a>(field: &Field<'a>) -> &'a [u8]
    requires { length field.now.name.now ≤ first_line_size (lines_of field.now.raw.now) }
    ensures { result.now ≡ after_field_name (field_view field.now) }
{
    let (start, _) = field.raw.split_at(first_size(field.raw));
    let (_, following) = start.split_at(field.name.len());
    following
}

// A field in the place of another.
fn put_other(alloc: Global, head: &[u8], name: &[u8], k: u32, text: &[u8]) -> Result<Put, EditError>
    requires { IsRun false (lines_of head.now) }
    ensures ok { IfOk result (λ r. IsPut r (puts (Set name.entry k text.entry) (lines_of head.now))) }
    ensures err { IfErr result (λ e. IsRefusedBy (refusal_of e) (puts (Set name.entry k text.entry) (lines_of head.now))) }
{
    match find(head, name, k) {
        Some((from, field)) => {
            if !one_field(text) {
                return Err(EditError::BadField);
            }
            Ok(Put {
                from,
                count: field.raw.len(),
                lines: Vec::from_slice(alloc, text)?,
                kept: 0,
            })
        }
        None => Err(EditError::NoSuchField),
    }
}

// The k-th field of a name, counted from 1, and how many bytes stand before it.
fn find<'a>(head: &'a [u8], name: &[u8], k: u32) -> Option<(usize, Field<'a>)>
    requires { IsRun false (lines_of head.now) }
    ensures some { IfSome result (λ r. IsFieldAt name.now k (lines_of head.now) r.0 (field_view r.1)) }
    ensures none { IfNone result (found_in name.now k (lines_of head.now) ≡ None) }
{
    field_at(head, name, k)
}

// The k-th field of a name at the start of a text, counted from 1, and how many bytes stand before it.
fn field_at<'a>(head: &'a [u8], name: &[u8], k: u32) -> Option<(usize, Field<'a>)>
    ensures { option_map (λ r. (r.0, field_view r.1)) result ≡ placed_field name.now k 0 (fields_of (fields_from false (lines_of head.now))) }
{
    let mut left = k;
    let mut place = 0;
    for field in each_field(head) {
        if field.is_named(name) {
            if left == 1 {
                return Some((place, field));
            }
            left = left.saturating_sub(1);
        }
        place += field.raw.len();
    }
    None
}

// How many bytes the first line takes.
fn first_size(text: &[u8]) -> usize
    ensures size { result ≡ first_line_size (lines_of text.now) }
    ensures within { result ≤ length text.now }
{
    match first_line(text) {
        Some((line, _)) => line.size(),
        None => 0,
    }
}
