//! Edits of the root's fields that say nothing of its body.
ghost use Rattle.std.specs.Prelude.{◌≡◌, ◌∷◌, [], false, IfNone, IfSome};
ghost use Rattle.mk_decide.specs.FieldPuts.{plain_of};
ghost use Rattle.mk_edit.specs.HeaderEdits.{are_silent as say_nothing, edits_header as edits_header_alone, is_silent as says_nothing, leads_to_root};
ghost use Rattle.mk_edit.specs.SilentEdits.{is_silent_edit, numbered, IsSilent};
ghost use Rattle.mk_decide.specs.Views.{edit_of};

use mk_decide::{Edit, FieldEdit};
use mk_head::each_field;

/// The number of the root, the path to which it is.
const ROOT: u32 = 1;

/// A removal or a renaming of a field of the root, of and to names that say nothing of its body.
#[derive(Clone, Copy, Debug)]
pub(crate) struct SilentEdit<'a> {
    pub name: &'a [u8],
    /// The field's number among those of the name, counted from 1.
    pub k: u32,
    /// Its new name. Without one it is taken out.
    pub to: Option<&'a [u8]>,
}

impl<'a> SilentEdit<'a> {
    ghost use Rattle.std.specs.Prelude.{◌≡◌};
    ghost use Rattle.mk_edit.specs.SilentEdits.{numbered};

    /// The same edit of the field of another number.
    pub(crate) fn of_number(&self, k: u32) -> FieldEdit<'a>
        ensures { result ≡ numbered self.now k }
    {
        let name = self.name;
        match self.to {
            Some(to) => FieldEdit::Rename { name, k, to },
            None => FieldEdit::Remove { name, k },
        }
    }
}

/// An edit as one of the root's fields that says nothing of its body, where it is one.
pub(crate) fn silent_edit(edit: &Edit) -> Option<SilentEdit<'_>>
    ensures silent { IfSome result IsSilent }
    ensures same { IfSome result (λ e. plain_of (1 ∷ []) (numbered e e.k) ≡ edit_of edit.now) }
    ensures none { IfNone result (is_silent_edit (edit_of edit.now) ≡ false) }
{
    match edit {
        Edit::RemoveField { path, name, k } => {
            if is_root(path) && is_silent(name) {
                let to = None;
                Some(SilentEdit { name, k: *k, to })
            } else {
                None
            }
        }
        Edit::RenameField { path, name, k, to } => {
            if is_root(path) && is_silent(name) && is_silent(to) {
                let to = Some(to.as_slice());
                Some(SilentEdit { name, k: *k, to })
            } else {
                None
            }
        }
        _ => None,
    }
}

/// Whether an edit is one of the root's fields and no field that it names or gives says anything of the body: none is a
/// Content-Type or a Content-Transfer-Encoding (RFC 2045, 5 and 6). Where a separator follows the fields, what such an edit is
/// answered depends on the header alone.
pub fn edits_header(edit: &Edit) -> bool
    ensures { result ≡ edits_header_alone (edit_of edit.now) }
{
    match edit {
        Edit::AddField { path, text, .. } => is_root(path) && are_silent(text),
        Edit::RemoveField { path, name, .. } => is_root(path) && is_silent(name),
        Edit::RenameField { path, name, to, .. } => is_root(path)
            && is_silent(name)
            && is_silent(to),
        Edit::SetField {
            path,
            name,
            text,
            ..
        } => is_root(path) && is_silent(name) && are_silent(text),
        _ => false,
    }
}

fn is_root(path: &[u32]) -> bool
    ensures { result ≡ leads_to_root path.now }
{
    match path.split_first() {
        Some((number, below)) => *number == ROOT && below.is_empty(),
        None => false,
    }
}

// Whether a field of this name says nothing of the body.
fn is_silent(name: &[u8]) -> bool
    ensures { result ≡ says_nothing name.now }
{
    !name.eq_ignore_ascii_case(b"Content-Type")
        && !name.eq_ignore_ascii_case(b"Content-Transfer-Encoding")
}

// Whether no field that a text begins with says anything of the body.
fn are_silent(text: &[u8]) -> bool
    ensures { result ≡ say_nothing text.now }
{
    for field in each_field(text) {
        if !is_silent(field.name) {
            return false;
        }
    }
    true
}
