//! Handles: what C holds of a session.
ghost use Rattle.std.specs.Prelude.{◌≡◌, None, Option, Some};
ghost use Rattle.std.specs.Option.{option_map};
ghost use Rattle.mk_c.specs.Desks.{Desk};

use crate::editor::Editor;
use std::alloc::Global;
use std::marker::Model;

/// A box as its pointer.
pub(crate) struct Loose<T> {
    at: *mut T,
    pub(crate) ghost value: { T },
}

impl<T> Model for Loose<T> {
    ghost use Rattle.mk_c.specs.inner.Owned.{block_owns};

    ghost also_owns = { λ l. block_owns T.row l.at l.value };
}

impl<T: Drop> Loose<T> {
    pub(crate) fn of(value: Box<T>) -> Loose<T>
        ensures { result.value ≡ value.value }
    {
        let (at, _) = Box::into_raw_with_allocator(value);
        Loose { at }
    }

    pub(crate) fn into_box(self, alloc: Global) -> Box<T>
        ensures { result.value ≡ self.value }
    {
        let Loose { at } = self;
        unsafe { Box::from_raw(alloc, at) }
    }
}

/// What C holds of a session: a pointer to it, and whether there is one. A handle whose bytes are all 0 is closed. C never
/// writes to a handle, nor copies it; one that is open is closed by a call, or its memory is never freed.
#[repr(C)]
#[derive(Drop)]
pub struct Handle {
    pub at: *mut u8,
    pub used: bool,
    pub ghost desk: { Option Desk },
}

impl Model for Handle {
    ghost use Rattle.mk_c.specs.inner.Owned.{handle_owns};
    ghost use Rattle.mk_c.specs.contracts.editor.Editor.{the_row};

    ghost also_owns = { λ h. handle_owns the_row h.used h.at h.desk };
}

impl Handle {
    fn of(value: Loose<Editor>) -> Handle
        ensures { result.desk ≡ Some value.value }
    {
        let Loose { at } = value;
        Handle {
            at: at as *mut u8,
            used: true,
        }
    }

    /// A handle with no session.
    pub fn closed() -> Handle
        ensures { result.desk ≡ None }
    {
        Handle {
            at: std::ptr::null_mut(),
            used: false,
        }
    }

    fn into_loose(self) -> Option<Loose<Editor>>
        ensures { option_map (λ l. l.value) result ≡ self.desk }
    {
        let Handle { at, used } = self;
        if used {
            Some(Loose {
                at: at as *mut Editor,
            })
        } else {
            None
        }
    }

    /// Takes what the handle holds; the handle is closed then.
    pub(crate) fn take(&mut self, alloc: Global) -> Option<Box<Editor>>
        ensures closed { self.new.desk ≡ None }
        ensures taken { option_map (λ b. b.value) result ≡ self.old.desk }
    {
        let handle = std::mem::replace(self, Handle::closed());
        match handle.into_loose() {
            Some(loose) => Some(loose.into_box(alloc)),
            None => None,
        }
    }

    /// Puts what it holds into a closed handle.
    pub(crate) fn give(&mut self, editor: Box<Editor>)
        ensures { self.new.desk ≡ Some editor.value }
    {
        *self = Handle::of(Loose::of(editor));
    }
}
