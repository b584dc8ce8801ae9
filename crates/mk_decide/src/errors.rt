//! Why an edit, an undo or a redo is refused.
ghost use Rattle.std.specs.Prelude.{◌≡◌};
ghost use Rattle.mk_decide.specs.Answers.{is_memory as wants_memory};
ghost use Rattle.mk_decide.specs.declared.errors.EditError.TheVariants.{Memory};

use std::alloc::{AllocError, AllocFailed};
use thiserror::Error;

/// Why an edit, an undo or a redo is refused. Of several reasons an edit names the first in this order.
#[derive(Clone, Copy, Debug, PartialEq, Eq, Error)]
pub enum EditError {
    /// There is no section at the path.
    #[error("no section at the path")]
    NoSuchSection,
    /// A part is to be put into a section that is no multipart.
    #[error("not a multipart")]
    NotMultipart,
    /// The section whose body is to be set is no leaf.
    #[error("not a leaf")]
    NotLeaf,
    /// The section to be removed is no part of a multipart.
    #[error("not a part")]
    NotPart,
    /// There is no k-th field of the name.
    #[error("no such field")]
    NoSuchField,
    /// There are fewer parts than are to stand before the new one.
    #[error("no such place among the parts")]
    BadPlace,
    /// The text isn't exactly one field and nothing else.
    #[error("not exactly one field")]
    BadField,
    /// The new name isn't one or more bytes 33 to 126 other than the colon (RFC 5322, 2.2).
    #[error("not a field name")]
    BadName,
    /// The boundary isn't 1 to 70 boundary characters, the last no space (RFC 2046, 5.1.1).
    #[error("not a boundary")]
    BadBoundary,
    /// The subtype isn't a token (RFC 2045, 5.1).
    #[error("not a subtype")]
    BadSubtype,
    /// In the edited message a line without an ending would stand before another line.
    #[error("a line without an ending would not be the last")]
    OpenLine,
    /// A line would be a delimiter or close line of the enclosing multipart with this many numbers in its path.
    #[error("a line would be a delimiter of an enclosing multipart")]
    HoldsBoundary { level: usize },
    /// The edited message would not be read as the edited one.
    #[error("the message would be read in another way")]
    Recut,
    /// Nothing is done.
    #[error("nothing to undo")]
    NothingToUndo,
    /// Nothing is undone.
    #[error("nothing to redo")]
    NothingToRedo,
    /// Memory ran out; nothing has changed.
    #[error("out of memory")]
    Memory,
}

impl EditError {
    /// Whether memory ran out: such a call may be made again.
    pub fn is_memory(&self) -> bool
        ensures { result ≡ wants_memory self.now }
    {
        matches!(self, EditError::Memory)
    }
}

impl From<AllocError> for EditError {
    ghost from_gives = { λ _ e. e ≡ Memory };

    fn from(_error: AllocError) -> EditError {
        EditError::Memory
    }
}

impl<T: Drop> From<AllocFailed<T>> for EditError {
    ghost from_gives = { λ _ e. e ≡ Memory };

    fn from(_error: AllocFailed<T>) -> EditError {
        EditError::Memory
    }
}
