//! Why a group of edits, or a journal, is refused.
ghost use Rattle.std.specs.Prelude.{◌≡◌};
ghost use Rattle.mk_edit.specs.declared.errors.GroupError.TheVariants.{Memory as GroupMemory};
ghost use Rattle.mk_edit.specs.declared.errors.LoadError.TheVariants.{Memory as LoadMemory};
ghost use Rattle.mk_edit.specs.inner.Loading.{of_fit, of_journal};

use mk_decide::EditError;
use mk_splice::{FitError, JournalError};
use std::alloc::{AllocError, AllocFailed};
use thiserror::Error;

/// Why a group of edits is refused.
#[derive(Clone, Copy, Debug, PartialEq, Eq, Error)]
pub enum GroupError {
    /// An edit is refused, in the message that the earlier ones gave: the first that is. The first edit of a group has
    /// number 0.
    #[error("edit {index} of the group: {refusal}")]
    Member { index: usize, refusal: EditError },
    /// Memory ran out; nothing has changed.
    #[error("out of memory")]
    Memory,
}

impl From<AllocError> for GroupError {
    ghost from_gives = { λ _ e. e ≡ GroupMemory };

    fn from(_error: AllocError) -> GroupError {
        GroupError::Memory
    }
}

impl<T: Drop> From<AllocFailed<T>> for GroupError {
    ghost from_gives = { λ _ e. e ≡ GroupMemory };

    fn from(_error: AllocFailed<T>) -> GroupError {
        GroupError::Memory
    }
}

/// Why a journal is refused. Of several reasons the first in this order is named.
#[derive(Clone, Copy, Debug, PartialEq, Eq, Error)]
pub enum LoadError {
    /// The file is no journal: none begins with more than its first `offset` bytes.
    #[error("the journal is invalid at byte {offset}")]
    JournalSyntax { offset: usize },
    /// The journal belongs to another text.
    #[error("the journal belongs to another text")]
    JournalOther,
    /// A step doesn't find the bytes that it replaces: the first, of the done ones taken back from the last to the first,
    /// and then of the others. The oldest step has number 1.
    #[error("step {entry} of the journal doesn't fit the text")]
    JournalMismatch { entry: usize },
    /// Memory ran out.
    #[error("out of memory")]
    Memory,
}

impl From<AllocError> for LoadError {
    ghost from_gives = { λ _ e. e ≡ LoadMemory };

    fn from(_error: AllocError) -> LoadError {
        LoadError::Memory
    }
}

impl From<JournalError> for LoadError {
    ghost from_gives = { λ error e. e ≡ of_journal error };

    fn from(error: JournalError) -> LoadError {
        match error {
            JournalError::Syntax { offset } => LoadError::JournalSyntax { offset },
            JournalError::Memory => LoadError::Memory,
        }
    }
}

impl From<FitError> for LoadError {
    ghost from_gives = { λ error e. e ≡ of_fit error };

    fn from(error: FitError) -> LoadError {
        match error {
            FitError::Misfit { step } => LoadError::JournalMismatch { entry: step },
            FitError::Memory => LoadError::Memory,
        }
    }
}
