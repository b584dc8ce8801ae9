//! The journal of a run: the history that it begins with, and the one that it keeps for later runs.

ghost use Rattle.std.specs.Prelude.{◌≡◌, Ok, Err, IfOk, IfErr, IfSome};
ghost use Rattle.mk_run.specs.Journaling.{Anew, begun, journaling_of, left_journal, named_by};
ghost use Rattle.mk_run.specs.inner.Keeping.{says_memory};

use mk_edit::{LoadError, Session};
use std::alloc::{AllocError, Global};

/// Where the history of a run comes from, and whether it is kept.
#[derive(Clone, Copy, Debug, PartialEq, Eq)]
pub enum Journal<'a> {
    /// The history begins with the message, and no journal is written.
    Off,
    /// The history begins with the message, and its journal is written.
    New,
    /// The history is the one that this journal describes, and its journal is written.
    Old(&'a [u8]),
}

/// The session that a run begins with.
pub fn begin(alloc: Global, message: Vec<u8>, journal: Journal<'_>) -> Result<Session, LoadError>
    ensures ok { IfOk result (λ session. begun (journaling_of journal.entry) message.items ≡ Ok session) }
    ensures refused { IfErr result (λ error. IfSome (named_by error) (λ reason. begun (journaling_of journal.entry) message.items ≡ Err reason)) }
{
    let begun = match journal {
        Journal::Off | Journal::New => return start(alloc, message),
        Journal::Old(file) => Session::load(alloc, message, file),
    };
    match begun {
        Ok(session) => Ok(session),
        Err((_, error)) => Err(error),
    }
}

// A session without a step.
fn start(alloc: Global, message: Vec<u8>) -> Result<Session, LoadError>
    ensures ok { IfOk result (λ session. begun Anew message.items ≡ Ok session) }
    ensures refused { IfErr result (λ error. error ≡ LoadError.Memory) }
{
    match Session::start(alloc, message) {
        Ok(session) => Ok(session),
        Err((_, AllocError)) => Err(LoadError::Memory),
    }
}

/// Whether an error says that memory ran out.
pub fn is_memory(error: LoadError) -> bool
    ensures { result ≡ says_memory error }
{
    match error {
        LoadError::Memory => true,
        LoadError::JournalSyntax { .. }
        | LoadError::JournalOther
        | LoadError::JournalMismatch { .. } => false,
    }
}

/// The journal that a run leaves: no byte where it keeps none.
pub fn journal_of(
    alloc: Global,
    session: &Session,
    journal: Journal<'_>,
) -> Result<Vec<u8>, AllocError>
    ensures { IfOk result (λ kept. kept.items ≡ left_journal (journaling_of journal.entry) session.now) }
{
    match journal {
        Journal::Off => Ok(Vec::new(alloc)),
        Journal::New | Journal::Old(_) => session.save(),
    }
}
