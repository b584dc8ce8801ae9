//! A journal in a column of a database: a message is changed today, and next week it's put back.
ghost use Rattle.std.specs.Prelude.{◌≡◌, ℕ, List, map, IfErr, IfOk};
ghost use Rattle.mk_decide.specs.Edits.{Group, PlainEdit};
ghost use Rattle.mk_decide.specs.Views.{edit_of};
ghost use Rattle.mk_edit.specs.Answers.{IsGroupRefusedBy};
ghost use Rattle.mk_edit.specs.Histories.{started, step};
ghost use Rattle.mk_edit.specs.Saving.{loaded};
ghost use Rattle.mk_uses.specs.Uses.{KeepsEdits, RefusesRow};

use mk_edit::laws::{histories_stay, saved_journals_are_loaded, texts_start};
use mk_edit::{Edit, EditError, GroupError, LoadError, Session};
use mk_line::Meter;
use std::alloc::Global;
use thiserror::Error;

/// A row of a table: a message as it stands, and the journal of what was done to it.
#[derive(Drop)]
pub struct Row {
    pub message: Vec<u8>,
    pub journal: Vec<u8>,
}

/// Why a message isn't put back.
#[derive(Clone, Copy, Debug, PartialEq, Eq, Error)]
pub enum RowError {
    /// The row holds no journal of the message.
    #[error("the row can't be read: {0}")]
    Load(LoadError),
    /// There is nothing to take back, or memory ran out.
    #[error("the message can't be put back: {0}")]
    Undo(EditError),
}

/// Makes edits in a message, all or none, and gives the row that is to be stored.
pub fn store(alloc: Global, message: Vec<u8>, edits: &[Edit]) -> Result<Row, GroupError>
    ensures kept { IfOk result (λ row. KeepsEdits message.items row.message.items row.journal.items (map edit_of edits.now)) }
    ensures refused { IfErr result (λ error. IsGroupRefusedBy error (step (Group (map edit_of edits.now)) (started message.items))) }
{
    let mut session = match Session::start(alloc, message) {
        Ok(session) => session,
        Err(_) => return Err(GroupError::Memory),
    };
    session.group(edits, &mut Meter::new())?;
    let journal = session.save()?;
    let message = Vec::from_slice(alloc, session.text())?;
    Ok(Row { message, journal })
}

/// The message as it was before the edits of a row that `store` gave.
pub fn restore(alloc: Global, row: Row) -> Result<Vec<u8>, RowError>
    ensures restored { IfOk result (λ text. (message : List ℕ) (edits : List PlainEdit)
        → KeepsEdits message row.message.items row.journal.items edits → text.items ≡ message) }
    ensures refused { IfErr result (λ error. RefusesRow error (loaded row.message.items row.journal.items)) }
{
    texts_start();
    histories_stay();
    saved_journals_are_loaded();
    let Row { message, journal } = row;
    let mut session = match Session::load(alloc, message, &journal) {
        Ok(session) => session,
        Err((_, error)) => return Err(RowError::Load(error)),
    };
    match session.undo() {
        Ok(()) => {}
        Err(error) => return Err(RowError::Undo(error)),
    }
    match Vec::from_slice(alloc, session.text()) {
        Ok(text) => Ok(text),
        Err(_) => Err(RowError::Undo(EditError::Memory)),
    }
}
