//! Commands to a session.
use mk_decide::Edit;

/// What may be asked of a session.
#[derive(Debug, Drop)]
pub enum Command {
    /// Makes an edit.
    Do(Edit),
    /// Makes edits one after another, as one step.
    Group(Vec<Edit>),
    /// Takes the last step back.
    Undo,
    /// Makes the step that was taken back last again.
    Redo,
}
