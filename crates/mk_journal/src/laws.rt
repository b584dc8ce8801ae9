//! Laws of the scripts for all steps, over the definitions alone: each a function with an empty body whose clause is the law.

ghost use Rattle.mk_journal.specs.AllStepsLaws.{RedoAllReaches, UndoAllRestores};

/// Where the journal of a message is accepted, taking back every step that is done gives the first text, byte for byte.
pub fn undo_all_restores()
    ensures { UndoAllRestores }
{}

/// Where it is accepted, making every step again that is undone gives the last text.
pub fn redo_all_reaches()
    ensures { RedoAllReaches }
{}
