//! Laws of edits and histories, over the definitions alone: each a function with an empty body whose clause is the law.
ghost use Rattle.mk_decide.specs.EditLaws.{EditsReadBack, SplicesLead};
ghost use Rattle.mk_edit.specs.Laws.{EditsInTurnAreGroups, FirstTextsStay, GroupsLead, GroupsReadBack, HistoriesStay, TextsStart, UndoingRestores};
ghost use Rattle.mk_edit.specs.Saving.{SavedIsLoaded};

/// Undoing as often as steps are done gives the first text, and redoing as often gives the history from which the undoing
/// began; the same for every history and every list of edits, groups, undos and redos.
pub fn undoing_restores()
    ensures { UndoingRestores }
{}

/// Replacing the old bytes of an accepted edit's splice by the new ones in the text before gives the text after, and
/// the other way round. The bytes that are replaced stand there.
pub fn splices_lead()
    ensures { SplicesLead }
{}

/// An accepted edit gives a text that is read as the edited document.
pub fn edits_read_back()
    ensures { EditsReadBack }
{}

/// The splices of an accepted group, made one after another, give the text after; taken back from the last to the first
/// they give the text before. On both ways each finds the bytes that it replaces.
pub fn groups_lead()
    ensures { GroupsLead }
{}

/// The text after an accepted group is read as the document that its edits give.
pub fn groups_read_back()
    ensures { GroupsReadBack }
{}

/// A text alone is a history.
pub fn texts_start()
    ensures { TextsStart }
{}

/// What edits, groups, undos and redos leave of a history is a history: each step leads from its text to the next, and
/// back.
pub fn histories_stay()
    ensures { HistoriesStay }
{}

/// Edits, groups, undos and redos leave the first text of a history, so `commit` can take what is done in a group.
pub fn first_texts_stay()
    ensures { FirstTextsStay }
{}

/// What edits do one after another in a group is, committed, the step that `group` makes of them.
pub fn edits_in_turn_are_groups()
    ensures { EditsInTurnAreGroups }
{}

/// The journal of a history, loaded with the text that stands, gives the history again.
pub fn saved_journals_are_loaded()
    ensures { SavedIsLoaded }
{}
