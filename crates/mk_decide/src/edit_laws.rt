//! Laws of the nine edits, over the definitions alone: each a function with an empty body whose clause is the law.
ghost use Rattle.mk_decide.specs.EditLaws.{EditsAreReplacements, FieldsAreApart, FieldsAreCounted, LocalityOfEdits, NamesAreReplaced, PathsLeadToSections, RemovalReasons, StabilityReasons, WrappingKeepsContent};

/// An edit that no earlier reason holds against gives the edited document where this is stable, and a reason from
/// OpenLine to Recut exactly where it isn't.
pub fn reasons_are_instability()
    ensures { StabilityReasons }
{}

/// The removal of a part of a stable document is refused for no other reason than that there is no section at the path,
/// or that the section there is no part.
pub fn removal_is_stable()
    ensures { RemovalReasons }
{}

/// An edit of a section of a stable document, which no earlier reason holds against, gives a stable document exactly
/// where its local conditions hold: all nine edits.
pub fn locality_of_edits()
    ensures { LocalityOfEdits }
{}

/// A leaf that was wrapped has, as the one part of its multipart, the content that it had.
pub fn wrapping_keeps_content()
    ensures { WrappingKeepsContent }
{}

/// An edit of a section of a stable document, which no earlier reason holds against, puts one entity in the place of
/// another: in that of the section, and the removal of a part in that of the multipart around. Its local conditions are
/// those that this entity has to meet there.
pub fn edits_are_replacements()
    ensures { EditsAreReplacements }
{}

/// The field that is found among lines is the k-th of its name, as a header counts them.
pub fn fields_are_counted()
    ensures { FieldsAreCounted }
{}

/// The lines before a field that is found, its own and those after it are all lines.
pub fn fields_are_apart()
    ensures { FieldsAreApart }
{}

/// A field start under another name has that name, and is otherwise as it was.
pub fn names_are_replaced()
    ensures { NamesAreReplaced }
{}

/// The section that an edit's path leads to is the section of that path, in its place.
pub fn paths_lead_to_sections()
    ensures { PathsLeadToSections }
{}
