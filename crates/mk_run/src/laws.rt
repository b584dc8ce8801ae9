//! Laws of runs, over the definitions alone: each a function with an empty body whose clause is the law.

ghost use Rattle.std.specs.Prelude.{◌≡◌, ◌≢◌, ◌∷◌, [], ℕ, List, None, Some};
ghost use Rattle.std.specs.List.{AllByRecursion};
ghost use Rattle.mk_line.specs.declared.cutting.Ending.{Ending};
ghost use Rattle.mk_line.specs.declared.cutting.Ending.TheVariants.{Missing};
ghost use Rattle.mk_head.specs.Fields.{counted};
ghost use Rattle.mk_tree.specs.Documents.{Document, tree};
ghost use Rattle.mk_tree.specs.Sections.{Placed, section_at};
ghost use Rattle.mk_build.specs.Building.{Attached};
ghost use Rattle.mk_build.specs.Forwards.{Forwarded, built_with, refusal_with};
ghost use Rattle.mk_build.specs.Multiparts.{Multipart};
ghost use Rattle.mk_mail.specs.BuiltLaws.{AreBytes};
ghost use Rattle.mk_script.specs.Script.{Attaches, AttachesText};
ghost use Rattle.mk_pack.specs.Parts.{file_name};
ghost use Rattle.mk_expand.specs.Pieces.{Pieces, piece_lines, piece_text};
ghost use Rattle.mk_expand.specs.Words.{attached_bytes};
ghost use Rattle.mk_run.specs.RoundLaws.{JournalsChangeNothing, RoundsAreGroups};
ghost use Rattle.mk_run.specs.AttachLaws.{IsLeafOf, IsWordMade, SaysFile, SaysName, new_path};

pub use mk_pack::laws::{
    bodies_are_refused, free_boundaries_are_boundaries, free_boundaries_are_free,
    free_boundaries_are_own, measured_lists_differ, own_boundaries_are_boundaries,
};

/// Wherever `attach` is accepted, the new part is a leaf, and what is extracted from it is the file.
pub fn attached_files_are_given_back()
    ensures { (pieces : Pieces) (eol : Ending) (mail path media name : List ℕ) (piece : ℕ) (u : Document) (p : Placed) →
        eol ≢ Missing → AreBytes (piece_text pieces piece) → section_at path (tree mail) ≡ Some p →
        IsWordMade pieces eol mail (Attaches path media name piece) u →
        IsLeafOf (section_at (new_path path p) u) (attached_bytes pieces eol media piece) }
{}

/// Wherever `attach-text` is accepted, the new part is a leaf, and what is extracted from it is the text.
pub fn attached_texts_are_given_back()
    ensures { (pieces : Pieces) (eol : Ending) (mail path media : List ℕ) (piece : ℕ) (u : Document) (p : Placed) → eol ≢ Missing →
        AreBytes (piece_text pieces piece) → section_at path (tree mail) ≡ Some p →
        IsWordMade pieces eol mail (AttachesText path media piece) u →
        IsLeafOf (section_at (new_path path p) u) (piece_lines pieces eol piece) }
{}

/// The part of a file says the name that was given: what follows its last slash.
pub fn attached_names_are_said()
    ensures { (pieces : Pieces) (eol : Ending) (mail path media name : List ℕ) (piece : ℕ) (u : Document) (p q : Placed) →
        eol ≢ Missing → section_at path (tree mail) ≡ Some p → IsWordMade pieces eol mail (Attaches path media name piece) u →
        section_at (new_path path p) u ≡ Some q → SaysFile (file_name name) q }
{}

/// Each part of a packed message, of any multipart and with any forwarded messages, says the name of the file that it was made of.
/// Names in UTF-8 have a law of their own, `built_names_are_said` of mk_mail.
pub fn packed_names_are_said()
    ensures { (eol : Ending) (fields : List (List ℕ)) (parts : List Attached) (messages : List Forwarded) (m : Multipart) → eol ≢ Missing →
        AllByRecursion (λ a. AreBytes a.text) parts → refusal_with fields parts messages m ≡ None →
        (k : ℕ) (a : Attached) (name : List ℕ) (p : Placed) → counted k parts ≡ Some a → a.name ≡ Some name → a.said ≡ None →
        section_at (1 ∷ k ∷ []) (tree (built_with eol fields parts messages m)) ≡ Some p → SaysName name p }
{}

/// Filtering fields with a new journal prints and reports what it does without one.
pub fn journals_change_nothing()
    ensures { JournalsChangeNothing }
{}

/// What a filter with a journal makes of a history is what a group of edits makes of it: one step, that is undone and redone as
/// those of groups are.
pub fn rounds_are_groups()
    ensures { RoundsAreGroups }
{}
