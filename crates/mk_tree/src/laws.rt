//! Laws of reading, each a function with an empty body whose clause is the law.
ghost use Rattle.std.specs.Prelude.{◌≡◌, ◌↔◌, true, ℕ, List, Option};
ghost use Rattle.std.specs.Option.{option_map};
ghost use Rattle.mk_line.specs.Lines.{cut};
ghost use Rattle.mk_line.specs.Lines.{TextLine};
ghost use Rattle.mk_tree.specs.Cutting.{Cut, IsCutBy, cut_by};
ghost use Rattle.mk_tree.specs.Documents.{Document, IsStable, document_lines, printed, tree};
ghost use Rattle.mk_tree.specs.Equal.{is_stable};
ghost use Rattle.mk_tree.specs.Locality.{Replaces};
ghost use Rattle.mk_tree.specs.Places.{Frame, place_at, placed, put};
ghost use Rattle.mk_tree.specs.Sections.{root_of, section_below};
ghost use Rattle.mk_tree.specs.Tree.{Entity};

/// Reading loses no byte: the text of what a text is read as is the text.
pub fn reading_loses_nothing()
    ensures { (text : List ℕ) → printed (tree text) ≡ text }
{}

/// The lines of what a text is read as are the lines of the text.
pub fn lines_are_kept()
    ensures { (text : List ℕ) → document_lines (tree text) ≡ cut text }
{}

/// The test of stability tells whether a document's text is read as the document.
pub fn stability_is_told()
    ensures { (t : Document) → (is_stable t ≡ true) ↔ IsStable t }
{}

/// Lines have exactly one cut by a boundary: a preamble without its marks, parts that each begin with a delimiter and
/// hold no mark, and a close line with the epilogue, where there is one (RFC 2046, 5.1.1).
pub fn cuts_are_unique()
    ensures some { (boundary : List ℕ) (lines : List TextLine) → IsCutBy boundary lines (cut_by boundary lines) }
    ensures only { (boundary : List ℕ) (lines : List TextLine) (cut : Cut) → IsCutBy boundary lines cut → cut_by boundary lines ≡ cut }
{}

/// What a text is read as is stable.
pub fn reading_is_stable()
    ensures { (text : List ℕ) → IsStable (tree text) }
{}

/// An entity put in the place of a section of a stable document leaves it stable exactly where all lines of the result
/// are the lines of their text, no line of the entity is a mark of an enclosing multipart, the entity is what is read
/// from its lines at that place, a message's head without a separator ends before it, and the first line of a root isn't
/// taken for the envelope.
pub fn replacement_is_local()
    ensures { (envelope : Option TextLine) (around : List Frame) (section new : Entity) → IsStable (put envelope around section) → (IsStable (put envelope around new) ↔ Replaces envelope around new) }
{}

/// Numbers lead to the same section through what stands around it: it begins after the lines before, it is followed
/// where there are lines after it, and its default is that of the place.
pub fn places_are_sections()
    ensures { (t : Document) (numbers : List ℕ) → section_below numbers (root_of t) ≡ option_map (λ q. placed t.envelope q.0 q.1) (place_at numbers t.root) }
{}
