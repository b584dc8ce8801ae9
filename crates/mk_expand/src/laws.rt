//! The laws of `content`, `encode`, `append`, `drop`, `put` and `remove`, over the definitions alone: each a function with an empty body whose clause is the law.

ghost use Rattle.std.specs.Prelude.{◌↔◌, ◌++◌, ◌∷◌, ◌≡◌, ◌≢◌, ◌≤◌, ℕ, List, Ok, Some, [], length, map, true};
ghost use Rattle.std.specs.Option.{option_map};
ghost use Rattle.base64.specs.GeneralPurpose.{IsBytes};
ghost use Rattle.mk_line.specs.Lines.{cut};
ghost use Rattle.mk_line.specs.declared.cutting.Ending.{Ending};
ghost use Rattle.mk_line.specs.declared.cutting.Ending.TheVariants.{Missing};
ghost use Rattle.mk_head.specs.Fields.{fields_of, is_one_field};
ghost use Rattle.mk_head.specs.declared.encodings.Encoding.{Encoding as Transfer};
ghost use Rattle.mk_code.specs.Contents.{IsContent};
ghost use Rattle.mk_tree.specs.Documents.{Document, tree};
ghost use Rattle.mk_tree.specs.Sections.{Placed, children, content_text, section_at};
ghost use Rattle.mk_decide.specs.EditLaws.{IsLeaf};
ghost use Rattle.mk_decide.specs.Edits.{PlainEdit, RemovePart};
ghost use Rattle.mk_decide.specs.Outcomes.{edited};
ghost use Rattle.mk_view.specs.Extracts.{IsExtract};
ghost use Rattle.mk_view.specs.Listed.{greatest_number};
ghost use Rattle.mk_script.specs.declared.script.ChosenEncoding.{ChosenEncoding};
ghost use Rattle.mk_expand.specs.Appends.{appended, beside};
ghost use Rattle.mk_expand.specs.Encodings.{decoded_in, encoding_set};
ghost use Rattle.mk_expand.specs.ExpandLaws.{IsMultipart, all_edited};
ghost use Rattle.mk_expand.specs.FieldWords.{dropped, name_in, put, those};
ghost use Rattle.mk_expand.specs.Paths.{latest_first};
ghost use Rattle.mk_expand.specs.Removals.{AreLatestFirst, IsAmong, paths_after, without_those};
ghost use Rattle.mk_expand.specs.Words.{content_set};

/// What `content` gives a leaf is what is extracted from it afterwards.
pub fn contents_are_given_back()
    ensures { (eol : Ending) (path bytes : List ℕ) (t u : Document) (p : Placed) (e : PlainEdit) → eol ≢ Missing → IsBytes bytes →
        section_at path t ≡ Some p → IsLeaf p.entity → content_set eol path bytes (Some p) ≡ Ok (e ∷ []) → edited e t ≡ Ok u →
        IsExtract (section_at path u) bytes }
{}

/// `encode` reads just the content of a text in a transfer encoding.
pub fn contents_are_decoded()
    ensures { (encoding : Transfer) (text bytes : List ℕ) → (decoded_in encoding text ≡ Ok bytes) ↔ IsContent encoding text bytes }
{}

/// What is extracted from a leaf stays the same when `encode` puts it in another transfer encoding.
pub fn encodings_keep_contents()
    ensures { (eol : Ending) (path bytes : List ℕ) (to : ChosenEncoding) (t u : Document) (p : Placed) (es : List PlainEdit) →
        eol ≢ Missing → IsBytes bytes → section_at path t ≡ Some p → IsLeaf p.entity → IsExtract (Some p) bytes →
        encoding_set eol path to (Some p) ≡ Ok es → all_edited es t ≡ Ok u → IsExtract (section_at path u) bytes }
{}

/// What is extracted from each leaf stays the same when `append` puts a part after the others of a multipart.
pub fn appends_keep_contents()
    ensures { (eol : Ending) (path text mail other bytes : List ℕ) (u : Document) (p q : Placed) → eol ≢ Missing →
        section_at path (tree mail) ≡ Some p → IsMultipart p.entity → length (children p) ≤ greatest_number →
        all_edited (appended eol path text p) (tree mail) ≡ Ok u → section_at other (tree mail) ≡ Some q → IsLeaf q.entity →
        IsExtract (Some q) bytes → IsExtract (section_at other u) bytes }
{}

/// Where `append` or `attach` puts a part beside a leaf, the leaf is the first part of their multipart, and has the content that it had.
pub fn leaves_keep_contents()
    ensures { (path text : List ℕ) (t u : Document) (p : Placed) → section_at path t ≡ Some p → IsLeaf p.entity →
        all_edited (beside path text p) t ≡ Ok u → option_map content_text (section_at (path ++ 1 ∷ []) u) ≡ Some (content_text p) }
{}

/// No field of the name is left where `drop` was accepted.
pub fn drops_leave_none()
    ensures { (path name : List ℕ) (t u : Document) (p : Placed) → section_at path t ≡ Some p →
        all_edited (dropped path name (Some p)) t ≡ Ok u → (q : Placed) × (section_at path u ≡ Some q) × (those name q ≡ []) }
{}

/// Where `put` of a field was accepted, that field is the only one of its name.
pub fn puts_leave_one()
    ensures { (path text : List ℕ) (t u : Document) (p : Placed) → section_at path t ≡ Some p → is_one_field (cut text) ≡ true →
        all_edited (put path text (Some p)) t ≡ Ok u →
        (q : Placed) × (section_at path u ≡ Some q) × (those (name_in text) q ≡ fields_of (cut text)) }
{}

/// `remove` of several parts takes each once, the later first.
pub fn removals_are_in_order()
    ensures { (paths : List (List ℕ)) →
        AreLatestFirst (latest_first paths) × ((path : List ℕ) → IsAmong path (latest_first paths) ↔ IsAmong path paths) }
{}

/// Where `remove` of several parts was accepted, those that stood at their paths are gone, and all else is as it was.
pub fn removals_take_those()
    ensures { (paths : List (List ℕ)) (t u : Document) → all_edited (map (λ path. RemovePart path) (latest_first paths)) t ≡ Ok u →
        (u.envelope ≡ t.envelope) × (u.root ≡ without_those (paths_after 1 (latest_first paths)) t.root) }
{}
