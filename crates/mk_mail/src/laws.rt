//! Laws of built messages, letters and mailboxes, over the definitions alone: each a function with an empty body whose
//! clause is the law.

ghost use Rattle.std.specs.Prelude.{◌++◌, ◌∷◌, ◌≡◌, ◌≢◌, ℕ, IfSome, List, None, Ok, Option, Some, [], false, filter, map, true};
ghost use Rattle.std.specs.List.{AllByRecursion, AllZip, flat_map};
ghost use Rattle.mk_line.specs.Results.{made_of};
ghost use Rattle.mk_line.specs.declared.cutting.Ending.{Ending};
ghost use Rattle.mk_line.specs.declared.cutting.Ending.TheVariants.{Missing};
ghost use Rattle.mk_splice.specs.Splices.{Splice};
ghost use Rattle.mk_tree.specs.Documents.{Document, tree};
ghost use Rattle.mk_tree.specs.Sections.{Placed, section_at};
ghost use Rattle.mk_edit.specs.Groups.{together};
ghost use Rattle.mk_mailbox.specs.Pieces.{mailbox_pieces, needs_field};
ghost use Rattle.mk_mailbox.specs.Places.{takes_place};
ghost use Rattle.mk_mailbox.specs.declared.from_lines.FromLines.{FromLines};
ghost use Rattle.mk_build.specs.Building.{Attached};
ghost use Rattle.mk_build.specs.Forwards.{Forwarded, build_refusal, built, built_with, refusal_with};
ghost use Rattle.mk_build.specs.Multiparts.{Multipart};
ghost use Rattle.mk_mail.specs.Apart.{mail_left};
ghost use Rattle.mk_mail.specs.BuiltLaws.{AreBytes, BuiltNamesAreSaid, GivesAllBack};
ghost use Rattle.mk_mail.specs.Filtered.{IsFielded, filtered, filtered_in, is_left};
ghost use Rattle.mk_mail.specs.Letters.{PlainLetters, worked};
ghost use Rattle.mk_mail.specs.Prepended.{IsPutIn, prepended};
ghost use Rattle.mk_mail.specs.Replaced.{texts_left};
ghost use Rattle.mk_mail.specs.Rounds.{PlainRound, round_of_letters, rounds_left, rounds_left_in, rounds_made};
ghost use Rattle.mk_mail.specs.Tracked.{own_names};

pub use mk_mailbox::laws::{
    calls_give_the_messages, ends_are_whole, ends_stay, pieces_are_all, pieces_are_some,
    pieces_are_uncut,
};

/// Section 1 of a built message is a multipart with as many parts as were given, and what is extracted from the k-th is
/// the k-th text, whatever the texts and the line ending are.
pub fn built_messages_give_back()
    ensures { (eol : Ending) (fields : List (List ℕ)) (parts : List Attached) (boundary : List ℕ) → eol ≢ Missing →
        AllByRecursion (λ a. AreBytes a.text) parts → build_refusal fields parts boundary ≡ None →
        GivesAllBack parts [] (tree (built eol fields parts boundary)) }
{}

/// The same holds for a message that is built as a multipart: of any subtype, a digest too, and whatever charset its texts name,
/// or none.
pub fn built_multiparts_give_back()
    ensures { (eol : Ending) (fields : List (List ℕ)) (parts : List Attached) (m : Multipart) → eol ≢ Missing →
        AllByRecursion (λ a. AreBytes a.text) parts → refusal_with fields parts [] m ≡ None →
        GivesAllBack parts [] (tree (built_with eol fields parts [] m)) }
{}

/// The same holds for a message that is built as any multipart with forwarded messages: each of these is a section of its own
/// after the parts, and its content is the message without a From-line at its start, byte for byte.
pub fn forwarded_messages_give_back()
    ensures { (eol : Ending) (fields : List (List ℕ)) (parts : List Attached) (messages : List Forwarded) (m : Multipart) →
        eol ≢ Missing → AllByRecursion (λ a. AreBytes a.text) parts → refusal_with fields parts messages m ≡ None →
        GivesAllBack parts messages (tree (built_with eol fields parts messages m)) }
{}

/// The part of a file whose name is written as people write it has just that name, in each message that is built in UTF-8, as any
/// multipart and with any forwarded messages.
pub fn built_names_are_said()
    ensures { BuiltNamesAreSaid }
{}

/// What letters leave of a message has other fields than the message, and all else as it was.
pub fn letters_change_fields_alone()
    ensures { (l : PlainLetters) (text : List ℕ) → IsFielded (tree text) (tree (filtered l text)) }
{}

/// The names that letters go by are those of the document: where their edits are accepted, the fields have the names that were tracked.
pub fn names_are_tracked()
    ensures { (path : List ℕ) (eol : Ending) (l : PlainLetters) (t u : Document) (splices : List Splice) (p : Placed) →
        section_at path t ≡ Some p → together (worked path eol l (own_names p)).edits t ≡ Ok (u, splices) →
        (q : Placed) × (section_at path u ≡ Some q) × (own_names q ≡ (worked path eol l (own_names p)).names) }
{}

/// A field with a text put before what it says has all its bytes, in their order: those of the text come after its colon and
/// white space.
pub fn prepended_fields_keep_their_bytes()
    ensures { (eol : Ending) (text field : List ℕ) → IsPutIn field (prepended eol text field) }
{}

/// The messages of a mailbox, each filtered by letters, are a mailbox of these messages: none is cut in two and no two
/// become one. A message of which no byte is left doesn't count. With dates asked for, empty lines before the first From-line
/// are left as they are. Where a field must follow a From-line, letters alone don't promise it: `sections_stay_apart` does.
pub fn filtered_stay_apart()
    ensures { (way : FromLines) → needs_field way ≡ false → (l : PlainLetters) (text : List ℕ) →
        mailbox_pieces way (flat_map (filtered_in way l) (mailbox_pieces way text)) ≡ filter is_left (map (filtered_in way l) (mailbox_pieces way text)) }
{}

/// One round of letters leaves what the letters leave by themselves.
pub fn one_round_filters()
    ensures { (l : PlainLetters) (text : List ℕ) → rounds_left (round_of_letters l ∷ []) text ≡ filtered l text }
{}

/// What rounds of letters and rules leave of a message has other fields than the message, too, and all else as it was.
pub fn rounds_change_fields_alone()
    ensures { (rs : List PlainRound) (text : List ℕ) → IsFielded (tree text) (tree (rounds_left rs text)) }
{}

/// Rounds after others make of a text what they make of the text that the others made, as runs in a pipe do; and if one of
/// the others is refused, nothing is made.
pub fn rounds_are_piped()
    ensures { (rs more : List PlainRound) (text : List ℕ) →
        rounds_made (rs ++ more) text ≡ made_of (rounds_made more) (rounds_made rs text) }
{}

/// The messages of a mailbox stay apart after rounds of letters, as after letters, unless a field must follow a From-line.
pub fn rounds_stay_apart()
    ensures { (way : FromLines) → needs_field way ≡ false → (rs : List PlainRound) (text : List ℕ) →
        mailbox_pieces way (flat_map (rounds_left_in way rs) (mailbox_pieces way text)) ≡ filter is_left (map (rounds_left_in way rs) (mailbox_pieces way text)) }
{}

/// They stay apart after rounds of letters at any path, whatever must follow a From-line: a message of which the text that was
/// made doesn't fit its place is left as it came.
pub fn sections_stay_apart()
    ensures { (way : FromLines) (path : List ℕ) (rs : List PlainRound) (text : List ℕ) →
        mailbox_pieces way (flat_map (mail_left way path rs) (mailbox_pieces way text)) ≡ filter is_left (map (mail_left way path rs) (mailbox_pieces way text)) }
{}

/// The messages of a mailbox, each left out or replaced by a text that fits its place (`Place::fits`), are a mailbox of just these
/// texts. One of no bytes doesn't count.
pub fn replaced_stay_apart()
    ensures { (way : FromLines) (mailbox : List ℕ) (os : List (Option (List ℕ))) →
        AllZip (λ message o. IfSome o (λ text. takes_place way message text ≡ true)) (mailbox_pieces way mailbox) os →
        mailbox_pieces way (flat_map (λ text. text) (texts_left os)) ≡ texts_left os }
{}
