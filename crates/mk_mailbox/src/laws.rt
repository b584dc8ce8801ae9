//! Laws of mailboxes, over the definitions alone: each a function with an empty body whose clause is the law.

ghost use Rattle.std.specs.Prelude.{◌++◌, ◌<◌, ◌∷◌, ◌≡◌, ◌≢◌, ℕ, List, [], false, length, true};
ghost use Rattle.std.specs.List.{AllByRecursion, flat_map};
ghost use Rattle.mk_line.specs.Lines.{TextLine, cut, text_of};
ghost use Rattle.mk_mailbox.specs.Held.{Held};
ghost use Rattle.mk_mailbox.specs.MailboxLaws.{AreCalls, Call, are_parted, given_by, read_by, unread_mailbox};
ghost use Rattle.mk_mailbox.specs.Mailboxes.{IsOver};
ghost use Rattle.mk_mailbox.specs.Pieces.{mailbox_pieces};
ghost use Rattle.mk_mailbox.specs.declared.from_lines.FromLines.{FromLines};

/// Whatever calls of `Mailbox::next` were made, in whatever pieces the input was read and whichever calls failed: the
/// messages given so far, and then those of what is kept, are those of all that was read.
pub fn calls_give_the_messages()
    ensures { (way : FromLines) (calls : List Call) (now : Held) → AreCalls (unread_mailbox way) calls now → (more : List ℕ) →
        (now.ended ≡ true → more ≡ []) →
        mailbox_pieces way (read_by calls ++ more) ≡ given_by calls ++ mailbox_pieces way (now.kept ++ more) }
{}

/// Up to the call that says that there is none, the messages given are those of all that was read.
pub fn ends_are_whole()
    ensures { (way : FromLines) (calls : List Call) (last now : Held) (read : List ℕ) → AreCalls (unread_mailbox way) calls last →
        IsOver last read now → mailbox_pieces way (read_by calls ++ read) ≡ given_by calls }
{}

/// After a call that says that there is none nothing is read or given.
pub fn ends_stay()
    ensures { (calls : List Call) (last : Held) (read : List ℕ) (over now : Held) → IsOver last read over → AreCalls over calls now →
        (read_by calls ≡ []) × (given_by calls ≡ []) }
{}

/// The messages of a mailbox, joined, are the mailbox.
pub fn pieces_are_all()
    ensures { (way : FromLines) (text : List ℕ) → flat_map (λ p. p) (mailbox_pieces way text) ≡ text }
{}

/// No message of a mailbox is empty.
pub fn pieces_are_some()
    ensures { (way : FromLines) (text : List ℕ) → AllByRecursion (λ p. 0 < length p) (mailbox_pieces way text) }
{}

/// No message of a mailbox is cut again.
pub fn pieces_are_uncut()
    ensures { (way : FromLines) (text : List ℕ) → AllByRecursion (λ p. mailbox_pieces way p ≡ p ∷ []) (mailbox_pieces way text) }
{}

/// A mailbox is cut at each line that directly follows an empty line and is a From-line that counts.
pub fn cuts_are_made()
    ensures { (way : FromLines) (text : List ℕ) (before after : List TextLine) → cut text ≡ before ++ after →
        are_parted way before after ≡ true →
        mailbox_pieces way text ≡ mailbox_pieces way (text_of before) ++ mailbox_pieces way (text_of after) }
{}

/// A mailbox is cut nowhere else: a text without such a line is one message.
pub fn others_stay_whole()
    ensures { (way : FromLines) (text : List ℕ) → text ≢ [] →
        ((before after : List TextLine) → cut text ≡ before ++ after → are_parted way before after ≡ false) →
        mailbox_pieces way text ≡ text ∷ [] }
{}
