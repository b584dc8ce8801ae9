//! A law of edited mailboxes, over the definitions alone: a function with an empty body whose clause is the law.

ghost use Rattle.std.specs.Prelude.{◌≡◌, ℕ, List, Result, Some, map};
ghost use Rattle.std.specs.List.{flat_map};
ghost use Rattle.mk_mailbox.specs.Pieces.{mailbox_pieces};
ghost use Rattle.mk_mailbox.specs.declared.from_lines.FromLines.{FromLines};
ghost use Rattle.mk_mail.specs.Replaced.{texts_left};
ghost use Rattle.mk_script.specs.ScriptSteps.{ScriptStep};
ghost use Rattle.mk_expand.specs.Pieces.{Pieces};
ghost use Rattle.mk_each.specs.EachEdited.{edited_from};

/// The messages of a mailbox that was edited are what was made of its messages, whatever the script and its pieces are. One of no
/// bytes doesn't count.
pub fn edited_stay_apart()
    ensures { (pieces : Pieces) (steps : Result (List ScriptStep) ℕ) (way : FromLines) (mailbox : List ℕ) →
        let texts = texts_left (map Some (edited_from pieces steps way 1 (mailbox_pieces way mailbox))) in
        mailbox_pieces way (flat_map (λ text. text) texts) ≡ texts }
{}
