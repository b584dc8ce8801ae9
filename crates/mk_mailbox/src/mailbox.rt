//! Mailboxes: messages one after another, each begun by a From-line (own).
ghost use Rattle.std.specs.Prelude.{◌≡◌, [], false, IfNone, IfOk, MatchOption, OnErr};
ghost use Rattle.mk_mailbox.specs.declared.from_lines.FromLines.TheVariants.{Any};
ghost use Rattle.mk_mailbox.specs.Mailboxes.{IsKnownWhole, IsNextPiece};
ghost use Rattle.mk_mailbox.specs.MailboxLaws.{IsNextCall};

use crate::device::Source;
use crate::from_lines::FromLines;
use crate::intake::Intake;
use std::alloc::{AllocError, Global};
use std::marker::Model;
use thiserror::Error;

/// Why there is no next message yet.
#[derive(Clone, Copy, Debug, PartialEq, Eq, Error)]
pub enum MailFault {
    /// The source failed, or gave no end in 2,147,483,647 reads.
    #[error("the mailbox can't be read")]
    ReadFault,
    /// Memory ran out.
    #[error("out of memory")]
    Memory,
}

/// The messages of a mailbox that a source gives, one after another. It is cut before each From-line that directly
/// follows an empty line, or only before those with a date. No more than one message and a chunk of the input is kept.
#[derive(Drop)]
pub struct Mailbox {
    intake: Intake,
}

impl Model for Mailbox {
    ghost use Rattle.mk_mailbox.specs.Held.{Held};

    ghost Value = { Held };

    ghost use Rattle.mk_mailbox.specs.inner.Intakes.{IsIntake, held_of};

    ghost view = { λ m. held_of m.intake };

    ghost invariant = { λ m. IsIntake m.intake };
}

impl Mailbox {
    /// A mailbox of which nothing was read yet.
    pub fn new(alloc: Global) -> Mailbox
        ensures kept { result.kept ≡ [] }
        ensures ended { result.ended ≡ false }
        ensures from_lines { result.from_lines ≡ Any }
    {
        Mailbox::cut_at(alloc, FromLines::Any)
    }

    /// A mailbox of which nothing was read yet, and which is cut at these From-lines.
    pub fn cut_at(alloc: Global, from_lines: FromLines) -> Mailbox
        ensures kept { result.kept ≡ [] }
        ensures ended { result.ended ≡ false }
        ensures from_lines { result.from_lines ≡ from_lines }
    {
        Mailbox {
            intake: Intake::new(alloc, from_lines),
        }
    }

    /// The next message; none where the input has ended and all of it was given. After an error all that was read is
    /// kept, and a later call goes on with it. Nothing is read once the input has ended, nor while a message is known to be
    /// whole.
    pub fn next<S: Source>(&mut self, r: &mut S) -> Result<Option<Vec<u8>>, MailFault>
        ensures { IsNextCall (S.remaining r.old) (S.remaining r.new) (S.read_count r.old) (S.read_count r.new) (S.failures r.old) (S.failures r.new) result self.old self.new }
    {
        self.intake.next(r)
    }

    /// The next message, where what was read tells that it is whole; none where more has to be read first, or all was given. The
    /// last message has no line after it that tells, so only `next` gives it.
    pub fn next_known(&mut self) -> Result<Option<Vec<u8>>, AllocError>
        ensures piece { IfOk result (λ o. MatchOption o (self.new.kept ≡ self.old.kept) (λ piece. IsNextPiece piece.items self.old [] self.new)) }
        ensures unknown { IfOk result (λ o. IfNone o (IsKnownWhole self.old.from_lines self.old.kept → ⊥)) }
        ensures err { OnErr result (self.new.kept ≡ self.old.kept) }
        ensures ended { self.new.ended ≡ self.old.ended }
        ensures same { self.new.from_lines ≡ self.old.from_lines }
    {
        self.intake.take_lines()
    }
}
