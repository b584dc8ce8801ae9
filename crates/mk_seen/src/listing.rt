//! The first of the messages that have one identifier, listed.

ghost use Rattle.std.specs.Prelude.{◌≡◌, ◌+◌, ◌⊎◌, [], length, if◌then◌else◌};
ghost use Rattle.mk_transfer.specs.Said.{silence};
ghost use Rattle.mk_seen.specs.SeenIds.{is_repeated, seen_after};

use crate::ids::SeenIds;
use mk_messages::{Answer, MessageLine, MessageWork};
use mk_transfer::Stop;
use std::alloc::Global;

/// How far a mailbox is listed.
#[derive(Drop)]
pub struct ListedSoFar {
    /// The identifiers of its messages.
    pub seen: SeenIds,
    /// Where the next message begins, in bytes from 0.
    pub start: u64,
}

impl ListedSoFar {
    ghost use Rattle.std.specs.Prelude.{◌≡◌};
    ghost use Rattle.std.specs.FinSet as set;

    /// Nothing is listed yet.
    pub fn new(alloc: Global) -> ListedSoFar
        ensures seen { result.seen ≡ set.empty }
        ensures start { result.start ≡ 0 }
    {
        ListedSoFar {
            seen: SeenIds::new(alloc),
            start: 0,
        }
    }
}

/// Lists each message that isn't repeated, by a line of a kind. Where memory runs out over a message, it may have been seen. A mailbox of 2^64 bytes, if there were one, is given up as out of
/// memory.
#[derive(Clone, Copy, Debug)]
pub struct FirstLines<L> {
    pub lines: L,
}

impl<L: MessageLine> MessageWork<ListedSoFar> for FirstLines<L> {
    ghost does = { λ w number message said old new.
        (said ≡ record { output = if is_repeated old.seen message then [] else L.text w.lines number old.start message; errors = [] })
        × (new.seen ≡ seen_after old.seen message) × (new.start ≡ old.start + length message) };

    ghost stops = { λ _ _ message said old new.
        (said ≡ silence) × (new.start ≡ old.start) × (new.seen ≡ old.seen ⊎ new.seen ≡ seen_after old.seen message) };

    ghost failures = { λ _ _. 0 };

    fn work(
        &self,
        alloc: Global,
        number: u64,
        message: Vec<u8>,
        device: &mut ListedSoFar,
        answer: &mut Answer,
    ) -> Result<(), Stop> {
        let start = device.start;
        let Some(end) = start.checked_add(message.len() as u64) else {
            return Err(Stop::Memory);
        };
        if device.seen.see_message(alloc, &message)? {
            answer.output.text = self.lines.line(alloc, number, start, message)?;
        }
        device.start = end;
        Ok(())
    }
}
