//! The bytes of a mailbox that C hands in, piece by piece.
ghost use Rattle.std.specs.Prelude.{◌≡◌, Some};
ghost use Rattle.mk_c.specs.inner.Inputs.{ReadsTo, is_drained, reason_for, to_read};

use crate::status::Reason;
use mk_mailbox::{Fault, MOST_READS, MailFault, Mailbox, Source};

/// A piece of a mailbox: the last one where `LAST` holds. Where more pieces are to come, a read at its end fails: it isn't the end of
/// the input.
#[derive(Drop)]
pub(crate) struct Input<'a, const LAST: bool> {
    rest: &'a [u8],
    reads: u64,
    faults: u64,
}

impl<'a, const LAST: bool> Input<'a, LAST> {
    // Why there is no next message: more bytes are needed where all of these were read and more are to come. A call that made as
    // many reads as a mailbox makes was given up.
    fn reason(&self, fault: MailFault) -> Reason
        ensures { result ≡ reason_for fault (is_drained LAST self.now.reads self.now.rest.now) }
    {
        match fault {
            MailFault::ReadFault
                if self.rest.is_empty() && !LAST && self.reads < MOST_READS as u64 => {
                Reason::NeedsMore
            }
            MailFault::ReadFault | MailFault::Memory => Reason::Memory,
        }
    }
}

impl<const LAST: bool> Source for Input<'_, LAST> {
    ghost remaining = { λ s. Some (to_read LAST s.rest.now) };

    ghost failures = { λ s. s.faults };

    ghost read_count = { λ s. s.reads };

    fn read(&mut self, piece: &mut [u8]) -> Result<usize, Fault> {
        self.reads = self.reads.saturating_add(1);
        if self.rest.is_empty() && !LAST {
            self.faults = self.faults.saturating_add(1);
            return Err(Fault);
        }
        let count = piece.len().min(self.rest.len());
        let (front, rest) = self.rest.split_at(count);
        piece[..count].copy_from_slice(front);
        self.rest = rest;
        Ok(count)
    }

    fn faults(&self) -> u64 {
        self.faults
    }

    fn reads(&self) -> u64 {
        self.reads
    }
}

/// The next message of a mailbox that is given more bytes, and how many of them were read.
pub(crate) fn read_on<const LAST: bool>(
    mailbox: &mut Mailbox,
    bytes: &[u8],
) -> (usize, Result<Option<Vec<u8>>, Reason>)
    ensures { ReadsTo bytes.now LAST result.0 result.1 mailbox.old mailbox.new }
{
    let mut input = Input::<LAST> {
        rest: bytes,
        reads: 0,
        faults: 0,
    };
    let found = mailbox.next(&mut input);
    let used = bytes.len().saturating_sub(input.rest.len());
    match found {
        Ok(message) => (used, Ok(message)),
        Err(fault) => (used, Err(input.reason(fault))),
    }
}
