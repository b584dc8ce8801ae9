//! Mailboxes: one message after another from a source, however it is read. And the devices that mail comes from and goes to.
//!
//! ```
//! let mut source = Bytes::new(b"From a\nA: 1\n\nx\n\nFrom b\nA: 2\n", 7);
//! let mut mailbox = Mailbox::new(alloc);
//! let first = mailbox.next(&mut source)?.expect(&rt, "a message");
//! assert_eq!(rt; first.as_slice(), b"From a\nA: 1\n\nx\n\n".as_slice());
//! let second = mailbox.next(&mut source)?.expect(&rt, "a message");
//! assert_eq!(rt; second.as_slice(), b"From b\nA: 2\n".as_slice());
//! assert!(rt; mailbox.next(&mut source)?.is_none());
//! ```
//!
//! The example is run by `a_mailbox_has_messages` in `mk_mail_tests/src/tests/examples.rt`. `Bytes` is a source in memory.
//!
//! Tests: `mk_mail_tests/src/tests/mailboxes.rt`, `mk_mail_tests/src/tests/dated.rt`, `mk_mail_tests/src/tests/fielded.rt`,
//! `mk_mail_tests/src/tests/places.rt`; `mk_run_tests/src/tests/failing.rt` for devices that fail.
#![tactic(auto)]

mod dates;
mod device;
mod from_lines;
mod gathering;
mod intake;
pub mod laws;
mod mailbox;
mod places;
mod stretches;

pub use device::{CHUNK_BYTES, Fault, MOST_READS, Sink, Source};
pub use from_lines::FromLines;
pub use mailbox::{MailFault, Mailbox};
pub use places::Place;
