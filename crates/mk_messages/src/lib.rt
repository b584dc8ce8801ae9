//! The messages of a mailbox, listed, picked by their number or worked on in turn, over any devices.
//!
//! ```
//! let mut input = InMemory::new(b"From a\nA: 1\n\nx\n\nFrom b\nA: 2\n\ny\n");
//! let found = pick(alloc, &mut input, FromLines::Any, 1)?;
//! let message = without_separator(found.expect(&rt, "a message"));
//! assert_eq!(rt; message.as_slice(), b"From a\nA: 1\n\nx\n".as_slice());
//! ```
//!
//! The example is run by `a_message_is_taken_out` in `mk_run_tests/src/tests/examples.rt`.
//!
//! Tests: `mk_run_tests/src/tests/messages.rt`; `mk_tool/src/tests/mailboxes.rt` for messages taken out,
//! `mk_tool/src/tests/each.rt` and `mk_tool/src/tests/split.rt` for messages worked on in turn.
#![tactic(auto)]

mod in_memory;
pub mod laws;
mod lines;
mod listing;
mod picking;
mod taken_out;
mod work;
mod working;

pub use in_memory::InMemory;
pub use lines::{MessageLine, PlainLine, count_sections};
pub use listing::{try_lines, try_messages};
pub use picking::{pick, report_missing};
pub use taken_out::{before_separator, take_out, unmarked, without_separator};
pub use work::{Answer, Buffer, MessageWork};
pub use working::try_each;
