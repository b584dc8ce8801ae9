//! Lines of Internet messages: cutting a text into lines, and telling the kinds of line.
//!
//! Only `push_delimiter` and `push_close` take memory, and no other call fails.
//!
//! ```
//! let mut lines = cut(b"Subject: hi\r\n there\n");
//! let first = lines.next().expect(&rt, "a line");
//! assert_eq!(rt; first.content, b"Subject: hi".as_slice());
//! assert_eq!(rt; first.ending, Ending::Crlf);
//! assert_eq!(rt; name_len(first.content), Some(7));
//! let second = lines.next().expect(&rt, "a line");
//! assert!(rt; is_continuation(second.content));
//! assert!(rt; lines.next().is_none());
//! ```
//!
//! The example is run by `a_text_is_cut_into_lines` in `mk_text_tests/src/examples.rt`.
//!
//! Tests: `mk_text_tests/src/lines.rt`; `mk_text_tests/src/memory.rt` where memory is refused.
#![tactic(auto)]

mod counting;
mod cutting;
mod kinds;
pub mod lanes;
pub mod laws;
mod marks;
mod metering;
mod parting;

pub use counting::line_count;
pub use cutting::{Ending, Line, Lines, cut, ends_open, eol_of, first_line, line_at};
pub use kinds::{is_blank, is_continuation, is_from_line, is_name, leading_blanks, name_len};
pub use marks::{Mark, is_delimiter, push_close, push_delimiter, trimmed};
pub use metering::Meter;
pub use parting::split_at_first;
