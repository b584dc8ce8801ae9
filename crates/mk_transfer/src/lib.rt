//! What every run is made of: whole texts read and written, and the ways that it ends.
//!
//! ```
//! let mut input = Text::new(b"A: b\n\nx\n", 3);
//! let (mut out, mut err) = (Page::new(alloc, 3)?, Page::new(alloc, 3)?);
//! let text = read_all(alloc, &mut input)?;
//! write_all(&mut out, &text)?;
//! assert_eq!(rt; out.bytes(), b"A: b\n\nx\n".as_slice());
//! let status = give_up(&mut err, Cause::Write);
//! assert_eq!(rt; err.bytes(), b"mimetool: write fault\n".as_slice());
//! assert_eq!(rt; status.code(), 3);
//! ```
//!
//! The example is run by `a_text_is_read_and_written` in `mk_run_tests/src/tests/examples.rt`. `Text` and `Page` are
//! devices in memory.
//!
//! Tests: `mk_run_tests/src/tests/failing.rt`, `mk_run_tests/src/tests/messages.rt`; `mk_run_tests/src/tests/memory.rt`
//! where memory is refused.
#![tactic(auto)]

mod ending;
mod status;
mod transfer;

pub use ending::{cause_line, give_up, reading, writing};
pub use status::{Cause, Status};
pub use transfer::{Stop, finish, read_all, send, write_all};
