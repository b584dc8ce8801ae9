//! A mailbox split into files, one for each message, over any devices.
//!
//! ```
//! let names = Template::read(b"mail-%03d.eml").expect(&rt, "a template");
//! let name = names.name(alloc, 7)?;
//! assert_eq!(rt; name.as_slice(), b"mail-007.eml".as_slice());
//! ```
//!
//! The example is run by `files_are_named_by_a_template` in `mk_tool/src/tests/split.rt`.
//!
//! Tests: `mk_tool/src/tests/split.rt`.
#![tactic(auto)]

mod splitting;
mod template;
mod texts;

pub use splitting::{SplitOptions, try_split};
pub use template::Template;
