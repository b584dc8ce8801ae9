//! The words of the command line: the subcommands, and what each takes.
//!
//! ```
//! let words = ["mimetool", "extract", "-s", "1.2"];
//! let matches = command(alloc)?.try_get_matches_from(&words)?;
//! let (name, options) = matches.subcommand().expect(&rt, "a subcommand");
//! assert_eq!(rt; name, EXTRACT);
//! assert_eq!(rt; options.get_str(PATH), Some("1.2"));
//! let reason = told(EXTRACT, b"1.2: NoSuchSection");
//! let (about, _) = reason.expect(&rt, "a reason");
//! assert_eq!(rt; about, b"1.2: ".as_slice());
//! ```
//!
//! The example is run by `words_have_a_subcommand` in `mk_tool/src/tests/examples.rt`.
//!
//! Tests: `mk_tool/src/tests/usage.rt`, `mk_tool/src/tests/commands.rt`, `mk_tool/src/tests/letters.rt`,
//! `mk_tool/src/tests/explained.rt`, `mk_tool/src/tests/locks.rt`; `checks/faults` tries each invalid command line.
#![tactic(auto)]

mod arguments;
mod check_options;
mod edit_options;
mod field_options;
pub mod hints;
mod mailbox_options;
pub mod options;
mod pack_options;
pub mod reasons;
mod reply_options;
mod script_words;
mod section_options;
mod shared_options;
pub mod waiting;
