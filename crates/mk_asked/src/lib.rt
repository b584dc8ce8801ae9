//! What the words of the command line ask for, and why some of them are refused.
//!
//! ```
//! let words = ["mimetool", "extract", "-s", "1.x"];
//! let matches = command(alloc)?.try_get_matches_from(&words)?;
//! let (name, options) = matches.subcommand().expect(&rt, "a subcommand");
//! let sentence = why_invalid(alloc, name, options)?.expect(&rt, "a sentence");
//! let begun = "invalid value '1.x' for '-s <PATH>': ";
//! assert!(rt; sentence.as_str().starts_with(begun));
//! ```
//!
//! The example is run by `an_invalid_word_is_told` in `mk_tool/src/tests/examples.rt`.
//!
//! Tests: `mk_tool/src/tests/usage.rt`, `mk_tool/src/tests/commands.rt`, `mk_tool/src/tests/letters.rt`,
//! `mk_tool/src/tests/mailboxes.rt`; `checks/faults` tries each invalid command line.
#![tactic(auto)]

mod files;
mod forms;
mod invalid;
mod letters;
mod mailboxes;

pub use forms::{
    field_form, name_form, paths, portion, subtype, template, unpack_options, value_form,
};
pub use invalid::why_invalid;
pub use letters::letter_words;
pub use mailboxes::{from_lines, message_number};
