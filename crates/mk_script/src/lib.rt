//! Scripts of edits: what their lines say, and the steps that they are.
//!
//! ```
//! let found = steps(alloc, b"# a remark\nadd 1 A: b\nundo\n", 0)?;
//! assert!(rt; matches!(found.as_slice(), [Step::Edit(_), Step::Undo(3)]));
//! let invalid = first_invalid(alloc, b"undo\nad 1 A: b\n", 0, false)?;
//! let line = invalid.expect(&rt, "an invalid line");
//! assert_eq!(rt; (line.number, line.fault), (2, LineFault::UnknownWord));
//! ```
//!
//! The example is run by `a_script_has_steps` in `mk_run_tests/src/tests/examples.rt`.
//!
//! Tests: `mk_run_tests/src/tests.rt`, `mk_run_tests/src/tests/groups.rt`, `mk_run_tests/src/tests/fields.rt`,
//! `mk_run_tests/src/tests/pieces.rt`, `mk_run_tests/src/tests/jobs.rt`, `mk_run_tests/src/tests/texts.rt`,
//! `mk_run_tests/src/tests/as_one.rt`; `mk_run_tests/src/tests/memory.rt` where memory is refused;
//! `mk_tool/src/tests/commands.rt`, `mk_tool/src/tests/files.rt`, `mk_tool/src/tests/explained.rt` and
//! `checks/file_rows.py` for the reasons why lines are invalid.
#![tactic(auto)]

mod endings;
mod groups;
mod jobs;
pub mod laws;
mod paths;
mod pieces;
mod reasons;
mod script;
mod targets;

pub use endings::turned;
pub use groups::{ScriptError, Step, steps, steps_as_one};
pub use paths::{numbers, parted, path};
pub use reasons::{InvalidLine, LineFault, first_invalid};
pub use script::{ChosenEncoding, NumberedWord, Word};
pub use targets::{SPACE, Target, field_name};
