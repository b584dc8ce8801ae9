//! `mimetool`: an editor for Internet messages with exact undo.
//!
//! ```
//! let words = ["edit", "-e", "add 1 C: d", "-e", "del 1 Z 1"];
//! let found = obeyed(&rt, &words, b"A: b\n\nx\n")?;
//! assert_eq!(rt; found.output.bytes(), b"A: b\nC: d\n\nx\n".as_slice());
//! assert_eq!(rt; found.errors.bytes(), b"line 2: NoSuchField\n".as_slice());
//! assert_eq!(rt; found.code, 1);
//! ```
//!
//! The example is run by `a_command_line_is_obeyed` in `mk_tool/src/tests/examples.rt`. `obeyed` runs the program on words
//! and a message.
//!
//! Tests: `mk_tool/src/tests/commands.rt`, `mk_tool/src/tests/usage.rt`, `mk_tool/src/tests/files.rt`,
//! `mk_tool/src/tests/in_place.rt`, `mk_tool/src/tests/journals.rt`, `mk_tool/src/tests/locks.rt`,
//! `mk_tool/src/tests/letters.rt`, `mk_tool/src/tests/prepends.rt`, `mk_tool/src/tests/section_fields.rt`,
//! `mk_tool/src/tests/mailboxes.rt`, `mk_tool/src/tests/replies.rt`, `mk_tool/src/tests/checks.rt`,
//! `mk_tool/src/tests/forwarded.rt`, `mk_tool/src/tests/faults.rt`, `mk_tool/src/tests/tips.rt`,
//! `mk_tool/src/tests/explained.rt`; the scripts in `checks/` on the built program.
#![tactic(auto)]

mod commands;
mod each;
mod editing;
mod endings;
mod explaining;
mod faults;
mod files;
mod labels;
mod mailboxes;
mod packing;
mod program;
mod seen;
mod tips;

pub use mk_run::{
    Folder, Journal, Status, laws, run_edit, run_extract, run_field, run_pack, run_sections, unpack,
};
use mk_system::{Input, Output, Placeholders, size_in};
use std::fs;
use std::process::ExitCode;

/// The standard input, as a file.
const STDIN: &str = "/dev/stdin";

fn main(rt: HostRuntime) -> ExitCode {
    let _closed = Placeholders::hold(&rt);
    let size = size_in(fs::metadata(&rt, STDIN));
    let mut input = Input::with_size(rt.stdin(), size);
    let mut out = Output::new(rt.stdout());
    let mut err = Output::new(rt.stderr());
    let ending = program::run(&rt, &mut input, &mut out, &mut err);
    ExitCode::from(ending.code())
}

#[cfg(test)]
mod tests;
