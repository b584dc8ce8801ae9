//! The runs of the program, over any devices: a message edited, listed, taken apart, packed and filtered.
//!
//! ```
//! let mut input = Text::new(b"A: b\n\nx\n", 100);
//! let (mut out, mut err) = (Page::new(alloc, 100)?, Page::new(alloc, 100)?);
//! let (mut kept, pieces) = (Page::new(alloc, 100)?, Vec::new(alloc));
//! let (script, journal) = (b"add 1 C: d\ndel 1 Z 1\n", Journal::Off);
//! let status = run_edit(
//!     alloc, &mut input, &mut out, &mut err, script, &pieces, journal, &mut kept,
//! );
//! assert_eq!(rt; status, Status::Refused);
//! assert_eq!(rt; out.bytes(), b"A: b\nC: d\n\nx\n".as_slice());
//! assert_eq!(rt; err.bytes(), b"line 2: NoSuchField\n".as_slice());
//! ```
//!
//! The example is run by `a_message_is_edited` in `mk_run_tests/src/tests/examples.rt`. `Text` and `Page` are devices in
//! memory.
//!
//! Tests: `mk_run_tests/src/tests.rt`, `mk_run_tests/src/tests/runs.rt`, `mk_run_tests/src/tests/journals.rt`,
//! `mk_run_tests/src/tests/as_one.rt`, `mk_run_tests/src/tests/hostile.rt`; `mk_run_tests/src/tests/memory.rt` where memory
//! is refused; `mk_run_tests/src/tests/failing.rt` where devices fail.
#![tactic(auto)]

mod engine;
mod journaling;
pub mod laws;
mod making;
mod report;
mod round_steps;
mod scripts;
mod steps;
mod work;

pub use engine::{run_edit, try_edit, try_field_in_journal};
pub use journaling::Journal;
pub use mk_expand::Pieces;
pub use mk_field::{
    FieldFilter, FieldForm, Letter, LetterWord, LetterWords, Round, RoundLetters, RoundWords,
    RuleFault, RuleKind, TextRule, ValueForm, filter_one, letters_of_rounds, rounds,
    rounds_of_words, run_field, takes_words, try_field, word_laws,
};
pub use mk_pack::{Spec, run_pack};
pub use mk_show::{
    Clash, Content, Folder, Manner, Portion, Report, UnpackOptions, read_doc, run_extract,
    run_sections, try_extract, try_extract_all, try_sections, try_unpack, unpack,
};
pub use mk_transfer::{Cause, Status, Stop, give_up, read_all, write_all};
pub use report::report_invalid;
pub use scripts::Script;
