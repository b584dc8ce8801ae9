//! The run that filters the fields of messages, or prints them, over any devices.
//!
//! ```
//! let mut words = LetterWords::none(alloc);
//! words.only = Some("A: 9");
//! let letters = words.letters(alloc)?.expect(&rt, "letters");
//! assert!(rt; letters.ok());
//! let mut input = Text::new(b"A: 1\nB: 2\nA: 3\n\nx\n", 100);
//! let (mut out, mut err) = (Page::new(alloc, 100)?, Page::new(alloc, 100)?);
//! let status = run_field(alloc, &mut input, &mut out, &mut err, &letters, false);
//! assert_eq!(rt; status, Status::Well);
//! assert_eq!(rt; out.bytes(), b"B: 2\nA: 9\n\nx\n".as_slice());
//! ```
//!
//! The example is run by `a_message_is_filtered` in `mk_run_tests/src/tests/examples.rt`. `Text` and `Page` are devices in
//! memory.
//!
//! Tests: `mk_run_tests/src/tests/filtered.rt`, `mk_run_tests/src/tests/rounds.rt`,
//! `mk_run_tests/src/tests/sections_filtered.rt`, `mk_run_tests/src/tests/wording.rt`; `mk_run_tests/src/tests/memory.rt`
//! where memory is refused; `mk_run_tests/src/tests/failing.rt` where devices fail.
#![tactic(auto)]

mod fields;
mod filtering;
mod filters;
mod giving;
mod headers;
mod telling;
pub mod word_laws;
mod wording;

pub use filtering::{filter_one, run_field, try_field};
pub use filters::{FieldFilter, Round, ValueForm, rounds};
pub use mk_letters::{
    FieldForm, Letter, LetterWord, LetterWords, RoundLetters, RoundWords, RuleFault, RuleKind,
    TextRule, letters_of_rounds, rounds_of_words,
};
pub use mk_wording::takes_words;
