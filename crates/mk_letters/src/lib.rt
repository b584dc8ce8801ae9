//! The letters of `field` and its rules as words of the command line: their rounds, and the forms in which fields go into a
//! message.
//!
//! ```
//! let (letter, word) = (Letter::Only, "A: 9");
//! let rounds = rounds_of_words(alloc, &[LetterWord { letter, word }])?;
//! let form = FieldForm::default();
//! let made = letters_of_rounds(alloc, &rounds, form)?.expect(&rt, "letters");
//! assert!(rt; matches!(made.as_slice(), [RoundLetters::Letters { lf, .. }] if lf.ok()));
//! ```
//!
//! The example is run by `words_are_letters` in `mk_run_tests/src/tests/examples.rt`.
//!
//! Tests: `mk_run_tests/src/tests/letters.rt`, `mk_run_tests/src/tests/rounds.rt`.
#![tactic(auto)]

mod forms;
mod letters;
mod words;

pub use forms::FieldForm;
pub use letters::LetterWords;
pub use mk_texts::{RuleFault, TextRule};
pub use words::{
    Letter, LetterWord, RoundLetters, RoundWords, RuleKind, letters_of_rounds, rounds_of_words,
};
