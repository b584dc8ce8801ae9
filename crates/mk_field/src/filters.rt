//! What a run that filters fields is asked for.

ghost use Rattle.std.specs.Prelude.{◌≡◌, map, IfOk};
ghost use Rattle.std.specs.List.{list_all, list_any};
ghost use Rattle.mk_mail.specs.LetterViews.{letters_of};
ghost use Rattle.mk_mail.specs.Rounds.{letters_by_ending};
ghost use Rattle.mk_field.specs.Filtering.{ask as do_ask};
ghost use Rattle.mk_letters.specs.RoundsAsked.{round_letters};
ghost use Rattle.mk_field.specs.FilterViews.{ask_alone as do_ask_alone, is_round, round_asks, round_asks_always, round_of};

use mk_edit::Edit;
use mk_letters::RoundLetters;
use mk_line::{Ending, eol_of};
use mk_mail::{FromLines, Letters, field_edits_at};
use mk_texts::TextRule;
use mk_tree::Doc;
use std::alloc::{AllocError, Global};

/// How `-x` prints the values of fields.
#[derive(Clone, Copy, Debug, Default, PartialEq, Eq)]
pub enum ValueForm {
    /// All that follows the colon, byte for byte.
    #[default]
    AsWritten,
    /// A line for each: the value on one line, without the blanks at both ends (RFC 5322, 2.2.3).
    Unfolded,
    /// A line for each: the same of the value with its encoded words decoded (RFC 2047). A word that stands for half a
    /// character of UTF-8, without the other half, stays.
    Decoded,
    /// A line for each address in it, without names and comments (RFC 5322, 3.4).
    Addresses,
}

/// One round: letters, or a rule for the texts of fields.
#[derive(Clone, Copy)]
pub enum Round<'a> {
    /// Letters. They may depend on how the lines of a text end, since a field that they add may have more than one line.
    Letters {
        /// The letters for a text whose lines end with LF.
        lf: &'a Letters,
        /// Those for a text whose lines end with CR LF.
        crlf: &'a Letters,
    },
    /// A rule.
    Rule(&'a TextRule),
}

impl<'a> Round<'a> {
    ghost use Rattle.std.specs.Prelude.{◌≡◌, map, true, IfOk};
    ghost use Rattle.std.specs.Option.{option_map};
    ghost use Rattle.mk_decide.specs.Views.{edit_of};
    ghost use Rattle.mk_mail.specs.LetterViews.{letters_of};
    ghost use Rattle.mk_mail.specs.Rounds.{letters_for as are_for, round_edits, round_of_letters};
    ghost use Rattle.mk_field.specs.FilterViews.{is_round, round_asks, round_asks_always, round_of};

    /// The same letters for each text.
    pub fn new(letters: &'a Letters) -> Round<'a>
        ensures { round_of result ≡ round_of_letters (letters_of letters.now) }
    {
        Round::Letters {
            lf: letters,
            crlf: letters,
        }
    }

    /// The letters for a text, by how its lines end. `None` if it is a rule.
    pub fn letters_for(&self, text: &[u8]) -> Option<&'a Letters>
        ensures { option_map (λ l. letters_of l.now) result ≡ are_for (round_of self.now) text.now }
    {
        match self {
            Round::Letters { lf, crlf } => Some(by_ending(lf, crlf, text)),
            Round::Rule(_) => None,
        }
    }

    /// The edits of the round on the fields of the section at a path. If there is no such section, there are no fields in it.
    pub fn edits_at(&self, alloc: Global, doc: &Doc, path: &[u32]) -> Result<Vec<Edit>, AllocError>
        requires { is_round (round_of self.now) ≡ true }
        ensures { IfOk result (λ edits. map edit_of edits.items ≡ round_edits path.now doc.now (round_of self.now)) }
    {
        match self {
            Round::Letters { lf, crlf } => {
                field_edits_at(alloc, doc, path, by_ending(lf, crlf, doc.text()))
            }
            Round::Rule(rule) => rule.edits(alloc, doc, path, eol_of(doc.text())),
        }
    }

    // Whether its letters may be asked for.
    fn ok(&self) -> bool
        ensures { result ≡ is_round (round_of self.now) }
    {
        match self {
            Round::Letters { lf, crlf } => lf.ok() && crlf.ok(),
            Round::Rule(_) => true,
        }
    }

    // Whether it asks for fields.
    fn asks(&self) -> bool
        ensures { result ≡ round_asks (round_of self.now) }
    {
        match self {
            Round::Letters { lf, crlf } => ask(lf) || ask(crlf),
            Round::Rule(_) => false,
        }
    }

    // Whether it asks for fields of each text.
    fn asks_always(&self) -> bool
        ensures { result ≡ round_asks_always (round_of self.now) }
    {
        match self {
            Round::Letters { lf, crlf } => ask(lf) && ask(crlf),
            Round::Rule(_) => false,
        }
    }
}

// Those of two letters that are for a text.
fn by_ending<'a>(lf: &'a Letters, crlf: &'a Letters, text: &[u8]) -> &'a Letters
    ensures { letters_of result.now ≡ letters_by_ending (letters_of lf.now) (letters_of crlf.now) text.now }
{
    match eol_of(text) {
        Ending::Crlf => crlf,
        Ending::Lf | Ending::Missing => lf,
    }
}

/// The rounds of these letters and rules.
pub fn rounds<'a>(alloc: Global, letters: &'a [RoundLetters]) -> Result<Vec<Round<'a>>, AllocError>
    ensures { IfOk result (λ rounds. map round_of rounds.items ≡ map round_letters letters.now) }
{
    let mut rounds = Vec::new(alloc);
    for round in letters {
        rounds.push(round_with(round))?;
    }
    Ok(rounds)
}

// The round of letters or of a rule.
fn round_with(round: &RoundLetters) -> Round<'_>
    ensures { round_of result ≡ round_letters round.now }
{
    match round {
        RoundLetters::Letters { lf, crlf } => Round::Letters { lf, crlf },
        RoundLetters::Rule(rule) => Round::Rule(rule),
    }
}

/// Whether letters ask for fields.
pub(crate) fn ask(letters: &Letters) -> bool
    ensures { result ≡ do_ask (letters_of letters.now) }
{
    letters.take.is_some() || letters.whole.is_some()
}

/// The path of the root.
pub(crate) const ROOT: &[u32] = &[1];

/// What a run that filters fields is asked for.
#[derive(Clone, Copy)]
pub struct FieldFilter<'a> {
    /// The rounds, each of which works on what the one before it left. Where one of several asks for fields, all have to.
    pub rounds: &'a [Round<'a>],
    /// How `-x` prints values.
    pub form: ValueForm,
    /// Which From-lines begin the messages of a mailbox. With `Dated` a message of empty lines alone is left as it is, and
    /// nothing of it is given.
    pub from_lines: FromLines,
    /// The section of each message whose fields they are. A message that has no such section is refused. Below the root of a
    /// message of a mailbox, edits are refused after which another text than this message would be cut from it.
    pub path: &'a [u32],
}

impl<'a> FieldFilter<'a> {
    ghost use Rattle.std.specs.Prelude.{◌≡◌, map};
    ghost use Rattle.mk_field.specs.FilterViews.{filter_of, is_allowed, round_of};
    ghost use Rattle.mk_field.specs.Filtering.{of_rounds};

    /// These rounds for each message, at its root.
    pub fn new(rounds: &'a [Round<'a>]) -> FieldFilter<'a>
        ensures { filter_of result ≡ of_rounds (map round_of rounds.now) }
    {
        FieldFilter {
            rounds,
            form: ValueForm::AsWritten,
            from_lines: FromLines::Any,
            path: ROOT,
        }
    }

    /// Whether it may be asked for.
    pub fn ok(&self) -> bool
        ensures { result ≡ is_allowed (filter_of self.now) }
    {
        are_rounds(self.rounds) && ask_alone(self.rounds)
    }
}

// Whether the letters of each round may be asked for.
fn are_rounds(rounds: &[Round<'_>]) -> bool
    ensures { result ≡ list_all is_round (map round_of rounds.now) }
{
    for round in rounds {
        if !round.ok() {
            return false;
        }
    }
    true
}

// Whether no round edits beside one that asks for fields.
fn ask_alone(rounds: &[Round<'_>]) -> bool
    ensures { result ≡ do_ask_alone (map round_of rounds.now) }
{
    rounds.len() < 2 || !some_ask(rounds) || all_ask(rounds)
}

// Whether a round asks for fields.
fn some_ask(rounds: &[Round<'_>]) -> bool
    ensures { result ≡ list_any round_asks (map round_of rounds.now) }
{
    for round in rounds {
        if round.asks() {
            return true;
        }
    }
    false
}

// Whether each round asks for fields of each text.
fn all_ask(rounds: &[Round<'_>]) -> bool
    ensures { result ≡ list_all round_asks_always (map round_of rounds.now) }
{
    for round in rounds {
        if !round.asks_always() {
            return false;
        }
    }
    true
}
