//! Letters and rules in the order of the command line, and their rounds.

ghost use Rattle.std.specs.Prelude.{◌≡◌, ◌++◌, None, Some, map, IfNone, IfOk, IfSome, OnOk};
ghost use Rattle.std.specs.List.{AllZip, Any};
ghost use Rattle.std.specs.Option.{option_map};
ghost use Rattle.mk_letters.specs.Asked.{words_of};
ghost use Rattle.mk_letters.specs.RoundsAsked.{IsInvalidRound, IsRoundAsked, is_given, round_begun, round_words, rounds_given, with_word, word_of, words_begun};

use crate::forms::FieldForm;
use crate::letters::LetterWords;
use mk_line::Ending;
use mk_mail::Letters;
use mk_texts::{RuleFault, TextRule, drop_rule, is_drop_rule, sub_rule};
use std::alloc::{AllocError, Global};

/// A letter of `field`.
#[derive(Clone, Copy, Debug, PartialEq, Eq)]
pub enum Letter {
    /// `--prepend`
    Prepend,
    /// `--drop`, which may be given again in a round
    Drops,
    /// `--keep`, which may be given again in a round
    Keeps,
    /// `--keep-only`, which may be given again in a round
    KeepsOnly,
    /// `--rename`
    Rename,
    /// `-a`
    AddIf,
    /// `-A`
    Add,
    /// `-i`
    Prefixed,
    /// `-I`
    Only,
    /// `-u`
    First,
    /// `-U`
    Last,
    /// `-x`
    Take,
    /// `-X`
    Whole,
    /// `--sub`, which is a round by itself
    Sub,
}

/// A letter, and the word after it.
#[derive(Clone, Copy, Debug)]
pub struct LetterWord<'a> {
    /// The letter.
    pub letter: Letter,
    /// Its word.
    pub word: &'a str,
}

impl LetterWord<'_> {
    ghost use Rattle.std.specs.Prelude.{◌≡◌};
    ghost use Rattle.mk_letters.specs.RoundsAsked.{rule_kind, word_of};

    /// The rule that it is, if it is one: `--sub`, or `--drop` of a pattern.
    pub fn rule_kind(&self) -> Option<RuleKind>
        ensures { result ≡ rule_kind (word_of self.now) }
    {
        match self.letter {
            Letter::Sub => Some(RuleKind::Substitution),
            Letter::Drops if is_drop_rule(self.word) => Some(RuleKind::Removal),
            _ => None,
        }
    }
}

/// A rule for the texts of fields.
#[derive(Clone, Copy, Debug, PartialEq, Eq)]
pub enum RuleKind {
    /// `--sub`: another text in the place of what matches.
    Substitution,
    /// `--drop` of a pattern: the fields in which it matches go.
    Removal,
}

impl RuleKind {
    ghost use Rattle.std.specs.Prelude.{◌≡◌, IfOk, IfErr};
    ghost use Rattle.mk_letters.specs.RoundsAsked.{rule_form};
    ghost use Rattle.mk_texts.specs.WordViews.{IsAsked, IsFaultIn};

    /// The rule that a word asks for, or the fault in it.
    pub fn rule(self, alloc: Global, word: &str) -> Result<Result<TextRule, RuleFault>, AllocError>
        ensures asked { IfOk result (λ rule. IfOk rule (IsAsked (rule_form self word.now))) }
        ensures refused { IfOk result (λ rule. IfErr rule (IsFaultIn (rule_form self word.now))) }
    {
        match self {
            RuleKind::Substitution => sub_rule(alloc, word),
            RuleKind::Removal => drop_rule(alloc, word),
        }
    }
}

/// The words of a round.
#[derive(Debug, Drop)]
pub enum RoundWords<'a> {
    /// Those of its letters.
    Letters(LetterWords<'a>),
    /// The word of a rule.
    Rule(RuleKind, &'a str),
}

/// The letters of a round in memory, or its rule.
#[derive(Drop)]
pub enum RoundLetters {
    /// Letters.
    Letters {
        /// The letters for a text whose lines end with LF.
        lf: Letters,
        /// Those for a text whose lines end with CR LF.
        crlf: Letters,
    },
    /// A rule.
    Rule(TextRule),
}

/// The rounds of letters and rules that are given in this order. A rule is a round by itself, and a letter that its round has
/// already begins another.
pub fn rounds_of_words<'a>(
    alloc: Global,
    words: &[LetterWord<'a>],
) -> Result<Vec<RoundWords<'a>>, AllocError>
    ensures { IfOk result (λ rounds. map round_words rounds.items ≡ rounds_given (map word_of words.now)) }
{
    let mut rounds = Vec::new(alloc);
    let mut round = None;
    for word in words {
        match word.rule_kind() {
            Some(kind) => {
                end_round(&mut rounds, &mut round)?;
                rounds.push(RoundWords::Rule(kind, word.word))?;
            }
            None => {
                if has_letter(&round, word.letter) {
                    end_round(&mut rounds, &mut round)?;
                }
                put_letter(alloc, &mut round, *word)?;
            }
        }
    }
    end_round(&mut rounds, &mut round)?;
    Ok(rounds)
}

// Ends the round of letters that has begun, if one has.
fn end_round<'a>(
    rounds: &mut Vec<RoundWords<'a>>,
    round: &mut Option<LetterWords<'a>>,
) -> Result<(), AllocError>
    ensures rounds { OnOk result (map round_words rounds.new.items ≡ map round_words rounds.old.items ++ round_begun (option_map words_of round.old)) }
    ensures none { OnOk result (option_map words_of round.new ≡ None) }
{
    match round.take() {
        Some(letters) => Ok(rounds.push(RoundWords::Letters(letters))?),
        None => Ok(()),
    }
}

// Whether the round of letters that has begun has one that it may have only once.
fn has_letter(round: &Option<LetterWords<'_>>, letter: Letter) -> bool
    ensures { result ≡ is_given letter (words_begun (option_map words_of round.now)) }
{
    match round {
        Some(letters) => letters.has(letter),
        None => false,
    }
}

// Puts a letter with its word into the round that has begun, or begins one with it.
fn put_letter<'a>(
    alloc: Global,
    round: &mut Option<LetterWords<'a>>,
    word: LetterWord<'a>,
) -> Result<(), AllocError>
    ensures { OnOk result (option_map words_of round.new ≡ Some (with_word (word_of word.entry) (words_begun (option_map words_of round.old)))) }
{
    let mut letters = match round.take() {
        Some(letters) => letters,
        None => LetterWords::none(alloc),
    };
    letters.put(word)?;
    *round = Some(letters);
    Ok(())
}

/// What the words of rounds ask for, with the fields that they add in a form. `None` if a name has no colon after it, or a rule
/// is refused.
pub fn letters_of_rounds(
    alloc: Global,
    rounds: &[RoundWords<'_>],
    form: FieldForm,
) -> Result<Option<Vec<RoundLetters>>, AllocError>
    ensures asked { IfOk result (λ all. IfSome all (λ letters. AllZip (IsRoundAsked form) rounds.now letters.items)) }
    ensures invalid { IfOk result (λ all. IfNone all (Any IsInvalidRound rounds.now)) }
{
    let mut all = Vec::new(alloc);
    for words in rounds {
        match words.letters(alloc, form)? {
            Some(letters) => all.push(letters)?,
            None => return Ok(None),
        }
    }
    Ok(Some(all))
}

impl RoundWords<'_> {
    ghost use Rattle.std.specs.Prelude.{IfOk, IfSome, IfNone};
    ghost use Rattle.mk_letters.specs.RoundsAsked.{IsInvalidRound, IsRoundAsked};

    // What they ask for. `None` if a name has no colon after it, or the rule is refused.
    fn letters(&self, alloc: Global, form: FieldForm) -> Result<Option<RoundLetters>, AllocError>
        ensures asked { IfOk result (λ round. IfSome round (IsRoundAsked form self.now)) }
        ensures invalid { IfOk result (λ round. IfNone round (IsInvalidRound self.now)) }
    {
        match self {
            RoundWords::Letters(words) => words.round(alloc, form),
            RoundWords::Rule(kind, word) => match kind.rule(alloc, word)? {
                Ok(rule) => Ok(Some(RoundLetters::Rule(rule))),
                Err(_) => Ok(None),
            },
        }
    }
}

impl<'a> LetterWords<'a> {
    ghost use Rattle.std.specs.Prelude.{◌≡◌, false, IfNone, IfOk, IfSome, OnOk};
    ghost use Rattle.mk_letters.specs.Asked.{have_colons as words_have_colons, words_of};
    ghost use Rattle.mk_letters.specs.RoundsAsked.{AreRoundLetters, is_given, no_words, with_word, word_of};

    /// No words.
    pub fn none(alloc: Global) -> LetterWords<'a>
        ensures { words_of result ≡ no_words }
    {
        LetterWords {
            prepend: None,
            drops: Vec::new(alloc),
            keeps: Vec::new(alloc),
            keep_only: false,
            rename: None,
            add_if: None,
            add: None,
            prefixed: None,
            only: None,
            first: None,
            last: None,
            take: None,
            whole: None,
        }
    }

    // Whether a letter that may be there only once is there already.
    fn has(&self, letter: Letter) -> bool
        ensures { result ≡ is_given letter (words_of self.now) }
    {
        match letter {
            Letter::Prepend => self.prepend.is_some(),
            Letter::Drops | Letter::Keeps | Letter::KeepsOnly | Letter::Sub => false,
            Letter::Rename => self.rename.is_some(),
            Letter::AddIf => self.add_if.is_some(),
            Letter::Add => self.add.is_some(),
            Letter::Prefixed => self.prefixed.is_some(),
            Letter::Only => self.only.is_some(),
            Letter::First => self.first.is_some(),
            Letter::Last => self.last.is_some(),
            Letter::Take => self.take.is_some(),
            Letter::Whole => self.whole.is_some(),
        }
    }

    /// Puts a letter with its word. `--sub`, which is a round by itself, changes nothing.
    pub fn put(&mut self, word: LetterWord<'a>) -> Result<(), AllocError>
        ensures { OnOk result (words_of self.new ≡ with_word (word_of word.entry) (words_of self.old)) }
    {
        match word.letter {
            Letter::Prepend => self.prepend = Some(word.word),
            Letter::Drops => self.drops.push(word.word)?,
            Letter::Keeps => self.keeps.push(word.word)?,
            Letter::KeepsOnly => {
                self.keeps.push(word.word)?;
                self.keep_only = true;
            }
            Letter::Rename => self.rename = Some(word.word),
            Letter::AddIf => self.add_if = Some(word.word),
            Letter::Add => self.add = Some(word.word),
            Letter::Prefixed => self.prefixed = Some(word.word),
            Letter::Only => self.only = Some(word.word),
            Letter::First => self.first = Some(word.word),
            Letter::Last => self.last = Some(word.word),
            Letter::Take => self.take = Some(word.word),
            Letter::Whole => self.whole = Some(word.word),
            Letter::Sub => {}
        }
        Ok(())
    }

    // The round that the words ask for. `None` if a name has no colon after it.
    fn round(&self, alloc: Global, form: FieldForm) -> Result<Option<RoundLetters>, AllocError>
        ensures asked { IfOk result (λ round. IfSome round (AreRoundLetters form (words_of self.now))) }
        ensures invalid { IfOk result (λ round. IfNone round (words_have_colons (words_of self.now) ≡ false)) }
    {
        let Some(lf) = self.letters_in(alloc, form, Ending::Lf)? else {
            return Ok(None);
        };
        let Some(crlf) = self.letters_in(alloc, form, Ending::Crlf)? else {
            return Ok(None);
        };
        Ok(Some(RoundLetters::Letters { lf, crlf }))
    }
}
