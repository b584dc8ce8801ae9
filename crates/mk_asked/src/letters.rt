//! Letters as the command line gives them.

ghost use Rattle.std.specs.Prelude.{◌≡◌, ◌++◌, map, IfOk, OnOk};
ghost use Rattle.clap.specs.Matches.{found_of};
ghost use Rattle.mk_letters.specs.RoundsAsked.{word_of};
ghost use Rattle.mk_asked.specs.Found.{AreInOrder, letter_found, letters_found, words_placed};
ghost use Rattle.mk_asked.specs.inner.Placed.{placed_word};

use clap::ArgMatches;
use mk_field::{Letter, LetterWord, LetterWords, RuleFault, RuleKind, takes_words};
use mk_words::options::{
    ADD, ADD_IF, ADDRESSES, DECODE, DROP, ENCODE, EOL, FIRST, KEEP, KEEP_ONLY, LAST, ONLY,
    PREFIXED, PREPEND, RENAME, SUB, TAKE, UNFOLD, WHOLE,
};
use std::alloc::{AllocError, Global};

/// The letters with their words, in the order of the command line.
pub fn letter_words<'a>(
    alloc: Global,
    matches: &'a ArgMatches<'_>,
) -> Result<Vec<LetterWord<'a>>, AllocError>
    ensures { IfOk result (λ words. AreInOrder (letters_found (found_of matches.now)) (map word_of words.items)) }
{
    let mut placed = placed_words(alloc, matches)?;
    placed.sort_by_key(|placed| placed.0)?;
    without_places(alloc, &placed)
}

// Words without their places.
fn without_places<'a>(
    alloc: Global,
    placed: &[(usize, LetterWord<'a>)],
) -> Result<Vec<LetterWord<'a>>, AllocError>
    ensures { IfOk result (λ words. words.items ≡ map (λ p. p.1) placed.now) }
{
    placed.iter().map(|placed| placed.1).collect(alloc)
}

/// The words of all letters with their places on the command line, letter by letter.
pub(crate) fn placed_words<'a>(
    alloc: Global,
    matches: &'a ArgMatches<'_>,
) -> Result<Vec<(usize, LetterWord<'a>)>, AllocError>
    ensures { IfOk result (λ placed. map placed_word placed.items ≡ letters_found (found_of matches.now)) }
{
    let mut placed = Vec::new(alloc);
    place(&mut placed, matches, Letter::Prepend, PREPEND)?;
    place(&mut placed, matches, Letter::Drops, DROP)?;
    place(&mut placed, matches, Letter::Keeps, KEEP)?;
    place(&mut placed, matches, Letter::KeepsOnly, KEEP_ONLY)?;
    place(&mut placed, matches, Letter::Rename, RENAME)?;
    place(&mut placed, matches, Letter::AddIf, ADD_IF)?;
    place(&mut placed, matches, Letter::Add, ADD)?;
    place(&mut placed, matches, Letter::Prefixed, PREFIXED)?;
    place(&mut placed, matches, Letter::Only, ONLY)?;
    place(&mut placed, matches, Letter::First, FIRST)?;
    place(&mut placed, matches, Letter::Last, LAST)?;
    place(&mut placed, matches, Letter::Take, TAKE)?;
    place(&mut placed, matches, Letter::Whole, WHOLE)?;
    place(&mut placed, matches, Letter::Sub, SUB)?;
    Ok(placed)
}

// Adds the words that an option takes, each with its letter and its place.
fn place<'a>(
    placed: &mut Vec<(usize, LetterWord<'a>)>,
    matches: &'a ArgMatches<'_>,
    letter: Letter,
    option: &str,
) -> Result<(), AllocError>
    ensures { OnOk result (map placed_word placed.new.items ≡ map placed_word placed.old.items ++ letter_found (found_of matches.now) letter option.now) }
{
    match matches.get_strs(option) {
        Some(words) => {
            let places = matches.indices_of(option).unwrap_or(&[]);
            place_each(placed, letter, words, places)
        }
        None => Ok(()),
    }
}

// Adds words of a letter, each with its place.
fn place_each<'a>(
    placed: &mut Vec<(usize, LetterWord<'a>)>,
    letter: Letter,
    words: &[&'a str],
    places: &[usize],
) -> Result<(), AllocError>
    ensures { OnOk result (map placed_word placed.new.items ≡ map placed_word placed.old.items ++ words_placed letter (map (λ s. s.now) words.now) places.now) }
{
    let mut places = places.iter();
    for word in words {
        let place = places.next().copied().unwrap_or(0);
        placed.push((
            place,
            LetterWord {
                letter,
                word: *word,
            },
        ))?;
    }
    Ok(())
}

/// What a letter takes.
const A_TEXT: &str = "write a name, a colon and a text on one line, such as 'Subject:[list] '";

const A_PAIR: &str = "write two names with a colon between them, such as Subject:X-Subject";

const A_FIELD: &str = "write a name, a colon and a value, such as 'X-Seen: yes'";

const A_FIELD_OR_NAME: &str =
    "write a name, a colon and a value, such as 'X-Seen: yes', or a name and a colon alone, such as X-Seen:";

const A_NAME: &str = "write a name and a colon, such as Subject:";

const A_NAME_OR_FRONT: &str =
    "write a name and a colon, such as Subject:, or with an asterisk before the colon, such as X-*:";

const A_NAME_FRONT_OR_PATTERN: &str =
    "write a name and a colon, such as Subject:, or with an asterisk before the colon, such as X-*:, or with a pattern after it, such as 'Subject:~^Re: '";

const A_SUBSTITUTION: &str =
    "write a name, a colon and a substitution, such as 'Subject:s/^Re: //', with g and i after it for each match and for both cases";

const REFUSED_PATTERN: &str = "the pattern is invalid";

const APART: &str = "-x and -X print fields, so neither goes with another letter";

/// What the options on values have to be given with.
const UNFOLD_ALONE: &str = "--unfold is for the values that -x prints";

const DECODE_ALONE: &str = "--decode is for the values that -x prints";

const ADDRESSES_ALONE: &str = "--addresses is for the values that -x prints";

const STRUCTURED: &str =
    "in such a field --encode only encodes names, comments and parameters; all else has to be ASCII, as in 'From: Jörg <j@example.org>'";

const ENCODE_ALONE: &str = "--encode is for the fields of -a, -A, -i and -I";

const EOL_ALONE: &str = "--eol is for the fields of -a, -A, -i and -I";

/// Why letters are refused, if they are: the first whose word it doesn't take, or that they can't be used together.
pub(crate) fn why_refused(
    alloc: Global,
    words: &[(usize, LetterWord<'_>)],
) -> Result<Option<String>, AllocError> {
    for (_, word) in words {
        if let Some(sentence) = why_not_taken(alloc, *word)? {
            return Ok(Some(sentence));
        }
    }
    let gives_some = words.iter().any(|word| gives(word.1.letter));
    if gives_some && !are_of_one_letter(words) {
        return Ok(Some(String::from_str(alloc, APART)?));
    }
    Ok(None)
}

/// Why an option on values is refused, if one is: it has no letter to work on.
pub(crate) fn why_no_values(
    alloc: Global,
    matches: &ArgMatches<'_>,
    words: &[(usize, LetterWord<'_>)],
) -> Result<Option<String>, AllocError> {
    let takes = matches.contains_id(TAKE);
    if matches.get_flag(UNFOLD) && !takes {
        return Ok(Some(String::from_str(alloc, UNFOLD_ALONE)?));
    }
    if matches.get_flag(DECODE) && !takes {
        return Ok(Some(String::from_str(alloc, DECODE_ALONE)?));
    }
    if matches.get_flag(ADDRESSES) && !takes {
        return Ok(Some(String::from_str(alloc, ADDRESSES_ALONE)?));
    }
    let adds_some = words.iter().any(|word| adds(word.1.letter));
    if matches.get_flag(ENCODE) && !adds_some {
        return Ok(Some(String::from_str(alloc, ENCODE_ALONE)?));
    }
    if matches.get_flag(EOL) && !adds_some {
        return Ok(Some(String::from_str(alloc, EOL_ALONE)?));
    }
    if matches.get_flag(ENCODE) {
        why_no_words(alloc, words)
    } else {
        Ok(None)
    }
}

// Why a field isn't written in encoded words, if one isn't: it would need one where none may be, as in an address.
fn why_no_words(
    alloc: Global,
    words: &[(usize, LetterWord<'_>)],
) -> Result<Option<String>, AllocError> {
    for (_, word) in words {
        if adds(word.letter) && !takes_words(alloc, word.word.as_bytes())? {
            let (letter, _) = shown(word.letter);
            let word = word.word;
            let sentence = format!(in alloc;
                "invalid value '{word}' for '{letter}': {STRUCTURED}"
            )?;
            return Ok(Some(sentence));
        }
    }
    Ok(None)
}

// Whether words come after one letter, which may be given again.
fn are_of_one_letter(words: &[(usize, LetterWord<'_>)]) -> bool {
    match words {
        [first, others @ ..] => others.iter().all(|word| word.1.letter == first.1.letter),
        [] => true,
    }
}

// Whether a letter prints fields.
fn gives(letter: Letter) -> bool {
    matches!(letter, Letter::Take | Letter::Whole)
}

// Whether a letter takes a field.
fn adds(letter: Letter) -> bool {
    matches!(
        letter,
        Letter::AddIf | Letter::Add | Letter::Prefixed | Letter::Only
    )
}

// Why a letter doesn't take its word, if it doesn't.
fn why_not_taken(alloc: Global, word: LetterWord<'_>) -> Result<Option<String>, AllocError> {
    if let Some(kind) = word.rule_kind() {
        return why_no_rule(alloc, kind, word);
    }
    if is_taken(alloc, word)? {
        return Ok(None);
    }
    let (letter, takes) = shown(word.letter);
    Ok(Some(invalid_value(alloc, word, letter, takes)?))
}

// Why a word isn't a rule, if it isn't: it hasn't the form of one, or its pattern is refused.
fn why_no_rule(
    alloc: Global,
    kind: RuleKind,
    word: LetterWord<'_>,
) -> Result<Option<String>, AllocError> {
    let (letter, takes) = shown(word.letter);
    match kind.rule(alloc, word.word)? {
        Ok(_) => Ok(None),
        Err(RuleFault::Form) => Ok(Some(invalid_value(alloc, word, letter, takes)?)),
        Err(RuleFault::Pattern(fault)) => {
            let why = format!(in alloc; "{REFUSED_PATTERN}: {fault}")?;
            Ok(Some(invalid_value(alloc, word, letter, &why)?))
        }
    }
}

// The sentence that refuses a word.
fn invalid_value(
    alloc: Global,
    word: LetterWord<'_>,
    letter: &str,
    why: &str,
) -> Result<String, AllocError> {
    let word = word.word;
    format!(in alloc; "invalid value '{word}' for '{letter}': {why}")
}

// Whether a letter takes its word.
fn is_taken(alloc: Global, word: LetterWord<'_>) -> Result<bool, AllocError> {
    let mut words = LetterWords::none(alloc);
    words.put(word)?;
    match words.letters(alloc)? {
        Some(letters) => Ok(letters.ok()),
        None => Ok(false),
    }
}

// A letter as help writes it, and what it takes.
fn shown(letter: Letter) -> (&'static str, &'static str) {
    match letter {
        Letter::Prepend => ("--prepend <NAME:TEXT>", A_TEXT),
        Letter::Drops => ("--drop <NAME:>", A_NAME_FRONT_OR_PATTERN),
        Letter::Keeps => ("--keep <NAME:>", A_NAME_OR_FRONT),
        Letter::KeepsOnly => ("--keep-only <NAME:>", A_NAME_OR_FRONT),
        Letter::Rename => ("--rename <OLD:NEW>", A_PAIR),
        Letter::AddIf => ("-a <FIELD>", A_FIELD),
        Letter::Add => ("-A <FIELD>", A_FIELD),
        Letter::Prefixed => ("-i <FIELD>", A_FIELD_OR_NAME),
        Letter::Only => ("-I <FIELD>", A_FIELD_OR_NAME),
        Letter::First => ("-u <NAME:>", A_NAME),
        Letter::Last => ("-U <NAME:>", A_NAME),
        Letter::Take => ("-x <NAME:>", A_NAME),
        Letter::Whole => ("-X <NAME:>", A_NAME),
        Letter::Sub => ("--sub <NAME:s/OLD/NEW/>", A_SUBSTITUTION),
    }
}
