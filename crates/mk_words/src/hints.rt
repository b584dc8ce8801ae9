//! What to write in place of a word that a subcommand doesn't take.

ghost use Rattle.std.specs.Prelude.{◌≡◌, ◌++◌, ℕ, List, IfOk, IfSome};
ghost use Rattle.clap.specs.Values.{kind_of};

use crate::options::{EDIT, FIELD, PACK, REDO, UNDO, subcommand};
use clap::Error;
use clap::error::ErrorKind;
use std::alloc::{AllocError, Global};

/// What comes before and after the word when clap refuses one.
const BEFORE: &str = "unexpected argument '";

const AFTER: &str = "' found";

/// The option whose value needs an equals sign.
const WAIT_OPTION: &str = "--wait";

/// What a word with a colon is taken for.
const A_FIELD: &str = "to add a field, write a letter before it, such as -A";

/// What to write in place of formail's letters for answers.
const REPLY_HINT: &str = "to print the header of an answer, write 'mimetool reply'";

/// Letters of formail that `field` doesn't have, and what to write here.
const LETTERS: [(&str, &str); 13] = [
    ("-R", "to rename fields, write '--rename OLD:NEW'"),
    (
        "-c",
        "to print each value on one line, write '--unfold' with -x",
    ),
    (
        "-z",
        "'--unfold' with -x prints values without the blanks at both ends; no option removes empty fields",
    ),
    (
        "-k",
        "the body is always kept; to print it alone, write 'mimetool extract -s 1'",
    ),
    ("-r", REPLY_HINT),
    ("-t", REPLY_HINT),
    ("-l", "no log is written, so it isn't needed"),
    ("-b", "nothing is quoted, so it isn't needed"),
    ("-f", "no From-line is added, so it isn't needed"),
    ("-Y", "Content-Length isn't read, so it isn't needed"),
    (
        "-d",
        "a mailbox is cut only at From-lines, so it isn't needed",
    ),
    (
        "-e",
        "a message begins only after an empty line, so it isn't needed",
    ),
    ("-q", "mimetool prints no warnings, so it isn't needed"),
];

/// An error of clap's own form, with what to write in place of the word that clap refuses. `None` if that isn't known.
pub fn with_hint(alloc: Global, words: &[String], text: &str) -> Result<Option<Error>, AllocError>
    ensures { IfOk result (λ told. IfSome told (λ error. kind_of error ≡ ErrorKind.UnknownArgument)) }
{
    let Some(word) = refused(text) else {
        return Ok(None);
    };
    let Some(name) = words.get(1) else {
        return Ok(None);
    };
    let name = name.as_str();
    let waits = stands_after(words, WAIT_OPTION, word);
    let Some(hint) = hint(alloc, name, word, waits)? else {
        return Ok(None);
    };
    let path = format!(in alloc; "mimetool {name}")?;
    let sentence = format!(in alloc; "{BEFORE}{word}{AFTER}\n\n  tip: {hint}")?;
    let error = subcommand(alloc, name)?
        .bin_name(path.as_str())?
        .error(ErrorKind::UnknownArgument, sentence.as_str())?;
    Ok(Some(error))
}

/// What is said of a word that names no file, since none is read or replaced. The word may be meant as the value of `--wait`.
pub fn superfluous(alloc: Global, name: &str, word: &str, waits: bool) -> Result<String, AllocError>
    ensures { IfOk result (λ sentence. (tip : List ℕ) × (sentence.bytes.items ≡ BEFORE.now ++ (word.now ++ (AFTER.now ++ tip)))) }
{
    match hint(alloc, name, word, waits)? {
        Some(hint) => format!(in alloc; "{BEFORE}{word}{AFTER}\n\n  tip: {hint}"),
        None => format!(in alloc; "{BEFORE}{word}{AFTER}"),
    }
}

// The word that clap refuses.
fn refused(text: &str) -> Option<&str> {
    let (_, rest) = text.split_once(BEFORE)?;
    let (word, _) = rest.split_once(AFTER)?;
    Some(word)
}

// What to write in place of a word of a subcommand, which may be meant as the value of `--wait`.
fn hint(alloc: Global, name: &str, word: &str, waits: bool) -> Result<Option<String>, AllocError> {
    if word.starts_with('-') {
        let letter = LETTERS.iter().find(|row| name == FIELD && row.0 == word);
        return match letter {
            Some(row) => Ok(Some(String::from_str(alloc, row.1)?)),
            None => Ok(None),
        };
    }
    if name == PACK || name == EDIT {
        return Ok(None);
    }
    if waits {
        return Ok(Some(format!(in alloc; "to wait that many seconds, write '--wait={word}'")?));
    }
    if name == FIELD && word.contains(':') {
        return Ok(Some(String::from_str(alloc, A_FIELD)?));
    }
    if [UNDO, REDO, FIELD].contains(&name) {
        return Ok(Some(format!(in alloc;
            "to read the message from a file, write '--from {word}'; to edit the file itself, '--in-place {word}'"
        )?));
    }
    Ok(Some(format!(in alloc; "to read the message from a file, write '--from {word}'")?))
}

// Whether a word comes right after another one.
fn stands_after(words: &[String], first: &str, word: &str) -> bool {
    words
        .iter()
        .zip(words.iter().skip(1))
        .any(|pair| pair.0.as_str() == first && pair.1.as_str() == word)
}
