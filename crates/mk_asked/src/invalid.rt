//! Words of the command line that clap takes as they are, and why some of them are refused.

use crate::files::why_no_files;
use crate::forms::template;
use crate::letters::{placed_words, why_no_values, why_refused};
use crate::mailboxes::{from_lines, message_number};
use clap::ArgMatches;
use mk_pack::Spec;
use mk_script::numbers;
use mk_split::Template;
use mk_words::options::{
    CHECK, EACH, EDIT, EXTRACT, FIELD, JSON, LINE, MBOX, MESSAGES, NUMBER, PACK, PART, PATH, REPLY,
    RFC4155, SCRIPT, SECTIONS, SPEC, SPLIT, UNPACK, UNQUOTE, UTF8,
};
use mk_words::waiting::why_no_seconds;
use std::alloc::{AllocError, Global};

/// What is said of an edit without lines.
const NO_SCRIPT: &str = "give a SCRIPT, or its lines, each with -e";

/// What is said of a plain listing with names in UTF-8.
const NO_JSON: &str = "--utf8 goes only with --json: the plain listing has no names";

/// What is said of marks if no message of a mailbox is read.
const NO_MARKS: &str = "it removes the > that a mailbox puts before lines";

/// What is said of the way a mailbox is cut if none is read.
const NO_CUTS: &str = "it says how a mailbox is cut";

/// The options that take a path, as help writes them.
const SECTION: &str = "-s <PATH>";

const SECTION_OF_FIELDS: &str = "-p <PATH>";

/// Why the words of a subcommand are refused, if they are. No file has to be opened for that, so such a fault comes before those
/// of files.
pub fn why_invalid(
    alloc: Global,
    name: &str,
    matches: &ArgMatches<'_>,
) -> Result<Option<String>, AllocError> {
    if let Some(sentence) = why_no_files(alloc, name, matches)? {
        return Ok(Some(sentence));
    }
    if let Some(sentence) = why_no_message(alloc, name, matches)? {
        return Ok(Some(sentence));
    }
    if let Some(sentence) = why_no_seconds(alloc, matches)? {
        return Ok(Some(sentence));
    }
    if name == EDIT {
        why_no_script(alloc, matches)
    } else if name == SECTIONS {
        why_no_names(alloc, matches)
    } else if name == EXTRACT || name == UNPACK {
        why_no_paths(alloc, matches)
    } else if name == PACK {
        why_no_parts(alloc, matches)
    } else if name == FIELD {
        why_no_field(alloc, matches)
    } else if name == SPLIT {
        why_no_template(alloc, matches)
    } else {
        Ok(None)
    }
}

// Why the word of `-n` isn't the number of a message, that of `--mbox` names no From-lines, or no mailbox is read with an option
// that says how it is cut.
fn why_no_message(
    alloc: Global,
    name: &str,
    matches: &ArgMatches<'_>,
) -> Result<Option<String>, AllocError> {
    if let Some(sentence) = why_no_cuts(alloc, matches)? {
        return Ok(Some(sentence));
    }
    if let Some(word) = matches.get_str(NUMBER) {
        if message_number(alloc, word)?.is_some() {
            return Ok(None);
        }
        let sentence = format!(in alloc;
            "invalid value '{word}' for '-n <N>': write the number of a message, from 1 to 4294967295"
        )?;
        return Ok(Some(sentence));
    }
    if name == MESSAGES || name == SPLIT || matches.get_flag(EACH) {
        return Ok(None);
    }
    let unquoted = matches.get_flag(UNQUOTE);
    let (option, reason) = if unquoted {
        ("--unquote", NO_MARKS)
    } else if matches.get_flag(RFC4155) {
        ("--rfc4155", NO_CUTS)
    } else if matches.get_str(MBOX).is_some() {
        ("--mbox", NO_CUTS)
    } else {
        return Ok(None);
    };
    let others = ways_to_read_a_mailbox(name, unquoted);
    let sentence = format!(in alloc; "{option} goes only with {others}: {reason}")?;
    Ok(Some(sentence))
}

// The options of a subcommand with which it reads a mailbox, as help writes them.
fn ways_to_read_a_mailbox(name: &str, unquoted: bool) -> &'static str {
    if name == FIELD {
        "-s"
    } else if name == REPLY || name == CHECK || (name == EDIT && unquoted) {
        "-n"
    } else {
        "-n or --each"
    }
}

// Why the word of `--mbox` names no From-lines, if it doesn't.
fn why_no_cuts(alloc: Global, matches: &ArgMatches<'_>) -> Result<Option<String>, AllocError> {
    let Some(word) = matches.get_str(MBOX) else {
        return Ok(None);
    };
    if from_lines(matches).is_some() {
        return Ok(None);
    }
    let sentence = format!(in alloc;
        "invalid value '{word}' for '--mbox <HOW>': write any, date or field"
    )?;
    Ok(Some(sentence))
}

// Why the letters of `field`, or the options with them, are refused, if they are.
fn why_no_field(alloc: Global, matches: &ArgMatches<'_>) -> Result<Option<String>, AllocError> {
    if let Some(word) = matches.get_str(PATH) {
        if let Some(sentence) = why_no_path(alloc, word, SECTION_OF_FIELDS)? {
            return Ok(Some(sentence));
        }
    }
    let words = placed_words(alloc, matches)?;
    match why_refused(alloc, &words)? {
        Some(sentence) => Ok(Some(sentence)),
        None => why_no_values(alloc, matches, &words),
    }
}

// Why the words of `edit` give no script, if they don't.
fn why_no_script(alloc: Global, matches: &ArgMatches<'_>) -> Result<Option<String>, AllocError> {
    if let Some(lines) = matches.get_strs(LINE) {
        return why_no_lines(alloc, lines);
    }
    if matches.get_str(SCRIPT).is_some() {
        return Ok(None);
    }
    Ok(Some(String::from_str(alloc, NO_SCRIPT)?))
}

// Why a word of `-e` isn't a line, if there is one that isn't.
fn why_no_lines(alloc: Global, lines: &[&str]) -> Result<Option<String>, AllocError> {
    for line in lines {
        if line.contains('\n') {
            let line = *line;
            let sentence = format!(in alloc;
                "invalid value {line:?} for '-e <LINE>': write one line, and use -e again for each further line"
            )?;
            return Ok(Some(sentence));
        }
    }
    Ok(None)
}

// Why `sections` gives no names, if it is asked for them in UTF-8 and doesn't.
fn why_no_names(alloc: Global, matches: &ArgMatches<'_>) -> Result<Option<String>, AllocError> {
    if !matches.get_flag(UTF8) || matches.get_flag(JSON) {
        return Ok(None);
    }
    Ok(Some(String::from_str(alloc, NO_JSON)?))
}

// Why a word isn't a path, if it isn't one.
fn why_no_path(alloc: Global, word: &str, option: &str) -> Result<Option<String>, AllocError> {
    if numbers(alloc, word.as_bytes())?.is_some() {
        return Ok(None);
    }
    let sentence = format!(in alloc;
        "invalid value '{word}' for '{option}': write numbers from 1 with dots between them, such as 1.2"
    )?;
    Ok(Some(sentence))
}

// Why a word of `-s` isn't a path, if there is one that isn't.
fn why_no_paths(alloc: Global, matches: &ArgMatches<'_>) -> Result<Option<String>, AllocError> {
    for word in matches.get_strs(PATH).unwrap_or(&[]) {
        if let Some(sentence) = why_no_path(alloc, *word, SECTION)? {
            return Ok(Some(sentence));
        }
    }
    Ok(None)
}

// Why the word of `--name` is no template, if it isn't one.
fn why_no_template(alloc: Global, matches: &ArgMatches<'_>) -> Result<Option<String>, AllocError> {
    let word = template(matches);
    if Template::read(word.as_bytes()).is_some() {
        return Ok(None);
    }
    let sentence = format!(in alloc;
        "invalid value '{word}' for '--name <TEMPLATE>': write the name of a file in ASCII, with one %d or %04d for the number"
    )?;
    Ok(Some(sentence))
}

// Why a word of `pack` isn't a part, if there is one that isn't.
fn why_no_parts(alloc: Global, matches: &ArgMatches<'_>) -> Result<Option<String>, AllocError> {
    if let Some(word) = matches.get_str(PART) {
        return why_no_part(alloc, word, "--part <SPEC>");
    }
    for word in matches.get_strs(SPEC).unwrap_or(&[]) {
        if let Some(sentence) = why_no_part(alloc, *word, "<SPEC>...")? {
            return Ok(Some(sentence));
        }
    }
    Ok(None)
}

// Why a word isn't a part, if it isn't one.
fn why_no_part(alloc: Global, word: &str, option: &str) -> Result<Option<String>, AllocError> {
    if !word.is_empty() {
        return Ok(None);
    }
    let sentence = format!(in alloc;
        "invalid value '' for '{option}': write FILE or TYPE:FILE, such as image/gif:dot.gif"
    )?;
    Ok(Some(sentence))
}
