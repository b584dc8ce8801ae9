//! Words of the command line that name files, and why some of them are refused.

use clap::ArgMatches;
use mk_words::hints::superfluous;
use mk_words::options::{
    EACH, FIELD, FILES, FROM, IDS, IN_PLACE, JOURNAL, LABEL, TAKE, WAIT, WHOLE,
};
use mk_words::waiting::seconds_in;
use std::alloc::{AllocError, Global};

/// What is said of `-H` if no file is named.
const NO_FILE: &str = "-H goes only with --from: it prints the name of the file before each line";

/// What is said of it if `field` prints messages.
const NO_LINES: &str =
    "-H goes only with -x or -X, whose lines it puts the name of the file before";

/// What is said of a journal beside several files.
const ONE_MESSAGE: &str = "-j goes with one file: a journal is that of one message";

/// What is said of `-D` beside `--in-place` where the file is one message.
const ALL_OR_NOTHING: &str =
    "-D goes with --in-place only where -s is there: a repeated message would leave an empty file";

/// Why the files of a subcommand are refused, if they are.
pub(crate) fn why_no_files(
    alloc: Global,
    name: &str,
    matches: &ArgMatches<'_>,
) -> Result<Option<String>, AllocError> {
    let is_named = matches.contains_id(FROM) || matches.contains_id(IN_PLACE);
    let waits = matches.contains_id(WAIT) && matches.get_str(WAIT).is_none();
    for word in matches.get_strs(FILES).unwrap_or(&[]) {
        let is_seconds = waits && seconds_in(*word).is_some();
        if is_seconds || !is_named {
            return Ok(Some(superfluous(alloc, name, *word, is_seconds)?));
        }
    }
    match why_not_so(name, matches, is_named) {
        Some(sentence) => Ok(Some(String::from_str(alloc, sentence)?)),
        None => Ok(None),
    }
}

// Why an option isn't for the files that are named, if one isn't.
fn why_not_so(name: &str, matches: &ArgMatches<'_>, is_named: bool) -> Option<&'static str> {
    let is_labelled = matches.get_flag(LABEL);
    if is_labelled && !is_named {
        Some(NO_FILE)
    } else if is_labelled && name == FIELD && !prints_lines(matches) {
        Some(NO_LINES)
    } else if matches.contains_id(JOURNAL) && has_several(matches) {
        Some(ONE_MESSAGE)
    } else if matches.contains_id(IDS) && matches.contains_id(IN_PLACE) && !matches.get_flag(EACH) {
        Some(ALL_OR_NOTHING)
    } else {
        None
    }
}

// Whether `field` prints fields, not messages.
fn prints_lines(matches: &ArgMatches<'_>) -> bool {
    matches.contains_id(TAKE) || matches.contains_id(WHOLE)
}

// Whether several files are named: words that stand alone come after one that an option names.
fn has_several(matches: &ArgMatches<'_>) -> bool {
    let id = if matches.contains_id(IN_PLACE) {
        IN_PLACE
    } else {
        FROM
    };
    let named = matches.get_strs(id).unwrap_or(&[]);
    let words = matches.get_strs(FILES).unwrap_or(&[]);
    named.len() > 1 || !words.is_empty()
}
