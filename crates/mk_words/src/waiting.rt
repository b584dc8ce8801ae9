//! How long a run waits for files that another run is using, and whether it asks to be tried again later.

ghost use Rattle.std.specs.Prelude.{◌≡◌, None, false, is_some, IfOk, IfSome, IsSomeAnd};
ghost use Rattle.std.specs.Duration.{as_nanos};
ghost use Rattle.std.specs.Str.Parse.{digits_value, without_leading_plus};
ghost use Rattle.clap.specs.Matches.{first_value, found_of, matched_of, one_text};

use crate::options::{EDIT, FIELD, REDO, TEMPFAIL, UNDO, WAIT};
use clap::ArgMatches;
use std::alloc::{AllocError, Global};
use std::time::Duration;

/// The limit that `--wait` gives: `None`, for as long as it takes, if it has no number.
pub fn limit(matches: &ArgMatches<'_>) -> Option<Duration>
    ensures unasked { is_some (matched_of (found_of matches.now) WAIT.now) ≡ false → IsSomeAnd result (λ limit. as_nanos limit ≡ 0) }
{
    if !matches.contains_id(WAIT) {
        return Some(Duration::from_secs(0));
    }
    let seconds = seconds_in(matches.get_str(WAIT)?)?;
    Some(Duration::from_secs(u64::from(seconds)))
}

/// The number of seconds that a word writes in decimal digits alone, if it does and the number is below 2^32.
pub fn seconds_in(word: &str) -> Option<u32>
    ensures value { IfSome result (λ seconds. seconds ≡ digits_value 10 (without_leading_plus word.now)) }
{
    if word.starts_with('+') {
        None
    } else {
        word.parse::<u32>().ok()
    }
}

/// Why the word of `--wait` isn't a number of seconds, if it has one that isn't.
pub fn why_no_seconds(alloc: Global, matches: &ArgMatches<'_>) -> Result<Option<String>, AllocError>
    ensures unasked { first_value (found_of matches.now) WAIT.now ≡ None → IfOk result (λ sentence. sentence ≡ None) }
{
    let Some(word) = matches.get_str(WAIT) else {
        return Ok(None);
    };
    if seconds_in(word).is_some() {
        return Ok(None);
    }
    let sentence = format!(in alloc;
        "invalid value '{word}' for '--wait[=<SECONDS>]': write a whole number of seconds, from 0 to 4294967295"
    )?;
    Ok(Some(sentence))
}

/// Whether `--tempfail` is there. Only the commands that may replace a file take it.
pub fn is_temporary(name: &str, matches: &ArgMatches<'_>) -> bool
    ensures unasked { one_text (found_of matches.now) TEMPFAIL.now ≡ None → result ≡ false }
{
    [EDIT, UNDO, REDO, FIELD].contains(&name) && matches.get_flag(TEMPFAIL)
}
