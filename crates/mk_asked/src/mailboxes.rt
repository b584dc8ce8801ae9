//! How a mailbox is cut, and which of its messages is meant.

ghost use Rattle.std.specs.Prelude.{◌<◌, IfOk, IfSome};

use clap::ArgMatches;
use mk_mailbox::FromLines;
use mk_script::numbers;
use mk_words::options::{MBOX, RFC4155};
use std::alloc::{AllocError, Global};

/// The number in a word: decimal, from 1 to 4,294,967,295, without zeros before it.
pub fn message_number(alloc: Global, word: &str) -> Result<Option<u32>, AllocError>
    ensures { IfOk result (λ number. IfSome number (λ n. 0 < n)) }
{
    match numbers(alloc, word.as_bytes())? {
        Some(path) => match path.as_slice() {
            [number] if *number > 0 => Ok(Some(*number)),
            _ => Ok(None),
        },
        None => Ok(None),
    }
}

/// Which From-lines begin a message. `None` where the word of `--mbox` names none.
pub fn from_lines(matches: &ArgMatches<'_>) -> Option<FromLines> {
    if matches.get_flag(RFC4155) {
        return Some(FromLines::Dated);
    }
    match matches.get_str(MBOX) {
        None | Some("any") => Some(FromLines::Any),
        Some("date") => Some(FromLines::Dated),
        Some("field") => Some(FromLines::Fielded),
        Some(_) => None,
    }
}
