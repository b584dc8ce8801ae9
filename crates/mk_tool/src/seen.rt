//! Messages that come again are left out: `field -D`, `messages --unique`.

use crate::faults::Problem;
use clap::ArgMatches;
use mk_asked::from_lines;
use mk_json::ObjectLine;
use mk_mail::{FromLines, Sink, Source};
use mk_messages::{MessageLine, PlainLine, try_each};
use mk_run::{Cause, FieldFilter, Status, Stop, filter_one, read_all, write_all};
use mk_seen::{FirstLines, FirstMessages, IdFile, ListedSoFar, with_lines};
use mk_system::{JournalFile, is_one_file};
use mk_words::options::{EACH, IN_PLACE, JSON};
use mk_words::waiting::limit;
use std::alloc::Global;
use std::fs::File;
use std::io;
use std::io::ErrorKind;
use std::rt::{Clock, Files};

/// What is said of a file of Message-IDs that is also the file of `--in-place`.
const OWN_IDS: &str = "the file of --in-place can't also be that of -D";

/// What is reported of a message that comes again.
const SEEN: &[u8] = b"message 1: Seen\n";

/// The number of a message that isn't one of a mailbox.
const ONLY: u64 = 1;

/// mimetool messages --unique
pub fn list_firsts<S: Source, O: Sink, E: Sink>(
    alloc: Global,
    matches: &ArgMatches<'_>,
    input: &mut S,
    out: &mut O,
    err: &mut E,
) -> Result<Status, Problem> {
    if matches.get_flag(JSON) {
        list_by(
            alloc,
            matches,
            input,
            out,
            err,
            &FirstLines { lines: ObjectLine },
        )
    } else {
        list_by(
            alloc,
            matches,
            input,
            out,
            err,
            &FirstLines { lines: PlainLine },
        )
    }
}

// Lists the messages that don't come again, by lines of a kind.
fn list_by<L: MessageLine, S: Source, O: Sink, E: Sink>(
    alloc: Global,
    matches: &ArgMatches<'_>,
    input: &mut S,
    out: &mut O,
    err: &mut E,
    work: &FirstLines<L>,
) -> Result<Status, Problem> {
    let from_lines = from_lines(matches).unwrap_or(FromLines::Any);
    let mut listed = ListedSoFar::new(alloc);
    let done = try_each(alloc, input, out, err, &mut listed, from_lines, work);
    Ok(done?)
}

/// mimetool field -D, with the file of Message-IDs at a path. It is written once all has gone out, if a message was new.
pub fn filter_firsts<R: Files<File = File> + Clock + AllocGlobal, S: Source, O: Sink, E: Sink>(
    rt: &R,
    matches: &ArgMatches<'_>,
    path: &str,
    input: &mut S,
    out: &mut O,
    err: &mut E,
    filter: &FieldFilter<'_>,
) -> Result<Status, Problem> {
    let alloc = rt.alloc();
    if let Some(file) = matches.get_str(IN_PLACE) {
        if is_one_file(rt, path, file) {
            let error = io::Error::new(ErrorKind::InvalidInput, OWN_IDS);
            return Err(Problem::file(alloc, path, error, Cause::Read));
        }
    }
    let (mut file, old) = match JournalFile::open(rt, path, limit(matches)) {
        Ok(opened) => opened,
        Err(error) => return Err(Problem::file(alloc, path, error, Cause::Read)),
    };
    let old = old.as_deref().unwrap_or(b"");
    let mut ids = IdFile::read(alloc, old)?;
    let said = if matches.get_flag(EACH) {
        say_each(alloc, matches, input, out, err, filter, &mut ids)
    } else {
        say_one(alloc, input, out, err, filter, &mut ids)
    };
    let done = match said {
        Ok(status) => match keep(alloc, &mut file, old, &ids.lines) {
            Ok(()) => Ok(status),
            Err(cause) => Err(cause),
        },
        Err(cause) => Err(cause),
    };
    let unwritten = file.close();
    match done {
        Ok(status) => Ok(status),
        Err(cause) => Err(Problem::from(cause).blamed(alloc, Cause::Write, path, unwritten)),
    }
}

// Filters the messages of a mailbox that don't come again.
fn say_each<S: Source, O: Sink, E: Sink>(
    alloc: Global,
    matches: &ArgMatches<'_>,
    input: &mut S,
    out: &mut O,
    err: &mut E,
    filter: &FieldFilter<'_>,
    ids: &mut IdFile,
) -> Result<Status, Cause> {
    let from_lines = from_lines(matches).unwrap_or(FromLines::Any);
    match FirstMessages::by(filter) {
        Some(work) => try_each(alloc, input, out, err, ids, from_lines, &work),
        None => Ok(Status::Usage),
    }
}

// Filters a message, or reports that it comes again.
fn say_one<S: Source, O: Sink, E: Sink>(
    alloc: Global,
    input: &mut S,
    out: &mut O,
    err: &mut E,
    filter: &FieldFilter<'_>,
    ids: &mut IdFile,
) -> Result<Status, Cause> {
    if !filter.ok() {
        return Ok(Status::Usage);
    }
    let message = match read_all(alloc, input) {
        Ok(message) => message,
        Err(Stop::Fault) => return Err(Cause::Read),
        Err(Stop::Memory) => return Err(Cause::Memory),
    };
    let said = match ids.see_message(alloc, &message) {
        Ok(true) => filter_one(alloc, filter, false, ONLY, message, out, err),
        Ok(false) => match write_all(err, SEEN) {
            Ok(()) => Ok(true),
            Err(_) => Err(Stop::Fault),
        },
        Err(_) => Err(Stop::Memory),
    };
    let refused = match said {
        Ok(refused) => refused,
        Err(Stop::Fault) => return Err(Cause::Write),
        Err(Stop::Memory) => return Err(Cause::Memory),
    };
    match out.finish() {
        Ok(()) if refused => Ok(Status::Refused),
        Ok(()) => Ok(Status::Well),
        Err(_) => Err(Cause::Write),
    }
}

// Adds lines to the file of Message-IDs, if there are any.
fn keep<J: Sink>(alloc: Global, file: &mut J, old: &[u8], lines: &[u8]) -> Result<(), Cause> {
    if lines.is_empty() {
        return Ok(());
    }
    let Ok(text) = with_lines(alloc, old, lines) else {
        return Err(Cause::Memory);
    };
    if write_all(file, &text).is_ok() && file.finish().is_ok() {
        Ok(())
    } else {
        Err(Cause::Write)
    }
}
