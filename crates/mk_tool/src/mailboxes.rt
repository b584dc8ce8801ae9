//! Mailboxes: their messages listed, written to files, or one of them in place of the input.

use crate::commands::WORKING_FOLDER;
use crate::faults::{Problem, usage};
use crate::seen::list_firsts;
use clap::ArgMatches;
use mk_asked::{from_lines, message_number, template};
use mk_mail::{FromLines, Sink, Source};
use mk_messages::{pick, report_missing, take_out, try_messages};
use mk_run::{Cause, Status, Stop};
use mk_split::{SplitOptions, Template, try_split};
use mk_system::Directory;
use mk_words::options::{
    BARE, DIR, JSON, MAILDIR, NUMBER, OVER, SILENT, TEMPLATE, UNIQUE, UNQUOTE,
};
use std::alloc::{AllocError, Global};
use std::fs::File;
use std::rt::{Clock, Files};
use std::time::{Duration, SystemTime, UNIX_EPOCH};

/// The message that a command works on.
#[derive(Drop)]
pub enum Picked {
    /// The whole input.
    Whole,
    /// One of a mailbox.
    Message(Vec<u8>),
    /// The mailbox has no message of that number, which was reported.
    Missing,
}

// mimetool messages
pub fn messages<S: Source, O: Sink, E: Sink>(
    alloc: Global,
    matches: &ArgMatches<'_>,
    input: &mut S,
    out: &mut O,
    err: &mut E,
) -> Result<Status, Problem> {
    if matches.get_flag(UNIQUE) {
        return list_firsts(alloc, matches, input, out, err);
    }
    let from_lines = from_lines(matches).unwrap_or(FromLines::Any);
    if matches.get_flag(JSON) {
        mk_json::try_messages(alloc, input, out, from_lines)?;
    } else {
        try_messages(alloc, input, out, from_lines)?;
    }
    Ok(Status::Well)
}

/// mimetool split
pub fn split<R: Files<File = File> + Clock + AllocGlobal, S: Source, O: Sink, E: Sink>(
    rt: &R,
    matches: &ArgMatches<'_>,
    input: &mut S,
    out: &mut O,
    err: &mut E,
) -> Result<Status, Problem> {
    let alloc = rt.alloc();
    let is_maildir = matches.get_flag(MAILDIR);
    let word = file_names(rt, matches)?;
    let Some(names) = Template::read(word.as_bytes()) else {
        return Ok(usage(err));
    };
    let options = SplitOptions {
        from_lines: from_lines(matches).unwrap_or(FromLines::Any),
        names: &names,
        over: matches.get_flag(OVER),
        silent: matches.get_flag(SILENT),
        bare: is_maildir || matches.get_flag(BARE),
        unquote: matches.get_flag(UNQUOTE),
    };
    let path = matches.get_str(DIR).unwrap_or(WORKING_FOLDER);
    let mut dir = if is_maildir {
        Directory::maildir(rt, path)
    } else {
        Directory::new(rt, path)
    };
    let done = try_split(alloc, input, out, err, &mut dir, &options);
    let unwritten = dir.close();
    match done {
        Ok(status) => Ok(status),
        Err(cause) => Err(Problem::in_folder(alloc, cause, path, unwritten)),
    }
}

// How the files are named. In a Maildir the name has the time to the microsecond, so that two runs rarely make the same one.
fn file_names<R: Clock + AllocGlobal>(
    rt: &R,
    matches: &ArgMatches<'_>,
) -> Result<String, AllocError> {
    if !matches.get_flag(MAILDIR) || matches.get_str(TEMPLATE).is_some() {
        return String::from_str(rt.alloc(), template(matches));
    }
    let now = time_now(rt);
    let (seconds, micros) = (now.as_secs(), now.subsec_micros());
    format!(in rt.alloc(); "{seconds}.M{micros}Q%d.mimetool")
}

// The time since 1970. A clock that is set before that has none.
fn time_now<R: Clock>(rt: &R) -> Duration {
    match SystemTime::now(rt) {
        Ok(now) => now.duration_since(UNIX_EPOCH).unwrap_or(Duration::ZERO),
        Err(_) => Duration::ZERO,
    }
}

/// Reads the message of `-n`, if the command line has one.
pub fn pick_message<S: Source, E: Sink>(
    alloc: Global,
    matches: &ArgMatches<'_>,
    input: &mut S,
    err: &mut E,
) -> Result<Picked, Problem> {
    let Some(word) = matches.get_str(NUMBER) else {
        return Ok(Picked::Whole);
    };
    let Some(number) = message_number(alloc, word)? else {
        return Ok(Picked::Missing);
    };
    match pick(
        alloc,
        input,
        from_lines(matches).unwrap_or(FromLines::Any),
        number,
    ) {
        Ok(Some(message)) => {
            let message = take_out(alloc, message, matches.get_flag(UNQUOTE))?;
            Ok(Picked::Message(message))
        }
        Ok(None) => match report_missing(alloc, err, number) {
            Ok(()) => Ok(Picked::Missing),
            Err(stop) => Err(stopped(stop, Cause::Write)),
        },
        Err(stop) => Err(stopped(stop, Cause::Read)),
    }
}

// A run that stopped, by this cause if a device failed.
fn stopped(stop: Stop, fault: Cause) -> Problem {
    match stop {
        Stop::Fault => Problem::Stopped(fault),
        Stop::Memory => Problem::Stopped(Cause::Memory),
    }
}
