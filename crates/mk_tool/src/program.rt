//! The program: from its command line to its exit status.

use crate::commands::run_command;
use crate::endings::Ending;
use crate::explaining::Explained;
use crate::faults::{Problem, report, say_usage, usage};
use crate::files::{named_files, open};
use crate::labels::{BEFORE_LINE, BEFORE_REPORT, Labelled};
use clap::ArgMatches;
use clap::error::ErrorKind;
use mk_asked::why_invalid;
use mk_mail::{Sink, Source};
use mk_run::{Cause, Status, give_up, write_all};
use mk_system::{EditedFile, Input, MaybePipe, size_in};
use mk_words::hints::with_hint;
use mk_words::options::{EXPLAIN, IN_PLACE, LABEL, command};
use mk_words::waiting::{is_temporary, limit};
use std::alloc::{AllocError, Global};
use std::fs::File;
use std::rt::{Clock, Env, Files};
use std::{env, io};

/// Does what the command line says, and answers how the program ends. A command line that isn't all text is a usage fault.
pub fn run<R: Env + Files<File = File> + Clock + AllocGlobal, S: Source, O: MaybePipe, E: Sink>(
    rt: &R,
    input: &mut S,
    out: &mut O,
    err: &mut E,
) -> Ending {
    match words(rt) {
        Ok(words) => obey(rt, &words, input, out, err),
        Err(error) => match error.kind() {
            io::ErrorKind::OutOfMemory => Ending::lasting(give_up(err, Cause::Memory)),
            _ => Ending::lasting(usage(err)),
        },
    }
}

// The words of the command line, the program's name first. It is an error if they aren't all text.
fn words<R: Env + AllocGlobal>(rt: &R) -> io::Result<Vec<String>> {
    let words = env::args(rt)?.collect(rt.alloc())?;
    Ok(words)
}

/// Does what these words say, the program's name first, and answers how the program ends. What clap says goes to the errors;
/// help and the version go to the output.
pub fn obey<R: Files<File = File> + Clock + AllocGlobal, S: Source, O: MaybePipe, E: Sink>(
    rt: &R,
    words: &[String],
    input: &mut S,
    out: &mut O,
    err: &mut E,
) -> Ending {
    let alloc = rt.alloc();
    let Ok(command) = command(alloc) else {
        return Ending::lasting(give_up(err, Cause::Memory));
    };
    match command.try_get_matches_from(words) {
        Ok(matches) => match matches.subcommand() {
            Some((name, matches)) => Ending {
                status: match start(rt, name, matches, input, out, err) {
                    Ok(status) => status,
                    Err(problem) => end(alloc, name, &problem, out, err),
                },
                is_temporary: is_temporary(name, matches),
            },
            None => Ending::lasting(usage(err)),
        },
        Err(error) => Ending::lasting(show(alloc, words, &error, out, err)),
    }
}

// Says why a subcommand isn't run to its end. Nothing is said of an output that nobody reads any more.
fn end<O: MaybePipe, E: Sink>(
    alloc: Global,
    name: &str,
    problem: &Problem,
    out: &O,
    err: &mut E,
) -> Status {
    match problem {
        Problem::Stopped(Cause::Write) if out.is_broken_pipe() => Status::Fault,
        _ => report(alloc, name, problem, err),
    }
}

// Writes what clap says: help or the version, or why it refuses the command line.
fn show<O: MaybePipe, E: Sink>(
    alloc: Global,
    words: &[String],
    error: &clap::Error,
    out: &mut O,
    err: &mut E,
) -> Status {
    if error.kind() == ErrorKind::OutOfMemory {
        return give_up(err, Cause::Memory);
    }
    let Ok(text) = format!(in alloc; "{error}") else {
        return give_up(err, Cause::Memory);
    };
    if error.use_stderr() {
        return refuse(alloc, words, error, text.as_str(), err);
    }
    if write_all(out, text.as_bytes()).is_ok() {
        Status::Well
    } else if out.is_broken_pipe() {
        Status::Fault
    } else {
        give_up(err, Cause::Write)
    }
}

// Writes why clap refuses the command line, and what to write in place of a word, if that is known.
fn refuse<E: Sink>(
    alloc: Global,
    words: &[String],
    error: &clap::Error,
    text: &str,
    err: &mut E,
) -> Status {
    let told = match error.kind() {
        ErrorKind::UnknownArgument => with_hint(alloc, words, text),
        _ => Ok(None),
    };
    match told {
        Ok(Some(error)) => say_usage(alloc, &error, err),
        Ok(None) => say_usage(alloc, error, err),
        Err(AllocError) => give_up(err, Cause::Memory),
    }
}

// Runs a subcommand on the files that it names, or on the standard input. All its words are looked at before a file is opened.
fn start<R: Files<File = File> + Clock + AllocGlobal, S: Source, O: Sink, E: Sink>(
    rt: &R,
    name: &str,
    matches: &ArgMatches<'_>,
    input: &mut S,
    out: &mut O,
    err: &mut E,
) -> Result<Status, Problem> {
    let alloc = rt.alloc();
    if let Some(sentence) = why_invalid(alloc, name, matches)? {
        return Err(Problem::Usage(sentence));
    }
    let paths = named_files(alloc, name, matches)?;
    if matches.get_flag(LABEL) || paths.len() > 1 {
        return run_files(rt, name, matches, &paths, out, err);
    }
    match paths.first() {
        Some(path) => run_file(rt, name, matches, *path, out, err),
        None => run_told(rt, name, matches, input, out, err),
    }
}

// Runs a subcommand on one file after another. A file that is refused, or can't be read or replaced, doesn't end the run, and the
// status is that of the worst. An output that fails ends it, and so does an invalid script or running out of memory.
fn run_files<R: Files<File = File> + Clock + AllocGlobal, O: Sink, E: Sink>(
    rt: &R,
    name: &str,
    matches: &ArgMatches<'_>,
    paths: &[&str],
    out: &mut O,
    err: &mut E,
) -> Result<Status, Problem> {
    let mut worst = Status::Well;
    for path in paths {
        let status = match run_labelled(rt, name, matches, *path, out, err) {
            Ok(status) => status,
            Err(problem) => {
                if !problem.is_of_file() {
                    return Err(problem);
                }
                report(rt.alloc(), name, &problem, err)
            }
        };
        match (status, worst) {
            (Status::Usage | Status::Memory, _) => return Ok(status),
            (Status::Well, _) | (_, Status::Fault) => {}
            (Status::Refused | Status::Fault, _) => worst = status,
        }
    }
    Ok(worst)
}

// Runs a subcommand on a file, whose name comes before what is reported, and with `-H` before each line.
fn run_labelled<R: Files<File = File> + Clock + AllocGlobal, O: Sink, E: Sink>(
    rt: &R,
    name: &str,
    matches: &ArgMatches<'_>,
    path: &str,
    out: &mut O,
    err: &mut E,
) -> Result<Status, Problem> {
    let mut err = Labelled::over(path, BEFORE_REPORT, err);
    if matches.get_flag(LABEL) {
        let mut out = Labelled::over(path, BEFORE_LINE, out);
        run_file(rt, name, matches, path, &mut out, &mut err)
    } else {
        run_file(rt, name, matches, path, out, &mut err)
    }
}

// Runs a subcommand on a file.
fn run_file<R: Files<File = File> + Clock + AllocGlobal, O: Sink, E: Sink>(
    rt: &R,
    name: &str,
    matches: &ArgMatches<'_>,
    path: &str,
    out: &mut O,
    err: &mut E,
) -> Result<Status, Problem> {
    if matches.contains_id(IN_PLACE) {
        run_in_place(rt, name, matches, path, err)
    } else {
        run_from(rt, name, matches, path, out, err)
    }
}

// Runs a subcommand, with its reasons in words if that is asked for.
fn run_told<R: Files<File = File> + Clock + AllocGlobal, S: Source, O: Sink, E: Sink>(
    rt: &R,
    name: &str,
    matches: &ArgMatches<'_>,
    input: &mut S,
    out: &mut O,
    err: &mut E,
) -> Result<Status, Problem> {
    if matches.get_flag(EXPLAIN) {
        let mut told = Explained::over(name, err);
        run_command(rt, name, matches, input, out, &mut told)
    } else {
        run_command(rt, name, matches, input, out, err)
    }
}

// Runs a subcommand on the message in a file, and puts the result in the place of the file.
fn run_in_place<R: Files<File = File> + Clock + AllocGlobal, E: Sink>(
    rt: &R,
    name: &str,
    matches: &ArgMatches<'_>,
    path: &str,
    err: &mut E,
) -> Result<Status, Problem> {
    let alloc = rt.alloc();
    let (mut edited, message) = match EditedFile::open(rt, path, limit(matches)) {
        Ok(opened) => opened,
        Err(error) => return Err(Problem::file(alloc, path, error, Cause::Read)),
    };
    let size = size_in(message.metadata());
    let mut input = Input::with_size(message, size);
    let done = run_told(rt, name, matches, &mut input, &mut edited, err);
    let (unread, unwritten) = (input.close(), edited.close());
    match done {
        Ok(status) => Ok(status),
        Err(problem) => Err(
            problem
                .blamed(alloc, Cause::Read, path, unread)
                .blamed(alloc, Cause::Write, path, unwritten),
        ),
    }
}

// Runs a subcommand on the message in a file.
fn run_from<R: Files<File = File> + Clock + AllocGlobal, O: Sink, E: Sink>(
    rt: &R,
    name: &str,
    matches: &ArgMatches<'_>,
    path: &str,
    out: &mut O,
    err: &mut E,
) -> Result<Status, Problem> {
    let message = open(rt, path)?;
    let size = size_in(message.metadata());
    let mut input = Input::with_size(message, size);
    let done = run_told(rt, name, matches, &mut input, out, err);
    let unread = input.close();
    match done {
        Ok(status) => Ok(status),
        Err(problem) => Err(problem.blamed(rt.alloc(), Cause::Read, path, unread)),
    }
}
