//! `--each`: the messages of a mailbox in turn.

use crate::commands::WORKING_FOLDER;
use crate::faults::{Problem, usage};
use clap::ArgMatches;
use mk_asked::{from_lines, name_form, paths, portion, unpack_options};
use mk_each::{Extracting, MailboxEdit, MessageWork, SectionLines, Unpacked, Unpacking, try_each};
use mk_json::SectionObjects;
use mk_mail::{FromLines, Sink, Source};
use mk_run::{Pieces, Script, Status};
use mk_system::Directory;
use mk_words::options::{DIR, EOL, EXTRACT, JSON, PATH, UNQUOTE};
use std::alloc::Global;
use std::fs::File;
use std::rt::Files;

/// Runs a subcommand that shows messages on each of a mailbox.
pub fn show_each<S: Source, O: Sink, E: Sink>(
    alloc: Global,
    name: &str,
    matches: &ArgMatches<'_>,
    input: &mut S,
    out: &mut O,
    err: &mut E,
) -> Result<Status, Problem> {
    let unquote = matches.get_flag(UNQUOTE);
    if name == EXTRACT {
        return extract_each(alloc, matches, input, out, err);
    }
    if matches.get_flag(JSON) {
        let form = name_form(matches);
        let work = SectionObjects { form, unquote };
        work_on_each(alloc, matches, input, out, err, &work)
    } else {
        work_on_each(alloc, matches, input, out, err, &SectionLines { unquote })
    }
}

/// mimetool unpack --each
pub fn unpack_each<R: Files<File = File> + AllocGlobal, S: Source, O: Sink, E: Sink>(
    rt: &R,
    matches: &ArgMatches<'_>,
    input: &mut S,
    out: &mut O,
    err: &mut E,
) -> Result<Status, Problem> {
    let alloc = rt.alloc();
    let path = matches.get_str(DIR).unwrap_or(WORKING_FOLDER);
    let Some(sections) = paths(alloc, matches.get_strs(PATH).unwrap_or(&[]))? else {
        return Ok(usage(err));
    };
    let work = Unpacking {
        options: unpack_options(matches, &sections),
        unquote: matches.get_flag(UNQUOTE),
    };
    let mut dir = Unpacked::new(Directory::new(rt, path));
    let done = try_each(alloc, input, out, err, &mut dir, cuts(matches), &work);
    let unwritten = dir.close().close();
    match done {
        Ok(status) => Ok(status),
        Err(cause) => Err(Problem::in_folder(alloc, cause, path, unwritten)),
    }
}

// mimetool extract --each
fn extract_each<S: Source, O: Sink, E: Sink>(
    alloc: Global,
    matches: &ArgMatches<'_>,
    input: &mut S,
    out: &mut O,
    err: &mut E,
) -> Result<Status, Problem> {
    let Some(sections) = paths(alloc, matches.get_strs(PATH).unwrap_or(&[]))? else {
        return Ok(usage(err));
    };
    let work = Extracting {
        paths: &sections,
        wanted: portion(matches),
        unquote: matches.get_flag(UNQUOTE),
    };
    work_on_each(alloc, matches, input, out, err, &work)
}

/// Edits each message of a mailbox by a valid script.
pub fn edit_each<S: Source, O: Sink, E: Sink>(
    alloc: Global,
    matches: &ArgMatches<'_>,
    input: &mut S,
    out: &mut O,
    err: &mut E,
    script: Script<'_>,
    pieces: &[Vec<u8>],
) -> Result<Status, Problem> {
    let pieces = Pieces {
        texts: pieces,
        turned: matches.get_flag(EOL),
    };
    let work = MailboxEdit {
        script,
        pieces,
        from_lines: cuts(matches),
    };
    work_on_each(alloc, matches, input, out, err, &work)
}

// Works on each message of the mailbox that the input gives.
fn work_on_each<W: MessageWork<()>, S: Source, O: Sink, E: Sink>(
    alloc: Global,
    matches: &ArgMatches<'_>,
    input: &mut S,
    out: &mut O,
    err: &mut E,
    work: &W,
) -> Result<Status, Problem> {
    Ok(try_each(alloc, input, out, err, &mut (), cuts(matches), work)?)
}

// Which From-lines begin the messages of the mailbox.
fn cuts(matches: &ArgMatches<'_>) -> FromLines {
    from_lines(matches).unwrap_or(FromLines::Any)
}
