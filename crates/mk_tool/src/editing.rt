//! `edit`, `undo`, `redo` and `field -j`, over any devices.

use crate::each::edit_each;
use crate::faults::{Problem, usage};
use crate::files::{read, read_files};
use crate::mailboxes::{Picked, pick_message};
use crate::tips::tell_of_fields;
use clap::ArgMatches;
use mk_journal::{redo_all, undo_all};
use mk_mail::{Sink, Source};
use mk_messages::InMemory;
use mk_run::{
    Cause, FieldFilter, Journal, Pieces, Script, Status, Stop, read_all, report_invalid, try_edit,
    try_field_in_journal,
};
use mk_script::first_invalid;
use mk_system::{JournalFile, Output, is_one_file};
use mk_words::options::{
    ALL, EACH, EOL, EVERY, EXPLAIN, IN_PLACE, JOURNAL, LINE, PIECE, SCRIPT, WAIT,
};
use mk_words::waiting::limit;
use std::alloc::{AllocError, Global};
use std::fs::File;
use std::io;
use std::io::ErrorKind;
use std::rt::{Clock, Files};

/// The scripts of two subcommands.
const UNDO_SCRIPT: &[u8] = b"undo\n";

const REDO_SCRIPT: &[u8] = b"redo\n";

/// What is said of a journal that is also the file of `--in-place`.
const OWN_JOURNAL: &str = "the file of --in-place can't also be its journal";

/// The steps of a run.
#[derive(Clone, Copy)]
enum Steps<'a> {
    /// Those of a script.
    Of(Script<'a>),
    /// All that are done in the journal are taken back.
    UndoAll,
    /// All that are undone in it are made again.
    RedoAll,
    /// One: the rounds of a filter of fields.
    Fields(&'a FieldFilter<'a>),
}

impl<'a> Steps<'a> {
    // The text of the script for all steps of a journal; none where the steps are given.
    fn text(self, alloc: Global, journal: &[u8]) -> Result<Vec<u8>, AllocError> {
        match self {
            Steps::Of(_) | Steps::Fields(_) => Ok(Vec::new(alloc)),
            Steps::UndoAll => undo_all(alloc, journal),
            Steps::RedoAll => redo_all(alloc, journal),
        }
    }

    // Makes them, by this script where they are those of a journal.
    fn make<S: Source, O: Sink, E: Sink, J: Sink>(
        self,
        alloc: Global,
        input: &mut S,
        out: &mut O,
        err: &mut E,
        script: &'a [u8],
        pieces: Pieces<'_>,
        journal: Journal<'_>,
        jout: &mut J,
    ) -> Result<Status, Cause> {
        let script = match self {
            Steps::Of(script) => script,
            Steps::UndoAll | Steps::RedoAll => alone(script),
            Steps::Fields(filter) => {
                if !filter.ok() {
                    return Ok(Status::Usage);
                }
                return try_field_in_journal(alloc, input, out, err, filter, journal, jout);
            }
        };
        try_edit(alloc, input, out, err, script, pieces, journal, jout)
    }
}

/// mimetool edit
pub fn edit<R: Files<File = File> + Clock + AllocGlobal, S: Source, O: Sink, E: Sink>(
    rt: &R,
    matches: &ArgMatches<'_>,
    input: &mut S,
    out: &mut O,
    err: &mut E,
) -> Result<Status, Problem> {
    let alloc = rt.alloc();
    let paths = matches.get_strs(PIECE).unwrap_or(&[]);
    let as_one = matches.get_flag(ALL);
    if let Some(lines) = matches.get_strs(LINE) {
        // Each word that isn't a line is a piece; the first of them is where the script would be.
        let script = joined(alloc, lines)?;
        let mut pieces = Vec::new(alloc);
        if let Some(path) = matches.get_str(SCRIPT) {
            pieces.push(read(rt, path)?)?;
        }
        for path in paths {
            pieces.push(read(rt, *path)?)?;
        }
        let script = Script {
            text: &script,
            as_one,
        };
        explain(alloc, err, script, &pieces)?;
        return edit_by(rt, matches, input, out, err, script, &pieces);
    }
    let Some(path) = matches.get_str(SCRIPT) else {
        return Ok(usage(err));
    };
    let script = read(rt, path)?;
    let pieces = read_files(rt, paths)?;
    let script = Script {
        text: &script,
        as_one,
    };
    if matches.get_flag(EXPLAIN) {
        explain(alloc, err, script, &pieces)?;
    }
    edit_by(rt, matches, input, out, err, script, &pieces)
}

// Says why the first invalid line of a script is invalid, if there is one, and otherwise which pieces aren't read as text.
fn explain<E: Sink>(
    alloc: Global,
    err: &mut E,
    script: Script<'_>,
    pieces: &[Vec<u8>],
) -> Result<(), Problem> {
    let Some(line) = first_invalid(alloc, script.text, pieces.len(), script.as_one)? else {
        return tell_of_fields(alloc, err, script, pieces);
    };
    match report_invalid(alloc, err, line) {
        Ok(()) => Ok(()),
        Err(Stop::Fault) => Err(Problem::Stopped(Cause::Write)),
        Err(Stop::Memory) => Err(Problem::Stopped(Cause::Memory)),
    }
}

/// mimetool undo
pub fn undo<R: Files<File = File> + Clock + AllocGlobal, S: Source, O: Sink, E: Sink>(
    rt: &R,
    matches: &ArgMatches<'_>,
    input: &mut S,
    out: &mut O,
    err: &mut E,
) -> Result<Status, Problem> {
    let steps = if matches.get_flag(EVERY) {
        Steps::UndoAll
    } else {
        Steps::Of(alone(UNDO_SCRIPT))
    };
    edit_message(rt, matches, input, out, err, steps, &[])
}

/// mimetool redo
pub fn redo<R: Files<File = File> + Clock + AllocGlobal, S: Source, O: Sink, E: Sink>(
    rt: &R,
    matches: &ArgMatches<'_>,
    input: &mut S,
    out: &mut O,
    err: &mut E,
) -> Result<Status, Problem> {
    let steps = if matches.get_flag(EVERY) {
        Steps::RedoAll
    } else {
        Steps::Of(alone(REDO_SCRIPT))
    };
    edit_message(rt, matches, input, out, err, steps, &[])
}

/// mimetool field -j
pub fn edit_fields<R: Files<File = File> + Clock + AllocGlobal, S: Source, O: Sink, E: Sink>(
    rt: &R,
    matches: &ArgMatches<'_>,
    input: &mut S,
    out: &mut O,
    err: &mut E,
    filter: &FieldFilter<'_>,
) -> Result<Status, Problem> {
    edit_message(rt, matches, input, out, err, Steps::Fields(filter), &[])
}

// A script that is done line by line.
fn alone(text: &[u8]) -> Script<'_> {
    Script {
        text,
        as_one: false,
    }
}

// The lines of a script, each ended.
fn joined(alloc: Global, lines: &[&str]) -> Result<Vec<u8>, AllocError> {
    let mut script = Vec::new(alloc);
    for line in lines {
        script.extend_from_slice(line.as_bytes())?;
        script.push(b'\n')?;
    }
    Ok(script)
}

// Edits by a script the input, or the messages of it that the command line names.
fn edit_by<R: Files<File = File> + Clock + AllocGlobal, S: Source, O: Sink, E: Sink>(
    rt: &R,
    matches: &ArgMatches<'_>,
    input: &mut S,
    out: &mut O,
    err: &mut E,
    script: Script<'_>,
    pieces: &[Vec<u8>],
) -> Result<Status, Problem> {
    if matches.get_flag(EACH) {
        let alloc = rt.alloc();
        return match first_invalid(alloc, script.text, pieces.len(), script.as_one)? {
            None => edit_each(alloc, matches, input, out, err, script, pieces),
            Some(_) => {
                // It is reported as for one message, of which nothing is read.
                let mut none = InMemory::new(b"");
                edit_message(rt, matches, &mut none, out, err, Steps::Of(script), pieces)
            }
        };
    }
    let steps = Steps::Of(script);
    match pick_message(rt.alloc(), matches, input, err)? {
        Picked::Whole => edit_message(rt, matches, input, out, err, steps, pieces),
        Picked::Message(message) => {
            let mut input = InMemory::new(&message);
            edit_message(rt, matches, &mut input, out, err, steps, pieces)
        }
        Picked::Missing => Ok(Status::Refused),
    }
}

// Makes the steps of a run, with the journal that the command line names, if it names one. The journal is read last.
fn edit_message<R: Files<File = File> + Clock + AllocGlobal, S: Source, O: Sink, E: Sink>(
    rt: &R,
    matches: &ArgMatches<'_>,
    input: &mut S,
    out: &mut O,
    err: &mut E,
    steps: Steps<'_>,
    pieces: &[Vec<u8>],
) -> Result<Status, Problem> {
    let alloc = rt.alloc();
    let pieces = Pieces {
        texts: pieces,
        turned: matches.get_flag(EOL),
    };
    match matches.get_str(JOURNAL) {
        None => {
            let mut none = Output::new(io::sink());
            let journal = Journal::Off;
            let done = steps.make(alloc, input, out, err, b"", pieces, journal, &mut none);
            Ok(done?)
        }
        // Only once all is read may this run wait for the journal: another run that has it may be the one that writes the
        // message.
        Some(path) if matches.contains_id(WAIT) => {
            let message = match read_all(alloc, input) {
                Ok(message) => message,
                Err(Stop::Fault) => return Err(Problem::Stopped(Cause::Read)),
                Err(Stop::Memory) => return Err(Problem::Stopped(Cause::Memory)),
            };
            let mut input = InMemory::new(&message);
            edit_with_journal(rt, matches, path, &mut input, out, err, steps, pieces)
        }
        Some(path) => edit_with_journal(rt, matches, path, input, out, err, steps, pieces),
    }
}

// Makes the steps of a run, with the journal at a path.
fn edit_with_journal<R: Files<File = File> + Clock + AllocGlobal, S: Source, O: Sink, E: Sink>(
    rt: &R,
    matches: &ArgMatches<'_>,
    path: &str,
    input: &mut S,
    out: &mut O,
    err: &mut E,
    steps: Steps<'_>,
    pieces: Pieces<'_>,
) -> Result<Status, Problem> {
    let alloc = rt.alloc();
    if let Some(file) = matches.get_str(IN_PLACE) {
        if is_one_file(rt, path, file) {
            let error = io::Error::new(ErrorKind::InvalidInput, OWN_JOURNAL);
            return Err(Problem::file(alloc, path, error, Cause::Read));
        }
    }
    let (mut jout, old) = match JournalFile::open(rt, path, limit(matches)) {
        Ok(opened) => opened,
        Err(error) => return Err(Problem::file(alloc, path, error, Cause::Read)),
    };
    let journal = match &old {
        Some(text) => Journal::Old(text),
        None => Journal::New,
    };
    let text = steps.text(alloc, old.as_deref().unwrap_or(b""))?;
    let done = steps.make(alloc, input, out, err, &text, pieces, journal, &mut jout);
    let unwritten = jout.close();
    match done {
        Ok(status) => Ok(status),
        Err(cause) => Err(Problem::from(cause).blamed(alloc, Cause::Write, path, unwritten)),
    }
}
