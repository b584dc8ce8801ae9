//! The subcommands, over any devices.

use crate::each::{show_each, unpack_each};
use crate::editing::{edit, edit_fields, redo, undo};
use crate::faults::{Problem, usage};
use crate::mailboxes::{Picked, messages, pick_message, split};
use crate::packing::pack;
use crate::seen::filter_firsts;
use clap::ArgMatches;
use mk_asked::{
    field_form, from_lines, letter_words, name_form, paths, portion, unpack_options, value_form,
};
use mk_check::{FindingForm, try_check};
use mk_journal::try_journal;
use mk_mail::{FromLines, Sink, Source};
use mk_messages::InMemory;
use mk_reply::try_reply;
use mk_run::{
    Cause, FieldFilter, Status, Stop, letters_of_rounds, read_doc, rounds, rounds_of_words,
    try_extract, try_extract_all, try_field, try_sections, try_unpack, write_all,
};
use mk_script::numbers;
use mk_system::Directory;
use mk_words::options::{
    CHECK, DIR, EACH, EDIT, EXTRACT, FIELD, IDS, JOURNAL, JSON, MESSAGES, PACK, PATH, REDO,
    REFUSED_OK, REPLY, SECTIONS, SPLIT, STEPS, UNDO, UNPACK,
};
use std::fs::File;
use std::rt::{Clock, Files};

/// The folder that files are written to if no folder is named.
pub const WORKING_FOLDER: &str = ".";

/// The path of the message itself, whose fields are filtered if no section is named.
const ROOT: &str = "1";

/// Runs a subcommand, the words of which are valid.
pub fn run_command<R: Files<File = File> + Clock + AllocGlobal, S: Source, O: Sink, E: Sink>(
    rt: &R,
    name: &str,
    matches: &ArgMatches<'_>,
    input: &mut S,
    out: &mut O,
    err: &mut E,
) -> Result<Status, Problem> {
    if name == EDIT {
        edit(rt, matches, input, out, err)
    } else if name == UNDO {
        undo(rt, matches, input, out, err)
    } else if name == REDO {
        redo(rt, matches, input, out, err)
    } else if name == STEPS {
        Ok(try_journal(rt.alloc(), input, out, err)?)
    } else if name == PACK {
        pack(rt, matches, input, out, err)
    } else if name == FIELD {
        field(rt, matches, input, out, err)
    } else if name == MESSAGES {
        messages(rt.alloc(), matches, input, out, err)
    } else if name == SPLIT {
        split(rt, matches, input, out, err)
    } else if name == UNPACK && matches.get_flag(EACH) {
        unpack_each(rt, matches, input, out, err)
    } else if matches.get_flag(EACH) {
        show_each(rt.alloc(), name, matches, input, out, err)
    } else {
        match pick_message(rt.alloc(), matches, input, err)? {
            Picked::Whole => show(rt, name, matches, input, out, err),
            Picked::Message(message) => {
                show(rt, name, matches, &mut InMemory::new(&message), out, err)
            }
            Picked::Missing => Ok(Status::Refused),
        }
    }
}

// Runs a subcommand that shows one message.
fn show<R: Files<File = File> + AllocGlobal, S: Source, O: Sink, E: Sink>(
    rt: &R,
    name: &str,
    matches: &ArgMatches<'_>,
    input: &mut S,
    out: &mut O,
    err: &mut E,
) -> Result<Status, Problem> {
    if name == EXTRACT {
        extract(rt, matches, input, out, err)
    } else if name == UNPACK {
        unpack(rt, matches, input, out, err)
    } else if name == SECTIONS {
        sections(rt, matches, input, out, err)
    } else if name == REPLY {
        Ok(try_reply(rt.alloc(), input, out, err)?)
    } else if name == CHECK {
        let form = finding_form(matches);
        Ok(try_check(rt.alloc(), input, out, err, form)?)
    } else {
        Ok(usage(err))
    }
}

// How findings are written.
fn finding_form(matches: &ArgMatches<'_>) -> FindingForm {
    if matches.get_flag(JSON) {
        FindingForm::Json
    } else {
        FindingForm::Plain
    }
}

// mimetool sections
fn sections<R: AllocGlobal, S: Source, O: Sink, E: Sink>(
    rt: &R,
    matches: &ArgMatches<'_>,
    input: &mut S,
    out: &mut O,
    err: &mut E,
) -> Result<Status, Problem> {
    let alloc = rt.alloc();
    if !matches.get_flag(JSON) {
        return Ok(try_sections(alloc, input, out, err)?);
    }
    let doc = match read_doc(alloc, input) {
        Ok(doc) => doc,
        Err(Stop::Fault) => return Err(Problem::Stopped(Cause::Read)),
        Err(Stop::Memory) => return Err(Problem::Stopped(Cause::Memory)),
    };
    let listing = mk_json::list_in(alloc, &doc, name_form(matches))?;
    if write_all(out, &listing).is_ok() && out.finish().is_ok() {
        Ok(Status::Well)
    } else {
        Err(Problem::Stopped(Cause::Write))
    }
}

// mimetool extract
fn extract<R: AllocGlobal, S: Source, O: Sink, E: Sink>(
    rt: &R,
    matches: &ArgMatches<'_>,
    input: &mut S,
    out: &mut O,
    err: &mut E,
) -> Result<Status, Problem> {
    let alloc = rt.alloc();
    let Some(sections) = paths(alloc, matches.get_strs(PATH).unwrap_or(&[]))? else {
        return Ok(usage(err));
    };
    let wanted = portion(matches);
    let status = match sections.as_slice() {
        [path] => try_extract(alloc, input, out, err, path, wanted)?,
        sections => try_extract_all(alloc, input, out, err, sections, wanted)?,
    };
    Ok(status)
}

// mimetool unpack
fn unpack<R: Files<File = File> + AllocGlobal, S: Source, O: Sink, E: Sink>(
    rt: &R,
    matches: &ArgMatches<'_>,
    input: &mut S,
    out: &mut O,
    err: &mut E,
) -> Result<Status, Problem> {
    let alloc = rt.alloc();
    let path = matches.get_str(DIR).unwrap_or(WORKING_FOLDER);
    let Some(sections) = paths(alloc, matches.get_strs(PATH).unwrap_or(&[]))? else {
        return Ok(usage(err));
    };
    let options = unpack_options(matches, &sections);
    let mut dir = Directory::new(rt, path);
    let done = try_unpack(alloc, input, out, err, &mut dir, options);
    let unwritten = dir.close();
    match done {
        Ok(status) => Ok(status),
        Err(cause) => Err(Problem::in_folder(alloc, cause, path, unwritten)),
    }
}

// mimetool field
fn field<R: Files<File = File> + Clock + AllocGlobal, S: Source, O: Sink, E: Sink>(
    rt: &R,
    matches: &ArgMatches<'_>,
    input: &mut S,
    out: &mut O,
    err: &mut E,
) -> Result<Status, Problem> {
    let alloc = rt.alloc();
    let words = rounds_of_words(alloc, &letter_words(alloc, matches)?)?;
    let Some(letters) = letters_of_rounds(alloc, &words, field_form(matches))? else {
        return Ok(usage(err));
    };
    let word = matches.get_str(PATH).unwrap_or(ROOT);
    let Some(path) = numbers(alloc, word.as_bytes())? else {
        return Ok(usage(err));
    };
    let rounds = rounds(alloc, &letters)?;
    let filter = FieldFilter {
        rounds: &rounds,
        form: value_form(matches),
        from_lines: from_lines(matches).unwrap_or(FromLines::Any),
        path: &path,
    };
    if !filter.ok() {
        return Ok(usage(err));
    }
    let status = if matches.contains_id(JOURNAL) {
        edit_fields(rt, matches, input, out, err, &filter)?
    } else if let Some(ids) = matches.get_str(IDS) {
        filter_firsts(rt, matches, ids, input, out, err, &filter)?
    } else {
        try_field(alloc, input, out, err, &filter, matches.get_flag(EACH))?
    };
    match status {
        Status::Refused if matches.get_flag(REFUSED_OK) => Ok(Status::Well),
        _ => Ok(status),
    }
}
