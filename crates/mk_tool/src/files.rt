//! The files that the command line names.

use crate::faults::Problem;
use clap::ArgMatches;
use mk_mail::Attach;
use mk_pack::Forward;
use mk_run::{Cause, Spec};
use mk_system::size_in;
use mk_types::media_type;
use mk_words::options::{FILES, FROM, IN_PLACE, JOURNAL, STEPS};
use std::alloc::{AllocError, Global};
use std::fs::OpenFile;
use std::io::Read;
use std::rt::Files;
use std::{fs, io};

/// The files that a subcommand reads, or replaces, one after another; none if it reads the standard input.
pub fn named_files<'a>(
    alloc: Global,
    name: &str,
    matches: &'a ArgMatches<'_>,
) -> Result<Vec<&'a str>, AllocError> {
    let option = if name == STEPS {
        JOURNAL
    } else if matches.contains_id(IN_PLACE) {
        IN_PLACE
    } else {
        FROM
    };
    let mut paths = Vec::from_slice(alloc, matches.get_strs(option).unwrap_or(&[]))?;
    paths.extend_from_slice(matches.get_strs(FILES).unwrap_or(&[]))?;
    Ok(paths)
}

/// Opens a file for reading. A folder is an error.
pub fn open<R: Files + AllocGlobal>(rt: &R, path: &str) -> Result<R::File, Problem> {
    match opened(rt, path) {
        Ok(file) => Ok(file),
        Err(error) => Err(Problem::file(rt.alloc(), path, error, Cause::Read)),
    }
}

fn opened<R: Files>(rt: &R, path: &str) -> io::Result<R::File> {
    if fs::metadata(rt, path)?.is_dir() {
        return Err(io::Error::from(io::ErrorKind::IsADirectory));
    }
    fs::open(rt, path)
}

/// Reads a file whole.
pub fn read<R: Files + AllocGlobal>(rt: &R, path: &str) -> Result<Vec<u8>, Problem> {
    let mut file = open(rt, path)?;
    let mut text = Vec::new(rt.alloc());
    if let Some(size) = size_in(file.metadata()) {
        // Where there is no memory for as much at once, the text grows as it is read.
        let _ = text.reserve_exact(size.saturating_add(1));
    }
    match file.read_to_end(&mut text) {
        Ok(_) => Ok(text),
        Err(error) => Err(Problem::file(rt.alloc(), path, error, Cause::Read)),
    }
}

/// Reads files whole, in their order.
pub fn read_files<R: Files + AllocGlobal>(rt: &R, paths: &[&str]) -> Result<Vec<Vec<u8>>, Problem> {
    let mut texts = Vec::new(rt.alloc());
    for path in paths {
        texts.push(read(rt, *path)?)?;
    }
    Ok(texts)
}

/// Reads the files of parts, in their order. Each word is a part, as FILE, TYPE:FILE, or one of these and =NAME. Texts have no
/// name where they are inline.
pub fn attachments<R: Files + AllocGlobal>(
    rt: &R,
    words: &[&str],
    inline: bool,
) -> Result<Vec<Attach>, Problem> {
    let mut parts = Vec::new(rt.alloc());
    for word in words {
        parts.push(attachment(rt, *word, inline)?)?;
    }
    Ok(parts)
}

// Reads the file of a part. Without a type it is that of the file's ending.
fn attachment<R: Files + AllocGlobal>(rt: &R, word: &str, inline: bool) -> Result<Attach, Problem> {
    let (media, path) = match word.split_once(':') {
        Some((media, path)) => (Some(media), path),
        None => (None, word),
    };
    let (path, name) = named(rt, path);
    let text = read(rt, path)?;
    let spec = Spec {
        media: media.unwrap_or(media_type(path.as_bytes())).as_bytes(),
        path: name.as_bytes(),
    };
    let part = if inline {
        spec.inline(rt.alloc(), text)
    } else {
        spec.attach(rt.alloc(), text)
    };
    Ok(part?)
}

// A file, and what its part is named after: what follows the last equals sign, unless there is a file of the whole name.
fn named<'a, R: Files + AllocGlobal>(rt: &R, path: &'a str) -> (&'a str, &'a str) {
    if fs::metadata(rt, path).is_ok() {
        return (path, path);
    }
    path.rsplit_once('=').unwrap_or((path, path))
}

/// Reads the files of messages that are forwarded, in their order.
pub fn forwards<R: Files + AllocGlobal>(
    rt: &R,
    paths: &[&str],
    inline: bool,
) -> Result<Vec<Forward>, Problem> {
    let mut messages = Vec::new(rt.alloc());
    for path in paths {
        let text = read(rt, *path)?;
        messages.push(Forward { text, inline })?;
    }
    Ok(messages)
}
