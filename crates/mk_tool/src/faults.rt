//! Why a command isn't run to its end, and how that is said.

use clap::Error;
use clap::error::ErrorKind;
use mk_mail::Sink;
use mk_run::{Cause, Status, give_up, write_all};
use mk_system::Unwritten;
use mk_words::options::subcommand;
use std::alloc::{AllocError, AllocFailed, Global};
use std::io;

const USAGE: &[u8] = b"mimetool: usage\n";

/// Why a command isn't run to its end.
#[derive(Drop)]
pub enum Problem {
    /// A word of the command line is invalid, as this sentence says.
    Usage(String),
    /// A file of the command line can't be read or written.
    File {
        path: String,
        error: io::Error,
        cause: Cause,
    },
    /// The run was given up, and no file of the command line is to blame.
    Stopped(Cause),
}

impl Problem {
    /// A file that can't be read or written.
    pub fn file(alloc: Global, path: &str, error: io::Error, cause: Cause) -> Problem {
        if error.kind() == io::ErrorKind::OutOfMemory {
            return Problem::Stopped(Cause::Memory);
        }
        match String::from_str(alloc, path) {
            Ok(path) => Problem::File { path, error, cause },
            Err(_) => Problem::Stopped(Cause::Memory),
        }
    }

    /// Whether it is a file that can't be read or written.
    pub fn is_of_file(&self) -> bool {
        matches!(self, Problem::File { .. })
    }

    /// The same problem, which names a file where that made a run stop for this cause.
    pub fn blamed(
        self,
        alloc: Global,
        cause: Cause,
        path: &str,
        error: Option<io::Error>,
    ) -> Problem {
        match (self, error) {
            (Problem::Stopped(stopped), Some(error)) if stopped == cause => {
                Problem::file(alloc, path, error, cause)
            }
            (problem, _) => problem,
        }
    }

    /// A run that stopped for this cause, and the file of a folder that couldn't be written, if there is one.
    pub fn in_folder(
        alloc: Global,
        cause: Cause,
        folder: &str,
        unwritten: Option<Unwritten>,
    ) -> Problem {
        let Some(unwritten) = unwritten else {
            return Problem::Stopped(cause);
        };
        let file = match &unwritten.path {
            Some(file) => file.as_str(),
            None => folder,
        };
        Problem::from(cause).blamed(alloc, Cause::Write, file, Some(unwritten.error))
    }
}

impl From<AllocError> for Problem {
    fn from(_error: AllocError) -> Self {
        Problem::Stopped(Cause::Memory)
    }
}

impl<T: Drop> From<AllocFailed<T>> for Problem {
    fn from(_error: AllocFailed<T>) -> Self {
        Problem::Stopped(Cause::Memory)
    }
}

impl From<Cause> for Problem {
    fn from(cause: Cause) -> Self {
        Problem::Stopped(cause)
    }
}

/// Says why a subcommand isn't run to its end, and answers its status.
pub fn report<E: Sink>(alloc: Global, name: &str, problem: &Problem, err: &mut E) -> Status {
    match problem {
        Problem::Usage(sentence) => match usage_error(alloc, name, sentence.as_str()) {
            Ok(error) => say_usage(alloc, &error, err),
            Err(AllocError) => give_up(err, Cause::Memory),
        },
        Problem::File { path, error, cause } => match file_line(alloc, path.as_str(), error) {
            Ok(line) => {
                let _ = write_all(err, line.as_bytes());
                give_up(err, *cause)
            }
            Err(AllocError) => give_up(err, Cause::Memory),
        },
        Problem::Stopped(cause) => give_up(err, *cause),
    }
}

// An error of clap's own form, with the usage of the subcommand.
fn usage_error(alloc: Global, name: &str, sentence: &str) -> Result<Error, AllocError> {
    let path = format!(in alloc; "mimetool {name}")?;
    subcommand(alloc, name)?
        .bin_name(path.as_str())?
        .error(ErrorKind::ValueValidation, sentence)
}

/// Writes an error of clap. If that fails, nothing more is tried.
pub fn say_usage<E: Sink>(alloc: Global, error: &Error, err: &mut E) -> Status {
    match format!(in alloc; "{error}") {
        Ok(text) => {
            let _ = write_all(err, text.as_bytes());
            Status::Usage
        }
        Err(AllocError) => give_up(err, Cause::Memory),
    }
}

// The line that names a file and says what is wrong with it.
fn file_line(alloc: Global, path: &str, error: &io::Error) -> Result<String, AllocError> {
    format!(in alloc; "mimetool: {path}: {error}\n")
}

/// Says that the command line as a whole is invalid.
pub fn usage<E: Sink>(err: &mut E) -> Status {
    let _ = write_all(err, USAGE);
    Status::Usage
}
