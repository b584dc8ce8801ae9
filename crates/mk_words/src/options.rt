//! The command line.

use crate::arguments::Subcommand;
use crate::check_options::CHECK_COMMAND;
use crate::edit_options::{EDIT_COMMAND, JOURNAL_COMMAND, REDO_COMMAND, UNDO_COMMAND};
use crate::field_options::FIELD_COMMAND;
use crate::mailbox_options::{MESSAGES_COMMAND, SPLIT_COMMAND};
use crate::pack_options::PACK_COMMAND;
use crate::reply_options::REPLY_COMMAND;
use crate::section_options::{EXTRACT_COMMAND, SECTIONS_COMMAND, UNPACK_COMMAND};
use clap::Command;
use std::alloc::{AllocError, Global};

/// What `--version` prints after the program's name.
const VERSION: &str = "0.1.0";

/// The subcommand that edits a message by a script.
pub const EDIT: &str = "edit";

/// The file with the script.
pub const SCRIPT: &str = "SCRIPT";

/// A file that the script names by its number.
pub const PIECE: &str = "PIECE";

/// `-e LINE`: a line of the script.
pub const LINE: &str = "LINE";

/// `--all`: all edits are one step.
pub const ALL: &str = "all";

/// `--eol`: pieces get the endings of the message.
pub const EOL: &str = "eol";

/// `--explain`: what reasons mean, and why a line of the script is invalid.
pub const EXPLAIN: &str = "explain";

/// `--from FILE`: the file to read the message from.
pub const FROM: &str = "FROM";

/// `--in-place FILE`: the file to read it from and to replace.
pub const IN_PLACE: &str = "IN_PLACE";

/// A word that names one more file to read from, or to read and to replace.
pub const FILES: &str = "FILE";

/// `-H`: the name of the file comes before each line.
pub const LABEL: &str = "label";

/// `--wait[=SECONDS]`: how long to wait for a file that another run is using.
pub const WAIT: &str = "wait";

/// `--tempfail`: a status that says that a later run may do better.
pub const TEMPFAIL: &str = "tempfail";

/// `--json`: the listing as JSON.
pub const JSON: &str = "json";

/// `--utf8`: names as people wrote them.
pub const UTF8: &str = "utf8";

/// `-j JOURNAL`: the file that keeps the steps.
pub const JOURNAL: &str = "JOURNAL";

/// `-D FILE`: the file of the Message-IDs that were seen.
pub const IDS: &str = "IDS";

/// `--unique`: no message that comes again is listed.
pub const UNIQUE: &str = "unique";

/// The subcommand that undoes the last step of an earlier run.
pub const UNDO: &str = "undo";

/// The subcommand that redoes the last step that was undone.
pub const REDO: &str = "redo";

/// `--all` of these two: all steps that the journal has.
pub const EVERY: &str = "every";

/// The subcommand that lists the steps of a journal.
pub const STEPS: &str = "journal";

/// The subcommand that lists the sections of a message.
pub const SECTIONS: &str = "sections";

/// The subcommand that gives the content of a section.
pub const EXTRACT: &str = "extract";

/// `-s PATH`, and `-p PATH` of `field`: the section.
pub const PATH: &str = "PATH";

/// `--raw`: the content as it is.
pub const RAW: &str = "raw";

/// `--head`: the fields of the section.
pub const HEAD: &str = "head";

/// `--prefix`: what can be decoded of base64 that isn't whole.
pub const PREFIX: &str = "prefix";

/// The subcommand that stores the leaves of a message as files.
pub const UNPACK: &str = "unpack";

/// `-f`: files are replaced.
pub const OVER: &str = "over";

/// `-t`: texts are stored too.
pub const TEXTS: &str = "texts";

/// `--number`: names get numbers without an end.
pub const COUNTED: &str = "number";

/// `--messages`: messages in the message are stored, too.
pub const FORWARDED: &str = "messages";

/// `--content-id`: sections are named by their ids.
pub const BY_ID: &str = "content-id";

/// `--silent`: no names are printed.
pub const SILENT: &str = "silent";

/// `--paths`: names are printed after the paths of their sections.
pub const PATHS: &str = "paths";

/// `-C DIR`: the folder of the files.
pub const DIR: &str = "DIR";

/// The subcommand that builds a message from files.
pub const PACK: &str = "pack";

/// `-b BOUNDARY`
pub const BOUNDARY: &str = "BOUNDARY";

/// `-m SUBTYPE`: the subtype of the multipart.
pub const SUBTYPE: &str = "SUBTYPE";

/// `--inline`: texts are shown, not attached.
pub const INLINE: &str = "inline";

/// `--charset NAME`: the charset that texts name.
pub const CHARSET: &str = "charset";

/// A part, as FILE, TYPE:FILE, or one of these and =NAME.
pub const SPEC: &str = "SPEC";

/// `--part SPEC`: this part alone.
pub const PART: &str = "part";

/// `--forward FILE`: a message that becomes a part.
pub const FORWARD: &str = "forward";

/// The subcommand that filters the fields of messages.
pub const FIELD: &str = "field";

/// `--prepend NAME:TEXT`
pub const PREPEND: &str = "prepend";

/// `--drop NAME:`
pub const DROP: &str = "drop";

/// `--keep NAME:`
pub const KEEP: &str = "keep";

/// `--keep-only NAME:`
pub const KEEP_ONLY: &str = "keep-only";

/// `--sub NAME:s/OLD/NEW/`
pub const SUB: &str = "sub";

/// `--rename OLD:NEW`
pub const RENAME: &str = "rename";

/// `-a FIELD`
pub const ADD_IF: &str = "add-if";

/// `-A FIELD`
pub const ADD: &str = "add";

/// `-i FIELD`
pub const PREFIXED: &str = "prefixed";

/// `-I FIELD`
pub const ONLY: &str = "only";

/// `-u NAME:`
pub const FIRST: &str = "first";

/// `-U NAME:`
pub const LAST: &str = "last";

/// `-x NAME:`
pub const TAKE: &str = "take";

/// `-X NAME:`
pub const WHOLE: &str = "whole";

/// `--each`, and `-s` of `field`: the input is a mailbox, and each of its messages is meant.
pub const EACH: &str = "each";

/// `--decode`: values with their encoded words decoded.
pub const DECODE: &str = "decode";

/// `--encode`: values in encoded words where they need it.
pub const ENCODE: &str = "encode";

/// `--unfold`: values on one line.
pub const UNFOLD: &str = "unfold";

/// `--addresses`: the addresses of values, each on a line.
pub const ADDRESSES: &str = "addresses";

/// `--refused-ok`: a refused edit leaves the status 0.
pub const REFUSED_OK: &str = "refused-ok";

/// The subcommand that prints the header of an answer.
pub const REPLY: &str = "reply";

/// The subcommand that says what is wrong with a message.
pub const CHECK: &str = "check";

/// The subcommand that lists the messages of a mailbox.
pub const MESSAGES: &str = "messages";

/// The subcommand that writes the messages of a mailbox to files.
pub const SPLIT: &str = "split";

/// `--name TEMPLATE`: how the files of messages are named.
pub const TEMPLATE: &str = "TEMPLATE";

/// `--maildir`: the folder is a Maildir.
pub const MAILDIR: &str = "maildir";

/// `--bare`: messages without the From-line that begins them.
pub const BARE: &str = "bare";

/// `-n N`: the N-th message of a mailbox.
pub const NUMBER: &str = "NUMBER";

/// `--rfc4155`: a mailbox is cut only at From-lines that end with a date, as with `--mbox=date`.
pub const RFC4155: &str = "rfc4155";

/// `--mbox HOW`: at which From-lines a mailbox is cut.
pub const MBOX: &str = "mbox";

/// `--unquote`: lines of the message that a mailbox has marked lose a mark.
pub const UNQUOTE: &str = "unquote";

/// The subcommands, in the order in which help lists them.
const SUBCOMMANDS: [&str; 13] = [
    EDIT, UNDO, REDO, STEPS, SECTIONS, EXTRACT, UNPACK, PACK, FIELD, REPLY, CHECK, MESSAGES, SPLIT,
];

/// The command line of the program.
pub fn command<'a>(alloc: Global) -> Result<Command<'a>, AllocError> {
    let mut command = Command::new(alloc, "mimetool")
        .version(VERSION)
        .about(
            "Edits an Internet message exactly: the message comes from standard input, the result goes to standard output.",
        )
        .subcommand_required(true);
    for name in &SUBCOMMANDS {
        command = command.subcommand(subcommand(alloc, *name)?)?;
    }
    Ok(command)
}

/// The subcommand of a name.
pub fn subcommand<'a>(alloc: Global, name: &str) -> Result<Command<'a>, AllocError> {
    row(name).command(alloc)
}

// What a subcommand takes.
fn row(name: &str) -> &'static Subcommand {
    if name == EDIT {
        &EDIT_COMMAND
    } else if name == UNDO {
        &UNDO_COMMAND
    } else if name == REDO {
        &REDO_COMMAND
    } else if name == STEPS {
        &JOURNAL_COMMAND
    } else if name == SECTIONS {
        &SECTIONS_COMMAND
    } else if name == EXTRACT {
        &EXTRACT_COMMAND
    } else if name == UNPACK {
        &UNPACK_COMMAND
    } else if name == PACK {
        &PACK_COMMAND
    } else if name == REPLY {
        &REPLY_COMMAND
    } else if name == CHECK {
        &CHECK_COMMAND
    } else if name == MESSAGES {
        &MESSAGES_COMMAND
    } else if name == SPLIT {
        &SPLIT_COMMAND
    } else {
        &FIELD_COMMAND
    }
}
