//! The words of `edit`, `undo`, `redo` and `journal`.

use crate::arguments::{Argument, FLAG, OPTION, OPTION_AGAIN, Subcommand};
use crate::mailbox_options::{
    EACH_OPTION, MBOX_OPTION, NUMBER_OPTION, RFC4155_OPTION, UNQUOTE_OPTION,
};
use crate::options::{
    ALL, EDIT, EOL, EVERY, EXPLAIN, FROM, JOURNAL, LINE, NUMBER, PIECE, REDO, SCRIPT, STEPS, UNDO,
    UNQUOTE,
};
use crate::script_words::EDIT_HELP;
use crate::shared_options::{
    EXPLAIN_OPTION, FROM_OPTION, IN_PLACE_FILES_OPTION, IN_PLACE_OPTION, TEMPFAIL_OPTION,
    WAIT_OPTION,
};
use clap::ArgAction;

/// mimetool undo [--from FILE|--in-place FILE] [--wait[=SECONDS]] [--tempfail] [--all] -j JOURNAL
pub static UNDO_COMMAND: Subcommand = Subcommand {
    name: UNDO,
    about: "Undoes the last step of an earlier edit, and prints the message",
    after_help: "Examples:\n  mimetool undo -j journal < edited > message\n  mimetool undo -j journal --in-place edited\n  mimetool undo --all -j journal --in-place edited",
    arguments: &[
        FROM_OPTION,
        IN_PLACE_OPTION,
        OWN_JOURNAL_OPTION,
        Argument {
            help: "Undo all steps, not only the last",
            ..EVERY_OPTION
        },
        EXPLAIN_OPTION,
        WAIT_OPTION,
        TEMPFAIL_OPTION,
    ],
};

/// mimetool redo [--from FILE|--in-place FILE] [--wait[=SECONDS]] [--tempfail] [--all] -j JOURNAL
pub static REDO_COMMAND: Subcommand = Subcommand {
    name: REDO,
    about: "Redoes the last step that was undone, and prints the message",
    after_help: "Examples:\n  mimetool redo -j journal < message > edited\n  mimetool redo -j journal --in-place message\n  mimetool redo --all -j journal --in-place message",
    arguments: &[
        FROM_OPTION,
        IN_PLACE_OPTION,
        OWN_JOURNAL_OPTION,
        Argument {
            help: "Redo all steps that were undone, not only one",
            ..EVERY_OPTION
        },
        EXPLAIN_OPTION,
        WAIT_OPTION,
        TEMPFAIL_OPTION,
    ],
};

/// mimetool journal -j JOURNAL [--explain]
pub static JOURNAL_COMMAND: Subcommand = Subcommand {
    name: STEPS,
    about: "Lists the steps of a journal, one per line",
    after_help: "Example:\n  mimetool journal -j journal",
    arguments: &[
        Argument {
            help: "The journal, which stays as it is; no message is read",
            ..OWN_JOURNAL_OPTION
        },
        EXPLAIN_OPTION,
    ],
};

// --all of undo and redo, with help of its own in each
const EVERY_OPTION: Argument = Argument {
    id: EVERY,
    long: Some(ALL),
    ..FLAG
};

// -j JOURNAL, which has to be there
const OWN_JOURNAL_OPTION: Argument = Argument {
    is_required: true,
    ..JOURNAL_OPTION
};

/// -j JOURNAL
pub const JOURNAL_OPTION: Argument = Argument {
    id: JOURNAL,
    short: Some('j'),
    help: "The file that keeps the steps for later runs; it is created if it doesn't exist",
    ..OPTION
};

/// mimetool edit [--from FILE|[--in-place FILE]..] [--wait[=SECONDS]] [--tempfail] [-n N|--each [--rfc4155|--mbox HOW] [--unquote]] [-j JOURNAL] [--all] [--eol] [--explain] [-e LINE].. [SCRIPT] [PIECE..]
pub static EDIT_COMMAND: Subcommand = Subcommand {
    name: EDIT,
    about: "Edits the message by the lines of a script, and prints it",
    after_help: EDIT_HELP,
    arguments: &[
        FROM_OPTION,
        Argument {
            conflicts: &[FROM, NUMBER],
            ..IN_PLACE_FILES_OPTION
        },
        NUMBER_OPTION,
        Argument {
            help: "Treat the input as a mailbox, edit each of its messages, and print the mailbox",
            conflicts: &[JOURNAL, NUMBER, UNQUOTE],
            ..EACH_OPTION
        },
        RFC4155_OPTION,
        MBOX_OPTION,
        Argument {
            help: "With -n, remove one > from lines that begin with >From, >>From and so on",
            ..UNQUOTE_OPTION
        },
        JOURNAL_OPTION,
        Argument {
            id: ALL,
            long: Some(ALL),
            help: "Make all edits as one step, or none of them",
            ..FLAG
        },
        Argument {
            id: EOL,
            long: Some(EOL),
            help: "Give the lines of pieces the line endings of the message; what is encoded as base64 stays as it is",
            ..FLAG
        },
        Argument {
            id: EXPLAIN,
            long: Some(EXPLAIN),
            help: "Say why a line of SCRIPT is invalid, as is always done for -e, and what the reason for a refused line means",
            ..FLAG
        },
        Argument {
            id: LINE,
            short: Some('e'),
            help: "A line of the script, in place of SCRIPT; may be given more than once. Every other word is then a PIECE",
            ..OPTION_AGAIN
        },
        Argument {
            id: SCRIPT,
            help: "The file with the script: one edit per line, such as `add 1 Subject: hello`, `del 1 Subject 2` or `undo`",
            action: ArgAction::Set,
            ..FLAG
        },
        Argument {
            id: PIECE,
            help: "Files that the script names by number, from 1",
            action: ArgAction::Append,
            ..FLAG
        },
        WAIT_OPTION,
        TEMPFAIL_OPTION,
    ],
};
