//! The words on mailboxes.

use crate::arguments::{Argument, FLAG, OPTION, Subcommand};
use crate::options::{
    BARE, DIR, EACH, JSON, MAILDIR, MBOX, MESSAGES, NUMBER, OVER, RFC4155, SILENT, SPLIT, TEMPLATE,
    UNIQUE, UNQUOTE,
};
use crate::shared_options::{
    EXPLAIN_OPTION, FILES_ARGUMENT, FROM_FILES_OPTION, FROM_OPTION, LABEL_OPTION,
};

/// mimetool messages [--unique] [--json|-H] [--rfc4155|--mbox HOW] [--from FILE..]
pub static MESSAGES_COMMAND: Subcommand = Subcommand {
    name: MESSAGES,
    about: "Lists the messages of a mailbox, one per line",
    after_help: "Examples:\n  mimetool messages < mailbox\n  mimetool messages --mbox=date --from mailbox\n  mimetool messages --json < mailbox\n  mimetool messages --unique < mailbox",
    arguments: &[
        FROM_FILES_OPTION,
        Argument {
            id: JSON,
            long: Some(JSON),
            help: "Print a JSON object for each message",
            ..FLAG
        },
        Argument {
            id: UNIQUE,
            long: Some(UNIQUE),
            help: "Leave out messages with the Message-ID of an earlier one",
            ..FLAG
        },
        Argument {
            conflicts: &[JSON],
            ..LABEL_OPTION
        },
        RFC4155_OPTION,
        MBOX_OPTION,
        FILES_ARGUMENT,
    ],
};

/// mimetool split [--from FILE] [--rfc4155|--mbox HOW] [--name TEMPLATE] [-f] [--silent] [--maildir] [--bare] [--unquote] [-C DIR]
pub static SPLIT_COMMAND: Subcommand = Subcommand {
    name: SPLIT,
    about: "Writes each message of a mailbox to a file of its own, and prints the names",
    after_help: "Examples:\n  mimetool split -C messages < mailbox\n  mimetool split --bare --unquote --name mail-%06d.eml --from mailbox\n  mimetool split --maildir -C Maildir < mailbox",
    arguments: &[
        FROM_OPTION,
        Argument {
            id: TEMPLATE,
            long: Some("name"),
            value_name: Some("TEMPLATE"),
            help: "Name the files so, with %d or %04d for the number of the message [default: %04d.eml]",
            ..OPTION
        },
        Argument {
            id: OVER,
            short: Some('f'),
            help: "Overwrite existing files",
            ..FLAG
        },
        Argument {
            id: SILENT,
            long: Some(SILENT),
            help: "Print no names",
            ..FLAG
        },
        Argument {
            id: MAILDIR,
            long: Some(MAILDIR),
            help: "Write to new/ of the Maildir DIR, each file whole at once, without the From-lines that begin messages; they are named by the time unless --name is there",
            ..FLAG
        },
        Argument {
            id: BARE,
            long: Some(BARE),
            help: "Leave out the From-line that begins each message",
            ..FLAG
        },
        Argument {
            help: "Remove one > from lines that begin with >From, >>From and so on",
            ..UNQUOTE_OPTION
        },
        Argument {
            id: DIR,
            short: Some('C'),
            help: "The folder to write to; it is created if it doesn't exist",
            ..OPTION
        },
        RFC4155_OPTION,
        MBOX_OPTION,
        EXPLAIN_OPTION,
    ],
};

/// -n N
pub const NUMBER_OPTION: Argument = Argument {
    id: NUMBER,
    short: Some('n'),
    value_name: Some("N"),
    help: "Treat the input as a mailbox, and take its N-th message, from 1",
    ..OPTION
};

/// --each
pub const EACH_OPTION: Argument = Argument {
    id: EACH,
    long: Some("each"),
    help: "Treat the input as a mailbox, and do so with each of its messages",
    conflicts: &[NUMBER],
    ..FLAG
};

/// --rfc4155
pub const RFC4155_OPTION: Argument = Argument {
    id: RFC4155,
    long: Some(RFC4155),
    help: "Cut the mailbox only at From-lines that end with a date, as --mbox=date does",
    ..FLAG
};

/// --mbox HOW
pub const MBOX_OPTION: Argument = Argument {
    id: MBOX,
    long: Some(MBOX),
    value_name: Some("HOW"),
    help: "Cut the mailbox at any From-line, only at those with a date, or only at those before a field: any, date or field",
    conflicts: &[RFC4155],
    ..OPTION
};

/// --unquote
pub const UNQUOTE_OPTION: Argument = Argument {
    id: UNQUOTE,
    long: Some(UNQUOTE),
    help: "With -n or --each, remove one > from lines that begin with >From, >>From and so on",
    ..FLAG
};
