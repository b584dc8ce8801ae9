//! The words of `sections`, `extract` and `unpack`.

use crate::arguments::{Argument, FLAG, OPTION, OPTION_AGAIN, Subcommand};
use crate::mailbox_options::{
    EACH_OPTION, MBOX_OPTION, NUMBER_OPTION, RFC4155_OPTION, UNQUOTE_OPTION,
};
use crate::options::{
    BY_ID, COUNTED, DIR, EXTRACT, FORWARDED, HEAD, JSON, OVER, PATH, PATHS, PREFIX, RAW, SECTIONS,
    SILENT, TEXTS, UNPACK,
};
use crate::shared_options::{
    EXPLAIN_OPTION, FILES_ARGUMENT, FROM_FILES_OPTION, LABEL_OPTION, UTF8_OPTION,
};

/// mimetool sections [-n N|--each [--rfc4155|--mbox HOW] [--unquote]] [--json [--utf8]|-H] [--explain] [--from FILE..]
pub static SECTIONS_COMMAND: Subcommand = Subcommand {
    name: SECTIONS,
    about: "Lists the sections of the message, one per line",
    after_help: "Examples:\n  mimetool sections < message\n  mimetool sections --json --from message\n  mimetool sections --each < mailbox",
    arguments: &[
        FROM_FILES_OPTION,
        Argument {
            id: JSON,
            long: Some(JSON),
            help: "Print a JSON object for each section",
            ..FLAG
        },
        Argument {
            conflicts: &[JSON],
            ..LABEL_OPTION
        },
        Argument {
            help: "With --json, give the names that unpack --utf8 gives",
            ..UTF8_OPTION
        },
        EXPLAIN_OPTION,
        NUMBER_OPTION,
        Argument {
            help: "Treat the input as a mailbox, and list the sections of each message, after its number",
            ..EACH_OPTION
        },
        RFC4155_OPTION,
        MBOX_OPTION,
        UNQUOTE_OPTION,
        FILES_ARGUMENT,
    ],
};

/// mimetool extract [-n N|--each [--rfc4155|--mbox HOW] [--unquote]] -s PATH.. [--raw|--head|--prefix|--utf8] [--from FILE..]
pub static EXTRACT_COMMAND: Subcommand = Subcommand {
    name: EXTRACT,
    about: "Prints the content of a section, decoded if no sections are below it",
    after_help: "Examples:\n  mimetool extract -s 1.2 < message > picture.gif\n  mimetool extract -s 1 --head --from message",
    arguments: &[
        FROM_FILES_OPTION,
        Argument {
            id: PATH,
            short: Some('s'),
            help: "The path of the section, such as 1 or 1.2; may be given more than once",
            is_required: true,
            ..OPTION_AGAIN
        },
        Argument {
            id: RAW,
            long: Some(RAW),
            help: "Print the content as it is, not decoded",
            ..FLAG
        },
        Argument {
            id: HEAD,
            long: Some(HEAD),
            help: "Print the fields of the section, not its content",
            conflicts: &[RAW],
            ..FLAG
        },
        Argument {
            id: PREFIX,
            long: Some(PREFIX),
            help: "Print what can be decoded of invalid base64; the fault is still reported",
            conflicts: &[RAW, HEAD],
            ..FLAG
        },
        Argument {
            help: "Print the content in UTF-8, by the charset that the type names",
            conflicts: &[RAW, HEAD, PREFIX],
            ..UTF8_OPTION
        },
        EXPLAIN_OPTION,
        NUMBER_OPTION,
        Argument {
            help: "Treat the input as a mailbox, and print this of each message, one after another",
            ..EACH_OPTION
        },
        RFC4155_OPTION,
        MBOX_OPTION,
        UNQUOTE_OPTION,
        FILES_ARGUMENT,
    ],
};

/// mimetool unpack [-n N|--each [--rfc4155|--mbox HOW] [--unquote]] [-f|--number] [-t] [--messages] [--prefix] [-s PATH].. [--silent|--paths] [--utf8] [--content-id] [-C DIR] [--from FILE..]
pub static UNPACK_COMMAND: Subcommand = Subcommand {
    name: UNPACK,
    about: "Writes the contents of the leaves to files, and prints their names and types",
    after_help: "Examples:\n  mimetool unpack -C attachments < message\n  mimetool unpack -t -f --from message\n  mimetool unpack -s 1.2 -s 1.3 --paths < message",
    arguments: &[
        FROM_FILES_OPTION,
        Argument {
            id: OVER,
            short: Some('f'),
            help: "Overwrite existing files",
            ..FLAG
        },
        Argument {
            id: COUNTED,
            long: Some(COUNTED),
            help: "Where files have the name, go on past .99",
            conflicts: &[OVER],
            ..FLAG
        },
        Argument {
            id: TEXTS,
            short: Some('t'),
            help: "Write texts without a name too",
            ..FLAG
        },
        Argument {
            id: FORWARDED,
            long: Some(FORWARDED),
            help: "Write each forwarded message too, as a whole",
            ..FLAG
        },
        Argument {
            id: PREFIX,
            long: Some(PREFIX),
            help: "Write what can be decoded of invalid base64 too, to NAME.part; the fault is still reported",
            ..FLAG
        },
        Argument {
            id: PATH,
            short: Some('s'),
            help: "Write only the leaves at and below this path, such as 1.2; may be given more than once",
            ..OPTION_AGAIN
        },
        Argument {
            id: SILENT,
            long: Some(SILENT),
            help: "Print no names",
            ..FLAG
        },
        Argument {
            id: PATHS,
            long: Some(PATHS),
            help: "Print the path of each section before its name",
            conflicts: &[SILENT],
            ..FLAG
        },
        Argument {
            help: "Name files in UTF-8, as the message does, not only in ASCII",
            ..UTF8_OPTION
        },
        Argument {
            id: BY_ID,
            long: Some(BY_ID),
            help: "Name a part that has a Content-ID by it",
            ..FLAG
        },
        Argument {
            id: DIR,
            short: Some('C'),
            help: "The folder to write to; it is created if it doesn't exist",
            ..OPTION
        },
        EXPLAIN_OPTION,
        NUMBER_OPTION,
        Argument {
            help: "Treat the input as a mailbox, and write those of each message, with its number before what is printed",
            ..EACH_OPTION
        },
        RFC4155_OPTION,
        MBOX_OPTION,
        UNQUOTE_OPTION,
        FILES_ARGUMENT,
    ],
};
