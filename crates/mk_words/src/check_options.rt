//! The words of `check`.

use crate::arguments::{Argument, FLAG, Subcommand};
use crate::mailbox_options::{MBOX_OPTION, NUMBER_OPTION, RFC4155_OPTION};
use crate::options::{CHECK, JSON};
use crate::shared_options::{EXPLAIN_OPTION, FILES_ARGUMENT, FROM_FILES_OPTION, LABEL_OPTION};

/// mimetool check [-n N [--rfc4155|--mbox HOW]] [--json|-H] [--explain] [--from FILE..]
pub static CHECK_COMMAND: Subcommand = Subcommand {
    name: CHECK,
    about: "Says what is wrong with the message, one finding per line",
    after_help: "Examples:\n  mimetool check < message\n  mimetool check --json --from message",
    arguments: &[
        FROM_FILES_OPTION,
        Argument {
            id: JSON,
            long: Some(JSON),
            help: "Print a JSON object for each finding",
            ..FLAG
        },
        Argument {
            conflicts: &[JSON],
            ..LABEL_OPTION
        },
        EXPLAIN_OPTION,
        NUMBER_OPTION,
        RFC4155_OPTION,
        MBOX_OPTION,
        FILES_ARGUMENT,
    ],
};
