//! The words of `reply`.

use crate::arguments::Subcommand;
use crate::mailbox_options::{MBOX_OPTION, NUMBER_OPTION, RFC4155_OPTION};
use crate::options::REPLY;
use crate::shared_options::{EXPLAIN_OPTION, FROM_OPTION};

/// mimetool reply [-n N [--rfc4155|--mbox HOW]] [--explain]
pub static REPLY_COMMAND: Subcommand = Subcommand {
    name: REPLY,
    about: "Prints the header of an answer to the message",
    after_help: "Examples:\n  mimetool reply < message\n  (mimetool reply --from message; cat answer.txt) | sendmail -t",
    arguments: &[
        FROM_OPTION,
        EXPLAIN_OPTION,
        NUMBER_OPTION,
        RFC4155_OPTION,
        MBOX_OPTION,
    ],
};
