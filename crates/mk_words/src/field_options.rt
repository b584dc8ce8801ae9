//! The words of `field`.

use crate::arguments::{Argument, FLAG, OPTION, OPTION_AGAIN, Subcommand};
use crate::edit_options::JOURNAL_OPTION;
use crate::mailbox_options::{MBOX_OPTION, RFC4155_OPTION};
use crate::options::{
    ADD, ADD_IF, ADDRESSES, DECODE, DROP, EACH, ENCODE, EOL, FIELD, FIRST, FROM, IDS, JOURNAL,
    KEEP, KEEP_ONLY, LAST, ONLY, PATH, PREFIXED, PREPEND, REFUSED_OK, RENAME, SUB, TAKE, UNFOLD,
    WHOLE,
};
use crate::shared_options::{
    EXPLAIN_OPTION, FILES_ARGUMENT, FROM_FILES_OPTION, IN_PLACE_FILES_OPTION, LABEL_OPTION,
    TEMPFAIL_OPTION, WAIT_OPTION,
};

/// A letter that takes a field, and may be given again.
const WITH_FIELD: Argument = Argument {
    value_name: Some("FIELD"),
    ..OPTION_AGAIN
};

/// A letter that takes a name and a colon, and may be given again.
const WITH_NAME: Argument = Argument {
    value_name: Some("NAME:"),
    ..OPTION_AGAIN
};

/// mimetool field [--from FILE..|--in-place FILE..] [-H] [--wait[=SECONDS]] [--tempfail] [-p PATH] [--prepend NAME:TEXT] [--sub NAME:s/OLD/NEW/] [--drop NAME:] [--keep NAME:] [--keep-only NAME:] [-a FIELD] [-A FIELD] [-i FIELD] [-I FIELD] [-u NAME:] [-U NAME:] [-x NAME:].. [-X NAME:].. [--rename OLD:NEW] [--unfold] [--decode] [--addresses] [--encode] [--eol] [--refused-ok] [-j JOURNAL|-D FILE] [-s|--each [--rfc4155|--mbox HOW]]
pub static FIELD_COMMAND: Subcommand = Subcommand {
    name: FIELD,
    about: "Adds, renames and removes fields of a message, or prints those of a name",
    after_help: "Letters work in this order, whatever the order of the command line: --prepend, --drop and --keep, --rename, -a, -A, -i, -I, -u, -U. A letter that is given again works on the result of the earlier ones, as in a pipe; so do --sub and --drop NAME:~PATTERN, each in its place on the command line.\n\nExamples:\n  mimetool field -I 'X-Seen: yes' --in-place message\n  mimetool field -x Subject: -H --from one two three\n  mimetool field -I 'X-Seen: yes' -I 'X-By: me' < message\n  mimetool field --prepend 'Subject:[list] ' < message\n  mimetool field --sub 'Subject:s/^Re: //' < message\n  mimetool field --drop 'Received:~by mx\\.example' < message\n  mimetool field --keep From: --keep Subject: --keep Date: < message\n  mimetool field -I 'X-Seen: yes' -j journal --in-place message\n  mimetool field -s -x Subject: --from mailbox\n  mimetool field --addresses -x To: -x Cc: < message\n  mimetool field -s -D ids < mailbox > unique\n  mimetool field -p 1.2 -x Content-Type: < message",
    arguments: &[
        FROM_FILES_OPTION,
        Argument {
            conflicts: &[FROM, TAKE, WHOLE],
            ..IN_PLACE_FILES_OPTION
        },
        LABEL_OPTION,
        Argument {
            id: PATH,
            short: Some('p'),
            help: "Work on the fields of the section at PATH, such as 1.2, not those of the message",
            ..OPTION
        },
        Argument {
            id: PREPEND,
            long: Some(PREPEND),
            value_name: Some("NAME:TEXT"),
            help: "Put TEXT at the start of the values of the fields NAME; all else in them stays as it is",
            ..OPTION_AGAIN
        },
        Argument {
            id: SUB,
            long: Some(SUB),
            value_name: Some("NAME:s/OLD/NEW/"),
            help: "In what the fields NAME say, put NEW in the place of what the regular expression OLD matches first; after the last slash, g means each match and i upper and lower case alike",
            ..OPTION_AGAIN
        },
        Argument {
            id: RENAME,
            long: Some(RENAME),
            value_name: Some("OLD:NEW"),
            help: "Give the fields OLD the name NEW",
            ..OPTION_AGAIN
        },
        Argument {
            id: ADD_IF,
            short: Some('a'),
            help: "Add FIELD if there is no field with its name",
            ..WITH_FIELD
        },
        Argument {
            id: ADD,
            short: Some('A'),
            help: "Add FIELD",
            ..WITH_FIELD
        },
        Argument {
            id: PREFIXED,
            short: Some('i'),
            help: "Put Old- before the fields with its name, and add FIELD; a name and a colon alone add nothing",
            ..WITH_FIELD
        },
        Argument {
            id: ONLY,
            short: Some('I'),
            help: "Remove the fields with its name, and add FIELD; a name and a colon alone add nothing",
            ..WITH_FIELD
        },
        Argument {
            id: DROP,
            long: Some(DROP),
            help: "Remove the fields NAME; NAME*: means all whose names begin with NAME, and NAME:~PATTERN the fields NAME whose text the regular expression PATTERN matches",
            ..WITH_NAME
        },
        Argument {
            id: KEEP,
            long: Some(KEEP),
            help: "Remove all fields but these, MIME-Version and those whose names begin with Content-; NAME*: as with --drop",
            ..WITH_NAME
        },
        Argument {
            id: KEEP_ONLY,
            long: Some(KEEP_ONLY),
            help: "The same, and remove MIME-Version and those that begin with Content-, too, if they aren't named",
            ..WITH_NAME
        },
        Argument {
            id: FIRST,
            short: Some('u'),
            help: "Keep only the first field NAME",
            ..WITH_NAME
        },
        Argument {
            id: LAST,
            short: Some('U'),
            help: "Keep only the last field NAME",
            ..WITH_NAME
        },
        Argument {
            id: TAKE,
            short: Some('x'),
            help: "Print the values of the fields NAME; given again, those of one name after those of another",
            ..WITH_NAME
        },
        Argument {
            id: WHOLE,
            short: Some('X'),
            help: "Print the fields NAME; given again, those of one name after those of another",
            ..WITH_NAME
        },
        Argument {
            id: UNFOLD,
            long: Some(UNFOLD),
            help: "With -x, print the value of each field on one line",
            ..FLAG
        },
        Argument {
            id: DECODE,
            long: Some(DECODE),
            help: "With -x, print the value of each field on one line, with its encoded words decoded",
            ..FLAG
        },
        Argument {
            id: ADDRESSES,
            long: Some(ADDRESSES),
            help: "With -x, print each address in the values on a line, without names and comments",
            conflicts: &[UNFOLD, DECODE],
            ..FLAG
        },
        Argument {
            id: ENCODE,
            long: Some(ENCODE),
            help: "Write values of FIELD that aren't plain ASCII as encoded words; in structured fields, only names, comments and parameters",
            ..FLAG
        },
        Argument {
            id: EOL,
            long: Some(EOL),
            help: "Give the lines of FIELD the line endings of the message",
            ..FLAG
        },
        Argument {
            id: REFUSED_OK,
            long: Some(REFUSED_OK),
            help: "Exit with 0 even if an edit is refused; the refusal is still reported",
            ..FLAG
        },
        EXPLAIN_OPTION,
        Argument {
            help: "The file that keeps the edits of this run, as one step, for undo and redo; it is created if it doesn't exist",
            conflicts: &[EACH, TAKE, WHOLE],
            ..JOURNAL_OPTION
        },
        Argument {
            id: IDS,
            short: Some('D'),
            value_name: Some("FILE"),
            help: "Leave out messages whose Message-ID is in FILE, a line for each, and add those of the others; it is created if it doesn't exist",
            conflicts: &[JOURNAL],
            ..OPTION
        },
        Argument {
            id: EACH,
            short: Some('s'),
            long: Some("each"),
            help: "Treat the input as a mailbox, message by message",
            ..FLAG
        },
        RFC4155_OPTION,
        MBOX_OPTION,
        WAIT_OPTION,
        TEMPFAIL_OPTION,
        FILES_ARGUMENT,
    ],
};
