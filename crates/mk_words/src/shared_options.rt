//! Options that several subcommands take.

use crate::arguments::{Argument, FLAG, OPTION};
use crate::options::{EXPLAIN, FILES, FROM, IN_PLACE, LABEL, TEMPFAIL, UTF8, WAIT};
use clap::ArgAction;

/// --from FILE
pub const FROM_OPTION: Argument = Argument {
    id: FROM,
    long: Some("from"),
    value_name: Some("FILE"),
    help: "Read the message from FILE, not from standard input",
    ..OPTION
};

/// --from FILE, for a command that takes several files
pub const FROM_FILES_OPTION: Argument = Argument {
    help: "Read the message from FILE, not from standard input; may be given more than once",
    action: ArgAction::Append,
    ..FROM_OPTION
};

/// FILE.., for such a command
pub const FILES_ARGUMENT: Argument = Argument {
    id: FILES,
    help: "More files, each taken by itself, like the one before them",
    action: ArgAction::Append,
    ..FLAG
};

/// -H, for such a command if it prints lines
pub const LABEL_OPTION: Argument = Argument {
    id: LABEL,
    short: Some('H'),
    help: "Print the name of the file and a colon before each line",
    ..FLAG
};

/// --in-place FILE
pub const IN_PLACE_OPTION: Argument = Argument {
    id: IN_PLACE,
    long: Some("in-place"),
    value_name: Some("FILE"),
    help: "Read the message from FILE, and replace FILE with the result",
    conflicts: &[FROM],
    ..OPTION
};

/// --in-place FILE, for a command that takes several files
pub const IN_PLACE_FILES_OPTION: Argument = Argument {
    help: "Read the message from FILE, and replace FILE with the result; may be given more than once",
    action: ArgAction::Append,
    ..IN_PLACE_OPTION
};

/// --wait[=SECONDS]
pub const WAIT_OPTION: Argument = Argument {
    id: WAIT,
    long: Some(WAIT),
    value_name: Some("SECONDS"),
    help: "Wait while another run is using the same file or journal, for SECONDS at most",
    takes_hyphens: false,
    is_value_optional: true,
    ..OPTION
};

/// --tempfail
pub const TEMPFAIL_OPTION: Argument = Argument {
    id: TEMPFAIL,
    long: Some(TEMPFAIL),
    help: "Exit with 75, not 3 or 4, when a read or a write fails or memory runs out",
    ..FLAG
};

/// --explain
pub const EXPLAIN_OPTION: Argument = Argument {
    id: EXPLAIN,
    long: Some(EXPLAIN),
    help: "Say what a reason means before the line that names it",
    ..FLAG
};

/// --utf8, with help of its own in each subcommand
pub const UTF8_OPTION: Argument = Argument {
    id: UTF8,
    long: Some(UTF8),
    ..FLAG
};
