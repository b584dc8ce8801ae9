//! The words of `pack`.

use crate::arguments::{Argument, FLAG, OPTION, Subcommand};
use crate::options::{BOUNDARY, CHARSET, EOL, FORWARD, INLINE, PACK, PART, SPEC, SUBTYPE};
use crate::shared_options::{EXPLAIN_OPTION, UTF8_OPTION};
use clap::ArgAction;

/// mimetool pack [-b BOUNDARY] [-m SUBTYPE] [--inline] [--charset NAME] [--eol] [--utf8] [--forward FILE].. SPEC..
/// mimetool pack [--inline] [--charset NAME] [--eol] [--utf8] --part SPEC
pub static PACK_COMMAND: Subcommand = Subcommand {
    name: PACK,
    about: "Builds a multipart from files, after the fields on standard input, and prints it",
    after_help: "Examples:\n  mimetool pack text/plain:letter image/gif:dot.gif < fields\n  printf 'Subject: report\\n' | mimetool pack -b =_b application/pdf:report.pdf\n  mimetool pack -m alternative --inline --charset utf-8 text/plain:letter text/html:letter.html < fields\n  mimetool pack text/plain:letter --forward message < fields\n  mimetool pack report.pdf scan-0041.png=receipt.png < fields\n  mimetool pack --part image/gif:dot.gif > part",
    arguments: &[
        Argument {
            id: BOUNDARY,
            short: Some('b'),
            help: "The boundary between the parts, such as =_b; if left out, one is made from what is packed",
            ..OPTION
        },
        Argument {
            id: SUBTYPE,
            short: Some('m'),
            help: "Make a multipart/SUBTYPE, such as alternative; if left out, multipart/mixed",
            ..OPTION
        },
        Argument {
            id: INLINE,
            long: Some(INLINE),
            help: "Give texts no name, and forwarded messages no disposition, so that mail readers show them",
            ..FLAG
        },
        Argument {
            id: CHARSET,
            long: Some(CHARSET),
            value_name: Some("NAME"),
            help: "Say that texts are in this charset, such as utf-8",
            ..OPTION
        },
        Argument {
            id: FORWARD,
            long: Some(FORWARD),
            value_name: Some("FILE"),
            help: "Add the message in FILE as it is, as a part message/rfc822 after the others; may be repeated",
            action: ArgAction::Append,
            ..FLAG
        },
        Argument {
            id: PART,
            long: Some(PART),
            value_name: Some(SPEC),
            help: "Print this part alone, for insert, and don't read standard input",
            action: ArgAction::Set,
            conflicts: &[BOUNDARY, SUBTYPE, FORWARD, SPEC],
            ..FLAG
        },
        Argument {
            id: EOL,
            long: Some(EOL),
            help: "Give the lines of texts the line endings of the fields",
            ..FLAG
        },
        Argument {
            help: "Also write file names that aren't ASCII as they are, for unpack --utf8",
            ..UTF8_OPTION
        },
        EXPLAIN_OPTION,
        Argument {
            id: SPEC,
            help: "The parts, each as FILE or TYPE:FILE, such as image/gif:dot.gif; without TYPE it is that of the ending of FILE, and =NAME after FILE is the name in place of FILE's own",
            action: ArgAction::Append,
            replaced_by: &[PART, FORWARD],
            ..FLAG
        },
    ],
};
