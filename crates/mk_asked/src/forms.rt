//! What the options ask for, in the words of the runs.

use clap::ArgMatches;
use mk_field::{FieldForm, ValueForm};
use mk_pack::MIXED;
use mk_script::numbers;
use mk_show::{Clash, Manner, Portion, Report, UnpackOptions};
use mk_view::{NameForm, Storing};
use mk_words::options::{
    ADDRESSES, BY_ID, COUNTED, DECODE, ENCODE, EOL, FORWARDED, HEAD, OVER, PATHS, PREFIX, RAW,
    SILENT, SUBTYPE, TEMPLATE, TEXTS, UNFOLD, UTF8,
};
use std::alloc::{AllocError, Global};

/// How `split` names files if the command line doesn't say.
const USUAL_TEMPLATE: &str = "%04d.eml";

/// What `extract` gives of the section.
pub fn portion(matches: &ArgMatches<'_>) -> Portion {
    if matches.get_flag(RAW) {
        Portion::Raw
    } else if matches.get_flag(HEAD) {
        Portion::Head
    } else if matches.get_flag(PREFIX) {
        Portion::Prefix
    } else if matches.get_flag(UTF8) {
        Portion::Utf8
    } else {
        Portion::Content
    }
}

// What `unpack` says of the files that it writes.
fn report(matches: &ArgMatches<'_>) -> Report {
    if matches.get_flag(SILENT) {
        Report::Nothing
    } else if matches.get_flag(PATHS) {
        Report::Paths
    } else {
        Report::Names
    }
}

/// What `unpack` writes, and how: all leaves where no path is given.
pub fn unpack_options<'a>(matches: &ArgMatches<'_>, sections: &'a [Vec<u32>]) -> UnpackOptions<'a> {
    UnpackOptions {
        manner: Manner {
            clash: clash(matches),
            report: report(matches),
        },
        storing: Storing {
            form: name_form(matches),
            texts: matches.get_flag(TEXTS),
            messages: matches.get_flag(FORWARDED),
            content_ids: matches.get_flag(BY_ID),
        },
        prefix: matches.get_flag(PREFIX),
        sections: (!sections.is_empty()).then_some(sections),
    }
}

// What becomes of a content whose name a file has already.
fn clash(matches: &ArgMatches<'_>) -> Clash {
    if matches.get_flag(OVER) {
        Clash::Over
    } else if matches.get_flag(COUNTED) {
        Clash::Counted
    } else {
        Clash::Numbered
    }
}

/// The paths that words write, if each writes one.
pub fn paths(alloc: Global, words: &[&str]) -> Result<Option<Vec<Vec<u32>>>, AllocError> {
    let mut paths = Vec::new(alloc);
    for word in words {
        match numbers(alloc, word.as_bytes())? {
            Some(path) => paths.push(path)?,
            None => return Ok(None),
        }
    }
    Ok(Some(paths))
}

/// The form in which files are named.
pub fn name_form(matches: &ArgMatches<'_>) -> NameForm {
    if matches.get_flag(UTF8) {
        NameForm::Utf8
    } else {
        NameForm::Plain
    }
}

/// How fields go into a message.
pub fn field_form(matches: &ArgMatches<'_>) -> FieldForm {
    FieldForm {
        encoded: matches.get_flag(ENCODE),
        turned: matches.get_flag(EOL),
    }
}

/// How `-x` prints values.
pub fn value_form(matches: &ArgMatches<'_>) -> ValueForm {
    if matches.get_flag(ADDRESSES) {
        ValueForm::Addresses
    } else if matches.get_flag(DECODE) {
        ValueForm::Decoded
    } else if matches.get_flag(UNFOLD) {
        ValueForm::Unfolded
    } else {
        ValueForm::AsWritten
    }
}

/// How `split` names files.
pub fn template<'a>(matches: &'a ArgMatches<'_>) -> &'a str {
    match matches.get_str(TEMPLATE) {
        Some(word) => word,
        None => USUAL_TEMPLATE,
    }
}

/// The subtype of the multipart that `pack` builds.
pub fn subtype<'a>(matches: &'a ArgMatches<'_>) -> &'a [u8] {
    match matches.get_str(SUBTYPE) {
        Some(word) => word.as_bytes(),
        None => MIXED,
    }
}
