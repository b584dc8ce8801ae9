//! `pack`, over any devices.

use crate::faults::{Problem, usage};
use crate::files::{attachments, forwards};
use clap::ArgMatches;
use mk_asked::{name_form, subtype};
use mk_line::Ending;
use mk_mail::{NameForm, Sink, Source};
use mk_pack::{AttachOptions, PackOptions, try_pack, try_part, turned_parts};
use mk_run::Status;
use mk_words::options::{BOUNDARY, CHARSET, EOL, FORWARD, INLINE, PART, SPEC};
use std::rt::Files;

/// mimetool pack
pub fn pack<R: Files + AllocGlobal, S: Source, O: Sink, E: Sink>(
    rt: &R,
    matches: &ArgMatches<'_>,
    input: &mut S,
    out: &mut O,
    err: &mut E,
) -> Result<Status, Problem> {
    let alloc = rt.alloc();
    let utf8_names = name_form(matches) == NameForm::Utf8;
    let charset = matches.get_str(CHARSET).map(|word| word.as_bytes());
    let inline = matches.get_flag(INLINE);
    let turned = matches.get_flag(EOL);
    if let Some(word) = matches.get_str(PART) {
        let mut parts = attachments(rt, &[word], inline)?;
        if turned {
            parts = turned_parts(alloc, &parts, Ending::Lf)?;
        }
        let options = AttachOptions {
            charset,
            utf8_names,
        };
        return match parts.first() {
            Some(part) => Ok(try_part(alloc, out, err, options, part)?),
            None => Ok(usage(err)),
        };
    }
    let parts = attachments(rt, matches.get_strs(SPEC).unwrap_or(&[]), inline)?;
    let messages = forwards(rt, matches.get_strs(FORWARD).unwrap_or(&[]), inline)?;
    let options = PackOptions {
        utf8_names,
        subtype: subtype(matches),
        charset,
        boundary: matches.get_str(BOUNDARY).map(|word| word.as_bytes()),
        turned,
    };
    Ok(try_pack(alloc, input, out, err, options, &parts, &messages)?)
}
