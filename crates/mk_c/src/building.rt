//! The calls that build a message: its fields, its parts and the messages that it forwards are put down one after another.
ghost use Rattle.std.specs.Prelude.{◌∷◌, ◌≡◌, ◌++◌, if◌then◌else◌, []};
ghost use Rattle.std.specs.Option.{option_map};
ghost use Rattle.mk_line.specs.declared.cutting.Ending.TheVariants.{Crlf, Lf};
ghost use Rattle.mk_c.specs.Building.{Builds, Drafts, Extends, if_given};
ghost use Rattle.mk_c.specs.Calls.{Calls};
ghost use Rattle.mk_c.specs.Desks.{forwarded, part_of};

use crate::handle::Handle;
use crate::status::{Place, Reason, told};
use mk_build::Multipart;
use mk_line::Ending;
use std::alloc::Global;

/// Puts down a field, with its line endings. It isn't one that is made: `MIME-Version` or `Content-..`.
#[unsafe(no_mangle)]
pub extern "C" fn mk_c_put_field(
    alloc: Global,
    handle: &mut Handle,
    text: &[u8],
    place: &mut Place,
) -> u32
    ensures { Calls (Drafts (Extends (λ d. record d { fields = d.fields ++ text.now ∷ [] }))) result place.new handle.old.desk handle.new.desk }
{
    let Some(mut editor) = handle.take(alloc) else {
        return told(Err(Reason::Closed), place);
    };
    let ended = editor.draft.put_field(alloc, text);
    handle.give(editor);
    told(ended, place)
}

/// Puts down a part: its media type, its name in UTF-8 where `named` holds, its bytes, and whether they go as base64 or as
/// quoted-printable.
#[unsafe(no_mangle)]
pub extern "C" fn mk_c_put_part(
    alloc: Global,
    handle: &mut Handle,
    media: &[u8],
    named: bool,
    name: &[u8],
    text: &[u8],
    base64: bool,
    place: &mut Place,
) -> u32
    ensures { Calls (Drafts (Extends (λ d. record d { parts = d.parts ++ part_of media.now (if_given named name.now) text.now base64 ∷ [] })))
        result place.new handle.old.desk handle.new.desk }
{
    let Some(mut editor) = handle.take(alloc) else {
        return told(Err(Reason::Closed), place);
    };
    let ended = editor
        .draft
        .put_part(alloc, media, given(named, name), text, base64);
    handle.give(editor);
    told(ended, place)
}

/// Puts down a message that becomes a part after the others, as it is, shown or attached.
#[unsafe(no_mangle)]
pub extern "C" fn mk_c_put_message(
    alloc: Global,
    handle: &mut Handle,
    text: &[u8],
    inline: bool,
    place: &mut Place,
) -> u32
    ensures { Calls (Drafts (Extends (λ d. record d { messages = d.messages ++ forwarded text.now inline ∷ [] }))) result place.new handle.old.desk handle.new.desk }
{
    let Some(mut editor) = handle.take(alloc) else {
        return told(Err(Reason::Closed), place);
    };
    let ended = editor.draft.put_message(alloc, text, inline);
    handle.give(editor);
    told(ended, place)
}

/// Answers the message of what was put down, and forgets that. Texts name the charset where `charset_given` holds. Lines that are
/// made end with CR LF where `crlf` holds, else with LF. Where it is refused, `place.edit` says which field, part or message it is.
#[unsafe(no_mangle)]
pub extern "C" fn mk_c_build(
    alloc: Global,
    handle: &mut Handle,
    subtype: &[u8],
    charset_given: bool,
    charset: &[u8],
    boundary: &[u8],
    crlf: bool,
    place: &mut Place,
) -> u32
    ensures { Calls (Builds (if crlf then Crlf else Lf) (record { subtype = subtype.now; charset = if_given charset_given charset.now; boundary = boundary.now }))
        result place.new handle.old.desk handle.new.desk }
{
    let Some(mut editor) = handle.take(alloc) else {
        return told(Err(Reason::Closed), place);
    };
    let multipart = Multipart {
        subtype,
        charset: given(charset_given, charset),
        boundary,
        utf8_names: true,
    };
    let eol = if crlf { Ending::Crlf } else { Ending::Lf };
    let ended = editor.build(alloc, &multipart, eol);
    handle.give(editor);
    told(ended, place)
}

fn given(given: bool, bytes: &[u8]) -> Option<&[u8]>
    ensures { option_map (λ b. b.now) result ≡ if_given given bytes.now }
{
    if given { Some(bytes) } else { None }
}
