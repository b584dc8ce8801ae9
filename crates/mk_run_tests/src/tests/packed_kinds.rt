//! Messages packed as multiparts of any kind, with texts that are shown and name a charset, and such parts alone. The
//! expected bytes are worked out by hand, and the digests come from another program's SHA-256.

use super::devices::{Page, Text};
use super::{SIZES, check_left};
use mk_mail::{Attach, Sink};
use mk_pack::{AttachOptions, MIXED, PackOptions, try_pack, try_part};
use mk_rows::{Cell, Row, rows};
use mk_run::Spec;
use std::alloc::Global;
use std::process::Abort;
use std::test::Fail;

const MESSAGES: &str = r#"
== a text in two forms
fields: Subject: s\n
subtype: alternative
inline: yes
charset: utf-8
boundary: b
file: text/plain:d/n.txt
holds: hi\n
file: text/html:d/n.html
holds: <p>hi\n
output: Subject: s\nMIME-Version: 1.0\nContent-Type: multipart/alternative; boundary="b"\n\n--b\nContent-Type: text/plain; charset=utf-8\nContent-Transfer-Encoding: quoted-printable\n\nhi\n\n--b\nContent-Type: text/html; charset=utf-8\nContent-Transfer-Encoding: quoted-printable\n\n<p>hi\n\n--b--\n
status: Well

== a charset before the name
fields: Subject: s\n
charset: utf-8
boundary: b
file: text/plain:d/n.txt
holds: hi\n
output: Subject: s\nMIME-Version: 1.0\nContent-Type: multipart/mixed; boundary="b"\n\n--b\nContent-Type: text/plain; charset=utf-8; name="n.txt"\nContent-Disposition: attachment; filename="n.txt"\nContent-Transfer-Encoding: quoted-printable\n\nhi\n\n--b--\n
status: Well

== a picture keeps its name and has no charset
fields: \n
subtype: related
inline: yes
charset: utf-8
boundary: b
file: image/gif:d/x
holds: hi
output: MIME-Version: 1.0\nContent-Type: multipart/related; boundary="b"\n\n--b\nContent-Type: image/gif; name="x"\nContent-Disposition: attachment; filename="x"\nContent-Transfer-Encoding: base64\n\naGk=\n--b--\n
status: Well

== texts get the endings of the fields, and other files stay
fields: Subject: s\r\n
turned: yes
boundary: b
file: text/plain:n.txt
holds: a\nb\r\n
file: image/gif:x
holds: \n
output: Subject: s\r\nMIME-Version: 1.0\r\nContent-Type: multipart/mixed; boundary="b"\r\n\r\n--b\r\nContent-Type: text/plain; name="n.txt"\r\nContent-Disposition: attachment; filename="n.txt"\r\nContent-Transfer-Encoding: quoted-printable\r\n\r\na\r\nb\r\n\r\n--b\r\nContent-Type: image/gif; name="x"\r\nContent-Disposition: attachment; filename="x"\r\nContent-Transfer-Encoding: base64\r\n\r\nCg==\r\n--b--\r\n
status: Well

== a text in capitals is a text, whatever its name
fields:
inline: yes
charset: UTF-8
boundary: b
file: TEXT/Plain:d/"
holds: hi\n
output: MIME-Version: 1.0\nContent-Type: multipart/mixed; boundary="b"\n\n--b\nContent-Type: TEXT/Plain; charset=UTF-8\nContent-Transfer-Encoding: quoted-printable\n\nhi\n\n--b--\n
status: Well

== the subtype and the charset aren't digested: `10:Subject: s10:text/plain5:n.txt3:hi` and a line feed
fields: Subject: s
subtype: digest
charset: utf-8
file: text/plain:d/n.txt
holds: hi\n
output: Subject: s\nMIME-Version: 1.0\nContent-Type: multipart/digest; boundary="=_dcd013966233657e80f22dbb"\n\n--=_dcd013966233657e80f22dbb\nContent-Type: text/plain; charset=utf-8; name="n.txt"\nContent-Disposition: attachment; filename="n.txt"\nContent-Transfer-Encoding: quoted-printable\n\nhi\n\n--=_dcd013966233657e80f22dbb--\n
status: Well

== a name that is left out isn't digested: `10:Subject: s10:text/plain0:3:hi` and a line feed
fields: Subject: s
inline: yes
file: text/plain:d/n.txt
holds: hi\n
output: Subject: s\nMIME-Version: 1.0\nContent-Type: multipart/mixed; boundary="=_8edf1a84a495e1aa19da5635"\n\n--=_8edf1a84a495e1aa19da5635\nContent-Type: text/plain\nContent-Transfer-Encoding: quoted-printable\n\nhi\n\n--=_8edf1a84a495e1aa19da5635--\n
status: Well

== no token for a subtype
fields: \n
subtype: a b
charset: a b
boundary:
file: text/plain:d/n.txt
holds: hi\n
output:
errors: pack: BadSubtype\n
status: Refused

== no byte for a subtype
fields: \n
subtype:
boundary: b
file: text/plain:d/n.txt
holds: hi\n
output:
errors: pack: BadSubtype\n
status: Refused

== no token for a charset, and no text for it
fields: \n
charset: utf 8
boundary:
file: image/gif:d/x
holds: hi
output:
errors: pack: BadCharset\n
status: Refused

== the name comes before the subtype
fields: \n
subtype: a b
boundary: b
file: image/gif:d/"
holds: hi
output:
errors: pack: BadName 0\n
status: Refused

== no boundary
fields: \n
subtype: digest
charset: utf-8
boundary:
file: image/gif:d/x
holds: hi
output:
errors: pack: BadBoundary\n
status: Refused
"#;

const PARTS: &str = r#"
== a text that is shown, with a charset
inline: yes
charset: utf-8
file: text/html:d/n.html
holds: <p>hi\n
output: Content-Type: text/html; charset=utf-8\nContent-Transfer-Encoding: quoted-printable\n\n<p>hi\n
status: Well

== a charset before the name
charset: utf-8
file: text/plain:d/n.txt
holds: hi\n
output: Content-Type: text/plain; charset=utf-8; name="n.txt"\nContent-Disposition: attachment; filename="n.txt"\nContent-Transfer-Encoding: quoted-printable\n\nhi\n
status: Well

== a picture
inline: yes
charset: utf-8
file: image/gif:d/x
holds: hi
output: Content-Type: image/gif; name="x"\nContent-Disposition: attachment; filename="x"\nContent-Transfer-Encoding: base64\n\naGk=
status: Well

== no token for a charset
charset: utf;8
file: text/plain:d/n.txt
holds: hi\n
output:
errors: pack: BadCharset\n
status: Refused

== the type comes before the charset
charset:
file: multipart/mixed:d/x
holds: hi
output:
errors: pack: BadType 0\n
status: Refused
"#;

fn bytes(cell: Option<&Cell>) -> Option<&[u8]> {
    match cell {
        Some(cell) => Some(&cell.bytes),
        None => None,
    }
}

/// The parts of a row, each a file after what it holds.
pub fn parts(rt: &impl Abort, alloc: Global, row: &Row) -> Result<Vec<Attach>, Fail> {
    let mut parts = Vec::new(alloc);
    let mut word: &[u8] = &[];
    for cell in &row.cells {
        match cell.key {
            "file" => word = &cell.bytes,
            "holds" => parts.push(part(rt, alloc, word, &cell.bytes, row)?)?,
            _ => {}
        }
    }
    Ok(parts)
}

fn part(
    rt: &impl Abort,
    alloc: Global,
    word: &[u8],
    holds: &[u8],
    row: &Row,
) -> Result<Attach, Fail> {
    let spec = Spec::of(word).expect(rt, "a colon");
    let text = Vec::from_slice(alloc, holds)?;
    Ok(if row.get("inline").is_some() {
        spec.inline(alloc, text)?
    } else {
        spec.attach(alloc, text)?
    })
}

/// The options of a row.
pub fn options(row: &Row) -> PackOptions<'_> {
    PackOptions {
        utf8_names: false,
        subtype: bytes(row.get("subtype")).unwrap_or(MIXED),
        charset: bytes(row.get("charset")),
        boundary: bytes(row.get("boundary")),
        turned: row.get("turned").is_some(),
    }
}

fn check_message(rt: &impl Abort, alloc: Global, row: &Row) -> Result<(), Fail> {
    let parts = parts(rt, alloc, row)?;
    for size in SIZES {
        let mut input = Text::new(row.bytes("fields"), size);
        let mut out = Page::new(alloc, size)?;
        let mut err = Page::new(alloc, size)?;
        let status = try_pack(
            alloc,
            &mut input,
            &mut out,
            &mut err,
            options(row),
            &parts,
            &[],
        )
        .expect(rt, "no fault");
        check_left(rt, alloc, row, status, &out, &err)?;
    }
    Ok(())
}

fn check_part(rt: &impl Abort, alloc: Global, row: &Row) -> Result<(), Fail> {
    let parts = parts(rt, alloc, row)?;
    let part = parts.first().expect(rt, "a part");
    let options = AttachOptions {
        charset: bytes(row.get("charset")),
        utf8_names: false,
    };
    for size in SIZES {
        let mut out = Page::new(alloc, size)?;
        let mut err = Page::new(alloc, size)?;
        let status = try_part(alloc, &mut out, &mut err, options, part).expect(rt, "no fault");
        check_left(rt, alloc, row, status, &out, &err)?;
    }
    Ok(())
}

#[test]
fn multiparts_are_of_any_kind(rt: HostRuntime) -> Result<(), Fail> {
    for row in &rows(rt.alloc(), MESSAGES)? {
        check_message(&rt, rt.alloc(), row)?;
    }
    Ok(())
}

#[test]
fn parts_alone_name_a_charset(rt: HostRuntime) -> Result<(), Fail> {
    for row in &rows(rt.alloc(), PARTS)? {
        check_part(&rt, rt.alloc(), row)?;
    }
    Ok(())
}
