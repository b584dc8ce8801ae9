//! Messages packed between boundaries that are made of what is packed. The digests come from another program's SHA-256.

use super::devices::{Page, Text};
use super::packed::parts;
use super::{SIZES, check_left};
use mk_mail::{Attach, Sink};
use mk_pack::{PackOptions, try_pack};
use mk_rows::{Row, rows};
use mk_run::{Cause, Spec, Status};
use std::alloc::Global;
use std::process::Abort;
use std::test::Fail;

/// What is digested stands beside each row.
const ROWS: &str = r#"
== a field and a note: `10:Subject: s10:text/plain5:n.txt3:hi` and a line feed
fields: Subject: s
file: text/plain:d/n.txt
holds: hi\n
output: Subject: s\nMIME-Version: 1.0\nContent-Type: multipart/mixed; boundary="=_dcd013966233657e80f22dbb"\n\n--=_dcd013966233657e80f22dbb\nContent-Type: text/plain; name="n.txt"\nContent-Disposition: attachment; filename="n.txt"\nContent-Transfer-Encoding: quoted-printable\n\nhi\n\n--=_dcd013966233657e80f22dbb--\n
status: Well

== nothing: no bytes
fields:
output: MIME-Version: 1.0\nContent-Type: multipart/mixed; boundary="=_e3b0c44298fc1c149afbf4c8"\n\n--=_e3b0c44298fc1c149afbf4c8--\n
status: Well

== two fields and two parts, with CR LF: each field with its endings
fields: A: b\r\nC: d\r\n e\r\n\r\n
file: text/plain:d/n.txt
holds: hi\n
file: image/gif:d/x
holds: hi
output: A: b\r\nC: d\r\n e\r\nMIME-Version: 1.0\r\nContent-Type: multipart/mixed; boundary="=_feae1f04a92cf0369540a546"\r\n\r\n--=_feae1f04a92cf0369540a546\r\nContent-Type: text/plain; name="n.txt"\r\nContent-Disposition: attachment; filename="n.txt"\r\nContent-Transfer-Encoding: quoted-printable\r\n\r\nhi=0A\r\n--=_feae1f04a92cf0369540a546\r\nContent-Type: image/gif; name="x"\r\nContent-Disposition: attachment; filename="x"\r\nContent-Transfer-Encoding: base64\r\n\r\naGk=\r\n--=_feae1f04a92cf0369540a546--\r\n
status: Well

== a picture alone: `9:image/gif1:x2:hi`
fields: \n
file: image/gif:d/x
holds: hi
output: MIME-Version: 1.0\nContent-Type: multipart/mixed; boundary="=_3956efcd6f635c92ac9cd051"\n\n--=_3956efcd6f635c92ac9cd051\nContent-Type: image/gif; name="x"\nContent-Disposition: attachment; filename="x"\nContent-Transfer-Encoding: base64\n\naGk=\n--=_3956efcd6f635c92ac9cd051--\n
status: Well

== a name in UTF-8, digested as it is given
fields:
form: utf-8
file: text/plain:d/Grüße.txt
holds: hi\n
output: MIME-Version: 1.0\nContent-Type: multipart/mixed; boundary="=_8a3a1bbf543b7ee66345d749"\n\n--=_8a3a1bbf543b7ee66345d749\nContent-Type: text/plain; name="Gr____e.txt"\nContent-Disposition: attachment; filename="Gr____e.txt"; filename*=utf-8''Gr%C3%BC%C3%9Fe.txt\nContent-Transfer-Encoding: quoted-printable\n\nhi\n\n--=_8a3a1bbf543b7ee66345d749--\n
status: Well

== a body is refused as ever
fields: A: b\n\nx\n
file: image/gif:d/x
holds: hi
output:
errors: pack: BadField 1\n
status: Refused

== so is a multipart
fields: A: b\n
file: multipart/mixed:d/x
holds: hi
output:
errors: pack: BadType 0\n
status: Refused
"#;

fn check_row(rt: &impl Abort, alloc: Global, row: &Row) -> Result<(), Fail> {
    let parts = parts(rt, alloc, row)?;
    let options = PackOptions {
        utf8_names: row.get("form").is_some(),
        ..PackOptions::default()
    };
    for size in SIZES {
        let mut input = Text::new(row.bytes("fields"), size);
        let mut out = Page::new(alloc, size)?;
        let mut err = Page::new(alloc, size)?;
        let done = try_pack(alloc, &mut input, &mut out, &mut err, options, &parts, &[]);
        let status = done.expect(rt, "no fault");
        check_left(rt, alloc, row, status, &out, &err)?;
    }
    Ok(())
}

#[test]
fn boundaries_are_made_of_what_is_packed(rt: HostRuntime) -> Result<(), Fail> {
    for row in &rows(rt.alloc(), ROWS)? {
        check_row(&rt, rt.alloc(), row)?;
    }
    Ok(())
}

const SIZE: usize = 1_000;

#[test]
fn memory_for_a_boundary_of_its_own(rt: HostRuntime) {
    let alloc = rt.alloc();
    let (Ok(out), Ok(err)) = (Page::new(alloc, SIZE), Page::new(alloc, SIZE)) else {
        return;
    };
    let Some(spec) = Spec::of(b"image/gif:d/x") else {
        return;
    };
    match spec.attach(alloc, Vec::new(alloc)) {
        Ok(part) => check_memory(&rt, alloc, out, err, &[part]),
        Err(_) => assert!(rt; spec.attach(alloc, Vec::new(alloc)).is_ok()),
    }
}

// The message goes out, or the run is given up when memory runs out.
fn check_memory(rt: &impl Abort, alloc: Global, mut out: Page, mut err: Page, parts: &[Attach]) {
    let mut input = Text::new(b"A: b", SIZE);
    let options = PackOptions::default();
    match try_pack(alloc, &mut input, &mut out, &mut err, options, parts, &[]) {
        Ok(status) => {
            assert_eq!(rt; status, Status::Well);
            assert!(rt; out.bytes().ends_with(b"--\n"));
        }
        Err(cause) => {
            assert!(rt; matches!(&cause, Cause::Memory));
            assert_eq!(rt; out.bytes(), b"".as_slice());
        }
    }
    assert_eq!(rt; err.bytes(), b"".as_slice());
}
