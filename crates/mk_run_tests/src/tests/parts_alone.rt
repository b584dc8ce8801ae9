//! Parts printed alone. The expected bytes are worked out by hand.

use super::devices::Page;
use super::packed::parts;
use super::{SIZES, check_left};
use mk_mail::{Attach, Sink};
use mk_pack::{AttachOptions, try_part};
use mk_rows::{Row, rows};
use mk_run::{Cause, Spec, Status};
use std::alloc::Global;
use std::process::Abort;
use std::test::Fail;

const ROWS: &str = r#"
== a text
file: text/plain:d/n.txt
holds: hi\n
output: Content-Type: text/plain; name="n.txt"\nContent-Disposition: attachment; filename="n.txt"\nContent-Transfer-Encoding: quoted-printable\n\nhi\n
status: Well

== a picture
file: image/gif:d/x
holds: hi
output: Content-Type: image/gif; name="x"\nContent-Disposition: attachment; filename="x"\nContent-Transfer-Encoding: base64\n\naGk=
status: Well

== a name in UTF-8
form: utf-8
file: text/plain:d/\xc3\xbc.txt
holds: hi\n
output: Content-Type: text/plain; name="__.txt"\nContent-Disposition: attachment; filename="__.txt"; filename*=utf-8''%C3%BC.txt\nContent-Transfer-Encoding: quoted-printable\n\nhi\n
status: Well

== a name in UTF-8 that isn't asked for
file: text/plain:d/\xc3\xbc.txt
holds: hi\n
output:
errors: pack: BadName 0\n
status: Refused

== a multipart
file: multipart/mixed:x
holds: hi
output:
errors: pack: BadType 0\n
status: Refused

== no name, under a bad type: the type is named
file: text:d/
holds: hi
output:
errors: pack: BadType 0\n
status: Refused
"#;

fn options(row: &Row) -> AttachOptions<'_> {
    AttachOptions {
        charset: None,
        utf8_names: row.get("form").is_some(),
    }
}

fn check_row(rt: &impl Abort, alloc: Global, row: &Row) -> Result<(), Fail> {
    let parts = parts(rt, alloc, row)?;
    let part = parts.first().expect(rt, "a part");
    for size in SIZES {
        let mut out = Page::new(alloc, size)?;
        let mut err = Page::new(alloc, size)?;
        let done = try_part(alloc, &mut out, &mut err, options(row), part);
        let status = done.expect(rt, "no fault");
        check_left(rt, alloc, row, status, &out, &err)?;
    }
    Ok(())
}

#[test]
fn parts_are_printed_alone(rt: HostRuntime) -> Result<(), Fail> {
    for row in &rows(rt.alloc(), ROWS)? {
        check_row(&rt, rt.alloc(), row)?;
    }
    Ok(())
}

#[test]
fn a_failing_output_is_a_write_fault(rt: HostRuntime) -> Result<(), Fail> {
    let alloc = rt.alloc();
    let spec = Spec::of(b"image/gif:x").expect(&rt, "a colon");
    let part: Attach = spec.attach(alloc, Vec::from_slice(alloc, b"hi")?)?;
    let mut out = Page::failing(alloc, 7, 2)?;
    let mut err = Page::new(alloc, 7)?;
    let found = try_part(alloc, &mut out, &mut err, AttachOptions::default(), &part);
    assert!(rt; matches!(&found, Err(Cause::Write)));
    assert_eq!(rt; out.bytes(), b"Content-Type: ".as_slice());
    assert_eq!(rt; err.bytes(), b"".as_slice());
    Ok(())
}

const SIZE: usize = 1_000;

#[test]
fn memory_for_a_part_alone(rt: HostRuntime) {
    let alloc = rt.alloc();
    let (Ok(mut out), Ok(mut err)) = (Page::new(alloc, SIZE), Page::new(alloc, SIZE)) else {
        return;
    };
    let Some(spec) = Spec::of(b"image/gif:d/x") else {
        return;
    };
    let Ok(part) = spec.attach(alloc, Vec::new(alloc)) else {
        assert!(rt; spec.attach(alloc, Vec::new(alloc)).is_ok());
        return;
    };
    match try_part(alloc, &mut out, &mut err, AttachOptions::default(), &part) {
        Ok(status) => {
            assert_eq!(rt; status, Status::Well);
            assert!(rt; out.bytes().ends_with(b"base64\n\n"));
        }
        Err(cause) => {
            assert!(rt; matches!(&cause, Cause::Memory));
            assert_eq!(rt; out.bytes(), b"".as_slice());
        }
    }
    assert_eq!(rt; err.bytes(), b"".as_slice());
}
