//! Some leaves of a message unpacked: those at and below sections. The expected bytes are worked out by hand.

use super::check_left;
use super::devices::{Page, Text};
use super::memory::page;
use super::shelf::{Shelf, Slot};
use super::unpacked::{check_files, fill};
use mk_mail::{NameForm, Storing};
use mk_rows::{Row, rows};
use mk_run::{Cause, Clash, Manner, Report, Status, UnpackOptions, try_unpack};
use mk_script::numbers;
use std::alloc::{AllocError, Global};
use std::process::Abort;
use std::test::Fail;

const ROWS: &str = r#"
== one leaf, under the name that it gets among all
message: Content-Type: multipart/mixed; boundary=b\n\n--b\nContent-Type: image/gif; name=x\n\n1\n--b\nContent-Type: multipart/mixed; boundary=c\n\n--c\nContent-Type: image/gif; name=x\n\n2\n--c\nContent-Type: image/gif; name=x\n\n3\n--c--\n--b\nContent-Type: message/rfc822\n\nA: b\n\nx\n--b--\n
section: 1.2.2
after x.2: 3
output: x.2 (image/gif)\n
status: Well

== all below a section
message: Content-Type: multipart/mixed; boundary=b\n\n--b\nContent-Type: image/gif; name=x\n\n1\n--b\nContent-Type: multipart/mixed; boundary=c\n\n--c\nContent-Type: image/gif; name=x\n\n2\n--c\nContent-Type: image/gif; name=x\n\n3\n--c--\n--b--\n
section: 1.2
after x.1: 2
after x.2: 3
output: x.1 (image/gif)\nx.2 (image/gif)\n
status: Well

== in the order of the message, and none twice
message: Content-Type: multipart/mixed; boundary=b\n\n--b\nContent-Type: image/gif; name=x\n\n1\n--b\nContent-Type: multipart/mixed; boundary=c\n\n--c\nContent-Type: image/gif; name=x\n\n2\n--c\nContent-Type: image/gif; name=x\n\n3\n--c--\n--b--\n
section: 1.2.1
section: 1.1
section: 1.2.1
report: paths
after x: 1
after x.1: 2
output: 1.1 x (image/gif)\n1.2.1 x.1 (image/gif)\n
status: Well

== the message in a message
message: Content-Type: multipart/mixed; boundary=b\n\n--b\n\n1\n--b\nContent-Type: message/rfc822\n\nA: b\n\nx\n--b--\n
section: 1.2
texts: yes
report: paths
after part-1.2.1: x
output: 1.2.1 part-1.2.1 (text/plain)\n
status: Well

== a path is not below one whose last number begins with the same digits
message: Content-Type: multipart/mixed; boundary=b\n\n--b\n\n1\n--b\n\n2\n--b\n\n3\n--b\n\n4\n--b\n\n5\n--b\n\n6\n--b\n\n7\n--b\n\n8\n--b\n\n9\n--b\n\n10\n--b--\n
section: 1.1
texts: yes
after part-1.1: 1
output: part-1.1 (text/plain)\n
status: Well

== paths that lead to no section come first, in the order given
message: Content-Type: multipart/mixed; boundary=b\n\n--b\nContent-Type: image/gif; name=x\n\n1\n--b\nContent-Type: image/gif\nContent-Transfer-Encoding: base64\n\na\n--b--\n
section: 1.9
section: 1
section: 1.1.1
after x: 1
output: x (image/gif)\n
errors: 1.9: NoSuchSection\n1.1.1: NoSuchSection\n1.2: BadBase64\n
status: Refused

== nothing but a path that leads to no section
message: A: b\n\nx\n
section: 2
texts: yes
errors: 2: NoSuchSection\n
status: Refused

== a text without a name is left out all the same
message: A: b\n\nx\n
section: 1
status: Well

== nothing is said
message: Content-Type: image/gif; name=x\n\n1
section: 1
report: nothing
after x: 1
status: Well

== all leaves, with their paths
message: Content-Type: multipart/mixed; boundary=b\n\n--b\nContent-Type: image/gif; name=x\n\n1\n--b\n\n2\n--b--\n
texts: yes
report: paths
before x: old
after x: old
after x.1: 1
after part-1.2: 2
output: 1.1 x.1 (image/gif)\n1.2 part-1.2 (text/plain)\n
status: Well
"#;

const SIZES: [usize; 2] = [1, 1_000];

// What a row says of the files that are put.
fn report(row: &Row) -> Report {
    match row.text("report") {
        "nothing" => Report::Nothing,
        "paths" => Report::Paths,
        _ => Report::Names,
    }
}

// What becomes of a content whose name a file has.
fn clash(row: &Row) -> Clash {
    match row.text("clash") {
        "over" => Clash::Over,
        "counted" => Clash::Counted,
        _ => Clash::Numbered,
    }
}

// What a row stores.
fn storing(row: &Row) -> Storing {
    Storing {
        form: NameForm::Plain,
        texts: row.text("texts") == "yes",
        messages: row.text("messages") == "yes",
        content_ids: row.text("ids") == "yes",
    }
}

/// Unpacks as a row says, and checks what is left.
pub(super) fn check_row(rt: &impl Abort, alloc: Global, row: &Row) -> Result<(), Fail> {
    let mut sections = Vec::new(alloc);
    for cell in &row.cells {
        if cell.key == "section" {
            sections.push(numbers(alloc, &cell.bytes)?.expect(rt, "a path"))?;
        }
    }
    let manner = Manner {
        clash: clash(row),
        report: report(row),
    };
    let options = UnpackOptions {
        manner,
        storing: storing(row),
        prefix: row.text("prefix") == "yes",
        sections: (!sections.is_empty()).then_some(sections.as_slice()),
    };
    for size in SIZES {
        check_sized(rt, alloc, row, size, options)?;
    }
    Ok(())
}

// What is unpacked over devices that take so many bytes at once.
fn check_sized(
    rt: &impl Abort,
    alloc: Global,
    row: &Row,
    size: usize,
    options: UnpackOptions<'_>,
) -> Result<(), Fail> {
    let mut input = Text::new(row.bytes("message"), size);
    let mut out = Page::new(alloc, size)?;
    let mut err = Page::new(alloc, size)?;
    let mut dir = Shelf::new(alloc);
    fill(&mut dir, row)?;
    let done = try_unpack(alloc, &mut input, &mut out, &mut err, &mut dir, options);
    let status = done.ok().unwrap_or(Status::Fault);
    check_left(rt, alloc, row, status, &out, &err)?;
    check_files(rt, &dir, row);
    Ok(())
}

#[test]
fn chosen_leaves_are_put_under_their_names(rt: HostRuntime) -> Result<(), Fail> {
    for row in &rows(rt.alloc(), ROWS)? {
        check_row(&rt, rt.alloc(), row)?;
    }
    Ok(())
}

const TWO: &[u8] =
    b"Content-Type: multipart/mixed; boundary=b\n\n--b\n\n1\n--b\nContent-Type: image/gif; name=x\n\nhi\n--b--\n";

#[test]
fn memory_for_sections_alone(rt: HostRuntime) {
    let alloc = rt.alloc();
    let (Ok(mut out), Ok(mut err)) = (Page::new(alloc, 100), Page::new(alloc, 100)) else {
        return;
    };
    let (Ok(sections), Ok(mut dir)) = (two_paths(alloc), Slot::new(alloc, 100)) else {
        return;
    };
    if !is_put(&rt, alloc, &mut out, &mut err, &mut dir, &sections) {
        let mut dir = Slot::new(alloc, 100).expect(&rt, "memory");
        let (mut out, mut err) = (page(&rt, alloc), page(&rt, alloc));
        let put = is_put(&rt, alloc, &mut out, &mut err, &mut dir, &sections);
        assert!(rt; put);
    }
}

// The path of a section, and one that leads to none.
fn two_paths(alloc: Global) -> Result<Vec<Vec<u32>>, AllocError> {
    let mut paths = Vec::with_capacity(alloc, 2)?;
    paths.push(Vec::from_slice(alloc, &[1, 2])?)?;
    paths.push(Vec::from_slice(alloc, &[1, 3])?)?;
    Ok(paths)
}

// Whether the section's leaf was put and all was said, rather than that memory ran out.
fn is_put(
    rt: &impl Abort,
    alloc: Global,
    out: &mut Page,
    err: &mut Page,
    dir: &mut Slot,
    sections: &[Vec<u32>],
) -> bool {
    let mut input = Text::new(TWO, 100);
    let manner = Manner {
        clash: Clash::Numbered,
        report: Report::Paths,
    };
    let options = UnpackOptions {
        manner,
        storing: Storing {
            texts: true,
            ..Storing::default()
        },
        prefix: false,
        sections: Some(sections),
    };
    let done = try_unpack(alloc, &mut input, out, err, dir, options);
    if done == Err(Cause::Memory) {
        assert_eq!(rt; out.bytes(), b"".as_slice());
        assert!(rt; b"1.3: NoSuchSection\n".starts_with(err.bytes()));
        assert!(rt; dir.file() == (b"", b"") || dir.file() == (b"x", b"hi"));
        return false;
    }
    assert!(rt; done == Ok(Status::Refused));
    assert_eq!(rt; out.bytes(), b"1.2 x (image/gif)\n".as_slice());
    assert_eq!(rt; err.bytes(), b"1.3: NoSuchSection\n".as_slice());
    assert!(rt; dir.file() == (b"x", b"hi"));
    true
}
