//! Documents after a change: what is put where, the text that comes of it, and its sections.
ghost use Rattle.mk_tree_tests.specs.inner.Changes.{Changes};

use super::{LEVELS, read};
use mk_tree::{Change, Section};
use std::alloc::Global;
use std::process::Abort;
use std::test::Fail;

/// Two sections and those at most this many levels below them.
pub fn same_sections(rt: &impl Abort, one: &Section<'_>, other: &Section<'_>, levels: u8) {
    assert_eq!(rt; one.kind(), other.kind());
    assert_eq!(rt; one.start(), other.start());
    assert_eq!(rt; one.body_start(), other.body_start());
    assert_eq!(rt; one.head(), other.head());
    assert_eq!(rt; one.raw(), other.raw());
    assert_eq!(rt; one.boundary(), other.boundary());
    assert_eq!(rt; one.parts(), other.parts());
    if levels > 0 {
        for (child, twin) in one.children().zip(other.children()) {
            same_sections(rt, &child, &twin, levels - 1);
        }
    }
}

fn check_change(
    rt: &impl Abort,
    alloc: Global,
    text: &[u8],
    path: &[u32],
    change: Change,
    after: &[u8],
)
    requires { Changes text.now path.now change }
{
    let mut doc = read(rt, alloc, text);
    let changed = doc.splice(path, change);
    assert!(rt; changed.is_ok());
    assert_eq!(rt; doc.text(), after);
    let anew = read(rt, alloc, after);
    same_sections(rt, &doc.root(), &anew.root(), LEVELS);
}

#[test]
fn a_field_more(rt: HostRuntime) -> Result<(), Fail> {
    let alloc = rt.alloc();
    let text = Vec::from_slice(alloc, b"A: b\n")?;
    let change = Change::Header {
        place: 11,
        count: 0,
        text,
    };
    check_change(
        &rt,
        alloc,
        b"Subject: s\n\nbody\n",
        &[1],
        change,
        b"Subject: s\nA: b\n\nbody\n",
    );
    Ok(())
}

#[test]
fn another_body_after_a_head(rt: HostRuntime) -> Result<(), Fail> {
    let alloc = rt.alloc();
    let text = Vec::from_slice(alloc, b"other\nlines\n")?;
    let change = Change::Body { text };
    check_change(
        &rt,
        alloc,
        b"Subject: s\n\nbody\n",
        &[1],
        change,
        b"Subject: s\n\nother\nlines\n",
    );
    Ok(())
}

#[test]
fn a_separator_and_a_body_after_fields_alone(rt: HostRuntime) -> Result<(), Fail> {
    let alloc = rt.alloc();
    let text = Vec::from_slice(alloc, b"\nbody")?;
    let change = Change::Body { text };
    check_change(
        &rt,
        alloc,
        b"Subject: s\n",
        &[1],
        change,
        b"Subject: s\n\nbody",
    );
    Ok(())
}

#[test]
fn a_message_in_the_place_of_a_leaf(rt: HostRuntime) -> Result<(), Fail> {
    let alloc = rt.alloc();
    let text = Vec::from_slice(alloc, b"Content-Type: message/rfc822\n\nSubject: s\n\nx\n")?;
    let change = Change::Entity { text };
    check_change(
        &rt,
        alloc,
        b"Subject: s\n\nbody\n",
        &[1],
        change,
        b"Content-Type: message/rfc822\n\nSubject: s\n\nx\n",
    );
    Ok(())
}

#[test]
fn a_part_between_two(rt: HostRuntime) -> Result<(), Fail> {
    let alloc = rt.alloc();
    let text = Vec::from_slice(alloc, b"--b\nContent-Transfer-Encoding: base64\n\naGk=\n")?;
    let change = Change::Part { place: 1, text };
    check_change(
        &rt,
        alloc,
        b"Subject: t\nContent-Type: multipart/mixed; boundary=\"b\"\n\npre\n--b\n\none\n--b \t\nContent-Type: text/html\n\ntwo\n--b--\nepi\n",
        &[1],
        change,
        b"Subject: t\nContent-Type: multipart/mixed; boundary=\"b\"\n\npre\n--b\n\none\n--b\nContent-Transfer-Encoding: base64\n\naGk=\n--b \t\nContent-Type: text/html\n\ntwo\n--b--\nepi\n",
    );
    Ok(())
}

#[test]
fn a_part_less(rt: HostRuntime) -> Result<(), Fail> {
    check_change(
        &rt,
        rt.alloc(),
        b"Subject: t\nContent-Type: multipart/mixed; boundary=\"b\"\n\npre\n--b\n\none\n--b \t\nContent-Type: text/html\n\ntwo\n--b--\nepi\n",
        &[1, 1],
        Change::NoPart,
        b"Subject: t\nContent-Type: multipart/mixed; boundary=\"b\"\n\npre\n--b \t\nContent-Type: text/html\n\ntwo\n--b--\nepi\n",
    );
    Ok(())
}
