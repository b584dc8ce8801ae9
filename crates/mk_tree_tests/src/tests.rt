//! What no clause says: that reading succeeds, and that the clauses mean what users of messages expect. Expected values
//! are from the RFCs and our own rules.
ghost use Rattle.std.specs.Prelude.{◌≡◌};

mod changes;
mod examples;
mod memory;
mod rows;

use mk_head::Encoding;
use mk_tree::{Described, Doc, Kind, Section, describe};
use rows::{MIXED, Place, ROWS, Row};
use std::alloc::{AllocError, Global};
use std::process::Abort;
use std::test::Fail;

/// More levels than the rows have.
const LEVELS: u8 = 5;

fn read(rt: &impl Abort, alloc: Global, text: &[u8]) -> Doc
    ensures { result ≡ text.now }
{
    let bytes = Vec::from_slice(alloc, text).expect(rt, "memory");
    match Doc::read(alloc, bytes) {
        Ok(doc) => doc,
        Err(_) => panic!(rt; "memory"),
    }
}

fn same(rt: &impl Abort, found: &[u8], expected: &[u8]) {
    assert_eq!(rt; found, expected);
}

fn section<'a>(rt: &impl Abort, doc: &'a Doc, path: &[u32]) -> Section<'a> {
    doc.section(path).expect(rt, "a section at the path")
}

fn check_place(rt: &impl Abort, doc: &Doc, place: &Place) {
    check_found(rt, &section(rt, doc, place.path), place);
}

fn check_found(rt: &impl Abort, found: &Section<'_>, place: &Place) {
    assert_eq!(rt; found.kind(), place.kind);
    assert_eq!(rt; found.start(), place.start);
    assert_eq!(rt; found.body_start(), place.body);
    assert_eq!(rt; found.end(), place.end);
    assert_eq!(rt; found.content(), place.content);
    assert_eq!(rt; found.parts(), place.parts);
}

// How many sections a section and those at most this many levels below it are.
fn count(section: &Section<'_>, levels: u8) -> usize {
    let mut all: usize = 1;
    if levels > 0 {
        for child in section.children() {
            all = all.saturating_add(count(&child, levels - 1));
        }
    }
    all
}

#[test]
fn sections_are_where_the_rules_put_them(rt: HostRuntime) {
    for row in &ROWS {
        check_row(&rt, &read(&rt, rt.alloc(), row.text), row);
    }
}

fn check_row(rt: &impl Abort, doc: &Doc, row: &Row) {
    for place in row.places {
        check_place(rt, doc, place);
    }
    assert_eq!(rt;
        count(&doc.root(), LEVELS),
        row.places.len(),
        "{}",
        row.name
    );
    assert_eq!(rt; doc.text(), row.text, "{}", row.name);
}

#[test]
fn there_is_no_section_at_other_paths(rt: HostRuntime) {
    let doc = read(&rt, rt.alloc(), MIXED);
    let paths: [&[u32]; 7] = [&[], &[0], &[2], &[1, 0], &[1, 3], &[1, 1, 1], &[2, 1]];
    for path in paths {
        assert!(rt; doc.section(path).is_none(), "{path:?}");
    }
}

#[test]
fn views_of_a_multipart_and_its_parts(rt: HostRuntime) {
    let doc = read(&rt, rt.alloc(), MIXED);
    check_multipart(&rt, &doc.root());
    check_fields(&rt, &doc.root());
    check_part(&rt, &section(&rt, &doc, &[1, 2]));
    check_digest(&rt, rt.alloc());
}

fn check_multipart(rt: &impl Abort, root: &Section<'_>) {
    assert_eq!(rt; root.raw(), MIXED);
    same(
        rt,
        root.head(),
        b"Subject: t\nContent-Type: multipart/mixed; boundary=\"b\"\n",
    );
    same(rt, root.preamble(), b"pre\n");
    same(rt, root.epilogue(), b"epi\n");
    assert_eq!(rt; root.boundary(), Some(b"b".as_slice()));
    assert!(rt; !root.followed());
    assert!(rt; !root.default_message());
}

fn check_fields(rt: &impl Abort, root: &Section<'_>) {
    assert_eq!(rt; root.fields(), 2);
    same(rt, root.field(1).expect(rt, "a field").raw, b"Subject: t\n");
    assert!(rt; root.field(0).is_none());
    assert!(rt; root.field(3).is_none());
    let kind = root.find(b"content-type", 1).expect(rt, "a field");
    same(rt, kind.name, b"Content-Type");
    assert!(rt; root.find(b"content-type", 2).is_none());
}

fn check_part(rt: &impl Abort, second: &Section<'_>) {
    same(rt, second.raw(), b"Content-Type: text/html\n\ntwo\n");
    same(rt, second.body(), b"two\n");
    assert!(rt; second.boundary().is_none());
    assert!(rt; second.preamble().is_empty() && second.epilogue().is_empty());
    assert!(rt; second.followed());
}

fn check_digest(rt: &impl Abort, alloc: Global) {
    let digest = read(
        rt,
        alloc,
        b"Content-Type: multipart/digest; boundary=b\n\n--b\n\nSubject: s\n\nx\n--b--\n",
    );
    assert!(rt; section(rt, &digest, &[1, 1]).default_message());
    let inner = section(rt, &digest, &[1, 1, 1]);
    assert!(rt; inner.followed() && !inner.default_message());
    assert!(rt; inner.find(b"subject", 1).is_some());
}

// This many multiparts, each the only part of the one before, whose boundaries begin with `b` and a number.
fn nested(alloc: Global, count: u32) -> Result<Vec<u8>, AllocError> {
    let mut text = Vec::new(alloc);
    for level in 1..=count {
        let line = format!(in alloc;
            "Content-Type: multipart/mixed; boundary=b{level}\n\n--b{level}\n"
        )?;
        text.extend_from_slice(line.as_bytes())?;
    }
    text.extend_from_slice(b"Content-Type: multipart/mixed; boundary=c\n\n--c\n\nx")?;
    Ok(text)
}

fn path_of(alloc: Global, levels: usize) -> Result<Vec<u32>, AllocError> {
    let mut path = Vec::new(alloc);
    for _ in 0..levels {
        path.push(1)?;
    }
    Ok(path)
}

#[test]
fn the_section_at_level_101_is_a_leaf(rt: HostRuntime) -> Result<(), Fail> {
    let text = nested(rt.alloc(), 100)?;
    check_deepest(&rt, rt.alloc(), &read(&rt, rt.alloc(), &text))
}

fn check_deepest(rt: &impl Abort, alloc: Global, doc: &Doc) -> Result<(), Fail> {
    let deepest = section(rt, doc, &path_of(alloc, 101)?);
    assert_eq!(rt; deepest.kind(), Kind::Leaf);
    same(rt, deepest.body(), b"--c\n\nx");
    let above = section(rt, doc, &path_of(alloc, 100)?);
    assert_eq!(rt; above.kind(), Kind::Multi);
    Ok(())
}

fn check_text(rt: &impl Abort, alloc: Global, text: &[u8]) {
    let doc = read(rt, alloc, text);
    assert_eq!(rt; doc.text(), text);
    assert_eq!(rt; doc.into_text().as_slice(), text);
}

#[test]
fn odd_texts_are_kept(rt: HostRuntime) -> Result<(), Fail> {
    let alloc = rt.alloc();
    check_text(&rt, alloc, &nested(alloc, 1000)?);
    let mut messages = Vec::new(alloc);
    for _ in 0..1000 {
        messages.extend_from_slice(b"Content-Type: message/rfc822\n\n")?;
    }
    check_text(&rt, alloc, &messages);
    check_text(
        &rt,
        alloc,
        b"Content-Type: multipart/mixed; boundary=b (c\n\n--b\n\nx\n",
    );
    check_text(
        &rt,
        alloc,
        b"Content-Type: multipart/mixed; boundary=\"b\n\n--b\n\nx\n",
    );
    let mut bytes = Vec::new(alloc);
    for byte in 0..=255 {
        bytes.push(byte)?;
    }
    check_text(&rt, alloc, &bytes);
    for size in 0..MIXED.len() {
        check_text(&rt, alloc, &MIXED[..size]);
    }
    Ok(())
}

#[test]
fn what_fields_say(rt: HostRuntime) -> Result<(), Fail> {
    let alloc = rt.alloc();
    let head = b"Subject: s\n t\nContent-Transfer-Encoding: (c) Base64\n";
    let doc = read(&rt, alloc, head);
    check_values(&rt, alloc, &doc.root())?;
    check_encoding(&rt, alloc, &doc.root())?;
    check_described(&rt, alloc)?;
    assert!(rt; matches!(describe(alloc, head, false)?, Described::Leaf));
    Ok(())
}

fn check_values(rt: &impl Abort, alloc: Global, root: &Section<'_>) -> Result<(), Fail> {
    let value = root.value(alloc, b"subject")?;
    same(rt, &value.expect(rt, "a value"), b" s t");
    assert!(rt; root.value(alloc, b"date")?.is_none());
    Ok(())
}

fn check_encoding(rt: &impl Abort, alloc: Global, root: &Section<'_>) -> Result<(), Fail> {
    assert_eq!(rt; root.encoding(alloc)?, Encoding::Base64);
    let (value, encoding) = root.content_fields(alloc)?;
    assert!(rt; value.is_none());
    assert_eq!(rt; encoding, Encoding::Base64);
    Ok(())
}

fn check_described(rt: &impl Abort, alloc: Global) -> Result<(), Fail> {
    match describe(
        alloc,
        b"Content-Type: multipart/digest; boundary=b\n",
        false,
    )? {
        Described::Multi(boundary, digest) => {
            same(rt, &boundary, b"b");
            assert!(rt; digest);
        }
        _ => assert!(rt; false, "no multipart"),
    }
    Ok(())
}
