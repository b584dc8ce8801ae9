//! Growths of memory that are refused: the call says so, and gives its answer when it is made again. `checks/refuse` runs
//! each test here with each growth refused in turn.
use super::calls::read;
use super::text_names::in_utf8;
use mk_line::Ending;
use mk_mail::{
    Attach, AttachError, BuildError, ExtractError, Multipart, attach, build, build_with, content,
    content_id, content_in, extract, leaves_in, list, names, numbered, push_path, push_type,
};
use mk_tree::Doc;
use mk_view::{media_type, said_name, text_name};
use std::alloc::{AllocError, Global};

/// A multipart of a text and of a picture in base64 that has a name.
const MIXED: &[u8] =
    b"Content-Type: multipart/mixed; boundary=b\n\n--b\n\none\n--b\nContent-Type: image/gif; name=x.gif\nContent-Transfer-Encoding: base64\n\naGk=\n--b--\n";

const LISTING: &[u8] =
    b"1 multi multipart/mixed identity 0 43 138 1 9\n1.1 leaf text/plain identity 47 48 52 0 1\n1.2 leaf image/gif base64 56 127 132 2 1\n";

const NOTE: &[u8] =
    b"Content-Type: text/plain; name=\"n.txt\"\nContent-Disposition: attachment; filename=\"n.txt\"\nContent-Transfer-Encoding: quoted-printable\n\nhi\n";

const BUILT: &[u8] =
    b"A: b\nMIME-Version: 1.0\nContent-Type: multipart/mixed; boundary=\"b\"\n\n--b\nContent-Type: text/plain; name=\"n.txt\"\nContent-Disposition: attachment; filename=\"n.txt\"\nContent-Transfer-Encoding: quoted-printable\n\nhi\n\n--b--\n";

const BUILT_IN_UTF8: &[u8] =
    b"A: b\nMIME-Version: 1.0\nContent-Type: multipart/mixed; boundary=\"b\"\n\n--b\nContent-Type: text/plain; name=\"__\"\nContent-Disposition: attachment; filename=\"__\"; filename*=utf-8''%C3%A9\nContent-Transfer-Encoding: quoted-printable\n\nhi\n\n--b--\n";

/// What a text holds before something is appended.
const BEFORE: &[u8] = b"ab";

fn mixed(alloc: Global) -> Result<Doc, AllocError> {
    Doc::read(alloc, Vec::from_slice(alloc, MIXED)?).map_err(|(_, error)| error)
}

fn note(alloc: Global, name: &[u8]) -> Result<Attach, AllocError> {
    Ok(Attach {
        media: Vec::from_slice(alloc, b"text/plain")?,
        name: Some(Vec::from_slice(alloc, name)?),
        text: Vec::from_slice(alloc, b"hi\n")?,
        base64: false,
    })
}

// Where a test itself gets no memory, there is nothing to see.

#[test]
fn memory_list(rt: HostRuntime) {
    let Ok(doc) = mixed(rt.alloc()) else {
        return;
    };
    let listing = match list(rt.alloc(), &doc) {
        Ok(listing) => listing,
        Err(_) => list(rt.alloc(), &doc).expect(&rt, "memory"),
    };
    assert_eq!(rt; listing.as_slice(), LISTING);
}

#[test]
fn memory_extract(rt: HostRuntime) {
    let Ok(doc) = mixed(rt.alloc()) else {
        return;
    };
    let content = match extract(rt.alloc(), &doc, &[1, 2]) {
        Err(ExtractError::Memory) => extract(rt.alloc(), &doc, &[1, 2]),
        content => content,
    };
    match content {
        Ok(content) => assert_eq!(rt; content.as_slice(), b"hi".as_slice()),
        Err(_) => assert!(rt; false, "memory"),
    }
}

#[test]
fn memory_content(rt: HostRuntime) {
    let Ok(doc) = mixed(rt.alloc()) else {
        return;
    };
    let section = doc.section(&[1, 2]).expect(&rt, "a section");
    let bytes = match content(rt.alloc(), &section) {
        Err(ExtractError::Memory) => content(rt.alloc(), &section),
        bytes => bytes,
    };
    match bytes {
        Ok(bytes) => assert_eq!(rt; bytes.as_slice(), b"hi".as_slice()),
        Err(_) => assert!(rt; false, "memory"),
    }
}

/// Memory that holds a byte, and has no room for more. Where it finds none, it is empty.
fn held(rt: &HostRuntime) -> Vec<u8> {
    let mut memory = Vec::new(rt.alloc());
    let _ = memory.reserve_exact(1);
    let _ = memory.push(b'x');
    memory
}

#[test]
fn memory_content_in(rt: HostRuntime) {
    let Ok(doc) = mixed(rt.alloc()) else {
        return;
    };
    let section = doc.section(&[1, 2]).expect(&rt, "a section");
    let mut memory = held(&rt);
    let found = match content_in(&mut memory, &section) {
        Err(ExtractError::Memory) => content_in(&mut memory, &section),
        found => found,
    };
    match found {
        Ok(()) => assert_eq!(rt; memory.as_slice(), b"hi".as_slice()),
        Err(_) => assert!(rt; false, "memory"),
    }
}

#[test]
fn memory_text_name(rt: HostRuntime) {
    let message = b"Content-Type: a/b; name*=utf-8''%c3%a9\nContent-Disposition: inline\n\nx\n";
    let Ok(doc) = read(rt.alloc(), message) else {
        return;
    };
    let section = doc.section(&[1]).expect(&rt, "a section");
    let text = match text_name(rt.alloc(), &section) {
        Ok(text) => text,
        Err(_) => text_name(rt.alloc(), &section).expect(&rt, "memory"),
    };
    let text = text.expect(&rt, "a text");
    assert_eq!(rt; text.as_str(), "\u{e9}");
}

#[test]
fn memory_said_name(rt: HostRuntime) {
    let Ok(doc) = mixed(rt.alloc()) else {
        return;
    };
    let section = doc.section(&[1, 2]).expect(&rt, "a section");
    let name = match said_name(rt.alloc(), &section) {
        Ok(name) => name,
        Err(_) => said_name(rt.alloc(), &section).expect(&rt, "memory"),
    };
    assert_eq!(rt; name.as_deref(), Some(b"x.gif".as_slice()));
}

#[test]
fn memory_media_type(rt: HostRuntime) {
    let Ok(doc) = mixed(rt.alloc()) else {
        return;
    };
    for (number, main, sub) in [
        (1, b"text".as_slice(), b"plain".as_slice()),
        (2, b"image", b"gif"),
    ] {
        let section = doc.section(&[1, number]).expect(&rt, "a section");
        let media = match media_type(rt.alloc(), &section) {
            Ok(media) => media,
            Err(_) => media_type(rt.alloc(), &section).expect(&rt, "memory"),
        };
        assert_eq!(rt; media.main.as_slice(), main);
        assert_eq!(rt; media.sub.as_slice(), sub);
    }
}

#[test]
fn memory_push_type(rt: HostRuntime) {
    let (Ok(doc), Ok(mut text)) = (mixed(rt.alloc()), Vec::from_slice(rt.alloc(), BEFORE)) else {
        return;
    };
    let section = doc.section(&[1, 2]).expect(&rt, "a section");
    let wanted = b"abimage/gif";
    if push_type(rt.alloc(), &mut text, &section).is_err() {
        assert!(rt; text.starts_with(BEFORE) && wanted.starts_with(&text));
        text.truncate(BEFORE.len());
        push_type(rt.alloc(), &mut text, &section).expect(&rt, "memory");
    }
    assert_eq!(rt; text.as_slice(), wanted.as_slice());
}

#[test]
fn memory_push_path(rt: HostRuntime) {
    let Ok(mut text) = Vec::from_slice(rt.alloc(), BEFORE) else {
        return;
    };
    let wanted = b"ab1.20.300.4000";
    if push_path(&mut text, &[1, 20, 300, 4_000]).is_err() {
        assert!(rt; text.starts_with(BEFORE) && wanted.starts_with(&text));
        text.truncate(BEFORE.len());
        push_path(&mut text, &[1, 20, 300, 4_000]).expect(&rt, "memory");
    }
    assert_eq!(rt; text.as_slice(), wanted.as_slice());
}

#[test]
fn memory_numbered(rt: HostRuntime) {
    let name = match numbered(rt.alloc(), b"n.txt", 12) {
        Ok(name) => name,
        Err(_) => numbered(rt.alloc(), b"n.txt", 12).expect(&rt, "memory"),
    };
    assert_eq!(rt; name.as_slice(), b"n.txt.12".as_slice());
}

// Whether a document has one leaf, and this is its name in the letters of Unicode.
fn has_one_leaf(alloc: Global, doc: &Doc, name: &[u8]) -> Result<bool, AllocError> {
    let mut named: usize = 0;
    let found = leaves_in(alloc, doc, in_utf8())?;
    for leaf in &found {
        if leaf.name.as_slice() == name {
            named = named.saturating_add(1);
        }
    }
    Ok(named == 1 && found.len() == 1)
}

#[test]
fn memory_leaves_in(rt: HostRuntime) {
    let message =
        b"Content-Type: image/gif\nContent-Disposition: inline; filename*=utf-8''d%2f%c3%a9\n\nx\n";
    let Ok(doc) = read(rt.alloc(), message) else {
        return;
    };
    let has = match has_one_leaf(rt.alloc(), &doc, b"\xc3\xa9") {
        Ok(has) => has,
        Err(_) => has_one_leaf(rt.alloc(), &doc, b"\xc3\xa9").expect(&rt, "memory"),
    };
    assert!(rt; has);
}

#[test]
fn memory_content_id(rt: HostRuntime) {
    let Ok(doc) = read(rt.alloc(), b"Content-ID: <a@b>\n\nx\n") else {
        return;
    };
    let root = doc.root();
    let id = match content_id(rt.alloc(), &root) {
        Ok(id) => id,
        Err(_) => content_id(rt.alloc(), &root).expect(&rt, "memory"),
    };
    assert_eq!(rt; id.expect(&rt, "an id").as_slice(), b"a@b".as_slice());
}

#[test]
fn memory_names(rt: HostRuntime) {
    let Ok(doc) = mixed(rt.alloc()) else {
        return;
    };
    let found = match names(rt.alloc(), &doc, true) {
        Ok(found) => found,
        Err(_) => names(rt.alloc(), &doc, true).expect(&rt, "memory"),
    };
    let mut found = found.iter();
    for (path, name) in [([1, 1], b"part-1.1".as_slice()), ([1, 2], b"x.gif")] {
        match found.next() {
            Some(one) => {
                assert_eq!(rt; one.0.as_slice(), path.as_slice());
                assert_eq!(rt; one.1.as_slice(), name);
            }
            None => assert!(rt; false, "a leaf less"),
        }
    }
    assert!(rt; found.next().is_none());
}

#[test]
fn memory_attach(rt: HostRuntime) {
    let Ok(note) = note(rt.alloc(), b"n.txt") else {
        return;
    };
    let part = match attach(rt.alloc(), &note, Ending::Lf) {
        Err(AttachError::Memory) => attach(rt.alloc(), &note, Ending::Lf),
        part => part,
    };
    match part {
        Ok(part) => assert_eq!(rt; part.as_slice(), NOTE),
        Err(_) => assert!(rt; false, "memory"),
    }
}

#[test]
fn memory_build(rt: HostRuntime) {
    let alloc = rt.alloc();
    let (Ok(note), Ok(field)) = (note(alloc, b"n.txt"), Vec::from_slice(alloc, b"A: b\n")) else {
        return;
    };
    let (fields, parts) = ([field], [note]);
    let message = match build(alloc, &fields, &parts, b"b", Ending::Lf) {
        Err(BuildError::Memory) => build(alloc, &fields, &parts, b"b", Ending::Lf),
        message => message,
    };
    match message {
        Ok(message) => assert_eq!(rt; message.as_slice(), BUILT),
        Err(_) => assert!(rt; false, "memory"),
    }
}

#[test]
fn memory_build_in_utf8(rt: HostRuntime) {
    let alloc = rt.alloc();
    let (Ok(note), Ok(field)) = (note(alloc, b"\xc3\xa9"), Vec::from_slice(alloc, b"A: b\n")) else {
        return;
    };
    let (fields, parts) = ([field], [note]);
    let multipart = Multipart {
        utf8_names: true,
        ..Multipart::mixed(b"b")
    };
    let message = match build_with(alloc, &fields, &parts, &[], &multipart, Ending::Lf) {
        Err(BuildError::Memory) => {
            build_with(alloc, &fields, &parts, &[], &multipart, Ending::Lf)
        }
        message => message,
    };
    match message {
        Ok(message) => assert_eq!(rt; message.as_slice(), BUILT_IN_UTF8),
        Err(_) => assert!(rt; false, "memory"),
    }
}
