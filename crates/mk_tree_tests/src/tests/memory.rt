//! Growths of memory that are refused: the call changes nothing then, and gives its answer when it is made again.
//! `checks/refuse` runs each test here with each growth refused in turn. Tests of the same calls beside these want the
//! answer at the first call.
ghost use Rattle.std.specs.Prelude.{◌≡◌, IfOk};
ghost use Rattle.mk_tree_tests.specs.inner.Changes.{Changes};

use super::changes::same_sections;
use super::rows::MIXED;
use super::{LEVELS, read};
use mk_head::Encoding;
use mk_tree::{Change, Described, Doc, describe};
use std::alloc::{AllocError, Global};
use std::process::Abort;

fn document(alloc: Global, text: &[u8]) -> Result<Doc, AllocError>
    ensures { IfOk result (λ d. d ≡ text.now) }
{
    let bytes = Vec::from_slice(alloc, text)?;
    match Doc::read(alloc, bytes) {
        Ok(doc) => Ok(doc),
        Err((_, error)) => Err(error),
    }
}

// Where a test itself gets no memory, there is nothing to see.

#[test]
fn memory_read(rt: HostRuntime) {
    let Ok(text) = Vec::from_slice(rt.alloc(), MIXED) else {
        return;
    };
    let doc = match Doc::read(rt.alloc(), text) {
        Err((text, _)) => {
            assert_eq!(rt; text.as_slice(), MIXED);
            Doc::read(rt.alloc(), text)
        }
        read => read,
    };
    match doc {
        Ok(doc) => assert_eq!(rt; (doc.text(), doc.root().parts()), (MIXED, 2)),
        Err(_) => assert!(rt; false, "memory"),
    }
}

#[test]
fn memory_value(rt: HostRuntime) {
    let Ok(doc) = document(rt.alloc(), b"Subject: s\n t\n\nx\n") else {
        return;
    };
    let root = doc.root();
    let value = match root.value(rt.alloc(), b"subject") {
        Ok(value) => value,
        Err(_) => root.value(rt.alloc(), b"subject").expect(&rt, "memory"),
    };
    let value = value.expect(&rt, "a value");
    assert_eq!(rt; value.as_slice(), b" s t".as_slice());
}

#[test]
fn memory_encoding(rt: HostRuntime) {
    let Ok(doc) = document(
        rt.alloc(),
        b"Content-Transfer-Encoding: (a b) base64\n\naGk=\n",
    ) else {
        return;
    };
    let root = doc.root();
    let encoding = match root.encoding(rt.alloc()) {
        Ok(encoding) => encoding,
        Err(_) => root.encoding(rt.alloc()).expect(&rt, "memory"),
    };
    assert_eq!(rt; encoding, Encoding::Base64);
}

#[test]
fn memory_content_fields(rt: HostRuntime) {
    let Ok(doc) = document(
        rt.alloc(),
        b"Content-Type: a/b;\n c=d\nContent-Transfer-Encoding: base64\n\naGk=\n",
    ) else {
        return;
    };
    let root = doc.root();
    let (value, encoding) = match root.content_fields(rt.alloc()) {
        Ok(said) => said,
        Err(_) => root.content_fields(rt.alloc()).expect(&rt, "memory"),
    };
    let value = value.expect(&rt, "a value");
    assert_eq!(rt; value.as_slice(), b" a/b; c=d".as_slice());
    assert_eq!(rt; encoding, Encoding::Base64);
}

#[test]
fn memory_describe(rt: HostRuntime) {
    let head = b"Content-Type: multipart/digest; boundary=b\n";
    let described = match describe(rt.alloc(), head, false) {
        Ok(described) => described,
        Err(_) => describe(rt.alloc(), head, false).expect(&rt, "memory"),
    };
    match described {
        Described::Multi(boundary, digest) => {
            assert_eq!(rt; (boundary.as_slice(), digest), (b"b".as_slice(), true));
        }
        _ => assert!(rt; false, "no multipart"),
    }
}

// Changes a document. Where a growth is refused, the text and the tree are those of a twin, and the change comes back; made
// again, it gives the text.
fn check_change(
    rt: &impl Abort,
    alloc: Global,
    text: &[u8],
    path: &[u32],
    change: Change,
    after: &[u8],
)
    requires { Changes text.now path.now change }
{
    let (Ok(mut doc), Ok(twin)) = (document(alloc, text), document(alloc, text)) else {
        return;
    };
    let Ok(shown) = format!(in alloc; "{change:?}") else {
        return;
    };
    if let Err((back, _)) = doc.splice(path, change) {
        same_document(rt, &doc, &twin);
        let shown_back = format!(in alloc; "{back:?}").expect(rt, "memory");
        assert_eq!(rt; shown_back.as_str(), shown.as_str());
        assert!(rt; doc.splice(path, back).is_ok());
        same_document(rt, &doc, &read(rt, alloc, after));
    }
    assert_eq!(rt; doc.text(), after);
}

fn same_document(rt: &impl Abort, doc: &Doc, twin: &Doc) {
    assert_eq!(rt; doc.text(), twin.text());
    same_sections(rt, &doc.root(), &twin.root(), LEVELS);
}

#[test]
fn memory_splice_field(rt: HostRuntime) {
    let alloc = rt.alloc();
    let Ok(text) = Vec::from_slice(alloc, b"A: b\n") else {
        return;
    };
    let change = Change::Header {
        place: 11,
        count: 0,
        text,
    };
    check_change(
        &rt,
        alloc,
        b"Subject: s\n\nbody\n",
        &[1],
        change,
        b"Subject: s\nA: b\n\nbody\n",
    );
}

#[test]
fn memory_splice_body(rt: HostRuntime) {
    let alloc = rt.alloc();
    let Ok(text) = Vec::from_slice(alloc, b"other\nlines\n") else {
        return;
    };
    let change = Change::Body { text };
    check_change(
        &rt,
        alloc,
        b"Subject: s\n\nbody\n",
        &[1],
        change,
        b"Subject: s\n\nother\nlines\n",
    );
}

#[test]
fn memory_splice_section(rt: HostRuntime) {
    let alloc = rt.alloc();
    let Ok(text) = Vec::from_slice(alloc, b"Content-Type: message/rfc822\n\nSubject: s\n\nx\n")
    else {
        return;
    };
    let change = Change::Entity { text };
    check_change(
        &rt,
        alloc,
        b"Subject: s\n\nbody\n",
        &[1],
        change,
        b"Content-Type: message/rfc822\n\nSubject: s\n\nx\n",
    );
}

#[test]
fn memory_splice_part_more(rt: HostRuntime) {
    let alloc = rt.alloc();
    let Ok(text) = Vec::from_slice(alloc, b"--b\nContent-Transfer-Encoding: base64\n\naGk=\n")
    else {
        return;
    };
    let change = Change::Part { place: 1, text };
    check_change(
        &rt,
        alloc,
        b"Subject: t\nContent-Type: multipart/mixed; boundary=\"b\"\n\npre\n--b\n\none\n--b \t\nContent-Type: text/html\n\ntwo\n--b--\nepi\n",
        &[1],
        change,
        b"Subject: t\nContent-Type: multipart/mixed; boundary=\"b\"\n\npre\n--b\n\none\n--b\nContent-Transfer-Encoding: base64\n\naGk=\n--b \t\nContent-Type: text/html\n\ntwo\n--b--\nepi\n",
    );
}

#[test]
fn memory_splice_part_less(rt: HostRuntime) {
    check_change(
        &rt,
        rt.alloc(),
        b"Subject: t\nContent-Type: multipart/mixed; boundary=\"b\"\n\npre\n--b\n\none\n--b \t\nContent-Type: text/html\n\ntwo\n--b--\nepi\n",
        &[1, 1],
        Change::NoPart,
        b"Subject: t\nContent-Type: multipart/mixed; boundary=\"b\"\n\npre\n--b \t\nContent-Type: text/html\n\ntwo\n--b--\nepi\n",
    );
}
