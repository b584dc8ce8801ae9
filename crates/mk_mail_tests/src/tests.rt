//! Rows of listings, of contents and of built messages.
mod builds;
mod calls;
mod content_ids;
mod dated;
mod edits;
mod examples;
mod fielded;
mod letters;
mod mailboxes;
mod memory;
mod places;
mod prepended;
mod text_names;

use calls::{Call, check};
use std::test::Fail;

const LISTINGS: &str = r#"
== a leaf with endings of each kind
message: A: b\r\n\r\nx\ry\nz
gives: 1 leaf text/plain identity 0 8 13 1 2\n

== a multipart with two leaves
message: Subject: t\nContent-Type: multipart/mixed; boundary="b"\n\npre\n--b\n\none\n--b \t\nContent-Type: text/html\n\ntwo\n--b--\nepi\n
gives: 1 multi multipart/mixed identity 0 56 114 2 10\n1.1 leaf text/plain identity 64 65 69 0 1\n1.2 leaf text/html identity 75 100 104 1 1\n

== a message in a message
message: Content-Type: message/global\n\nA: b\n\nx\n
gives: 1 message message/global identity 0 30 38 1 3\n1.1 leaf text/plain identity 30 36 38 1 1\n

== nothing
message:
gives: 1 leaf text/plain identity 0 0 0 0 0\n
"#;

#[test]
fn lists_the_rows(rt: HostRuntime) -> Result<(), Fail> {
    check(&rt, rt.alloc(), Call::Listing, LISTINGS)
}

const BASE64: &str = r#"
== no padding
message: Content-Transfer-Encoding: base64\n\naGk\n
at: 1
gives: hi

== unused bits
message: Content-Transfer-Encoding: base64\n\naGl=\n
at: 1
gives: refused: BadBase64

== one letter over
message: Content-Transfer-Encoding: base64\n\naGkAa\n
at: 1
gives: refused: BadBase64
"#;

#[test]
fn decodes_base64(rt: HostRuntime) -> Result<(), Fail> {
    check(&rt, rt.alloc(), Call::Content, BASE64)
}

const SECTIONS: &str = r#"
== a message in a message
message: Content-Type: message/global\n\nA: b\n\nx\n
at: 1
gives: A: b\n\nx\n

== the body of the message in it
message: Content-Type: message/global\n\nA: b\n\nx\n
at: 1.1
gives: x\n

== the first part
message: Subject: t\nContent-Type: multipart/mixed; boundary="b"\n\npre\n--b\n\none\n--b \t\nContent-Type: text/html\n\ntwo\n--b--\nepi\n
at: 1.1
gives: one

== the second part
message: Subject: t\nContent-Type: multipart/mixed; boundary="b"\n\npre\n--b\n\none\n--b \t\nContent-Type: text/html\n\ntwo\n--b--\nepi\n
at: 1.2
gives: two
"#;

#[test]
fn takes_out_sections_as_they_stand(rt: HostRuntime) -> Result<(), Fail> {
    check(&rt, rt.alloc(), Call::Content, SECTIONS)
}

const REFUSED: &str = r#"
== an unknown encoding
message: Content-Transfer-Encoding: x-uuencode\n\nx\n
at: 1
gives: refused: UnknownEncoding

== that there is no such section comes before an unknown encoding
message: Content-Transfer-Encoding: x-uuencode\n\nx\n
at: 1.9
gives: refused: NoSuchSection

== no second message
message: Subject: t\nContent-Type: multipart/mixed; boundary="b"\n\npre\n--b\n\none\n--b \t\nContent-Type: text/html\n\ntwo\n--b--\nepi\n
at: 2
gives: refused: NoSuchSection

== no path
message: Subject: t\nContent-Type: multipart/mixed; boundary="b"\n\npre\n--b\n\none\n--b \t\nContent-Type: text/html\n\ntwo\n--b--\nepi\n
at:
gives: refused: NoSuchSection
"#;

#[test]
fn refuses_what_it_cannot_take_out(rt: HostRuntime) -> Result<(), Fail> {
    check(&rt, rt.alloc(), Call::Content, REFUSED)
}

/// The leaves that are stored where texts without a name aren't.
const WITHOUT_TEXTS: &str = r#"
== a name without its path and its space, the same name again, and no name
message: Content-Type: multipart/mixed; boundary=b\n\n--b\nContent-Type: text/plain\n\nx\n--b\nContent-Type: application/pdf; name="../a b.pdf"\n\nx\n--b\nContent-Type: image/png\nContent-Disposition: attachment; filename="a b.pdf"\n\nx\n--b\nContent-Type: image/gif\n\nx\n--b--\n
gives: [1, 2] a_b.pdf|[1, 3] a_b.pdf.1|[1, 4] part-1.4|
"#;

/// The leaves that are stored where texts without a name are some of them.
const WITH_TEXTS: &str = r#"
== the same, after a text without a name
message: Content-Type: multipart/mixed; boundary=b\n\n--b\nContent-Type: text/plain\n\nx\n--b\nContent-Type: application/pdf; name="../a b.pdf"\n\nx\n--b\nContent-Type: image/png\nContent-Disposition: attachment; filename="a b.pdf"\n\nx\n--b\nContent-Type: image/gif\n\nx\n--b--\n
gives: [1, 1] part-1.1|[1, 2] a_b.pdf|[1, 3] a_b.pdf.1|[1, 4] part-1.4|
"#;

#[test]
fn names_the_leaves(rt: HostRuntime) -> Result<(), Fail> {
    check(&rt, rt.alloc(), Call::Names, WITHOUT_TEXTS)?;
    check(&rt, rt.alloc(), Call::NamesWithTexts, WITH_TEXTS)
}

const LEAVES: &str = r#"
== a leaf in base64 without a name, and a leaf with a name
message: Content-Type: multipart/mixed; boundary=b\n\n--b\nContent-Transfer-Encoding: base64\n\naGk=\n--b\nContent-Type: image/png; name=p\n\nx\n--b--\n
gives: [1, 1] part-1.1|hi|[1, 2] p|x|
"#;

#[test]
fn leaves_have_their_sections(rt: HostRuntime) -> Result<(), Fail> {
    check(&rt, rt.alloc(), Call::Leaves, LEAVES)
}
