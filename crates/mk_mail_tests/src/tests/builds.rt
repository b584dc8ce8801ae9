//! Parts and messages made of files.
use super::calls::{Call, check, refused};
use mk_line::Ending;
use mk_mail::{Attach, attach, build};
use mk_rows::{Row, rows};
use std::alloc::{AllocError, Global};
use std::test::Fail;

const PARTS: &str = r#"
== a note
type: text/plain
name: n.txt
holds: hi\n
base64: no
gives: Content-Type: text/plain; name="n.txt"\nContent-Disposition: attachment; filename="n.txt"\nContent-Transfer-Encoding: quoted-printable\n\nhi\n

== a picture without a name
type: image/gif
holds: hi
base64: yes
gives: Content-Type: image/gif\nContent-Transfer-Encoding: base64\n\naGk=

== a message isn't attached
type: message/rfc822
holds: hi\n
base64: no
gives: refused: BadType

== a multipart isn't attached, whatever its name
type: Multipart/mixed
name: "
holds: hi\n
base64: no
gives: refused: BadType

== a type with a parameter
type: text/plain; x=y
name: n.txt
holds: hi\n
base64: no
gives: refused: BadType

== a quote in a name
type: text/plain
name: a"b
holds: hi\n
base64: no
gives: refused: BadName
"#;

// The file of a row.
fn made(alloc: Global, row: &Row) -> Result<Attach, AllocError> {
    let name = match row.get("name") {
        Some(cell) => Some(Vec::from_slice(alloc, &cell.bytes)?),
        None => None,
    };
    Ok(Attach {
        media: Vec::from_slice(alloc, row.bytes("type"))?,
        name,
        text: Vec::from_slice(alloc, row.bytes("holds"))?,
        base64: row.text("base64") == "yes",
    })
}

/// The file of a row as a part.
pub fn part(alloc: Global, row: &Row) -> Result<Vec<u8>, Fail> {
    match attach(alloc, &made(alloc, row)?, Ending::Lf) {
        Ok(part) => Ok(part),
        Err(error) => refused(alloc, format!(in alloc; "{error:?}")?.as_str()),
    }
}

#[test]
fn files_are_attached(rt: HostRuntime) -> Result<(), Fail> {
    check(&rt, rt.alloc(), Call::Part, PARTS)
}

/// The files of each message.
const FILES: &str = r#"
== a note
type: text/plain
name: n.txt
holds: hi\n
base64: no

== a picture without a name
type: image/gif
holds: hi
base64: yes
"#;

/// Fields, a boundary, and the message or the reason against it.
const BUILDS: &str = r#"
== two fields, one of them open
field: Subject: s\r\n
field: A: b\r\n c
boundary: b
gives: Subject: s\r\nA: b\r\n c\r\nMIME-Version: 1.0\r\nContent-Type: multipart/mixed; boundary="b"\r\n\r\n--b\r\nContent-Type: text/plain; name="n.txt"\r\nContent-Disposition: attachment; filename="n.txt"\r\nContent-Transfer-Encoding: quoted-printable\r\n\r\nhi=0A\r\n--b\r\nContent-Type: image/gif\r\nContent-Transfer-Encoding: base64\r\n\r\naGk=\r\n--b--\r\n

== a field that is made comes before the boundary
field: A: b\n
field: mime-version: 1.0\n
boundary: b\x20
gives: refused: BadField { index: 1 }

== a field whose name begins with content-
field: CONTENT-ID: <x>\n
boundary: b
gives: refused: BadField { index: 0 }

== two fields in one
field: A: b\nC: d\n
boundary: b
gives: refused: BadField { index: 0 }

== a field with an empty line
field: A: b\n\n
boundary: b
gives: refused: BadField { index: 0 }

== a boundary that ends in a space
boundary: b\x20
gives: refused: BadBoundary
"#;

/// The parts of the message.
const CONTENTS: &str = r#"
== the first file
message: Subject: s\r\nA: b\r\n c\r\nMIME-Version: 1.0\r\nContent-Type: multipart/mixed; boundary="b"\r\n\r\n--b\r\nContent-Type: text/plain; name="n.txt"\r\nContent-Disposition: attachment; filename="n.txt"\r\nContent-Transfer-Encoding: quoted-printable\r\n\r\nhi=0A\r\n--b\r\nContent-Type: image/gif\r\nContent-Transfer-Encoding: base64\r\n\r\naGk=\r\n--b--\r\n
at: 1.1
gives: hi\n

== the second file
message: Subject: s\r\nA: b\r\n c\r\nMIME-Version: 1.0\r\nContent-Type: multipart/mixed; boundary="b"\r\n\r\n--b\r\nContent-Type: text/plain; name="n.txt"\r\nContent-Disposition: attachment; filename="n.txt"\r\nContent-Transfer-Encoding: quoted-printable\r\n\r\nhi=0A\r\n--b\r\nContent-Type: image/gif\r\nContent-Transfer-Encoding: base64\r\n\r\naGk=\r\n--b--\r\n
at: 1.2
gives: hi
"#;

fn files(alloc: Global) -> Result<Vec<Attach>, AllocError> {
    let mut files = Vec::new(alloc);
    for row in &rows(alloc, FILES)? {
        files.push(made(alloc, row)?)?;
    }
    Ok(files)
}

// The cells `field` of a row.
fn fields(alloc: Global, row: &Row) -> Result<Vec<Vec<u8>>, AllocError> {
    let mut fields = Vec::new(alloc);
    for cell in &row.cells {
        if cell.key == "field" {
            fields.push(Vec::from_slice(alloc, &cell.bytes)?)?;
        }
    }
    Ok(fields)
}

/// A message of the fields and the boundary of a row, and of the files.
pub fn message(alloc: Global, row: &Row) -> Result<Vec<u8>, Fail> {
    let (fields, files) = (fields(alloc, row)?, files(alloc)?);
    match build(alloc, &fields, &files, row.bytes("boundary"), Ending::Crlf) {
        Ok(text) => Ok(text),
        Err(error) => refused(alloc, format!(in alloc; "{error:?}")?.as_str()),
    }
}

#[test]
fn messages_are_built(rt: HostRuntime) -> Result<(), Fail> {
    check(&rt, rt.alloc(), Call::Message, BUILDS)?;
    check(&rt, rt.alloc(), Call::Content, CONTENTS)
}
