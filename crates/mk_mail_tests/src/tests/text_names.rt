//! Rows of names in the letters of Unicode. Expected names are worked out by hand.
use super::calls::{push_leaf, read, same};
use mk_mail::{NameForm, Storing, leaves_in};
use mk_rows::{Row, rows};
use std::alloc::Global;
use std::test::Fail;

/// A disposition, and the name that its leaf gets.
const NAMES: &str = r#"
== a charset and percent signs
says: attachment; filename*=UTF-8''na%C3%AFve%20r%C3%A9sum%C3%A9.pdf
name: na\xc3\xafve_r\xc3\xa9sum\xc3\xa9.pdf

== a sign is no letter
says: attachment; filename*0*=utf-8''%e2%82; filename*1*=%ac%20; filename*2="rates.txt"
name: __rates.txt

== what can't be read doesn't count
says: attachment; filename*=utf-8'en'%zz; filename="x.txt"
name: x.txt

== an encoded word
says: attachment; filename="=?iso-8859-1?Q?caf=E9.txt?="
name: caf\xc3\xa9.txt

== a sign that turns the direction
says: attachment; filename*=utf-8''%e2%80%aetxt.exe
name: _txt.exe

== an encoded path
says: attachment; filename*=utf-8''..%2f..%2fetc%2fpasswd
name: passwd

== an encoded path with backslashes
says: attachment; filename*=utf-8''c%3a%5c%c3%a9
name: \xc3\xa9

== segments out of order
says: attachment; filename*1="b"; filename*0="a"
name: ab

== letters of other scripts
says: attachment; filename*=utf-8''%d0%90%d9%a3%e4%b8%ad%f0%9f%98%80
name: \xd0\x90\xd9\xa3\xe4\xb8\xad_

== a dot and a hyphen in front
says: attachment; filename*=utf-8''.-a
name: _-a

== controls, and one beyond ASCII
says: attachment; filename*=utf-8''%00%1b%7f%c2%85a
name: ____a

== a path without a name
says: attachment; filename*=utf-8''a%2f; filename=x
name: part-1

== an empty text
says: attachment; filename*=utf-8''; filename=x
name: part-1

== a name that can't be read, and no text
says: attachment; filename=caf\xe9.txt
name: caf_.txt

== a charset that isn't known, and nothing else
says: attachment; filename*=iso-2022-jp''a
name: part-1

== a charset of one byte a character
says: attachment; filename*=KOI8-R''%C1.txt
name: а.txt

== a byte that has no character in its charset, and nothing else
says: attachment; filename*=iso-8859-3''%A5
name: part-1

== 60 letters of two bytes
says: attachment; filename=éééééééééééééééééééééééééééééééééééééééééééééééééééééééééééé
name: éééééééééééééééééééééééééééééééééééééééééééééééééé

== a letter before them
says: attachment; filename=aéééééééééééééééééééééééééééééééééééééééééééééééééééééééééééé
name: aééééééééééééééééééééééééééééééééééééééééééééééééé

== what would fit after a letter that doesn't
says: attachment; filename=aééééééééééééééééééééééééééééééééééééééééééééééééééb
name: aééééééééééééééééééééééééééééééééééééééééééééééééé
"#;

/// A type and a disposition, and the leaves of its message.
const TYPES: &str = r#"
== the text of the type
type: text/plain; name*=utf-8''%c3%a9
says: attachment
leaves: [1] \xc3\xa9|

== the disposition counts before the type
type: image/gif; name*=utf-8''b
says: attachment; filename=a
leaves: [1] a|

== the type counts where the disposition can't be read
type: image/gif; name=b
says: attachment; filename*=x''a
leaves: [1] b|

== a text with a name that can't be read
type: text/plain; name=\xe9
says: inline
leaves: [1] _|

== a text without a name
type: text/plain
says: inline; filename*=x''a
leaves:
"#;

/// Leaves but texts without a name, named in UTF-8.
pub(super) fn in_utf8() -> Storing {
    Storing {
        form: NameForm::Utf8,
        ..Storing::default()
    }
}

// The leaves that a type and a disposition make.
fn named(alloc: Global, media: &[u8], said: &[u8]) -> Result<Vec<u8>, Fail> {
    let mut message = Vec::from_slice(alloc, b"Content-Type: ")?;
    message.extend_from_slice(media)?;
    message.extend_from_slice(b"\nContent-Disposition: ")?;
    message.extend_from_slice(said)?;
    message.extend_from_slice(b"\n\nx\n")?;
    let doc = read(alloc, &message)?;
    let mut found = Vec::new(alloc);
    for leaf in &leaves_in(alloc, &doc, in_utf8())? {
        push_leaf(alloc, &mut found, &leaf.path, &leaf.name)?;
    }
    Ok(found)
}

fn wanted(alloc: Global, row: &Row) -> Result<Vec<u8>, Fail> {
    let mut text = Vec::new(alloc);
    push_leaf(alloc, &mut text, &[1], row.bytes("name"))?;
    Ok(text)
}

#[test]
fn leaves_get_the_names_that_they_say(rt: HostRuntime) -> Result<(), Fail> {
    for row in &rows(rt.alloc(), NAMES)? {
        let found = named(rt.alloc(), b"image/gif", row.bytes("says"))?;
        same(&rt, &found, &wanted(rt.alloc(), row)?, row.shows);
    }
    for row in &rows(rt.alloc(), TYPES)? {
        let found = named(rt.alloc(), row.bytes("type"), row.bytes("says"))?;
        same(&rt, &found, row.bytes("leaves"), row.shows);
    }
    Ok(())
}

/// Three parts of one name, the second of which says it in plain letters.
const ALIKE: &[u8] =
    b"Content-Type: multipart/mixed; boundary=b\n\n--b\nContent-Type: image/gif; name*=utf-8''%c3%a9\n\n--b\nContent-Type: image/gif; name=\xc3\xa9\n\n--b\nContent-Type: image/gif; name*=iso-8859-1''%e9\n\n--b--\n";

#[test]
fn texts_alike_are_told_apart(rt: HostRuntime) -> Result<(), Fail> {
    let doc = read(rt.alloc(), ALIKE)?;
    let mut found = Vec::new(rt.alloc());
    for leaf in &leaves_in(rt.alloc(), &doc, in_utf8())? {
        push_leaf(rt.alloc(), &mut found, &leaf.path, &leaf.name)?;
    }
    let names = b"[1, 1] \xc3\xa9|[1, 2] \xc3\xa9.1|[1, 3] \xc3\xa9.2|";
    same(&rt, &found, names, "three names");
    Ok(())
}
