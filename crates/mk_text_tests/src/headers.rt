//! What no clause says: that calls succeed, and that the clauses mean what users of messages expect. Expected values
//! are from the rules of the formats.
use super::calls::{Call, Question, check, check_words};
use mk_head::{Encoding, Field, content_type, encoding, header, unfold};
use std::alloc::Global;
use std::test::Fail;

const HEADERS: &str = r#"
== nothing
text:
gives: -|-|separator None, body 0

== two fields, and a body without an empty line before it
text: A : b\nB: c\n d\nx
gives: -|A : b\n|B: c\n d\n|-|separator None, body 14

== a field of two lines
text: A: b\n c\n\nx
gives: -|A: b\n c\n|-|separator Some(8), body 9

== an empty line in front
text: \nA: b\n
gives: -|-|separator Some(0), body 1

== a space in front
text: \x20x\nA: b\n
gives: -|-|separator None, body 0

== lines that end in CR LF
text: A: b\r\n\r\nx
gives: -|A: b\r\n|-|separator Some(6), body 8

== a line of a space goes on with the field
text: A: b\n \nB: c
gives: -|A: b\n \n|B: c|-|separator None, body 11

== an envelope line isn't a field
text: From a\nA: b\n
gives: -|-|separator None, body 0

== a second empty line is of the body
text: A: b\n\n\n
gives: -|A: b\n|-|separator Some(5), body 6
"#;

#[test]
fn headers_of_texts(rt: HostRuntime) -> Result<(), Fail> {
    check(&rt, rt.alloc(), Call::Header, HEADERS)
}

/// The same texts, and their fields alone.
const FIELDS: &str = r#"
== nothing
text:
gives:

== two fields, and a body without an empty line before it
text: A : b\nB: c\n d\nx
gives: A : b\n|B: c\n d\n|

== a field of two lines
text: A: b\n c\n\nx
gives: A: b\n c\n|

== an empty line in front
text: \nA: b\n
gives:

== a space in front
text: \x20x\nA: b\n
gives:

== lines that end in CR LF
text: A: b\r\n\r\nx
gives: A: b\r\n|

== a line of a space goes on with the field
text: A: b\n \nB: c
gives: A: b\n \n|B: c|

== an envelope line isn't a field
text: From a\nA: b\n
gives:

== a second empty line is of the body
text: A: b\n\n\n
gives: A: b\n|
"#;

#[test]
fn fields_one_by_one(rt: HostRuntime) -> Result<(), Fail> {
    check(&rt, rt.alloc(), Call::Fields, FIELDS)
}

/// Fields that are looked for by a name and a number: the name and the field that are found, or a dash.
const SOUGHT: &str = r"
== the second field of the name
text: A: 1\nB: 2\na: 3\n\nA: 4\n
name: a
number: 2
gives: a|a: 3\n|

== the first field of the name, in another spelling
text: A: 1\nB: 2\na: 3\n\nA: 4\n
name: a
number: 1
gives: A|A: 1\n|

== a third field of the name is in the body
text: A: 1\nB: 2\na: 3\n\nA: 4\n
name: A
number: 3
gives: -|

== fields are counted from 1
text: A: 1\nB: 2\na: 3\n\nA: 4\n
name: A
number: 0
gives: -|

== a longer name
text: A: 1\nB: 2\na: 3\n\nA: 4\n
name: AB
number: 1
gives: -|
";

#[test]
fn fields_are_found_by_name_and_number(rt: HostRuntime) -> Result<(), Fail> {
    check(&rt, rt.alloc(), Call::Find, SOUGHT)?;
    let first = Field {
        name: b"A",
        raw: b"A: 1\n",
    };
    assert!(rt; first.is_named(b"a") && !first.is_named(b"b"));
    Ok(())
}

const ONE_FIELD: &str = r"
== one field
true: A: b\n c
true: A: b\r\n
true: A:

== a field, and more
false: A: b\n\n
false: A: b\nC: d\n

== no field in front
false: \x20A: b\n
false: x\n
false:
";

#[test]
fn one_field_and_nothing_else(rt: HostRuntime) -> Result<(), Fail> {
    check_words(&rt, rt.alloc(), Question::IsOneField, ONE_FIELD)
}

const VALUES: &str = r#"
== a fold with CR LF
text: A: b\r\n c\r\n
gives: \x20b c

== a blank before the colon, and a fold with a tab
text: A : b\n\tc
gives: \x20b\tc

== no value
text: A:\n
gives:

== an empty first line, and one of a space
text: A:\r\n \n b\n
gives: \x20 b

== a colon in the value
text: A: b:c\r\n
gives: \x20b:c

== a carriage return at the end
text: A: b\r
gives: \x20b\r
"#;

#[test]
fn values_of_fields(rt: HostRuntime) -> Result<(), Fail> {
    check(&rt, rt.alloc(), Call::Value, VALUES)
}

fn repeated(alloc: Global, front: &[u8], piece: &[u8], count: usize) -> Result<Vec<u8>, Fail> {
    let mut text = Vec::from_slice(alloc, front)?;
    for _ in 0..count {
        text.extend_from_slice(piece)?;
    }
    Ok(text)
}

// How many parameters a value of 20_000 has.
fn many_params(alloc: Global) -> Result<usize, Fail> {
    let value = repeated(alloc, b"a/b", b"; n=\"v\"", 20_000)?;
    Ok(content_type(alloc, &value)?.params.len())
}

// Whether comments in one another hide no subtype, and leave the encoding unknown.
fn nested_are_skipped(alloc: Global) -> Result<bool, Fail> {
    let value = repeated(alloc, b"a/b", b"(", 100_000)?;
    let found = content_type(alloc, &value)?;
    Ok(found.sub.as_slice() == b"b".as_slice() && encoding(&value) == Encoding::Other)
}

// How many fields a text of one long field has, and the length of its value.
fn one_long_field(alloc: Global) -> Result<(usize, usize), Fail> {
    let text = repeated(alloc, b"A: b", b"\n c", 300_000)?;
    let found = header(alloc, &text)?;
    match found.field(1) {
        Some(field) => Ok((found.fields(), unfold(alloc, &field)?.len())),
        None => Err(Fail::new("no field")),
    }
}

// How many fields a text of 300_000 has.
fn many_fields(alloc: Global) -> Result<usize, Fail> {
    let text = repeated(alloc, b"", b"A: b\n", 300_000)?;
    Ok(header(alloc, &text)?.fields())
}

#[test]
fn long_values_take_linear_time(rt: HostRuntime) -> Result<(), Fail> {
    let alloc = rt.alloc();
    assert!(rt; nested_are_skipped(alloc)?);
    assert_eq!(rt; one_long_field(alloc)?, (1, 600_002));
    assert_eq!(rt;
        (many_params(alloc)?, many_fields(alloc)?),
        (20_000, 300_000)
    );
    Ok(())
}
