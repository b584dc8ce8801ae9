//! Values of fields that tell what a section is. Expected values are from the rules of the formats.
use super::calls::{Call, Question, check, check_words};
use mk_head::content_type;
use std::test::Fail;

/// Values of Content-Type: the type, and the parameters in their order.
const TYPES: &str = r#"
== quotes, a comment, and a parameter twice
text: \x20text/plain; charset="a;b" (x;y); charset=c
gives: text/plain|charset=a;b|charset=c

== a value with a space inside, and one after it
text: multipart/mixed; boundary=a b\x20
gives: multipart/mixed|boundary=a b

== capital letters, and a quote in quotes
text: Multipart/Mixed; BOUNDARY="x\\"y"
gives: multipart/mixed|boundary=x"y

== spaces around the slash
text: text / html
gives: text/plain

== a comment that isn't closed
text: text/plain (a (b) c; x=1
gives: text/plain

== nothing
text:
gives: text/plain

== a parameter without a value, an empty one, and quotes that aren't closed
text: image/PNG;a=1;b;;c = "d
gives: image/png|a=1|c=d

== no type, and a parameter
text: nothing; a=b
gives: text/plain|a=b

== two slashes
text: a/b/c
gives: text/plain

== a backslash at the end
text: a/b; n="x\\
gives: a/b|n=x

== a letter after the quotes
text: a/b; n="x"y
gives: a/b|n=x

== parentheses in quotes
text: a/b; n="(x)"
gives: a/b|n=(x)

== a parenthesis in a comment
text: a/b(c\\)d); n=e
gives: a/b|n=e

== a second equals sign
text: a/b; n=c=d
gives: a/b|n=c=d
"#;

#[test]
fn content_types_of_values(rt: HostRuntime) -> Result<(), Fail> {
    check(&rt, rt.alloc(), Call::ContentType, TYPES)?;
    let found = content_type(rt.alloc(), b"a/b; x=1; X=2; y=3")?;
    assert_eq!(rt;
        (found.param(b"x"), found.param(b"y"), found.param(b"X")),
        (Some(b"1".as_slice()), Some(b"3".as_slice()), None)
    );
    Ok(())
}

/// Values of Content-Transfer-Encoding, each after the word for its encoding.
const ENCODINGS: &str = r#"
== base64, with a comment
Base64: \x20Base64 (x)
Base64: base(x)64

== the text itself
Identity: 7BIT
Identity: 8bit
Identity: binary\x20
Identity:
Identity: \x20(nothing)\x20

== quoted-printable
Qp: quoted-printable
Qp: \tQuoted-Printable\t

== unknown encodings
Other: base 64
Other: base64x
Other: x-uuencode
Other: "base64"
"#;

#[test]
fn encodings_of_values(rt: HostRuntime) -> Result<(), Fail> {
    check_words(&rt, rt.alloc(), Question::Encoding, ENCODINGS)
}

const BOUNDARIES: &str = r#"
== a space inside, all signs, and 70 letters
true: a b
true: 0aZ'()+_,-./:=?
true: aaaaaaaaaaaaaaaaaaaaaaaaaaaaaaaaaaaaaaaaaaaaaaaaaaaaaaaaaaaaaaaaaaaaaa

== a space at the end, 71 letters, nothing, and a quote
false: b\x20
false: aaaaaaaaaaaaaaaaaaaaaaaaaaaaaaaaaaaaaaaaaaaaaaaaaaaaaaaaaaaaaaaaaaaaaaa
false:
false: a"b
"#;

const TOKENS: &str = r"
== letters and signs
true: x-a!~

== nothing, a space, a slash, and the last byte of ASCII
false:
false: a b
false: a/b
false: a\x7f
";

#[test]
fn boundaries_and_tokens(rt: HostRuntime) -> Result<(), Fail> {
    check_words(&rt, rt.alloc(), Question::IsBoundary, BOUNDARIES)?;
    check_words(&rt, rt.alloc(), Question::IsToken, TOKENS)
}
