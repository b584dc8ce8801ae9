//! Texts in each encoding, and their content. Expected values are from the RFCs and our own rules.
use super::calls::{Call, check};
use mk_code::{CodeError, Encoding, decode};
use std::test::Fail;

pub const IDENTITY: &str = r"
== all bytes stay as they are
encoding: identity
text: a=3D b \r\n=\n
gives: a=3D b \r\n=\n
";

#[test]
fn identity_gives_the_text_itself(rt: HostRuntime) -> Result<(), Fail> {
    check(&rt, rt.alloc(), Call::Decode, IDENTITY)
}

pub const QP: &str = r#"
== digits in small letters, a soft break, and what is no code
encoding: quoted-printable
text: =c3=A9 =\n =zz \n
gives: \xc3\xa9  =zz\n

== a byte as two digits
encoding: quoted-printable
text: a=3Db
gives: a=b

== a soft break
encoding: quoted-printable
text: a=\r\nb
gives: ab

== blanks after the sign of a soft break
encoding: quoted-printable
text: a= \t\nb
gives: ab

== a soft break at the end
encoding: quoted-printable
text: a=
gives: a

== a soft break alone
encoding: quoted-printable
text: =
gives:

== a sign, and a soft break
encoding: quoted-printable
text: ==
gives: =

== one digit is too few
encoding: quoted-printable
text: =4
gives: =4

== soft breaks alone
encoding: quoted-printable
text: =\n=\n
gives:

== blanks at the ends of lines are dropped
encoding: quoted-printable
text: a \t\r\nb\x20
gives: a\r\nb

== a blank as two digits stays
encoding: quoted-printable
text: =20 \n
gives: \x20\n

== nothing
encoding: quoted-printable
text:
gives:
"#;

#[test]
fn quoted_printable_decoded(rt: HostRuntime) -> Result<(), Fail> {
    check(&rt, rt.alloc(), Call::Decode, QP)
}

pub const BASE64: &str = r#"
== other characters are skipped, and so is all after the padding
encoding: base64
text: aG\n!k=zz
gives: hi

== padding
encoding: base64
text: aGk=
gives: hi

== no padding
encoding: base64
text: aGk
gives: hi

== no padding is needed
encoding: base64
text: aGkA
gives: hi\x00

== a line break, a space and a dash are skipped
encoding: base64
text: \r\na G-k
gives: hi

== nothing before the padding
encoding: base64
text: =aGk
gives:

== nothing
encoding: base64
text:
gives:
"#;

#[test]
fn base64_decoded(rt: HostRuntime) -> Result<(), Fail> {
    check(&rt, rt.alloc(), Call::Decode, BASE64)
}

pub const BAD_BASE64: &str = "
== unused bits of three letters
encoding: base64
text: aGl=
gives: refused: BadBase64

== one letter over
encoding: base64
text: aGkAa
gives: refused: BadBase64

== one letter alone
encoding: base64
text: a
gives: refused: BadBase64

== unused bits of two letters
encoding: base64
text: ab
gives: refused: BadBase64

== unused bits of two slashes
encoding: base64
text: //
gives: refused: BadBase64
";

#[test]
fn one_letter_over_or_unused_bits_are_no_base64(rt: HostRuntime) -> Result<(), Fail> {
    check(&rt, rt.alloc(), Call::Decode, BAD_BASE64)
}

const CUT_BASE64: &str = "
== one letter over
text: aGkA\na
gives: hi\x00

== one letter alone
text: a
gives:

== two letters with unused bits
text: aGkAaB
gives: hi\x00

== two letters without unused bits are whole
text: aGkAaA
gives: hi\x00h

== unused bits of three letters, of which two are whole
text: aGkAaAB
gives: hi\x00h

== unused bits of three letters, of which two have some too
text: aGkAaGl=aGkA
gives: hi\x00

== no front but the empty one
text: aGl=
gives:

== whole base64 is its own front
text: aGk=
gives: hi

== nothing
text:
gives:
";

#[test]
fn the_longest_whole_front_of_base64_is_decoded(rt: HostRuntime) -> Result<(), Fail> {
    check(&rt, rt.alloc(), Call::DecodeFront, CUT_BASE64)
}

pub const UNKNOWN: &str = r"
== a text
encoding: unknown
text: x
gives: refused: UnknownEncoding

== no text
encoding: unknown
text:
gives: refused: UnknownEncoding
";

#[test]
fn other_encodings_are_unknown(rt: HostRuntime) -> Result<(), Fail> {
    check(&rt, rt.alloc(), Call::Decode, UNKNOWN)
}
