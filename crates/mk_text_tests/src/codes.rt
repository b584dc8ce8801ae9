//! What no clause says: that the clauses mean what messages need. Expected values are from the RFCs and our own rules.
use super::calls::{Call, check, same};
use mk_code::{Encoding, b64_encode, decode, qp_encode};
use mk_line::Ending;
use std::test::Fail;

const BASE64_WITH_LF: &str = r#"
== a full line
text: \x00\x00\x00\x00\x00\x00\x00\x00\x00\x00\x00\x00\x00\x00\x00\x00\x00\x00\x00\x00\x00\x00\x00\x00\x00\x00\x00\x00\x00\x00\x00\x00\x00\x00\x00\x00\x00\x00\x00\x00\x00\x00\x00\x00\x00\x00\x00\x00\x00\x00\x00\x00\x00\x00\x00\x00\x00
gives: AAAAAAAAAAAAAAAAAAAAAAAAAAAAAAAAAAAAAAAAAAAAAAAAAAAAAAAAAAAAAAAAAAAAAAAAAAAA

== one byte more
text: \x00\x00\x00\x00\x00\x00\x00\x00\x00\x00\x00\x00\x00\x00\x00\x00\x00\x00\x00\x00\x00\x00\x00\x00\x00\x00\x00\x00\x00\x00\x00\x00\x00\x00\x00\x00\x00\x00\x00\x00\x00\x00\x00\x00\x00\x00\x00\x00\x00\x00\x00\x00\x00\x00\x00\x00\x00\x00
gives: AAAAAAAAAAAAAAAAAAAAAAAAAAAAAAAAAAAAAAAAAAAAAAAAAAAAAAAAAAAAAAAAAAAAAAAAAAAA\nAA==

== two bytes more
text: \x00\x00\x00\x00\x00\x00\x00\x00\x00\x00\x00\x00\x00\x00\x00\x00\x00\x00\x00\x00\x00\x00\x00\x00\x00\x00\x00\x00\x00\x00\x00\x00\x00\x00\x00\x00\x00\x00\x00\x00\x00\x00\x00\x00\x00\x00\x00\x00\x00\x00\x00\x00\x00\x00\x00\x00\x00\x00\x00
gives: AAAAAAAAAAAAAAAAAAAAAAAAAAAAAAAAAAAAAAAAAAAAAAAAAAAAAAAAAAAAAAAAAAAAAAAAAAAA\nAAA=

== two letters
text: hi
gives: aGk=

== nothing
text:
gives:
"#;

const BASE64_WITH_CRLF: &str = r#"
== a full line
text: \x00\x00\x00\x00\x00\x00\x00\x00\x00\x00\x00\x00\x00\x00\x00\x00\x00\x00\x00\x00\x00\x00\x00\x00\x00\x00\x00\x00\x00\x00\x00\x00\x00\x00\x00\x00\x00\x00\x00\x00\x00\x00\x00\x00\x00\x00\x00\x00\x00\x00\x00\x00\x00\x00\x00\x00\x00
gives: AAAAAAAAAAAAAAAAAAAAAAAAAAAAAAAAAAAAAAAAAAAAAAAAAAAAAAAAAAAAAAAAAAAAAAAAAAAA

== one byte more
text: \x00\x00\x00\x00\x00\x00\x00\x00\x00\x00\x00\x00\x00\x00\x00\x00\x00\x00\x00\x00\x00\x00\x00\x00\x00\x00\x00\x00\x00\x00\x00\x00\x00\x00\x00\x00\x00\x00\x00\x00\x00\x00\x00\x00\x00\x00\x00\x00\x00\x00\x00\x00\x00\x00\x00\x00\x00\x00
gives: AAAAAAAAAAAAAAAAAAAAAAAAAAAAAAAAAAAAAAAAAAAAAAAAAAAAAAAAAAAAAAAAAAAAAAAAAAAA\r\nAA==

== two bytes more
text: \x00\x00\x00\x00\x00\x00\x00\x00\x00\x00\x00\x00\x00\x00\x00\x00\x00\x00\x00\x00\x00\x00\x00\x00\x00\x00\x00\x00\x00\x00\x00\x00\x00\x00\x00\x00\x00\x00\x00\x00\x00\x00\x00\x00\x00\x00\x00\x00\x00\x00\x00\x00\x00\x00\x00\x00\x00\x00\x00
gives: AAAAAAAAAAAAAAAAAAAAAAAAAAAAAAAAAAAAAAAAAAAAAAAAAAAAAAAAAAAAAAAAAAAAAAAAAAAA\r\nAAA=
"#;

#[test]
fn base64_lines_have_76_characters(rt: HostRuntime) -> Result<(), Fail> {
    check(&rt, rt.alloc(), Call::Base64WithLf, BASE64_WITH_LF)?;
    check(&rt, rt.alloc(), Call::Base64WithCrlf, BASE64_WITH_CRLF)
}

const QP_WITH_LF: &str = r#"
== the sign of a code
text: a=b
gives: a=3Db

== a dash at the start, and a space at the end of a line
text: -- \n
gives: =2D-=20\n

== a tab at the end
text: x\t
gives: x=09

== blanks inside a line
text: x\ty z
gives: x\ty z

== the start of an envelope line
text: From here
gives: =46rom here

== dots at the start of lines
text: .\n.a.
gives: =2E\n=2Ea.

== a carriage return
text: \r\n
gives: =0D\n

== empty lines
text: \n\n
gives: \n\n

== bytes that aren't ASCII
text: \xc3\xa9
gives: =C3=A9

== nothing
text:
gives:
"#;

#[test]
fn quoted_printable_with_lf(rt: HostRuntime) -> Result<(), Fail> {
    check(&rt, rt.alloc(), Call::QpWithLf, QP_WITH_LF)
}

const QP_WITH_CRLF: &str = r#"
== an empty line
text: \r\n
gives: \r\n

== a line feed alone, an empty line, and a carriage return alone
text: a\nb\r\n\r\nc\r
gives: a=0Ab\r\n\r\nc=0D

== blanks at the ends of lines
text: a \r\nb\t\r\n
gives: a=20\r\nb=09\r\n

== a carriage return before the ending, and a dash at the start
text: a\r\r\n-
gives: a=0D\r\n=2D
"#;

#[test]
fn quoted_printable_with_crlf(rt: HostRuntime) -> Result<(), Fail> {
    check(&rt, rt.alloc(), Call::QpWithCrlf, QP_WITH_CRLF)
}

const LONG_WITH_LF: &str = r#"
== 76 letters
text: aaaaaaaaaaaaaaaaaaaaaaaaaaaaaaaaaaaaaaaaaaaaaaaaaaaaaaaaaaaaaaaaaaaaaaaaaaaa
gives: aaaaaaaaaaaaaaaaaaaaaaaaaaaaaaaaaaaaaaaaaaaaaaaaaaaaaaaaaaaaaaaaaaaaaaaaaaaa

== 77 letters
text: aaaaaaaaaaaaaaaaaaaaaaaaaaaaaaaaaaaaaaaaaaaaaaaaaaaaaaaaaaaaaaaaaaaaaaaaaaaaa
gives: aaaaaaaaaaaaaaaaaaaaaaaaaaaaaaaaaaaaaaaaaaaaaaaaaaaaaaaaaaaaaaaaaaaaaaaaaaa=\naa

== 76 letters and another line
text: aaaaaaaaaaaaaaaaaaaaaaaaaaaaaaaaaaaaaaaaaaaaaaaaaaaaaaaaaaaaaaaaaaaaaaaaaaaa\nb
gives: aaaaaaaaaaaaaaaaaaaaaaaaaaaaaaaaaaaaaaaaaaaaaaaaaaaaaaaaaaaaaaaaaaaaaaaaaaaa\nb

== a space as the last of 76
text: aaaaaaaaaaaaaaaaaaaaaaaaaaaaaaaaaaaaaaaaaaaaaaaaaaaaaaaaaaaaaaaaaaaaaaaaaaa\x20
gives: aaaaaaaaaaaaaaaaaaaaaaaaaaaaaaaaaaaaaaaaaaaaaaaaaaaaaaaaaaaaaaaaaaaaaaaaaaa=\n=20

== a space as the 76th of 77
text: aaaaaaaaaaaaaaaaaaaaaaaaaaaaaaaaaaaaaaaaaaaaaaaaaaaaaaaaaaaaaaaaaaaaaaaaaaa x
gives: aaaaaaaaaaaaaaaaaaaaaaaaaaaaaaaaaaaaaaaaaaaaaaaaaaaaaaaaaaaaaaaaaaaaaaaaaaa=\n x

== a code that ends at 76
text: aaaaaaaaaaaaaaaaaaaaaaaaaaaaaaaaaaaaaaaaaaaaaaaaaaaaaaaaaaaaaaaaaaaaaaaaa\xff
gives: aaaaaaaaaaaaaaaaaaaaaaaaaaaaaaaaaaaaaaaaaaaaaaaaaaaaaaaaaaaaaaaaaaaaaaaaa=FF

== a code that ends at 76, and a letter
text: aaaaaaaaaaaaaaaaaaaaaaaaaaaaaaaaaaaaaaaaaaaaaaaaaaaaaaaaaaaaaaaaaaaaaaaaa\xffb
gives: aaaaaaaaaaaaaaaaaaaaaaaaaaaaaaaaaaaaaaaaaaaaaaaaaaaaaaaaaaaaaaaaaaaaaaaaa=\n=FFb

== a code that ends at 75, and a letter
text: aaaaaaaaaaaaaaaaaaaaaaaaaaaaaaaaaaaaaaaaaaaaaaaaaaaaaaaaaaaaaaaaaaaaaaaa\xffb
gives: aaaaaaaaaaaaaaaaaaaaaaaaaaaaaaaaaaaaaaaaaaaaaaaaaaaaaaaaaaaaaaaaaaaaaaaa=FFb

== a dash at the start of a broken line
text: aaaaaaaaaaaaaaaaaaaaaaaaaaaaaaaaaaaaaaaaaaaaaaaaaaaaaaaaaaaaaaaaaaaaaaaaaaa-x
gives: aaaaaaaaaaaaaaaaaaaaaaaaaaaaaaaaaaaaaaaaaaaaaaaaaaaaaaaaaaaaaaaaaaaaaaaaaaa=\n=2Dx

== a dot at the start of a broken line
text: aaaaaaaaaaaaaaaaaaaaaaaaaaaaaaaaaaaaaaaaaaaaaaaaaaaaaaaaaaaaaaaaaaaaaaaaaaa.x
gives: aaaaaaaaaaaaaaaaaaaaaaaaaaaaaaaaaaaaaaaaaaaaaaaaaaaaaaaaaaaaaaaaaaaaaaaaaaa=\n=2Ex

== an F at the start of a broken line
text: aaaaaaaaaaaaaaaaaaaaaaaaaaaaaaaaaaaaaaaaaaaaaaaaaaaaaaaaaaaaaaaaaaaaaaaaaaaFx
gives: aaaaaaaaaaaaaaaaaaaaaaaaaaaaaaaaaaaaaaaaaaaaaaaaaaaaaaaaaaaaaaaaaaaaaaaaaaa=\n=46x

== a dash inside a line
text: aaaaaaaaaaaaaaaaaaaaaaaaaaaaaaaaaaaaaaaaaaaaaaaaaaaaaaaaaaaaaaaaaaaaaaaaaa-x
gives: aaaaaaaaaaaaaaaaaaaaaaaaaaaaaaaaaaaaaaaaaaaaaaaaaaaaaaaaaaaaaaaaaaaaaaaaaa-x
"#;

const LONG_WITH_CRLF: &str = r#"
== 77 letters
text: aaaaaaaaaaaaaaaaaaaaaaaaaaaaaaaaaaaaaaaaaaaaaaaaaaaaaaaaaaaaaaaaaaaaaaaaaaaaa
gives: aaaaaaaaaaaaaaaaaaaaaaaaaaaaaaaaaaaaaaaaaaaaaaaaaaaaaaaaaaaaaaaaaaaaaaaaaaa=\r\naa

== 76 letters and another line
text: aaaaaaaaaaaaaaaaaaaaaaaaaaaaaaaaaaaaaaaaaaaaaaaaaaaaaaaaaaaaaaaaaaaaaaaaaaaa\r\nb
gives: aaaaaaaaaaaaaaaaaaaaaaaaaaaaaaaaaaaaaaaaaaaaaaaaaaaaaaaaaaaaaaaaaaaaaaaaaaaa\r\nb

== an F at the start of a broken line
text: aaaaaaaaaaaaaaaaaaaaaaaaaaaaaaaaaaaaaaaaaaaaaaaaaaaaaaaaaaaaaaaaaaaaaaaaaaaFx
gives: aaaaaaaaaaaaaaaaaaaaaaaaaaaaaaaaaaaaaaaaaaaaaaaaaaaaaaaaaaaaaaaaaaaaaaaaaaa=\r\n=46x
"#;

#[test]
fn long_lines_of_quoted_printable(rt: HostRuntime) -> Result<(), Fail> {
    check(&rt, rt.alloc(), Call::QpWithLf, LONG_WITH_LF)?;
    check(&rt, rt.alloc(), Call::QpWithCrlf, LONG_WITH_CRLF)
}

/// The bytes that stay where each is a text alone.
const KEPT: &[u8] =
    b"!\"#$%&'()*+,/0123456789:;<>?@ABCDEGHIJKLMNOPQRSTUVWXYZ[\\]^_`abcdefghijklmnopqrstuvwxyz{|}~\n";

fn hex_digit(value: u8) -> u8 {
    b"0123456789ABCDEF"[value as usize % 16]
}

#[test]
fn each_byte_alone_in_quoted_printable(rt: HostRuntime) -> Result<(), Fail> {
    for byte in 0u8..=255 {
        let alone = [byte];
        let code = [b'=', hex_digit(byte / 16), hex_digit(byte % 16)];
        let wanted: &[u8] = if KEPT.contains(&byte) { &alone } else { &code };
        let text = qp_encode(rt.alloc(), &alone, Ending::Lf)?;
        same(&rt, &text, wanted, "a byte as text");
        let back = decode(rt.alloc(), Encoding::Qp, &text)?;
        same(&rt, &back, &alone, "a byte again");
    }
    Ok(())
}
