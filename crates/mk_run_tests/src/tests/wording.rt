//! Values of fields as people write them: what `--unfold` and `--decode` print, and what `--encode` puts in. The expected
//! bytes are worked out by hand from RFC 5322 and RFC 2047.

use super::check_left;
use super::devices::{Page, Text};
use super::memory::page;
use mk_line::Ending;
use mk_mail::Letters;
use mk_rows::{Row, rows};
use mk_run::{FieldFilter, FieldForm, LetterWords, Round, Status, ValueForm, give_up, try_field};
use std::alloc::{AllocError, Global};
use std::process::Abort;
use std::test::Fail;

/// Fields in encoded words.
const IN_WORDS: FieldForm = FieldForm {
    encoded: true,
    turned: false,
};

/// The values of the fields of a name, unfolded.
const UNFOLDED: &str = r#"
== a value of one line
take: Subject:
message: Subject: a b\nB: 2\n\n
output: a b\n
status: Well

== lines are joined, and the blanks between them stay
take: subject:
message: Subject: a\r\n\t b \r\n  c\r\n\r\n
output: a\t b   c\n
status: Well

== the blanks at both ends are left out
take: A:
message: A: \t a \t\n \n\n
output: a\n
status: Well

== an encoded word stays as it is
take: A:
message: A: =?utf-8?Q?=C3=A4?=\n =?utf-8?Q?b?=\n
output: =?utf-8?Q?=C3=A4?= =?utf-8?Q?b?=\n
status: Well

== each field of the name is a line, those of the body are none
take: A:
message: A: 1\nB: 2\nA:3\n\nA: 4\n
output: 1\n3\n
status: Well

== an open last line and an empty value
take: A:
message: A:\nA: 1
output: \n1\n
status: Well

== a carriage return within a line becomes a space
take: A:
message: A: a\rb\r\n\r\n
output: a b\n
status: Well

== bytes that aren't UTF-8 stand as they are
take: A:
message: A: caf\xe9\n
output: caf\xe9\n
status: Well
"#;

/// What the fields of a name say.
const DECODED: &str = r#"
== an encoded word
take: Subject:
message: Subject: =?utf-8?B?R3LDvMOfZQ==?=\n\n
output: Grüße\n
status: Well

== two encoded words on two lines are one text
take: Subject:
message: Subject: =?utf-8?Q?a_?=\r\n\t=?ISO-8859-1?q?=E9?=\r\n\r\n
output: a é\n
status: Well

== a value without encoded words is unfolded
take: subject:
message: Subject:  \ta\n b =x?= \t\n\n
output: a b =x?=\n
status: Well

== each field of the name is a line
take: A:
message: A: 1\nB: 2\nA:3\n\nA: 4\n
output: 1\n3\n
status: Well

== an open last line and an empty value
take: A:
message: A:\nA: 1
output: \n1\n
status: Well

== a charset that isn't known
take: A:
message: A: =?gb18030?B?8A==?= =?utf-8?Q?b?=\n
output: =?gb18030?B?8A==?= b\n
status: Well

== bytes that aren't UTF-8 stand as they are, and a word that stands for one stays
take: A:
message: A: caf\xe9 =?utf-8?Q?=E9?= =?utf-8?Q?b?=\n
output: caf\xe9 =?utf-8?Q?=E9?= b\n
status: Well

== a line break in an encoded word is no line break
take: A:
message: A: =?utf-8?Q?a=0D=0Ab=0A?=\n
output: a  b\n
status: Well

== no field of the name
take: C:
message: A: 1\n\n
status: Well

== half a character stays encoded, and the word beside it is read
take: A:
message: A: =?utf-8?Q?=C3?= x =?utf-8?Q?b?=\n\n
output: =?utf-8?Q?=C3?= x b\n
status: Well

== a character in two words
take: A:
message: A: =?utf-8?Q?=C3?= =?utf-8?Q?=A4?=\n\n
output: \xc3\xa4\n
status: Well
"#;

/// What goes into fields.
const ENCODED: &str = r#"
== a text that isn't ASCII takes the place of another
only: Subject: Grüße
message: Subject: a\n\n
output: Subject: =?utf-8?B?R3LDvMOfZQ==?=\n\n
status: Well

== a text that holds what encoded words begin with
add: Subject:  a =? b?
message: A: 1\n\n
output: A: 1\nSubject: =?utf-8?B?YSA9PyBiPw==?=\n\n
status: Well

== a plain text goes in as it is given
add: Subject :  a = b?
message: A: 1\n\n
output: A: 1\nSubject :  a = b?\n\n
status: Well

== a tab isn't printable
add if: B: a\tb
message: A: 1\n
output: A: 1\nB: =?utf-8?B?YQli?=\n
status: Well

== a field of the name is there
add if: A: ä
message: A: 1\n\n
output: A: 1\n\n
status: Well

== the fields of the name get a prefix
prefixed: a : ä\t
message: A: 1\n\n
output: Old-A: 1\na: =?utf-8?B?w6Q=?=\n\n
status: Well

== a long text is folded as the lines of the message end: LF
add: B: ééééééééééééééééééééééé
message: A: 1\n\n
output: A: 1\nB: =?utf-8?B?w6nDqcOpw6nDqcOpw6nDqcOpw6nDqcOpw6nDqcOpw6nDqcOpw6nDqcOpw6k=?=\n =?utf-8?B?w6k=?=\n\n
status: Well

== a long text is folded as the lines of the message end: CR LF
add: B: ééééééééééééééééééééééé
message: A: 1\r\n\r\n
output: A: 1\r\nB: =?utf-8?B?w6nDqcOpw6nDqcOpw6nDqcOpw6nDqcOpw6nDqcOpw6nDqcOpw6nDqcOpw6k=?=\r\n =?utf-8?B?w6k=?=\r\n\r\n
status: Well

== the name of an address
only: From: Jörg Müller <j@x.org>
message: A: 1\n\n
output: A: 1\nFrom: =?utf-8?B?SsO2cmcgTcO8bGxlcg==?= <j@x.org>\n\n
status: Well

== a list of addresses, of which one is quoted and one has a comment, and a group
only: To: "Ä, B" <a@b>, c@d (x, y), Gü: e@f, Ö <g@[IPv6:1::2]>;
message: A: 1\n\n
output: A: 1\nTo: =?utf-8?B?w4QsIEI=?= <a@b>, c@d (x, y), =?utf-8?B?R8O8?= : e@f, =?utf-8?B?w5Y=?= <g@[IPv6:1::2]>;\n\n
status: Well

== bytes that are escaped in quotes
only: cc: "Ä \\"B\\" \\\\ C" <a@b>
message: A: 1\n\n
output: A: 1\ncc: =?utf-8?B?w4QgIkIiIFwgQw==?= <a@b>\n\n
status: Well

== a name that begins like an encoded word
only: Resent-Cc: =?x?= <a@b>
message: A: 1\n\n
output: A: 1\nResent-Cc: =?utf-8?B?PT94Pz0=?= <a@b>\n\n
status: Well

== a name on two lines, and a long one
only: Bcc: a@b,\r\n Ä\r\n B <c@d>, ÄÄÄÄÄÄÄÄÄÄÄÄÄÄÄÄÄÄÄÄÄÄÄÄÄÄÄÄÄÄ <e@f>
message: A: 1\r\n\r\n
output: A: 1\r\nBcc: a@b,\r\n =?utf-8?B?w4QgQg==?= <c@d>, =?utf-8?B?w4TDhMOEw4TDhMOEw4TDhMOEw4TDhMOEw4TDhMOEw4TDhMOEw4TDhMOEw4Q=?=\r\n =?utf-8?B?w4TDhMOEw4TDhMOEw4TDhA==?= <e@f>\r\n\r\n
status: Well

== comments after addresses
only: To: c@d (Jörg Müller), "Ä" <a@b> (Büro), <e@f> (x)
message: A: 1\n\n
output: A: 1\nTo: c@d (=?utf-8?B?SsO2cmcgTcO8bGxlcg==?=), =?utf-8?B?w4Q=?= <a@b> (=?utf-8?B?QsO8cm8=?=), <e@f> (x)\n\n
status: Well

== a comment beside a name, with a comment in it
only: To: Jörg (Büro (ä)) <a@b>
message: A: 1\n\n
output: A: 1\nTo: =?utf-8?B?SsO2cmc=?= (=?utf-8?B?QsO8cm8gKMOkKQ==?=) <a@b>\n\n
status: Well

== a comment with a parenthesis that is escaped, and one that isn't closed
only: Cc: a@b (ä\\) "x"), c@d (ä
message: A: 1\n\n
output: A: 1\nCc: a@b (=?utf-8?B?w6QpICJ4Ig==?=), c@d (=?utf-8?B?w6Q=?=\n\n
status: Well

== a comment on two lines
only: Cc: a@b (ä\r\n b)
message: A: 1\r\n\r\n
output: A: 1\r\nCc: a@b (=?utf-8?B?w6QgYg==?=)\r\n\r\n
status: Well

== a parameter gets a charset
only: Content-Disposition: attachment; filename="Übung 1.txt"; size=3
message: A: 1\n\n
output: A: 1\nContent-Disposition: attachment; filename*=utf-8''%C3%9Cbung%201.txt; size=3\n\n
status: Well

== a parameter without quotes, and comments
only: Content-Type: text/plain (ä); charset=utf-8; name = ü (Büro)
message: A: 1\n\n
output: A: 1\nContent-Type: text/plain (=?utf-8?B?w6Q=?=); charset=utf-8; name*=utf-8''%C3%BC(=?utf-8?B?QsO8cm8=?=)\n\n
status: Well

== a quoted string with a quote and a backslash in it, and a semicolon
only: Content-Type: a/b; x="ä;\\"\\\\"
message: A: 1\n\n
output: A: 1\nContent-Type: a/b; x*=utf-8''%C3%A4%3B%22%5C\n\n
status: Well

== a comment in a field that holds no text
only: Resent-Message-ID: <a@b> (ä)
message: A: 1\n\n
output: A: 1\nResent-Message-ID: <a@b> (=?utf-8?B?w6Q=?=)\n\n
status: Well

== structured fields that can't be written go in as they are given
only: Content-Disposition: attachment; filename="Ü" x
message: A: 1\n\n
output: A: 1\nContent-Disposition: attachment; filename="Ü" x\n\n
status: Well

== the name of a parameter that isn't ASCII
only: Content-Type: a/b; ü=1
message: A: 1\n\n
output: A: 1\nContent-Type: a/b; ü=1\n\n
status: Well

== a name with an asterisk already
only: Content-Type: a/b; x*="ü"
message: A: 1\n\n
output: A: 1\nContent-Type: a/b; x*="ü"\n\n
status: Well

== addresses in ASCII go in as they are given
only: To :  "A, B"  <a@b>
message: A: 1\n\n
output: A: 1\nTo :  "A, B"  <a@b>\n\n
status: Well

== an address that isn't ASCII goes in as it is given
only: To: Ä <ä@b>
message: A: 1\n\n
output: A: 1\nTo: Ä <ä@b>\n\n
status: Well

== a name without an address goes in as it is given
only: From: Jörg
message: A: 1\n\n
output: A: 1\nFrom: Jörg\n\n
status: Well

== a name and a colon alone
only: A:
message: A: 1\nB: 2\n\n
output: B: 2\n\n
status: Well
"#;

fn word<'a>(row: &'a Row, key: &str) -> Option<&'a str> {
    let cell = row.get(key)?;
    std::str::from_utf8(&cell.bytes).ok()
}

fn words_in(alloc: Global, row: &Row) -> LetterWords<'_> {
    let mut words = LetterWords::none(alloc);
    words.add_if = word(row, "add if");
    words.add = word(row, "add");
    words.prefixed = word(row, "prefixed");
    words.only = word(row, "only");
    words.take = word(row, "take");
    words
}

/// Runs the filter of a row over devices that give and take this many bytes a call.
pub fn check_row(
    rt: &impl Abort,
    alloc: Global,
    row: &Row,
    form: ValueForm,
    size: usize,
) -> Result<(), Fail> {
    let words = words_in(alloc, row);
    let (Some(lf), Some(crlf)) = (
        words.letters_in(alloc, IN_WORDS, Ending::Lf)?,
        words.letters_in(alloc, IN_WORDS, Ending::Crlf)?,
    ) else {
        assert!(rt; false, "no letters: {row:?}");
        return Ok(());
    };
    let rounds = [Round::Letters {
        lf: &lf,
        crlf: &crlf,
    }];
    let filter = FieldFilter {
        form,
        ..FieldFilter::new(&rounds)
    };
    assert!(rt; filter.ok(), "{row:?}");
    let mut out = Page::new(alloc, size)?;
    let mut err = Page::new(alloc, size)?;
    let mut input = Text::new(row.bytes("message"), size);
    let status = match try_field(alloc, &mut input, &mut out, &mut err, &filter, false) {
        Ok(status) => status,
        Err(cause) => give_up(&mut err, cause),
    };
    check_left(rt, alloc, row, status, &out, &err)
}

#[test]
fn values_are_unfolded(rt: HostRuntime) -> Result<(), Fail> {
    for row in &rows(rt.alloc(), UNFOLDED)? {
        check_row(&rt, rt.alloc(), row, ValueForm::Unfolded, 3)?;
    }
    Ok(())
}

#[test]
fn values_are_decoded(rt: HostRuntime) -> Result<(), Fail> {
    for row in &rows(rt.alloc(), DECODED)? {
        check_row(&rt, rt.alloc(), row, ValueForm::Decoded, 1_000)?;
    }
    Ok(())
}

#[test]
fn values_are_encoded(rt: HostRuntime) -> Result<(), Fail> {
    for row in &rows(rt.alloc(), ENCODED)? {
        check_row(&rt, rt.alloc(), row, ValueForm::AsWritten, 7)?;
    }
    Ok(())
}

// The field of `-I` goes into encoded words.
fn check_encoding(rt: &impl Abort, alloc: Global) -> Result<(), AllocError> {
    let mut words = LetterWords::none(alloc);
    words.only = Some("A: \u{e4}");
    let Some(letters) = words.letters_in(alloc, IN_WORDS, Ending::Lf)? else {
        assert!(rt; false, "no letters");
        return Ok(());
    };
    match &letters.only {
        Some(field) => {
            assert_eq!(rt; field.as_slice(), b"A: =?utf-8?B?w6Q=?=".as_slice());
        }
        None => assert!(rt; false, "no field"),
    }
    Ok(())
}

#[test]
fn memory_for_encoding(rt: HostRuntime) {
    let alloc = rt.alloc();
    if check_encoding(&rt, alloc).is_err() {
        assert!(rt; check_encoding(&rt, alloc).is_ok());
    }
}

const WORDS: &[u8] = b"A: =?utf-8?Q?=C3=A4?=\nB: x\nA: c@d\n\n";

const DECODED_VALUES: &[u8] = b"\xc3\xa4\nc@d\n";

const UNFOLDED_VALUES: &[u8] = b"=?utf-8?Q?=C3=A4?=\nc@d\n";

// The values of the fields of a name go out, or the first part of them.
fn check_values(
    rt: &impl Abort,
    alloc: Global,
    mut out: Page,
    mut err: Page,
    letters: &Letters,
    form: ValueForm,
    values: &[u8],
) -> Status {
    let rounds = [Round::new(letters)];
    let filter = FieldFilter {
        form,
        ..FieldFilter::new(&rounds)
    };
    if !filter.ok() {
        return Status::Usage;
    }
    let mut input = Text::new(WORDS, 1_000);
    match try_field(alloc, &mut input, &mut out, &mut err, &filter, false) {
        Ok(status) => {
            assert_eq!(rt; out.bytes(), values);
            status
        }
        Err(cause) => {
            assert!(rt; values.starts_with(out.bytes()));
            give_up(&mut err, cause)
        }
    }
}

/// Asks for the values of the fields of a name, and again where memory was refused.
pub fn check_memory(rt: &impl Abort, alloc: Global, form: ValueForm, values: &[u8]) {
    let mut words = LetterWords::none(alloc);
    words.take = Some("A:");
    let (Ok(Some(letters)), Ok(out), Ok(err)) = (
        words.letters(alloc),
        Page::new(alloc, 1_000),
        Page::new(alloc, 1_000),
    ) else {
        return;
    };
    if check_values(rt, alloc, out, err, &letters, form, values) == Status::Memory {
        let (out, err) = (page(rt, alloc), page(rt, alloc));
        assert_eq!(rt;
            check_values(rt, alloc, out, err, &letters, form, values),
            Status::Well
        );
    }
}

#[test]
fn memory_for_decoding(rt: HostRuntime) {
    check_memory(&rt, rt.alloc(), ValueForm::Decoded, DECODED_VALUES);
}

#[test]
fn memory_for_unfolding(rt: HostRuntime) {
    check_memory(&rt, rt.alloc(), ValueForm::Unfolded, UNFOLDED_VALUES);
}
