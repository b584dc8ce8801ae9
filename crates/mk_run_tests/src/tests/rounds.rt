//! Letters that are given again and rules: rounds, each on what the one before it left. The expected bytes are worked out by hand.

use super::check_left;
use super::devices::{Page, Text};
use mk_rows::{Cell, Row, rows};
use mk_run::{
    FieldFilter, FieldForm, Letter, LetterWord, RoundWords, Status, give_up, letters_of_rounds,
    rounds, rounds_of_words, try_field,
};
use std::alloc::{AllocError, Global};
use std::process::Abort;
use std::test::Fail;

/// Letters in the order of the command line, a message, and what comes of them.
const ROWS: &str = r#"
== one field after another
only: A: 1
only: B: 2
message: B: 0\nC: 3\n\n
output: C: 3\nA: 1\nB: 2\n\n
status: Well

== the second round works on what the first one left
add: A: 1
add: A: 2
last: A:
message: A: 0\nB: 0\n\n
output: B: 0\nA: 2\n\n
status: Well

== a name that the first round made is renamed by the second
rename: A:B
rename: B:C
message: A: 1\nB: 2\n\n
output: C: 1\nC: 2\n\n
status: Well

== two names change places
rename: A:X-A
rename: B:A
rename: X-A:B
message: A: 1\nB: 2\n\n
output: B: 1\nA: 2\n\n
status: Well

== letters of a round work in their own order, whatever the order of their words
last: A:
add: A: 1
last: B:
message: A: 0\nB: 1\nB: 2\n\n
output: B: 2\nA: 1\n\n
status: Well

== a name that goes is of the round that has begun
add: X-A: 1
drop: X-*:
drop: B:
add: X-A: 2
message: X-A: 0\nB: 0\nC: 0\n\n
output: C: 0\nX-A: 1\nX-A: 2\n\n
status: Well

== so is a name that stays
add: X-A: 1
keep: X-*:
keep-only: B:
add: X-A: 2
message: MIME-Version: 1.0\nX-A: 0\nB: 0\nC: 0\n\n
output: X-A: 0\nB: 0\nX-A: 1\nX-A: 2\n\n
status: Well

== a multipart doesn't lose what says so
keep-only: A:
message: A: 1\nContent-Type: multipart/mixed; boundary=b\n\n--b\n\none\n--b--\n
output: A: 1\nContent-Type: multipart/mixed; boundary=b\n\n--b\n\none\n--b--\n
errors: message 1: Recut\n
status: Refused

== what the first round added goes in the second
add: X-A: 1
add: X-B: 2
drop: X-A:
message: X-A: 0\n\n
output: X-B: 2\n\n
status: Well

== a round that is refused leaves no earlier one
only: A: 1
only: Content-Type:
message: Content-Type: multipart/mixed; boundary=b\n\n--b\n\none\n--b--\n
output: Content-Type: multipart/mixed; boundary=b\n\n--b\n\none\n--b--\n
errors: message 1: Recut\n
status: Refused

== nor does it stop at a later one
only: Content-Type:
only: A: 1
message: Content-Type: multipart/mixed; boundary=b\n\n--b\n\none\n--b--\n
output: Content-Type: multipart/mixed; boundary=b\n\n--b\n\none\n--b--\n
errors: message 1: Recut\n
status: Refused

== two rounds before the one that is refused
only: A: 1
only: B: 2
only: Content-Type:
message: A: 0\nContent-Type: multipart/mixed; boundary=b\n\n--b\n\none\n--b--\n
output: A: 0\nContent-Type: multipart/mixed; boundary=b\n\n--b\n\none\n--b--\n
errors: message 1: Recut\n
status: Refused

== the ending is that of the message as the round before left it
only: A:
only: B: 2
message: A: 1\r\nC: 3\n\n
output: C: 3\nB: 2\n\n
status: Well

== values of a name, alone
take: A:
message: A: 1\n\n
output: \x201\n
status: Well

== values of a name beside a letter
take: A:
add: B: 1
message: A: 1\n\n
status: Usage

== values of two names, those of one after those of the other
take: B:
take: A:
message: A: 1\nB: 2\nA: 3\n\n
output: \x202\n\x201\n\x203\n
status: Well

== values of two names beside a letter of the second round
take: A:
take: B:
add: C: 1
message: A: 1\nB: 2\n\n
status: Usage
"#;

/// Fields of several lines, which end as those of the message do.
const TURNED: &str = r#"
== line feeds become CR LF
only: A: a\n b
message: A: 1\r\n\r\n
output: A: a\r\n b\r\n\r\n
status: Well

== CR LF becomes a line feed
add: A: a\r\n\tb\n c
message: B: 1\n\n
output: B: 1\nA: a\n\tb\n c\n\n
status: Well

== the ending is that of the first line, and a message without lines has line feeds
add if: A: a\r\n b
message:
output: A: a\n b\n
status: Well

== each round takes the ending of what the one before it left
only: A: a\n b
drop: B:
only: C: c\n d
message: B: 1\r\nA: 2\n\n
output: A: a\r\n b\r\nC: c\r\n d\r\n\n
status: Well

== a carriage return within a line stays
prefixed: A: a\rb\n c
message: A: 1\r\n\r\n
output: Old-A: 1\r\nA: a\rb\r\n c\r\n\r\n
status: Well
"#;

/// The same of the messages of a mailbox.
const MAILBOXES: &str = r#"
== each message by itself
only: A: 1
only: Content-Type:
message: From a\nA: 0\nContent-Type: text/plain\n\nFrom b\nContent-Type: multipart/mixed; boundary=b\n\n--b\n\none\n--b--\n\nFrom c\nA: 3\n\n
output: From a\nA: 1\n\nFrom b\nContent-Type: multipart/mixed; boundary=b\n\n--b\n\none\n--b--\n\nFrom c\nA: 1\n\n
errors: message 2: Recut\n
status: Refused
"#;

/// Rules for the texts of fields, alone and between letters, a message, and what comes of them.
const RULES: &str = r#"
== the first match alone gets the new text, and in the fields of the name alone
sub: Subject:s/a/b/
message: Subject: aa\nTo: aa\n\naa\n
output: Subject: ba\nTo: aa\n\naa\n
status: Well

== each match gets it, in upper and in lower case
sub: subject:s/a/b/gi
message: Subject: aAxA\n\n
output: Subject: bbxb\n\n
status: Well

== each field of the name is changed where the pattern matches, and the others keep their bytes
sub: A:s/1/3/
message: A: 1\nA:2\nB: 1\na :1\n\n
output: A: 3\nA:2\nB: 1\na: 3\n\n
status: Well

== what the groups match goes into the new text
sub: Subject:s/(\\w+) (\\w+)/$2-${1}$$/
message: Subject: one two three\n\n
output: Subject: two-one$ three\n\n
status: Well

== a slash after a backslash is a byte of the text
sub: Path:s/\\/a\\//\\/b\\//
message: Path: /a/c\n\n
output: Path: /b/c\n\n
status: Well

== a text is read in its encoded words and goes in as one again
sub: Subject:s/J.rg/J\xc3\xbcrgen/
message: Subject: =?utf-8?q?J=C3=B6rg?= a\n\n
output: Subject: =?utf-8?B?SsO8cmdlbiBh?=\n\n
status: Well

== bytes of UTF-8 that stood without encoded words stay so
sub: Subject:s/a/b/
message: Subject: J\xc3\xb6rg a\n\n
output: Subject: J\xc3\xb6rg b\n\n
status: Well

== of addresses the names are read in their encoded words
sub: To:s/j@a\\.example/j@b.example/
message: To: =?utf-8?q?J=C3=B6rg?= <j@a.example>\n\n
output: To: =?utf-8?B?SsO2cmc=?= <j@b.example>\n\n
status: Well

== a name that holds a comma isn't, since the comma would part addresses
sub: To:s/a, b/c/
sub: To:s/x/y/
message: To: =?utf-8?q?a=2C_b?= <j@x>\n\n
output: To: =?utf-8?q?a=2C_b?= <j@y>\n\n
status: Well

== parameters are read as they are written
sub: Content-Disposition:s/a\\.txt/b.txt/
message: Content-Disposition: attachment;\n filename="a.txt"\n\n
output: Content-Disposition: attachment; filename="b.txt"\n\n
status: Well

== a folded text is one line, and stays folded where nothing matches or nothing changes
sub: A:s/b c/d/
message: A: b\n c\nA: b\n e\n\n
output: A: d\nA: b\n e\n\n
status: Well

== the new line ends as the field did
sub: A:s/1/2/
message: A: 1\r\nB: 1\r\n\r\n
output: A: 2\r\nB: 1\r\n\r\n
status: Well

== all of a text may go
sub: A:s/.*//
message: A: 1\nB: 1\n\n
output: A: \nB: 1\n\n
status: Well

== the fields in which a pattern matches go
drop: A:~^x
message: A: x1\nA: 2x\nB: x\nA: x3\n\n
output: A: 2x\nB: x\n\n
status: Well

== a field whose encoded word says it goes
drop: Subject:~J\xc3\xb6rg
message: Subject: =?utf-8?q?J=C3=B6rg?=\nSubject: J\n\n
output: Subject: J\n\n
status: Well

== rules and letters work in the order of the command line
add: A: 1
sub: A:s/1/2/
add: A: 1
drop: A:~2
add: A: 3
message: B: 0\n\n
output: B: 0\nA: 1\nA: 3\n\n
status: Well
"#;

fn letter(key: &str) -> Option<Letter> {
    match key {
        "drop" => Some(Letter::Drops),
        "keep" => Some(Letter::Keeps),
        "keep-only" => Some(Letter::KeepsOnly),
        "rename" => Some(Letter::Rename),
        "add if" => Some(Letter::AddIf),
        "add" => Some(Letter::Add),
        "prefixed" => Some(Letter::Prefixed),
        "only" => Some(Letter::Only),
        "first" => Some(Letter::First),
        "last" => Some(Letter::Last),
        "take" => Some(Letter::Take),
        "whole" => Some(Letter::Whole),
        "sub" => Some(Letter::Sub),
        _ => None,
    }
}

fn word(cell: &Cell) -> Option<LetterWord<'_>> {
    let letter = letter(cell.key)?;
    match std::str::from_utf8(&cell.bytes) {
        Ok(word) => Some(LetterWord { letter, word }),
        Err(_) => None,
    }
}

/// The rounds that a row asks for.
fn rounds_in(alloc: Global, row: &Row) -> Result<Vec<RoundWords<'_>>, AllocError> {
    let mut words = Vec::new(alloc);
    for cell in &row.cells {
        if let Some(word) = word(cell) {
            words.push(word)?;
        }
    }
    rounds_of_words(alloc, &words)
}

fn check_row(
    rt: &impl Abort,
    alloc: Global,
    row: &Row,
    form: FieldForm,
    size: usize,
    each: bool,
) -> Result<(), Fail> {
    let words = rounds_in(alloc, row)?;
    let Some(letters) = letters_of_rounds(alloc, &words, form)? else {
        return Err(Fail::new("a name without its colon"));
    };
    let rounds = rounds(alloc, &letters)?;
    let filter = FieldFilter::new(&rounds);
    let mut input = Text::new(row.bytes("message"), size);
    let mut out = Page::new(alloc, size)?;
    let mut err = Page::new(alloc, size)?;
    let status = if filter.ok() {
        match try_field(alloc, &mut input, &mut out, &mut err, &filter, each) {
            Ok(status) => status,
            Err(cause) => give_up(&mut err, cause),
        }
    } else {
        Status::Usage
    };
    check_left(rt, alloc, row, status, &out, &err)
}

#[test]
fn rounds_filter_a_message(rt: HostRuntime) -> Result<(), Fail> {
    for row in &rows(rt.alloc(), ROWS)? {
        check_row(&rt, rt.alloc(), row, FieldForm::default(), 7, false)?;
    }
    Ok(())
}

#[test]
fn rules_change_the_texts_of_fields(rt: HostRuntime) -> Result<(), Fail> {
    for row in &rows(rt.alloc(), RULES)? {
        check_row(&rt, rt.alloc(), row, FieldForm::default(), 7, false)?;
    }
    Ok(())
}

#[test]
fn rounds_filter_a_mailbox(rt: HostRuntime) -> Result<(), Fail> {
    for row in &rows(rt.alloc(), MAILBOXES)? {
        check_row(&rt, rt.alloc(), row, FieldForm::default(), 7, true)?;
    }
    Ok(())
}

#[test]
fn fields_end_as_the_message_does(rt: HostRuntime) -> Result<(), Fail> {
    let turned = FieldForm {
        encoded: false,
        turned: true,
    };
    for row in &rows(rt.alloc(), TURNED)? {
        check_row(&rt, rt.alloc(), row, turned, 7, false)?;
    }
    Ok(())
}
