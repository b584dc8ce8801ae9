//! What is found in a message (`check`). The offsets are those of the words in the messages.

use super::{check_refused, check_rows, gives};
use mk_check::{Fault, FindingForm, findings};
use mk_run::Status;
use mk_tree::Doc;
use std::test::Fail;

const FOUND: &str = r#"
== nothing is found
words: check
message: From: a@b.org\nReceived: x\nReceived: y\nSubject: x\n\nx\n
status: Well

== a field that comes again, in any case
words: check
message: To: a@b.org\nSubject: x\nTO: c@d.org\n\nTo: e\nTo: f\n
output: 1 23 Repeated To\n
status: Refused

== the second of each name, in the order of the names
words: check
message: Cc: d\nTo: a\nTo: b\nTo: c\nCc: e\n\n
output: 1 12 Repeated To\n1 24 Repeated Cc\n
status: Refused

== the first line of the fields that isn't ASCII, and no line of the body
words: check
message: A: b\nSubject: caf\xc3\xa9\nB: \xff\n\n\xff\n
output: 1 5 NotAscii\n
status: Refused

== a continuation is a line of its own
words: check
message: A: b\n \xff\n\nx\n
output: 1 5 NotAscii\n
status: Refused

== the first line with a NUL
words: check
message: A: b\n\nx\n\x00y\n\x00\n
output: 1 8 HasNul\n
status: Refused

== in the fields, too
words: check
message: A: b\x00\n\nx\n
output: 1 0 HasNul\n
status: Refused

== no semicolon after a type
words: check
message: Content-Type: text/plain charset=utf-8\n\nx\n
output: 1 0 MissingSemicolon Content-Type\n
status: Refused

== none after a quoted string
words: check
message: A: b\nContent-Disposition: attachment; filename="a b" size=3\n\nx\n
output: 1 5 MissingSemicolon Content-Disposition\n
status: Refused

== no quotes around words
words: check
message: Content-Disposition: attachment; filename=a b.txt\n\nx\n
output: 1 0 MissingSemicolon Content-Disposition\n
status: Refused

== comments, and blanks around signs, are none of these
words: check
message: Content-Type: text/plain (a (b) c) ; charset = utf-8 (d \\) e)\n\nx\n
status: Well

== nor are quoted words
words: check
message: Content-Type: text/plain; name="a b \\" c"; charset=utf-8\n\nx\n
status: Well

== a boundary as RFC 2231 writes it
words: check
message: Content-Type: multipart/mixed; boundary*=utf-8''b\n\n--b\n\nx\n--b--\n
output: 1 0 ExtendedBoundary Content-Type\n1 0 NoBoundary Content-Type\n
status: Refused

== a long one
words: check
message: Content-Type: multipart/mixed; boundary*0=b; boundary*1=c\n\nx\n
output: 1 0 ExtendedBoundary Content-Type\n1 0 NoBoundary Content-Type\n
status: Refused

== a multipart without a boundary
words: check
message: A: b\nContent-Type: multipart/mixed\n\n--b\n\nx\n--b--\n
output: 1 5 NoBoundary Content-Type\n
status: Refused

== no delimiter matches
words: check
message: Content-Type: multipart/mixed; boundary=b\n\n--c\n\nx\n--c--\n
output: 1 43 NoPart\n
status: Refused

== a multipart isn't closed
words: check
message: Content-Type: multipart/mixed; boundary=b\n\n--b\n\nx\n
output: 1 50 NotClosed\n
status: Refused

== one is closed
words: check
message: Content-Type: multipart/mixed; boundary=b\n\n--b\n\nx\n--b--
status: Well

== one below it isn't, which ends at the next delimiter
words: check
message: Content-Type: multipart/mixed; boundary=a\n\n--a\nContent-Type: multipart/mixed; boundary=b\n\n--b\n\nx\n--a--\n
output: 1.1 97 NotClosed\n
status: Refused

== an encoding that nobody knows
words: check
message: A: b\nContent-Transfer-Encoding: x-uuencode\n\nx\n
output: 1 5 UnknownEncoding Content-Transfer-Encoding\n
status: Refused

== base64 that is cut
words: check
message: Content-Transfer-Encoding: base64\n\neAoKe\n
output: 1 35 BadBase64\n
status: Refused

== base64 that is whole
words: check
message: Content-Transfer-Encoding: base64\n\neAo=\n
status: Well

== section by section, in the order of the document
words: check
message: To: a\nTo: b\nContent-Type: message/rfc822\n\nSubject: \xff\nSubject: x\nContent-Transfer-Encoding: base64\n\ne\n
output: 1 6 Repeated To\n1.1 42 NotAscii\n1.1 53 Repeated Subject\n1.1 99 BadBase64\n
status: Refused

== a From-line at the start counts among the bytes
words: check
message: From a Fri Jul  8 12:08:34 2011\nTo: a\nTo: b\n\n
output: 1 38 Repeated To\n
status: Refused

== nothing at all
words: check
message:
status: Well

== as JSON
words: check|--json
message: To: a\nTo: b\nContent-Transfer-Encoding: base64\n\ne\n
output: {"path":"1","offset":6,"fault":"Repeated","field":"To"}\n{"path":"1","offset":47,"fault":"BadBase64"}\n
status: Refused

== a message of a mailbox, by its own bytes
words: check|-n|2
message: From a\nTo: a\n\nx\n\nFrom b\nTo: a\nTo: b\n\ny\n
output: 1 13 Repeated To\n
status: Refused

== one that isn't there
words: check|-n|2
message: A: b\n
errors: message 2: NoSuchMessage\n
status: Refused
"#;

/// Invalid words of `check`.
const REFUSED: &str = r"
== how a mailbox is cut, without a mailbox
words: check|--rfc4155
begins: error: --rfc4155 goes only with -n: it says how a mailbox is cut\n\nUsage: mimetool check\x20

== words of other commands
words: check|--each
begins: error: unexpected argument '--each' found
";

#[test]
fn what_is_wrong_is_found(rt: HostRuntime) -> Result<(), Fail> {
    check_rows(&rt, FOUND)
}

#[test]
fn lines_are_long_from_999_bytes_on(rt: HostRuntime) -> Result<(), Fail> {
    let mut message = Vec::from_slice(rt.alloc(), b"A: b\n\nx\n")?;
    message.resize(8 + 998, b'y')?;
    message.extend_from_slice(b"\r\n")?;
    gives(&rt, &["check"], &message, b"", b"", Status::Well)?;
    message.resize(1008 + 999, b'z')?;
    let found = b"1 1008 LongLine\n";
    gives(&rt, &["check"], &message, found, b"", Status::Refused)
}

#[test]
fn faults_have_names(rt: HostRuntime) -> Result<(), Fail> {
    let alloc = rt.alloc();
    let text = Vec::from_slice(alloc, b"To: a\nTo: b\n\n")?;
    let doc = Doc::read(alloc, text).map_err(|(_, error)| error)?;
    let lines = findings(alloc, &doc, FindingForm::Plain)?;
    assert_eq!(rt; lines.as_slice(), b"1 6 Repeated To\n".as_slice());
    assert_eq!(rt; Fault::Repeated.name(), "Repeated");
    Ok(())
}

#[test]
fn invalid_words_of_check_are_refused(rt: HostRuntime) -> Result<(), Fail> {
    check_refused(&rt, REFUSED)
}
