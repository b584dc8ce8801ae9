//! Mailboxes: the messages listed, one of them picked, and the From-lines at which they are cut.

use super::{check_refused, check_rows};
use std::test::Fail;

const ROWS: &str = r#"
== the messages
words: messages
message: From a\nA: 1\n\nx\n\nFrom b\nContent-Type: message/rfc822\n\nA: b\n\ny\n
output: 1 0 16 1\n2 16 61 2\n
status: Well

== the messages as JSON
words: messages|--json
message: From a\nSUBJECT: =?iso-8859-1?Q?caf=E9?=\n "x"\nSubject: t\n\nx\n\nFrom b\nContent-Type: message/rfc822\nIn-Reply-To: <1@a> \xff\n\nTo: b\n\ny\n
output: {"number":1,"start":0,"end":60,"sections":1,"subject":"caf\xc3\xa9 \\"x\\""}\n{"number":2,"start":60,"end":127,"sections":2,"in_reply_to":"<1@a> \xef\xbf\xbd"}\n
status: Well

== all that is said of a message as JSON
words: messages|--rfc4155|--json
message: In-Reply-To: <1@a>\nMessage-ID: <2@a>\nDate: Fri, 8 Jul 2011\nSubject:\nTo: b@a\nFrom: "C" <c@a>\n\nx\n\nFrom here on\n
output: {"number":1,"start":0,"end":109,"sections":1,"from":"\\"C\\" <c@a>","to":"b@a","subject":"","date":"Fri, 8 Jul 2011","message_id":"<2@a>","in_reply_to":"<1@a>"}\n
status: Well

== none
words: messages
message:
status: Well

== a sentence of a body begins a message
words: messages
message: From a Fri Jul  8 12:08:34 2011\n\nx\n\nFrom here on\n
output: 1 0 36 1\n2 36 49 1\n
status: Well

== but not where dates are asked for
words: messages|--rfc4155
message: From a Fri Jul  8 12:08:34 2011\n\nx\n\nFrom here on\n
output: 1 0 49 1\n
status: Well

== nor where a field must follow
words: messages|--mbox=field
message: From a\nA: 1\n\nx\n\nFrom here on\nall is body\n\nFrom b\nA: 2\n
output: 1 0 42 1\n2 42 54 1\n
status: Well

== dates are asked for by either option
words: messages|--mbox=date
message: From a Fri Jul  8 12:08:34 2011\n\nx\n\nFrom here on\n
output: 1 0 49 1\n
status: Well

== any From-line begins a message, as without the option
words: messages|--mbox|any
message: From a Fri Jul  8 12:08:34 2011\n\nx\n\nFrom here on\n
output: 1 0 36 1\n2 36 49 1\n
status: Well

== the sections of the second message
words: sections|-n|2
message: From a\nA: 1\n\nx\n\nFrom b\nContent-Type: message/rfc822\n\nA: b\n\ny\n
output: 1 message message/rfc822 identity 7 37 45 1 3\n1.1 leaf text/plain identity 37 43 45 1 1\n
status: Well

== they as JSON
words: sections|-n|1|--json
message: From a\nA: 1\n\nx\n\nFrom b\n\n
output: {"path":"1","kind":"leaf","type":"text/plain","encoding":"identity","start":7,"body":13,"end":15,"field_lines":1,"body_lines":1,"stored_as":"part-1","size":2}\n
status: Well

== the content of the last
words: extract|-n|2|-s|1
message: From a\n\nx\n\nFrom b\nA: b\n\ny\n
output: y\n
status: Well

== the same where only dates count
words: extract|--rfc4155|-n|1|-s|1
message: From a Fri Jul  8 12:08:34 2011\n\nx\n\nFrom here on\n
output: x\n\nFrom here on\n
status: Well

== and where a field must follow
words: extract|-n|1|--mbox=field|-s|1
message: From a\nA: 1\n\nx\n\nFrom here on\n
output: x\n\nFrom here on\n
status: Well

== a message edited alone
words: edit|-n|2|-e|add 1 X: y
message: From a\n\nx\n\nFrom b\nA: b\n\ny\n\nFrom c\n\n
output: From b\nA: b\nX: y\n\ny\n
status: Well

== the empty line that ends a message in a mailbox isn't content
words: extract|-n|1|-s|1
message: From a\r\n\r\nx\r\n\r\n\r\nFrom b\r\n\r\ny\r\n
output: x\r\n\r\n
status: Well

== nor is that of the last message, where it has a From-line
words: extract|-n|1|-s|1
message: From a\n\nx\n\n
output: x\n
status: Well

== a message that isn't one of a mailbox stays as it is
words: extract|-n|1|-s|1
message: A: 1\n\nx\n\n
output: x\n\n
status: Well

== lines lose a mark, and others none
words: extract|--unquote|-n|1|-s|1
message: From a\n\n>From b\n>>From c\r\n> From d\n>from e\nx >From f\n>>\n\nFrom g\n\n
output: From b\n>From c\r\n> From d\n>from e\nx >From f\n>>\n
status: Well

== lines keep their marks unasked
words: extract|-n|1|-s|1
message: From a\n\n>From b\n
output: >From b\n
status: Well

== an edit of it is refused
words: edit|-n|1|-e|del 1 Z 1
message: From a\n\nx\n
output: From a\n\nx\n
errors: line 1: NoSuchField\n
status: Refused

== no such message
words: edit|-n|3|-e|add 1 X: y
message: From a\n\nx\n\nFrom b\nA: b\n\ny\n
errors: message 3: NoSuchMessage\n
status: Refused

== nor one to list
words: sections|-n|1
message:
errors: message 1: NoSuchMessage\n
status: Refused

== nor one of the greatest number
words: extract|-n|4294967295|-s|1
message: A: b\n\nx\n
errors: message 4294967295: NoSuchMessage\n
status: Refused

== letters where only dates count
words: field|-s|--rfc4155|-A|X: y
message: \nFrom a Fri Jul  8 12:08:34 2011\n\nx\n\nFrom here on\n
output: \nFrom a Fri Jul  8 12:08:34 2011\nX: y\n\nx\n\nFrom here on\n
status: Well

== letters where a field must follow
words: field|-s|--mbox=field|-A|X: y
message: From a\nA: 1\n\nx\n\nFrom here on\nall is body\n
output: From a\nA: 1\nX: y\n\nx\n\nFrom here on\nall is body\n
status: Well
"#;

#[test]
fn messages_of_a_mailbox(rt: HostRuntime) -> Result<(), Fail> {
    check_rows(&rt, ROWS)
}

/// Command lines with an invalid word, and how what is said of it begins.
const REFUSED: &str = r"
== -n <N> doesn't take 0
words: sections|-n|0
begins: error: invalid value '0' for '-n <N>': write the number of a message, from 1 to 4294967295\n\nUsage: mimetool sections\x20

== -n <N> doesn't take a zero before the number
words: extract|-n|01|-s|1
begins: error: invalid value '01' for '-n <N>': write the number of a message, from 1 to 4294967295\n\nUsage: mimetool extract\x20

== -n <N> doesn't take a number that is too large
words: unpack|-n|4294967296
begins: error: invalid value '4294967296' for '-n <N>': write the number of a message, from 1 to 4294967295\n\nUsage: mimetool unpack\x20

== -n <N> doesn't take two numbers
words: edit|-n|1.2|-e|undo
begins: error: invalid value '1.2' for '-n <N>': write the number of a message, from 1 to 4294967295\n\nUsage: mimetool edit\x20

== --rfc4155 without -n or --each
words: sections|--rfc4155
words: extract|--rfc4155|-s|1
words: unpack|--rfc4155
words: edit|--rfc4155|-e|undo
begins: error: --rfc4155 goes only with -n or --each: it says how a mailbox is cut\n\nUsage: mimetool\x20

== --mbox without -n or --each
words: sections|--mbox=field
words: extract|--mbox|any|-s|1
words: unpack|--mbox=date
words: edit|--mbox=field|-e|undo
begins: error: --mbox goes only with -n or --each: it says how a mailbox is cut\n\nUsage: mimetool\x20

== --unquote without -n or --each
words: sections|--unquote
words: extract|--unquote|-s|1
words: unpack|--unquote
begins: error: --unquote goes only with -n or --each: it removes the > that a mailbox puts before lines\n\nUsage: mimetool\x20

== --unquote without -n, where --each needs the marks
words: edit|--unquote|-e|undo
begins: error: --unquote goes only with -n: it removes the > that a mailbox puts before lines\n\nUsage: mimetool\x20

== --rfc4155 without -s
words: field|--rfc4155
begins: error: --rfc4155 goes only with -s: it says how a mailbox is cut\n\nUsage: mimetool field\x20

== --mbox without -s
words: field|--mbox=any
begins: error: --mbox goes only with -s: it says how a mailbox is cut\n\nUsage: mimetool field\x20

== --mbox <HOW> takes three words
words: messages|--mbox=rfc4155
words: messages|--mbox|rfc4155
begins: error: invalid value 'rfc4155' for '--mbox <HOW>': write any, date or field\n\nUsage: mimetool messages\x20

== also where no mailbox is read
words: sections|--mbox=
begins: error: invalid value '' for '--mbox <HOW>': write any, date or field\n\nUsage: mimetool sections\x20

== --mbox beside --rfc4155
words: messages|--mbox=date|--rfc4155
words: messages|--rfc4155|--mbox=field
words: field|-s|--mbox=any|--rfc4155
begins: error: the argument '--

== -n beside --in-place
words: edit|-n|1|--in-place|message|-e|undo

== words that messages and field don't have
words: messages|mailbox
words: messages|-n|1
words: field|-n|1
";

#[test]
fn other_words_on_mailboxes_are_refused(rt: HostRuntime) -> Result<(), Fail> {
    check_refused(&rt, REFUSED)
}
