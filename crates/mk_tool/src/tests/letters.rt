//! Each letter of `field` alone, and each value that it doesn't take.

use super::{check_refused, check_rows, obeyed};
use std::test::Fail;

/// What is asked of a message, and what comes out where all is well.
const WELL: &str = r#"
== no letter at all
words: field
message: A: 1\nB: 2\nA: 3\n\nx\n
output: A: 1\nB: 2\nA: 3\n\nx\n
status: Well

== a field that is there isn't added
words: field|-a|A: 9
message: A: 1\nB: 2\nA: 3\n\nx\n
output: A: 1\nB: 2\nA: 3\n\nx\n
status: Well

== a field that isn't there is added
words: field|-a|C: 9
message: A: 1\nB: 2\nA: 3\n\nx\n
output: A: 1\nB: 2\nA: 3\nC: 9\n\nx\n
status: Well

== a field more
words: field|-A|A: 9
message: A: 1\nB: 2\nA: 3\n\nx\n
output: A: 1\nB: 2\nA: 3\nA: 9\n\nx\n
status: Well

== a field after renamed ones
words: field|-i|A: 9
message: A: 1\nB: 2\nA: 3\n\nx\n
output: Old-A: 1\nB: 2\nOld-A: 3\nA: 9\n\nx\n
status: Well

== renamed fields alone
words: field|-i|A:
message: A: 1\nB: 2\nA: 3\n\nx\n
output: Old-A: 1\nB: 2\nOld-A: 3\n\nx\n
status: Well

== a field in the place of others
words: field|-I|A: 9
message: A: 1\nB: 2\nA: 3\n\nx\n
output: B: 2\nA: 9\n\nx\n
status: Well

== no field in their place
words: field|-I|A:
message: A: 1\nB: 2\nA: 3\n\nx\n
output: B: 2\n\nx\n
status: Well

== the first alone
words: field|-u|A:
message: A: 1\nB: 2\nA: 3\n\nx\n
output: A: 1\nB: 2\n\nx\n
status: Well

== the last alone
words: field|-U|A:
message: A: 1\nB: 2\nA: 3\n\nx\n
output: B: 2\nA: 3\n\nx\n
status: Well

== the values of a name
words: field|-x|A:
message: A: 1\nB: 2\nA: 3\n\nx\n
output: \x201\n 3\n
status: Well

== the fields of a name
words: field|-X|A:
message: A: 1\nB: 2\nA: 3\n\nx\n
output: A: 1\nA: 3\n
status: Well

== the values of two names, in the order of the letters
words: field|-x|B:|-x|A:
message: A: 1\nB: 2\nA: 3\n\nx\n
output: \x202\n 1\n 3\n
status: Well

== the values of a name twice, in a mailbox
words: field|-s|--unfold|-x|a:|-x|A:
message: From x\nA: 1\n\nFrom y\nB: 2\n\nFrom z\nA: 3\n
output: 1\n1\n3\n3\n
status: Well

== the fields of two names
words: field|-X|B:|-X|A:
message: A: 1\nB: 2\nA: 3\n\nx\n
output: B: 2\nA: 1\nA: 3\n
status: Well

== the addresses of two names
words: field|--addresses|-x|To:|-x|Cc:
message: Cc: C <c@d>\nTo: "A, B" <a@b>, e@f\n\nx\n
output: a@b\ne@f\nc@d\n
status: Well

== no field of the name
words: field|-x|C:
message: A: 1\nB: 2\nA: 3\n\nx\n
status: Well

== no field of a name
words: field|--drop|A:
message: A: 1\nB: 2\nA: 3\n\nx\n
output: B: 2\n\nx\n
status: Well

== no field of some names
words: field|--drop|a*:|--drop|C:
message: A: 1\nB: 2\nA-b: 3\n\nx\n
output: B: 2\n\nx\n
status: Well

== one name alone, and what says how the message is built
words: field|--keep|a:
message: MIME-Version: 1.0\nA: 1\nB: 2\nA-b: 3\n\nx\n
output: MIME-Version: 1.0\nA: 1\n\nx\n
status: Well

== some names, and nothing else
words: field|--keep|a*:|--keep-only|C:
message: MIME-Version: 1.0\nA: 1\nB: 2\nA-b: 3\n\nx\n
output: A: 1\nA-b: 3\n\nx\n
status: Well

== another text, and no field in which a pattern matches
words: field|--sub|A:s/[0-9]/<$0>/|--drop|a:~3
message: A: 1\nB: 2\nA: 3\n\nx\n
output: A: <1>\nB: 2\n\nx\n
status: Well

== another name
words: field|--rename|A:C
message: A: 1\nB: 2\nA: 3\n\nx\n
output: C: 1\nB: 2\nC: 3\n\nx\n
status: Well

== two letters
words: field|-u|A:|-A|C: 9
message: A: 1\nB: 2\nA: 3\n\nx\n
output: A: 1\nB: 2\nC: 9\n\nx\n
status: Well

== the letters work in their own order
words: field|-I|B:|-U|A:
message: A: 1\nB: 2\nA: 3\n\nx\n
output: A: 3\n\nx\n
status: Well

== a letter twice
words: field|-I|A: 1|-I|B: 3
message: A: 1\nB: 2\nA: 3\n\nx\n
output: A: 1\nB: 3\n\nx\n
status: Well

== a round after another, in the order of the words
words: field|-U|A:|-U|B:|-A|A: 9
message: A: 1\nB: 2\nA: 3\n\nx\n
output: B: 2\nA: 3\nA: 9\n\nx\n
status: Well

== the same with the rounds the other way round
words: field|-U|B:|-U|A:|-A|A: 9
message: A: 1\nB: 2\nA: 3\n\nx\n
output: B: 2\nA: 9\n\nx\n
status: Well

== a name that goes is of the round that has begun
words: field|-A|X-A: 1|--drop|X-*:|-A|X-B: 2|--drop|A:
message: A: 1\nX-A: 2\n\nx\n
output: X-A: 1\nX-B: 2\n\nx\n
status: Well

== an encoded word in each round
words: field|--encode|-I|A: ä|-I|B: ö
message: A: 1\nB: 2\nA: 3\n\nx\n
output: A: =?utf-8?B?w6Q=?=\nB: =?utf-8?B?w7Y=?=\n\nx\n
status: Well

== a mailbox of one message
words: field|-s
message: A: 1\nB: 2\nA: 3\n\nx\n
output: A: 1\nB: 2\nA: 3\n\nx\n
status: Well

== values on one line
words: field|--unfold|-x|A:
message: A: 1\nB: 2\nA: 3\n\nx\n
output: 1\n3\n
status: Well

== what values say
words: field|--decode|-x|A:
message: A: 1\nB: 2\nA: 3\n\nx\n
output: 1\n3\n
status: Well

== values as they stand, and nothing refused
words: field|--refused-ok|-x|A:
message: A: 1\nB: 2\nA: 3\n\nx\n
output: \x201\n 3\n
status: Well

== an encoded word
words: field|--encode|-I|A: ä
message: A: 1\nB: 2\nA: 3\n\nx\n
output: B: 2\nA: =?utf-8?B?w6Q=?=\n\nx\n
status: Well

== the name of an address in an encoded word
words: field|--encode|-I|From: Jörg <j@x.org>
message: B: 2\n\nx\n
output: B: 2\nFrom: =?utf-8?B?SsO2cmc=?= <j@x.org>\n\nx\n
status: Well

== a parameter with a charset
words: field|--encode|-I|Content-Disposition: attachment; filename="Ü 1.txt"
message: B: 2\n\nx\n
output: B: 2\nContent-Disposition: attachment; filename*=utf-8''%C3%9C%201.txt\n\nx\n
status: Well

== a field as it is given
words: field|-I|A: ä
message: A: 1\nB: 2\nA: 3\n\nx\n
output: B: 2\nA: \xc3\xa4\n\nx\n
status: Well
"#;

#[test]
fn each_letter_does_its_own(rt: HostRuntime) -> Result<(), Fail> {
    check_rows(&rt, WELL)
}

/// Words that the command line doesn't have.
const REFUSED: &str = r#"
== no field after a letter
words: field|-a

== values of two names beside a letter that edits
words: field|-x|A:|-x|B:|-u|C:

== fields and values of two names
words: field|-X|A:|-X|B:|-x|C:

== addresses of whole fields
words: field|--addresses|-X|A:

== a name without its colon in a later round
words: field|-u|A:|-u|B

== an address that isn't ASCII, in encoded words
words: field|--encode|-I|From: ä@b
begins: error: invalid value 'From: ä@b' for '-I <FIELD>': in such a field --encode only encodes names, comments and parameters

== a type that isn't ASCII
words: field|--encode|-A|Content-Type: text/ä
begins: error: invalid value 'Content-Type: text/ä' for '-A <FIELD>': in such a field --encode only encodes names, comments and parameters

== bytes after a quoted string
words: field|--encode|-I|Content-Disposition: attachment; filename="ä" b
begins: error: invalid value 'Content-Disposition: attachment; filename="ä" b' for '-I <FIELD>': in such a field --encode only encodes names, comments and parameters

== a name alone
words: field|--encode|-A|A: ä|-A|Resent-To: Jörg
begins: error: invalid value 'Resent-To: Jörg' for '-A <FIELD>': in such a field --encode only encodes names, comments and parameters

== a substitution without its last slash
words: field|--sub|A:s/b/c
begins: error: invalid value 'A:s/b/c' for '--sub <NAME:s/OLD/NEW/>': write a name, a colon and a substitution

== a pattern whose group has no end
words: field|--sub|A:s/(/b/
begins: error: invalid value 'A:s/(/b/' for '--sub <NAME:s/OLD/NEW/>': the pattern is invalid

== fields that go by a pattern beside values
words: field|-x|A:|--drop|A:~b

== a letter that there isn't
words: field|-r

== a long letter in another case
words: field|--Rename|A:B

== a flag twice
words: field|-s|-s

== a field without a letter
words: field|A: 1
"#;

#[test]
fn other_words_are_refused(rt: HostRuntime) -> Result<(), Fail> {
    check_refused(&rt, REFUSED)
}

const ROWS: &str = r"
== each message of a mailbox
words: field|-s|-I|A: 9
message: From a\nA: 1\n\nx\n\nFrom b\nA: 2\n\ny\nFrom z\n\nFrom c\nA: 3\n\n
output: From a\nA: 9\n\nx\n\nFrom b\nA: 9\n\ny\nFrom z\n\nFrom c\nA: 9\n\n
status: Well

== a mailbox taken for one message
words: field|-I|A: 9
message: From a\nA: 1\n\nx\n\nFrom b\nA: 2\n\ny\nFrom z\n\nFrom c\nA: 3\n\n
output: From a\nA: 9\n\nx\n\nFrom b\nA: 2\n\ny\nFrom z\n\nFrom c\nA: 3\n\n
status: Well

== a message that would be read in another way
words: field|-I|Content-Type:
message: Content-Type: multipart/mixed; boundary=b\n\n--b\n\none\n--b--\n
output: Content-Type: multipart/mixed; boundary=b\n\n--b\n\none\n--b--\n
errors: message 1: Recut\n
status: Refused

== the same, where that is well
words: field|--refused-ok|-I|Content-Type:
message: Content-Type: multipart/mixed; boundary=b\n\n--b\n\none\n--b--\n
output: Content-Type: multipart/mixed; boundary=b\n\n--b\n\none\n--b--\n
errors: message 1: Recut\n
status: Well

== a value of two lines on one, its encoded word as it stands
words: field|--unfold|-x|a:
message: A:  =?utf-8?Q?=C3=A4?=\r\n\tb \r\nB: 2\r\n
output: =?utf-8?Q?=C3=A4?=\tb\n
status: Well

== what is decoded is unfolded too
words: field|--unfold|--decode|-x|a:
message: A: =?utf-8?Q?=C3=A4?=\n =?utf-8?Q?=C3=B6?=\n
output: \xc3\xa4\xc3\xb6\n
status: Well

== an encoded word, decoded
words: field|--decode|-s|-x|a:
message: From a\nA: =?utf-8?Q?=C3=A4?=\n\nFrom b\nA: 2\n
output: \xc3\xa4\n2\n
status: Well

== an encoded word as it stands
words: field|-x|A:
message: A: =?utf-8?Q?=C3=A4?=\n
output: \x20=?utf-8?Q?=C3=A4?=\n
status: Well

== a field that begins with a hyphen
words: field|-A|--b: x
message: A: 1\n
output: A: 1\n--b: x\n
status: Well
";

#[test]
fn messages_are_filtered(rt: HostRuntime) -> Result<(), Fail> {
    check_rows(&rt, ROWS)
}

#[test]
fn lines_of_fields_end_as_asked(rt: HostRuntime) -> Result<(), Fail> {
    let message = b"A: 1\r\n\r\nx\r\n";
    let given = obeyed(&rt, &["field", "-I", "A: a\n b"], message)?;
    assert_eq!(rt; given.output.bytes(), b"A: a\n b\r\n\r\nx\r\n".as_slice());
    let turned = obeyed(&rt, &["field", "--eol", "-I", "A: a\n b"], message)?;
    assert_eq!(rt;
        turned.output.bytes(),
        b"A: a\r\n b\r\n\r\nx\r\n".as_slice()
    );
    Ok(())
}
