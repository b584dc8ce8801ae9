//! `field --prepend`: a text before what fields say. The expected bytes are worked out by hand from RFC 5322 and RFC 2047.

use super::{check_refused, check_rows};
use std::test::Fail;

/// What is put where.
const WELL: &str = r"
== each field of the name, in any spelling
words: field|--prepend|A:[list] |--refused-ok
message: A: Hello\nB: 2\na:x\n\nA: y\n
output: A: [list] Hello\nB: 2\na:[list] x\n\nA: y\n
status: Well

== no field of the name
words: field|--prepend|A:[list] |--refused-ok
message: B: 2\n\ny\n
output: B: 2\n\ny\n
status: Well

== blanks after the colon of the word don't count
words: field|--prepend|A:  [list] |--refused-ok
message: A:  Hello\n\n
output: A:  [list] Hello\n\n
status: Well

== a text without a blank
words: field|--prepend|A:x
message: A: 1\n\n
output: A: x1\n\n
status: Well

== before a word in another charset
words: field|--prepend|A:[list] |--refused-ok
message: A: =?koi8-r?B?8A==?=\r\n =?koi8-r?B?8Q==?= b\r\n\r\n
output: A: [list] =?koi8-r?B?8A==?=\r\n =?koi8-r?B?8Q==?= b\r\n\r\n
status: Well

== a blank before an encoded word
words: field|--prepend|A:[list]
message: A: =?koi8-r?B?8A==?=\n\n
output: A: [list] =?koi8-r?B?8A==?=\n\n
status: Well

== an encoded word before plain text, with the blank that is shown
words: field|--prepend|A:ä |--refused-ok
message: A: Hello\n\n
output: A: =?utf-8?B?w6Q=?= Hello\n\n
status: Well

== an encoded word before an encoded word, with the blank in it
words: field|--prepend|A:ä |--refused-ok
message: A: =?koi8-r?B?8A==?=\n\n
output: A: =?utf-8?B?w6Qg?= =?koi8-r?B?8A==?=\n\n
status: Well

== two blanks after an encoded word
words: field|--prepend|A:ä  |--refused-ok
message: A: Hello\n\n
output: A: =?utf-8?B?w6Q=?=  Hello\n\n
status: Well

== an encoded word can't do without a blank after it
words: field|--prepend|A:ä
message: A: Hello\n\n
output: A: =?utf-8?B?w6Q=?= Hello\n\n
status: Well

== a text that begins like an encoded word
words: field|--prepend|A:=?x |--refused-ok
message: A: Hello\n\n
output: A: =?utf-8?B?PT94?= Hello\n\n
status: Well

== bytes that aren't ASCII stay
words: field|--prepend|A:[list] |--refused-ok
message: A: caf\xe9\n\n
output: A: [list] caf\xe9\n\n
status: Well

== a value that begins on its second line
words: field|--prepend|A:[list] |--refused-ok
message: A:\r\n\tlong\r\n more\r\n\r\n
output: A:\r\n\t[list] long\r\n more\r\n\r\n
status: Well

== a value that says nothing
words: field|--prepend|A:[list] |--refused-ok
message: A:\nA: \t\nA: \n \nB: 1\n
output: A:[list] \nA: \t[list] \nA: [list] \n \nB: 1\n
status: Well

== an open last line
words: field|--prepend|A:x
message: A: 1
output: A: x1
status: Well

== it works before the other letters
words: field|-A|A: 2|--prepend|A:x|-i|A: 3
message: A: 1\n\n
output: Old-A: x1\nOld-A: 2\nA: 3\n\n
status: Well

== a round after another
words: field|--prepend|A:x|--prepend|A:y
message: A: 1\n\n
output: A: yx1\n\n
status: Well

== long texts are several encoded words, with the ending of the message
words: field|--prepend|A:ääääääääääääääääääääääää |--refused-ok
message: A: b\r\n\r\n
output: A: =?utf-8?B?w6TDpMOkw6TDpMOkw6TDpMOkw6TDpMOkw6TDpMOkw6TDpMOkw6TDpMOkw6Q=?=\r\n =?utf-8?B?w6TDpA==?= b\r\n\r\n
status: Well

== fields of a section
words: field|-p|1.1|--prepend|A:x
message: A: 0\nContent-Type: multipart/mixed; boundary=b\n\n--b\nA: 1\n\none\n--b--\n
output: A: 0\nContent-Type: multipart/mixed; boundary=b\n\n--b\nA: x1\n\none\n--b--\n
status: Well

== each message of a mailbox
words: field|-s|--prepend|A:x
message: From a\nA: 1\n\nx\n\nFrom b\nA: 2\n\n
output: From a\nA: x1\n\nx\n\nFrom b\nA: x2\n\n
status: Well

== a message that would be read in another way
words: field|--prepend|Content-Type:x
message: Content-Type: multipart/mixed; boundary=b\n\n--b\n\none\n--b--\n
output: Content-Type: multipart/mixed; boundary=b\n\n--b\n\none\n--b--\n
errors: message 1: Recut\n
status: Refused
";

#[test]
fn a_text_goes_before_what_fields_say(rt: HostRuntime) -> Result<(), Fail> {
    check_rows(&rt, WELL)
}

/// Words that it doesn't take.
const REFUSED: &str = r"
== no word
words: field|--prepend

== no colon
words: field|--prepend|A
begins: error: invalid value 'A' for '--prepend <NAME:TEXT>'

== no text
words: field|--prepend|A:
words: field|--prepend|A: |-A|B: 1
begins: error: invalid value 'A

== no name
words: field|--prepend|:x
words: field|--prepend|A B:x
begins: error: invalid value '

== a text, and values
words: field|--prepend|A:x|-x|A:
";

#[test]
fn words_without_a_text_are_refused(rt: HostRuntime) -> Result<(), Fail> {
    check_refused(&rt, REFUSED)
}
