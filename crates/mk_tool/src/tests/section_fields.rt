//! `field -p`: the fields of a section.

use super::check_rows;
use std::test::Fail;

const ROWS: &str = r"
== a field of a part
words: field|-p|1.1|-I|A: 9
message: A: 0\nContent-Type: multipart/mixed; boundary=b\n\n--b\nA: 1\n\none\n--b--\n
output: A: 0\nContent-Type: multipart/mixed; boundary=b\n\n--b\nA: 9\n\none\n--b--\n
status: Well

== rounds, in a part
words: field|-A|A: 9|-A|B: 8|-p|1.1
message: Content-Type: multipart/mixed; boundary=b\n\n--b\n\none\n--b--\n
output: Content-Type: multipart/mixed; boundary=b\n\n--b\nA: 9\nB: 8\n\none\n--b--\n
status: Well

== a value of a part on one line
words: field|-p|1.1|--unfold|-x|A:
message: A: 0\nContent-Type: multipart/mixed; boundary=b\n\n--b\nA: 1\n 2\n\none\n--b--\n
output: 1 2\n
status: Well

== the message itself
words: field|-p|1|-x|A:
message: A: 0\n\n
output: \x200\n
status: Well

== no such section
words: field|-p|1.1|-I|A: 9
message: A: 0\n\n
output: A: 0\n\n
errors: message 1: NoSuchSection\n
status: Refused

== no such section, where that is well
words: field|--refused-ok|-p|1.1|-x|A:
message: A: 0\n\n
output:
errors: message 1: NoSuchSection\n
status: Well

== each message of a mailbox
words: field|-s|-p|1.1|-I|A:
message: From a\nContent-Type: message/rfc822\n\nA: 1\nFrom x\n\nFrom b\nContent-Type: message/rfc822\n\nA: 2\n\n
output: From a\nContent-Type: message/rfc822\n\nA: 1\nFrom x\n\nFrom b\nContent-Type: message/rfc822\n\n\n
errors: message 1: Recut\n
status: Refused
";

#[test]
fn sections_are_filtered(rt: HostRuntime) -> Result<(), Fail> {
    check_rows(&rt, ROWS)
}
