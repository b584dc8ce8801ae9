//! Words of scripts that stand for several edits, or for what the message decides.

use super::{check_lines, check_rows};
use std::test::Fail;

const ROWS: &str = r#"
== contents go in as their leaves are encoded
message: Content-Type: multipart/mixed; boundary=b\n\n--b\nContent-Type: text/plain; charset=iso-8859-1\nContent-Transfer-Encoding: quoted-printable\n\none\n--b\nContent-Type: image/gif\nContent-Transfer-Encoding: base64\n\nYQ==\n--b--\n
script: content 1.1 1\ncontent 1.2 1\n
piece: a=b\xe9\n
output: Content-Type: multipart/mixed; boundary=b\n\n--b\nContent-Type: text/plain; charset=iso-8859-1\nContent-Transfer-Encoding: quoted-printable\n\na=3Db=E9\n\n--b\nContent-Type: image/gif\nContent-Transfer-Encoding: base64\n\nYT1i6Qo=\n--b--\n
status: Well

== a content that isn't encoded keeps a CR before the line after it
message: Content-Type: multipart/mixed; boundary=b\n\n--b\n\none\n--b--\n
script: content 1.1 1\n
piece: x\r
output: Content-Type: multipart/mixed; boundary=b\n\n--b\n\nx\r\r\n--b--\n
status: Well

== a content may be what a delimiter is where it is encoded, and not where it isn't
message: Content-Type: multipart/mixed; boundary=b\n\n--b\nContent-Transfer-Encoding: quoted-printable\n\none\n--b\n\ntwo\n--b--\n
script: content 1.1 1\ncontent 1.2 1\n
piece: --b
output: Content-Type: multipart/mixed; boundary=b\n\n--b\nContent-Transfer-Encoding: quoted-printable\n\n=2D-b\n--b\n\ntwo\n--b--\n
errors: line 2: HoldsBoundary 1\n
status: Refused

== an encoding that is unknown
message: Content-Transfer-Encoding: x-uuencode\n\nx\n
script: content 1 1\n
piece: y\n
output: Content-Transfer-Encoding: x-uuencode\n\nx\n
errors: line 1: UnknownEncoding\n
status: Refused

== only a leaf gets a content
message: Content-Type: multipart/mixed; boundary=b\n\n--b\n\none\n--b--\n
script: content 1 1\ncontent 1.2 1\n
piece: y\n
output: Content-Type: multipart/mixed; boundary=b\n\n--b\n\none\n--b--\n
errors: line 1: NotLeaf\nline 2: NoSuchSection\n
status: Refused

== a field takes the place of all of its name
message: Subject: a\nTo: x\nsubject: b\nSubject: c\n\nx\n
script: put 1 Subject: z\n
output: Subject: z\nTo: x\n\nx\n
status: Well

== a field of a new name comes last
message: Subject: a\r\n\r\nx\r\n
script: put 1 To: z\n
output: Subject: a\r\nTo: z\r\n\r\nx\r\n
status: Well

== a folded field is a piece
message: A: 1\nB: 2\nA: 3\n\nx\n
script: put-piece 1 1\n
piece: A: b\n c
output: A: b\n c\nB: 2\n\nx\n
status: Well

== what isn't a field isn't put, nor into no section
message: A: 1\n\nx\n
script: put 1 A\nput 1.1 A: 2\nput-piece 1 1\n
piece: A: 1\nB: 2\n
output: A: 1\n\nx\n
errors: line 1: BadField\nline 2: NoSuchSection\nline 3: BadField\n
status: Refused

== all fields of a name go, and none may be there
message: A: 1\nB: 2\na: 3\n 4\n\nx\n
script: drop 1 A\ndrop 1 A\n
output: B: 2\n\nx\n
status: Well

== no field goes from no section
message: A: 1\n\nx\n
script: drop 2 A\n
output: A: 1\n\nx\n
errors: line 1: NoSuchSection\n
status: Refused

== a field that says what the body is doesn't go
message: Content-Type: multipart/mixed; boundary=b\n\n--b\n\none\n--b--\n
script: drop 1 Content-Type\n
output: Content-Type: multipart/mixed; boundary=b\n\n--b\n\none\n--b--\n
errors: line 1: Recut\n
status: Refused

== parts go by their paths before any went
message: Content-Type: multipart/mixed; boundary=b\n\n--b\n\none\n--b\n\ntwo\n--b\n\nthree\n--b--\n
script: remove 1.1 1.3 1.1\n
output: Content-Type: multipart/mixed; boundary=b\n\n--b\n\ntwo\n--b--\n
status: Well

== a part goes with those inside
message: Content-Type: multipart/mixed; boundary=b\n\n--b\nContent-Type: multipart/mixed; boundary=c\n\n--c\n\none\n--c--\n--b\n\ntwo\n--b--\n
script: remove 1.1 1.1.1\n
output: Content-Type: multipart/mixed; boundary=b\n\n--b\n\ntwo\n--b--\n
status: Well

== all parts go, or none
message: Content-Type: multipart/mixed; boundary=b\n\n--b\n\none\n--b\n\ntwo\n--b--\n
script: remove 1.1 1.3\nremove 1 1.1\n
output: Content-Type: multipart/mixed; boundary=b\n\n--b\n\none\n--b\n\ntwo\n--b--\n
errors: line 1: NoSuchSection\nline 2: NotPart\n
status: Refused

== a word is one step, whatever it stands for
message: A: 1\nA: 2\n\nx\n
script: drop 1 A\nundo\nput 1 A: 3\nundo\nredo\nundo\nundo\n
output: A: 1\nA: 2\n\nx\n
errors: line 7: NothingToUndo\n
status: Refused

== a part after the others
message: Content-Type: multipart/mixed; boundary=b\n\n--b\n\none\n--b--\nepilogue\n
script: append 1 1\n
piece: \ntwo\n
output: Content-Type: multipart/mixed; boundary=b\n\n--b\n\none\n--b\n\ntwo\n--b--\nepilogue\n
status: Well

== a part after one that nothing ends, which keeps its content
message: Content-Type: multipart/mixed; boundary=b\n\n--b\n\none\n
script: append 1 1\n
piece: \ntwo
output: Content-Type: multipart/mixed; boundary=b\n\n--b\n\none\n\n--b\n\ntwo
status: Well

== a part of a multipart without any, and of no section
message: Content-Type: multipart/mixed; boundary=b\n\n--b--\n
script: append 1 1\nappend 1.2 1\n
piece: \ntwo\n
output: Content-Type: multipart/mixed; boundary=b\n\n--b\n\ntwo\n--b--\n
errors: line 2: NoSuchSection\n
status: Refused

== a file as quoted-printable
message: Content-Type: multipart/mixed; boundary=b\n\n--b\n\none\n--b--\n
script: attach 1 text/plain notes/n.txt 1\n
piece: a=b\n
output: Content-Type: multipart/mixed; boundary=b\n\n--b\n\none\n--b\nContent-Type: text/plain; name="n.txt"\nContent-Disposition: attachment; filename="n.txt"\nContent-Transfer-Encoding: quoted-printable\n\na=3Db\n\n--b--\n
status: Well

== a file as base64, after a part that nothing ends
message: Content-Type: multipart/mixed; boundary=b\r\n\r\n--b\r\n\r\none
script: attach 1 image/gif n.gif 1\n
piece: hi
output: Content-Type: multipart/mixed; boundary=b\r\n\r\n--b\r\n\r\none\r\n--b\r\nContent-Type: image/gif; name="n.gif"\r\nContent-Disposition: attachment; filename="n.gif"\r\nContent-Transfer-Encoding: base64\r\n\r\naGk=
status: Well

== a file in a multipart without parts, where nothing follows
message: Content-Type: multipart/mixed; boundary=b\n\npreamble\n
script: attach 1 text/plain n.txt 1\n
piece: hi
output: Content-Type: multipart/mixed; boundary=b\n\npreamble\n--b\nContent-Type: text/plain; name="n.txt"\nContent-Disposition: attachment; filename="n.txt"\nContent-Transfer-Encoding: quoted-printable\n\nhi
status: Well

== files that aren't attached
message: Content-Type: multipart/mixed; boundary=b\n\n--b\n\none\n--b--\n
script: attach 1 multipart/mixed n 1\nattach 1 text/plain a"b 1\nattach 1.2 text/plain n 1\n
piece: hi
output: Content-Type: multipart/mixed; boundary=b\n\n--b\n\none\n--b--\n
errors: line 1: BadType\nline 2: BadName\nline 3: NoSuchSection\n
status: Refused

== a file beside a text: both become parts
message: A: 1\nContent-Type: text/plain; charset=utf-8\nB: 2\n\nhello\n
script: attach 1 text/plain n.txt 1\n
piece: hi\n
output: A: 1\nB: 2\nMIME-Version: 1.0\nContent-Type: multipart/mixed; boundary="=_8344553d876f5237a138b961"\n\n--=_8344553d876f5237a138b961\nContent-Type: text/plain; charset=utf-8\n\nhello\n\n--=_8344553d876f5237a138b961\nContent-Type: text/plain; name="n.txt"\nContent-Disposition: attachment; filename="n.txt"\nContent-Transfer-Encoding: quoted-printable\n\nhi\n\n--=_8344553d876f5237a138b961--\n
status: Well

== which one undo takes back
message: A: 1\nContent-Type: text/plain; charset=utf-8\nB: 2\n\nhello\n
script: attach 1 text/plain n.txt 1\nundo\nundo\n
piece: hi\n
output: A: 1\nContent-Type: text/plain; charset=utf-8\nB: 2\n\nhello\n
errors: line 3: NothingToUndo\n
status: Refused

== a second file goes after the first
message: A: 1\nContent-Type: text/plain; charset=utf-8\nB: 2\n\nhello\n
script: attach 1 text/plain n.txt 1\nattach 1 image/gif a.gif 2\n
piece: hi\n
piece: hi
output: A: 1\nB: 2\nMIME-Version: 1.0\nContent-Type: multipart/mixed; boundary="=_8344553d876f5237a138b961"\n\n--=_8344553d876f5237a138b961\nContent-Type: text/plain; charset=utf-8\n\nhello\n\n--=_8344553d876f5237a138b961\nContent-Type: text/plain; name="n.txt"\nContent-Disposition: attachment; filename="n.txt"\nContent-Transfer-Encoding: quoted-printable\n\nhi\n\n--=_8344553d876f5237a138b961\nContent-Type: image/gif; name="a.gif"\nContent-Disposition: attachment; filename="a.gif"\nContent-Transfer-Encoding: base64\n\naGk=\n--=_8344553d876f5237a138b961--\n
status: Well

== beside a text that nothing ends, which keeps its content
message: MIME-Version: 1.0\r\nA: 1\r\n\r\nhello
script: attach 1 image/gif a.gif 1\n
piece: hi
output: MIME-Version: 1.0\r\nA: 1\r\nContent-Type: multipart/mixed; boundary="=_439099c8bd4e3956ef9d018e"\r\n\r\n--=_439099c8bd4e3956ef9d018e\r\n\r\nhello\r\n--=_439099c8bd4e3956ef9d018e\r\nContent-Type: image/gif; name="a.gif"\r\nContent-Disposition: attachment; filename="a.gif"\r\nContent-Transfer-Encoding: base64\r\n\r\naGk=\r\n--=_439099c8bd4e3956ef9d018e--\r\n
status: Well

== beside a part, in its place
message: Content-Type: multipart/alternative; boundary=b\n\n--b\n\none\n--b\n\ntwo\n--b--\n
script: attach 1.1 image/gif a.gif 1\n
piece: hi
output: Content-Type: multipart/alternative; boundary=b\n\n--b\nContent-Type: multipart/mixed; boundary="=_b748e01587a89d56696daeb3"\n\n--=_b748e01587a89d56696daeb3\n\none\n--=_b748e01587a89d56696daeb3\nContent-Type: image/gif; name="a.gif"\nContent-Disposition: attachment; filename="a.gif"\nContent-Transfer-Encoding: base64\n\naGk=\n--=_b748e01587a89d56696daeb3--\n--b\n\ntwo\n--b--\n
status: Well

== beside a message
message: Content-Type: message/rfc822\n\nS: t\n\none\n
script: attach 1 image/gif a.gif 1\n
piece: hi
output: MIME-Version: 1.0\nContent-Type: multipart/mixed; boundary="=_383fc5c7a3ac7deb1162b4dd"\n\n--=_383fc5c7a3ac7deb1162b4dd\nContent-Type: message/rfc822\n\nS: t\n\none\n--=_383fc5c7a3ac7deb1162b4dd\nContent-Type: image/gif; name="a.gif"\nContent-Disposition: attachment; filename="a.gif"\nContent-Transfer-Encoding: base64\n\naGk=\n--=_383fc5c7a3ac7deb1162b4dd--\n
status: Well

== an entity beside a text
message: A: 1\n\nhello\n
script: append 1 1\n
piece: \ntwo\n
output: A: 1\nMIME-Version: 1.0\nContent-Type: multipart/mixed; boundary="=_69e02ae8ae8a1f9f20469331"\n\n--=_69e02ae8ae8a1f9f20469331\n\nhello\n\n--=_69e02ae8ae8a1f9f20469331\n\ntwo\n--=_69e02ae8ae8a1f9f20469331--\n
status: Well

== an entity without an ending has no place before the close line
message: A: 1\n\nhello\n
script: append 1 1\n
piece: \ntwo
output: A: 1\n\nhello\n
errors: line 1: OpenLine\n
status: Refused

== a name with spaces
message: Content-Type: multipart/mixed; boundary=b\n\n--b\n\none\n--b--\n
script: attach 1 application/pdf my files/a b  c.pdf 1\n
piece: hi
output: Content-Type: multipart/mixed; boundary=b\n\n--b\n\none\n--b\nContent-Type: application/pdf; name="a b  c.pdf"\nContent-Disposition: attachment; filename="a b  c.pdf"\nContent-Transfer-Encoding: base64\n\naGk=\n--b--\n
status: Well

== a name in UTF-8 is written a second time as it is
message: Content-Type: multipart/mixed; boundary=b\n\n--b\n\none\n--b--\n
script: attach 1 application/pdf Jahr für 1.pdf 1\n
piece: hi
output: Content-Type: multipart/mixed; boundary=b\n\n--b\n\none\n--b\nContent-Type: application/pdf; name="Jahr f__r 1.pdf"\nContent-Disposition: attachment; filename="Jahr f__r 1.pdf"; filename*=utf-8''Jahr%20f%C3%BCr%201.pdf\nContent-Transfer-Encoding: base64\n\naGk=\n--b--\n
status: Well

== a group of such words is made in turn, and is one step
message: Content-Type: multipart/mixed; boundary=b\nA: 1\nA: 2\n\n--b\n\none\n--b--\n
script: begin\nput 1 A: 3\nappend 1 1\ncontent 1.2 2\nremove 1.1\nend\nundo\nredo\nundo\nundo\n
piece: \ntwo\n
piece: three
output: Content-Type: multipart/mixed; boundary=b\nA: 1\nA: 2\n\n--b\n\none\n--b--\n
errors: line 10: NothingToUndo\n
status: Refused

== what a group of such words makes
message: Content-Type: multipart/mixed; boundary=b\nA: 1\nA: 2\n\n--b\n\none\n--b--\n
script: begin\nput 1 A: 3\nappend 1 1\ncontent 1.2 2\nremove 1.1\nend\n
piece: \ntwo\n
piece: three
output: Content-Type: multipart/mixed; boundary=b\nA: 3\n\n--b\n\nthree\n--b--\n
status: Well

== a refused word of a group undoes the others
message: A: 1\nA: 2\n\nx\n
script: begin\ndrop 1 A\nadd 1 B: 3\n\nappend 1.2 1\nend\nadd 1 C: 4\n
piece: y\n
output: A: 1\nA: 2\nC: 4\n\nx\n
errors: line 5: NoSuchSection\n
status: Refused

== a word of a group that stands for no edits undoes the others
message: Content-Transfer-Encoding: x-uuencode\nA: 1\n\nx\n
script: begin\ndrop 1 A\ncontent 1 1\nend\n
piece: y\n
output: Content-Transfer-Encoding: x-uuencode\nA: 1\n\nx\n
errors: line 3: UnknownEncoding\n
status: Refused
"#;

#[test]
fn words_for_several_edits_are_made(rt: HostRuntime) -> Result<(), Fail> {
    check_rows(&rt, rt.alloc(), ROWS)
}

/// Lines where there are two pieces.
const LINES: &str = r"
== a path and a piece
step: content 1 1
step: put-piece 1.2 2
step: append 1 2

== a field is all that follows
step: put 1 A: b c
step: put 1\x20

== a name of fields
step: drop 1 Subject
step: drop 1.2 a_b

== one path or several
step: remove 1.1 1.3
step: remove 1.2 1.2 1.10

== a path, a type, a name and a piece
step: attach 1 text/plain n.txt 1
step: attach 1.1 x a/b\\c 2
step: attach 1 text/plain a b  c.txt 1
step: attach 1 text/plain 1 2 2

== something is missing
fault: content 1
fault: put 1
fault: put-piece 1
fault: drop 1
fault: drop 1\x20
fault: append 1
fault: attach 1 text/plain n.txt
fault: attach 1 text/plain 1

== there is no such piece
fault: content 1 0
fault: put-piece 1 3
fault: append 1 3
fault: attach 1 text/plain n.txt 3

== a space too many
fault: content 1  1
fault: drop 1 A B
fault: drop 1 A\x20
fault: remove 1.1  1.2
fault: remove 1.1 1.2\x20
fault: attach 1 text/plain  a 1
fault: attach 1 text/plain a  1
fault: attach 1  text/plain a 1
fault: attach 1 text/plain a 1\x20

== paths that aren't plain ones
fault: remove 1.1 x
fault: remove 1.1 01
fault: drop x A
fault: append 1. 1
";

#[test]
fn lines_of_such_words_are_words_or_not(rt: HostRuntime) -> Result<(), Fail> {
    check_lines(&rt, rt.alloc(), LINES, 2)
}
