//! Commands that need no file: what each prints, and each wrong word.

use super::{check_refused, check_rows, obeyed, words_in};
use mk_rows::rows;
use mk_run::Status;
use std::process::Abort;
use std::test::Fail;

const ROWS: &str = r#"
== the sections
words: sections
message: Subject: t\nContent-Type: multipart/mixed; boundary="b"\n\npre\n--b\n\none\n--b \t\nContent-Type: text/html\n\ntwo\n--b--\nepi\n
output: 1 multi multipart/mixed identity 0 56 114 2 10\n1.1 leaf text/plain identity 64 65 69 0 1\n1.2 leaf text/html identity 75 100 104 1 1\n
status: Well

== the sections as JSON
words: sections|--json
message: Subject: t\nContent-Type: multipart/mixed; boundary="b"\n\npre\n--b\n\none\n--b \t\nContent-Type: text/html\n\ntwo\n--b--\nepi\n
output: {"path":"1","kind":"multi","type":"multipart/mixed","encoding":"identity","start":0,"body":56,"end":114,"field_lines":2,"body_lines":10,"boundary":"b"}\n{"path":"1.1","kind":"leaf","type":"text/plain","encoding":"identity","start":64,"body":65,"end":69,"field_lines":0,"body_lines":1,"stored_as":"part-1.1","size":3}\n{"path":"1.2","kind":"leaf","type":"text/html","encoding":"identity","start":75,"body":100,"end":104,"field_lines":1,"body_lines":1,"stored_as":"part-1.2","size":3}\n
status: Well

== names and charsets as JSON
words: sections|--json
message: Content-Type: multipart/mixed; boundary=b\n\n--b\nContent-Type: text/plain; charset="utf-8"; name="a\\"b"\n\none\n--b\nContent-Disposition: attachment; filename="n\xe9.txt"\nContent-Type: text/plain; name=other\n\ntwo\n--b\n\n--b--\n
output: {"path":"1","kind":"multi","type":"multipart/mixed","encoding":"identity","start":0,"body":43,"end":215,"field_lines":1,"body_lines":12,"boundary":"b"}\n{"path":"1.1","kind":"leaf","type":"text/plain","encoding":"identity","start":47,"body":103,"end":107,"field_lines":1,"body_lines":1,"charset":"utf-8","filename":"a\\"b","raw_filename":"a\\"b","stored_as":"a_b","size":3}\n{"path":"1.2","kind":"leaf","type":"text/plain","encoding":"identity","start":111,"body":200,"end":204,"field_lines":2,"body_lines":1,"disposition":"attachment","filename":"other","raw_filename":"n\xef\xbf\xbd.txt","stored_as":"n_.txt","size":3,"disposition_parameters":{"filename":"n\xef\xbf\xbd.txt"}}\n{"path":"1.3","kind":"leaf","type":"text/plain","encoding":"identity","start":208,"body":209,"end":209,"field_lines":0,"body_lines":0,"stored_as":"part-1.3","size":0}\n
status: Well

== a name with a charset as JSON
words: sections|--json
message: Content-Disposition: inline; filename*=iso-8859-1''caf%E9%20.txt\n\nx\n
output: {"path":"1","kind":"leaf","type":"text/plain","encoding":"identity","start":0,"body":66,"end":68,"field_lines":1,"body_lines":1,"disposition":"inline","filename":"caf\xc3\xa9 .txt","stored_as":"part-1","size":2,"disposition_parameters":{"filename":"caf\xc3\xa9 .txt"}}\n
status: Well

== dispositions, and sizes where contents are decoded, as JSON
words: sections|--json
message: Content-Type: multipart/mixed; boundary=b\n\n--b\nContent-Disposition: (a;) INline (b) ; x=y\nContent-Transfer-Encoding: base64\n\naGk=\n--b\nContent-Disposition: "inline"\nContent-Transfer-Encoding: base64\n\na\n--b--\n
output: {"path":"1","kind":"multi","type":"multipart/mixed","encoding":"identity","start":0,"body":43,"end":207,"field_lines":1,"body_lines":11,"boundary":"b"}\n{"path":"1.1","kind":"leaf","type":"text/plain","encoding":"base64","start":47,"body":125,"end":130,"field_lines":2,"body_lines":1,"disposition":"inline","stored_as":"part-1.1","size":2,"disposition_parameters":{"x":"y"}}\n{"path":"1.2","kind":"leaf","type":"text/plain","encoding":"base64","start":134,"body":199,"end":201,"field_lines":2,"body_lines":1,"stored_as":"part-1.2"}\n
status: Well

== a Content-ID and parameters in segments as JSON
words: sections|--json
message: Content-ID: (a) <b@c>\nContent-Disposition: inline; size=2; x*0="a "; X*1*=%62\n\nx\n
output: {"path":"1","kind":"leaf","type":"text/plain","encoding":"identity","start":0,"body":79,"end":81,"field_lines":2,"body_lines":1,"disposition":"inline","stored_as":"part-1","size":2,"content_id":"b@c","disposition_parameters":{"size":"2","x":"a b"}}\n
status: Well

== the name that it gets in UTF-8
words: sections|--utf8|--json
message: Content-Disposition: inline; filename*=iso-8859-1''caf%E9%20.txt\n\nx\n
output: {"path":"1","kind":"leaf","type":"text/plain","encoding":"identity","start":0,"body":66,"end":68,"field_lines":1,"body_lines":1,"disposition":"inline","filename":"caf\xc3\xa9 .txt","stored_as":"caf\xc3\xa9_.txt","size":2,"disposition_parameters":{"filename":"caf\xc3\xa9 .txt"}}\n
status: Well

== edits one by one
words: edit|-e|add 1 A: 1|-e|del 1 Z 1
message: B: 2\n\nx\n
output: B: 2\nA: 1\n\nx\n
errors: line 2: NoSuchField\n
status: Refused

== all edits or none
words: edit|--all|-e|add 1 A: 1|-e|del 1 Z 1
message: B: 2\n\nx\n
output: B: 2\n\nx\n
errors: line 2: NoSuchField\n
status: Refused

== all edits
words: edit|-e|add 1 A: 1|-e|del 1 B 1|--all
message: B: 2\n\nx\n
output: A: 1\n\nx\n
status: Well

== a line that is no edit
words: edit|--all|-e|add 1 A: 1|-e|undo
message: B: 2\n\nx\n
errors: script: line 2: with --all, each line has to be an edit\nscript: line 2: syntax\n
status: Usage

== pieces with line feeds in a message with CR LF
words: edit|-e|put 1 B: 2|--eol
message: A: 1\r\n\r\nx
output: A: 1\r\nB: 2\r\n\r\nx
status: Well

== the first part
words: extract|-s|1.1
message: Subject: t\nContent-Type: multipart/mixed; boundary="b"\n\npre\n--b\n\none\n--b \t\nContent-Type: text/html\n\ntwo\n--b--\nepi\n
output: one
status: Well

== the second part
words: extract|-s|1.2
message: Subject: t\nContent-Type: multipart/mixed; boundary="b"\n\npre\n--b\n\none\n--b \t\nContent-Type: text/html\n\ntwo\n--b--\nepi\n
output: two
status: Well

== no such section
words: extract|-s|1.9
message: Subject: t\nContent-Type: multipart/mixed; boundary="b"\n\npre\n--b\n\none\n--b \t\nContent-Type: text/html\n\ntwo\n--b--\nepi\n
errors: 1.9: NoSuchSection\n
status: Refused

== a content that isn't what its encoding says
words: extract|-s|1
message: Content-Transfer-Encoding: base64\n\naGl=\n
errors: 1: BadBase64\n
status: Refused

== an encoding that isn't known
words: extract|-s|1
message: Content-Transfer-Encoding: x-uuencode\n\nx\n
errors: 1: UnknownEncoding\n
status: Refused

== a content as it stands
words: extract|-s|1|--raw
message: Content-Transfer-Encoding: base64\n\naGl=\n
output: aGl=\n
status: Well

== the fields of a section
words: extract|--head|-s|1
message: From a\nA: b\r\n c\r\n\r\nx\n
output: A: b\r\n c\r\n
status: Well

== what decodes of base64 that was cut off
words: extract|-s|1|--prefix
message: Content-Transfer-Encoding: base64\n\naGkAaG\n
output: hi\x00
errors: 1: BadBase64\n
status: Refused

== the version
words: --version
message:
output: mimetool 0.1.0\n
status: Well
"#;

#[test]
fn commands_print_what_they_should(rt: HostRuntime) -> Result<(), Fail> {
    check_rows(&rt, ROWS)
}

/// Words that the command line doesn't have, and words that are missing.
const REFUSED: &str = r"
== no words at all

== no such subcommand
words: list
words: -x

== words that a subcommand doesn't have
words: sections|1
words: sections|-s
words: redo|-j|journal|script
words: unpack|n

== no path
words: extract
words: extract|1
words: extract|-s

== no script, or no journal
words: edit
words: edit|-j
words: edit|-j|journal
words: undo
words: undo|-j
words: redo

== no folder
words: unpack|-C

== no part, or no word after an option
words: pack
words: pack|-b|b
words: pack|-b
words: pack|-m
words: pack|--charset
words: pack|-m|related|--part|text/plain:n
words: pack|--forward
words: pack|--part
words: pack|--part|text/plain:n|--part|text/plain:n
";

#[test]
fn other_words_are_refused(rt: HostRuntime) -> Result<(), Fail> {
    check_refused(&rt, REFUSED)
}

/// Where help is asked for.
const HELPS: &str = r"
== of the program
words: --help
words: -h

== of a subcommand
words: edit|--help
words: undo|--help
words: redo|--help
words: sections|--help
words: extract|--help
words: unpack|--help
words: pack|--help
words: field|--help
words: messages|--help
";

#[test]
fn help_goes_to_the_output(rt: HostRuntime) -> Result<(), Fail> {
    for row in &rows(rt.alloc(), HELPS)? {
        for cell in &row.cells {
            let words = cell.text;
            let found = obeyed(&rt, &words_in(rt.alloc(), words)?, b"")?;
            assert_eq!(rt; found.status, Status::Well, "{words}");
            assert!(rt; !found.output.bytes().is_empty(), "{words}");
            assert!(rt; found.errors.bytes().is_empty(), "{words}");
        }
    }
    Ok(())
}
