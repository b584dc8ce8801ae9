//! Each way in which a command line is invalid: the word is named, and what is wrong with it.

use super::{check_refused, obeyed, prints};
use mk_run::Status;
use std::test::Fail;

/// Command lines with an invalid value, and how what is said of it begins.
const VALUES: &str = r"
== -s <PATH> doesn't take ''
words: extract|-s|
begins: error: invalid value '' for '-s <PATH>': write numbers from 1 with dots between them, such as 1.2\n\nUsage: mimetool extract\x20

== -s <PATH> doesn't take '1.01'
words: extract|-s|1.01
begins: error: invalid value '1.01' for '-s <PATH>': write numbers from 1 with dots between them, such as 1.2\n\nUsage: mimetool extract\x20

== -s <PATH> doesn't take '0'
words: extract|-s|0
begins: error: invalid value '0' for '-s <PATH>': write numbers from 1 with dots between them, such as 1.2\n\nUsage: mimetool extract\x20

== -s <PATH> doesn't take '1.'
words: extract|-s|1.
begins: error: invalid value '1.' for '-s <PATH>': write numbers from 1 with dots between them, such as 1.2\n\nUsage: mimetool extract\x20

== -s <PATH> doesn't take '-1'
words: extract|-s|-1
begins: error: invalid value '-1' for '-s <PATH>': write numbers from 1 with dots between them, such as 1.2\n\nUsage: mimetool extract\x20

== -s <PATH> doesn't take '1.4294967296'
words: extract|-s|1.4294967296
begins: error: invalid value '1.4294967296' for '-s <PATH>': write numbers from 1 with dots between them, such as 1.2\n\nUsage: mimetool extract\x20

== -s <PATH> of unpack doesn't take '0'
words: unpack|-s|1|-s|0|-s|x
begins: error: invalid value '0' for '-s <PATH>': write numbers from 1 with dots between them, such as 1.2\n\nUsage: mimetool unpack\x20

== -p <PATH> doesn't take '1.0'
words: field|-p|1.0|-x|A:
begins: error: invalid value '1.0' for '-p <PATH>': write numbers from 1 with dots between them, such as 1.2\n\nUsage: mimetool field\x20

== -p <PATH> doesn't take '-1'
words: field|-p|-1|-A|A: 9
begins: error: invalid value '-1' for '-p <PATH>': write numbers from 1 with dots between them, such as 1.2\n\nUsage: mimetool field\x20

== <SPEC>... doesn't take an empty word
words: pack|-b|b|
words: pack|-b|b|text/plain:n|
begins: error: invalid value '' for '<SPEC>...': write FILE or TYPE:FILE, such as image/gif:dot.gif\n\nUsage: mimetool pack\x20

== --part <SPEC> doesn't take an empty word
words: pack|--part|
begins: error: invalid value '' for '--part <SPEC>': write FILE or TYPE:FILE, such as image/gif:dot.gif\n\nUsage: mimetool pack\x20

== -u <NAME:> doesn't take 'A'
words: field|-u|A
begins: error: invalid value 'A' for '-u <NAME:>': write a name and a colon, such as Subject:\n\nUsage: mimetool field\x20

== -u <NAME:> doesn't take 'A: b'
words: field|-u|A: b
begins: error: invalid value 'A: b' for '-u <NAME:>': write a name and a colon, such as Subject:\n\nUsage: mimetool field\x20

== -U <NAME:> doesn't take 'A'
words: field|-U|A
begins: error: invalid value 'A' for '-U <NAME:>': write a name and a colon, such as Subject:\n\nUsage: mimetool field\x20

== -x <NAME:> doesn't take 'A'
words: field|-x|A
begins: error: invalid value 'A' for '-x <NAME:>': write a name and a colon, such as Subject:\n\nUsage: mimetool field\x20

== -X <NAME:> doesn't take 'A'
words: field|-X|A
begins: error: invalid value 'A' for '-X <NAME:>': write a name and a colon, such as Subject:\n\nUsage: mimetool field\x20

== -X <NAME:> doesn't take ':'
words: field|-X|:
begins: error: invalid value ':' for '-X <NAME:>': write a name and a colon, such as Subject:\n\nUsage: mimetool field\x20

== --rename <OLD:NEW> doesn't take 'AB'
words: field|--rename|AB
begins: error: invalid value 'AB' for '--rename <OLD:NEW>': write two names with a colon between them, such as Subject:X-Subject\n\nUsage: mimetool field\x20

== --rename <OLD:NEW> doesn't take 'A:B C'
words: field|--rename|A:B C
begins: error: invalid value 'A:B C' for '--rename <OLD:NEW>': write two names with a colon between them, such as Subject:X-Subject\n\nUsage: mimetool field\x20

== -a <FIELD> doesn't take 'x'
words: field|-a|x
begins: error: invalid value 'x' for '-a <FIELD>': write a name, a colon and a value, such as 'X-Seen: yes'\n\nUsage: mimetool field\x20

== -a <FIELD> doesn't take 'A:'
words: field|-a|A:
begins: error: invalid value 'A:' for '-a <FIELD>': write a name, a colon and a value, such as 'X-Seen: yes'\n\nUsage: mimetool field\x20

== -A <FIELD> doesn't take 'A:'
words: field|-A|A:
begins: error: invalid value 'A:' for '-A <FIELD>': write a name, a colon and a value, such as 'X-Seen: yes'\n\nUsage: mimetool field\x20

== -i <FIELD> doesn't take 'x'
words: field|-i|x
begins: error: invalid value 'x' for '-i <FIELD>': write a name, a colon and a value, such as 'X-Seen: yes', or a name and a colon alone, such as X-Seen:\n\nUsage: mimetool field\x20

== -I <FIELD> doesn't take ''
words: field|-I|
begins: error: invalid value '' for '-I <FIELD>': write a name, a colon and a value, such as 'X-Seen: yes', or a name and a colon alone, such as X-Seen:\n\nUsage: mimetool field\x20

== -I <FIELD> doesn't take 'x y'
words: field|-A|A: 1|-I|x y
begins: error: invalid value 'x y' for '-I <FIELD>': write a name, a colon and a value, such as 'X-Seen: yes', or a name and a colon alone, such as X-Seen:\n\nUsage: mimetool field\x20

== -I <FIELD> doesn't take 'x'
words: field|-x|A:|-I|x
begins: error: invalid value 'x' for '-I <FIELD>': write a name, a colon and a value, such as 'X-Seen: yes', or a name and a colon alone, such as X-Seen:\n\nUsage: mimetool field\x20
";

#[test]
fn invalid_values_are_named(rt: HostRuntime) -> Result<(), Fail> {
    check_refused(&rt, VALUES)
}

/// Command lines with another fault, and the first line of what is said of it.
const SENTENCES: &str = r"
== -x and -X
words: field|-x|A:|-X|A:
begins: error: -x and -X print fields, so neither goes with another letter\n

== -x and a letter that edits
words: field|-x|A:|-I|A: 9
begins: error: -x and -X print fields, so neither goes with another letter\n

== --decode without -x
words: field|--decode|-X|A:
begins: error: --decode is for the values that -x prints\n

== --unfold without -x
words: field|--unfold|-u|A:
begins: error: --unfold is for the values that -x prints\n

== --addresses without -x
words: field|--addresses|-X|A:
begins: error: --addresses is for the values that -x prints\n

== --addresses beside --decode
words: field|--addresses|--decode|-x|A:
begins: error: the argument '--addresses' cannot be used with '--decode'\n

== -x again beside a letter that edits
words: field|-x|A:|-x|B:|-u|A:
begins: error: -x and -X print fields, so neither goes with another letter\n

== --encode without a letter that takes a field
words: field|--encode|-u|A:
begins: error: --encode is for the fields of -a, -A, -i and -I\n

== --eol without a letter that takes a field
words: field|--eol|-u|A:
begins: error: --eol is for the fields of -a, -A, -i and -I\n

== --encode beside -x
words: field|--encode|--decode|-x|A:
begins: error: --encode is for the fields of -a, -A, -i and -I\n

== a letter without its value
words: field|-a
begins: error: a value is required for '-a <FIELD>' but none was supplied\n

== --wait with no number
words: field|-A|A: b|--wait=x
words: edit|-e|undo|--wait=-1
words: undo|-j|j|--wait=4294967296
words: redo|-j|j|--wait=
words: field|--wait=+1
words: field|--wait=1.5
begins: error: invalid value '

== a path twice
words: field|-p|1|-p|1
begins: error: the argument '-p <PATH>' cannot be used multiple times\n

== a letter that there isn't
words: field|-r
begins: error: unexpected argument '-r' found\n

== a long letter in another case
words: field|--Rename|A:B
begins: error: unexpected argument '--Rename' found\n

== a field without a letter
words: field|A: 1
begins: error: unexpected argument 'A: 1' found\n

== no such subcommand
words: list
begins: error: unrecognized subcommand 'list'\n

== no path
words: extract
begins: error: the following required arguments were not provided:\n  -s <PATH>\n

== no script
words: edit
begins: error: give a SCRIPT, or its lines, each with -e\n

== no journal
words: undo
begins: error: the following required arguments were not provided:\n  -j <JOURNAL>\n

== an option without its value
words: sections|--from
begins: error: a value is required for '--from <FILE>' but none was supplied\n

== two places of the message
words: edit|-e|undo|--in-place|a|--from|b
begins: error: the argument '--in-place <FILE>' cannot be used with '--from <FILE>'\n

== -x in place
words: field|-x|A:|--in-place|a
begins: error: the argument '-x <NAME:>' cannot be used with '--in-place <FILE>'\n

== -X in place
words: field|--in-place|a|-X|A:
begins: error: the argument '--in-place <FILE>' cannot be used with '-X <NAME:>'\n

== a content as it stands, and fields
words: extract|-s|1|--raw|--head
begins: error: the argument '--raw' cannot be used with '--head'\n

== fields, and what decodes
words: extract|--prefix|-s|1|--head
begins: error: the argument '--prefix' cannot be used with '--head'\n

== what decodes, and a content as it stands
words: extract|--raw|--prefix|-s|1
begins: error: the argument '--raw' cannot be used with '--prefix'\n

== no names, and paths beside them
words: unpack|--silent|--paths
begins: error: the argument '--silent' cannot be used with '--paths'\n

== files that are replaced, and numbers that go on
words: unpack|--number|-f
begins: error: the argument '--number' cannot be used with '-f'\n

== a part alone, and a boundary
words: pack|--part|text/plain:n|-b|b
begins: error: the argument '--part <SPEC>' cannot be used with '-b <BOUNDARY>'\n

== a part alone, and a message
words: pack|--forward|n|--part|text/plain:n
begins: error: the argument '--forward <FILE>' cannot be used with '--part <SPEC>'\n

== a part alone, and more parts
words: pack|--part|text/plain:n|text/plain:n
begins: error: the argument '--part <SPEC>' cannot be used with '[SPEC]...'\n

== names in UTF-8 in the plain listing
words: sections|--utf8
begins: error: --utf8 goes only with --json: the plain listing has no names\n

== a listing in place
words: sections|--in-place|a
begins: error: unexpected argument '--in-place' found\n
";

#[test]
fn other_faults_are_named(rt: HostRuntime) -> Result<(), Fail> {
    check_refused(&rt, SENTENCES)
}

/// Command lines that name a file that isn't there, and what is said of their words before that.
const BESIDE_FILES: &str = r"
== names in UTF-8 in the plain listing
words: sections|--utf8|--from|mimetool_none
begins: error: --utf8 goes only with --json:\x20

== no path
words: extract|-s|.1|--from|mimetool_none
begins: error: invalid value '.1' for '-s <PATH>':\x20

== no field
words: field|-a|x|--from|mimetool_none
begins: error: invalid value 'x' for '-a <FIELD>':\x20

== no field, and a file to replace
words: field|-I|x|--in-place|mimetool_none
begins: error: invalid value 'x' for '-I <FIELD>':\x20

== -x and -X
words: field|-x|A:|-X|A:|--from|mimetool_none
begins: error: -x and -X print fields,\x20

== no script
words: edit|--from|mimetool_none
begins: error: give a SCRIPT,\x20

== no script, and a file to replace
words: edit|--in-place|mimetool_none
begins: error: give a SCRIPT,\x20

== no path to unpack
words: unpack|-s|.1|--from|mimetool_none
begins: error: invalid value '.1' for '-s <PATH>':\x20

== no part
words: pack|-b|b|text/plain:mimetool_none|
begins: error: invalid value '' for '<SPEC>...':\x20
";

#[test]
fn words_are_looked_at_before_files(rt: HostRuntime) -> Result<(), Fail> {
    check_refused(&rt, BESIDE_FILES)
}

/// Values of `-e` that aren't one line, and how they are named.
const LINES: [(&[&str], &[u8]); 3] = [
    (
        &["edit", "-e", "add 1 A: b\nundo"],
        b"error: invalid value \"add 1 A: b\\nundo\" for '-e <LINE>': write one line, and use -e again for each further line\n",
    ),
    (
        &["edit", "-e", "undo", "-e", "undo\n"],
        b"error: invalid value \"undo\\n\" for '-e <LINE>': write one line, and use -e again for each further line\n",
    ),
    (
        &["edit", "-e", "\n", "--from", "mimetool_none"],
        b"error: invalid value \"\\n\" for '-e <LINE>': write one line, and use -e again for each further line\n",
    ),
];

#[test]
fn a_line_of_a_script_is_one_line(rt: HostRuntime) -> Result<(), Fail> {
    for (words, begins) in LINES {
        let found = obeyed(&rt, words, b"A: b\n\nx\n")?;
        assert_eq!(rt; found.status, Status::Usage, "{words:?}");
        assert!(rt; found.errors.bytes().starts_with(begins), "{words:?}");
    }
    prints(
        &rt,
        &["edit", "-e", "add 1 C: d\re"],
        b"A: b\n\nx\n",
        b"A: b\nC: d\re\n\nx\n",
    )?;
    Ok(())
}

/// Words that a command doesn't take, and the tip that says what to write instead.
const TIPS: &str = r"
== a file
words: sections|message
begins: error: unexpected argument 'message' found\n\n  tip: to read the message from a file, write '--from message'\n\nUsage: mimetool sections [OPTIONS] [FILE]...\n

== a file, where a path is wanted too
words: extract|message|-s|1
begins: error: unexpected argument 'message' found\n\n  tip: to read the message from a file, write '--from message'\n

== a file for unpack
words: unpack|a b
begins: error: unexpected argument 'a b' found\n\n  tip: to read the message from a file, write '--from a b'\n

== a mailbox
words: messages|box
begins: error: unexpected argument 'box' found\n\n  tip: to read the message from a file, write '--from box'\n

== a file for undo
words: undo|message|-j|j
begins: error: unexpected argument 'message' found\n\n  tip: to read the message from a file, write '--from message'; to edit the file itself, '--in-place message'\n

== a file for field
words: field|message
begins: error: unexpected argument 'message' found\n\n  tip: to read the message from a file, write '--from message'; to edit the file itself, '--in-place message'\n

== a field without a letter
words: field|A: 1
begins: error: unexpected argument 'A: 1' found\n\n  tip: to add a field, write a letter before it, such as -A\n

== seconds without an equals sign
words: field|--wait|5
words: undo|-j|j|--wait|5
begins: error: unexpected argument '5' found\n\n  tip: to wait that many seconds, write '--wait=5'\n

== -R
words: field|-R|A|B
begins: error: unexpected argument '-R' found\n\n  tip: to rename fields, write '--rename OLD:NEW'\n

== -c
words: field|-c|-x|A:
words: field|-x|A:|-c
begins: error: unexpected argument '-c' found\n\n  tip: to print each value on one line, write '--unfold' with -x\n

== -z
words: field|-z
begins: error: unexpected argument '-z' found\n\n  tip: '--unfold' with -x prints values without the blanks at both ends; no option removes empty fields\n

== -k
words: field|-k|-X|A:
begins: error: unexpected argument '-k' found\n\n  tip: the body is always kept; to print it alone, write 'mimetool extract -s 1'\n

== -r
words: field|-r
words: field|-rk
begins: error: unexpected argument '-r' found\n\n  tip: to print the header of an answer, write 'mimetool reply'\n
";

#[test]
fn what_to_write_instead_is_said(rt: HostRuntime) -> Result<(), Fail> {
    check_refused(&rt, TIPS)
}
