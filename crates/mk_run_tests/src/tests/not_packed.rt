//! Fields and files that aren't packed, and the reasons.

use super::packed::check_rows;
use std::test::Fail;

const REFUSED: &str = r#"
== a body after the fields
fields: Subject: s\n\nx\n
boundary: b
file: text/plain:d/n.txt
holds: hi\n
errors: pack: BadField 1\n
status: Refused

== a body after an open field
fields: Subject: s\nx
boundary: b
file: text/plain:d/n.txt
holds: hi\n
errors: pack: BadField 1\n
status: Refused

== a field after the empty line is a body
fields: Subject: s\n\nA: b\n
boundary: b
file: text/plain:d/n.txt
holds: hi\n
errors: pack: BadField 1\n
status: Refused

== a second empty line is a body
fields: A: b\nC: d\n\n\n
boundary: b
file: text/plain:d/n.txt
holds: hi\n
errors: pack: BadField 2\n
status: Refused

== an empty line and another one
fields: \n\n
boundary: b
file: text/plain:d/n.txt
holds: hi\n
errors: pack: BadField 0\n
status: Refused

== a text that begins with a space is a body
fields: \x20x\n
boundary: b
file: text/plain:d/n.txt
holds: hi\n
errors: pack: BadField 0\n
status: Refused

== an envelope isn't one of the fields
fields: From a\nSubject: s\n
boundary: b
file: text/plain:d/n.txt
holds: hi\n
errors: pack: BadField 0\n
status: Refused

== a field of the version is made, not given
fields: MIME-Version: 1.0\n
boundary: b
file: text/plain:f
holds: hi\n
errors: pack: BadField 0\n
status: Refused

== a field whose name begins with content- is made, whatever its letters
fields: A: b\nC: d\ncONTENT-x : y\n
boundary: b
file: text/plain:f
holds: hi\n
errors: pack: BadField 2\n
status: Refused

== content- alone is such a name, and comes before a body
fields: A: b\nContent-: c\n\nx\n
boundary: b
file: text/plain:f
holds: hi\n
errors: pack: BadField 1\n
status: Refused

== a body comes before the type of a part
fields: \nx
boundary: b
file: x:f
holds:
errors: pack: BadField 0\n
status: Refused

== a multipart isn't the type of a file
fields:
boundary: b
file: multipart/mixed:f
holds:
errors: pack: BadType 0\n
status: Refused

== the type of the last of three files
fields:
boundary: b
file: text/plain:f
holds: hi\n
file: image/gif:d/x
holds: hi
file: text:f
holds:
errors: pack: BadType 2\n
status: Refused

== a file without a type
fields:
boundary: b
file: :f
holds:
errors: pack: BadType 0\n
status: Refused

== a type comes before the name of an earlier file
fields:
boundary: b
file: text/plain:a"b
holds:
file: text:f
holds:
errors: pack: BadType 1\n
status: Refused

== a quote in the name of a file
fields:
boundary: b
file: text/plain:f
holds: hi\n
file: text/plain:a"b
holds:
errors: pack: BadName 1\n
status: Refused

== a file without a name
fields:
boundary: b
file: text/plain:d/
holds:
errors: pack: BadName 0\n
status: Refused

== a boundary that ends in a space
fields:
boundary: b\x20
file: text/plain:f
holds: hi\n
errors: pack: BadBoundary\n
status: Refused

== an empty boundary
fields:
boundary:
file: text/plain:f
holds: hi\n
errors: pack: BadBoundary\n
status: Refused

== the name of a file comes before the boundary
fields:
boundary:
file: text/plain:f
holds: hi\n
file: text/plain:
holds:
errors: pack: BadName 1\n
status: Refused
"#;

#[test]
fn the_first_reason_is_named(rt: HostRuntime) -> Result<(), Fail> {
    check_rows(&rt, rt.alloc(), REFUSED)
}
