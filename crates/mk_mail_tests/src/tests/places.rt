//! Texts that may stand in the place of a message of a mailbox, and texts that may not.

use mk_mail::{FromLines, Place};
use mk_rows::{Row, rows};
use std::alloc::Global;
use std::process::Abort;
use std::test::Fail;

/// A message, a text in its place, and whether it may stand there: where every From-line begins a message, where only those
/// with a date do, and where only those before a field do.
const PLACES: &str = r"
== the message itself
message: From a\nA: 1\n\n
text: From a\nA: 1\n\n
any: yes
dated: yes
field: yes

== a From-line after an empty line
message: From a\nA: 1\nFrom b\n\n
text: From a\n\nFrom b\n\n
any: no
dated: yes
field: no

== one with a date
message: A: 1\n
text: \nFrom b Fri Jul  8 12:08:34 2011\n
any: no
dated: no
field: yes

== a From-line after another line
message: A: 1\n
text: B: 1\nFrom b\n
any: yes
dated: yes
field: yes

== no empty line at the end any more
message: A: 1\n\n
text: A: 1\n
any: no
dated: no
field: no

== an empty line at the end of the last message
message: A: 1
text: A: 1\n\n
any: yes
dated: yes
field: yes

== a line that a line feed doesn't end isn't empty
message: A: 1\n\n
text: A: 1\n\nx
any: no
dated: no
field: no

== no From-line at the start any more
message: From a\nA: 1\n
text: A: 1\n
any: no
dated: yes
field: no

== a From-line at the start where there was none
message: A: 1\n
text: From a\nA: 1\n
any: yes
dated: yes
field: yes

== no byte in the place of a message that ends with an empty line
message: A: 1\n\n
text:
any: no
dated: no
field: no

== no byte in the place of the only message
message: A: 1\n
text:
any: yes
dated: yes
field: yes

== no field after the From-line any more
message: From a\nA: 1\n\nx\n
text: From a\n\nx\n
any: yes
dated: yes
field: no

== a From-line after an empty line, and a field after it
message: A: 1\n
text: A: 1\n\nFrom b\nB: 2\n
any: no
dated: yes
field: no

== a From-line after an empty line, and a body line after it
message: A: 1\n
text: A: 1\n\nFrom b\nb\n
any: no
dated: yes
field: yes

== a From-line that no field followed
message: From here\non\n
text: A: 1\n
any: no
dated: yes
field: yes
";

fn check_row(rt: &impl Abort, row: &Row, from_lines: FromLines, key: &str) {
    let place = Place::of(from_lines, row.bytes("message"));
    let fits = place.fits(row.bytes("text"));
    assert!(rt; fits == (row.text(key) == "yes"), "{}: {key}", row.shows);
}

fn check(rt: &impl Abort, alloc: Global) -> Result<(), Fail> {
    for row in &rows(alloc, PLACES)? {
        check_row(rt, row, FromLines::Any, "any");
        check_row(rt, row, FromLines::Dated, "dated");
        check_row(rt, row, FromLines::Fielded, "field");
    }
    Ok(())
}

#[test]
fn texts_take_the_places_of_messages(rt: HostRuntime) -> Result<(), Fail> {
    check(&rt, rt.alloc())
}
