//! Texts put before what fields say.
use super::calls::{Call, check};
use std::test::Fail;

/// Texts, and whether they may be asked for.
const ALLOWED: &str = r#"
== a text before the values of a name
prepend: A
text: b
gives: yes

== no text
prepend: A
gives: no

== a text of two lines
prepend: A
text: b\nc
gives: no

== a carriage return in a text
prepend: A
text: b\rc
gives: no

== a text before the values of what is no name
prepend: A:
text: b
gives: no

== a text, and values
prepend: A
text: b
take: A
gives: no
"#;

#[test]
fn texts_that_may_be_asked_for(rt: HostRuntime) -> Result<(), Fail> {
    check(&rt, rt.alloc(), Call::Allowed, ALLOWED)
}

/// Texts on a message, and the message after their edits.
const FILTERED: &str = r#"
== a text before what the fields of a name say
prepend: a
text: x\x20
message: A: 1\nB: 2\nA:\n 3\n\n
gives: A: x 1\nB: 2\nA:\n x 3\n\n

== a text that isn't UTF-8 goes in as it is
prepend: A
text: \xe9\x20
message: A: 1\n\n
gives: A: \xe9 1\n\n

== a tab isn't printable, and stands at the end as it is
prepend: A
text: b\t
message: A: 1\nA: =?x\n\n
gives: A: b\t1\nA: =?utf-8?B?Ygk=?= =?x\n\n

== it works before the other letters
prepend: A
text: x
add: A: 2
last: A
message: A: 1\n\n
gives: A: 2\n\n
"#;

#[test]
fn texts_are_put_before_values(rt: HostRuntime) -> Result<(), Fail> {
    check(&rt, rt.alloc(), Call::Filtered, FILTERED)
}
