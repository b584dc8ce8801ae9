//! What no clause says: that the clauses mean what messages need. Expected values are from the RFCs and our own rules.
use super::calls::{Call, Question, check, check_words, push_line, same};
use mk_line::{Meter, line_at};
use std::test::Fail;

const TEXTS: &str = r"
== mixed endings, and a return alone
text: a\r\nb\rc\n\n\r\nd\r
gives: Crlf a|Lf b\rc|Lf |Crlf |Missing d\r|

== nothing
text:
gives:
";

#[test]
fn mixed_endings_and_a_lone_return(rt: HostRuntime) -> Result<(), Fail> {
    check(&rt, rt.alloc(), Call::Lines, TEXTS)
}

#[test]
fn a_line_at_a_place_is_counted(rt: HostRuntime) -> Result<(), Fail> {
    let text = b"A: b\n\nx";
    let mut meter = Meter::new();
    let mut found = Vec::new(rt.alloc());
    for place in [0, 5, 6, 7] {
        push_line(rt.alloc(), &mut found, line_at(text, place, &mut meter))?;
    }
    same(
        &rt,
        &found,
        b"Lf A: b|Lf |Missing x|-|",
        "lines by their places",
    );
    let count = meter.count();
    meter.tick();
    assert_eq!(rt; (count, meter.count()), (4, 5));
    Ok(())
}

const ENDINGS: &str = r"
== that of the first line
Crlf: a\r\nb\n
Lf: a\nb\r\n

== no line has one
Lf: a
Lf:
";

#[test]
fn the_ending_of_a_text_is_that_of_its_first_line(rt: HostRuntime) -> Result<(), Fail> {
    check_words(&rt, rt.alloc(), Question::Ending, ENDINGS)
}

/// Lines, after the lengths of their names where they begin a field.
const NAMES: &str = r"
== a name before a colon
Some(1): A: b
Some(1): A : b
Some(2): Ab\t :

== a name as other lines begin
Some(3): --a:b
Some(4): From : x

== no name
None: : b

== a space in front, and one in the name
None: \x20A: b
None: A b: c

== no colon
None: A
None:
";

#[test]
fn names_of_field_starts(rt: HostRuntime) -> Result<(), Fail> {
    check_words(&rt, rt.alloc(), Question::NameLength, NAMES)
}

const CONTINUATIONS: &str = r"
== a blank in front
true: \x20x
true: \t

== no blank in front
false: x\x20
false:
";

const FROM_LINES: &str = r"
== with the space
true: From a
true: From\x20

== without the space, with a small letter, and a field
false: From
false: from a
false: From : a
";

#[test]
fn continuations_and_from_lines(rt: HostRuntime) -> Result<(), Fail> {
    check_words(&rt, rt.alloc(), Question::IsContinuation, CONTINUATIONS)?;
    check_words(&rt, rt.alloc(), Question::IsFromLine, FROM_LINES)
}

const DELIMITERS: &str = r#"
== a delimiter
text: --b
boundary: b
gives: Part

== blanks after a delimiter
text: --b \t
boundary: b
gives: Part

== a close line
text: --b--
boundary: b
gives: Close

== a blank after a close line
text: --b--\x20
boundary: b
gives: Close

== a longer line
text: --bx
boundary: b
gives: No

== a blank before the dashes of a close line
text: --b --
boundary: b
gives: No

== a blank in front
text: \x20--b
boundary: b
gives: No

== one dash
text: -b
boundary: b
gives: No

== an empty line
text:
boundary: b
gives: No

== an empty boundary
text: --
boundary:
gives: Part

== an empty boundary, and a close line
text: ----
boundary:
gives: Close

== a boundary that ends in a blank
text: --b\x20
boundary: b\x20
gives: No
"#;

#[test]
fn delimiters_and_close_lines(rt: HostRuntime) -> Result<(), Fail> {
    check(&rt, rt.alloc(), Call::Delimiter, DELIMITERS)
}
