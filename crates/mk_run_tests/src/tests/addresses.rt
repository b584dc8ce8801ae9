//! The addresses of fields, as `--addresses` prints them. The fields are those of RFC 5322, appendix A, and some that break its
//! grammar; the expected bytes are worked out by hand.

use super::wording::{check_memory, check_row};
use mk_rows::rows;
use mk_run::ValueForm;
use std::test::Fail;

const ADDRESSES: &str = r#"
== a name with an address, and an address alone
take: From:
message: From: John Doe <jdoe@machine.example>\nFrom: a@b\n\n
output: jdoe@machine.example\na@b\n
status: Well

== a list (A.1.2)
take: To:
message: To: Mary Smith <mary@x.test>, jdoe@example.org, Who? <one@y.test>\n\n
output: mary@x.test\njdoe@example.org\none@y.test\n
status: Well

== names in quotes (A.1.2)
take: Cc:
message: Cc: <boss@nil.test>, "Giant; \\"Big\\" Box" <sysservices@example.net>\n\n
output: boss@nil.test\nsysservices@example.net\n
status: Well

== a group (A.1.3)
take: To:
message: To: A Group:Ed Jones <c@a.test>,joe@where.test,John <jdoe@one.test>;\n\n
output: c@a.test\njoe@where.test\njdoe@one.test\n
status: Well

== an empty group (A.1.3)
take: Cc:
message: Cc: Undisclosed recipients:;\n\n
output:
status: Well

== comments around an address and in it (A.5)
take: From:
message: From: Pete(A nice \\) chap) <pete(his account)@silly.test(his host)>\n\n
output: pete@silly.test\n
status: Well

== a folded group with comments (A.5)
take: To:
message: To:A Group(Some people)\r\n     :Chris Jones <c@(Chris's host.)public.example>,\r\n         joe@example.org,\r\n  John <jdoe@one.test> (my dear friend); (the end of the group)\r\n\r\n
output: c@public.example\njoe@example.org\njdoe@one.test\n
status: Well

== an empty group with comments (A.5)
take: Cc:
message: Cc:(Empty list)(start)Hidden recipients  :(nobody(that I know))  ;\n\n
output:
status: Well

== a route, an empty place in the list, and white space around a full stop (A.6.1)
take: To:
message: To: Mary Smith <@node.test:mary@example.net>, , jdoe@test  . example\n\n
output: mary@example.net\njdoe@test.example\n
status: Well

== a route of three domains
take: To:
message: To: <@a.test,@b.test,@c.test:x@y.test>\n\n
output: x@y.test\n
status: Well

== a comment beside a full stop (A.6.3)
take: From:
message: From: John Doe <jdoe@machine(comment).  example>\n\n
output: jdoe@machine.example\n
status: Well

== a local part in quotes, with the marks of a list in it
take: To:
message: To: "a, <b>; c"@d.test, "x\\"y"@z.test\n\n
output: "a, <b>; c"@d.test\n"x\\"y"@z.test\n
status: Well

== a quoted local part in two lines
take: To:
message: To: "a\n b"@c.test\n\n
output: "a b"@c.test\n
status: Well

== a domain literal with colons
take: To:
message: To: A <a@[IPv6:2001:db8::1]>, b@[192.0.2.1]\n\n
output: a@[IPv6:2001:db8::1]\nb@[192.0.2.1]\n
status: Well

== an encoded word that holds a comma
take: To:
message: To: =?utf-8?Q?a=2Cb?= <c@d.test>\n\n
output: c@d.test\n
status: Well

== bytes that aren't ASCII stay
take: To:
message: To: \xc3\xa4@\xc3\xb6.test\n\n
output: \xc3\xa4@\xc3\xb6.test\n
status: Well

== names alone, and words beside an address, are no addresses
take: To:
message: To: John Doe, root, John Doe@x.test, a b@c.test\n\n
output:
status: Well

== without a local part, without a domain, and an at sign in quotes alone
take: To:
message: To: @b.test, a@, "a@b.test"\n\n
output:
status: Well

== an address before the one in angles is a name
take: From:
message: From: a@b.test <c@d.test>\n\n
output: c@d.test\n
status: Well

== angles that aren't closed, and what follows closed ones
take: To:
message: To: A <a@b.test, c@d.test> e@f.test, g@h.test\n\n
output: a@b.test\nc@d.test\ng@h.test\n
status: Well

== a comment and a quoted string that aren't closed
take: To:
message: To: a@b.test (c@d.test, e@f.test\nTo: a@b.test, "c@d.test, e@f.test\n\n
output: a@b.test\na@b.test\n
status: Well

== no value
take: To:
message: To:\n\n
output:
status: Well
"#;

#[test]
fn addresses_are_printed(rt: HostRuntime) -> Result<(), Fail> {
    for row in &rows(rt.alloc(), ADDRESSES)? {
        check_row(&rt, rt.alloc(), row, ValueForm::Addresses, 5)?;
    }
    Ok(())
}

#[test]
fn memory_for_addresses(rt: HostRuntime) {
    check_memory(&rt, rt.alloc(), ValueForm::Addresses, b"c@d\n");
}
