//! The header of an answer (`reply`). What comes out is worked out by RFC 5322, 3.6.2 to 3.6.5.

use super::{check_refused, check_rows};
use std::test::Fail;

const ADDRESSEES: &str = r"
== who wrote a message is answered
words: reply
message: From: A <a@b.org>\nTo: c@d.org\nCc: e@f.org\n\nx\n
output: To: A <a@b.org>\n\n
status: Well

== or those of Reply-To, whatever its case and its place
words: reply
message: From: a@b.org\nREPLY-TO: c@d.org, e@f.org\n\nx\n
output: To: c@d.org, e@f.org\n\n
status: Well

== a Reply-To that says nothing doesn't count
words: reply
message: Reply-To: \n \nFrom: a@b.org\n\nx\n
output: To: a@b.org\n\n
status: Well

== the first From counts
words: reply
message: From: a@b.org\nFrom: c@d.org\n\nx\n
output: To: a@b.org\n\n
status: Well

== folds and bytes that aren't ASCII stay
words: reply
message: From:\n =?utf-8?Q?J=C3=B6rg?=\n\t<a@b.org> (\xff),\n c@d.org \n\nx\n
output: To: =?utf-8?Q?J=C3=B6rg?=\n\t<a@b.org> (\xff),\n c@d.org\n\n
status: Well

== lines end as the first line of the message
words: reply
message: Subject: x\r\nFrom: a@b.org\r\n\r\n
output: To: a@b.org\r\nSubject: Re: x\r\n\r\n
status: Well

== a From-line at the start is no From
words: reply
message: From c@d.org Fri Jul  8 12:08:34 2011\nFrom: a@b.org\n\nx\n
output: To: a@b.org\n\n
status: Well

== a message without a body, or a line ending
words: reply
message: From: a@b.org
output: To: a@b.org\n\n
status: Well

== nobody can be answered
words: reply
message: Subject: x\nSender: a@b.org\n\nFrom: c@d.org\n
errors: message: NoAddress\n
status: Refused

== the reason in words
words: reply|--explain
message:
errors: message: nobody can be answered: neither Reply-To nor From says anything\nmessage: NoAddress\n
status: Refused

== a message of a mailbox
words: reply|-n|2|--mbox=date
message: From a Fri Jul  8 12:08:34 2011\nFrom: a@b.org\n\nFrom here\n\nFrom b Fri Jul  8 12:08:34 2011\nFrom: c@d.org\n\ny\n
output: To: c@d.org\n\n
status: Well

== one that isn't there
words: reply|-n|2
message: From: a@b.org\n
errors: message 2: NoSuchMessage\n
status: Refused
";

const SUBJECTS: &str = r"
== a subject gets `Re: `
words: reply
message: From: a@b.org\nSubject: x\n\n
output: To: a@b.org\nSubject: Re: x\n\n
status: Well

== once, whatever is there, in any case
words: reply
message: From: a@b.org\nSubject: re:RE:  Re:\n\tx\n y\n\n
output: To: a@b.org\nSubject: Re: x\n y\n\n
status: Well

== encoded words that begin so get none
words: reply
message: From: a@b.org\nSubject: Re: =?utf-8?Q?RE=3A_caf=C3=A9?=\n\n
output: To: a@b.org\nSubject: =?utf-8?Q?RE=3A_caf=C3=A9?=\n\n
status: Well

== other encoded words do
words: reply
message: From: a@b.org\nSubject: =?utf-8?B?Y2Fmw6k=?=\n\n
output: To: a@b.org\nSubject: Re: =?utf-8?B?Y2Fmw6k=?=\n\n
status: Well

== what is like it and isn't it stays
words: reply
message: From: a@b.org\nSubject: Re[2]: Re: x\n\n
output: To: a@b.org\nSubject: Re: Re[2]: Re: x\n\n
status: Well

== nor is a longer word
words: reply
message: From: a@b.org\nSubject: Rebel\n\n
output: To: a@b.org\nSubject: Re: Rebel\n\n
status: Well

== nothing but `Re:`
words: reply
message: From: a@b.org\nSubject: Re:\n\n
output: To: a@b.org\nSubject: Re: \n\n
status: Well

== a subject of two bytes
words: reply
message: From: a@b.org\nSubject: Re\n\n
output: To: a@b.org\nSubject: Re: Re\n\n
status: Well

== no subject, none in the answer
words: reply
message: From: a@b.org\nSubject: \t\n\n
output: To: a@b.org\n\n
status: Well
";

const THREADS: &str = r"
== the message is what is answered, and the first of the references
words: reply
message: From: a@b.org\nMessage-ID: <1@b.org>\n\n
output: To: a@b.org\nIn-Reply-To: <1@b.org>\nReferences: <1@b.org>\n\n
status: Well

== it comes after those that it has
words: reply
message: From: a@b.org\nMessage-Id: <3@b.org>\nIn-Reply-To: <2@b.org>\nReferences: <0@b.org>\n <1@b.org>\n\n
output: To: a@b.org\nIn-Reply-To: <3@b.org>\nReferences: <0@b.org>\n <1@b.org>\n <3@b.org>\n\n
status: Well

== the fold ends as the lines of the message
words: reply
message: From: a@b.org\r\nMessage-ID: <1@b.org>\r\nReferences: <0@b.org>\r\n\r\n
output: To: a@b.org\r\nIn-Reply-To: <1@b.org>\r\nReferences: <0@b.org>\r\n <1@b.org>\r\n\r\n
status: Well

== without references, after the one that it answers
words: reply
message: From: a@b.org\nMessage-ID: <1@b.org>\nIn-Reply-To: <0@b.org>\n\n
output: To: a@b.org\nIn-Reply-To: <1@b.org>\nReferences: <0@b.org>\n <1@b.org>\n\n
status: Well

== but not where that names two
words: reply
message: From: a@b.org\nMessage-ID: <1@b.org>\nIn-Reply-To: <0@b.org> <2@b.org>\n\n
output: To: a@b.org\nIn-Reply-To: <1@b.org>\nReferences: <1@b.org>\n\n
status: Well

== or has other words
words: reply
message: From: a@b.org\nMessage-ID: <1@b.org>\nIn-Reply-To: Your message of Monday <0@b.org>\n\n
output: To: a@b.org\nIn-Reply-To: <1@b.org>\nReferences: <1@b.org>\n\n
status: Well

== or isn't closed
words: reply
message: From: a@b.org\nMessage-ID: <1@b.org>\nIn-Reply-To: <0@b.org\n\n
output: To: a@b.org\nIn-Reply-To: <1@b.org>\nReferences: <1@b.org>\n\n
status: Well

== or has a blank within
words: reply
message: From: a@b.org\nMessage-ID: <1@b.org>\nIn-Reply-To: <0 1@b.org>\n\n
output: To: a@b.org\nIn-Reply-To: <1@b.org>\nReferences: <1@b.org>\n\n
status: Well

== or two that are open
words: reply
message: From: a@b.org\nMessage-ID: <1@b.org>\nIn-Reply-To: <<0@b.org>\n\n
output: To: a@b.org\nIn-Reply-To: <1@b.org>\nReferences: <1@b.org>\n\n
status: Well

== without an identifier only those before it are named
words: reply
message: From: a@b.org\nReferences: <0@b.org>\n\n
output: To: a@b.org\nReferences: <0@b.org>\n\n
status: Well
";

/// Invalid words of `reply`.
const REFUSED: &str = r"
== how a mailbox is cut, without a mailbox
words: reply|--mbox=date
begins: error: --mbox goes only with -n: it says how a mailbox is cut\n\nUsage: mimetool reply\x20

== the same by its other name
words: reply|--rfc4155
begins: error: --rfc4155 goes only with -n: it says how a mailbox is cut

== no number
words: reply|-n|0
begins: error: invalid value '0' for '-n <N>': write the number of a message, from 1 to 4294967295

== words of other commands
words: reply|--each
begins: error: unexpected argument '--each' found
";

#[test]
fn those_who_wrote_are_answered(rt: HostRuntime) -> Result<(), Fail> {
    check_rows(&rt, ADDRESSEES)
}

#[test]
fn a_subject_has_one_re(rt: HostRuntime) -> Result<(), Fail> {
    check_rows(&rt, SUBJECTS)
}

#[test]
fn an_answer_names_the_messages_before_it(rt: HostRuntime) -> Result<(), Fail> {
    check_rows(&rt, THREADS)
}

#[test]
fn invalid_words_of_reply_are_refused(rt: HostRuntime) -> Result<(), Fail> {
    check_refused(&rt, REFUSED)
}
