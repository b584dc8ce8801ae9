//! Encoded words of fields. Expected values are from the RFCs and our own rules.
use super::calls::{Call, check, same};
use mk_code::{words_decode, words_encode};
use mk_line::Ending;
use std::alloc::Global;
use std::test::Fail;

const DECODED_WORDS: &str = r#"
== two charsets, two encodings, and no space between the words
text: =?iso-8859-1?Q?caf=E9?= =?UTF-8?B?w6k=?= x
gives: caf\xc3\xa9\xc3\xa9 x

== an unknown charset
text: =?x?Q?a?= =?utf-8?Q?b?=
gives: =?x?Q?a?= b

== windows-1252, and another label of it
text: =?Windows-1252?Q?=80=92?= =?latin1?Q?=E9?=
gives: \xe2\x82\xac\xe2\x80\x99\xc3\xa9

== a charset of another alphabet
text: =?koi8-r?B?8NLJ18XU?=
gives: \xd0\x9f\xd1\x80\xd0\xb8\xd0\xb2\xd0\xb5\xd1\x82

== a byte that has no character
text: =?iso-8859-3?Q?a=A5?=
gives: =?iso-8859-3?Q?a=A5?=

== a language after the charset
text: =?UTF-8*de?Q?J=C3=B6rg?= =?cp1252*en-GB?Q?=80?=
gives: J\xc3\xb6rg\xe2\x82\xac

== a charset of more bytes a character
text: =?shift_jis?B?gqA=?=
gives: =?shift_jis?B?gqA=?=

== a sign without its digits
text: =?utf-8?Q?a=?=
gives: =?utf-8?Q?a=?=

== a fold between two words
text: =?utf-8?Q?a?=\r\n\t=?utf-8?q?b?=
gives: ab

== a fold before other text
text: =?utf-8?Q?a?=\n b
gives: a b

== spaces around a word
text: \x20=?utf-8?Q?a?=  \t
gives: \x20a  \t

== an underscore, and one as two digits
text: =?utf-8?Q?a_b=5F?=
gives: a b_

== an empty word
text: =?utf-8?Q??=
gives:

== base64 without padding
text: =?UtF-8?b?w6k?=
gives: \xc3\xa9

== base64 with too much padding
text: =?utf-8?B?w6k==?=
gives: \xc3\xa9

== base64 with three signs of padding
text: =?utf-8?B?w6k===?=
gives: =?utf-8?B?w6k===?=

== base64 with unused bits
text: =?utf-8?B?aGl?=
gives: =?utf-8?B?aGl?=

== base64 with another character
text: =?utf-8?B?a-Gk?=
gives: =?utf-8?B?a-Gk?=

== the last byte of ASCII
text: =?us-ascii?Q?=7F?=
gives: \x7f

== a byte beyond ASCII
text: =?us-ascii?Q?=80?=
gives: =?us-ascii?Q?=80?=

== a byte that isn't ASCII in the word itself
text: =?utf-8?Q?\xc3?=
gives: =?utf-8?Q?\xc3?=

== a question mark in a word
text: =?utf-8?Q?a?b?=
gives: =?utf-8?Q?a?b?=

== an unknown encoding
text: =?utf-8?X?a?=
gives: =?utf-8?X?a?=

== a letter before a word
text: x=?utf-8?Q?a?=
gives: x=?utf-8?Q?a?=

== a letter after a word
text: =?utf-8?Q?a?=x =?utf-8?Q?b?=
gives: =?utf-8?Q?a?=x b

== a character cut in two
text: =?utf-8?Q?=C3?= =?utf-8?Q?=A9?=
gives: \xc3\xa9

== nothing
text:
gives:
"#;

#[test]
fn encoded_words_decoded(rt: HostRuntime) -> Result<(), Fail> {
    check(&rt, rt.alloc(), Call::DecodeWords, DECODED_WORDS)
}

/// The same, where what words stand for has to be UTF-8.
const DECODED_TEXTS: &str = r#"
== a byte that isn't UTF-8
text: =?utf-8?Q?=C3?=
gives: =?utf-8?Q?=C3?=

== a character cut in two
text: =?utf-8?Q?=C3?= =?utf-8?Q?=A9?=
gives: \xc3\xa9

== half a character beside a whole one, and the gaps around it
text: =?utf-8?B?w6k=?= =?utf-8?Q?=C3?= =?utf-8?Q?a?= =?utf-8?Q?b?=
gives: \xc3\xa9 =?utf-8?Q?=C3?= ab

== half a character in another charset is a character
text: =?iso-8859-1?Q?=C3?=
gives: \xc3\x83

== a byte that isn't UTF-8 outside words stays
text: \xe9 =?utf-8?Q?a?= =?utf-8?Q?=C3?=
gives: \xe9 a =?utf-8?Q?=C3?=

== a word that was never encoded
text: caf\xc3\xa9 au lait
gives: caf\xc3\xa9 au lait

== nothing
text:
gives:
"#;

#[test]
fn encoded_words_decoded_as_text(rt: HostRuntime) -> Result<(), Fail> {
    check(&rt, rt.alloc(), Call::DecodeText, DECODED_TEXTS)
}

const ENCODED_WORDS: &str = r#"
== a letter beyond ASCII
text: \xc3\xa9
gives: =?utf-8?B?w6k=?=

== a printable text
text: a b
gives: a b

== no text
text:
gives:

== the start of an encoded word
text: =?
gives: =?utf-8?B?PT8=?=

== a tab
text: \t
gives: =?utf-8?B?CQ==?=

== the signs of a word apart
text: a=b?
gives: a=b?
"#;

#[test]
fn texts_as_encoded_words(rt: HostRuntime) -> Result<(), Fail> {
    check(&rt, rt.alloc(), Call::WordsWithLf, ENCODED_WORDS)
}

const LONG_WITH_LF: &str = r#"
== 23 letters beyond ASCII
text: \xc3\xa9\xc3\xa9\xc3\xa9\xc3\xa9\xc3\xa9\xc3\xa9\xc3\xa9\xc3\xa9\xc3\xa9\xc3\xa9\xc3\xa9\xc3\xa9\xc3\xa9\xc3\xa9\xc3\xa9\xc3\xa9\xc3\xa9\xc3\xa9\xc3\xa9\xc3\xa9\xc3\xa9\xc3\xa9\xc3\xa9
gives: =?utf-8?B?w6nDqcOpw6nDqcOpw6nDqcOpw6nDqcOpw6nDqcOpw6nDqcOpw6nDqcOpw6k=?=\n =?utf-8?B?w6k=?=
"#;

const LONG_WITH_CRLF: &str = r#"
== 23 letters beyond ASCII
text: \xc3\xa9\xc3\xa9\xc3\xa9\xc3\xa9\xc3\xa9\xc3\xa9\xc3\xa9\xc3\xa9\xc3\xa9\xc3\xa9\xc3\xa9\xc3\xa9\xc3\xa9\xc3\xa9\xc3\xa9\xc3\xa9\xc3\xa9\xc3\xa9\xc3\xa9\xc3\xa9\xc3\xa9\xc3\xa9\xc3\xa9
gives: =?utf-8?B?w6nDqcOpw6nDqcOpw6nDqcOpw6nDqcOpw6nDqcOpw6nDqcOpw6nDqcOpw6k=?=\r\n =?utf-8?B?w6k=?=
"#;

/// The same words, and the text again.
const LONG_AGAIN: &str = r#"
== 23 letters beyond ASCII
text: =?utf-8?B?w6nDqcOpw6nDqcOpw6nDqcOpw6nDqcOpw6nDqcOpw6nDqcOpw6nDqcOpw6k=?=\r\n =?utf-8?B?w6k=?=
gives: \xc3\xa9\xc3\xa9\xc3\xa9\xc3\xa9\xc3\xa9\xc3\xa9\xc3\xa9\xc3\xa9\xc3\xa9\xc3\xa9\xc3\xa9\xc3\xa9\xc3\xa9\xc3\xa9\xc3\xa9\xc3\xa9\xc3\xa9\xc3\xa9\xc3\xa9\xc3\xa9\xc3\xa9\xc3\xa9\xc3\xa9
"#;

#[test]
fn long_texts_as_several_words(rt: HostRuntime) -> Result<(), Fail> {
    check(&rt, rt.alloc(), Call::WordsWithLf, LONG_WITH_LF)?;
    check(&rt, rt.alloc(), Call::WordsWithCrlf, LONG_WITH_CRLF)?;
    check(&rt, rt.alloc(), Call::DecodeWords, LONG_AGAIN)
}

const PRINTABLE: &str = "
== 200 letters
text: aaaaaaaaaaaaaaaaaaaaaaaaaaaaaaaaaaaaaaaaaaaaaaaaaaaaaaaaaaaaaaaaaaaaaaaaaaaaaaaaaaaaaaaaaaaaaaaaaaaaaaaaaaaaaaaaaaaaaaaaaaaaaaaaaaaaaaaaaaaaaaaaaaaaaaaaaaaaaaaaaaaaaaaaaaaaaaaaaaaaaaaaaaaaaaaaaaaaaaaa
gives: aaaaaaaaaaaaaaaaaaaaaaaaaaaaaaaaaaaaaaaaaaaaaaaaaaaaaaaaaaaaaaaaaaaaaaaaaaaaaaaaaaaaaaaaaaaaaaaaaaaaaaaaaaaaaaaaaaaaaaaaaaaaaaaaaaaaaaaaaaaaaaaaaaaaaaaaaaaaaaaaaaaaaaaaaaaaaaaaaaaaaaaaaaaaaaaaaaaaaaaa
";

// As many letters as are encoded: the length of the words.
fn words_length(alloc: Global, count: usize) -> Result<usize, Fail> {
    let mut text = String::new(alloc);
    for _ in 0..count {
        text.push('a')?;
    }
    Ok(words_encode(alloc, text.as_str(), Ending::Lf)?.len())
}

#[test]
fn a_printable_text_of_200_bytes_stays(rt: HostRuntime) -> Result<(), Fail> {
    check(&rt, rt.alloc(), Call::WordsWithLf, PRINTABLE)?;
    assert_eq!(rt; words_length(rt.alloc(), 201)?, 4 * 74 + 40);
    Ok(())
}
