//! What the parameters of a name say as text. Expected values are from the RFCs and our own rules.
use super::calls::same;
use mk_head::content_type;
use mk_param::{percent_decode, push_percent, text_of};
use mk_rows::{Row, rows};
use std::alloc::Global;
use std::test::Fail;

const SAID: &str = r#"
== a charset and percent signs
value: attachment; filename*=UTF-8''na%C3%AFve%20r%C3%A9sum%C3%A9.pdf
gives: na\xc3\xafve r\xc3\xa9sum\xc3\xa9.pdf

== the example of RFC 2231, 4
value: application/x-stuff; filename*=us-ascii'en-us'This%20is%20%2A%2A%2Afun%2A%2A%2A
gives: This is ***fun***

== the example of RFC 2231, 4.1
value: application/x-stuff; filename*0*=us-ascii'en'This%20is%20even%20more%20; filename*1*=%2A%2A%2Afun%2A%2A%2A%20; filename*2="isn't it!"
gives: This is even more ***fun*** isn't it!

== segments without a charset
value: a; filename*0="ftp://"; filename*1="cs.utk.edu/"
gives: ftp://cs.utk.edu/

== segments in the order of their numbers
value: a; filename*1="b"; filename*0="a"
gives: ab

== a character cut in two by segments
value: a; filename*0*=utf-8''%e2%82; filename*1*=%ac%20; filename*2="rates.txt"
gives: \xe2\x82\xac rates.txt

== eleven segments, in no order
value: a; filename*10=k; filename*9=j; filename*8=i; filename*7=h; filename*6=g; filename*5=f; filename*4=e; filename*3=d; filename*2=c; filename*1=b; filename*0=a
gives: abcdefghijk

== a missing segment ends the value
value: a; filename*0=a; filename*2=c; filename*1x=b
gives: a

== a number with a leading zero is another name
value: a; filename*00=x; filename*0=a; filename*01=b
gives: a

== no segment 0
value: a; filename*1=b; filename=c
gives: c

== an encoded segment counts before a plain one
value: a; filename*0=x; filename*0*=utf-8''y; filename*1*=%41; filename*1=b
gives: yA

== the first of two segments of a name
value: a; filename*0=a; filename*0=b
gives: a

== a plain segment keeps its percent signs
value: a; filename*0*=utf-8''a%41; filename*1=%42
gives: aA%42

== an encoded segment after a plain one has no charset
value: a; filename*0=utf-8''a; filename*1*=%c3%a9'
gives: utf-8''a\xc3\xa9'

== a segment that can't be read
value: a; filename*0*=utf-8''a; filename*1*=%4; filename=c
gives: c

== a first segment without a charset
value: a; filename*0*=a; filename=c
gives: c

== a percent sign without digits
value: a; filename*=utf-8'en'%zz; filename="x.txt"
gives: x.txt

== a percent sign at the end
value: a; filename*=utf-8''a%; filename=x
gives: x

== a percent sign with one digit
value: a; filename*=utf-8''a%4; filename=x
gives: x

== one apostrophe
value: a; filename*=utf-8'a; filename=x
gives: x

== a third apostrophe is part of the text
value: a; filename*=utf-8''a'b
gives: a'b

== an unknown charset
value: a; filename*=utf-16''a; filename=x
gives: x

== no charset
value: a; filename*=''a; filename=x
gives: x

== latin-1, in capitals
value: a; filename*=ISO-8859-1'fr'caf%E9
gives: caf\xc3\xa9

== a byte beyond ASCII
value: a; filename*=us-ascii''caf%E9; filename=x
gives: x

== no UTF-8
value: a; filename*=utf-8''caf%E9; filename=x
gives: x

== a surrogate is no UTF-8
value: a; filename*=utf-8''%ED%A0%80; filename=x
gives: x

== the charset counts before segments
value: a; filename*0=b; filename*=utf-8''a; filename=c
gives: a

== segments count before the plain value
value: a; filename=c; filename*0=b
gives: b

== an empty text is a text
value: a; filename*=utf-8''; filename=x
gives:

== an encoded word
value: a; filename="=?iso-8859-1?Q?caf=E9.txt?="
gives: caf\xc3\xa9.txt

== a plain name
value: a; filename=caf\xc3\xa9
gives: caf\xc3\xa9

== a plain name that isn't UTF-8
value: a; filename=caf\xe9
gives: (nothing)

== another name
value: a; name=x
gives: (nothing)
"#;

fn said(alloc: Global, row: &Row) -> Result<Vec<u8>, Fail> {
    let value = content_type(alloc, row.bytes("value"))?;
    match text_of(alloc, &value, b"filename")? {
        Some(text) => Ok(text.into_bytes()),
        None => Ok(Vec::from_slice(alloc, b"(nothing)")?),
    }
}

#[test]
fn parameters_say_texts(rt: HostRuntime) -> Result<(), Fail> {
    for row in &rows(rt.alloc(), SAID)? {
        same(&rt, &said(rt.alloc(), row)?, row.bytes("gives"), row.shows);
    }
    Ok(())
}

const PERCENTS: &str = r#"
== letters, and what a token can't hold
bytes: a b\x00/\xff
text: a%20b%00%2F%FF

== the three signs of extended values
bytes: *'%
text: %2A%27%25

== all other signs of a token
bytes: !#$&+-.^_`{|}~
text: !#$&+-.^_`{|}~
"#;

#[test]
fn percent_signs_go_and_come_back(rt: HostRuntime) -> Result<(), Fail> {
    for row in &rows(rt.alloc(), PERCENTS)? {
        let mut text = Vec::new(rt.alloc());
        push_percent(&mut text, row.bytes("bytes"))?;
        same(&rt, &text, row.bytes("text"), row.shows);
        let back = percent_decode(rt.alloc(), &text)?;
        same(
            &rt,
            back.as_deref().unwrap_or(b"-"),
            row.bytes("bytes"),
            row.shows,
        );
    }
    Ok(())
}
