//! What is stored beside the leaves, and under which names. The expected bytes are worked out by hand.

use super::chosen::check_row;
use mk_rows::rows;
use std::test::Fail;

const ROWS: &str = r#"
== a message in the message is stored whole, and what is in it too
message: Content-Type: multipart/mixed; boundary=b\n\n--b\n\none\n--b\nContent-Type: message/rfc822\n\nContent-Type: image/gif; name=x\n\n1\n--b--\n
messages: yes
after part-1.2: Content-Type: image/gif; name=x\n\n1
after x: 1
output: part-1.2 (message/rfc822)\nx (image/gif)\n
status: Well

== it has the name that its fields say
message: Content-Type: message/rfc822; name="a b.eml"\n\nSubject: s\n\nhi\n
messages: yes
after a_b.eml: Subject: s\n\nhi\n
output: a_b.eml (message/rfc822)\n
status: Well

== it isn't stored unless that is asked for
message: Content-Type: message/rfc822; name="a b.eml"\n\nSubject: s\n\nhi\n
status: Well

== only the message at a path
message: Content-Type: multipart/mixed; boundary=b\n\n--b\nContent-Type: message/rfc822\n\n1\n--b\nContent-Type: message/rfc822\n\nA: 2\n--b--\n
messages: yes
section: 1.2
after part-1.2: A: 2
output: part-1.2 (message/rfc822)\n
status: Well

== what decodes of a content that was cut off
message: Content-Type: image/gif; name=x\nContent-Transfer-Encoding: base64\n\naGlpa\n
prefix: yes
after x.part: hii
output: x.part (image/gif)\n
errors: 1: BadBase64\n
status: Refused

== nothing of it unless that is asked for
message: Content-Type: image/gif; name=x\nContent-Transfer-Encoding: base64\n\naGlpa\n
errors: 1: BadBase64\n
status: Refused

== it never takes the place of a file
message: Content-Type: image/gif; name=x\nContent-Transfer-Encoding: base64\n\naGlpa\n
prefix: yes
clash: over
before x.part: old
after x.part: old
after x.part.1: hii
output: x.part.1 (image/gif)\n
errors: 1: BadBase64\n
status: Refused

== it comes after all that is whole
message: Content-Type: multipart/mixed; boundary=b\n\n--b\nContent-Type: image/gif; name=x\nContent-Transfer-Encoding: base64\n\naGlpa\n--b\nContent-Type: image/gif; name=x.part\n\n2\n--b--\n
prefix: yes
clash: over
after x.part: 2
after x.part.1: hii
output: x.part (image/gif)\nx.part.1 (image/gif)\n
errors: 1.1: BadBase64\n
status: Refused

== it gets numbers as others do
message: Content-Type: image/gif; name=x\nContent-Transfer-Encoding: base64\n\naGlpa\n
prefix: yes
clash: counted
before x.part: old
before x.part.2: older
after x.part: old
after x.part.1: hii
after x.part.2: older
output: x.part.1 (image/gif)\n
errors: 1: BadBase64\n
status: Refused

== a content that was cut off before its first group
message: Content-Type: image/gif; name=x\nContent-Transfer-Encoding: base64\n\na\n
prefix: yes
after x.part:
output: x.part (image/gif)\n
errors: 1: BadBase64\n
status: Refused

== an encoding that isn't known is no content that was cut off
message: Content-Type: image/gif; name=x\nContent-Transfer-Encoding: x-uuencode\n\nx\n
prefix: yes
errors: 1: UnknownEncoding\n
status: Refused

== a content that is whole has no part
message: Content-Type: image/gif; name=x\nContent-Transfer-Encoding: base64\n\naGlp\n
prefix: yes
after x: hii
output: x (image/gif)\n
status: Well

== a part is named by its id
message: Content-Type: image/gif; name=x\nContent-ID: <image1.gif@host>\n\n1\n
ids: yes
after image1.gif_host: 1\n
output: image1.gif_host (image/gif)\n
status: Well

== a text with an id has a name
message: Content-Type: text/html\nContent-ID: <a@b>\n\n1\n
ids: yes
after a_b: 1\n
output: a_b (text/html)\n
status: Well

== two parts with one id
message: Content-Type: multipart/related; boundary=b\n\n--b\nContent-Type: image/gif\nContent-ID: <a>\n\n1\n--b\nContent-Type: image/gif\nContent-ID: <a>\n\n2\n--b--\n
ids: yes
after a: 1
after a.1: 2
output: a (image/gif)\na.1 (image/gif)\n
status: Well

== a part without an id has the name that its fields say
message: Content-Type: image/gif; name=x\nContent-ID: <>\n\n1\n
ids: yes
after x: 1\n
output: x (image/gif)\n
status: Well

== no id leads out of the folder
message: Content-Type: image/gif\nContent-ID: <../../.x>\n\n1\n
ids: yes
after _x: 1\n
output: _x (image/gif)\n
status: Well
"#;

#[test]
fn more_than_the_leaves_is_stored(rt: HostRuntime) -> Result<(), Fail> {
    for row in &rows(rt.alloc(), ROWS)? {
        check_row(&rt, rt.alloc(), row)?;
    }
    Ok(())
}
