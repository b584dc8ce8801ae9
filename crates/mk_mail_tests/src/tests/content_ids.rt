//! The ids that sections say.

use super::calls::{read, same};
use mk_mail::content_id;
use mk_rows::rows;
use std::test::Fail;

/// The lines of a header, and the id that they say.
const IDS: &str = r#"
== an id in angle brackets
header: Content-ID: <a@b>\n
id: a@b

== without angle brackets
header: content-id: a@b \n
id: a@b

== comments around it
header: Content-ID: (a <x@y> (z)) <a@b> (c)\n
id: a@b

== a comment with a parenthesis that stands for itself
header: Content-ID: (a\\) <x@y>) <a@b>\n
id: a@b

== a quote means nothing before an id
header: Content-ID: " <a@b>\n
id: a@b

== blanks inside the brackets
header: Content-ID: <\x09a@b >\n
id: a@b

== a bracket that isn't closed
header: Content-ID: <a@b\n
id: a@b

== on the next line
header: Content-ID:\n <a@b>\n
id: a@b

== the first field counts
header: Content-ID: <a>\nContent-ID: <b>\n
id: a

== parentheses inside the brackets
header: Content-ID: <image(1)@b>\n
id: image(1)@b

== an empty id
header: Content-ID: <>\n
id:

== a comment that isn't closed
header: Content-ID: (<a@b>\n
id: (<a@b>

== no field
header: A: <b>\n
id:
"#;

#[test]
fn sections_say_their_ids(rt: HostRuntime) -> Result<(), Fail> {
    for row in &rows(rt.alloc(), IDS)? {
        let doc = read(rt.alloc(), row.bytes("header"))?;
        let id = content_id(rt.alloc(), &doc.root())?;
        let found = id.as_ref().map_or(b"".as_slice(), |id| id.as_slice());
        same(&rt, found, row.bytes("id"), row.shows);
    }
    Ok(())
}
