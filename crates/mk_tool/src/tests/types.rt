//! Types by the endings of files, and names of parts: `pack FILE`, `pack FILE=NAME`. Expected values are from docs/FORMATS.md.

use super::{gives, prints};
use mk_run::Status;
use mk_types::media_type;
use std::fs;
use std::test::Fail;

const UNKNOWN: &str = "application/octet-stream";

#[test]
fn endings_tell_types(rt: HostRuntime) -> Result<(), Fail> {
    assert_eq!(rt; media_type(b"photos/Cat.JPG"), "image/jpeg");
    assert_eq!(rt; media_type(b"README"), "application/octet-stream");
    for (path, media) in [
        (b"a.txt".as_slice(), "text/plain"),
        (b"a.b.Html", "text/html"),
        (b"../a.d/b.pdf", "application/pdf"),
        (b".csv", "text/csv"),
        (b"a.tar.gz", "application/gzip"),
        (
            b"a.docx",
            "application/vnd.openxmlformats-officedocument.wordprocessingml.document",
        ),
        (b"a.eml", "message/rfc822"),
        (b"", UNKNOWN),
        (b"pdf", UNKNOWN),
        (b"a.pdf/b", UNKNOWN),
        (b"a.", UNKNOWN),
        (b"a.pdf~", UNKNOWN),
        (b"a.p\xc3\x9ff", UNKNOWN),
    ] {
        assert_eq!(rt; media_type(path), media);
    }
    Ok(())
}

#[test]
fn files_are_packed_without_types_and_under_other_names(rt: HostRuntime) -> Result<(), Fail> {
    let folder = "mimetool_types_test";
    let _ = fs::remove_dir_all(&rt, folder);
    fs::create_dir_all(&rt, folder)?;
    fs::write(&rt, "mimetool_types_test/scan.PNG", "x")?;
    fs::write(&rt, "mimetool_types_test/a=b.txt", "x")?;
    fs::write(&rt, "mimetool_types_test/mail.eml", "A: b\n\nx\n")?;
    let named = "mimetool_types_test/scan.PNG=in/receipt one.png";
    let typed = "image/x-scan:mimetool_types_test/scan.PNG=a=b";
    for (word, output) in [
        (
            named,
            b"Content-Type: image/png; name=\"receipt one.png\"\nContent-Disposition: attachment; filename=\"receipt one.png\"\nContent-Transfer-Encoding: base64\n\neA==".as_slice(),
        ),
        (
            "mimetool_types_test/scan.PNG",
            b"Content-Type: image/png; name=\"scan.PNG\"\nContent-Disposition: attachment; filename=\"scan.PNG\"\nContent-Transfer-Encoding: base64\n\neA==",
        ),
        (
            "mimetool_types_test/a=b.txt",
            b"Content-Type: text/plain; name=\"a=b.txt\"\nContent-Disposition: attachment; filename=\"a=b.txt\"\nContent-Transfer-Encoding: quoted-printable\n\nx",
        ),
        (
            "text/plain:mimetool_types_test/a=b.txt",
            b"Content-Type: text/plain; name=\"a=b.txt\"\nContent-Disposition: attachment; filename=\"a=b.txt\"\nContent-Transfer-Encoding: quoted-printable\n\nx",
        ),
    ] {
        prints(&rt, &["pack", "--part", word], b"", output)?;
    }
    let missing =
        b"mimetool: mimetool_types_test/scan.PNG=a: No such file or directory (os error 2)\nmimetool: read fault\n";
    gives(
        &rt,
        &["pack", "--part", typed],
        b"",
        b"",
        missing,
        Status::Fault,
    )?;
    let eml = "mimetool_types_test/mail.eml";
    gives(
        &rt,
        &["pack", "-b", "b", eml],
        b"",
        b"",
        b"pack: BadType 0\n",
        Status::Refused,
    )?;
    let none = "mimetool_types_test/scan.PNG=";
    gives(
        &rt,
        &["pack", "-b", "b", none],
        b"",
        b"",
        b"pack: BadName 0\n",
        Status::Refused,
    )?;
    fs::remove_dir_all(&rt, folder)?;
    Ok(())
}
