//! Messages that `pack` forwards.

use super::{gives, prints};
use mk_run::Status;
use std::fs;
use std::test::Fail;

#[test]
fn messages_are_forwarded(rt: HostRuntime) -> Result<(), Fail> {
    let folder = "mimetool_forward_test";
    let file = "mimetool_forward_test/m";
    let _ = fs::remove_dir_all(&rt, folder);
    fs::create_dir_all(&rt, folder)?;
    fs::write(&rt, file, "From a\nA: b\n\n--c\n")?;
    let words: &[&str] = &["pack", "-b", "b", "--forward", file, "--forward", file];
    prints(
        &rt,
        words,
        b"Subject: s\n",
        b"Subject: s\nMIME-Version: 1.0\nContent-Type: multipart/mixed; boundary=\"b\"\n\n--b\nContent-Type: message/rfc822\nContent-Disposition: attachment\n\nA: b\n\n--c\n\n--b\nContent-Type: message/rfc822\nContent-Disposition: attachment\n\nA: b\n\n--c\n\n--b--\n",
    )?;
    let words: &[&str] = &["pack", "--inline", "-b", "b", "--forward", file];
    prints(
        &rt,
        words,
        b"",
        b"MIME-Version: 1.0\nContent-Type: multipart/mixed; boundary=\"b\"\n\n--b\nContent-Type: message/rfc822\n\nA: b\n\n--c\n\n--b--\n",
    )?;
    gives(
        &rt,
        &["pack", "-b", "c", "--forward", file],
        b"",
        b"",
        b"pack: HoldsBoundary 0\n",
        Status::Refused,
    )?;
    fs::remove_dir_all(&rt, folder)?;
    Ok(())
}
