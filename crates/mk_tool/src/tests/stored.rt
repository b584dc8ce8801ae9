//! What `unpack` writes beside the leaves, and under which names; several sections that `extract` prints. Each test that writes
//! files has a folder of its own.

use super::{gives, holds, prints};
use mk_run::Status;
use std::fs;
use std::test::Fail;

/// A message with another in it.
const FORWARDED: &[u8] = b"Content-Type: message/rfc822\n\nSubject: s\n\nhi\n";

/// A picture of which the base64 was cut off.
const CUT: &[u8] = b"Content-Type: image/gif; name=x\nContent-Transfer-Encoding: base64\n\naGlpa\n";

/// A picture with a name and an id.
const WITH_ID: &[u8] = b"Content-Type: image/gif; name=x\nContent-ID: <a@b>\n\n1";

#[test]
fn each_option_writes_its_own(rt: HostRuntime) -> Result<(), Fail> {
    let folder = "mimetool_stored_test";
    let _ = fs::remove_dir_all(&rt, folder);
    prints(
        &rt,
        &["unpack", "--messages", "-C", folder],
        FORWARDED,
        b"part-1 (message/rfc822)\n",
    )?;
    holds(&rt, "mimetool_stored_test/part-1", "Subject: s\n\nhi\n")?;
    gives(
        &rt,
        &["unpack", "--prefix", "-C", folder],
        CUT,
        b"x.part (image/gif)\n",
        b"1: BadBase64\n",
        Status::Refused,
    )?;
    holds(&rt, "mimetool_stored_test/x.part", "hii")?;
    prints(
        &rt,
        &["unpack", "--content-id", "-C", folder],
        WITH_ID,
        b"a_b (image/gif)\n",
    )?;
    holds(&rt, "mimetool_stored_test/a_b", "1")?;
    fs::remove_dir_all(&rt, folder)?;
    Ok(())
}

#[test]
fn several_sections_are_extracted(rt: HostRuntime) -> Result<(), Fail> {
    let words = ["extract", "-s", "1.1", "-s", "1"];
    prints(&rt, &words, FORWARDED, b"hi\nSubject: s\n\nhi\n")?;
    let words = ["extract", "-s", "1", "-s", "1.3", "-s", "1.1"];
    gives(
        &rt,
        &words,
        FORWARDED,
        b"Subject: s\n\nhi\nhi\n",
        b"1.3: NoSuchSection\n",
        Status::Refused,
    )
}

#[test]
fn numbers_go_on(rt: HostRuntime) -> Result<(), Fail> {
    let folder = "mimetool_counted_test";
    let _ = fs::remove_dir_all(&rt, folder);
    fs::create_dir_all(&rt, folder)?;
    fs::write(&rt, "mimetool_counted_test/x", "")?;
    for number in 1..100u32 {
        let path = format!(in rt.alloc(); "{folder}/x.{number}")?;
        fs::write(&rt, path.as_str(), "")?;
    }
    let words = ["unpack", "--number", "-C", folder];
    prints(&rt, &words, WITH_ID, b"x.100 (image/gif)\n")?;
    let words = ["unpack", "--number", "--each", "-C", folder];
    let mailbox =
        b"From a\nContent-Type: x/y; name=x\n\n1\n\nFrom b\nContent-Type: x/y; name=x\n\n2\n";
    prints(&rt, &words, mailbox, b"1 x.101 (x/y)\n2 x.102 (x/y)\n")?;
    holds(&rt, "mimetool_counted_test/x.102", "2\n")?;
    let words = ["unpack", "-C", folder];
    gives(&rt, &words, WITH_ID, b"", b"x: exists\n", Status::Refused)?;
    fs::remove_dir_all(&rt, folder)?;
    Ok(())
}
