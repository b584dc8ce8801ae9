//! What is said of a script before it is run.

use super::{gives, obeyed, same};
use mk_run::Status;
use std::fs;
use std::test::Fail;

/// A multipart of one part, which parts are appended to.
const MULTIPART: &[u8] = b"Content-Type: multipart/mixed; boundary=b\n\n--b\n\none\n--b--\n";

#[test]
fn pieces_without_an_empty_line_are_told(rt: HostRuntime) -> Result<(), Fail> {
    let folder = "mimetool_appended_test";
    let fields = "mimetool_appended_test/fields";
    let part = "mimetool_appended_test/part";
    let _ = fs::remove_dir_all(&rt, folder);
    fs::create_dir_all(&rt, folder)?;
    fs::write(&rt, fields, "Note: two\n")?;
    fs::write(&rt, part, "A: 1\n\ntwo\n")?;
    let told =
        b"script: line 1: piece 1 has no empty line, so its lines are read as fields; append-text takes them as text\n";
    let found = obeyed(&rt, &["edit", "-e", "append 1 1", fields], MULTIPART)?;
    let output =
        b"Content-Type: multipart/mixed; boundary=b\n\n--b\n\none\n--b\nNote: two\n--b--\n";
    same(&rt, &found, output, told, Status::Well);
    let words = ["edit", "--all", "-e", "append 1 1", fields];
    gives(&rt, &words, MULTIPART, output, told, Status::Well)?;
    let found = obeyed(&rt, &["edit", "-e", "append-text 1 1", fields], MULTIPART)?;
    let output =
        b"Content-Type: multipart/mixed; boundary=b\n\n--b\n\none\n--b\n\nNote: two\n\n--b--\n";
    same(&rt, &found, output, b"", Status::Well);
    let found = obeyed(&rt, &["edit", "-e", "append 1 1", part], MULTIPART)?;
    let output =
        b"Content-Type: multipart/mixed; boundary=b\n\n--b\n\none\n--b\nA: 1\n\ntwo\n--b--\n";
    same(&rt, &found, output, b"", Status::Well);
    fs::remove_dir_all(&rt, folder)?;
    Ok(())
}
