//! Messages in files that are edited in place: the result takes the place of the file, and nothing else is left.

use super::{check_entries, gives, holds, obeyed, prints, same};
use mk_run::Status;
use std::fs;
use std::fs::Permissions;
use std::os::unix::fs::{MetadataExt, PermissionsExt, symlink};
use std::rt::Files;
use std::test::Fail;

const MESSAGE: &str = "A: b\nC: d\n\nx\n";

/// Puts a message into a folder of its own.
fn prepare<R: Files + AllocGlobal>(rt: &R, folder: &str, file: &str) -> Result<(), Fail> {
    let _ = fs::remove_dir_all(rt, folder);
    fs::create_dir_all(rt, folder)?;
    fs::write(rt, file, MESSAGE)?;
    Ok(())
}

/// What is done to the message, and what it holds then.
const RESULTS: [(&[&str], &str); 7] = [
    (&["edit", "-e", "add 1 E: f"], "A: b\nC: d\nE: f\n\nx\n"),
    (&["edit", "-e", "del 1 A 1"], "C: d\n\nx\n"),
    (&["edit", "-e", "set 1 C 1 C: e"], "A: b\nC: e\n\nx\n"),
    (&["field", "-I", "A:"], "C: d\n\nx\n"),
    (&["field", "-s", "-A", "E: f"], "A: b\nC: d\nE: f\n\nx\n"),
    (&["field", "--rename", "C:D"], "A: b\nD: d\n\nx\n"),
    (
        &["edit", "-e", "undo", "-j", "mimetool_place_test/j"],
        MESSAGE,
    ),
];

#[test]
fn the_result_takes_the_place_of_the_file(rt: HostRuntime) -> Result<(), Fail> {
    let folder = "mimetool_place_test";
    let file = "mimetool_place_test/file";
    for (words, left) in RESULTS {
        prepare(&rt, folder, file)?;
        let mut list = Vec::new(rt.alloc());
        list.extend_from_slice(words)?;
        list.extend_from_slice(&["--in-place", file])?;
        let found = obeyed(&rt, &list, b"not read")?;
        assert_eq!(rt; found.output.bytes(), b"".as_slice(), "{words:?}");
        assert_eq!(rt; fs::read_to_string(&rt, file)?.as_str(), left, "{words:?}");
    }
    fs::remove_dir_all(&rt, folder)?;
    Ok(())
}

#[test]
fn pieces_make_it_shorter_longer_and_empty(rt: HostRuntime) -> Result<(), Fail> {
    let folder = "mimetool_sizes_test";
    let file = "mimetool_sizes_test/file";
    let piece = "mimetool_sizes_test/piece";
    for left in ["", "A: b\n", "A: b\nC: d\n\nx\nand more\n", "B"] {
        prepare(&rt, folder, file)?;
        fs::write(&rt, piece, left)?;
        let words = ["edit", "-e", "replace 1 1", "--in-place", file, piece];
        prints(&rt, &words, b"", b"")?;
        holds(&rt, file, left)?;
        check_entries(&rt, folder, 2)?;
    }
    fs::remove_dir_all(&rt, folder)?;
    Ok(())
}

#[test]
fn what_changes_nothing_touches_nothing(rt: HostRuntime) -> Result<(), Fail> {
    let folder = "mimetool_same_test";
    let file = "mimetool_same_test/file";
    prepare(&rt, folder, file)?;
    let before = fs::metadata(&rt, file)?;
    prints(&rt, &["field", "-u", "A:", "--in-place", file], b"", b"")?;
    gives(
        &rt,
        &["edit", "-e", "del 1 Z 1", "--in-place", file],
        b"",
        b"",
        b"line 1: NoSuchField\n",
        Status::Refused,
    )?;
    let found = obeyed(&rt, &["edit", "-e", "add", "--in-place", file], b"")?;
    let errors = b"script: line 1: too few arguments\nscript: line 1: syntax\n";
    same(&rt, &found, b"", errors, Status::Usage);
    let after = fs::metadata(&rt, file)?;
    assert_eq!(rt; after.ino(), before.ino());
    assert_eq!(rt;
        (after.mtime(), after.mtime_nsec()),
        (before.mtime(), before.mtime_nsec())
    );
    holds(&rt, file, MESSAGE)?;
    check_entries(&rt, folder, 1)?;
    fs::remove_dir_all(&rt, folder)?;
    Ok(())
}

#[test]
fn refused_lines_leave_the_others_in_force(rt: HostRuntime) -> Result<(), Fail> {
    let folder = "mimetool_others_test";
    let file = "mimetool_others_test/file";
    prepare(&rt, folder, file)?;
    let words = [
        "edit",
        "-e",
        "del 1 Z 1",
        "-e",
        "del 1 A 1",
        "--in-place",
        file,
    ];
    gives(
        &rt,
        &words,
        b"",
        b"",
        b"line 1: NoSuchField\n",
        Status::Refused,
    )?;
    holds(&rt, file, "C: d\n\nx\n")?;
    fs::remove_dir_all(&rt, folder)?;
    Ok(())
}

#[test]
fn a_later_run_takes_it_back(rt: HostRuntime) -> Result<(), Fail> {
    let folder = "mimetool_place_undo_test";
    let file = "mimetool_place_undo_test/file";
    let journal = "mimetool_place_undo_test/journal";
    prepare(&rt, folder, file)?;
    let words = ["edit", "-e", "del 1 A 1", "-j", journal, "--in-place", file];
    prints(&rt, &words, b"", b"")?;
    holds(&rt, file, "C: d\n\nx\n")?;
    prints(&rt, &["undo", "-j", journal, "--in-place", file], b"", b"")?;
    holds(&rt, file, MESSAGE)?;
    prints(&rt, &["redo", "-j", journal, "--in-place", file], b"", b"")?;
    holds(&rt, file, "C: d\n\nx\n")?;
    fs::write(&rt, file, MESSAGE)?;
    gives(
        &rt,
        &["undo", "-j", journal, "--in-place", file],
        b"",
        b"",
        b"journal: JournalOther\n",
        Status::Refused,
    )?;
    holds(&rt, file, MESSAGE)?;
    check_entries(&rt, folder, 2)?;
    fs::remove_dir_all(&rt, folder)?;
    Ok(())
}

#[test]
fn a_journal_that_fails_leaves_the_file(rt: HostRuntime) -> Result<(), Fail> {
    let folder = "mimetool_place_fault_test";
    let file = "mimetool_place_fault_test/file";
    let nowhere = "mimetool_place_fault_test/none/journal";
    prepare(&rt, folder, file)?;
    let words = ["edit", "-e", "del 1 A 1", "-j", nowhere, "--in-place", file];
    gives(
        &rt,
        &words,
        b"",
        b"",
        b"mimetool: mimetool_place_fault_test/none/journal: No such file or directory (os error 2)\nmimetool: write fault\n",
        Status::Fault,
    )?;
    holds(&rt, file, MESSAGE)?;
    check_entries(&rt, folder, 1)?;
    fs::remove_dir_all(&rt, folder)?;
    Ok(())
}

#[test]
fn links_lead_to_it_and_permissions_stay(rt: HostRuntime) -> Result<(), Fail> {
    let folder = "mimetool_place_links_test";
    let file = "mimetool_place_links_test/file";
    let link = "mimetool_place_links_test/link";
    prepare(&rt, folder, file)?;
    symlink(&rt, "file", link)?;
    fs::set_permissions(&rt, file, Permissions::from_mode(0o600))?;
    prints(&rt, &["field", "-I", "A:", "--in-place", link], b"", b"")?;
    holds(&rt, file, "C: d\n\nx\n")?;
    assert_eq!(rt;
        fs::metadata(&rt, file)?.permissions().mode() & 0o777,
        0o600
    );
    assert!(rt; fs::symlink_metadata(&rt, link)?.is_symlink());
    check_entries(&rt, folder, 2)?;
    fs::remove_dir_all(&rt, folder)?;
    Ok(())
}

#[test]
fn what_cant_be_edited_in_place_is_named(rt: HostRuntime) -> Result<(), Fail> {
    let folder = "mimetool_place_named_test";
    let file = "mimetool_place_named_test/file";
    prepare(&rt, folder, file)?;
    gives(
        &rt,
        &["field", "--in-place", folder],
        b"",
        b"",
        b"mimetool: mimetool_place_named_test: is a directory\nmimetool: read fault\n",
        Status::Fault,
    )?;
    gives(
        &rt,
        &["field", "--in-place", "/dev/null"],
        b"",
        b"",
        b"mimetool: /dev/null: not a regular file\nmimetool: read fault\n",
        Status::Fault,
    )?;
    holds(&rt, file, MESSAGE)?;
    check_entries(&rt, folder, 1)?;
    fs::remove_dir_all(&rt, folder)?;
    Ok(())
}
