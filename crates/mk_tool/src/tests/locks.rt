//! Locks: one run at a time has the file of `--in-place` and the journal.

use super::{check_entries, holds, obeyed, prints, same};
use mk_run::Status;
use std::fs;
use std::fs::{File, Permissions};
use std::os::unix::fs::{PermissionsExt, symlink};
use std::rt::Files;
use std::test::Fail;

const MESSAGE: &str = "A: b\n\nx\n";

const EDITED: &str = "A: b\nC: d\n\nx\n";

/// Puts a message into a folder of its own.
fn prepare<R: Files + AllocGlobal>(rt: &R, folder: &str, file: &str) -> Result<(), Fail> {
    let _ = fs::remove_dir_all(rt, folder);
    fs::create_dir_all(rt, folder)?;
    fs::write(rt, file, MESSAGE)?;
    Ok(())
}

#[test]
fn a_run_that_has_the_lock_excludes_others(rt: HostRuntime) -> Result<(), Fail> {
    let folder = "mimetool_lock_test";
    let file = "mimetool_lock_test/file";
    prepare(&rt, folder, file)?;
    let lock = File::create(&rt, "mimetool_lock_test/.file.mimetool.lock")?;
    lock.lock()?;
    for words in [
        ["field", "-A", "C: d", "--in-place", file].as_slice(),
        &["field", "-A", "C: d", "--in-place", file, "--wait=0"],
        &["edit", "-e", "undo", "--in-place", file],
        &["undo", "-j", "/dev/null", "--in-place", file],
    ] {
        let found = obeyed(&rt, words, b"")?;
        let errors =
            b"mimetool: mimetool_lock_test/file: another run is using it (--wait waits for it)\nmimetool: read fault\n";
        same(&rt, &found, b"", errors, Status::Fault);
        assert_eq!(rt; found.code, 3);
    }
    let words = [
        "field",
        "-A",
        "C: d",
        "--in-place",
        file,
        "--wait=1",
        "--tempfail",
    ];
    let found = obeyed(&rt, &words, b"")?;
    let errors =
        b"mimetool: mimetool_lock_test/file: another run is still using it\nmimetool: read fault\n";
    same(&rt, &found, b"", errors, Status::Fault);
    assert_eq!(rt; found.code, 75);
    holds(&rt, file, MESSAGE)?;
    lock.unlock()?;
    let words = ["field", "-A", "C: d", "--in-place", file, "--wait"];
    same(&rt, &obeyed(&rt, &words, b"")?, b"", b"", Status::Well);
    holds(&rt, file, EDITED)?;
    check_entries(&rt, folder, 1)?;
    fs::remove_dir_all(&rt, folder)?;
    Ok(())
}

#[test]
fn a_new_journal_has_a_lock_too(rt: HostRuntime) -> Result<(), Fail> {
    let folder = "mimetool_new_journal_test";
    let journal = "mimetool_new_journal_test/journal";
    let message = "mimetool_new_journal_test/file";
    prepare(&rt, folder, message)?;
    let lock = File::create(&rt, "mimetool_new_journal_test/.journal.mimetool.lock")?;
    lock.lock()?;
    for words in [
        ["edit", "-e", "add 1 C: d", "-j", journal].as_slice(),
        &["redo", "-j", journal],
        &["undo", "-j", journal, "--in-place", message],
    ] {
        let found = obeyed(&rt, words, MESSAGE.as_bytes())?;
        let errors =
            b"mimetool: mimetool_new_journal_test/journal: another run is using it (--wait waits for it)\nmimetool: read fault\n";
        same(&rt, &found, b"", errors, Status::Fault);
    }
    check_entries(&rt, folder, 2)?;
    lock.unlock()?;
    let words = ["edit", "-e", "add 1 C: d", "-j", journal, "--wait"];
    prints(&rt, &words, MESSAGE.as_bytes(), EDITED.as_bytes())?;
    check_entries(&rt, folder, 2)?;
    fs::remove_dir_all(&rt, folder)?;
    Ok(())
}

#[test]
fn locks_of_other_programs_on_the_file_dont_count(rt: HostRuntime) -> Result<(), Fail> {
    let folder = "mimetool_other_lock_test";
    let file = "mimetool_other_lock_test/file";
    prepare(&rt, folder, file)?;
    let other = File::open(&rt, file)?;
    other.lock()?;
    let words = ["field", "-A", "C: d", "--in-place", file];
    same(&rt, &obeyed(&rt, &words, b"")?, b"", b"", Status::Well);
    holds(&rt, file, EDITED)?;
    other.unlock()?;
    check_entries(&rt, folder, 1)?;
    fs::remove_dir_all(&rt, folder)?;
    Ok(())
}

#[test]
fn a_lock_that_a_killed_run_left_is_taken(rt: HostRuntime) -> Result<(), Fail> {
    let folder = "mimetool_left_lock_test";
    let file = "mimetool_left_lock_test/file";
    let lock = "mimetool_left_lock_test/.file.mimetool.lock";
    for mode in [0o644, 0o400] {
        prepare(&rt, folder, file)?;
        fs::write(&rt, lock, "")?;
        fs::set_permissions(&rt, lock, Permissions::from_mode(mode))?;
        let words = ["field", "-A", "C: d", "--in-place", file];
        same(&rt, &obeyed(&rt, &words, b"")?, b"", b"", Status::Well);
        holds(&rt, file, EDITED)?;
        check_entries(&rt, folder, 1)?;
    }
    fs::remove_dir_all(&rt, folder)?;
    Ok(())
}

#[test]
fn what_has_the_name_of_a_lock_and_isnt_one_stays(rt: HostRuntime) -> Result<(), Fail> {
    let folder = "mimetool_no_lock_test";
    let file = "mimetool_no_lock_test/file";
    let lock = "mimetool_no_lock_test/.file.mimetool.lock";
    for is_link in [false, true] {
        prepare(&rt, folder, file)?;
        if is_link {
            symlink(&rt, "file", lock)?;
        } else {
            fs::write(&rt, lock, "x")?;
        }
        // What changes nothing needs no lock.
        let words = ["field", "-u", "A:", "--in-place", file];
        same(&rt, &obeyed(&rt, &words, b"")?, b"", b"", Status::Well);
        let words = ["field", "-A", "C: d", "--in-place", file];
        let errors =
            b"mimetool: mimetool_no_lock_test/file: another file has the name of its lock\nmimetool: write fault\n";
        same(&rt, &obeyed(&rt, &words, b"")?, b"", errors, Status::Fault);
        holds(&rt, file, MESSAGE)?;
        check_entries(&rt, folder, 2)?;
    }
    fs::remove_dir_all(&rt, folder)?;
    Ok(())
}

/// Two names of 255 bytes, which differ in the last.
const LONG_NAME: &str =
    "mimetool_long_lock_test/nnnnnnnnnnnnnnnnnnnnnnnnnnnnnnnnnnnnnnnnnnnnnnnnnnnnnnnnnnnnnnnnnnnnnnnnnnnnnnnnnnnnnnnnnnnnnnnnnnnnnnnnnnnnnnnnnnnnnnnnnnnnnnnnnnnnnnnnnnnnnnnnnnnnnnnnnnnnnnnnnnnnnnnnnnnnnnnnnnnnnnnnnnnnnnnnnnnnnnnnnnnnnnnnnnnnnnnnnnnnnnnnnnnnnnnnnnnnnnnnnnnnnnnnnnnnnnn";

const OTHER_LONG_NAME: &str =
    "mimetool_long_lock_test/nnnnnnnnnnnnnnnnnnnnnnnnnnnnnnnnnnnnnnnnnnnnnnnnnnnnnnnnnnnnnnnnnnnnnnnnnnnnnnnnnnnnnnnnnnnnnnnnnnnnnnnnnnnnnnnnnnnnnnnnnnnnnnnnnnnnnnnnnnnnnnnnnnnnnnnnnnnnnnnnnnnnnnnnnnnnnnnnnnnnnnnnnnnnnnnnnnnnnnnnnnnnnnnnnnnnnnnnnnnnnnnnnnnnnnnnnnnnnnnnnnnnnnnnnnnnnnj";

/// The hidden file of the first: its name is the SHA-256 of the 255 bytes, by sha256sum(1).
const LONG_LOCK: &str =
    "mimetool_long_lock_test/.3bb555e4ed3e8c6e1818a52c8917ddaa25e9333eeb43a22a9890047c3ded92cc.mimetool.lock";

#[test]
fn files_with_long_names_have_locks_of_their_own(rt: HostRuntime) -> Result<(), Fail> {
    let folder = "mimetool_long_lock_test";
    prepare(&rt, folder, LONG_NAME)?;
    let words = [
        "edit",
        "-e",
        "add 1 C: d",
        "--in-place",
        LONG_NAME,
        "-j",
        OTHER_LONG_NAME,
    ];
    same(&rt, &obeyed(&rt, &words, b"")?, b"", b"", Status::Well);
    holds(&rt, LONG_NAME, EDITED)?;
    check_entries(&rt, folder, 2)?;
    let lock = File::create(&rt, LONG_LOCK)?;
    lock.lock()?;
    let found = obeyed(&rt, &["field", "-I", "C:", "--in-place", LONG_NAME], b"")?;
    assert_eq!(rt; found.status, Status::Fault);
    holds(&rt, LONG_NAME, EDITED)?;
    lock.unlock()?;
    fs::remove_dir_all(&rt, folder)?;
    Ok(())
}

#[test]
fn a_file_cant_be_its_own_journal(rt: HostRuntime) -> Result<(), Fail> {
    let folder = "mimetool_own_journal_test";
    let file = "mimetool_own_journal_test/file";
    let link = "mimetool_own_journal_test/link";
    prepare(&rt, folder, file)?;
    symlink(&rt, "file", link)?;
    for wait in ["--wait=0", "--wait"] {
        let words = ["undo", wait, "-j", link, "--in-place", file];
        let errors =
            b"mimetool: mimetool_own_journal_test/link: the file of --in-place can't also be its journal\nmimetool: read fault\n";
        same(&rt, &obeyed(&rt, &words, b"")?, b"", errors, Status::Fault);
    }
    holds(&rt, file, MESSAGE)?;
    check_entries(&rt, folder, 2)?;
    fs::remove_dir_all(&rt, folder)?;
    Ok(())
}
