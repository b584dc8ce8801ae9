//! Journals in files of the system: what one run keeps, later ones take back and make again.

use super::{check_entries, gives, holds, prints};
use mk_run::Status;
use std::fs;
use std::fs::Permissions;
use std::os::unix::fs::{PermissionsExt, symlink};
use std::rt::Files;
use std::test::Fail;

const MESSAGE: &[u8] = b"A: b\n\nx\n";

const EDITED: &[u8] = b"A: b\nC: d\n\nx\n";

const DONE: &str =
    "mimejournal 2\nffa85b235308dbbe11aaddd971ba5b28529a258c87c62ecc8efbcf789b5128ef\n1 0\n1\n5 0 5\nC: d\n\n";

const UNDONE: &str =
    "mimejournal 2\nc951ce7b67bdf1fc725f0b506422637c56104e24cd5177b0230f679e11b0dc84\n0 1\n1\n5 0 5\nC: d\n\n";

const NOTHING: &str =
    "mimejournal 2\nc951ce7b67bdf1fc725f0b506422637c56104e24cd5177b0230f679e11b0dc84\n0 0\n";

/// Makes a folder with nothing in it but a script that adds a field.
fn prepare<R: Files + AllocGlobal>(rt: &R, folder: &str, script: &str) -> Result<(), Fail> {
    let _ = fs::remove_dir_all(rt, folder);
    fs::create_dir_all(rt, folder)?;
    fs::write(rt, script, "add 1 C: d\n")?;
    Ok(())
}

#[test]
fn later_runs_take_back_and_make_again(rt: HostRuntime) -> Result<(), Fail> {
    let folder = "mimetool_journal_test";
    let script = "mimetool_journal_test/script";
    let journal = "mimetool_journal_test/journal";
    prepare(&rt, folder, script)?;
    prints(&rt, &["edit", "-j", journal, script], MESSAGE, EDITED)?;
    holds(&rt, journal, DONE)?;
    prints(&rt, &["undo", "-j", journal], EDITED, MESSAGE)?;
    holds(&rt, journal, UNDONE)?;
    prints(&rt, &["redo", "-j", journal], MESSAGE, EDITED)?;
    holds(&rt, journal, DONE)?;
    check_entries(&rt, folder, 2)?;
    fs::remove_dir_all(&rt, folder)?;
    Ok(())
}

#[test]
fn nothing_is_undone_without_a_journal(rt: HostRuntime) -> Result<(), Fail> {
    let folder = "mimetool_no_journal_test";
    let script = "mimetool_no_journal_test/script";
    let journal = "mimetool_no_journal_test/journal";
    prepare(&rt, folder, script)?;
    gives(
        &rt,
        &["undo", "-j", journal],
        MESSAGE,
        MESSAGE,
        b"line 1: NothingToUndo\n",
        Status::Refused,
    )?;
    holds(&rt, journal, NOTHING)?;
    gives(
        &rt,
        &["redo", "-j", journal],
        MESSAGE,
        MESSAGE,
        b"line 1: NothingToRedo\n",
        Status::Refused,
    )?;
    holds(&rt, journal, NOTHING)?;
    fs::remove_dir_all(&rt, folder)?;
    Ok(())
}

#[test]
fn refused_journals_stay(rt: HostRuntime) -> Result<(), Fail> {
    let folder = "mimetool_refused_test";
    let script = "mimetool_refused_test/script";
    let journal = "mimetool_refused_test/journal";
    prepare(&rt, folder, script)?;
    for (text, errors) in [
        ("", b"journal: JournalSyntax 0\n".as_slice()),
        (DONE, b"journal: JournalOther\n"),
        (
            "mimejournal 1\n1 0\n0 0 1\nB\n",
            b"journal: JournalMismatch 1\n",
        ),
    ] {
        fs::write(&rt, journal, text)?;
        gives(
            &rt,
            &["edit", "-j", journal, script],
            MESSAGE,
            b"",
            errors,
            Status::Refused,
        )?;
        holds(&rt, journal, text)?;
    }
    check_entries(&rt, folder, 2)?;
    fs::remove_dir_all(&rt, folder)?;
    Ok(())
}

#[test]
fn faults_leave_the_journal(rt: HostRuntime) -> Result<(), Fail> {
    let folder = "mimetool_journal_faults_test";
    let script = "mimetool_journal_faults_test/script";
    let journal = "mimetool_journal_faults_test/journal";
    let nowhere = "mimetool_journal_faults_test/none/journal";
    prepare(&rt, folder, script)?;
    gives(
        &rt,
        &["edit", "-j", nowhere, script],
        MESSAGE,
        EDITED,
        b"mimetool: mimetool_journal_faults_test/none/journal: No such file or directory (os error 2)\nmimetool: write fault\n",
        Status::Fault,
    )?;
    gives(
        &rt,
        &["edit", "-j", folder, script],
        MESSAGE,
        b"",
        b"mimetool: mimetool_journal_faults_test: is a directory\nmimetool: read fault\n",
        Status::Fault,
    )?;
    fs::write(&rt, script, "add\n")?;
    gives(
        &rt,
        &["edit", "-j", journal, script],
        MESSAGE,
        b"",
        b"script: line 1: syntax\n",
        Status::Usage,
    )?;
    check_entries(&rt, folder, 1)?;
    fs::remove_dir_all(&rt, folder)?;
    Ok(())
}

#[test]
fn links_and_permissions_stay(rt: HostRuntime) -> Result<(), Fail> {
    let folder = "mimetool_links_test";
    let script = "mimetool_links_test/script";
    let journal = "mimetool_links_test/journal";
    let link = "mimetool_links_test/link";
    prepare(&rt, folder, script)?;
    symlink(&rt, "journal", link)?;
    prints(&rt, &["edit", "-j", link, script], MESSAGE, EDITED)?;
    holds(&rt, journal, DONE)?;
    fs::set_permissions(&rt, journal, Permissions::from_mode(0o600))?;
    prints(&rt, &["undo", "-j", link], EDITED, MESSAGE)?;
    holds(&rt, journal, UNDONE)?;
    assert_eq!(rt;
        fs::metadata(&rt, journal)?.permissions().mode() & 0o777,
        0o600
    );
    assert!(rt; fs::symlink_metadata(&rt, link)?.is_symlink());
    check_entries(&rt, folder, 3)?;
    fs::remove_dir_all(&rt, folder)?;
    Ok(())
}
