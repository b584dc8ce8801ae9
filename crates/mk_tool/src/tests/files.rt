//! Commands that read and write files of the system. Each test has a folder of its own.

use super::{gives, holds, obeyed, prints, same};
use mk_run::Status;
use std::fs;
use std::test::Fail;

const MESSAGE: &[u8] = b"A: b\n\nx\n";

/// A leaf with a name, and a text without.
const TWO: &[u8] =
    b"Content-Type: multipart/mixed; boundary=b\n\n--b\nContent-Type: text/plain; name=n.txt\n\none\n--b\n\ntwo\n--b--\n";

/// The same with another text in the first.
const OTHER: &[u8] =
    b"Content-Type: multipart/mixed; boundary=b\n\n--b\nContent-Type: text/plain; name=n.txt\n\nthree\n--b\n\ntwo\n--b--\n";

/// A leaf with a name, of which the content isn't what its encoding says.
const BAD: &[u8] =
    b"Content-Type: text/plain; name=n.txt\nContent-Transfer-Encoding: base64\n\naGl=\n";

const NONE_ERRORS: &[u8] =
    b"mimetool: mimetool_named_test/none: No such file or directory (os error 2)\nmimetool: read fault\n";

const FOLDER_ERRORS: &[u8] =
    b"mimetool: mimetool_named_test: is a directory\nmimetool: read fault\n";

#[test]
fn scripts_and_pieces_are_files(rt: HostRuntime) -> Result<(), Fail> {
    let folder = "mimetool_scripts_test";
    let script = "mimetool_scripts_test/script";
    let piece = "mimetool_scripts_test/piece";
    let _ = fs::remove_dir_all(&rt, folder);
    fs::create_dir_all(&rt, folder)?;
    fs::write(&rt, script, "add 1 C: d\n")?;
    prints(&rt, &["edit", script], MESSAGE, b"A: b\nC: d\n\nx\n")?;
    fs::write(&rt, script, "body 1 1\ndel 1 Z 1\n")?;
    fs::write(&rt, piece, "hi\n")?;
    gives(
        &rt,
        &["edit", script, piece],
        MESSAGE,
        b"A: b\n\nhi\n",
        b"line 2: NoSuchField\n",
        Status::Refused,
    )?;
    gives(
        &rt,
        &["edit", script],
        MESSAGE,
        b"",
        b"script: line 1: syntax\n",
        Status::Usage,
    )?;
    fs::remove_dir_all(&rt, folder)?;
    Ok(())
}

/// Command lines that name a file that isn't there.
const MISSING: [&[&str]; 9] = [
    &["edit", "mimetool_named_test/none"],
    &[
        "edit",
        "mimetool_named_test/script",
        "mimetool_named_test/none",
    ],
    &["edit", "-e", "undo", "mimetool_named_test/none"],
    &["pack", "-b", "b", "text/plain:mimetool_named_test/none"],
    &["sections", "--from", "mimetool_named_test/none"],
    &["extract", "-s", "1", "--from", "mimetool_named_test/none"],
    &["unpack", "--from", "mimetool_named_test/none"],
    &["field", "--from", "mimetool_named_test/none"],
    &[
        "undo",
        "-j",
        "mimetool_named_test/journal",
        "--from",
        "mimetool_named_test/none",
    ],
];

/// Command lines that name a folder where a file should be.
const FOLDERS: [&[&str]; 2] = [
    &["edit", "mimetool_named_test"],
    &["sections", "--from", "mimetool_named_test"],
];

#[test]
fn files_that_can_t_be_read_are_named(rt: HostRuntime) -> Result<(), Fail> {
    let folder = "mimetool_named_test";
    let _ = fs::remove_dir_all(&rt, folder);
    fs::create_dir_all(&rt, folder)?;
    fs::write(&rt, "mimetool_named_test/script", "add 1 C: d\n")?;
    for words in MISSING {
        gives(&rt, words, MESSAGE, b"", NONE_ERRORS, Status::Fault)?;
    }
    for words in FOLDERS {
        gives(&rt, words, MESSAGE, b"", FOLDER_ERRORS, Status::Fault)?;
    }
    fs::remove_dir_all(&rt, folder)?;
    Ok(())
}

#[test]
fn lines_stand_in_place_of_a_script(rt: HostRuntime) -> Result<(), Fail> {
    let folder = "mimetool_lines_test";
    let piece = "mimetool_lines_test/piece";
    let _ = fs::remove_dir_all(&rt, folder);
    fs::create_dir_all(&rt, folder)?;
    fs::write(&rt, piece, "hi\n")?;
    let words = [
        "edit",
        "-e",
        "add 1 C: d",
        "-e",
        "del 1 Z 1",
        "-e",
        "body 1 1",
        piece,
    ];
    gives(
        &rt,
        &words,
        MESSAGE,
        b"A: b\nC: d\n\nhi\n",
        b"line 2: NoSuchField\n",
        Status::Refused,
    )?;
    let words = ["edit", piece, "-e", "body 1 2", piece];
    prints(&rt, &words, MESSAGE, b"A: b\n\nhi\n")?;
    let found = obeyed(&rt, &["edit", "-e", "body 1 1"], MESSAGE)?;
    let errors = b"script: line 1: no such piece\nscript: line 1: syntax\n";
    same(&rt, &found, b"", errors, Status::Usage);
    fs::remove_dir_all(&rt, folder)?;
    Ok(())
}

#[test]
fn messages_come_from_files(rt: HostRuntime) -> Result<(), Fail> {
    let folder = "mimetool_from_test";
    let message = "mimetool_from_test/message";
    let _ = fs::remove_dir_all(&rt, folder);
    fs::create_dir_all(&rt, folder)?;
    fs::write(&rt, message, "B: c\n\ny\n")?;
    let listing = b"1 leaf text/plain identity 0 6 8 1 1\n".as_slice();
    for (words, output) in [
        (
            ["edit", "-e", "add 1 C: d", "--from", message].as_slice(),
            b"B: c\nC: d\n\ny\n".as_slice(),
        ),
        (&["field", "-x", "B:", "--from", message], b" c\n"),
        (&["sections", "--from", message], listing),
        (&["extract", "--from", message, "-s", "1"], b"y\n"),
    ] {
        prints(&rt, words, MESSAGE, output)?;
    }
    fs::remove_dir_all(&rt, folder)?;
    Ok(())
}

#[test]
fn parts_are_files(rt: HostRuntime) -> Result<(), Fail> {
    let folder = "mimetool_parts_test";
    let file = "mimetool_parts_test/n.txt";
    let word = "text/plain:mimetool_parts_test/n.txt";
    let _ = fs::remove_dir_all(&rt, folder);
    fs::create_dir_all(&rt, folder)?;
    fs::write(&rt, file, "hi\n")?;
    prints(
        &rt,
        &["pack", "-b", "b", word],
        b"Subject: s\n",
        b"Subject: s\nMIME-Version: 1.0\nContent-Type: multipart/mixed; boundary=\"b\"\n\n--b\nContent-Type: text/plain; name=\"n.txt\"\nContent-Disposition: attachment; filename=\"n.txt\"\nContent-Transfer-Encoding: quoted-printable\n\nhi\n\n--b--\n",
    )?;
    prints(
        &rt,
        &["pack", word],
        b"Subject: s\n",
        b"Subject: s\nMIME-Version: 1.0\nContent-Type: multipart/mixed; boundary=\"=_3668bd9a2f2793ff84874466\"\n\n--=_3668bd9a2f2793ff84874466\nContent-Type: text/plain; name=\"n.txt\"\nContent-Disposition: attachment; filename=\"n.txt\"\nContent-Transfer-Encoding: quoted-printable\n\nhi\n\n--=_3668bd9a2f2793ff84874466--\n",
    )?;
    prints(
        &rt,
        &["pack", "--part", word],
        b"Subject: s\n\nx\n",
        b"Content-Type: text/plain; name=\"n.txt\"\nContent-Disposition: attachment; filename=\"n.txt\"\nContent-Transfer-Encoding: quoted-printable\n\nhi\n",
    )?;
    gives(
        &rt,
        &["pack", "-b", "b", word],
        b"Subject: s\n\nx\n",
        b"",
        b"pack: BadField 1\n",
        Status::Refused,
    )?;
    gives(
        &rt,
        &["pack", "-b", "b ", word],
        b"",
        b"",
        b"pack: BadBoundary\n",
        Status::Refused,
    )?;
    fs::remove_dir_all(&rt, folder)?;
    Ok(())
}

#[test]
fn each_option_of_unpack_does_its_own(rt: HostRuntime) -> Result<(), Fail> {
    let folder = "mimetool_options_test";
    let named = "mimetool_options_test/n.txt";
    let second = "mimetool_options_test/n.txt.1";
    let unnamed = "mimetool_options_test/part-1.2";
    let words = ["unpack", "-C", folder];
    let _ = fs::remove_dir_all(&rt, folder);
    prints(&rt, &words, TWO, b"n.txt (text/plain)\n")?;
    holds(&rt, named, "one")?;
    assert!(rt; !fs::exists(&rt, unnamed)?);
    prints(&rt, &words, OTHER, b"n.txt.1 (text/plain)\n")?;
    holds(&rt, named, "one")?;
    holds(&rt, second, "three")?;
    let over = ["unpack", "-f", "-C", folder];
    prints(&rt, &over, OTHER, b"n.txt (text/plain)\n")?;
    holds(&rt, named, "three")?;
    prints(
        &rt,
        &["unpack", "-t", "-f", "-C", folder],
        TWO,
        b"n.txt (text/plain)\npart-1.2 (text/plain)\n",
    )?;
    holds(&rt, unnamed, "two")?;
    prints(&rt, &["unpack", "--silent", "-f", "-C", folder], OTHER, b"")?;
    holds(&rt, named, "three")?;
    gives(&rt, &words, BAD, b"", b"1: BadBase64\n", Status::Refused)?;
    fs::remove_dir_all(&rt, folder)?;
    Ok(())
}

#[test]
fn sections_are_unpacked_alone(rt: HostRuntime) -> Result<(), Fail> {
    let folder = "mimetool_sections_test";
    let _ = fs::remove_dir_all(&rt, folder);
    let words = [
        "unpack", "-t", "-s", "1.2", "-s", "1.9", "--paths", "-C", folder,
    ];
    gives(
        &rt,
        &words,
        TWO,
        b"1.2 part-1.2 (text/plain)\n",
        b"1.9: NoSuchSection\n",
        Status::Refused,
    )?;
    assert!(rt; !fs::exists(&rt, "mimetool_sections_test/n.txt")?);
    let text = fs::read_to_string(&rt, "mimetool_sections_test/part-1.2")?;
    assert_eq!(rt; text.as_str(), "two");
    fs::remove_dir_all(&rt, folder)?;
    Ok(())
}

#[test]
fn names_are_kept_in_utf8(rt: HostRuntime) -> Result<(), Fail> {
    let folder = "mimetool_utf8_test";
    let message = b"Content-Disposition: inline; filename*=utf-8''d%2fcaf%C3%A9.txt\n\none";
    let _ = fs::remove_dir_all(&rt, folder);
    prints(
        &rt,
        &["unpack", "--utf8", "-C", folder],
        message,
        b"caf\xc3\xa9.txt (text/plain)\n",
    )?;
    let text = fs::read_to_string(&rt, "mimetool_utf8_test/caf\u{e9}.txt")?;
    assert_eq!(rt; text.as_str(), "one");
    prints(
        &rt,
        &["unpack", "-t", "-C", folder],
        message,
        b"part-1 (text/plain)\n",
    )?;
    fs::remove_dir_all(&rt, folder)?;
    Ok(())
}

#[test]
fn files_are_packed_under_names_in_utf8(rt: HostRuntime) -> Result<(), Fail> {
    let folder = "mimetool_packed_test";
    let file = "mimetool_packed_test/caf\u{e9}.txt";
    let word = "text/plain:mimetool_packed_test/caf\u{e9}.txt";
    let _ = fs::remove_dir_all(&rt, folder);
    fs::create_dir_all(&rt, folder)?;
    fs::write(&rt, file, "hi\n")?;
    prints(
        &rt,
        &["pack", "--utf8", "-b", "b", word],
        b"",
        b"MIME-Version: 1.0\nContent-Type: multipart/mixed; boundary=\"b\"\n\n--b\nContent-Type: text/plain; name=\"caf__.txt\"\nContent-Disposition: attachment; filename=\"caf__.txt\"; filename*=utf-8''caf%C3%A9.txt\nContent-Transfer-Encoding: quoted-printable\n\nhi\n\n--b--\n",
    )?;
    gives(
        &rt,
        &["pack", "-b", "b", word],
        b"",
        b"",
        b"pack: BadName 0\n",
        Status::Refused,
    )?;
    fs::remove_dir_all(&rt, folder)?;
    Ok(())
}

#[test]
fn texts_are_packed_to_be_shown(rt: HostRuntime) -> Result<(), Fail> {
    let folder = "mimetool_shown_test";
    let file = "mimetool_shown_test/n.html";
    let word = "text/html:mimetool_shown_test/n.html";
    let _ = fs::remove_dir_all(&rt, folder);
    fs::create_dir_all(&rt, folder)?;
    fs::write(&rt, file, "hi\n")?;
    let words: &[&str] = &[
        "pack",
        "-m",
        "related",
        "--inline",
        "--charset",
        "utf-8",
        "-b",
        "b",
        word,
    ];
    prints(
        &rt,
        words,
        b"",
        b"MIME-Version: 1.0\nContent-Type: multipart/related; boundary=\"b\"\n\n--b\nContent-Type: text/html; charset=utf-8\nContent-Transfer-Encoding: quoted-printable\n\nhi\n\n--b--\n",
    )?;
    let words: &[&str] = &["pack", "--inline", "--charset", "utf-8", "--part", word];
    prints(
        &rt,
        words,
        b"",
        b"Content-Type: text/html; charset=utf-8\nContent-Transfer-Encoding: quoted-printable\n\nhi\n",
    )?;
    gives(
        &rt,
        &["pack", "-m", "", "-b", "b", word],
        b"",
        b"",
        b"pack: BadSubtype\n",
        Status::Refused,
    )?;
    fs::remove_dir_all(&rt, folder)?;
    Ok(())
}

#[test]
fn files_go_to_the_working_folder(rt: HostRuntime) -> Result<(), Fail> {
    let name = "mimetool_working_test.txt";
    let message = b"Content-Type: text/plain; name=mimetool_working_test.txt\n\none\n";
    prints(
        &rt,
        &["unpack", "-f"],
        message,
        b"mimetool_working_test.txt (text/plain)\n",
    )?;
    holds(&rt, name, "one\n")?;
    fs::remove_file(&rt, name)?;
    Ok(())
}

#[test]
fn a_folder_that_can_t_be_made_is_a_write_fault(rt: HostRuntime) -> Result<(), Fail> {
    gives(
        &rt,
        &["unpack", "-C", ""],
        TWO,
        b"",
        b"mimetool: : a folder needs a name\nmimetool: write fault\n",
        Status::Fault,
    )?;
    gives(
        &rt,
        &["unpack", "-C", "/dev/null"],
        TWO,
        b"",
        b"mimetool: /dev/null: File exists (os error 17)\nmimetool: write fault\n",
        Status::Fault,
    )?;
    Ok(())
}
