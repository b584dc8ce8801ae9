//! Mailboxes written to files, one for each message.

use super::{check_entries, check_refused, gives, holds, obeyed, prints};
use mk_rows::{Row, rows};
use mk_run::Status;
use mk_split::Template;
use std::fs;
use std::process::Abort;
use std::test::Fail;

/// A mailbox of two messages.
const MAILBOX: &[u8] = b"From a\nA: 1\n\n>From x\n\nFrom b\nB: 2\n\ny\n";

/// Templates, and the names that they give to a number. A row without a name has words that are no template.
const TEMPLATES: &str = r"
== the number alone
template: %d
number: 12
name: 12

== zeros before it
template: mail-%03d.eml
number: 7
name: mail-007.eml

== a number that is longer than the template asks for
template: %02d
number: 1234
name: 1234

== the least and the greatest width
template: %01d
number: 3
name: 3

== nine digits
template: %09d
number: 3
name: 000000003

== a space may stand in a name
template: a %d
number: 1
name: a 1

== no place for the number, or more than one
template:
template: m.eml
template: %
template: %%
template: %d%d
template: %d%

== other forms of printf
template: %s
template: %4d
template: %0d
template: %00d
template: %010d
template: %-4d

== another folder
template: a/%d
template: %d/a
template: ..\\%d

== a name that is hidden, or an option
template: .%d
template: -%d

== bytes that aren't visible ASCII
template: %d\n
template: \x7f%d
template: \xc3\xa9%d
";

/// Invalid words of `split`.
const REFUSED: &str = r"
== a template without a place for the number
words: split|--name|m.eml
begins: error: invalid value 'm.eml' for '--name <TEMPLATE>': write the name of a file in ASCII, with one %d or %04d for the number\n\nUsage: mimetool split\x20

== one of another folder
words: split|--name|../%d
begins: error: invalid value '../%d' for '--name <TEMPLATE>': write the name of a file in ASCII

== other words on mailboxes
words: split|--mbox=x
begins: error: invalid value 'x' for '--mbox <HOW>': write any, date or field

== a message alone
words: split|-n|1
begins: error: unexpected argument '-n' found
";

#[test]
fn files_are_named_by_a_template(rt: HostRuntime) -> Result<(), Fail> {
    let alloc = rt.alloc();
    let names = Template::read(b"mail-%03d.eml").expect(&rt, "a template");
    let name = names.name(alloc, 7)?;
    assert_eq!(rt; name.as_slice(), b"mail-007.eml".as_slice());
    Ok(())
}

#[test]
fn words_are_templates_or_not(rt: HostRuntime) -> Result<(), Fail> {
    for row in &rows(rt.alloc(), TEMPLATES)? {
        for cell in &row.cells {
            if cell.key == "template" {
                check_template(&rt, row, &cell.bytes)?;
            }
        }
    }
    Ok(())
}

// A word names the file of the number of a row, or is no template where the row has no name.
fn check_template<R: AllocGlobal + Abort>(rt: &R, row: &Row, word: &[u8]) -> Result<(), Fail> {
    match Template::read(word) {
        Some(names) => {
            let name = names.name(rt.alloc(), u64::from(row.number("number")))?;
            assert_eq!(rt; name.as_slice(), row.bytes("name"), "{}", row.shows);
        }
        None => assert!(rt; row.get("name").is_none(), "{}", row.shows),
    }
    Ok(())
}

#[test]
fn messages_are_written_to_files(rt: HostRuntime) -> Result<(), Fail> {
    let folder = "mimetool_split_test";
    let first = "mimetool_split_test/0001.eml";
    let second = "mimetool_split_test/0002.eml";
    let _ = fs::remove_dir_all(&rt, folder);
    let words = ["split", "-C", folder];
    prints(&rt, &words, b"", b"")?;
    prints(&rt, &words, MAILBOX, b"0001.eml\n0002.eml\n")?;
    holds(&rt, first, "From a\nA: 1\n\n>From x\n")?;
    holds(&rt, second, "From b\nB: 2\n\ny\n")?;
    check_entries(&rt, folder, 2)?;
    fs::remove_dir_all(&rt, folder)?;
    Ok(())
}

#[test]
fn a_file_stays_unless_it_may_be_overwritten(rt: HostRuntime) -> Result<(), Fail> {
    let folder = "mimetool_split_over_test";
    let second = "mimetool_split_over_test/0002.eml";
    let _ = fs::remove_dir_all(&rt, folder);
    fs::create_dir_all(&rt, folder)?;
    fs::write(&rt, second, "old")?;
    gives(
        &rt,
        &["split", "-C", folder],
        MAILBOX,
        b"0001.eml\n",
        b"0002.eml: exists\n",
        Status::Refused,
    )?;
    holds(&rt, second, "old")?;
    gives(
        &rt,
        &["split", "--explain", "-C", folder],
        b"From a\n\nx\n",
        b"",
        b"0001.eml: a file has this name, so the message isn't written; '-f' overwrites the file\n0001.eml: exists\n",
        Status::Refused,
    )?;
    prints(
        &rt,
        &["split", "-f", "--silent", "-C", folder],
        MAILBOX,
        b"",
    )?;
    holds(&rt, second, "From b\nB: 2\n\ny\n")?;
    fs::remove_dir_all(&rt, folder)?;
    Ok(())
}

#[test]
fn each_option_of_split_does_its_own(rt: HostRuntime) -> Result<(), Fail> {
    let folder = "mimetool_split_options_test";
    let named = "mimetool_split_options_test/m-1";
    let _ = fs::remove_dir_all(&rt, folder);
    let words = ["split", "-f", "--name", "m-%d", "--bare", "-C", folder];
    prints(&rt, &words, MAILBOX, b"m-1\nm-2\n")?;
    holds(&rt, named, "A: 1\n\n>From x\n")?;
    let words = ["split", "-f", "--name", "m-%d", "--unquote", "-C", folder];
    prints(&rt, &words, MAILBOX, b"m-1\nm-2\n")?;
    holds(&rt, named, "From a\nA: 1\n\nFrom x\n")?;
    let words = ["split", "-f", "--name", "m-%d", "--rfc4155", "-C", folder];
    prints(&rt, &words, MAILBOX, b"m-1\n")?;
    holds(&rt, named, "From a\nA: 1\n\n>From x\n\nFrom b\nB: 2\n\ny\n")?;
    fs::remove_dir_all(&rt, folder)?;
    Ok(())
}

#[test]
fn a_maildir_gets_whole_files(rt: HostRuntime) -> Result<(), Fail> {
    let folder = "mimetool_split_maildir_test";
    let first = "mimetool_split_maildir_test/new/m-1";
    let _ = fs::remove_dir_all(&rt, folder);
    let words = ["split", "--maildir", "--name", "m-%d", "-C", folder];
    prints(&rt, &words, MAILBOX, b"m-1\nm-2\n")?;
    holds(&rt, first, "A: 1\n\n>From x\n")?;
    check_entries(&rt, folder, 3)?;
    check_entries(&rt, "mimetool_split_maildir_test/new", 2)?;
    check_entries(&rt, "mimetool_split_maildir_test/tmp", 0)?;
    let taken = b"m-1: exists\nm-2: exists\n";
    gives(&rt, &words, MAILBOX, b"", taken, Status::Refused)?;
    let words = ["split", "--maildir", "-f", "--name", "m-%d", "-C", folder];
    prints(&rt, &words, b"From c\n\nz\n", b"m-1\n")?;
    holds(&rt, first, "\nz\n")?;
    check_entries(&rt, "mimetool_split_maildir_test/tmp", 0)?;
    fs::remove_dir_all(&rt, folder)?;
    Ok(())
}

#[test]
fn a_maildir_gets_names_of_its_own(rt: HostRuntime) -> Result<(), Fail> {
    let folder = "mimetool_split_names_test";
    let _ = fs::remove_dir_all(&rt, folder);
    let words = ["split", "--maildir", "--silent", "-C", folder];
    prints(&rt, &words, MAILBOX, b"")?;
    prints(&rt, &words, MAILBOX, b"")?;
    check_entries(&rt, "mimetool_split_names_test/new", 4)?;
    fs::remove_dir_all(&rt, folder)?;
    Ok(())
}

#[test]
fn what_is_no_folder_is_named(rt: HostRuntime) -> Result<(), Fail> {
    let file = "mimetool_split_file_test";
    let _ = fs::remove_dir_all(&rt, file);
    let _ = fs::remove_file(&rt, file);
    fs::write(&rt, file, "x")?;
    let found = obeyed(&rt, &["split", "-C", file], MAILBOX)?;
    assert_eq!(rt; found.status, Status::Fault);
    assert!(rt; found.output.bytes().is_empty());
    assert!(rt;
        found
            .errors
            .bytes()
            .starts_with(b"mimetool: mimetool_split_file_test")
    );
    assert!(rt; found.errors.bytes().ends_with(b"mimetool: write fault\n"));
    fs::remove_file(&rt, file)?;
    Ok(())
}

#[test]
fn invalid_words_of_split_are_refused(rt: HostRuntime) -> Result<(), Fail> {
    check_refused(&rt, REFUSED)
}
