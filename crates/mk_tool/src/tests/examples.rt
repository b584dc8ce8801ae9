//! The examples at the roots of mk_json, mk_reply, mk_check, mk_journal, mk_words, mk_asked and mk_tool. Expected values are from docs/FORMATS.md and the help.

use super::obeyed;
use mk_asked::why_invalid;
use mk_check::{FindingForm, findings};
use mk_journal::{Journal, list_steps, undo_all};
use mk_reply::reply_header;
use mk_tree::Doc;
use mk_words::options::{EXTRACT, PATH, command};
use mk_words::reasons::told;
use std::test::Fail;

/// A leaf of two bytes that has no name.
const LISTED: &[u8] =
    b"{\"path\":\"1\",\"kind\":\"leaf\",\"type\":\"text/plain\",\"encoding\":\"identity\",\"start\":0,\"body\":6,\"end\":8,\"field_lines\":1,\"body_lines\":1,\"stored_as\":\"part-1\",\"size\":2}\n";

#[test]
fn a_document_is_listed_as_json(rt: HostRuntime) -> Result<(), Fail> {
    let alloc = rt.alloc();
    let text = Vec::from_slice(alloc, b"A: b\n\nx\n")?;
    let doc = Doc::read(alloc, text).map_err(|(_, error)| error)?;
    let lines = mk_json::list(alloc, &doc)?;
    assert!(rt; lines.starts_with(b"{\"path\":\"1\",\"kind\":\"leaf\","));
    assert!(rt; lines.ends_with(b",\"stored_as\":\"part-1\",\"size\":2}\n"));
    assert_eq!(rt; lines.as_slice(), LISTED);
    Ok(())
}

#[test]
fn a_message_is_answered(rt: HostRuntime) -> Result<(), Fail> {
    let alloc = rt.alloc();
    let text = b"From: a@b.org\nSubject: Hi\nMessage-ID: <1@b.org>\n\nx\n";
    let header = reply_header(alloc, text)?.expect(&rt, "an address");
    let first = b"To: a@b.org\nSubject: Re: Hi\nIn-Reply-To: <1@b.org>\n";
    assert!(rt; header.starts_with(first));
    assert!(rt; header.ends_with(b"\nReferences: <1@b.org>\n\n"));
    Ok(())
}

#[test]
fn steps_are_listed(rt: HostRuntime) -> Result<(), Fail> {
    let alloc = rt.alloc();
    let file = b"mimejournal 1\n1 1\n1 2 3\nbcxyz\n0 0 2\nno\n";
    let journal = Journal::parse(alloc, file)?;
    let lines = list_steps(alloc, &journal)?;
    let listed = b"1 done; 2 bytes at 1 became 3\n2 undone; 0 bytes at 0 became 2\n";
    assert_eq!(rt; lines.as_slice(), listed.as_slice());
    assert_eq!(rt; undo_all(alloc, file)?.as_slice(), b"undo\n".as_slice());
    Ok(())
}

#[test]
fn a_message_is_checked(rt: HostRuntime) -> Result<(), Fail> {
    let alloc = rt.alloc();
    let text = b"To: a@b.org\nTo: c@b.org\nContent-Transfer-Encoding: base64\n\ne\n";
    let doc = Doc::read(alloc, Vec::from_slice(alloc, text)?).map_err(|(_, error)| error)?;
    let lines = findings(alloc, &doc, FindingForm::Plain)?;
    let found = b"1 12 Repeated To\n1 59 BadBase64\n";
    assert_eq!(rt; lines.as_slice(), found.as_slice());
    Ok(())
}

#[test]
fn words_have_a_subcommand(rt: HostRuntime) -> Result<(), Fail> {
    let alloc = rt.alloc();
    let words = ["mimetool", "extract", "-s", "1.2"];
    let matches = command(alloc)?.try_get_matches_from(&words)?;
    let (name, options) = matches.subcommand().expect(&rt, "a subcommand");
    assert_eq!(rt; name, EXTRACT);
    assert_eq!(rt; options.get_str(PATH), Some("1.2"));
    let reason = told(EXTRACT, b"1.2: NoSuchSection");
    let (about, _) = reason.expect(&rt, "a reason");
    assert_eq!(rt; about, b"1.2: ".as_slice());
    Ok(())
}

#[test]
fn an_invalid_word_is_told(rt: HostRuntime) -> Result<(), Fail> {
    let alloc = rt.alloc();
    let words = ["mimetool", "extract", "-s", "1.x"];
    let matches = command(alloc)?.try_get_matches_from(&words)?;
    let (name, options) = matches.subcommand().expect(&rt, "a subcommand");
    let sentence = why_invalid(alloc, name, options)?.expect(&rt, "a sentence");
    let begun = "invalid value '1.x' for '-s <PATH>': ";
    assert!(rt; sentence.as_str().starts_with(begun));
    Ok(())
}

#[test]
fn a_command_line_is_obeyed(rt: HostRuntime) -> Result<(), Fail> {
    let words = ["edit", "-e", "add 1 C: d", "-e", "del 1 Z 1"];
    let found = obeyed(&rt, &words, b"A: b\n\nx\n")?;
    assert_eq!(rt; found.output.bytes(), b"A: b\nC: d\n\nx\n".as_slice());
    assert_eq!(rt; found.errors.bytes(), b"line 2: NoSuchField\n".as_slice());
    assert_eq!(rt; found.code, 1);
    Ok(())
}
