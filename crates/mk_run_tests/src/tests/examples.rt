//! The examples at the roots of the crates between mk_mail and the program. Expected values are from docs/FORMATS.md and
//! RFC 2047.
use super::devices::{Page, Text};
use mk_edit::{EditError, Session};
use mk_expand::edits_for;
use mk_line::{Ending, Meter};
use mk_mail::FromLines;
use mk_messages::{InMemory, pick, without_separator};
use mk_pack::{AttachOptions, Spec, try_part};
use mk_report::report_refusal;
use mk_run::{
    Cause, FieldForm, Journal, Letter, LetterWord, LetterWords, Pieces, RoundLetters, Status,
    give_up, letters_of_rounds, read_all, rounds_of_words, run_edit, run_extract, run_field,
    write_all,
};
use mk_script::{LineFault, Step, Word, first_invalid, steps};
use mk_texts::sub_rule;
use mk_tree::Doc;
use mk_wording::worded_field;
use std::test::Fail;

#[test]
fn a_script_has_steps(rt: HostRuntime) -> Result<(), Fail> {
    let alloc = rt.alloc();
    let found = steps(alloc, b"# a remark\nadd 1 A: b\nundo\n", 0)?;
    assert!(rt; matches!(found.as_slice(), [Step::Edit(_), Step::Undo(3)]));
    let invalid = first_invalid(alloc, b"undo\nad 1 A: b\n", 0, false)?;
    let line = invalid.expect(&rt, "an invalid line");
    assert_eq!(rt; (line.number, line.fault), (2, LineFault::UnknownWord));
    Ok(())
}

#[test]
fn a_text_is_read_and_written(rt: HostRuntime) -> Result<(), Fail> {
    let alloc = rt.alloc();
    let mut input = Text::new(b"A: b\n\nx\n", 3);
    let (mut out, mut err) = (Page::new(alloc, 3)?, Page::new(alloc, 3)?);
    let text = read_all(alloc, &mut input)?;
    write_all(&mut out, &text)?;
    assert_eq!(rt; out.bytes(), b"A: b\n\nx\n".as_slice());
    let status = give_up(&mut err, Cause::Write);
    assert_eq!(rt; err.bytes(), b"mimetool: write fault\n".as_slice());
    assert_eq!(rt; status.code(), 3);
    Ok(())
}

#[test]
fn a_message_is_taken_out(rt: HostRuntime) -> Result<(), Fail> {
    let alloc = rt.alloc();
    let mut input = InMemory::new(b"From a\nA: 1\n\nx\n\nFrom b\nA: 2\n\ny\n");
    let found = pick(alloc, &mut input, FromLines::Any, 1)?;
    let message = without_separator(found.expect(&rt, "a message"));
    assert_eq!(rt; message.as_slice(), b"From a\nA: 1\n\nx\n".as_slice());
    Ok(())
}

#[test]
fn a_content_is_shown(rt: HostRuntime) -> Result<(), Fail> {
    let alloc = rt.alloc();
    let mut input = Text::new(b"Content-Transfer-Encoding: base64\n\naGk=\n", 100);
    let (mut out, mut err) = (Page::new(alloc, 100)?, Page::new(alloc, 100)?);
    let status = run_extract(alloc, &mut input, &mut out, &mut err, &[1]);
    assert_eq!(rt; status, Status::Well);
    assert_eq!(rt; out.bytes(), b"hi".as_slice());
    Ok(())
}

#[test]
fn a_file_is_a_part(rt: HostRuntime) -> Result<(), Fail> {
    let alloc = rt.alloc();
    let spec = Spec::of(b"image/gif:d/x").expect(&rt, "a colon");
    let part = spec.attach(alloc, Vec::from_slice(alloc, b"hi")?)?;
    let (mut out, mut err) = (Page::new(alloc, 100)?, Page::new(alloc, 100)?);
    let status = try_part(alloc, &mut out, &mut err, AttachOptions::default(), &part);
    assert!(rt; matches!(status, Ok(Status::Well)));
    assert!(rt; out.bytes().ends_with(b"\n\naGk="));
    Ok(())
}

#[test]
fn a_word_stands_for_edits(rt: HostRuntime) -> Result<(), Fail> {
    let alloc = rt.alloc();
    let text = Vec::from_slice(alloc, b"A: 1\nB: 2\na: 3\n\nx\n")?;
    let doc = Doc::read(alloc, text).map_err(|(_, error)| error)?;
    let path = Vec::from_slice(alloc, &[1])?;
    let name = Vec::from_slice(alloc, b"A:")?;
    let word = Word::DropAll { path, name };
    let edits = edits_for(alloc, &word, &doc, Pieces::as_given(&[]), Ending::Lf)?;
    assert_eq!(rt; edits.len(), 2);
    Ok(())
}

#[test]
fn a_refusal_is_reported(rt: HostRuntime) -> Result<(), Fail> {
    let alloc = rt.alloc();
    let mut err = Page::new(alloc, 100)?;
    let reason = EditError::HoldsBoundary { level: 1 };
    report_refusal(alloc, &mut err, 5, &[1, 2], reason)?;
    assert_eq!(rt; err.bytes(), b"line 5: HoldsBoundary 1\n".as_slice());
    Ok(())
}

#[test]
fn a_name_goes_into_encoded_words(rt: HostRuntime) -> Result<(), Fail> {
    let alloc = rt.alloc();
    let text = b"From: J\xc3\xb6rg <j@example.org>";
    let field = worded_field(alloc, text, Ending::Lf)?;
    let wanted = b"From: =?utf-8?B?SsO2cmc=?= <j@example.org>";
    assert_eq!(rt; field.as_slice(), wanted.as_slice());
    Ok(())
}

#[test]
fn a_message_is_filtered(rt: HostRuntime) -> Result<(), Fail> {
    let alloc = rt.alloc();
    let mut words = LetterWords::none(alloc);
    words.only = Some("A: 9");
    let letters = words.letters(alloc)?.expect(&rt, "letters");
    assert!(rt; letters.ok());
    let mut input = Text::new(b"A: 1\nB: 2\nA: 3\n\nx\n", 100);
    let (mut out, mut err) = (Page::new(alloc, 100)?, Page::new(alloc, 100)?);
    let status = run_field(alloc, &mut input, &mut out, &mut err, &letters, false);
    assert_eq!(rt; status, Status::Well);
    assert_eq!(rt; out.bytes(), b"B: 2\nA: 9\n\nx\n".as_slice());
    Ok(())
}

#[test]
fn a_text_is_put_in(rt: HostRuntime) -> Result<(), Fail> {
    let alloc = rt.alloc();
    let text = Vec::from_slice(alloc, b"Subject: [list] hi\n\nx\n")?;
    let mut session = Session::start(alloc, text).map_err(|(_, error)| error)?;
    let rule = sub_rule(alloc, r"Subject:s/\[list\] *//")??;
    let edits = rule.edits(alloc, session.doc(), &[1], Ending::Lf)?;
    session.group(&edits, &mut Meter::new())?;
    assert_eq!(rt; session.text(), b"Subject: hi\n\nx\n".as_slice());
    Ok(())
}

#[test]
fn words_are_letters(rt: HostRuntime) -> Result<(), Fail> {
    let alloc = rt.alloc();
    let (letter, word) = (Letter::Only, "A: 9");
    let rounds = rounds_of_words(alloc, &[LetterWord { letter, word }])?;
    let form = FieldForm::default();
    let made = letters_of_rounds(alloc, &rounds, form)?.expect(&rt, "letters");
    assert!(rt; matches!(made.as_slice(), [RoundLetters::Letters { lf, .. }] if lf.ok()));
    Ok(())
}

#[test]
fn a_message_is_edited(rt: HostRuntime) -> Result<(), Fail> {
    let alloc = rt.alloc();
    let mut input = Text::new(b"A: b\n\nx\n", 100);
    let (mut out, mut err) = (Page::new(alloc, 100)?, Page::new(alloc, 100)?);
    let (mut kept, pieces) = (Page::new(alloc, 100)?, Vec::new(alloc));
    let (script, journal) = (b"add 1 C: d\ndel 1 Z 1\n", Journal::Off);
    let status = run_edit(
        alloc, &mut input, &mut out, &mut err, script, &pieces, journal, &mut kept,
    );
    assert_eq!(rt; status, Status::Refused);
    assert_eq!(rt; out.bytes(), b"A: b\nC: d\n\nx\n".as_slice());
    assert_eq!(rt; err.bytes(), b"line 2: NoSuchField\n".as_slice());
    Ok(())
}
