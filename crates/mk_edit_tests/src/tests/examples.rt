//! The examples at the roots of mk_splice, mk_decide and mk_edit. Expected values are worked out by hand.
use mk_decide::{Edit, decide};
use mk_edit::Session;
use mk_line::Meter;
use mk_splice::{Journal, fit, replace};
use mk_tree::Doc;
use std::test::Fail;

#[test]
fn a_step_of_a_journal_is_taken_back(rt: HostRuntime) -> Result<(), Fail> {
    let alloc = rt.alloc();
    let journal = Journal::parse(alloc, b"mimejournal 1\n1 0\n1 2 3\nbcxyz\n")?;
    assert_eq!(rt; (journal.done, journal.steps.len()), (1, 1));
    let mut text = Vec::from_slice(alloc, b"axyzd")?;
    fit(alloc, &text, &journal.steps, journal.done)?;
    replace(&mut text, 1, 3, b"bc")?;
    assert_eq!(rt; text.as_slice(), b"abcd".as_slice());
    Ok(())
}

#[test]
fn an_edit_is_decided(rt: HostRuntime) -> Result<(), Fail> {
    let alloc = rt.alloc();
    let text = Vec::from_slice(alloc, b"A: b\n\nx\n")?;
    let doc = Doc::read(alloc, text).map_err(|(_, error)| error)?;
    let edit = Edit::AddField {
        path: Vec::from_slice(alloc, &[1])?,
        top: false,
        text: Vec::from_slice(alloc, b"C: d\n")?,
    };
    let made = decide(alloc, &doc, &edit, &mut Meter::new())?;
    assert_eq!(rt; (made.place, made.count), (5, 0));
    assert_eq!(rt; made.new.as_slice(), b"C: d\n".as_slice());
    Ok(())
}

#[test]
fn an_edit_is_made_and_undone(rt: HostRuntime) -> Result<(), Fail> {
    let alloc = rt.alloc();
    let text = Vec::from_slice(alloc, b"A: b\nC: d\n\nx\n")?;
    let mut session = Session::start(alloc, text).map_err(|(_, error)| error)?;
    let path = Vec::from_slice(alloc, &[1])?;
    let name = Vec::from_slice(alloc, b"a")?;
    let edit = Edit::RemoveField { path, name, k: 1 };
    session.edit(&edit, &mut Meter::new())?;
    assert_eq!(rt; session.text(), b"C: d\n\nx\n".as_slice());
    session.undo()?;
    assert_eq!(rt; session.text(), b"A: b\nC: d\n\nx\n".as_slice());
    Ok(())
}
