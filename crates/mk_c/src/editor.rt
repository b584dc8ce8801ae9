//! What a handle holds.
ghost use Rattle.std.specs.Prelude.{◌≡◌, ◌≢◌, ◌+◌, length, Ok, []};
ghost use Rattle.mk_tree.specs.Documents.{tree};
ghost use Rattle.mk_tree.specs.Sections.{section_at};
ghost use Rattle.mk_decide.specs.Views.{edit_of};
ghost use Rattle.mk_edit.specs.Histories.{started, text_now};
ghost use Rattle.mk_edit.specs.Saving.{RefusesJournal, loaded, saved};
ghost use Rattle.mk_view.specs.Extracts.{IsExtract};
ghost use Rattle.mk_view.specs.Listing.{listing};
ghost use Rattle.mk_decide.specs.Edits.{Undo, Redo};
ghost use Rattle.mk_build.specs.Multiparts.{multipart_of};
ghost use Rattle.mk_c.specs.Desks.{opened, opened_mailbox};
ghost use Rattle.mk_c.specs.Building.{Builds};
ghost use Rattle.mk_c.specs.Calls.{AnswersWith, BeginsWith, Copies, IsChecked, IsMemory, IsNameAt, Loads, MakesPutDown, NoContentAt, NoNameAt, Obeys, PutsDown};
ghost use Rattle.mk_c.specs.Mail.{GoesOn};

use crate::draft::Draft;
use crate::input::read_on;
use crate::status::Reason;
use mk_build::Multipart;
use mk_edit::{Edit, Session};
use mk_line::{Ending, Meter};
use mk_mailbox::{FromLines, Mailbox};
use mk_view::{ExtractError, extract, list, text_name};
use std::alloc::Global;
use std::marker::Model;

/// A message under edit, the edits that were put down for the next call, the bytes of the last answer, a mailbox, and what was put
/// down for a message that is to be built.
#[derive(Drop)]
pub(crate) struct Editor {
    session: Session,
    pending: Vec<Edit>,
    pub(crate) answer: Vec<u8>,
    mailbox: Mailbox,
    pub(crate) draft: Draft,
}

impl Model for Editor {
    ghost use Rattle.mk_c.specs.Desks.{Desk};

    ghost Value = { Desk };

    ghost view = { λ e. record { history = e.session; pending = e.pending.items; answer = e.answer.items; mail = e.mailbox; draft = e.draft } };
}

impl Editor {
    /// Begins with a message.
    pub(crate) fn start(alloc: Global, text: &[u8]) -> Result<Editor, Reason>
        ensures { BeginsWith (opened (started text.now)) result }
    {
        let text = Vec::from_slice(alloc, text)?;
        match Session::start(alloc, text) {
            Ok(session) => Ok(Editor::of(alloc, session)),
            Err(_) => Err(Reason::Memory),
        }
    }

    /// Begins with a message and its journal.
    pub(crate) fn load(alloc: Global, text: &[u8], journal: &[u8]) -> Result<Editor, Reason>
        ensures { Loads text.now journal.now result }
    {
        let text = Vec::from_slice(alloc, text)?;
        match Session::load(alloc, text, journal) {
            Ok(session) => Ok(Editor::of(alloc, session)),
            Err((_, error)) => Err(Reason::Journal(error)),
        }
    }

    fn of(alloc: Global, session: Session) -> Editor
        ensures { result ≡ opened session }
    {
        Editor {
            session,
            pending: Vec::new(alloc),
            answer: Vec::new(alloc),
            mailbox: Mailbox::new(alloc),
            draft: Draft::new(alloc),
        }
    }

    /// Begins with a mailbox that is cut at these From-lines.
    pub(crate) fn of_mailbox(alloc: Global, from_lines: FromLines) -> Result<Editor, Reason>
        ensures { BeginsWith (opened_mailbox from_lines) result }
    {
        let mut editor = Editor::start(alloc, b"")?;
        editor.mailbox = Mailbox::cut_at(alloc, from_lines);
        Ok(editor)
    }

    /// Puts an edit down after the others.
    pub(crate) fn put_down(&mut self, edit: Edit) -> Result<(), Reason>
        ensures { PutsDown (edit_of edit) result self.old self.new }
    {
        match self.pending.push(edit) {
            Ok(()) => Ok(()),
            Err(_) => Err(Reason::Memory),
        }
    }

    /// Forgets the edits that were put down.
    pub(crate) fn forget(&mut self)
        ensures { self.new ≡ record self.old { pending = [] } }
    {
        self.pending.clear();
    }

    /// What the first edit that was put down would answer, short of memory. None is made, and all are forgotten.
    pub(crate) fn check(&mut self) -> Result<(), Reason>
        ensures { IsChecked self.old.pending (text_now self.old.history) result × (self.new ≡ record self.old { pending = [] }) }
    {
        let checked = match self.pending.first() {
            Some(edit) => match self.session.check(edit, &mut Meter::new()) {
                Ok(()) => Ok(()),
                Err(error) => Err(Reason::from(error)),
            },
            None => Err(Reason::NoEdit),
        };
        self.pending.clear();
        checked
    }

    /// Makes the edits that were put down as one step, all or none, and forgets them.
    pub(crate) fn make(&mut self) -> Result<(), Reason>
        ensures { MakesPutDown result self.old self.new }
    {
        let made = match self.session.group(&self.pending, &mut Meter::new()) {
            Ok(()) => Ok(()),
            Err(error) => Err(Reason::from(error)),
        };
        self.pending.clear();
        made
    }

    /// Takes the last step back.
    pub(crate) fn undo(&mut self) -> Result<(), Reason>
        ensures { Obeys Undo result self.old self.new }
    {
        self.session.undo()?;
        Ok(())
    }

    /// Makes the step that was taken back last again.
    pub(crate) fn redo(&mut self) -> Result<(), Reason>
        ensures { Obeys Redo result self.old self.new }
    {
        self.session.redo()?;
        Ok(())
    }

    /// How many steps are done, and how many undone.
    pub(crate) fn counts(&self) -> (usize, usize)
        ensures done { result.0 ≡ self.now.history.place }
        ensures undone { result.0 + result.1 ≡ length self.now.history.steps }
    {
        (self.session.done(), self.session.undone())
    }

    /// Answers the text as it stands.
    pub(crate) fn show_text(&mut self, alloc: Global) -> Result<(), Reason>
        ensures { AnswersWith (λ d answer. answer ≡ text_now d.history) IsMemory result self.old self.new }
    {
        self.answer = Vec::from_slice(alloc, self.session.text())?;
        Ok(())
    }

    /// Answers the journal.
    pub(crate) fn show_journal(&mut self) -> Result<(), Reason>
        ensures { AnswersWith (λ d answer. answer ≡ saved d.history) IsMemory result self.old self.new }
    {
        self.answer = self.session.save()?;
        Ok(())
    }

    /// Answers the listing of the sections.
    pub(crate) fn show_sections(&mut self, alloc: Global) -> Result<(), Reason>
        ensures { AnswersWith (λ d answer. answer ≡ listing (tree (text_now d.history))) IsMemory result self.old self.new }
    {
        self.answer = list(alloc, self.session.doc())?;
        Ok(())
    }

    /// Answers the content of the section at a path.
    pub(crate) fn show_content(&mut self, alloc: Global, path: &[u32]) -> Result<(), Reason>
        ensures { AnswersWith (λ d answer. IsExtract (section_at path.now (tree (text_now d.history))) answer) (NoContentAt path.now) result self.old self.new }
    {
        self.answer = extract(alloc, self.session.doc(), path)?;
        Ok(())
    }

    /// Answers the text that the fields of the section at a path say as its name.
    pub(crate) fn show_name(&mut self, alloc: Global, path: &[u32]) -> Result<(), Reason>
        ensures { AnswersWith (IsNameAt path.now) (NoNameAt path.now) result self.old self.new }
    {
        let name = match self.session.doc().section(path) {
            Some(section) => text_name(alloc, &section)?,
            None => return Err(Reason::Content(ExtractError::NoSuchSection)),
        };
        match name {
            Some(name) => {
                self.answer = name.into_bytes();
                Ok(())
            }
            None => Err(Reason::NoName),
        }
    }

    /// Copies the answer into bytes of its size, and lets it go.
    pub(crate) fn copy(&mut self, alloc: Global, bytes: &mut [u8]) -> Result<(), Reason>
        ensures { Copies bytes.old bytes.new result self.old self.new }
    {
        if bytes.len() != self.answer.len() {
            return Err(Reason::BadSize);
        }
        bytes.copy_from_slice(&self.answer);
        self.answer = Vec::new(alloc);
        Ok(())
    }

    /// Answers the next message of the mailbox, which is given more bytes, the last ones or not. Also says how many were read.
    pub(crate) fn next(&mut self, bytes: &[u8], last: bool) -> (usize, Result<(), Reason>)
        ensures { GoesOn bytes.now last result.0 result.1 self.old self.new }
    {
        let (used, found) = if last {
            read_on::<true>(&mut self.mailbox, bytes)
        } else {
            read_on::<false>(&mut self.mailbox, bytes)
        };
        match found {
            Ok(Some(message)) => {
                self.answer = message;
                (used, Ok(()))
            }
            Ok(None) => (used, Err(Reason::NoMessage)),
            Err(reason) => (used, Err(reason)),
        }
    }

    /// Answers the message of what was put down, which is forgotten.
    pub(crate) fn build(
        &mut self,
        alloc: Global,
        multipart: &Multipart<'_>,
        eol: Ending,
    ) -> Result<(), Reason>
        requires { eol ≢ Ending.Missing }
        ensures { Builds eol (multipart_of multipart.now) result self.old self.new }
    {
        let built = self.draft.build(alloc, multipart, eol);
        self.draft = Draft::new(alloc);
        self.answer = built?;
        Ok(())
    }
}
