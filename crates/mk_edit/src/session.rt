//! A message under edit, and its history.
ghost use Rattle.std.specs.Prelude.{◌≡◌, ◌+◌, ◌*◌, ◌≤◌, ◌∷◌, [], ℕ, Ok, Some, IfOk, IfErr, OnOk, OnErr, length, take, map};
ghost use Rattle.mk_tree.specs.Documents.{tree};
ghost use Rattle.mk_decide.specs.Edits.{Do, Group, Undo, Redo};
ghost use Rattle.mk_decide.specs.Outcomes.{edited};
ghost use Rattle.mk_decide.specs.Answers.{Answers};
ghost use Rattle.mk_edit.specs.Answers.{reply_of, Does, DoesGroup, Replies};
ghost use Rattle.mk_decide.specs.Counts.{edit_lines};
ghost use Rattle.mk_decide.specs.LocalAnswers.{IsDecided, plain_splice};
ghost use Rattle.mk_splice.specs.Splices.{forth_step, back_step};
ghost use Rattle.mk_edit.specs.Saving.{RefusesJournal, loaded, saved};
ghost use Rattle.mk_edit.specs.inner.Loading.{IsFitting};
ghost use Rattle.mk_splice.specs.Printed.{AreSmall};
ghost use Rattle.mk_edit.specs.Histories.{IsHistory, after_all, done_splices, first_text, replies, started, step, text_now, with_step};
ghost use Rattle.mk_decide.specs.Views.{edit_of};
ghost use Rattle.mk_edit.specs.Views.{order_of};
ghost use Rattle.mk_splice.specs.Views.{splice_of, steps_of};
ghost use Rattle.mk_edit.specs.History.{history_of};

use crate::commands::Command;
use crate::errors::{GroupError, LoadError};
use crate::grouping::{refused, together};
use crate::replies::{Reply, replied, replied_to_group};
use crate::stepping::{change, joined, put_step, read_anew};
use mk_decide::{Edit, EditError, Replacement, decide};
use mk_line::Meter;
use mk_splice::{Journal, Splice, copied, fit, print};
use mk_tree::Doc;
use std::alloc::{AllocError, Global};
use std::marker::Model;

/// A message under edit. Of earlier texts it keeps the bytes that each step replaced, and nothing else.
#[derive(Drop)]
pub struct Session {
    doc: Doc,
    steps: Vec<Vec<Splice>>,
    done: usize,
}

impl Model for Session {
    ghost use Rattle.std.specs.Prelude.{map};
    ghost use Rattle.mk_edit.specs.History.{History};

    ghost Value = { History };

    ghost use Rattle.mk_edit.specs.History.{history_of};
    ghost use Rattle.mk_splice.specs.Fits.{Fit};
    ghost use Rattle.mk_splice.specs.Views.{steps_of};

    ghost view = { λ s. history_of s.doc (steps_of s.steps.items) s.done };

    ghost invariant = { λ s. Fit s.doc (steps_of s.steps.items) s.done };
}

impl Session {
    /// Begins with a text, which is read in one pass. If memory runs out, the text comes back.
    pub fn start(alloc: Global, text: Vec<u8>) -> Result<Session, (Vec<u8>, AllocError)>
        ensures ok { IfOk result (λ s. s ≡ started text.items) }
        ensures back { IfErr result (λ e. e.0.items ≡ text.items) }
    {
        let doc = Doc::read(alloc, text)?;
        Ok(Session {
            doc,
            steps: Vec::new(alloc),
            done: 0,
        })
    }

    /// Begins with the history that a journal describes with a text. The journal is looked at first, then whether it belongs
    /// to the text, and then whether its steps fit; where it is refused, the text comes back. It takes the time of moving
    /// the bytes between each splice and the next, and of reading the text.
    pub fn load(
        alloc: Global,
        text: Vec<u8>,
        journal: &[u8],
    ) -> Result<Session, (Vec<u8>, LoadError)>
        ensures ok { IfOk result (λ s. loaded text.items journal.now ≡ Ok s) }
        ensures refused { IfErr result (λ e. RefusesJournal e.1 (loaded text.items journal.now)) }
        ensures back { IfErr result (λ e. e.0.items ≡ text.items) }
    {
        match fitting(alloc, &text, journal) {
            Ok(Journal { steps, done, .. }) => match Doc::read(alloc, text) {
                Ok(doc) => Ok(Session { doc, steps, done }),
                Err((text, _)) => Err((text, LoadError::Memory)),
            },
            Err(error) => Err((text, error)),
        }
    }

    /// The history as a journal: the replaced and the new bytes of each step, and the digest of the text.
    pub fn save(&self) -> Result<Vec<u8>, AllocError>
        ensures journal { IfOk result (λ v. v.items ≡ saved self.now) }
        ensures small { OnOk result (AreSmall self.now.steps) }
    {
        let text = self.doc.text();
        print(*self.steps.allocator(), text, &self.steps, self.done)
    }

    /// Takes the session apart: the message, the steps, and how many of them are done.
    pub fn into_parts(self) -> (Doc, Vec<Vec<Splice>>, usize)
        ensures { history_of result.0 (steps_of result.1.items) result.2 ≡ self }
    {
        let Session { doc, steps, done } = self;
        (doc, steps, done)
    }

    /// The text as it stands.
    pub fn text(&self) -> &[u8]
        ensures now { result.now ≡ text_now self.now }
        ensures valid { IsHistory self.now }
    {
        self.doc.text()
    }

    /// The text as it stands, and the tree that it is read as.
    pub fn doc(&self) -> &Doc
        ensures { result.now ≡ text_now self.now }
    {
        &self.doc
    }

    /// How many steps are done.
    pub fn done(&self) -> usize
        ensures { result ≡ self.now.place }
    {
        self.steps[..self.done].len()
    }

    /// How many steps are undone.
    pub fn undone(&self) -> usize
        ensures { self.now.place + result ≡ length self.now.steps }
    {
        self.steps[self.done..].len()
    }

    /// What `edit` would answer, short of memory. Nothing changes.
    pub fn check(&self, edit: &Edit, meter: &mut Meter) -> Result<(), EditError>
        ensures answers { Answers result (edited (edit_of edit.now) (tree (text_now self.now))) }
        ensures most { meter.new ≤ meter.old + 2 * edit_lines (edit_of edit.now) (tree (text_now self.now)) + 2 }
    {
        decide(*self.steps.allocator(), &self.doc, edit, meter)?;
        Ok(())
    }

    /// Obeys commands, one after another, and replies to each. Running out of memory ends the call, after the commands
    /// before that were obeyed.
    pub fn obey_all(
        &mut self,
        alloc: Global,
        commands: &[Command],
        meter: &mut Meter,
    ) -> Result<Vec<Reply>, AllocError>
        ensures replies { IfOk result (λ all. map reply_of all.items ≡ map (λ r. Some r) (replies (map order_of commands.now) self.old)) }
        ensures history { OnOk result (self.new ≡ after_all (map order_of commands.now) self.old) }
        ensures front { OnErr result ((n : ℕ) × (self.new ≡ after_all (take n (map order_of commands.now)) self.old)) }
    {
        let mut all = Vec::with_capacity(alloc, commands.len())?;
        for command in commands {
            let reply = self.reply(command, meter)?;
            all.push_reserved(reply);
        }
        Ok(all)
    }

    // Obeys one command, and replies to it.
    fn reply(&mut self, command: &Command, meter: &mut Meter) -> Result<Reply, AllocError>
        ensures { Replies result (step (order_of command.now) self.old) self.old self.new }
    {
        match command {
            Command::Do(edit) => replied(self.edit(edit, meter)),
            Command::Group(list) => replied_to_group(self.group(list, meter)),
            Command::Undo => replied(self.undo()),
            Command::Redo => replied(self.redo()),
        }
    }

    /// Makes an edit, and drops the steps that were undone. A refused edit changes nothing, nor does running out of memory.
    pub fn edit(&mut self, edit: &Edit, meter: &mut Meter) -> Result<(), EditError>
        ensures does { Does result (step (Do (edit_of edit.now)) self.old) self.old self.new }
        ensures most { meter.new ≤ meter.old + 2 * edit_lines (edit_of edit.now) (tree (text_now self.old)) + 2 }
    {
        let made = decide(*self.steps.allocator(), &self.doc, edit, meter)?;
        self.put(edit, made)?;
        Ok(())
    }

    /// Makes edits one after another, as one step, and drops the steps that were undone; a group of no edits is a step
    /// too. Where one of the edits is refused, or memory runs out, nothing changes.
    pub fn group(&mut self, list: &[Edit], meter: &mut Meter) -> Result<(), GroupError>
        ensures { DoesGroup result (step (Group (map edit_of list.now)) self.old) self.old self.new }
    {
        match list {
            [] => return self.edit_nothing(),
            [edit] => return self.edit_alone(edit, meter),
            _ => {}
        }
        let (doc, step) = together(*self.steps.allocator(), &self.doc, list, meter)?;
        self.steps.reserve(1)?;
        self.doc = doc;
        put_step(&mut self.steps, self.done, step);
        self.done += 1;
        Ok(())
    }

    // Makes a group of no edits.
    fn edit_nothing(&mut self) -> Result<(), GroupError>
        ensures { DoesGroup result (step (Group []) self.old) self.old self.new }
    {
        let none = Vec::new(*self.steps.allocator());
        self.steps.reserve(1)?;
        put_step(&mut self.steps, self.done, none);
        self.done += 1;
        Ok(())
    }

    // Makes the one edit of a group in place, without a copy of the document.
    fn edit_alone(&mut self, edit: &Edit, meter: &mut Meter) -> Result<(), GroupError>
        ensures { DoesGroup result (step (Group (edit_of edit.now ∷ [])) self.old) self.old self.new }
    {
        match self.edit(edit, meter) {
            Ok(()) => Ok(()),
            Err(error) => Err(refused(0, error)),
        }
    }

    /// Begins a group: a session over a copy of the text. What is done in it becomes one step by `commit`; if it is dropped,
    /// nothing has changed.
    pub fn begin(&self) -> Result<Session, AllocError>
        ensures { IfOk result (λ group. group ≡ started (text_now self.now)) }
    {
        let alloc = *self.steps.allocator();
        let doc = read_anew(alloc, &self.doc)?;
        Ok(Session {
            doc,
            steps: Vec::new(alloc),
            done: 0,
        })
    }

    /// Makes what is done in a group that `begin` gave one step, and drops the steps that were undone. Out of memory, nothing
    /// changes.
    pub fn commit(&mut self, group: Session) -> Result<(), AllocError>
        requires { first_text group ≡ text_now self.old }
        ensures ok { OnOk result (self.new ≡ with_step self.old (text_now group) (done_splices group)) }
        ensures err { OnErr result (self.new ≡ self.old) }
    {
        let Session { doc, steps, done } = group;
        let step = joined(*self.steps.allocator(), steps, done)?;
        self.steps.reserve(1)?;
        self.doc = doc;
        put_step(&mut self.steps, self.done, step);
        self.done += 1;
        Ok(())
    }

    /// Takes the last step back.
    pub fn undo(&mut self) -> Result<(), EditError>
        ensures { Does result (step Undo self.old) self.old self.new }
    {
        if self.done == 0 {
            return Err(EditError::NothingToUndo);
        }
        let alloc = *self.steps.allocator();
        self.doc.take_back(alloc, &self.steps[self.done - 1])?;
        self.done -= 1;
        Ok(())
    }

    /// Makes the step that was taken back last again.
    pub fn redo(&mut self) -> Result<(), EditError>
        ensures { Does result (step Redo self.old) self.old self.new }
    {
        if self.done == self.steps.len() {
            return Err(EditError::NothingToRedo);
        }
        let alloc = *self.steps.allocator();
        self.doc.make_again(alloc, &self.steps[self.done])?;
        self.done += 1;
        Ok(())
    }

    // Makes an edit that was accepted, as a step. If memory runs out, nothing changes.
    fn put(&mut self, edit: &Edit, made: Replacement) -> Result<(), AllocError>
        requires { IsDecided (edit_of edit.now) (text_now self.old) (plain_splice made) }
        ensures ok { OnOk result (step (Do (edit_of edit.now)) self.old ≡ Ok self.new) }
        ensures err { OnErr result (self.new ≡ self.old) }
    {
        let alloc = *self.steps.allocator();
        let Replacement { place, count, new } = made;
        let old = copied(alloc, self.doc.text(), place, count)?;
        let text = Vec::from_slice(alloc, &new)?;
        let mut step = Vec::with_capacity(alloc, 1)?;
        self.steps.reserve(1)?;
        change(&mut self.doc, edit, place, count, text)?;
        step.push_reserved(Splice { place, old, new });
        put_step(&mut self.steps, self.done, step);
        self.done += 1;
        Ok(())
    }
}

// The journal that a file is, where it belongs to a text and fits it.
fn fitting(alloc: Global, text: &[u8], file: &[u8]) -> Result<Journal, LoadError>
    ensures ok { IfOk result (λ j. IsFitting text.now file.now j) }
    ensures err { IfErr result (λ e. RefusesJournal e (loaded text.now file.now)) }
{
    let journal = Journal::parse(alloc, file)?;
    if !journal.is_of(text) {
        return Err(LoadError::JournalOther);
    }
    fit(alloc, text, &journal.steps, journal.done)?;
    Ok(journal)
}
