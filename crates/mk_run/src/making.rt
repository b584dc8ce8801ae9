//! The words of a step, made on a session as one step.

ghost use Rattle.std.specs.Prelude.{◌≡◌, ◌≢◌, ◌∷◌, [], None, Ok, true, map, slice_index_or, IfOk};
ghost use Rattle.std.specs.List.{list_all};
ghost use Rattle.mk_decide.specs.Views.{edit_of};
ghost use Rattle.mk_expand.specs.Words.{is_plain as stands_alone, meaning_of};
ghost use Rattle.mk_tree.specs.Documents.{tree};
ghost use Rattle.mk_edit.specs.Histories.{text_now};
ghost use Rattle.mk_run.specs.WordSteps.{words_step};
ghost use Rattle.mk_run.specs.inner.Making.{path_in, refusal_in, DoesStep, MakesEdits, MakesWord};
ghost use Rattle.mk_expand.specs.Views.{pieces_of};
ghost use Rattle.mk_script.specs.ScriptViews.{numbered, said_by};

use mk_edit::{Edit, EditError, GroupError, Session};
use mk_expand::{Pieces, WordError, edits_for, is_plain};
use mk_line::{Ending, Meter, eol_of};
use mk_script::{NumberedWord, Word};
use mk_tree::Doc;
use std::alloc::{AllocError, AllocFailed, Global};

/// Why a step of a script isn't done, with the number of its line.
#[derive(Debug, Drop)]
pub(crate) enum StepError {
    /// The edit at a path is refused, or memory ran out for it.
    Edit {
        number: usize,
        path: Vec<u32>,
        reason: EditError,
    },
    /// A word stands for no edits, or memory ran out for it.
    Word {
        number: usize,
        fault: WordError,
    },
}

impl From<AllocError> for StepError {
    ghost from_gives = { λ _ e. refusal_in e ≡ None };

    fn from(_error: AllocError) -> StepError {
        StepError::Word {
            number: 0,
            fault: WordError::Memory,
        }
    }
}

impl<T: Drop> From<AllocFailed<T>> for StepError {
    ghost from_gives = { λ _ e. refusal_in e ≡ None };

    fn from(_error: AllocFailed<T>) -> StepError {
        StepError::Word {
            number: 0,
            fault: WordError::Memory,
        }
    }
}

/// Makes one word.
pub(crate) fn make_word(
    alloc: Global,
    session: &mut Session,
    word: NumberedWord,
    pieces: Pieces<'_>,
) -> Result<(), StepError>
    ensures { DoesStep result (words_step (pieces_of pieces.entry) (numbered word ∷ []) session.old) session.old session.new }
{
    let eol = eol_of(session.text());
    make_on(alloc, session, word, pieces, eol)
}

/// Makes words one after another, all of them or none.
pub(crate) fn make_words(
    alloc: Global,
    session: &mut Session,
    words: Vec<NumberedWord>,
    pieces: Pieces<'_>,
) -> Result<(), StepError>
    ensures { DoesStep result (words_step (pieces_of pieces.entry) (map numbered words.items) session.old) session.old session.new }
{
    if are_plain(&words) {
        make_plain(alloc, session, words, pieces)
    } else {
        make_in_turn(alloc, session, words, pieces)
    }
}

// Whether each word stands for one edit, whatever the document is.
fn are_plain(words: &[NumberedWord]) -> bool
    ensures { result ≡ list_all (λ w. stands_alone w.1) (map numbered words.now) }
{
    for NumberedWord { word, .. } in words {
        if !is_plain(word) {
            return false;
        }
    }
    true
}

// Makes words that stand for one edit each.
fn make_plain(
    alloc: Global,
    session: &mut Session,
    words: Vec<NumberedWord>,
    pieces: Pieces<'_>,
) -> Result<(), StepError>
    requires { list_all (λ w. stands_alone w.1) (map numbered words.items) ≡ true }
    ensures { DoesStep result (words_step (pieces_of pieces.entry) (map numbered words.items) session.old) session.old session.new }
{
    let eol = eol_of(session.text());
    let mut edits = Vec::with_capacity(alloc, words.len())?;
    let mut numbers = Vec::with_capacity(alloc, words.len())?;
    for NumberedWord { number, word } in words {
        edits.push(plain_edit(alloc, session.doc(), &word, pieces, eol)?)?;
        numbers.push(number)?;
    }
    match make_edits(session, &edits) {
        Ok(()) => Ok(()),
        Err((index, reason)) => {
            let number = number_at(&numbers, index);
            let path = Vec::from_slice(alloc, path_at(&edits, index))?;
            Err(StepError::Edit {
                number,
                path,
                reason,
            })
        }
    }
}

// The edit that a word stands for in every document.
fn plain_edit(
    alloc: Global,
    doc: &Doc,
    word: &Word,
    pieces: Pieces<'_>,
    eol: Ending,
) -> Result<Edit, AllocError>
    requires plain { stands_alone (said_by word.now) ≡ true }
    requires ends { eol ≢ Ending.Missing }
    ensures { IfOk result (λ edit. meaning_of (pieces_of pieces.entry) eol (tree doc.now) (said_by word.now) ≡ Ok (edit_of edit ∷ [])) }
{
    match edits_for(alloc, word, doc, pieces, eol) {
        Ok(mut edits) => match edits.pop() {
            Some(edit) => Ok(edit),
            None => Err(AllocError),
        },
        Err(_) => Err(AllocError),
    }
}

// Makes words in turn as a group, to see what each stands for in the document that the earlier ones gave.
fn make_in_turn(
    alloc: Global,
    session: &mut Session,
    words: Vec<NumberedWord>,
    pieces: Pieces<'_>,
) -> Result<(), StepError>
    ensures { DoesStep result (words_step (pieces_of pieces.entry) (map numbered words.items) session.old) session.old session.new }
{
    let eol = eol_of(session.text());
    let mut group = session.begin()?;
    for word in words {
        make_on(alloc, &mut group, word, pieces, eol)?;
    }
    session.commit(group)?;
    Ok(())
}

// Makes a word as one step. Lines that are made end with `eol`.
fn make_on(
    alloc: Global,
    session: &mut Session,
    word: NumberedWord,
    pieces: Pieces<'_>,
    eol: Ending,
) -> Result<(), StepError>
    requires { eol ≢ Ending.Missing }
    ensures { MakesWord result word.number (meaning_of (pieces_of pieces.entry) eol (tree (text_now session.old)) (said_by word.word)) session.old session.new }
{
    let NumberedWord { number, word } = word;
    let edits = match edits_for(alloc, &word, session.doc(), pieces, eol) {
        Ok(edits) => edits,
        Err(fault) => return Err(StepError::Word { number, fault }),
    };
    match make_edits(session, &edits) {
        Ok(()) => Ok(()),
        Err((index, reason)) => {
            let path = Vec::from_slice(alloc, path_at(&edits, index))?;
            Err(StepError::Edit {
                number,
                path,
                reason,
            })
        }
    }
}

/// Makes edits as one step. A refusal comes with the number of the edit, from 0.
pub(crate) fn make_edits(session: &mut Session, edits: &[Edit]) -> Result<(), (usize, EditError)>
    ensures { MakesEdits result (map edit_of edits.now) session.old session.new }
{
    match edits {
        [edit] => match session.edit(edit, &mut Meter::new()) {
            Ok(()) => Ok(()),
            Err(reason) => Err((0, reason)),
        },
        _ => match session.group(edits, &mut Meter::new()) {
            Ok(()) => Ok(()),
            Err(GroupError::Member { index, refusal }) => Err((index, refusal)),
            Err(GroupError::Memory) => Err((0, EditError::Memory)),
        },
    }
}

// The number of the line of an edit.
fn number_at(numbers: &[usize], index: usize) -> usize
    ensures { result ≡ slice_index_or numbers.now index 0 }
{
    match numbers.get(index) {
        Some(number) => *number,
        None => 0,
    }
}

// The path of an edit of a number, from 0.
fn path_at(edits: &[Edit], index: usize) -> &[u32]
    ensures { result.now ≡ path_in (map edit_of edits.now) index }
{
    match edits.get(index) {
        Some(edit) => edit.path(),
        None => &[],
    }
}
