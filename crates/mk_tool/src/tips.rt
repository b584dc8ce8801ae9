//! What is said of a script before it is run.

use crate::faults::Problem;
use mk_line::cut;
use mk_mail::Sink;
use mk_run::{Cause, Script, write_all};
use mk_script::{NumberedWord, ScriptError, Step, Word, steps, steps_as_one};
use std::alloc::Global;

/// Says of each piece that `append` reads as fields alone, since it has no empty line, that it isn't read as text. An invalid
/// script is passed over: why it is invalid is said elsewhere.
pub fn tell_of_fields<E: Sink>(
    alloc: Global,
    err: &mut E,
    script: Script<'_>,
    pieces: &[Vec<u8>],
) -> Result<(), Problem> {
    let read = if script.as_one {
        steps_as_one(alloc, script.text, pieces.len())
    } else {
        steps(alloc, script.text, pieces.len())
    };
    let steps = match read {
        Ok(steps) => steps,
        Err(ScriptError::Syntax(_)) => return Ok(()),
        Err(ScriptError::Memory) => return Err(Problem::Stopped(Cause::Memory)),
    };
    for step in &steps {
        match step {
            Step::Edit(word) => tell_of_word(alloc, err, word, pieces)?,
            Step::Group(words) => tell_of_words(alloc, err, words, pieces)?,
            Step::Undo(_) | Step::Redo(_) => {}
        }
    }
    Ok(())
}

fn tell_of_words<E: Sink>(
    alloc: Global,
    err: &mut E,
    words: &[NumberedWord],
    pieces: &[Vec<u8>],
) -> Result<(), Problem> {
    for word in words {
        tell_of_word(alloc, err, word, pieces)?;
    }
    Ok(())
}

fn tell_of_word<E: Sink>(
    alloc: Global,
    err: &mut E,
    word: &NumberedWord,
    pieces: &[Vec<u8>],
) -> Result<(), Problem> {
    let Word::Append { piece, .. } = &word.word else {
        return Ok(());
    };
    let index = piece.saturating_sub(1) as usize;
    let (number, piece) = (word.number, *piece);
    match pieces.get(index) {
        Some(text) if !text.is_empty() && !cut(text).any(|line| line.content.is_empty()) => {
            let line = format!(in alloc;
                "script: line {number}: piece {piece} has no empty line, so its lines are read as fields; append-text takes them as text\n"
            )?;
            match write_all(err, line.as_bytes()) {
                Ok(()) => Ok(()),
                Err(_) => Err(Problem::Stopped(Cause::Write)),
            }
        }
        _ => Ok(()),
    }
}
