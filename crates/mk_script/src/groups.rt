//! The steps of scripts: the edits between `begin` and `end` are one, or those of the whole script (own).

ghost use Rattle.std.specs.Prelude.{◌≡◌, ◌∷◌, [], false, None, map, Ok, Err, IfOk, IfErr};
ghost use Rattle.std.specs.Option.{option_map, option_map_or};
ghost use Rattle.mk_script.specs.ScriptSteps.{first_fault as fault_of, edits_in, first_other, has_end as ends, is_fault as faulty, script_as_one, script_of, steps_from, Groups};
ghost use Rattle.mk_script.specs.ScriptViews.{numbered, step_by, Explains};
ghost use Rattle.mk_script.specs.inner.Lines.{line_by, line_in};
ghost use Rattle.mk_script.specs.declared.groups.ScriptError.TheVariants.{Memory};

use crate::script::{NumberedLine, NumberedWord, Said, lines};
use std::alloc::{AllocError, AllocFailed, Global};

/// A step of a script: one edit, several as a group, or undoing and redoing at the line of a number.
#[derive(Debug, PartialEq, Eq, Drop)]
pub enum Step {
    Edit(NumberedWord),
    Group(Vec<NumberedWord>),
    Undo(usize),
    Redo(usize),
}

/// Why a script can't be done.
#[derive(Clone, Copy, Debug, PartialEq, Eq)]
pub enum ScriptError {
    /// The number of the first line that is a fault.
    Syntax(usize),
    Memory,
}

impl From<AllocError> for ScriptError {
    ghost from_gives = { λ _ e. e ≡ Memory };

    fn from(_: AllocError) -> ScriptError {
        ScriptError::Memory
    }
}

impl<T: Drop> From<AllocFailed<T>> for ScriptError {
    ghost from_gives = { λ _ e. e ≡ Memory };

    fn from(_: AllocFailed<T>) -> ScriptError {
        ScriptError::Memory
    }
}

/// Reads the steps of a script that is given this many pieces.
pub fn steps(alloc: Global, script: &[u8], pieces: usize) -> Result<Vec<Step>, ScriptError>
    ensures read { IfOk result (λ all. script_of pieces script.now ≡ Ok (map step_by all.items)) }
    ensures refused { IfErr result (λ e. Explains e (script_of pieces script.now)) }
{
    let lines = lines(alloc, script, pieces)?;
    match first_fault(&lines) {
        Some(number) => Err(ScriptError::Syntax(number)),
        None => Ok(grouped(alloc, lines)?),
    }
}

// The number of the first line that is a fault.
fn first_fault(lines: &[NumberedLine]) -> Option<usize>
    ensures { result ≡ fault_of false (map line_in lines.now) }
{
    let mut rest = lines;
    let mut inside = false;
    while let Some((line, following)) = rest.split_first() {
        if is_fault(line, inside, following) {
            return Some(line.number);
        }
        inside = match line.said {
            Some(Said::Begin) => true,
            Some(Said::End) => false,
            _ => inside,
        };
        rest = following;
    }
    None
}

// Whether a line is a fault, inside a group or outside, with these lines after it.
fn is_fault(line: &NumberedLine, inside: bool, following: &[NumberedLine]) -> bool
    ensures { result ≡ faulty inside (ends (map line_in following.now)) (option_map line_by line.now.said) }
{
    match line.said {
        Some(Said::Edit(_)) => false,
        Some(Said::Undo | Said::Redo) => inside,
        Some(Said::Begin) => inside || !has_end(following),
        Some(Said::End) => !inside,
        None => true,
    }
}

// Whether an `end` comes.
fn has_end(lines: &[NumberedLine]) -> bool
    ensures { result ≡ ends (map line_in lines.now) }
{
    for line in lines {
        if let Some(Said::End) = line.said {
            return true;
        }
    }
    false
}

// The steps of lines without a fault.
fn grouped(alloc: Global, lines: Vec<NumberedLine>) -> Result<Vec<Step>, AllocError>
    ensures { IfOk result (λ all. map step_by all.items ≡ steps_from None (map line_in lines.items)) }
{
    let mut all = Vec::new(alloc);
    let mut open: Option<Vec<NumberedWord>> = None;
    for line in lines {
        let NumberedLine { number, said } = line;
        match said {
            Some(Said::Edit(word)) => match &mut open {
                Some(words) => words.push(NumberedWord { number, word })?,
                None => all.push(Step::Edit(NumberedWord { number, word }))?,
            },
            Some(Said::Undo) => all.push(Step::Undo(number))?,
            Some(Said::Redo) => all.push(Step::Redo(number))?,
            Some(Said::Begin) => open = Some(Vec::new(alloc)),
            Some(Said::End) => {
                if let Some(words) = open.take() {
                    all.push(Step::Group(words))?;
                }
            }
            None => {}
        }
    }
    Ok(all)
}

/// Reads a script that is given this many pieces as one group of edits. A line that is no edit is a fault: there, nothing is
/// undone or made again, and no group begins.
pub fn steps_as_one(alloc: Global, script: &[u8], pieces: usize) -> Result<Vec<Step>, ScriptError>
    ensures read { IfOk result (λ all. script_as_one pieces script.now ≡ Ok (map step_by all.items)) }
    ensures refused { IfErr result (λ e. Explains e (script_as_one pieces script.now)) }
{
    let words = edits(alloc, lines(alloc, script, pieces)?)?;
    let mut all = Vec::new(alloc);
    all.push(Step::Group(words))?;
    Ok(all)
}

// The edits that lines are, where each is one.
fn edits(alloc: Global, lines: Vec<NumberedLine>) -> Result<Vec<NumberedWord>, ScriptError>
    ensures read { IfOk result (λ words. option_map_or Err (first_other (map line_in lines.items)) (Ok (Groups (edits_in (map line_in lines.items)) ∷ [])) ≡ Ok (Groups (map numbered words.items) ∷ [])) }
    ensures refused { IfErr result (λ e. Explains e (option_map_or Err (first_other (map line_in lines.items)) (Ok (Groups (edits_in (map line_in lines.items)) ∷ [])))) }
{
    let mut words = Vec::new(alloc);
    for line in lines {
        let NumberedLine { number, said } = line;
        match said {
            Some(Said::Edit(word)) => words.push(NumberedWord { number, word })?,
            _ => return Err(ScriptError::Syntax(number)),
        }
    }
    Ok(words)
}
