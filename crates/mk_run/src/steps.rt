//! The steps of a script, done in turn on a session.

ghost use Rattle.std.specs.Prelude.{◌≡◌, map, not, IfOk, OnOk};
ghost use Rattle.mk_line.specs.Lines.{is_nil};
ghost use Rattle.mk_edit.specs.Answers.{Does};
ghost use Rattle.mk_edit.specs.Histories.{step};
ghost use Rattle.mk_edit.specs.History.{History};
ghost use Rattle.mk_decide.specs.Edits.{Order};
ghost use Rattle.mk_run.specs.Runs.{errors_of, history_after, ordered_at, outcome_of, reported};
ghost use Rattle.std.specs.Result.{result_unwrap_or};
ghost use Rattle.mk_run.specs.inner.Making.{DoesStep};
ghost use Rattle.mk_transfer.specs.RunClauses.{Sends};
ghost use Rattle.mk_expand.specs.Views.{pieces_of};
ghost use Rattle.mk_script.specs.ScriptViews.{step_by};

use crate::making::{StepError, make_word, make_words};
use crate::report::report_step;
use mk_edit::{EditError, Session};
use mk_expand::Pieces;
use mk_mail::Sink;
use mk_script::Step;
use mk_transfer::Stop;
use std::alloc::Global;

/// Does the steps in turn and reports each refusal as it comes. Answers whether there was one.
pub fn do_steps<E: Sink>(
    alloc: Global,
    session: &mut Session,
    err: &mut E,
    steps: Vec<Step>,
    pieces: Pieces<'_>,
) -> Result<bool, Stop>
    ensures done { OnOk result (session.new ≡ history_after (pieces_of pieces.entry) (map step_by steps.items) session.old) }
    ensures refused { IfOk result (λ refused.
        refused ≡ not (is_nil (errors_of (pieces_of pieces.entry) (map step_by steps.items) session.old))) }
    ensures sends { Sends result (errors_of (pieces_of pieces.entry) (map step_by steps.items) session.old)
        (E.contents err.old) (E.contents err.new) (E.failures err.old) (E.failures err.new) }
{
    let mut refused = false;
    for step in steps {
        refused |= do_step(alloc, session, err, step, pieces)?;
    }
    Ok(refused)
}

// Does one step and reports it if it is refused. Answers whether it was.
fn do_step<E: Sink>(
    alloc: Global,
    session: &mut Session,
    err: &mut E,
    step: Step,
    pieces: Pieces<'_>,
) -> Result<bool, Stop>
    ensures done { OnOk result (session.new ≡ result_unwrap_or (outcome_of (pieces_of pieces.entry) (step_by step) session.old) session.old) }
    ensures refused { IfOk result (λ refused.
        refused ≡ not (is_nil (reported (pieces_of pieces.entry) (step_by step) session.old))) }
    ensures sends { Sends result (reported (pieces_of pieces.entry) (step_by step) session.old)
        (E.contents err.old) (E.contents err.new) (E.failures err.old) (E.failures err.new) }
{
    match obey(alloc, session, step, pieces) {
        Ok(()) => Ok(false),
        Err(error) => {
            report_step(alloc, err, error)?;
            Ok(true)
        }
    }
}

// Does one step.
fn obey(
    alloc: Global,
    session: &mut Session,
    step: Step,
    pieces: Pieces<'_>,
) -> Result<(), StepError>
    ensures { DoesStep result (outcome_of (pieces_of pieces.entry) (step_by step) session.old) session.old session.new }
{
    match step {
        Step::Edit(word) => make_word(alloc, session, word, pieces),
        Step::Group(words) => make_words(alloc, session, words, pieces),
        Step::Undo(number) => at_line(alloc, number, session.undo()),
        Step::Redo(number) => at_line(alloc, number, session.redo()),
    }
}

// An answer to an order of the line of a number.
fn at_line(alloc: Global, number: usize, answer: Result<(), EditError>) -> Result<(), StepError>
    ensures { (order : Order) (old new : History) → Does answer (step order old) old new → DoesStep result (ordered_at number (step order old)) old new }
{
    match answer {
        Ok(()) => Ok(()),
        Err(reason) => Err(StepError::Edit {
            number,
            path: Vec::new(alloc),
            reason,
        }),
    }
}
