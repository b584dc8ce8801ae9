//! Rounds, made on a session as one step.

ghost use Rattle.std.specs.Prelude.{◌≡◌, map, not, true, IfOk, OnOk};
ghost use Rattle.std.specs.List.{list_all};
ghost use Rattle.std.specs.Result.{result_unwrap_or};
ghost use Rattle.mk_line.specs.Lines.{is_nil};
ghost use Rattle.mk_edit.specs.Answers.{Does};
ghost use Rattle.mk_edit.specs.Histories.{text_now};
ghost use Rattle.mk_field.specs.FilterViews.{is_round, round_of};
ghost use Rattle.mk_mail.specs.Apart.{has_section};
ghost use Rattle.mk_transfer.specs.RunClauses.{Sends};
ghost use Rattle.mk_run.specs.RoundSteps.{round_lines, rounds_step};
ghost use Rattle.mk_run.specs.inner.Making.{MakesRound};

use crate::making::make_edits;
use mk_edit::{EditError, Session};
use mk_field::Round;
use mk_mail::Sink;
use mk_report::report_message_at;
use mk_transfer::Stop;
use std::alloc::Global;

/// The number of the message in a report: all of the input is one.
const ONLY: u64 = 1;

/// Makes rounds at a path, and reports it if they are refused. Answers whether they were.
pub(crate) fn do_rounds<E: Sink>(
    alloc: Global,
    session: &mut Session,
    err: &mut E,
    path: &[u32],
    rounds: &[Round<'_>],
) -> Result<bool, Stop>
    requires { list_all is_round (map round_of rounds.now) ≡ true }
    ensures done { OnOk result (session.new ≡ result_unwrap_or (rounds_step path.now (map round_of rounds.now) session.old) session.old) }
    ensures refused { IfOk result (λ refused.
        refused ≡ not (is_nil (round_lines path.now (rounds_step path.now (map round_of rounds.now) session.old)))) }
    ensures sends { Sends result (round_lines path.now (rounds_step path.now (map round_of rounds.now) session.old))
        (E.contents err.old) (E.contents err.new) (E.failures err.old) (E.failures err.new) }
{
    match make_rounds(alloc, session, path, rounds) {
        Ok(()) => Ok(false),
        Err(reason) => {
            if reason.is_memory() {
                return Err(Stop::Memory);
            }
            report_message_at(alloc, err, ONLY, path, reason)?;
            Ok(true)
        }
    }
}

// Makes rounds at a path, all of them or none.
fn make_rounds(
    alloc: Global,
    session: &mut Session,
    path: &[u32],
    rounds: &[Round<'_>],
) -> Result<(), EditError>
    requires { list_all is_round (map round_of rounds.now) ≡ true }
    ensures { Does result (rounds_step path.now (map round_of rounds.now) session.old) session.old session.new }
{
    if session.doc().section(path).is_none() {
        return Err(EditError::NoSuchSection);
    }
    match rounds {
        [round] => make_round(alloc, session, path, round),
        _ => make_in_turn(alloc, session, path, rounds),
    }
}

// Makes rounds in turn as a group, to see the edits of each in what the earlier ones left.
fn make_in_turn(
    alloc: Global,
    session: &mut Session,
    path: &[u32],
    rounds: &[Round<'_>],
) -> Result<(), EditError>
    requires allowed { list_all is_round (map round_of rounds.now) ≡ true }
    requires section { has_section path.now (text_now session.old) ≡ true }
    ensures { Does result (rounds_step path.now (map round_of rounds.now) session.old) session.old session.new }
{
    let mut group = session.begin()?;
    for round in rounds {
        make_round(alloc, &mut group, path, round)?;
    }
    session.commit(group)?;
    Ok(())
}

// Makes a round at a path as one step.
fn make_round(
    alloc: Global,
    session: &mut Session,
    path: &[u32],
    round: &Round<'_>,
) -> Result<(), EditError>
    requires { is_round (round_of round.now) ≡ true }
    ensures { MakesRound result path.now (round_of round.now) session.old session.new }
{
    let edits = round.edits_at(alloc, session.doc(), path)?;
    match make_edits(session, &edits) {
        Ok(()) => Ok(()),
        Err((_, reason)) => Err(reason),
    }
}
