//! What a run does on the session that it begins with.

use crate::round_steps::do_rounds;
use crate::steps::do_steps;
use mk_edit::Session;
use mk_expand::Pieces;
use mk_field::Round;
use mk_mail::Sink;
use mk_script::Step;
use mk_transfer::Stop;
use std::alloc::Global;

/// What a run does on its session.
#[derive(Drop)]
pub(crate) enum Work<'a> {
    /// The steps of a script.
    Steps {
        steps: Vec<Step>,
        pieces: Pieces<'a>,
    },
    /// Rounds of letters at a path, as one step.
    Rounds {
        path: &'a [u32],
        rounds: &'a [Round<'a>],
    },
}

impl Work<'_> {
    ghost use Rattle.std.specs.Prelude.{◌≡◌, not, true, IfOk, OnOk};
    ghost use Rattle.mk_line.specs.Lines.{is_nil};
    ghost use Rattle.mk_transfer.specs.RunClauses.{Sends};
    ghost use Rattle.mk_run.specs.Runs.{left_by, reports_by};
    ghost use Rattle.mk_run.specs.inner.Doings.{doing_of, may_be_done};

    /// Does it, and reports each refusal as it comes. Answers whether there was one.
    pub(crate) fn done_on<E: Sink>(
        self,
        alloc: Global,
        session: &mut Session,
        err: &mut E,
    ) -> Result<bool, Stop>
        requires { may_be_done (doing_of self) ≡ true }
        ensures done { OnOk result (session.new ≡ left_by (doing_of self.entry) session.old) }
        ensures refused { IfOk result (λ refused. refused ≡ not (is_nil (reports_by (doing_of self.entry) session.old))) }
        ensures sends { Sends result (reports_by (doing_of self.entry) session.old)
            (E.contents err.old) (E.contents err.new) (E.failures err.old) (E.failures err.new) }
    {
        match self {
            Work::Steps { steps, pieces } => do_steps(alloc, session, err, steps, pieces),
            Work::Rounds { path, rounds } => do_rounds(alloc, session, err, path, rounds),
        }
    }
}
