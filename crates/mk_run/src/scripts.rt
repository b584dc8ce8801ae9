//! A script as a run is asked to do it.

ghost use Rattle.std.specs.Prelude.{◌≡◌, map, Ok, IfOk, IfErr};
ghost use Rattle.mk_script.specs.ScriptViews.{step_by, Explains};
ghost use Rattle.mk_script.specs.Reasons.{steps_of};

use mk_script::{ScriptError, Step, steps, steps_as_one};
use std::alloc::Global;

/// A script, and how its edits are made.
#[derive(Clone, Copy, Debug)]
pub struct Script<'a> {
    /// Its lines.
    pub text: &'a [u8],
    /// Whether all of them are one group: one step, made whole or not at all. Then each has to be an edit.
    pub as_one: bool,
}

impl Script<'_> {
    ghost use Rattle.std.specs.Prelude.{◌≡◌, map, Ok, IfOk, IfErr};
    ghost use Rattle.mk_script.specs.ScriptViews.{step_by, Explains};
    ghost use Rattle.mk_script.specs.Reasons.{steps_of};

    /// Its steps, if it is given this many pieces.
    pub(crate) fn steps(&self, alloc: Global, pieces: usize) -> Result<Vec<Step>, ScriptError>
        ensures read { IfOk result (λ all. steps_of self.now.as_one pieces self.now.text.now ≡ Ok (map step_by all.items)) }
        ensures refused { IfErr result (λ e. Explains e (steps_of self.now.as_one pieces self.now.text.now)) }
    {
        if self.as_one {
            steps_as_one(alloc, self.text, pieces)
        } else {
            steps(alloc, self.text, pieces)
        }
    }
}
