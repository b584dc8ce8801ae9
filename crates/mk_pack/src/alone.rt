//! A part printed alone.

ghost use Rattle.std.specs.Prelude.{◌≡◌, true, IfOk, IfErr, OnErr, OnOk};
ghost use Rattle.std.specs.Option.{option_map};
ghost use Rattle.mk_line.specs.Meters.{ticked};
ghost use Rattle.mk_build.specs.BuildViews.{written_in};
ghost use Rattle.mk_transfer.specs.RunClauses.{held, counts, IsBlamed, SameFailures, ends_itself};
ghost use Rattle.mk_show.specs.Shown.{ShowsSoFar};
ghost use Rattle.mk_pack.specs.inner.Judged.{run_of_judged};
ghost use Rattle.mk_pack.specs.Alone.{IsAlone, first_refusal as reason_of, no_input};

use crate::outgoing::give;
use crate::packing::refused;
use mk_build::{Attach, AttachError, AttachOptions, BuildError, Pieces, is_charset};
use mk_line::Ending;
use mk_mailbox::Sink;
use mk_show::Answer;
use mk_transfer::{Cause, Status};
use std::alloc::{AllocError, Global};

/// Prints one part alone, as the options say, with line feeds and no ending after it, and reads no input. A reason against it
/// is reported as against the first part of a message. It is left to the caller to say why the run is given up.
pub fn try_part<O: Sink, E: Sink>(
    alloc: Global,
    out: &mut O,
    err: &mut E,
    options: AttachOptions<'_>,
    part: &Attach,
) -> Result<Status, Cause>
    ensures leaves { ShowsSoFar (IsAlone (option_map (λ c. c.now) options.entry.charset) (written_in options.entry.utf8_names part.now)) result
        (held no_input (O.contents out.old) (E.contents err.old))
        (held no_input (O.contents out.new) (E.contents err.new)) }
    ensures ended { IfOk result (λ status. ends_itself status ≡ true) }
    ensures blamed { IfErr result (λ cause. IsBlamed cause
        (counts 0 0 (O.failures out.old) (E.failures err.old))
        (counts 0 0 (O.failures out.new) (E.failures err.new))) }
    ensures clean { OnOk result (SameFailures
        (counts 0 0 (O.failures out.old) (E.failures err.old))
        (counts 0 0 (O.failures out.new) (E.failures err.new))) }
    ensures finished { OnOk result (O.finishes out.new ≡ ticked (O.finishes out.old)) }
    ensures unfinished { OnErr result (O.finishes out.new ≡ O.finishes out.old) }
{
    match alone(alloc, options, part) {
        Ok(judged) => give(alloc, out, err, judged),
        Err(_) => Err(Cause::Memory),
    }
}

// The part, or the reason against it.
fn alone<'a>(
    alloc: Global,
    options: AttachOptions<'_>,
    part: &'a Attach,
) -> Result<Result<Pieces<'a>, Answer>, AllocError>
    ensures { IfOk result (λ judged. IsAlone (option_map (λ c. c.now) options.entry.charset) (written_in options.entry.utf8_names part.now) (run_of_judged judged)) }
{
    match Pieces::of_part(alloc, part, options, Ending::Lf) {
        Ok(_) if !is_charset(options.charset) => Ok(Err(refused(alloc, BuildError::BadCharset)?)),
        Ok(pieces) => Ok(Ok(pieces)),
        Err(AttachError::Memory) => Err(AllocError),
        Err(reason) => Ok(Err(refused(alloc, first_refusal(reason))?)),
    }
}

// The reason against a part, as against the first of a message.
fn first_refusal(reason: AttachError) -> BuildError
    ensures { result ≡ reason_of reason }
{
    match reason {
        AttachError::BadType => BuildError::BadType { index: 0 },
        AttachError::BadName => BuildError::BadName { index: 0 },
        AttachError::Memory => BuildError::Memory,
    }
}
