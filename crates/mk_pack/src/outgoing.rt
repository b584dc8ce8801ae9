//! A message or a part as it goes out: piece by piece, so that what is encoded is never in memory as a whole.

ghost use Rattle.std.specs.Prelude.{◌≡◌, ◌≢◌, ◌<◌, ◌≤◌, ◌++◌, ◌⊎◌, [], false, true, IfErr, IfOk, OnErr, OnOk};
ghost use Rattle.std.specs.Io.KnownBytes.{Appends};
ghost use Rattle.mk_line.specs.Meters.{ticked};
ghost use Rattle.mk_mailbox.specs.Devices.{AppendsFront, Rose};
ghost use Rattle.mk_transfer.specs.RunClauses.{Sends};
ghost use Rattle.mk_show.specs.Shown.{Writes};
ghost use Rattle.mk_pack.specs.inner.Judged.{run_of_judged};

use mk_build::Pieces;
use mk_mailbox::Sink;
use mk_show::{Answer, print};
use mk_transfer::{Cause, Status, Stop, finish, send, writing};
use std::alloc::{AllocError, Global};

/// How many bytes go out at once, at least, where there are so many.
const GATHERED: usize = 65_536;

/// Writes the pieces of a text or the reason against it, says to the output that all was written, and says how the run ends.
pub(crate) fn give<O: Sink, E: Sink>(
    alloc: Global,
    out: &mut O,
    err: &mut E,
    judged: Result<Pieces<'_>, Answer>,
) -> Result<Status, Cause>
    ensures written { Writes result (run_of_judged judged.entry) (O.contents out.old) (O.contents out.new) (E.contents err.old) (E.contents err.new) }
    ensures not_read { IfErr result (λ cause. cause ≢ Cause.Read) }
    ensures failed { IfErr result (λ cause. cause ≡ Cause.Write → Rose (O.failures out.old) (O.failures out.new) ⊎ Rose (E.failures err.old) (E.failures err.new)) }
    ensures memory { IfErr result (λ cause. cause ≡ Cause.Memory → (O.failures out.new ≡ O.failures out.old) × (E.failures err.new ≡ E.failures err.old)) }
    ensures output_well { OnOk result (O.failures out.new ≡ O.failures out.old) }
    ensures errors_well { OnOk result (E.failures err.new ≡ E.failures err.old) }
    ensures counted { E.failures err.old ≤ E.failures err.new }
    ensures finished { OnOk result (O.finishes out.new ≡ ticked (O.finishes out.old)) }
    ensures unfinished { OnErr result (O.finishes out.new ≡ O.finishes out.old) }
{
    match judged {
        Ok(pieces) => give_pieces(alloc, out, pieces),
        Err(answer) => print(out, err, &answer),
    }
}

// Writes pieces, and says to the output that all was written.
fn give_pieces<O: Sink>(alloc: Global, out: &mut O, pieces: Pieces<'_>) -> Result<Status, Cause>
    ensures well { IfOk result (λ status. status ≡ Status.Well) }
    ensures all { OnOk result (Appends (O.contents out.old) (O.contents out.new) pieces.entry.bytes) }
    ensures front { OnErr result (AppendsFront (O.contents out.old) (O.contents out.new) pieces.entry.bytes) }
    ensures not_read { IfErr result (λ cause. cause ≢ Cause.Read) }
    ensures failed { IfErr result (λ cause. cause ≡ Cause.Write → Rose (O.failures out.old) (O.failures out.new)) }
    ensures memory { IfErr result (λ cause. cause ≡ Cause.Memory → O.failures out.new ≡ O.failures out.old) }
    ensures output_well { OnOk result (O.failures out.new ≡ O.failures out.old) }
    ensures finished { OnOk result (O.finishes out.new ≡ ticked (O.finishes out.old)) }
    ensures unfinished { OnErr result (O.finishes out.new ≡ O.finishes out.old) }
{
    match send_pieces(alloc, out, pieces) {
        Ok(()) => match finish(out) {
            Ok(()) => Ok(Status::Well),
            Err(stop) => Err(writing(stop)),
        },
        Err(stop) => Err(writing(stop)),
    }
}

// Writes pieces, some 64 KB of them at once.
fn send_pieces<O: Sink>(alloc: Global, out: &mut O, pieces: Pieces<'_>) -> Result<(), Stop>
    ensures sends { Sends result pieces.entry.bytes
        (O.contents out.old) (O.contents out.new) (O.failures out.old) (O.failures out.new) }
    ensures unfinished { O.finishes out.new ≡ O.finishes out.old }
{
    let mut rest = pieces;
    let mut piece = Vec::new(alloc);
    let mut more = true;
    'each: while more {
        match gather(&mut rest, &mut piece) {
            Ok(left) => match send(out, &piece) {
                Ok(()) => more = left,
                Err(stop) => return Err(stop),
            },
            Err(_) => return Err(Stop::Memory),
        }
    }
    Ok(())
}

// Puts the next pieces, some 64 KB of them, in the place of what a buffer holds, and says whether more may come.
fn gather(pieces: &mut Pieces<'_>, piece: &mut Vec<u8>) -> Result<bool, AllocError>
    ensures told { OnOk result (piece.new.items ++ pieces.new.bytes ≡ pieces.old.bytes) }
    ensures ended { IfOk result (λ more. more ≡ false → pieces.new.bytes ≡ []) }
    ensures fewer { IfOk result (λ more. more ≡ true → pieces.new.most < pieces.old.most) }
{
    piece.clear();
    'each: while piece.len() < GATHERED {
        match pieces.push_next(piece) {
            Ok(true) => {}
            Ok(false) => return Ok(false),
            Err(error) => return Err(error),
        }
    }
    Ok(true)
}
