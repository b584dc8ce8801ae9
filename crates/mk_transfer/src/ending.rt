//! How a run is given up.

ghost use Rattle.std.specs.Prelude.{◌≡◌, ◌≤◌, ◌⊎◌};
ghost use Rattle.std.specs.Io.KnownBytes.{Appends};
ghost use Rattle.mk_mailbox.specs.Devices.{AppendsFront, Rose};
ghost use Rattle.mk_transfer.specs.RunClauses.{cause_line as line_of, cause_of_reading, cause_of_writing, status_of as status_for};

use crate::status::{Cause, Status};
use crate::transfer::{Stop, write_all};
use mk_mailbox::Sink;

/// Says why a run is given up. Where that fails too, nothing more is tried.
pub fn give_up<E: Sink>(err: &mut E, cause: Cause) -> Status
    ensures status { result ≡ status_for cause }
    ensures line { AppendsFront (E.contents err.old) (E.contents err.new) (line_of cause) }
    ensures whole { Appends (E.contents err.old) (E.contents err.new) (line_of cause) ⊎ Rose (E.failures err.old) (E.failures err.new) }
    ensures counted { E.failures err.old ≤ E.failures err.new }
{
    let _ = write_all(err, cause_line(cause));
    match cause {
        Cause::Read | Cause::Write => Status::Fault,
        Cause::Memory => Status::Memory,
    }
}

/// The line that says why a run is given up.
pub fn cause_line(cause: Cause) -> &'static [u8]
    ensures { result.now ≡ line_of cause }
{
    match cause {
        Cause::Read => b"mimetool: read fault\n",
        Cause::Write => b"mimetool: write fault\n",
        Cause::Memory => b"mimetool: memory\n",
    }
}

/// The cause where reading stopped.
pub fn reading(stop: Stop) -> Cause
    ensures { result ≡ cause_of_reading stop }
{
    match stop {
        Stop::Fault => Cause::Read,
        Stop::Memory => Cause::Memory,
    }
}

/// The cause where writing stopped.
pub fn writing(stop: Stop) -> Cause
    ensures { result ≡ cause_of_writing stop }
{
    match stop {
        Stop::Fault => Cause::Write,
        Stop::Memory => Cause::Memory,
    }
}
