ghost use Rattle.std.specs.Prelude.{◌≡◌, ℕ, ◌<◌, ◌≤◌, List, Option, length, IfOk, OnOk, OnErr};
ghost use Rattle.std.specs.Io.KnownBytes.{ReadConsumes, WriteAppends, Keeps};
ghost use Rattle.mk_line.specs.Meters.{ticked};

use std::error::Error;
use std::fmt;

/// The most reads that one call makes. A source that still gives bytes then is given up.
pub const MOST_READS: u32 = 2_147_483_647;

/// How many bytes are asked for in one read.
pub const CHUNK_BYTES: usize = 65_536;

/// What a device answers that failed to read or to write. It says nothing more.
#[derive(Clone, Copy, Debug, PartialEq, Eq)]
pub struct Fault;

impl fmt::Display for Fault {
    fn fmt<W: fmt::Write>(&self, f: &mut fmt::Formatter<W>) -> fmt::Result {
        write!(f, "the device failed")
    }
}

impl Error for Fault {}

/// A device that gives bytes. It counts its reads and its failures; a count stays at the greatest
/// `u64` once it is there.
pub trait Source {
    /// The bytes that are left, where the device tells them: those of a file or a terminal are
    /// not known.
    ghost remaining: { Self → Option (List ℕ) };

    ghost failures: { Self → ℕ };

    ghost read_count: { Self → ℕ };

    /// Reads bytes into the start of the piece and answers how many. An answer of 0 for a piece
    /// that has room is the end of the input.
    fn read(&mut self, piece: &mut [u8]) -> Result<usize, Fault>
        ensures bytes { ReadConsumes (remaining self.old) (remaining self.new) result piece.new }
        ensures bound { IfOk result (λ n. n ≤ length piece.old) }
        ensures failed { OnErr result (failures self.new ≡ ticked (failures self.old)) }
        ensures went_well { OnOk result (failures self.new ≡ failures self.old) }
        ensures counted { read_count self.new ≡ ticked (read_count self.old) };

    /// How many bytes are left, where the device knows that beforehand. Room is made for as many, so a number that is wrong
    /// costs time or memory, and changes nothing that is read.
    fn left(&self) -> Option<usize> {
        None
    }

    /// How many reads failed.
    fn faults(&self) -> u64
        ensures { result ≡ failures self.now };

    /// How many reads there were.
    fn reads(&self) -> u64
        ensures { result ≡ read_count self.now };
}

/// A device that takes bytes. It counts its failures, among them each write that took no byte of a
/// piece that has some; the count stays at the greatest `u64` once it is there.
pub trait Sink {
    /// The bytes that the device holds, where it tells them: those of a file or a terminal are
    /// not known.
    ghost contents: { Self → Option (List ℕ) };

    ghost failures: { Self → ℕ };

    /// How many times the device was finished: from the first on, all that it holds stands. The count stays at the greatest
    /// `u64` once it is there.
    ghost finishes: { Self → ℕ };

    /// Takes bytes from the start of the piece and answers how many.
    fn write(&mut self, piece: &[u8]) -> Result<usize, Fault>
        ensures bytes { WriteAppends (contents self.old) (contents self.new) result piece.now }
        ensures bound { IfOk result (λ n. n ≤ length piece.now) }
        ensures failed { OnErr result (failures self.new ≡ ticked (failures self.old)) }
        ensures took_none { IfOk result (λ n.
            n ≡ 0 → 0 < length piece.now → failures self.new ≡ ticked (failures self.old)) }
        ensures took_some { IfOk result (λ n. 0 < n → failures self.new ≡ failures self.old) }
        ensures none_given { length piece.now ≡ 0 → OnOk result (failures self.new ≡ failures self.old) }
        ensures unfinished { finishes self.new ≡ finishes self.old };

    /// Says that all was written. A device that holds bytes back until then lets them stand, or fails; nothing is written
    /// after it.
    fn finish(&mut self) -> Result<(), Fault>
        ensures bytes { Keeps (contents self.old) (contents self.new) }
        ensures stands { OnOk result (finishes self.new ≡ ticked (finishes self.old)) }
        ensures failed { OnErr result (failures self.new ≡ ticked (failures self.old)) }
        ensures went_well { OnOk result (failures self.new ≡ failures self.old) }
        ensures unfinished { OnErr result (finishes self.new ≡ finishes self.old) };

    /// How many calls failed.
    fn faults(&self) -> u64
        ensures { result ≡ failures self.now };
}
