//! Work on the messages of a mailbox.

ghost use Rattle.std.specs.Prelude.{◌≡◌, ℕ, List, Some, IfErr, OnErr, OnOk};
ghost use Rattle.mk_mailbox.specs.Devices.{Rose};
ghost use Rattle.mk_transfer.specs.Said.{Said as SaidOf, silence};
ghost use Rattle.mk_messages.specs.Working.{answer_said};

use mk_mailbox::{Fault, Sink};
use mk_transfer::Stop;
use std::alloc::Global;

/// A sink in memory. It fails where memory runs out.
#[derive(Debug, Drop)]
pub struct Buffer {
    /// What it took.
    pub text: Vec<u8>,
    faults: u64,
    finishes: u64,
}

impl Buffer {
    ghost use Rattle.std.specs.Prelude.{◌≡◌, []};

    /// One that took nothing yet.
    pub fn new(alloc: Global) -> Buffer
        ensures { result.text.items ≡ [] }
    {
        Buffer {
            text: Vec::new(alloc),
            faults: 0,
            finishes: 0,
        }
    }
}

impl Sink for Buffer {
    ghost contents = { λ s. Some s.text.items };

    ghost failures = { λ s. s.faults };

    ghost finishes = { λ s. s.finishes };

    fn write(&mut self, piece: &[u8]) -> Result<usize, Fault> {
        match self.text.extend_from_slice(piece) {
            Ok(()) => Ok(piece.len()),
            Err(_) => {
                self.faults = self.faults.saturating_add(1);
                Err(Fault)
            }
        }
    }

    fn finish(&mut self) -> Result<(), Fault> {
        self.finishes = self.finishes.saturating_add(1);
        Ok(())
    }

    fn faults(&self) -> u64 {
        self.faults
    }
}

/// What is said of a message: what goes to the output, and what to the errors.
#[derive(Debug, Drop)]
pub struct Answer {
    pub output: Buffer,
    pub errors: Buffer,
}

impl Answer {
    ghost use Rattle.std.specs.Prelude.{◌≡◌};
    ghost use Rattle.mk_transfer.specs.Said.{silence};
    ghost use Rattle.mk_messages.specs.Working.{answer_said};

    /// Nothing is said.
    pub fn new(alloc: Global) -> Answer
        ensures { answer_said result ≡ silence }
    {
        Answer {
            output: Buffer::new(alloc),
            errors: Buffer::new(alloc),
        }
    }

    /// Forgets what is said, and keeps the memory.
    pub fn clear(&mut self)
        ensures { answer_said self.new ≡ silence }
    {
        self.output.text.clear();
        self.errors.text.clear();
    }
}

/// What is done with each message of a mailbox, on a device of a kind.
pub trait MessageWork<D> {
    /// What is said of a message, by its number from 1 and its bytes, and what becomes of the device.
    ghost does: { Self → ℕ → List ℕ → SaidOf → D → D → Type 0 };

    /// The same where the work is stopped within the message.
    ghost stops: { Self → ℕ → List ℕ → SaidOf → D → D → Type 0 };

    /// The failures that the device counts.
    ghost failures: { Self → D → ℕ };

    /// Works on a message. Stops where the device fails, or where memory runs out.
    fn work(
        &self,
        alloc: Global,
        number: u64,
        message: Vec<u8>,
        device: &mut D,
        answer: &mut Answer,
    ) -> Result<(), Stop>
        requires { answer_said answer.old ≡ silence }
        ensures done { OnOk result (does self.now number message.items (answer_said answer.new) device.old device.new) }
        ensures stopped { OnErr result (stops self.now number message.items (answer_said answer.new) device.old device.new) }
        ensures fault { IfErr result (λ stop. stop ≡ Stop.Fault → Rose (failures self.now device.old) (failures self.now device.new)) }
        ensures memory { IfErr result (λ stop. stop ≡ Stop.Memory → failures self.now device.new ≡ failures self.now device.old) }
        ensures well { OnOk result (failures self.now device.new ≡ failures self.now device.old) };
}
