//! How the program ends.

ghost use Rattle.std.specs.Prelude.{◌≡◌, ◌⊎◌, false, true};
ghost use Rattle.mk_transfer.specs.Statuses.{code_of};

use mk_run::Status;

/// The exit status of what may be tried again later: EX_TEMPFAIL of sysexits(3).
const TRY_AGAIN: u8 = 75;

/// How the program ends.
#[derive(Drop)]
pub struct Ending {
    /// What the run answers.
    pub status: Status,
    /// Whether a fault has the exit status of what may be tried again later.
    pub is_temporary: bool,
}

impl Ending {
    /// A run whose status is its exit status.
    pub fn lasting(status: Status) -> Ending
        ensures status { result.status ≡ status }
        ensures lasting { result.is_temporary ≡ false }
    {
        Ending {
            status,
            is_temporary: false,
        }
    }

    /// The exit status of the program.
    pub fn code(&self) -> u8
        ensures fault { self.now.is_temporary ≡ true → (self.now.status ≡ Status.Fault) ⊎ (self.now.status ≡ Status.Memory) → result ≡ TRY_AGAIN }
        ensures lasting { self.now.is_temporary ≡ false → result ≡ code_of self.now.status }
        ensures other { (self.now.status ≡ Status.Well) ⊎ (self.now.status ≡ Status.Refused) ⊎ (self.now.status ≡ Status.Usage) → result ≡ code_of self.now.status }
    {
        match self.status {
            Status::Fault | Status::Memory if self.is_temporary => TRY_AGAIN,
            status => status.code(),
        }
    }
}
