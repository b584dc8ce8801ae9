//! How a run ends.

ghost use Rattle.std.specs.Prelude.{◌≡◌};

/// What a run answers, and with it the program.
#[derive(Clone, Copy, Debug, PartialEq, Eq)]
pub enum Status {
    /// All was done.
    Well,
    /// Something was refused, and all else was done.
    Refused,
    /// The script has a fault: nothing was done.
    Usage,
    /// A device failed: the run was given up.
    Fault,
    /// Memory ran out: the run was given up.
    Memory,
}

/// Why a run is given up.
#[derive(Clone, Copy, Debug, PartialEq, Eq)]
pub enum Cause {
    Read,
    Write,
    Memory,
}

impl Status {
    ghost use Rattle.mk_transfer.specs.Statuses.{code_of};

    /// The exit status of the program.
    pub fn code(self) -> u8
        ensures { result ≡ code_of self }
    {
        match self {
            Status::Well => 0,
            Status::Refused => 1,
            Status::Usage => 2,
            Status::Fault => 3,
            Status::Memory => 4,
        }
    }
}
