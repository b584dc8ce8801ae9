//! A count of the lines that were looked at.
ghost use Rattle.std.specs.Prelude.{◌≡◌};
ghost use Rattle.mk_line.specs.Meters.{ticked};

use std::marker::Model;

/// Counts looks at lines. The count stays at the greatest `u64`.
#[derive(Debug, Drop)]
pub struct Meter {
    count: u64,
}

impl Model for Meter {
    ghost use Rattle.std.specs.Prelude.{ℕ};

    ghost Value = { ℕ };

    ghost view = { λ m. m.count };
}

impl Meter {
    /// A meter that has counted nothing.
    pub fn new() -> Meter
        ensures { result ≡ 0 }
    {
        Meter { count: 0 }
    }

    /// Counts one more.
    pub fn tick(&mut self)
        ensures { self.new ≡ ticked self.old }
    {
        self.count = self.count.saturating_add(1);
    }

    /// How many ticks there were.
    pub fn count(&self) -> u64
        ensures { result ≡ self.now }
    {
        let Meter { count } = self;
        *count
    }
}
