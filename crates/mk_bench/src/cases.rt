//! The cases of a job: all of them, or one alone.

/// Which cases of a job run.
#[derive(Drop)]
pub struct Cases<'a> {
    wanted: Option<&'a str>,
    /// Whether there was such a case.
    pub found: bool,
}

impl<'a> Cases<'a> {
    /// All of them, or the one that has the name.
    pub fn new(wanted: Option<&'a str>) -> Cases<'a> {
        Cases {
            wanted,
            found: false,
        }
    }

    /// Whether the job's case of this name runs.
    pub fn has(&mut self, name: &str) -> bool {
        let runs = match self.wanted {
            Some(wanted) => wanted == name,
            None => true,
        };
        self.found = self.found || runs;
        runs
    }
}
