use std::io;

/// How often a writer was called, and with what results. A count that has reached `u64::MAX` stays.
#[derive(Clone, Copy, Debug, PartialEq, Eq)]
pub struct Counts {
    /// How many writes there were.
    pub writes: u64,
    /// How many of them returned an error.
    pub errors: u64,
    /// How many of them stalled: they took none of at least one byte.
    pub stalls: u64,
    /// How many of them took fewer bytes than they were handed, those that stalled among them. A
    /// write that returned an error is none of these.
    pub shorts: u64,
}

impl Counts {
    ghost use Rattle.std.specs.Prelude.{◌≡◌};
    ghost use Rattle.ps_writing.specs.Counts.{no_counts, saturated_after};

    /// The counts before the first write, which are 0.
    pub fn new() -> Counts
        ensures { result ≡ no_counts }
    {
        Counts {
            writes: 0,
            errors: 0,
            stalls: 0,
            shorts: 0,
        }
    }

    /// Counts a write of so many bytes, by its result.
    pub(crate) fn count(&mut self, size: usize, answer: &io::Result<usize>)
        ensures { self.new ≡ saturated_after self.old size answer.now }
    {
        self.writes = self.writes.saturating_add(1);
        match answer {
            Err(_) => self.errors = self.errors.saturating_add(1),
            Ok(taken) => {
                if *taken < size {
                    self.shorts = self.shorts.saturating_add(1);
                    if *taken == 0 {
                        self.stalls = self.stalls.saturating_add(1);
                    }
                }
            }
        }
    }
}
