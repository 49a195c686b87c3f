// Calls that are to fail, for the forms in memory.
ghost use Rattle.std.specs.Prelude.{◌≡◌};
ghost use Rattle.sj_outside.specs.Faults.{Rose};
ghost use Rattle.sj_outside.specs.InMemory.{counted, failed, is_due};

use sj_names::Items;

/// The numbers of the calls that are to fail, where the first call has the number 1, and the counts of calls and of faults.
/// A count that stands at the end of its type stays there.
#[derive(Drop)]
pub struct Calls {
    pub failing: Items<u64>,
    pub made: u64,
    pub faults: u64,
}

impl Calls {
    /// No call made yet.
    pub fn new(failing: Vec<u64>) -> Calls
        ensures { result ≡ record { failing = failing.items; made = 0; faults = 0 } }
    {
        Calls {
            failing: Items::from_vec(failing),
            made: 0,
            faults: 0,
        }
    }

    /// Counts one more call, and says whether it is to fail.
    pub fn begin(&mut self) -> bool
        ensures due { result ≡ is_due self.old }
        ensures counted { self.new ≡ counted self.old }
    {
        self.made = self.made.saturating_add(1);
        self.failing.as_slice().contains(&self.made)
    }

    /// Counts one more fault.
    pub fn fail(&mut self)
        ensures failed { self.new ≡ failed self.old }
        ensures rose { Rose self.old.faults self.new.faults }
    {
        self.faults = self.faults.saturating_add(1);
    }
}
