// The counts of work.
ghost use Rattle.std.specs.Prelude.{◌≡◌};
ghost use Rattle.sj_names.specs.Counting.{raised};

/// How often each kind of work was done. A count that stands at the end of its type stays there.
#[derive(Clone, Copy, Debug, PartialEq, Eq)]
pub struct Meter {
    pub read: u64,
    pub checked: u64,
    pub optimised: u64,
    pub emitted: u64,
}

impl Meter {
    /// A meter with every count zero.
    pub fn new() -> Meter
        ensures { result ≡ record { read = 0; checked = 0; optimised = 0; emitted = 0 } }
    {
        Meter {
            read: 0,
            checked: 0,
            optimised: 0,
            emitted: 0,
        }
    }

    /// Counts one more class read.
    pub fn raise_read(&mut self)
        ensures { self.new ≡ record self.old { read = raised self.old.read } }
    {
        self.read = self.read.saturating_add(1);
    }

    /// Counts one more method checked.
    pub fn raise_checked(&mut self)
        ensures { self.new ≡ record self.old { checked = raised self.old.checked } }
    {
        self.checked = self.checked.saturating_add(1);
    }

    /// Counts one more method optimised.
    pub fn raise_optimised(&mut self)
        ensures { self.new ≡ record self.old { optimised = raised self.old.optimised } }
    {
        self.optimised = self.optimised.saturating_add(1);
    }

    /// Counts one more method emitted.
    pub fn raise_emitted(&mut self)
        ensures { self.new ≡ record self.old { emitted = raised self.old.emitted } }
    {
        self.emitted = self.emitted.saturating_add(1);
    }
}
