// How often texts came.
ghost use Rattle.std.specs.Prelude.{◌≡◌, ◌+◌, ◌<◌, ◌^◌, ◌-◌, ℕ, List, IfOk, OnOk, if◌then◌else◌};
ghost use Rattle.sj_names.specs.WellKnown.{is_same_text};
ghost use Rattle.module_names.specs.Counts.{count_at};

use indexmap::IndexMap;
use sj_names::{NoMemory, Text};
use std::alloc::Global;

/// How often each text was counted.
#[derive(Drop)]
pub struct Counts {
    counts: IndexMap<Text, usize>,
}

impl Counts {
    /// No text was counted.
    pub fn new(alloc: Global) -> Counts
        ensures { (text : List ℕ) → count_at result text ≡ 0 }
    {
        Counts {
            counts: IndexMap::new(alloc),
        }
    }

    /// Counts a text, and tells how often it was counted before. `NoMemory` alone is an error.
    pub fn add(&mut self, text: &Text) -> Result<usize, NoMemory>
        requires { count_at self.now text.now + 1 < 2 ^ 64 }
        ensures before { IfOk result (λ before. before ≡ count_at self.old text.now) }
        ensures counted { OnOk result ((other : List ℕ) → count_at self.new other ≡ (if is_same_text text.now other then count_at self.old other + 1 else count_at self.old other)) }
    {
        if let Some(count) = self.counts.get_mut(text) {
            let before = *count;
            *count = before + 1;
            return Ok(before);
        }
        self.counts.insert(text.copied()?, 1)?;
        Ok(0)
    }
}
