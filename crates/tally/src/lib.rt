// The count that a program of samples keeps: how many were run, and how many of them failed.
#![tactic(auto)]

ghost use Rattle.std.specs.Prelude.{◌≡◌, ◌+◌, ◌%◌, ◌^◌, if◌then◌else◌};

// How many samples were run, and how many failed. Each count goes round at 2 ^ 64, which no program reaches.
#[derive(Clone, Copy, Debug)]
pub struct Tally {
    pub run: u64,
    pub failed: u64,
}

impl Tally {
    // Nothing was run yet.
    pub fn new() -> Tally
        ensures run { result.run ≡ 0 }
        ensures failed { result.failed ≡ 0 }
    {
        Tally { run: 0, failed: 0 }
    }

    // One sample more, and whether it passed.
    pub fn tried(&mut self, passed: bool)
        ensures run { self.new.run ≡ (self.old.run + 1) % 2 ^ 64 }
        ensures failed { self.new.failed ≡ (if passed then self.old.failed else (self.old.failed + 1) % 2 ^ 64) }
    {
        self.run = self.run.wrapping_add(1);
        if !passed {
            self.failed = self.failed.wrapping_add(1);
        }
    }
}
