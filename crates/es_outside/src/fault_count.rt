ghost use Rattle.std.specs.Prelude.{◌≡◌, ◌≤◌};
ghost use Rattle.es_outside.specs.Counts.{CountRose, counted};

use std::marker::Model;

/// How often an object of the outside has failed. The count stays at 18446744073709551615 once it is there.
#[derive(Debug, Drop)]
pub struct FaultCount {
    count: u64,
}

impl Model for FaultCount {
    ghost use Rattle.std.specs.Prelude.{ℕ};

    ghost Value = { ℕ };

    ghost view = { λ faults. faults.count };
}

impl FaultCount {
    /// No fault yet.
    pub fn new() -> FaultCount
        ensures { result ≡ 0 }
    {
        FaultCount { count: 0 }
    }

    /// Counts a fault.
    pub fn raise(&mut self)
        ensures count { self.new ≡ counted self.old }
        ensures no_fall { self.old ≤ self.new }
        ensures rose { CountRose self.old self.new }
    {
        self.count = self.count.saturating_add(1);
    }
}
