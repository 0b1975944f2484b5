ghost use Rattle.std.specs.Prelude.{◌≡◌, ◌≤◌};
ghost use Rattle.es_outside.specs.Counts.{CountRose, counted};

use crate::FaultCount;
use sqlite_items::Items;

/// Counts the calls of an object in memory, from 0, and its faults.
///
/// The number of a call stays at 4294967295, and no call from there on fails by its number.
#[derive(Debug, Drop)]
pub(crate) struct Calls {
    failing: Items<u32>,
    next: u32,
    faults: FaultCount,
}

impl Calls {
    ghost use Rattle.es_outside.specs.Calls.{calls_before, fails_by_number, after_call};

    /// No call yet; those with these numbers are to fail.
    pub(crate) fn new(failing: Vec<u32>) -> Calls
        ensures { result ≡ calls_before failing.items }
    {
        Calls {
            failing: Items::from_vec(failing),
            next: 0,
            faults: FaultCount::new(),
        }
    }

    /// Counts a call, and answers whether it fails by its number.
    pub(crate) fn next_fails(&mut self) -> bool
        ensures answer { result ≡ fails_by_number self.old }
        ensures call { self.new ≡ after_call self.old }
    {
        let number = self.next;
        self.next = number.saturating_add(1);
        number < u32::MAX && self.failing.as_slice().contains(&number)
    }

    /// Counts a fault.
    pub(crate) fn fault(&mut self)
        ensures fault { self.new ≡ record self.old { faults = counted self.old.faults } }
        ensures no_fall { self.old.faults ≤ self.new.faults }
        ensures rose { CountRose self.old.faults self.new.faults }
    {
        self.faults.raise();
    }
}
