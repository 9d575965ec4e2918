//! The calls of a stream, of which those with given numbers fail.

ghost use Rattle.std.specs.Prelude.{◌≡◌, ◌+◌, ◌≤◌, ◌↔◌, min, IsTrue, MatchBool};
ghost use Rattle.std.specs.List.{Contains};
ghost use Rattle.rx_core.specs.Streams.{Rose};

use crate::list::List;

/// How many calls were made, and how many of them failed: those whose numbers, from 0, are in `fails`. Both counts stay
/// at their last value, so all calls from the number 18446744073709551615 on have that number.
#[derive(Drop)]
pub struct Calls {
    fails: List<u64>,
    made: u64,
    faults: u64,
}

impl Calls {
    /// No call so far.
    pub fn new(fails: List<u64>) -> Calls
        ensures { (result.fails ≡ fails) × (result.made ≡ 0) × (result.faults ≡ 0) }
    {
        Calls {
            fails,
            made: 0,
            faults: 0,
        }
    }

    /// Counts one more call, and gives whether it fails.
    pub fn fails_next(&mut self) -> bool
        ensures value { IsTrue result ↔ Contains self.old.fails self.old.made }
        ensures fails { self.new.fails ≡ self.old.fails }
        ensures made { self.new.made ≡ min (self.old.made + 1) 18446744073709551615 }
        ensures counted { (self.old.made ≤ self.new.made) × (self.new.made ≤ self.old.made + 1) }
        ensures risen { self.old.faults ≤ self.new.faults }
        ensures faults { MatchBool result (Rose self.old.faults self.new.faults) (self.new.faults ≡ self.old.faults) }
    {
        let is_failing = self.fails.as_slice().contains(&self.made);
        self.made = self.made.saturating_add(1);
        if is_failing {
            self.faults = self.faults.saturating_add(1);
        }
        is_failing
    }
}
