//! The calls at which a device in memory is to fail.

ghost use Rattle.std.specs.Prelude.{◌≡◌, ◌≤◌, ◌^◌, ◌-◌, ◌+◌, min, IsTrue, if◌then◌else◌};
ghost use Rattle.store_io.specs.Counts.{Rose, is_listed, next_count};

/// Counts a device's calls, and knows those that are to fail.
#[derive(Drop)]
pub(crate) struct FailingCalls {
    // the numbers of the calls that fail, counted from 1
    pub(crate) fails: Vec<u64>,
    // how many calls were made
    pub(crate) calls: u64,
    // how many of them failed
    pub(crate) faults: u64,
}

impl FailingCalls {
    pub(crate) fn new(fails: Vec<u64>) -> FailingCalls
        ensures fails { result.fails ≡ fails }
        ensures calls { result.calls ≡ 0 }
        ensures faults { result.faults ≡ 0 }
    {
        FailingCalls {
            fails,
            calls: 0,
            faults: 0,
        }
    }

    // counts a call, and answers whether it is to fail
    pub(crate) fn next_fails(&mut self) -> bool
        ensures listed { result ≡ is_listed self.old.fails.items self.new.calls }
        ensures calls { self.new.calls ≡ next_count self.old.calls }
        ensures fails { self.new.fails ≡ self.old.fails }
        ensures later { self.old.faults ≤ self.new.faults }
        ensures rose { IsTrue result → Rose self.old.faults self.new.faults }
        ensures stays { self.new.faults ≡ (if result then next_count self.old.faults else self.old.faults) }
    {
        self.calls = self.calls.saturating_add(1);
        let call = self.calls;
        let fails = self.fails.iter().any(|fail| *fail == call);
        if fails {
            self.faults = self.faults.saturating_add(1);
        }
        fails
    }
}
