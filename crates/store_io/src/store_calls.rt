//! The calls at which a store in memory is to fail.

ghost use Rattle.std.specs.Prelude.{◌≡◌};
ghost use Rattle.store_io.specs.Counts.{next_count};
ghost use Rattle.store_io.specs.Failures.{entry_of, failure_at};

/// A call of a store that is to fail.
#[derive(Clone, Copy)]
pub struct FailAt {
    /// The number of the call. Calls of `list`, `read`, `replace` and `remove` are counted from 1.
    pub call: u64,
    /// Whether the call makes its change before it fails.
    pub done: bool,
}

/// Counts a store's calls and those that failed, and knows which are to fail.
#[derive(Drop)]
pub(crate) struct StoreCalls {
    // the calls that are to fail; of several entries for one call the first counts
    pub(crate) fails: Vec<FailAt>,
    // the call from which on all are to fail, if there is one
    pub(crate) from: Option<u64>,
    // how many calls were made
    pub(crate) calls: u64,
    // how many of them failed
    pub(crate) faults: u64,
}

// the first entry for that call
fn entry_of(fails: &[FailAt], call: u64) -> Option<FailAt>
    ensures { result ≡ entry_of fails.now call }
{
    for fail in fails {
        if fail.call == call {
            return Some(*fail);
        }
    }
    None
}

impl StoreCalls {
    pub(crate) fn new(fails: Vec<FailAt>, from: Option<u64>) -> StoreCalls
        ensures fails { result.fails ≡ fails }
        ensures from { result.from ≡ from }
        ensures calls { result.calls ≡ 0 }
        ensures faults { result.faults ≡ 0 }
    {
        StoreCalls {
            fails,
            from,
            calls: 0,
            faults: 0,
        }
    }

    // counts a call, and answers how it is to fail, if it is
    pub(crate) fn next(&mut self) -> Option<FailAt>
        ensures failure { result ≡ failure_at self.old.fails.items self.old.from self.new.calls }
        ensures calls { self.new.calls ≡ next_count self.old.calls }
        ensures fails { self.new.fails ≡ self.old.fails }
        ensures from { self.new.from ≡ self.old.from }
        ensures faults { self.new.faults ≡ self.old.faults }
    {
        self.calls = self.calls.saturating_add(1);
        let call = self.calls;
        if let Some(fail) = entry_of(&self.fails, call) {
            return Some(fail);
        }
        match self.from {
            Some(first) if first <= call => Some(FailAt { call, done: false }),
            _ => None,
        }
    }

    // counts that the call failed
    pub(crate) fn fail(&mut self)
        ensures faults { self.new.faults ≡ next_count self.old.faults }
        ensures calls { self.new.calls ≡ self.old.calls }
        ensures fails { self.new.fails ≡ self.old.fails }
        ensures from { self.new.from ≡ self.old.from }
    {
        self.faults = self.faults.saturating_add(1);
    }
}
