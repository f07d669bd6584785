//! The numbered calls of an implementation in memory, some of which are to fail.

ghost use Rattle.std.specs.Prelude.{◌≡◌, ◌↔◌, ◌⊎◌, Contains, IsTrue, if◌then◌else◌};
ghost use Rattle.fix_io.specs.Causes.{one_more};

/// The number of the next call, the numbers of those that fail, and how many have failed.
#[derive(Drop)]
pub(crate) struct Calls {
    pub next: u64,
    pub fails: Vec<u64>,
    pub faults: u64,
}

impl Calls {
    /// No call yet; those with the given numbers, counted from nought, will fail.
    pub fn new(fails: Vec<u64>) -> Calls
        ensures start { (result.next ≡ 0) × (result.faults ≡ 0) }
        ensures fails { result.fails.items ≡ fails.items }
    {
        Calls {
            next: 0,
            fails,
            faults: 0,
        }
    }

    /// Takes the next number, and answers whether that call fails: where its number is one of those,
    /// or where it can't be done.
    pub fn next_fails(&mut self, impossible: bool) -> bool
        ensures exact { IsTrue result ↔ (IsTrue impossible ⊎ Contains self.old.fails.items self.old.next) }
        ensures next { self.new.next ≡ one_more self.old.next }
        ensures fails { self.new.fails.items ≡ self.old.fails.items }
        ensures faults { self.new.faults ≡ (if result then one_more self.old.faults else self.old.faults) }
    {
        let fails = impossible || self.fails.contains(&self.next);
        self.next = self.next.saturating_add(1);
        if fails {
            self.faults = self.faults.saturating_add(1);
        }
        fails
    }
}
