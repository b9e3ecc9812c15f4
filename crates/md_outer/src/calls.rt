ghost use Rattle.std.specs.Prelude.{◌≡◌, ◌↔◌, IsTrue};
ghost use Rattle.md_outer.specs.Calls.{IsBad, calls_of, one_more};

/// The calls of one kind: how many have come, and the numbers of those that are to fail, counted
/// from 0.
#[derive(Drop)]
pub(crate) struct Calls {
    bad: Vec<u64>,
    made: u64,
}

impl Calls {
    pub(crate) fn new(bad: Vec<u64>) -> Self
        ensures { calls_of result ≡ record { bad = bad.items; made = 0 } }
    {
        Calls { bad, made: 0 }
    }

    /// Counts a call, and answers whether it is to fail.
    pub(crate) fn next_fails(&mut self) -> bool
        ensures fails { IsTrue result ↔ IsBad (calls_of self.old) }
        ensures counted { calls_of self.new ≡ one_more (calls_of self.old) }
    {
        let fails = self.bad.contains(&self.made);
        self.made = self.made.saturating_add(1);
        fails
    }
}
