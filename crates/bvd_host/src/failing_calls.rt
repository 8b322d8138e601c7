//! Counts calls and lets some fail: one counter serves all objects in memory, so that they fail alike.
ghost use Rattle.std.specs.Prelude.{◌≡◌};
ghost use Rattle.bvd_host.specs.Calls.{no_calls, next_call, is_failing};
ghost use Rattle.bvd_host.specs.Failing.{calls_of};

/// Counts the calls of an object in memory, from 1 on; those whose numbers are listed fail.
#[derive(Drop)]
pub(crate) struct FailingCalls {
    failing: Vec<u64>,
    made: u64,
}

impl FailingCalls {
    /// No call was made yet; `failing` has the numbers of those that are to fail, in any order.
    pub(crate) fn new(failing: Vec<u64>) -> FailingCalls
        ensures { calls_of result ≡ no_calls failing.items }
    {
        FailingCalls { failing, made: 0 }
    }

    /// Counts a call, and tells whether it is one of those that fail. Time: O(numbers listed).
    pub(crate) fn is_next_failing(&mut self) -> bool
        ensures counted { calls_of self.new ≡ next_call (calls_of self.old) }
        ensures listed { result ≡ is_failing (calls_of self.new) }
    {
        self.made = self.made.saturating_add(1);
        let call = self.made;
        self.failing.contains(&call)
    }
}
