//! A sink in memory, whose writes can be made to fail: what a program wrote can be looked at.
ghost use Rattle.std.specs.Prelude.{◌≡◌, ◌++◌, [], Some, take, length, IfOk, OnErr};
ghost use Rattle.bvd_host.specs.Files.{IsTaken};
ghost use Rattle.bvd_host.specs.Causes.{HasCause};
ghost use Rattle.bvd_host.specs.Calls.{no_calls, next_call, faults_after, FailsExactly};
ghost use Rattle.bvd_host.specs.Memory.{sink_bytes, sink_calls, sink_faults};

use crate::failing_calls::FailingCalls;
use crate::sink::{Sink, SinkStop};
use std::alloc::Global;

/// Keeps what is written. The k-th call of `write`, counted from 1, fails where k is listed.
#[derive(Drop)]
pub struct VecSink {
    held: Vec<u8>,
    calls: FailingCalls,
    faults: u64,
}

impl VecSink {
    /// Nothing was written yet; `failing` has the numbers of the writes that are to fail, in any order.
    pub fn new(alloc: Global, failing: Vec<u64>) -> VecSink
        ensures written { sink_bytes result ≡ [] }
        ensures calls { sink_calls result ≡ no_calls failing.items }
        ensures faults { sink_faults result ≡ 0 }
    {
        VecSink {
            held: Vec::new(alloc),
            calls: FailingCalls::new(failing),
            faults: 0,
        }
    }

    /// What was written so far.
    pub fn written(&self) -> &[u8]
        ensures { result.now ≡ sink_bytes self.now }
    {
        &self.held
    }
}

impl Sink for VecSink {
    ghost written = { λ s. Some (sink_bytes s) };

    ghost faults = { sink_faults };

    /// Takes the whole piece. Time: O(length of the piece), amortized.
    fn write(&mut self, bytes: &[u8]) -> Result<usize, SinkStop>
        ensures count { IfOk result (λ n. IsTaken n bytes.now) }
        ensures whole { IfOk result (λ n. n ≡ length bytes.now) }
        ensures ok { IfOk result (λ n. sink_bytes self.new ≡ sink_bytes self.old ++ take n bytes.now) }
        ensures err { OnErr result (sink_bytes self.new ≡ sink_bytes self.old) }
        ensures cause { HasCause SinkStop.Failed (sink_faults self.old) (sink_faults self.new) result }

        // Which calls fail.
        ensures counted { sink_calls self.new ≡ next_call (sink_calls self.old) }
        ensures fails { FailsExactly SinkStop.Failed (sink_calls self.new) result }
        ensures faults { sink_faults self.new ≡ faults_after (sink_calls self.new) (sink_faults self.old) }
    {
        if self.calls.is_next_failing() {
            self.faults = self.faults.saturating_add(1);
            return Err(SinkStop::Failed);
        }
        self.held
            .extend_from_slice(bytes)
            .map_err(SinkStop::Memory)?;
        Ok(bytes.len())
    }
}
