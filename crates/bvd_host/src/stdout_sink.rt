//! The standard output, as a sink. It tells nothing of what was written, since no proof can see a terminal.
ghost use Rattle.std.specs.Prelude.{◌≡◌, ◌++◌, None, take, option_map, IfOk, OnErr};
ghost use Rattle.bvd_host.specs.Files.{IsTaken};
ghost use Rattle.bvd_host.specs.Causes.{HasCause};
ghost use Rattle.bvd_host.specs.Devices.{SinkCounts};

use crate::sink::{Sink, SinkStop};

/// The standard output. Every refusal raises its count of faults. Tells nothing.
#[derive(Drop)]
pub struct StdoutSink<'a, R: Print> {
    rt: &'a R,
    faults: u64,
}

impl<'a, R: Print> StdoutSink<'a, R> {
    /// Nothing has failed yet.
    pub fn new(rt: &'a R) -> StdoutSink<'a, R>
        ensures { ⟦<StdoutSink<'a, R> as Sink>⟧.faults result ≡ 0 }
    {
        StdoutSink { rt, faults: 0 }
    }
}

impl<'a, R: Print> Sink for StdoutSink<'a, R> {
    ghost written = { λ s. None };

    ghost faults = { λ s. s.faults };

    /// Writes once; a device that takes nothing of a piece with bytes has failed.
    fn write(&mut self, bytes: &[u8]) -> Result<usize, SinkStop>
        ensures count { IfOk result (λ n. IsTaken n bytes.now) }
        ensures ok { IfOk result (λ n. ⟦<StdoutSink<'a, R> as Sink>⟧.written self.new ≡ option_map (λ w. w ++ take n bytes.now) (⟦<StdoutSink<'a, R> as Sink>⟧.written self.old)) }
        ensures err { OnErr result (⟦<StdoutSink<'a, R> as Sink>⟧.written self.new ≡ ⟦<StdoutSink<'a, R> as Sink>⟧.written self.old) }
        ensures cause { HasCause SinkStop.Failed (⟦<StdoutSink<'a, R> as Sink>⟧.faults self.old) (⟦<StdoutSink<'a, R> as Sink>⟧.faults self.new) result }
        ensures counts { SinkCounts (⟦<StdoutSink<'a, R> as Sink>⟧.faults self.old) (⟦<StdoutSink<'a, R> as Sink>⟧.faults self.new) result }
    {
        match self.rt.write_some(bytes) {
            Ok(count) if 0 < count || bytes.is_empty() => Ok(count),
            _ => {
                self.faults = self.faults.saturating_add(1);
                Err(SinkStop::Failed)
            }
        }
    }
}
