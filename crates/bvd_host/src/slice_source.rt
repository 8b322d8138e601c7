//! A source in memory, which gives its bytes in small pieces and whose reads can be made to fail.
ghost use Rattle.std.specs.Prelude.{◌≡◌, ◌≤◌, ◌<◌, ◌↔◌, ◌++◌, [], min, length, take, drop, Some, None, IfOk, OnErr, OnOk, IsOk, false};
ghost use Rattle.bvd_host.specs.Causes.{HasCause};
ghost use Rattle.bvd_host.specs.Given.{Gives, GivesAtMost};
ghost use Rattle.bvd_host.specs.Calls.{no_calls, next_call, is_failing, faults_after, FailsExactly};

use crate::failing_calls::FailingCalls;
use crate::source::{Source, SourceStop};

/// Gives the bytes of a slice, at most `piece` of them in a read. The k-th call of `read`, counted from 1, fails where k
/// is listed.
#[derive(Drop)]
pub struct SliceSource<'a> {
    bytes: &'a [u8],
    piece: usize,
    calls: FailingCalls,
    faults: u64,
    ghost gives_some: { 1 ≤ piece },
}

impl<'a> SliceSource<'a> {
    ghost use Rattle.bvd_host.specs.Slices.{source_bytes, source_piece, source_calls, source_faults};

    /// Nothing was read yet; `piece` is at least 1, and `failing` has the numbers of the reads that are to fail, in any
    /// order.
    pub fn new(bytes: &'a [u8], piece: usize, failing: Vec<u64>) -> SliceSource<'a>
        requires { 1 ≤ piece }
        ensures left { source_bytes result ≡ bytes.entry.now }
        ensures piece { source_piece result ≡ piece }
        ensures calls { source_calls result ≡ no_calls failing.items }
        ensures faults { source_faults result ≡ 0 }
    {
        SliceSource {
            bytes,
            piece,
            calls: FailingCalls::new(failing),
            faults: 0,
        }
    }
}

impl<'a> Source for SliceSource<'a> {
    ghost use Rattle.bvd_host.specs.Slices.{source_bytes, source_left, source_room, source_missing, source_piece, source_calls, source_faults};

    ghost left = { source_left };

    ghost room = { source_room };

    ghost base = { λ s. None };

    ghost lender = { λ s. 0 };

    ghost faults = { source_faults };

    ghost missing = { source_missing };

    /// Gives as many bytes as are left and fit, at most `piece`. Takes no memory. Time: O(bytes given + numbers listed).
    fn read(&mut self, buf: &mut [u8]) -> Result<usize, SourceStop>
        ensures count { IfOk result (λ n. n ≤ length buf.new) }
        ensures most { IfOk result (λ n. n ≤ source_piece self.old) }
        ensures full { IfOk result (λ n. n ≡ min (min (source_piece self.old) (length buf.new)) (length (source_bytes self.old))) }
        ensures bytes { IfOk result (λ n. Gives (source_left self.old) (source_left self.new) n buf.new) }
        ensures room { IfOk result (λ n. GivesAtMost (source_room self.old) (source_room self.new) n) }
        ensures err { OnErr result ((source_left self.new ≡ source_left self.old) × (source_room self.new ≡ source_room self.old)) }
        ensures missing { source_missing self.new ≡ source_missing self.old }
        ensures cause { HasCause SourceStop.Failed (source_faults self.old) (source_faults self.new) result }
        ensures piece { source_piece self.new ≡ source_piece self.old }

        // Which calls fail.
        ensures counted { source_calls self.new ≡ next_call (source_calls self.old) }
        ensures fails { FailsExactly SourceStop.Failed (source_calls self.new) result }
        ensures ok { is_failing (source_calls self.new) ≡ false → IsOk result }
        ensures faults { source_faults self.new ≡ faults_after (source_calls self.new) (source_faults self.old) }
    {
        if self.calls.is_next_failing() {
            self.faults = self.faults.saturating_add(1);
            return Err(SourceStop::Failed);
        }
        let most = self.piece.min(buf.len());
        let count = most.min(self.bytes.len());
        let (given, rest) = self.bytes.split_at(count);
        buf[..count].copy_from_slice(given);
        self.bytes = rest;
        Ok(count)
    }
}
