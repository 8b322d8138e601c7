//! Texts are written to a sink, in as many pieces as the sink takes.
ghost use Rattle.std.specs.Prelude.{◌≡◌, ◌<◌, ◌≤◌, ◌+◌, ◌++◌, ℕ, drop, length, take, option_map, OnOk, OnErr, IfOk, IsErrOf};
ghost use Rattle.bvd_host.specs.Causes.{HasCause};

use crate::stop::Stop;
use bvd_host::{Sink, SinkStop};

/// The most bytes of a piece.
const PIECE: usize = 4_096;

/// Writes a piece of a text from a place on, or the beginning of one, and answers how many bytes.
fn tell_piece<S: Sink>(out: &mut S, text: &[u8], at: usize) -> Result<usize, Stop>
    requires { at < length text.now }
    ensures some { IfOk result (λ n. 0 < n) }
    ensures within { IfOk result (λ n. at + n ≤ length text.now) }
    ensures ok { IfOk result (λ n. S.written out.new ≡ option_map (λ w. w ++ take n (drop at text.now)) (S.written out.old)) }
    ensures err { OnErr result (S.written out.new ≡ S.written out.old) }
    ensures cause { HasCause Stop.Device (S.faults out.old) (S.faults out.new) result }
{
    let end = text.len().min(at + PIECE);
    match out.write(&text[at..end]) {
        Ok(count) => Ok(count),
        Err(SinkStop::Failed) => Err(Stop::Device),
        Err(SinkStop::Memory(_)) => Err(Stop::Memory),
    }
}

/// Writes a text. After an error a beginning of the text is written.
/// Errors: the sink failed, or want of memory. Cost: linear in the text.
pub fn tell<S: Sink>(out: &mut S, text: &[u8]) -> Result<(), Stop>
    ensures ok { OnOk result (S.written out.new ≡ option_map (λ w. w ++ text.now) (S.written out.old)) }
    ensures err { OnErr result ((n : ℕ) × (n < length text.now) × (S.written out.new ≡ option_map (λ w. w ++ take n text.now) (S.written out.old))) }
    ensures cause { HasCause Stop.Device (S.faults out.old) (S.faults out.new) result }
{
    let mut at = 0usize;
    'pieces: while at < text.len() {
        at += tell_piece(out, text, at)?;
    }
    Ok(())
}
