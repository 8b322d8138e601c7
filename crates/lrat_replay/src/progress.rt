//! How far a replay has come. A line that is whole in a piece is judged where it lies; only one that a piece's end cuts is
//! put together.

ghost use Rattle.std.specs.Prelude.{ℕ, ◌≡◌, ◌+◌, ◌^◌, ◌-◌, ◌<◌, ◌≤◌, ◌∷◌, ◌++◌, List, [], IfErr, IfOk, IfNone, IfSome, IsErrOf, IsOk, OnOk, false, true, length, vec_len};
ghost use Rattle.lrat_lines.specs.Judge.{given};
ghost use Rattle.lrat_lines.specs.Replay.{ComesTo};
ghost use Rattle.lrat_lines.specs.Replay.Verdict.{Undecided};
ghost use Rattle.lrat_replay.specs.Leads.{Leads};
ghost use Rattle.lrat_replay.specs.Line.{HasNoEnd};
ghost use Rattle.lrat_replay.specs.Memory.{IsMemory};
ghost use Rattle.lrat_replay.specs.Told.{Brings};

use crate::stop::{ReplayStop, refused};
use lrat_judge::{Judge, Judged};
use lrat_lines::{LineStop, read_line};
use memchr::memchr;
use sat_form::Cnf;
use std::alloc::{AllocError, Global};

/// How far a replay has come: the clauses, the bytes of the line that a piece's end has cut, how many lines are judged,
/// and how many bytes may still be taken.
#[derive(Drop)]
pub(crate) struct Progress {
    judge: Judge,
    begun: Vec<u8>,
    judged: u64,
    pub(crate) left: u64,
    ghost one_line: { HasNoEnd begun.items },
}

/// Judges a line. Answers whether it adds the empty clause.
fn judge_line(
    alloc: Global,
    judge: &mut Judge,
    number: u64,
    text: &[u8],
) -> Result<bool, ReplayStop>
    ensures { (rest : List (List ℕ)) → Leads result (ComesTo judge.old number (text.now ∷ rest)) (ComesTo judge.new (number + 1) rest) }
{
    let line = match read_line(alloc, text) {
        Ok(line) => line,
        Err(LineStop::Bad) => return Err(ReplayStop::Bad(number)),
        Err(LineStop::Memory(error)) => return Err(ReplayStop::Memory(error)),
    };
    match judge.take(line)? {
        Judged::Refused(cause) => Err(refused(number, cause)),
        Judged::Kept => Ok(false),
        Judged::Empty => Ok(true),
    }
}

/// The bytes before the first LF, and those behind it.
fn split_line(bytes: &[u8]) -> Option<(&[u8], &[u8])>
    ensures some { IfSome result (λ p. bytes.now ≡ p.0.now ++ 10 ∷ p.1.now) }
    ensures line { IfSome result (λ p. HasNoEnd p.0.now) }
    ensures none { IfNone result (HasNoEnd bytes.now) }
{
    let end = memchr(b'\n', bytes)?;
    let (line, behind) = bytes.split_at(end);
    Some((line, &behind[1..]))
}

impl Progress {
    ghost use Rattle.lrat_replay.specs.Passed.{Accepts, GoesOn};
    ghost use Rattle.lrat_replay.specs.Standing.{WillAnswer, WillComeTo};

    /// Nothing is judged.
    pub(crate) fn new(alloc: Global, cnf: &Cnf, most: u64) -> Result<Progress, AllocError>
        ensures judge { IfOk result (λ p. p.judge ≡ given cnf.now.clauses) }
        ensures begun { IfOk result (λ p. p.begun.items ≡ []) }
        ensures judged { IfOk result (λ p. p.judged ≡ 0) }
        ensures left { IfOk result (λ p. p.left ≡ most) }
    {
        Ok(Progress {
            judge: Judge::new(alloc, cnf)?,
            begun: Vec::new(alloc),
            judged: 0,
            left: most,
        })
    }

    /// Judges the line that has begun, whose last bytes these are. Answers whether it adds the empty clause.
    fn end_line(&mut self, alloc: Global, end: &[u8]) -> Result<bool, ReplayStop>
        requires judged { self.old.judged < 2 ^ 64 - 1 }
        requires one_line { HasNoEnd end.now }
        ensures leads { (rest : List (List ℕ)) → Leads result (ComesTo self.old.judge (self.old.judged + 1) ((self.old.begun.items ++ end.now) ∷ rest)) (ComesTo self.new.judge (self.new.judged + 1) rest) }
        ensures begun { OnOk result (self.new.begun.items ≡ []) }
        ensures judged { self.new.judged ≡ self.old.judged + 1 }
        ensures left { self.new.left ≡ self.old.left }
    {
        self.judged += 1;
        if self.begun.is_empty() {
            return judge_line(alloc, &mut self.judge, self.judged, end);
        }
        self.begun.extend_from_slice(end)?;
        let is_last = judge_line(alloc, &mut self.judge, self.judged, &self.begun);
        self.begun.clear();
        is_last
    }

    /// Takes a piece of the text and judges each line that ends in it. Answers whether one adds the empty clause.
    pub(crate) fn feed(&mut self, alloc: Global, piece: &[u8]) -> Result<bool, ReplayStop>
        requires { self.old.judged + vec_len self.old.begun + length piece.now < 2 ^ 64 }
        ensures leads { (most : ℕ) (rest : List ℕ) → Leads result (WillComeTo self.old (length piece.now + most) (piece.now ++ rest)) (WillComeTo self.new most rest) }
        ensures judged { OnOk result (self.new.judged + vec_len self.new.begun ≤ self.old.judged + vec_len self.old.begun + length piece.now) }
        ensures left { self.new.left ≡ self.old.left }
    {
        let mut rest = piece;
        'lines: while let Some((line, behind)) = split_line(rest) {
            if self.end_line(alloc, line)? {
                return Ok(true);
            }
            rest = behind;
        }
        self.begun.extend_from_slice(rest)?;
        Ok(false)
    }

    /// Takes the next bytes of the text, as many of them as may be taken. Answers whether a line adds the empty clause.
    pub(crate) fn take(&mut self, alloc: Global, bytes: &[u8]) -> Result<bool, ReplayStop>
        requires { self.old.judged + vec_len self.old.begun + self.old.left < 2 ^ 64 }
        ensures answers { (rest : List ℕ) → Brings result (WillAnswer self.old (bytes.now ++ rest)) (WillAnswer self.new rest) }
        ensures accepts { IfOk result (λ ended. ended ≡ true → Accepts self.old bytes.now) }
        ensures goes_on { IfOk result (λ ended. ended ≡ false → GoesOn self.old bytes.now self.new) }
        ensures taken { IfOk result (λ ended. ended ≡ false → self.old.left ≡ self.new.left + length bytes.now) }
        ensures judged { IfOk result (λ ended. ended ≡ false → self.new.judged + vec_len self.new.begun + self.new.left < 2 ^ 64) }
        ensures too_long { IsErrOf result ReplayStop.TooLong → self.old.left < length bytes.now }
        ensures inside { IsErrOf result ReplayStop.ReadFault → ⊥ }
    {
        let taken = self.left.min(bytes.len() as u64) as usize;
        if self.feed(alloc, &bytes[..taken])? {
            return Ok(true);
        }
        if taken < bytes.len() {
            return Err(ReplayStop::TooLong);
        }
        self.left -= taken as u64;
        Ok(false)
    }

    /// Judges what has begun at the end of the text. Answers whether it adds the empty clause.
    fn judge_rest(&mut self, alloc: Global) -> Result<bool, ReplayStop>
        requires { self.old.judged + vec_len self.old.begun < 2 ^ 64 }
        ensures { (most : ℕ) → Leads result (WillComeTo self.old most []) (λ v. v ≡ Undecided) }
    {
        if self.begun.is_empty() {
            return Ok(false);
        }
        self.end_line(alloc, &[])
    }

    /// The answer at the end of the text: Ok where what has begun adds the empty clause.
    pub(crate) fn finish(&mut self, alloc: Global) -> Result<(), ReplayStop>
        requires { self.old.judged + vec_len self.old.begun < 2 ^ 64 }
        ensures ok { IsOk result → WillAnswer self.old [] result }
        ensures err { IfErr result (λ stop. ¬ (IsMemory stop) → WillAnswer self.old [] result) }
        ensures too_long { IsErrOf result ReplayStop.TooLong → ⊥ }
        ensures inside { IsErrOf result ReplayStop.ReadFault → ⊥ }
    {
        match self.judge_rest(alloc) {
            Ok(true) => Ok(()),
            Ok(false) => Err(ReplayStop::NoEmpty),
            Err(stop) => Err(stop),
        }
    }
}
