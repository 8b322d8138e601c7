//! The checker: reads the text piece by piece, and answers as soon as the lines decide.

ghost use Rattle.std.specs.Prelude.{ℕ, ◌≡◌, ◌+◌, ◌-◌, ◌^◌, ◌<◌, ◌≤◌, List, Some, IfErr, IfOk, IsErrOf, IsOk, OnErr, false, true, length, vec_len};
ghost use Rattle.bvd_host.specs.Causes.{HasCause};
ghost use Rattle.bvd_host.specs.Given.{Gives, GivesAtMost};
ghost use Rattle.sat_form.specs.Truth.{HaveNoValues};
ghost use Rattle.lrat_replay.specs.Answer.{Answers, IsFromText};
ghost use Rattle.lrat_replay.specs.Behind.{TookBehindProof};
ghost use Rattle.lrat_replay.specs.Passed.{Passes, Stops, StopsAtLast};
ghost use Rattle.lrat_replay.specs.Standing.{WillAnswer};
ghost use Rattle.lrat_replay.specs.Taken.{TookAtMost};
ghost use Rattle.lrat_replay.specs.Memory.{IsOutside};
ghost use Rattle.lrat_replay.specs.Told.{Brings, Ends, IsAbove, OfText};

use crate::progress::Progress;
use crate::stop::ReplayStop;
use bvd_host::{Source, SourceStop};
use lrat_lines::{checked_lines_are_accepted, checked_lines_refute};
use sat_form::Cnf;
use std::alloc::Global;

/// How many bytes are read at once.
const PIECE: usize = 65536;

/// Reads into the front of a piece, and answers how many bytes.
fn read_piece<R: Source>(
    source: &mut R,
    piece: &mut [u8],
    wanted: usize,
) -> Result<usize, ReplayStop>
    requires some { 0 < wanted }
    requires within { wanted ≤ length piece.old }
    ensures count { IfOk result (λ n. n ≤ length piece.new) }
    ensures most { IfOk result (λ n. n ≤ wanted) }
    ensures bytes { IfOk result (λ n. Gives (R.left source.old) (R.left source.new) n piece.new) }
    ensures room { IfOk result (λ n. GivesAtMost (R.room source.old) (R.room source.new) n) }
    ensures stop { IfErr result IsOutside }
    ensures err { OnErr result (R.left source.new ≡ R.left source.old) }
    ensures cause { HasCause ReplayStop.ReadFault (R.faults source.old) (R.faults source.new) result }
    ensures missing { R.missing source.new ≡ R.missing source.old }
    ensures base { R.base source.new ≡ R.base source.old }
    ensures lender { R.lender source.new ≡ R.lender source.old }
{
    match source.read(&mut piece[..wanted]) {
        Ok(count) => Ok(count),
        Err(SourceStop::Failed) => Err(ReplayStop::ReadFault),
        Err(SourceStop::Memory(error)) => Err(ReplayStop::Memory(error)),
    }
}

/// Reads a piece and judges each line that ends in it, at the end of the text the last one too. Answers whether a line
/// adds the empty clause.
fn advance<R: Source>(
    alloc: Global,
    progress: &mut Progress,
    source: &mut R,
    piece: &mut [u8],
) -> Result<bool, ReplayStop>
    requires bytes { progress.old.judged + vec_len progress.old.begun + progress.old.left < 2 ^ 64 }
    requires piece { length piece.old ≡ PIECE }
    ensures bytes { IfOk result (λ ended. ended ≡ false → progress.new.judged + vec_len progress.new.begun + progress.new.left < 2 ^ 64) }
    ensures shorter { IfOk result (λ ended. ended ≡ false → progress.new.left < progress.old.left) }
    ensures answers { Brings result (λ r. OfText (R.left source.old) (λ text. WillAnswer progress.old text r)) (λ r. OfText (R.left source.new) (λ text. WillAnswer progress.new text r)) }
    ensures too_long { IsErrOf result ReplayStop.TooLong → IsAbove (R.room source.old) progress.old.left }
    ensures taken { TookAtMost (R.left source.old) (R.left source.new) (progress.old.left + 1) }
    ensures went { IfOk result (λ ended. ended ≡ false → TookAtMost (R.left source.old) (R.left source.new) (progress.old.left - progress.new.left)) }
    ensures passed { IfOk result (λ ended. ended ≡ false → Passes (R.left source.old) (R.left source.new) progress.old progress.new) }
    ensures stopped { IfOk result (λ ended. ended ≡ true → Stops PIECE (R.left source.old) (R.left source.new) progress.old) }
    ensures room { IfOk result (λ ended. ended ≡ false → IsAbove (R.room source.new) progress.new.left → IsAbove (R.room source.old) progress.old.left) }
    ensures cause { HasCause ReplayStop.ReadFault (R.faults source.old) (R.faults source.new) result }
    ensures missing { R.missing source.new ≡ R.missing source.old }
    ensures base { R.base source.new ≡ R.base source.old }
    ensures lender { R.lender source.new ≡ R.lender source.old }
{
    let wanted = progress.left.min(PIECE as u64 - 1) as usize + 1;
    let count = read_piece(source, piece, wanted)?;
    if count == 0 {
        progress.finish(alloc)?;
        return Ok(true);
    }
    progress.take(alloc, &piece[..count])
}

/// Reads pieces until a line adds the empty clause, or the text is refused or ends.
fn run<R: Source>(alloc: Global, progress: &mut Progress, source: &mut R) -> Result<(), ReplayStop>
    requires { progress.old.judged + vec_len progress.old.begun + progress.old.left < 2 ^ 64 }
    ensures answers { Ends result (λ r. OfText (R.left source.old) (λ text. WillAnswer progress.old text r)) }
    ensures taken { TookAtMost (R.left source.old) (R.left source.new) (progress.old.left + 1) }
    ensures stopped { IsOk result → StopsAtLast PIECE (R.left source.old) (R.left source.new) progress.old }
    ensures too_long { IsErrOf result ReplayStop.TooLong → IsAbove (R.room source.old) progress.old.left }
    ensures cause { HasCause ReplayStop.ReadFault (R.faults source.old) (R.faults source.new) result }
    ensures missing { R.missing source.new ≡ R.missing source.old }
    ensures base { R.base source.new ≡ R.base source.old }
    ensures lender { R.lender source.new ≡ R.lender source.old }
{
    let mut piece = vec![in alloc; 0u8; PIECE]?;
    'pieces: loop {
        if advance(alloc, progress, source, &mut piece)? {
            return Ok(());
        }
    }
}

/// Replays a certificate over clauses: whether its lines, of which at most `most` bytes are taken, check up to one that
/// adds the empty clause (LRAT).
///
/// The lines are judged in order, each as soon as it is whole, up to the first one that adds the empty clause or that
/// doesn't check, and the answer is the one of the text, however the source cuts it:
///
/// - `Ok`: a line adds the empty clause, and it and all before it check. Then no values satisfy the clauses.
/// - `Bad`: the line isn't one of the grammar.
/// - `IdInUse`: the line adds a clause under an id that is in use.
/// - `NoClause`: a hint or a group of the line names a clause that isn't there.
/// - `NotUnit`: a hint's clause is neither wholly false nor unit when its turn comes.
/// - `NoConflict`: the line's hints, or those of a group, end without a conflict.
/// - `MissingGroup`: this clause has the negated pivot, no group, and no other literal that is true.
/// - `StrangeGroup`: a group is for this clause, which lacks the negated pivot.
/// - `NoEmpty`: the text ends, all its lines check, and none adds the empty clause.
/// - `TooLong`: `most` bytes were taken, those of its lines that LF ends don't decide, and a further byte came.
/// - `ReadFault`: a read of this call failed, and the source's count of faults rose.
/// - `Memory`: there was no memory.
///
/// At most 65,536 bytes are read at once, and after `Ok` at most 65,535 were taken behind the end of the line that adds
/// the empty clause. Time: the reads, the bytes taken, and what judging takes. Memory: the clauses,
/// one line, and one piece.
pub fn replay<R: Source>(
    alloc: Global,
    cnf: &Cnf,
    source: &mut R,
    most: u64,
) -> Result<(), ReplayStop>
    // Which answer the text has.
    ensures exact { (text : List ℕ) → R.left source.old ≡ Some text → Answers cnf.now.clauses most text result }
    // Where no text is told, the answer is the one of some text.
    ensures told_or_not { IsFromText result → (text : List ℕ) × Answers cnf.now.clauses most text result }
    ensures refuted { IsOk result → HaveNoValues cnf.now.clauses }
    ensures short { (room : ℕ) → R.room source.old ≡ Some room → room ≤ most → IsErrOf result ReplayStop.TooLong → ⊥ }
    ensures taken { TookAtMost (R.left source.old) (R.left source.new) (most + 1) }
    // How much it takes behind the line that adds the empty clause.
    ensures behind { (text : List ℕ) → R.left source.old ≡ Some text → IsOk result → TookBehindProof 65535 cnf.now.clauses text (R.left source.new) }
    ensures cause { HasCause ReplayStop.ReadFault (R.faults source.old) (R.faults source.new) result }
    // No read failed unless the answer says so.
    ensures unfailing { IsFromText result → R.faults source.new ≡ R.faults source.old }
    ensures missing { R.missing source.new ≡ R.missing source.old }
    ensures base { R.base source.new ≡ R.base source.old }
    ensures lender { R.lender source.new ≡ R.lender source.old }
{
    checked_lines_refute();
    checked_lines_are_accepted();
    let mut progress = Progress::new(alloc, cnf, most)?;
    run(alloc, &mut progress, source)
}
