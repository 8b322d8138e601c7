//! What `check` tells of a goal: how the replay of its stored certificate ends. Nothing of a certificate is trusted, so an
//! acceptance says that no values satisfy the clauses, whatever the keeper gave. The keeper is lent to the source that
//! the replay reads, and comes back with the files that it had.
ghost use Rattle.std.specs.Prelude.{◌≡◌, ◌↔◌, ◌≤◌, ◌-◌, ◌^◌, ℕ, List, length, option_map, Some, IfSome, IfOk, IsOk, IsErrOf};
ghost use Rattle.bvd_host.specs.Causes.{Rose, HasCause};
ghost use Rattle.bvd_host.specs.Files.{file_at};
ghost use Rattle.bv_expr.specs.Statement.{statement_of};
ghost use Rattle.sat_form.specs.Truth.{HaveNoValues};
ghost use Rattle.lrat_replay.specs.Answer.{Answers, IsFromText};
ghost use Rattle.bvd_report.specs.Report.{OutOfMemory};
ghost use Rattle.bvd_report.specs.Shown.{told_shown};
ghost use Rattle.bvd_top.specs.Replayed.{IsCertificate, IsEndTold, IsToldBy};
ghost use Rattle.bvd_top.specs.Checked.{IsChecked};

use crate::stop::Stop;
use bv_expr::Goal;
use bvd_host::{Keeper, KeptFile};
use bvd_report::Told;
use cert_store::{StoreStop, find};
use goal_alone::{FormulaStop, formula_of};
use goal_reply::{Outcome, Reply};
use lrat_replay::{ReplayStop, replay};
use sat_form::Cnf;
use std::alloc::Global;

/// Replays the file under a name, which has this size.
fn replay_kept<K: Keeper>(
    alloc: Global,
    keeper: &mut K,
    name: &str,
    size: u64,
    cnf: &Cnf,
) -> Result<(), ReplayStop>
    requires { IfSome (K.files keeper.old) (λ f. option_map length (file_at f name.now) ≡ Some size) }
    ensures answers { IsFromText result → (bytes : List ℕ) × IsCertificate (K.files keeper.old) name.now bytes × Answers cnf.now.clauses (2 ^ 64 - 1) bytes result }
    ensures short { ¬ (IsErrOf result ReplayStop.TooLong) }
    ensures refuted { IsOk result → HaveNoValues cnf.now.clauses }
    ensures files { K.files keeper.new ≡ K.files keeper.old }
    ensures missing { K.missing keeper.new ≡ K.missing keeper.old }
    ensures cause { HasCause ReplayStop.ReadFault (K.faults keeper.old) (K.faults keeper.new) result }
{
    let mut file = KeptFile::new(keeper, name, size);
    replay(alloc, cnf, &mut file, u64::MAX)
}

/// Want of memory for a goal.
fn out_of_memory() -> Told
    ensures { told_shown result ≡ OutOfMemory }
{
    Told::Outcome(Outcome::Replied(Reply::Memory))
}

/// Tells how a replay ended.
fn told_end(end: Result<(), ReplayStop>) -> Result<Told, Stop>
    ensures told { IfOk result (λ told. IsEndTold end (told_shown told)) }
    ensures device { IsErrOf result Stop.Device ↔ IsErrOf end ReplayStop.ReadFault }
{
    match end {
        Ok(()) => Ok(Told::Replayed(Ok(()))),
        Err(ReplayStop::ReadFault) => Err(Stop::Device),
        Err(ReplayStop::Memory(_)) => Ok(out_of_memory()),
        Err(refusal) => Ok(Told::Replayed(Err(refusal))),
    }
}

/// What is told of a goal by the certificate under a name, over the clauses of its formula.
///
/// Takes one call of `size` and one of `read_at` for each piece that is read, and the time and memory of a replay of the
/// file's bytes.
fn told_by<K: Keeper>(alloc: Global, keeper: &mut K, name: &str, cnf: &Cnf) -> Result<Told, Stop>
    ensures told { IfOk result (λ told. IsToldBy (K.files keeper.old) (Rose (K.missing keeper.old) (K.missing keeper.new)) name.now cnf.now.clauses (told_shown told)) }
    ensures files { K.files keeper.new ≡ K.files keeper.old }
    ensures missing { K.missing keeper.old ≤ K.missing keeper.new }
    ensures cause { HasCause Stop.Device (K.faults keeper.old) (K.faults keeper.new) result }
{
    match find(keeper, name) {
        Ok(size) => told_end(replay_kept(alloc, keeper, name, size, cnf)),
        Err(StoreStop::Absent) => Ok(Told::AbsentCertificate),
        Err(StoreStop::Failed) => Err(Stop::Device),
        Err(StoreStop::Memory(_)) => Ok(out_of_memory()),
    }
}

/// What the certificate under a name comes to over a goal's clauses, or that these aren't made.
///
/// Where it is accepted the goal is valid, whatever the keeper gave. The files stay as they are. `Device` comes exactly
/// where the keeper failed in this call. Cost: that of making the clauses and of the replay.
pub fn told_check<K: Keeper>(
    alloc: Global,
    keeper: &mut K,
    name: &str,
    goal: &Goal,
) -> Result<Told, Stop>
    ensures told { IfOk result (λ told. IsChecked (K.files keeper.old) (Rose (K.missing keeper.old) (K.missing keeper.new)) name.now (statement_of goal.now) (told_shown told)) }
    ensures files { K.files keeper.new ≡ K.files keeper.old }
    ensures missing { K.missing keeper.old ≤ K.missing keeper.new }
    ensures cause { HasCause Stop.Device (K.faults keeper.old) (K.faults keeper.new) result }
{
    match formula_of(alloc, goal) {
        Ok(formula) => told_by(alloc, keeper, name, &formula.cnf),
        Err(FormulaStop::Deep) => Ok(Told::Outcome(Outcome::Replied(Reply::Deep))),
        Err(FormulaStop::Large) => Ok(Told::Outcome(Outcome::Replied(Reply::Large))),
        Err(FormulaStop::Memory(_)) => Ok(out_of_memory()),
    }
}
