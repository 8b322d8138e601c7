//! What the runs of the commands say of one another, as the contract of a function that does nothing.

ghost use Rattle.std.specs.Prelude.{ℕ};
ghost use Rattle.bvd_host.specs.Causes.{Rose};
ghost use Rattle.bvd_top.specs.Laws.{LaterCheckAccepts};

use bv_parse::one_answer;

/// Each goal that a run of `prove`, `alone` or `schedule` told proved, and that names no stored certificate, is told accepted by a
/// later `check` of the same theorem files over the files that this run left, or the check tells that it is out of memory
/// for it. The budgets of both runs and whether they are quiet don't matter. It is said of runs whose certificates were all
/// written, where nobody else writes the files in between, and where no certificate has the name of one of the theorem
/// files. Cost: none.
pub fn later_checks_accept()
    // What became of the files of both runs is told as by `done` of `run_single`.
    ensures done { LaterCheckAccepts ⊥ ⊥ }

    // It is told as by `ending` of `run_single`: each run has its count of missing files before and after it.
    ensures ending { (before between start after : ℕ) → LaterCheckAccepts (Rose before between) (Rose start after) }
{
    one_answer();
}
