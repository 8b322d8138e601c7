//! What a goal has in hand, from its first call to its outcome. What needs no load follows at once behind the step before
//! it: behind the last call of the script the walk begins, and behind the walk's last load the search.

ghost use Rattle.std.specs.Prelude.{◌≡◌, ◌≤◌, ◌^◌, ℕ, List, length, IfOk, IfSome, IfNone, OnErr};
ghost use Rattle.gate_probe.specs.Sound.{IsSound};
ghost use Rattle.gate_world.specs.World.{Actor, begun_at};
ghost use Rattle.gate_world.specs.Work.{is_false};
ghost use Rattle.gate_world.specs.Right.{IsScripted};
ghost use Rattle.gate_world.specs.Coding.{problem_of};
ghost use Rattle.gate_world.specs.Tasks.{IsTask, IsOf, IsBroken, TaskMoves, TaskTurns, FollowsBuild, FollowsWalk, MayWalk, claim_of, nodes_of, outcome_in};
ghost use Rattle.gate_world.specs.Shown.{phase_of};

use crate::build::{Building, Stage, Work, start_building};
use crate::event::Phase;
use crate::solve::{Solved, Solving, start_search};
use crate::walk::{Walked, Walking, start_walk};
use bv_expr::Goal;
use gate_probe::Move;
use goal_reply::{Outcome, Reply};
use std::alloc::{AllocError, Global};

/// What a goal has in hand.
#[derive(Drop)]
pub enum Task {
    /// Its circuit is built in the table.
    Building(Building),
    /// Its cone is walked.
    Walking(Walking),
    /// Its clauses are searched; the nodes of its cone's gates.
    Searching(Solving, Vec<u32>),
    /// It has ended; the nodes of its cone's gates, where it was searched to an end.
    Ended(Outcome, Vec<u32>),
}

/// What follows behind a load of the walk.
fn behind_walk(alloc: Global, walked: Walked, budget: u64) -> Result<Task, AllocError>
    requires { budget ≤ 2 ^ 62 }
    ensures { IfOk result (FollowsWalk budget walked) }
{
    match walked {
        Walked::Asks(walking) => Ok(Task::Walking(walking)),
        Walked::Whole(cone, nodes) => {
            Ok(Task::Searching(start_search(alloc, cone, budget)?, nodes))
        }
    }
}

/// What follows behind a load or claim of a goal that builds.
fn behind_build(alloc: Global, work: Work, budget: u64) -> Result<Task, AllocError>
    requires budget { budget ≤ 2 ^ 62 }
    requires built { MayWalk work }
    ensures { IfOk result (FollowsBuild budget work) }
{
    match work {
        Work::Building(building) => Ok(Task::Building(building)),
        Work::Built(calls) => behind_walk(alloc, start_walk(alloc, &calls)?, budget),
        Work::Deep => Ok(Task::Ended(Outcome::Replied(Reply::Deep), Vec::new(alloc))),
        Work::Full => Ok(Task::Ended(Outcome::Full, Vec::new(alloc))),
    }
}

/// The place that the next step of a goal that builds may write to; where it writes nothing, the first.
fn claimed(building: &Building) -> u32
    ensures { result ≡ claim_of building.now.stage }
{
    match &building.stage {
        Stage::Left | Stage::Right(_) => 0,
        Stage::Probe(prober) => match prober.first() {
            Move::Claim(place, _) => place,
            Move::Load(_) | Move::Found(_) | Move::Full => 0,
        },
    }
}

/// One load or claim of a goal that builds. Where memory is wanting for what follows behind a claim, the word that it wrote is
/// taken back.
fn build_on(
    alloc: Global,
    building: Building,
    goal: &Goal,
    words: &mut [u64],
    budget: u64,
) -> Result<Task, AllocError>
    requires budget { budget ≤ 2 ^ 62 }
    requires task { (a : Actor) × IsTask a words.old budget goal.now (Task.Building building) }
    ensures moves { IfOk result (λ next. TaskMoves words.old budget goal.now (Task.Building building) words.new next) }
    ensures err { OnErr result (words.new ≡ words.old) }
{
    let place = claimed(&building) as usize;
    let before = words[place];
    match behind_build(alloc, building.step(words)?, budget) {
        Ok(task) => Ok(task),
        Err(error) => {
            words[place] = before;
            Err(error)
        }
    }
}

impl Task {
    /// A goal at the first load or claim of its script, over a table of `size` words, 1 to 4,000,000, all of which are
    /// empty. Takes what the script takes. The only error is want of memory.
    pub fn begin(alloc: Global, goal: &Goal, size: u32, budget: u64) -> Result<Task, AllocError>
        requires size { (1 ≤ size) × (size ≤ 4000000) }
        requires budget { budget ≤ 2 ^ 62 }
        ensures scripted { IfOk result (λ task. IsScripted (problem_of goal.now)) }
        ensures begun { IfOk result (λ task. (words : List ℕ) → length words ≡ size → IsSound words → IsTask (begun_at size (problem_of goal.now)) words budget goal.now task) }
    {
        behind_build(alloc, start_building(alloc, goal, size)?, budget)
    }

    /// A goal that has run out of memory.
    pub fn broken(alloc: Global) -> Task
        ensures { IsBroken result }
    {
        Task::Ended(Outcome::Replied(Reply::Memory), Vec::new(alloc))
    }

    /// One load or claim. Where the goal searches or has ended nothing changes. Amortised O(1), but behind the last load of
    /// the walk the clauses are made, by the size of the cone. The only error is want of memory, which leaves the words.
    pub fn step(
        self,
        alloc: Global,
        goal: &Goal,
        words: &mut [u64],
        budget: u64,
    ) -> Result<Task, AllocError>
        requires budget { budget ≤ 2 ^ 62 }
        requires task { (a : Actor) × IsTask a words.old budget goal.now self }
        ensures moves { IfOk result (λ next. TaskMoves words.old budget goal.now self words.new next) }
        ensures err { OnErr result (words.new ≡ words.old) }
    {
        match self {
            Task::Building(building) => build_on(alloc, building, goal, words, budget),
            Task::Walking(walking) => behind_walk(alloc, walking.step(words)?, budget),
            other => Ok(other),
        }
    }

    /// One step of the search machine. Where the goal doesn't search nothing changes. Takes what that step takes. The only
    /// error is want of memory.
    pub fn turn(self, alloc: Global, goal: &Goal) -> Result<Task, AllocError>
        requires { (a : Actor) × (words : List ℕ) × (budget : ℕ) × IsTask a words budget goal.now self }
        ensures { IfOk result (λ next. (budget : ℕ) → TaskTurns budget goal.now self next) }
    {
        match self {
            Task::Searching(solving, nodes) => match solving.turn(alloc, goal)? {
                Solved::More(solving) => Ok(Task::Searching(solving, nodes)),
                Solved::Ended(reply) => Ok(Task::Ended(Outcome::Replied(reply), nodes)),
            },
            other => Ok(other),
        }
    }

    /// How far the goal has come. O(1).
    pub fn phase(&self) -> Phase
        ensures { (goal : _) → IsOf goal self.now (λ work. result ≡ phase_of work) }
    {
        match self {
            Task::Building(_) => Phase::Building,
            Task::Walking(_) => Phase::Walking,
            Task::Searching(_, _) => Phase::Searching,
            Task::Ended(_, _) => Phase::Ended,
        }
    }

    /// The goal's outcome, if it has ended. O(1).
    pub fn outcome(&self) -> Option<&Outcome>
        ensures some { IfSome result (λ o. outcome_in self.now ≡ Some o.now) }
        ensures none { IfNone result (outcome_in self.now ≡ None) }
    {
        match self {
            Task::Ended(outcome, _) => Some(outcome),
            _ => None,
        }
    }

    /// Whether the goal is replied false. O(1).
    pub fn is_false(&self) -> bool
        ensures { (goal : _) → IsOf goal self.now (λ work. result ≡ is_false work) }
    {
        match self {
            Task::Ended(Outcome::Replied(Reply::False(_)), _) => true,
            _ => false,
        }
    }

    /// The nodes of the gates of the goal's cone, where it was searched to an end; else none. O(1).
    pub fn nodes(&self) -> &[u32]
        ensures { result.now ≡ nodes_of self.now }
    {
        match self {
            Task::Ended(_, nodes) => nodes.as_slice(),
            _ => &[],
        }
    }
}
